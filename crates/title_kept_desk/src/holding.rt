//! Answers that are held back until what they tell is on the disk.

ghost use Rattle.std.specs.Prelude.{◌≡◌, ◌≤◌, ◌<◌, ◌+◌, ◌^◌, [], Some, false, IfOk, OnOk, length};
ghost use Rattle.title_counter.specs.{Lines.{last_line, lines_from}, Sessions.{Answers, IsSound}, Views.{counter_of}};

use std::alloc::{AllocError, Global};
use title_counter::{Clerk, LineStart, answer_batch, answer_rest};
use title_device::{Failed, Sink};
use title_page::Page;

/// A sink in memory. It fails where memory is refused.
#[derive(Drop)]
struct Held {
    bytes: Vec<u8>,
    failed: bool,
}

impl Held {
    /// Nothing yet.
    fn new(alloc: Global) -> Held
        ensures empty { result.bytes.items ≡ [] }
        ensures works { result.failed ≡ false }
    {
        Held {
            bytes: Vec::new(alloc),
            failed: false,
        }
    }
}

impl Sink for Held {
    ghost taken = { λ held. Some held.bytes.items };

    ghost has_failed = { λ held. held.failed };

    fn push(&mut self, buf: &[u8]) -> Result<usize, Failed> {
        let count = buf.len();
        if self.bytes.extend_from_slice(&buf[..count]).is_err() {
            self.failed = true;
            return Err(Failed);
        }
        Ok(count)
    }

    fn failed(&self) -> bool {
        self.failed
    }
}

/// Answers the whole lines of these bytes, of which the first has begun; the text of the answers. Where memory is refused for it the clerk
/// has taken some of the lines, and is of no more use.
pub(crate) fn hold_batch(
    alloc: Global,
    clerk: &mut Clerk,
    line: &mut LineStart,
    bytes: &[u8],
) -> Result<Vec<u8>, AllocError>
    requires fits { clerk.old.rows + length bytes.now < 2 ^ 64 }
    ensures answers { IfOk result (λ text. Answers (counter_of clerk.old) (lines_from line.old bytes.now).whole text.items
        (counter_of clerk.new)) }
    ensures rows { clerk.new.rows ≤ clerk.old.rows + length bytes.now }
    ensures rest { OnOk result (line.new ≡ (lines_from line.old bytes.now).rest) }
    ensures sound { IsSound (counter_of clerk.new) }
{
    let mut held = Held::new(alloc);
    let mut page = Page::new();
    match answer_batch(clerk, line, &mut page, &mut held, bytes) {
        Ok(()) => {
            let Held {
                bytes: text,
                failed: _,
            } = held;
            Ok(text)
        }
        Err(_) => Err(AllocError),
    }
}

/// Answers the last line, where something of it has come; the text of the answer, which is empty where there is no such line.
pub(crate) fn hold_rest(
    alloc: Global,
    clerk: &mut Clerk,
    line: &mut LineStart,
) -> Result<Vec<u8>, AllocError>
    requires fits { clerk.old.rows + 1 < 2 ^ 64 }
    ensures answers { IfOk result (λ text. Answers (counter_of clerk.old) (last_line line.old) text.items (counter_of clerk.new)) }
    ensures sound { IsSound (counter_of clerk.new) }
{
    let mut held = Held::new(alloc);
    let mut page = Page::new();
    match answer_rest(clerk, line, &mut page, &mut held) {
        Ok(()) => {
            let Held {
                bytes: text,
                failed: _,
            } = held;
            Ok(text)
        }
        Err(_) => Err(AllocError),
    }
}
