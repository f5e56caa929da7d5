//! The row of a file in which a transaction ends.

ghost use Rattle.std.specs.{Prelude.{◌≡◌, ◌==◌, ℕ, List, not}, List.{find}};
ghost use Rattle.title_daybook.specs.{Ends.{is_mark, is_step, past_row, past_rows, quote}, Files.{row_of}, Lines.{lines_of}};
ghost use Rattle.title_journal.specs.Rest.{IsReadFrom};

use crate::lines::line_len;
use title_journal::Blocks;

/// A walk over the rows of a file, up to the one in which a transaction ends: the row that it has come to, whether a transaction has
/// begun there, and how many are still to end.
#[derive(Clone, Copy)]
struct Walk {
    row: usize,
    begun: bool,
    left: u64,
}

// The first byte of a row that is no quote.
fn first_byte(line: &[u8]) -> Option<u8>
    ensures first { result ≡ find (λ byte. not (byte == quote)) line.now }
{
    line.iter().copied().find(|byte| *byte != b'"')
}

// Whether a row is a step: it begins with an examiner's number.
fn is_step(line: &[u8]) -> bool
    ensures step { result ≡ is_step line.now }
{
    match first_byte(line) {
        Some(byte) => byte.is_ascii_digit(),
        None => false,
    }
}

// Whether a step begins or commits: it has one comma, and a post has more.
fn is_mark(step: &[u8]) -> bool
    ensures mark { result ≡ is_mark step.now }
{
    step.iter().filter(|byte| **byte == b',').count() == 1
}

impl Walk {
    // Goes past a row. Where no transaction is left to end, the walk stays.
    fn pass(self, line: &[u8]) -> Walk
        ensures passed { result ≡ past_row self line.now }
    {
        if self.left == 0 {
            return self;
        }
        let row = self.row.saturating_add(1);
        if !is_step(line) {
            return Walk { row, ..self };
        }
        let ended = is_mark(line) == self.begun;
        Walk {
            row,
            begun: !ended,
            left: if ended { self.left - 1 } else { self.left },
        }
    }

    // Goes past the rows of a text.
    fn pass_rows(self, text: &[u8]) -> Walk
        ensures passed { result ≡ past_rows self (lines_of text.now) }
    {
        let mut walk = self;
        let mut at = 0;
        'rows: while at < text.len() {
            let len = line_len(&text[at..]);
            walk = walk.pass(&text[at..at + len]);
            at += len + 1;
        }
        walk
    }
}

/// The row of a plant's file in which the transaction of this place ends, by the blocks that were read from it: its `commit`, or a post
/// outside of `begin` and `commit`. It is 1, the head's, for place 0, and 0 where fewer transactions end.
pub fn row_of(blocks: &Blocks, place: u64) -> usize
    ensures row { (file : List ℕ) → IsReadFrom file blocks.now → result ≡ row_of file place }
{
    let mut walk = Walk {
        row: 1,
        begun: false,
        left: place,
    };
    'blocks: for text in &blocks.texts {
        walk = walk.pass(b"+").pass_rows(text);
    }
    if walk.left == 0 { walk.row } else { 0 }
}
