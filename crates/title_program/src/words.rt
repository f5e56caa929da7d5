//! The words of the command line, and what is done where they can't be taken.

ghost use Rattle.std.specs.Prelude.{◌≡◌};
ghost use Rattle.title_program.specs.Obeying.{IsUntaken, WarnsUntaken};
ghost use Rattle.title_program.specs.declared.words.WordsFault.TheVariants as fault;

use crate::ending::{Ending, Why};
use crate::printing::{complain, print, tell_memory};
use crate::status::Status;
use std::alloc::AllocError;
use std::io;
use title_device::Sink;

/// Why the words of the command line can't be taken.
#[derive(Clone, Copy, Debug, PartialEq, Eq)]
pub enum WordsFault {
    /// A word isn't UTF-8.
    NotText,
    /// Memory ran out.
    Memory,
}

impl From<io::Error> for WordsFault {
    fn from(error: io::Error) -> WordsFault {
        if error.kind() == io::ErrorKind::OutOfMemory {
            WordsFault::Memory
        } else {
            WordsFault::NotText
        }
    }
}

impl From<AllocError> for WordsFault {
    ghost from_gives = { λ _ e. e ≡ fault.Memory };

    fn from(_failed: AllocError) -> WordsFault {
        WordsFault::Memory
    }
}

/// Tells on the errors that a word isn't text, or on the output that memory ran out.
pub fn refuse_untaken<W: Sink, E: Sink>(why: WordsFault, sink: &mut W, errors: &mut E) -> Ending
    ensures refused { IsUntaken why (W.taken sink.old) (W.taken sink.new) (W.has_failed sink.new) result.status }
    ensures told { WarnsUntaken why (W.has_failed sink.new) (E.taken errors.old) (E.taken errors.new) }
{
    match why {
        WordsFault::NotText => {
            let text = b"error: a word of the command line isn't UTF-8\n";
            print(errors, text, Status::Misunderstood);
            Ending::told(Status::Misunderstood, None)
        }
        WordsFault::Memory => {
            let status = tell_memory(sink);
            complain(sink, errors);
            Ending::told(status, Some(Why::Memory))
        }
    }
}
