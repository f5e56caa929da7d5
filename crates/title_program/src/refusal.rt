//! Words of the command line that are no command.

ghost use Rattle.std.specs.{Prelude.{◌≡◌, ℕ, List}, Io.KnownBytes.{Appends}};
ghost use Rattle.title_program.specs.{Endings.{IsQuiet}, Obeying.{IsRefused, PrintsHelp, Warns}};

use crate::ending::{Ending, Why};
use crate::printing::{complain, print, tell_memory};
use crate::status::Status;
use clap::Error;
use std::alloc::Global;
use title_command::LineFault;
use title_device::Sink;

// Prints the text of help, or that memory ran out.
fn print_help<W: Sink>(alloc: Global, error: &Error, sink: &mut W) -> Status
    ensures shown { PrintsHelp (W.taken sink.old) (W.taken sink.new) (W.has_failed sink.new) result }
{
    match error.to_string(alloc) {
        Ok(text) => print(sink, text.as_bytes(), Status::Success),
        Err(_) => tell_memory(sink),
    }
}

// Tells on the errors that words aren't understood.
fn warn<E: Sink>(errors: &mut E, text: &str)
    ensures warned { (told : List ℕ) × Appends (E.taken errors.old) (E.taken errors.new) told }
{
    let _told = print(errors, text.as_bytes(), Status::Misunderstood);
}

// Tells on the errors why words aren't understood.
fn explain<E: Sink>(alloc: Global, error: &Error, errors: &mut E)
    ensures warned { (told : List ℕ) × Appends (E.taken errors.old) (E.taken errors.new) told }
{
    match error.to_string(alloc) {
        Ok(text) => warn(errors, text.as_str()),
        Err(_) => warn(errors, "error: the command line isn't understood\n"),
    }
}

/// Shows help on the output, or tells on the errors why words aren't understood, or on the output that memory ran out.
pub fn refuse<W: Sink, E: Sink>(
    alloc: Global,
    why: LineFault,
    sink: &mut W,
    errors: &mut E,
) -> Ending
    ensures refused { IsRefused why (W.taken sink.old) (W.taken sink.new) (W.has_failed sink.new) result.status }
    ensures quiet { IsQuiet result }
    ensures uncut { result.cut ≡ 0 }
    ensures told { Warns why (W.has_failed sink.new) (E.taken errors.old) (E.taken errors.new) }
{
    match why {
        LineFault::Help(error) => {
            let status = print_help(alloc, &error, sink);
            complain(sink, errors);
            Ending::told(status, None)
        }
        LineFault::Bad(error) => {
            explain(alloc, &error, errors);
            Ending::told(Status::Misunderstood, None)
        }
        LineFault::Memory => {
            let status = tell_memory(sink);
            complain(sink, errors);
            Ending::told(status, Some(Why::Memory))
        }
    }
}
