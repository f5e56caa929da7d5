//! Printing.

ghost use Rattle.std.specs.Prelude.{◌≡◌};
ghost use Rattle.title_program.specs.{Faults.{fault_line, memory}, Obeying.{Complains}, Printing.{Prints, TellsFault}};
ghost use Rattle.title_program.specs.declared.status.Status.TheVariants as status;

use crate::fault::Fault;
use crate::status::Status;
use std::alloc::Global;
use title_device::{Sink, write_all};

/// Prints a text, and answers the status that is wanted then: `Failure` in its place where the sink has failed.
pub(crate) fn print<W: Sink>(sink: &mut W, text: &[u8], wanted: Status) -> Status
    ensures prints { Prints text.now wanted (W.taken sink.old) (W.taken sink.new) (W.has_failed sink.new) result }
{
    if sink.failed() {
        return Status::Failure;
    }
    match write_all(sink, text) {
        Ok(()) => wanted,
        Err(_) => Status::Failure,
    }
}

/// Prints that memory ran out, which takes none.
pub(crate) fn tell_memory<W: Sink>(sink: &mut W) -> Status
    ensures tells { Prints (fault_line memory) status.Failure (W.taken sink.old) (W.taken sink.new) (W.has_failed sink.new) result }
{
    print(sink, b"fault,6\n", Status::Failure)
}

/// Prints the line of a fault, or that memory ran out.
pub(crate) fn tell<W: Sink>(alloc: Global, fault: Fault, sink: &mut W) -> Status
    ensures tells { TellsFault fault (W.taken sink.old) (W.taken sink.new) (W.has_failed sink.new) result }
{
    match fault.line(alloc) {
        Ok(line) => print(sink, line.as_bytes(), Status::Failure),
        Err(_) => tell_memory(sink),
    }
}

/// Tells on the errors that the output has failed, where it has.
pub(crate) fn complain<W: Sink, E: Sink>(sink: &W, errors: &mut E)
    ensures complains { Complains (W.has_failed sink.now) (E.taken errors.old) (E.taken errors.new) }
{
    if sink.failed() {
        let _told = print(
            errors,
            b"error: the report can't be written\n",
            Status::Failure,
        );
    }
}
