//! Drawing, from the source to the output.

ghost use Rattle.std.specs.Prelude.{◌≡◌, false};

use crate::asked::Asked;
use std::alloc::Global;
use title_device::{ReadFault, Sink, Source, read_all, write_all};
use title_plat::{PlatFault, Wanted, draw};

const HELP: &str = "\
Draws who owns which share of an estate, part by part, as a picture in SVG.

Usage: titleplat [N] < REPORT > PICTURE.svg

  REPORT is what `titleplant alone` or `titleplant run` writes.
  N is the number of a sheet in the report, from 1; where none is said, the last sheet is drawn.

The exit status is 0 for a picture or help, 1 for a report that has no such sheet or is none, and 2 for words that aren't
understood.
";

// Writes a text, and answers the status that is wanted then, or 1 where it can't be written.
fn print<W: Sink>(sink: &mut W, text: &str, status: u8) -> u8 {
    if sink.failed() {
        return 1;
    }
    match write_all(sink, text.as_bytes()) {
        Ok(()) => status,
        Err(_) => 1,
    }
}

/// Tells that the words aren't understood.
pub fn refuse<E: Sink>(errors: &mut E) -> u8 {
    print(
        errors,
        "error: the words aren't understood; titleplat --help tells which are\n",
        2,
    );
    2
}

// What is told of a fault.
fn told(why: PlatFault) -> &'static str {
    match why {
        PlatFault::NotAReport => "error: the input isn't a report\n",
        PlatFault::NoSheet => "error: the report has no such sheet\n",
        PlatFault::NotASheet => "error: the rows of the sheet aren't those of a sheet\n",
        PlatFault::Memory => "error: out of memory\n",
    }
}

// The picture of a sheet of the report in the source, or what is told where there is none.
fn picture_of<R: Source>(
    alloc: Global,
    wanted: Wanted,
    source: &mut R,
) -> Result<String, &'static str>
    requires works { R.has_failed source.old ≡ false }
{
    let report = match read_all(alloc, source) {
        Ok(report) => report,
        Err(ReadFault::Read) => return Err("error: the input can't be read, or is too long\n"),
        Err(ReadFault::Memory) => return Err("error: out of memory\n"),
    };
    match draw(alloc, report.as_slice(), wanted) {
        Ok(picture) => Ok(picture),
        Err(why) => Err(told(why)),
    }
}

/// Does what the words ask for, and answers the status with which the program ends. Where there is no picture, nothing is
/// written to the sink and one line to the errors.
pub fn serve<R: Source, W: Sink, E: Sink>(
    alloc: Global,
    asked: Asked,
    source: &mut R,
    sink: &mut W,
    errors: &mut E,
) -> u8
    requires works { R.has_failed source.old ≡ false }
{
    let wanted = match asked {
        Asked::Help => return print(sink, HELP, 0),
        Asked::Draw(wanted) => wanted,
    };
    match picture_of(alloc, wanted, source) {
        Ok(picture) => print(sink, picture.as_str(), 0),
        Err(why) => print(errors, why, 1).max(1),
    }
}
