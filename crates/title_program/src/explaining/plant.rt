//! Plants' files at fault.

use crate::explaining::OUT_OF_MEMORY;
use std::alloc::{AllocError, Global};
use title_advice::Quoted;
use title_disk::OpenFault;
use title_lasting::{LastingFault, TellFault};

// What is wrong with a file that is no plant.
fn no_plant_advice(alloc: Global, path: &str, row: usize) -> Result<String, AllocError> {
    let path = Quoted(path);
    if row == 1 {
        return format!(in alloc;
            "error: {path} is no plant: its first row isn't titleplant plant 1; it is left as it is\n"
        );
    }
    format!(in alloc;
        "error: {path} is no plant: its row {row} can't stand there; it is left as it is\n"
    )
}

/// Why a plant's file isn't opened, in a line.
pub(crate) fn opening_advice(
    alloc: Global,
    path: &str,
    fault: OpenFault,
) -> Result<String, AllocError> {
    let path = Quoted(path);
    match fault {
        OpenFault::Unopened => format!(in alloc;
            "error: {path} can't be opened: it must be a regular file that may be read and written, \
            or its folder one in which it can be made\n"
        ),
        OpenFault::InUse => format!(in alloc;
            "error: {path} is in use by another: try again when that has ended\n"
        ),
        OpenFault::Memory => String::from_str(alloc, OUT_OF_MEMORY),
    }
}

/// Why a plant's file isn't looked at, in a line.
pub(crate) fn looking_advice(
    alloc: Global,
    path: &str,
    fault: OpenFault,
) -> Result<String, AllocError> {
    let quoted = Quoted(path);
    match fault {
        OpenFault::Unopened => format!(in alloc;
            "error: {quoted} can't be read: it must be a regular file that may be read\n"
        ),
        _ => opening_advice(alloc, path, fault),
    }
}

/// Why a script isn't served on top of a plant's file, or isn't sure to count, in a line; nothing where that is told by a row of the
/// script.
pub(crate) fn lasting_advice(
    alloc: Global,
    path: &str,
    fault: LastingFault,
) -> Result<String, AllocError> {
    let quoted = Quoted(path);
    match fault {
        LastingFault::NotAPlant(row) => no_plant_advice(alloc, path, row),
        LastingFault::Disk => format!(in alloc;
            "error: the disk failed at {quoted}, or is full: what stood there stands, \
            and the script doesn't count\n"
        ),
        LastingFault::Unsure => format!(in alloc;
            "error: the disk failed at the end of {quoted}: the script counts whole or not at all; \
            see the last place by titleplant check\n"
        ),
        LastingFault::After(last) => format!(in alloc;
            "error: the last place in {quoted} is {last}, and another was expected: \
            nothing was done\n"
        ),
        LastingFault::Joins(place) => format!(in alloc;
            "error: a township that the script declares can't join {quoted}: \
            a post of the transaction in place {place} takes effect there too, and can't\n"
        ),
        LastingFault::Write => format!(in alloc;
            "what the script declared and committed counts in {quoted}\n"
        ),
        LastingFault::Memory => String::from_str(alloc, OUT_OF_MEMORY),
        _ => Ok(String::new(alloc)),
    }
}

/// Why what stands in a plant's file isn't told, in a line. That the output can't be written has been told before.
pub(crate) fn telling_advice(
    alloc: Global,
    path: &str,
    fault: TellFault,
) -> Result<String, AllocError> {
    let quoted = Quoted(path);
    match fault {
        TellFault::NotAPlant(row) => no_plant_advice(alloc, path, row),
        TellFault::Disk => looking_advice(alloc, path, OpenFault::Unopened),
        TellFault::NoScript(row) => format!(in alloc;
            "error: no script says what stands in {quoted}: its row {row} would be a row or a byte \
            too many, or its land has no description\n"
        ),
        TellFault::Memory => String::from_str(alloc, OUT_OF_MEMORY),
        TellFault::Write => Ok(String::new(alloc)),
    }
}

// The name of the file in which bytes are kept that were cut off the end of another.
fn name_beside(alloc: Global, path: &str) -> Result<String, AllocError> {
    let name = match path.rsplit_once('/') {
        Some((_, name)) => name,
        None => path,
    };
    format!(in alloc; "{name}.cut")
}

// What became of bytes that were cut off, or of one.
fn what_became(is_one: bool, is_kept: bool) -> &'static str {
    match (is_one, is_kept) {
        (true, true) => "was cut off; it is kept",
        (true, false) => "was cut off; it couldn't be kept",
        (false, true) => "were cut off; they are kept",
        (false, false) => "were cut off; they couldn't be kept",
    }
}

/// That bytes at the end of a plant's file didn't count, and whether they are kept in one beside, in a line.
pub(crate) fn cut_advice(
    alloc: Global,
    path: &str,
    bytes: usize,
    is_kept: bool,
) -> Result<String, AllocError> {
    let beside = name_beside(alloc, path)?;
    let (path, beside) = (Quoted(path), Quoted(beside.as_str()));
    let unit = if bytes == 1 { "byte" } else { "bytes" };
    let became = what_became(bytes == 1, is_kept);
    format!(in alloc;
        "{bytes} {unit} at the end of {path} didn't count, and {became} beside it in {beside}\n"
    )
}
