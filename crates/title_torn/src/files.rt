//! Files written by hand: no plants, each with the row that is at fault, and plants, with what stands in them.

use crate::day::read_file;
use crate::second::{Numbers, Verdict, read};
use crate::served::{PLAIN, Served, is_told, serve, standing};
use anyhow::{Result, bail};
use std::alloc::{AllocError, Global};
use std::rt::Files;
use std::str;
use title_lasting::{LastingFault, TellFault};

// What has to be told of a file.
#[derive(Clone, Copy)]
enum Wanted {
    /// This, by the second reading too: that it is no plant, for a row, or a plant, with its numbers and the bytes of the tail.
    Told(Verdict),
    /// It is no plant, for this row, where only a reader that knows what the fields may be sees it.
    FaultOfField(usize),
}

fn number(text: &str) -> usize {
    text.parse::<usize>().unwrap_or(usize::MAX)
}

fn number_at(numbers: &str, index: usize) -> usize {
    number(numbers.split(',').nth(index).unwrap_or(""))
}

// The plant of such numbers: townships, parties, transactions, posts, and the bytes of the tail.
fn plant_of(numbers: &str) -> Verdict {
    let stand = Numbers {
        townships: number_at(numbers, 0),
        parties: number_at(numbers, 1),
        transactions: number_at(numbers, 2),
        posts: number_at(numbers, 3),
    };
    Verdict::Plant(stand, number_at(numbers, 4))
}

// What the code in front of a file's text wants.
fn read_code(code: &str) -> Option<Wanted> {
    let (mark, rest) = code.split_at_checked(1)?;
    match mark {
        "=" => Some(Wanted::Told(Verdict::Fault(number(rest)))),
        "~" => Some(Wanted::FaultOfField(number(rest))),
        "!" => Some(Wanted::Told(plant_of(rest))),
        _ => None,
    }
}

// The bytes that a text says: `\n`, `\r`, `\t` for a whole head, `\m` for a byte order mark, `\x` for a byte that no text has.
fn unescaped(alloc: Global, text: &[u8]) -> Result<Vec<u8>, AllocError> {
    let mut bytes = Vec::new(alloc);
    let mut is_escape = false;
    for byte in text {
        if !is_escape && *byte == b'\\' {
            is_escape = true;
            continue;
        }
        let plain = [*byte];
        let said = match (is_escape, *byte) {
            (true, b'n') => b"\n".as_slice(),
            (true, b'r') => b"\r",
            (true, b't') => b"titleplant plant 1\n",
            (true, b'm') => b"\xEF\xBB\xBF",
            (true, b'x') => b"\xFF",
            _ => plain.as_slice(),
        };
        bytes.extend_from_slice(said)?;
        is_escape = false;
    }
    Ok(bytes)
}

// Whether a file is told to be no plant, for this row.
fn is_fault(alloc: Global, file: &[u8], row: usize) -> Result<bool, AllocError> {
    Ok(standing(alloc, file)?.outcome == Err(TellFault::NotAPlant(row)))
}

// Whether a file is told as the second reading has it.
fn is_told_so(alloc: Global, file: &[u8], verdict: Verdict) -> Result<bool, AllocError> {
    match verdict {
        Verdict::Fault(row) => is_fault(alloc, file, row),
        Verdict::Plant(numbers, tail) => {
            is_told(alloc, file, numbers.rows(alloc, tail)?.as_bytes())
        }
    }
}

// Whether a script is refused for this row, and the file was only read.
fn is_untouched(served: &Served, file: &[u8], row: usize) -> bool {
    served.outcome == Err(LastingFault::NotAPlant(row))
        && served.report.is_empty()
        && served.disk.bytes() == file
        && served.disk.calls().len() == 1
}

// Whether a file is told to be no plant, for this row, and so is a script on it.
fn is_refused(alloc: Global, script: &[u8], file: &[u8], row: usize) -> Result<bool, AllocError> {
    let is_told = is_fault(alloc, file, row)?;
    let served = serve(alloc, file, script, PLAIN)?;
    Ok(is_told && is_untouched(&served, file, row))
}

// Whether both readings, and a script, tell of a file what they have to.
fn is_right(alloc: Global, script: &[u8], wanted: Wanted, file: &[u8]) -> Result<bool, AllocError> {
    let verdict = read(alloc, file)?;
    match wanted {
        Wanted::Told(wanted) if wanted != verdict => Ok(false),
        Wanted::Told(Verdict::Plant(_, _)) => is_told_so(alloc, file, verdict),
        Wanted::Told(Verdict::Fault(row)) | Wanted::FaultOfField(row) => {
            is_refused(alloc, script, file, row)
        }
    }
}

// How many files were tried, and how many differ.
#[derive(Clone, Copy, Default)]
struct Count {
    plants: u32,
    faults: u32,
    differ: u32,
}

fn one_more(count: &mut u32) {
    *count = count.saturating_add(1);
}

impl Count {
    fn add(&mut self, wanted: Wanted, is_right: bool) {
        match wanted {
            Wanted::Told(Verdict::Plant(_, _)) => one_more(&mut self.plants),
            _ => one_more(&mut self.faults),
        }
        if !is_right {
            one_more(&mut self.differ);
        }
    }

    fn tell(self, rt: &impl Print, what: &str) -> Result<()> {
        let (faults, plants, differ) = (self.faults, self.plants, self.differ);
        println!(rt; "{what}: {faults} no plants, {plants} plants, {differ} differ")?;
        Ok(())
    }
}

// Tries the file of a line; those that differ are shown.
fn try_line<R: Print + AllocGlobal>(
    rt: &R,
    script: &[u8],
    line: &str,
    count: &mut Count,
) -> Result<()> {
    let Some((code, text)) = line.split_once(' ') else {
        bail!("a line of files has no text");
    };
    let Some(wanted) = read_code(code) else {
        bail!("a line of files has no code");
    };
    let alloc = rt.alloc();
    let is_right = is_right(
        alloc,
        script,
        wanted,
        unescaped(alloc, text.as_bytes())?.as_slice(),
    )?;
    if !is_right {
        println!(rt; "differs: {line}")?;
    }
    count.add(wanted, is_right);
    Ok(())
}

// Tries the files of all lines; those with `#` tell why.
fn try_lines<R: Print + AllocGlobal>(rt: &R, script: &[u8], lines: &[u8]) -> Result<()> {
    let mut count = Count::default();
    for line in str::from_utf8(lines)?.lines() {
        if !line.starts_with('#') {
            try_line(rt, script, line, &mut count)?;
        }
    }
    count.tell(rt, "files by hand")
}

/// Tries files written by hand, one in each line behind what has to be told of it.
pub fn try_files<R: Files + Print + AllocGlobal>(rt: &R) -> Result<()> {
    let script = read_file(rt, "monday", "csv")?;
    let lines = read_file(rt, "files", "txt")?;
    try_lines(rt, script.as_slice(), lines.as_slice())
}

// Tries a beginning.
fn try_beginning(alloc: Global, beginning: &[u8], count: &mut Count) -> Result<(), AllocError> {
    let verdict = read(alloc, beginning)?;
    count.add(
        Wanted::Told(verdict),
        is_told_so(alloc, beginning, verdict)?,
    );
    Ok(())
}

/// Tries each beginning of a plant's file: it is no plant, for the row in which it ends, or stands for a beginning of what stood.
pub fn try_beginnings<R: Print + AllocGlobal>(rt: &R, file: &[u8]) -> Result<()> {
    let mut count = Count::default();
    for len in 0..=file.len() {
        try_beginning(rt.alloc(), file.get(..len).unwrap_or(file), &mut count)?;
    }
    count.tell(rt, "beginnings of the last file")
}
