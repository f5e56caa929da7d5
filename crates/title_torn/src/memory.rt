//! Days whose calls are made once more where memory was refused: the file then stands as before.

use crate::day::NEW;
use anyhow::{Result, bail};
use std::alloc::{AllocError, Global};
use std::str;
use title_device::Device;
use title_disk::TornDisk;
use title_lasting::{
    LastingFault, Schedule, TellFault, Unwatched, run_onto, tell_script, tell_standing,
};

// A day: a script, its report, and the places before and after it.
#[derive(Clone, Copy)]
struct Day {
    script: &'static str,
    report: &'static str,
    before: u64,
    after: u64,
}

static DAYS: [Day; 2] = [
    Day {
        script: "township,T3N R2W\n\
            party,ADAMS\n\
            party,\"BELL, J.\"\n\
            1,deed,1,UNITED STATES,ADAMS,S,W1/1,,T3N R2W sec 5\n\
            2,begin\n\
            2,deed,2,ADAMS,\"BELL, J.\",S,W1/2,,\"T3N R2W sec 5 NE1/4, S1/2\"\n\
            2,chain,T3N R2W sec 5\n\
            2,commit\n",
        report: "1,posted\n\
            2,began\n\
            2,posted\n\
            2,chain,2\n\
            2,entry,1,1,deed,UNITED STATES,ADAMS,S\n\
            2,entry,0,2,deed,ADAMS,\"BELL, J.\",S\n\
            2,committed,2\n\
            end,5\n",
        before: 0,
        after: 2,
    },
    Day {
        script: "township,T4N R2W\n\
            party,CLARK\n\
            1,deed,3,UNITED STATES,CLARK,SOM,I1/2,O1/4,T4N R2W\n",
        report: "1,posted\nend,1\n",
        before: 2,
        after: 3,
    },
];

// More bytes than a report has.
const ROOM: usize = 1_024;

/// How many calls wanted memory.
#[derive(Clone, Copy)]
pub struct Wanted {
    calls: u32,
}

impl Wanted {
    /// None yet.
    pub fn new() -> Wanted {
        Wanted { calls: 0 }
    }

    /// How many there were.
    pub fn calls(&self) -> u32 {
        self.calls
    }

    /// Counts a call that wanted memory.
    pub fn count(&mut self) {
        self.calls = self.calls.saturating_add(1);
    }

    // A copy, made once more where a growth was refused.
    fn copy(&mut self, alloc: Global, bytes: &[u8]) -> Result<Vec<u8>, AllocError> {
        if let Ok(copy) = Vec::from_slice(alloc, bytes) {
            return Ok(copy);
        }
        self.count();
        Vec::from_slice(alloc, bytes)
    }

    // A list with room, made once more where a growth was refused.
    fn room(&mut self, alloc: Global) -> Result<Vec<u8>, AllocError> {
        if let Ok(room) = Vec::with_capacity(alloc, ROOM) {
            return Ok(room);
        }
        self.count();
        Vec::with_capacity(alloc, ROOM)
    }
}

// What came of a day: how it ended, the bytes of the file, and what was written.
struct Came {
    outcome: Result<(), LastingFault>,
    file: Vec<u8>,
    report: Vec<u8>,
}

// By hand, so that whoever lets one go sees one call.
impl Drop for Came {
    fn drop(self) {
        let Came {
            outcome: _,
            file,
            report,
        } = self;
        drop(file);
        drop(report);
    }
}

// What came of a day, where the file that stands then could be copied.
fn came_of(
    outcome: Result<(), LastingFault>,
    file: Result<Vec<u8>, AllocError>,
    report: Vec<u8>,
) -> Result<Came, AllocError> {
    Ok(Came {
        outcome,
        file: file?,
        report,
    })
}

impl Came {
    fn into_file(self) -> Vec<u8> {
        let Came {
            outcome: _,
            file,
            report,
        } = self;
        drop(report);
        file
    }

    fn has_reported(&self, day: Day) -> bool {
        self.outcome.is_ok() && self.report.as_slice() == day.report.as_bytes()
    }
}

// Serves a day with this room for its report.
fn run_once(
    alloc: Global,
    day: Day,
    file: Vec<u8>,
    room: Vec<u8>,
    wanted: &mut Wanted,
) -> Result<Came, AllocError> {
    let mut disk = TornDisk::new(alloc, file, None);
    let mut source = Device::new(day.script.as_bytes());
    let mut sink = Device::new(room);
    let ended = run_onto(
        alloc,
        Schedule::Serial,
        Some(day.before),
        &mut disk,
        &mut source,
        &mut sink,
        &mut Unwatched,
    );
    let file = wanted.copy(alloc, disk.bytes());
    came_of(ended.outcome, file, sink.into_inner())
}

// Sees that nothing was told of a day that memory was refused to: the file that stands. Where it was the disk that wanted memory, at its
// last calls, all of the day may stand.
fn untold(first: Came, stood: &[u8]) -> Result<Vec<u8>> {
    if !first.report.is_empty() {
        bail!("something was told of a day that memory was refused to");
    }
    if first.outcome == Err(LastingFault::Memory) && first.file.as_slice() != stood {
        bail!("something was written before memory was refused");
    }
    Ok(first.into_file())
}

// Serves a day that memory was refused to once more on what stands then.
fn run_twice(
    alloc: Global,
    day: Day,
    first: Came,
    stood: &[u8],
    wanted: &mut Wanted,
) -> Result<Vec<u8>> {
    wanted.count();
    let file = untold(first, stood)?;
    let room = wanted.room(alloc)?;
    let second = run_once(alloc, day, file, room, wanted)?;
    if second.has_reported(day) || second.outcome == Err(LastingFault::After(day.after)) {
        return Ok(second.into_file());
    }
    bail!("a day isn't served once more")
}

// A day on a file at rest: the file after it.
fn run(alloc: Global, day: Day, stood: &[u8], wanted: &mut Wanted) -> Result<Vec<u8>> {
    let file = wanted.copy(alloc, stood)?;
    let room = wanted.room(alloc)?;
    let came = run_once(alloc, day, file, room, wanted)?;
    match came.outcome {
        Ok(()) if came.has_reported(day) => Ok(came.into_file()),
        Err(LastingFault::Memory | LastingFault::Disk | LastingFault::Unsure) => {
            run_twice(alloc, day, came, stood, wanted)
        }
        _ => bail!("a day isn't served"),
    }
}

// What is told of a file.
#[derive(Clone, Copy)]
enum Told {
    Numbers,
    Script,
}

fn tell_once(
    alloc: Global,
    told: Told,
    file: Vec<u8>,
    room: Vec<u8>,
) -> Result<Vec<u8>, TellFault> {
    let mut disk = TornDisk::new(alloc, file, None);
    let mut sink = Device::new(room);
    let outcome = match told {
        Told::Numbers => tell_standing(alloc, &mut disk, &mut sink),
        Told::Script => tell_script(alloc, &mut disk, &mut sink),
    };
    outcome.and(Ok(sink.into_inner()))
}

// What is told of a file that is copied.
fn text_once(
    alloc: Global,
    told: Told,
    file: &[u8],
    wanted: &mut Wanted,
) -> Result<Result<Vec<u8>, TellFault>, AllocError> {
    let copy = wanted.copy(alloc, file)?;
    let room = wanted.room(alloc)?;
    Ok(tell_once(alloc, told, copy, room))
}

fn text_of(alloc: Global, told: Told, file: &[u8], wanted: &mut Wanted) -> Result<Vec<u8>> {
    match text_once(alloc, told, file, wanted)? {
        Err(TellFault::Memory) => {
            wanted.count();
            Ok(text_once(alloc, told, file, wanted)??)
        }
        text => Ok(text?),
    }
}

// Tells a text line by line.
fn tell_text(rt: &impl Print, text: &[u8]) -> Result<()> {
    let text = str::from_utf8(text)?;
    println!(rt; "{}", text.strip_suffix('\n').unwrap_or(text))?;
    Ok(())
}

// The file after the days.
fn file_after(alloc: Global, days: &[Day], wanted: &mut Wanted) -> Result<Vec<u8>> {
    let mut file = wanted.copy(alloc, NEW)?;
    for day in days {
        file = run(alloc, *day, file.as_slice(), wanted)?;
    }
    Ok(file)
}

// Tells a file, and what stands in it, in numbers and as a script.
fn tell_file(rt: &impl Print, alloc: Global, file: &[u8], wanted: &mut Wanted) -> Result<()> {
    tell_text(rt, file)?;
    tell_text(rt, text_of(alloc, Told::Numbers, file, wanted)?.as_slice())?;
    tell_text(rt, text_of(alloc, Told::Script, file, wanted)?.as_slice())
}

/// Two days on a new file, and what stands then.
pub fn tell(rt: &impl Print, alloc: Global, wanted: &mut Wanted) -> Result<()> {
    let file = file_after(alloc, &DAYS, wanted)?;
    println!(rt; "two days:")?;
    tell_file(rt, alloc, file.as_slice(), wanted)
}
