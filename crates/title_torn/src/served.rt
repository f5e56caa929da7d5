//! A script, served on a file that lies on a disk in memory.

use crate::day::Day;
use crate::devices::{FlakyReader, FlakyWriter};
use std::alloc::{AllocError, Global};
use title_device::Device;
use title_disk::TornDisk;
use title_lasting::{
    LastingFault, Schedule, TellFault, Unwatched, run_onto, tell_script, tell_standing,
};

/// What came of a script: the disk, how many bytes were cut off, how it ended, and what was written.
pub struct Served {
    pub disk: TornDisk,
    pub cut: usize,
    pub outcome: Result<(), LastingFault>,
    pub report: Vec<u8>,
}

// By hand, so that whoever lets one go sees one call.
impl Drop for Served {
    fn drop(self) {
        let Served {
            disk,
            cut: _,
            outcome: _,
            report,
        } = self;
        drop(disk);
        drop(report);
    }
}

/// How a script is served: how its transactions come, which call of the disk is refused, and which place has to be the last.
#[derive(Clone, Copy)]
pub struct How {
    pub schedule: Schedule,
    pub refused: Option<usize>,
    pub after: Option<u64>,
}

/// One transaction after another, nothing refused, and any place the last.
pub const PLAIN: How = How {
    schedule: Schedule::Serial,
    refused: None,
    after: None,
};

/// Serves a script on a file.
pub fn serve(alloc: Global, file: &[u8], script: &[u8], how: How) -> Result<Served, AllocError> {
    let mut disk = TornDisk::new(alloc, Vec::from_slice(alloc, file)?, how.refused);
    let mut source = Device::new(script);
    let mut sink = Device::new(Vec::new(alloc));
    let ended = run_onto(
        alloc,
        how.schedule,
        how.after,
        &mut disk,
        &mut source,
        &mut sink,
        &mut Unwatched,
    );
    Ok(Served {
        disk,
        cut: ended.cut,
        outcome: ended.outcome,
        report: sink.into_inner(),
    })
}

/// Serves a day's script on a file, whose reader and writer fail after so many bytes.
pub fn serve_flaky(
    alloc: Global,
    file: &[u8],
    day: &Day,
    read: usize,
    written: usize,
) -> Result<Served, AllocError> {
    let mut disk = TornDisk::new(alloc, Vec::from_slice(alloc, file)?, None);
    let mut source = Device::new(FlakyReader {
        left: day.script.as_slice(),
        good_turns: read,
    });
    let mut sink = Device::new(FlakyWriter {
        taken: Vec::new(alloc),
        good_turns: written,
    });
    let ended = run_onto(
        alloc,
        day.schedule,
        None,
        &mut disk,
        &mut source,
        &mut sink,
        &mut Unwatched,
    );
    let FlakyWriter { taken, .. } = sink.into_inner();
    Ok(Served {
        disk,
        cut: ended.cut,
        outcome: ended.outcome,
        report: taken,
    })
}

/// What is told of a file, or why it isn't told.
pub struct Told {
    pub outcome: Result<(), TellFault>,
    pub text: Vec<u8>,
}

// The same.
impl Drop for Told {
    fn drop(self) {
        let Told { outcome: _, text } = self;
        drop(text);
    }
}

/// What stands in a file, in numbers.
pub fn standing(alloc: Global, file: &[u8]) -> Result<Told, AllocError> {
    let mut disk = TornDisk::new(alloc, Vec::from_slice(alloc, file)?, None);
    let mut sink = Device::new(Vec::new(alloc));
    let outcome = tell_standing(alloc, &mut disk, &mut sink);
    Ok(Told {
        outcome,
        text: sink.into_inner(),
    })
}

/// Whether this is told of what stands in a file, in numbers.
pub fn is_told(alloc: Global, file: &[u8], text: &[u8]) -> Result<bool, AllocError> {
    let told = standing(alloc, file)?;
    Ok(told.outcome.is_ok() && told.text.as_slice() == text)
}

/// What stands in a file, as a script.
pub fn script(alloc: Global, file: &[u8]) -> Result<Told, AllocError> {
    let mut disk = TornDisk::new(alloc, Vec::from_slice(alloc, file)?, None);
    let mut sink = Device::new(Vec::new(alloc));
    let outcome = tell_script(alloc, &mut disk, &mut sink);
    Ok(Told {
        outcome,
        text: sink.into_inner(),
    })
}
