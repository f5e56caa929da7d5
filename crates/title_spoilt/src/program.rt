//! A script, run through the functions that the program calls.

use crate::reading::{Command, EXAMINERS};
use crate::report::{field, number};
use std::alloc::{AllocError, Global};
use std::fmt;
use std::sync::Wait;
use std::thread::Threads;
use title_device::Device;
use title_program::{Unwatched, serve, serve_office};
use title_script::Schedule;

// How often a transaction of an office is begun at most.
const TRIES: u32 = 100;

/// What is printed, and the status after it.
pub struct Came {
    pub stdout: String,
    pub status: u8,
}

// By hand, so that whoever lets one go sees one call.
impl Drop for Came {
    fn drop(self) {
        let Came { stdout, status: _ } = self;
        drop(stdout);
    }
}

fn came_of(alloc: Global, stdout: &[u8], status: u8) -> Result<Came, AllocError> {
    Ok(Came {
        stdout: String::from_utf8_lossy(alloc, stdout)?,
        status,
    })
}

// How the transactions of a script come; none where an office serves it.
fn schedule_of(command: Command) -> Option<Schedule> {
    match command {
        Command::Run => Some(Schedule::Interleaved),
        Command::Alone => Some(Schedule::Serial),
        Command::Office => None,
    }
}

/// Does what a command asks for with a script, as the program does: the report, or the line of a fault.
pub fn run<R: AllocGlobal + Threads + Wait + Sync>(
    rt: &R,
    command: Command,
    script: &[u8],
) -> Result<Came, AllocError> {
    let alloc = rt.alloc();
    let mut source = Device::new(script);
    let mut sink = Device::new(Vec::new(alloc));
    let ending = match schedule_of(command) {
        Some(schedule) => serve(alloc, schedule, &mut source, &mut sink, &mut Unwatched),
        None => serve_office(rt, alloc, EXAMINERS, TRIES, &mut source, &mut sink),
    };
    let stdout = sink.into_inner();
    came_of(alloc, stdout.as_slice(), ending.status.code())
}

impl Came {
    /// Whether what came is a report.
    pub fn is_report(&self) -> bool {
        self.status == 0
    }

    /// The number of a fault's line; the greatest of 64 bits where there is none.
    pub fn fault(&self) -> u64 {
        let line = self.stdout.as_str();
        if field(line, 0) == "fault" {
            number(line, 1)
        } else {
            u64::MAX
        }
    }
}

impl fmt::Display for Came {
    fn fmt<W: fmt::Write>(&self, f: &mut fmt::Formatter<W>) -> fmt::Result {
        let (status, stdout) = (self.status, self.stdout.as_str());
        write!(f, "status {status}, {stdout:?}")
    }
}
