//! Scripts, given to the program and to the second reading.

use crate::program::{Came, run};
use crate::reading::{Command, Verdict, read};
use crate::report::{begins, is_report_of};
use crate::tally::Tally;
use anyhow::Result;
use std::alloc::{AllocError, Global};
use std::sync::Wait;
use std::thread::Threads;

/// Scripts tried by one command, and what came of them so far.
#[derive(Clone, Copy)]
pub struct Trial {
    command: Command,
    tally: Tally,
}

// Whether the program tells a fault, or a report of the steps, as the second reading has it.
fn agrees(
    alloc: Global,
    command: Command,
    verdict: &Verdict,
    came: &Came,
) -> Result<bool, AllocError> {
    let stdout = came.stdout.as_str();
    match verdict.fault {
        Some(fault) => {
            let line = format!(in alloc; "{fault}\n")?;
            Ok(came.status == 1 && stdout == line.as_str())
        }
        None => Ok(came.is_report() && is_report_of(command, verdict, stdout)),
    }
}

// Shows a script with both verdicts.
fn show<R: Print + AllocGlobal>(
    rt: &R,
    script: &[u8],
    verdict: &Verdict,
    came: &Came,
) -> Result<()> {
    let script = String::from_utf8_lossy(rt.alloc(), script)?;
    let script = script.as_str();
    println!(rt; "differs: {script:?}\n  second reading: {verdict}\n  program: {came}")?;
    Ok(())
}

impl Trial {
    /// No script is tried yet.
    pub fn new(command: Command) -> Trial {
        Trial {
            command,
            tally: Tally::default(),
        }
    }

    /// Tells what came of the scripts, by a name between two texts.
    pub fn tell(self, rt: &impl Print, before: &str, name: &str, after: &str) -> Result<()> {
        let (command, tally) = (self.command, self.tally);
        print!(rt; "{before}{name}{after}, ")?;
        println!(rt; "{command}: {tally}")?;
        Ok(())
    }

    /// Tries a script, and one that is a beginning of rows also against the report of the whole. The first that differs is shown.
    pub fn try_script<R: Print + AllocGlobal + Threads + Wait + Sync>(
        &mut self,
        rt: &R,
        script: &[u8],
        whole: Option<&Came>,
    ) -> Result<()> {
        let verdict = read(rt.alloc(), self.command, script)?;
        let came = run(rt, self.command, script)?;
        let is_begun = match whole {
            Some(whole) => begins(came.stdout.as_str(), whole.stdout.as_str()),
            None => true,
        };
        let is_same = is_begun && agrees(rt.alloc(), self.command, &verdict, &came)?;
        if !is_same && self.tally.is_clean() {
            show(rt, script, &verdict, &came)?;
        }
        self.tally.count(&came, is_same);
        Ok(())
    }
}
