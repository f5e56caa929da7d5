//! Every beginning of a script.

use crate::program::{Came, run};
use crate::reading::Command;
use crate::trial::Trial;
use anyhow::Result;
use std::sync::Wait;
use std::thread::Threads;

// The report of a whole script, where a beginning of it has only whole rows and there is such a report that goes on from row to row.
fn whole_of<'a>(command: Command, beginning: &[u8], whole: &'a Came) -> Option<&'a Came> {
    let is_of_rows = beginning.last().is_none_or(|byte| *byte == b'\n');
    if is_of_rows && whole.is_report() && command != Command::Office {
        Some(whole)
    } else {
        None
    }
}

// Tries each beginning of a script, cut at each byte. A report of whole rows has to begin the report of the whole script.
fn cut<R: Print + AllocGlobal + Threads + Wait + Sync>(
    rt: &R,
    command: Command,
    script: &[u8],
    whole: &Came,
) -> Result<Trial> {
    let mut trial = Trial::new(command);
    for end in 0..=script.len() {
        let beginning = script.get(..end).unwrap_or(script);
        trial.try_script(rt, beginning, whole_of(command, beginning, whole))?;
    }
    Ok(trial)
}

/// Tries each beginning of a script, and tells what came of them.
pub fn try_cuts<R: Print + AllocGlobal + Threads + Wait + Sync>(
    rt: &R,
    name: &str,
    command: Command,
    script: &[u8],
) -> Result<()> {
    let trial = cut(rt, command, script, &run(rt, command, script)?)?;
    trial.tell(rt, "beginnings of ", name, "")
}
