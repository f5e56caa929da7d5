//! Every byte at every index of a script.

use crate::reading::Command;
use crate::trial::Trial;
use anyhow::Result;
use std::sync::Wait;
use std::thread::Threads;

// Tries a script with each of the 256 bytes at an index.
fn try_values<R: Print + AllocGlobal + Threads + Wait + Sync>(
    rt: &R,
    trial: &mut Trial,
    script: &[u8],
    index: usize,
) -> Result<()> {
    let mut changed = Vec::from_slice(rt.alloc(), script)?;
    for value in 0..=u8::MAX {
        if let Some(byte) = changed.get_mut(index) {
            *byte = value;
        }
        trial.try_script(rt, changed.as_slice(), None)?;
    }
    Ok(())
}

/// Tries a script with each byte at each index, and tells what came of them.
pub fn try_bytes<R: Print + AllocGlobal + Threads + Wait + Sync>(
    rt: &R,
    name: &str,
    command: Command,
    script: &[u8],
) -> Result<()> {
    let mut trial = Trial::new(command);
    for index in 0..script.len() {
        try_values(rt, &mut trial, script, index)?;
    }
    trial.tell(rt, "each byte at each index of ", name, "")
}
