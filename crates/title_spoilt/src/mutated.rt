//! Scripts spoilt by chance, the same in every run.

use crate::reading::Command;
use crate::spoil::spoilt;
use crate::trial::Trial;
use anyhow::Result;
use std::sync::Wait;
use std::thread::Threads;
use title_chance::Chance;

/// Tries so many scripts that chance makes of one, and tells what came of them.
pub fn try_spoilt<R: Print + AllocGlobal + Threads + Wait + Sync>(
    rt: &R,
    name: &str,
    command: Command,
    script: &[u8],
    count: u32,
) -> Result<()> {
    let mut trial = Trial::new(command);
    let mut chance = Chance::new(u64::from(count));
    for _ in 0..count {
        trial.try_script(
            rt,
            spoilt(rt.alloc(), &mut chance, script)?.as_slice(),
            None,
        )?;
    }
    trial.tell(rt, "", name, " spoilt")
}
