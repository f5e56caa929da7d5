//! Runs the program's functions on stored command lines, and names each whose output or status isn't what is stored.
#![tactic(auto)]

mod case;
mod judge;
mod rows;
mod run;
mod tables;
mod tally;

use anyhow::Result;
use std::process::ExitCode;
use tables::judge_tables;
use tally::Tally;

fn main(rt: HostRuntime) -> Result<ExitCode> {
    let mut tally = Tally::default();
    judge_tables(&rt, &mut tally)?;
    println!(rt; "{tally}")?;
    Ok(tally.exit_code())
}
