//! What stands in a plant's file, told as a script, which alone has a new file stand for as much.

use crate::day::{Day, NEW, Plant};
use crate::served::{PLAIN, Told, script, serve, standing};
use anyhow::Result;
use std::alloc::{AllocError, Global};
use title_lasting::TellFault;

// Whether a script has a new file come to stand for as much as a plant.
fn comes_again(alloc: Global, plant: &Plant, script: &[u8]) -> Result<bool, AllocError> {
    let served = serve(alloc, NEW, script, PLAIN)?;
    let told = standing(alloc, served.disk.bytes())?;
    Ok(
        served.outcome.is_ok()
            && told.outcome.is_ok()
            && told.text.as_slice().starts_with(plant.standing.as_slice()),
    )
}

// Whether a script is told that is as it has to be.
fn is_right(alloc: Global, day: &Day, plant: &Plant, told: &Told) -> Result<bool, AllocError> {
    if told.outcome.is_err() || told.text.as_slice() != day.told.as_slice() {
        return Ok(false);
    }
    comes_again(alloc, plant, told.text.as_slice())
}

fn tell(rt: &impl Print, name: &str, told: &Told, is_right: bool) -> Result<()> {
    match told.outcome {
        Ok(()) => {
            let bytes = told.text.len();
            println!(rt; "{name} as a script: {bytes} bytes, as they have to be: {is_right}")?
        }
        Err(TellFault::NoScript(row)) => println!(rt;
            "{name} as a script: none, by its row {row}"
        )?,
        Err(_) => println!(rt; "{name} as a script: differs")?,
    }
    Ok(())
}

/// Tells what stands after a day as a script.
pub fn try_script<R: Print + AllocGlobal>(rt: &R, day: &Day, plant: &Plant) -> Result<()> {
    let told = script(rt.alloc(), plant.file.as_slice())?;
    let is_right = is_right(rt.alloc(), day, plant, &told)?;
    tell(rt, day.name, &told, is_right)
}
