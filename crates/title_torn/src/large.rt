//! A file of 1,000,000 rows with all the parties that there may be: it is told, a day comes behind it, and one party more doesn't.

use crate::served::{PLAIN, is_told, serve};
use anyhow::Result;
use std::alloc::{AllocError, Global};
use title_lasting::LastingFault;

// The parties beside UNITED STATES.
const PARTIES: u32 = 65_535;

// The deeds, in pairs: with the township and the parties they are 1,000,000 rows.
const PAIRS: u32 = 467_232;

const STANDING: &str = "townships,1\nparties,65536\ntransactions,934464\nposts,934464\ntail,0\n";

const SCRIPT: &str = "1,deed,1,UNITED STATES,P65535,S,W1/2,,T3N R2W sec 5\n";

// What comes behind the rows by the script, in the place of the closed gate.
const BLOCK: &str = "+\n1,deed,1,UNITED STATES,P65535,S,W1/2,,T3N R2W sec 5\nend,934465\n-";

fn quarter(number: u32) -> &'static str {
    match number % 4 {
        0 => "NE1/4",
        1 => "NW1/4",
        2 => "SW1/4",
        _ => "SE1/4",
    }
}

// A party gets the surface of a quarter of a section and gives it back, each by a transaction of its own.
fn add_pair(file: &mut String, number: u32) -> Result<(), AllocError> {
    let (party, section) = (number % PARTIES + 1, number % 36 + 1);
    let quarter = quarter(number / 36);
    write!(
        file,
        "1,deed,1,UNITED STATES,P{party},S,W1/1,,T3N R2W sec {section} {quarter}\n\
        2,deed,2,P{party},UNITED STATES,S,W1/1,,T3N R2W sec {section} {quarter}\n"
    )
}

// Declares all the parties that there may be.
fn add_parties(file: &mut String) -> Result<(), AllocError> {
    file.push_str("titleplant plant 1\n+\ntownship,T3N R2W\n")?;
    for party in 1..=PARTIES {
        write!(file, "party,P{party}\n")?;
    }
    Ok(())
}

// A file with all the parties, and nothing else.
fn full_file(alloc: Global) -> Result<String, AllocError> {
    let mut file = String::new(alloc);
    add_parties(&mut file)?;
    file.push_str("end,0\n-")?;
    Ok(file)
}

// The file of 1,000,000 rows: one block.
fn large_file(alloc: Global) -> Result<String, AllocError> {
    let mut file = String::new(alloc);
    add_parties(&mut file)?;
    for number in 0..PAIRS {
        add_pair(&mut file, number)?;
    }
    file.push_str("end,934464\n-")?;
    Ok(file)
}

// Whether a file is another one with the script's rows in the place of the closed gate.
fn is_behind(file: &[u8], before: &[u8]) -> bool {
    match file.split_at_checked(before.len().saturating_sub(1)) {
        Some((stood, added)) => before.starts_with(stood) && added == BLOCK.as_bytes(),
        None => false,
    }
}

// Whether a script comes behind all that stands.
fn is_added(alloc: Global, file: &[u8]) -> Result<bool, AllocError> {
    let served = serve(alloc, file, SCRIPT.as_bytes(), PLAIN)?;
    Ok(
        served.outcome.is_ok()
            && served.report.as_slice() == b"1,posted\nend,1\n".as_slice()
            && is_behind(served.disk.bytes(), file),
    )
}

// Whether there is no room for one party more, and the file was only read.
fn is_full(alloc: Global) -> Result<bool, AllocError> {
    let file = full_file(alloc)?;
    let served = serve(alloc, file.as_bytes(), b"party,P65536\n", PLAIN)?;
    Ok(
        served.outcome == Err(LastingFault::Row(1))
            && served.report.is_empty()
            && served.disk.calls().len() == 1
            && served.disk.bytes() == file.as_bytes(),
    )
}

fn tell_large<R: Print + AllocGlobal>(rt: &R, file: &[u8]) -> Result<()> {
    let told = is_told(rt.alloc(), file, STANDING.as_bytes())?;
    let added = is_added(rt.alloc(), file)?;
    println!(rt; "1000000 rows are told: {told}; a day comes behind them: {added}")?;
    Ok(())
}

/// Tells what stands in a file of 1,000,000 rows, and serves a script on it; and one on a file with all the parties.
pub fn try_large<R: Print + AllocGlobal>(rt: &R) -> Result<()> {
    tell_large(rt, large_file(rt.alloc())?.as_bytes())?;
    let full = is_full(rt.alloc())?;
    println!(rt; "with 65535 parties one more is refused: {full}")?;
    Ok(())
}
