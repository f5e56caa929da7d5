//! Scripts spoilt by chance.

use crate::line::{Line, lines_of, text_of};
use std::alloc::{AllocError, Global};
use title_chance::Chance;

/// An index below a number of indices, by chance; 0 where there is none.
pub fn pick(chance: &mut Chance, indices: usize) -> usize {
    let indices = u32::try_from(indices).unwrap_or(u32::MAX);
    usize::try_from(chance.below(indices)).unwrap_or(0)
}

// Exchanges two rows.
fn exchange(chance: &mut Chance, lines: &mut Vec<Line>) {
    let count = lines.len();
    let (one, other) = (pick(chance, count), pick(chance, count));
    if one < count && other < count {
        lines.swap(one, other);
    }
}

// Leaves out a row.
fn leave_out(chance: &mut Chance, lines: &mut Vec<Line>) {
    let index = pick(chance, lines.len());
    if index < lines.len() {
        let _gone = lines.remove(index);
    }
}

// Writes a row twice.
fn double(alloc: Global, chance: &mut Chance, lines: &mut Vec<Line>) -> Result<(), AllocError> {
    let index = pick(chance, lines.len());
    if let Some(line) = lines.get(index) {
        let copy = line.copy(alloc)?;
        lines.insert(index, copy)?;
    }
    Ok(())
}

// Spoils the rows of a script once.
fn spoil_lines(
    alloc: Global,
    chance: &mut Chance,
    lines: &mut Vec<Line>,
) -> Result<(), AllocError> {
    match chance.below(9) {
        0 | 1 => exchange(chance, lines),
        2 => leave_out(chance, lines),
        3 => double(alloc, chance, lines)?,
        _ => {
            let index = pick(chance, lines.len());
            if let Some(line) = lines.get_mut(index) {
                line.spoil(alloc, chance)?;
            }
        }
    }
    Ok(())
}

// Turns a bit.
fn turn_bit(chance: &mut Chance, text: &mut Vec<u8>) {
    let index = pick(chance, text.len());
    let bit = chance.below(8);
    if let Some(byte) = text.get_mut(index) {
        *byte ^= 1u8.checked_shl(bit).unwrap_or(0);
    }
}

// Puts a quote, a comma or a line end in, or takes a byte away.
fn spoil_bytes(chance: &mut Chance, text: &mut Vec<u8>) -> Result<(), AllocError> {
    let index = pick(chance, text.len());
    if index >= text.len() {
        return Ok(());
    }
    match chance.below(8) {
        0..=2 => turn_bit(chance, text),
        3 | 4 => text.insert(index, b'"')?,
        5 => text.insert(index, b',')?,
        6 => text.insert(index, b'\n')?,
        _ => {
            let _gone = text.remove(index);
        }
    }
    Ok(())
}

// Spoils the rows of a script up to twice.
fn spoilt_rows(alloc: Global, chance: &mut Chance, script: &[u8]) -> Result<Vec<u8>, AllocError> {
    let mut lines = lines_of(alloc, script)?;
    for _ in 0..chance.below(3) {
        spoil_lines(alloc, chance, &mut lines)?;
    }
    text_of(alloc, lines.as_slice())
}

/// A script with its rows spoilt up to twice, and its bytes up to twice.
pub fn spoilt(alloc: Global, chance: &mut Chance, script: &[u8]) -> Result<Vec<u8>, AllocError> {
    let mut text = spoilt_rows(alloc, chance, script)?;
    for _ in 0..chance.below(3) {
        spoil_bytes(chance, &mut text)?;
    }
    Ok(text)
}
