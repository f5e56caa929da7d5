//! Viewers that ask, each by a thread, while an examiner sells.

use crate::sales::Selling;
use std::alloc::AllocError;
use std::sync::Wait;
use std::thread::{Threads, join, map_vec};
use title_land::Tract;
use title_office::{Room, Viewer};

// Asks a viewer for so many sheets: how many it was shown.
fn watch<B: Room>(tract: &Tract, mut viewer: Viewer<B>, sheets: u32) -> u64 {
    let mut shown = 0u64;
    for _ in 0..sheets {
        if viewer.sheet(tract).is_ok() {
            shown = shown.saturating_add(1);
        }
    }
    shown
}

fn sum(counts: &[u64]) -> u64 {
    let mut sum = 0u64;
    for count in counts {
        sum = sum.saturating_add(*count);
    }
    sum
}

// Each viewer asks for so many sheets by a thread: how many they were shown.
fn watch_each<B: Room + Send + Sync, R: Threads + Sync>(
    rt: &R,
    tract: &Tract,
    viewers: Vec<Viewer<B>>,
    sheets: u32,
) -> Result<u64, AllocError> {
    let counts = map_vec(rt, viewers, &|viewer| watch(tract, viewer, sheets))?;
    Ok(sum(counts.as_slice()))
}

/// Sells while each of these viewers asks for so many sheets: how many they were shown, and how many records there are then.
pub fn watch_all<B: Room + Send + Sync, R: Threads + Wait + Sync>(
    tract: &Tract,
    viewers: Vec<Viewer<B>>,
    sheets: u32,
    selling: Selling<B, R>,
) -> (Result<u64, AllocError>, Result<u32, AllocError>) {
    let rt = selling.rt;
    join(
        rt,
        move || watch_each(rt, tract, viewers, sheets),
        || selling.sell(),
    )
}
