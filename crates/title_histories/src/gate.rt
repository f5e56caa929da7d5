//! A gate that lets the others go first.

use std::sync::Wait;
use std::sync::atomic::{AtomicU64, Ordering};
use std::thread::yield_now;
use title_office::Gate;

/// Gives the processor away after each call to the office, and counts the calls.
#[derive(Drop)]
pub struct Yielding {
    calls: AtomicU64,
}

impl Yielding {
    /// No call yet.
    pub fn new() -> Yielding {
        Yielding {
            calls: AtomicU64::new(0),
        }
    }

    /// How many calls there were.
    pub fn calls(&self) -> u64 {
        self.calls.load(Ordering::SeqCst)
    }
}

impl Gate for Yielding {
    fn before<R: Wait>(&self, _rt: &R, _examiner: u32, _call: u64) {
        self.calls.fetch_add(1, Ordering::SeqCst);
    }

    fn after<R: Wait>(&self, _rt: &R, _examiner: u32, _call: u64) {
        yield_now();
    }
}
