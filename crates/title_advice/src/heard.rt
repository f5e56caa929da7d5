//! A source that keeps what it gives.

ghost use Rattle.std.specs.Prelude.{◌≡◌};

use std::alloc::Global;
use title_device::{Failed, SCRIPT_LIMIT, Source};

// Bytes that were given: all of them, or none where memory was wanted or there were more than a script may have.
#[derive(Drop)]
struct Kept {
    alloc: Global,
    bytes: Vec<u8>,
    is_whole: bool,
}

// Adds bytes to others, unless these are more than a script may have already; whether it did.
fn has_added(kept: &mut Vec<u8>, bytes: &[u8]) -> bool {
    kept.len() <= SCRIPT_LIMIT && kept.extend_from_slice(bytes).is_ok()
}

impl Kept {
    fn add(&mut self, bytes: &[u8]) {
        if self.is_whole && !has_added(&mut self.bytes, bytes) {
            self.bytes = Vec::new(self.alloc);
            self.is_whole = false;
        }
    }
}

/// A source that keeps the bytes that another one gives through it, as long as there is memory for them and they aren't more than a
/// script may have.
#[derive(Drop)]
pub struct Heard<R> {
    inner: R,
    kept: Kept,
}

impl<R> Heard<R> {
    ghost use Rattle.title_advice.specs.Hearing.{heard_source};

    /// Gives what this source gives.
    pub fn new(alloc: Global, inner: R) -> Heard<R>
        ensures source { heard_source result ≡ inner }
    {
        Heard {
            inner,
            kept: Kept {
                alloc,
                bytes: Vec::new(alloc),
                is_whole: true,
            },
        }
    }

    /// The bytes that were given, where all of them were kept.
    pub fn kept(&self) -> Option<&[u8]> {
        if self.kept.is_whole {
            Some(self.kept.bytes.as_slice())
        } else {
            None
        }
    }
}

impl<R: Source> Source for Heard<R> {
    ghost use Rattle.title_advice.specs.Hearing.{heard_source};

    ghost left = { λ heard. R.left (heard_source heard) };

    ghost has_failed = { λ heard. R.has_failed (heard_source heard) };

    ghost turns = { λ heard. R.turns (heard_source heard) };

    fn pull(&mut self, buf: &mut [u8]) -> Result<usize, Failed> {
        let count = self.inner.pull(buf)?;
        self.kept.add(&buf[..count]);
        Ok(count)
    }

    fn failed(&self) -> bool {
        self.inner.failed()
    }
}
