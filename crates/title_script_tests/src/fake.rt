//! A source and a sink in memory that fail when they are told to.

ghost use Rattle.std.specs.Prelude.{◌≡◌, Some};

use title_device::{Failed, Sink, Source};

/// A source of the bytes `left`. A pull gives at most `piece` of them (at least one), and fails where
/// `good_pulls` have been made.
#[derive(Debug, Drop)]
pub struct FakeSource<'a> {
    pub left: &'a [u8],
    pub piece: usize,
    pub good_pulls: u64,
    pub pulls: u64,
    pub has_failed: bool,
}

impl Source for FakeSource<'_> {
    ghost left = { λ s. Some s.left.now };

    ghost has_failed = { λ s. s.has_failed };

    ghost turns = { λ s. s.pulls };

    fn pull(&mut self, buf: &mut [u8]) -> Result<usize, Failed> {
        if self.pulls >= self.good_pulls {
            self.has_failed = true;
            return Err(Failed);
        }
        self.pulls += 1;
        let count = self.piece.max(1).min(self.left.len()).min(buf.len());
        let (given, left) = self.left.split_at(count);
        buf[..count].copy_from_slice(given);
        self.left = left;
        Ok(count)
    }

    fn failed(&self) -> bool {
        self.has_failed
    }
}

/// A sink that keeps what it takes. A push takes at most `piece` bytes (at least one), and fails where
/// `room` bytes have been taken.
#[derive(Debug, Drop)]
pub struct FakeSink {
    pub taken: Vec<u8>,
    pub piece: usize,
    pub room: usize,
    pub has_failed: bool,
}

impl Sink for FakeSink {
    ghost taken = { λ s. Some s.taken.items };

    ghost has_failed = { λ s. s.has_failed };

    fn push(&mut self, buf: &[u8]) -> Result<usize, Failed> {
        let count = self.piece.max(1).min(self.room).min(buf.len());
        if count == 0 && !buf.is_empty() || self.taken.extend_from_slice(&buf[..count]).is_err() {
            self.has_failed = true;
            return Err(Failed);
        }
        self.room -= count;
        Ok(count)
    }

    fn failed(&self) -> bool {
        self.has_failed
    }
}
