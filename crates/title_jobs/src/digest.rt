//! A digest of what is written.

use title_device::{Failed, Sink};

// The multiplier of the polynomial, and its eighth power.
const STEP: u64 = 0x9E37_79B9_7F4A_7C15;

const STEP_8: u64 = 0x06D4_B261_1BEB_6861;

/// How many bytes were written, and the value of the polynomial modulo 2^64 that has them as coefficients: however they are cut into
/// pieces, the same bytes give the same digest.
#[derive(Clone, Copy, Default, Drop)]
pub struct Digest {
    pub bytes: u64,
    pub sum: u64,
}

// Eight bytes more.
fn with_eight(sum: u64, eight: &[u8; 8]) -> u64 {
    let mut low = 0u64;
    for byte in eight {
        low = low.wrapping_mul(STEP).wrapping_add(u64::from(*byte));
    }
    sum.wrapping_mul(STEP_8).wrapping_add(low)
}

impl Digest {
    fn add(&mut self, text: &[u8]) {
        let (eights, rest) = text.as_chunks::<8>();
        let mut sum = self.sum;
        for eight in eights {
            sum = with_eight(sum, eight);
        }
        for byte in rest {
            sum = sum.wrapping_mul(STEP).wrapping_add(u64::from(*byte));
        }
        self.sum = sum;
        self.bytes = self.bytes.wrapping_add(text.len() as u64);
    }
}

impl Sink for Digest {
    ghost use Rattle.std.specs.Prelude.{false};

    ghost has_failed = { λ _. false };

    fn push(&mut self, buf: &[u8]) -> Result<usize, Failed> {
        self.add(buf);
        Ok(buf.len())
    }

    fn failed(&self) -> bool {
        false
    }
}
