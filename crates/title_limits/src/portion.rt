//! Shares of a whole, as reports have them.

use std::fmt;

/// All of an estate in a cell, in units.
pub const WHOLE: u64 = 4_294_967_296;

/// So many of so many equal parts of a whole; the number of the parts is a power of two up to 2^32.
#[derive(Clone, Copy)]
pub struct Portion(pub u64, pub u64);

/// The whole.
pub const ALL: Portion = Portion(1, 1);

/// In lowest terms, as `3/8`; the whole is `1/1`.
impl fmt::Display for Portion {
    fn fmt<W: fmt::Write>(&self, f: &mut fmt::Formatter<W>) -> fmt::Result {
        let Portion(mut above, mut below) = *self;
        for _ in 0..32u32 {
            if above % 2 == 0 && below % 2 == 0 {
                above /= 2;
                below /= 2;
            }
        }
        write!(f, "{above}/{below}")
    }
}
