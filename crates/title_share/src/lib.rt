//! Shares of a whole, and who holds them.
//!
//! The whole is 2^32 units. A share is a number of units from 1 to the whole, written as a
//! fraction whose denominator is a power of two. A holding divides the whole among parties.
#![tactic(auto)]

pub mod holding;
pub mod laws;
pub mod share;

pub use holding::{Holding, WHOLE};
pub use share::{Fraction, Share, number};
