//! Deeds and releases, and what they do to the owners of one cell.
#![tactic(auto)]

pub mod instrument;
pub mod kind;
pub mod owners;
pub mod parts;
pub mod same;

pub use instrument::{Deed, Instrument, Release};
pub use kind::Kind;
pub use owners::{Effect, Owners};
pub use parts::{Cause, Estate, Estates, Quantum, Rule};
