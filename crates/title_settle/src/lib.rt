//! Outcomes held against the committed records: whether each record has one outcome, with its place.
#![tactic(auto)]

mod comparison;
pub mod laws;
mod marks;
mod outcome;

pub use comparison::compare;
pub use outcome::{Outcome, Unsettled};
