//! Land, tracts of it and what examiners wish for there, as a seed picks them: the same in every run, for trials.
#![tactic(auto)]

mod chance;
mod ground;
mod wishes;

pub use chance::Chance;
pub use ground::{Ground, Reach, TOWNSHIPS, township};
pub use wishes::{PARTIES, StepWish, Wish};
