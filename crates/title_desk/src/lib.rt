//! The desk: interleaved transactions of any number of examiners over any store and any guards.
#![tactic(auto)]

mod asks;
mod calls;
pub mod desk;
pub mod headline;
mod images;
mod kept_sheets;
mod open_transactions;
mod shown_store;

pub use desk::{Desk, may_open};
