//! The plain store: a plant as an ordered map by cell, which trials and histories hold the other against.
#![tactic(auto)]

mod cell_map;
pub mod cell_store;
mod kept;
mod posts;
mod sheets;

pub use cell_store::{CellStore, Image};
