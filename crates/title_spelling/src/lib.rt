//! What the file of a plant writes for land, posts and declarations, and how it is read back.
#![tactic(auto)]

pub mod cells;
pub mod lands;
pub mod laws;
mod posts;
pub mod rows;

pub use cells::{read_cells, spell_cells};
pub use lands::{LONGEST_UNION, read_land, spell};
pub use rows::{begin_row, commit_row, end_row, party_row, post_row, township_row};
