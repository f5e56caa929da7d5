//! What every store of a plant promises: who owns what in each cell, posts that take effect in all cells of a tract or in none,
//! before-images, sheets; and their laws.
#![tactic(auto)]

pub mod depth_laws;
pub mod laws;
pub mod sheet_row;
pub mod store;

pub use sheet_row::SheetRow;
pub use store::{Put, Store};
