//! A store of a plant in which holdings are inherited down trees of quarters: of each estate a township has one tree for all its
//! sections, or one for each, so that a deed of a whole section changes one leaf of an estate and not 256 cells.
#![tactic(auto)]

mod forest;
mod ground;
mod lent;
mod passing;
mod refusals;
mod sections;
mod sheets;
mod spots;
mod townships;
pub mod tree_store;
mod walks;

pub use tree_store::{Image, TreeStore};
