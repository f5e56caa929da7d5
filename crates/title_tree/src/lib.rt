//! Squares of land as trees of quarters, in which a holding is inherited by all cells below it: the foundation of a store
//! in which a deed of a section costs as much as one of a cell.
#![tactic(auto)]

pub mod change;
pub mod laws;
pub mod part;
pub mod path;
pub mod tree;

pub use change::{Change, Fault};
pub use part::{Part, add_changed, exchange_all, settle_all, tidy_all, uniform_at};
pub use path::Path;
pub use tree::{Tree, is_same};
