//! What stands in a plant's file as records, and its replay: what is kept of a record, and a desk that serves kept records again.
#![tactic(auto)]

mod deeds;
pub mod laws;
mod replaying;

pub use deeds::Deeds;
pub use replaying::replay;
