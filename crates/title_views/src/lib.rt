//! Fronts: what an office publishes, and viewers that look at it with no lock.
#![tactic(auto)]

mod fronts;
mod kept;
mod look;
mod published;
mod publishing;
mod receipt;
mod unseen;
mod viewer;

pub use fronts::Fronts;
pub use receipt::Receipt;
pub use unseen::Unseen;
pub use viewer::{Seen, Viewer};
