//! A table of granular locks on the tree of tracts: modes, who has asked for which tract, and who is in whose way
//! (Gray, Lorie, Putzolu, Traiger, Granularity of Locks and Degrees of Consistency in a Shared Data Base, 1976).
#![tactic(auto)]

mod book;
mod counts;
pub mod guards;
mod holders;
pub mod laws;
mod least;
pub mod modes;
pub mod node_locks;
pub mod row_locks;
mod slots;
mod spots;
mod spread_locks;
mod table;
mod walks;

pub use guards::{Access, Entry, Guards, LockFault};
pub use modes::{Mode, compat, sup};
pub use node_locks::NodeLocks;
pub use row_locks::RowLocks;
