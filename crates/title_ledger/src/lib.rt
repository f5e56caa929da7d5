//! The ledger of an office: which records were tried and which are committed. It exists in proofs alone, but for a count.
#![tactic(auto)]

mod entry;
mod front;
mod law;
mod ledger;
mod page;
mod room;

pub use entry::Entry;
pub use front::Front;
pub use ledger::{Head, Ledger};
pub use page::Page;
pub use room::Room;
