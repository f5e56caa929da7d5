//! The office: one desk behind a lock, the seats and slips of its examiners, viewers that take no lock, and workers that run scripts by
//! threads.
#![tactic(auto)]

mod books;
mod fault;
mod gate;
pub mod laws;
mod office;
mod opening;
mod opening_on;
mod seat;
mod settle;
mod slip;
mod unopened;
mod workers;

pub use books::Books;
pub use fault::Fault;
pub use gate::{Gate, OpenGate};
pub use office::{Done, Office};
pub use opening::{MOST_SEATS, MOST_VIEWERS, Opened};
pub use seat::Seat;
pub use settle::Settled;
pub use slip::Slip;
pub use title_ledger::{Ledger, Room};
pub use title_settle::{Outcome, Unsettled};
pub use title_turns::{Script, Transaction};
pub use title_views::{Receipt, Seen, Unseen, Viewer};
pub use unopened::Unopened;
pub use workers::{Worked, work};
