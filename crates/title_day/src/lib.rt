//! Offices' days: from the bytes of an office's script to the bytes of its report, its examiners' rows run by threads.
#![tactic(auto)]

mod closing;
pub mod laws;
mod office_day;
mod office_fault;
mod office_runs;
mod tally;
mod worked;

pub use closing::{Closing, close_office, write_closing};
pub use office_day::{Day, run_day_on};
pub use office_fault::OfficeFault;
pub use office_runs::run_office;
pub use tally::Tally;
