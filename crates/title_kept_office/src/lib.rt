//! Offices' days on a plant's file: an office is opened on what stands there, and what its examiners commit is kept there before its
//! report is written.
#![tactic(auto)]

mod fault;
mod making;
mod office_day;

pub use fault::KeptOfficeFault;
pub use office_day::{OfficeEnded, run_office_onto};
