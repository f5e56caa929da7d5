//! Scripts of offices: what they ask for, dealt to their examiners.
#![tactic(auto)]

mod dealing;
mod hand;
pub mod laws;
mod office_script;

pub use office_script::{OfficeScript, deal_plan, read_office};
