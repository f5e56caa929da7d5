//! Scripts as an office's workers run them: an examiner's transactions, one after another.
#![tactic(auto)]

mod script;

pub use script::{Script, Transaction};
