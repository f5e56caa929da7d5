//! Traces of a desk: calls with their replies, the due reply to each, and the law that what is committed is serial.
#![tactic(auto)]

pub mod call;
pub mod denial;
pub mod laws;
pub mod limits;

pub use call::{Call, Reply, Request};
pub use denial::Denial;
pub use limits::{MOST_PARTIES, MOST_STEPS, MOST_TOWNSHIPS};
