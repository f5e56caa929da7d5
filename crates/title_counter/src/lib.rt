//! The desk row by row: rows are served as they come, and answered before more of them are waited for.
#![tactic(auto)]

mod answer;
mod clerk;
mod closing;
mod fault;
mod found;
pub mod laws;
mod line_start;
mod lines;
mod reading;
mod session;

pub use clerk::Clerk;
pub use fault::CounterFault;
pub use line_start::{LINE_LIMIT, LineStart};
pub use lines::answer_rest;
pub use session::{GIVEN_LIMIT, answer_batch, attend};
pub use title_device::{Device, Failed, Sink, Source};
