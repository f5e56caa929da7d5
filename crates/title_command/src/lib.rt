//! The command line of the program `titleplant`, read by `clap`.
#![tactic(auto)]

mod choice;
mod command_line;
pub mod laws;
mod program;

pub use choice::{Line, LineFault, Work};
pub use command_line::line;
