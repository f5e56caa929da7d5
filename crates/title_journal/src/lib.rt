//! A plant's file as blocks of rows, each behind a gate of one byte: what a file stands for, how it is read and repaired, and how
//! a block comes into it whole or not at all.
#![tactic(auto)]

mod blocks;
mod fault;
mod journal;
pub mod laws;
mod split;
mod through;

pub use blocks::{Blocks, Gate, Tail};
pub use fault::{JournalFault, PutFault};
pub use journal::{put, read, repair};
