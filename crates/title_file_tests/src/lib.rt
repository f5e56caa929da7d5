//! Tests of a cabinet's files as the operating system has them: made, locked, written, cut, and kept beside, through public calls.
#![tactic(auto)]

#[cfg(test)]
mod files;
