//! Tests of plants' files: how land is spelled there, and files written by hand, read and written through public calls.
#![tactic(auto)]

#[cfg(test)]
mod checks;
#[cfg(test)]
mod files;
#[cfg(test)]
mod lands;
