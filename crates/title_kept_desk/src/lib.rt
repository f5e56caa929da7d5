//! Desks on a plant's file: rows come by and by, on top of what stands there, and what they commit is kept there before they are
//! answered; or they only look, and nothing is kept.
#![tactic(auto)]

mod attending;
mod holding;
mod look_desk;
mod look_lines;
mod mark;
mod news;
mod sitting;

pub use attending::attend_onto;
pub use look_desk::look_desk_onto;
