//! Sentences for a person beside the line of a fault: which row or which byte, and what was wanted there.
#![tactic(auto)]

mod aside;
mod audience;
mod declared;
mod desk_row;
mod field;
mod heard;
mod land;
mod lines;
mod listened;
mod look;
mod order;
mod party;
mod passed_over;
mod progress;
mod quoted;
mod row;
mod script;
mod spoken;
mod word;

pub use aside::Aside;
pub use audience::Audience;
pub use heard::Heard;
pub use land::{pointed_out, sentence_of};
pub use listened::Listened;
pub use look::look_advice;
pub use progress::Progress;
pub use quoted::Quoted;
pub use script::{Script, script_advice};
pub use spoken::Spoken;
