//! What the program does for each command line: the bytes that it writes, the status with which it ends, and what a person is told
//! on the errors where it failed.
#![tactic(auto)]

mod checking;
mod commands;
mod desk_keeping;
mod desk_serving;
mod ending;
mod explaining;
mod fault;
mod keeping;
mod look_serving;
mod looked;
mod office_keeping;
mod office_serving;
mod printing;
mod refusal;
mod serving;
mod status;
mod tract;
mod words;

pub use checking::check;
pub use commands::{obey, obey_onto, obey_words, obey_words_onto, print_tract};
pub use desk_keeping::serve_kept_desk;
pub use desk_serving::serve_desk;
pub use ending::{Ending, Why};
pub use explaining::{explain, is_desk, tell_cut};
pub use fault::Fault;
pub use keeping::serve_kept;
pub use look_serving::{serve_look, serve_look_desk};
pub use office_keeping::serve_kept_office;
pub use office_serving::serve_office;
pub use refusal::refuse;
pub use serving::serve;
pub use status::Status;
pub use title_script::{Unwatched, Watch};
pub use tract::{Printout, tract_printout};
pub use words::{WordsFault, refuse_untaken};
