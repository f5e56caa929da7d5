//! Days on a plant's file: a script is served on top of what stands there, and what it commits is kept there before its report is
//! written. Looks at what stands there, which keep nothing. And what stands there, told in numbers or as a script.
#![tactic(auto)]

mod adding;
mod checking;
mod day;
mod fault;
mod footing;
pub mod laws;
mod look_rows;
mod looking;
mod opening;
mod replaying;
mod serving;

pub use adding::{added_block, put_block};
pub use checking::{TellFault, tell_script, tell_standing};
pub use day::{Ended, is_unexpected, run_onto};
pub use fault::LastingFault;
pub use footing::{Footing, lay_footing};
pub use look_rows::find_other;
pub use looking::look_onto;
pub use opening::{Found, Opened, find, open, stand};
pub use title_script::{Schedule, Unwatched, Watch};
