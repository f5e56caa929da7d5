//! Scripts and their reports: from the bytes of a script to the bytes of its report.
#![tactic(auto)]

mod fault;
pub mod laws;
mod runs;
mod serving;
mod told;
mod watch;
mod writing;

pub use fault::RunFault;
pub use runs::{run, run_alone, run_by};
pub use serving::serve_onto;
pub use title_device::{
    Device, Failed, ReadFault, SCRIPT_LIMIT, Sink, Source, read_all, write_all,
};
pub use title_plan::{Schedule, ScriptFault};
pub use told::{Served, Told};
pub use watch::{Unwatched, Watch};
pub use writing::write_served;
