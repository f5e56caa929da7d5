//! Where a script is read from and where its report is written to: a source and a sink of bytes, each
//! of which a device makes of a reader or a writer, and the two loops that run over them.
#![tactic(auto)]

mod device;
mod fault;
pub mod laws;
mod loops;
mod sink;
mod source;

pub use device::Device;
pub use fault::{Failed, ReadFault};
pub use loops::{SCRIPT_LIMIT, read_all, write_all};
pub use sink::Sink;
pub use source::Source;
