//! A file as a disk keeps it: what a read returns, and what a crash at any moment may leave. A trait says
//! what a disk does, and a disk in memory meets it, keeps each call, and can be torn.
#![tactic(auto)]

mod cabinet;
mod call;
mod disk;
mod fault;
mod torn_disk;

pub use cabinet::{Cabinet, OpenFault};
pub use call::{DiskCall, KeptCall};
pub use disk::Disk;
pub use fault::{DiskFailed, DiskFault};
pub use torn_disk::TornDisk;
