//! Plants' files of the operating system: a cabinet whose files are disks, by a record of the calls that were made on each, open for
//! writing or shared by those who read them.
#![tactic(auto)]

mod drawer;
mod gates;
mod holding;
mod keeping;
pub mod laws;
mod plant_file;
mod record;
mod shared_file;

pub use drawer::Drawer;
pub use holding::Hold;
pub use plant_file::PlantFile;
pub use shared_file::SharedFile;
