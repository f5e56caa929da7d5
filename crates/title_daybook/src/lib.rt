//! What stands in a plant's file, read from its blocks and written as a block more: townships, parties, and the deeds of committed
//! transactions.
#![tactic(auto)]

mod book;
mod ending;
mod fault;
pub mod laws;
mod lines;
mod reading;
mod standing;
mod writing;

pub use ending::row_of;
pub use fault::PlantFault;
pub use reading::read_standing;
pub use standing::Standing;
pub use writing::{Stood, block};
