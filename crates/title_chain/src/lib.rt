//! Asks, answers, records and chains: what one ask answers when nothing else is open, and what a list of records means.
#![tactic(auto)]

pub mod ask;
pub mod chains;
mod filing;
pub mod laws;
pub mod lists;
pub mod own_steps;
pub mod record;
pub mod replay;
pub mod same;
mod same_parts;
mod same_sheets;
mod spot;
pub mod square_row;
pub mod tract_index;

pub use ask::{Answer, Ask, Entry, Posting, Step, Terms};
pub use chains::chain;
pub use lists::{Entries, Lines, Part, Parts, Records, Sheet, SheetRows, Steps};
pub use own_steps::OwnSteps;
pub use record::Record;
pub use replay::{post_all_again, sheet_by_chain};
pub use same::same_steps;
pub use same_parts::same_tract;
pub use square_row::SquareRow;
pub use tract_index::TractIndex;
