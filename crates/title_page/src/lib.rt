//! Rows of CSV that are written to a sink through a page of 8 KB. Writing them takes no memory.
#![tactic(auto)]

mod field;
mod line;
mod page;
mod row;

pub use field::Field;
pub use line::Line;
pub use page::{Page, first_quote, is_quoted};
