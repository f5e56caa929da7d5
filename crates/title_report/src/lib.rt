//! Reports: the rows of replies, written as CSV to a sink through a page. Writing them takes no memory.
#![tactic(auto)]

mod answers;
mod entries;
mod entry_line;
mod entry_lines;
mod field;
mod front;
mod nodes;
mod replies;
mod roster;
mod row_text;
mod shares;

pub use entry_lines::EntryLines;
pub use field::ReportField;
pub use replies::{put_described, put_end, put_reply, put_reply_from, put_reply_with, put_row};
pub use roster::Roster;
