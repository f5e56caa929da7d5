//! Entries of the ledger.

use title_chain::Record;

/// One entry: a record is tried behind the committed ones, or the record that was tried last is committed. A try stands in for
/// the one before it where that wasn't committed.
pub enum Entry {
    Tried(Record),
    Committed,
}
