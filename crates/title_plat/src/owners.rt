//! Holdings: which parts have the same owners with the same shares.

use crate::parts::{Part, owners_of};
use crate::row::Row;
use std::alloc::{AllocError, Global};

/// A part with its rows and the key of its holding: the index of that holding among those of the sheet, in the order in which
/// they first stand there.
#[derive(Drop)]
pub(crate) struct Keyed<'a> {
    pub part: &'a Part,
    pub owners: &'a [Row],
    pub key: usize,
}

// Whether two lists of owners are one.
fn are_same(a: &[Row], b: &[Row]) -> bool {
    if a.len() != b.len() {
        return false;
    }
    for (i, row) in a.iter().enumerate() {
        if row.party.as_str() != b[i].party.as_str() || row.share != b[i].share {
            return false;
        }
    }
    true
}

// The key of the first part with these owners.
fn key_in(keyed: &[Keyed<'_>], owners: &[Row]) -> Option<usize> {
    for other in keyed {
        if are_same(other.owners, owners) {
            return Some(other.key);
        }
    }
    None
}

/// The parts with their keys, and the number of keys.
pub(crate) fn keyed_parts<'a>(
    alloc: Global,
    rows: &'a [Row],
    parts: &'a [Part],
) -> Result<(Vec<Keyed<'a>>, usize), AllocError> {
    let mut keyed: Vec<Keyed<'a>> = Vec::new(alloc);
    let mut keys: usize = 0;
    for part in parts {
        let owners = owners_of(rows, part);
        let key = key_in(keyed.as_slice(), owners).unwrap_or(keys);
        keys = keys.max(key.saturating_add(1));
        keyed.push(Keyed { part, owners, key })?;
    }
    Ok((keyed, keys))
}
