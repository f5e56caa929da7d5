//! The calls on a file, which only clauses read.

ghost use Rattle.std.specs.{Prelude.{◌≡◌, List, [], ◌∷◌}, Borrow.{ftrue}};
ghost use Rattle.title_file.specs.{Calls.{Call}, Codes.{calls_code}};

use std::marker::Model;

/// A call on a file, and whether the system has answered that it is done.
#[derive(Clone, Copy)]
pub(crate) enum Note<'a> {
    /// The file of this name was asked for.
    Asked(&'a str),
    /// The file of this name was opened with these bytes, all of them on the disk.
    Opened(&'a str, &'a [u8]),
    /// These bytes were written at this offset.
    Written(usize, &'a [u8], bool),
    /// The file was cut to this length.
    Cut(usize, bool),
    /// The file was synced.
    Synced(bool),
    /// These bytes were put into a file beside.
    Kept(&'a [u8], bool),
    /// A read wasn't answered.
    Unread,
}

/// The calls on a file, the newest first. It takes no memory.
#[derive(Drop)]
pub struct Record {
    pub ghost calls: { List Call } by { calls_code },
}

impl Model for Record {
    ghost also_owns = { λ _. ftrue };
}

impl Record {
    ghost use Rattle.title_file.specs.Noted.{call_of};

    pub(crate) fn new() -> Record
        ensures { result.calls ≡ [] }
    {
        Record {}
    }

    /// The record with one call more.
    pub(crate) fn then(&self, _note: &Note<'_>) -> Record
        ensures { result.calls ≡ call_of _note.now ∷ self.now.calls }
    {
        Record {}
    }
}
