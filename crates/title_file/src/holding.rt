//! How files are held against other handles of this crate.

ghost use Rattle.std.specs.Prelude.{◌≡◌, IfOk};

use crate::keeping::above_streams;
use std::fs::File;
use std::io;

/// How a file that is open for reading is held against other handles of this crate.
#[derive(Clone, Copy, Debug, PartialEq, Eq)]
pub enum Hold {
    /// It isn't: others may have it open for writing.
    Loose,
    /// Others may have it open for reading, and nobody for writing.
    Shared,
}

/// A file, and how it is held as long as it is open.
#[derive(Drop)]
pub(crate) struct Held {
    pub file: File,
    pub hold: Hold,
}

impl Held {
    /// Holds a file so.
    pub(crate) fn new(file: File, hold: Hold) -> io::Result<Held>
        ensures hold { IfOk result (λ held. held.hold ≡ hold) }
    {
        let file = above_streams(file)?;
        match hold {
            Hold::Loose => {}
            Hold::Shared => file.try_lock_shared()?,
        }
        Ok(Held { file, hold })
    }
}
