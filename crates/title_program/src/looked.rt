//! The bytes of a file that was looked at, as a disk.

ghost use Rattle.std.specs.Prelude.{◌≡◌, false};

use std::alloc::Global;
use title_disk::{Disk, DiskFailed, DiskFault};

/// The bytes of a file that was looked at. They can be read, and everything else is refused.
#[derive(Drop)]
pub(crate) struct Looked {
    bytes: Vec<u8>,
    failed: bool,
}

impl Looked {
    pub(crate) fn new(bytes: Vec<u8>) -> Looked
        ensures bytes { result.bytes ≡ bytes }
        ensures works { result.failed ≡ false }
    {
        Looked {
            bytes,
            failed: false,
        }
    }
}

impl Disk for Looked {
    ghost seen = { λ looked. looked.bytes.items };

    ghost may_leave = { λ looked c. c ≡ looked.bytes.items };

    ghost moment = { λ looked. 0 };

    ghost left_since = { λ looked t c. c ≡ looked.bytes.items };

    ghost has_failed = { λ looked. looked.failed };

    ghost counts_now = { λ looked t c le may. may };

    ghost only_now = { λ looked c left. left };

    fn read(&mut self, alloc: Global) -> Result<Vec<u8>, DiskFault> {
        Ok(self.bytes.to_vec(alloc)?)
    }

    fn write_at(&mut self, _at: usize, _bytes: &[u8]) -> Result<(), DiskFailed> {
        self.failed = true;
        Err(DiskFailed)
    }

    fn cut(&mut self, _len: usize) -> Result<(), DiskFailed> {
        self.failed = true;
        Err(DiskFailed)
    }

    fn sync(&mut self) -> Result<(), DiskFailed> {
        self.failed = true;
        Err(DiskFailed)
    }
}
