//! A plant's file of the operating system that is shared by those who read it, as a disk.

ghost use Rattle.std.{specs.Prelude.{◌≡◌, true, IfSome}, proofs.Props.{props}};
ghost use Rattle.title_file.specs.{Calls.{seen}, Holds.{keeps_writers_off}};

use crate::holding::Held;
use crate::record::{Note, Record};
use std::alloc::Global;
use title_disk::{Disk, DiskFailed, DiskFault};

/// A file that is open for reading alone. As long as it is, no other handle has it open for writing; others may share it. Its bytes were
/// read when it was opened, and are handed out by the first read. No call writes to it.
#[derive(Drop)]
pub struct SharedFile {
    held: Held,
    bytes: Option<Vec<u8>>,
    record: Record,
    failed: bool,
    ghost kept_off: { keeps_writers_off held.hold ≡ true },
    ghost whole: { IfSome bytes (λ b. b.items ≡ seen record.calls) } by { Prim.hlevel props },
}

impl SharedFile {
    ghost use Rattle.std.specs.Prelude.{false};
    ghost use Rattle.title_file.specs.Files.{shared_has_failed, shared_name, shared_seen};

    /// The file of this name, which is held so, with the bytes that were read of it.
    pub(crate) fn new(held: Held, path: &str, bytes: Vec<u8>) -> SharedFile
        requires kept_off { keeps_writers_off held.hold ≡ true }
        ensures named { shared_name result ≡ path.now }
        ensures bytes { shared_seen result ≡ bytes.items }
        ensures works { shared_has_failed result ≡ false }
    {
        let unread = Record::new();
        let record = unread.then(&Note::Opened(path, &bytes));
        SharedFile {
            held,
            bytes: Some(bytes),
            record,
            failed: false,
        }
    }
}

// What a crash may leave of it isn't known here: a sync of a handle that wrote to it may have failed.
impl Disk for SharedFile {
    ghost use Rattle.title_file.specs.Files.{shared_has_failed, shared_seen};

    ghost seen = { shared_seen };

    ghost may_leave = { λ file c. Unit {0} };

    ghost moment = { λ file. 0 };

    ghost left_since = { λ file t c. Unit {0} };

    ghost has_failed = { shared_has_failed };

    ghost counts_now = { λ file t c le may. tt };

    ghost only_now = { λ file c left. tt };

    fn read(&mut self, _alloc: Global) -> Result<Vec<u8>, DiskFault> {
        match self.bytes.take() {
            Some(bytes) => Ok(bytes),
            None => {
                self.failed = true;
                Err(DiskFault::Failed)
            }
        }
    }

    fn write_at(&mut self, _at: usize, _bytes: &[u8]) -> Result<(), DiskFailed> {
        self.failed = true;
        Err(DiskFailed)
    }

    fn cut(&mut self, _len: usize) -> Result<(), DiskFailed> {
        self.failed = true;
        Err(DiskFailed)
    }

    fn sync(&mut self) -> Result<(), DiskFailed> {
        self.failed = true;
        Err(DiskFailed)
    }
}
