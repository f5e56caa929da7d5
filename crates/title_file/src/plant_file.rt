//! A plant's file of the operating system, as a disk.

ghost use Rattle.std.{specs.Prelude.{◌≡◌, ◌+◌, ◌<◌, ◌^◌, ◌∷◌, false, length, IfSome, IsTrue}, proofs.Props.{props}};
ghost use Rattle.title_file.specs.Calls.{seen};

use crate::record::{Note, Record};
use std::alloc::Global;
use std::fs::File;
use std::os::unix::fs::FileExt;
use title_disk::{Disk, DiskFailed, DiskFault};

// No file is longer.
const MOST: usize = (1 << 63) - 1;

/// An open file, which no other handle has open for writing. Its bytes were read when it was opened, and are handed out by the
/// first read, unless something was written before: another read fails, so that no more than one copy of them is kept here.
#[derive(Drop)]
pub struct PlantFile {
    file: File,
    bytes: Option<Vec<u8>>,
    record: Record,
    ghost held: { IfSome bytes (λ b. b.items ≡ seen record.calls) } by { Prim.hlevel props },
    ghost fits: { length (seen record.calls) < 2 ^ 63 },
}

impl PlantFile {
    ghost use Rattle.title_disk.specs.Crashes.{Only};
    ghost use Rattle.title_file.specs.{Calls.{opened}, Files.{calls_of, file_seen, file_may_leave, file_has_failed}};

    /// The file of this name, which was read, and then synced, by these calls.
    pub(crate) fn opened(file: File, path: &str, bytes: Vec<u8>, earlier: &Record) -> PlantFile
        ensures calls { calls_of result ≡ opened path.now bytes.items ∷ earlier.now.calls }
        ensures bytes { file_seen result ≡ bytes.items }
        ensures durable { Only (file_seen result) (file_may_leave result) }
        ensures works { file_has_failed result ≡ false }
    {
        let record = earlier.then(&Note::Opened(path, &bytes));
        PlantFile {
            file,
            bytes: Some(bytes),
            record,
        }
    }
}

// Whether all of these bytes were written.
fn write_all(file: &File, at: usize, bytes: &[u8]) -> bool
    ensures fits { IsTrue result → at + length bytes.now < 2 ^ 63 }
{
    if at > MOST || bytes.len() > MOST - at {
        return false;
    }
    file.write_all_at(bytes, at as u64).is_ok()
}

// Each method makes one call of the system, or those of one write, and then notes it with its answer.
impl Disk for PlantFile {
    ghost use Rattle.title_file.specs.Files.{calls_of, file_seen, file_may_leave, file_left_since, file_has_failed};
    ghost use Rattle.title_file.specs.Laws.{counts_now, only_now};

    ghost seen = { file_seen };

    ghost may_leave = { file_may_leave };

    ghost moment = { λ file. length (calls_of file) };

    ghost left_since = { file_left_since };

    ghost has_failed = { file_has_failed };

    ghost counts_now = { λ file t c le may. counts_now (calls_of file) t c may };

    ghost only_now = { λ file c left. only_now (calls_of file) c left };

    fn read(&mut self, _alloc: Global) -> Result<Vec<u8>, DiskFault> {
        match self.bytes.take() {
            Some(bytes) => Ok(bytes),
            None => {
                self.record = self.record.then(&Note::Unread);
                Err(DiskFault::Failed)
            }
        }
    }

    fn write_at(&mut self, at: usize, bytes: &[u8]) -> Result<(), DiskFailed> {
        self.bytes = None;
        if write_all(&self.file, at, bytes) {
            self.record = self.record.then(&Note::Written(at, bytes, true));
            Ok(())
        } else {
            self.record = self.record.then(&Note::Written(at, bytes, false));
            Err(DiskFailed)
        }
    }

    fn cut(&mut self, len: usize) -> Result<(), DiskFailed> {
        self.bytes = None;
        if self.file.set_len(len as u64).is_ok() {
            self.record = self.record.then(&Note::Cut(len, true));
            Ok(())
        } else {
            self.record = self.record.then(&Note::Cut(len, false));
            Err(DiskFailed)
        }
    }

    fn sync(&mut self) -> Result<(), DiskFailed> {
        if self.file.sync_data().is_ok() {
            self.record = self.record.then(&Note::Synced(true));
            Ok(())
        } else {
            self.record = self.record.then(&Note::Synced(false));
            Err(DiskFailed)
        }
    }
}
