//! Where plants' files are kept.

ghost use Rattle.std.specs.Prelude.{◌≡◌, ◌∷◌, ℕ, List, false, IfErr, IfOk};
ghost use Rattle.title_disk.specs.{Crashes.{Only}, declared.cabinet.OpenFault.{OpenFault}};

use crate::disk::Disk;
use std::alloc::Global;
use thiserror::Error;

/// Why a file isn't opened.
#[derive(Clone, Copy, Debug, PartialEq, Eq, Error)]
pub enum OpenFault {
    /// There is no such file and none can be made, or it can't be read or synced.
    #[error("the file can't be opened")]
    Unopened,
    /// Another has it open, for writing or, where it is to be written, for reading.
    #[error("the file is in use")]
    InUse,
    /// Memory ran out.
    #[error("out of memory")]
    Memory,
}

/// Files that have names, each open once for writing, or else shared by those who read it.
pub trait Cabinet {
    type File: Disk + Drop;

    /// A file that is open for reading alone: as long as it is, nobody has it open for writing.
    type Shared: Disk + Drop;

    // The names that were asked for, the newest first.
    ghost asked: { Self → List (List ℕ) };

    // The name by which a file was opened.
    ghost name: { Self.File → List ℕ };

    // The name by which a file was opened that is shared.
    ghost shared_name: { Self.Shared → List ℕ };

    // Whether these bytes may be read of the file of this name.
    ghost shows: { List ℕ → List ℕ → Type 0 };

    // Whether the file of this name may be refused so.
    ghost refuses: { List ℕ → OpenFault → Type 0 };

    /// Opens the file of this name for reading and writing; all of it is on the disk then.
    fn open(&mut self, alloc: Global, path: &str) -> Result<Self::File, OpenFault>
        ensures asked { asked self.new ≡ path.now ∷ asked self.old }
        ensures named { IfOk result (λ file. name file ≡ path.now) }
        ensures refused { IfErr result (refuses path.now) }
        ensures durable { IfOk result (λ file. Only (Self.File.seen file) (Self.File.may_leave file)) }
        ensures works { IfOk result (λ file. Self.File.has_failed file ≡ false) };

    /// Opens the file of this name, which is there, for reading alone, beside others who read it. `InUse` where another has it open for
    /// writing. Nothing is written to it.
    fn share(&mut self, alloc: Global, path: &str) -> Result<Self::Shared, OpenFault>
        ensures asked { asked self.new ≡ path.now ∷ asked self.old }
        ensures named { IfOk result (λ file. shared_name file ≡ path.now) }
        ensures refused { IfErr result (refuses path.now) }
        ensures works { IfOk result (λ file. Self.Shared.has_failed file ≡ false) };

    /// The bytes of the file of this name, which another may have open.
    fn look(&mut self, alloc: Global, path: &str) -> Result<Vec<u8>, OpenFault>
        ensures asked { asked self.new ≡ path.now ∷ asked self.old }
        ensures shown { IfOk result (λ bytes. shows path.now bytes.items) }
        ensures refused { IfErr result (refuses path.now) };
}
