//! Who has asked for which tract, and who is in whose way.

ghost use Rattle.std.specs.Prelude.{◌≡◌, List, [], ◌∷◌, Option, Some, None, OnOk, OnErr, IfErr};
ghost use Rattle.title_land.specs.Depth.{depth};
ghost use Rattle.title_lock.specs.{declared.guards.Entry.{Entry}, Overlaps.{is_post, Stands, RefusedBy, without}, Asking.{mode_at}};

use crate::modes::Mode;
use std::alloc::Global;
use thiserror::Error;
use title_land::{Node, Tract};

/// What a tract is asked for.
#[derive(Clone, Copy, Debug, PartialEq, Eq, Drop)]
pub enum Access {
    Read,
    Post,
}

/// An access that was granted: the examiner, the tract and what it was asked for.
#[derive(Debug, Drop)]
pub struct Entry {
    pub examiner: u32,
    pub tract: Tract,
    pub access: Access,
}

/// Why an access isn't granted.
#[derive(Clone, Copy, Debug, PartialEq, Eq, Drop, Error)]
pub enum LockFault {
    /// Another examiner's entry overlaps it: they share a cell and one is a post. The least such examiner.
    #[error("examiner {0} is in the way")]
    Conflict(u32),
    /// A growth was refused; nobody was in the way.
    #[error("out of memory")]
    Memory,
}

/// The tracts that examiners have asked for. An access is refused, and never waits, where another examiner's entry
/// overlaps it; an examiner's own entries are never in its way (modes of Gray and others, 1976).
pub trait Guards {
    /// The entries, the newest first.
    ghost entries: { Self → List Entry };

    /// The entry that there is room for, if one is prepared.
    ghost prepared: { Self → Option Entry };

    /// No entry; takes no memory. What grows later comes from `alloc`.
    fn new(alloc: Global) -> Self
        ensures new { entries result ≡ [] };

    /// The least other examiner in the way of an access; `None` where it would be granted. Takes no memory.
    fn would(&self, examiner: u32, tract: &Tract, access: Access) -> Option<u32>
        ensures would { Stands (entries self.now) examiner tract.now (is_post access) result };

    /// Makes room for an access and adds nothing. `Conflict(f)` exactly where another examiner is in the way, `f` the least
    /// such; `Memory` only where nobody is. The room lasts until the next call that changes the locks.
    fn prepare(&mut self, examiner: u32, tract: &Tract, access: Access) -> Result<(), LockFault>
        ensures stays { entries self.new ≡ entries self.old }
        ensures prepared { OnOk result
            (prepared self.new ≡ Some (record { examiner = examiner; tract = tract.now; access = access })) }
        ensures free { OnOk result (Stands (entries self.old) examiner tract.now (is_post access) None) }
        ensures fault { IfErr result (RefusedBy (entries self.old) examiner tract.now (is_post access)) };

    /// Adds the entry that was prepared. Takes no memory.
    fn grant(&mut self, examiner: u32, tract: &Tract, access: Access)
        requires prepared { prepared self.old ≡ Some (record { examiner = examiner; tract = tract.now; access = access }) }
        ensures granted { entries self.new ≡ record { examiner = examiner; tract = tract.now; access = access } ∷ entries self.old };

    /// Adds an entry. `Conflict(f)` exactly where another examiner is in the way, `f` the least such; `Memory` only
    /// where nobody is. An error leaves the entries as they were.
    fn ask(&mut self, examiner: u32, tract: &Tract, access: Access) -> Result<(), LockFault>
        ensures ok { OnOk result
            (entries self.new ≡ record { examiner = examiner; tract = tract.now; access = access } ∷ entries self.old) }
        ensures free { OnOk result (Stands (entries self.old) examiner tract.now (is_post access) None) }
        ensures err { OnErr result (entries self.new ≡ entries self.old) }
        ensures fault { IfErr result (RefusedBy (entries self.old) examiner tract.now (is_post access)) }
    {
        self.prepare(examiner, tract, access)?;
        self.grant(examiner, tract, access);
        Ok(())
    }

    /// Takes out all entries of an examiner and no other's. Takes no memory.
    fn give_back(&mut self, examiner: u32)
        ensures left { entries self.new ≡ without examiner (entries self.old) };

    /// The mode of an examiner at a node: the least upper bound of all that its entries ask there. Takes no memory.
    fn mode(&self, examiner: u32, node: &Node) -> Option<Mode>
        ensures mode { result ≡ mode_at depth (entries self.now) examiner node.now };
}
