//! Laws of the definitions. Each function does nothing: its clause is the law, proved.

ghost use Rattle.title_lock.specs.{Modes.{BoundStandsBeside}, Asking.{ModesDecideOverlap, LeftAreGranted}};
ghost use Rattle.title_lock.specs.Standing.{FreeAreGranted, GrantedAreFree, LeftStandFree};
ghost use Rattle.title_land.specs.Depth.{depth};

/// The law of the two tables: a mode stands beside the bound of two modes exactly where it stands beside both.
pub fn bound_stands_beside()
    ensures law { BoundStandsBeside }
{}

/// The law that joins modes and cells: an entry is granted by modes at every node exactly where no other examiner's
/// entry overlaps it, given that every entry there was itself so granted.
pub fn modes_decide_overlap()
    ensures law { ModesDecideOverlap depth }
{}

/// What is left when an examiner gives its locks back was granted entry by entry, too.
pub fn left_are_granted()
    ensures law { LeftAreGranted depth }
{}

/// Entries that stand without overlap were all granted by modes: what the law on modes asks of them.
pub fn free_are_granted()
    ensures law { FreeAreGranted depth }
{}

/// Entries that were granted by modes stand without overlap.
pub fn granted_are_free()
    ensures law { GrantedAreFree depth }
{}

/// What is left when an examiner gives its locks back stands without overlap, too.
pub fn left_stand_free()
    ensures law { LeftStandFree }
{}
