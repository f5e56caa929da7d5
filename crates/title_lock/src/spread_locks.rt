//! Locks as a table of the holders of each node.

ghost use Rattle.std.specs.Prelude.{◌≡◌, ℕ, true, List, None, ◌∷◌, ◌==◌, ◌&&◌, if◌then◌else◌, OnOk, OnErr, is_some, not};
ghost use Rattle.std.specs.List.{list_any};
ghost use Rattle.title_land.specs.{Depth.{depth}, declared.node.Node.{Node}};
ghost use Rattle.title_lock.specs.{declared.{guards.Entry.{Entry}, modes.Mode.{Mode}}, Overlaps.{without}};
ghost use Rattle.title_lock.specs.{Books.{is_nothing}, Asking.{mode_at, AllGranted, AreSized}, Counts.{IsCount}, Holders.{count_in}};
ghost use Rattle.title_lock.specs.Tables.{on_all, table_mode, is_asked, is_asked_by, HasRoom, IsRoomy, IdleMore, NoMoreIdle, AllUsed};
ghost use Rattle.title_lock.specs.{Standing.{StandFree}, Locks.{Locks, granted, waiting, AreLocks}};

use crate::book::Book;
use crate::counts::Counts;
use crate::guards::{Access, Entry, Guards, LockFault};
use crate::modes::Mode;
use crate::table::Table;
use std::alloc::{AllocError, Global};
use std::marker::Model;
use title_land::{Node, Tract};

/// Locks by node: for each node in use how many examiners hold it in each mode, and the holders. The counts decide; the
/// holders are looked through only for the least examiner in the way. An access that is prepared stands before the
/// entries, and has room at each node that it asks for. Nothing else is kept of a node or an examiner that holds nothing.
#[derive(Drop)]
pub(crate) struct SpreadLocks {
    alloc: Global,
    book: Book,
    table: Table,
    prepared: Option<u32>,
}

impl Model for SpreadLocks {
    ghost Value = { Locks };

    ghost view = { λ l. record { entries = granted l.prepared l.book; prepared = waiting l.prepared l.book } };

    ghost invariant = { λ l. AreLocks depth l.prepared l.book l.table };
}

// Makes room for what an entry asks for, and adds it to the book. An error may leave room.
fn fill(table: &mut Table, book: &mut Book, cover: &[Node], entry: Entry) -> Result<(), AllocError>
    requires roomy { (n : Node) → IsRoomy (on_all table.old) entry.examiner n }
    ensures modes { (f : ℕ) → (n : Node) → table_mode (on_all table.new) f n ≡ table_mode (on_all table.old) f n }
    ensures room { OnOk result (HasRoom (on_all table.new) entry.examiner (λ n. list_any (is_asked n) cover.now)) }
    ensures idle { IdleMore (on_all table.old) (on_all table.new) entry.examiner (λ n. list_any (is_asked n) cover.now) }
    ensures used { AllUsed (on_all table.old) → AllUsed (on_all table.new) }
    ensures ok { OnOk result (book.new ≡ entry ∷ book.old) }
    ensures err { OnErr result (book.new ≡ book.old) }
{
    table.make_room_all(entry.examiner, cover)?;
    book.push(entry)
}

// The same; an error leaves no room that wasn't there.
fn stage(table: &mut Table, book: &mut Book, cover: &[Node], entry: Entry) -> Result<(), AllocError>
    requires roomy { (n : Node) → IsRoomy (on_all table.old) entry.examiner n }
    ensures modes { (f : ℕ) → (n : Node) → table_mode (on_all table.new) f n ≡ table_mode (on_all table.old) f n }
    ensures room { OnOk result (HasRoom (on_all table.new) entry.examiner (λ n. list_any (is_asked n) cover.now)) }
    ensures idle { OnOk result (IdleMore (on_all table.old) (on_all table.new) entry.examiner (λ n. list_any (is_asked n) cover.now)) }
    ensures undone { OnErr result (NoMoreIdle (on_all table.old) (on_all table.new)) }
    ensures used { AllUsed (on_all table.old) → AllUsed (on_all table.new) }
    ensures ok { OnOk result (book.new ≡ entry ∷ book.old) }
    ensures err { OnErr result (book.new ≡ book.old) }
{
    let examiner = entry.examiner;
    if fill(table, book, cover, entry).is_ok() {
        return Ok(());
    }
    table.drop_room_all(examiner, cover);
    Err(AllocError)
}

// Takes out an examiner's entries, and the examiner out of the holders of all nodes that they ask for.
fn give_back_all(table: &mut Table, book: &mut Book, examiner: u32)
    requires held { (n : Node) → list_any (is_asked_by depth examiner n) book.old ≡ true
        → is_some (table_mode (on_all table.old) examiner n) ≡ true }
    ensures left { book.new ≡ without examiner book.old }
    ensures modes { (f : ℕ) → (n : Node) → table_mode (on_all table.new) f n
        ≡ (if f == examiner && list_any (is_asked_by depth examiner n) book.old then None else table_mode (on_all table.old) f n) }
    ensures idle { NoMoreIdle (on_all table.old) (on_all table.new) }
    ensures used { AllUsed (on_all table.old) → AllUsed (on_all table.new) }
{
    while let Some(entry) = book.take(examiner) {
        table.take_out_all(examiner, entry.tract.cover());
    }
}

impl SpreadLocks {
    /// The law on modes holds of this table: its entries stand without overlap, each was granted by modes when it came, and
    /// their sets are as large as the grid. It does nothing: its type says so, and a proof may cite it.
    pub(crate) fn stand_granted(&self)
        ensures free { StandFree self.now.entries }
        ensures granted { AllGranted depth self.now.entries }
        ensures sized { AreSized depth self.now.entries }
    {
        let _ = &self.table;
    }

    /// How many examiners have each mode at a node. Takes no memory.
    pub(crate) fn counts(&self, node: &Node) -> Counts
        ensures counts { (m : Mode) → IsCount (λ e. mode_at depth self.now.entries e node.now) m (count_in result m) }
    {
        self.table.counts(node)
    }

    /// Whether there is no entry, and no access is prepared.
    pub(crate) fn is_idle(&self) -> bool
        ensures idle { result ≡ (not (is_some self.now.prepared) && is_nothing self.now.entries) }
    {
        self.prepared.is_none() && self.book.is_empty()
    }

    /// Takes back the room of an access that was prepared and not granted.
    pub(crate) fn forget(&mut self)
        ensures stays { self.new.entries ≡ self.old.entries }
        ensures none { self.new.prepared ≡ None }
    {
        let Some(examiner) = self.prepared else {
            return;
        };
        self.prepared = None;
        if let Some(entry) = self.book.take(examiner) {
            self.table.drop_room_all(examiner, entry.tract.cover());
        }
    }
}

impl Guards for SpreadLocks {
    ghost entries = { λ l. l.entries };

    ghost prepared = { λ l. l.prepared };

    fn new(alloc: Global) -> SpreadLocks {
        SpreadLocks {
            alloc,
            book: Book::new(alloc),
            table: Table::new(alloc),
            prepared: None,
        }
    }

    fn would(&self, examiner: u32, tract: &Tract, access: Access) -> Option<u32> {
        self.table.ways(examiner, tract.cover(), access)
    }

    fn prepare(&mut self, examiner: u32, tract: &Tract, access: Access) -> Result<(), LockFault> {
        self.forget();
        if let Some(other) = self.would(examiner, tract, access) {
            return Err(LockFault::Conflict(other));
        }
        let Ok(copy) = tract.copy(self.alloc) else {
            return Err(LockFault::Memory);
        };
        let entry = Entry {
            examiner,
            tract: copy,
            access,
        };
        let Ok(()) = stage(&mut self.table, &mut self.book, tract.cover(), entry) else {
            return Err(LockFault::Memory);
        };
        self.prepared = Some(examiner);
        Ok(())
    }

    fn grant(&mut self, examiner: u32, tract: &Tract, access: Access) {
        self.prepared = None;
        self.table.raise_all(examiner, tract.cover(), access);
    }

    fn give_back(&mut self, examiner: u32) {
        self.forget();
        give_back_all(&mut self.table, &mut self.book, examiner);
    }

    fn mode(&self, examiner: u32, node: &Node) -> Option<Mode> {
        self.table.mode(examiner, node)
    }
}
