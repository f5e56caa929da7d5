//! Locks as a plain list of entries.

ghost use Rattle.std.specs.Prelude.{◌≡◌, ◌<◌, ◌^◌, ◌&&◌, ◌==◌, if◌then◌else◌, Some, None, List, reverse, filter, not, OnOk};
ghost use Rattle.std.specs.Prelude.{ℕ, true, is_some, IfErr};
ghost use Rattle.title_land.specs.{Depth.{depth}, Lands.{cover_of}};
ghost use Rattle.title_lock.specs.Standing.{StandFree};
ghost use Rattle.title_lock.specs.{declared.guards.Entry.{Entry}, Overlaps.{is_post, overlap, Stands, IsLeast, RefusedBy}};
ghost use Rattle.title_lock.specs.{Asking.{asked_for, asked, mode_at, AllGranted, AreSized}, Counts.{IsCount}, Holders.{count_in}};
ghost use Rattle.title_lock.specs.{declared.modes.Mode.{Mode}, Homes.{home_number, is_elsewhere}};

use crate::counts::Counts;
use crate::guards::{Access, Entry, Guards, LockFault};
use crate::least::least;
use crate::modes::{Mode, bound};
use crate::spots::Spot;
use crate::walks::{above_mode, own_mode};
use std::alloc::{AllocError, Global};
use std::marker::Model;
use title_land::{Node, Tract};

/// Locks as a list of what was granted, the oldest first. Who is in the way is told by the cells of the tracts, with no
/// mode; a mode is told by what each entry asks for. Each call goes through the whole list, and passes over what lies in
/// another section.
pub struct RowLocks {
    alloc: Global,
    rows: Vec<Row>,
    prepared: Option<Entry>,
}

// By hand, so that whoever lets one go sees one call.
impl Drop for RowLocks {
    fn drop(self) {
        let RowLocks {
            alloc: _,
            rows,
            prepared,
        } = self;
        drop(rows);
        drop(prepared);
    }
}

impl Model for RowLocks {
    ghost use Rattle.std.specs.Prelude.{reverse, vec_len, vec_capacity, nat_lt};
    ghost use Rattle.title_land.specs.Depth.{depth};
    ghost use Rattle.title_lock.specs.Locks.{Locks, AreRows};

    ghost Value = { Locks };

    ghost view = { λ l. record { entries = reverse l.rows.items; prepared = l.prepared } };

    ghost invariant = { λ l. AreRows depth (reverse l.rows.items) l.prepared (nat_lt (vec_len l.rows) (vec_capacity l.rows)) };
}

/// An entry as it is listed, with the number of the one section that its tract lies in.
#[derive(Drop)]
pub(crate) struct Row {
    entry: Entry,
    // 0 where it lies in no one section.
    home: u64,
}

impl Model for Row {
    ghost use Rattle.std.specs.Prelude.{◌≡◌};
    ghost use Rattle.title_lock.specs.{declared.guards.Entry.{Entry}, Homes.{home_number}};

    ghost Value = { Entry };

    ghost view = { λ r. r.entry };

    ghost invariant = { λ r. r.home ≡ home_number r.entry.tract };
}

// The number of the one section that a tract lies in.
fn home_number(tract: &Tract) -> u64
    ensures number { result ≡ home_number tract.now }
{
    match tract.home() {
        Node::Part(section, within) => Node::Part(section, within).number(),
        _ => 0,
    }
}

impl Row {
    // The row of an entry.
    fn of(entry: Entry) -> Row
        ensures of { result ≡ entry }
    {
        let home = home_number(&entry.tract);
        Row { entry, home }
    }

    /// The entry.
    pub(crate) fn entry(&self) -> &Entry
        ensures entry { result.now ≡ self.now }
    {
        &self.entry
    }

    // Whether its tract lies in another section than the one of this number, so that they share no cell.
    fn is_elsewhere(&self, home: u64) -> bool
        ensures elsewhere { result ≡ is_elsewhere (home_number self.now.tract) home }
    {
        self.home != home && self.home != 0 && home != 0
    }
}

fn is_post(access: Access) -> bool
    ensures post { result ≡ is_post access }
{
    match access {
        Access::Read => false,
        Access::Post => true,
    }
}

// Whether an access overlaps an entry.
fn overlaps(entry: &Entry, tract: &Tract, access: Access) -> bool
    ensures overlaps { result ≡ overlap tract.now (is_post access) entry.now.tract (is_post entry.now.access) }
{
    (is_post(access) || is_post(entry.access)) && tract.meets(&entry.tract)
}

// The examiner of an entry that is in the way.
fn way_of(entry: &Entry, examiner: u32, tract: &Tract, access: Access) -> Option<u32>
    ensures way { IsLeast (λ f. f == entry.now.examiner && overlap tract.now (is_post access) entry.now.tract (is_post entry.now.access))
        examiner result }
{
    if entry.examiner != examiner && overlaps(entry, tract, access) {
        Some(entry.examiner)
    } else {
        None
    }
}

/// The least other examiner in the way of an access, and to how many entries its tract was held.
pub(crate) fn way(
    rows: &[Row],
    examiner: u32,
    tract: &Tract,
    access: Access,
) -> (Option<u32>, usize)
    ensures way { Stands (reverse rows.now) examiner tract.now (is_post access) result.0 }
{
    let home = home_number(tract);
    let mut way = None;
    let mut met = 0_usize;
    for row in rows {
        if !row.is_elsewhere(home) {
            way = least(way_of(row.entry(), examiner, tract, access), way);
            met = met.saturating_add(1);
        }
    }
    (way, met)
}

// What an access asks for at a node, for one node of its cover.
fn asked_for(access: Access, member: &Node, node: &Node) -> Option<Mode>
    ensures asked { result ≡ asked_for (is_post access) member.now node.now }
{
    if node.is(member) {
        Some(own_mode(access))
    } else if Spot::of(node).is_above(&Spot::of(member)) {
        Some(above_mode(access))
    } else {
        None
    }
}

// What an access asks for at a node.
fn asked(access: Access, cover: &[Node], node: &Node) -> Option<Mode>
    ensures asked { result ≡ asked (is_post access) cover.now node.now }
{
    match cover {
        [] => None,
        [member, more @ ..] => bound(asked_for(access, member, node), asked(access, more, node)),
    }
}

// What an entry gives an examiner at a node.
fn mode_by(entry: &Entry, examiner: u32, node: &Node) -> Option<Mode>
    ensures mode { result ≡ (if examiner == entry.now.examiner
        then asked (is_post entry.now.access) (cover_of depth entry.now.tract) node.now else None) }
{
    if examiner == entry.examiner {
        asked(entry.access, entry.tract.cover(), node)
    } else {
        None
    }
}

// The mode of an examiner at a node.
fn mode_in(rows: &[Row], examiner: u32, node: &Node) -> Option<Mode>
    ensures mode { result ≡ mode_at depth (reverse rows.now) examiner node.now }
{
    let mut mode = None;
    for row in rows {
        mode = bound(mode_by(row.entry(), examiner, node), mode);
    }
    mode
}

/// How many examiners have each mode at a node.
pub(crate) fn counted(rows: &[Row], node: &Node) -> Counts
    ensures counted { (m : Mode) → IsCount (λ e. mode_at depth (reverse rows.now) e node.now) m (count_in result m) }
    ensures few { (e : ℕ) → is_some (mode_at depth (reverse rows.now) e node.now) ≡ true → e < 2 ^ 32 }
{
    let Some((row, older)) = rows.split_last() else {
        return Counts::NONE;
    };
    let counts = counted(older, node);
    let entry = row.entry();
    let had = mode_in(older, entry.examiner, node);
    counts.moved(had, bound(mode_by(entry, entry.examiner, node), had))
}

// Takes out an examiner's entries.
fn take_out(rows: &mut Vec<Row>, examiner: u32)
    ensures rows { rows.new.items ≡ filter (λ x. not (x.examiner == examiner)) rows.old.items }
{
    rows.retain(|row| row.entry().examiner != examiner);
}

impl RowLocks {
    /// The law on modes holds of this table: its entries stand without overlap, each was granted by modes when it came, and
    /// their sets are as large as the grid. It does nothing: its type says so, and a proof may cite it.
    pub fn stand_granted(&self)
        ensures free { StandFree self.now.entries }
        ensures granted { AllGranted depth self.now.entries }
        ensures sized { AreSized depth self.now.entries }
    {
        let _ = &self.rows;
    }

    /// The entries, the oldest first.
    pub(crate) fn rows(&self) -> &[Row]
        ensures rows { reverse result.now ≡ self.now.entries }
    {
        self.rows.as_slice()
    }

    // Makes room for an access that nobody is in the way of, and adds nothing. An error is for memory.
    fn make_room(&mut self, examiner: u32, tract: &Tract, access: Access) -> Result<(), AllocError>
        requires free { Stands self.old.entries examiner tract.now (is_post access) None }
        ensures stays { self.new.entries ≡ self.old.entries }
        ensures prepared { OnOk result
            (self.new.prepared ≡ Some (record { examiner = examiner; tract = tract.now; access = access })) }
    {
        self.prepared = None;
        // The cover says that a tract's set is as large as the grid.
        let _ = tract.cover();
        let copy = tract.copy(self.alloc)?;
        self.rows.reserve(1)?;
        self.prepared = Some(Entry {
            examiner,
            tract: copy,
            access,
        });
        Ok(())
    }

    /// As `prepare` does, where it is known who is in the way: the list isn't gone through.
    pub(crate) fn prepare_knowing(
        &mut self,
        way: Option<u32>,
        examiner: u32,
        tract: &Tract,
        access: Access,
    ) -> Result<(), LockFault>
        requires way { Stands self.old.entries examiner tract.now (is_post access) way }
        ensures stays { self.new.entries ≡ self.old.entries }
        ensures prepared { OnOk result
            (self.new.prepared ≡ Some (record { examiner = examiner; tract = tract.now; access = access })) }
        ensures free { OnOk result (Stands self.old.entries examiner tract.now (is_post access) None) }
        ensures fault { IfErr result (RefusedBy self.old.entries examiner tract.now (is_post access)) }
    {
        if let Some(other) = way {
            return Err(LockFault::Conflict(other));
        }
        let Ok(()) = self.make_room(examiner, tract, access) else {
            return Err(LockFault::Memory);
        };
        Ok(())
    }
}

impl Guards for RowLocks {
    ghost entries = { λ l. l.entries };

    ghost prepared = { λ l. l.prepared };

    fn new(alloc: Global) -> RowLocks {
        RowLocks {
            alloc,
            rows: Vec::new(alloc),
            prepared: None,
        }
    }

    fn would(&self, examiner: u32, tract: &Tract, access: Access) -> Option<u32> {
        way(&self.rows, examiner, tract, access).0
    }

    fn prepare(&mut self, examiner: u32, tract: &Tract, access: Access) -> Result<(), LockFault> {
        let way = self.would(examiner, tract, access);
        self.prepare_knowing(way, examiner, tract, access)
    }

    fn grant(&mut self, _examiner: u32, _tract: &Tract, _access: Access) {
        if let Some(entry) = self.prepared.take() {
            self.rows.push_reserved(Row::of(entry));
        }
    }

    fn give_back(&mut self, examiner: u32) {
        self.prepared = None;
        take_out(&mut self.rows, examiner);
    }

    fn mode(&self, examiner: u32, node: &Node) -> Option<Mode> {
        mode_in(&self.rows, examiner, node)
    }
}
