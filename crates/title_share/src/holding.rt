//! Who holds a whole.

ghost use Rattle.std.specs.Prelude.{◌≡◌, ◌≢◌, ◌≤◌, ◌<◌, ◌+◌, ◌-◌, ◌^◌, ◌&&◌, ◌↔◌, ◌++◌};
ghost use Rattle.std.specs.Prelude.{ℕ, [], IsTrue, IfOk, OnOk, OnErr, true, not, cond, eqb, leb};
ghost use Rattle.title_share.specs.Rows.{whole_units, is_division, units_in, with_front, moved_rows};

use smallvec::SmallVec;
use std::alloc::{AllocError, Global};
use std::marker::Model;

/// The units of the whole.
pub const WHOLE: u64 = 4_294_967_296;

// The rows of a holding: two stand in the value itself, since most have no more.
type Rows = SmallVec<(u32, u64), 2>;

/// The units of each party that has some, in order of party. Together they are the whole.
#[derive(Debug, Drop)]
pub struct Holding {
    rows: Rows,
}

impl Model for Holding {
    ghost use Rattle.std.specs.Prelude.{◌≡◌, true};
    ghost use Rattle.title_share.specs.{Rows.{is_division}, Division.{Division, division_code, division_of}};

    ghost Value = { Division };

    ghost coded = { division_code };

    ghost view = { λ h. division_of h.rows.items };

    ghost invariant = { λ h. is_division h.rows.items ≡ true };
}

// A party's units.
fn units_among(rows: &[(u32, u64)], party: u32) -> u64
    ensures units { result ≡ units_in party rows.now }
{
    for row in rows {
        if row.0 == party {
            return row.1;
        }
    }
    0
}

// What the grantee's row has after a move, where it comes before a row or is it, and else 0.
fn gained(given: bool, row: (u32, u64), to: u32, units: u64) -> u64
    requires fits { row.1 + units < 2 ^ 64 }
    ensures gained { result ≡ cond (not given && leb to row.0) (cond (eqb row.0 to) row.1 0 + units) 0 }
{
    if given || row.0 < to {
        return 0;
    }
    if row.0 == to { row.1 + units } else { units }
}

// What a row has left after a move, 0 where it is the grantee's.
fn left(row: (u32, u64), from: u32, to: u32, units: u64) -> u64
    requires held { row.0 ≡ from → units ≤ row.1 }
    ensures left { result ≡ cond (eqb row.0 from) (row.1 - units) (cond (eqb row.0 to) 0 row.1) }
{
    if row.0 == from {
        return row.1 - units;
    }
    if row.0 == to { 0 } else { row.1 }
}

// Gives rows one more at their end, where it has units.
fn push_some(rows: &mut Rows, party: u32, units: u64) -> Result<(), AllocError>
    ensures rows { OnOk result (rows.new.items ≡ rows.old.items ++ with_front party units []) }
{
    if units != 0 {
        rows.push((party, units))?;
    }
    Ok(())
}

// How many rows there are after units have passed from a party to another.
fn count_after(rows: &[(u32, u64)], from: u32, to: u32, units: u64) -> usize {
    let mut count = rows.len();
    if units_among(rows, to) == 0 {
        count += 1;
    }
    if units_among(rows, from) == units {
        count = count.saturating_sub(1);
    }
    count
}

// The rows after units have passed from a party, which has at least so many, to another.
fn rows_after(
    alloc: Global,
    rows: &[(u32, u64)],
    from: u32,
    to: u32,
    units: u64,
) -> Result<Rows, AllocError>
    requires divide { is_division rows.now ≡ true }
    requires held { units ≤ units_in from rows.now }
    requires some { 0 < units }
    requires apart { from ≢ to }
    ensures rows { IfOk result (λ v. v.items ≡ moved_rows from to units rows.now) }
{
    let mut after = SmallVec::with_capacity(alloc, count_after(rows, from, to, units))?;
    let mut given = false;
    for row in rows {
        push_some(&mut after, to, gained(given, *row, to, units))?;
        push_some(&mut after, row.0, left(*row, from, to, units))?;
        given |= to <= row.0;
    }
    if !given {
        push_some(&mut after, to, units)?;
    }
    Ok(after)
}

impl Holding {
    ghost use Rattle.title_share.specs.Division.{rows_of, units_of, all_to, units_after, moved};

    /// The holding in which a party has the whole.
    pub fn whole(alloc: Global, party: u32) -> Result<Holding, AllocError>
        ensures whole { IfOk result (λ h. h ≡ all_to party) }
        ensures units { IfOk result (λ h. (q : ℕ) → units_of q h ≡ cond (eqb party q) whole_units 0) }
    {
        let mut rows = SmallVec::new(alloc);
        rows.push_reserved((party, WHOLE));
        Ok(Holding { rows })
    }

    /// A party's units, 0 where it has none.
    pub fn units(&self, party: u32) -> u64
        ensures units { result ≡ units_of party self.now }
        ensures bound { result ≤ whole_units }
    {
        units_among(&self.rows, party)
    }

    /// The parties that have some units, each with its units, in order of party. They sum to the
    /// whole.
    pub fn rows(&self) -> &[(u32, u64)]
        ensures rows { result.now ≡ rows_of self.now }
        ensures divide { is_division result.now ≡ true }
    {
        self.rows.as_slice()
    }

    /// An equal holding.
    pub fn copy(&self, alloc: Global) -> Result<Holding, AllocError>
        ensures copy { IfOk result (λ h. h ≡ self.now) }
    {
        let rows = SmallVec::from_slice(alloc, &self.rows)?;
        Ok(Holding { rows })
    }

    /// Whether both holdings give each party the same units.
    pub fn same(&self, other: &Holding) -> bool
        ensures same { IsTrue result ↔ (self.now ≡ other.now) }
    {
        self.rows() == other.rows()
    }

    /// The holding that `move_units` would leave, made beside this one.
    pub fn moved(
        &self,
        alloc: Global,
        from: u32,
        to: u32,
        units: u64,
    ) -> Result<Holding, AllocError>
        requires held { units ≤ units_of from self.now }
        ensures moved { IfOk result (λ h. h ≡ moved from to units self.now) }
    {
        if units == 0 || from == to {
            return self.copy(alloc);
        }
        let rows = rows_after(alloc, &self.rows, from, to, units)?;
        Ok(Holding { rows })
    }

    /// Passes units of a party, which has at least so many, to another. With 0 units, or from a
    /// party to itself, nothing changes.
    pub fn move_units(&mut self, from: u32, to: u32, units: u64) -> Result<(), AllocError>
        requires held { units ≤ units_of from self.old }
        ensures units { OnOk result ((q : ℕ) → units_of q self.new ≡ units_after from to units (λ p. units_of p self.old) q) }
        ensures moved { OnOk result (self.new ≡ moved from to units self.old) }
        ensures err { OnErr result (self.new ≡ self.old) }
    {
        if units == 0 || from == to {
            return Ok(());
        }
        let alloc = *self.rows.allocator();
        self.rows = rows_after(alloc, &self.rows, from, to, units)?;
        Ok(())
    }
}
