//! Lists of rows, entries, steps and records, which contracts compare as lists.

ghost use Rattle.std.specs.Prelude.{◌≡◌, ◌≤◌, ◌∷◌, [], IfErr, IfOk, IfSome, length, slice_get};
ghost use Rattle.title_chain.specs.{SheetParts.{all_rows}, KeptRows.{rows_in, sheet_in}};

use crate::ask::{Entry, Step};
use crate::record::Record;
use crate::same_parts::same_estate;
use crate::square_row::{SquareRow, section_of, squares_of};
use std::alloc::{AllocError, Global};
use std::marker::Model;
use std::slice;
use std::sync::{Arc, ArcSlice};
use title_instrument::Estate;
use title_land::Section;
use title_store::SheetRow;

/// Rows of a sheet, in order: as they are, or less the section and the estate that all of them have.
#[derive(Debug, Drop)]
pub enum Lines {
    Plain(Vec<SheetRow>),
    Squares(Section, Estate, Vec<SquareRow>),
}

/// Some rows of a sheet, in order. Copies share them.
#[derive(Debug, Drop)]
pub struct Part {
    lines: Arc<Lines>,
}

impl Model for Part {
    ghost use Rattle.std.specs.{Arc.{arc_value}, Prelude.{List}};
    ghost use Rattle.title_store.specs.declared.sheet_row.SheetRow.{SheetRow};
    ghost use Rattle.title_chain.specs.KeptRows.{rows_in};

    ghost Value = { List SheetRow };

    ghost view = { λ p. rows_in (arc_value p.lines) };
}

/// Parts of a sheet, in order, with the number of their rows.
#[derive(Debug, Drop)]
pub struct Parts {
    items: Vec<Part>,
    count: usize,
}

impl Model for Parts {
    ghost use Rattle.std.specs.Prelude.{◌≡◌, List, length};
    ghost use Rattle.title_store.specs.declared.sheet_row.SheetRow.{SheetRow};
    ghost use Rattle.title_chain.specs.SheetParts.{all_rows};

    ghost Value = { List SheetRow };

    ghost view = { λ s. all_rows s.items.items };

    ghost invariant = { λ s. s.count ≡ length (all_rows s.items.items) };
}

/// How the rows of a sheet are kept: as one list, or in parts that other sheets may have too.
#[derive(Debug, Drop)]
pub enum Sheet {
    Whole(Lines),
    Parted(Parts),
}

/// The rows of a sheet, in order. Copies share them.
#[derive(Debug)]
pub struct SheetRows {
    shared: Arc<Sheet>,
}

// By hand, so that whoever lets one go sees one call.
impl Drop for SheetRows {
    fn drop(self) {
        let SheetRows { shared } = self;
        drop(shared);
    }
}

impl Model for SheetRows {
    ghost use Rattle.std.specs.{Arc.{arc_value}, Prelude.{List}};
    ghost use Rattle.title_store.specs.declared.sheet_row.SheetRow.{SheetRow};
    ghost use Rattle.title_chain.specs.KeptRows.{sheet_in};

    ghost Value = { List SheetRow };

    ghost view = { λ s. sheet_in (arc_value s.shared) };
}

impl Lines {
    // These rows, less their section and estate where all have the same.
    fn of(mut rows: Vec<SheetRow>) -> Result<Lines, AllocError>
        ensures of { IfOk result (λ lines. rows_in lines ≡ rows.items) }
    {
        let Some(first) = rows.first() else {
            return Ok(Lines::Plain(rows));
        };
        let (estate, section) = (first.estate, section_of(first));
        if let Some(section) = section {
            let squares = squares_of(*rows.allocator(), section, estate, &rows)?;
            if let Some(squares) = squares {
                return Ok(Lines::Squares(section, estate, squares));
            }
        }
        rows.shrink_to_fit();
        Ok(Lines::Plain(rows))
    }

    /// How many rows there are.
    pub fn len(&self) -> usize
        ensures len { result ≡ length (rows_in self.now) }
    {
        match self {
            Lines::Plain(rows) => rows.len(),
            Lines::Squares(_, _, squares) => squares.len(),
        }
    }

    // The row at an index, where there is one.
    fn row(&self, index: usize) -> Option<SheetRow>
        ensures row { result ≡ slice_get (rows_in self.now) index }
    {
        match self {
            Lines::Plain(rows) => rows.get(index).copied(),
            Lines::Squares(section, estate, squares) => {
                let square = squares.get(index)?;
                Some(square.row(*section, *estate))
            }
        }
    }
}

impl Part {
    // The part with these rows, as they are kept.
    fn of(alloc: Global, lines: Lines) -> Result<Part, AllocError>
        ensures of { IfOk result (λ part. part ≡ rows_in lines) }
    {
        let lines = Arc::new(alloc, lines)?;
        Ok(Part { lines })
    }

    /// The part with these rows.
    pub fn new(rows: Vec<SheetRow>) -> Result<Part, AllocError>
        ensures new { IfOk result (λ part. part ≡ rows.items) }
    {
        let alloc = *rows.allocator();
        Part::of(alloc, Lines::of(rows)?)
    }

    /// Its rows, as they are kept.
    pub fn lines(&self) -> &Lines
        ensures lines { rows_in result.now ≡ self.now }
    {
        &self.lines
    }

    /// An equal part, which shares the rows. Takes no memory; refused only where 2^63 - 1 copies live.
    pub fn copy(&self) -> Result<Part, AllocError>
        ensures copy { IfOk result (λ part. part ≡ self.now) }
    {
        let lines = self.lines.clone()?;
        Ok(Part { lines })
    }
}

// From how many rows on those of a section are kept less their section and estate.
const FEW: usize = 16;

// How many rows at the front have this estate.
fn run_of(rows: &[SheetRow], estate: Estate) -> usize
    ensures run { result ≤ length rows.now }
{
    for index in 0..rows.len() {
        if !same_estate(rows[index].estate, estate) {
            return index;
        }
    }
    rows.len()
}

// Rows in parts, one for each estate in turn; `None` where one isn't a row of its part's section.
fn parts_of(alloc: Global, rows: &[SheetRow]) -> Result<Option<Vec<Part>>, AllocError>
    ensures parts { IfOk result (λ some. IfSome some (λ parts. all_rows parts.items ≡ rows.now)) }
{
    let mut parts = Vec::with_capacity(alloc, 3)?;
    let mut left = rows;
    while let Some((first, rest)) = left.split_first() {
        let Some(section) = section_of(first) else {
            return Ok(None);
        };
        let estate = first.estate;
        let (now, later) = left.split_at(1 + run_of(rest, estate));
        let squares = squares_of(alloc, section, estate, now)?;
        let Some(squares) = squares else {
            return Ok(None);
        };
        parts.push(Part::of(alloc, Lines::Squares(section, estate, squares))?)?;
        left = later;
    }
    Ok(Some(parts))
}

// How many rows parts have; none where no number has room for it: parts that are shared may have more rows than fit into memory.
#[tactic(auto, using(crate::specs::Laws::PartsInTurn::count_after))]
fn count_rows(parts: &[Part]) -> Option<usize>
    ensures count { IfSome result (λ count. count ≡ length (all_rows parts.now)) }
{
    let mut count: usize = 0;
    for part in parts {
        count = count.checked_add(part.lines().len())?;
    }
    Some(count)
}

// The row at an index of the rows of parts, one part after another, where there is one.
fn row_at(parts: &[Part], index: usize) -> Option<SheetRow>
    ensures row { result ≡ slice_get (all_rows parts.now) index }
{
    let (first, rest) = parts.split_first()?;
    let lines = first.lines();
    let count = lines.len();
    if index < count {
        return lines.row(index);
    }
    row_at(rest, index - count)
}

impl Parts {
    // These parts. Refused where no number has room for that of their rows.
    fn new(items: Vec<Part>) -> Result<Parts, AllocError>
        ensures new { IfOk result (λ parts. parts ≡ all_rows items.items) }
    {
        let Some(count) = count_rows(&items) else {
            return Err(AllocError);
        };
        Ok(Parts { items, count })
    }

    fn len(&self) -> usize
        ensures len { result ≡ length self.now }
    {
        self.count
    }

    /// The parts, in order, whose rows these are.
    pub fn as_slice(&self) -> &[Part]
        ensures parts { all_rows result.now ≡ self.now }
    {
        self.items.as_slice()
    }
}

impl SheetRows {
    /// The list of these rows.
    pub fn new(mut rows: Vec<SheetRow>) -> Result<SheetRows, AllocError>
        ensures new { IfOk result (λ list. list ≡ rows.items) }
    {
        let alloc = *rows.allocator();
        if rows.len() >= FEW {
            let parts = parts_of(alloc, &rows)?;
            if let Some(parts) = parts {
                return SheetRows::of_parts(parts);
            }
        }
        rows.shrink_to_fit();
        let shared = Arc::new(alloc, Sheet::Whole(Lines::Plain(rows)))?;
        Ok(SheetRows { shared })
    }

    /// The list of these parts' rows, which shares them.
    pub fn of_parts(parts: Vec<Part>) -> Result<SheetRows, AllocError>
        ensures of { IfOk result (λ list. list ≡ all_rows parts.items) }
    {
        let alloc = *parts.allocator();
        let shared = Arc::new(alloc, Sheet::Parted(Parts::new(parts)?))?;
        Ok(SheetRows { shared })
    }

    /// The rows, as they are kept.
    pub fn sheet(&self) -> &Sheet
        ensures sheet { sheet_in result.now ≡ self.now }
    {
        &self.shared
    }

    /// How many rows there are.
    pub fn len(&self) -> usize
        ensures len { result ≡ length self.now }
    {
        match self.sheet() {
            Sheet::Whole(lines) => lines.len(),
            Sheet::Parted(parts) => parts.len(),
        }
    }

    /// The row at an index, from 0, where there is one.
    pub fn row(&self, index: usize) -> Option<SheetRow>
        ensures row { result ≡ slice_get self.now index }
    {
        match self.sheet() {
            Sheet::Whole(lines) => lines.row(index),
            Sheet::Parted(parts) => row_at(parts.as_slice(), index),
        }
    }

    /// An equal list, which shares the rows. Takes no memory; refused only where 2^63 - 1 copies live.
    pub fn copy(&self) -> Result<SheetRows, AllocError>
        ensures copy { IfOk result (λ list. list ≡ self.now) }
    {
        let shared = self.shared.clone()?;
        Ok(SheetRows { shared })
    }
}

/// The entries of a chain, in order. Copies share them.
#[derive(Debug)]
pub struct Entries {
    items: ArcSlice<Entry>,
}

// By hand, so that whoever lets one go sees one call.
impl Drop for Entries {
    fn drop(self) {
        let Entries { items } = self;
        drop(items);
    }
}

impl Model for Entries {
    ghost use Rattle.std.specs.{Arc.{arc_slice_items}, Prelude.{List}};
    ghost use Rattle.title_chain.specs.declared.ask.Entry.{Entry};

    ghost Value = { List Entry };

    ghost view = { λ s. arc_slice_items s.items };
}

impl Entries {
    /// The list of these entries.
    pub fn new(mut entries: Vec<Entry>) -> Result<Entries, AllocError>
        ensures new { IfOk result (λ list. list ≡ entries.items) }
    {
        entries.shrink_to_fit();
        let items = ArcSlice::from_vec(entries)?;
        Ok(Entries { items })
    }

    /// The entries, in order.
    pub fn as_slice(&self) -> &[Entry]
        ensures slice { result.now ≡ self.now }
    {
        self.items.as_slice()
    }

    /// An equal list, which shares the entries. Takes no memory; refused only where 2^63 - 1 copies live.
    pub fn copy(&self) -> Result<Entries, AllocError>
        ensures copy { IfOk result (λ list. list ≡ self.now) }
    {
        let items = self.items.clone()?;
        Ok(Entries { items })
    }
}

// How steps are kept: one alone takes no memory.
#[derive(Debug, Drop)]
pub(crate) enum KeptSteps {
    One(Step),
    Many(Vec<Step>),
}

/// The steps of a transaction, the oldest first.
#[derive(Debug)]
pub struct Steps {
    kept: KeptSteps,
}

// By hand, so that whoever lets one go sees one call.
impl Drop for Steps {
    fn drop(self) {
        let Steps { kept } = self;
        drop(kept);
    }
}

impl Model for Steps {
    ghost use Rattle.std.specs.Prelude.{List};
    ghost use Rattle.title_chain.specs.{declared.ask.Step.{Step}, StepLists.{steps_in}};

    ghost Value = { List Step };

    ghost view = { λ s. steps_in s.kept };
}

impl Steps {
    /// No step; takes no memory.
    pub fn empty(alloc: Global) -> Steps
        ensures empty { result ≡ [] }
    {
        Steps::new(Vec::new(alloc))
    }

    /// The list of this step alone; takes no memory.
    pub fn one(step: Step) -> Steps
        ensures one { result ≡ step ∷ [] }
    {
        let kept = KeptSteps::One(step);
        Steps { kept }
    }

    /// The list of these steps.
    pub fn new(items: Vec<Step>) -> Steps
        ensures new { result ≡ items.items }
    {
        let kept = KeptSteps::Many(items);
        Steps { kept }
    }

    /// The steps, in order.
    pub fn as_slice(&self) -> &[Step]
        ensures slice { result.now ≡ self.now }
    {
        match &self.kept {
            KeptSteps::One(step) => slice::from_ref(step),
            KeptSteps::Many(items) => items.as_slice(),
        }
    }

    /// The steps as a `Vec`. Only for one that is kept alone memory may be wanted, and then the list is given back.
    pub fn into_vec(self, alloc: Global) -> Result<Vec<Step>, Steps>
        ensures vec { IfOk result (λ items. items.items ≡ self) }
        ensures back { IfErr result (λ back. back ≡ self) }
    {
        let Steps { kept } = self;
        let step = match kept {
            KeptSteps::One(step) => step,
            KeptSteps::Many(items) => return Ok(items),
        };
        let Ok(mut items) = Vec::with_capacity(alloc, 1) else {
            return Err(Steps::one(step));
        };
        items.push_reserved(step);
        Ok(items)
    }

    /// An equal list.
    pub fn copy(&self, alloc: Global) -> Result<Steps, AllocError>
        ensures copy { IfOk result (λ items. items ≡ self.now) }
    {
        let steps = self.as_slice();
        let mut items = Vec::with_capacity(alloc, steps.len())?;
        for step in steps {
            items.push(step.copy(alloc)?)?;
        }
        Ok(Steps::new(items))
    }
}

/// Records in the order of their commits; the place of a record is its number in the list, from 1.
#[derive(Debug)]
pub struct Records {
    items: Vec<Record>,
}

// By hand, so that whoever lets one go sees one call.
impl Drop for Records {
    fn drop(self) {
        let Records { items } = self;
        drop(items);
    }
}

impl Model for Records {
    ghost use Rattle.std.specs.Prelude.{List};
    ghost use Rattle.title_chain.specs.declared.record.Record.{Record};

    ghost Value = { List Record };

    ghost view = { λ s. s.items.items };
}

impl Records {
    /// The list of these records.
    pub fn new(items: Vec<Record>) -> Records
        ensures new { result ≡ items.items }
    {
        Records { items }
    }

    /// The records, in order.
    pub fn as_slice(&self) -> &[Record]
        ensures slice { result.now ≡ self.now }
    {
        self.items.as_slice()
    }

    /// The records as a `Vec`; takes no memory.
    pub fn into_vec(self) -> Vec<Record>
        ensures vec { result.items ≡ self }
    {
        let Records { items } = self;
        items
    }

    /// The list of copies of these records.
    pub fn copy_of(alloc: Global, records: &[Record]) -> Result<Records, AllocError>
        ensures copy { IfOk result (λ items. items ≡ records.now) }
    {
        let mut items = Vec::new(alloc);
        for record in records {
            items.push(record.copy(alloc)?)?;
        }
        Ok(Records { items })
    }

    /// An equal list.
    pub fn copy(&self, alloc: Global) -> Result<Records, AllocError>
        ensures copy { IfOk result (λ items. items ≡ self.now) }
    {
        Records::copy_of(alloc, &self.items)
    }
}
