//! Sheets that are kept of a plant, and parts of sheets, by where their tracts lie.

ghost use Rattle.std.specs.{Prelude.{◌≡◌, ℕ, List, [], IfOk, IfSome}, List.{All}};
ghost use Rattle.title_instrument.specs.declared.parts.Estates.{Estates as Named};
ghost use Rattle.title_land.specs.{Depth.{depth}, Lands.{home_of, land_of}, NodeNumbers.{node_number}, declared.survey.Township.{Township}};
ghost use Rattle.title_land.specs.declared.{node.Node.TheVariants.{Part as Square}, tract.Land.TheVariants.{Township as WholeTownship}};
ghost use Rattle.title_store.specs.{Plants.{Plant as Content}, Sheets.{estate_sheet, sheet_of}};
ghost use Rattle.title_desk.specs.Shown.{IsShown, IsQuarter, IsTrue, land_in, no_stock, left_of, all_kept, kept_under, IsSetUnder};
ghost use Rattle.title_desk.specs.Shown.{IsKept, AllKept, AreKept, AreLeft, OthersStay, ApartStay};
ghost use Rattle.title_desk.specs.declared.kept_sheets.Kept.TheVariants.{Quarter as OfQuarter, Sheet as OfSheet};

use std::alloc::{AllocError, Global};
use std::collections::BTreeMap;
use title_chain::{Part, SheetRows, same_tract};
use title_instrument::{Estate, Estates};
use title_land::{Node, Quarter, Section, Township, Tract};

// How many sheets of one home are kept at most. Homes are at most 2,304 sections, 64 townships and the whole plant, so at most
// 37,904 sheets are kept, of 24 bytes each besides their rows, which the steps that were answered by them share.
const MOST_SHOWN: usize = 16;

/// How many parts a section's sheet has at most, and how many of them are kept: those of four quarters for three estates. So at most
/// 27,648 parts are kept, of 32 bytes each besides their rows.
pub(crate) const MOST_PARTS: usize = 12;

// From how many rows on a section's sheet is long: the next is put together of its quarters' parts.
const LONG: usize = 128;

// The last section of a township.
const LAST_SECTION: u8 = 36;

/// A sheet that is kept, or that may be: its tract and its rows.
#[derive(Drop)]
pub(crate) struct Shown {
    tract: Tract,
    rows: SheetRows,
}

/// A part of a section's sheet that is kept, or that may be: that of a quarter for an estate, with the quarter's tract.
#[derive(Drop)]
pub(crate) struct Quartered {
    tract: Tract,
    // Which quarter it is of: by this it is found sooner.
    quarter: Quarter,
    estate: Estate,
    part: Part,
}

/// What is kept, or may be: a sheet, or a quarter's part for an estate.
#[derive(Drop)]
pub(crate) enum Kept {
    Sheet(Shown),
    Quarter(Quartered),
}

/// What is kept of tracts of one home.
#[derive(Drop)]
pub(crate) struct Home {
    shown: Vec<Shown>,
    // The slot whose sheet goes where there are as many as may be and another is to be kept: the slots take turns.
    turn: usize,
    quarters: Vec<Quartered>,
    // Whether the last sheet of the section was long: a hint, on which no clause rests.
    is_long: bool,
}

/// What is kept of a plant, by the homes of the tracts: the section in which a tract lies, or else the township, or the whole plant.
#[derive(Drop)]
pub(crate) struct KeptSheets {
    alloc: Global,
    // By the numbers of homes.
    homes: BTreeMap<u64, Home>,
}

impl Kept {
    /// A sheet to keep, which shares what the tract and the rows have; none where they can't be shared once more.
    pub(crate) fn sheet(alloc: Global, tract: &Tract, rows: &SheetRows) -> Option<Kept>
        ensures sheet { (townships : List Township) (content : Content) → rows.now ≡ sheet_of depth townships content tract.now →
            IfSome result (IsTrue townships content) }
    {
        let (Ok(tract), Ok(rows)) = (tract.copy(alloc), rows.copy()) else {
            return None;
        };
        Some(Kept::Sheet(Shown { tract, rows }))
    }

    /// A quarter's part to keep, which shares it; none where it can't be shared once more.
    pub(crate) fn quarter(
        tract: Tract,
        quarter: Quarter,
        estate: Estate,
        part: &Part,
    ) -> Option<Kept>
        ensures quarter { (townships : List Township) (content : Content)
            → part.now ≡ estate_sheet depth townships content tract estate → IfSome result (IsTrue townships content) }
    {
        let part = part.copy().ok()?;
        Some(Kept::Quarter(Quartered {
            tract,
            quarter,
            estate,
            part,
        }))
    }

    // The number of its tract's home.
    fn number(&self) -> u64
        ensures number { result ≡ node_number (home_of (land_in self.now)) }
    {
        match self {
            Kept::Sheet(shown) => shown.tract.home().number(),
            Kept::Quarter(quartered) => quartered.tract.home().number(),
        }
    }
}

/// The section of which a tract has all cells, where it is a section's tract.
pub(crate) fn whole_section(tract: &Tract) -> Option<Section>
    ensures whole { IfSome result (λ section. tract.now ≡ land_of depth (Square section [])) }
{
    let Node::Part(section, _) = tract.home() else {
        return None;
    };
    if same_tract(tract, &Tract::of(section.node())) {
        return Some(section);
    }
    None
}

impl Shown {
    // Its rows, where they are of this tract.
    fn rows_for(&self, tract: &Tract) -> Option<SheetRows>
        ensures rows { (townships : List Township) (content : Content) → IsShown townships content self.now →
            IfSome result (λ rows. rows ≡ sheet_of depth townships content tract.now) }
    {
        if same_tract(&self.tract, tract) {
            return self.rows.copy().ok();
        }
        None
    }
}

// The rows that are kept of a tract.
fn rows_of(shown: &[Shown], tract: &Tract) -> Option<SheetRows>
    ensures rows { (townships : List Township) (content : Content) → All (IsShown townships content) shown.now →
        IfSome result (λ rows. rows ≡ sheet_of depth townships content tract.now) }
{
    for one in shown {
        if let Some(rows) = one.rows_for(tract) {
            return Some(rows);
        }
    }
    None
}

impl Quartered {
    // The part, where it is of this quarter's tract and this estate.
    fn part_for(&self, tract: &Tract, quarter: Quarter, estate: Estate) -> Option<Part>
        ensures part { (townships : List Township) (content : Content) → IsQuarter townships content self.now →
            IfSome result (λ part. part ≡ estate_sheet depth townships content tract.now estate) }
    {
        if self.estate != estate || self.quarter != quarter || !same_tract(&self.tract, tract) {
            return None;
        }
        self.part.copy().ok()
    }
}

// The part that is kept of a quarter's tract for an estate.
fn part_of(quarters: &[Quartered], tract: &Tract, quarter: Quarter, estate: Estate) -> Option<Part>
    ensures part { (townships : List Township) (content : Content) → All (IsQuarter townships content) quarters.now →
        IfSome result (λ part. part ≡ estate_sheet depth townships content tract.now estate) }
{
    for one in quarters {
        if let Some(part) = one.part_for(tract, quarter, estate) {
            return Some(part);
        }
    }
    None
}

impl Home {
    // A home of which nothing is kept; takes no memory.
    #[tactic(auto, unfolding(crate::specs::Shown::all_kept))]
    fn new(alloc: Global) -> Home
        ensures new { all_kept result ≡ no_stock }
    {
        Home {
            shown: Vec::new(alloc),
            turn: 0,
            quarters: Vec::new(alloc),
            is_long: false,
        }
    }

    // Lets the sheets go of tracts that share a cell with this one, and parts of such tracts for these estates.
    fn let_go(&mut self, tract: &Tract, estates: Estates)
        ensures left { all_kept self.new ≡ left_of tract.now estates (all_kept self.old) }
    {
        self.shown.retain(|one| !one.tract.meets(tract));
        self.quarters
            .retain(|one| !(estates.has(one.estate) && one.tract.meets(tract)));
    }

    // Keeps a sheet, in the slot of another where there are as many as may be; where memory is refused it isn't kept.
    #[tactic(auto, unfolding(crate::specs::Shown::all_kept))]
    fn keep_sheet(&mut self, shown: Shown)
        ensures kept { (townships : List Township) (content : Content) (number : ℕ)
            → AllKept townships content number (all_kept self.old) → IsKept townships content number (OfSheet shown)
            → AllKept townships content number (all_kept self.new) }
        ensures quarters { self.new.quarters.items ≡ self.old.quarters.items }
    {
        if whole_section(&shown.tract).is_some() {
            self.is_long = shown.rows.len() >= LONG;
        }
        if self.shown.len() < MOST_SHOWN {
            let _ = self.shown.push(shown);
            return;
        }
        let slot = self.turn % MOST_SHOWN;
        self.turn = slot + 1;
        if let Some(old) = self.shown.get_mut(slot) {
            *old = shown;
        }
    }

    // Keeps a quarter's part, where there are fewer than may be; where memory is refused it isn't kept.
    #[tactic(auto, unfolding(crate::specs::Shown::all_kept))]
    fn keep_quarter(&mut self, quartered: Quartered)
        ensures kept { (townships : List Township) (content : Content) (number : ℕ)
            → AllKept townships content number (all_kept self.old) → IsKept townships content number (OfQuarter quartered)
            → AllKept townships content number (all_kept self.new) }
        ensures shown { self.new.shown.items ≡ self.old.shown.items }
    {
        if self.quarters.len() < MOST_PARTS {
            let _ = self.quarters.push(quartered);
        }
    }

    // Keeps one thing more, or not.
    fn keep(&mut self, kept: Kept)
        ensures kept { (townships : List Township) (content : Content) (number : ℕ)
            → AllKept townships content number (all_kept self.old) → IsKept townships content number kept
            → AllKept townships content number (all_kept self.new) }
    {
        match kept {
            Kept::Sheet(shown) => self.keep_sheet(shown),
            Kept::Quarter(quartered) => self.keep_quarter(quartered),
        }
    }
}

impl KeptSheets {
    /// No sheet; takes no memory.
    pub(crate) fn new(alloc: Global) -> KeptSheets
        ensures none { (townships : List Township) (content : Content) → AreKept townships content result }
    {
        KeptSheets {
            alloc,
            homes: BTreeMap::new(alloc),
        }
    }

    /// The rows that are kept of a tract.
    pub(crate) fn rows(&self, tract: &Tract) -> Option<SheetRows>
        ensures rows { (townships : List Township) (content : Content) → AreKept townships content self.now →
            IfSome result (λ rows. rows ≡ sheet_of depth townships content tract.now) }
    {
        let home = self.homes.get(&tract.home().number())?;
        rows_of(&home.shown, tract)
    }

    /// The part that is kept of a tract of a section's quarter for an estate.
    pub(crate) fn part(
        &self,
        section: Section,
        tract: &Tract,
        quarter: Quarter,
        estate: Estate,
    ) -> Option<Part>
        ensures part { (townships : List Township) (content : Content) → AreKept townships content self.now →
            IfSome result (λ part. part ≡ estate_sheet depth townships content tract.now estate) }
    {
        let home = self.homes.get(&section.node().number())?;
        part_of(&home.quarters, tract, quarter, estate)
    }

    /// Whether the last sheet of a section that was kept was long.
    pub(crate) fn is_long(&self, section: Section) -> bool {
        let home = self.homes.get(&section.node().number());
        home.is_some_and(|home| home.is_long)
    }

    /// Keeps one thing more under its tract's home; where memory is refused it isn't kept.
    pub(crate) fn keep(&mut self, kept: Kept)
        ensures kept { (townships : List Township) (content : Content) → AreKept townships content self.old →
            IsTrue townships content kept → AreKept townships content self.new }
    {
        let number = kept.number();
        if let Some(home) = self.homes.get_mut(&number) {
            home.keep(kept);
            return;
        }
        let mut home = Home::new(self.alloc);
        home.keep(kept);
        let _ = self.homes.insert(number, home);
    }

    /// Lets all go.
    pub(crate) fn clear(&mut self)
        ensures none { (townships : List Township) (content : Content) → AreKept townships content self.new }
    {
        self.homes.clear();
    }

    /// Lets all of a home go.
    pub(crate) fn drop_home(&mut self, home: Node)
        ensures gone { IsSetUnder (node_number home) no_stock self.old self.new }
    {
        self.homes.remove(&home.number());
    }

    // Lets all of a home go that a post of this tract and of these estates may change.
    fn let_go_at(&mut self, home: Node, tract: &Tract, estates: Estates)
        ensures left { IsSetUnder (node_number home) (left_of tract.now estates (kept_under self.old (node_number home)))
            self.old self.new }
    {
        if let Some(kept) = self.homes.get_mut(&home.number()) {
            kept.let_go(tract, estates);
        }
    }

    // Lets all go that a post in a section may change: sheets of the section's tracts that share a cell with its own, parts of such
    // tracts for its estates, and all of the homes above.
    fn let_go_in_section(&mut self, section: Section, tract: &Tract, estates: Estates)
        requires home { home_of tract.now ≡ Square section [] }
        ensures left { AreLeft tract.now estates self.old self.new }
        ensures others { OthersStay tract.now self.old self.new }
        ensures apart { ApartStay tract.now estates self.old self.new }
    {
        self.let_go_at(section.node(), tract, estates);
        self.drop_home(Node::Township(section.township));
        self.drop_home(Node::Everything);
    }

    // Lets the sheets go that a post of a township may change: those of its sections, its own and those of the whole plant.
    fn let_go_in_township(&mut self, township: Township)
        ensures left { (estates : Named) → AreLeft (WholeTownship township) estates self.old self.new }
        ensures others { OthersStay (WholeTownship township) self.old self.new }
    {
        for number in 1..=LAST_SECTION {
            self.drop_home(Section { township, number }.node());
        }
        self.drop_home(Node::Township(township));
        self.drop_home(Node::Everything);
    }

    /// Lets all go that a post of these estates in this tract may change.
    pub(crate) fn let_go(&mut self, tract: &Tract, estates: Estates)
        ensures left { AreLeft tract.now estates self.old self.new }
        ensures others { OthersStay tract.now self.old self.new }
        ensures apart { ApartStay tract.now estates self.old self.new }
    {
        match tract.home() {
            Node::Everything => self.clear(),
            Node::Township(township) => self.let_go_in_township(township),
            Node::Part(section, _) => self.let_go_in_section(section, tract, estates),
        }
    }
}
