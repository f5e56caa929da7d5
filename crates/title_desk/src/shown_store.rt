//! The store of a desk, with sheets that were made of it.

ghost use Rattle.std.specs.Prelude.{◌≡◌, ◌++◌, ◌∷◌, [], true, IfOk, IfSome, OnOk};
ghost use Rattle.title_land.specs.{Depth.{depth}, Lands.{is_in_plant, land_of}, declared.node.Node.TheVariants.{Part as Square}};
ghost use Rattle.title_land.specs.declared.rectangle.Quarter.TheVariants.{Northeast, Northwest, Southwest, Southeast};
ghost use Rattle.title_store.specs.Sheets.{estate_sheet, sheet_of};
ghost use Rattle.title_chain.specs.SheetParts.{all_rows};
ghost use Rattle.title_desk.specs.Shown.{quarter_rows};

use crate::kept_sheets::{Kept, KeptSheets, MOST_PARTS, whole_section};
use std::alloc::{AllocError, Global};
use std::marker::Model;
use title_chain::{Part, SheetRows};
use title_instrument::{Estate, Instrument};
use title_land::{Node, Quarter, Section, Township, Tract, Within};
use title_store::{Put, SheetRow, Store};

// The tract of a section's quarter.
#[tactic(auto, using(title_land::specs::Laws::Sides::depth_is))]
fn quarter_tract(section: Section, quarter: Quarter) -> Tract
    ensures tract { result ≡ land_of depth (Square section (quarter ∷ [])) }
{
    Tract::of(Node::Part(section, Within::section().quarter(quarter)))
}

// Adds a part.
#[tactic(auto, using(title_chain::specs::Laws::PartsInTurn::rows_after))]
fn add_part(parts: &mut Vec<Part>, part: Part) -> Result<(), AllocError>
    ensures rows { OnOk result (all_rows parts.new.items ≡ all_rows parts.old.items ++ part) }
{
    parts.push(part)?;
    Ok(())
}

/// A store, with sheets and parts of sheets that were made of it and that still are its own. A contract sees the store.
#[derive(Drop)]
pub struct ShownStore<S: Store + Drop> {
    store: S,
    kept: KeptSheets,
}

impl<S: Store + Drop> Model for ShownStore<S> {
    ghost use Rattle.title_desk.specs.Shown.{AreKept};

    ghost Value = { S };

    ghost view = { λ p. p.store };

    ghost invariant = { λ p. AreKept (S.declared p.store) (S.content p.store) p.kept };
}

impl<S: Store + Drop> ShownStore<S> {
    /// The store.
    pub(crate) fn store(&self) -> &S
        ensures store { result.now ≡ self.now }
    {
        &self.store
    }

    // Adds the part of a section's quarter for an estate: that which is kept of it, or else made anew and kept.
    fn add_quarter(
        &mut self,
        alloc: Global,
        section: Section,
        quarter: Quarter,
        estate: Estate,
        parts: &mut Vec<Part>,
    ) -> Result<(), AllocError>
        requires within { is_in_plant (S.declared self.old) (land_of depth (Square section [])) ≡ true }
        ensures same { self.new ≡ self.old }
        ensures rows { OnOk result (all_rows parts.new.items ≡ all_rows parts.old.items
            ++ quarter_rows (S.declared self.old) (S.content self.old) section quarter estate) }
    {
        let tract = quarter_tract(section, quarter);
        if let Some(part) = self.kept.part(section, &tract, quarter, estate) {
            return add_part(parts, part);
        }
        let part = Part::new(self.store.part(alloc, estate, &tract)?)?;
        if let Some(kept) = Kept::quarter(tract, quarter, estate, &part) {
            self.kept.keep(kept);
        }
        add_part(parts, part)
    }

    // Adds the parts of a section's four quarters for an estate.
    fn add_quarters(
        &mut self,
        alloc: Global,
        section: Section,
        estate: Estate,
        parts: &mut Vec<Part>,
    ) -> Result<(), AllocError>
        requires within { is_in_plant (S.declared self.old) (land_of depth (Square section [])) ≡ true }
        ensures same { self.new ≡ self.old }
        ensures rows { OnOk result (all_rows parts.new.items ≡ all_rows parts.old.items
            ++ quarter_rows (S.declared self.old) (S.content self.old) section Northeast estate
            ++ quarter_rows (S.declared self.old) (S.content self.old) section Northwest estate
            ++ quarter_rows (S.declared self.old) (S.content self.old) section Southwest estate
            ++ quarter_rows (S.declared self.old) (S.content self.old) section Southeast estate) }
    {
        self.add_quarter(alloc, section, Quarter::Northeast, estate, parts)?;
        self.add_quarter(alloc, section, Quarter::Northwest, estate, parts)?;
        self.add_quarter(alloc, section, Quarter::Southwest, estate, parts)?;
        self.add_quarter(alloc, section, Quarter::Southeast, estate, parts)
    }

    // Adds a section's parts for an estate: one where all its cells have one holding, else its quarters'.
    fn add_estate(
        &mut self,
        alloc: Global,
        section: Section,
        estate: Estate,
        parts: &mut Vec<Part>,
    ) -> Result<(), AllocError>
        requires within { is_in_plant (S.declared self.old) (land_of depth (Square section [])) ≡ true }
        ensures same { self.new ≡ self.old }
        ensures rows { OnOk result (all_rows parts.new.items ≡ all_rows parts.old.items
            ++ estate_sheet depth (S.declared self.old) (S.content self.old) (land_of depth (Square section [])) estate) }
    {
        let is_one = self.store.is_one(alloc, estate, section)?;
        if is_one {
            let tract = Tract::of(section.node());
            let part = Part::new(self.store.part(alloc, estate, &tract)?)?;
            return add_part(parts, part);
        }
        self.add_quarters(alloc, section, estate, parts)
    }

    // The sheet of a section, put together of parts.
    #[tactic(auto, using(crate::proofs::OfSections::whole_sheet))]
    fn section_rows(&mut self, alloc: Global, section: Section) -> Result<SheetRows, AllocError>
        requires within { is_in_plant (S.declared self.old) (land_of depth (Square section [])) ≡ true }
        ensures same { self.new ≡ self.old }
        ensures rows { IfOk result (λ rows. rows
            ≡ sheet_of depth (S.declared self.old) (S.content self.old) (land_of depth (Square section []))) }
    {
        let mut parts = Vec::with_capacity(alloc, MOST_PARTS)?;
        self.add_estate(alloc, section, Estate::S, &mut parts)?;
        self.add_estate(alloc, section, Estate::O, &mut parts)?;
        self.add_estate(alloc, section, Estate::M, &mut parts)?;
        let rows = SheetRows::of_parts(parts)?;
        Ok(rows)
    }

    // The section whose quarters' parts make a tract's sheet: the tract is all of it, and its last sheet was long.
    fn long_section(&self, tract: &Tract) -> Option<Section>
        ensures section { IfSome result (λ section. tract.now ≡ land_of depth (Square section [])) }
    {
        let section = whole_section(tract)?;
        self.kept.is_long(section).then_some(section)
    }

    // The rows of a tract's sheet, made anew but for what is kept of its quarters, if it is a section whose last sheet was long.
    fn made(&mut self, alloc: Global, tract: &Tract) -> Result<SheetRows, AllocError>
        requires within { is_in_plant (S.declared self.old) tract.now ≡ true }
        ensures same { self.new ≡ self.old }
        ensures rows { IfOk result (λ rows. rows ≡ sheet_of depth (S.declared self.old) (S.content self.old) tract.now) }
    {
        match self.long_section(tract) {
            Some(section) => self.section_rows(alloc, section),
            None => SheetRows::new(self.store.sheet(alloc, tract)?),
        }
    }

    /// The rows of a tract's sheet: those that are kept of it, or else made anew and kept; where memory is refused they aren't kept.
    pub(crate) fn rows(&mut self, alloc: Global, tract: &Tract) -> Result<SheetRows, AllocError>
        requires within { is_in_plant (S.declared self.old) tract.now ≡ true }
        ensures same { self.new ≡ self.old }
        ensures rows { IfOk result (λ rows. rows ≡ sheet_of depth (S.declared self.old) (S.content self.old) tract.now) }
    {
        if let Some(rows) = self.kept.rows(tract) {
            return Ok(rows);
        }
        let rows = self.made(alloc, tract)?;
        if let Some(kept) = Kept::sheet(alloc, tract, &rows) {
            self.kept.keep(kept);
        }
        Ok(rows)
    }

    /// Lets all go that is kept of a home's tracts. Takes no memory.
    pub(crate) fn let_go(&mut self, home: Node)
        ensures same { self.new ≡ self.old }
    {
        self.kept.drop_home(home);
    }
}

impl<S: Store + Drop> Store for ShownStore<S> {
    type Image = S::Image;

    ghost content = { λ p. S.content p };

    ghost declared = { λ p. S.declared p };

    ghost out = { λ p. S.out p };

    ghost number = { λ i. S.number i };

    ghost is_joined = { λ p. S.is_joined p };

    fn open(alloc: Global, townships: &[Township]) -> Result<ShownStore<S>, AllocError> {
        Ok(ShownStore {
            store: S::open(alloc, townships)?,
            kept: KeptSheets::new(alloc),
        })
    }

    fn holds(&self, tract: &Tract) -> bool {
        self.store.holds(tract)
    }

    fn put(&mut self, tract: &Tract, instrument: &Instrument) -> Result<Put<S::Image>, AllocError> {
        let put = self.store.put(tract, instrument)?;
        if let Put::Done(_) = put {
            self.kept.let_go(tract, instrument.estates());
        }
        Ok(put)
    }

    fn put_alone(&mut self, tract: &Tract, instrument: &Instrument) -> Result<Put<()>, AllocError> {
        let put = self.store.put_alone(tract, instrument)?;
        if let Put::Done(_) = put {
            self.kept.let_go(tract, instrument.estates());
        }
        Ok(put)
    }

    fn restore(&mut self, image: S::Image) {
        self.kept.clear();
        self.store.restore(image);
    }

    fn forget(&mut self, image: S::Image) {
        self.store.forget(image);
    }

    fn sheet(&self, alloc: Global, tract: &Tract) -> Result<Vec<SheetRow>, AllocError> {
        self.store.sheet(alloc, tract)
    }

    fn part(
        &self,
        alloc: Global,
        estate: Estate,
        tract: &Tract,
    ) -> Result<Vec<SheetRow>, AllocError> {
        self.store.part(alloc, estate, tract)
    }

    fn is_one(&self, alloc: Global, estate: Estate, section: Section) -> Result<bool, AllocError> {
        self.store.is_one(alloc, estate, section)
    }

    fn tidy(&mut self) {
        self.store.tidy();
    }
}
