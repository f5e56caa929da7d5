//! What every store of a plant promises.

ghost use Rattle.std.specs.Prelude.{◌≡◌, ℕ, IfOk, OnOk, OnErr, List, [], Bool, true, cond, is_some};
ghost use Rattle.title_land.specs.{Depth.{depth}, declared.survey.{Cell.{Cell}, Township.{Township}}, CellLists.{node_cells}};
ghost use Rattle.title_land.specs.Lands.{is_in_plant, land_of};
ghost use Rattle.title_land.specs.declared.node.Node.TheVariants as node;
ghost use Rattle.title_instrument.specs.Owners.{opening_owners};
ghost use Rattle.title_store.specs.Plants.{Plant, SameContent, IsEachOnce, is_cell_of, plant_effect, refused_in};
ghost use Rattle.title_store.specs.Loans.{Loan, IsOut, IsLentAs, IsLast, IsFirst, IsTaken, PutBy, without};
ghost use Rattle.title_store.specs.Sheets.{estate_sheet, one_holding, sheet_of};

use crate::sheet_row::SheetRow;
use std::alloc::{AllocError, Global};
use title_instrument::{Estate, Instrument, Rule};
use title_land::{Node, Section, Township, Tract};

/// What came of a put: the before-image of the tract's cells, or the rule and the estate by which the first failing
/// cell refused the instrument, and the node of the tract's cover in which that cell lies.
#[derive(Debug, Drop)]
pub enum Put<I> {
    Done(I),
    Refused(Rule, Estate, Node),
}

/// A plant with the before-images of posts that may still be undone. A contract sees the owners of each cell, the
/// declared townships and the list of images that are out; an image is a token that carries its number alone.
pub trait Store {
    /// A before-image: it goes back by `restore` or is let go by `forget`, once.
    type Image: Drop;

    /// The owners of each cell.
    ghost content: { Self → Plant };

    /// The declared townships, in their order.
    ghost declared: { Self → List Township };

    /// The images that are out, in the order of their puts.
    ghost out: { Self → List Loan };

    /// The number of an image.
    ghost number: { Self.Image → ℕ };

    /// Whether no four quarters are left that could be one for having one holding; where a store keeps no quarters, always.
    ghost is_joined: { Self → Bool };

    /// The opening plant of these townships: party 0 owns all of each estate in every cell.
    fn open(alloc: Global, townships: &[Township]) -> Result<Self, AllocError>
        requires once { IsEachOnce townships.now }
        ensures content { IfOk result (λ s. SameContent (λ c. opening_owners) (content s)) }
        ensures declared { IfOk result (λ s. declared s ≡ townships.now) }
        ensures out { IfOk result (λ s. out s ≡ []) }
        ensures joined { IfOk result (λ s. is_joined s ≡ true) };

    /// Whether a tract lies in the plant: all its townships are declared, and every cell needs one at least.
    fn holds(&self, tract: &Tract) -> bool
        ensures holds { result ≡ is_in_plant (declared self.now) tract.now };

    /// Posts an instrument in all cells of a tract, or in none. `Err` changes nothing.
    fn put(
        &mut self,
        tract: &Tract,
        instrument: &Instrument,
    ) -> Result<Put<Self::Image>, AllocError>
        requires within { is_in_plant (declared self.old) tract.now ≡ true }
        ensures put { IfOk result (λ put. PutBy put (refused_in depth (declared self.old) instrument.now (content self.old) tract.now)
            (λ image. IsTaken (number image) (declared self.old) tract.now (content self.old) (out self.old) (out self.new))
            (out self.new ≡ out self.old)) }
        ensures content { OnOk result (SameContent
            (plant_effect depth (declared self.old) instrument.now (content self.old) tract.now) (content self.new)) }
        ensures declared { declared self.new ≡ declared self.old }
        ensures err_content { OnErr result (SameContent (content self.old) (content self.new)) }
        ensures err_out { OnErr result (out self.new ≡ out self.old) };

    /// Posts an instrument where no image is out: as `put`, `forget` and `tidy` one after another, so that it can't be undone.
    /// `Err` changes no cell.
    fn put_alone(&mut self, tract: &Tract, instrument: &Instrument) -> Result<Put<()>, AllocError>
        requires within { is_in_plant (declared self.old) tract.now ≡ true }
        requires none { out self.old ≡ [] }
        ensures put { IfOk result (λ put. PutBy put (refused_in depth (declared self.old) instrument.now (content self.old) tract.now)
            (λ done. is_joined self.new ≡ true) (SameContent (content self.old) (content self.new))) }
        ensures content { OnOk result (SameContent
            (plant_effect depth (declared self.old) instrument.now (content self.old) tract.now) (content self.new)) }
        ensures declared { declared self.new ≡ declared self.old }
        ensures out { out self.new ≡ [] }
        ensures err_content { OnErr result (SameContent (content self.old) (content self.new)) }
    {
        match self.put(tract, instrument)? {
            Put::Done(image) => {
                self.forget(image);
                self.tidy();
                Ok(Put::Done(()))
            }
            Put::Refused(rule, estate, node) => Ok(Put::Refused(rule, estate, node)),
        }
    }

    /// Puts back what an image's cells held before its put. Takes no memory.
    fn restore(&mut self, image: Self::Image)
        requires out { IsOut (number image) (out self.old) }
        requires last { IsLast (number image) (out self.old) }
        ensures content { (b : Loan) → IsLentAs b (number image) (out self.old) → SameContent
            (λ c. cond (is_cell_of depth (declared self.old) b.land c) (b.held c) (content self.old c)) (content self.new) }
        ensures declared { declared self.new ≡ declared self.old }
        ensures out { out self.new ≡ without (number image) (out self.old) };

    /// Lets an image go: its put will not be undone. Takes no memory.
    fn forget(&mut self, image: Self::Image)
        requires out { IsOut (number image) (out self.old) }
        requires first { IsFirst (number image) (out self.old) }
        ensures content { SameContent (content self.old) (content self.new) }
        ensures declared { declared self.new ≡ declared self.old }
        ensures out { out self.new ≡ without (number image) (out self.old) };

    /// The sheet of a tract: for each estate, for each node of the cover, the owners of its cells.
    fn sheet(&self, alloc: Global, tract: &Tract) -> Result<Vec<SheetRow>, AllocError>
        requires within { is_in_plant (declared self.now) tract.now ≡ true }
        ensures sheet { IfOk result (λ rows. rows.items ≡ sheet_of depth (declared self.now) (content self.now) tract.now) };

    /// The part of a tract's sheet for one estate.
    fn part(
        &self,
        alloc: Global,
        estate: Estate,
        tract: &Tract,
    ) -> Result<Vec<SheetRow>, AllocError>
        requires within { is_in_plant (declared self.now) tract.now ≡ true }
        ensures part { IfOk result (λ rows. rows.items
            ≡ estate_sheet depth (declared self.now) (content self.now) tract.now estate) };

    /// Whether all cells of a section have one holding of an estate.
    fn is_one(&self, alloc: Global, estate: Estate, section: Section) -> Result<bool, AllocError>
        requires within { is_in_plant (declared self.now) (land_of depth (node.Part section [])) ≡ true }
        ensures one { IfOk result (λ one. one
            ≡ is_some (one_holding estate (content self.now) (node_cells depth (declared self.now) (node.Part section [])))) };

    /// Tidies up while no image is out: quarters of one holding are joined. Takes no memory and changes no cell.
    fn tidy(&mut self)
        requires none { out self.old ≡ [] }
        ensures content { SameContent (content self.old) (content self.new) }
        ensures declared { declared self.new ≡ declared self.old }
        ensures out { out self.new ≡ [] }
        ensures joined { is_joined self.new ≡ true };
}
