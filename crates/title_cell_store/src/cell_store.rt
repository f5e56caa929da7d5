//! The plant as an ordered map by cell.

ghost use Rattle.std.{proofs.{Math.Bool.{Bool-set}, Props.{props}}, specs.{Ordering.{nat_cmp}, BTreeMap.{IsOrdered}, Prelude.{◌≡◌, true}}};
ghost use Rattle.title_land.specs.Depth.{depth};
ghost use Rattle.title_store.specs.{Plants.{node_of}, Loans.{AllBelow}};
ghost use Rattle.title_cell_store.specs.CellMaps.{content_of, loans_of, AreBacked};

use crate::cell_map::CellMap;
use crate::kept::Lent;
use crate::posts::{Computed, compute};
use crate::sheets::{add_estate, is_one};
use std::alloc::{AllocError, Global};
use std::collections::BTreeMap;
use title_instrument::{Estate, Instrument};
use title_land::{Cell, Node, Section, Township, Tract, Within, cells_of};
use title_store::{Put, SheetRow, Store};

/// A before-image of a `CellStore`: its number. The store keeps what it holds.
#[derive(Debug, Drop)]
pub struct Image {
    number: u64,
}

/// A plant as an ordered map by cell; a cell that it doesn't hold has its opening owners. What is out is kept under its number.
pub struct CellStore {
    alloc: Global,
    townships: Vec<Township>,
    map: CellMap,
    lent: BTreeMap<u64, Lent>,
    next: u64,
    ghost ordered: { IsOrdered nat_cmp lent } by { Prim.hlevel props },
    ghost numbered: { AllBelow next (loans_of lent.entries) },
    ghost backed: { AreBacked townships.items map lent } by { Prim.hlevel Bool-set },
}

// By hand, so that whoever lets one go sees one call.
impl Drop for CellStore {
    fn drop(self) {
        let CellStore {
            alloc: _,
            townships,
            map,
            lent,
            next: _,
        } = self;
        drop(townships);
        drop(map);
        drop(lent);
    }
}

// The node of a tract's cover in which a cell lies; the whole plant where it lies in none.
fn node_of(tract: &Tract, cell: Cell) -> Node
    ensures node { result ≡ node_of depth tract.now cell }
{
    tract.node_of(cell).unwrap_or(Node::Everything)
}

impl Store for CellStore {
    type Image = Image;

    ghost content = { λ s. content_of s.map };

    ghost declared = { λ s. s.townships.items };

    ghost out = { λ s. loans_of s.lent.entries };

    ghost number = { λ i. i.number };

    ghost is_joined = { λ _. true };

    fn open(alloc: Global, townships: &[Township]) -> Result<CellStore, AllocError> {
        let map = CellMap::new(alloc)?;
        let townships = Vec::from_slice(alloc, townships)?;
        Ok(CellStore {
            alloc,
            townships,
            map,
            lent: BTreeMap::new(alloc),
            next: 0,
        })
    }

    fn holds(&self, tract: &Tract) -> bool {
        tract.is_in(&self.townships)
    }

    fn put(&mut self, tract: &Tract, instrument: &Instrument) -> Result<Put<Image>, AllocError> {
        let number = self.next;
        let Some(next) = number.checked_add(1) else {
            return Err(AllocError);
        };
        let cells = cells_of(self.alloc, &self.townships, tract)?;
        match compute(self.alloc, &self.map, &cells, instrument)? {
            Computed::Refused(rule, estate, cell) => {
                Ok(Put::Refused(rule, estate, node_of(tract, cell)))
            }
            Computed::Done(old, new) => {
                self.map.make_slots(self.alloc, &cells)?;
                let land = tract.land();
                self.lent.insert(number, Lent { land, old })?;
                self.map.write_all(new);
                self.next = next;
                Ok(Put::Done(Image { number }))
            }
        }
    }

    fn restore(&mut self, image: Image) {
        let lent = self.lent.remove(&image.number).unwrap();
        self.map.write_all(lent.old);
    }

    fn forget(&mut self, image: Image) {
        self.lent.remove(&image.number);
    }

    fn sheet(&self, alloc: Global, tract: &Tract) -> Result<Vec<SheetRow>, AllocError> {
        let mut rows = Vec::new(alloc);
        for estate in [Estate::S, Estate::O, Estate::M] {
            add_estate(alloc, &self.map, &self.townships, estate, tract, &mut rows)?;
        }
        Ok(rows)
    }

    fn part(
        &self,
        alloc: Global,
        estate: Estate,
        tract: &Tract,
    ) -> Result<Vec<SheetRow>, AllocError> {
        let mut rows = Vec::new(alloc);
        add_estate(alloc, &self.map, &self.townships, estate, tract, &mut rows)?;
        Ok(rows)
    }

    fn is_one(&self, alloc: Global, estate: Estate, section: Section) -> Result<bool, AllocError> {
        let node = Node::Part(section, Within::section());
        is_one(alloc, &self.map, &self.townships, estate, node)
    }

    fn tidy(&mut self) {}
}
