//! The plant as trees of quarters: for each estate, of each township one or one for each section.

ghost use Rattle.std.specs.Prelude.{◌≡◌, ◌≢◌, true, None, Some, length};
ghost use Rattle.title_land.specs.{Depth.{depth}, Lands.{is_in_plant}};
ghost use Rattle.title_store.specs.Plants.{IsEachOnce, refused_in};
ghost use Rattle.title_tree_store.specs.{Forests.{plots, are_joined, AreHomes}, Keeping.{content_of, loans_of, IsKept, AreJoined}};
ghost use Rattle.title_tree_store.specs.{Out.{images}, Propositions.{once_prop, kept_prop, joined_prop, home_prop}};

use crate::forest::Forest;
use crate::lent::Images;
use crate::refusals::Search;
use crate::sheets::add_estate;
use crate::spots::{home_of, ways};
use crate::townships::Townships;
use crate::walks::section_tree;
use std::alloc::{AllocError, Global};
use title_instrument::{Estate, Instrument, Rule};
use title_land::{Node, Section, Township, Tract};
use title_store::{Put, SheetRow, Store};
use title_tree::Fault;

/// A before-image of a `TreeStore`: its number. The store keeps what it holds.
#[derive(Debug, Drop)]
pub struct Image {
    number: u64,
}

/// A plant as a list of townships for each estate, each of one tree or of one for each section; a cell has the holding of the leaf
/// above it. What is out is kept in the order of its numbers.
pub struct TreeStore {
    alloc: Global,
    townships: Townships,
    forest: Forest,
    lent: Images,
    ghost once: { IsEachOnce townships } by { Prim.hlevel once_prop },
    ghost kept: { IsKept townships forest (images lent) lent.next } by { kept_prop _ _ _ _ },
    ghost joined: { AreJoined townships forest (images lent) } by { joined_prop _ _ _ },
    ghost noted: { AreHomes (length townships) forest.written.items } by { Prim.hlevel home_prop },
}

// By hand, so that whoever lets one go sees one call.
impl Drop for TreeStore {
    fn drop(self) {
        let TreeStore {
            alloc: _,
            townships,
            forest,
            lent,
        } = self;
        drop(townships);
        drop(forest);
        drop(lent);
    }
}

impl TreeStore {
    /// Whether its trees have the fewest nodes that can hold the plant: for tests.
    pub fn is_tidy(&self) -> bool {
        self.forest.is_tidy()
    }

    // The rule and the estate by which the first cell of a tract that refuses an instrument does, and the node in which it lies.
    fn refusal(&self, tract: &Tract, instrument: &Instrument) -> (Rule, Estate, Node)
        requires within { is_in_plant self.now.townships tract.now ≡ true }
        requires fails { refused_in depth self.now.townships instrument.now (content_of self.now.townships (plots self.now.forest))
            tract.now ≢ None }
        ensures refused { refused_in depth self.now.townships instrument.now (content_of self.now.townships (plots self.now.forest))
            tract.now ≡ Some (record { rule = result.0; estate = result.1; node = result.2 }) }
    {
        let search = Search {
            townships: &self.townships,
            forest: &self.forest,
            tract,
            instrument,
        };
        let Some((rule, estate, cell)) = search.first() else {
            unreachable!()
        };
        let node = tract.node_of(cell).unwrap_or(Node::Everything);
        (rule, estate, node)
    }
}

impl Store for TreeStore {
    type Image = Image;

    ghost content = { λ s. content_of s.townships (plots s.forest) };

    ghost declared = { λ s. s.townships };

    ghost out = { λ s. loans_of s.townships (plots s.forest) (images s.lent) };

    ghost number = { λ i. i.number };

    ghost is_joined = { λ s. are_joined s.forest };

    fn open(alloc: Global, townships: &[Township]) -> Result<TreeStore, AllocError> {
        let forest = Forest::open(alloc, townships.len())?;
        let townships = Townships::new(alloc, townships)?;
        Ok(TreeStore {
            alloc,
            townships,
            forest,
            lent: Images::new(alloc),
        })
    }

    fn holds(&self, tract: &Tract) -> bool {
        match tract.home() {
            Node::Everything => !self.townships.list().is_empty(),
            Node::Township(township) => self.townships.holds(township),
            Node::Part(section, _) => self.townships.holds(section.township),
        }
    }

    fn put(&mut self, tract: &Tract, instrument: &Instrument) -> Result<Put<Image>, AllocError> {
        let home = home_of(&self.townships, tract);
        let paths = ways(self.alloc, tract)?;
        let land = tract.copy(self.alloc)?;
        self.lent.reserve()?;
        match self.forest.changed(self.alloc, home, paths, instrument) {
            Ok(mut trees) => {
                self.forest.exchange(home, &mut trees);
                let number = self.lent.add(land, trees);
                Ok(Put::Done(Image { number }))
            }
            Err(Fault::Memory) => Err(AllocError),
            Err(Fault::Refused(_)) => {
                let (rule, estate, node) = self.refusal(tract, instrument);
                Ok(Put::Refused(rule, estate, node))
            }
        }
    }

    fn put_alone(&mut self, tract: &Tract, instrument: &Instrument) -> Result<Put<()>, AllocError> {
        self.tidy();
        let home = home_of(&self.townships, tract);
        let paths = ways(self.alloc, tract)?;
        match self.forest.put_alone(self.alloc, home, paths, instrument) {
            Ok(()) => Ok(Put::Done(())),
            Err(Fault::Memory) => Err(AllocError),
            Err(Fault::Refused(_)) => {
                let (rule, estate, node) = self.refusal(tract, instrument);
                Ok(Put::Refused(rule, estate, node))
            }
        }
    }

    fn restore(&mut self, image: Image) {
        let mut lent = self.lent.take(image.number).unwrap();
        let home = home_of(&self.townships, &lent.land);
        self.forest.exchange(home, &mut lent.trees);
    }

    fn forget(&mut self, image: Image) {
        self.lent.take(image.number);
    }

    fn sheet(&self, alloc: Global, tract: &Tract) -> Result<Vec<SheetRow>, AllocError> {
        let mut rows = Vec::new(alloc);
        for estate in [Estate::S, Estate::O, Estate::M] {
            let tree = self.forest.of(estate);
            let townships = &self.townships;
            add_estate(tree, townships, estate, tract, &mut rows)?;
        }
        Ok(rows)
    }

    fn part(
        &self,
        alloc: Global,
        estate: Estate,
        tract: &Tract,
    ) -> Result<Vec<SheetRow>, AllocError> {
        let mut rows = Vec::new(alloc);
        let tree = self.forest.of(estate);
        let townships = &self.townships;
        add_estate(tree, townships, estate, tract, &mut rows)?;
        Ok(rows)
    }

    fn is_one(&self, _alloc: Global, estate: Estate, section: Section) -> Result<bool, AllocError> {
        let tree = self.forest.of(estate);
        let stands = section_tree(tree, &self.townships, section);
        Ok(stands.uniform().is_some())
    }

    fn tidy(&mut self) {
        self.forest.tidy();
    }
}
