//! The first cell of a tract that refuses an instrument.

ghost use Rattle.std.specs.{Prelude.{◌≡◌, ◌+◌, ◌∷◌, [], ◌||◌, ◌==◌, Some, length, true}, List.{flat_map, list_any}};
ghost use Rattle.title_land.specs.{Depth.{depth}, CellLists.{cells_below, township_cells, cells_of, part_cells}};
ghost use Rattle.title_land.specs.{Lands.{cover_of, is_in_plant}, Survey.{same_township}};
ghost use Rattle.title_tree.specs.{Plots.{value_at, plot_at}, Trees.{plot}};
ghost use Rattle.title_tree_store.specs.{Forests.{Each}, Refusing.{first_for, first_cell_of}};
ghost use Rattle.title_tree_store.specs.Refusing.{why_holding, why_first, is_settled, are_settled, stand, StandsAt, AreSized};

use crate::forest::{Forest, names};
use crate::townships::Townships;
use crate::walks::section_tree;
use title_instrument::{Estate, Instrument, Rule};
use title_land::{Cell, DEPTH, Land, Node, Quarter, Section, Township, Tract, Within};
use title_tree::Tree;

// Whether an instrument treats all cells of a tree alike: they have one holding, or it doesn't name the estate.
fn is_settled(tree: &Tree, instrument: &Instrument, estate: Estate) -> bool
    ensures settled { result ≡ is_settled instrument.now estate (plot tree.now) }
{
    match tree {
        Tree::Leaf(_) => true,
        Tree::Quarters(_) => !names(instrument, estate),
    }
}

// Why an instrument is refused by the holding of an estate in a tree's first cell.
fn why_holding(tree: &Tree, instrument: &Instrument, estate: Estate) -> Option<Rule>
    ensures why { result ≡ why_holding instrument.now estate (value_at (plot tree.now) []) }
{
    let units = tree.first_holding().units(instrument.grantor());
    instrument.passes(estate, units).err()
}

// What stands in one square, of each estate's tree.
#[derive(Clone, Copy)]
struct Trees<'a> {
    s: &'a Tree,
    o: &'a Tree,
    m: &'a Tree,
}

impl<'a> Trees<'a> {
    // What stands in a quarter of the square.
    fn quarter(&self, which: Quarter) -> Trees<'a>
        ensures quarters { Each (λ e. stand result e ≡ plot_at (which ∷ []) (stand self.now e)) }
    {
        Trees {
            s: self.s.quarter(which),
            o: self.o.quarter(which),
            m: self.m.quarter(which),
        }
    }

    // Whether an instrument treats all cells of the square alike, which has so many levels below it.
    fn are_alike(&self, instrument: &Instrument, below: u8) -> bool
        ensures alike { result ≡ (below == 0 || are_settled instrument.now self.now) }
    {
        below == 0
            || (is_settled(self.s, instrument, Estate::S)
                && is_settled(self.o, instrument, Estate::O)
                && is_settled(self.m, instrument, Estate::M))
    }

    // Why the square's first cell refuses an instrument: the rule and the first estate.
    fn why(&self, instrument: &Instrument) -> Option<(Rule, Estate)>
        ensures why { result ≡ why_first instrument.now self.now }
    {
        if let Some(rule) = why_holding(self.s, instrument, Estate::S) {
            return Some((rule, Estate::S));
        }
        if let Some(rule) = why_holding(self.o, instrument, Estate::O) {
            return Some((rule, Estate::O));
        }
        if let Some(rule) = why_holding(self.m, instrument, Estate::M) {
            return Some((rule, Estate::M));
        }
        None
    }
}

// The first cell of a square with so many levels below it.
fn first_cell(section: Section, below: u8, within: Within) -> Cell
    requires below { below + length within ≡ depth }
    ensures first { Some result ≡ first_cell_of (cells_below depth section below within) }
{
    if below == 0 {
        let corner = within.square();
        return Cell {
            section,
            row: corner.top,
            column: corner.left,
        };
    }
    first_cell(section, below - 1, within.quarter(Quarter::Northeast))
}

/// A search for the first cell of a tract that refuses an instrument, in the order of the tract's cells, which is that of its
/// cover. No cell after it is looked at, and a square whose cells it treats alike is judged once. Takes no memory.
#[derive(Clone, Copy)]
pub(crate) struct Search<'a> {
    pub townships: &'a Townships,
    pub forest: &'a Forest,
    pub tract: &'a Tract,
    pub instrument: &'a Instrument,
}

impl<'a> Search<'a> {
    // What stands in a section.
    fn section_trees(&self, section: Section) -> Trees<'a>
        requires sized { AreSized self.now }
        requires of { list_any (same_township section.township) self.now.townships.now ≡ true }
        ensures stands { StandsAt self.now section [] result }
    {
        Trees {
            s: section_tree(&self.forest.s, self.townships, section),
            o: section_tree(&self.forest.o, self.townships, section),
            m: section_tree(&self.forest.m, self.townships, section),
        }
    }

    // What stands in a square, from what stands in its section, and how many levels the square has below it.
    #[tactic(auto, using(title_land::specs::Laws::Sides::depth_is))]
    fn square_trees(&self, trees: &Trees<'a>, section: Section, within: Within) -> (Trees<'a>, u8)
        requires here { StandsAt self.now section [] trees.now }
        ensures stands { StandsAt self.now section within result.0 }
        ensures below { result.1 + length within ≡ depth }
    {
        let Some(parts) = within.split() else {
            return (*trees, DEPTH);
        };
        let (around, below) = self.square_trees(trees, section, parts.1);
        (around.quarter(parts.0), below - 1)
    }

    // The first cell that refuses of a square with so many levels below it: where its cells are treated alike, its first one.
    fn first_in_square(
        &self,
        trees: &Trees<'a>,
        section: Section,
        below: u8,
        within: Within,
    ) -> Option<(Rule, Estate, Cell)>
        requires below { below + length within ≡ depth }
        requires here { StandsAt self.now section within trees.now }
        ensures first { result ≡ first_for self.now (cells_below depth section below within) }
    {
        if trees.are_alike(self.instrument, below) {
            let (rule, estate) = trees.why(self.instrument)?;
            return Some((rule, estate, first_cell(section, below, within)));
        }
        for which in Quarter::ALL {
            let found = self.first_in_square(
                &trees.quarter(which),
                section,
                below - 1,
                within.quarter(which),
            );
            if found.is_some() {
                return found;
            }
        }
        None
    }

    // The first cell that refuses of a node in a section, from what stands in the section.
    fn first_in_node(
        &self,
        trees: &Trees<'a>,
        section: Section,
        node: &Node,
    ) -> Option<(Rule, Estate, Cell)>
        requires here { StandsAt self.now section [] trees.now }
        ensures first { result ≡ first_for self.now (part_cells depth section node.now) }
    {
        let Node::Part(_, within) = node else {
            return None;
        };
        let (stand, below) = self.square_trees(trees, section, *within);
        self.first_in_square(&stand, section, below, *within)
    }

    // The first cell that refuses of the nodes of the tract's cover, which lie in a section.
    fn first_in_cover(&self, section: Section) -> Option<(Rule, Estate, Cell)>
        requires sized { AreSized self.now }
        requires of { list_any (same_township section.township) self.now.townships.now ≡ true }
        ensures first { result ≡ first_for self.now (flat_map (part_cells depth section) (cover_of depth self.now.tract.now)) }
    {
        let trees = self.section_trees(section);
        let cover = self.tract.cover();
        for node in cover {
            let found = self.first_in_node(&trees, section, node);
            if found.is_some() {
                return found;
            }
        }
        None
    }

    // The first cell that refuses of a township, section by section.
    fn first_in_township(&self, township: Township) -> Option<(Rule, Estate, Cell)>
        requires sized { AreSized self.now }
        requires of { list_any (same_township township) self.now.townships.now ≡ true }
        ensures first { result ≡ first_for self.now (township_cells depth township) }
    {
        for section in township.sections() {
            let trees = self.section_trees(section);
            let found = self.first_in_node(&trees, section, &section.node());
            if found.is_some() {
                return found;
            }
        }
        None
    }

    // The first cell that refuses of the plant, township by township.
    fn first_in_plant(&self) -> Option<(Rule, Estate, Cell)>
        requires sized { AreSized self.now }
        ensures first { result ≡ first_for self.now (flat_map (township_cells depth) self.now.townships.now) }
    {
        let list = self.townships.list();
        for township in list {
            let found = self.first_in_township(*township);
            if found.is_some() {
                return found;
            }
        }
        None
    }

    /// The first cell of the tract that refuses the instrument, with the rule and the estate. Nothing is looked at in another
    /// township or section than the tract's.
    #[tactic(auto, using(crate::proofs::Firsts::plant_found, crate::proofs::Firsts::township_found, crate::proofs::Firsts::part_found))]
    pub(crate) fn first(&self) -> Option<(Rule, Estate, Cell)>
        requires sized { AreSized self.now }
        requires within { is_in_plant self.now.townships.now self.now.tract.now ≡ true }
        ensures first { result ≡ first_for self.now (cells_of depth self.now.townships.now self.now.tract.now) }
    {
        match self.tract.land() {
            Land::Everything => self.first_in_plant(),
            Land::Township(township) => self.first_in_township(township),
            Land::Part(section, _) => self.first_in_cover(section),
        }
    }
}
