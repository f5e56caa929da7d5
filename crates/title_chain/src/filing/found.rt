//! What is found in a filing along a cover.

ghost use Rattle.std.{proofs.Math.Bool.{Bool-set}, specs.{Prelude.{◌≡◌, ◌||◌, [], OnOk, true}, List.Sorted.{IsStrictlySortedBy}}};
ghost use Rattle.title_land.specs.{declared.node.Node.{Node}, NodeNumbers.{node_number, number_above}};
ghost use Rattle.title_chain.specs.{declared.spot.Spot.{Spot}, PostSpots.{is_listed}, SpotMaps.{spot_cmp}};
ghost use Rattle.title_chain.specs.TractIndexes.{is_near, is_higher, KnowsAbove};

use crate::filing::{Filing, spots_at};
use crate::spot::Spot;
use std::alloc::{AllocError, Global};
use title_land::{Node, number_above};

// So many spots may be found, some more than once, before they are put in order.
const FEW: usize = 1_024;

/// The spots of the posts whose cover has one of the nodes that were gone through, or one above or below one of them.
#[derive(Drop)]
pub(crate) struct Found<'a> {
    filing: &'a Filing,
    // Some may stand there more than once.
    spots: Vec<Spot>,
    // The number of the node above the last one, or 0.
    last: u64,
    // So many spots may be there before they are put in order.
    most: usize,
    // What is filed above the nodes below that one was found, unless it is the whole plant.
    ghost known: { KnowsAbove filing.now last spots.items } by { Prim.hlevel Bool-set },
}

// Adds spots to those found.
fn find_all(found: &mut Vec<Spot>, spots: &[Spot]) -> Result<(), AllocError>
    ensures found { OnOk result ((p : Spot) → is_listed p found.new.items ≡ (is_listed p found.old.items || is_listed p spots.now)) }
{
    if spots.is_empty() {
        return Ok(());
    }
    found.extend_from_slice(spots)?;
    Ok(())
}

// Whether each spot stands before the next.
fn ascend(spots: &[Spot]) -> bool
    ensures ascend { result ≡ true → IsStrictlySortedBy spot_cmp spots.now }
{
    let mut i = 1;
    while i < spots.len() {
        if !spots[i - 1].is_before(spots[i]) {
            return false;
        }
        i += 1;
    }
    true
}

// Puts spots in order, each once. Those of one list are so already.
fn put_in_order(spots: &mut Vec<Spot>)
    ensures ordered { IsStrictlySortedBy spot_cmp spots.new.items }
    ensures same { (p : Spot) → is_listed p spots.new.items ≡ is_listed p spots.old.items }
{
    if !ascend(spots) {
        spots.sort_unstable();
        spots.dedup();
    }
}

// Adds the spots of the posts whose cover has a node above the one with a number.
fn find_above(filing: &Filing, found: &mut Vec<Spot>, number: u64) -> Result<(), AllocError>
    ensures found { (c : Node) → number ≡ node_number c → OnOk result ((p : Spot) → is_listed p found.new.items
        ≡ (is_listed p found.old.items || is_higher filing.now p c)) }
{
    let mut reached = number;
    while reached != 0 {
        reached = number_above(reached);
        find_all(found, spots_at(&filing.at, reached))?;
    }
    Ok(())
}

// Adds the spots of the posts whose cover has the node with a number, or one above or below it. Where it is known that those of the
// nodes above are there, these aren't looked up.
fn find_near(
    filing: &Filing,
    found: &mut Vec<Spot>,
    number: u64,
    is_known: bool,
) -> Result<(), AllocError>
    ensures found { (c : Node) → number ≡ node_number c
        → (is_known ≡ true → (p : Spot) → is_higher filing.now p c ≡ true → is_listed p found.old.items ≡ true)
        → OnOk result ((p : Spot) → is_listed p found.new.items ≡ (is_listed p found.old.items || is_near filing.now p c)) }
{
    find_all(found, spots_at(&filing.at, number))?;
    find_all(found, spots_at(&filing.below, number))?;
    if is_known {
        return Ok(());
    }
    find_above(filing, found, number)?;
    Ok(())
}

impl<'a> Found<'a> {
    /// None yet; takes no memory.
    pub(crate) fn none(alloc: Global, filing: &'a Filing) -> Found<'a>
        ensures none { result.spots.items ≡ [] }
        ensures filing { result.filing.now ≡ filing.now }
    {
        Found {
            filing,
            spots: Vec::new(alloc),
            last: 0,
            most: FEW,
        }
    }

    // Puts the spots in order, each once, where they are more than so many. As many may be there before that is done again as
    // before, or twice as many as are left. So there are never more than twice the spots that were found, or `FEW`, and beyond
    // these what one node of a cover adds.
    fn thin_out(&mut self)
        ensures same { (p : Spot) → is_listed p self.new.spots.items ≡ is_listed p self.old.spots.items }
        ensures filing { self.new.filing.now ≡ self.old.filing.now }
    {
        if self.spots.len() <= self.most {
            return;
        }
        put_in_order(&mut self.spots);
        self.most = self.most.max(self.spots.len().saturating_mul(2));
    }

    // Whether what is filed above the nodes below the one with this number was found, as a node before tells.
    fn knows_above(&self, parent: u64) -> bool
        ensures knows { result ≡ true → (c : Node) → number_above (node_number c) ≡ parent → (p : Spot)
            → is_higher self.now.filing.now p c ≡ true → is_listed p self.now.spots.items ≡ true }
    {
        parent != 0 && parent == self.last
    }

    /// Adds those of the posts whose cover has the node, or one above or below it.
    pub(crate) fn add_near(&mut self, node: &Node) -> Result<(), AllocError>
        ensures found { OnOk result ((p : Spot) → is_listed p self.new.spots.items
            ≡ (is_listed p self.old.spots.items || is_near self.old.filing.now p node.now)) }
        ensures filing { self.new.filing.now ≡ self.old.filing.now }
    {
        let number = node.number();
        let parent = number_above(number);
        let is_known = self.knows_above(parent);
        // (Nothing counts as known until all is found.)
        self.last = 0;
        find_near(self.filing, &mut self.spots, number, is_known)?;
        self.last = parent;
        self.thin_out();
        Ok(())
    }

    /// All of them in order, each once.
    pub(crate) fn in_order(self) -> Vec<Spot>
        ensures ordered { IsStrictlySortedBy spot_cmp result.items }
        ensures same { (p : Spot) → is_listed p result.items ≡ is_listed p self.entry.spots.items }
    {
        let mut spots = self.spots;
        put_in_order(&mut spots);
        spots
    }
}
