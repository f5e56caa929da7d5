//! An index of posts by the nodes of the tree of tracts.

mod found;

ghost use Rattle.std.specs.Prelude.{◌≡◌, ℕ, ◌++◌, ◌&&◌, ◌||◌, ◌==◌, [], List, IfOk, OnOk, length, reverse};
ghost use Rattle.std.specs.List.{list_any, Sorted.{IsStrictlySortedBy}};
ghost use Rattle.title_land.specs.{Depth.{depth}, declared.node.Node.{Node}, Nodes.{same_node, is_above}};
ghost use Rattle.title_land.specs.NodeNumbers.{node_number, number_above};
ghost use Rattle.title_chain.specs.{declared.spot.Spot.{Spot}, PostSpots.{same_spot, is_listed}};
ghost use Rattle.title_chain.specs.SpotMaps.{spots_numbered, spots_under, spot_cmp};

use crate::ask::{Answer, Ask, Entry, Step};
use crate::chains::{add_entries_at, add_own_entries_at};
use crate::filing::found::Found;
use crate::record::Record;
use crate::spot::Spot;
use std::alloc::{AllocError, Global};
use std::collections::BTreeMap;
use title_land::{Node, Tract, number_above};

/// The spots of the posts of a list's first records, or of a transaction's first steps as those of a record at index 0:
/// under each node's number those of the posts whose cover has the node, and those of the posts whose cover has a node below it.
#[derive(Debug, Drop)]
pub(crate) struct Filing {
    read: usize,
    at: BTreeMap<u64, Vec<Spot>>,
    below: BTreeMap<u64, Vec<Spot>>,
}

// The spots under the node with a number.
fn spots_at<'a>(lists: &'a BTreeMap<u64, Vec<Spot>>, number: u64) -> &'a [Spot]
    ensures spots { result.now ≡ spots_numbered lists.now number }
{
    match lists.get(&number) {
        Some(spots) => spots.as_slice(),
        None => &[],
    }
}

// Adds a spot to a list, unless it is the last there.
fn push_once(list: &mut Vec<Spot>, spot: Spot) -> Result<(), AllocError>
    ensures listed { OnOk result ((p : Spot) → is_listed p list.new.items ≡ (is_listed p list.old.items || same_spot p spot)) }
{
    if let Some(last) = list.last() {
        if last.is(spot) {
            return Ok(());
        }
    }
    list.push(spot)?;
    Ok(())
}

// Adds a spot to those under the node with a number.
fn file_under(
    alloc: Global,
    lists: &mut BTreeMap<u64, Vec<Spot>>,
    number: u64,
    spot: Spot,
) -> Result<(), AllocError>
    ensures filed { OnOk result ((k : ℕ) (p : Spot) → is_listed p (spots_numbered lists.new k)
        ≡ (is_listed p (spots_numbered lists.old k) || (number == k && same_spot p spot))) }
{
    if let Some(list) = lists.get_mut(&number) {
        return push_once(list, spot);
    }
    let mut list = Vec::new(alloc);
    push_once(&mut list, spot)?;
    lists.insert(number, list)?;
    Ok(())
}

// Adds a spot to those under each node above the one with a number.
fn file_above(
    alloc: Global,
    lists: &mut BTreeMap<u64, Vec<Spot>>,
    number: u64,
    spot: Spot,
) -> Result<(), AllocError>
    ensures filed { (c : Node) → number ≡ node_number c → OnOk result ((n : Node) (p : Spot) → is_listed p (spots_under lists.new n)
        ≡ (is_listed p (spots_under lists.old n) || (is_above n c && same_spot p spot))) }
{
    let mut reached = number;
    while reached != 0 {
        reached = number_above(reached);
        file_under(alloc, lists, reached, spot)?;
    }
    Ok(())
}

impl Filing {
    ghost use Rattle.title_chain.specs.{Chains.{record_entries}, TractIndexes.{IsFiled, IsReadFrom, AreReadFrom, is_near}};
    ghost use Rattle.title_chain.specs.{StepEntries.{step_entries}, PostSpots.{FiledPost, post_of, posting_of, step_posts, record_posts}};

    /// Nothing was read yet; takes no memory.
    pub(crate) fn new(alloc: Global) -> Filing
        ensures read { result.read ≡ 0 }
        ensures filed { IsFiled depth result [] }
    {
        Filing {
            read: 0,
            at: BTreeMap::new(alloc),
            below: BTreeMap::new(alloc),
        }
    }

    // Files a post whose tract has this cover.
    fn file_cover(&mut self, alloc: Global, spot: Spot, cover: &[Node]) -> Result<(), AllocError>
        ensures read { self.new.read ≡ self.old.read }
        ensures at { OnOk result ((n : Node) (p : Spot) → is_listed p (spots_under self.new.at n)
            ≡ (is_listed p (spots_under self.old.at n) || (list_any (same_node n) cover.now && same_spot p spot))) }
        ensures below { OnOk result ((n : Node) (p : Spot) → is_listed p (spots_under self.new.below n)
            ≡ (is_listed p (spots_under self.old.below n) || (list_any (is_above n) cover.now && same_spot p spot))) }
    {
        for node in cover {
            let number = node.number();
            file_under(alloc, &mut self.at, number, spot)?;
            file_above(alloc, &mut self.below, number, spot)?;
        }
        Ok(())
    }

    // Files a step, if it was posted.
    fn file_step(&mut self, alloc: Global, spot: Spot, step: &Step) -> Result<(), AllocError>
        ensures read { self.new.read ≡ self.old.read }
        ensures filed { OnOk result ((posts : List FiledPost) → IsFiled depth self.old posts
            → IsFiled depth self.new (posts ++ post_of spot (posting_of step.now.ask step.now.answer))) }
    {
        let (Ask::Post(posting), Answer::Posted) = (&step.ask, &step.answer) else {
            return Ok(());
        };
        self.file_cover(alloc, spot, posting.terms().tract.cover())
    }

    // Files the steps of the record at an index.
    fn file_steps(&mut self, alloc: Global, index: usize, steps: &[Step]) -> Result<(), AllocError>
        ensures read { self.new.read ≡ self.old.read }
        ensures filed { OnOk result ((posts : List FiledPost) → IsFiled depth self.old posts
            → IsFiled depth self.new (posts ++ step_posts index (reverse steps.now))) }
    {
        for (i, step) in steps.iter().enumerate() {
            let spot = Spot {
                record: index,
                step: i,
            };
            self.file_step(alloc, spot, step)?;
        }
        Ok(())
    }

    // Files the records that weren't read yet.
    fn file_records(&mut self, alloc: Global, records: &[Record]) -> Result<(), AllocError>
        requires read { IsReadFrom depth self.old records.now }
        ensures filed { OnOk result (IsFiled depth self.new (record_posts (reverse records.now))) }
        ensures read { OnOk result (self.new.read ≡ length records.now) }
    {
        while let Some(record) = records.get(self.read) {
            self.file_steps(alloc, self.read, record.steps.as_slice())?;
            self.read += 1;
        }
        Ok(())
    }

    /// Files the records that weren't read yet. An error leaves a filing that read nothing.
    pub(crate) fn read_on(&mut self, alloc: Global, records: &[Record]) -> Result<(), AllocError>
        requires read { IsReadFrom depth self.old records.now }
        ensures read { IsReadFrom depth self.new records.now }
        ensures filed { OnOk result (IsFiled depth self.new (record_posts (reverse records.now))) }
    {
        let filed = self.file_records(alloc, records);
        if filed.is_err() {
            *self = Filing::new(alloc);
        }
        filed
    }

    // Files the steps of an open transaction that weren't read yet.
    fn file_own(&mut self, alloc: Global, steps: &[Step]) -> Result<(), AllocError>
        requires read { AreReadFrom depth self.old steps.now }
        ensures filed { OnOk result (IsFiled depth self.new (step_posts 0 (reverse steps.now))) }
        ensures read { OnOk result (self.new.read ≡ length steps.now) }
    {
        while let Some(step) = steps.get(self.read) {
            let spot = Spot {
                record: 0,
                step: self.read,
            };
            self.file_step(alloc, spot, step)?;
            self.read += 1;
        }
        Ok(())
    }

    /// Files the steps of an open transaction that weren't read yet. An error leaves a filing that read nothing.
    pub(crate) fn read_on_own(&mut self, alloc: Global, steps: &[Step]) -> Result<(), AllocError>
        requires read { AreReadFrom depth self.old steps.now }
        ensures read { AreReadFrom depth self.new steps.now }
        ensures filed { OnOk result (IsFiled depth self.new (step_posts 0 (reverse steps.now))) }
    {
        let filed = self.file_own(alloc, steps);
        if filed.is_err() {
            *self = Filing::new(alloc);
        }
        filed
    }

    // The spots of the posts whose cover has one of these nodes, or one above or below one of them, in order.
    fn find(&self, alloc: Global, cover: &[Node]) -> Result<Vec<Spot>, AllocError>
        ensures found { IfOk result (λ found. (p : Spot) → is_listed p found.items ≡ list_any (is_near self.now p) cover.now) }
        ensures ordered { IfOk result (λ found. IsStrictlySortedBy spot_cmp found.items) }
    {
        let mut found = Found::none(alloc, self);
        for node in cover {
            found.add_near(node)?;
        }
        Ok(found.in_order())
    }

    /// Adds the entries of records that were all read to the chain of a tract, and gives the spots where they were found.
    pub(crate) fn add_entries(
        &self,
        alloc: Global,
        entries: &mut Vec<Entry>,
        records: &[Record],
        tract: &Tract,
    ) -> Result<Vec<Spot>, AllocError>
        requires filed { IsFiled depth self.now (record_posts (reverse records.now)) }
        ensures added { OnOk result (entries.new.items ≡ entries.old.items ++ record_entries tract.now (reverse records.now)) }
    {
        let found = self.find(alloc, tract.cover())?;
        add_entries_at(alloc, entries, records, &found)?;
        Ok(found)
    }

    /// Adds the entries of an open transaction's steps that were all read to the chain of a tract, each with place 0.
    pub(crate) fn add_own_entries(
        &self,
        alloc: Global,
        entries: &mut Vec<Entry>,
        steps: &[Step],
        tract: &Tract,
    ) -> Result<(), AllocError>
        requires filed { IsFiled depth self.now (step_posts 0 (reverse steps.now)) }
        ensures added { OnOk result (entries.new.items ≡ entries.old.items ++ step_entries 0 tract.now (reverse steps.now)) }
    {
        let found = self.find(alloc, tract.cover())?;
        add_own_entries_at(alloc, entries, steps, &found)
    }
}
