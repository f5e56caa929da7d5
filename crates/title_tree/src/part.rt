//! Trees with the paths to where they belong.

ghost use Rattle.std.specs.{Prelude.{◌≡◌, ◌++◌, ◌∷◌, [], true, None, map, OnOk, OnErr, IfErr}, Option.{option_map}};
ghost use Rattle.title_tree.specs.{Changes.{after}, Faults.{Tells}, Parts.{piece}, Pieces.{split_all, fresh, refusal_at, uniform_at}};
ghost use Rattle.title_tree.specs.{Pieces.{Disjoint, InOrder, Ready, Refines, StaysWithin, StaysElsewhere, paths}, Trees.{plot}};
ghost use Rattle.title_tree.specs.Pieces.{first_path, swapped, taken};
ghost use Rattle.title_tree.specs.Plots.{has_path, plot_at, graft, tidied_all};

use crate::change::{Change, Fault};
use crate::path::Path;
use crate::tree::{Tree, is_same};
use std::alloc::{AllocError, Global};
use title_share::Holding;

/// A tree that stood at a path of another, or is to stand there.
#[derive(Drop)]
pub struct Part {
    pub path: Path,
    pub tree: Tree,
}

impl Part {
    /// Changes places with what stands at its path. Takes no memory.
    pub fn exchange(&mut self, root: &mut Tree)
        requires there { has_path self.old.path (plot root.old) ≡ true }
        ensures path { self.new.path ≡ self.old.path }
        ensures tree { plot self.new.tree ≡ plot_at self.old.path (plot root.old) }
        ensures root { plot root.new ≡ graft self.old.path (plot self.old.tree) (plot root.old) }
    {
        root.exchange(self.path, &mut self.tree);
    }
}

/// Each part in turn changes places with what stands at its path: the parts then are what stood there. Takes no memory.
pub fn exchange_all(root: &mut Tree, parts: &mut [Part])
    requires disjoint { Disjoint (paths (map piece parts.old)) }
    requires ready { Ready (paths (map piece parts.old)) (plot root.old) }
    ensures root { plot root.new ≡ swapped (map piece parts.old) (plot root.old) }
    ensures parts { map piece parts.new ≡ taken (map piece parts.old) (plot root.old) }
{
    if let Some((first, rest)) = parts.split_first_mut() {
        first.exchange(root);
        exchange_all(root, rest);
    }
}

// The path of the first of some parts.
fn first_path(parts: &[Part]) -> Option<Path>
    ensures first { result ≡ first_path (map piece parts.now) }
{
    let first = parts.first()?;
    Some(first.path)
}

/// The same, for parts in the order of their paths; on the way up quarters that are leaves of one holding are joined, below and above each
/// path, but for the nodes that the next path leads through. Takes no memory.
pub fn settle_all(root: &mut Tree, parts: &mut [Part])
    requires disjoint { Disjoint (paths (map piece parts.old)) }
    requires ready { Ready (paths (map piece parts.old)) (plot root.old) }
    requires order { InOrder (paths (map piece parts.old)) }
    ensures root { plot root.new ≡ tidied_all (paths (map piece parts.old)) (swapped (map piece parts.old) (plot root.old)) }
{
    if let Some((first, rest)) = parts.split_first_mut() {
        root.settle(first.path, first_path(rest), &mut first.tree);
        settle_all(root, rest);
    }
}

/// Adds what stands at each path, changed, to parts; the tree is quartered down to each, which changes no cell. Refused with the reason of
/// the first leaf that refuses. After `Err` parts have been added for some paths, and the tree may be quartered down to some: the same
/// cells hold the same, each node is still there, none lies deeper than the paths, and what shares no cell with them is as it was.
pub fn add_changed<C: Change>(
    alloc: Global,
    root: &mut Tree,
    paths: &[Path],
    change: &mut C,
    parts: &mut Vec<Part>,
) -> Result<(), Fault<C::Refusal>>
    requires disjoint { Disjoint paths.now }
    ensures none { OnOk result (refusal_at (C.effect change.old) paths.now (plot root.old) ≡ None) }
    ensures new { OnOk result (map piece parts.new.items ≡ map piece parts.old.items
        ++ fresh (after (C.effect change.old)) paths.now (plot root.old)) }
    ensures split { OnOk result (plot root.new ≡ split_all paths.now (plot root.old)) }
    ensures why { IfErr result (λ fault. Tells fault (refusal_at (C.effect change.old) paths.now (plot root.old))) }
    ensures err { OnErr result (Refines (plot root.old) (plot root.new)) }
    ensures err_fits { OnErr result (StaysWithin paths.now (plot root.old) (plot root.new)) }
    ensures err_elsewhere { OnErr result (StaysElsewhere paths.now (plot root.old) (plot root.new)) }
    ensures same { C.effect change.new ≡ C.effect change.old }
{
    let Some((path, rest)) = paths.split_first() else {
        return Ok(());
    };
    let tree = root.changed_at(alloc, *path, change)?;
    push_part(parts, *path, tree)?;
    add_changed(alloc, root, rest, change, parts)
}

// Adds a part at the end.
fn push_part(parts: &mut Vec<Part>, path: Path, tree: Tree) -> Result<(), AllocError>
    ensures parts { OnOk result (map piece parts.new.items
        ≡ map piece parts.old.items ++ record { path = path; plot = plot tree } ∷ []) }
{
    parts.push(Part { path, tree })?;
    Ok(())
}

/// Joins quarters below and above each path in turn; no cell's holding changes. Takes no memory.
pub fn tidy_all(root: &mut Tree, paths: &[Path])
    ensures tidied { plot root.new ≡ tidied_all paths.now (plot root.old) }
{
    if let Some((path, rest)) = paths.split_first() {
        root.tidy_at(*path);
        tidy_all(root, rest);
    }
}

/// The one holding of all leaves at some paths; `None` where two differ or there is no path.
pub fn uniform_at<'a>(root: &'a Tree, paths: &[Path]) -> Option<&'a Holding>
    ensures uniform { option_map (λ held. held.now) result ≡ uniform_at paths.now (plot root.now) }
{
    let (first, rest) = paths.split_first()?;
    let held = root.at(*first).uniform()?;
    if rest.is_empty() {
        return Some(held);
    }
    let other = uniform_at(root, rest)?;
    if is_same(held, other) {
        Some(held)
    } else {
        None
    }
}
