//! What an estate has of a township.

ghost use Rattle.std.specs.Prelude.{◌≡◌, ◌≢◌, ℕ, ◌<◌, ◌++◌, ◌∷◌, [], true, false, None, OnOk, OnErr, IfOk, IfErr, length, map, get_or};
ghost use Rattle.std.specs.Prelude.{replicate};
ghost use Rattle.std.specs.{List.{list_all}, Option.{option_map}};
ghost use Rattle.title_tree.specs.{Changes.{after}, Faults.{Tells}, Parts.{piece}, Trees.{plot}};
ghost use Rattle.title_tree.specs.Plots.{changed, first_refusal, graft, has_path, is_tidy, plot_at, split, tidied, tidied_all, tidied_at};
ghost use Rattle.title_tree.specs.Pieces.{Disjoint, InOrder, Ready, Refines, StaysElsewhere, StaysWithin, fresh, paths, refusal_at};
ghost use Rattle.title_tree.specs.Pieces.{split_all, swapped, taken};
ghost use Rattle.title_tree_store.specs.Grounds.{nothing, stands, is_parted, is_closable, uniform_all, ground_uniform};
ghost use Rattle.title_tree_store.specs.Grounds.{are_one, ground_tidy, IsTidied, IsUntouched};

use crate::sections::Sections;
use core::mem::replace_with;
use std::alloc::{AllocError, Global};
use title_share::Holding;
use title_tree::{
    Change, Fault, Part, Path, Tree, add_changed, exchange_all, is_same, settle_all, tidy_all,
};

/// A township of one estate: one tree stands in each section, or each section has its own.
#[derive(Drop)]
pub(crate) enum Ground {
    Whole(Tree),
    Parted(Sections),
}

// The one holding of trees that all have it.
fn uniform_of(trees: &[Tree]) -> Option<&Holding>
    ensures uniform { option_map (λ held. held.now) result ≡ uniform_all (map plot trees.now) }
{
    let (first, rest) = trees.split_first()?;
    let held = first.uniform()?;
    if rest.is_empty() {
        return Some(held);
    }
    let other = uniform_of(rest)?;
    if is_same(held, other) {
        Some(held)
    } else {
        None
    }
}

// Whether trees are leaves of one holding.
fn are_one(trees: &[Tree]) -> bool
    ensures one { result ≡ are_one (map plot trees.now) }
{
    let Some((first, rest)) = trees.split_first() else {
        return false;
    };
    rest.iter().all(|tree| first.is_same_leaf(tree))
}

// The same tree for each of so many sections.
fn copies(alloc: Global, tree: &Tree, count: usize) -> Result<Vec<Tree>, AllocError>
    ensures copies { IfOk result (λ trees. map plot trees.items ≡ replicate count (plot tree.now)) }
{
    let mut trees = Vec::with_capacity(alloc, count)?;
    while trees.len() < count {
        let copy = tree.copy(alloc)?;
        trees.push_reserved(copy);
    }
    Ok(trees)
}

// New trees with each leaf's holding changed. Refused with the reason of some leaf.
#[tactic(auto, using(crate::proofs::GroundLaws::section_trees))]
fn changed_each<C: Change>(
    alloc: Global,
    trees: &[Tree],
    change: &mut C,
) -> Result<Vec<Tree>, Fault<C::Refusal>>
    requires all { length trees.now ≡ 36 }
    ensures none { OnOk result ((j : ℕ) → j < 36
        → first_refusal (C.effect change.old) (get_or (map plot trees.now) j nothing) ≡ None) }
    ensures new { IfOk result (λ made. map plot made.items ≡ map (changed (after (C.effect change.old))) (map plot trees.now)) }
    ensures why { IfErr result (λ fault. (j : ℕ) × (j < 36)
        × Tells fault (first_refusal (C.effect change.old) (get_or (map plot trees.now) j nothing))) }
    ensures same { C.effect change.new ≡ C.effect change.old }
{
    let mut made = Vec::with_capacity(alloc, trees.len())?;
    for tree in trees {
        let changed = tree.changed(alloc, change)?;
        made.push_reserved(changed);
    }
    Ok(made)
}

// Joins quarters of each tree. Takes no memory.
fn tidy_each(trees: &mut [Tree])
    ensures tidied { map plot trees.new ≡ map tidied (map plot trees.old) }
{
    if let Some((first, rest)) = trees.split_first_mut() {
        first.tidy();
        tidy_each(rest);
    }
}

// Whether no tree has quarters that could be joined.
fn are_tidy(trees: &[Tree]) -> bool
    ensures tidy { result ≡ list_all (λ tree. is_tidy (plot tree)) trees.now }
{
    trees.iter().all(|tree| tree.is_tidy())
}

// The last of a township's trees.
fn last_of(sections: Sections) -> Tree
    ensures last { plot result ≡ get_or (map plot sections.trees.items) 35 nothing }
{
    let Sections { mut trees } = sections;
    let Some(tree) = trees.pop() else {
        unreachable!()
    };
    tree
}

impl Ground {
    /// What stands in a section.
    pub(crate) fn section(&self, index: usize) -> &Tree
        requires section { index < 36 }
        ensures stands { plot result.now ≡ stands self.now index }
    {
        match self {
            Ground::Whole(tree) => tree,
            Ground::Parted(sections) => &sections.trees[index],
        }
    }

    /// The holding of all cells, where they have one.
    pub(crate) fn uniform(&self) -> Option<&Holding>
        ensures uniform { option_map (λ held. held.now) result ≡ ground_uniform self.now }
    {
        match self {
            Ground::Whole(tree) => tree.uniform(),
            Ground::Parted(sections) => uniform_of(&sections.trees),
        }
    }

    /// What stands at a path of a section, changed; the section's tree is quartered down to there, and where one tree stood in all
    /// sections each gets its own. Refused with the reason of the first leaf that refuses. `Err` changes nothing.
    #[tactic(auto, using(crate::proofs::GroundLaws::section_trees))]
    pub(crate) fn changed_at<C: Change>(
        &mut self,
        alloc: Global,
        index: usize,
        path: Path,
        change: &mut C,
    ) -> Result<Tree, Fault<C::Refusal>>
        requires section { index < 36 }
        ensures none { OnOk result (first_refusal (C.effect change.old) (plot_at path (stands self.old index)) ≡ None) }
        ensures new { IfOk result (λ t. plot t ≡ changed (after (C.effect change.old)) (plot_at path (stands self.old index))) }
        ensures split { OnOk result (stands self.new index ≡ split path (stands self.old index)) }
        ensures parted { OnOk result (is_parted self.new ≡ true) }
        ensures why { IfErr result (λ fault. Tells fault (first_refusal (C.effect change.old) (plot_at path (stands self.old index)))) }
        ensures err { OnErr result (IsUntouched self.old self.new) }
        ensures others { (j : ℕ) → j < 36 → j ≢ index → stands self.new j ≡ stands self.old j }
        ensures kept { is_parted self.old ≡ true → is_parted self.new ≡ true }
        ensures same { C.effect change.new ≡ C.effect change.old }
    {
        match self {
            Ground::Whole(tree) => {
                tree.at(path).changed(alloc, change)?;
                let mut trees = copies(alloc, tree, 36)?;
                let made = trees[index].changed_at(alloc, path, change)?;
                *self = Ground::Parted(Sections { trees });
                Ok(made)
            }
            Ground::Parted(sections) => sections.trees[index].changed_at(alloc, path, change),
        }
    }

    /// Adds what stands at each path of a section, changed, to parts; the section's tree is quartered down to each. Refused with the reason
    /// of the first leaf that refuses. After `Err` it may be quartered down to some.
    #[tactic(auto, using(crate::proofs::GroundLaws::section_trees))]
    pub(crate) fn add_changed<C: Change>(
        &mut self,
        alloc: Global,
        index: usize,
        paths: &[Path],
        change: &mut C,
        parts: &mut Vec<Part>,
    ) -> Result<(), Fault<C::Refusal>>
        requires section { index < 36 }
        requires parted { is_parted self.old ≡ true }
        requires disjoint { Disjoint paths.now }
        ensures none { OnOk result (refusal_at (C.effect change.old) paths.now (stands self.old index) ≡ None) }
        ensures new { OnOk result (map piece parts.new.items ≡ map piece parts.old.items
            ++ fresh (after (C.effect change.old)) paths.now (stands self.old index)) }
        ensures split { OnOk result (stands self.new index ≡ split_all paths.now (stands self.old index)) }
        ensures why { IfErr result (λ fault. Tells fault (refusal_at (C.effect change.old) paths.now (stands self.old index))) }
        ensures err { OnErr result (Refines (stands self.old index) (stands self.new index)) }
        ensures err_fits { OnErr result (StaysWithin paths.now (stands self.old index) (stands self.new index)) }
        ensures err_elsewhere { OnErr result (StaysElsewhere paths.now (stands self.old index) (stands self.new index)) }
        ensures others { (j : ℕ) → j < 36 → j ≢ index → stands self.new j ≡ stands self.old j }
        ensures parted { is_parted self.new ≡ true }
        ensures same { C.effect change.new ≡ C.effect change.old }
    {
        match self {
            Ground::Whole(_) => unreachable!(),
            Ground::Parted(sections) => {
                add_changed(alloc, &mut sections.trees[index], paths, change, parts)
            }
        }
    }

    /// A part changes places with what stands at its path in a section. Takes no memory.
    #[tactic(auto, using(crate::proofs::GroundLaws::section_trees))]
    pub(crate) fn exchange(&mut self, index: usize, part: &mut Part)
        requires section { index < 36 }
        requires parted { is_parted self.old ≡ true }
        requires there { has_path part.old.path (stands self.old index) ≡ true }
        ensures stands { stands self.new index ≡ graft part.old.path (plot part.old.tree) (stands self.old index) }
        ensures part { piece part.new ≡ record { path = part.old.path; plot = plot_at part.old.path (stands self.old index) } }
        ensures others { (j : ℕ) → j < 36 → j ≢ index → stands self.new j ≡ stands self.old j }
        ensures parted { is_parted self.new ≡ true }
    {
        match self {
            Ground::Whole(_) => unreachable!(),
            Ground::Parted(sections) => part.exchange(&mut sections.trees[index]),
        }
    }

    /// The same; then quarters are joined below and above the path, and the sections, where they are leaves of one holding.
    #[tactic(auto, using(crate::proofs::GroundLaws::section_trees, title_tree::specs::Laws::Settled::until_none))]
    pub(crate) fn settle(&mut self, index: usize, part: &mut Part)
        requires section { index < 36 }
        requires parted { is_parted self.old ≡ true }
        requires there { has_path part.old.path (stands self.old index) ≡ true }
        ensures stands { stands self.new index
            ≡ tidied_at part.old.path (graft part.old.path (plot part.old.tree) (stands self.old index)) }
        ensures others { (j : ℕ) → j < 36 → j ≢ index → stands self.new j ≡ stands self.old j }
        ensures closed { is_closable self.new ≡ false }
    {
        match self {
            Ground::Whole(_) => unreachable!(),
            Ground::Parted(sections) => {
                sections.trees[index].settle(part.path, None, &mut part.tree);
                if let Tree::Leaf(_) = &sections.trees[index] {
                    self.close();
                }
            }
        }
    }

    /// Each part in turn changes places with what stands at its path in a section. Takes no memory.
    #[tactic(auto, using(crate::proofs::GroundLaws::section_trees))]
    pub(crate) fn exchange_all(&mut self, index: usize, parts: &mut [Part])
        requires section { index < 36 }
        requires parted { is_parted self.old ≡ true }
        requires disjoint { Disjoint (paths (map piece parts.old)) }
        requires ready { Ready (paths (map piece parts.old)) (stands self.old index) }
        ensures stands { stands self.new index ≡ swapped (map piece parts.old) (stands self.old index) }
        ensures parts { map piece parts.new ≡ taken (map piece parts.old) (stands self.old index) }
        ensures others { (j : ℕ) → j < 36 → j ≢ index → stands self.new j ≡ stands self.old j }
        ensures parted { is_parted self.new ≡ true }
    {
        match self {
            Ground::Whole(_) => unreachable!(),
            Ground::Parted(sections) => exchange_all(&mut sections.trees[index], parts),
        }
    }

    /// Each part in turn changes places with what stands at its path in a section; quarters are joined below and above the paths on the
    /// way, and then the sections, where they are leaves of one holding. Takes no memory.
    #[tactic(auto, using(crate::proofs::GroundLaws::section_trees))]
    pub(crate) fn settle_all(&mut self, index: usize, parts: &mut [Part])
        requires section { index < 36 }
        requires parted { is_parted self.old ≡ true }
        requires disjoint { Disjoint (paths (map piece parts.old)) }
        requires ready { Ready (paths (map piece parts.old)) (stands self.old index) }
        requires order { InOrder (paths (map piece parts.old)) }
        ensures stands { stands self.new index
            ≡ tidied_all (paths (map piece parts.old)) (swapped (map piece parts.old) (stands self.old index)) }
        ensures others { (j : ℕ) → j < 36 → j ≢ index → stands self.new j ≡ stands self.old j }
        ensures closed { is_closable self.new ≡ false }
    {
        match self {
            Ground::Whole(_) => unreachable!(),
            Ground::Parted(sections) => {
                settle_all(&mut sections.trees[index], parts);
                if let Tree::Leaf(_) = &sections.trees[index] {
                    self.close();
                }
            }
        }
    }

    /// A new one with each leaf's holding changed. Nothing in this one changes. Refused with the reason of some leaf.
    pub(crate) fn changed<C: Change>(
        &self,
        alloc: Global,
        change: &mut C,
    ) -> Result<Ground, Fault<C::Refusal>>
        ensures none { OnOk result ((j : ℕ) → j < 36 → first_refusal (C.effect change.old) (stands self.now j) ≡ None) }
        ensures new { IfOk result (λ g. (j : ℕ) → j < 36 → stands g j ≡ changed (after (C.effect change.old)) (stands self.now j)) }
        ensures parted { IfOk result (λ g. is_parted g ≡ is_parted self.now) }
        ensures why { IfErr result (λ fault. (j : ℕ) × (j < 36) × Tells fault (first_refusal (C.effect change.old) (stands self.now j))) }
        ensures same { C.effect change.new ≡ C.effect change.old }
    {
        match self {
            Ground::Whole(tree) => Ok(Ground::Whole(tree.changed(alloc, change)?)),
            Ground::Parted(sections) => {
                let trees = changed_each(alloc, &sections.trees, change)?;
                Ok(Ground::Parted(Sections { trees }))
            }
        }
    }

    // Whether its sections have trees of their own, which are leaves of one holding.
    fn is_closable(&self) -> bool
        ensures closable { result ≡ is_closable self.now }
    {
        match self {
            Ground::Whole(_) => false,
            Ground::Parted(sections) => are_one(&sections.trees),
        }
    }

    // One tree for all sections, where theirs are leaves of one holding.
    #[tactic(auto, using(crate::proofs::GroundLaws::one_stands))]
    fn closed(self) -> Ground
        ensures stays { (j : ℕ) → j < 36 → stands result j ≡ stands self j }
        ensures closed { is_closable result ≡ false }
    {
        match self {
            Ground::Whole(tree) => Ground::Whole(tree),
            Ground::Parted(sections) => if are_one(&sections.trees) {
                Ground::Whole(last_of(sections))
            } else {
                Ground::Parted(sections)
            },
        }
    }

    // The same; where there is nothing to join nothing is moved. Takes no memory.
    fn close(&mut self)
        ensures stays { (j : ℕ) → j < 36 → stands self.new j ≡ stands self.old j }
        ensures closed { is_closable self.new ≡ false }
    {
        if self.is_closable() {
            replace_with(self, (), |ground, ()| (ground.closed(), ()));
        }
    }

    /// Joins quarters below and above each path of a section, and then the sections, where they are leaves of one holding.
    /// Takes no memory.
    pub(crate) fn tidy_at(&mut self, index: usize, paths: &[Path])
        requires section { index < 36 }
        ensures tidied { IsTidied (paths.now ∷ []) (stands self.old index) (stands self.new index) }
        ensures others { (j : ℕ) → j < 36 → j ≢ index → IsTidied ([] ∷ []) (stands self.old j) (stands self.new j) }
        ensures closed { is_closable self.new ≡ false }
    {
        match self {
            Ground::Whole(tree) => tree.tidy(),
            Ground::Parted(sections) => {
                tidy_all(&mut sections.trees[index], paths);
                if let Tree::Leaf(_) = &sections.trees[index] {
                    self.close();
                }
            }
        }
    }

    /// The same of all sections.
    pub(crate) fn tidy(&mut self)
        ensures tidied { (j : ℕ) → j < 36 → stands self.new j ≡ tidied (stands self.old j) }
        ensures closed { is_closable self.new ≡ false }
    {
        match self {
            Ground::Whole(tree) => tree.tidy(),
            Ground::Parted(sections) => {
                tidy_each(&mut sections.trees);
                self.close();
            }
        }
    }

    /// Whether nothing can be joined.
    #[tactic(auto, using(crate::proofs::GroundLaws::section_tests))]
    pub(crate) fn is_tidy(&self) -> bool
        ensures tidy { result ≡ ground_tidy self.now }
    {
        match self {
            Ground::Whole(tree) => tree.is_tidy(),
            Ground::Parted(sections) => are_tidy(&sections.trees) && !are_one(&sections.trees),
        }
    }
}
