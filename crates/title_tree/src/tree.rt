//! A square as a tree of quarters.

ghost use Rattle.std.specs.{Prelude.{◌≡◌, ◌∷◌, [], true, None, IfOk, IfErr, OnOk, OnErr}, Option.{option_map}, Arc.{arc_value}};
ghost use Rattle.title_tree.specs.{Changes.{after}, Faults.{Tells}, Joins.{is_joinable}, Trees.{plot}};
ghost use Rattle.title_tree.specs.Plots.{Same, Four, value_at, has_path, plot_at, graft, split, changed, first_refusal};
ghost use Rattle.title_tree.specs.Plots.{same_division, uniform, same_leaf, joined, is_tidy, tidied, tidied_at, tidied_until};

use crate::change::{Change, Fault};
use crate::path::{Path, rest_in};
use core::mem::replace_with;
use std::alloc::{AllocError, Global};
use std::mem;
use std::sync::Arc;
use title_land::Quarter;
use title_share::Holding;

/// Who holds an estate in a square: all cells have the holding of a leaf, or each quarter has a tree of its own, in the
/// order of the quarters. A contract sees it as its plot.
#[cycle(quarters)]
#[derive(Drop)]
pub enum Tree {
    Leaf(Arc<Holding>),
    Quarters(Box<Block>),
}

/// The trees of a square's quarters.
#[cycle(quarters)]
#[derive(Drop)]
pub struct Block {
    pub northeast: Tree,
    pub northwest: Tree,
    pub southwest: Tree,
    pub southeast: Tree,
}

/// Whether the holdings are one.
pub fn is_same(held: &Holding, other: &Holding) -> bool
    ensures same { result ≡ same_division held.now other.now }
{
    held.same(other)
}

// The first of four quarters.
fn first_of(four: Box<Block>) -> Tree
    ensures first { result ≡ four.value.northeast }
{
    let Block {
        northeast,
        northwest: _,
        southwest: _,
        southeast: _,
    } = Box::into_inner(four);
    northeast
}

impl Tree {
    /// Changes places with the node at a path. Takes no memory.
    pub fn exchange(&mut self, path: Path, other: &mut Tree)
        requires there { has_path path (plot self.old) ≡ true }
        ensures tree { plot self.new ≡ graft path (plot other.old) (plot self.old) }
        ensures other { plot other.new ≡ plot_at path (plot self.old) }
    {
        let Some((first, rest)) = path.split() else {
            mem::swap(self, other);
            return;
        };
        match self {
            Tree::Leaf(_) => unreachable!(),
            Tree::Quarters(four) => match first {
                Quarter::Northeast => four.northeast.exchange(rest, other),
                Quarter::Northwest => four.northwest.exchange(rest, other),
                Quarter::Southwest => four.southwest.exchange(rest, other),
                Quarter::Southeast => four.southeast.exchange(rest, other),
            },
        }
    }

    /// The same; then quarters that are leaves of one holding are joined, below the path and, on the way up, above it, but for the nodes
    /// that the path `until` leads through. Takes no memory.
    pub fn settle(&mut self, path: Path, until: Option<Path>, other: &mut Tree)
        requires there { has_path path (plot self.old) ≡ true }
        ensures tree { plot self.new ≡ tidied_until until path (graft path (plot other.old) (plot self.old)) }
        ensures other { plot other.new ≡ plot_at path (plot self.old) }
    {
        let Some((first, rest)) = path.split() else {
            mem::swap(other, self);
            self.tidy();
            return;
        };
        let below = rest_in(until, first);
        match self {
            Tree::Leaf(_) => unreachable!(),
            Tree::Quarters(four) => match first {
                Quarter::Northeast => four.northeast.settle(rest, below, other),
                Quarter::Northwest => four.northwest.settle(rest, below, other),
                Quarter::Southwest => four.southwest.settle(rest, below, other),
                Quarter::Southeast => four.southeast.settle(rest, below, other),
            },
        }
        if until.is_none() {
            self.join();
        }
    }

    /// The node at a path, or the leaf above it whose holding it inherits.
    pub fn at(&self, path: Path) -> &Tree
        ensures at { plot result.now ≡ plot_at path (plot self.now) }
    {
        let Some((first, rest)) = path.split() else {
            return self;
        };
        match self {
            Tree::Leaf(_) => self,
            Tree::Quarters(four) => match first {
                Quarter::Northeast => four.northeast.at(rest),
                Quarter::Northwest => four.northwest.at(rest),
                Quarter::Southwest => four.southwest.at(rest),
                Quarter::Southeast => four.southeast.at(rest),
            },
        }
    }

    /// What stands in a quarter: its node, or the leaf whose holding it inherits.
    pub fn quarter(&self, which: Quarter) -> &Tree
        ensures at { plot result.now ≡ plot_at (which ∷ []) (plot self.now) }
    {
        match self {
            Tree::Leaf(_) => self,
            Tree::Quarters(four) => match which {
                Quarter::Northeast => &four.northeast,
                Quarter::Northwest => &four.northwest,
                Quarter::Southwest => &four.southwest,
                Quarter::Southeast => &four.southeast,
            },
        }
    }

    /// The same tree once more, over the same holdings. `Err` where memory is short; then nothing is kept of it.
    pub fn copy(&self, alloc: Global) -> Result<Tree, AllocError>
        ensures copy { IfOk result (λ t. plot t ≡ plot self.now) }
    {
        match self {
            Tree::Leaf(held) => Ok(Tree::Leaf(held.clone()?)),
            Tree::Quarters(four) => {
                let northeast = four.northeast.copy(alloc)?;
                let northwest = four.northwest.copy(alloc)?;
                let southwest = four.southwest.copy(alloc)?;
                let southeast = four.southeast.copy(alloc)?;
                Tree::quarters(alloc, northeast, northwest, southwest, southeast)
            }
        }
    }

    /// The holding of the first cell.
    pub fn first_holding(&self) -> &Holding
        ensures holding { result.now ≡ value_at (plot self.now) [] }
    {
        match self {
            Tree::Leaf(held) => &**held,
            Tree::Quarters(four) => four.northeast.first_holding(),
        }
    }

    // A tree of one holding, with a node of its own at a path.
    fn split_leaf(alloc: Global, held: &Arc<Holding>, path: Path) -> Result<Tree, AllocError>
        ensures split { IfOk result (λ t. plot t ≡ split path (Same (arc_value held.now))) }
    {
        let Some((first, rest)) = path.split() else {
            return Ok(Tree::Leaf(held.clone()?));
        };
        let inner = Tree::split_leaf(alloc, held, rest)?;
        let a = Tree::Leaf(held.clone()?);
        let b = Tree::Leaf(held.clone()?);
        let c = Tree::Leaf(held.clone()?);
        match first {
            Quarter::Northeast => Tree::quarters(alloc, inner, a, b, c),
            Quarter::Northwest => Tree::quarters(alloc, a, inner, b, c),
            Quarter::Southwest => Tree::quarters(alloc, a, b, inner, c),
            Quarter::Southeast => Tree::quarters(alloc, a, b, c, inner),
        }
    }

    /// What stands at a path, with each leaf's holding changed; this tree is quartered down to there, which changes no cell. Refused with
    /// the reason of the first leaf that refuses; then, and where memory is short, nothing changes.
    pub fn changed_at<C: Change>(
        &mut self,
        alloc: Global,
        path: Path,
        change: &mut C,
    ) -> Result<Tree, Fault<C::Refusal>>
        ensures none { OnOk result (first_refusal (C.effect change.old) (plot_at path (plot self.old)) ≡ None) }
        ensures new { IfOk result (λ t. plot t ≡ changed (after (C.effect change.old)) (plot_at path (plot self.old))) }
        ensures split { OnOk result (plot self.new ≡ split path (plot self.old)) }
        ensures why { IfErr result (λ fault. Tells fault (first_refusal (C.effect change.old) (plot_at path (plot self.old)))) }
        ensures err { OnErr result (plot self.new ≡ plot self.old) }
        ensures same { C.effect change.new ≡ C.effect change.old }
    {
        let Some((first, rest)) = path.split() else {
            return self.changed(alloc, change);
        };
        match self {
            Tree::Leaf(held) => {
                let new = change.apply(alloc, held)?;
                *self = Tree::split_leaf(alloc, held, path)?;
                Ok(Tree::Leaf(new))
            }
            Tree::Quarters(four) => match first {
                Quarter::Northeast => four.northeast.changed_at(alloc, rest, change),
                Quarter::Northwest => four.northwest.changed_at(alloc, rest, change),
                Quarter::Southwest => four.southwest.changed_at(alloc, rest, change),
                Quarter::Southeast => four.southeast.changed_at(alloc, rest, change),
            },
        }
    }

    /// A new tree with each leaf's holding changed. Nothing in this one changes. Refused with the reason of the first
    /// leaf that refuses.
    pub fn changed<C: Change>(
        &self,
        alloc: Global,
        change: &mut C,
    ) -> Result<Tree, Fault<C::Refusal>>
        ensures none { OnOk result (first_refusal (C.effect change.old) (plot self.now) ≡ None) }
        ensures new { IfOk result (λ t. plot t ≡ changed (after (C.effect change.old)) (plot self.now)) }
        ensures why { IfErr result (λ fault. Tells fault (first_refusal (C.effect change.old) (plot self.now))) }
        ensures same { C.effect change.new ≡ C.effect change.old }
    {
        match self {
            Tree::Leaf(held) => Ok(Tree::Leaf(change.apply(alloc, held)?)),
            Tree::Quarters(four) => {
                let northeast = four.northeast.changed(alloc, change)?;
                let northwest = four.northwest.changed(alloc, change)?;
                let southwest = four.southwest.changed(alloc, change)?;
                let southeast = four.southeast.changed(alloc, change)?;
                Ok(Tree::quarters(alloc, northeast, northwest, southwest, southeast)?)
            }
        }
    }

    // A tree with these quarters.
    fn quarters(
        alloc: Global,
        northeast: Tree,
        northwest: Tree,
        southwest: Tree,
        southeast: Tree,
    ) -> Result<Tree, AllocError>
        ensures quarters { IfOk result (λ t. plot t ≡ Four (plot northeast) (plot northwest) (plot southwest) (plot southeast)) }
    {
        let four = Box::new(
            alloc,
            Block {
                northeast,
                northwest,
                southwest,
                southeast,
            },
        )?;
        Ok(Tree::Quarters(four))
    }

    /// The one holding of a tree whose leaves all have the same; `None` where two differ.
    pub fn uniform(&self) -> Option<&Holding>
        ensures uniform { option_map (λ held. held.now) result ≡ uniform (plot self.now) }
    {
        match self {
            Tree::Leaf(held) => Some(&**held),
            Tree::Quarters(four) => {
                let held = four.northeast.uniform()?;
                let second = four.northwest.uniform()?;
                let third = four.southwest.uniform()?;
                let fourth = four.southeast.uniform()?;
                if is_same(held, second) && is_same(held, third) && is_same(held, fourth) {
                    Some(held)
                } else {
                    None
                }
            }
        }
    }

    /// Whether no four quarters are leaves that have the same holding: no tree with fewer nodes has these holdings.
    pub fn is_tidy(&self) -> bool
        ensures tidy { result ≡ is_tidy (plot self.now) }
    {
        let Tree::Quarters(four) = self else {
            return true;
        };
        if !(four.northeast.is_tidy()
            && four.northwest.is_tidy()
            && four.southwest.is_tidy()
            && four.southeast.is_tidy())
        {
            return false;
        }
        !(four.northeast.is_same_leaf(&four.northwest)
            && four.northeast.is_same_leaf(&four.southwest)
            && four.northeast.is_same_leaf(&four.southeast))
    }

    /// Whether both are leaves that have the same holding.
    pub fn is_same_leaf(&self, other: &Tree) -> bool
        ensures same { result ≡ same_leaf (plot self.now) (plot other.now) }
    {
        match (self, other) {
            (Tree::Leaf(held), Tree::Leaf(other)) => is_same(&**held, &**other),
            _ => false,
        }
    }

    // The tree, or one leaf where its quarters are leaves that have the same holding.
    fn joined(self) -> Tree
        ensures joined { plot result ≡ joined (plot self) }
    {
        match self {
            Tree::Leaf(held) => Tree::Leaf(held),
            Tree::Quarters(four) => {
                if four.northeast.is_same_leaf(&four.northwest)
                    && four.northeast.is_same_leaf(&four.southwest)
                    && four.northeast.is_same_leaf(&four.southeast)
                {
                    first_of(four)
                } else {
                    Tree::Quarters(four)
                }
            }
        }
    }

    // Whether it has quarters that are leaves of the same holding.
    fn is_joinable(&self) -> bool
        ensures joinable { result ≡ is_joinable (plot self.now) }
    {
        match self {
            Tree::Leaf(_) => false,
            Tree::Quarters(four) => {
                four.northeast.is_same_leaf(&four.northwest)
                    && four.northeast.is_same_leaf(&four.southwest)
                    && four.northeast.is_same_leaf(&four.southeast)
            }
        }
    }

    // Joins the quarters where they are leaves that have the same holding; else nothing is moved. Takes no memory.
    #[tactic(auto, using(crate::proofs::Joins::not_joined))]
    fn join(&mut self)
        ensures joined { plot self.new ≡ joined (plot self.old) }
    {
        if self.is_joinable() {
            replace_with(self, (), |tree, ()| (tree.joined(), ()));
        }
    }

    /// Joins quarters that are leaves of the same holding, from below; no cell's holding changes. Takes no memory.
    pub fn tidy(&mut self)
        ensures tidied { plot self.new ≡ tidied (plot self.old) }
    {
        if let Tree::Quarters(four) = self {
            four.northeast.tidy();
            four.northwest.tidy();
            four.southwest.tidy();
            four.southeast.tidy();
        }
        self.join();
    }

    /// Joins quarters below a path and then those above it; elsewhere nothing is looked at, so it costs what a walk of the
    /// path and of what stands there does. No cell's holding changes. Takes no memory.
    pub fn tidy_at(&mut self, path: Path)
        ensures tidied { plot self.new ≡ tidied_at path (plot self.old) }
    {
        let Some((first, rest)) = path.split() else {
            self.tidy();
            return;
        };
        if let Tree::Quarters(four) = self {
            match first {
                Quarter::Northeast => {
                    four.northeast.tidy_at(rest);
                    self.join();
                }
                Quarter::Northwest => {
                    four.northwest.tidy_at(rest);
                    self.join();
                }
                Quarter::Southwest => {
                    four.southwest.tidy_at(rest);
                    self.join();
                }
                Quarter::Southeast => {
                    four.southeast.tidy_at(rest);
                    self.join();
                }
            }
        }
    }
}
