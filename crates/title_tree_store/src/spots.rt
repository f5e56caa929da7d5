//! Where tracts lie in a store.

ghost use Rattle.std.specs.Prelude.{◌≡◌, ◌++◌, ◌∷◌, [], true, length, OnOk, IfOk};
ghost use Rattle.title_land.specs.Lands.{is_in_plant};
ghost use Rattle.title_tree_store.specs.Spots.{home_in, tract_ways, paths_in, IsHome};

use crate::townships::Townships;
use std::alloc::{AllocError, Global};
use std::slice;
use title_land::{Node, Tract};
use title_tree::Path;

/// Where a tract lies: in all townships, in that of an index, or in a section, counted from 0, of that one. It takes four bytes.
#[derive(Clone, Copy)]
pub(crate) enum Home {
    Everything,
    Township(u16),
    Section(u8, u16),
}

/// Paths of nodes: one alone takes no memory.
#[derive(Drop)]
pub(crate) enum Paths {
    Nothing,
    One(Path),
    Many(Vec<Path>),
}

impl Paths {
    // Adds a path at the end.
    fn add(&mut self, alloc: Global, path: Path) -> Result<(), AllocError>
        ensures paths { OnOk result (paths_in self.new ≡ paths_in self.old ++ path ∷ []) }
    {
        match self {
            Paths::Nothing => {
                *self = Paths::One(path);
                Ok(())
            }
            Paths::One(first) => {
                let mut paths = Vec::with_capacity(alloc, 4)?;
                paths.push(*first)?;
                paths.push(path)?;
                *self = Paths::Many(paths);
                Ok(())
            }
            Paths::Many(paths) => {
                paths.push(path)?;
                Ok(())
            }
        }
    }

    /// All of them in order.
    pub(crate) fn as_slice(&self) -> &[Path]
        ensures paths { result.now ≡ paths_in self.now }
    {
        match self {
            Paths::Nothing => &[],
            Paths::One(path) => slice::from_ref(path),
            Paths::Many(paths) => paths.as_slice(),
        }
    }
}

/// Where a tract lies.
#[tactic(auto, using(crate::proofs::CellPaths::index_below))]
pub(crate) fn home_of(townships: &Townships, tract: &Tract) -> Home
    requires within { is_in_plant townships.now tract.now ≡ true }
    ensures home { result ≡ home_in townships.now tract.now }
    ensures there { IsHome (length townships.now) result }
{
    match tract.home() {
        Node::Everything => Home::Everything,
        Node::Township(township) => Home::Township(townships.index_of(township)),
        Node::Part(section, _) => Home::Section(
            section.number - 1,
            townships.index_of(section.township),
        ),
    }
}

/// The paths of a tract's squares from their section.
pub(crate) fn ways(alloc: Global, tract: &Tract) -> Result<Paths, AllocError>
    ensures ways { IfOk result (λ paths. paths_in paths ≡ tract_ways tract.now) }
{
    let mut paths = Paths::Nothing;
    let cover = tract.cover();
    for node in cover {
        if let Node::Part(_, within) = node {
            let path = Path::root().inside_square(*within)?;
            paths.add(alloc, path)?;
        }
    }
    Ok(paths)
}
