//! The townships of a plant, one list for each estate.

ghost use Rattle.std.specs.Prelude.{◌≡◌, ◌≢◌, ℕ, ◌<◌, ◌≤◌, ◌&&◌, ◌||◌, ◌++◌, ◌∷◌, [], true, false, cond, None, length, map, IfOk, OnOk};
ghost use Rattle.std.specs.{Prelude.{OnErr, IfErr}, List.{list_all, list_any}};
ghost use Rattle.title_share.specs.Division.{all_to};
ghost use Rattle.title_instrument.specs.{Effect.{holding_effect}, Estates.{names}, Parties.{estates_of}};
ghost use Rattle.title_tree.specs.{Changes.{after}, Faults.{Tells}, Pieces.{paths, swapped, taken}, Trees.{plot}};
ghost use Rattle.title_tree.specs.Pieces.{fresh, refusal_at, split_all, Disjoint, InOrder, Ready, Refines, StaysWithin, StaysElsewhere};
ghost use Rattle.title_tree.specs.Plots.{Same, changed, first_refusal, tidied};
ghost use Rattle.title_tree_store.specs.Grounds.{is_parted, stands, ground_tidy, plot_in, parted_in, closable_in, Everywhere, IsTidied};
ghost use Rattle.title_tree_store.specs.Grounds.{AreSplit, AreUntouched, IsUntouched};
ghost use Rattle.title_tree_store.specs.{Grounds.{TellsSomewhere}, Spots.{paths_in, ways_at, is_in_township, reaches, IsHome}};
ghost use Rattle.title_tree_store.specs.Forests.{Each, IsChange, IsExchanged, AreAll, AreHomes, IsMade, IsQuartered, HasNote};
ghost use Rattle.title_tree_store.specs.Forests.{grounds, plots, pieces, parts_of, parts_at, squares_in, are_squares, is_some_part};
ghost use Rattle.title_tree_store.specs.Forests.{IsTidy, IsMadeFor, IsSettled, IsRejoined};
ghost use Rattle.title_tree_store.specs.Forests.{IsNoted, AreTidied, wants, brings, named_ways, refusal_in, writes, put_ways, are_joined};

use crate::ground::Ground;
use crate::passing::{Moved, Passing};
use crate::spots::{Home, Paths};
use std::alloc::{AllocError, Global};
use std::mem;
use std::sync::Arc;
use title_instrument::{Estate, Estates, Instrument, Rule};
use title_share::Holding;
use title_tree::{Fault, Part, Path, Tree};

/// What a put wrote: where, the paths down to which it quartered a section's trees, and the estates.
#[derive(Drop)]
pub(crate) struct Written {
    pub home: Home,
    pub estates: Estates,
    pub paths: Paths,
}

/// The townships of each estate.
#[derive(Drop)]
pub(crate) struct Forest {
    pub s: Vec<Ground>,
    pub o: Vec<Ground>,
    pub m: Vec<Ground>,
    // What was written since the trees were last joined, put by put.
    pub written: Vec<Written>,
}

/// Parts of an estate: of a section, where one alone takes no list, or a township, or all of them.
#[derive(Drop)]
pub(crate) enum Parts {
    Nothing,
    One(Part),
    Many(Vec<Part>),
    Township(Box<Ground>),
    Plant(Vec<Ground>),
}

/// Parts of each estate, which lie in one place.
#[derive(Drop)]
pub(crate) struct Subtrees {
    pub s: Parts,
    pub o: Parts,
    pub m: Parts,
}

impl Parts {
    // Each part changes places with what stands where it lies. Takes no memory.
    #[tactic(auto, using(crate::proofs::GroundLawsPlaces::township_tests))]
    fn exchange(&mut self, grounds: &mut Vec<Ground>, home: Home)
        requires there { IsHome (length grounds.old.items) home }
        requires all { AreAll (length grounds.old.items) self.old }
        requires wanted { (i : ℕ) → wants home self.old i ≡ true → parted_in grounds.old.items i ≡ true }
        requires goes { Everywhere (length grounds.old.items) (λ i j. Disjoint (paths (parts_at home self.old i j))
            × Ready (paths (parts_at home self.old i j)) (plot_in grounds.old.items i j)) }
        ensures sized { length grounds.new.items ≡ length grounds.old.items }
        ensures all { AreAll (length grounds.old.items) self.new }
        ensures grounds { Everywhere (length grounds.old.items) (λ i j. plot_in grounds.new.items i j
            ≡ swapped (parts_at home self.old i j) (plot_in grounds.old.items i j)) }
        ensures parts { Everywhere (length grounds.old.items) (λ i j. parts_at home self.new i j
            ≡ taken (parts_at home self.old i j) (plot_in grounds.old.items i j)) }
        ensures parted { (i : ℕ) → parted_in grounds.old.items i ≡ true → brings home self.old i ≡ true
            → parted_in grounds.new.items i ≡ true }
        ensures brings { (i : ℕ) → parted_in grounds.old.items i ≡ true → brings home self.new i ≡ true }
        ensures wants { (i : ℕ) → wants home self.new i ≡ wants home self.old i }
        ensures elsewhere { (i : ℕ) → (is_some_part self.old && reaches home i) ≡ false
            → closable_in grounds.new.items i ≡ closable_in grounds.old.items i }
        ensures some { is_some_part self.new ≡ is_some_part self.old }
    {
        match home {
            Home::Everything => if let Parts::Plant(all) = self {
                mem::swap(all, grounds);
            },
            Home::Township(township) => if let Parts::Township(ground) = self {
                mem::swap(ground.as_mut(), &mut grounds[township as usize]);
            },
            Home::Section(index, township) => match self {
                Parts::One(part) => grounds[township as usize].exchange(index as usize, part),
                Parts::Many(parts) => grounds[township as usize].exchange_all(
                    index as usize,
                    parts,
                ),
                _ => {}
            },
        }
    }

    // The same; then what can be joined there is: parts of a section on the way down to their paths and up again.
    #[tactic(auto, using(crate::proofs::GroundLawsPlaces::township_tests))]
    fn settle(&mut self, grounds: &mut Vec<Ground>, put: &Written, estate: Estate)
        requires there { IsHome (length grounds.old.items) put.now.home }
        requires made { IsMadeFor put.now estate self.old grounds.old.items }
        ensures tidied { Everywhere (length grounds.old.items) (λ i j. IsTidied (put_ways estate i j put.now ∷ [])
            (swapped (parts_at put.now.home self.old i j) (plot_in grounds.old.items i j)) (plot_in grounds.new.items i j)) }
        ensures closed { (i : ℕ) → writes estate i put.now ≡ true → closable_in grounds.new.items i ≡ false }
        ensures others { (i : ℕ) → writes estate i put.now ≡ false → closable_in grounds.new.items i ≡ closable_in grounds.old.items i }
        ensures sized { length grounds.new.items ≡ length grounds.old.items }
    {
        if let Home::Section(index, township) = put.home {
            match self {
                Parts::One(part) => {
                    grounds[township as usize].settle(index as usize, part);
                    return;
                }
                Parts::Many(parts) => {
                    grounds[township as usize].settle_all(index as usize, parts);
                    return;
                }
                _ => {}
            }
        }
        self.exchange(grounds, put.home);
        tidy_put(grounds, put, estate);
    }
}

// So many townships in which party 0 has the whole of each cell.
fn opening(alloc: Global, count: usize) -> Result<Vec<Ground>, AllocError>
    ensures sized { IfOk result (λ gs. length gs.items ≡ count) }
    ensures opening { IfOk result (λ gs. Everywhere count (λ i j. plot_in gs.items i j ≡ Same (all_to 0))) }
    ensures closed { IfOk result (λ gs. (i : ℕ) → closable_in gs.items i ≡ false) }
{
    let held = Arc::new(alloc, Holding::whole(alloc, 0)?)?;
    let mut grounds = Vec::with_capacity(alloc, count)?;
    while grounds.len() < count {
        let tree = Tree::Leaf(held.clone()?);
        grounds.push_reserved(Ground::Whole(tree));
    }
    Ok(grounds)
}

/// Whether an instrument names an estate.
pub(crate) fn names(instrument: &Instrument, estate: Estate) -> bool
    ensures names { result ≡ names (estates_of instrument.now) estate }
{
    instrument.estates().has(estate)
}

// What stands at some paths of a section's tree, after an instrument; the tree is quartered down to each. Refused as the first leaf that
// refuses. A list is made once nothing refuses at the first path, where there are more. After `Err` it may be quartered down to some:
// `quartered` tells whether it may.
fn changed_at(
    alloc: Global,
    ground: &mut Ground,
    index: usize,
    paths: &[Path],
    passing: &mut Passing,
    quartered: &mut bool,
) -> Result<Parts, Fault<Rule>>
    requires section { index < 36 }
    requires disjoint { Disjoint paths.now }
    ensures none { OnOk result (refusal_at (holding_effect passing.old.instrument passing.old.estate) paths.now
        (stands ground.old index) ≡ None) }
    ensures new { IfOk result (λ parts. squares_in parts
        ≡ fresh (after (holding_effect passing.old.instrument passing.old.estate)) paths.now (stands ground.old index)) }
    ensures squares { IfOk result (λ parts. are_squares parts ≡ true) }
    ensures some { IfOk result (λ parts. is_some_part parts ≡ true → paths.now ≢ []) }
    ensures parted { IfOk result (λ parts. is_some_part parts ≡ true → is_parted ground.new ≡ true) }
    ensures split { OnOk result (stands ground.new index ≡ split_all paths.now (stands ground.old index)) }
    ensures why { IfErr result (λ f. Tells f (refusal_at (holding_effect passing.old.instrument passing.old.estate) paths.now
        (stands ground.old index))) }
    ensures err { OnErr result (Refines (stands ground.old index) (stands ground.new index)) }
    ensures err_fits { OnErr result (StaysWithin paths.now (stands ground.old index) (stands ground.new index)) }
    ensures err_elsewhere { OnErr result (StaysElsewhere paths.now (stands ground.old index) (stands ground.new index)) }
    ensures others { (j : ℕ) → j < 36 → j ≢ index → stands ground.new j ≡ stands ground.old j }
    ensures kept { is_parted ground.old ≡ true → is_parted ground.new ≡ true }
    ensures quartered { quartered.old ≡ true → quartered.new ≡ true }
    ensures left { quartered.new ≡ false → IsUntouched ground.old ground.new }
{
    let Some((first, rest)) = paths.split_first() else {
        return Ok(Parts::Nothing);
    };
    let tree = ground.changed_at(alloc, index, *first, passing)?;
    *quartered = true;
    let part = Part { path: *first, tree };
    if rest.is_empty() {
        return Ok(Parts::One(part));
    }
    let mut parts = Vec::with_capacity(alloc, paths.len())?;
    parts.push_reserved(part);
    ground.add_changed(alloc, index, rest, passing, &mut parts)?;
    Ok(Parts::Many(parts))
}

// All townships after an instrument. Refused with the reason of some leaf.
fn changed_all(
    alloc: Global,
    grounds: &[Ground],
    passing: &mut Passing,
) -> Result<Vec<Ground>, Fault<Rule>>
    ensures sized { IfOk result (λ gs. length gs.items ≡ length grounds.now) }
    ensures none { OnOk result (Everywhere (length grounds.now) (λ i j. first_refusal
        (holding_effect passing.old.instrument passing.old.estate) (plot_in grounds.now i j) ≡ None)) }
    ensures new { IfOk result (λ gs. Everywhere (length grounds.now) (λ i j. plot_in gs.items i j
        ≡ changed (after (holding_effect passing.old.instrument passing.old.estate)) (plot_in grounds.now i j))) }
    ensures parted { IfOk result (λ gs. (i : ℕ) → parted_in gs.items i ≡ parted_in grounds.now i) }
    ensures why { IfErr result (λ f. TellsSomewhere f (length grounds.now) (λ i j. first_refusal
        (holding_effect passing.old.instrument passing.old.estate) (plot_in grounds.now i j))) }
{
    let mut made = Vec::with_capacity(alloc, grounds.len())?;
    for ground in grounds {
        let changed = ground.changed(alloc, passing)?;
        made.push_reserved(changed);
    }
    Ok(made)
}

// What stands somewhere, after an instrument; trees are quartered down to the paths. Refused with the reason of some leaf. After `Err`
// they may be quartered down to some: `quartered` tells whether they may.
#[tactic(auto, using(crate::proofs::GroundLawsPlaces::township_tests))]
fn changed_there(
    alloc: Global,
    grounds: &mut Vec<Ground>,
    home: Home,
    paths: &[Path],
    passing: &mut Passing,
    quartered: &mut bool,
) -> Result<Parts, Fault<Rule>>
    requires there { IsHome (length grounds.old.items) home }
    requires disjoint { Disjoint paths.now }
    ensures none { OnOk result (Everywhere (length grounds.old.items) (λ i j. refusal_at
        (holding_effect passing.old.instrument passing.old.estate) (ways_at home paths.now i j) (plot_in grounds.old.items i j) ≡ None)) }
    ensures new { IfOk result (λ parts. Everywhere (length grounds.old.items) (λ i j. parts_at home parts i j
        ≡ fresh (after (holding_effect passing.old.instrument passing.old.estate)) (ways_at home paths.now i j)
        (plot_in grounds.old.items i j))) }
    ensures all { IfOk result (AreAll (length grounds.old.items)) }
    ensures some { IfOk result (λ parts. (i : ℕ) → wants home parts i ≡ true → paths.now ≢ []) }
    ensures brings { IfOk result (λ parts. (i : ℕ) → parted_in grounds.old.items i ≡ true → brings home parts i ≡ true) }
    ensures wanted { IfOk result (λ parts. (i : ℕ) → wants home parts i ≡ true → parted_in grounds.new.items i ≡ true) }
    ensures ok { OnOk result (Everywhere (length grounds.old.items) (λ i j. plot_in grounds.new.items i j
        ≡ split_all (ways_at home paths.now i j) (plot_in grounds.old.items i j))) }
    ensures split { AreSplit (ways_at home paths.now) (ways_at home paths.now) (reaches home) grounds.old.items grounds.new.items }
    ensures why { IfErr result (λ f. TellsSomewhere f (length grounds.old.items) (λ i j. refusal_at
        (holding_effect passing.old.instrument passing.old.estate) (ways_at home paths.now i j) (plot_in grounds.old.items i j))) }
    ensures quartered { quartered.old ≡ true → quartered.new ≡ true }
    ensures left { quartered.new ≡ false → AreUntouched grounds.old.items grounds.new.items }
{
    match home {
        Home::Everything => Ok(Parts::Plant(changed_all(alloc, grounds, passing)?)),
        Home::Township(index) => {
            let ground = grounds[index as usize].changed(alloc, passing)?;
            match Box::new(alloc, ground) {
                Ok(ground) => Ok(Parts::Township(ground)),
                Err(_) => Err(Fault::Memory),
            }
        }
        Home::Section(index, township) => changed_at(
            alloc,
            &mut grounds[township as usize],
            index as usize,
            paths,
            passing,
            quartered,
        ),
    }
}

// What goes from estate to estate while a post is made: what was made last, and whether trees were quartered.
#[derive(Drop)]
struct Making {
    last: Option<Moved>,
    quartered: bool,
}

// The same, where it names the estate; else nothing.
fn changed(
    alloc: Global,
    grounds: &mut Vec<Ground>,
    home: Home,
    paths: &[Path],
    instrument: &Instrument,
    estate: Estate,
    making: &mut Making,
) -> Result<Parts, Fault<Rule>>
    requires there { IsHome (length grounds.old.items) home }
    requires disjoint { Disjoint paths.now }
    ensures change { IfOk result (λ parts. Everywhere (length grounds.old.items) (λ i j. IsChange instrument.now estate
        (ways_at home paths.now i j) (plot_in grounds.old.items i j) (parts_at home parts i j))) }
    ensures all { IfOk result (AreAll (length grounds.old.items)) }
    ensures named { IfOk result (λ parts. is_some_part parts ≡ true → names (estates_of instrument.now) estate ≡ true) }
    ensures some { IfOk result (λ parts. (i : ℕ) → wants home parts i ≡ true → paths.now ≢ []) }
    ensures brings { IfOk result (λ parts. (i : ℕ) → parted_in grounds.old.items i ≡ true → brings home parts i ≡ true) }
    ensures wanted { IfOk result (λ parts. (i : ℕ) → wants home parts i ≡ true → parted_in grounds.new.items i ≡ true) }
    ensures ok { OnOk result (Everywhere (length grounds.old.items) (λ i j. plot_in grounds.new.items i j
        ≡ split_all (named_ways instrument.now estate (ways_at home paths.now i j)) (plot_in grounds.old.items i j))) }
    ensures split { AreSplit (ways_at home paths.now) (λ i j. named_ways instrument.now estate (ways_at home paths.now i j))
        (λ i. names (estates_of instrument.now) estate && reaches home i) grounds.old.items grounds.new.items }
    ensures why { IfErr result (λ f. TellsSomewhere f (length grounds.old.items) (λ i j. refusal_in instrument.now estate
        (ways_at home paths.now i j) (plot_in grounds.old.items i j))) }
    ensures quartered { making.old.quartered ≡ true → making.new.quartered ≡ true }
    ensures left { making.new.quartered ≡ false → AreUntouched grounds.old.items grounds.new.items }
{
    if !names(instrument, estate) {
        return Ok(Parts::Nothing);
    }
    let mut passing = Passing {
        instrument: *instrument,
        estate,
        last: making.last.take(),
    };
    let quartered = &mut making.quartered;
    let parts = changed_there(alloc, grounds, home, paths, &mut passing, quartered)?;
    making.last = passing.last.take();
    Ok(parts)
}

// Joins quarters below and above the paths of a put, and sections, where it wrote the estate.
#[tactic(auto, using(crate::proofs::GroundLawsPlaces::township_tests))]
fn tidy_put(grounds: &mut [Ground], put: &Written, estate: Estate)
    requires there { IsHome (length grounds.old) put.now.home }
    ensures tidied { Everywhere (length grounds.old) (λ i j. IsTidied (put_ways estate i j put.now ∷ [])
        (plot_in grounds.old i j) (plot_in grounds.new i j)) }
    ensures closed { (i : ℕ) → writes estate i put.now ≡ true → closable_in grounds.new i ≡ false }
    ensures others { (i : ℕ) → writes estate i put.now ≡ false → closable_in grounds.new i ≡ closable_in grounds.old i }
    ensures sized { length grounds.new ≡ length grounds.old }
{
    if !put.estates.has(estate) {
        return;
    }
    match put.home {
        Home::Everything => tidy_each(grounds),
        Home::Township(index) => grounds[index as usize].tidy(),
        Home::Section(index, township) => {
            grounds[township as usize].tidy_at(index as usize, put.paths.as_slice())
        }
    }
}

// Joins what can be joined in each township.
fn tidy_each(grounds: &mut [Ground])
    ensures tidied { Everywhere (length grounds.old) (λ i j. plot_in grounds.new i j ≡ tidied (plot_in grounds.old i j)) }
    ensures closed { (i : ℕ) → closable_in grounds.new i ≡ false }
    ensures sized { length grounds.new ≡ length grounds.old }
{
    if let Some((first, rest)) = grounds.split_first_mut() {
        first.tidy();
        tidy_each(rest);
    }
}

// Joins quarters below and above the paths of each put that wrote the estate, and sections.
fn tidy_written(grounds: &mut [Ground], written: &[Written], estate: Estate)
    requires there { AreHomes (length grounds.old) written.now }
    ensures tidied { AreTidied estate written.now grounds.old grounds.new }
{
    for put in written {
        tidy_put(grounds, put, estate);
    }
}

// Whether no township could be joined to fewer nodes.
fn are_tidy(grounds: &[Ground]) -> bool
    ensures tidy { result ≡ list_all ground_tidy grounds.now }
{
    grounds.iter().all(|ground| ground.is_tidy())
}

impl Forest {
    /// So many townships before any instrument.
    pub(crate) fn open(alloc: Global, count: usize) -> Result<Forest, AllocError>
        ensures sized { Each (λ e. IfOk result (λ f. length (grounds f e) ≡ count)) }
        ensures opening { Each (λ e. IfOk result (λ f. Everywhere count (λ i j. plots f e i j ≡ Same (all_to 0)))) }
        ensures closed { Each (λ e. IfOk result (λ f. (i : ℕ) → closable_in (grounds f e) i ≡ false)) }
        ensures written { IfOk result (λ f. f.written.items ≡ []) }
    {
        let s = opening(alloc, count)?;
        let o = opening(alloc, count)?;
        let m = opening(alloc, count)?;
        let written = Vec::new(alloc);
        Ok(Forest { s, o, m, written })
    }

    /// The townships of an estate.
    pub(crate) fn of(&self, estate: Estate) -> &[Ground]
        ensures of { result.now ≡ grounds self.now estate }
    {
        match estate {
            Estate::S => &self.s,
            Estate::O => &self.o,
            Estate::M => &self.m,
        }
    }

    /// Each part changes places with what stands where it lies. Takes no memory.
    pub(crate) fn exchange(&mut self, home: Home, parts: &mut Subtrees)
        requires there { Each (λ e. IsHome (length (grounds self.old e)) home) }
        requires all { Each (λ e. AreAll (length (grounds self.old e)) (parts_of parts.old e)) }
        requires wanted { Each (λ e. (i : ℕ) → wants home (parts_of parts.old e) i ≡ true
            → parted_in (grounds self.old e) i ≡ true) }
        requires goes { Each (λ e. Everywhere (length (grounds self.old e)) (λ i j. Disjoint (paths (pieces home parts.old e i j))
            × Ready (paths (pieces home parts.old e i j)) (plots self.old e i j))) }
        ensures exchanged { Each (λ e. IsExchanged e home parts.old parts.new self.old self.new) }
        ensures written { self.new.written ≡ self.old.written }
    {
        parts.s.exchange(&mut self.s, home);
        parts.o.exchange(&mut self.o, home);
        parts.m.exchange(&mut self.m, home);
    }

    // What stands somewhere, after an instrument; the trees of the estates that it names are quartered down to each path. Refused by a
    // rule of some leaf. After `Err` they may be quartered down to some.
    #[inline(always)]
    fn made(
        &mut self,
        alloc: Global,
        home: Home,
        paths: &[Path],
        instrument: &Instrument,
        making: &mut Making,
    ) -> Result<Subtrees, Fault<Rule>>
        requires there { Each (λ e. IsHome (length (grounds self.old e)) home) }
        requires disjoint { Disjoint paths.now }
        ensures made { IfOk result (IsMade instrument.now home paths.now self.old self.new) }
        ensures split { IsQuartered instrument.now home paths.now self.old self.new }
        ensures why { IfErr result (λ f. (e : Estate) × TellsSomewhere f (length (grounds self.old e)) (λ i j. refusal_in instrument.now e
            (ways_at home paths.now i j) (plots self.old e i j))) }
        ensures written { self.new.written ≡ self.old.written }
        ensures left { making.new.quartered ≡ false → Each (λ e. AreUntouched (grounds self.old e) (grounds self.new e)) }
    {
        let s = changed(
            alloc,
            &mut self.s,
            home,
            paths,
            instrument,
            Estate::S,
            making,
        )?;
        let o = changed(
            alloc,
            &mut self.o,
            home,
            paths,
            instrument,
            Estate::O,
            making,
        )?;
        let m = changed(
            alloc,
            &mut self.m,
            home,
            paths,
            instrument,
            Estate::M,
            making,
        )?;
        Ok(Subtrees { s, o, m })
    }

    /// What stands somewhere, after an instrument; no cell changes, but the trees of the estates that it names are quartered down to each
    /// path, and where, the paths and the estates are kept for `tidy`. Refused by a rule of some leaf. After `Err` they may be quartered
    /// down to some; where none is, nothing is kept.
    #[inline(always)]
    pub(crate) fn changed(
        &mut self,
        alloc: Global,
        home: Home,
        paths: Paths,
        instrument: &Instrument,
    ) -> Result<Subtrees, Fault<Rule>>
        requires there { Each (λ e. IsHome (length (grounds self.old e)) home) }
        requires disjoint { Disjoint (paths_in paths) }
        ensures made { IfOk result (IsMade instrument.now home (paths_in paths) self.old self.new) }
        ensures split { IsQuartered instrument.now home (paths_in paths) self.old self.new }
        ensures why { IfErr result (λ f. (e : Estate) × TellsSomewhere f (length (grounds self.old e)) (λ i j. refusal_in instrument.now e
            (ways_at home (paths_in paths) i j) (plots self.old e i j))) }
        ensures noted { OnOk result (HasNote instrument.now home (paths_in paths) self.old self.new) }
        ensures err_noted { OnErr result (IsNoted instrument.now home (paths_in paths) self.old self.new) }
    {
        self.written.reserve(1)?;
        let estates = instrument.estates();
        let mut making = Making {
            last: None,
            quartered: false,
        };
        let made = self.made(alloc, home, paths.as_slice(), instrument, &mut making);
        if made.is_ok() || making.quartered {
            self.written.push_reserved(Written {
                home,
                estates,
                paths,
            });
        }
        made
    }

    // Joins quarters below and above each path of a put, and sections, in the estates that it wrote. Takes no memory.
    fn tidy_after(&mut self, put: &Written)
        requires there { Each (λ e. IsHome (length (grounds self.old e)) put.now.home) }
        ensures tidied { Each (λ e. Everywhere (length (grounds self.old e)) (λ i j. IsTidied (put_ways e i j put.now ∷ [])
            (plots self.old e i j) (plots self.new e i j))) }
        ensures closed { Each (λ e. (i : ℕ) → writes e i put.now ≡ true → closable_in (grounds self.new e) i ≡ false) }
        ensures others { Each (λ e. (i : ℕ) → writes e i put.now ≡ false
            → closable_in (grounds self.new e) i ≡ closable_in (grounds self.old e) i) }
        ensures sized { Each (λ e. length (grounds self.new e) ≡ length (grounds self.old e)) }
        ensures written { self.new.written ≡ self.old.written }
    {
        tidy_put(&mut self.s, put, Estate::S);
        tidy_put(&mut self.o, put, Estate::O);
        tidy_put(&mut self.m, put, Estate::M);
    }

    /// An instrument is put in for good: what stands somewhere after it takes the place of what stood there, and what can be joined is.
    /// Refused by a rule of some leaf. After `Err` no cell has changed, and what was quartered is joined.
    #[inline(always)]
    pub(crate) fn put_alone(
        &mut self,
        alloc: Global,
        home: Home,
        paths: Paths,
        instrument: &Instrument,
    ) -> Result<(), Fault<Rule>>
        requires there { Each (λ e. IsHome (length (grounds self.old e)) home) }
        requires disjoint { Disjoint (paths_in paths) }
        requires order { InOrder (paths_in paths) }
        requires tidy { IsTidy self.old }
        ensures settled { OnOk result (Each (λ e. Everywhere (length (grounds self.old e)) (λ i j. IsSettled instrument.now e
            (ways_at home (paths_in paths) i j) (plots self.old e i j) (plots self.new e i j)))) }
        ensures stopped { OnErr result (Each (λ e. Everywhere (length (grounds self.old e)) (λ i j. IsRejoined
            (ways_at home (paths_in paths) i j) (plots self.old e i j) (plots self.new e i j)))) }
        ensures why { IfErr result (λ f. (e : Estate) × TellsSomewhere f (length (grounds self.old e)) (λ i j. refusal_in instrument.now e
            (ways_at home (paths_in paths) i j) (plots self.old e i j))) }
        ensures tidy { IsTidy self.new }
        ensures sized { Each (λ e. length (grounds self.new e) ≡ length (grounds self.old e)) }
        ensures written { self.new.written ≡ self.old.written }
    {
        let put = Written {
            home,
            estates: instrument.estates(),
            paths,
        };
        let mut making = Making {
            last: None,
            quartered: false,
        };
        match self.made(alloc, home, put.paths.as_slice(), instrument, &mut making) {
            Ok(mut parts) => {
                parts.s.settle(&mut self.s, &put, Estate::S);
                parts.o.settle(&mut self.o, &put, Estate::O);
                parts.m.settle(&mut self.m, &put, Estate::M);
                Ok(())
            }
            Err(fault) => {
                if making.quartered {
                    self.tidy_after(&put);
                }
                Err(fault)
            }
        }
    }

    /// Whether no tree could be joined to fewer nodes.
    pub(crate) fn is_tidy(&self) -> bool
        ensures tidy { result ≡ are_joined self.now }
    {
        are_tidy(&self.s) && are_tidy(&self.o) && are_tidy(&self.m)
    }

    /// Joins quarters that are leaves of the same holding, below and above each path written since this was last done, and sections,
    /// in the estates that were written. Takes no memory.
    pub(crate) fn tidy(&mut self)
        requires there { Each (λ e. AreHomes (length (grounds self.old e)) self.old.written.items) }
        ensures tidied { Each (λ e. AreTidied e self.old.written.items (grounds self.old e) (grounds self.new e)) }
        ensures written { self.new.written.items ≡ [] }
    {
        if self.written.is_empty() {
            return;
        }
        tidy_written(&mut self.s, &self.written, Estate::S);
        tidy_written(&mut self.o, &self.written, Estate::O);
        tidy_written(&mut self.m, &self.written, Estate::M);
        self.written.clear();
    }
}
