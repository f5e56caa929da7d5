//! The walk over what an access asks for.

ghost use Rattle.std.specs.Prelude.{◌≡◌, ◌∷◌, [], Some, None, MatchOption, IfSome, IfNone};
ghost use Rattle.title_land.specs.Nodes.{above};
ghost use Rattle.title_lock.specs.{Overlaps.{is_post}, Asking.{own_mode, above_mode}};
ghost use Rattle.title_lock.specs.Walks.{mode_for, is_known, asks_above, walk, node_of, climb_left, walk_left};

use crate::guards::Access;
use crate::modes::Mode;
use crate::spots::Spot;
use title_land::Node;

/// A node that is asked for. Those above it come after it, up to one that lies above the node of the cover before.
#[derive(Clone, Copy)]
pub(crate) struct Climb {
    pub(crate) spot: Spot,
    // Whether it is a node of the cover; else it lies above one.
    is_own: bool,
    // The node of the cover before, if there is one.
    last: Option<Spot>,
}

/// What an access asks for: each node of a cover, and then those above it. A node that lies above the node of the cover before was
/// asked for with that one, and so were all nodes above it.
#[derive(Drop)]
pub(crate) struct Walk<'a> {
    // The nodes of the cover that are to come, and the one before.
    nodes: &'a [Node],
    last: Option<Spot>,
    // What comes first.
    climb: Option<Climb>,
}

/// The mode that an access asks of a node of the cover.
pub(crate) fn own_mode(access: Access) -> Mode
    ensures own { result ≡ own_mode (is_post access) }
{
    match access {
        Access::Read => Mode::S,
        Access::Post => Mode::X,
    }
}

/// The mode that an access asks of each node above.
pub(crate) fn above_mode(access: Access) -> Mode
    ensures above { result ≡ above_mode (is_post access) }
{
    match access {
        Access::Read => Mode::Is,
        Access::Post => Mode::Ix,
    }
}

// Whether a node lies above the one before.
#[inline(always)]
fn is_known(last: &Option<Spot>, spot: &Spot) -> bool
    ensures known { result ≡ is_known (node_of last.now) spot.now.is.node }
{
    match last {
        Some(last) => spot.is_above(last),
        None => false,
    }
}

impl Climb {
    /// The mode that an access asks here.
    pub(crate) fn mode(&self, access: Access) -> Mode
        ensures mode { result ≡ mode_for (is_post access) self.now.is_own }
    {
        if self.is_own {
            own_mode(access)
        } else {
            above_mode(access)
        }
    }

    // What comes after it.
    #[tactic(auto, using(crate::proofs::WalkLaws::known_stops, crate::proofs::WalkLaws::unknown_goes, crate::proofs::WalkLaws::none_above))]
    #[inline(always)]
    fn above(&self) -> Option<Climb>
        ensures above { climb_left result ≡ asks_above (node_of self.now.last) (above self.now.spot.is.node) }
    {
        let parent = self.spot.parent()?;
        if is_known(&self.last, &parent) {
            return None;
        }
        Some(Climb {
            spot: parent,
            is_own: false,
            last: self.last,
        })
    }
}

impl<'a> Walk<'a> {
    /// The walk over a cover.
    #[inline(always)]
    pub(crate) fn of(cover: &'a [Node]) -> Walk<'a>
        ensures of { walk_left result ≡ walk None cover.now }
        ensures climb { result.climb ≡ None }
        ensures last { result.last ≡ None }
    {
        Walk {
            nodes: cover,
            last: None,
            climb: None,
        }
    }

    /// The next node.
    #[inline(always)]
    pub(crate) fn next(&mut self) -> Option<Climb>
        ensures next { MatchOption result (walk_left self.old ≡ [])
            (λ c. walk_left self.old ≡ (c.spot.is.node, c.is_own) ∷ walk_left self.new) }
        ensures above { IfSome result (λ c. climb_left self.new.climb ≡ asks_above (node_of c.last) (above c.spot.is.node)) }
        ensures goes { IfSome self.old.climb (λ d. result ≡ Some d) }
        ensures stays { IfSome self.old.climb (λ d. self.new.last ≡ self.old.last) }
        ensures begins { IfNone self.old.climb (IfSome result (λ c. c.last ≡ self.old.last)) }
        ensures last { IfNone self.old.climb (IfSome result (λ c. self.new.last ≡ Some c.spot)) }
    {
        let climb = match self.climb {
            Some(climb) => climb,
            None => {
                let (node, nodes) = self.nodes.split_first()?;
                let climb = Climb {
                    spot: Spot::of(node),
                    is_own: true,
                    last: self.last,
                };
                self.nodes = nodes;
                self.last = Some(climb.spot);
                climb
            }
        };
        self.climb = climb.above();
        Some(climb)
    }

    /// Leaves out what is still to come above the node that came last.
    #[inline(always)]
    pub(crate) fn skip(&mut self)
        ensures skip { walk_left self.new ≡ walk (node_of self.old.last) self.old.nodes.now }
        ensures climb { self.new.climb ≡ None }
        ensures last { self.new.last ≡ self.old.last }
    {
        self.climb = None;
    }
}
