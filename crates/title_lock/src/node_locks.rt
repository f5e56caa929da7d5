//! Locks that are listed while one examiner alone has any, or few are out, and else stand by node.

ghost use Rattle.std.specs.Prelude.{◌≡◌, [], reverse, OnOk, OnErr, IfOk};
ghost use Rattle.title_land.specs.Depth.{depth};
ghost use Rattle.title_lock.specs.{declared.modes.Mode.{Mode}, Books.{is_nothing}, Counts.{IsCount, in_order}, Holders.{count_in}};
ghost use Rattle.title_lock.specs.{Asking.{mode_at, AllGranted, AreSized}, Standing.{StandFree}};
ghost use Rattle.title_lock.specs.Locks.{Locks, shown, AreInOne};

use crate::counts::Counts;
use crate::guards::{Access, Guards, LockFault};
use crate::modes::Mode;
use crate::row_locks::{Row, RowLocks, counted, way};
use crate::spread_locks::SpreadLocks;
use std::alloc::{AllocError, Global};
use std::marker::Model;
use title_land::{Node, Tract};

// How many accesses may be listed once a second examiner has any. To go through so many costs a step no more than the nodes do,
// since one that lies in another section costs only a look at a number.
const LISTED: usize = 512;

// To how many of them an access may be held that is refused, which the nodes tell sooner.
const CROWD: usize = 64;

/// Where accesses stand.
#[derive(Clone, Copy)]
pub(crate) enum Layout {
    // In the list, all of them one examiner's: nobody is in its way, and the list isn't gone through.
    Alone(u32),
    // In the list.
    Listed,
    // By node.
    Spread,
}

/// Locks by node. While one examiner alone has accesses they are only listed, and nobody is in its way. They are listed as well
/// while several have few, and each step goes through the list. They are spread over the nodes when more come, or one is refused that
/// was held to many of them, and stay so until nobody has any: then each node in use has its holders and how many have each mode;
/// the counts decide, and the holders tell the least examiner in the way.
pub struct NodeLocks {
    alloc: Global,
    layout: Layout,
    listed: RowLocks,
    spread: SpreadLocks,
}

// By hand, so that whoever lets one go sees one call.
impl Drop for NodeLocks {
    fn drop(self) {
        let NodeLocks {
            alloc: _,
            layout: _,
            listed,
            spread,
        } = self;
        drop(listed);
        drop(spread);
    }
}

impl Model for NodeLocks {
    ghost Value = { Locks };

    ghost view = { λ l. shown l.layout l.listed l.spread };

    ghost invariant = { λ l. AreInOne l.layout l.listed.entries l.spread.entries };
}

// The locks by node of a list of entries, the oldest first.
fn spread_of(alloc: Global, rows: &[Row]) -> Result<SpreadLocks, AllocError>
    ensures spread { IfOk result (λ s. s.entries ≡ reverse rows.now) }
{
    let mut spread = SpreadLocks::new(alloc);
    for row in rows {
        let entry = row.entry();
        let Ok(()) = spread.ask(entry.examiner, &entry.tract, entry.access) else {
            return Err(AllocError);
        };
    }
    Ok(spread)
}

// Spreads what is listed over the nodes. An error leaves it listed.
fn spread_out(
    alloc: Global,
    listed: &mut RowLocks,
    spread: &mut SpreadLocks,
) -> Result<(), AllocError>
    ensures spread { OnOk result (spread.new.entries ≡ listed.old.entries) }
    ensures left { OnOk result (listed.new.entries ≡ []) }
    ensures err_spread { OnErr result (spread.new ≡ spread.old) }
    ensures err_listed { OnErr result (listed.new ≡ listed.old) }
{
    *spread = spread_of(alloc, listed.rows())?;
    *listed = RowLocks::new(alloc);
    Ok(())
}

impl NodeLocks {
    /// The law on modes holds of this table: its entries stand without overlap, each was granted by modes when it came, and
    /// their sets are as large as the grid. It does nothing: its type says so, and a proof may cite it.
    pub fn stand_granted(&self)
        ensures free { StandFree self.now.entries }
        ensures granted { AllGranted depth self.now.entries }
        ensures sized { AreSized depth self.now.entries }
    {
        match self.layout {
            Layout::Alone(_) | Layout::Listed => self.listed.stand_granted(),
            Layout::Spread => self.spread.stand_granted(),
        }
    }

    // How many examiners have each mode at a node.
    fn counts_at(&self, node: &Node) -> Counts
        ensures counts { (m : Mode) → IsCount (λ e. mode_at depth self.now.entries e node.now) m (count_in result m) }
    {
        match self.layout {
            Layout::Alone(owner) => Counts::of_one(self.listed.mode(owner, node)),
            Layout::Listed => counted(self.listed.rows(), node),
            Layout::Spread => self.spread.counts(node),
        }
    }

    /// How many examiners have each mode at a node, in the order IS, IX, S, SIX, X. Takes no memory.
    pub fn counts(&self, node: &Node) -> [u64; 5]
        ensures counts { (m : Mode) → IsCount (λ e. mode_at depth self.now.entries e node.now) m (in_order result m) }
    {
        self.counts_at(node).in_order()
    }

    // Whether nobody has an entry. What is prepared by node is forgotten.
    fn is_free(&mut self) -> bool
        ensures stays { self.new.entries ≡ self.old.entries }
        ensures free { result ≡ is_nothing self.new.entries }
    {
        match self.layout {
            Layout::Alone(_) | Layout::Listed => self.listed.rows().is_empty(),
            Layout::Spread => {
                self.spread.forget();
                self.spread.is_idle()
            }
        }
    }

    // Lists what comes from now on, as an examiner's, where nobody has an entry.
    fn begin(&mut self, examiner: u32)
        ensures stays { self.new.entries ≡ self.old.entries }
    {
        if self.is_free() {
            self.layout = Layout::Alone(examiner);
        }
    }
}

impl Guards for NodeLocks {
    ghost entries = { λ l. l.entries };

    ghost prepared = { λ l. l.prepared };

    fn new(alloc: Global) -> NodeLocks {
        NodeLocks {
            alloc,
            layout: Layout::Spread,
            listed: RowLocks::new(alloc),
            spread: SpreadLocks::new(alloc),
        }
    }

    fn would(&self, examiner: u32, tract: &Tract, access: Access) -> Option<u32> {
        match self.layout {
            Layout::Alone(owner) => if owner == examiner {
                None
            } else {
                self.listed.would(examiner, tract, access)
            },
            Layout::Listed => self.listed.would(examiner, tract, access),
            Layout::Spread => self.spread.would(examiner, tract, access),
        }
    }

    fn prepare(&mut self, examiner: u32, tract: &Tract, access: Access) -> Result<(), LockFault> {
        self.begin(examiner);
        if let Layout::Alone(owner) = self.layout {
            if owner == examiner {
                return self.listed.prepare_knowing(None, examiner, tract, access);
            }
            self.layout = Layout::Listed;
        }
        if let Layout::Listed = self.layout {
            let (way, met) = way(self.listed.rows(), examiner, tract, access);
            if self.listed.rows().len() < LISTED && (met < CROWD || way.is_none()) {
                return self.listed.prepare_knowing(way, examiner, tract, access);
            }
            if spread_out(self.alloc, &mut self.listed, &mut self.spread).is_err() {
                return Err(match way {
                    Some(other) => LockFault::Conflict(other),
                    None => LockFault::Memory,
                });
            }
            self.layout = Layout::Spread;
        }
        self.spread.prepare(examiner, tract, access)
    }

    fn grant(&mut self, examiner: u32, tract: &Tract, access: Access) {
        match self.layout {
            Layout::Alone(_) | Layout::Listed => self.listed.grant(examiner, tract, access),
            Layout::Spread => self.spread.grant(examiner, tract, access),
        }
    }

    fn give_back(&mut self, examiner: u32) {
        match self.layout {
            Layout::Alone(owner) => if owner == examiner {
                self.listed.give_back(examiner);
            },
            Layout::Listed => self.listed.give_back(examiner),
            Layout::Spread => self.spread.give_back(examiner),
        }
    }

    fn mode(&self, examiner: u32, node: &Node) -> Option<Mode> {
        match self.layout {
            Layout::Alone(_) | Layout::Listed => self.listed.mode(examiner, node),
            Layout::Spread => self.spread.mode(examiner, node),
        }
    }
}
