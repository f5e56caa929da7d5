//! What was kept, served again at a new desk.

ghost use Rattle.std.specs.Prelude.{◌≡◌, [], IfOk, map, reverse};
ghost use Rattle.title_chain.specs.Alone.{most_parties};
ghost use Rattle.title_trace.specs.Due.{MayOpen};
ghost use Rattle.title_standing.specs.Records.{record_of};
ghost use Rattle.title_standing.specs.StandingLaws.{widest};
ghost use Rattle.title_lasting.specs.Replays.{AreShort, IsReplayed};

use std::alloc::{AllocError, Global};
use title_desk::Desk;
use title_land::Township;
use title_lock::NodeLocks;
use title_standing::laws::{kept_records_are_served_again, replayed_records_are_committed};
use title_standing::{Deeds, replay};
use title_trace::MOST_PARTIES;
use title_trace::laws::limits_are_said;
use title_tree_store::TreeStore;

/// What a replay comes to.
#[derive(Drop)]
pub(crate) enum Replayed {
    /// All was posted: the desk has served it.
    Stands(Box<Desk<TreeStore, NodeLocks>>),
    /// The transaction in this place is the first of which a post isn't posted.
    Refused(u64),
}

// A new desk of these townships, which has room for the most parties. It stands in a box: who owns a desk by value is dear to prove.
fn open_desk(
    alloc: Global,
    townships: &[Township],
) -> Result<Box<Desk<TreeStore, NodeLocks>>, AllocError>
    requires opens { MayOpen most_parties townships.now }
    ensures setting { IfOk result (λ desk. desk.value.setting ≡ widest townships.now) }
    ensures trace { IfOk result (λ desk. desk.value.trace ≡ []) }
{
    limits_are_said();
    match Box::new(alloc, Desk::open(alloc, MOST_PARTIES, townships)?) {
        Ok(desk) => Ok(desk),
        Err(_) => Err(AllocError),
    }
}

/// Serves what was kept at a new desk of these townships, which has room for the most parties.
pub(crate) fn replay_deeds(
    alloc: Global,
    townships: &[Township],
    deeds: &[Deeds],
) -> Result<Replayed, AllocError>
    requires opens { MayOpen most_parties townships.now }
    requires short { AreShort (reverse (map record_of deeds.now)) }
    ensures replayed { IfOk result (IsReplayed townships.now (reverse (map record_of deeds.now))) }
{
    kept_records_are_served_again();
    replayed_records_are_committed();
    let mut desk = open_desk(alloc, townships)?;
    let refused = replay(alloc, &mut *desk, deeds)?;
    desk.is_serial();
    match refused {
        None => Ok(Replayed::Stands(desk)),
        Some(place) => Ok(Replayed::Refused(place)),
    }
}
