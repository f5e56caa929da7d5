//! What each thread is given.

ghost use Rattle.std.specs.Prelude.{◌≡◌, ◌+◌, vec_len};

use crate::seat::Seat;
use crate::workers::tally::Tally;
use title_ledger::Room;
use title_turns::Script;

/// A script, with the seat of its examiner and an empty tally with room for all its transactions.
#[derive(Drop)]
pub(crate) struct Job<B: Room> {
    pub(crate) seat: Seat<B>,
    pub(crate) script: Script,
    pub(crate) tally: Tally,
    pub(crate) ghost own: { seat.examiner ≡ script.examiner },
    pub(crate) ghost left: { tally.left ≡ vec_len script.transactions },
    pub(crate) ghost empty: { vec_len tally.outcomes + tally.aborted + tally.given_up ≡ 0 },
}
