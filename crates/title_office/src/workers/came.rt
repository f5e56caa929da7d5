//! What comes of one try of a transaction.

ghost use Rattle.std.specs.Prelude.{◌≡◌};

use crate::fault::Fault;
use crate::seat::Seat;
use title_ledger::Room;
use title_settle::Outcome;

/// What came of one try of a transaction: its outcome, or that its own script aborted it, or that it was aborted because another
/// open transaction was in its way.
#[derive(Debug, Drop)]
pub(crate) enum Came {
    Committed(Outcome),
    Aborted,
    InTheWay,
}

/// The end of a worker by a fault. The seat is missing where the office took the slip for a stranger's.
#[derive(Drop)]
pub(crate) struct Stop<B: Room> {
    pub(crate) seat: Option<Seat<B>>,
    pub(crate) fault: Fault,
}

impl<B: Room> Stop<B> {
    pub(crate) fn of(seat: Option<Seat<B>>, fault: Fault) -> Stop<B>
        ensures seat { result.seat ≡ seat }
        ensures fault { result.fault ≡ fault }
    {
        Stop { seat, fault }
    }
}

/// The seat and what came of a try, or the end of the worker.
pub(crate) type Tried<B> = Result<(Seat<B>, Came), Stop<B>>;
