//! Slips held against the desk.

ghost use Rattle.std.specs.Prelude.{◌≡◌, ◌≤◌, length, reverse, MatchResult, true};
ghost use Rattle.title_land.specs.Depth.{depth};
ghost use Rattle.title_chain.specs.Alone.{most_parties};
ghost use Rattle.title_trace.specs.{Trace.{committed, open_steps}, Due.{IsDue}};
ghost use Rattle.title_office.specs.Offices.{Falls, HasSeen, Stands};

use crate::books::Books;
use crate::fault::Fault;
use crate::seat::Seat;
use crate::slip::Slip;
use title_chain::same_steps;
use title_ledger::Room;
use title_trace::Denial;

impl<B: Room> Books<B> {
    // The trace is due, and there are no more parties than a plant may have. It does nothing: the type says so.
    pub(crate) fn is_due(&self)
        ensures due { IsDue depth B.setting self.now }
        ensures few { B.setting.parties ≤ most_parties }
    {
        let _ = &self.desk;
    }

    // How many records are committed.
    fn count(&self) -> u64
        ensures count { result ≡ length (committed self.now) }
    {
        self.desk.records().len() as u64
    }

    // Whether the seat has seen no more records than are committed.
    pub(crate) fn has_shown(&self, seat: &Seat<B>) -> bool
        ensures shown { result ≡ true → HasSeen seat.now self.now }
    {
        seat.seen <= self.count()
    }

    // Whether the slip has the steps of its examiner's open transaction.
    fn has_steps(&self, slip: &Slip<B>) -> bool
        ensures steps { result ≡ true → open_steps self.now slip.now.seat.examiner ≡ reverse slip.now.rec.steps }
    {
        same_steps(
            self.desk.open_steps(slip.seat.examiner),
            slip.rec.steps.as_slice(),
        )
    }

    // Whether the slip is its examiner's open transaction.
    pub(crate) fn standing(&self, slip: &Slip<B>) -> Result<(), Fault>
        ensures stands { MatchResult result (λ _. Stands slip.now self.now) (λ why. Falls slip.now self.now why) }
    {
        if !self.desk.is_open(slip.seat.examiner) {
            return Err(Fault::Denied(Denial::NotOpen));
        }
        if !self.has_shown(&slip.seat) || !self.has_steps(slip) {
            return Err(Fault::Stranger);
        }
        Ok(())
    }
}
