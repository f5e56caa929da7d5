//! What lies behind an office's lock.

ghost use Rattle.std.specs.Prelude.{◌≡◌, ℕ, true, false, IfOk};
ghost use Rattle.title_chain.specs.Overlaps.{record_of};
ghost use Rattle.title_trace.specs.declared.call.{Request.TheVariants.{Abort, Commit}, Reply.TheVariants.{Aborted}};
ghost use Rattle.title_trace.specs.Trace.{is_open, open_steps};
ghost use Rattle.title_office.specs.Offices.{IsServed, PublishesNothing, Sweeps, receipt_for};

mod calls;
mod standing;

use crate::seat::Seat;
use std::alloc::{AllocError, Global};
use std::marker::Model;
use std::sync::Wait;
use title_chain::{Record, Step, Steps};
use title_desk::Desk;
use title_ledger::Room;
use title_lock::NodeLocks;
use title_trace::{Denial, Reply, Request};
use title_tree_store::TreeStore;
use title_views::{Fronts, Receipt};

/// What lies behind an office's lock: the desk, and what publishes its records. A contract sees the desk's trace, which is due; what is
/// published is what is committed in it. It isn't let go but by `close`.
pub struct Books<B: Room> {
    pub(crate) alloc: Global,
    pub(crate) desk: Desk<TreeStore, NodeLocks>,
    pub(crate) fronts: Fronts<B>,
}

impl<B: Room> Model for Books<B> {
    ghost use Rattle.std.specs.Prelude.{◌≡◌, ◌≤◌, List, reverse};
    ghost use Rattle.title_land.specs.Depth.{depth};
    ghost use Rattle.title_chain.specs.Alone.{most_parties};
    ghost use Rattle.title_trace.specs.{declared.call.Call.{Call}, Trace.{committed}, Due.{IsDue}};

    ghost Value = { List Call };

    ghost view = { λ b. b.desk.trace };

    ghost invariant = { λ b. (b.desk.setting ≡ B.setting) × IsDue depth B.setting b.desk.trace
        × (B.setting.parties ≤ most_parties) × (b.fronts ≡ reverse (committed b.desk.trace)) };
}

// A copy of these steps.
fn copy_steps(alloc: Global, steps: &[Step]) -> Result<Steps, AllocError>
    ensures copy { IfOk result (λ copied. copied ≡ steps.now) }
{
    let mut items = Vec::new(alloc);
    for step in steps {
        items.push(step.copy(alloc)?)?;
    }
    Ok(Steps::new(items))
}

impl<B: Room> Books<B> {
    /// Serves a request: adds it with the due reply to the trace, or answers `Memory` where a growth was refused, and then
    /// nothing has changed. `Memory` is never the reply to `Abort` of an open examiner. A commit is published; for that it may wait for
    /// viewers.
    pub fn serve<R: Wait>(&mut self, rt: &R, request: Request) -> Reply
        ensures served { IsServed B.setting self.old request result self.new }
        ensures always_aborts { (e : ℕ) → request ≡ Abort e → is_open e self.old ≡ true → result ≡ Aborted }
    {
        match request {
            Request::Commit(examiner) => self.commit(rt, examiner),
            Request::Begin(_) => self.unpublished(request),
            Request::Step(_, _) => self.unpublished(request),
            Request::Abort(_) => self.unpublished(request),
        }
    }

    // Serves a request that publishes nothing.
    fn unpublished(&mut self, request: Request) -> Reply
        requires nothing { PublishesNothing self.old request }
        ensures served { IsServed B.setting self.old request result self.new }
        ensures always_aborts { (e : ℕ) → request ≡ Abort e → is_open e self.old ≡ true → result ≡ Aborted }
    {
        self.desk.serve(request)
    }

    // The record that an examiner's open steps make.
    fn open_record(&self, examiner: u32) -> Result<Record, AllocError>
        ensures open { IfOk result (λ rec. rec ≡ record_of examiner (open_steps self.now examiner)) }
    {
        let steps = copy_steps(self.alloc, self.desk.open_steps(examiner))?;
        Ok(Record { examiner, steps })
    }

    // Commits for an examiner. The record is published while the commit can still be refused for want of memory; after that nothing can.
    fn commit<R: Wait>(&mut self, rt: &R, examiner: u32) -> Reply
        ensures served { IsServed B.setting self.old (Commit examiner) result self.new }
    {
        if !self.desk.is_open(examiner) {
            return self.unpublished(Request::Commit(examiner));
        }
        let Ok(rec) = self.open_record(examiner) else {
            return Reply::Memory;
        };
        let Ok(()) = self.desk.make_room(examiner) else {
            return Reply::Memory;
        };
        self.desk.is_serial();
        let Ok(()) = self.fronts.add(rt, rec) else {
            return Reply::Memory;
        };
        self.desk.serve(Request::Commit(examiner))
    }

    // Aborts for an examiner who is gone; takes no memory.
    pub(crate) fn sweep<R: Wait>(&mut self, rt: &R, examiner: u32) -> Reply
        ensures swept { Sweeps B.setting examiner result }
        ensures shut { is_open examiner self.new ≡ false }
    {
        if !self.desk.is_open(examiner) {
            return Reply::Denied(Denial::NotOpen);
        }
        self.serve(rt, Request::Abort(examiner))
    }

    // The receipt of what is committed, for this seat.
    pub(crate) fn receipt(&self, seat: &Seat<B>) -> Receipt<B>
        ensures receipt { result ≡ receipt_for seat.now self.now }
    {
        self.fronts.receipt(seat.number)
    }

    // Ends the publishing; it may wait for viewers.
    pub(crate) fn close<R: Wait>(self, rt: &R) {
        let Books {
            alloc: _,
            desk: _,
            fronts,
        } = self;
        fronts.close(rt);
    }
}
