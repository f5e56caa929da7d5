//! What is known of a thread's answer.

ghost use Rattle.std.specs.Prelude.{◌≡◌, IfSome, None, Some, []};
ghost use Rattle.title_office.specs.declared.fault.Fault.TheVariants as fault;
ghost use Rattle.title_office.specs.Turns.{HasRun, report_of};

use crate::fault::Fault;
use crate::workers::Worked;
use crate::workers::job::Job;
use std::alloc::Global;
use std::snapshot::Snapshot;
use std::thread::{Promise, PromisedHandle, Threads};
use title_ledger::Room;
use title_turns::Script;

/// The script that a thread's answer is for, which contracts alone read, and its examiner.
#[derive(Drop)]
pub(crate) struct Pledge {
    pub(crate) examiner: u32,
    pub(crate) script: Snapshot<Script>,
    pub(crate) ghost own: { examiner ≡ script.value.examiner },
}

impl<B: Room> Promise<Worked<B>> for Pledge {
    ghost kept_by = { λ p w. HasRun B.setting p.script.value (report_of w) };
}

impl<B: Room> Job<B> {
    /// What its thread is to answer for.
    pub(crate) fn pledge(&self) -> Pledge
        ensures script { result.script.value ≡ self.now.script }
    {
        Pledge {
            examiner: self.script.examiner,
            script: Snapshot::of(&self.script),
        }
    }
}

impl Pledge {
    /// Waits for the thread's answer; where no thread was started, that is said.
    pub(crate) fn answer<B: Room, R: Threads>(
        self,
        rt: &R,
        alloc: Global,
        started: Option<PromisedHandle<Worked<B>, Pledge>>,
    ) -> Worked<B>
        requires same { IfSome started (λ handle. handle.promise.script.value ≡ self.script.value) }
        ensures run { HasRun B.setting self.script.value (report_of result) }
    {
        match started {
            Some(handle) => handle.join(rt),
            None => self.unstarted(alloc),
        }
    }

    fn unstarted<B: Room>(self, alloc: Global) -> Worked<B>
        ensures examiner { result.examiner ≡ self.examiner }
        ensures seat { result.seat ≡ None }
        ensures fault { result.fault ≡ Some fault.NoThread }
        ensures outcomes { result.outcomes.items ≡ [] }
    {
        Worked {
            examiner: self.examiner,
            seat: None,
            outcomes: Vec::new(alloc),
            aborted: 0,
            given_up: 0,
            fault: Some(Fault::NoThread),
        }
    }
}
