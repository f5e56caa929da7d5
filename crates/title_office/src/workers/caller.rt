//! A worker's calls.

ghost use Rattle.std.specs.Prelude.{◌≡◌};

use crate::gate::Gate;
use std::sync::Wait;

/// Whose calls they are, and the number of the next one, from 0. A number that has reached 2^64 - 1 stays.
#[derive(Clone, Copy)]
pub(crate) struct Caller {
    pub(crate) examiner: u32,
    pub(crate) call: u64,
}

impl Caller {
    /// Before the next call.
    pub(crate) fn before<R: Wait, G: Gate>(&self, rt: &R, gate: &G) {
        gate.before(rt, self.examiner, self.call);
    }

    /// After it: the next number is due.
    pub(crate) fn after<R: Wait, G: Gate>(&mut self, rt: &R, gate: &G)
        ensures examiner { self.new.examiner ≡ self.old.examiner }
    {
        gate.after(rt, self.examiner, self.call);
        self.call = self.call.saturating_add(1);
    }
}
