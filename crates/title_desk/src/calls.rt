//! The calls of a desk, which only clauses read.

ghost use Rattle.std.specs.{Prelude.{◌≡◌, List, [], ◌∷◌}, Borrow.{ftrue}};
ghost use Rattle.title_trace.specs.declared.call.Call.{Call};

use std::marker::Model;
use title_trace::{Reply, Request};

/// The calls with their replies, the newest first. It takes no memory.
#[derive(Drop)]
pub struct Calls {
    pub ghost list: { List Call },
}

impl Model for Calls {
    ghost also_owns = { λ _. ftrue };
}

impl Calls {
    /// No call.
    pub(crate) fn new() -> Calls
        ensures new { result.list ≡ [] }
    {
        Calls {}
    }

    /// The calls with one more.
    pub(crate) fn then(&self, _request: &Request, _reply: &Reply) -> Calls
        ensures then { result.list ≡ record { request = _request.now; reply = _reply.now } ∷ self.now.list }
    {
        Calls {}
    }
}

// It owns nothing, so it may go to another thread.
unsafe impl Send for Calls {}
