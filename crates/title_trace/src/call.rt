//! Requests, replies and calls.

ghost use Rattle.std.specs.Prelude.{◌≡◌};
ghost use Rattle.title_trace.specs.Trace.{examiner_of};

use crate::denial::Denial;
use title_chain::{Answer, Ask};

/// What an examiner asks of a desk.
#[derive(Debug, Drop)]
pub enum Request {
    Begin(u32),
    Step(u32, Ask),
    Commit(u32),
    Abort(u32),
}

/// What a desk replies. `Answered` is the answer to a step, a refused post among them; `Committed` names the place of the
/// record, from 1; `Denied` tells why nothing is done. `Memory` stands in place of any reply but `Aborted` where a growth was
/// refused, and then nothing has changed.
#[derive(Debug, Drop)]
pub enum Reply {
    Began,
    Answered(Answer),
    Committed(u64),
    Aborted,
    Denied(Denial),
    Memory,
}

/// A request with its reply.
#[derive(Debug, Drop)]
pub struct Call {
    pub request: Request,
    pub reply: Reply,
}

impl Request {
    /// The examiner who asks.
    pub fn examiner(&self) -> u32
        ensures examiner { result ≡ examiner_of self.now }
    {
        match self {
            Request::Begin(examiner)
            | Request::Step(examiner, _)
            | Request::Commit(examiner)
            | Request::Abort(examiner) => *examiner,
        }
    }
}
