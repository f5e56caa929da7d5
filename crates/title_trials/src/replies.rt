//! Replies of two desks, held against each other, and counted.

use title_chain::{Answer, Ask, Step};
use title_land::{Node, Tract};
use title_trace::{Denial, Reply};

/// How many requests were replied to so, and how many wanted memory and were made again.
#[derive(Clone, Copy)]
pub struct Tally {
    pub posted: u32,
    pub refused: u32,
    pub sheets: u32,
    pub conflicts: u32,
    pub committed: u32,
    pub aborted: u32,
    pub others: u32,
    pub wanted: u32,
}

impl Tally {
    /// No request.
    pub fn new() -> Tally {
        Tally {
            posted: 0,
            refused: 0,
            sheets: 0,
            conflicts: 0,
            committed: 0,
            aborted: 0,
            others: 0,
            wanted: 0,
        }
    }

    /// Counts a request that wanted memory.
    pub fn want(&mut self) {
        self.wanted = self.wanted.saturating_add(1);
    }

    /// Counts a reply.
    pub fn count(&mut self, reply: &Reply) {
        let number = match reply {
            Reply::Answered(Answer::Posted) => &mut self.posted,
            Reply::Answered(Answer::Refused(_, _, _)) => &mut self.refused,
            Reply::Answered(_) => &mut self.sheets,
            Reply::Denied(Denial::Conflict(_)) => &mut self.conflicts,
            Reply::Committed(_) => &mut self.committed,
            Reply::Aborted => &mut self.aborted,
            _ => &mut self.others,
        };
        *number = number.saturating_add(1);
    }
}

// Two answers are one where the same ask with them is one step.
fn step(answer: Answer) -> Step {
    let ask = Ask::Sheet(Tract::of(Node::Everything));
    Step { ask, answer }
}

/// Whether two replies are one; want of memory is like nothing.
pub fn are_one(reply: Reply, other: Reply) -> bool {
    match (reply, other) {
        (Reply::Answered(answer), Reply::Answered(second)) => step(answer).same(&step(second)),
        (Reply::Committed(place), Reply::Committed(second)) => place == second,
        (Reply::Denied(why), Reply::Denied(second)) => why == second,
        (Reply::Began, Reply::Began) | (Reply::Aborted, Reply::Aborted) => true,
        _ => false,
    }
}
