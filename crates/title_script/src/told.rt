//! What came of the steps of a script.

use title_aliquot::DescFault;
use title_plan::Plan;
use title_trace::Reply;

/// What came of a step row: a reply to an examiner, or a description that is none.
#[derive(Drop)]
pub enum Told {
    Replied(u32, Reply),
    Described(u32, DescFault),
}

/// A script whose steps have been served: what it declares, what came of each step row, and how many these were.
#[derive(Drop)]
pub struct Served {
    pub plan: Plan,
    pub told: Vec<Told>,
    pub steps: usize,
}
