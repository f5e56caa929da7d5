//! Deeds.

use title_chain::Posting;

/// What is kept of a committed transaction: its examiner, and what it posted, in order.
#[derive(Debug, Drop)]
pub struct Deeds {
    pub examiner: u32,
    pub posts: Vec<Posting>,
}
