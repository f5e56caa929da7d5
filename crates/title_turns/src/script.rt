//! Transactions that are still to be made.

use title_chain::Ask;

/// A transaction that a worker is to run: its asks in order, and whether it is committed or aborted at its end.
#[derive(Debug, Drop)]
pub struct Transaction {
    pub asks: Vec<Ask>,
    pub commits: bool,
}

/// What an examiner's worker is to run: transactions one after another.
#[derive(Debug, Drop)]
pub struct Script {
    pub examiner: u32,
    pub transactions: Vec<Transaction>,
}
