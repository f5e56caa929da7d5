//! Scripts of examiners on few tracts.

ghost use Rattle.std.specs.Prelude.{◌≡◌, IfOk};

use std::alloc::{AllocError, Global};
use title_chain::Ask;
use title_chance::{Chance, Ground, StepWish};
use title_office::{Script, Transaction};

// How many transactions an examiner has, and the most steps of one.
const TRANSACTIONS: u64 = 3;

const MOST_STEPS: u8 = 4;

/// How many calls to the office the scripts take where nobody is in anybody's way.
pub fn count_calls(scripts: &[Script]) -> u64 {
    let mut calls = 0u64;
    for script in scripts {
        for transaction in script.transactions.as_slice() {
            let steps = transaction.asks.len() as u64;
            calls = calls.saturating_add(steps).saturating_add(2);
        }
    }
    calls
}

// Adds a step.
fn add_ask(
    alloc: Global,
    chance: &mut Chance,
    ground: &Ground,
    asks: &mut Vec<Ask>,
    doc: u64,
) -> Result<(), AllocError> {
    let ask = StepWish::any(chance, ground).ask(alloc, ground, doc)?;
    asks.push(ask)?;
    Ok(())
}

// Adds any steps.
fn add_asks(
    alloc: Global,
    chance: &mut Chance,
    ground: &Ground,
    asks: &mut Vec<Ask>,
    doc: u64,
) -> Result<(), AllocError> {
    for _ in 0..chance.up_to(MOST_STEPS) {
        add_ask(alloc, chance, ground, asks, doc)?;
    }
    Ok(())
}

// A transaction of any steps, of which one of five is aborted at its end.
fn transaction(
    alloc: Global,
    chance: &mut Chance,
    ground: &Ground,
    doc: u64,
) -> Result<Transaction, AllocError> {
    let mut asks = Vec::new(alloc);
    add_asks(alloc, chance, ground, &mut asks, doc)?;
    let commits = chance.below(5) > 0;
    Ok(Transaction { asks, commits })
}

fn add_transactions(
    alloc: Global,
    chance: &mut Chance,
    ground: &Ground,
    transactions: &mut Vec<Transaction>,
) -> Result<(), AllocError> {
    for doc in 1..=TRANSACTIONS {
        transactions.push(transaction(alloc, chance, ground, doc)?)?;
    }
    Ok(())
}

/// An examiner's script.
pub fn script(
    alloc: Global,
    chance: &mut Chance,
    ground: &Ground,
    examiner: u32,
) -> Result<Script, AllocError>
    ensures examiner { IfOk result (λ s. s.examiner ≡ examiner) }
{
    let mut transactions = Vec::new(alloc);
    add_transactions(alloc, chance, ground, &mut transactions)?;
    Ok(Script {
        examiner,
        transactions,
    })
}
