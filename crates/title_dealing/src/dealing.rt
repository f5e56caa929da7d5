//! The steps of an office's script, dealt to its examiners.

ghost use Rattle.std.specs.Prelude.{◌≡◌, ◌<◌, ◌^◌, All, IfOk, OnOk, length, map, replicate};
ghost use Rattle.title_dealing.specs.{Turns.{IsAskedBy}, Dealing.{AreDealt, empty_hand, told_of, with_line_each, with_lines_each}};
ghost use Rattle.title_turns.specs.Dealt.{told_by};

use crate::hand::Hand;
use std::alloc::{AllocError, Global};
use std::collections::VecDeque;
use title_plan::Line;
use title_turns::Script;

// A hand for each examiner, with no step yet.
fn empty_hands(alloc: Global, examiners: u32) -> Result<VecDeque<Hand>, AllocError>
    ensures empty { IfOk result (λ hands. hands.items ≡ replicate examiners empty_hand) }
{
    let mut hands = VecDeque::new(alloc);
    for _examiner in 0..examiners {
        hands.push_back(Hand::empty(alloc))?;
    }
    Ok(hands)
}

// Deals a step to its examiner's hand, which it comes before.
#[tactic(auto, using(crate::proofs::DealingLaws::request_dealt))]
fn deal_line(alloc: Global, hands: &mut VecDeque<Hand>, line: Line) -> Result<(), AllocError>
    requires asked { IsAskedBy (length hands.old.items) line }
    ensures many { length hands.new.items ≡ length hands.old.items }
    ensures dealt { OnOk result (hands.new.items ≡ with_line_each 1 line hands.old.items) }
{
    if let Line::Asks(request) = line {
        let index = (request.examiner() - 1) as usize;
        hands[index].take(alloc, request)?;
    }
    Ok(())
}

// Deals the steps to their examiners' hands, the last one first.
fn deal_lines(
    alloc: Global,
    hands: &mut VecDeque<Hand>,
    lines: &mut VecDeque<Line>,
) -> Result<(), AllocError>
    requires asked { All (IsAskedBy (length hands.old.items)) lines.old.items }
    ensures many { length hands.new.items ≡ length hands.old.items }
    ensures dealt { OnOk result (hands.new.items ≡ with_lines_each 1 lines.old.items hands.old.items) }
{
    while let Some(line) = lines.pop_back() {
        deal_line(alloc, hands, line)?;
    }
    Ok(())
}

// A script of each hand, for the examiners from 1 on.
fn scripts_of(alloc: Global, mut hands: VecDeque<Hand>) -> Result<Vec<Script>, AllocError>
    requires few { length hands.items < 2 ^ 32 }
    ensures told { IfOk result (λ scripts. map told_by scripts.items ≡ told_of 1 hands.items) }
{
    let mut scripts = Vec::new(alloc);
    let mut examiner = 0;
    while let Some(hand) = hands.pop_front() {
        examiner += 1;
        scripts.push(hand.into_script(examiner))?;
    }
    Ok(scripts)
}

/// The scripts of the examiners from 1 to a number, in order, empty ones too: what the steps, which it takes from the back, ask each
/// of them for. Each step asks as it stands and is of one of these examiners.
pub(crate) fn deal(
    alloc: Global,
    examiners: u32,
    lines: &mut VecDeque<Line>,
) -> Result<Vec<Script>, AllocError>
    requires asked { All (IsAskedBy examiners) lines.old.items }
    ensures many { IfOk result (λ scripts. length scripts.items ≡ examiners) }
    ensures dealt { IfOk result (λ scripts. AreDealt lines.old.items 1 scripts.items) }
{
    let mut hands = empty_hands(alloc, examiners)?;
    deal_lines(alloc, &mut hands, lines)?;
    scripts_of(alloc, hands)
}
