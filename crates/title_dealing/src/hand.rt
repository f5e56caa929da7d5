//! What an examiner's steps come to, gathered from the last step to the first.

ghost use Rattle.std.specs.Prelude.{◌≡◌, OnOk};
ghost use Rattle.title_dealing.specs.Dealing.{empty_hand, with_request};
ghost use Rattle.title_turns.specs.Dealt.{told_by};

use std::alloc::{AllocError, Global};
use std::collections::VecDeque;
use std::marker::Model;
use std::mem;
use title_chain::Ask;
use title_trace::Request;
use title_turns::{Script, Transaction};

/// What an examiner's steps from some step on come to: the asks up to the end of the transaction that is open there, whether that is
/// committed, and the transactions after it.
#[derive(Drop)]
pub(crate) struct Hand {
    asks: VecDeque<Ask>,
    commits: bool,
    later: VecDeque<Transaction>,
}

impl Model for Hand {
    ghost use Rattle.std.specs.Prelude.{map};
    ghost use Rattle.title_dealing.specs.Dealing as dealing;
    ghost use Rattle.title_turns.specs.Dealt.{dealt_in};

    ghost Value = { dealing.Hand };

    ghost view = { λ h. record {
      asks = h.asks.items;
      commits = h.commits;
      later = map dealt_in h.later.items;
    } };
}

impl Hand {
    /// What there is behind the last step.
    pub(crate) fn empty(alloc: Global) -> Hand
        ensures hand { result ≡ empty_hand }
    {
        Hand {
            asks: VecDeque::new(alloc),
            commits: false,
            later: VecDeque::new(alloc),
        }
    }

    /// Takes the request that comes before what it has.
    pub(crate) fn take(&mut self, alloc: Global, request: Request) -> Result<(), AllocError>
        ensures hand { OnOk result (self.new ≡ with_request request self.old) }
    {
        match request {
            Request::Begin(_) => {
                let asks = mem::replace(&mut self.asks, VecDeque::new(alloc));
                let commits = mem::replace(&mut self.commits, false);
                let asks = Vec::from(asks);
                self.later.push_front(Transaction { asks, commits })?;
            }
            Request::Step(_, step) => self.asks.push_front(step)?,
            Request::Commit(_) => {
                self.asks = VecDeque::new(alloc);
                self.commits = true;
            }
            Request::Abort(_) => {
                self.asks = VecDeque::new(alloc);
                self.commits = false;
            }
        }
        Ok(())
    }

    /// The transactions after the one that is open, as the script of the examiner.
    pub(crate) fn into_script(self, examiner: u32) -> Script
        ensures told { told_by result ≡ (examiner, self.later) }
    {
        Script {
            examiner,
            transactions: Vec::from(self.later),
        }
    }
}
