//! What examiners ask of a desk, each made again at once where it wants memory.

use crate::replies::Tally;
use std::alloc::Global;
use title_chance::{Chance, Ground, StepWish, Wish};
use title_desk::Desk;
use title_lock::NodeLocks;
use title_store::Store;
use title_trace::Reply;

// A request, or a step that is a transaction of its own.
#[derive(Clone, Copy)]
enum Asked {
    Request(Wish),
    Alone(StepWish),
}

/// What an examiner asks, with the number of the document that a post makes.
#[derive(Clone, Copy)]
pub struct Turn {
    alloc: Global,
    examiner: u32,
    asked: Asked,
    doc: u64,
}

impl Turn {
    /// A request.
    pub fn new(alloc: Global, examiner: u32, wish: Wish, doc: u64) -> Turn {
        Turn {
            alloc,
            examiner,
            asked: Asked::Request(wish),
            doc,
        }
    }

    /// Any sheet, chain or post of one of so many examiners, numbered from 1, as a transaction of its own.
    pub fn any_alone(
        alloc: Global,
        chance: &mut Chance,
        ground: &Ground,
        examiners: u32,
        doc: u64,
    ) -> Turn {
        Turn {
            alloc,
            examiner: chance.below(examiners).saturating_add(1),
            asked: Asked::Alone(StepWish::any(chance, ground)),
            doc,
        }
    }

    // Serves a request.
    fn serve_request<S: Store + Drop>(
        self,
        desk: &mut Desk<S, NodeLocks>,
        ground: &Ground,
        wish: Wish,
    ) -> Reply {
        match wish.request(self.alloc, ground, self.examiner, self.doc) {
            Ok(request) => desk.serve(request),
            Err(_) => Reply::Memory,
        }
    }

    // Serves a step alone.
    fn serve_alone<S: Store + Drop>(
        self,
        desk: &mut Desk<S, NodeLocks>,
        ground: &Ground,
        wish: StepWish,
    ) -> Reply {
        let Ok(ask) = wish.ask(self.alloc, ground, self.doc) else {
            return Reply::Memory;
        };
        desk.serve_alone(self.examiner, ask)
    }

    fn serve_once<S: Store + Drop>(self, desk: &mut Desk<S, NodeLocks>, ground: &Ground) -> Reply {
        match self.asked {
            Asked::Request(wish) => self.serve_request(desk, ground, wish),
            Asked::Alone(wish) => self.serve_alone(desk, ground, wish),
        }
    }

    /// Serves it at a desk, and once more where a growth was refused.
    pub fn serve<S: Store + Drop>(
        self,
        desk: &mut Desk<S, NodeLocks>,
        ground: &Ground,
        tally: &mut Tally,
    ) -> Reply {
        match self.serve_once(desk, ground) {
            Reply::Memory => {
                tally.want();
                self.serve_once(desk, ground)
            }
            reply => reply,
        }
    }
}
