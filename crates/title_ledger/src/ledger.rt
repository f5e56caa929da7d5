//! The ledger.

ghost use Rattle.std.specs.Prelude.{◌≡◌, []};
ghost use Rattle.title_ledger.specs.Ledgers.{head_of};

use crate::entry::Entry;
use crate::front::Front;
use crate::law::Law;
use crate::page::Page;
use crate::room::Room;
use logbook::{Seen, Start, Word};
use std::marker::{Model, PhantomData};

/// A ledger with no entries, under no name yet. A contract sees which one it is.
#[derive(Drop)]
pub struct Ledger {
    head: Word<Entry, u64, Law>,
    seen: Seen<Entry, u64, Law>,
}

impl Model for Ledger {
    ghost use Rattle.std.specs.Prelude.{◌≡◌, []};
    ghost use Rattle.logbook.specs.Pages.{Book};
    ghost use Rattle.title_ledger.specs.Ledgers.{head_of};

    ghost Value = { Book };

    ghost view = { λ l. l.seen.book };

    ghost invariant = { λ l. (l.seen.log ≡ []) × (l.head ≡ head_of l.seen.book) };
}

impl Ledger {
    /// A new ledger; takes no memory.
    pub fn new() -> Ledger {
        let (seen, mut first, _second) = Seen::open(Start::alone(), 0, 0);
        Ledger {
            head: Word::tracked(0, &mut first),
            seen,
        }
    }

    /// The ledger's head under a name, and the front that has seen no entry.
    pub fn named<B: Room>(self) -> (Head<B>, Front<B>)
        requires book { self ≡ B.book }
        ensures empty { result.1 ≡ [] }
    {
        let Ledger { head, seen } = self;
        (
            Head {
                word: head,
                of: PhantomData,
            },
            Front {
                page: Page { entries: 0, seen },
                of: PhantomData,
            },
        )
    }
}

/// The head of a ledger: the word that counts its entries, and by which entries are added.
#[derive(Drop)]
pub struct Head<B: Room> {
    pub(crate) word: Word<Entry, u64, Law>,
    pub(crate) of: PhantomData<B>,
    pub(crate) ghost head_is: { word ≡ head_of B.book },
}
