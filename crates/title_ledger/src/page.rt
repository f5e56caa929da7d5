//! Pages: beginnings of some ledger.

ghost use Rattle.std.specs.Prelude.{◌≡◌, ◌≤◌, ◌↔◌, None, false, length, IfSome, IsTrue};
ghost use mathlib.Core.List.{IsPrefix};
ghost use Rattle.title_ledger.specs.Ledgers.{head_of, with_entry};

use crate::entry::Entry;
use crate::law::{Add, Law, Nothing};
use logbook::{Offer, Plain, Seen, Word};
use std::marker::Model;

/// A beginning of some ledger, for values that can't have the office's parameter. A contract sees which ledger's it is, and its entries.
#[derive(Drop)]
pub struct Page {
    pub(crate) entries: u64,
    pub(crate) seen: Seen<Entry, u64, Law>,
}

impl Model for Page {
    ghost use Rattle.std.specs.Prelude.{◌≡◌, length};
    ghost use Rattle.title_ledger.specs.Ledgers.{PageState};

    ghost Value = { PageState };

    ghost view = { λ p. record { book = p.seen.book; log = p.seen.log } };

    ghost invariant = { λ p. p.entries ≡ length p.seen.log };
}

impl Page {
    /// An equal page; takes no memory.
    pub fn again(&self) -> Page
        ensures again { result ≡ self.now }
    {
        Page {
            entries: self.entries,
            seen: self.seen.again(),
        }
    }

    // Whether it has no more entries than another page of its ledger. That page begins with it then, and else it with that page.
    pub(crate) fn begins(&self, other: &Page) -> bool
        requires book { other.now.book ≡ self.now.book }
        ensures when { IsTrue result ↔ length self.now.log ≤ length other.now.log }
        ensures this { IsTrue result → IsPrefix self.now.log other.now.log }
        ensures that { result ≡ false → IsPrefix other.now.log self.now.log }
    {
        let mut both = self.seen.again();
        both.learn(&other.seen);
        self.entries <= other.entries
    }

    // The page once the ledger has an entry more; `None` where the ledger has more entries than the page, or as many as can be
    // counted.
    pub(crate) fn added<X, M: Plain<X, Entry, u64>>(
        &self,
        head: &Word<Entry, u64, Law>,
        about: &X,
    ) -> Option<Page>
        requires head { head.now ≡ head_of self.now.book }
        requires open { M.state about.now ≡ None }
        ensures added { IfSome result (λ page. page ≡ with_entry self.now (M.ask about.now)) }
    {
        let entries = self.entries;
        if entries == u64::MAX {
            return None;
        }
        let mut seen = self.seen.again();
        let mut offer: Offer<Entry, u64, Law, Nothing> = seen.plain::<Nothing, X, M>(about);
        let mut pen = seen.no_pen();
        let found = head.compare_exchange::<Add, Nothing>(
            entries,
            entries + 1,
            &mut seen,
            &mut offer,
            &mut pen,
        );
        if found != entries {
            return None;
        }
        Some(Page {
            entries: entries + 1,
            seen,
        })
    }
}
