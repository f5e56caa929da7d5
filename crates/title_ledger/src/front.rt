//! Fronts: beginnings of the ledger that were seen.

ghost use Rattle.std.specs.Prelude.{◌≡◌, ◌+◌, ◌≤◌, ◌↔◌, ◌++◌, ◌∷◌, ◌⊎◌, [], length, IfSome, IsTrue};
ghost use mathlib.Core.List.{IsPrefix};
ghost use Rattle.title_ledger.specs.declared.entry.Entry.TheVariants.{Tried, Committed};
ghost use Rattle.title_ledger.specs.Ledgers.{AreSerial, IsSettled, shown_of, sure_of};

use crate::law::{Settles, Tries};
use crate::ledger::Head;
use crate::page::Page;
use crate::room::Room;
use std::marker::{Model, PhantomData};
use std::sync::Wait;
use title_chain::Record;

/// A beginning of the ledger that was seen. A contract sees its entries.
#[derive(Drop)]
pub struct Front<B: Room> {
    pub(crate) page: Page,
    pub(crate) of: PhantomData<B>,
}

impl<B: Room> Model for Front<B> {
    ghost use Rattle.std.specs.Prelude.{◌≡◌, List};
    ghost use Rattle.title_ledger.specs.{declared.entry.Entry.{Entry}, Ledgers.{AreSerial, shown_of, sure_of}};

    ghost Value = { List Entry };

    ghost view = { λ f. f.page.log };

    ghost invariant = { λ f. (f.page.book ≡ B.book) × AreSerial B.setting.townships (shown_of f.page.log)
        × AreSerial B.setting.townships (sure_of f.page.log) };
}

impl<B: Room> Front<B> {
    /// An equal front; takes no memory.
    pub fn again(&self) -> Front<B>
        ensures again { result ≡ self.now }
    {
        Front {
            page: self.page.again(),
            of: PhantomData,
        }
    }

    /// Its records are serial, with the one that is tried and without. It does nothing: its type says so, and a proof may cite it.
    pub fn serial(&self)
        ensures shown { AreSerial B.setting.townships (shown_of self.now) }
        ensures sure { AreSerial B.setting.townships (sure_of self.now) }
    {
        let _ = &self.page;
    }

    /// The page that it stands for; takes no memory.
    pub fn page(&self) -> Page
        ensures book { result.book ≡ B.book }
        ensures log { result.log ≡ self.now }
    {
        self.page.again()
    }

    // The ledger with this record tried; `None` where it has other entries than are seen here.
    fn tried_once(&self, head: &Head<B>, rec: &Record) -> Option<Front<B>>
        requires serial { AreSerial B.setting.townships (sure_of self.now ++ rec.now ∷ []) }
        ensures tried { IfSome result (λ front. front ≡ self.now ++ Tried rec.now ∷ []) }
    {
        let page = self.page.added::<Record, Tries>(&head.word, rec)?;
        Some(Front {
            page,
            of: PhantomData,
        })
    }

    /// The ledger with this record tried behind the committed ones. It waits for ever where the ledger has more entries than are
    /// seen here, which no caller meets that keeps the head and the last front together under one lock, or as many as a u64 counts.
    pub fn tried<R: Wait>(&self, rt: &R, head: &Head<B>, rec: &Record) -> Front<B>
        requires serial { AreSerial B.setting.townships (sure_of self.now ++ rec.now ∷ []) }
        ensures tried { result ≡ self.now ++ Tried rec.now ∷ [] }
    {
        for _ in rt.forever() {
            if let Some(front) = self.tried_once(head, rec) {
                return front;
            }
        }
        unreachable!()
    }

    // The ledger with the record committed that was tried last; `None` where it has other entries than are seen here.
    fn settled_once(&self, head: &Head<B>) -> Option<Front<B>>
        ensures settled { IfSome result (λ front. front ≡ self.now ++ Committed ∷ []) }
    {
        let page = self.page.added::<(), Settles>(&head.word, &())?;
        Some(Front {
            page,
            of: PhantomData,
        })
    }

    /// The ledger with the record committed that was tried last. It waits for ever where `tried` does.
    pub fn settled<R: Wait>(&self, rt: &R, head: &Head<B>) -> Front<B>
        ensures settled { result ≡ self.now ++ Committed ∷ [] }
    {
        for _ in rt.forever() {
            if let Some(front) = self.settled_once(head) {
                return front;
            }
        }
        unreachable!()
    }

    /// Whether the page has as many entries as this front, or one fewer. Its records, with the one tried, then begin with all that
    /// are committed here.
    pub fn covered_by(&self, page: &Page) -> bool
        requires settled { IsSettled self.now }
        requires book { page.now.book ≡ B.book }
        ensures when { IsTrue result ↔ length self.now ≤ length page.now.log + 1 }
        ensures covered { IsTrue result → IsPrefix (sure_of self.now) (shown_of page.now.log) }
    {
        self.page.begins(page) || self.page.entries - page.entries == 1
    }

    /// The longer of two fronts, whose committed records begin with those of both; takes no memory.
    pub fn longer(&self, other: &Front<B>) -> Front<B>
        ensures one { (result ≡ self.now) ⊎ (result ≡ other.now) }
        ensures this { IsPrefix (sure_of self.now) (sure_of result) }
        ensures that { IsPrefix (sure_of other.now) (sure_of result) }
    {
        if self.page.begins(&other.page) {
            other.again()
        } else {
            self.again()
        }
    }
}
