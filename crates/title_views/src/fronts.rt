//! What an office keeps of its fronts.

ghost use Rattle.std.specs.Prelude.{◌≡◌, ◌≤◌, ◌++◌, ◌∷◌, [], length, IfOk, MatchResult};
ghost use Rattle.title_store.specs.Plants.{IsEachOnce};
ghost use Rattle.title_ledger.specs.Ledgers.{AreSerial};
ghost use Rattle.title_views.specs.Views.{most_viewers};

use crate::published::{Addition, Published, Publisher};
use crate::publishing::publish_one;
use crate::receipt::Receipt;
use crate::viewer::Viewer;
use std::alloc::{AllocError, Global};
use std::marker::Model;
use std::sync::Wait;
use title_chain::Record;
use title_land::Township;
use title_ledger::{Front, Head, Ledger, Room};

/// What publishes the records of an office. A contract sees the records that are published, in the order of their commits. It isn't
/// let go but by `close`.
pub struct Fronts<B: Room> {
    writer: Publisher<B>,
    head: Head<B>,
    last: Front<B>,
    sure: Front<B>,
}

impl<B: Room> Model for Fronts<B> {
    ghost use Rattle.std.specs.Prelude.{◌≡◌, ◌+◌, List, All, drop, length};
    ghost use Rattle.title_chain.specs.declared.record.Record.{Record};
    ghost use Rattle.title_ledger.specs.Ledgers.{sure_of, IsSettled};

    ghost Value = { List Record };

    ghost view = { λ f. f.writer.desk.shown.value.records };

    ghost invariant = { λ f. (sure_of f.last ≡ f.writer.desk.shown.value.records)
        × (sure_of f.sure ≡ f.writer.desk.shown.value.records) × IsSettled f.sure
        × All (λ a. a.place ≡ 1 + length f.writer.desk.shown.value.records) (drop f.writer.behind f.writer.log.items) };
}

impl<B: Room> Fronts<B> {
    /// The fronts of an office that has no record yet, with room for so many viewers. Err: memory.
    pub fn open(alloc: Global, ledger: Ledger, viewers: u32) -> Result<Fronts<B>, AllocError>
        requires book { ledger ≡ B.book }
        requires viewers { viewers ≤ most_viewers }
        ensures open { IfOk result (λ fronts. fronts ≡ []) }
    {
        let (head, last) = ledger.named::<B>();
        let first = Published::new(alloc, last.page());
        let second = Published::new(alloc, last.page());
        let readers = viewers as usize + 1;
        let writer = Publisher::<B>::new(alloc, first, second, readers)?;
        let sure = last.again();
        Ok(Fronts {
            writer,
            head,
            last,
            sure,
        })
    }

    /// A viewer of this office, under its number. Err where no place for a viewer is left.
    pub fn viewer(
        &self,
        alloc: Global,
        number: u64,
        townships: Vec<Township>,
    ) -> Result<Viewer<B>, AllocError>
        requires townships { townships.items ≡ B.setting.townships }
        requires once { IsEachOnce B.setting.townships }
        ensures viewer { IfOk result (λ viewer. viewer ≡ record { number = number; seen = []; told = self.now }) }
    {
        let reader = self.writer.factory().reader()?;
        Ok(Viewer::new(alloc, number, townships, reader, self.sure.again()))
    }

    /// What stands behind an answer that is given now.
    pub fn receipt(&self, number: u64) -> Receipt<B>
        ensures receipt { result ≡ record { number = number; front = self.now } }
    {
        let place = self.writer.published().records().len() as u64;
        Receipt::new(number, place, self.sure.again())
    }

    /// Publishes one record more. Err: memory, and nothing has changed. It may wait for viewers.
    pub fn add<R: Wait>(&mut self, rt: &R, rec: Record) -> Result<(), AllocError>
        requires serial { AreSerial B.setting.townships (self.old ++ rec ∷ []) }
        ensures added { MatchResult result (λ _. self.new ≡ self.old ++ rec ∷ []) (λ _. self.new ≡ self.old) }
    {
        let place = self.writer.published().records().len() as u64 + 1;
        let tried = self.last.tried(rt, &self.head, &rec);
        let addition = Addition {
            rec,
            place,
            page: tried.page(),
        };
        self.last = tried;
        publish_one(rt, &mut self.writer, addition)?;
        self.sure = self.last.settled(rt, &self.head);
        self.last = self.sure.again();
        Ok(())
    }

    /// Ends the publishing: viewers show nothing from then on. It may wait for them.
    pub fn close<R: Wait>(self, rt: &R) {
        let Fronts {
            writer,
            head: _,
            last: _,
            sure: _,
        } = self;
        drop(writer.take(rt));
    }
}
