//! Viewers.

ghost use Rattle.std.specs.Prelude.{◌≡◌, ◌≢◌, MatchResult, [], IfErr};
ghost use mathlib.Core.List.{IsPrefix};
ghost use Rattle.left_right.specs.Sides.{view};
ghost use Rattle.title_store.specs.Plants.{IsEachOnce};
ghost use Rattle.title_ledger.specs.Ledgers.{sure_of, IsSettled};
ghost use Rattle.title_views.specs.Views.{IsNoRecord, IsUnseen, longer, ShowsRecord, ShowsSheet};

use crate::kept::Kept;
use crate::look::{look, look_up};
use crate::published::Watch;
use crate::receipt::Receipt;
use crate::unseen::Unseen;
use std::alloc::Global;
use std::marker::Model;
use title_chain::{Record, SheetRows};
use title_land::{Township, Tract};
use title_ledger::{Front, Room};
use title_store::Store;
use title_tree_store::TreeStore;

/// A sheet, and how many records stand behind it.
#[derive(Drop)]
pub struct Seen {
    pub front: u64,
    pub rows: SheetRows,
}

/// What a viewer is, by any store: it keeps the plant that it made of the records that it last showed, and the last sheet of it.
pub struct Watcher<B: Room, S: Store + Drop> {
    alloc: Global,
    number: u64,
    townships: Vec<Township>,
    reader: Option<Watch<B>>,
    count: usize,
    told: Front<B>,
    kept: Option<Kept<S>>,
}

// By hand, so that whoever lets one go sees one call.
impl<B: Room, S: Store + Drop> Drop for Watcher<B, S> {
    fn drop(self) {
        let Watcher {
            alloc: _,
            number: _,
            townships,
            reader,
            count: _,
            told,
            kept,
        } = self;
        drop(townships);
        drop(reader);
        drop(told);
        drop(kept);
    }
}

impl<B: Room, S: Store + Drop> Model for Watcher<B, S> {
    ghost use Rattle.std.specs.Prelude.{◌≡◌, ◌≤◌, length, take, unwrap_or, option_map, [], IfSome};
    ghost use Rattle.left_right.specs.Sides.{view as known};
    ghost use Rattle.title_store.specs.Plants.{IsEachOnce};
    ghost use Rattle.title_ledger.specs.Ledgers.{sure_of, IsSettled};
    ghost use Rattle.title_views.specs.Views.{IsKept, Sight};

    ghost Value = { Sight };

    ghost view = { λ w. record {
      number = w.number;
      seen = take w.count (unwrap_or (option_map (λ r. known r.place) w.reader) []);
      told = sure_of w.told;
    } };

    ghost invariant = { λ w. (w.townships.items ≡ B.setting.townships) × IsEachOnce B.setting.townships × IsSettled w.told
        × (w.count ≤ length (unwrap_or (option_map (λ r. known r.place) w.reader) []))
        × IfSome w.kept (λ k. IsKept B.setting.townships (unwrap_or (option_map (λ r. known r.place) w.reader) []) k.count
        (S.content k.store) (S.declared k.store) (S.out k.store) k.made) };
}

impl<B: Room, S: Store + Drop> Watcher<B, S> {
    fn new(
        alloc: Global,
        number: u64,
        townships: Vec<Township>,
        reader: Watch<B>,
        told: Front<B>,
    ) -> Watcher<B, S>
        requires townships { townships.items ≡ B.setting.townships }
        requires once { IsEachOnce B.setting.townships }
        requires settled { IsSettled told }
        ensures new { result ≡ record { number = number; seen = []; told = sure_of told } }
    {
        Watcher {
            alloc,
            number,
            townships,
            reader: Some(reader),
            count: 0,
            told,
            kept: None,
        }
    }

    fn learn(&mut self, receipt: &Receipt<B>) -> Result<(), Unseen>
        ensures learnt { MatchResult result
            (λ _. (receipt.now.number ≡ self.old.number)
            × (self.new ≡ record self.old { told = longer self.old.told receipt.now.front })
            × IsPrefix self.old.told self.new.told × IsPrefix receipt.now.front self.new.told)
            (λ why. (why ≡ Unseen.Stranger) × (receipt.now.number ≢ self.old.number) × (self.new ≡ self.old)) }
    {
        if receipt.number != self.number {
            return Err(Unseen::Stranger);
        }
        self.told = self.told.longer(&receipt.front);
        Ok(())
    }

    fn sheet(&mut self, tract: &Tract) -> Result<Seen, Unseen>
        ensures shown { MatchResult result
            (λ s. ShowsSheet B.setting.townships self.old tract.now s.front s.rows self.new)
            (λ why. (self.new ≡ self.old) × IsUnseen B.setting.townships tract.now why) }
    {
        let Some(reader) = self.reader.take() else {
            return Err(Unseen::Closed);
        };
        let kept = self.kept.take();
        let (reader, kept, answer) = look(
            self.alloc,
            &self.townships,
            &self.told,
            reader,
            kept,
            tract,
        );
        self.reader = Some(reader);
        self.kept = kept;
        match answer {
            Ok(seen) => {
                self.count = seen.front as usize;
                Ok(seen)
            }
            Err(why) => Err(why),
        }
    }

    fn record_of(&mut self, place: u64) -> Result<Option<Record>, Unseen>
        ensures shown { MatchResult result
            (λ rec. ShowsRecord B.setting.townships self.old place rec self.new)
            (λ why. (self.new ≡ self.old) × IsNoRecord why) }
    {
        let Some(reader) = self.reader.take() else {
            return Err(Unseen::Closed);
        };
        let (reader, answer) = look_up(self.alloc, &self.told, reader, place);
        self.reader = Some(reader);
        match answer {
            Ok((count, rec)) => {
                self.count = count;
                Ok(rec)
            }
            Err(why) => Err(why),
        }
    }
}

/// Who looks at what one office publishes. Its calls take no lock. A contract sees the office's number, the records that it has seen,
/// and those that it has learnt of: what it is shown begins with both.
pub struct Viewer<B: Room> {
    watcher: Watcher<B, TreeStore>,
}

// By hand, so that whoever lets one go sees one call.
impl<B: Room> Drop for Viewer<B> {
    fn drop(self) {
        let Viewer { watcher } = self;
        drop(watcher);
    }
}

impl<B: Room> Model for Viewer<B> {
    ghost use Rattle.title_views.specs.Views.{Sight};

    ghost Value = { Sight };

    ghost view = { λ v. v.watcher };
}

impl<B: Room> Viewer<B> {
    pub(crate) fn new(
        alloc: Global,
        number: u64,
        townships: Vec<Township>,
        reader: Watch<B>,
        told: Front<B>,
    ) -> Viewer<B>
        requires townships { townships.items ≡ B.setting.townships }
        requires once { IsEachOnce B.setting.townships }
        requires settled { IsSettled told }
        ensures new { result ≡ record { number = number; seen = []; told = sure_of told } }
    {
        Viewer {
            watcher: Watcher::new(alloc, number, townships, reader, told),
        }
    }

    /// Learns of the records behind a receipt of its office; takes no memory. The only fault is Stranger, where the numbers differ.
    pub fn learn(&mut self, receipt: &Receipt<B>) -> Result<(), Unseen>
        ensures learnt { MatchResult result
            (λ _. (receipt.now.number ≡ self.old.number)
            × (self.new ≡ record self.old { told = longer self.old.told receipt.now.front })
            × IsPrefix self.old.told self.new.told × IsPrefix receipt.now.front self.new.told)
            (λ why. (why ≡ Unseen.Stranger) × (receipt.now.number ≢ self.old.number) × (self.new ≡ self.old)) }
    {
        self.watcher.learn(receipt)
    }

    /// The sheet of a tract after the records that are published, which begin with all that the viewer has seen or learnt of. Faults in
    /// their order: Closed, NoSuchTownship exactly where the tract is not in the plant, Memory; the viewer is then as it was.
    pub fn sheet(&mut self, tract: &Tract) -> Result<Seen, Unseen>
        ensures shown { MatchResult result
            (λ s. ShowsSheet B.setting.townships self.old tract.now s.front s.rows self.new)
            (λ why. (self.new ≡ self.old) × IsUnseen B.setting.townships tract.now why) }
    {
        self.watcher.sheet(tract)
    }

    /// The record at a place, from 1, of those that are published; `None` where there are fewer, or for 0. Faults in their order:
    /// Closed, Memory; the viewer is then as it was.
    pub fn record(&mut self, place: u64) -> Result<Option<Record>, Unseen>
        ensures shown { MatchResult result
            (λ rec. ShowsRecord B.setting.townships self.old place rec self.new)
            (λ why. (self.new ≡ self.old) × IsNoRecord why) }
    {
        self.watcher.record_of(place)
    }
}
