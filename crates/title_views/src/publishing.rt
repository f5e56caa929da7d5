//! One record more is published.

ghost use Rattle.std.specs.Prelude.{◌≡◌, ◌+◌, ◌++◌, ◌∷◌, if◌then◌else◌, is_ok, All, length, fold, drop, [], MatchResult};
ghost use mathlib.Core.List.{IsPrefix};
ghost use Rattle.title_ledger.specs.Ledgers.{AreSerial, shown_of};
ghost use Rattle.title_views.specs.Views.{placed, IsOf};

use crate::published::{Addition, Publisher, Sees};
use core::mem::replace_with;
use std::alloc::AllocError;
use std::marker::Model;
use std::sync::Wait;
use title_ledger::Room;

// Publishes what is pending.
fn publish<B: Room, R: Wait>(rt: &R, writer: Publisher<B>) -> (Publisher<B>, Result<(), AllocError>)
    requires next { let next = fold (λ x a. placed x a.place a.rec a.page) writer.desk.shown.value (drop writer.behind writer.log.items) in
        IsOf B.setting.townships B.book next × IsPrefix writer.desk.shown.value.records next.records }
    ensures published { MatchResult result.1
        (λ _. (result.0.desk.shown.value
        ≡ fold (λ x a. placed x a.place a.rec a.page) writer.desk.shown.value (drop writer.behind writer.log.items))
        × (drop result.0.behind result.0.log.items ≡ []))
        (λ _. (result.0.desk.shown.value ≡ writer.desk.shown.value)
        × (drop result.0.behind result.0.log.items ≡ drop writer.behind writer.log.items)) }
{
    writer.publish_as::<Sees<B>, R>(rt)
}

// The same, in place.
fn publish_in<B: Room, R: Wait>(rt: &R, writer: &mut Publisher<B>) -> Result<(), AllocError>
    requires next { let next = fold (λ x a. placed x a.place a.rec a.page) writer.old.desk.shown.value
        (drop writer.old.behind writer.old.log.items) in
        IsOf B.setting.townships B.book next × IsPrefix writer.old.desk.shown.value.records next.records }
    ensures published { MatchResult result
        (λ _. (writer.new.desk.shown.value
        ≡ fold (λ x a. placed x a.place a.rec a.page) writer.old.desk.shown.value (drop writer.old.behind writer.old.log.items))
        × (drop writer.new.behind writer.new.log.items ≡ []))
        (λ _. (writer.new.desk.shown.value ≡ writer.old.desk.shown.value)
        × (drop writer.new.behind writer.new.log.items ≡ drop writer.old.behind writer.old.log.items)) }
{
    replace_with(writer, rt, |w, rt| publish(rt, w))
}

// Publishes one record more. Where that is refused, what is published stays.
pub(crate) fn publish_one<B: Room, R: Wait>(
    rt: &R,
    writer: &mut Publisher<B>,
    addition: Addition,
) -> Result<(), AllocError>
    requires places { All (λ a. a.place ≡ 1 + length writer.old.desk.shown.value.records) (drop writer.old.behind writer.old.log.items) }
    requires place { addition.place ≡ 1 + length writer.old.desk.shown.value.records }
    requires page { (addition.page.book ≡ B.book)
        × (shown_of addition.page.log ≡ writer.old.desk.shown.value.records ++ addition.rec ∷ []) }
    requires serial { AreSerial B.setting.townships (writer.old.desk.shown.value.records ++ addition.rec ∷ []) }
    ensures shown { writer.new.desk.shown.value.records
        ≡ (if is_ok result then writer.old.desk.shown.value.records ++ addition.rec ∷ [] else writer.old.desk.shown.value.records) }
    ensures places { All (λ a. a.place ≡ 1 + length writer.new.desk.shown.value.records) (drop writer.new.behind writer.new.log.items) }
{
    let Ok(()) = writer.append(addition) else {
        return Err(AllocError);
    };
    publish_in(rt, writer)
}
