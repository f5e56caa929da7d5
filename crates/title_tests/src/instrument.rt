//! What instruments do to a cell, and the numbers, words and sizes of their parts.

use crate::checks::must;
use std::alloc::Global;
use std::mem::size_of;
use std::process::Abort;
use title_instrument::{Deed, Effect, Estate, Estates, Instrument, Kind, Owners, Quantum, Release};
use title_share::Share;

const UNITED_STATES: u32 = 0;

const ADAMS: u32 = 1;

const BELL: u32 = 2;

const OIL: Estates = Estates {
    s: false,
    o: true,
    m: false,
};

const ALL: Estates = Estates {
    s: true,
    o: true,
    m: true,
};

const MINERALS: Estates = Estates {
    s: false,
    o: true,
    m: true,
};

const NO_ESTATE: Estates = Estates {
    s: false,
    o: false,
    m: false,
};

fn share(rt: &impl Abort, text: &str) -> Share {
    Share::parse(text).expect(rt, "it is a share")
}

/// A deed of the oil.
fn deed(grantor: u32, quantum: Quantum, reserve: [Option<Share>; 3], warranty: bool) -> Instrument {
    Instrument::Deed(Deed {
        grantor,
        grantee: BELL,
        estates: OIL,
        quantum,
        reserve,
        warranty,
    })
}

fn release(from: u32, to: u32, estates: Estates) -> Instrument {
    Instrument::Release(Release { from, to, estates })
}

fn opening(rt: &impl Abort, alloc: Global) -> Owners {
    Owners::opening(alloc).expect(rt, "there is memory")
}

fn copy_of(rt: &impl Abort, alloc: Global, owners: &Owners) -> Owners {
    owners.copy(alloc).expect(rt, "there is memory")
}

fn copy_is_same(rt: &impl Abort, alloc: Global, owners: &Owners) -> bool {
    copy_of(rt, alloc, owners).same(owners)
}

/// The units of the oil that BELL has where an instrument was applied; none where it was refused.
fn oil_of_bell(effect: Effect) -> u64 {
    match effect {
        Effect::Done(after) => after.of(Estate::O).units(BELL),
        Effect::Refused(..) => 0,
    }
}

fn effect(rt: &impl Abort, alloc: Global, instrument: &Instrument, owners: &Owners) -> Effect {
    let effect = instrument.apply_cell(alloc, owners);
    effect.expect(rt, "there is memory")
}

/// The same after an instrument on the opening owners.
fn bell_after(rt: &impl Abort, alloc: Global, instrument: &Instrument) -> u64 {
    oil_of_bell(effect(rt, alloc, instrument, &opening(rt, alloc)))
}

#[test]
fn owners_of_a_cell(rt: HostRuntime) {
    let is_same = copy_is_same(&rt, rt.alloc(), &opening(&rt, rt.alloc()));
    must(&rt, is_same, "a copy is the same");
    let part = Quantum::Whole(share(&rt, "3/8"));
    let patent = deed(UNITED_STATES, part, [None; 3], false);
    let units = bell_after(&rt, rt.alloc(), &patent);
    must(&rt, units == 1_610_612_736, "three eighths of the oil");
}

/// The number of the first cause why an instrument can't stand among so many parties, 0 where it can.
fn cause_number(instrument: &Instrument, parties: u32) -> u32 {
    match instrument.check(parties) {
        Ok(()) => 0,
        Err(cause) => cause.number(),
    }
}

fn assert_checked(rt: &impl Abort, rows: &[(Instrument, u32, u32)]) {
    for (instrument, parties, number) in rows {
        must(
            rt,
            cause_number(instrument, *parties) == *number,
            "the cause",
        );
    }
}

#[test]
fn causes_in_their_order(rt: HostRuntime) {
    let half = share(&rt, "1/2");
    let stray = deed(ADAMS, Quantum::Whole(half), [None, None, Some(half)], false);
    let of_nothing = Instrument::Deed(Deed {
        grantor: ADAMS,
        grantee: BELL,
        estates: NO_ESTATE,
        quantum: Quantum::Whole(half),
        reserve: [None, None, Some(half)],
        warranty: false,
    });
    let rows = [
        (release(ADAMS, BELL, OIL), 3, 0),
        (release(ADAMS, BELL, OIL), 2, 1),
        (release(ADAMS, ADAMS, NO_ESTATE), 1, 1),
        (release(ADAMS, ADAMS, NO_ESTATE), 2, 2),
        (release(ADAMS, BELL, NO_ESTATE), 3, 3),
        (of_nothing, 3, 3),
        (stray, 3, 4),
    ];
    assert_checked(&rt, &rows);
}

fn words(rt: &impl Abort, alloc: Global, kind: Kind) -> String {
    let text = format!(in alloc; "{kind} {} {ALL} {MINERALS} {}", Kind::Warranty, Estate::S);
    text.expect(rt, "there is memory")
}

#[test]
fn words_and_letters(rt: HostRuntime) {
    let kind = release(ADAMS, BELL, OIL).kind();
    let text = words(&rt, rt.alloc(), kind);
    must(
        &rt,
        text.as_str() == "release warranty SOM OM S",
        "the words",
    );
    must(&rt, Kind::of_word("Deed").is_none(), "no kind");
    let kind = Kind::of_word("warranty");
    must(&rt, kind == Some(Kind::Warranty), "a kind");
}

/// Whether an instrument between ADAMS and BELL comes back from between their names.
fn comes_back(numbered: &Instrument, named: &Instrument<&str>) -> bool {
    let back = named.between(ADAMS, BELL);
    back == *numbered && back.is(numbered) && !named.between(BELL, ADAMS).is(numbered)
}

/// An instrument between ADAMS and BELL is between their names.
fn assert_named(rt: &impl Abort, numbered: &Instrument) {
    let named = numbered.between("ADAMS", "BELL");
    must(rt, named.grantor() == "ADAMS", "the grantor");
    must(rt, named.grantee() == "BELL", "the grantee");
    must(rt, comes_back(numbered, &named), "the same between numbers");
}

#[test]
fn between_other_parties(rt: HostRuntime) {
    let half = share(&rt, "1/2");
    let reserve = [None, Some(half), None];
    assert_named(&rt, &deed(ADAMS, Quantum::Whole(half), reserve, false));
    assert_named(&rt, &release(ADAMS, BELL, OIL));
}

#[test]
fn an_instrument_takes_48_bytes(rt: HostRuntime) {
    must(&rt, size_of::<Deed>() == 44, "a deed");
    must(&rt, size_of::<Release>() == 12, "a release");
    must(&rt, size_of::<Instrument>() == 48, "an instrument");
}
