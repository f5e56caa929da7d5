//! Instruments of townships and of everything, in a plant of as many townships as there may be. Each township has three trees of
//! an estate, so everything has 192.

use crate::case::{Case, ESTATES, GOVERNMENT, MINERALS, Tried};
use crate::parcel::Parcel;
use crate::portion::{ALL, Portion};
use anyhow::Result;
use std::alloc::Global;
use title_script::Schedule;

const TOWNSHIPS: u32 = 64;

// The township in which ADAMS sells on.
const SOLD: u32 = 17;

// Wants the rows of estates in a parcel, half of which is ADAMS'.
fn want_halves(case: &mut Case, examiner: u32, parcel: Parcel, estates: &[&'static str]) {
    let half = Portion(1, 2);
    for estate in estates {
        case.want_owner(examiner, parcel, *estate, GOVERNMENT, half);
        case.want_owner(examiner, parcel, *estate, "ADAMS", half);
    }
}

// The sheet of everything while two own half each in all estates.
fn add_halves(case: &mut Case, examiner: u32) {
    case.sheet(examiner, Parcel::Everything, 6);
    want_halves(case, examiner, Parcel::Everything, &ESTATES);
}

// Wants the rows of the surface of a township: BELL has a quarter of the one that ADAMS sold on.
fn want_surface(case: &mut Case, number: u32) {
    let parcel = Parcel::Township(number);
    case.want_owner(1, parcel, "S", GOVERNMENT, Portion(1, 2));
    if number == SOLD {
        case.want_owner(1, parcel, "S", "ADAMS", Portion(1, 4));
        case.want_owner(1, parcel, "S", "BELL", Portion(1, 4));
    } else {
        case.want_owner(1, parcel, "S", "ADAMS", Portion(1, 2));
    }
}

// The sheet of everything when a township was sold on: two rows for each of 63 townships, three for that one, and four.
fn add_sheet_after(case: &mut Case) {
    case.sheet(1, Parcel::Everything, (TOWNSHIPS - 1) * 2 + 3 + 4);
    for number in 0..TOWNSHIPS {
        want_surface(case, number);
    }
    want_halves(case, 1, Parcel::Everything, &MINERALS);
}

// The sheet of the township that was sold on.
fn add_township_after(case: &mut Case) {
    let parcel = Parcel::Township(SOLD);
    case.sheet(1, parcel, 7);
    want_surface(case, SOLD);
    want_halves(case, 1, parcel, &MINERALS);
}

// A deed of everything, one of a township, and one of everything by BELL, which has something in that township alone.
fn add_deeds(case: &mut Case) {
    case.step(
        1,
        "deed,1,UNITED STATES,ADAMS,SOM,W1/2,,everything",
        "posted",
    );
    add_halves(case, 1);
    let sold = Parcel::Township(SOLD);
    case.step(
        1,
        format_args!("deed,2,ADAMS,BELL,S,W1/4,,{sold}"),
        "posted",
    );
    add_sheet_after(case);
    add_township_after(case);
    let none = "deed,3,BELL,ADAMS,S,W1/8,,everything";
    case.step(1, none, "refused,11,S,everything");
}

// The chain of everything. Each step before is a record, so the instruments stand in the records 2, 4, 8 and 10.
static CHAIN: [&str; 4] = [
    "1,entry,2,1,deed,UNITED STATES,ADAMS,SOM",
    "1,entry,4,2,deed,ADAMS,BELL,S",
    "1,entry,8,4,release,BELL,ADAMS,S",
    "1,entry,10,5,release,ADAMS,UNITED STATES,SOM",
];

// Both give all back.
fn add_releases(case: &mut Case) {
    case.step(1, "release,4,BELL,ADAMS,S,everything", "posted");
    add_halves(case, 1);
    case.step(1, "release,5,ADAMS,UNITED STATES,SOM,everything", "posted");
    case.sheet_unsold(1, Parcel::Everything);
    case.chain(1, Parcel::Everything, 4);
    case.want_all(&CHAIN);
}

// Each step a transaction of its own, the first a sheet.
fn alone(alloc: Global) -> Result<Tried> {
    let mut case = Case::new(alloc);
    case.declare_plant(TOWNSHIPS);
    case.sheet_unsold(1, Parcel::Everything);
    add_deeds(&mut case);
    add_releases(&mut case);
    case.run(Schedule::Serial)
}

// A deed of everything that is in the way of examiner 2 everywhere, as in the last township, until it is undone.
static IN_THE_WAY: [(&str, &str); 4] = [
    ("1,begin", "1,began"),
    ("2,begin", "2,began"),
    (
        "1,deed,1,UNITED STATES,ADAMS,SOM,W1/2,,everything",
        "1,posted",
    ),
    ("2,sheet,T8N R8W", "2,conflict,1"),
];

fn add_undone(case: &mut Case) {
    case.steps(&IN_THE_WAY);
    add_halves(case, 1);
    case.step(1, "abort", "aborted");
    case.sheet_unsold(2, Parcel::Everything);
    case.step(2, "commit", "committed,1");
}

// Deeds of all townships, one by one, by examiner 1 while examiner 2 has read another of them.
fn add_each(case: &mut Case) {
    case.step(2, "begin", "began");
    case.sheet_unsold(2, Parcel::Township(SOLD));
    case.step(1, "begin", "began");
    for number in 0..TOWNSHIPS {
        let parcel = Parcel::Township(number);
        let deed = format_args!("deed,2,UNITED STATES,ADAMS,S,W1/1,,{parcel}");
        case.step(1, deed, deed_reply(number));
    }
    case.step(2, "sheet,everything", "conflict,1");
    case.step(1, "commit", "committed,2");
}

fn deed_reply(number: u32) -> &'static str {
    if number == SOLD {
        "conflict,2"
    } else {
        "posted"
    }
}

// The sheet of everything then.
fn add_last(case: &mut Case) {
    case.sheet(2, Parcel::Everything, TOWNSHIPS + 2);
    for number in 0..TOWNSHIPS {
        let owner = if number == SOLD { GOVERNMENT } else { "ADAMS" };
        case.want_owner(2, Parcel::Township(number), "S", owner, ALL);
    }
    case.want_unsold(2, Parcel::Everything, &MINERALS);
}

// Two examiners at once.
fn interleaved(alloc: Global) -> Result<Tried> {
    let mut case = Case::new(alloc);
    case.declare_plant(TOWNSHIPS);
    add_undone(&mut case);
    add_each(&mut case);
    add_last(&mut case);
    case.run(Schedule::Interleaved)
}

/// Deeds and releases of everything and of townships, with their sheets, their chain and their locks.
pub fn count(alloc: Global) -> Result<String> {
    let tried = alone(alloc)?.and(interleaved(alloc)?);
    Ok(format!(in alloc; "{TOWNSHIPS}, {tried}")?)
}
