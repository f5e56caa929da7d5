//! Deeds of sections, one after another.

use std::alloc::{AllocError, Global};
use std::sync::Wait;
use title_chain::{Posting, Terms};
use title_instrument::{Estates, Instrument, Release};
use title_land::{Land, Node, Section, Township, Tract, Within};
use title_office::{Done, Office, Room, Seat, Slip};

/// T3N R2W.
pub fn township() -> Option<Township> {
    Township::new(3, true, 2, false)
}

// The section with this number.
fn section(alloc: Global, number: u8) -> Result<Tract, AllocError> {
    let Some(township) = township() else {
        return Err(AllocError);
    };
    let Some(section) = Section::new(township, number) else {
        return Err(AllocError);
    };
    Tract::new(alloc, Land::of(Node::Part(section, Within::section())))
}

/// The section that viewers ask for: the one of the first sale.
pub fn first_section(alloc: Global) -> Result<Tract, AllocError> {
    section(alloc, 1)
}

// A release of the surface from one of two parties to the other.
fn surface_release(from: u32, to: u32) -> Instrument {
    let estates = Estates {
        s: true,
        o: false,
        m: false,
    };
    Instrument::Release(Release { from, to, estates })
}

// The sale with this number: a section's surface goes from one of two parties to the other, and back the next time round.
fn posting(alloc: Global, number: u32) -> Result<Posting, AllocError> {
    let index = u8::try_from(number % 36).unwrap_or(0);
    let round = (number / 36) % 2;
    let tract = section(alloc, index.saturating_add(1))?;
    let terms = Terms {
        doc: u64::from(number),
        tract,
        instrument: surface_release(round, 1u32.saturating_sub(round)),
    };
    Posting::new(alloc, terms)
}

fn seat_of<B: Room>(done: Done<B>) -> Seat<B> {
    let Done {
        place: _,
        rec,
        receipt,
        seat,
    } = done;
    drop(rec);
    drop(receipt);
    seat
}

fn commit<B: Room, R: Wait>(
    rt: &R,
    office: &Office<B>,
    slip: Slip<B>,
) -> Result<Seat<B>, AllocError> {
    match office.commit(rt, slip) {
        Ok(done) => Ok(seat_of(done)),
        Err(back) => {
            drop(back);
            Err(AllocError)
        }
    }
}

// A transaction of one post: the seat, where it was committed.
fn commit_post<B: Room, R: Wait>(
    rt: &R,
    office: &Office<B>,
    slip: Slip<B>,
    posting: Posting,
) -> Result<Seat<B>, AllocError> {
    let mut slip = slip;
    if office.post(rt, &mut slip, posting).is_err() {
        drop(slip);
        return Err(AllocError);
    }
    commit(rt, office, slip)
}

// Makes a sale: the seat, where it was committed.
fn sell<B: Room, R: Wait>(
    rt: &R,
    alloc: Global,
    office: &Office<B>,
    seat: Seat<B>,
    number: u32,
) -> Result<Seat<B>, AllocError> {
    let posting = posting(alloc, number)?;
    let slip = office.begin(rt, seat).or(Err(AllocError))?;
    commit_post(rt, office, slip, posting)
}

/// An examiner at an office, and the numbers of the sales that it is to make.
#[derive(Drop)]
pub struct Selling<'a, B: Room, R: Wait> {
    pub rt: &'a R,
    pub alloc: Global,
    pub office: &'a Office<B>,
    pub seat: Seat<B>,
    pub from: u32,
    pub to: u32,
}

impl<B: Room, R: Wait> Selling<'_, B, R> {
    /// Makes the sales: the number behind the last.
    pub fn sell(self) -> Result<u32, AllocError> {
        let Selling {
            rt,
            alloc,
            office,
            seat,
            from,
            to,
        } = self;
        sell_all(rt, alloc, office, seat, from, to)?;
        Ok(to)
    }
}

/// Makes the sales from one number up to another: the seat.
pub fn sell_all<B: Room, R: Wait>(
    rt: &R,
    alloc: Global,
    office: &Office<B>,
    seat: Seat<B>,
    from: u32,
    to: u32,
) -> Result<Seat<B>, AllocError> {
    let mut seat = seat;
    for number in from..to {
        seat = sell(rt, alloc, office, seat, number)?;
    }
    Ok(seat)
}
