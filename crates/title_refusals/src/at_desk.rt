//! Two examiners at a desk.

ghost use Rattle.title_trace.specs.Due.{MayOpen};

use crate::deeds::{HALF, Sale, Wish};
use crate::parcels::{Parcel, township};
use crate::telling::{tell_records, tell_reply};
use crate::wanted::Wanted;
use anyhow::{Result, bail};
use std::alloc::{AllocError, Global};
use title_desk::{Desk, may_open};
use title_land::Township;
use title_lock::NodeLocks;
use title_trace::{Reply, Request};
use title_tree_store::TreeStore;

// UNITED STATES, ADAMS and BELL.
const PARTIES: u32 = 3;

/// A desk of the plant.
pub type Plant = Desk<TreeStore, NodeLocks>;

/// Who has one.
pub struct Owner {
    pub desk: Plant,
}

// By hand, so that whoever lets one go sees one call.
impl Drop for Owner {
    fn drop(self) {
        let Owner { desk } = self;
        drop(desk);
    }
}

/// How both transactions end.
#[derive(Clone, Copy)]
pub enum Ending {
    Commits,
    Aborts,
}

// What an examiner asks of the desk.
#[derive(Clone, Copy)]
enum Call {
    Begin,
    Step(Wish),
    Commit,
    Abort,
}

#[derive(Clone, Copy)]
struct Turn {
    examiner: u32,
    call: Call,
}

fn begins(examiner: u32) -> Turn {
    let call = Call::Begin;
    Turn { examiner, call }
}

fn commits(examiner: u32) -> Turn {
    let call = Call::Commit;
    Turn { examiner, call }
}

fn aborts(examiner: u32) -> Turn {
    let call = Call::Abort;
    Turn { examiner, call }
}

fn reads(examiner: u32, parcel: Parcel) -> Turn {
    let call = Call::Step(Wish::Sheet(parcel));
    Turn { examiner, call }
}

fn chains(examiner: u32, parcel: Parcel) -> Turn {
    let call = Call::Step(Wish::Chain(parcel));
    Turn { examiner, call }
}

// Half of the surface goes to ADAMS.
fn posts(examiner: u32, doc: u64, parcel: Parcel) -> Turn {
    let call = Call::Step(Wish::Post(Sale {
        doc,
        grantee: 1,
        units: HALF,
        parcel,
    }));
    Turn { examiner, call }
}

impl Turn {
    fn request(self, alloc: Global, wanted: &mut Wanted) -> Result<Request> {
        let examiner = self.examiner;
        Ok(match self.call {
            Call::Begin => Request::Begin(examiner),
            Call::Step(wish) => Request::Step(examiner, wish.ask(alloc, wanted)?),
            Call::Commit => Request::Commit(examiner),
            Call::Abort => Request::Abort(examiner),
        })
    }

    fn is_abort(self) -> bool {
        matches!(self.call, Call::Abort)
    }
}

// Serves a turn, and once more where it wanted memory; an abort wants none.
fn serve(desk: &mut Plant, alloc: Global, turn: Turn, wanted: &mut Wanted) -> Result<Reply> {
    let reply = desk.serve(turn.request(alloc, wanted)?);
    if turn.is_abort() {
        return Ok(reply);
    }
    if let Reply::Memory = &reply {
        wanted.count();
        return Ok(desk.serve(turn.request(alloc, wanted)?));
    }
    Ok(reply)
}

// Serves turns, and tells each reply.
fn serve_all(
    rt: &impl Print,
    desk: &mut Plant,
    alloc: Global,
    turns: &[Turn],
    wanted: &mut Wanted,
) -> Result<()> {
    for turn in turns {
        let reply = serve(desk, alloc, *turn, wanted)?;
        tell_reply(rt, turn.examiner, &reply)?;
    }
    Ok(())
}

// 1 reads a quarter and posts in its corner; 2 reads beside the corner, where 1 is in its way to post; 1 goes on.
fn overlap(rt: &impl Print, desk: &mut Plant, alloc: Global, wanted: &mut Wanted) -> Result<()> {
    let turns = [
        begins(1),
        reads(1, Parcel::Quarter),
        posts(1, 101, Parcel::Corner),
        begins(2),
        reads(2, Parcel::BesideCorner),
        posts(2, 102, Parcel::BesideCorner),
        reads(1, Parcel::Quarter),
        chains(1, Parcel::Quarter),
        posts(1, 103, Parcel::TwoNodes),
    ];
    serve_all(rt, desk, alloc, &turns, wanted)
}

// Both commit.
fn commit(rt: &impl Print, desk: &mut Plant, alloc: Global, wanted: &mut Wanted) -> Result<()> {
    serve_all(rt, desk, alloc, &[commits(1), commits(2)], wanted)
}

// Both abort; 1 begins and posts again, and is swept.
fn abort(rt: &impl Print, desk: &mut Plant, alloc: Global, wanted: &mut Wanted) -> Result<()> {
    let turns = [
        aborts(1),
        aborts(2),
        begins(1),
        posts(1, 104, Parcel::TwoNodes),
    ];
    serve_all(rt, desk, alloc, &turns, wanted)?;
    tell_reply(rt, 1, &desk.sweep(1))?;
    Ok(())
}

/// What is left: the records, and the sheet of all land.
pub fn tell_end(
    rt: &impl Print,
    desk: &mut Plant,
    alloc: Global,
    wanted: &mut Wanted,
) -> Result<()> {
    tell_records(rt, desk.records())?;
    let turns = [begins(3), reads(3, Parcel::Everything), aborts(3)];
    serve_all(rt, desk, alloc, &turns, wanted)?;
    println!(rt; "trees are tidy: {}", desk.store().is_tidy())?;
    Ok(())
}

// A desk with no call yet, opened once more where a growth was refused.
fn open(alloc: Global, townships: &[Township], wanted: &mut Wanted) -> Result<Plant, AllocError>
    requires may_open { MayOpen PARTIES townships.now }
{
    if let Ok(desk) = Plant::open(alloc, PARTIES, townships) {
        return Ok(desk);
    }
    wanted.count();
    Plant::open(alloc, PARTIES, townships)
}

/// A desk of the plant with no call yet.
pub fn open_plant(alloc: Global, wanted: &mut Wanted) -> Result<Owner> {
    let Some(township) = township() else {
        bail!("there is no such township");
    };
    let townships = [township];
    if !may_open(PARTIES, &townships) {
        bail!("a desk can't be opened for these");
    }
    let desk = open(alloc, &townships, wanted)?;
    Ok(Owner { desk })
}

// The turns, up to what is left.
fn tell_turns(
    rt: &impl Print,
    desk: &mut Plant,
    alloc: Global,
    ending: Ending,
    wanted: &mut Wanted,
) -> Result<()> {
    overlap(rt, desk, alloc, wanted)?;
    match ending {
        Ending::Commits => commit(rt, desk, alloc, wanted)?,
        Ending::Aborts => abort(rt, desk, alloc, wanted)?,
    }
    tell_end(rt, desk, alloc, wanted)
}

/// Two examiners overlap, and then both commit, or both abort.
pub fn tell<R: Print>(rt: &R, alloc: Global, ending: Ending, wanted: &mut Wanted) -> Result<()> {
    let desk = &mut open_plant(alloc, wanted)?.desk;
    tell_turns(rt, desk, alloc, ending, wanted)
}
