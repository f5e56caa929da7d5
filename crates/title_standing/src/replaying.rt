//! Kept records served again.

ghost use Rattle.std.specs.Prelude.{◌≡◌, ◌↔◌, ◌∷◌, [], IfOk, OnOk, false, map, reverse, true};
ghost use Rattle.title_chain.specs.declared.ask.Answer.TheVariants.{Posted};
ghost use Rattle.title_trace.specs.{declared.call.Reply.TheVariants.{Answered}, Trace.{is_open}};
ghost use Rattle.title_desk.specs.Singles.{IsIdle};
ghost use Rattle.title_standing.specs.{Standing.{asked_by}, Records.{posted_step, record_of}};
ghost use Rattle.title_standing.specs.Replays.{after_record, begun, ended, Serves, ToldReplay};

use crate::deeds::Deeds;
use std::alloc::{AllocError, Global};
use title_chain::{Answer, Ask, Posting};
use title_desk::Desk;
use title_lock::Guards;
use title_store::Store;
use title_trace::{Reply, Request};

// Whether a post was posted.
fn says_posted(reply: &Reply) -> bool
    ensures posted { (result ≡ true) ↔ (reply.now ≡ Answered Posted) }
{
    matches!(reply, Reply::Answered(Answer::Posted))
}

// Begins a transaction; want of memory ends the replay.
fn begin<S: Store + Drop, G: Guards + Drop>(
    desk: &mut Desk<S, G>,
    examiner: u32,
) -> Result<(), AllocError>
    requires shut { is_open examiner desk.old.trace ≡ false }
    ensures setting { desk.new.setting ≡ desk.old.setting }
    ensures begun { OnOk result (desk.new.trace ≡ begun examiner desk.old.trace) }
{
    match desk.serve(Request::Begin(examiner)) {
        Reply::Memory => Err(AllocError),
        _ => Ok(()),
    }
}

// Commits a transaction; want of memory ends the replay.
fn commit<S: Store + Drop, G: Guards + Drop>(
    desk: &mut Desk<S, G>,
    examiner: u32,
) -> Result<(), AllocError>
    requires begun { is_open examiner desk.old.trace ≡ true }
    ensures setting { desk.new.setting ≡ desk.old.setting }
    ensures ended { OnOk result (desk.new.trace ≡ ended examiner desk.old.trace) }
{
    match desk.serve(Request::Commit(examiner)) {
        Reply::Memory => Err(AllocError),
        _ => Ok(()),
    }
}

// Asks for a post; whether it was posted. Want of memory ends the replay.
fn ask_post<S: Store + Drop, G: Guards + Drop>(
    desk: &mut Desk<S, G>,
    examiner: u32,
    posting: Posting,
) -> Result<bool, AllocError>
    ensures setting { desk.new.setting ≡ desk.old.setting }
    ensures served { IfOk result (λ posted. Serves desk.old.setting desk.old.trace
        (asked_by examiner (posted_step posting ∷ []) desk.old.trace) desk.new.trace posted) }
{
    match desk.serve(Request::Step(examiner, Ask::Post(posting))) {
        Reply::Memory => Err(AllocError),
        reply => Ok(says_posted(&reply)),
    }
}

// Asks for posts one after another, up to the first that isn't posted; whether all were posted.
fn ask_posts<S: Store + Drop, G: Guards + Drop>(
    alloc: Global,
    desk: &mut Desk<S, G>,
    examiner: u32,
    posts: &[Posting],
) -> Result<bool, AllocError>
    ensures setting { desk.new.setting ≡ desk.old.setting }
    ensures served { IfOk result (λ posted. Serves desk.old.setting desk.old.trace
        (asked_by examiner (reverse (map posted_step posts.now)) desk.old.trace) desk.new.trace posted) }
{
    for posting in posts {
        let copied = posting.copy(alloc)?;
        let posted = ask_post(desk, examiner, copied)?;
        if !posted {
            return Ok(false);
        }
    }
    Ok(true)
}

// Serves a record by its requests: begun, its posts, committed. Whether all were posted.
fn serve_in_turn<S: Store + Drop, G: Guards + Drop>(
    alloc: Global,
    desk: &mut Desk<S, G>,
    deeds: &Deeds,
) -> Result<bool, AllocError>
    requires idle { IsIdle desk.old.trace }
    ensures setting { desk.new.setting ≡ desk.old.setting }
    ensures served { IfOk result (λ posted. Serves desk.old.setting desk.old.trace
        (after_record desk.old.trace (record_of deeds.now)) desk.new.trace posted) }
{
    begin(desk, deeds.examiner)?;
    let posted = ask_posts(alloc, desk, deeds.examiner, &deeds.posts)?;
    if !posted {
        return Ok(false);
    }
    commit(desk, deeds.examiner)?;
    Ok(true)
}

// Serves a record of one post by one call. Whether it was posted.
fn serve_at_once<S: Store + Drop, G: Guards + Drop>(
    desk: &mut Desk<S, G>,
    examiner: u32,
    posting: Posting,
) -> Result<bool, AllocError>
    requires idle { IsIdle desk.old.trace }
    ensures setting { desk.new.setting ≡ desk.old.setting }
    ensures served { IfOk result (λ posted. Serves desk.old.setting desk.old.trace
        (after_record desk.old.trace (record { examiner = examiner; steps = posted_step posting ∷ [] })) desk.new.trace posted) }
{
    match desk.serve_alone(examiner, Ask::Post(posting)) {
        Reply::Memory => Err(AllocError),
        reply => Ok(says_posted(&reply)),
    }
}

// Serves a record: one of a single post by one call, any other by its requests. Whether all was posted.
fn serve_deeds<S: Store + Drop, G: Guards + Drop>(
    alloc: Global,
    desk: &mut Desk<S, G>,
    deeds: &Deeds,
) -> Result<bool, AllocError>
    requires idle { IsIdle desk.old.trace }
    ensures setting { desk.new.setting ≡ desk.old.setting }
    ensures served { IfOk result (λ posted. Serves desk.old.setting desk.old.trace
        (after_record desk.old.trace (record_of deeds.now)) desk.new.trace posted) }
{
    match deeds.posts.as_slice() {
        [posting] => {
            let copied = posting.copy(alloc)?;
            serve_at_once(desk, deeds.examiner, copied)
        }
        _ => serve_in_turn(alloc, desk, deeds),
    }
}

/// Serves kept records again, in their order, at a desk that has served nothing. With `None` each post was posted, nobody is open,
/// and the desk's committed transactions are these records. With a place, from 1, the records in front of it stand so, and the one
/// in this place can't: a post of it isn't posted after them. `Err` is Memory, and then only some are served.
pub fn replay<S: Store + Drop, G: Guards + Drop>(
    alloc: Global,
    desk: &mut Desk<S, G>,
    deeds: &[Deeds],
) -> Result<Option<u64>, AllocError>
    requires unused { desk.old.trace ≡ [] }
    ensures setting { desk.new.setting ≡ desk.old.setting }
    ensures told { IfOk result (λ refused. ToldReplay desk.old.setting (map record_of deeds.now) refused desk.new.trace) }
{
    let mut place = 0;
    for kept in deeds {
        place += 1;
        let posted = serve_deeds(alloc, desk, kept)?;
        if !posted {
            return Ok(Some(place));
        }
    }
    Ok(None)
}
