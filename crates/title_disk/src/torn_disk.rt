//! A disk in memory, for tests: it keeps each call, tells what a crash might have left, and can refuse a call.

ghost use Rattle.std.specs.Prelude.{◌≡◌, ◌⊎◌, ◌≤◌, ◌<◌, ◌^◌, false, length, reverse, take, drop, IfOk, OnOk, OnErr};
ghost use Rattle.title_disk.specs.{Crashes.{Holds, Torn, Cut, Follows, Only, Elapses}, Laws.KeptCalls.{counts_now, only_now}};
ghost use Rattle.title_disk.specs.Kept.{MayLeave, LeftSince, Leaves, Notes, content_between};
ghost use Rattle.title_disk.specs.TornDisks.{bytes_of, calls_of, torn_may_leave, torn_left_since, torn_has_failed};

use crate::call::{DiskCall, KeptCall};
use crate::disk::Disk;
use crate::fault::{DiskFailed, DiskFault};
use std::alloc::{AllocError, Global};

/// A disk in memory. It fails at the call that it is to refuse, and where memory for a call runs out. A write or a cut that it
/// refuses is done all the same.
#[derive(Drop)]
pub struct TornDisk {
    alloc: Global,
    bytes: Vec<u8>,
    calls: Vec<KeptCall>,
    refused: Option<usize>,
    failed: bool,
}

impl TornDisk {
    /// A disk with these bytes, all of them synced. It refuses the call of the number `refused`, counted from 0.
    pub fn new(alloc: Global, bytes: Vec<u8>, refused: Option<usize>) -> TornDisk
        ensures bytes { bytes_of result ≡ bytes.items }
        ensures durable { Only bytes.items (torn_may_leave result) }
        ensures works { torn_has_failed result ≡ false }
    {
        TornDisk {
            alloc,
            bytes,
            calls: Vec::new(alloc),
            refused,
            failed: false,
        }
    }

    /// What a read returns.
    pub fn bytes(&self) -> &[u8]
        ensures bytes { result.now ≡ bytes_of self.now }
    {
        &self.bytes
    }

    /// The calls, the oldest first. A refused read or sync isn't one of them.
    pub fn calls(&self) -> &[KeptCall]
        ensures calls { reverse result.now ≡ calls_of self.now }
    {
        &self.calls
    }

    /// A content that a crash after the first `calls` calls might have left: of what the call of the number `torn` wrote, the disk
    /// has `garbage` in place of it, as much as there is room for; of the calls behind it, all where `later` says so, or none. What
    /// a sync has seen stays.
    pub fn image(
        &self,
        alloc: Global,
        calls: usize,
        torn: usize,
        garbage: &[u8],
        later: bool,
    ) -> Result<Vec<u8>, AllocError>
        requires { calls ≤ length (calls_of self.now) }
        ensures left { IfOk result (λ image. torn_left_since self.now calls image.items) }
    {
        let mut image = content_at(&self.bytes, &self.calls, 0).to_vec(alloc)?;
        for number in 0..calls {
            let fate = if number < torn || number > torn && later {
                Fate::Done
            } else if number > torn {
                Fate::Lost
            } else {
                Fate::Torn(garbage)
            };
            let after = content_at(&self.bytes, &self.calls, number + 1);
            image = after_call(alloc, &self.calls[number].call, image, fate, after)?;
        }
        Ok(image)
    }

    fn refuses_next(&self) -> bool {
        match self.refused {
            Some(number) => number == self.calls.len(),
            None => false,
        }
    }
}

impl Disk for TornDisk {
    ghost seen = { bytes_of };

    ghost may_leave = { torn_may_leave };

    ghost moment = { λ disk. length (calls_of disk) };

    ghost left_since = { torn_left_since };

    ghost has_failed = { torn_has_failed };

    ghost counts_now = { λ disk t c le may. counts_now (bytes_of disk) (calls_of disk) t c may };

    ghost only_now = { λ disk c left. only_now (bytes_of disk) (calls_of disk) c left };

    fn read(&mut self, alloc: Global) -> Result<Vec<u8>, DiskFault> {
        if self.refuses_next() {
            self.failed = true;
            return Err(DiskFault::Failed);
        }
        let bytes = self.bytes.to_vec(alloc)?;
        note(self.alloc, &self.bytes, &mut self.calls, DiskCall::Read)?;
        Ok(bytes)
    }

    fn write_at(&mut self, at: usize, bytes: &[u8]) -> Result<(), DiskFailed> {
        let refused = self.refuses_next();
        match write(self.alloc, &mut self.bytes, &mut self.calls, at, bytes) {
            Ok(()) if !refused => Ok(()),
            _ => {
                self.failed = true;
                Err(DiskFailed)
            }
        }
    }

    fn cut(&mut self, len: usize) -> Result<(), DiskFailed> {
        let refused = self.refuses_next();
        match cut(self.alloc, &mut self.bytes, &mut self.calls, len) {
            Ok(()) if !refused => Ok(()),
            _ => {
                self.failed = true;
                Err(DiskFailed)
            }
        }
    }

    fn sync(&mut self) -> Result<(), DiskFailed> {
        if self.refuses_next() {
            self.failed = true;
            return Err(DiskFailed);
        }
        match note(self.alloc, &self.bytes, &mut self.calls, DiskCall::Sync) {
            Ok(()) => Ok(()),
            Err(_) => {
                self.failed = true;
                Err(DiskFailed)
            }
        }
    }
}

// Keeps a call and the bytes before it.
fn note(
    alloc: Global,
    bytes: &[u8],
    calls: &mut Vec<KeptCall>,
    asked: DiskCall,
) -> Result<(), AllocError>
    ensures ok { OnOk result (Notes asked bytes.now calls.old.items calls.new.items) }
    ensures err { OnErr result (calls.new.items ≡ calls.old.items) }
{
    let before = bytes.to_vec(alloc)?;
    calls.push(KeptCall {
        call: asked,
        before,
    })?;
    Ok(())
}

fn write(
    alloc: Global,
    bytes: &mut Vec<u8>,
    calls: &mut Vec<KeptCall>,
    at: usize,
    written: &[u8],
) -> Result<(), AllocError>
    requires { at ≤ length bytes.old.items }
    ensures written { OnOk result (Holds bytes.old.items at written.now bytes.new.items) }
    ensures fits { OnOk result (length bytes.new.items < 2 ^ 63) }
    ensures crash { Follows (Torn at (length written.now)) (MayLeave bytes.old.items (reverse calls.old.items))
        (MayLeave bytes.new.items (reverse calls.new.items)) }
    ensures time { Elapses (length (reverse calls.old.items)) (length (reverse calls.new.items))
        (LeftSince bytes.old.items (reverse calls.old.items)) (LeftSince bytes.new.items (reverse calls.new.items))
        (MayLeave bytes.new.items (reverse calls.new.items)) }
{
    let next = overwritten(alloc, bytes, at, written)?;
    let copy = written.to_vec(alloc)?;
    note(alloc, bytes, calls, DiskCall::Write(at, copy))?;
    *bytes = next;
    Ok(())
}

fn cut(
    alloc: Global,
    bytes: &mut Vec<u8>,
    calls: &mut Vec<KeptCall>,
    len: usize,
) -> Result<(), AllocError>
    ensures cut { OnOk result (bytes.new.items ≡ take len bytes.old.items) }
    ensures crash { Follows (Cut len) (MayLeave bytes.old.items (reverse calls.old.items))
        (MayLeave bytes.new.items (reverse calls.new.items)) }
    ensures time { Elapses (length (reverse calls.old.items)) (length (reverse calls.new.items))
        (LeftSince bytes.old.items (reverse calls.old.items)) (LeftSince bytes.new.items (reverse calls.new.items))
        (MayLeave bytes.new.items (reverse calls.new.items)) }
{
    note(alloc, bytes, calls, DiskCall::Cut(len))?;
    bytes.truncate(len);
    Ok(())
}

// A content with other bytes from an offset on.
fn overwritten(
    alloc: Global,
    content: &[u8],
    at: usize,
    bytes: &[u8],
) -> Result<Vec<u8>, AllocError>
    requires { at ≤ length content.now }
    ensures holds { IfOk result (λ next. Holds content.now at bytes.now next.items) }
{
    let mut next = content[..at].to_vec(alloc)?;
    next.extend_from_slice(bytes)?;
    if bytes.len() < content.len() - at {
        next.extend_from_slice(&content[at + bytes.len()..])?;
    }
    Ok(next)
}

// What becomes of a call until the next sync.
#[derive(Clone, Copy)]
enum Fate<'a> {
    Done,
    Lost,
    Torn(&'a [u8]),
}

// What a read returned before the call of a number, or returns now.
fn content_at<'a>(bytes: &'a [u8], calls: &'a [KeptCall], number: usize) -> &'a [u8]
    ensures { result.now ≡ content_between bytes.now (drop number calls.now) }
{
    if number < calls.len() {
        &calls[number].before
    } else {
        bytes
    }
}

// What a call makes of a content, or what is there after it.
fn after_call(
    alloc: Global,
    asked: &DiskCall,
    image: Vec<u8>,
    fate: Fate,
    after: &[u8],
) -> Result<Vec<u8>, AllocError>
    ensures leaves { IfOk result (λ next. (next.items ≡ after.now) ⊎ Leaves asked.now image.items next.items) }
{
    match asked {
        DiskCall::Read => Ok(image),
        DiskCall::Write(at, bytes) => torn_write(alloc, image, *at, bytes, fate),
        DiskCall::Cut(len) => Ok(torn_cut(image, *len, fate)),
        DiskCall::Sync => after.to_vec(alloc),
    }
}

fn torn_write(
    alloc: Global,
    image: Vec<u8>,
    at: usize,
    bytes: &[u8],
    fate: Fate,
) -> Result<Vec<u8>, AllocError>
    ensures torn { IfOk result (λ next. Torn at (length bytes.now) image.items next.items) }
{
    if at <= image.len() {
        overwritten(alloc, &image, at, part(bytes, fate))
    } else {
        Ok(image)
    }
}

fn torn_cut(mut image: Vec<u8>, len: usize, fate: Fate) -> Vec<u8>
    ensures cut { Cut len image.items result.items }
{
    if matches!(fate, Fate::Done) {
        image.truncate(len);
    }
    image
}

// The bytes that come to stand where these were written: no more than these.
fn part<'a>(bytes: &'a [u8], fate: Fate<'a>) -> &'a [u8]
    ensures less { length result.now ≤ length bytes.now }
{
    match fate {
        Fate::Done => bytes,
        Fate::Lost => &[],
        Fate::Torn(garbage) => {
            if garbage.len() <= bytes.len() {
                garbage
            } else {
                &garbage[..bytes.len()]
            }
        }
    }
}
