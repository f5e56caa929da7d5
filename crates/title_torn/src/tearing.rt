//! What a crash may have left of a disk, at each moment of what was asked of it.

use crate::lies::lies;
use crate::trial::{Allowed, Trial};
use std::alloc::{AllocError, Global};
use title_disk::{DiskCall, TornDisk};

/// How much is tried in the place of what a write was to leave.
#[derive(Clone, Copy, PartialEq, Eq)]
pub enum Depth {
    /// A few bytes.
    Few,
    /// Lies, and each byte for a write of one.
    Lies,
    /// The beginnings of what was written too.
    Beginnings,
    /// And what was written with one byte changed.
    Bytes,
}

// Of a longer text one beginning of three is tried.
const LONG: usize = 3_000;

// A crash: how many calls were made, and of them the torn one.
#[derive(Clone, Copy)]
struct Moment {
    calls: usize,
    torn: usize,
}

impl Moment {
    // Whether the torn call is the last one.
    fn is_of_last(self) -> bool {
        self.torn.saturating_add(1) == self.calls
    }
}

// The content that a crash leaves, where so many calls were made.
fn image(
    alloc: Global,
    disk: &TornDisk,
    moment: Moment,
    garbage: &[u8],
    later: bool,
) -> Result<Vec<u8>, AllocError> {
    let calls = moment.calls;
    if calls > disk.calls().len() {
        return Ok(Vec::new(alloc));
    }
    disk.image(alloc, calls, moment.torn, garbage, later)
}

// The bytes that a call was to write.
fn written_by(disk: &TornDisk, call: usize) -> Option<&[u8]> {
    match disk.calls().get(call) {
        Some(kept) => match &kept.call {
            DiskCall::Write(_, bytes) => Some(bytes.as_slice()),
            _ => None,
        },
        None => None,
    }
}

fn is_sync(disk: &TornDisk, call: usize) -> bool {
    match disk.calls().get(call) {
        Some(kept) => matches!(kept.call, DiskCall::Sync),
        None => false,
    }
}

// The first of some calls that no sync follows.
fn unsynced(disk: &TornDisk, calls: usize) -> usize {
    let mut first = 0;
    for call in 0..calls {
        if is_sync(disk, call) {
            first = call.saturating_add(1);
        }
    }
    first
}

/// Where the gate is opened: the call with this number writes its mark.
#[derive(Clone, Copy)]
pub struct Mark {
    pub call: usize,
}

impl Mark {
    // What a crash may leave after so many calls: the mark is one of them, or it was synced too.
    fn allows(self, calls: usize) -> Allowed {
        if calls <= self.call {
            Allowed::Before
        } else if calls == self.call.saturating_add(1) {
            Allowed::Either
        } else {
            Allowed::After
        }
    }
}

impl Trial<'_> {
    // Looks at what a crash leaves, and serves the day on one of so many that are looked at.
    fn look_once(
        &mut self,
        disk: &TornDisk,
        moment: Moment,
        garbage: &[u8],
        later: bool,
        mark: Mark,
    ) -> Result<(), AllocError> {
        let content = image(self.alloc, disk, moment, garbage, later)?;
        let is_right = self.look(content.as_slice(), mark.allows(moment.calls))?;
        if is_right && garbage.len() % 8 == 0 {
            self.serve_again(content.as_slice())?;
        }
        Ok(())
    }

    // The same, where memory may be short.
    fn look_at(
        &mut self,
        disk: &TornDisk,
        moment: Moment,
        garbage: &[u8],
        later: bool,
        mark: Mark,
    ) {
        if self.look_once(disk, moment, garbage, later, mark).is_err() {
            self.is_short = true;
        }
    }

    // Each byte in the place of one.
    fn tear_byte(&mut self, disk: &TornDisk, moment: Moment, mark: Mark) {
        self.look_at(disk, moment, b"", true, mark);
        for byte in 0..=u8::MAX {
            self.look_at(disk, moment, &[byte], true, mark);
        }
    }

    // A few bytes, or none.
    fn tear_to_few(&mut self, disk: &TornDisk, moment: Moment, mark: Mark) {
        for garbage in ["", "+", "-", "\n", "1"] {
            self.look_at(disk, moment, garbage.as_bytes(), true, mark);
            self.look_at(disk, moment, garbage.as_bytes(), false, mark);
        }
    }

    fn tear_to_lies(&mut self, disk: &TornDisk, moment: Moment, room: usize, mark: Mark) {
        let Ok(lies) = lies(self.alloc, room, self.before.last()) else {
            self.is_short = true;
            return;
        };
        for lie in lies.as_slice() {
            self.look_at(disk, moment, lie.as_slice(), true, mark);
            self.look_at(disk, moment, lie.as_slice(), false, mark);
        }
    }

    fn tear_to_beginnings(&mut self, disk: &TornDisk, moment: Moment, text: &[u8], mark: Mark) {
        for len in 0..text.len() {
            if text.len() <= LONG || len % 3 == 0 {
                let beginning = text.get(..len).unwrap_or(text);
                self.look_at(disk, moment, beginning, true, mark);
            }
        }
    }

    fn tear_to_bytes(&mut self, disk: &TornDisk, moment: Moment, text: &[u8], mark: Mark) {
        let Ok(mut changed) = Vec::from_slice(self.alloc, text) else {
            self.is_short = true;
            return;
        };
        for index in 0..text.len() {
            for byte in [b'+', b'-', b'\n', b',', b'"', b'0'] {
                set(&mut changed, index, byte);
                self.look_at(disk, moment, changed.as_slice(), true, mark);
            }
            set(&mut changed, index, text.get(index).copied().unwrap_or(0));
        }
    }

    // A write, torn.
    fn tear_write(
        &mut self,
        disk: &TornDisk,
        moment: Moment,
        text: &[u8],
        mark: Mark,
        depth: Depth,
    ) {
        if depth == Depth::Few || text.len() == 1 && !moment.is_of_last() {
            return self.tear_to_few(disk, moment, mark);
        }
        if text.len() == 1 {
            return self.tear_byte(disk, moment, mark);
        }
        self.tear_to_lies(disk, moment, text.len(), mark);
        if moment.is_of_last() && depth != Depth::Lies {
            self.tear_to_beginnings(disk, moment, text, mark);
        }
        if moment.is_of_last() && depth == Depth::Bytes {
            self.tear_to_bytes(disk, moment, text, mark);
        }
    }

    // One of the calls, torn.
    fn tear_call(&mut self, disk: &TornDisk, moment: Moment, mark: Mark, depth: Depth) {
        match written_by(disk, moment.torn) {
            Some(text) => self.tear_write(disk, moment, text, mark, depth),
            None => {
                self.look_at(disk, moment, b"", true, mark);
                self.look_at(disk, moment, b"", false, mark);
            }
        }
    }

    /// Looks at all that a crash may leave after each of a disk's calls, with each call torn that no sync follows.
    pub fn tear(&mut self, disk: &TornDisk, mark: Mark, depth: Depth) {
        for calls in 0..=disk.calls().len() {
            self.tear_after(disk, calls, mark, depth);
        }
    }

    /// The same after so many calls.
    pub fn tear_after(&mut self, disk: &TornDisk, calls: usize, mark: Mark, depth: Depth) {
        let whole = Moment { calls, torn: calls };
        self.look_at(disk, whole, b"", true, mark);
        for torn in unsynced(disk, calls)..calls {
            self.tear_call(disk, Moment { calls, torn }, mark, depth);
        }
    }
}

fn set(text: &mut Vec<u8>, index: usize, byte: u8) {
    if let Some(found) = text.get_mut(index) {
        *found = byte;
    }
}
