//! Devices: where bytes come from and where they go, and where they fail.

ghost use Rattle.std.specs.Prelude.{◌≡◌, false};

use crate::checks::must;
use crate::fake::{FakeSink, FakeSource};
use std::alloc::Global;
use std::io::{self, ErrorKind, Read, Write};
use std::process::Abort;
use title_device::{Device, Failed, ReadFault, SCRIPT_LIMIT, Sink, Source, read_all, write_all};

static TEXT: &[u8] = b"party,ADAMS\nparty,BELL\n";

// A reader of a byte a turn, which fails at one turn, and would go on after it.
#[derive(Drop)]
struct FlakyReader<'a> {
    left: &'a [u8],
    good_turns: usize,
}

impl Read for FlakyReader<'_> {
    fn read(&mut self, buf: &mut [u8]) -> io::Result<usize> {
        if self.good_turns == 0 {
            self.good_turns = usize::MAX;
            return Err(io::Error::from(ErrorKind::BrokenPipe));
        }
        self.good_turns -= 1;
        match (self.left.split_first(), buf.first_mut()) {
            (Some((byte, left)), Some(slot)) => {
                *slot = *byte;
                self.left = left;
                Ok(1)
            }
            _ => Ok(0),
        }
    }
}

// A writer of a byte a turn, which fails at one turn, and would go on after it.
#[derive(Drop)]
struct FlakyWriter {
    taken: Vec<u8>,
    good_turns: usize,
}

impl Write for FlakyWriter {
    fn write(&mut self, buf: &[u8]) -> io::Result<usize> {
        if self.good_turns == 0 {
            self.good_turns = usize::MAX;
            return Err(io::Error::from(ErrorKind::BrokenPipe));
        }
        self.good_turns -= 1;
        match buf.first() {
            Some(byte) => {
                self.taken.push(*byte)?;
                Ok(1)
            }
            None => Ok(0),
        }
    }

    fn flush(&mut self) -> io::Result<()> {
        Ok(())
    }
}

fn reader(good_turns: usize) -> FlakyReader<'static> {
    FlakyReader {
        left: TEXT,
        good_turns,
    }
}

fn writer(alloc: Global, good_turns: usize) -> FlakyWriter {
    FlakyWriter {
        taken: Vec::new(alloc),
        good_turns,
    }
}

// The bytes that a reader of TEXT hadn't given are these.
fn has_left(device: Device<FlakyReader<'_>>, given: usize) -> bool {
    Some(device.into_inner().left) == TEXT.get(given..)
}

// The bytes that a writer has taken are the first of TEXT.
fn has_taken(device: Device<FlakyWriter>, taken: usize) -> bool {
    Some(device.into_inner().taken.as_slice()) == TEXT.get(..taken)
}

// A device over a reader that fails at this turn fails there, and reads no more.
fn assert_read_fails(rt: &impl Abort, alloc: Global, good_turns: usize) {
    let mut device = Device::new(reader(good_turns));
    let fault = read_all(alloc, &mut device).err();
    must(rt, fault == Some(ReadFault::Read), "the fault Read");
    must(rt, device.failed(), "a failed reader");
    must(rt, has_left(device, good_turns), "what is left");
}

// A device over a writer that fails at this turn fails there, and writes no more.
fn assert_write_fails(rt: &impl Abort, alloc: Global, good_turns: usize) {
    let mut device = Device::new(writer(alloc, good_turns));
    let fault = write_all(&mut device, TEXT).err();
    must(rt, fault == Some(Failed), "a failed write");
    must(rt, device.failed(), "a failed writer");
    must(rt, has_taken(device, good_turns), "what is taken");
}

// A reader that doesn't fail gives all.
fn assert_read(rt: &impl Abort, alloc: Global) {
    let mut device = Device::new(reader(TEXT.len() + 1));
    let read = read_all(alloc, &mut device).expect(rt, "all is read");
    must(rt, read.as_slice() == TEXT, "all bytes");
}

// A writer that doesn't fail takes all.
fn assert_written(rt: &impl Abort, alloc: Global) {
    let mut device = Device::new(writer(alloc, TEXT.len()));
    let is_written = write_all(&mut device, TEXT).is_ok();
    must(rt, is_written && !device.failed(), "all is written");
}

// One turn for each byte, and for a reader one that shows the end.
#[test]
fn a_device_fails_where_what_it_wraps_does(rt: HostRuntime) {
    for good_turns in 0..TEXT.len() {
        assert_read_fails(&rt, rt.alloc(), good_turns);
        assert_write_fails(&rt, rt.alloc(), good_turns);
    }
    assert_read_fails(&rt, rt.alloc(), TEXT.len());
    assert_read(&rt, rt.alloc());
    assert_written(&rt, rt.alloc());
}

// A source of TEXT, a byte a pull.
fn source(good_pulls: u64) -> FakeSource<'static>
    ensures works { result.has_failed ≡ false }
{
    FakeSource {
        left: TEXT,
        piece: 1,
        good_pulls,
        pulls: 0,
        has_failed: false,
    }
}

fn assert_pull_fails(rt: &impl Abort, alloc: Global, good_pulls: u64) {
    let mut source = source(good_pulls);
    let fault = read_all(alloc, &mut source).err();
    must(rt, fault == Some(ReadFault::Read), "the fault Read");
    must(rt, source.failed(), "a failed source");
}

fn assert_pulled(rt: &impl Abort, alloc: Global, good_pulls: u64) {
    let mut source = source(good_pulls);
    let read = read_all(alloc, &mut source).expect(rt, "all is read");
    must(rt, read.as_slice() == TEXT, "all bytes");
    must(rt, !source.failed(), "a source that works");
}

// One pull for each byte and one that shows the end: a source that fails at any of these is no script.
#[test]
fn a_failed_pull_is_read(rt: HostRuntime) {
    let pulls = TEXT.len() as u64 + 1;
    for good_pulls in 0..pulls {
        assert_pull_fails(&rt, rt.alloc(), good_pulls);
    }
    assert_pulled(&rt, rt.alloc(), pulls);
}

// How many bytes are read of a script, or why it isn't.
fn read_len(alloc: Global, script: &[u8]) -> Result<usize, ReadFault> {
    let mut device = Device::new(script);
    match read_all(alloc, &mut device) {
        Ok(read) => Ok(read.len()),
        Err(fault) => Err(fault),
    }
}

fn commas(rt: &impl Abort, alloc: Global) -> Vec<u8> {
    let bytes = vec![in alloc; b','; SCRIPT_LIMIT + 1];
    bytes.expect(rt, "there is memory")
}

fn assert_limit(rt: &impl Abort, alloc: Global, bytes: &[u8]) {
    let (_, most) = bytes.split_first().expect(rt, "a byte");
    must(rt, read_len(alloc, most) == Ok(SCRIPT_LIMIT), "the most");
    let longer = read_len(alloc, bytes);
    must(rt, longer == Err(ReadFault::Read), "a byte too many");
}

#[test]
fn a_script_has_a_limit(rt: HostRuntime) {
    let bytes = commas(&rt, rt.alloc());
    assert_limit(&rt, rt.alloc(), bytes.as_slice());
}

// A sink that takes `piece` bytes a push takes as many as it has room for, and fails where that isn't all.
fn assert_pushed(rt: &impl Abort, alloc: Global, piece: usize, room: usize) {
    let mut sink = FakeSink {
        taken: Vec::new(alloc),
        piece,
        room,
        has_failed: false,
    };
    let fault = write_all(&mut sink, TEXT).err();
    must(rt, fault.is_none() == (room == TEXT.len()), "a whole text");
    must(rt, sink.failed() == fault.is_some(), "a failed sink");
    let taken = Some(sink.taken.as_slice());
    must(rt, taken == TEXT.get(..room), "what is taken");
}

#[test]
fn a_failed_push_is_write(rt: HostRuntime) {
    for piece in [1, 7, TEXT.len()] {
        for room in 0..TEXT.len() + 1 {
            assert_pushed(&rt, rt.alloc(), piece, room);
        }
    }
}

// Over five bytes.
fn assert_filled(rt: &impl Abort, space: &mut [u8]) {
    let mut full = Device::new(space);
    let fault = write_all(&mut full, TEXT).err();
    must(rt, fault == Some(Failed), "a failed write");
    must(rt, full.failed(), "a failed writer");
    must(rt, full.into_inner().is_empty(), "no room");
}

// Over a list.
fn assert_held(rt: &impl Abort, alloc: Global) {
    let mut held = Device::new(Vec::new(alloc));
    must(rt, write_all(&mut held, TEXT).is_ok(), "all is written");
    must(rt, held.into_inner().as_slice() == TEXT, "all bytes");
}

#[test]
fn a_writer_that_takes_nothing_has_failed(rt: HostRuntime) {
    let mut space = [0; 5];
    assert_filled(&rt, &mut space);
    must(&rt, TEXT.starts_with(&space), "the first bytes");
    assert_held(&rt, rt.alloc());
}
