//! A day is served on a plant, torn at each moment, with each call refused, and on what a crash has left.

use crate::day::{Day, Plant};
use crate::served::{Served, serve_flaky};
use crate::tally::{Tally, one_more};
use crate::tearing::{Depth, Mark};
use crate::trial::Trial;
use anyhow::Result;
use std::alloc::{AllocError, Global};
use title_lasting::LastingFault;

// The calls that a day makes of a disk, and which of them writes the mark, counted from 0.
#[derive(Clone, Copy)]
struct Calls {
    count: usize,
    mark: Mark,
}

// At rest: read; line feed, block, closed gate, sync; mark, sync. Behind a torn end it is cut, synced, closed and synced first. A
// day that adds nothing ends before.
fn calls_of(day: &Day, is_torn: bool) -> Calls {
    let never = Mark { call: usize::MAX };
    let (count, mark) = match (day.block.is_empty(), is_torn) {
        (false, false) => (7, Mark { call: 5 }),
        (false, true) => (11, Mark { call: 9 }),
        (true, false) => (1, never),
        (true, true) => (5, never),
    };
    Calls { count, mark }
}

impl Trial<'_> {
    // Whether a day came to what it has to.
    fn is_as_wanted(&self, served: &Served, cut: usize, calls: Calls) -> bool {
        served.outcome.is_ok()
            && served.cut == cut
            && served.disk.calls().len() == calls.count
            && served.report.as_slice() == self.day.report.as_slice()
            && served.disk.bytes() == self.after.file.as_slice()
    }

    fn must(&mut self, is_right: bool) {
        if !is_right {
            one_more(&mut self.tally.differ);
        }
    }

    // Serves the day with one of the disk's calls refused: nothing is told, and the file may be torn as ever.
    fn refuse(&mut self, content: &[u8], call: usize, calls: Calls) -> Result<(), AllocError> {
        let served = self.serve(content, Some(call), None)?;
        let is_before = call < calls.mark.call;
        let is_told = match served.outcome {
            Err(LastingFault::Disk) => is_before,
            Err(LastingFault::Unsure) => !is_before,
            _ => false,
        };
        one_more(&mut self.tally.refused);
        self.must(is_told && served.report.is_empty());
        let made = served.disk.calls().len();
        self.tear_after(&served.disk, made, calls.mark, Depth::Few);
        Ok(())
    }

    // Serves the day on a file, and with each call refused.
    fn serve_and_refuse(
        &mut self,
        content: &[u8],
        cut: usize,
        calls: Calls,
    ) -> Result<Served, AllocError> {
        let served = self.serve(content, None, None)?;
        let is_right = self.is_as_wanted(&served, cut, calls);
        self.must(is_right);
        for call in 0..calls.count {
            self.refuse(content, call, calls)?;
        }
        Ok(served)
    }

    /// Serves the day on a file at rest.
    pub fn at_rest(&mut self, depth: Depth) -> Result<(), AllocError> {
        let calls = calls_of(self.day, false);
        let served = self.serve_and_refuse(self.before.file.as_slice(), 0, calls)?;
        self.tear(&served.disk, calls.mark, depth);
        Ok(())
    }

    // Serves the day with a reader that fails after so many bytes: the file stays as it is.
    fn with_reader(&mut self, bytes: usize) -> Result<(), AllocError> {
        let file = self.before.file.as_slice();
        let served = serve_flaky(self.alloc, file, self.day, bytes, usize::MAX)?;
        one_more(&mut self.tally.refused);
        self.must(
            served.outcome == Err(LastingFault::Read)
                && served.report.is_empty()
                && served.disk.bytes() == file,
        );
        Ok(())
    }

    // Serves the day with a writer that fails after so many bytes: the day counts.
    fn with_writer(&mut self, bytes: usize) -> Result<(), AllocError> {
        let file = self.before.file.as_slice();
        let served = serve_flaky(self.alloc, file, self.day, usize::MAX, bytes)?;
        one_more(&mut self.tally.refused);
        self.must(
            served.outcome == Err(LastingFault::Write)
                && served.report.len() == bytes
                && self.day.report.starts_with(served.report.as_slice())
                && served.disk.bytes() == self.after.file.as_slice(),
        );
        Ok(())
    }

    /// Serves the day with a reader and with a writer that fail: at once, after a byte, half way and before the last.
    pub fn at_devices(&mut self) -> Result<(), AllocError> {
        let (read, written) = (self.day.script.len(), self.day.report.len());
        for bytes in [0, 1, read / 2, read] {
            self.with_reader(bytes)?;
        }
        for bytes in [0, 1, written / 2, written.saturating_sub(1)] {
            self.with_writer(bytes)?;
        }
        Ok(())
    }

    // Serves the day on what a crash has left, and looks at what another one leaves while that is repaired.
    fn on_torn(&mut self, content: &[u8]) -> Result<(), AllocError> {
        let calls = calls_of(self.day, true);
        let cut = content.len().saturating_sub(self.before.fixed().len());
        let served = self.serve_and_refuse(content, cut, calls)?;
        for made in 0..=served.disk.calls().len().min(5) {
            self.tear_after(&served.disk, made, calls.mark, Depth::Lies);
        }
        Ok(())
    }

    // Serves the day on a file with this in the place of the gate at its end.
    fn on_tail(&mut self, tail: &[u8]) -> Result<(), AllocError> {
        let mut content = Vec::from_slice(self.alloc, self.before.fixed())?;
        content.extend_from_slice(tail)?;
        self.on_torn(content.as_slice())
    }

    /// Serves the day on what a crash may have left in the place of the gate: nothing, a lone open one, another byte, lies behind a closed
    /// one, and a block behind it, half or whole.
    pub fn on_tails(&mut self) -> Result<(), AllocError> {
        for tail in [
            b"".as_slice(),
            b"+",
            b"\n",
            b"-\n7,begin\n7,commit\nend,1\n+\n7,begin\n",
        ] {
            self.on_tail(tail)?;
        }
        let staged = staged(self.alloc, self.day)?;
        let half = staged.len().saturating_sub(1) / 2;
        self.on_tail(staged.get(..half).unwrap_or(b""))?;
        self.on_tail(staged.as_slice())
    }
}

// A closed gate with the day's block behind it.
fn staged(alloc: Global, day: &Day) -> Result<Vec<u8>, AllocError> {
    let mut staged = Vec::from_slice(alloc, b"-\n1,begin\n")?;
    staged.extend_from_slice(day.block.as_slice())?;
    staged.push(b'-')?;
    Ok(staged)
}

// Tries a day on a plant, after which another stands, and tells what came of it.
fn try_between<R: Print + AllocGlobal>(
    rt: &R,
    before: &Plant,
    after: &Plant,
    day: &Day,
    depth: Depth,
) -> Result<()> {
    let mut trial = Trial {
        alloc: rt.alloc(),
        day,
        before,
        after,
        tally: Tally::default(),
        is_short: false,
    };
    trial.at_devices()?;
    trial.at_rest(depth)?;
    trial.tell(rt, "at rest")?;
    trial.tally = Tally::default();
    trial.on_tails()?;
    trial.tell(rt, "torn")
}

/// Tries a day on a plant, and tells what came of it: what stands after it.
pub fn try_day<R: Print + AllocGlobal>(
    rt: &R,
    before: &Plant,
    day: &Day,
    depth: Depth,
) -> Result<Plant> {
    let after = before.after(rt.alloc(), day)?;
    try_between(rt, before, &after, day, depth)?;
    Ok(after)
}
