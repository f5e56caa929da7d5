//! A content that a crash leaves is looked at: it has to stand for what stood before the day, or for that and all of the day.

use crate::day::{Day, Plant};
use crate::second::{Verdict, read};
use crate::served::{How, Served, is_told, serve};
use crate::tally::{Tally, one_more};
use anyhow::{Result, bail};
use std::alloc::{AllocError, Global};
use title_lasting::LastingFault;

/// What a content may stand for.
#[derive(Clone, Copy, PartialEq, Eq)]
pub enum Allowed {
    Before,
    Either,
    After,
}

/// A day on a plant, what was tried of it, and whether memory was short, so that not all was.
#[derive(Clone, Copy)]
pub struct Trial<'a> {
    pub alloc: Global,
    pub day: &'a Day,
    pub before: &'a Plant,
    pub after: &'a Plant,
    pub tally: Tally,
    pub is_short: bool,
}

// For what a content stands.
#[derive(Clone, Copy, PartialEq, Eq)]
enum Side {
    Before,
    After,
    Neither,
}

// Whether a content that is told by these rows is this plant with such a tail.
fn is_of(plant: &Plant, content: &[u8], rows: &[u8], tail: usize) -> bool {
    let fixed = plant.fixed();
    content.starts_with(fixed)
        && tail <= content.len().saturating_sub(fixed.len())
        && rows.starts_with(plant.standing.as_slice())
}

// Whether a content may stand for this; of a day that adds nothing both sides are one.
fn may_be(allowed: Allowed, side: Side) -> bool {
    match side {
        Side::Before => allowed != Allowed::After,
        Side::After => allowed != Allowed::Before,
        Side::Neither => false,
    }
}

impl Trial<'_> {
    // For what a content stands that is told by these rows.
    fn side_told(&self, content: &[u8], rows: &[u8], tail: usize) -> Side {
        if is_of(self.after, content, rows, tail) {
            Side::After
        } else if is_of(self.before, content, rows, tail) {
            Side::Before
        } else {
            Side::Neither
        }
    }

    // For what a content stands: both readings have to tell it, and its bytes.
    fn side(&self, content: &[u8]) -> Result<Side, AllocError> {
        let Verdict::Plant(numbers, tail) = read(self.alloc, content)? else {
            return Ok(Side::Neither);
        };
        let rows = numbers.rows(self.alloc, tail)?;
        if !is_told(self.alloc, content, rows.as_bytes())? {
            return Ok(Side::Neither);
        }
        Ok(self.side_told(content, rows.as_bytes(), tail))
    }

    /// Looks at a content.
    pub fn look(&mut self, content: &[u8], allowed: Allowed) -> Result<bool, AllocError> {
        let side = self.side(content)?;
        match side {
            Side::Before => one_more(&mut self.tally.before),
            Side::After => one_more(&mut self.tally.after),
            Side::Neither => {}
        }
        let allowed = if self.day.block.is_empty() {
            Allowed::Either
        } else {
            allowed
        };
        let is_right = may_be(allowed, side);
        if !is_right {
            one_more(&mut self.tally.differ);
        }
        Ok(is_right)
    }

    // Whether what came of the day once more is right: served where it didn't count, and else told the last place.
    fn is_served_once(&self, served: &Served) -> bool {
        let is_at_rest = served.disk.bytes() == self.after.file.as_slice();
        let is_right = match served.outcome {
            Ok(()) => served.report.as_slice() == self.day.report.as_slice(),
            Err(LastingFault::After(last)) => {
                served.report.is_empty() && last == self.after.last() && last != self.before.last()
            }
            Err(_) => false,
        };
        is_at_rest && is_right
    }

    /// Serves the day on a content: which call of the disk is refused, and which place has to be the last.
    pub fn serve(
        &self,
        content: &[u8],
        refused: Option<usize>,
        after: Option<u64>,
    ) -> Result<Served, AllocError> {
        let how = How {
            schedule: self.day.schedule,
            refused,
            after,
        };
        serve(self.alloc, content, self.day.script.as_slice(), how)
    }

    /// Serves the day on a content, where it doesn't count yet: the file comes to rest with it.
    pub fn serve_again(&mut self, content: &[u8]) -> Result<(), AllocError> {
        let served = self.serve(content, None, Some(self.before.last()))?;
        one_more(&mut self.tally.served);
        if !self.is_served_once(&served) {
            one_more(&mut self.tally.differ);
        }
        Ok(())
    }

    /// Tells what came of it all.
    pub fn tell(&self, rt: &impl Print, what: &str) -> Result<()> {
        if self.is_short {
            bail!("memory is short");
        }
        let (name, tally) = (self.day.name, self.tally);
        println!(rt; "{name}, {what}: {tally}")?;
        Ok(())
    }
}
