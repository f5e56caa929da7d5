//! The texts of entries that a report's chains have shown.

ghost use Rattle.std.specs.Prelude.{◌≡◌, ℕ, List, All, IfOk};
ghost use Rattle.title_report.specs.EntryTexts.{AreMade, IsMade};

use crate::entry_line::EntryLine;
use crate::roster::Roster;
use std::alloc::{AllocError, Global};
use std::marker::Model;

// The most lines: 11 MB, of which a report takes what its chains show.
const LINES: usize = 65_536;

// The number of no line.
const NO_LINE: u32 = u32::MAX;

// Lines with the texts of entries. Which is an entry's goes by its place, counted round: by its lowest bits, since the numbers are
// as many as a power of two.
#[derive(Drop)]
pub(crate) struct KeptLines {
    pub(crate) numbers: Vec<u32>,
    pub(crate) lines: Vec<EntryLine>,
}

/// The roster of a report, and lines with the texts of entries that its chains have shown, so that these are made once.
/// A contract sees the names' bytes.
#[derive(Drop)]
pub struct EntryLines<'a> {
    pub(crate) roster: Roster<'a>,
    pub(crate) lines: Option<KeptLines>,
}

impl<'a> Model for EntryLines<'a> {
    ghost use Rattle.std.specs.Prelude.{ℕ, List};

    ghost Value = { List (List ℕ) };

    ghost use Rattle.title_report.specs.EntryTexts.{AreMade};

    ghost view = { λ x. x.roster };

    ghost invariant = { λ x. AreMade x.roster x.lines };
}

// Adds a line with no text made, where there is room for it, and tells whether there was.
fn add_line(lines: &mut Vec<EntryLine>) -> bool
    ensures lines { (names : List (List ℕ)) → All (IsMade names) lines.old.items → All (IsMade names) lines.new.items }
{
    let has_room = lines.len() < lines.capacity();
    if has_room {
        lines.push_reserved(EntryLine::new());
    }
    has_room
}

// As many as these, up to a power of two; none of none.
fn power_from(entries: usize) -> usize {
    match entries.checked_next_power_of_two() {
        Some(power) if entries > 0 => power,
        _ => entries,
    }
}

impl KeptLines {
    // Room for so many lines, at most 65,536, none of them begun, by at least so many slots.
    fn new(alloc: Global, entries: usize) -> Result<KeptLines, AllocError>
        ensures made { IfOk result (λ it. (names : List (List ℕ)) → All (IsMade names) it.lines.items) }
    {
        Ok(KeptLines {
            numbers: vec![in alloc; NO_LINE; power_from(entries)]?,
            lines: Vec::with_capacity(alloc, entries.min(LINES))?,
        })
    }

    // The number of the line of an entry at this place, which is begun where there is none yet: as many as there are lines where
    // no more has room. Entries may share a line: it has the text of the last one.
    #[inline]
    pub(crate) fn number_of(&mut self, place: u64) -> usize
        ensures made { (names : List (List ℕ)) → All (IsMade names) self.old.lines.items → All (IsMade names) self.new.lines.items }
    {
        let next = self.lines.len();
        let mask = self.numbers.len().wrapping_sub(1);
        let Some(number) = self.numbers.get_mut(place as usize & mask) else {
            return next;
        };
        if (*number as usize) < next {
            return *number as usize;
        }
        if add_line(&mut self.lines) {
            *number = next as u32;
        }
        next
    }
}

impl<'a> EntryLines<'a> {
    /// A roster with lines for so many entries, at most 65,536. Their memory is taken here and nowhere else; where it is refused
    /// there are none, and each row is made anew.
    pub fn new(alloc: Global, roster: Roster<'a>, entries: usize) -> EntryLines<'a>
        ensures names { result ≡ roster.entry }
    {
        EntryLines {
            roster,
            lines: KeptLines::new(alloc, entries).ok(),
        }
    }
}
