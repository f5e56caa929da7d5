//! A chain's rows, put together from texts that are made once or known.

ghost use Rattle.std.specs.Prelude.{◌≡◌, ◌≤◌, ◌++◌, ◌∷◌, [], false, length};
ghost use Rattle.title_instrument.specs.{Estates.{estates_text}, Kinds.{kind_word}};
ghost use Rattle.title_report.specs.{EntryTexts.{entry_front, entry_text}, Fronts.{entry_start}, Puts.{IsPut}};

use crate::entry_line::EntryKey;
use crate::nodes::{add, add_number, start_row};
use crate::roster::Roster;
use title_device::{Failed, Sink};
use title_instrument::{Estates, Kind};
use title_page::{Line, Page};

// The word of a kind of instrument.
fn kind_bytes(kind: Kind) -> &'static [u8]
    ensures word { result.now ≡ kind_word kind }
    ensures short { length result.now ≤ 8 }
{
    match kind {
        Kind::Deed => b"deed",
        Kind::Warranty => b"warranty",
        Kind::Release => b"release",
    }
}

// The letters of estates between a comma and the line's end.
pub(crate) fn estates_end(estates: Estates) -> &'static [u8]
    ensures letters { result.now ≡ 44 ∷ (estates_text estates ++ 10 ∷ []) }
{
    match (estates.s, estates.o, estates.m) {
        (true, true, true) => b",SOM\n",
        (true, true, false) => b",SO\n",
        (true, false, true) => b",SM\n",
        (true, false, false) => b",S\n",
        (false, true, true) => b",OM\n",
        (false, true, false) => b",O\n",
        (false, false, true) => b",M\n",
        (false, false, false) => b",\n",
    }
}

// The text with which all rows of a chain begin.
pub(crate) fn make_start(examiner: u32) -> Line
    ensures made { result ≡ entry_start examiner }
{
    let mut start = Line::new();
    start_row(&mut start, examiner, b"entry");
    start
}

// The text of a key up to the first name.
pub(crate) fn make_front(key: &EntryKey) -> Line
    ensures made { result ≡ entry_front key.now }
{
    let mut front = Line::new();
    add_number(&mut front, key.place);
    add(&mut front, b",");
    add_number(&mut front, key.doc);
    add(&mut front, b",");
    add(&mut front, kind_bytes(key.kind));
    add(&mut front, b",");
    front
}

// Writes the text of a key in its parts.
pub(crate) fn put_entry_in_parts<S: Sink>(
    page: &mut Page,
    sink: &mut S,
    roster: &Roster,
    key: &EntryKey,
) -> Result<(), Failed>
    requires works { S.has_failed sink.old ≡ false }
    ensures put { IsPut result (S.taken sink.old) page.old (S.taken sink.new) page.new (S.has_failed sink.new)
        (entry_text roster.now key.now) }
{
    let front = make_front(key);
    let end = estates_end(key.estates);
    page.put(sink, front.as_bytes())?;
    roster.write(page, sink, key.grantor)?;
    page.put(sink, b",")?;
    roster.write(page, sink, key.grantee)?;
    page.put(sink, end)
}
