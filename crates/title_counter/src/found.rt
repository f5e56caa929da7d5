//! The row that a line is.

ghost use Rattle.std.specs.{Prelude.{◌≡◌, IfOk, option_map}, List.{list_any}};
ghost use Rattle.csv.specs.Records.{fields_of};
ghost use Rattle.title_plan.specs.Plans.{rows_in};
ghost use Rattle.title_counter.specs.Founds.{found_among, found_of, has_line_feed, is_spoilt};

use crate::reading::{Position, Taken, read_next, without_mark};
use csv::ByteRecord;
use std::alloc::{AllocError, Global};

/// What is found in a line: nothing, since it is blank; something that is no row; or a row's fields.
#[derive(Drop)]
pub(crate) enum Found<T> {
    Blank,
    Spoilt,
    Row(T),
}

// Whether a field goes on over the end of its line.
fn has_line_feed(field: Option<&[u8]>) -> bool
    ensures has { result ≡ is_spoilt (option_map (λ f. f.now) field.entry) }
{
    match field {
        Some(field) => field.contains(&b'\n'),
        None => false,
    }
}

// Whether a field of a record does.
fn goes_over(raw: &ByteRecord) -> bool
    ensures over { result ≡ list_any has_line_feed (fields_of raw.now) }
{
    for i in 0..raw.len() {
        if has_line_feed(raw.get(i)) {
            return true;
        }
    }
    false
}

/// What is found in a line, which stands here with its line feed.
pub(crate) fn read_line(alloc: Global, text: &[u8]) -> Result<Found<ByteRecord>, AllocError>
    ensures found { IfOk result (λ found. found_of found ≡ found_among (rows_in text.now)) }
{
    let line = without_mark(text);
    let Some(first) = read_next(alloc, line, 0, Position::RecordStart)? else {
        return Ok(Found::Blank);
    };
    let second = read_next(alloc, line, first.next, first.position)?;
    if second.is_some() {
        return Ok(Found::Spoilt);
    }
    if goes_over(&first.raw) {
        return Ok(Found::Spoilt);
    }
    let Taken {
        raw,
        position: _,
        next: _,
    } = first;
    Ok(Found::Row(raw))
}
