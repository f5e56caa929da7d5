//! The rows of a block, and their fields.

ghost use Rattle.std.specs.Prelude.{◌≡◌, ◌<◌, ◌==◌, ◌⊎◌, ◌∷◌, ◌++◌, ℕ, List, IfErr, IfOk, OnOk, None, Some, false, length, nat_eq};
ghost use Rattle.std.specs.{Prelude.{option_map}, List.{list_any, position, starts_with}};
ghost use Rattle.csv.specs.Records.{fields_of};
ghost use Rattle.title_daybook.specs.Lines.{fields_in, has_line_feed, has_return, is_spoilt, IsFirstLine};
ghost use Rattle.title_daybook.specs.Readers.{IsAt, Took, byte_order_mark};
ghost use Rattle.title_daybook.specs.declared.fault.PlantFault.TheVariants as fault;
ghost use Rattle.title_journal.specs.Blocks.{line_feed};

use crate::fault::PlantFault;
use csv::{ByteRecord, Reader, ReaderBuilder};
use std::alloc::Global;

// Where the first line feed stands.
fn line_feed_at(bytes: &[u8]) -> Option<usize>
    ensures feed { result ≡ position (λ byte. byte == line_feed) bytes.now }
{
    bytes.iter().position(|byte| *byte == b'\n')
}

/// How long the first row of some bytes is, without its line feed.
pub(crate) fn line_len(bytes: &[u8]) -> usize
    requires some { 0 < length bytes.now }
    ensures first { IsFirstLine bytes.now result }
{
    match line_feed_at(bytes) {
        Some(len) => len,
        None => bytes.len(),
    }
}

/// With what a text may begin that a reader of CSV passes over: U+FEFF.
const BYTE_ORDER_MARK: &[u8] = b"\xEF\xBB\xBF";

/// Whether a text begins with a byte order mark, which no row of a plant's file does.
pub(crate) fn is_marked(text: &[u8]) -> bool
    ensures marked { result ≡ starts_with nat_eq text.now byte_order_mark }
{
    text.starts_with(BYTE_ORDER_MARK)
}

/// A reader of the rows of a block.
pub(crate) fn row_reader<'a>(alloc: Global, text: &'a [u8]) -> Reader<&'a [u8]>
    requires unmarked { starts_with nat_eq text.now byte_order_mark ≡ false }
    ensures at { IsAt result text.now }
{
    ReaderBuilder::new()
        .has_headers(false)
        .flexible(true)
        .from_reader(alloc, text)
}

// Whether a row has a carriage return.
fn has_return(line: &[u8]) -> bool
    ensures has { result ≡ has_return line.now }
{
    line.contains(&b'\r')
}

// Whether a field goes on over the end of its row.
fn has_line_feed(field: Option<&[u8]>) -> bool
    ensures has { result ≡ is_spoilt (option_map (λ f. f.now) field.entry) }
{
    match field {
        Some(field) => field.contains(&b'\n'),
        None => false,
    }
}

// Whether a field of a record does.
fn goes_over(raw: &ByteRecord) -> bool
    ensures over { result ≡ list_any has_line_feed (fields_of raw.now) }
{
    for i in 0..raw.len() {
        if has_line_feed(raw.get(i)) {
            return true;
        }
    }
    false
}

// Takes a record; whether there was one.
fn read_record(reader: &mut Reader<&[u8]>, raw: &mut ByteRecord) -> Result<bool, PlantFault>
    ensures took { (bytes : List ℕ) → IsAt reader.old bytes → IfOk result (Took bytes (fields_of raw.new) reader.new) }
    ensures memory { IfErr result (λ e. e ≡ fault.Memory) }
{
    let found = match reader.read_byte_record(raw) {
        Ok(found) => found,
        Err(_) => return Err(PlantFault::Memory),
    };
    Ok(found)
}

/// Takes the fields of the n-th row, which stands in front of these bytes.
pub(crate) fn read_line(
    reader: &mut Reader<&[u8]>,
    raw: &mut ByteRecord,
    n: usize,
    line: &[u8],
) -> Result<(), PlantFault>
    requires row { has_line_feed line.now ≡ false }
    ensures fields { (rest : List ℕ) → IsAt reader.old (line.now ++ line_feed ∷ rest)
        → OnOk result ((fields_in line.now ≡ Some (fields_of raw.new)) × IsAt reader.new rest) }
    ensures err { (rest : List ℕ) → IsAt reader.old (line.now ++ line_feed ∷ rest)
        → IfErr result (λ e. (e ≡ fault.Memory) ⊎ ((e ≡ fault.Row n) × (fields_in line.now ≡ None))) }
{
    if line.is_empty() {
        return Err(PlantFault::Row(n));
    }
    if has_return(line) {
        return Err(PlantFault::Row(n));
    }
    let found = read_record(reader, raw)?;
    if !found {
        return Err(PlantFault::Row(n));
    }
    if goes_over(raw) {
        return Err(PlantFault::Row(n));
    }
    Ok(())
}
