//! Lines of bytes that are given by and by, as what they count as at a look.

ghost use Rattle.std.specs.Prelude.{◌≡◌, ◌==◌, ◌++◌, ◌∷◌, [], IfOk, OnOk, codes, cond, is_some, length, map};
ghost use Rattle.title_counter.specs.Lines.{last_line, line_feed, lines_from, with_byte};
ghost use Rattle.title_lasting.specs.LookRows.{other_in};
ghost use Rattle.title_kept_desk.specs.LookLines.{as_look, lines_text};

use std::alloc::{AllocError, Global};
use title_counter::LINE_LIMIT;
use title_lasting::find_other;

// Whether a text has a row that doesn't only look.
fn has_other(alloc: Global, text: &[u8]) -> Result<bool, AllocError>
    ensures other { IfOk result (λ has. has ≡ is_some (other_in text.now)) }
{
    let other = find_other(alloc, text)?;
    Ok(other.is_some())
}

// Puts a line behind others, or in its place one that says nothing.
fn put_text(lines: &mut Vec<u8>, text: &[u8], has_other: bool) -> Result<(), AllocError>
    ensures put { OnOk result (lines.new.items ≡ lines.old.items ++ cond has_other (codes "?\n") text.now) }
{
    if has_other {
        return Ok(lines.extend_from_slice(b"?\n")?);
    }
    Ok(lines.extend_from_slice(text)?)
}

// Whether nothing has come of a line.
fn is_blank(line: &[u8]) -> bool
    ensures blank { result ≡ (length line.now == 0) }
{
    line.is_empty()
}

// Puts a blank line behind others.
fn put_blank(lines: &mut Vec<u8>) -> Result<(), AllocError>
    ensures put { OnOk result (lines.new.items ≡ lines.old.items ++ line_feed ∷ []) }
{
    lines.push(b'\n')?;
    Ok(())
}

// Puts a row with its line feed behind others as what it counts as.
fn put_row(alloc: Global, lines: &mut Vec<u8>, row: &[u8]) -> Result<(), AllocError>
    ensures put { OnOk result (lines.new.items ≡ lines.old.items ++ cond (is_some (other_in row.now)) (codes "?\n") row.now) }
{
    let other = has_other(alloc, row)?;
    put_text(lines, row, other)
}

// Ends a line: puts it behind others as what it counts as. The next one begins.
fn put_line(alloc: Global, line: &mut Vec<u8>, lines: &mut Vec<u8>) -> Result<(), AllocError>
    ensures put { OnOk result (lines.new.items ≡ lines.old.items ++ lines_text (as_look line.old.items ∷ [])) }
    ensures next { OnOk result (line.new.items ≡ []) }
{
    let begun = line.as_slice();
    if is_blank(begun) {
        put_blank(lines)?;
        return Ok(());
    }
    line.push(b'\n')?;
    let row = line.as_slice();
    put_row(alloc, lines, row)?;
    line.clear();
    Ok(())
}

// Takes a byte more of a line that hasn't come to its end.
fn add_byte(line: &mut Vec<u8>, byte: u8) -> Result<(), AllocError>
    ensures added { OnOk result (line.new.items ≡ with_byte line.old.items byte) }
{
    if line.len() <= LINE_LIMIT {
        line.push(byte)?;
    }
    Ok(())
}

// Takes a byte: one that ends a line puts it behind others.
fn take_byte(
    alloc: Global,
    line: &mut Vec<u8>,
    lines: &mut Vec<u8>,
    byte: u8,
) -> Result<(), AllocError>
    ensures put { OnOk result (lines.new.items
        ≡ lines.old.items ++ lines_text (map as_look (lines_from line.old.items (byte ∷ [])).whole)) }
    ensures rest { OnOk result (line.new.items ≡ (lines_from line.old.items (byte ∷ [])).rest) }
{
    if byte == b'\n' {
        return put_line(alloc, line, lines);
    }
    add_byte(line, byte)
}

/// The whole lines of these bytes, of which the first has begun, as what they count as at a look, each with its line feed; and the
/// beginning of the next.
pub(crate) fn take_lines(
    alloc: Global,
    line: &mut Vec<u8>,
    bytes: &[u8],
) -> Result<Vec<u8>, AllocError>
    ensures lines { IfOk result (λ lines. lines.items ≡ lines_text (map as_look (lines_from line.old.items bytes.now).whole)) }
    ensures rest { OnOk result (line.new.items ≡ (lines_from line.old.items bytes.now).rest) }
{
    let mut lines = Vec::new(alloc);
    for byte in bytes {
        take_byte(alloc, line, &mut lines, *byte)?;
    }
    Ok(lines)
}

/// The last line, where something of it has come, in the same way.
pub(crate) fn take_rest(alloc: Global, line: &mut Vec<u8>) -> Result<Vec<u8>, AllocError>
    ensures lines { IfOk result (λ lines. lines.items ≡ lines_text (map as_look (last_line line.old.items))) }
{
    let mut lines = Vec::new(alloc);
    let begun = line.as_slice();
    if is_blank(begun) {
        return Ok(lines);
    }
    put_line(alloc, line, &mut lines)?;
    Ok(lines)
}
