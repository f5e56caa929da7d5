//! Texts of rows, put together before they are kept.

ghost use Rattle.std.specs.Prelude.{◌≡◌, ◌++◌, OnSome};
ghost use Rattle.csv.specs.Writing.{escaped, field_text, needs_quotes, quoted};
ghost use Rattle.title_page.specs.Rows.{row_writer};

use arrayvec::ArrayVec;
use title_page::first_quote;

// A text of at most 128 bytes.
pub(crate) type RowText = ArrayVec<u8, 128>;

// Adds bytes. `None` where the text has no room for them.
pub(crate) fn add(text: &mut RowText, bytes: &[u8]) -> Option<()>
    ensures added { OnSome result (text.new.items ≡ text.old.items ++ bytes.now) }
{
    text.try_extend_from_slice(bytes).ok()
}

// Adds the bytes of a quoted field: the runs between its quotes, and each quote twice.
fn add_escaped(text: &mut RowText, field: &[u8]) -> Option<()>
    ensures added { OnSome result (text.new.items ≡ text.old.items ++ escaped row_writer field.now) }
{
    let Some(at) = first_quote(field) else {
        return add(text, field);
    };
    add(text, &field[..at])?;
    add(text, b"\"\"")?;
    add_escaped(text, &field[at + 1..])
}

// Adds a field between quotes.
fn add_quoted(text: &mut RowText, field: &[u8]) -> Option<()>
    ensures added { OnSome result (text.new.items ≡ text.old.items ++ quoted row_writer field.now) }
{
    add(text, b"\"")?;
    add_escaped(text, field)?;
    add(text, b"\"")
}

// Adds a field of which it is known whether it is quoted.
pub(crate) fn add_field(text: &mut RowText, field: &[u8], in_quotes: bool) -> Option<()>
    requires judged { in_quotes ≡ needs_quotes row_writer field.now }
    ensures added { OnSome result (text.new.items ≡ text.old.items ++ field_text row_writer field.now) }
{
    if in_quotes {
        return add_quoted(text, field);
    }
    add(text, field)
}
