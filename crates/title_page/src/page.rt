//! The page through which rows are written.

ghost use Rattle.std.specs.{Prelude.{◌≡◌, ◌≤◌, ◌<◌, ◌+◌, ◌++◌, ◌∷◌, [], true, false, nat_le, length, map, take, drop}, List.{concat}};
ghost use Rattle.std.specs.Prelude.{IfNone, IfSome, OnOk, OnErr};
ghost use Rattle.csv.specs.{Writing.{escaped, field_text, needs_quotes, quoted}, Quoting.{needs_byte}};
ghost use Rattle.title_page.specs.{Pages.{Stopped, Written}, Rows.{row_writer}};

use arrayvec::ArrayVec;
use std::marker::Model;
use title_device::{Failed, Sink, write_all};

/// The bytes that were written and that the sink has not been given yet, at most 8 KB. A contract sees these bytes.
#[derive(Drop)]
pub struct Page {
    bytes: ArrayVec<u8, 8192>,
}

impl Model for Page {
    ghost use Rattle.std.specs.Prelude.{ℕ, List};

    ghost Value = { List ℕ };

    ghost view = { λ p. p.bytes.items };
}

// Whether a field with this byte is quoted.
fn is_special(byte: u8) -> bool
    ensures special { result ≡ needs_byte row_writer byte }
{
    matches!(byte, b'\n' | b'\r' | b'"' | b',')
}

/// Whether a field is quoted: where it has a comma, a quote or a line's end.
pub fn is_quoted(field: &[u8]) -> bool
    ensures quoted { result ≡ needs_quotes row_writer field.now }
{
    // It looks at each byte, which costs less than to stop at the first that calls for quotes.
    let mut some = false;
    for byte in field {
        some |= is_special(*byte);
    }
    some
}

/// The place of a field's first quote, if it has one: the bytes before it stand between quotes as they are.
pub fn first_quote(field: &[u8]) -> Option<usize>
    ensures none { IfNone result (escaped row_writer field.now ≡ field.now) }
    ensures within { IfSome result (λ at. at < length field.now) }
    ensures some { IfSome result (λ at. escaped row_writer field.now
        ≡ take at field.now ++ (34 ∷ 34 ∷ escaped row_writer (drop (at + 1) field.now))) }
{
    let mut at = 0;
    for byte in field {
        if *byte == b'"' {
            return Some(at);
        }
        at += 1;
    }
    None
}

impl Page {
    /// A page with nothing on it.
    pub fn new() -> Page
        ensures empty { result ≡ [] }
    {
        Page {
            bytes: ArrayVec::new(),
        }
    }

    /// Gives the sink all that stands on the page. `Failed` where a push fails; the sink then has a beginning of it.
    // Out of line, as what follows: a full page is rare, and `put` taken in by each writer would save all registers for it.
    #[inline(never)]
    pub fn pass<S: Sink>(&mut self, sink: &mut S) -> Result<(), Failed>
        requires works { S.has_failed sink.old ≡ false }
        ensures empty { OnOk result (self.new ≡ []) }
        ensures written { OnOk result (Written (S.taken sink.old) self.old (S.taken sink.new) self.new []) }
        ensures well { OnOk result (S.has_failed sink.new ≡ false) }
        ensures stopped { OnErr result (Stopped (S.taken sink.old) self.old (S.taken sink.new) []) }
        ensures failed { OnErr result (S.has_failed sink.new ≡ true) }
    {
        write_all(sink, self.bytes.as_slice())?;
        self.bytes.clear();
        Ok(())
    }

    // Writes bytes where nothing stands on the page; more than a page are given to the sink at once.
    #[inline(never)]
    fn put_first<S: Sink>(&mut self, sink: &mut S, text: &[u8]) -> Result<(), Failed>
        requires works { S.has_failed sink.old ≡ false }
        requires empty { self.old ≡ [] }
        ensures written { OnOk result (Written (S.taken sink.old) self.old (S.taken sink.new) self.new text.now) }
        ensures well { OnOk result (S.has_failed sink.new ≡ false) }
        ensures stopped { OnErr result (Stopped (S.taken sink.old) self.old (S.taken sink.new) text.now) }
        ensures failed { OnErr result (S.has_failed sink.new ≡ true) }
    {
        if self.bytes.try_extend_from_slice(text).is_ok() {
            return Ok(());
        }
        write_all(sink, text)
    }

    /// Writes bytes as they are; where they fit on the page nothing is given to the sink. `Failed` where a push fails; the sink
    /// then has a beginning of what was written.
    #[inline]
    pub fn put<S: Sink>(&mut self, sink: &mut S, text: &[u8]) -> Result<(), Failed>
        requires works { S.has_failed sink.old ≡ false }
        ensures fits { length self.old + length text.now ≤ 8192 → self.new ≡ self.old ++ text.now }
        ensures kept { length self.old + length text.now ≤ 8192 → sink.new ≡ sink.old }
        ensures written { OnOk result (Written (S.taken sink.old) self.old (S.taken sink.new) self.new text.now) }
        ensures well { OnOk result (S.has_failed sink.new ≡ false) }
        ensures stopped { OnErr result (Stopped (S.taken sink.old) self.old (S.taken sink.new) text.now) }
        ensures failed { OnErr result (S.has_failed sink.new ≡ true) }
    {
        if self.bytes.try_extend_from_slice(text).is_ok() {
            return Ok(());
        }
        self.pass(sink)?;
        self.put_first(sink, text)
    }

    // Writes the bytes of a quoted field: the runs between its quotes, and each quote twice.
    fn put_inside<S: Sink>(&mut self, sink: &mut S, field: &[u8]) -> Result<(), Failed>
        requires works { S.has_failed sink.old ≡ false }
        ensures written { OnOk result (Written (S.taken sink.old) self.old (S.taken sink.new) self.new (escaped row_writer field.now)) }
        ensures well { OnOk result (S.has_failed sink.new ≡ false) }
        ensures stopped { OnErr result (Stopped (S.taken sink.old) self.old (S.taken sink.new) (escaped row_writer field.now)) }
        ensures failed { OnErr result (S.has_failed sink.new ≡ true) }
    {
        let mut rest = field;
        while let Some(at) = first_quote(rest) {
            self.put(sink, &rest[..at])?;
            self.put(sink, b"\"\"")?;
            rest = &rest[at + 1..];
        }
        self.put(sink, rest)
    }

    // Writes a field between quotes. Out of line: few names are quoted, and each writer of a field would take it in.
    #[inline(never)]
    fn put_quoted<S: Sink>(&mut self, sink: &mut S, field: &[u8]) -> Result<(), Failed>
        requires works { S.has_failed sink.old ≡ false }
        ensures written { OnOk result (Written (S.taken sink.old) self.old (S.taken sink.new) self.new (quoted row_writer field.now)) }
        ensures well { OnOk result (S.has_failed sink.new ≡ false) }
        ensures stopped { OnErr result (Stopped (S.taken sink.old) self.old (S.taken sink.new) (quoted row_writer field.now)) }
        ensures failed { OnErr result (S.has_failed sink.new ≡ true) }
    {
        self.put(sink, b"\"")?;
        self.put_inside(sink, field)?;
        self.put(sink, b"\"")
    }

    /// Writes a field: in quotes where it has a comma, a quote or a line's end. `Failed` as with `put`.
    #[inline]
    pub fn field<S: Sink>(&mut self, sink: &mut S, field: &[u8]) -> Result<(), Failed>
        requires works { S.has_failed sink.old ≡ false }
        ensures written { OnOk result (Written (S.taken sink.old) self.old (S.taken sink.new) self.new (field_text row_writer field.now)) }
        ensures well { OnOk result (S.has_failed sink.new ≡ false) }
        ensures stopped { OnErr result (Stopped (S.taken sink.old) self.old (S.taken sink.new) (field_text row_writer field.now)) }
        ensures failed { OnErr result (S.has_failed sink.new ≡ true) }
    {
        self.judged_field(sink, field, is_quoted(field))
    }

    /// Writes a field of which it is known whether it is quoted. `Failed` as with `put`.
    #[inline]
    pub fn judged_field<S: Sink>(
        &mut self,
        sink: &mut S,
        field: &[u8],
        in_quotes: bool,
    ) -> Result<(), Failed>
        requires works { S.has_failed sink.old ≡ false }
        requires judged { in_quotes ≡ needs_quotes row_writer field.now }
        ensures written { OnOk result (Written (S.taken sink.old) self.old (S.taken sink.new) self.new (field_text row_writer field.now)) }
        ensures well { OnOk result (S.has_failed sink.new ≡ false) }
        ensures stopped { OnErr result (Stopped (S.taken sink.old) self.old (S.taken sink.new) (field_text row_writer field.now)) }
        ensures failed { OnErr result (S.has_failed sink.new ≡ true) }
    {
        if in_quotes {
            return self.put_quoted(sink, field);
        }
        self.put(sink, field)
    }
}
