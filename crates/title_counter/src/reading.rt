//! The records of a line, read byte by byte as csv reads them: no reader is made for a line.

ghost use Rattle.std.specs.Prelude.{◌≡◌, ◌≤◌, ◌++◌, ◌∷◌, [], IfOk, IfSome, OnOk, drop, length, option_map};
ghost use Rattle.csv.specs.Machine.{ends_at_end, field_after, fields_after, in_field, is_end, next_record, start_field, start_record, step};
ghost use Rattle.csv.specs.{Reading.{default_config, strip_bom}, Records.{fields_of, partial_of}};
ghost use Rattle.csv.specs.declared.parser.State.TheVariants as st;
ghost use Rattle.title_counter.specs.Positions.{action_of, read_in, state_of};

use csv::ByteRecord;
use std::alloc::{AllocError, Global};

/// Where in a text a reading stands.
#[derive(Clone, Copy, PartialEq, Eq)]
pub(crate) enum Position {
    RecordStart,
    FieldStart,
    Plain,
    Quoted,
    QuoteEnd,
    AfterReturn,
}

/// What a byte does.
#[derive(Clone, Copy, PartialEq, Eq)]
pub(crate) enum Act {
    Skip,
    Copy,
    EndField,
    EndRecord,
}

/// A byte's act, and where the reading stands behind it.
#[derive(Clone, Copy)]
pub(crate) struct Step {
    pub position: Position,
    pub act: Act,
}

/// A record that was read, where the reading stands behind it, and from which byte on the text is left.
#[derive(Drop)]
pub(crate) struct Taken {
    pub raw: ByteRecord,
    pub position: Position,
    pub next: usize,
}

// The fields of a record so far, and the bytes of the one at hand.
#[derive(Drop)]
struct Begun {
    raw: ByteRecord,
    field: Vec<u8>,
}

// A byte of a field that isn't in quotes.
fn step_in_field(byte: u8) -> Step
    ensures position { state_of result.position ≡ (in_field default_config byte).0 }
    ensures act { action_of result.act ≡ (in_field default_config byte).1 }
{
    let (position, act) = match byte {
        b',' => (Position::FieldStart, Act::EndField),
        b'\r' => (Position::AfterReturn, Act::EndRecord),
        b'\n' => (Position::RecordStart, Act::EndRecord),
        _ => (Position::Plain, Act::Copy),
    };
    Step { position, act }
}

// The first byte of a field.
fn step_at_field(byte: u8) -> Step
    ensures position { state_of result.position ≡ (start_field default_config byte).0 }
    ensures act { action_of result.act ≡ (start_field default_config byte).1 }
{
    if byte == b'"' {
        return Step {
            position: Position::Quoted,
            act: Act::Skip,
        };
    }
    step_in_field(byte)
}

// The first byte of a record, or an end of a line before it.
fn step_at_record(byte: u8) -> Step
    ensures position { state_of result.position ≡ (start_record default_config byte).0 }
    ensures act { action_of result.act ≡ (start_record default_config byte).1 }
{
    if byte == b'\r' || byte == b'\n' {
        return Step {
            position: Position::RecordStart,
            act: Act::Skip,
        };
    }
    step_at_field(byte)
}

// A byte within quotes.
fn step_in_quotes(byte: u8) -> Step
    ensures position { state_of result.position ≡ (step default_config st.InQuoted byte).0 }
    ensures act { action_of result.act ≡ (step default_config st.InQuoted byte).1 }
{
    if byte == b'"' {
        return Step {
            position: Position::QuoteEnd,
            act: Act::Skip,
        };
    }
    Step {
        position: Position::Quoted,
        act: Act::Copy,
    }
}

// A byte behind a quote within quotes.
fn step_at_quote(byte: u8) -> Step
    ensures position { state_of result.position ≡ (step default_config st.AfterQuote byte).0 }
    ensures act { action_of result.act ≡ (step default_config st.AfterQuote byte).1 }
{
    if byte == b'"' {
        return Step {
            position: Position::Quoted,
            act: Act::Copy,
        };
    }
    step_in_field(byte)
}

// A byte behind a carriage return that has ended a record.
fn step_after_return(byte: u8) -> Step
    ensures position { state_of result.position ≡ (step default_config st.AfterCr byte).0 }
    ensures act { action_of result.act ≡ (step default_config st.AfterCr byte).1 }
{
    if byte == b'\n' {
        return Step {
            position: Position::RecordStart,
            act: Act::Skip,
        };
    }
    step_at_record(byte)
}

impl Position {
    // What a byte does here.
    fn step(self, byte: u8) -> Step
        ensures position { state_of result.position ≡ (step default_config (state_of self) byte).0 }
        ensures act { action_of result.act ≡ (step default_config (state_of self) byte).1 }
    {
        match self {
            Position::RecordStart => step_at_record(byte),
            Position::FieldStart => step_at_field(byte),
            Position::Plain => step_in_field(byte),
            Position::Quoted => step_in_quotes(byte),
            Position::QuoteEnd => step_at_quote(byte),
            Position::AfterReturn => step_after_return(byte),
        }
    }

    // Whether the end of the text ends a record here.
    fn is_within(self) -> bool
        ensures within { result ≡ ends_at_end (state_of self) }
    {
        match self {
            Position::RecordStart | Position::AfterReturn => false,
            Position::FieldStart | Position::Plain | Position::Quoted | Position::QuoteEnd => true,
        }
    }
}

// Whether an act ends the record.
fn ends(act: Act) -> bool
    ensures ends { result ≡ is_end (action_of act) }
{
    match act {
        Act::EndRecord => true,
        Act::Skip | Act::Copy | Act::EndField => false,
    }
}

impl Begun {
    // No field, and no byte of one.
    fn new(alloc: Global) -> Begun
        ensures fields { fields_of result.raw ≡ [] }
        ensures field { result.field.items ≡ [] }
        ensures clean { partial_of result.raw ≡ [] }
    {
        Begun {
            raw: ByteRecord::new(alloc),
            field: Vec::new(alloc),
        }
    }

    // The field at hand is whole.
    fn end_field(&mut self) -> Result<(), AllocError>
        requires clean { partial_of self.old.raw ≡ [] }
        ensures fields { OnOk result (fields_of self.new.raw ≡ fields_of self.old.raw ++ self.old.field.items ∷ []) }
        ensures field { OnOk result (self.new.field.items ≡ []) }
        ensures clean { OnOk result (partial_of self.new.raw ≡ []) }
    {
        self.raw.push_field(self.field.as_slice())?;
        self.field.clear();
        Ok(())
    }

    // Does what a byte's act says.
    fn take(&mut self, act: Act, byte: u8) -> Result<(), AllocError>
        requires clean { partial_of self.old.raw ≡ [] }
        ensures fields { OnOk result (fields_of self.new.raw ≡ fields_after (action_of act) (fields_of self.old.raw) self.old.field.items) }
        ensures field { OnOk result (self.new.field.items ≡ field_after (action_of act) byte self.old.field.items) }
        ensures clean { OnOk result (partial_of self.new.raw ≡ []) }
    {
        match act {
            Act::Skip => Ok(()),
            Act::Copy => {
                self.field.push(byte)?;
                Ok(())
            }
            Act::EndField | Act::EndRecord => self.end_field(),
        }
    }
}

/// With what a text may begin that isn't read: U+FEFF.
const BYTE_ORDER_MARK: &[u8] = b"\xEF\xBB\xBF";

/// A text with no byte order mark at its front.
pub(crate) fn without_mark(text: &[u8]) -> &[u8]
    ensures text { result.now ≡ strip_bom text.now }
{
    match text.strip_prefix(BYTE_ORDER_MARK) {
        Some(rest) => rest,
        None => text,
    }
}

/// The next record of a text from this byte and this position on; `None` where there is none.
pub(crate) fn read_next(
    alloc: Global,
    text: &[u8],
    from: usize,
    position: Position,
) -> Result<Option<Taken>, AllocError>
    requires within { from ≤ length text.now }
    ensures read { IfOk result (λ taken. option_map (read_in text.now) taken
        ≡ next_record default_config (state_of position) [] [] (drop from text.now)) }
    ensures left { IfOk result (λ taken. IfSome taken (λ t. t.next ≤ length text.now)) }
{
    let mut begun = Begun::new(alloc);
    let mut position = position;
    for at in from..text.len() {
        let byte = text[at];
        let step = position.step(byte);
        begun.take(step.act, byte)?;
        position = step.position;
        if ends(step.act) {
            let Begun { raw, field: _ } = begun;
            let next = at + 1;
            return Ok(Some(Taken {
                raw,
                position,
                next,
            }));
        }
    }
    if !position.is_within() {
        return Ok(None);
    }
    begun.end_field()?;
    let Begun { raw, field: _ } = begun;
    Ok(Some(Taken {
        raw,
        position: Position::RecordStart,
        next: text.len(),
    }))
}
