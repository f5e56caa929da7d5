//! Rows of a plant's file. Each function adds one row; `Err` is Memory, and nothing was added then.

ghost use Rattle.std.specs.{Prelude.{◌≡◌, ◌<◌, ◌++◌, ◌∷◌, [], IfOk, OnErr, OnOk, length, map}, String.{string_bytes}};
ghost use Rattle.csv.specs.Writing.{escaped, field_text, next_sep};
ghost use Rattle.title_instrument.specs.Parties.{grantee_of, grantor_of};
ghost use Rattle.title_page.specs.Rows.{row, row_writer};
ghost use Rattle.title_spelling.specs.Posts.{name_of, post_fields};
ghost use Rattle.title_spelling.specs.Rows.{begin_fields, commit_fields, end_fields, party_fields, township_fields};

use crate::lands::spell;
use crate::posts::{spell_kind, spell_quantum, spell_reserve};
use indexmap::IndexSet;
use std::alloc::{AllocError, Global};
use title_chain::Posting;
use title_instrument::Instrument;
use title_land::Township;
use title_page::is_quoted;

// ---- rows of any fields

// Adds a byte, a quote twice.
#[tactic(auto, using(title_page::specs::Laws::RowTexts::escaped_quote, title_page::specs::Laws::RowTexts::escaped_byte))]
fn push_byte(out: &mut Vec<u8>, byte: u8) -> Result<(), AllocError>
    ensures added { OnOk result (out.new.items ≡ out.old.items ++ escaped row_writer (byte ∷ [])) }
{
    if byte == b'"' {
        return out.extend_from_slice(b"\"\"");
    }
    out.push(byte)?;
    Ok(())
}

// Adds bytes, each quote twice.
fn push_escaped(out: &mut Vec<u8>, field: &[u8]) -> Result<(), AllocError>
    ensures added { OnOk result (out.new.items ≡ out.old.items ++ escaped row_writer field.now) }
{
    for byte in field {
        push_byte(out, *byte)?;
    }
    Ok(())
}

// Adds a field, in quotes where it has a comma, a quote or a line's end.
fn push_field(out: &mut Vec<u8>, field: &[u8]) -> Result<(), AllocError>
    ensures added { OnOk result (out.new.items ≡ out.old.items ++ field_text row_writer field.now) }
{
    if !is_quoted(field) {
        return out.extend_from_slice(field);
    }
    out.push(b'"')?;
    push_escaped(out, field)?;
    out.push(b'"')?;
    Ok(())
}

// Adds a field behind those before it.
fn push_next(out: &mut Vec<u8>, at: usize, field: &[u8]) -> Result<(), AllocError>
    ensures added { OnOk result (out.new.items ≡ out.old.items ++ (next_sep row_writer at ++ field_text row_writer field.now)) }
{
    if at > 0 {
        out.push(b',')?;
    }
    push_field(out, field)
}

// The text of a row of two fields or more.
fn row_of(alloc: Global, fields: &[&str]) -> Result<Vec<u8>, AllocError>
    requires several { 1 < length fields.now }
    ensures text { IfOk result (λ text. text.items ≡ row (map (λ field. field.now) fields.now)) }
{
    let mut text = Vec::new(alloc);
    for at in 0..fields.len() {
        push_next(&mut text, at, fields[at].as_bytes())?;
    }
    text.push(b'\n')?;
    Ok(text)
}

// Adds a row of two fields or more, or nothing where memory is refused.
fn push_row(alloc: Global, out: &mut Vec<u8>, fields: &[&str]) -> Result<(), AllocError>
    requires several { 1 < length fields.now }
    ensures added { OnOk result (out.new.items ≡ out.old.items ++ row (map (λ field. field.now) fields.now)) }
    ensures kept { OnErr result (out.new.items ≡ out.old.items) }
{
    let text = row_of(alloc, fields)?;
    out.extend_from_slice(text.as_slice())
}

// ---- declarations, ends and marks

/// Adds the row `township,TEXT`.
pub fn township_row(alloc: Global, township: Township, out: &mut Vec<u8>) -> Result<(), AllocError>
    ensures added { OnOk result (out.new.items ≡ out.old.items ++ row (township_fields township)) }
    ensures kept { OnErr result (out.new.items ≡ out.old.items) }
{
    let text = format!(in alloc; "{township}")?;
    push_row(alloc, out, &["township", text.as_str()])
}

/// Adds the row `party,NAME`.
pub fn party_row(alloc: Global, name: &str, out: &mut Vec<u8>) -> Result<(), AllocError>
    ensures added { OnOk result (out.new.items ≡ out.old.items ++ row (party_fields name.now)) }
    ensures kept { OnErr result (out.new.items ≡ out.old.items) }
{
    push_row(alloc, out, &["party", name])
}

/// Adds the row `E,begin`.
pub fn begin_row(alloc: Global, examiner: u32, out: &mut Vec<u8>) -> Result<(), AllocError>
    ensures added { OnOk result (out.new.items ≡ out.old.items ++ row (begin_fields examiner)) }
    ensures kept { OnErr result (out.new.items ≡ out.old.items) }
{
    let examiner = format!(in alloc; "{examiner}")?;
    push_row(alloc, out, &[examiner.as_str(), "begin"])
}

/// Adds the row `E,commit`.
pub fn commit_row(alloc: Global, examiner: u32, out: &mut Vec<u8>) -> Result<(), AllocError>
    ensures added { OnOk result (out.new.items ≡ out.old.items ++ row (commit_fields examiner)) }
    ensures kept { OnErr result (out.new.items ≡ out.old.items) }
{
    let examiner = format!(in alloc; "{examiner}")?;
    push_row(alloc, out, &[examiner.as_str(), "commit"])
}

/// Adds the row `end,N`.
pub fn end_row(alloc: Global, place: u64, out: &mut Vec<u8>) -> Result<(), AllocError>
    ensures added { OnOk result (out.new.items ≡ out.old.items ++ row (end_fields place)) }
    ensures kept { OnErr result (out.new.items ≡ out.old.items) }
{
    let place = format!(in alloc; "{place}")?;
    push_row(alloc, out, &["end", place.as_str()])
}

// ---- posts

// The name of a party; an empty one where no party has the number.
fn name_of(names: &IndexSet<String>, party: u32) -> &str
    ensures name { result.now ≡ name_of (map string_bytes names.now.keys) party }
{
    match names.get_index(party as usize) {
        Some(name) => name.as_str(),
        None => "",
    }
}

// The names of an instrument's parties: of its grantor, and of its grantee.
fn names_of<'a>(names: &'a IndexSet<String>, instrument: &Instrument) -> (&'a str, &'a str)
    ensures grantor { result.0.now ≡ name_of (map string_bytes names.now.keys) (grantor_of instrument.now) }
    ensures grantee { result.1.now ≡ name_of (map string_bytes names.now.keys) (grantee_of instrument.now) }
{
    let grantor = name_of(names, instrument.grantor());
    let grantee = name_of(names, instrument.grantee());
    (grantor, grantee)
}

/// Adds the row of a post: `E,deed,DOC,GRANTOR,GRANTEE,ESTATES,QUANTUM,RESERVE,TEXT`, the same with `warranty`, or
/// `E,release,DOC,FROM,TO,ESTATES,TEXT`. A party without a name has an empty one.
pub fn post_row(
    alloc: Global,
    names: &IndexSet<String>,
    examiner: u32,
    posting: &Posting,
    out: &mut Vec<u8>,
) -> Result<(), AllocError>
    ensures added { OnOk result (out.new.items
        ≡ out.old.items ++ row (post_fields (map string_bytes names.now.keys) examiner posting.now)) }
    ensures kept { OnErr result (out.new.items ≡ out.old.items) }
{
    let terms = posting.terms();
    let examiner = format!(in alloc; "{examiner}")?;
    let kind = spell_kind(alloc, &terms.instrument)?;
    let doc = format!(in alloc; "{}", terms.doc)?;
    let (grantor, grantee) = names_of(names, &terms.instrument);
    let estates = format!(in alloc; "{}", terms.instrument.estates())?;
    let text = spell(alloc, &terms.tract)?;
    match &terms.instrument {
        Instrument::Deed(deed) => {
            let quantum = spell_quantum(alloc, &deed.quantum)?;
            let reserve = spell_reserve(alloc, &deed.reserve)?;
            push_row(
                alloc,
                out,
                &[
                    examiner.as_str(),
                    kind.as_str(),
                    doc.as_str(),
                    grantor,
                    grantee,
                    estates.as_str(),
                    quantum.as_str(),
                    reserve.as_str(),
                    text.as_str(),
                ],
            )
        }
        Instrument::Release(_) => push_row(
            alloc,
            out,
            &[
                examiner.as_str(),
                kind.as_str(),
                doc.as_str(),
                grantor,
                grantee,
                estates.as_str(),
                text.as_str(),
            ],
        ),
    }
}
