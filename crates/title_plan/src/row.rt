//! Rows.

ghost use Rattle.std.specs.Prelude.{◌≡◌, option_map};
ghost use Rattle.csv.specs.Records.{fields_of};
ghost use Rattle.title_plan.specs.Rows.{act_in, deed_in, done, reading_in, release_in, row_in, said, word_in};

use crate::fields::{field, read_document, read_estates, read_examiner, read_name};
use crate::terms::{read_quantum, read_reserve};
use csv::StringRecord;
use title_instrument::{Deed, Instrument, Kind, Release};

/// What an examiner does in a step. To read and to post it has the text of a tract, which may be any. A post has a
/// document's number, from 1 to 999,999,999,999, and an instrument between parties by their names, in one estate at least.
#[derive(Clone, Copy, Debug)]
pub enum Act<T> {
    Begin,
    Commit,
    Abort,
    Sheet(T),
    Chain(T),
    Post(u64, Instrument<T>, T),
}

/// What a row of a script says: a township's text, a party's name of 1 to 60 bytes, or a step of an examiner, a number from
/// 1 to 9,999.
#[derive(Clone, Copy, Debug)]
pub enum Row<T> {
    Township(T),
    Party(T),
    Step(u32, Act<T>),
}

// What an examiner does by a word alone.
fn read_word<'a>(word: &str) -> Option<Act<&'a str>>
    ensures done { option_map done result ≡ word_in word.now }
{
    match word {
        "begin" => Some(Act::Begin),
        "commit" => Some(Act::Commit),
        "abort" => Some(Act::Abort),
        _ => None,
    }
}

// What an examiner reads, by a word and the text of a tract.
fn read_reading<'a>(word: &str, text: &'a str) -> Option<Act<&'a str>>
    ensures done { option_map done result ≡ reading_in word.now text.now }
{
    match word {
        "sheet" => Some(Act::Sheet(text)),
        "chain" => Some(Act::Chain(text)),
        _ => None,
    }
}

// A row `E,release,DOC,FROM,TO,ESTATES,TEXT`.
fn read_release(row: &StringRecord) -> Option<Act<&str>>
    ensures done { option_map done result ≡ release_in (fields_of row.now) }
{
    let Kind::Release = Kind::of_word(field(row, 1))? else {
        return None;
    };
    let doc = read_document(field(row, 2))?;
    let from = read_name(field(row, 3))?;
    let to = read_name(field(row, 4))?;
    let estates = read_estates(field(row, 5))?;
    let release = Instrument::Release(Release { from, to, estates });
    Some(Act::Post(doc, release, field(row, 6)))
}

// A row `E,deed,DOC,GRANTOR,GRANTEE,ESTATES,QUANTUM,RESERVE,TEXT`, or the same with `warranty`.
fn read_deed(row: &StringRecord) -> Option<Act<&str>>
    ensures done { option_map done result ≡ deed_in (fields_of row.now) }
{
    let warranty = match Kind::of_word(field(row, 1))? {
        Kind::Deed => false,
        Kind::Warranty => true,
        Kind::Release => return None,
    };
    let doc = read_document(field(row, 2))?;
    let grantor = read_name(field(row, 3))?;
    let grantee = read_name(field(row, 4))?;
    let estates = read_estates(field(row, 5))?;
    let quantum = read_quantum(field(row, 6))?;
    let reserve = read_reserve(field(row, 7))?;
    let deed = Instrument::Deed(Deed {
        grantor,
        grantee,
        estates,
        warranty,
        quantum,
        reserve,
    });
    Some(Act::Post(doc, deed, field(row, 8)))
}

// What an examiner does, by the number of a row's fields.
fn read_act(row: &StringRecord) -> Option<Act<&str>>
    ensures done { option_map done result ≡ act_in (fields_of row.now) }
{
    match row.len() {
        2 => read_word(field(row, 1)),
        3 => read_reading(field(row, 1), field(row, 2)),
        7 => read_release(row),
        9 => read_deed(row),
        _ => None,
    }
}

/// What a row says, by its fields; `None` where it has another number of fields or other words, or a field that is not of
/// its form.
pub fn read_row(row: &StringRecord) -> Option<Row<&str>>
    ensures said { option_map said result ≡ row_in (fields_of row.now) }
{
    match (row.len(), field(row, 0)) {
        (2, "township") => Some(Row::Township(field(row, 1))),
        (2, "party") => Some(Row::Party(read_name(field(row, 1))?)),
        (_, examiner) => {
            let examiner = read_examiner(examiner)?;
            match read_act(row) {
                Some(act) => Some(Row::Step(examiner, act)),
                None => None,
            }
        }
    }
}
