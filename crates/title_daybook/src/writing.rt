//! A block that adds to what stands.

ghost use Rattle.std.specs.Prelude.{◌≡◌, ◌≤◌, ◌<◌, ◌+◌, ◌^◌, ◌++◌, ◌∷◌, [], IfOk, OnOk, List, ℕ, drop, length, map, option_map};
ghost use Rattle.std.specs.{List.{flat_map}, String.{string_bytes}};
ghost use Rattle.indexmap.specs.IndexSet.{index_set_len};
ghost use Rattle.title_daybook.specs.Added.{post_rows, posted, posts_of, record_rows, rows_of, text_of};
ghost use Rattle.title_spelling.specs.Posts.{name_of};
ghost use Rattle.title_spelling.specs.Rows as plant;

use indexmap::IndexSet;
use std::alloc::{AllocError, Global};
use title_chain::{Answer, Ask, Posting, Record, Step};
use title_land::Township;
use title_spelling::{begin_row, commit_row, end_row, party_row, post_row, township_row};

/// How much stands already: so many of the townships and parties that a block is written for, the first ones, and so many records.
#[derive(Clone, Copy, Debug, PartialEq, Eq)]
pub struct Stood {
    pub townships: usize,
    pub parties: usize,
    pub records: u64,
}

// What a step posted.
fn posted(step: &Step) -> Option<&Posting>
    ensures posted { option_map (λ posting. posting.now) result ≡ posted step.now.ask step.now.answer }
{
    match &step.ask {
        Ask::Post(posting) => match &step.answer {
            Answer::Posted => Some(posting),
            _ => None,
        },
        _ => None,
    }
}

// How often a step posted.
fn post_number(step: &Step) -> usize
    ensures number { result ≡ length (posts_of (step.now ∷ [])) }
    ensures few { result ≤ 1 }
{
    match posted(step) {
        Some(_) => 1,
        None => 0,
    }
}

// How often steps posted.
fn post_count(steps: &[Step]) -> usize
    ensures count { result ≡ length (posts_of steps.now) }
{
    let mut count = 0;
    for step in steps {
        count += post_number(step);
    }
    count
}

// Adds the row of a step that posted.
fn add_step(
    alloc: Global,
    parties: &IndexSet<String>,
    examiner: u32,
    step: &Step,
    out: &mut Vec<u8>,
) -> Result<(), AllocError>
    ensures added { OnOk result (out.new.items
        ≡ out.old.items ++ text_of (map string_bytes parties.now.keys) (post_rows examiner (posts_of (step.now ∷ [])))) }
{
    match posted(step) {
        Some(posting) => post_row(alloc, parties, examiner, posting, out),
        None => Ok(()),
    }
}

// Adds the rows of the steps that posted.
fn add_steps(
    alloc: Global,
    parties: &IndexSet<String>,
    examiner: u32,
    steps: &[Step],
    out: &mut Vec<u8>,
) -> Result<(), AllocError>
    ensures added { OnOk result (out.new.items
        ≡ out.old.items ++ text_of (map string_bytes parties.now.keys) (post_rows examiner (posts_of steps.now))) }
{
    for step in steps {
        add_step(alloc, parties, examiner, step, out)?;
    }
    Ok(())
}

// Adds the rows of a transaction.
fn add_record(
    alloc: Global,
    parties: &IndexSet<String>,
    record: &Record,
    out: &mut Vec<u8>,
) -> Result<(), AllocError>
    ensures added { OnOk result (out.new.items
        ≡ out.old.items ++ text_of (map string_bytes parties.now.keys) (record_rows record.now)) }
{
    let steps = record.steps.as_slice();
    if post_count(steps) == 1 {
        return add_steps(alloc, parties, record.examiner, steps, out);
    }
    begin_row(alloc, record.examiner, out)?;
    add_steps(alloc, parties, record.examiner, steps, out)?;
    commit_row(alloc, record.examiner, out)
}

// Adds the rows of transactions.
fn add_records(
    alloc: Global,
    parties: &IndexSet<String>,
    records: &[Record],
    out: &mut Vec<u8>,
) -> Result<(), AllocError>
    ensures added { OnOk result (out.new.items
        ≡ out.old.items ++ text_of (map string_bytes parties.now.keys) (flat_map record_rows records.now)) }
{
    for record in records {
        add_record(alloc, parties, record, out)?;
    }
    Ok(())
}

// Adds the rows that declare townships.
fn add_townships(alloc: Global, townships: &[Township], out: &mut Vec<u8>) -> Result<(), AllocError>
    ensures added { (names : List (List ℕ)) → OnOk result (out.new.items
        ≡ out.old.items ++ text_of names (map plant.Township townships.now)) }
{
    for township in townships {
        township_row(alloc, *township, out)?;
    }
    Ok(())
}

// Adds the row that declares a party.
fn add_party(
    alloc: Global,
    parties: &IndexSet<String>,
    party: usize,
    out: &mut Vec<u8>,
) -> Result<(), AllocError>
    requires within { party < index_set_len parties.now }
    ensures added { (names : List (List ℕ)) → OnOk result (out.new.items
        ≡ out.old.items ++ text_of names (plant.Party (name_of (map string_bytes parties.now.keys) party) ∷ [])) }
{
    match parties.get_index(party) {
        Some(name) => party_row(alloc, name.as_str(), out),
        None => Ok(()),
    }
}

// Adds the rows that declare the parties from this one on.
fn add_parties(
    alloc: Global,
    parties: &IndexSet<String>,
    from: usize,
    out: &mut Vec<u8>,
) -> Result<(), AllocError>
    requires within { from ≤ index_set_len parties.now }
    ensures added { (names : List (List ℕ)) → OnOk result (out.new.items
        ≡ out.old.items ++ text_of names (map plant.Party (drop from (map string_bytes parties.now.keys)))) }
{
    for party in from..parties.len() {
        add_party(alloc, parties, party, out)?;
    }
    Ok(())
}

/// The block that adds to what stands the townships and parties behind those that stood, and these records, the oldest first.
pub fn block(
    alloc: Global,
    stood: Stood,
    townships: &[Township],
    parties: &IndexSet<String>,
    records: &[Record],
) -> Result<Vec<u8>, AllocError>
    requires townships { stood.townships ≤ length townships.now }
    requires parties { stood.parties ≤ index_set_len parties.now }
    requires records { stood.records + length records.now < 2 ^ 64 }
    ensures text { let names = map string_bytes parties.now.keys in IfOk result (λ text. text.items ≡ text_of names
        (rows_of (drop stood.townships townships.now) (drop stood.parties names) records.now (stood.records + length records.now))) }
{
    let mut out = Vec::new(alloc);
    add_townships(alloc, &townships[stood.townships..], &mut out)?;
    add_parties(alloc, parties, stood.parties, &mut out)?;
    add_records(alloc, parties, records, &mut out)?;
    end_row(alloc, stood.records + records.len() as u64, &mut out)?;
    Ok(out)
}
