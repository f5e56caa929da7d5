//! Replies, records and sheets in lines, in the words of a report.

use std::io;
use title_chain::{Answer, Ask, Entry, Record, SheetRows, Step};
use title_land::{Node, Tract};
use title_share::Share;
use title_store::SheetRow;
use title_trace::{Denial, Reply};

// The name of a party.
fn party(number: u32) -> &'static str {
    match number {
        0 => "UNITED STATES",
        1 => "ADAMS",
        2 => "BELL",
        _ => "another",
    }
}

fn tell_row(rt: &impl Print, examiner: u32, row: &SheetRow) -> io::Result<()> {
    let owner = party(row.party);
    let (node, estate, units) = (row.node, row.estate, row.units);
    match Share::new(units) {
        Some(share) => println!(rt; "{examiner},row,{node},{estate},{owner},{share}"),
        None => println!(rt; "{examiner},row,{node},{estate},{owner},{units} units"),
    }
}

/// Tells the rows of a sheet.
pub fn tell_rows(rt: &impl Print, examiner: u32, rows: &SheetRows) -> io::Result<()> {
    println!(rt; "{examiner},sheet,{}", rows.len())?;
    for index in 0..rows.len() {
        if let Some(row) = rows.row(index) {
            tell_row(rt, examiner, &row)?;
        }
    }
    Ok(())
}

fn tell_entry(rt: &impl Print, examiner: u32, entry: &Entry) -> io::Result<()> {
    let (place, terms) = (entry.place, entry.posting.terms());
    let (doc, instrument) = (terms.doc, terms.instrument);
    let (kind, estates) = (instrument.kind(), instrument.estates());
    let (from, to) = (party(instrument.grantor()), party(instrument.grantee()));
    println!(rt; "{examiner},entry,{place},{doc},{kind},{from},{to},{estates}")
}

fn tell_entries(rt: &impl Print, examiner: u32, entries: &[Entry]) -> io::Result<()> {
    println!(rt; "{examiner},chain,{}", entries.len())?;
    for entry in entries {
        tell_entry(rt, examiner, entry)?;
    }
    Ok(())
}

/// Tells the answer to a step.
pub fn tell_answer(rt: &impl Print, examiner: u32, answer: &Answer) -> io::Result<()> {
    match answer {
        Answer::Rows(rows) => tell_rows(rt, examiner, rows),
        Answer::Entries(entries) => tell_entries(rt, examiner, entries.as_slice()),
        Answer::Posted => println!(rt; "{examiner},posted"),
        Answer::Refused(rule, estate, node) => {
            println!(rt; "{examiner},refused,{},{estate},{node}", rule.number())
        }
    }
}

// Tells why a call is refused.
fn tell_denial(rt: &impl Print, examiner: u32, why: Denial) -> io::Result<()> {
    match why {
        Denial::NotOpen => println!(rt; "{examiner},notopen"),
        Denial::AlreadyOpen => println!(rt; "{examiner},alreadyopen"),
        Denial::NoSuchTownship => println!(rt; "{examiner},notownship"),
        Denial::Invalid(cause) => println!(rt; "{examiner},invalid,{}", cause.number()),
        Denial::TooLong => println!(rt; "{examiner},toolong"),
        Denial::Conflict(other) => println!(rt; "{examiner},conflict,{other}"),
    }
}

/// Tells a reply.
pub fn tell_reply(rt: &impl Print, examiner: u32, reply: &Reply) -> io::Result<()> {
    match reply {
        Reply::Began => println!(rt; "{examiner},began"),
        Reply::Answered(answer) => tell_answer(rt, examiner, answer),
        Reply::Committed(place) => println!(rt; "{examiner},committed,{place}"),
        Reply::Aborted => println!(rt; "{examiner},aborted"),
        Reply::Denied(why) => tell_denial(rt, examiner, *why),
        Reply::Memory => println!(rt; "{examiner},memory"),
    }
}

fn tell_nodes(rt: &impl Print, examiner: u32, nodes: &[Node]) -> io::Result<()> {
    for node in nodes {
        println!(rt; "{examiner},node,{node}")?;
    }
    Ok(())
}

// Tells what was asked, and where.
fn tell_asked(rt: &impl Print, examiner: u32, what: &str, tract: &Tract) -> io::Result<()> {
    println!(rt; "{examiner},asked,{what}")?;
    tell_nodes(rt, examiner, tract.cover())
}

fn tell_step(rt: &impl Print, examiner: u32, step: &Step) -> io::Result<()> {
    match &step.ask {
        Ask::Sheet(tract) => tell_asked(rt, examiner, "sheet", tract)?,
        Ask::Chain(tract) => tell_asked(rt, examiner, "chain", tract)?,
        Ask::Post(posting) => tell_asked(rt, examiner, "post", &posting.terms().tract)?,
    }
    tell_answer(rt, examiner, &step.answer)
}

/// Tells a record, with its steps.
pub fn tell_record(rt: &impl Print, place: u64, record: &Record) -> io::Result<()> {
    let (examiner, steps) = (record.examiner, record.steps.as_slice());
    println!(rt;
        "record {place} of examiner {examiner}: steps {}",
        steps.len()
    )?;
    for step in steps {
        tell_step(rt, examiner, step)?;
    }
    Ok(())
}

/// Tells records, numbered from 1.
pub fn tell_records(rt: &impl Print, records: &[Record]) -> io::Result<()> {
    println!(rt; "records: {}", records.len())?;
    let mut place = 0u64;
    for record in records {
        place = place.saturating_add(1);
        tell_record(rt, place, record)?;
    }
    Ok(())
}
