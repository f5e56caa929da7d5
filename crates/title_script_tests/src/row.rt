//! Rows that are read and taken. Those that say nothing, and those that make a script faulty, stand with the vectors.

use crate::checks::must;
use csv::StringRecord;
use std::alloc::{AllocError, Global};
use std::process::Abort;
use title_plan::{Plan, Schedule, read_row};

fn add_fields(row: &mut StringRecord, line: &str) -> Result<(), AllocError> {
    for field in line.split('|') {
        row.push_field(field)?;
    }
    Ok(())
}

// A row whose fields a line has with | between them.
fn row_of(rt: &impl Abort, alloc: Global, line: &str) -> StringRecord {
    let mut row = StringRecord::new(alloc);
    add_fields(&mut row, line).expect(rt, "there is memory");
    row
}

// What a row says, as text.
fn said(rt: &impl Abort, alloc: Global, row: &StringRecord) -> String {
    let read = read_row(row);
    format!(in alloc; "{read:?}").expect(rt, "there is memory")
}

fn says(rt: &impl Abort, alloc: Global, row: &StringRecord, wanted: &str) -> bool {
    said(rt, alloc, row).as_str() == wanted
}

fn assert_said(rt: &impl Abort, alloc: Global, rows: &[(&str, &str)]) {
    for (line, wanted) in rows {
        let is_said = says(rt, alloc, &row_of(rt, alloc, line), wanted);
        must(rt, is_said, line);
    }
}

static ROWS: [(&str, &str); 10] = [
    ("township|T2N R1W", "Some(Township(\"T2N R1W\"))"),
    ("party|ADAMS, J.", "Some(Party(\"ADAMS, J.\"))"),
    ("1|begin", "Some(Step(1, Begin))"),
    ("40|commit", "Some(Step(40, Commit))"),
    ("9999|abort", "Some(Step(9999, Abort))"),
    (
        "7|sheet|T2N R1W sec 5 N/2",
        "Some(Step(7, Sheet(\"T2N R1W sec 5 N/2\")))",
    ),
    ("7|chain|", "Some(Step(7, Chain(\"\")))"),
    (
        "7|deed|12|ADAMS|BELL|SO|W1/2|O1/4;S1/8|T2N R1W sec 5",
        "Some(Step(7, Post(12, Deed(Deed { grantor: \"ADAMS\", grantee: \"BELL\", estates: Estates { s: true, o: true, m: false }, \
         warranty: false, quantum: Whole(Share { units: 2147483648 }), reserve: [Some(Share { units: 536870912 }), \
         Some(Share { units: 1073741824 }), None] }), \"T2N R1W sec 5\")))",
    ),
    (
        "7|warranty|999999999999|ADAMS|BELL|M|I1/1||T2N R1W",
        "Some(Step(7, Post(999999999999, Deed(Deed { grantor: \"ADAMS\", grantee: \"BELL\", \
         estates: Estates { s: false, o: false, m: true }, \
         warranty: true, quantum: Interest(Share { units: 4294967296 }), reserve: [None, None, None] }), \"T2N R1W\")))",
    ),
    (
        "7|release|3|BELL|CLARK|SOM|T2N R1W",
        "Some(Step(7, Post(3, Release(Release { from: \"BELL\", to: \"CLARK\", estates: Estates { s: true, o: true, m: true } }), \
         \"T2N R1W\")))",
    ),
];

#[test]
fn rows_say_something(rt: HostRuntime) {
    assert_said(&rt, rt.alloc(), &ROWS);
}

fn take(rt: &impl Abort, plan: &mut Plan, n: u64, row: StringRecord) {
    let taken = plan.take_row(Schedule::Interleaved, n, row.into_byte_record());
    taken.expect(rt, "the row is taken");
}

fn take_all(rt: &impl Abort, alloc: Global, plan: &mut Plan, rows: &[(u64, &str)]) {
    for &(n, line) in rows {
        take(rt, plan, n, row_of(rt, alloc, line));
    }
}

// The numbers of parties, townships and steps of a script of these rows, taken one after another.
fn taken(rt: &impl Abort, alloc: Global, rows: &[(u64, &str)]) -> (usize, usize, usize) {
    let mut plan = Plan::new(alloc).expect(rt, "there is memory");
    take_all(rt, alloc, &mut plan, rows);
    (plan.parties.len(), plan.townships.len(), plan.lines.len())
}

static SCRIPT: [(u64, &str); 5] = [
    (1, "township|T2N R1W"),
    (2, "party|ADAMS, J."),
    (3, "party|BELL"),
    (4, "1|begin"),
    (5, "1|sheet|T2N R1W sec 5"),
];

#[test]
fn rows_are_taken_one_by_one(rt: HostRuntime) {
    // UNITED STATES is a party of each script.
    let (parties, townships, lines) = taken(&rt, rt.alloc(), &SCRIPT);
    must(&rt, parties == 3, "three parties");
    must(
        &rt,
        townships == 1 && lines == 2,
        "a township and two steps",
    );
}
