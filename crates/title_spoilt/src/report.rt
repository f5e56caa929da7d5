//! Whether a report is one of the steps that were counted.

use crate::reading::{Command, Verdict};
use crate::step::{Act, Step};

// The steps whose rows are still to come, and how many rows of a list are.
#[derive(Clone, Copy)]
struct Walk<'a> {
    command: Command,
    steps: &'a [Step],
    examiner: u64,
    list: &'static str,
    rows: u64,
    has_ended: bool,
}

/// A field of a row; the empty text where there is none.
pub fn field(line: &str, index: usize) -> &str {
    line.split(',').nth(index).unwrap_or("")
}

/// A number in a field; the greatest of 64 bits where there is none.
pub fn number(line: &str, index: usize) -> u64 {
    field(line, index).parse::<u64>().unwrap_or(u64::MAX)
}

fn begins_with(line: &str, examiner: u64, word: &str) -> bool {
    number(line, 0) == examiner && field(line, 1) == word
}

fn is_end(line: &str, steps: &[Step]) -> bool {
    let count = steps.len() as u64;
    field(line, 0) == "end" && number(line, 1) == count && field(line, 2).is_empty()
}

// Whether a word tells of a step that the desk was asked for.
fn is_answer(act: Act, word: &str) -> bool {
    match word {
        "sheet" => act == Act::Sheet,
        "chain" => act == Act::Chain,
        "posted" | "refused" | "invalid" => act == Act::Post,
        "notownship" | "toolong" | "conflict" => true,
        _ => false,
    }
}

// The word that tells of a step, where it isn't one by which the desk answers.
fn word_of(command: Command, step: Step) -> Option<&'static str> {
    match (step.act, step.is_open) {
        (Act::Begin, false) => Some("began"),
        (Act::Begin, true) => Some("alreadyopen"),
        (Act::Commit, true) => Some("committed"),
        (Act::Abort, true) => Some("aborted"),
        (Act::Commit | Act::Abort, false) => Some("notopen"),
        _ if !step.is_readable => Some("description"),
        (_, false) if command == Command::Run => Some("notopen"),
        _ => None,
    }
}

// Whether a word tells of a step.
fn is_told_by(command: Command, step: Step, word: &str) -> bool {
    match word_of(command, step) {
        Some(wanted) => word == wanted,
        None => is_answer(step.act, word),
    }
}

impl Walk<'_> {
    // Passes a row of a list.
    fn passes(&mut self, line: &str) -> bool {
        self.rows = self.rows.saturating_sub(1);
        begins_with(line, self.examiner, self.list)
    }

    // Says how many rows of a list come next.
    fn expect(&mut self, list: &'static str, rows: u64) {
        self.list = list;
        self.rows = rows;
    }

    // Starts the rows of a step.
    fn starts(&mut self, step: Step, line: &str) -> bool {
        let word = field(line, 1);
        self.examiner = step.examiner;
        match word {
            "sheet" => self.expect("row", number(line, 2)),
            "chain" => self.expect("entry", number(line, 2)),
            _ => self.expect("", 0),
        }
        number(line, 0) == step.examiner && is_told_by(self.command, step, word)
    }

    fn takes(&mut self, line: &str, all: &[Step]) -> bool {
        if self.rows > 0 {
            return self.passes(line);
        }
        let left = self.steps;
        if let Some((step, steps)) = left.split_first() {
            self.steps = steps;
            return self.starts(*step, line);
        }
        let is_last = !self.has_ended && is_end(line, all);
        self.has_ended = true;
        is_last
    }
}

// Whether a report has for each step its row, for each list as many rows as it says, and the last row.
fn tells_steps(command: Command, steps: &[Step], report: &str) -> bool {
    let mut walk = Walk {
        command,
        steps,
        examiner: 0,
        list: "",
        rows: 0,
        has_ended: false,
    };
    for line in report.lines() {
        if !walk.takes(line, steps) {
            return false;
        }
    }
    walk.has_ended
}

fn line_at(report: &str, index: usize) -> &str {
    report.lines().nth(index).unwrap_or("")
}

// How many transactions an examiner has begun.
fn begun(steps: &[Step], examiner: u64) -> u64 {
    let mut begun = 0u64;
    for step in steps {
        if step.examiner == examiner && step.act == Act::Begin {
            begun = begun.saturating_add(1);
        }
    }
    begun
}

// Whether a row tells of as many transactions as an examiner has begun.
fn is_done(line: &str, steps: &[Step], examiner: u64) -> bool {
    let aborted = number(line, 3).saturating_add(number(line, 4));
    let all = number(line, 2).saturating_add(aborted);
    begins_with(line, examiner, "done") && all == begun(steps, examiner)
}

fn are_done(report: &str, steps: &[Step]) -> bool {
    is_done(line_at(report, 0), steps, 1) && is_done(line_at(report, 1), steps, 2)
}

// Whether as many transactions are recorded as were committed.
fn is_settled(report: &str) -> bool {
    let line = line_at(report, 2);
    let (first, second) = (line_at(report, 0), line_at(report, 1));
    let committed = number(first, 2).saturating_add(number(second, 2));
    field(line, 0) == "settled" && number(line, 1) == committed
}

// How many rows of a report are rows of a sheet.
fn rows_in(report: &str) -> usize {
    let mut rows = 0usize;
    for line in report.lines() {
        if begins_with(line, 0, "row") {
            rows = rows.saturating_add(1);
        }
    }
    rows
}

// How many rows the sheet has, its first among them, if each is there.
fn sheet_rows(report: &str, has_townships: bool) -> Option<usize> {
    let line = line_at(report, 3);
    let rows = rows_in(report);
    let is_whole = if has_townships {
        begins_with(line, 0, "sheet") && number(line, 2) == rows as u64
    } else {
        line == "0,notownship" && rows == 0
    };
    if is_whole {
        Some(rows.saturating_add(1))
    } else {
        None
    }
}

// Whether a report has a row for each examiner, the records counted, a sheet and the last row.
fn tells_office(good: &Verdict, report: &str) -> bool {
    let steps = good.steps.as_slice();
    let Some(rows) = sheet_rows(report, good.has_townships) else {
        return false;
    };
    let end = rows.saturating_add(3);
    let is_whole = report.lines().count() == end.saturating_add(1);
    are_done(report, steps) && is_settled(report) && is_whole && is_end(line_at(report, end), steps)
}

/// Whether a text is a report of the steps of a script.
pub fn is_report_of(command: Command, good: &Verdict, report: &str) -> bool {
    let tells = match command {
        Command::Run | Command::Alone => tells_steps(command, good.steps.as_slice(), report),
        Command::Office => tells_office(good, report),
    };
    tells && report.ends_with('\n')
}

/// Whether the rows of a report, but the last, begin another.
pub fn begins(report: &str, other: &str) -> bool {
    let mut wanted = other.lines();
    for row in report
        .lines()
        .take(report.lines().count().saturating_sub(1))
    {
        match wanted.next() {
            Some(wanted) if wanted == row => {}
            _ => return false,
        }
    }
    wanted.next().is_some()
}
