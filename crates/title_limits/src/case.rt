//! Scripts, each beside the report that the rules give for it.

use crate::parcel::Parcel;
use crate::portion::{ALL, Portion};
use anyhow::{Result, bail};
use std::alloc::{AllocError, Global};
use std::fmt::{self, Display};
use title_device::Device;
use title_script::{RunFault, Schedule, Unwatched, run_by};

/// Party 0, which owns all at first.
pub const GOVERNMENT: &str = "UNITED STATES";

/// The letters of the estates, in order.
pub static ESTATES: [&str; 3] = ["S", "O", "M"];

/// Those of minerals.
pub static MINERALS: [&str; 2] = ["O", "M"];

/// A script as it is made, row by row, and the report that it has to have. Once a row finds no memory, the script isn't run.
#[derive(Drop)]
pub struct Case {
    alloc: Global,
    script: String,
    report: String,
    tried: Tried,
    is_short: bool,
}

/// How many steps scripts had that were tried, and how many rows their reports.
#[derive(Clone, Copy)]
pub struct Tried {
    steps: u32,
    rows: u32,
}

// Adds a line; false where there is no memory for it.
fn is_added(text: &mut String, line: impl Display + Drop) -> bool {
    write!(text, "{line}\n").is_ok()
}

// What a run of a script writes.
fn written(alloc: Global, schedule: Schedule, script: &str) -> Result<Vec<u8>, RunFault> {
    let mut source = Device::new(script.as_bytes());
    let mut sink = Device::new(Vec::new(alloc));
    run_by(alloc, schedule, &mut source, &mut sink, &mut Unwatched)?;
    Ok(sink.into_inner())
}

// A report has to be this.
fn is_report(alloc: Global, came: &[u8], wanted: &str) -> Result<()> {
    if came == wanted.as_bytes() {
        return Ok(());
    }
    let came = String::from_utf8_lossy(alloc, came)?;
    tell_difference(came.as_str(), wanted)
}

// Tells the first line at which a report isn't as it has to be.
fn tell_difference(came: &str, wanted: &str) -> Result<()> {
    let mut number = 0u32;
    let mut wanted = wanted.lines();
    for line in came.lines() {
        number = number.saturating_add(1);
        let wanted = wanted.next().unwrap_or("");
        if line != wanted {
            bail!("line {number} is {line:?}, and not {wanted:?}");
        }
    }
    bail!("the report ends behind line {number}");
}

impl Tried {
    /// With those of another script.
    pub fn and(self, other: Tried) -> Tried {
        Tried {
            steps: self.steps.saturating_add(other.steps),
            rows: self.rows.saturating_add(other.rows),
        }
    }
}

impl fmt::Display for Tried {
    fn fmt<W: fmt::Write>(&self, f: &mut fmt::Formatter<W>) -> fmt::Result {
        let (steps, rows) = (self.steps, self.rows);
        write!(f, "{steps} steps, {rows} rows")
    }
}

impl Case {
    /// A script with no row.
    pub fn new(alloc: Global) -> Case {
        Case {
            alloc,
            script: String::new(alloc),
            report: String::new(alloc),
            tried: Tried { steps: 0, rows: 0 },
            is_short: false,
        }
    }

    /// Adds a row that declares something.
    pub fn declare(&mut self, row: impl Display + Drop) {
        self.is_short |= !is_added(&mut self.script, row);
    }

    /// Adds a step.
    pub fn ask(&mut self, row: impl Display + Drop) {
        self.tried.steps = self.tried.steps.saturating_add(1);
        self.is_short |= !is_added(&mut self.script, row);
    }

    /// Adds a row that comes next in the report.
    pub fn want(&mut self, row: impl Display + Drop) {
        self.tried.rows = self.tried.rows.saturating_add(1);
        self.is_short |= !is_added(&mut self.report, row);
    }

    /// Adds rows that come next in the report.
    pub fn want_all(&mut self, rows: &[&'static str]) {
        for row in rows {
            self.want(*row);
        }
    }

    /// Adds a step of an examiner that is answered in one row.
    pub fn step(&mut self, examiner: u32, step: impl Display + Drop, reply: impl Display + Drop) {
        self.ask(format_args!("{examiner},{step}"));
        self.want(format_args!("{examiner},{reply}"));
    }

    /// Adds steps that are answered in one row each, as script and report have them.
    pub fn steps(&mut self, steps: &[(&'static str, &'static str)]) {
        for (step, reply) in steps {
            self.ask(*step);
            self.want(*reply);
        }
    }

    /// Declares the first so many townships.
    pub fn declare_townships(&mut self, count: u32) {
        for number in 0..count {
            let township = Parcel::Township(number);
            self.declare(format_args!("township,{township}"));
        }
    }

    /// Declares the first so many townships, ADAMS and BELL.
    pub fn declare_plant(&mut self, townships: u32) {
        self.declare_townships(townships);
        self.declare("party,ADAMS");
        self.declare("party,BELL");
    }

    /// Adds a row of a sheet: who owns how much of an estate where.
    pub fn want_owner(
        &mut self,
        examiner: u32,
        parcel: Parcel,
        estate: &str,
        name: impl Display + Drop,
        portion: Portion,
    ) {
        self.want(format_args!("{examiner},row,{parcel},{estate},{name},{portion}"));
    }

    /// Adds the rows of some estates in a parcel that UNITED STATES owns.
    pub fn want_unsold(&mut self, examiner: u32, parcel: Parcel, estates: &[&'static str]) {
        for estate in estates {
            self.want_owner(examiner, parcel, *estate, GOVERNMENT, ALL);
        }
    }

    /// Adds a sheet of a parcel, of so many rows; they come next.
    pub fn sheet(&mut self, examiner: u32, parcel: Parcel, rows: u32) {
        let sheet = format_args!("sheet,{parcel}");
        self.step(examiner, sheet, format_args!("sheet,{rows}"));
    }

    /// Adds a chain of a parcel, of so many entries; they come next.
    pub fn chain(&mut self, examiner: u32, parcel: Parcel, entries: u32) {
        let chain = format_args!("chain,{parcel}");
        self.step(examiner, chain, format_args!("chain,{entries}"));
    }

    /// Adds a sheet of a parcel that UNITED STATES owns in all estates.
    pub fn sheet_unsold(&mut self, examiner: u32, parcel: Parcel) {
        self.sheet(examiner, parcel, 3);
        self.want_unsold(examiner, parcel, &ESTATES);
    }

    /// Runs the script; how much there was of it. An error tells where its report isn't the one that it has to have.
    pub fn run(mut self, schedule: Schedule) -> Result<Tried> {
        let (tried, steps) = (self.tried, self.tried.steps);
        self.want(format_args!("end,{steps}"));
        if self.is_short {
            bail!("a script of {steps} steps finds no memory");
        }
        let came = written(self.alloc, schedule, self.script.as_str())?;
        is_report(self.alloc, came.as_slice(), self.report.as_str())?;
        Ok(tried)
    }
}
