//! The plain second reading of a script: its first fault, or its steps.

use crate::forms::is_name;
use crate::land::{Land, Township, land_of};
use crate::split::{Fields, rows_of};
use crate::step::{Act, Step, step_of};
use std::alloc::{AllocError, Global};
use std::fmt;

/// How a script is run.
#[derive(Clone, Copy, PartialEq, Eq)]
pub enum Command {
    Run,
    Alone,
    Office,
}

/// How many examiners an office has.
pub const EXAMINERS: u32 = 2;

/// A fault, and the row at which it is.
#[derive(Clone, Copy)]
pub struct Fault {
    pub kind: Kind,
    pub row: usize,
}

/// Why a row isn't taken.
#[derive(Clone, Copy)]
pub enum Kind {
    Row,
    Party,
    Order,
}

/// What a script is found to be: its first fault, if it has one, and what it says down to that.
pub struct Verdict {
    pub fault: Option<Fault>,
    pub steps: Vec<Step>,
    pub has_townships: bool,
}

// By hand, so that whoever lets one go sees one call.
impl Drop for Verdict {
    fn drop(self) {
        let Verdict {
            fault: _,
            steps,
            has_townships: _,
        } = self;
        drop(steps);
    }
}

// What the rows so far have declared and asked for, and whose transactions are open.
struct Book {
    alloc: Global,
    command: Command,
    townships: Vec<Township>,
    parties: Vec<String>,
    steps: Vec<Step>,
    open: Vec<u64>,
}

// By hand, so that whoever lets one go sees one call.
impl Drop for Book {
    fn drop(self) {
        let Book {
            alloc: _,
            command: _,
            townships,
            parties,
            steps,
            open,
        } = self;
        drop(townships);
        drop(parties);
        drop(steps);
        drop(open);
    }
}

impl Kind {
    fn number(self) -> u8 {
        match self {
            Kind::Row => 31,
            Kind::Party => 34,
            Kind::Order => 35,
        }
    }
}

impl fmt::Display for Command {
    fn fmt<W: fmt::Write>(&self, f: &mut fmt::Formatter<W>) -> fmt::Result {
        let word = match self {
            Command::Run => "run",
            Command::Alone => "alone",
            Command::Office => "office",
        };
        write!(f, "{word}")
    }
}

impl fmt::Display for Fault {
    fn fmt<W: fmt::Write>(&self, f: &mut fmt::Formatter<W>) -> fmt::Result {
        let (number, row) = (self.kind.number(), self.row);
        write!(f, "fault,{number},{row}")
    }
}

impl fmt::Display for Verdict {
    fn fmt<W: fmt::Write>(&self, f: &mut fmt::Formatter<W>) -> fmt::Result {
        match self.fault {
            Some(fault) => write!(f, "{fault}"),
            None => {
                let count = self.steps.len();
                write!(f, "a report of {count} steps")
            }
        }
    }
}

impl Book {
    fn new(alloc: Global, command: Command) -> Book {
        Book {
            alloc,
            command,
            townships: Vec::new(alloc),
            parties: Vec::new(alloc),
            steps: Vec::new(alloc),
            open: Vec::new(alloc),
        }
    }

    fn add_township(&mut self, text: &str) -> Result<Option<Kind>, AllocError> {
        let Some(Land::Township(township)) = land_of(self.alloc, text)? else {
            return Ok(Some(Kind::Row));
        };
        if self.townships.as_slice().contains(&township) || self.townships.len() >= 64 {
            return Ok(Some(Kind::Row));
        }
        if !self.steps.is_empty() {
            return Ok(Some(Kind::Order));
        }
        self.townships.push(township)?;
        Ok(None)
    }

    fn knows(&self, name: &str) -> bool {
        let parties = self.parties.as_slice();
        name == "UNITED STATES" || parties.iter().any(|party| party.as_str() == name)
    }

    fn add_party(&mut self, name: &str) -> Result<Option<Kind>, AllocError> {
        if !is_name(name) {
            return Ok(Some(Kind::Row));
        }
        if !self.steps.is_empty() {
            return Ok(Some(Kind::Order));
        }
        if self.knows(name) {
            return Ok(Some(Kind::Party));
        }
        self.parties.push(String::from_str(self.alloc, name)?)?;
        Ok(None)
    }

    // Whether a step stands where its examiner can't make it.
    fn is_out_of_turn(&self, step: Step) -> bool {
        let open = self.open.as_slice();
        match self.command {
            Command::Run => false,
            Command::Alone => open.iter().any(|examiner| *examiner != step.examiner),
            Command::Office => step.is_open == (step.act == Act::Begin),
        }
    }

    // Whether an office has no seat for a step.
    fn is_too_many(&self, step: Step) -> bool {
        self.command == Command::Office && step.examiner > u64::from(EXAMINERS)
    }

    fn knows_names(&self, step: Step, fields: &Fields) -> bool {
        step.act != Act::Post || (self.knows(fields.text(3)) && self.knows(fields.text(4)))
    }

    // Opens and ends transactions.
    fn turn(&mut self, step: Step) -> Result<(), AllocError> {
        match step.act {
            Act::Begin if !step.is_open => self.open.push(step.examiner)?,
            Act::Commit | Act::Abort => self.open.retain(|examiner| *examiner != step.examiner),
            _ => {}
        }
        Ok(())
    }

    fn fault_of(&self, step: Step, fields: &Fields) -> Option<Kind> {
        if self.is_too_many(step) {
            return Some(Kind::Row);
        }
        if self.is_out_of_turn(step) {
            return Some(Kind::Order);
        }
        if !self.knows_names(step, fields) {
            return Some(Kind::Party);
        }
        if self.command == Command::Office && !step.is_readable {
            return Some(Kind::Row);
        }
        None
    }

    fn add_step(&mut self, fields: &Fields) -> Result<Option<Kind>, AllocError> {
        let Some(mut step) = step_of(self.alloc, fields)? else {
            return Ok(Some(Kind::Row));
        };
        step.is_open = self.open.as_slice().contains(&step.examiner);
        if let Some(kind) = self.fault_of(step, fields) {
            return Ok(Some(kind));
        }
        self.turn(step)?;
        self.steps.push(step)?;
        Ok(None)
    }

    fn add_row(&mut self, fields: &Fields) -> Result<Option<Kind>, AllocError> {
        if !fields.are_text() {
            return Ok(Some(Kind::Row));
        }
        match fields.text(0) {
            "township" if fields.count() == 2 => self.add_township(fields.text(1)),
            "party" if fields.count() == 2 => self.add_party(fields.text(1)),
            _ => self.add_step(fields),
        }
    }

    // The first row at fault, if there is one.
    fn add_rows(&mut self, rows: &[Fields]) -> Result<Option<Fault>, AllocError> {
        let mut row = 0usize;
        for fields in rows {
            row = row.saturating_add(1);
            if let Some(kind) = self.add_row(fields)? {
                return Ok(Some(Fault { kind, row }));
            }
        }
        Ok(None)
    }

    fn into_verdict(self, fault: Option<Fault>) -> Verdict {
        let Book {
            alloc: _,
            command: _,
            townships,
            parties,
            steps,
            open,
        } = self;
        let has_townships = !townships.is_empty();
        drop(townships);
        drop(parties);
        drop(open);
        Verdict {
            fault,
            steps,
            has_townships,
        }
    }
}

/// What a script is, run by a command: its first row at fault decides.
pub fn read(alloc: Global, command: Command, script: &[u8]) -> Result<Verdict, AllocError> {
    let rows = rows_of(alloc, script)?;
    let mut book = Book::new(alloc, command);
    let fault = book.add_rows(rows.as_slice())?;
    Ok(book.into_verdict(fault))
}
