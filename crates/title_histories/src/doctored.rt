//! Histories by hand that no plain machine answers.

use crate::plain::{Found, Plain, check};
use std::alloc::{AllocError, Global};
use title_chain::{Ask, Posting, Record, Terms};
use title_chance::township;
use title_instrument::{Estates, Instrument, Release};
use title_land::{Node, Section, Township, Tract, Within};
use title_settle::Outcome;
use title_trace::{Reply, Request};

/// What two examiners did to a section, as records of plain machines: a deed of the first, and the sheet that the second was answered
/// after it; and the sheet where there was no deed.
#[derive(Drop)]
pub struct Doctored {
    alloc: Global,
    township: Township,
    sold: Vec<Record>,
    unsold: Vec<Record>,
}

// All of a section.
fn whole(section: Section) -> Tract {
    Tract::of(Node::Part(section, Within::section()))
}

// A release of the surface from party 0 to party 1.
fn surface_release() -> Instrument {
    let estates = Estates {
        s: true,
        o: false,
        m: false,
    };
    Instrument::Release(Release {
        from: 0,
        to: 1,
        estates,
    })
}

fn deed_of(alloc: Global, section: Section) -> Result<Ask, AllocError> {
    let terms = Terms {
        doc: 1,
        tract: whole(section),
        instrument: surface_release(),
    };
    Ok(Ask::Post(Posting::new(alloc, terms)?))
}

// That a reply isn't for want of memory.
fn had_memory(reply: Reply) -> Result<(), AllocError> {
    match reply {
        Reply::Memory => Err(AllocError),
        _ => Ok(()),
    }
}

// An examiner's transaction of one ask.
fn commit(machine: &mut Plain, examiner: u32, ask: Ask) -> Result<(), AllocError> {
    machine.serve(Request::Begin(examiner));
    had_memory(machine.serve(Request::Step(examiner, ask)))?;
    had_memory(machine.serve(Request::Commit(examiner)))
}

// The second examiner's sheet.
fn show(machine: &mut Plain, section: Section) -> Result<(), AllocError> {
    commit(machine, 2, Ask::Sheet(whole(section)))
}

// The first examiner's deed.
fn sell(alloc: Global, machine: &mut Plain, section: Section) -> Result<(), AllocError> {
    let deed = deed_of(alloc, section)?;
    commit(machine, 1, deed)
}

// Adds a record to a history, where there is one.
fn add(
    alloc: Global,
    history: &mut Vec<Outcome>,
    place: u64,
    record: Option<&Record>,
) -> Result<(), AllocError> {
    if let Some(record) = record {
        let rec = record.copy(alloc)?;
        history.push(Outcome { place, rec })?;
    }
    Ok(())
}

// The records of a machine at which the first examiner sells a section, if asked to, and the second is shown it.
fn ask(
    alloc: Global,
    machine: &mut Plain,
    section: Section,
    sells: bool,
) -> Result<Vec<Record>, AllocError> {
    if sells {
        sell(alloc, machine, section)?;
    }
    show(machine, section)?;
    let mut records = Vec::new(alloc);
    for record in machine.records() {
        let copied = record.copy(alloc)?;
        records.push(copied)?;
    }
    Ok(records)
}

// The same of a new machine.
fn records_of(
    alloc: Global,
    township: Township,
    section: Section,
    sells: bool,
) -> Result<Vec<Record>, AllocError> {
    ask(alloc, &mut Plain::new(alloc, &[township])?, section, sells)
}

impl Doctored {
    /// The records, as plain machines make them; `None` where there is no such section.
    pub fn new(alloc: Global) -> Result<Option<Doctored>, AllocError> {
        let Some(township) = township(1) else {
            return Ok(None);
        };
        let Some(section) = Section::new(township, 1) else {
            return Ok(None);
        };
        let sold = records_of(alloc, township, section, true)?;
        let unsold = records_of(alloc, township, section, false)?;
        Ok(Some(Doctored {
            alloc,
            township,
            sold,
            unsold,
        }))
    }

    fn deed(&self) -> Option<&Record> {
        self.sold.first()
    }

    fn sheet(&self) -> Option<&Record> {
        self.sold.get(1)
    }

    fn stale(&self) -> Option<&Record> {
        self.unsold.first()
    }

    // What a new machine finds wrong with a history of one transaction.
    fn check_one(&self, place: u64, record: Option<&Record>) -> Found {
        let mut history = Vec::new(self.alloc);
        add(self.alloc, &mut history, place, record)?;
        check(self.alloc, &[self.township], history.as_slice())
    }

    // The same of two.
    fn check_two(
        &self,
        first: u64,
        record: Option<&Record>,
        second: u64,
        other: Option<&Record>,
    ) -> Found {
        let mut history = Vec::new(self.alloc);
        add(self.alloc, &mut history, first, record)?;
        add(self.alloc, &mut history, second, other)?;
        check(self.alloc, &[self.township], history.as_slice())
    }

    /// The deed, and the sheet after it.
    pub fn as_it_was(&self) -> Found {
        self.check_two(1, self.deed(), 2, self.sheet())
    }

    /// The sheet at the place of the deed, and the deed at that of the sheet.
    pub fn places_exchanged(&self) -> Found {
        self.check_two(2, self.deed(), 1, self.sheet())
    }

    /// The deed, and a sheet after it that doesn't show it.
    pub fn stale_sheet(&self) -> Found {
        self.check_two(1, self.deed(), 2, self.stale())
    }

    /// The sheet that shows the deed, where the deed was aborted.
    pub fn aborted_deed_that_shows(&self) -> Found {
        self.check_one(1, self.sheet())
    }
}
