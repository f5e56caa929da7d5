//! A desk, each of whose replies is held against the one that it has to be.

use crate::parcel::{Parcel, township};
use crate::portion::WHOLE;
use anyhow::{Error, Result, anyhow, bail};
use std::alloc::{AllocError, Global};
use std::fmt;
use title_chain::{Answer, Ask, Entries, Posting, SheetRows, Terms};
use title_desk::{Desk, may_open};
use title_instrument::{Deed, Estate, Estates, Instrument, Quantum, Release};
use title_land::{Node, Township, Tract};
use title_lock::NodeLocks;
use title_share::Share;
use title_store::SheetRow;
use title_trace::{Denial, Reply, Request};
use title_tree_store::TreeStore;

/// The examiner of each transaction of one step.
const EXAMINER: u32 = 1;

/// The surface alone.
pub const SURFACE: Estates = Estates {
    s: true,
    o: false,
    m: false,
};

/// A deed of so many units of the surface.
#[derive(Clone, Copy)]
pub struct Sale {
    pub document: u64,
    pub grantor: u32,
    pub grantee: u32,
    pub units: u64,
}

/// The estates, in order.
pub const ESTATES: [Estate; 3] = [Estate::S, Estate::O, Estate::M];

/// Those of minerals.
pub const MINERALS: [Estate; 2] = [Estate::O, Estate::M];

/// What is asked in a tract.
#[derive(Clone, Copy)]
pub enum Wish {
    Sheet,
    Chain,
    Sell(Sale),
    Release(Release),
}

/// Rows of a sheet, as they have to be. Once a row finds no memory, no sheet has them.
#[derive(Drop)]
pub struct Rows {
    rows: Vec<SheetRow>,
    is_short: bool,
}

/// Who asks a desk over trees and locks by node, as scripts do.
pub struct Clerk {
    alloc: Global,
    desk: Desk<TreeStore, NodeLocks>,
}

// By hand, so that whoever lets one go sees one call.
impl Drop for Clerk {
    fn drop(self) {
        let Clerk { alloc: _, desk } = self;
        drop(desk);
    }
}

// A reply in one word of a report.
fn word_of(reply: &Reply) -> &'static str {
    match reply {
        Reply::Began => "began",
        Reply::Answered(Answer::Rows(_)) => "sheet",
        Reply::Answered(Answer::Entries(_)) => "chain",
        Reply::Answered(Answer::Posted) => "posted",
        Reply::Answered(Answer::Refused(_, _, _)) => "refused",
        Reply::Committed(_) => "committed",
        Reply::Aborted => "aborted",
        Reply::Denied(Denial::NotOpen) => "notopen",
        Reply::Denied(Denial::AlreadyOpen) => "alreadyopen",
        Reply::Denied(Denial::NoSuchTownship) => "notownship",
        Reply::Denied(Denial::Invalid(_)) => "invalid",
        Reply::Denied(Denial::TooLong) => "toolong",
        Reply::Denied(Denial::Conflict(_)) => "conflict",
        Reply::Memory => "want of memory",
    }
}

// The number behind that word, where there is one.
fn number_of(reply: &Reply) -> Option<u64> {
    match reply {
        Reply::Answered(Answer::Rows(rows)) => Some(rows.len() as u64),
        Reply::Answered(Answer::Entries(entries)) => Some(entries.as_slice().len() as u64),
        Reply::Answered(Answer::Refused(rule, _, _)) => Some(u64::from(rule.number())),
        Reply::Committed(place) => Some(*place),
        Reply::Denied(Denial::Invalid(cause)) => Some(u64::from(cause.number())),
        Reply::Denied(Denial::Conflict(other)) => Some(u64::from(*other)),
        _ => None,
    }
}

/// A reply in the words of a report, but for the rows of a list.
#[derive(Clone, Copy)]
struct Told<'a>(&'a Reply);

impl fmt::Display for Told<'_> {
    fn fmt<W: fmt::Write>(&self, f: &mut fmt::Formatter<W>) -> fmt::Result {
        let (reply, word) = (self.0, word_of(self.0));
        write!(f, "{word}")?;
        if let Some(number) = number_of(reply) {
            write!(f, ",{number}")?;
        }
        if let Reply::Answered(Answer::Refused(_, estate, node)) = reply {
            write!(f, ",{estate},{node}")?;
        }
        Ok(())
    }
}

fn words_of(alloc: Global, reply: &Reply) -> Result<String, AllocError> {
    format!(in alloc; "{}", Told(reply))
}

// A reply has to be told so.
fn is_told(alloc: Global, reply: &Reply, wanted: &str) -> Result<()> {
    let told = words_of(alloc, reply)?;
    if told.as_str() == wanted {
        return Ok(());
    }
    bail!("{told} was replied, and not {wanted}");
}

fn no_list(reply: &Reply) -> Error {
    anyhow!("{} was replied, and no list", Told(reply))
}

// The first so many townships.
fn townships(alloc: Global, count: u32) -> Result<Vec<Township>, AllocError> {
    let mut townships = Vec::new(alloc);
    for number in 0..count {
        if let Some(township) = township(number) {
            townships.push(township)?;
        }
    }
    Ok(townships)
}

fn post(alloc: Global, doc: u64, tract: Tract, instrument: Instrument) -> Result<Ask, AllocError> {
    let terms = Terms {
        doc,
        tract,
        instrument,
    };
    Ok(Ask::Post(Posting::new(alloc, terms)?))
}

impl Sale {
    fn instrument(self, share: Share) -> Instrument {
        Instrument::Deed(Deed {
            grantor: self.grantor,
            grantee: self.grantee,
            estates: SURFACE,
            warranty: false,
            quantum: Quantum::Whole(share),
            reserve: [None, None, None],
        })
    }

    fn ask(self, alloc: Global, tract: Tract) -> Result<Ask> {
        match Share::new(self.units) {
            Some(share) => Ok(post(alloc, self.document, tract, self.instrument(share))?),
            None => bail!("{} units are no share", self.units),
        }
    }
}

impl Wish {
    fn ask(self, alloc: Global, tract: &Tract) -> Result<Ask> {
        let tract = tract.copy(alloc)?;
        match self {
            Wish::Sheet => Ok(Ask::Sheet(tract)),
            Wish::Chain => Ok(Ask::Chain(tract)),
            Wish::Sell(sale) => sale.ask(alloc, tract),
            Wish::Release(release) => Ok(post(alloc, 1, tract, Instrument::Release(release))?),
        }
    }
}

impl Rows {
    /// No row.
    pub fn new(alloc: Global) -> Rows {
        Rows {
            rows: Vec::new(alloc),
            is_short: false,
        }
    }

    /// Adds rows: party 0 owns these estates in a parcel.
    pub fn add_unsold(&mut self, parcel: Parcel, estates: &[Estate]) {
        for estate in estates {
            self.add(parcel, *estate, 0, WHOLE);
        }
    }

    // Adds a row in a node.
    fn add_in(
        &mut self,
        node: Node,
        estate: Estate,
        party: u32,
        units: u64,
    ) -> Result<(), AllocError> {
        self.rows.push(SheetRow {
            node,
            estate,
            party,
            units,
        })?;
        Ok(())
    }

    /// Adds a row: a party owns so many units of an estate in a parcel.
    pub fn add(&mut self, parcel: Parcel, estate: Estate, party: u32, units: u64) {
        let is_added = match parcel.found() {
            Some(node) => self.add_in(node, estate, party, units).is_ok(),
            None => false,
        };
        self.is_short |= !is_added;
    }

    /// The rows of a sheet have to be these.
    pub fn are(&self, sheet: &SheetRows) -> Result<()> {
        let (came, wanted) = (sheet.len(), self.rows.len());
        if self.is_short || came != wanted {
            bail!("a sheet has {came} rows, and not {wanted}");
        }
        for (index, wanted) in self.rows.iter().enumerate() {
            match sheet.row(index) {
                Some(row) if row == *wanted => {}
                row => bail!("{row:?} is no row of the sheet"),
            }
        }
        Ok(())
    }
}

// Opens a desk for these townships.
fn open_for(alloc: Global, parties: u32, townships: &[Township]) -> Result<Clerk> {
    if !may_open(parties, townships) {
        bail!("no desk is opened for {parties} parties");
    }
    let desk = Desk::open(alloc, parties, townships)?;
    Ok(Clerk { alloc, desk })
}

impl Clerk {
    /// Opens a desk for so many parties, numbered from 0, and the first so many townships.
    pub fn open(alloc: Global, parties: u32, count: u32) -> Result<Clerk> {
        let townships = townships(alloc, count)?;
        open_for(alloc, parties, townships.as_slice())
    }

    /// Whether no tree could be joined to fewer nodes.
    pub fn is_tidy(&self) -> bool {
        self.desk.store().is_tidy()
    }

    /// How many transactions are committed.
    pub fn committed(&self) -> usize {
        self.desk.records().len()
    }

    /// Serves a request, to which this has to be the reply.
    pub fn serve(&mut self, request: Request, wanted: &str) -> Result<()> {
        let reply = self.desk.serve(request);
        is_told(self.alloc, &reply, wanted)
    }

    // The reply to an ask as a transaction of its own.
    fn reply_alone(&mut self, ask: Ask) -> Reply {
        self.desk.serve_alone(EXAMINER, ask)
    }

    /// Serves a step in a tract as a transaction of its own, to which this has to be the reply.
    pub fn alone(&mut self, wish: Wish, tract: &Tract, wanted: &str) -> Result<()> {
        let ask = wish.ask(self.alloc, tract)?;
        let reply = self.reply_alone(ask);
        is_told(self.alloc, &reply, wanted)
    }

    /// The same in a parcel.
    pub fn alone_at(&mut self, wish: Wish, parcel: Parcel, wanted: &str) -> Result<()> {
        self.alone(wish, &parcel.tract()?, wanted)
    }

    /// Serves a step in a tract, of an open transaction, to which this has to be the reply.
    pub fn step(&mut self, examiner: u32, wish: Wish, tract: &Tract, wanted: &str) -> Result<()> {
        let ask = wish.ask(self.alloc, tract)?;
        self.serve(Request::Step(examiner, ask), wanted)
    }

    /// The same in a parcel.
    pub fn step_at(
        &mut self,
        examiner: u32,
        wish: Wish,
        parcel: Parcel,
        wanted: &str,
    ) -> Result<()> {
        self.step(examiner, wish, &parcel.tract()?, wanted)
    }

    /// The sheet of a tract, asked for alone, has to have these rows.
    pub fn shows(&mut self, tract: &Tract, rows: &Rows) -> Result<()> {
        let ask = Ask::Sheet(tract.copy(self.alloc)?);
        match self.reply_alone(ask) {
            Reply::Answered(Answer::Rows(sheet)) => rows.are(&sheet),
            reply => Err(no_list(&reply)),
        }
    }

    /// The same in a parcel.
    pub fn shows_at(&mut self, parcel: Parcel, rows: &Rows) -> Result<()> {
        self.shows(&parcel.tract()?, rows)
    }

    /// The chain of a parcel, asked for alone.
    pub fn chain_at(&mut self, parcel: Parcel) -> Result<Entries> {
        match self.reply_alone(Ask::Chain(parcel.tract()?)) {
            Reply::Answered(Answer::Entries(entries)) => Ok(entries),
            reply => Err(no_list(&reply)),
        }
    }
}
