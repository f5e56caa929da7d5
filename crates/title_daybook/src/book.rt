//! The rows of a block, taken one after another.

ghost use Rattle.std.specs.Prelude.{◌≡◌, ◌⊎◌, ◌∷◌, [], IfErr, IfOk, OnOk, None, Some};
ghost use Rattle.csv.specs.Records.{fields_of};
ghost use Rattle.title_daybook.specs.{KeptRows.{inside, said_land}, Lines.{said_by}};
ghost use Rattle.title_daybook.specs.declared.fault.PlantFault.TheVariants as fault;
ghost use Rattle.title_plan.specs.{Fields.{given}, Lands.{land_in}, Plans.{numbered}, Rows.{done, named, said}};
ghost use Rattle.title_spelling.specs.Lands.{kept_land_in};
ghost use Rattle.title_standing.specs.Records.{posted_step, record_of};

use crate::fault::PlantFault;
use crate::standing::Standing;
use csv::{ByteRecord, StringRecord};
use itoa::Buffer;
use std::alloc::{AllocError, Global};
use title_chain::{Posting, Terms};
use title_instrument::Instrument;
use title_land::Tract;
use title_plan::{Act, Readings, Row, numbered, read_row, said_township};
use title_spelling::read_cells;
use title_standing::Deeds;
use title_trace::MOST_STEPS;

/// What stands so far, and the transaction that has begun, with what it has posted; beside them the descriptions that were read.
#[derive(Drop)]
pub(crate) struct Book {
    pub(crate) alloc: Global,
    readings: Readings,
    stands: Standing,
    begun: Option<Deeds>,
}

// The tract that a text says, where it says one.
fn read_land(
    alloc: Global,
    readings: &mut Readings,
    text: &str,
) -> Result<Option<Tract>, AllocError>
    ensures land { IfOk result (λ land. land ≡ said_land (kept_land_in text.now)) }
{
    if let Some(tract) = read_cells(alloc, text)? {
        return Ok(Some(tract));
    }
    match readings.read(text)? {
        Ok(tract) => Ok(Some(tract)),
        Err(_) => Ok(None),
    }
}

// A list of one post.
fn one_post(alloc: Global, posting: Posting) -> Result<Vec<Posting>, AllocError>
    ensures one { IfOk result (λ posts. posts.items ≡ posting ∷ []) }
{
    let mut posts = Vec::new(alloc);
    posts.push(posting)?;
    Ok(posts)
}

// The examiner of a transaction that has begun posts in the n-th row, if it is this one and hasn't posted too much.
fn post_inside(
    deeds: &mut Deeds,
    n: usize,
    examiner: u32,
    posting: Posting,
) -> Result<(), PlantFault>
    ensures ok { OnOk result (inside (record_of deeds.old) examiner (posted_step posting) ≡ Some (record_of deeds.new)) }
    ensures err { IfErr result (λ e. (e ≡ fault.Memory)
        ⊎ ((e ≡ fault.Row n) × (inside (record_of deeds.old) examiner (posted_step posting) ≡ None))) }
{
    if deeds.examiner != examiner || deeds.posts.len() >= MOST_STEPS {
        return Err(PlantFault::Row(n));
    }
    Ok(deeds.posts.push(posting)?)
}

impl Book {
    ghost use Rattle.title_daybook.specs.{Books.{progress_of, standing_of, IsFaultAt}, Standing.{nothing_standing}};
    ghost use Rattle.title_daybook.specs.KeptRows.{after_act, after_begin, after_last_row, after_party, after_post, after_said};
    ghost use Rattle.title_daybook.specs.KeptRows.{after_township, between, commits, declares, is_end, posts};

    /// Nothing but UNITED STATES as party 0.
    pub(crate) fn new(alloc: Global) -> Result<Book, AllocError>
        ensures nothing { IfOk result (λ book. progress_of book ≡ between nothing_standing) }
    {
        let stands = Standing::nothing(alloc)?;
        Ok(Book {
            alloc,
            readings: Readings::new(alloc),
            stands,
            begun: None,
        })
    }

    /// What stands.
    pub(crate) fn close(self) -> Standing
        ensures stands { standing_of result ≡ (progress_of self).stands }
    {
        let Book {
            alloc: _,
            readings: _,
            stands,
            begun: _,
        } = self;
        stands
    }

    // An examiner begins in the n-th row.
    fn begin(&mut self, n: usize, examiner: u32) -> Result<(), PlantFault>
        ensures ok { OnOk result (after_begin (progress_of self.old) examiner ≡ Some (progress_of self.new)) }
        ensures err { IfErr result (IsFaultAt n (after_begin (progress_of self.old) examiner)) }
    {
        if self.begun.is_some() {
            return Err(PlantFault::Row(n));
        }
        self.begun = Some(Deeds {
            examiner,
            posts: Vec::new(self.alloc),
        });
        Ok(())
    }

    // An examiner commits in the n-th row.
    fn commit(&mut self, n: usize, examiner: u32) -> Result<(), PlantFault>
        ensures ok { OnOk result (commits (progress_of self.old).stands (progress_of self.old).begun examiner
            ≡ Some (progress_of self.new)) }
        ensures err { IfErr result (IsFaultAt n (commits (progress_of self.old).stands (progress_of self.old).begun examiner)) }
    {
        let Some(deeds) = self.begun.take() else {
            return Err(PlantFault::Row(n));
        };
        if deeds.examiner != examiner {
            return Err(PlantFault::Row(n));
        }
        Ok(self.stands.add_record(deeds)?)
    }

    // An examiner posts in the n-th row.
    fn post(&mut self, n: usize, examiner: u32, posting: Posting) -> Result<(), PlantFault>
        ensures ok { OnOk result (posts (progress_of self.old).stands (progress_of self.old).begun examiner (posted_step posting)
            ≡ Some (progress_of self.new)) }
        ensures err { IfErr result (IsFaultAt n
            (posts (progress_of self.old).stands (progress_of self.old).begun examiner (posted_step posting))) }
    {
        if let Some(deeds) = &mut self.begun {
            return post_inside(deeds, n, examiner, posting);
        }
        let posts = one_post(self.alloc, posting)?;
        Ok(self.stands.add_record(Deeds { examiner, posts })?)
    }

    // A post in the n-th row.
    fn take_post(
        &mut self,
        n: usize,
        examiner: u32,
        doc: u64,
        instrument: &Instrument<&str>,
        text: &str,
    ) -> Result<(), PlantFault>
        ensures ok { OnOk result (after_post (progress_of self.old) examiner doc
            (numbered (progress_of self.old).stands.names (named instrument.now)) (said_land (kept_land_in text.now))
            ≡ Some (progress_of self.new)) }
        ensures err { IfErr result (IsFaultAt n (after_post (progress_of self.old) examiner doc
            (numbered (progress_of self.old).stands.names (named instrument.now)) (said_land (kept_land_in text.now)))) }
    {
        let Some(instrument) = numbered(&self.stands.parties, instrument) else {
            return Err(PlantFault::Row(n));
        };
        let Some(tract) = read_land(self.alloc, &mut self.readings, text)? else {
            return Err(PlantFault::Row(n));
        };
        let terms = Terms {
            doc,
            tract,
            instrument,
        };
        let posting = Posting::new(self.alloc, terms)?;
        self.post(n, examiner, posting)
    }

    // What an examiner does in the n-th row.
    fn take_act(&mut self, n: usize, examiner: u32, act: &Act<&str>) -> Result<(), PlantFault>
        ensures ok { OnOk result (after_act (progress_of self.old) examiner (done act.now) ≡ Some (progress_of self.new)) }
        ensures err { IfErr result (IsFaultAt n (after_act (progress_of self.old) examiner (done act.now))) }
    {
        match *act {
            Act::Begin => self.begin(n, examiner),
            Act::Commit => self.commit(n, examiner),
            Act::Post(doc, ref instrument, text) => {
                self.take_post(n, examiner, doc, instrument, text)
            }
            Act::Abort => Err(PlantFault::Row(n)),
            Act::Sheet(_) => Err(PlantFault::Row(n)),
            Act::Chain(_) => Err(PlantFault::Row(n)),
        }
    }

    // The n-th row declares a township.
    fn take_township(&mut self, n: usize, text: &str) -> Result<(), PlantFault>
        ensures ok { OnOk result (declares (progress_of self.old) (after_township (progress_of self.old).stands (land_in text.now))
            ≡ Some (progress_of self.new)) }
        ensures err { IfErr result (IsFaultAt n
            (declares (progress_of self.old) (after_township (progress_of self.old).stands (land_in text.now)))) }
    {
        if self.begun.is_some() {
            return Err(PlantFault::Row(n));
        }
        let Some(township) = said_township(self.readings.read(text)?) else {
            return Err(PlantFault::Row(n));
        };
        self.stands.add_township(n, township)
    }

    // The n-th row declares a party.
    fn take_party(&mut self, n: usize, name: &str) -> Result<(), PlantFault>
        ensures ok { OnOk result (declares (progress_of self.old) (after_party (progress_of self.old).stands name.now)
            ≡ Some (progress_of self.new)) }
        ensures err { IfErr result (IsFaultAt n
            (declares (progress_of self.old) (after_party (progress_of self.old).stands name.now))) }
    {
        if self.begun.is_some() {
            return Err(PlantFault::Row(n));
        }
        self.stands.add_party(self.alloc, n, name)
    }

    // What the n-th row says.
    fn take_said(&mut self, n: usize, row: &Row<&str>) -> Result<(), PlantFault>
        ensures ok { OnOk result (after_said (progress_of self.old) (said row.now) ≡ Some (progress_of self.new)) }
        ensures err { IfErr result (IsFaultAt n (after_said (progress_of self.old) (said row.now))) }
    {
        match *row {
            Row::Township(text) => self.take_township(n, text),
            Row::Party(name) => self.take_party(n, name),
            Row::Step(examiner, ref act) => self.take_act(n, examiner, act),
        }
    }

    /// Takes the n-th row, which isn't the last one of its block. Gives its record back.
    pub(crate) fn take_record(
        &mut self,
        n: usize,
        raw: ByteRecord,
    ) -> Result<ByteRecord, PlantFault>
        ensures ok { OnOk result (given (said_by (fields_of raw)) (after_said (progress_of self.old)) ≡ Some (progress_of self.new)) }
        ensures err { IfErr result (IsFaultAt n (given (said_by (fields_of raw)) (after_said (progress_of self.old)))) }
    {
        let Ok(row) = StringRecord::from_byte_record(raw) else {
            return Err(PlantFault::Row(n));
        };
        let Some(said) = read_row(&row) else {
            return Err(PlantFault::Row(n));
        };
        self.take_said(n, &said)?;
        Ok(row.into_byte_record())
    }

    /// Takes the n-th row, which is the last one of its block.
    pub(crate) fn take_last(&self, n: usize, line: &[u8]) -> Result<(), PlantFault>
        ensures ok { OnOk result (after_last_row (progress_of self.now) line.now ≡ Some (progress_of self.now)) }
        ensures err { IfErr result (IsFaultAt n (after_last_row (progress_of self.now) line.now)) }
    {
        if !self.is_end(line) {
            return Err(PlantFault::Row(n));
        }
        Ok(())
    }

    // Whether nobody is inside and a row is `end,N`, N being the number of records.
    fn is_end(&self, line: &[u8]) -> bool
        ensures end { result ≡ is_end (progress_of self.now) line.now }
    {
        if self.begun.is_some() {
            return false;
        }
        let mut digits = Buffer::new();
        let number = digits.format(self.stands.deeds.len()).as_bytes();
        match line.strip_prefix(b"end,") {
            Some(rest) => rest == number,
            None => false,
        }
    }
}
