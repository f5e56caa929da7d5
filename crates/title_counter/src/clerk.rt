//! The clerk, who takes rows one after another.

ghost use Rattle.std.specs.Prelude.{◌≡◌, ◌⊎◌, ◌<◌, ◌≤◌, ◌+◌, ◌^◌, ◌∷◌, ◌++◌, [], Ok, Err, IfErr, IfOk, MatchResult, OnErr};
ghost use Rattle.std.specs.{Prelude.{false, length, map, true}, String.{string_bytes}};
ghost use Rattle.csv.specs.Records.{fields_of};
ghost use Rattle.title_chain.specs.Alone.{most_parties};
ghost use Rattle.title_plan.specs.declared.fault.ScriptFault.TheVariants as fault;
ghost use Rattle.title_plan.specs.{Lands.{land_in}, Plans.{understood, with_township}, Rows.{done, said}};
ghost use Rattle.title_plan.specs.Townships.{each_once, is_refused};
ghost use Rattle.title_trace.specs.Due.{most_townships};
ghost use Rattle.title_plan.specs.Plans as plans;
ghost use Rattle.title_script.specs.Served.{after_call, reply_to};
ghost use Rattle.title_counter.specs.Counters.{asked_at, counted, due_found, due_said, due_understood, opening, served, passed_over};
ghost use Rattle.title_counter.specs.{Counters.{setting_at, township_answer}, Founds.{found_of}};
ghost use Rattle.title_counter.specs.declared.found.Found.TheVariants as found;
ghost use Rattle.title_plan.specs.declared.row.Row.TheVariants as row;

use crate::answer::Answer;
use crate::found::{Found, read_line};
use crate::line_start::LineStart;
use csv::{ByteRecord, StringRecord};
use std::alloc::{AllocError, Global};
use title_aliquot::DescFault;
use title_desk::Desk;
use title_land::Township;
use title_lock::{Guards, NodeLocks};
use title_plan::{
    Act, Declared, Readings, Row, ScriptFault, add_party, add_township, is_full, is_refused,
    read_row, request_of, said_township,
};
use title_store::Store;
use title_trace::{MOST_PARTIES, Reply, Request};
use title_tree_store::TreeStore;

/// What is declared, the desk, how many rows there were, how many step rows that were served or whose description is none, and
/// whether no township may be declared any more; beside them the descriptions that were read.
pub struct Clerk {
    pub(crate) alloc: Global,
    pub declared: Declared,
    readings: Readings,
    pub desk: Desk<TreeStore, NodeLocks>,
    pub rows: u64,
    pub steps: u64,
    pub shut: bool,
    ghost setting: { desk.setting ≡ record { parties = most_parties; townships = declared.townships.items } },
    ghost unasked: { shut ≡ false → desk.trace ≡ [] },
    ghost counts: { steps ≤ rows },
}

// By hand, so that whoever lets one go sees one call.
impl Drop for Clerk {
    fn drop(self) {
        let Clerk {
            alloc: _,
            declared,
            readings,
            desk,
            rows: _,
            steps: _,
            shut: _,
        } = self;
        drop(declared);
        drop(readings);
        drop(desk);
    }
}

// Asks the desk. Where memory is wanted nothing has changed.
fn ask<S: Store + Drop, G: Guards + Drop>(
    desk: &mut Desk<S, G>,
    request: Request,
) -> Result<Reply, AllocError>
    ensures setting { desk.new.setting ≡ desk.old.setting }
    ensures trace { MatchResult result (λ _. desk.new.trace ≡ after_call desk.old.setting desk.old.trace request)
        (λ _. desk.new.trace ≡ desk.old.trace) }
    ensures reply { IfOk result (λ r. r ≡ reply_to desk.old.setting desk.old.trace request) }
{
    match desk.serve(request) {
        Reply::Memory => Err(AllocError),
        reply => Ok(reply),
    }
}

// Townships and one more, which isn't refused.
fn with_one_more(
    alloc: Global,
    townships: &[Township],
    township: Township,
) -> Result<Vec<Township>, AllocError>
    requires free { is_refused townships.now township ≡ false }
    requires once { each_once townships.now ≡ true }
    ensures more { IfOk result (λ v. v.items ≡ townships.now ++ township ∷ []) }
    ensures few { IfOk result (λ v. length v.items ≤ most_townships) }
    ensures once { IfOk result (λ v. each_once v.items ≡ true) }
{
    let mut more = Vec::from_slice(alloc, townships)?;
    add_township(&mut more, township)?;
    Ok(more)
}

impl Clerk {
    ghost use Rattle.title_counter.specs.{Sessions.{MayAnswer}, Views.{answered, counter_of, line_in, IsFault}};

    /// Nothing but UNITED STATES as party 0, and a desk with no call.
    pub(crate) fn open(alloc: Global) -> Result<Clerk, AllocError>
        ensures opening { IfOk result (λ clerk. counter_of clerk ≡ opening) }
    {
        let declared = Declared::nothing(alloc)?;
        let desk = Desk::open(alloc, MOST_PARTIES, declared.townships.as_slice())?;
        Ok(Clerk {
            alloc,
            declared,
            readings: Readings::new(alloc),
            desk,
            rows: 0,
            steps: 0,
            shut: false,
        })
    }

    /// What is declared, and a desk that has served what stood. Where it has served anything no township may be declared any more.
    pub fn onto(
        alloc: Global,
        declared: Declared,
        desk: Desk<TreeStore, NodeLocks>,
        shut: bool,
    ) -> Clerk
        requires setting { desk.setting ≡ record { parties = most_parties; townships = declared.townships.items } }
        requires unasked { shut ≡ false → desk.trace ≡ [] }
        ensures onto { counter_of result ≡ record {
          townships = declared.townships.items;
          names = map string_bytes declared.parties.keys;
          rows = 0;
          steps = 0;
          shut = shut;
          trace = desk.trace;
        } }
    {
        Clerk {
            alloc,
            declared,
            readings: Readings::new(alloc),
            desk,
            rows: 0,
            steps: 0,
            shut,
        }
    }

    // Whether no township may be declared any more: there was a step row, or something stood before the first row.
    fn is_begun(&self) -> bool
        ensures begun { result ≡ self.now.shut }
    {
        self.shut
    }

    // Declares a township: from now on there is a desk with one more. Where it fails nothing has changed.
    fn declare_township(&mut self, township: Township) -> Result<Answer, ScriptFault>
        ensures ok { IfOk result (λ a. township_answer (counter_of self.old) (with_township 1 (asked_at (counter_of self.old)) township)
            ≡ Ok (answered a self.new)) }
        ensures rows { self.new.rows ≡ self.old.rows }
        ensures kept { OnErr result (counter_of self.new ≡ counter_of self.old) }
        ensures err { IfErr result (IsFault
            (township_answer (counter_of self.old) (with_township 1 (asked_at (counter_of self.old)) township))) }
    {
        let old = self.declared.townships.as_slice();
        if is_refused(old, township) {
            return Err(ScriptFault::Row(1));
        }
        if self.is_begun() {
            return Err(ScriptFault::Order(1));
        }
        let townships = with_one_more(self.alloc, old, township)?;
        let desk = Desk::open(self.alloc, MOST_PARTIES, townships.as_slice())?;
        let number = townships.len() as u64;
        self.declared.townships = townships;
        self.desk = desk;
        Ok(Answer::Township(number))
    }

    fn take_township(&mut self, text: &str) -> Result<Answer, ScriptFault>
        ensures ok { IfOk result (λ a. township_answer (counter_of self.old)
            (plans.after_township 1 (asked_at (counter_of self.old)) (land_in text.now)) ≡ Ok (answered a self.new)) }
        ensures rows { self.new.rows ≡ self.old.rows }
        ensures kept { OnErr result (counter_of self.new ≡ counter_of self.old) }
        ensures err { IfErr result (IsFault (township_answer (counter_of self.old)
            (plans.after_township 1 (asked_at (counter_of self.old)) (land_in text.now)))) }
    {
        let Some(township) = said_township(self.readings.read(text)?) else {
            return Err(ScriptFault::Row(1));
        };
        self.declare_township(township)
    }

    fn take_party(&mut self, name: &str) -> Result<Answer, ScriptFault>
        ensures ok { IfOk result (λ a. due_said (counter_of self.old) (row.Party name.now) ≡ Ok (answered a self.new)) }
        ensures rows { self.new.rows ≡ self.old.rows }
        ensures kept { OnErr result (counter_of self.new ≡ counter_of self.old) }
        ensures err { IfErr result (IsFault (due_said (counter_of self.old) (row.Party name.now))) }
    {
        if is_full(&self.declared.parties) {
            return Err(ScriptFault::Row(1));
        }
        let number = self.declared.parties.len() as u64;
        if !add_party(self.alloc, &mut self.declared.parties, name)? {
            return Err(ScriptFault::Party(1));
        }
        Ok(Answer::Party(number))
    }

    // Serves what an examiner's step row asks, or tells the fault of its description.
    fn serve(
        &mut self,
        examiner: u32,
        asked: Result<Request, DescFault>,
    ) -> Result<Answer, ScriptFault>
        requires fresh { self.old.steps < self.old.rows }
        ensures ok { IfOk result (λ a. served (counter_of self.old) (line_in examiner asked) ≡ answered a self.new) }
        ensures rows { self.new.rows ≡ self.old.rows }
        ensures kept { OnErr result (counter_of self.new ≡ counter_of self.old) }
        ensures memory { IfErr result (λ e. e ≡ fault.Memory) }
    {
        match asked {
            Ok(request) => {
                let examiner = request.examiner();
                let reply = ask(&mut self.desk, request)?;
                self.steps += 1;
                self.shut = true;
                Ok(Answer::Replied(examiner, reply))
            }
            Err(why) => {
                self.steps += 1;
                self.shut = true;
                Ok(Answer::Described(examiner, why))
            }
        }
    }

    fn take_step(&mut self, examiner: u32, act: &Act<&str>) -> Result<Answer, ScriptFault>
        requires fresh { self.old.steps < self.old.rows }
        ensures ok { IfOk result (λ a. due_said (counter_of self.old) (row.Step examiner (done act.now)) ≡ Ok (answered a self.new)) }
        ensures rows { self.new.rows ≡ self.old.rows }
        ensures kept { OnErr result (counter_of self.new ≡ counter_of self.old) }
        ensures err { IfErr result (IsFault (due_said (counter_of self.old) (row.Step examiner (done act.now)))) }
    {
        let asked = request_of(
            self.alloc,
            &mut self.readings,
            &self.declared.parties,
            1,
            examiner,
            act,
        )?;
        self.serve(examiner, asked)
    }

    // Takes what a row says.
    fn take_said(&mut self, row: &Row<&str>) -> Result<Answer, ScriptFault>
        requires fresh { self.old.steps < self.old.rows }
        ensures ok { IfOk result (λ a. due_said (counter_of self.old) (said row.now) ≡ Ok (answered a self.new)) }
        ensures rows { self.new.rows ≡ self.old.rows }
        ensures kept { OnErr result (counter_of self.new ≡ counter_of self.old) }
        ensures err { IfErr result (IsFault (due_said (counter_of self.old) (said row.now))) }
    {
        match *row {
            Row::Township(text) => self.take_township(text),
            Row::Party(name) => self.take_party(name),
            Row::Step(examiner, ref act) => self.take_step(examiner, act),
        }
    }

    // Takes a row's fields.
    fn take_fields(&mut self, raw: ByteRecord) -> Result<Answer, ScriptFault>
        requires fresh { self.old.steps < self.old.rows }
        ensures ok { IfOk result (λ a. due_understood (counter_of self.old) (understood 1 (fields_of raw)) ≡ Ok (answered a self.new)) }
        ensures rows { self.new.rows ≡ self.old.rows }
        ensures kept { OnErr result (counter_of self.new ≡ counter_of self.old) }
        ensures err { IfErr result (IsFault (due_understood (counter_of self.old) (understood 1 (fields_of raw)))) }
    {
        let Ok(row) = StringRecord::from_byte_record(raw) else {
            return Err(ScriptFault::Row(1));
        };
        let Some(said) = read_row(&row) else {
            return Err(ScriptFault::Row(1));
        };
        self.take_said(&said)
    }

    // Passes over a row, which is counted.
    fn pass_over(&mut self, why: ScriptFault) -> Answer
        requires fits { self.old.rows + 1 < 2 ^ 64 }
        ensures answered { answered result self.new ≡ passed_over (counted (counter_of self.old)) why }
        ensures rows { self.new.rows ≡ self.old.rows + 1 }
    {
        self.rows += 1;
        Answer::PassedOver(why, self.rows)
    }

    // Takes a row, which is counted.
    fn take_row(&mut self, raw: ByteRecord) -> Answer
        requires fits { self.old.rows + 1 < 2 ^ 64 }
        ensures answered { (answered result self.new ≡ due_found (counter_of self.old) (found.Row (fields_of raw)))
            ⊎ (answered result self.new ≡ passed_over (counted (counter_of self.old)) fault.Memory) }
        ensures rows { self.new.rows ≡ self.old.rows + 1 }
    {
        self.rows += 1;
        match self.take_fields(raw) {
            Ok(answer) => answer,
            Err(why) => Answer::PassedOver(why, self.rows),
        }
    }

    // Takes what is found in a line.
    fn take_found(&mut self, found: Found<ByteRecord>) -> Answer
        requires fits { self.old.rows + 1 < 2 ^ 64 }
        ensures answered { (answered result self.new ≡ due_found (counter_of self.old) (found_of found))
            ⊎ (answered result self.new ≡ passed_over (counted (counter_of self.old)) fault.Memory) }
        ensures rows { self.new.rows ≤ self.old.rows + 1 }
    {
        match found {
            Found::Blank => Answer::Nothing,
            Found::Spoilt => self.pass_over(ScriptFault::Row(1)),
            Found::Row(raw) => self.take_row(raw),
        }
    }

    /// Takes a line; what stands in it is no longer wanted.
    pub(crate) fn take_line(&mut self, line: &mut LineStart) -> Answer
        requires fits { self.old.rows + 1 < 2 ^ 64 }
        ensures answered { MayAnswer (counter_of self.old) line.old (answered result self.new) }
        ensures rows { self.new.rows ≤ self.old.rows + 1 }
    {
        if line.is_long() {
            return self.pass_over(ScriptFault::Row(1));
        }
        match read_line(self.alloc, line.end()) {
            Ok(found) => self.take_found(found),
            Err(_) => self.pass_over(ScriptFault::Memory),
        }
    }
}
