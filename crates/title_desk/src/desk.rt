//! The desk.

ghost use Rattle.std.specs.Prelude.{MatchOption, None, Some, ◌≡◌, ◌≢◌, ◌+◌, ◌≤◌, ℕ, List, [], ◌∷◌, IfOk, OnOk, ◌↔◌, reverse, true, false};
ghost use Rattle.title_land.specs.{Depth.{depth}, Lands.{is_in_plant}, declared.survey.Cell.{Cell}};
ghost use Rattle.title_store.specs.Plants.{IsEachOnce};
ghost use Rattle.title_trace.specs.{declared.call.Request.TheVariants.{Begin, Step, Commit, Abort}, Trace.{is_open, open_steps, committed}};
ghost use Rattle.title_trace.specs.{declared.call.Reply.TheVariants.{Aborted, Denied, Memory}, Due.{DueReply, InTheWay, IsDue, MayOpen}};
ghost use Rattle.title_chain.specs.{declared.ask.Ask.TheVariants.{Post}, Asks.{is_post, tract_of}, Overlaps.{record_of}};
ghost use Rattle.title_chain.specs.Alone.{alone, after_steps, plant_after, most_parties, IsSerial};
ghost use Rattle.title_desk.specs.{Images.{is_posted, posted_at}, Singles.{Bars, Stands}};
ghost use Rattle.title_desk.specs.Told.{Books, IsFirstOpen, IsFit, Passes, Stays, Told, entry_of};

use crate::asks::{access_in, cause_in, lock, step_of, tract_in};
use crate::calls::Calls;
use crate::images::{forget_all, restore_all, tidy_up};
use crate::open_transactions::OpenTransactions;
use crate::shown_store::ShownStore;
use std::alloc::{AllocError, Global};
use std::marker::Model;
use title_chain::{Answer, Ask, Posting, Record, TractIndex};
use title_land::Township;
use title_lock::{Guards, LockFault};
use title_store::{Put, Store};
use title_trace::{Denial, MOST_PARTIES, MOST_STEPS, MOST_TOWNSHIPS, Reply, Request};

mod alone;

// Whether no township stands twice.
fn each_once(townships: &[Township]) -> bool
    ensures once { (result ≡ true) ↔ IsEachOnce townships.now }
{
    let mut rest = townships;
    while let [first, more @ ..] = rest {
        if first.is_among(more) {
            return false;
        }
        rest = more;
    }
    true
}

/// Whether a desk can be opened with these: 1 to 65,536 parties, at most 64 townships, none of them twice.
pub fn may_open(parties: u32, townships: &[Township]) -> bool
    ensures tells { (result ≡ true) ↔ MayOpen parties townships.now }
{
    if parties == 0 || parties > MOST_PARTIES || townships.len() > MOST_TOWNSHIPS {
        return false;
    }
    each_once(townships)
}

/// The transactions of any number of examiners over a store and guards. A contract sees its setting, its trace, which takes no
/// memory, and whether it has room for one record more.
pub struct Desk<S: Store + Drop, G: Guards + Drop> {
    alloc: Global,
    parties: u32,
    townships: Vec<Township>,
    store: ShownStore<S>,
    guards: G,
    calls: Calls,
    records: TractIndex,
    transactions: OpenTransactions<S>,
}

// By hand, so that whoever lets one go sees one call.
impl<S: Store + Drop, G: Guards + Drop> Drop for Desk<S, G> {
    fn drop(self) {
        let Desk {
            alloc: _,
            parties: _,
            townships,
            store,
            guards,
            calls,
            records,
            transactions,
        } = self;
        drop(townships);
        drop(store);
        drop(guards);
        drop(calls);
        drop(records);
        drop(transactions);
    }
}

impl<S: Store + Drop, G: Guards + Drop> Model for Desk<S, G> {
    ghost use Rattle.std.specs.Prelude.{reverse};
    ghost use Rattle.title_desk.specs.{Told.{Books}, Opened.{found}, Keeps.{Keeps}};

    ghost Value = { Books };

    ghost view = { λ d. record {
      setting = record { parties = d.parties; townships = d.townships.items };
      trace = d.calls.list;
      prepared = G.prepared d.guards;
      is_ready = d.records.has_room;
    } };

    ghost invariant = { λ d. Keeps (record {
      setting = record { parties = d.parties; townships = d.townships.items };
      trace = d.calls.list;
      records = reverse d.records.records;
      opened = found d.transactions;
      content = S.content d.store;
      declared = S.declared d.store;
      out = S.out d.store;
      locks = G.entries d.guards;
    }) };
}

impl<S: Store + Drop, G: Guards + Drop> Desk<S, G> {
    /// A desk with no call yet, for parties numbered from 0 and these townships.
    #[tactic(auto, using(crate::proofs::Content::backed_none))]
    pub fn open(
        alloc: Global,
        parties: u32,
        townships: &[Township],
    ) -> Result<Desk<S, G>, AllocError>
        requires may_open { MayOpen parties townships.now }
        ensures setting { IfOk result (λ d. d.setting ≡ record { parties = parties; townships = townships.now }) }
        ensures trace { IfOk result (λ d. d.trace ≡ []) }
    {
        let store = ShownStore::open(alloc, townships)?;
        let townships = Vec::from_slice(alloc, townships)?;
        Ok(Desk {
            alloc,
            parties,
            townships,
            store,
            guards: G::new(alloc),
            calls: Calls::new(),
            records: TractIndex::new(alloc),
            transactions: OpenTransactions::new(alloc),
        })
    }

    // Refuses a request.
    fn refuse(&mut self, request: Request, why: Denial) -> Reply
        requires due { DueReply depth self.old.setting self.old.trace request (Denied why) }
        ensures told { Told self.old request result self.new }
        ensures always { result ≢ Memory }
    {
        let reply = Reply::Denied(why);
        self.calls = self.calls.then(&request, &reply);
        reply
    }

    fn begin(&mut self, examiner: u32) -> Reply
        ensures told { Told self.old (Begin examiner) result self.new }
    {
        let request = Request::Begin(examiner);
        if self.transactions.contains(examiner) {
            return self.refuse(request, Denial::AlreadyOpen);
        }
        if self.transactions.begin(examiner).is_err() {
            return Reply::Memory;
        }
        self.calls = self.calls.then(&request, &Reply::Began);
        Reply::Began
    }

    fn abort(&mut self, examiner: u32) -> Reply
        ensures told { Told self.old (Abort examiner) result self.new }
        ensures always { is_open examiner self.old.trace ≡ true → result ≡ Aborted }
    {
        let request = Request::Abort(examiner);
        if !self.transactions.contains(examiner) {
            return self.refuse(request, Denial::NotOpen);
        }
        let transaction = self.transactions.take(examiner);
        restore_all(&mut self.store, transaction.images);
        self.guards.give_back(examiner);
        tidy_up(&mut self.store, &self.transactions);
        self.calls = self.calls.then(&request, &Reply::Aborted);
        Reply::Aborted
    }

    fn commit(&mut self, examiner: u32) -> Reply
        ensures told { Told self.old (Commit examiner) result self.new }
        ensures ready { self.old.is_ready ≡ true → result ≢ Memory }
    {
        let request = Request::Commit(examiner);
        if !self.transactions.contains(examiner) {
            return self.refuse(request, Denial::NotOpen);
        }
        if self.records.reserve().is_err() {
            return Reply::Memory;
        }
        let transaction = self.transactions.take(examiner);
        forget_all(&mut self.store, transaction.images);
        self.guards.give_back(examiner);
        tidy_up(&mut self.store, &self.transactions);
        self.records.push_reserved(Record {
            examiner,
            steps: transaction.steps.into_steps(),
        });
        let reply = Reply::Committed(self.records.len() as u64);
        self.calls = self.calls.then(&request, &reply);
        reply
    }

    // Why an ask is refused whoever makes it, in the order of refusals.
    fn bar(&self, ask: &Ask) -> Option<Denial>
        ensures bars { MatchOption result (Stands self.now.setting ask.now) (λ why. Bars self.now.setting ask.now why) }
    {
        if !self.store.holds(tract_in(ask)) {
            return Some(Denial::NoSuchTownship);
        }
        if let Some(cause) = cause_in(ask, self.parties) {
            return Some(Denial::Invalid(cause));
        }
        None
    }

    // Why a step is refused before its lock is asked for, in the order of refusals.
    fn refusal(&self, examiner: u32, ask: &Ask) -> Option<Denial>
        ensures refusal { MatchOption result (IsFit self.now examiner ask.now)
            (λ why. DueReply depth self.now.setting self.now.trace (Step examiner ask.now) (Denied why)) }
    {
        if !self.transactions.contains(examiner) {
            return Some(Denial::NotOpen);
        }
        if let Some(why) = self.bar(ask) {
            return Some(why);
        }
        if self.transactions.steps(examiner).len() >= MOST_STEPS {
            return Some(Denial::TooLong);
        }
        None
    }

    // The reply where an ask wants memory: of a sheet's tract nothing stays kept that may have been made for it.
    fn want_memory(&mut self, ask: &Ask) -> Reply
        ensures stays { Stays self.old self.new }
        ensures memory { result ≡ Memory }
    {
        if let Ask::Sheet(tract) = ask {
            self.store.let_go(tract.home());
        }
        Reply::Memory
    }

    // The answer to a sheet or a chain in whose way nobody is.
    fn read(&mut self, examiner: u32, ask: &Ask) -> Result<Answer, AllocError>
        requires reads { is_post ask.now ≡ false }
        requires within { is_in_plant self.old.setting.townships (tract_of ask.now) ≡ true }
        requires free { InTheWay self.old.trace examiner ask.now None }
        ensures same { self.new ≡ self.old }
        ensures alone { IfOk result (λ answer. answer
            ≡ alone depth self.old.setting.townships (committed self.old.trace) (open_steps self.old.trace examiner) ask.now) }
        ensures unposted { IfOk result (λ answer. is_posted ask.now answer ≡ false) }
    {
        match ask {
            Ask::Sheet(tract) => {
                let rows = self.store.rows(self.alloc, tract)?;
                Ok(Answer::Rows(rows))
            }
            Ask::Chain(tract) => {
                let (transactions, records) = (&mut self.transactions, &mut self.records);
                let entries = transactions.chain(records, examiner, tract)?;
                Ok(Answer::Entries(entries))
            }
            Ask::Post(_) => unreachable!(),
        }
    }

    // Adds a step that was answered and posted nothing.
    fn add_answer(&mut self, examiner: u32, ask: Ask, answer: Answer) -> Reply
        requires passes { Passes self.old examiner ask }
        requires prepared { self.old.prepared ≡ Some (entry_of examiner ask) }
        requires alone { answer
            ≡ alone depth self.old.setting.townships (committed self.old.trace) (open_steps self.old.trace examiner) ask }
        requires unposted { is_posted ask answer ≡ false }
        ensures told { Told self.old (Step examiner ask) result self.new }
    {
        let Ok(step) = step_of(self.alloc, &ask, &answer) else {
            return self.want_memory(&ask);
        };
        if self.transactions.add_step(examiner, step).is_err() {
            return self.want_memory(&ask);
        }
        lock(&mut self.guards, examiner, &ask);
        let (request, reply) = (Request::Step(examiner, ask), Reply::Answered(answer));
        self.calls = self.calls.then(&request, &reply);
        reply
    }

    // Posts an instrument that nothing refuses but the plant.
    fn post(&mut self, examiner: u32, posting: Posting) -> Reply
        requires passes { Passes self.old examiner (Post posting) }
        requires prepared { self.old.prepared ≡ Some (entry_of examiner (Post posting)) }
        ensures told { Told self.old (Step examiner (Post posting)) result self.new }
    {
        let Ok(copied) = posting.copy(self.alloc) else {
            return Reply::Memory;
        };
        let terms = posting.terms();
        let Ok(put) = self.store.put(&terms.tract, &terms.instrument) else {
            return Reply::Memory;
        };
        let image = match put {
            Put::Refused(rule, estate, node) => {
                let answer = Answer::Refused(rule, estate, node);
                return self.add_answer(examiner, Ask::Post(posting), answer);
            }
            Put::Done(image) => image,
        };
        let step = title_chain::Step {
            ask: Ask::Post(copied),
            answer: Answer::Posted,
        };
        if let Err(image) = self.transactions.add_post(examiner, step, image) {
            self.store.restore(image);
            return Reply::Memory;
        }
        let ask = Ask::Post(posting);
        lock(&mut self.guards, examiner, &ask);
        let request = Request::Step(examiner, ask);
        let reply = Reply::Answered(Answer::Posted);
        self.calls = self.calls.then(&request, &reply);
        reply
    }

    // Answers a sheet or a chain that nothing refuses.
    fn pass_read(&mut self, examiner: u32, ask: Ask) -> Reply
        requires reads { is_post ask ≡ false }
        requires passes { Passes self.old examiner ask }
        requires prepared { self.old.prepared ≡ Some (entry_of examiner ask) }
        ensures told { Told self.old (Step examiner ask) result self.new }
    {
        let Ok(answer) = self.read(examiner, &ask) else {
            return self.want_memory(&ask);
        };
        self.add_answer(examiner, ask, answer)
    }

    fn pass(&mut self, examiner: u32, ask: Ask) -> Reply
        requires passes { Passes self.old examiner ask }
        requires prepared { self.old.prepared ≡ Some (entry_of examiner ask) }
        ensures told { Told self.old (Step examiner ask) result self.new }
    {
        match ask {
            Ask::Sheet(tract) => self.pass_read(examiner, Ask::Sheet(tract)),
            Ask::Chain(tract) => self.pass_read(examiner, Ask::Chain(tract)),
            Ask::Post(posting) => self.post(examiner, posting),
        }
    }

    fn step(&mut self, examiner: u32, ask: Ask) -> Reply
        ensures told { Told self.old (Step examiner ask) result self.new }
    {
        if let Some(why) = self.refusal(examiner, &ask) {
            return self.refuse(Request::Step(examiner, ask), why);
        }
        let access = access_in(&ask);
        match self.guards.prepare(examiner, tract_in(&ask), access) {
            Ok(()) => self.pass(examiner, ask),
            Err(LockFault::Conflict(other)) => {
                self.refuse(Request::Step(examiner, ask), Denial::Conflict(other))
            }
            Err(LockFault::Memory) => Reply::Memory,
        }
    }

    /// Serves a request: adds it with the due reply to the trace, or answers `Memory` where a growth was refused, and then
    /// nothing has changed. `Memory` is never the reply to `Abort` of an open examiner, nor to `Commit` of a ready desk.
    pub fn serve(&mut self, request: Request) -> Reply
        ensures told { Told self.old request result self.new }
        ensures always_aborts { (e : ℕ) → request ≡ Abort e → is_open e self.old.trace ≡ true → result ≡ Aborted }
        ensures ready_commits { (e : ℕ) → request ≡ Commit e → self.old.is_ready ≡ true → result ≢ Memory }
    {
        match request {
            Request::Begin(examiner) => self.begin(examiner),
            Request::Step(examiner, ask) => self.step(examiner, ask),
            Request::Commit(examiner) => self.commit(examiner),
            Request::Abort(examiner) => self.abort(examiner),
        }
    }

    /// Aborts for an examiner who is gone: the same as to serve its `Abort`.
    pub fn sweep(&mut self, examiner: u32) -> Reply
        ensures told { Told self.old (Abort examiner) result self.new }
        ensures always_aborts { is_open examiner self.old.trace ≡ true → result ≡ Aborted }
    {
        self.abort(examiner)
    }

    /// Makes room so that a commit served next wants no memory. Nothing else changes.
    pub fn make_room(&mut self, _examiner: u32) -> Result<(), AllocError>
        ensures setting { self.new.setting ≡ self.old.setting }
        ensures trace { self.new.trace ≡ self.old.trace }
        ensures ready { OnOk result (self.new.is_ready ≡ true) }
    {
        self.records.reserve()
    }

    /// The committed transactions, in the order of their commits.
    pub fn records(&self) -> &[Record]
        ensures records { reverse result.now ≡ committed self.now.trace }
    {
        self.records.as_slice()
    }

    /// Whether an examiner has a transaction open.
    pub fn is_open(&self, examiner: u32) -> bool
        ensures opened { result ≡ is_open examiner self.now.trace }
    {
        self.transactions.contains(examiner)
    }

    /// The steps of an examiner's open transaction, the oldest first; none where it has none open.
    pub fn open_steps(&self, examiner: u32) -> &[title_chain::Step]
        ensures steps { reverse result.now ≡ open_steps self.now.trace examiner }
    {
        self.transactions.steps(examiner)
    }

    /// The least examiner with a transaction open; `None` exactly where there is none.
    pub fn first_open(&self) -> Option<u32>
        ensures first { IsFirstOpen self.now.trace result }
    {
        self.transactions.first()
    }

    /// The plant: in a cell where a step of an open examiner was posted, what the committed records followed by that
    /// examiner's open steps leave there; in every other cell what the committed records leave.
    pub fn store(&self) -> &S
        ensures declared { S.declared result.now ≡ self.now.setting.townships }
        ensures posted { (e : ℕ) (c : Cell) → posted_at self.now.setting.townships c (open_steps self.now.trace e) ≡ true →
            S.content result.now c
            ≡ after_steps depth self.now.setting.townships
            (plant_after depth self.now.setting.townships (committed self.now.trace)) (open_steps self.now.trace e) c }
        ensures rest { (c : Cell) → ((e : ℕ) → posted_at self.now.setting.townships c (open_steps self.now.trace e) ≡ false) →
            S.content result.now c ≡ plant_after depth self.now.setting.townships (committed self.now.trace) c }
    {
        self.store.store()
    }

    /// Each reply of the trace is the due one, and there are no more parties than a plant may have. It does nothing: the
    /// desk's type says so.
    pub fn is_due(&self)
        ensures due { IsDue depth self.now.setting self.now.trace }
        ensures few { self.now.setting.parties ≤ most_parties }
    {
        let _ = &self.records;
    }

    /// The committed transactions are serial: run alone, in the order of their commits, they get their answers; and so
    /// they are with the open steps of any one examiner as a last record. It does nothing: the desk's type says so.
    pub fn is_serial(&self)
        ensures committed_records { IsSerial depth self.now.setting.townships (committed self.now.trace) }
        ensures open_last { (e : ℕ) → IsSerial depth self.now.setting.townships
            (record_of e (open_steps self.now.trace e) ∷ committed self.now.trace) }
    {
        let _ = &self.records;
    }
}
