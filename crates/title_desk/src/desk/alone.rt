//! Transactions of one step. Where nobody is open, no open transaction, no lock and no before-image is kept for them.

ghost use Rattle.std.specs.Prelude.{◌≡◌, ◌≢◌, ◌++◌, ◌∷◌, [], IfOk, OnOk, true, false, length};
ghost use Rattle.title_land.specs.Depth.{depth};
ghost use Rattle.title_chain.specs.{declared.ask.{Ask.TheVariants.{Post}, Answer.TheVariants.{Posted}}, Alone.{alone}, Asks.{is_post}};
ghost use Rattle.title_trace.specs.{declared.call.Reply.TheVariants.{Began, Committed, Memory}, Trace.{committed, open_steps}};
ghost use Rattle.title_desk.specs.{Images.{is_posted}, Singles.{AddedInTurn, Bars, BrokenOff, IsIdle, Stands, ToldSingle, ending, in_turn}};

use crate::asks::step_of;
use crate::calls::Calls;
use crate::desk::Desk;
use std::alloc::{AllocError, Global};
use title_chain::{Answer, Ask, Posting, Record, Steps, TractIndex};
use title_lock::Guards;
use title_store::{Put, Store};
use title_trace::laws::idle_have_no_steps;
use title_trace::{Denial, Reply, Request};

// What a transaction of one answered step takes memory for: its step, and room for its record.
fn prepare_answer(
    alloc: Global,
    records: &mut TractIndex,
    ask: &Ask,
    answer: &Answer,
) -> Result<Steps, AllocError>
    ensures records { records.new.records ≡ records.old.records }
    ensures room { OnOk result (records.new.has_room ≡ true) }
    ensures steps { IfOk result (λ steps. steps ≡ record { ask = ask.now; answer = answer.now } ∷ []) }
{
    let step = step_of(alloc, ask, answer)?;
    records.reserve()?;
    Ok(Steps::one(step))
}

// What a transaction of one post that is done takes memory for: its step, and room for its record.
fn prepare_post(
    alloc: Global,
    records: &mut TractIndex,
    posting: &Posting,
) -> Result<Steps, AllocError>
    ensures records { records.new.records ≡ records.old.records }
    ensures room { OnOk result (records.new.has_room ≡ true) }
    ensures steps { IfOk result (λ steps. steps ≡ record { ask = Post posting.now; answer = Posted } ∷ []) }
{
    let ask = Ask::Post(posting.copy(alloc)?);
    let answer = Answer::Posted;
    prepare_answer(alloc, records, &ask, &answer)
}

// How a transaction of one step is ended.
fn ending(examiner: u32, told: &Reply) -> Request
    ensures ending { result ≡ ending examiner told.now }
{
    match told {
        Reply::Answered(_) => Request::Commit(examiner),
        _ => Request::Abort(examiner),
    }
}

// The calls with those of a transaction of one step: it is begun, asked, and ended.
fn with_single(calls: &Calls, examiner: u32, ask: Ask, told: &Reply, ended: &Reply) -> Calls
    ensures calls { result.list ≡ in_turn calls.now.list examiner ask Began told.now ended.now }
{
    let begun = calls.then(&Request::Begin(examiner), &Reply::Began);
    let asked = begun.then(&Request::Step(examiner, ask), told);
    asked.then(&ending(examiner, told), ended)
}

// Adds the record of a transaction whose step is answered, for which there is room; the calls with its own.
fn add_done(
    calls: &Calls,
    records: &mut TractIndex,
    examiner: u32,
    ask: Ask,
    told: &Reply,
    steps: Steps,
) -> Calls
    requires room { records.old.has_room ≡ true }
    ensures records { records.new.records ≡ records.old.records ++ record { examiner = examiner; steps = steps } ∷ [] }
    ensures calls { result.list ≡ in_turn calls.now.list examiner ask Began told.now (Committed (length records.new.records)) }
{
    records.push_reserved(Record { examiner, steps });
    let ended = Reply::Committed(records.len() as u64);
    with_single(calls, examiner, ask, told, &ended)
}

impl<S: Store + Drop, G: Guards + Drop> Desk<S, G> {
    // Adds a transaction whose step is refused.
    fn refuse_alone(&mut self, examiner: u32, ask: Ask, why: Denial) -> Reply
        requires idle { IsIdle self.old.trace }
        requires bars { Bars self.old.setting ask why }
        ensures told { ToldSingle self.old examiner ask result self.new }
    {
        let told = Reply::Denied(why);
        self.calls = with_single(&self.calls, examiner, ask, &told, &Reply::Aborted);
        told
    }

    // Adds a transaction whose step is answered and posts nothing.
    fn answer_alone(&mut self, examiner: u32, ask: Ask, answer: Answer) -> Reply
        requires idle { IsIdle self.old.trace }
        requires stands { Stands self.old.setting ask }
        requires alone { answer
            ≡ alone depth self.old.setting.townships (committed self.old.trace) (open_steps self.old.trace examiner) ask }
        requires unposted { is_posted ask answer ≡ false }
        ensures told { ToldSingle self.old examiner ask result self.new }
    {
        let Ok(steps) = prepare_answer(self.alloc, &mut self.records, &ask, &answer) else {
            return self.want_memory(&ask);
        };
        let told = Reply::Answered(answer);
        let (calls, records) = (&self.calls, &mut self.records);
        self.calls = add_done(calls, records, examiner, ask, &told, steps);
        told
    }

    // Answers a sheet or a chain that nothing refuses.
    fn read_alone(&mut self, examiner: u32, ask: Ask) -> Reply
        requires reads { is_post ask ≡ false }
        requires idle { IsIdle self.old.trace }
        requires stands { Stands self.old.setting ask }
        ensures told { ToldSingle self.old examiner ask result self.new }
    {
        idle_have_no_steps();
        self.is_due();
        let Ok(answer) = self.read(examiner, &ask) else {
            return self.want_memory(&ask);
        };
        self.answer_alone(examiner, ask, answer)
    }

    // Posts an instrument that nothing refuses but the plant. All that takes memory comes before the post is done.
    fn post_alone(&mut self, examiner: u32, posting: Posting) -> Reply
        requires idle { IsIdle self.old.trace }
        requires stands { Stands self.old.setting (Post posting) }
        ensures told { ToldSingle self.old examiner (Post posting) result self.new }
    {
        let Ok(steps) = prepare_post(self.alloc, &mut self.records, &posting) else {
            return Reply::Memory;
        };
        let terms = posting.terms();
        let Ok(put) = self.store.put_alone(&terms.tract, &terms.instrument) else {
            return Reply::Memory;
        };
        match put {
            Put::Done(()) => {}
            Put::Refused(rule, estate, node) => {
                let answer = Answer::Refused(rule, estate, node);
                return self.answer_alone(examiner, Ask::Post(posting), answer);
            }
        }
        let (ask, told) = (Ask::Post(posting), Reply::Answered(Answer::Posted));
        let (calls, records) = (&self.calls, &mut self.records);
        self.calls = add_done(calls, records, examiner, ask, &told, steps);
        told
    }

    // Serves an examiner's ask as a transaction of its own where nobody is open.
    fn serve_at_once(&mut self, examiner: u32, ask: Ask) -> Reply
        requires idle { IsIdle self.old.trace }
        ensures told { ToldSingle self.old examiner ask result self.new }
    {
        if let Some(why) = self.bar(&ask) {
            return self.refuse_alone(examiner, ask, why);
        }
        match ask {
            Ask::Sheet(tract) => self.read_alone(examiner, Ask::Sheet(tract)),
            Ask::Chain(tract) => self.read_alone(examiner, Ask::Chain(tract)),
            Ask::Post(posting) => self.post_alone(examiner, posting),
        }
    }

    // Serves an examiner's ask as a transaction of its own by its three requests.
    fn serve_in_turn(&mut self, examiner: u32, ask: Ask) -> Reply
        ensures added { result ≢ Memory → AddedInTurn self.old examiner ask result self.new }
        ensures broken { result ≡ Memory → BrokenOff self.old examiner ask self.new }
    {
        if let Reply::Memory = self.begin(examiner) {
            return Reply::Memory;
        }
        let reply = self.step(examiner, ask);
        if let Reply::Memory = &reply {
            return Reply::Memory;
        }
        if let Reply::Memory = self.serve(ending(examiner, &reply)) {
            return Reply::Memory;
        }
        self.is_due();
        reply
    }

    /// Serves an examiner's ask as a transaction of its own: adds its three calls, begun, asked, and committed or aborted,
    /// to the trace and gives the step's reply; or answers `Memory` where a growth was refused. Then nothing has changed where
    /// nobody was open; else those of the three are added that came before.
    #[tactic(auto, using(crate::proofs::Singles::any_added))]
    pub fn serve_alone(&mut self, examiner: u32, ask: Ask) -> Reply
        ensures added { result ≢ Memory → AddedInTurn self.old examiner ask result self.new }
        ensures broken { result ≡ Memory → BrokenOff self.old examiner ask self.new }
        ensures idle { IsIdle self.old.trace → ToldSingle self.old examiner ask result self.new }
    {
        match self.first_open() {
            None => self.serve_at_once(examiner, ask),
            Some(_) => self.serve_in_turn(examiner, ask),
        }
    }
}
