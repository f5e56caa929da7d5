//! Rows of steps.

ghost use Rattle.std.specs.Prelude.{◌≡◌, ◌⊎◌, Ok, Err, IfErr, OnOk};
ghost use Rattle.title_plan.specs.declared.fault.ScriptFault.TheVariants as fault;
ghost use Rattle.title_trace.specs.declared.call.Request.TheVariants as request;
ghost use Rattle.title_plan.specs.declared.line.Line.TheVariants as line;
ghost use Rattle.title_plan.specs.{Asked.{asked_in}, Plans.{after_act, after_asked, line_of}, Requests.{after_request}, Rows.{done}};
ghost use Rattle.title_plan.specs.Plans.{with_begun, with_ended, with_line};

use crate::fault::ScriptFault;
use crate::line::{Line, Schedule};
use crate::plan::Plan;
use crate::plan::turns::{begin, end};
use crate::readings::Readings;
use crate::requests::request_of;
use crate::row::Act;
use std::alloc::AllocError;
use title_aliquot::DescFault;
use title_chain::Ask;
use title_trace::Request;

// The step of an examiner: it asks, alone or not, or its description has a fault.
fn line(alone: bool, examiner: u32, asked: Result<Ask, DescFault>) -> Line
    ensures line { result ≡ line_of alone examiner asked }
{
    match asked {
        Ok(ask) if alone => Line::Alone(examiner, ask),
        Ok(ask) => Line::Asks(Request::Step(examiner, ask)),
        Err(why) => Line::Described(examiner, why),
    }
}

impl Plan {
    // An examiner's transaction begins.
    fn begin(&mut self, schedule: Schedule, examiner: u32) -> Result<(), AllocError>
        ensures begun { OnOk result (asked_in self.new ≡ with_line (asked_in self.old) (line.Asks (request.Begin examiner))
            (with_begun schedule (asked_in self.old).inside examiner)) }
    {
        begin(&mut self.inside, schedule, examiner)?;
        Ok(self.lines.push_back(Line::Asks(Request::Begin(examiner)))?)
    }

    // An examiner's transaction ends by a request.
    fn end(&mut self, request: Request, examiner: u32) -> Result<(), AllocError>
        ensures ended { OnOk result (asked_in self.new ≡ with_line (asked_in self.old) (line.Asks request)
            (with_ended (asked_in self.old).inside examiner)) }
    {
        self.lines.push_back(Line::Asks(request))?;
        end(&mut self.inside, examiner);
        Ok(())
    }

    fn add(&mut self, line: Line) -> Result<(), AllocError>
        ensures added { OnOk result (asked_in self.new ≡ with_line (asked_in self.old) line (asked_in self.old).inside) }
    {
        Ok(self.lines.push_back(line)?)
    }

    // Takes what an examiner asks, or the fault of its description.
    fn take_asked(
        &mut self,
        schedule: Schedule,
        n: u64,
        examiner: u32,
        asked: Result<Ask, DescFault>,
    ) -> Result<(), ScriptFault>
        ensures ok { OnOk result (after_asked schedule n (asked_in self.old) examiner asked ≡ Ok (asked_in self.new)) }
        ensures err { IfErr result (λ e. (e ≡ fault.Memory) ⊎ (after_asked schedule n (asked_in self.old) examiner asked ≡ Err e)) }
    {
        if let Schedule::Office(_) = schedule {
            if asked.is_err() {
                return Err(ScriptFault::Row(n));
            }
        }
        let alone = self.stands_alone(schedule);
        Ok(self.add(line(alone, examiner, asked))?)
    }

    // Takes a request of an examiner in its turn, or the fault of its description.
    fn take_request(
        &mut self,
        schedule: Schedule,
        n: u64,
        examiner: u32,
        asked: Result<Request, DescFault>,
    ) -> Result<(), ScriptFault>
        ensures ok { OnOk result (after_request schedule n (asked_in self.old) examiner asked ≡ Ok (asked_in self.new)) }
        ensures err { IfErr result (λ e. (e ≡ fault.Memory) ⊎ (after_request schedule n (asked_in self.old) examiner asked ≡ Err e)) }
    {
        match asked {
            Ok(Request::Begin(examiner)) => Ok(self.begin(schedule, examiner)?),
            Ok(Request::Commit(examiner)) => Ok(self.end(Request::Commit(examiner), examiner)?),
            Ok(Request::Abort(examiner)) => Ok(self.end(Request::Abort(examiner), examiner)?),
            Ok(Request::Step(examiner, ask)) => self.take_asked(schedule, n, examiner, Ok(ask)),
            Err(why) => self.take_asked(schedule, n, examiner, Err(why)),
        }
    }

    // Takes what an examiner does in its turn.
    pub(super) fn take_act(
        &mut self,
        readings: &mut Readings,
        schedule: Schedule,
        n: u64,
        examiner: u32,
        act: &Act<&str>,
    ) -> Result<(), ScriptFault>
        ensures ok { OnOk result (after_act schedule n (asked_in self.old) examiner (done act.now) ≡ Ok (asked_in self.new)) }
        ensures err { IfErr result (λ e. (e ≡ fault.Memory)
            ⊎ (after_act schedule n (asked_in self.old) examiner (done act.now) ≡ Err e)) }
    {
        let asked = request_of(self.alloc, readings, &self.parties, n, examiner, act)?;
        self.take_request(schedule, n, examiner, asked)
    }
}
