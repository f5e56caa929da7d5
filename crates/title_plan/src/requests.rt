//! What a step row asks.

ghost use Rattle.std.specs.{Prelude.{◌≡◌, ◌≤◌, ◌⊎◌, Ok, Err, IfErr, IfOk, map}, String.{string_bytes}};
ghost use Rattle.indexmap.specs.IndexSet.{index_set_len};
ghost use Rattle.title_chain.specs.Alone.{most_parties};
ghost use Rattle.title_plan.specs.declared.fault.ScriptFault.TheVariants as fault;
ghost use Rattle.title_plan.specs.{Plans.{asked_of, post}, Requests.{request_of, step_of}, Rows.{done}};

use crate::fault::ScriptFault;
use crate::numbers::numbered;
use crate::readings::Readings;
use crate::row::Act;
use indexmap::IndexSet;
use std::alloc::{AllocError, Global};
use title_aliquot::DescFault;
use title_chain::{Ask, Posting, Terms};
use title_instrument::Instrument;
use title_land::Tract;
use title_trace::Request;

// The step of an examiner, or why there is none.
fn step(examiner: u32, asked: Result<Ask, DescFault>) -> Result<Request, DescFault>
    ensures step { result ≡ step_of examiner asked }
{
    match asked {
        Ok(ask) => Ok(Request::Step(examiner, ask)),
        Err(why) => Err(why),
    }
}

// The post of an instrument in a tract, or why there is no tract.
fn posted(
    alloc: Global,
    doc: u64,
    tract: Result<Tract, DescFault>,
    instrument: Instrument,
) -> Result<Result<Ask, DescFault>, AllocError>
    ensures posted { IfOk result (λ r. r ≡ asked_of (post doc instrument) tract) }
{
    match tract {
        Ok(tract) => {
            let terms = Terms {
                doc,
                tract,
                instrument,
            };
            Ok(Ok(Ask::Post(Posting::new(alloc, terms)?)))
        }
        Err(why) => Ok(Err(why)),
    }
}

/// What an examiner's act asks in the n-th row, or the fault of its description. Party(n) where it names a party that isn't declared;
/// Memory. Changes nothing but the descriptions that are kept.
pub fn request_of(
    alloc: Global,
    readings: &mut Readings,
    parties: &IndexSet<String>,
    n: u64,
    examiner: u32,
    act: &Act<&str>,
) -> Result<Result<Request, DescFault>, ScriptFault>
    requires few { index_set_len parties.now ≤ most_parties }
    ensures ok { IfOk result (λ asked. request_of n (map string_bytes parties.now.keys) examiner (done act.now) ≡ Ok asked) }
    ensures err { IfErr result (λ e. (e ≡ fault.Memory)
        ⊎ (request_of n (map string_bytes parties.now.keys) examiner (done act.now) ≡ Err e)) }
{
    match *act {
        Act::Begin => Ok(Ok(Request::Begin(examiner))),
        Act::Commit => Ok(Ok(Request::Commit(examiner))),
        Act::Abort => Ok(Ok(Request::Abort(examiner))),
        Act::Sheet(text) => {
            let asked = readings.read(text)?.map(Ask::Sheet);
            Ok(step(examiner, asked))
        }
        Act::Chain(text) => {
            let asked = readings.read(text)?.map(Ask::Chain);
            Ok(step(examiner, asked))
        }
        Act::Post(doc, ref instrument, text) => {
            let Some(instrument) = numbered(parties, instrument) else {
                return Err(ScriptFault::Party(n));
            };
            let tract = readings.read(text)?;
            let asked = posted(alloc, doc, tract, instrument)?;
            Ok(step(examiner, asked))
        }
    }
}
