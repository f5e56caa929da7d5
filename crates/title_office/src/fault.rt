//! Why an office refuses a call.

ghost use Rattle.std.specs.Prelude.{◌≡◌, MatchResult, Some};
ghost use Rattle.title_trace.specs.declared.call.Reply.TheVariants.{Answered};
ghost use Rattle.title_office.specs.Offices.{refusal_of, IsToStep};

use thiserror::Error;
use title_chain::Answer;
use title_trace::{Denial, Reply};

/// Why an office refuses a call, or a worker has ended.
#[derive(Clone, Copy, Debug, Error)]
pub enum Fault {
    /// The desk refuses the call.
    #[error("{0}")]
    Denied(Denial),
    /// Memory ran out.
    #[error("out of memory")]
    Memory,
    /// The seat or slip is not of this office.
    #[error("the seat or slip is not of this office")]
    Stranger,
    /// No thread could be started.
    #[error("no thread could be started")]
    NoThread,
}

// The fault that a reply is told as, where it refuses.
pub(crate) fn refusal(reply: &Reply) -> Option<Fault>
    ensures refusal { result ≡ refusal_of reply.now }
{
    match reply {
        Reply::Began | Reply::Answered(_) | Reply::Committed(_) | Reply::Aborted => None,
        Reply::Denied(why) => Some(Fault::Denied(*why)),
        Reply::Memory => Some(Fault::Memory),
    }
}

// The answer to a step, or the fault that its refusal is told as.
pub(crate) fn answer_in(reply: Reply) -> Result<Answer, Fault>
    requires step { IsToStep reply }
    ensures answer { MatchResult result (λ given. reply ≡ Answered given) (λ why. refusal_of reply ≡ Some why) }
{
    if let Some(why) = refusal(&reply) {
        return Err(why);
    }
    match reply {
        Reply::Answered(given) => Ok(given),
        _ => unreachable!(),
    }
}
