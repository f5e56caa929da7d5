//! What is answered to a line.

ghost use Rattle.std.specs.{Prelude.{◌≡◌, ◌∷◌, [], codes, true, false, map, OnOk, OnErr}, Fmt.{decimal}, String.{string_bytes}};
ghost use Rattle.title_page.specs.{Pages.{Stopped, Written}, Rows.{rows_text}};
ghost use Rattle.title_counter.specs.Counters.{fault_number};

use indexmap::IndexSet;
use title_aliquot::DescFault;
use title_device::{Failed, Sink};
use title_page::Page;
use title_plan::ScriptFault;
use title_report::{ReportField, put_described, put_reply, put_row};
use title_trace::Reply;

/// What is answered to a line: nothing to a blank one; the number of townships; a party's number; a reply to an examiner, or that its
/// description is none; or that a row was passed over, with why and the row's number.
#[derive(Drop)]
pub(crate) enum Answer {
    Nothing,
    Township(u64),
    Party(u64),
    Replied(u32, Reply),
    Described(u32, DescFault),
    PassedOver(ScriptFault, u64),
}

// The number of a fault, as `run` has it.
fn number(fault: ScriptFault) -> u64
    ensures number { result ≡ fault_number fault }
{
    match fault {
        ScriptFault::Row(_) => 31,
        ScriptFault::Party(_) => 34,
        ScriptFault::Order(_) => 35,
        ScriptFault::Memory => 6,
    }
}

impl Answer {
    ghost use Rattle.title_counter.specs.Views.{answer_rows};

    /// Writes the rows of an answer. `Failed` where a push fails; the sink then has a beginning of what was written.
    pub(crate) fn put<S: Sink>(
        &self,
        page: &mut Page,
        sink: &mut S,
        parties: &IndexSet<String>,
    ) -> Result<(), Failed>
        requires works { S.has_failed sink.old ≡ false }
        ensures written { OnOk result (Written (S.taken sink.old) page.old (S.taken sink.new) page.new
            (rows_text (answer_rows (map string_bytes parties.now.keys) self.now))) }
        ensures well { OnOk result (S.has_failed sink.new ≡ false) }
        ensures stopped { OnErr result (Stopped (S.taken sink.old) page.old (S.taken sink.new)
            (rows_text (answer_rows (map string_bytes parties.now.keys) self.now))) }
        ensures failed { OnErr result (S.has_failed sink.new ≡ true) }
    {
        match self {
            Answer::Nothing => Ok(()),
            Answer::Township(n) => put_declared(page, sink, b"township", *n),
            Answer::Party(n) => put_declared(page, sink, b"party", *n),
            Answer::Replied(examiner, reply) => put_reply(page, sink, parties, *examiner, reply),
            Answer::Described(examiner, why) => put_described(page, sink, *examiner, *why),
            Answer::PassedOver(why, n) => put_passed_over(page, sink, *why, *n),
        }
    }
}

// Writes the row `WORD,N` of a declaration.
fn put_declared<S: Sink>(page: &mut Page, sink: &mut S, word: &[u8], n: u64) -> Result<(), Failed>
    requires works { S.has_failed sink.old ≡ false }
    ensures written { OnOk result (Written (S.taken sink.old) page.old (S.taken sink.new) page.new
        (rows_text ((word.now ∷ decimal n ∷ []) ∷ []))) }
    ensures well { OnOk result (S.has_failed sink.new ≡ false) }
    ensures stopped { OnErr result (Stopped (S.taken sink.old) page.old (S.taken sink.new)
        (rows_text ((word.now ∷ decimal n ∷ []) ∷ []))) }
    ensures failed { OnErr result (S.has_failed sink.new ≡ true) }
{
    let fields = [ReportField::Text(word), ReportField::Number(n)];
    put_row(page, sink, &fields)
}

// Writes the row `fault,NUMBER,N` of a row that was passed over.
fn put_passed_over<S: Sink>(
    page: &mut Page,
    sink: &mut S,
    why: ScriptFault,
    n: u64,
) -> Result<(), Failed>
    requires works { S.has_failed sink.old ≡ false }
    ensures written { OnOk result (Written (S.taken sink.old) page.old (S.taken sink.new) page.new
        (rows_text ((codes "fault" ∷ decimal (fault_number why) ∷ decimal n ∷ []) ∷ []))) }
    ensures well { OnOk result (S.has_failed sink.new ≡ false) }
    ensures stopped { OnErr result (Stopped (S.taken sink.old) page.old (S.taken sink.new)
        (rows_text ((codes "fault" ∷ decimal (fault_number why) ∷ decimal n ∷ []) ∷ []))) }
    ensures failed { OnErr result (S.has_failed sink.new ≡ true) }
{
    let fields = [
        ReportField::Text(b"fault"),
        ReportField::Number(number(why)),
        ReportField::Number(n),
    ];
    put_row(page, sink, &fields)
}
