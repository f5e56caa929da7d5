//! Laws of due traces and due replies. Each function does nothing: its clause is the law, proved.

ghost use Rattle.std.specs.Prelude.{◌≡◌};
ghost use Rattle.title_chain.specs.Alone.{most_parties};
ghost use Rattle.title_trace.specs.declared.limits.TheConstants.{MOST_PARTIES, MOST_STEPS, MOST_TOWNSHIPS};
ghost use Rattle.title_trace.specs.Due.{OneInTheWay, OneDueReply, most_steps, most_townships};
ghost use Rattle.title_trace.specs.Serial.{CommittedAreSerial, IdleHaveNoSteps, OpenMayBeLast};
ghost use Rattle.title_land.specs.Depth.{depth};

/// In every due trace the committed transactions are serial, also with the open steps of any one examiner as a last
/// record: an answer is carried from its moment to its commit past every transaction that is committed between.
pub fn committed_transactions_are_serial()
    ensures committed { CommittedAreSerial depth }
    ensures open_last { OpenMayBeLast depth }
{}

/// In a due trace an examiner that isn't open has no open steps.
pub fn idle_have_no_steps()
    ensures none { IdleHaveNoSteps depth }
{}

/// A reply is due exactly where it is the one that `due_reply` gives; a step in the way is that of the least examiner of
/// the trace, other than the asker, whose open steps overlap the ask.
pub fn one_reply_is_due()
    ensures way { OneInTheWay }
    ensures reply { OneDueReply depth }
{}

/// The limits that the code has are those of the definitions.
pub fn limits_are_said()
    ensures parties { MOST_PARTIES ≡ most_parties }
    ensures townships { MOST_TOWNSHIPS ≡ most_townships }
    ensures steps { MOST_STEPS ≡ most_steps }
{}
