//! Laws of offices' scripts. Each function does nothing: its clause is the law, proved.

ghost use Rattle.title_dealing.specs.Turns.{OfficesKeepTurns, OfficesKeepTurnsOnto};

use title_plan::laws::onto_nothing;

/// Each step that the script of an office asks for is one of its examiners', and each examiner's transactions come one after
/// another.
pub fn offices_keep_turns()
    ensures law { OfficesKeepTurns }
{
    onto_nothing();
    offices_keep_turns_onto();
}

/// The same on top of what stands before the script.
pub fn offices_keep_turns_onto()
    ensures law { OfficesKeepTurnsOnto }
{}
