//! Laws of scripts. Each function does nothing: its clauses are the law, proved.

ghost use Rattle.std.specs.Prelude.{◌≡◌};
ghost use Rattle.title_plan.specs.{Lands.{FaultsAreRead, LandsAreRead}, Limits.{last_document, last_examiner, longest_name, most_rows}};
ghost use Rattle.title_plan.specs.{Onto.{OntoNothing, ScriptsBegin}, declared.fields.TheConstants.{DOCUMENTS, EXAMINERS, NAME_LIMIT}};
ghost use Rattle.title_plan.specs.declared.plan.TheConstants.{ROWS};

/// A text is read as the land that it describes, or as its fault.
pub fn texts_are_read()
    ensures land { LandsAreRead }
    ensures fault { FaultsAreRead }
{}

/// The limits that the code has are those of the definitions.
pub fn limits_are_said()
    ensures rows { ROWS ≡ most_rows }
    ensures names { NAME_LIMIT ≡ longest_name }
    ensures examiners { EXAMINERS ≡ last_examiner }
    ensures documents { DOCUMENTS ≡ last_document }
{}

/// On top of nothing a script asks for what it asks for alone.
pub fn onto_nothing()
    ensures alone { OntoNothing }
{}

/// What stands before a script keeps its indices, and what the script declares comes behind it.
pub fn scripts_begin()
    ensures begins { ScriptsBegin }
{}
