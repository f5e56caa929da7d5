//! Laws of settled outcomes, for the crates above. Each function does nothing: its clause is the law, proved.

ghost use Rattle.title_settle.specs.SettledLaws.{AsMany};

/// The law of numbers: outcomes that are the records, each once, are as many as the records.
pub fn as_many_outcomes_as_records()
    ensures many { AsMany }
{}
