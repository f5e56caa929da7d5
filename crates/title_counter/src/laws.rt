//! Laws of counters. Each function does nothing: its clauses are the law, proved.

ghost use Rattle.std.specs.Prelude.{◌≡◌};
ghost use Rattle.title_counter.specs.{Limits.{longest_line, most_given}, declared.line_start.TheConstants.{LINE_LIMIT}};
ghost use Rattle.title_counter.specs.declared.session.TheConstants.{GIVEN_LIMIT};

/// The limits that the code has are those of the definitions.
pub fn limits_are_said()
    ensures line { LINE_LIMIT ≡ longest_line }
    ensures given { GIVEN_LIMIT ≡ most_given }
{}
