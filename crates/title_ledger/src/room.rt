//! Which office it is.

use std::marker::Brand;

/// Which office it is: the book of its ledger, and the plant that its desk was opened with. What lies behind a lock can't be
/// spoken of from outside, so both are members of this parameter; an office and all that it hands out share it.
pub trait Room {
    ghost use Rattle.logbook.specs.Pages.{Book};
    ghost use Rattle.title_trace.specs.Due.{Setting};

    ghost book: { Book };

    ghost setting: { Setting };
}

/// The parameter that a caller picks.
impl Room for Brand {
    ghost use Rattle.std.specs.Prelude.{[]};

    ghost book = { record { number = 0; log_name = 0; cells_name = 0 } };

    ghost setting = { record { parties = 1; townships = [] } };
}
