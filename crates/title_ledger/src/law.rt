//! The rule of the ledger's book, and what its steps ask.

use crate::entry::Entry;
use logbook::{Gain, Plain, Play, Rule};
use title_chain::Record;

/// The rule: the book's first word counts the entries.
pub struct Law;

impl Rule<Entry, u64> for Law {
    ghost use Rattle.std.specs.Prelude.{[]};
    ghost use base.Fml.{ftrue};
    ghost use Rattle.title_ledger.specs.Ledgers.{IsKept};

    ghost holds = { λ cells log. IsKept cells log };

    ghost first = { [] };

    ghost hinted = { λ n log. Unit {0} };

    ghost shows = { λ log. [] };

    ghost keeps = { λ names log. ftrue };

    ghost moves = { λ ask before after answer. Unit {0} };
}

/// Who adds an entry trades nothing.
pub struct Nothing;

impl Gain<Entry, u64> for Nothing {
    ghost use base.Fml.{ftrue};

    ghost after = { λ names about answer. ftrue };
}

/// A step that adds an entry.
pub struct Add;

impl Play<Entry, u64> for Add {
    ghost use Rattle.title_ledger.specs.Ledgers.{Adds};

    ghost then = { Adds };
}

/// The entry by which a record is tried.
pub struct Tries;

impl Plain<Record, Entry, u64> for Tries {
    ghost use Rattle.std.specs.Prelude.{None};
    ghost use Rattle.title_ledger.specs.declared.entry.Entry.TheVariants.{Tried};

    ghost ask = { λ rec. Tried rec };

    ghost state = { λ rec. None };
}

/// The entry by which the record that was tried last is committed.
pub struct Settles;

impl Plain<(), Entry, u64> for Settles {
    ghost use Rattle.std.specs.Prelude.{None};
    ghost use Rattle.title_ledger.specs.declared.entry.Entry.TheVariants.{Committed};

    ghost ask = { λ nothing. Committed };

    ghost state = { λ nothing. None };
}
