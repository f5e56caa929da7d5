//! What stands in rows.

ghost use Rattle.std.specs.Prelude.{◌≡◌, ℕ, List, true, false, OnOk, OnErr};
ghost use Rattle.csv.specs.Writing.{field_text};
ghost use Rattle.title_page.specs.{Pages.{Stopped, Written}, Rows.{row_writer}};

use crate::page::Page;
use title_device::{Failed, Sink};

/// What can stand in a row.
pub trait Field {
    // Its text, without quotes.
    ghost text: { Self → List ℕ };

    /// Writes it, in quotes where its text has a comma, a quote or a line's end. `Failed` where a push fails; the sink then
    /// has a beginning of what was written.
    fn write<S: Sink>(&self, page: &mut Page, sink: &mut S) -> Result<(), Failed>
        requires works { S.has_failed sink.old ≡ false }
        ensures written { OnOk result (Written (S.taken sink.old) page.old (S.taken sink.new) page.new
            (field_text row_writer (text self.now))) }
        ensures well { OnOk result (S.has_failed sink.new ≡ false) }
        ensures stopped { OnErr result (Stopped (S.taken sink.old) page.old (S.taken sink.new)
            (field_text row_writer (text self.now))) }
        ensures failed { OnErr result (S.has_failed sink.new ≡ true) };
}
