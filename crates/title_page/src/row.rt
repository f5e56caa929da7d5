//! Rows.

ghost use Rattle.std.specs.Prelude.{◌≡◌, ◌<◌, ◌++◌, true, false, map, length, OnOk, OnErr};
ghost use Rattle.csv.specs.Writing.{field_text, next_sep, row_body};
ghost use Rattle.title_page.specs.{Pages.{Stopped, Written}, Rows.{row, row_writer}};

use crate::field::Field;
use crate::page::Page;
use title_device::{Failed, Sink};

impl Page {
    // Writes a field behind those before it.
    fn next<S: Sink, F: Field>(&mut self, sink: &mut S, at: usize, field: &F) -> Result<(), Failed>
        requires works { S.has_failed sink.old ≡ false }
        ensures written { OnOk result (Written (S.taken sink.old) self.old (S.taken sink.new) self.new
            (next_sep row_writer at ++ field_text row_writer (F.text field.now))) }
        ensures well { OnOk result (S.has_failed sink.new ≡ false) }
        ensures stopped { OnErr result (Stopped (S.taken sink.old) self.old (S.taken sink.new)
            (next_sep row_writer at ++ field_text row_writer (F.text field.now))) }
        ensures failed { OnErr result (S.has_failed sink.new ≡ true) }
    {
        if at == 0 {
            return field.write(self, sink);
        }
        self.put(sink, b",")?;
        field.write(self, sink)
    }

    // Writes fields one after another.
    fn fields<S: Sink, F: Field>(&mut self, sink: &mut S, fields: &[F]) -> Result<(), Failed>
        requires works { S.has_failed sink.old ≡ false }
        ensures written { OnOk result (Written (S.taken sink.old) self.old (S.taken sink.new) self.new
            (row_body row_writer (map F.text fields.now))) }
        ensures well { OnOk result (S.has_failed sink.new ≡ false) }
        ensures stopped { OnErr result (Stopped (S.taken sink.old) self.old (S.taken sink.new)
            (row_body row_writer (map F.text fields.now))) }
        ensures failed { OnErr result (S.has_failed sink.new ≡ true) }
    {
        for at in 0..fields.len() {
            self.next(sink, at, &fields[at])?;
        }
        Ok(())
    }

    /// Writes a row of two fields or more. `Failed` where a push fails; the sink then has a beginning of what was written.
    #[tactic(auto, unfolding(crate::specs::Rows::row))]
    pub fn row<S: Sink, F: Field>(&mut self, sink: &mut S, fields: &[F]) -> Result<(), Failed>
        requires works { S.has_failed sink.old ≡ false }
        requires several { 1 < length fields.now }
        ensures written { OnOk result (Written (S.taken sink.old) self.old (S.taken sink.new) self.new (row (map F.text fields.now))) }
        ensures well { OnOk result (S.has_failed sink.new ≡ false) }
        ensures stopped { OnErr result (Stopped (S.taken sink.old) self.old (S.taken sink.new) (row (map F.text fields.now))) }
        ensures failed { OnErr result (S.has_failed sink.new ≡ true) }
    {
        self.fields(sink, fields)?;
        self.put(sink, b"\n")
    }
}
