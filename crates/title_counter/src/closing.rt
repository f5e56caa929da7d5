//! The end of a session.

ghost use Rattle.std.specs.Prelude.{◌≡◌, ℕ, List, []};
ghost use Rattle.title_desk.specs.Singles.{IsIdle};
ghost use Rattle.title_counter.specs.Closings.{with_aborts};

use crate::clerk::Clerk;
use title_desk::Desk;
use title_lock::Guards;
use title_store::Store;

// Aborts all open transactions.
fn abort_all<S: Store + Drop, G: Guards + Drop>(desk: &mut Desk<S, G>)
    ensures setting { desk.new.setting ≡ desk.old.setting }
    ensures aborted { (es : List ℕ) × (desk.new.trace ≡ with_aborts desk.old.setting desk.old.trace es) }
    ensures idle { IsIdle desk.new.trace }
    ensures unasked { desk.old.trace ≡ [] → desk.new.trace ≡ [] }
{
    while let Some(examiner) = desk.first_open() {
        desk.sweep(examiner);
    }
}

impl Clerk {
    ghost use Rattle.title_counter.specs.{Sessions.{Ends, IsSound}, Views.{counter_of}};

    /// The desk is as it has to be. It does nothing: the desk's type says so.
    pub fn is_sound(&self)
        ensures sound { IsSound (counter_of self.now) }
    {
        self.desk.is_due();
        self.desk.is_serial();
    }

    /// Aborts all open transactions.
    pub fn close(&mut self)
        ensures ends { Ends (counter_of self.old) }
        ensures steps { self.new.steps ≡ self.old.steps }
    {
        abort_all(&mut self.desk);
        let _ = self.desk.headline();
    }
}
