//! The headline, on one call.

ghost use Rattle.std.specs.Prelude.{reverse};
ghost use Rattle.title_desk.specs.Headline.{Headline};

use crate::desk::Desk;
use title_chain::Record;
use title_lock::Guards;
use title_store::Store;
use title_trace::laws::idle_have_no_steps;

impl<S: Store + Drop, G: Guards + Drop> Desk<S, G> {
    /// The plant and the committed transactions, the oldest first, as every list of requests leaves them: the committed
    /// transactions run alone, in the order of their commits, give their answers, and the plant whenever none is open;
    /// aborted ones leave no trace; each estate's shares in each cell sum to one. Takes no memory.
    pub fn headline(&self) -> (&S, &[Record])
        ensures headline { Headline self.now.setting self.now.trace (S.content result.0.now) (reverse result.1.now) }
    {
        idle_have_no_steps();
        self.is_due();
        self.is_serial();
        (self.store(), self.records())
    }
}
