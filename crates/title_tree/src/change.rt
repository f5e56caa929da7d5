//! What a change does to a holding.

ghost use Rattle.std.specs.{Prelude.{◌≡◌, IfOk, IfErr, Result, Ok}, Arc.{arc_value}};
ghost use Rattle.title_share.specs.Division.{Division};
ghost use Rattle.title_tree.specs.{Changes.{why_of}, Faults.{Tells}};

use std::alloc::{AllocError, Global};
use std::sync::Arc;
use title_share::Holding;

/// Why a change isn't made: memory is short, or a holding refuses it.
#[derive(Debug, Drop)]
pub enum Fault<R> {
    Memory,
    Refused(R),
}

impl<R> From<AllocError> for Fault<R> {
    ghost use Rattle.title_tree.specs.declared.change.Fault.TheVariants as fault;

    ghost from_gives = { λ _ e. e ≡ fault.Memory };

    fn from(_: AllocError) -> Fault<R> {
        Fault::Memory
    }
}

/// A change of holdings: each has a new one, or a reason why not. It may keep what it made, to give equal holdings the
/// same one again.
pub trait Change {
    /// Why a holding refuses the change.
    type Refusal: Drop;

    /// The new holding, or why there is none.
    ghost effect: { Self → Division → Result Division Self.Refusal };

    /// The new holding, where there is one.
    fn apply(
        &mut self,
        alloc: Global,
        held: &Arc<Holding>,
    ) -> Result<Arc<Holding>, Fault<Self::Refusal>>
        ensures new { IfOk result (λ new. effect self.old (arc_value held.now) ≡ Ok (arc_value new)) }
        ensures why { IfErr result (λ fault. Tells fault (why_of (effect self.old (arc_value held.now)))) }
        ensures same { effect self.new ≡ effect self.old };
}
