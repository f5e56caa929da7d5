//! What an instrument does to one estate's holding, as a change of trees.

ghost use Rattle.std.specs.{Prelude.{◌≡◌, ◌≤◌, Ok, Err, Result, IfOk, true}, Arc.{arc_value}};
ghost use Rattle.title_share.specs.Division.{moved, units_of};
ghost use Rattle.title_instrument.specs.{Effect.{holding_effect}, Parties.{grantee_of, grantor_of}};

use std::alloc::{AllocError, Global};
use std::sync::Arc;
use title_instrument::{Estate, Instrument, Rule};
use title_share::Holding;
use title_tree::{Change, Fault};

/// What a move of units has made of a holding.
#[derive(Drop)]
pub(crate) struct Moved {
    from: u32,
    to: u32,
    units: u64,
    held: Arc<Holding>,
    after: Arc<Holding>,
    ghost made: { arc_value after ≡ moved from to units (arc_value held) },
}

impl Moved {
    // What is made of a holding.
    fn new(
        alloc: Global,
        from: u32,
        to: u32,
        units: u64,
        held: &Arc<Holding>,
    ) -> Result<Moved, AllocError>
        requires held { units ≤ units_of from (arc_value held.now) }
        ensures after { IfOk result (λ m. arc_value m.after ≡ moved from to units (arc_value held.now)) }
    {
        let after = Arc::new(alloc, held.moved(alloc, from, to, units)?)?;
        let held = held.clone()?;
        Ok(Moved {
            from,
            to,
            units,
            held,
            after,
        })
    }

    // Whether the same move makes this of a holding too.
    fn is_of(&self, from: u32, to: u32, units: u64, held: &Holding) -> bool
        ensures of { result ≡ true → arc_value self.now.after ≡ moved from to units held.now }
    {
        self.from == from && self.to == to && self.units == units && self.held.same(held)
    }
}

/// An instrument for one estate. What it made last is kept, since holdings that are equal, in the next square or estate, become the
/// same one again.
#[derive(Drop)]
pub(crate) struct Passing {
    pub instrument: Instrument,
    pub estate: Estate,
    pub last: Option<Moved>,
}

impl Passing {
    // The holding after units have passed from the grantor to the grantee.
    fn moved(
        &mut self,
        alloc: Global,
        units: u64,
        held: &Arc<Holding>,
    ) -> Result<Arc<Holding>, AllocError>
        requires held { units ≤ units_of (grantor_of self.old.instrument) (arc_value held.now) }
        ensures moved { IfOk result (λ after. arc_value after
            ≡ moved (grantor_of self.old.instrument) (grantee_of self.old.instrument) units (arc_value held.now)) }
        ensures instrument { self.new.instrument ≡ self.old.instrument }
        ensures estate { self.new.estate ≡ self.old.estate }
    {
        let (from, to) = (self.instrument.grantor(), self.instrument.grantee());
        if let Some(last) = &self.last {
            if last.is_of(from, to, units, held) {
                return Ok(last.after.clone()?);
            }
        }
        let made = Moved::new(alloc, from, to, units, held)?;
        let after = made.after.clone()?;
        self.last = Some(made);
        Ok(after)
    }
}

impl Change for Passing {
    type Refusal = Rule;

    ghost effect = { λ p. holding_effect p.instrument p.estate };

    #[inline(always)]
    fn apply(&mut self, alloc: Global, held: &Arc<Holding>) -> Result<Arc<Holding>, Fault<Rule>> {
        let units = held.units(self.instrument.grantor());
        match self.instrument.passes(self.estate, units) {
            Ok(units) => Ok(self.moved(alloc, units, held)?),
            Err(rule) => Err(Fault::Refused(rule)),
        }
    }
}
