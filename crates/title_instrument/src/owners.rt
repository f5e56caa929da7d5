//! The owners of one cell, and what an instrument does to them.

ghost use Rattle.std.specs.Prelude.{◌≡◌, ◌↔◌, IsTrue, IfOk};
ghost use Rattle.title_instrument.specs.{Owners.{holding_of, opening_owners}, Effect.{holding_effect, cell_effect, KeepsUnnamed}};

use crate::instrument::Instrument;
use crate::parts::{Estate, Rule};
use std::alloc::{AllocError, Global};
use title_share::Holding;

/// Who holds each estate of one cell.
#[derive(Debug, Drop)]
pub struct Owners {
    pub s: Holding,
    pub o: Holding,
    pub m: Holding,
}

/// What an instrument does to a cell: its new owners, or the rule that refuses and the first estate
/// at which one does.
#[derive(Debug, Drop)]
pub enum Effect {
    Done(Owners),
    Refused(Rule, Estate),
}

impl Owners {
    /// The owners before any instrument: party 0 has the whole of each estate.
    #[tactic(auto, unfolding(crate::specs::Owners::opening_owners))]
    pub fn opening(alloc: Global) -> Result<Owners, AllocError>
        ensures opening { IfOk result (λ o. o ≡ opening_owners) }
    {
        let s = Holding::whole(alloc, 0)?;
        let o = Holding::whole(alloc, 0)?;
        let m = Holding::whole(alloc, 0)?;
        Ok(Owners { s, o, m })
    }

    /// Equal owners.
    pub fn copy(&self, alloc: Global) -> Result<Owners, AllocError>
        ensures copy { IfOk result (λ o. o ≡ self.now) }
    {
        let s = self.s.copy(alloc)?;
        let o = self.o.copy(alloc)?;
        let m = self.m.copy(alloc)?;
        Ok(Owners { s, o, m })
    }

    /// The holding of an estate.
    pub fn of(&self, estate: Estate) -> &Holding
        ensures of { result.now ≡ holding_of estate self.now }
    {
        match estate {
            Estate::S => &self.s,
            Estate::O => &self.o,
            Estate::M => &self.m,
        }
    }

    /// Whether both give each party the same units of each estate.
    pub fn same(&self, other: &Owners) -> bool
        ensures same { IsTrue result ↔ (self.now ≡ other.now) }
    {
        self.s.same(&other.s) && self.o.same(&other.o) && self.m.same(&other.m)
    }
}

// The holding of an estate after an instrument, or the rule that refuses.
fn holding_after(
    alloc: Global,
    instrument: &Instrument,
    estate: Estate,
    holding: &Holding,
) -> Result<Result<Holding, Rule>, AllocError>
    ensures effect { IfOk result (λ r. r ≡ holding_effect instrument.now estate holding.now) }
{
    let held = holding.units(instrument.grantor());
    match instrument.passes(estate, held) {
        Ok(units) => {
            let (from, to) = (instrument.grantor(), instrument.grantee());
            Ok(Ok(holding.moved(alloc, from, to, units)?))
        }
        Err(rule) => Ok(Err(rule)),
    }
}

impl Instrument {
    /// The owners of a cell after the instrument, or the rule that refuses it and the first estate,
    /// in the order S, O, M, at which one does. Estates that aren't named stay.
    #[tactic(auto, unfolding(crate::specs::Effect::cell_effect))]
    pub fn apply_cell(&self, alloc: Global, owners: &Owners) -> Result<Effect, AllocError>
        ensures effect { IfOk result (λ e. e ≡ cell_effect self.now owners.now) }
        ensures unnamed { IfOk result (KeepsUnnamed self.now owners.now) }
    {
        let s = match holding_after(alloc, self, Estate::S, owners.of(Estate::S))? {
            Ok(s) => s,
            Err(rule) => return Ok(Effect::Refused(rule, Estate::S)),
        };
        let o = match holding_after(alloc, self, Estate::O, owners.of(Estate::O))? {
            Ok(o) => o,
            Err(rule) => return Ok(Effect::Refused(rule, Estate::O)),
        };
        let m = match holding_after(alloc, self, Estate::M, owners.of(Estate::M))? {
            Ok(m) => m,
            Err(rule) => return Ok(Effect::Refused(rule, Estate::M)),
        };
        Ok(Effect::Done(Owners { s, o, m }))
    }
}
