//! Laws between two depths: a plant where each section is quartered once more, the four cells owned as the one was. Each
//! function does nothing: its clause is the law, proved, for every depth.

ghost use Rattle.title_store.specs.DepthLaws.{RefusedDoubles, EffectDoubles, SheetDoubles};

/// A post is refused as before: by the same rule, for the same estate, at the same node.
pub fn refused_doubles()
    ensures law { RefusedDoubles }
{}

/// A post makes of the finer plant what it makes of the plant.
pub fn effect_doubles()
    ensures law { EffectDoubles }
{}

/// A sheet has the same rows.
pub fn sheet_doubles()
    ensures law { SheetDoubles }
{}
