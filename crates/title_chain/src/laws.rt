//! Laws of asks, for the crates above. Each function does nothing: its clause is the law, proved.

ghost use Rattle.title_chain.specs.ChainLaws.{AnswerSame, EffectSame, EffectPast, EffectOutside, EffectRead, EffectRefused};
ghost use Rattle.title_chain.specs.ChainLaws.{OverlapSymmetric, EntryPast};

/// The law of answers: what an ask is answered depends on the owners of its tract's cells and on its chain alone.
#[tactic(auto, using(crate::specs::Laws::AskLaws::answer_same))]
pub fn answer_same()
    ensures law { AnswerSame }
{}

/// The law of effects: what an ask makes of a cell depends on the owners of that cell and of its tract's cells alone.
#[tactic(auto, using(crate::specs::Laws::AskLaws::effect_same))]
pub fn effect_same()
    ensures law { EffectSame }
{}

/// The law of asks that don't overlap: neither changes a cell of the other's tract.
#[tactic(auto, using(crate::specs::Laws::AskLaws::effect_past))]
pub fn effect_past()
    ensures law { EffectPast }
{}

/// The law of other cells: an ask changes no cell outside its tract.
#[tactic(auto, using(crate::specs::Laws::AskLaws::effect_outside))]
pub fn effect_outside()
    ensures law { EffectOutside }
{}

/// The law of reads: an ask that is no post changes no cell.
#[tactic(auto, using(crate::specs::Laws::AskLaws::effect_read))]
pub fn effect_read()
    ensures law { EffectRead }
{}

/// The law of refusals: a refused post changes no cell.
#[tactic(auto, using(crate::specs::Laws::AskLaws::effect_refused))]
pub fn effect_refused()
    ensures law { EffectRefused }
{}

/// Overlap is symmetric.
#[tactic(auto, using(crate::specs::Laws::AskLaws::overlap_symmetric))]
pub fn overlap_symmetric()
    ensures law { OverlapSymmetric }
{}

/// The law of entries: a step gives no entry to the chain of the tract of an ask that it doesn't overlap.
#[tactic(auto, using(crate::specs::Laws::AskLaws::entry_past))]
pub fn entry_past()
    ensures law { EntryPast }
{}
