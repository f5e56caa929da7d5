//! Townships and parties are declared, each once, and not more of them than there may be.

ghost use Rattle.std.specs.Prelude.{◌≡◌, ◌≤◌, ◌∷◌, ◌++◌, [], IfOk, MatchResult, cond, false, length, map, nat_le, not, true};
ghost use Rattle.std.specs.{List.{list_any}, Str.{bytes_eq}, String.{string_bytes}};
ghost use Rattle.indexmap.specs.IndexSet.{index_set_len};
ghost use Rattle.title_chain.specs.Alone.{most_parties};
ghost use Rattle.title_land.specs.Survey.{same_township};
ghost use Rattle.title_plan.specs.Townships.{each_once, is_refused};
ghost use Rattle.title_trace.specs.Due.{most_townships};

use indexmap::IndexSet;
use std::alloc::{AllocError, Global};
use title_land::Township;
use title_trace::{MOST_PARTIES, MOST_TOWNSHIPS};

/// The name of party 0.
pub const FIRST_PARTY: &str = "UNITED STATES";

// Whether a township is declared.
pub(crate) fn is_declared(townships: &[Township], township: Township) -> bool
    ensures declared { result ≡ list_any (λ other. same_township other township) townships.now }
{
    townships.iter().any(|other| other.is(township))
}

/// Whether a township is refused: it is declared, or as many are as may be.
pub fn is_refused(townships: &[Township], township: Township) -> bool
    ensures refused { result ≡ is_refused townships.now township }
{
    townships.len() >= MOST_TOWNSHIPS || is_declared(townships, township)
}

/// Declares a township that isn't refused. Where it fails nothing has changed.
#[tactic(auto, using(crate::specs::Laws::Declarations::township_few, crate::specs::Laws::Declarations::township_once))]
pub fn add_township(townships: &mut Vec<Township>, township: Township) -> Result<(), AllocError>
    requires free { is_refused townships.old.items township ≡ false }
    requires once { each_once townships.old.items ≡ true }
    ensures added { MatchResult result (λ _. townships.new.items ≡ townships.old.items ++ township ∷ [])
        (λ _. townships.new.items ≡ townships.old.items) }
    ensures few { length townships.new.items ≤ most_townships }
    ensures once { each_once townships.new.items ≡ true }
{
    Ok(townships.push(township)?)
}

/// Whether as many parties are declared as may be.
pub fn is_full(parties: &IndexSet<String>) -> bool
    ensures full { result ≡ nat_le most_parties (length (map string_bytes parties.now.keys)) }
{
    parties.len() >= MOST_PARTIES as usize
}

/// Declares a party, where there is room for one; whether it wasn't declared yet. Where it fails nothing has changed.
pub fn add_party(
    alloc: Global,
    parties: &mut IndexSet<String>,
    name: &str,
) -> Result<bool, AllocError>
    requires room { nat_le most_parties (length (map string_bytes parties.old.keys)) ≡ false }
    ensures new { IfOk result (λ new. new ≡ not (list_any (bytes_eq name.now) (map string_bytes parties.old.keys))) }
    ensures added { MatchResult result
        (λ new. map string_bytes parties.new.keys
        ≡ cond new (map string_bytes parties.old.keys ++ name.now ∷ []) (map string_bytes parties.old.keys))
        (λ _. map string_bytes parties.new.keys ≡ map string_bytes parties.old.keys) }
    ensures some { index_set_len parties.old ≤ index_set_len parties.new }
    ensures few { index_set_len parties.new ≤ most_parties }
{
    if parties.contains(name) {
        return Ok(false);
    }
    let name = String::from_str(alloc, name)?;
    parties.insert(name)?;
    Ok(true)
}
