//! The numbers of parties.

ghost use Rattle.std.specs.{Prelude.{◌≡◌, ◌≤◌, map}, String.{string_bytes}};
ghost use Rattle.indexmap.specs.IndexSet.{index_set_len};
ghost use Rattle.title_chain.specs.Alone.{most_parties};
ghost use Rattle.title_plan.specs.{Plans.{number_of, numbered}, Rows.{named}};

use indexmap::IndexSet;
use title_instrument::Instrument;

/// The number of a party: its index among the names.
pub fn number(parties: &IndexSet<String>, name: &str) -> Option<u32>
    requires few { index_set_len parties.now ≤ most_parties }
    ensures number { result ≡ number_of (map string_bytes parties.now.keys) name.now }
{
    match parties.get_index_of(name) {
        Some(index) => Some(index as u32),
        None => None,
    }
}

/// An instrument between the numbers of its parties, where both are among the names.
pub fn numbered(parties: &IndexSet<String>, instrument: &Instrument<&str>) -> Option<Instrument>
    requires few { index_set_len parties.now ≤ most_parties }
    ensures numbered { result ≡ numbered (map string_bytes parties.now.keys) (named instrument.now) }
{
    let grantor = number(parties, instrument.grantor())?;
    let grantee = number(parties, instrument.grantee())?;
    Some(instrument.between(grantor, grantee))
}
