//! Net acres.

ghost use Rattle.std.specs.Prelude.{◌≡◌, ◌+◌, ◌^◌, ◌<◌, SomeIff};
ghost use Rattle.title_plat.specs.NetAcres.{is_of, net_units, node_half_acres, row_units, ten_thousandths, units_given};

use crate::row::{Row, same_estate};
use std::fmt;
use title_aliquot::{Node, Tract};
use title_instrument::Estate;
use title_land::acres::TOWNSHIP_HALF_ACRES;

/// Acres, in units of which a half acre has 4,294,967,296, printed to four decimals, a half of the last rounded up.
#[derive(Clone, Copy, Debug, PartialEq, Eq)]
pub struct NetAcres {
    pub units: u64,
}

/// So many units in ten thousandths of an acre, a half rounded up.
pub fn ten_thousandths(units: u64) -> u64
    ensures rounded { result ≡ ten_thousandths units }
{
    let whole = units / (1 << 33);
    let rest = units % (1 << 33);
    whole * 10_000 + (rest * 10_000 + (1 << 32)) / (1 << 33)
}

impl fmt::Display for NetAcres {
    fn fmt<W: fmt::Write>(&self, f: &mut fmt::Formatter<W>) -> fmt::Result {
        let all = ten_thousandths(self.units);
        let acres = all / 10_000;
        let part = all % 10_000;
        write!(f, "{acres}.{part:04}")
    }
}

/// The half acres of a node: those of so many townships for the whole plant.
pub(crate) fn half_acres_of(node: Node, townships: u32) -> u64
    ensures half_acres { result ≡ node_half_acres townships node }
{
    match Tract::of(node).half_acres() {
        Some(half_acres) => u64::from(half_acres),
        None => u64::from(townships) * u64::from(TOWNSHIP_HALF_ACRES),
    }
}

// Whether a row is one of this party and estate.
fn is_of(row: &Row, party: &str, estate: Estate) -> bool
    ensures is { result ≡ is_of party.now estate row.now }
{
    same_estate(row.estate, estate) && row.party.as_str() == party
}

// What a row gives its party, in units; `None` where that is too many for 64 bits.
fn row_units(row: &Row, townships: u32) -> Option<u64>
    ensures units { SomeIff result (row_units townships row.now < 2 ^ 64) (row_units townships row.now) }
{
    half_acres_of(row.node, townships).checked_mul(row.share.units())
}

// A sum with what a row gives the party in the estate; `None` where that is too much for 64 bits.
fn with_row(sum: u64, row: &Row, party: &str, estate: Estate, townships: u32) -> Option<u64>
    ensures sum { SomeIff result (sum + units_given townships party.now estate row.now < 2 ^ 64)
        (sum + units_given townships party.now estate row.now) }
{
    if is_of(row, party, estate) {
        sum.checked_add(row_units(row, townships)?)
    } else {
        Some(sum)
    }
}

/// A party's net acres of an estate, in units: over its rows of the estate, the sum of each node's half acres times the
/// share. `None` exactly where they are too many for 64 bits.
pub fn net_units(rows: &[Row], party: &str, estate: Estate, townships: u32) -> Option<u64>
    ensures net { SomeIff result (net_units townships party.now estate rows.now < 2 ^ 64)
        (net_units townships party.now estate rows.now) }
{
    let mut sum: u64 = 0;
    for row in rows {
        sum = with_row(sum, row, party, estate, townships)?;
    }
    Some(sum)
}
