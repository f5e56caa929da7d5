//! Whether two instruments are one.

ghost use Rattle.std.specs.Prelude.{◌≡◌, ◌↔◌, true};

use crate::instrument::{Deed, Instrument, Release};
use crate::parts::{Estates, Quantum};
use title_share::Share;

fn same_share(a: Share, b: Share) -> bool
    ensures same { (result ≡ true) ↔ (a ≡ b) }
{
    a.units() == b.units()
}

fn same_reserve(a: Option<Share>, b: Option<Share>) -> bool
    ensures same { (result ≡ true) ↔ (a ≡ b) }
{
    match (a, b) {
        (None, None) => true,
        (Some(x), Some(y)) => same_share(x, y),
        _ => false,
    }
}

fn same_estates(a: Estates, b: Estates) -> bool
    ensures same { (result ≡ true) ↔ (a ≡ b) }
{
    a == b
}

fn same_quantum(a: &Quantum, b: &Quantum) -> bool
    ensures same { (result ≡ true) ↔ (a.now ≡ b.now) }
{
    match (a, b) {
        (Quantum::Whole(x), Quantum::Whole(y)) => same_share(*x, *y),
        (Quantum::Interest(x), Quantum::Interest(y)) => same_share(*x, *y),
        _ => false,
    }
}

fn same_deed(a: &Deed, b: &Deed) -> bool
    ensures same { (result ≡ true) ↔ (a.now ≡ b.now) }
{
    let [s, o, m] = a.reserve;
    let [t, p, n] = b.reserve;
    a.grantor == b.grantor
        && a.grantee == b.grantee
        && same_estates(a.estates, b.estates)
        && a.warranty == b.warranty
        && same_quantum(&a.quantum, &b.quantum)
        && same_reserve(s, t)
        && same_reserve(o, p)
        && same_reserve(m, n)
}

fn same_release(a: &Release, b: &Release) -> bool
    ensures same { (result ≡ true) ↔ (a.now ≡ b.now) }
{
    a.from == b.from && a.to == b.to && same_estates(a.estates, b.estates)
}

impl Instrument {
    /// Whether two instruments are one: of one kind, with the same parties, estates and amounts.
    pub fn is(&self, other: &Instrument) -> bool
        ensures same { (result ≡ true) ↔ (self.now ≡ other.now) }
    {
        match (self, other) {
            (Instrument::Deed(x), Instrument::Deed(y)) => same_deed(x, y),
            (Instrument::Release(x), Instrument::Release(y)) => same_release(x, y),
            _ => false,
        }
    }
}
