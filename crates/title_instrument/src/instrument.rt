//! Deeds and releases.

ghost use Rattle.std.specs.Prelude.{◌≡◌, ◌≤◌, Some, None, MatchResult, IfOk};
ghost use Rattle.title_instrument.specs.{Kinds.{kind_of}, Passing.{reserved, passed, passed_of, passed_yielding, passes}};
ghost use Rattle.title_instrument.specs.Parties.{between, deed_between, grantor_of, grantee_of, estates_of, reservation_of};
ghost use Rattle.title_instrument.specs.Check.{reserves_unnamed, has_stray, first_cause};

use crate::kind::Kind;
use crate::parts::{Cause, Estate, Estates, Quantum, Rule};
use title_share::Share;

/// A deed: the grantor passes the quantum of each named estate, less what it reserves there, to
/// the grantee. Parties go by number in a plant, by name in a script; a reservation is a share of
/// the whole. With warranty, the reservation of a deed of a share of the whole yields first.
#[derive(Clone, Copy, Debug, PartialEq, Eq)]
pub struct Deed<P = u32> {
    pub grantor: P,
    pub grantee: P,
    pub estates: Estates,
    pub warranty: bool,
    pub quantum: Quantum,
    /// What is reserved in S, O and M.
    pub reserve: [Option<Share>; 3],
}

/// A release: a party passes all that it holds in each named estate.
#[derive(Clone, Copy, Debug, PartialEq, Eq)]
pub struct Release<P = u32> {
    pub from: P,
    pub to: P,
    pub estates: Estates,
}

/// What is posted, between parties that `P` names.
#[derive(Clone, Copy, Debug, PartialEq, Eq)]
pub enum Instrument<P = u32> {
    Deed(Deed<P>),
    Release(Release<P>),
}

// The units that pass of those named, from a grantor that holds `held` and keeps back what is
// reserved of them, or the first rule that refuses.
fn passed_of(named: Option<u64>, reserved: u64, held: u64) -> Result<u64, Rule>
    ensures passed { result ≡ passed_of named reserved held }
    ensures within { IfOk result (λ n. n ≤ held) }
{
    let Some(units) = named else {
        return Err(Rule::TooFine);
    };
    if units > held {
        return Err(Rule::ShortTitle);
    }
    if units < reserved {
        return Err(Rule::OverReserved);
    }
    Ok(units - reserved)
}

// The same where the reservation yields first: the grantor has to hold only what is left.
fn passed_yielding(named: u64, reserved: u64, held: u64) -> Result<u64, Rule>
    ensures passed { result ≡ passed_yielding named reserved held }
    ensures within { IfOk result (λ n. n ≤ held) }
{
    if named < reserved {
        return Err(Rule::OverReserved);
    }
    let left = named - reserved;
    if left > held {
        return Err(Rule::ShortTitle);
    }
    Ok(left)
}

impl<P> Deed<P> {
    // The same deed between other parties.
    fn between<Q>(&self, grantor: Q, grantee: Q) -> Deed<Q>
        ensures between { result ≡ deed_between self.now grantor grantee }
    {
        let [s, o, m] = self.reserve;
        let reserve = [s, o, m];
        Deed {
            grantor,
            grantee,
            estates: self.estates,
            warranty: self.warranty,
            quantum: self.quantum,
            reserve,
        }
    }
}

impl Deed {
    // What is reserved in an estate.
    fn reservation(&self, estate: Estate) -> Option<Share>
        ensures reservation { result ≡ reservation_of self.now estate }
    {
        match estate {
            Estate::S => self.reserve[0],
            Estate::O => self.reserve[1],
            Estate::M => self.reserve[2],
        }
    }

    // The units that are reserved in an estate.
    fn reserved(&self, estate: Estate) -> u64
        ensures reserved { result ≡ reserved self.now estate }
    {
        match self.reservation(estate) {
            Some(share) => share.units(),
            None => 0,
        }
    }

    // The units that pass in a named estate, from a grantor that holds `held`, or the first rule
    // that refuses.
    fn passed(&self, estate: Estate, held: u64) -> Result<u64, Rule>
        ensures passed { result ≡ passed self.now.warranty self.now.quantum (reserved self.now estate) held }
        ensures within { IfOk result (λ n. n ≤ held) }
    {
        let reserved = self.reserved(estate);
        if held == 0 {
            return Err(Rule::ShortTitle);
        }
        match self.quantum {
            Quantum::Whole(share) if self.warranty => {
                passed_yielding(share.units(), reserved, held)
            }
            quantum => passed_of(quantum.units(held), reserved, held),
        }
    }

    // Whether something is reserved in an estate that isn't named.
    fn reserves_unnamed(&self, estate: Estate) -> bool
        ensures unnamed { result ≡ reserves_unnamed self.now estate }
    {
        !self.estates.has(estate) && self.reservation(estate).is_some()
    }
}

impl<P> Instrument<P> {
    /// Which of the three kinds it is.
    pub fn kind(&self) -> Kind
        ensures kind { result ≡ kind_of self.now }
    {
        match self {
            Instrument::Deed(deed) if deed.warranty => Kind::Warranty,
            Instrument::Deed(_) => Kind::Deed,
            Instrument::Release(_) => Kind::Release,
        }
    }

    /// The estates that are named.
    pub fn estates(&self) -> Estates
        ensures estates { result ≡ estates_of self.now }
    {
        match self {
            Instrument::Deed(deed) => deed.estates,
            Instrument::Release(release) => release.estates,
        }
    }
}

impl<P: Copy> Instrument<P> {
    /// The party that passes units: a deed's grantor, or the releasor.
    pub fn grantor(&self) -> P
        ensures grantor { result ≡ grantor_of self.now }
    {
        match self {
            Instrument::Deed(deed) => deed.grantor,
            Instrument::Release(release) => release.from,
        }
    }

    /// The party to which they pass.
    pub fn grantee(&self) -> P
        ensures grantee { result ≡ grantee_of self.now }
    {
        match self {
            Instrument::Deed(deed) => deed.grantee,
            Instrument::Release(release) => release.to,
        }
    }

    /// The same instrument between other parties.
    pub fn between<Q>(&self, grantor: Q, grantee: Q) -> Instrument<Q>
        ensures between { result ≡ between self.now grantor grantee }
    {
        match self {
            Instrument::Deed(deed) => Instrument::Deed(deed.between(grantor, grantee)),
            Instrument::Release(release) => Instrument::Release(Release {
                from: grantor,
                to: grantee,
                estates: release.estates,
            }),
        }
    }
}

impl Instrument {
    /// The units that pass in an estate, from a grantor that holds `held`, or the first rule that
    /// refuses. No rule refuses a release.
    pub fn passes(&self, estate: Estate, held: u64) -> Result<u64, Rule>
        ensures passes { result ≡ passes self.now estate held }
        ensures within { IfOk result (λ n. n ≤ held) }
    {
        if !self.estates().has(estate) {
            return Ok(0);
        }
        match self {
            Instrument::Deed(deed) => deed.passed(estate, held),
            Instrument::Release(_) => Ok(held),
        }
    }

    // Whether something is reserved in an estate that isn't named.
    fn has_stray(&self) -> bool
        ensures stray { result ≡ has_stray self.now }
    {
        match self {
            Instrument::Deed(deed) => {
                deed.reserves_unnamed(Estate::S)
                    || deed.reserves_unnamed(Estate::O)
                    || deed.reserves_unnamed(Estate::M)
            }
            Instrument::Release(_) => false,
        }
    }

    /// Whether the instrument can stand among so many parties, which are numbered from 0, or else
    /// the first cause why not.
    #[tactic(auto, using(std::proofs::lemmas::Bool::Decides::nat_tests), unfolding(crate::specs::Check::first_cause))]
    pub fn check(&self, parties: u32) -> Result<(), Cause>
        ensures cause { MatchResult result (λ _. first_cause parties self.now ≡ None) (λ c. first_cause parties self.now ≡ Some c) }
    {
        if self.grantor() >= parties || self.grantee() >= parties {
            return Err(Cause::Party);
        }
        if self.grantor() == self.grantee() {
            return Err(Cause::SameParty);
        }
        if self.estates().is_empty() {
            return Err(Cause::NoEstate);
        }
        if self.has_stray() {
            return Err(Cause::Reservation);
        }
        Ok(())
    }
}
