//! Spots of steps in a list of records.

ghost use Rattle.std.specs.{Prelude.{◌≡◌, true}, declared.cmp.Ordering.TheVariants.{Less}};
ghost use Rattle.title_chain.specs.{PostSpots.{same_spot}, SpotMaps.{spot_cmp}};

/// Where a step stands: the index of its record, and its own among the record's steps, each from 0.
#[derive(Clone, Copy, Debug, PartialEq, Eq, PartialOrd, Ord, Drop)]
pub(crate) struct Spot {
    pub(crate) record: usize,
    pub(crate) step: usize,
}

impl Spot {
    /// Whether two are one.
    pub(crate) fn is(self, other: Spot) -> bool
        ensures same { result ≡ same_spot self other }
    {
        self.record == other.record && self.step == other.step
    }

    /// Whether it stands before the other: in an earlier record, or earlier in the same one.
    pub(crate) fn is_before(self, other: Spot) -> bool
        ensures before { result ≡ true → spot_cmp self other ≡ Less }
    {
        self.record < other.record || (self.record == other.record && self.step < other.step)
    }
}
