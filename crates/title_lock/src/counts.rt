//! How many examiners hold a node in each mode.

ghost use Rattle.std.specs.Prelude.{◌≡◌, ◌+◌, ◌<◌, ◌≤◌, ◌^◌, Some};
ghost use Rattle.title_lock.specs.{declared.modes.Mode.{Mode}, Counts.{in_order}, Holders.{count_in, own_part}};

use crate::modes::Mode;

/// A number for each mode.
#[derive(Clone, Copy, Drop)]
pub(crate) struct Counts {
    is: u64,
    ix: u64,
    s: u64,
    six: u64,
    x: u64,
}

impl Counts {
    /// Where nobody has any.
    pub(crate) const NONE: Counts = Counts {
        is: 0,
        ix: 0,
        s: 0,
        six: 0,
        x: 0,
    };

    /// Where one examiner has this, and nobody else has any.
    pub(crate) fn of_one(held: Option<Mode>) -> Counts
        ensures one { (m : Mode) → count_in result m ≡ own_part held m }
    {
        Counts::NONE.with(held)
    }

    /// The numbers in the order IS, IX, S, SIX, X.
    pub(crate) fn in_order(self) -> [u64; 5]
        ensures order { (m : Mode) → in_order result m ≡ count_in self m }
    {
        [self.is, self.ix, self.s, self.six, self.x]
    }

    /// How many hold it in a mode.
    pub(crate) fn of(self, mode: Mode) -> u64
        ensures of { result ≡ count_in self mode }
    {
        match mode {
            Mode::Is => self.is,
            Mode::Ix => self.ix,
            Mode::S => self.s,
            Mode::Six => self.six,
            Mode::X => self.x,
        }
    }

    // One more in a mode.
    fn more(mut self, mode: Mode) -> Counts
        requires fits { count_in self mode + 1 < 2 ^ 64 }
        ensures more { (m : Mode) → count_in result m ≡ count_in self m + own_part (Some mode) m }
    {
        match mode {
            Mode::Is => self.is += 1,
            Mode::Ix => self.ix += 1,
            Mode::S => self.s += 1,
            Mode::Six => self.six += 1,
            Mode::X => self.x += 1,
        }
        self
    }

    // One fewer in a mode.
    fn fewer(mut self, mode: Mode) -> Counts
        requires counted { 0 < count_in self mode }
        ensures fewer { (m : Mode) → count_in result m + own_part (Some mode) m ≡ count_in self m }
    {
        match mode {
            Mode::Is => self.is -= 1,
            Mode::Ix => self.ix -= 1,
            Mode::S => self.s -= 1,
            Mode::Six => self.six -= 1,
            Mode::X => self.x -= 1,
        }
        self
    }

    // The numbers without one examiner that holds this.
    fn without(self, held: Option<Mode>) -> Counts
        requires counted { (m : Mode) → own_part held m ≤ count_in self m }
        ensures fewer { (m : Mode) → count_in result m + own_part held m ≡ count_in self m }
    {
        match held {
            Some(mode) => self.fewer(mode),
            None => self,
        }
    }

    // The numbers with one examiner more that holds this.
    fn with(self, held: Option<Mode>) -> Counts
        requires fits { (m : Mode) → count_in self m + 1 < 2 ^ 64 }
        ensures more { (m : Mode) → count_in result m ≡ count_in self m + own_part held m }
    {
        match held {
            Some(mode) => self.more(mode),
            None => self,
        }
    }

    /// The numbers after what one examiner holds has become another.
    pub(crate) fn moved(self, from: Option<Mode>, to: Option<Mode>) -> Counts
        requires counted { (m : Mode) → own_part from m ≤ count_in self m }
        requires fits { (m : Mode) → count_in self m + 1 < 2 ^ 64 }
        ensures moved { (m : Mode) → count_in result m + own_part from m ≡ count_in self m + own_part to m }
    {
        self.without(from).with(to)
    }
}
