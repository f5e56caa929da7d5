//! Laws of shares in texts, for the crates above. Each function does nothing: its clause is the law, proved.

ghost use Rattle.title_share.specs.TextLaws.{NumbersAreRead, SharesAreRead, NumbersOfTexts, SharesOfTexts};

/// A text is read as a number exactly where it writes that number in decimal, without leading zeros.
pub fn numbers_are_read()
    ensures law { NumbersAreRead }
    ensures texts { NumbersOfTexts }
{}

/// A text is read as a share exactly where it names that share.
pub fn shares_are_read()
    ensures law { SharesAreRead }
    ensures texts { SharesOfTexts }
{}
