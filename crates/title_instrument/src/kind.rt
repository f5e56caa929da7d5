//! The kinds of instruments, and their words.

ghost use Rattle.std.specs.Prelude.{◌≡◌, Some};
ghost use Rattle.title_instrument.specs.Kinds.{kind_in, kind_word};

use std::fmt;

/// What an instrument is: a deed, plain or with warranty, or a release.
#[derive(Clone, Copy, Debug, PartialEq, Eq)]
pub enum Kind {
    Deed,
    Warranty,
    Release,
}

impl Kind {
    // The word of a kind, as scripts and reports write it.
    fn word(self) -> &'static str
        ensures word { result.now ≡ kind_word self }
    {
        match self {
            Kind::Deed => "deed",
            Kind::Warranty => "warranty",
            Kind::Release => "release",
        }
    }

    /// The kind whose word a text is; `None` where it is of no kind.
    pub fn of_word(word: &str) -> Option<Kind>
        ensures kind { result ≡ kind_in word.now }
    {
        if word == Kind::Deed.word() {
            return Some(Kind::Deed);
        }
        if word == Kind::Warranty.word() {
            return Some(Kind::Warranty);
        }
        if word == Kind::Release.word() {
            return Some(Kind::Release);
        }
        None
    }
}

/// The kind's word.
impl fmt::Display for Kind {
    ghost output = { λ k. Some (kind_word k) };

    fn fmt<W: fmt::Write>(&self, f: &mut fmt::Formatter<W>) -> fmt::Result {
        f.write_str(self.word())
    }
}
