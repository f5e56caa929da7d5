//! The words of steps.

use std::fmt;

// What an examiner does in a step, by its word.
#[derive(Clone, Copy, Debug, PartialEq, Eq)]
pub(crate) enum Word {
    Begin,
    Commit,
    Abort,
    Sheet,
    Chain,
    Deed,
    Warranty,
    Release,
}

impl Word {
    pub(crate) fn of(text: &str) -> Option<Word> {
        match text {
            "begin" => Some(Word::Begin),
            "commit" => Some(Word::Commit),
            "abort" => Some(Word::Abort),
            "sheet" => Some(Word::Sheet),
            "chain" => Some(Word::Chain),
            "deed" => Some(Word::Deed),
            "warranty" => Some(Word::Warranty),
            "release" => Some(Word::Release),
            _ => None,
        }
    }

    // How many fields its row has.
    pub(crate) fn fields(self) -> usize {
        match self {
            Word::Begin | Word::Commit | Word::Abort => 2,
            Word::Sheet | Word::Chain => 3,
            Word::Release => 7,
            Word::Deed | Word::Warranty => 9,
        }
    }

    // Its row, as the formats write it.
    pub(crate) fn form(self) -> &'static str {
        match self {
            Word::Begin => "E,begin",
            Word::Commit => "E,commit",
            Word::Abort => "E,abort",
            Word::Sheet => "E,sheet,TEXT",
            Word::Chain => "E,chain,TEXT",
            Word::Deed => "E,deed,DOC,GRANTOR,GRANTEE,ESTATES,QUANTUM,RESERVE,TEXT",
            Word::Warranty => "E,warranty,DOC,GRANTOR,GRANTEE,ESTATES,QUANTUM,RESERVE,TEXT",
            Word::Release => "E,release,DOC,FROM,TO,ESTATES,TEXT",
        }
    }
}

impl fmt::Display for Word {
    fn fmt<W: fmt::Write>(&self, f: &mut fmt::Formatter<W>) -> fmt::Result {
        f.write_str(match self {
            Word::Begin => "a begin",
            Word::Commit => "a commit",
            Word::Abort => "an abort",
            Word::Sheet => "a sheet",
            Word::Chain => "a chain",
            Word::Deed => "a deed",
            Word::Warranty => "a warranty deed",
            Word::Release => "a release",
        })
    }
}
