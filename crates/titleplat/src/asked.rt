//! The words of the command line.

use title_plat::Wanted;
use title_share::number;

/// What the words ask for.
#[derive(Clone, Copy, Debug, PartialEq, Eq)]
pub enum Asked {
    Help,
    Draw(Wanted),
}

/// What the words ask for: with none the last sheet, with a number that sheet; `None` for words that aren't understood.
pub fn read_words(words: &[String]) -> Option<Asked> {
    match words {
        [] => Some(Asked::Draw(Wanted::Last)),
        [word] => match word.as_str() {
            "--help" | "-h" => Some(Asked::Help),
            word => number(word).map(|sheet| Asked::Draw(Wanted::Number(sheet))),
        },
        _ => None,
    }
}
