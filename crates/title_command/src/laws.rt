//! Laws of the command line. Each function does nothing: its clause is the law, proved.

ghost use Rattle.std.specs.Prelude.{◌∷◌, [], codes};
ghost use Rattle.title_command.specs.CommandLine.{DeskByWord, DeskOnPlant, DeskWithMore, KeptByWords, LookAlone, LookByWords};
ghost use Rattle.title_command.specs.CommandLine.{LookOfRun, OfficeAtMost, OfficeByDefault, OfficeOnPlant, PlaceAlone, Refuses};

use clap::error::ErrorKind;

/// Words of the command `office` that are taken: it alone has two examiners and a hundred tries, and it may have the most.
pub fn office_words_are_said()
    ensures default { OfficeByDefault }
    ensures most { OfficeAtMost }
{}

/// Words of the command `office` that are refused: numbers out of range, a word that is no number, an option said twice.
pub fn other_words_are_refused()
    ensures more { Refuses (codes "--examiners" ∷ codes "65" ∷ []) ErrorKind.ValueValidation }
    ensures none { Refuses (codes "--tries" ∷ codes "0" ∷ []) ErrorKind.ValueValidation }
    ensures no_number { Refuses (codes "--tries" ∷ codes "ten" ∷ []) ErrorKind.ValueValidation }
    ensures twice { Refuses (codes "--tries=1" ∷ codes "--tries=2" ∷ []) ErrorKind.ArgumentConflict }
    ensures unknown { Refuses (codes "soon" ∷ []) ErrorKind.UnknownArgument }
{}

/// An office's script is kept in the file that `--plant` names, with its numbers beside.
pub fn kept_office_words_are_said()
    ensures kept { OfficeOnPlant }
{}

/// `desk` is one word, which a plant's file may follow; a last place that is expected there is refused.
pub fn desk_word_is_said()
    ensures alone { DeskByWord }
    ensures plant { DeskOnPlant }
    ensures more { DeskWithMore }
{}

/// A script is kept in the file that `--plant` names, with the place that `--after` says; a place that is expected in no plant is refused.
pub fn kept_words_are_said()
    ensures kept { KeptByWords }
    ensures alone { PlaceAlone }
{}

/// `alone` and `desk` with `--look` look at the file that `--plant` names; a look at no plant is refused, and `run` has none.
pub fn look_words_are_said()
    ensures looks { LookByWords }
    ensures alone { LookAlone }
    ensures run { LookOfRun }
{}
