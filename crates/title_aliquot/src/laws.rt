//! Laws of descriptions, for the crates above. Each function does nothing: its clause is the law, proved.

ghost use Rattle.title_aliquot.specs.TextLaws.{OneLand, NoFaultBesideLand, OneFault, EachTextIsAnswered, PartsHaveTheirCells, ReadsBack};
ghost use Rattle.title_aliquot.specs.Reading.{ThereIsAReading, ReadingsAgree, ReadingsGiveTheLand, ReadingsGiveTheFault};
ghost use Rattle.title_aliquot.specs.{Describes.{longest_text}, declared.describe.TheConstants.{LONGEST}};
ghost use Rattle.title_land.specs.Depth.{depth};
ghost use Rattle.std.specs.Prelude.{◌≡◌};

/// A text describes one land at most.
pub fn one_land_at_most()
    ensures law { OneLand depth }
{}

/// A text that describes a land has no fault.
pub fn no_fault_beside_a_land()
    ensures law { NoFaultBesideLand depth }
{}

/// A text has one fault at most, and one byte of it.
pub fn one_fault_at_most()
    ensures law { OneFault depth }
{}

/// Each text describes a land or has a fault.
pub fn each_text_is_answered()
    ensures law { EachTextIsAnswered depth }
{}

/// There is a function that reads each text aright, as the land that it describes or as its fault.
pub fn there_is_a_reading()
    ensures law { ThereIsAReading depth }
{}

/// Two readings give the same for each text.
pub fn readings_agree()
    ensures law { ReadingsAgree depth }
{}

/// A reading gives a land exactly where the text describes it, and a fault exactly where the text has it.
pub fn readings_give_what_texts_say()
    ensures land { ReadingsGiveTheLand depth }
    ensures fault { ReadingsGiveTheFault depth }
{}

/// The set of a section's parts has the cells of their rectangles and no others.
pub fn parts_have_their_cells()
    ensures law { PartsHaveTheirCells depth }
{}

/// A node's canonical text describes a land whose cover is that node alone.
pub fn reads_back()
    ensures law { ReadsBack depth }
{}

/// The most bytes of a description that the code has are those of the definitions.
pub fn limit_is_said()
    ensures bytes { LONGEST ≡ longest_text }
{}
