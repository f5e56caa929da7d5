//! Laws of a plant's file. Each function does nothing: its clause is the law, proved.

ghost use Rattle.title_spelling.specs.Laws.{CellsAreNoDescription, CellsAreRead, CellsArePartsAlone};
ghost use Rattle.title_spelling.specs.Laws.{DescriptionsStay, LandsHaveCells, MarksReadBack, OnlyEndsEnd, PostsReadBack};
ghost use Rattle.title_spelling.specs.Laws.{RowsAreLines, RowsReadBack, SpellingsReadBack};

use title_aliquot::laws::reads_back;
use title_plan::laws::texts_are_read;

/// A land is spelled as a text that says it.
pub fn spellings_read_back()
    ensures law { SpellingsReadBack }
{
    reads_back();
    texts_are_read();
}

/// A text is read in the cells form exactly where it is the cells form of a part of a section that has a cell.
pub fn cells_are_read()
    ensures read { CellsAreRead }
    ensures alone { CellsArePartsAlone }
{
    reads_back();
    texts_are_read();
}

/// The cells form is no description of a script.
pub fn cells_are_no_description()
    ensures law { CellsAreNoDescription }
{
    reads_back();
    texts_are_read();
}

/// What a text describes in a script, it says in a plant's file too.
pub fn descriptions_stay()
    ensures law { DescriptionsStay }
{
    reads_back();
    texts_are_read();
}

/// A land that a text says has a cell, so that it can be spelled again.
pub fn lands_have_cells()
    ensures law { LandsHaveCells }
{
    texts_are_read();
}

/// A post's fields are read as its examiner, document, instrument and land.
pub fn posts_read_back()
    ensures law { PostsReadBack }
{
    reads_back();
    texts_are_read();
}

/// The fields of declarations, of begins and of commits are read back.
pub fn marks_read_back()
    ensures law { MarksReadBack }
{
    reads_back();
    texts_are_read();
}

/// The texts of rows are read as their fields, by the reader of scripts.
pub fn rows_read_back()
    ensures law { RowsReadBack }
{}

/// Each row is one line, and none begins with `+` or `-`.
pub fn rows_are_lines()
    ensures law { RowsAreLines }
{}

/// Only the row of an end begins with `end,`.
pub fn only_ends_end()
    ensures law { OnlyEndsEnd }
{}
