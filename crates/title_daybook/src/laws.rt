//! Laws of what stands in a plant's file. Each function does nothing: its clause is the law, proved.

ghost use Rattle.title_daybook.specs.AddedLaws.{AddedReadsBack, KeptAreWritten};

use title_spelling::laws::{marks_read_back, only_ends_end, posts_read_back, rows_are_lines};

/// A block that adds what is new to what is old: behind the blocks that stand for the old, it makes them stand for the new.
pub fn added_reads_back()
    ensures law { AddedReadsBack }
{
    rows_are_lines();
    only_ends_end();
    marks_read_back();
    posts_read_back();
}

/// Of each record that it is written for, a block has what is kept of it.
pub fn kept_are_written()
    ensures law { KeptAreWritten }
{}
