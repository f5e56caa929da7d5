//! Laws of files that are opened. Each function does nothing: its clauses are the law, proved.

ghost use Rattle.std.specs.Prelude.{◌≡◌, ◌⊎◌, ◌++◌, List, ℕ, Ok, take};
ghost use Rattle.title_journal.specs.{Blocks.{head}, Rest.{StandsAlike}};
ghost use Rattle.title_file.specs.{Fronts.{AreGates, blocks_behind, front_of}, declared.gates.Gates.{Gates}};
ghost use Rattle.title_file.specs.InDoubt.{UnderWay, IsInDoubt, MayBecome, with_opened, written_again};

use title_journal::laws::blocks_stand_where_they_are;

/// Where the disk has a plant's file other than it is read, since a call that was under way has failed, the file is on the disk as it
/// is read once the last open gate, and what lies behind the blocks, or else the length, are written to it again.
pub fn files_written_again_are_as_read()
    ensures again { (head seen disk : List ℕ) (under_way : UnderWay) (gates : Gates) → IsInDoubt head under_way seen disk
        → AreGates head seen gates → written_again seen gates disk ≡ seen }
{}

/// What a crash leaves meanwhile stands for what stood before that call, or with the block whose gate it opened.
pub fn crashes_meanwhile_leave_what_stood()
    ensures crash { (head seen disk bytes : List ℕ) (under_way : UnderWay) (doubt : IsInDoubt head under_way seen disk)
        → MayBecome under_way bytes → (blocks_behind head (front_of head doubt.blocks ++ bytes) ≡ Ok doubt.blocks)
        ⊎ (blocks_behind head (front_of head doubt.blocks ++ bytes) ≡ Ok (with_opened under_way doubt.blocks)) }
{}

/// What is kept beside a file before it is cut off stands for nothing: the file without it shows the same blocks.
pub fn what_is_kept_stands_for_nothing()
    ensures alike { (file : List ℕ) (gates : Gates) → AreGates head file gates → StandsAlike file (take gates.end file) }
{
    blocks_stand_where_they_are();
}
