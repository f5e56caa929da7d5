//! Laws of blocks. Each function does nothing: its clauses are the law, proved.

ghost use Rattle.std.specs.{Prelude.{◌≡◌, ◌≤◌, ◌<◌, ℕ, List, Ok, Err, length, take}, List.{AllByRecursion}};
ghost use Rattle.title_journal.specs.{Beginnings.{BeginsAs}, Blocks.{blocks_in, head, IsBlock}, Rest.{Stands, at_rest}};

/// Blocks stand in a file exactly where it is the head, these blocks behind open gates, and an end that doesn't count.
pub fn blocks_stand_where_they_are()
    ensures read { (file : List ℕ) (blocks : List (List ℕ)) → Stands file blocks → blocks_in file ≡ Ok blocks }
    ensures made { (file : List ℕ) (blocks : List (List ℕ)) → blocks_in file ≡ Ok blocks → Stands file blocks }
{}

/// Blocks that were put, one behind the other, read back as those blocks.
pub fn put_blocks_read_back()
    ensures read { (blocks : List (List ℕ)) → AllByRecursion IsBlock blocks → blocks_in (at_rest blocks) ≡ Ok blocks }
{}

/// A file that is cut inside a block that counts is refused; every other beginning of it, down to the head, stands for the blocks
/// that are whole in it, and a shorter one is no plant at row 1.
pub fn beginnings_stand_or_are_refused()
    ensures begins { (file : List ℕ) (blocks : List (List ℕ)) (n : ℕ) → Stands file blocks → length head ≤ n
        → BeginsAs blocks n (blocks_in (take n file)) }
    ensures short { (file : List ℕ) (n : ℕ) → n < length head → blocks_in (take n file) ≡ Err 1 }
{}
