//! What stands in a plant's file, from its blocks.

ghost use Rattle.std.specs.Prelude.{◌≡◌, ◌⊎◌, ◌≤◌, ◌<◌, ◌+◌, ◌^◌, ℕ, List, Ok, Err, IfErr, IfOk, length};
ghost use Rattle.title_daybook.specs.{Books.{standing_of}, Files.{standing_in}, KeptRows.{after_rows}, Lines.{lines_of}};
ghost use Rattle.title_daybook.specs.declared.fault.PlantFault.TheVariants as fault;
ghost use Rattle.title_journal.specs.{Blocks.{front}, Rest.{IsReadFrom, texts_of}};

use crate::book::Book;
use crate::fault::PlantFault;
use crate::lines::{is_marked, line_len, read_line, row_reader};
use crate::standing::Standing;
use csv::ByteRecord;
use std::alloc::Global;
use title_journal::Blocks;

impl Book {
    ghost use Rattle.title_daybook.specs.Books.{progress_of};

    // Takes the rows of a block, of which the first is this one of the file. Gives the number of the row behind them.
    fn take_block(&mut self, first: usize, text: &[u8]) -> Result<usize, PlantFault>
        requires fits { first + length text.now < 2 ^ 63 }
        ensures ok { IfOk result (λ n. (after_rows first (progress_of self.old) (lines_of text.now) ≡ Ok (progress_of self.new))
            × (n ≡ first + length (lines_of text.now)) × (n ≤ first + length text.now)) }
        ensures err { IfErr result (λ e. (e ≡ fault.Memory) ⊎ ((n : ℕ) × (e ≡ fault.Row n)
            × (after_rows first (progress_of self.old) (lines_of text.now) ≡ Err n))) }
    {
        if is_marked(text) {
            return Err(PlantFault::Row(first));
        }
        let mut reader = row_reader(self.alloc, text);
        let mut raw = ByteRecord::new(self.alloc);
        let mut n = first;
        let mut at = 0;
        'rows: while at < text.len() {
            let len = line_len(&text[at..]);
            let line = &text[at..at + len];
            if at + len + 1 >= text.len() {
                self.take_last(n, line)?;
                return Ok(n + 1);
            }
            read_line(&mut reader, &mut raw, n, line)?;
            raw = self.take_record(n, raw)?;
            at += len + 1;
            n += 1;
        }
        Err(PlantFault::Row(n))
    }
}

/// What stands in a plant's file, by the blocks that were read from it; `Row` where one of their rows may not stand where it does,
/// with its number in the file.
#[tactic(auto, using(crate::proofs::Blocks::block_fault, crate::proofs::Blocks::comes_to))]
pub fn read_standing(alloc: Global, blocks: &Blocks) -> Result<Standing, PlantFault>
    requires fits { length (front (texts_of blocks.now)) < 2 ^ 63 }
    ensures stands { IfOk result (λ s. (file : List ℕ) → IsReadFrom file blocks.now → standing_in file ≡ Ok (standing_of s)) }
    ensures fault { IfErr result (λ e. (n : ℕ) → e ≡ fault.Row n
        → (file : List ℕ) → IsReadFrom file blocks.now → standing_in file ≡ Err n) }
{
    let mut book = Book::new(alloc)?;
    // The row of the first gate.
    let mut n = 2;
    'blocks: for text in &blocks.texts {
        n = book.take_block(n + 1, text)?;
    }
    Ok(book.close())
}
