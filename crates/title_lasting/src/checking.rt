//! What stands in a plant's file, told in numbers or as a script. Nothing is written to the file.

ghost use Rattle.std.specs.Prelude.{◌≡◌, ◌⊎◌, ◌≤◌, ◌<◌, ◌+◌, ◌^◌, ◌∷◌, [], ℕ, suc, List, Some, true, false, cond, IfErr, IfOk, OnOk, OnErr};
ghost use Rattle.std.specs.{Prelude.{length, map, reverse, take}, Io.KnownBytes.{Appends}};
ghost use Rattle.title_plan.specs.declared.line.Line.{Line as LineOf};
ghost use Rattle.title_journal.specs.Blocks.{rows_in};
ghost use Rattle.title_standing.specs.Records.{record_of};
ghost use Rattle.title_page.specs.{Pages.{Stopped, Written}, Rows.{rows_text}};
ghost use Rattle.title_daybook.specs.{Books.{standing_of}, Files.{IsPlant}, Standing.{Standing as StandingOf}};
ghost use Rattle.title_lasting.specs.Tells.{IsNoScript, IsScript, Telling, count_row, posts_in, script_text, standing_rows, standing_text};
ghost use Rattle.title_lasting.specs.{Tells.{told_number, undescribed}, Lastings.{Begins}, Faults.{of_opening}};
ghost use Rattle.title_lasting.specs.declared.checking.TellFault.TheVariants as fault;

use crate::fault::LastingFault;
use crate::opening::{Found, find, stand, tail_len};
use std::alloc::{AllocError, Global};
use std::collections::VecDeque;
use thiserror::Error;
use title_chain::Record;
use title_daybook::{Standing, Stood, block};
use title_desk::Desk;
use title_device::{Failed, SCRIPT_LIMIT, Sink, write_all};
use title_disk::Disk;
use title_lock::NodeLocks;
use title_page::Page;
use title_plan::{Line, Schedule, ScriptFault, read_script};
use title_report::{ReportField, put_row};
use title_spelling::end_row;
use title_standing::Deeds;
use title_standing::laws::replayed_records_are_committed;
use title_tree_store::TreeStore;

/// Why what stands in a plant's file isn't told. Rows are numbered from 1.
#[derive(Clone, Copy, Debug, PartialEq, Eq, Error)]
pub enum TellFault {
    /// The file is no plant: this row of it doesn't stand there rightly, or ends a transaction of which a post isn't posted.
    #[error("row {0} of the file: no plant")]
    NotAPlant(usize),
    /// The disk has failed.
    #[error("the disk has failed")]
    Disk,
    /// No script says what stands: this row of it would be one too many, or describe a tract that has no description.
    #[error("no script says what stands, by its row {0}")]
    NoScript(u64),
    /// Memory ran out.
    #[error("out of memory")]
    Memory,
    /// The sink has failed.
    #[error("what stands can't be written")]
    Write,
}

impl From<LastingFault> for TellFault {
    ghost from_gives = { λ failed e. e ≡ of_opening failed };

    fn from(failed: LastingFault) -> TellFault {
        match failed {
            LastingFault::NotAPlant(row) => TellFault::NotAPlant(row),
            LastingFault::Disk => TellFault::Disk,
            _ => TellFault::Memory,
        }
    }
}

impl From<AllocError> for TellFault {
    ghost from_gives = { λ _ e. e ≡ fault.Memory };

    fn from(_failed: AllocError) -> TellFault {
        TellFault::Memory
    }
}

impl From<Failed> for TellFault {
    ghost from_gives = { λ _ e. e ≡ fault.Write };

    fn from(_failed: Failed) -> TellFault {
        TellFault::Write
    }
}

// ---- in numbers

// The posts of some deeds.
fn count_posts(deeds: &[Deeds]) -> u64
    ensures posts { result ≡ told_number (posts_in (reverse (map record_of deeds.now))) }
{
    let mut posts = 0u64;
    for kept in deeds {
        posts = posts.saturating_add(kept.posts.len() as u64);
    }
    posts
}

// Writes a row `WORD,NUMBER`.
fn put_count<S: Sink>(page: &mut Page, sink: &mut S, word: &[u8], number: u64) -> Result<(), Failed>
    requires works { S.has_failed sink.old ≡ false }
    ensures written { OnOk result (Written (S.taken sink.old) page.old (S.taken sink.new) page.new
        (rows_text (count_row word.now number ∷ []))) }
    ensures well { OnOk result (S.has_failed sink.new ≡ false) }
    ensures stopped { OnErr result (Stopped (S.taken sink.old) page.old (S.taken sink.new)
        (rows_text (count_row word.now number ∷ []))) }
    ensures failed { OnErr result (S.has_failed sink.new ≡ true) }
{
    let fields = [ReportField::Text(word), ReportField::Number(number)];
    put_row(page, sink, &fields)
}

// Writes what stands in numbers.
fn put_standing<S: Sink>(
    page: &mut Page,
    sink: &mut S,
    stands: &Standing,
    tail: usize,
) -> Result<(), Failed>
    requires works { S.has_failed sink.old ≡ false }
    ensures written { OnOk result (Written (S.taken sink.old) page.old (S.taken sink.new) page.new
        (rows_text (standing_rows (standing_of stands.now) tail))) }
    ensures well { OnOk result (S.has_failed sink.new ≡ false) }
    ensures stopped { OnErr result (Stopped (S.taken sink.old) page.old (S.taken sink.new)
        (rows_text (standing_rows (standing_of stands.now) tail))) }
    ensures failed { OnErr result (S.has_failed sink.new ≡ true) }
{
    put_count(page, sink, b"townships", stands.townships.len() as u64)?;
    put_count(page, sink, b"parties", stands.parties.len() as u64)?;
    put_count(page, sink, b"transactions", stands.deeds.len() as u64)?;
    put_count(page, sink, b"posts", count_posts(&stands.deeds))?;
    put_count(page, sink, b"tail", tail as u64)
}

// Writes what stands in numbers, all of it.
fn write_standing<S: Sink>(sink: &mut S, stands: &Standing, tail: usize) -> Result<(), Failed>
    requires works { S.has_failed sink.old ≡ false }
    ensures written { OnOk result (Appends (S.taken sink.old) (S.taken sink.new)
        (rows_text (standing_rows (standing_of stands.now) tail))) }
    ensures begun { OnErr result (Begins (S.taken sink.old) (S.taken sink.new)
        (rows_text (standing_rows (standing_of stands.now) tail))) }
    ensures failed { OnErr result (S.has_failed sink.new ≡ true) }
{
    let mut page = Page::new();
    put_standing(&mut page, sink, stands, tail)?;
    page.pass(sink)
}

/// Writes what stands in a plant's file in five rows: `townships,N`, `parties,N`, `transactions,N` (the last place), `posts,N`, and
/// `tail,BYTES`, the bytes behind the blocks that don't count. The file stays as it is.
pub fn tell_standing<D: Disk, S: Sink>(
    alloc: Global,
    disk: &mut D,
    sink: &mut S,
) -> Result<(), TellFault>
    requires disk_works { D.has_failed disk.old ≡ false }
    requires sink_works { S.has_failed sink.old ≡ false }
    ensures told { Telling (D.seen disk.old) (standing_text (D.seen disk.old)) (S.taken sink.old) (S.taken sink.new)
        (D.has_failed disk.new) (S.has_failed sink.new) result }
    ensures seen { D.seen disk.new ≡ D.seen disk.old }
{
    let found = find(alloc, disk)?;
    let desk = stand(alloc, &found)?;
    drop(desk);
    write_standing(sink, &found.stands, tail_len(found.blocks.tail))?;
    Ok(())
}

// ---- as a script

// Whether a step's description is none.
fn is_undescribed(line: &Line) -> bool
    ensures none { (n : ℕ) (more : List LineOf) → undescribed n (line.now ∷ more)
        ≡ cond result (Some n) (undescribed (n + 1) more) }
{
    matches!(line, Line::Described(_, _))
}

// The row of the first step whose description is none, the first step standing in the n-th row.
fn undescribed(n: u64, lines: &VecDeque<Line>) -> Option<u64>
    requires fits { n < 2 ^ 32 }
    ensures first { result ≡ undescribed n lines.now.items }
{
    for at in 0..lines.len() {
        if is_undescribed(&lines[at]) {
            return Some(n + at as u64);
        }
    }
    None
}

// The number of the row in which an offset lies.
fn row_at(text: &[u8], offset: usize) -> u64
    requires within { offset ≤ length text.now }
    ensures row { result ≡ suc (rows_in (take offset text.now)) }
{
    let whole = text[..offset].iter().filter(|byte| **byte == b'\n').count();
    whole as u64 + 1
}

// Sees that a text is a script of transactions one after another, each step with a description.
fn read_again(alloc: Global, text: &[u8]) -> Result<(), TellFault>
    ensures script { OnOk result (IsScript text.now) }
    ensures none { IfErr result (λ e. (e ≡ fault.Memory) ⊎ ((row : ℕ) × (e ≡ fault.NoScript row) × IsNoScript text.now row)) }
{
    if text.len() > SCRIPT_LIMIT {
        return Err(TellFault::NoScript(row_at(text, SCRIPT_LIMIT)));
    }
    let plan = match read_script(alloc, Schedule::Serial, text) {
        Ok(plan) => plan,
        Err(ScriptFault::Memory) => return Err(TellFault::Memory),
        Err(ScriptFault::Row(n)) => return Err(TellFault::NoScript(n)),
        Err(ScriptFault::Order(n)) => return Err(TellFault::NoScript(n)),
        Err(ScriptFault::Party(n)) => return Err(TellFault::NoScript(n)),
    };
    let first = plan.townships.len() as u64 + plan.parties.len() as u64;
    match undescribed(first, &plan.lines) {
        Some(row) => Err(TellFault::NoScript(row)),
        None => Ok(()),
    }
}

// What stands as a script, with these records.
fn spell_script(alloc: Global, stands: &Standing, records: &[Record]) -> Result<Vec<u8>, AllocError>
    requires records { reverse records.now ≡ (standing_of stands.now).records }
    ensures text { IfOk result (λ text. text.items ≡ script_text (standing_of stands.now)) }
{
    let nothing = Stood {
        townships: 0,
        parties: 1,
        records: 0,
    };
    let mut text = block(alloc, nothing, &stands.townships, &stands.parties, records)?;
    let mut end = Vec::new(alloc);
    end_row(alloc, records.len() as u64, &mut end)?;
    text.truncate(text.len().saturating_sub(end.len()));
    Ok(text)
}

/// Writes what stands in a plant's file as a script of transactions one after another, declarations first: `run_alone` of it has the same
/// transactions in the same places. `NoScript` where a script may not have as many rows or bytes, or a tract has no description. The
/// file stays as it is.
pub fn tell_script<D: Disk, S: Sink>(
    alloc: Global,
    disk: &mut D,
    sink: &mut S,
) -> Result<(), TellFault>
    requires disk_works { D.has_failed disk.old ≡ false }
    requires sink_works { S.has_failed sink.old ≡ false }
    ensures told { Telling (D.seen disk.old) script_text (S.taken sink.old) (S.taken sink.new) (D.has_failed disk.new)
        (S.has_failed sink.new) result }
    ensures script { OnOk result ((s : StandingOf) × IsPlant (D.seen disk.old) s × IsScript (script_text s)) }
    ensures seen { D.seen disk.new ≡ D.seen disk.old }
{
    replayed_records_are_committed();
    let found = find(alloc, disk)?;
    let desk = stand(alloc, &found)?;
    let text = spell_script(alloc, &found.stands, desk.records())?;
    drop(desk);
    drop(found);
    read_again(alloc, &text)?;
    write_all(sink, &text)?;
    Ok(())
}
