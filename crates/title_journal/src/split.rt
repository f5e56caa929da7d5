//! A file is split into its blocks.

ghost use Rattle.std.specs.Prelude.{◌≡◌, ◌≢◌, ◌≤◌, ◌<◌, ◌+◌, ◌^◌, ℕ, length, take, IfOk, IfErr, IfSome, IfNone, slice_index};
ghost use Rattle.title_journal.specs.{Blocks.{blocks_in, rows_in, line_feed, IsRow, IsBlock, IsUnfinished}, Rest.{IsReadFrom, tail_of}};
ghost use Rattle.title_journal.specs.declared.fault.JournalFault.TheVariants as fault;

use crate::blocks::{Blocks, Gate, Tail};
use crate::fault::JournalFault;
use std::alloc::Global;

/// The first row of a plant's file.
const HEAD: &[u8] = b"titleplant plant 1\n";

// With what the last row of a block begins.
const END: &[u8] = b"end,";

// A closed gate alone.
const CLOSED: &[u8] = b"-";

/// The blocks of a file; `NotAPlant` with its row where it is no plant.
pub fn split(alloc: Global, file: &[u8]) -> Result<Blocks, JournalFault>
    requires fits { length file.now < 2 ^ 63 }
    ensures stand { IfOk result (IsReadFrom file.now) }
    ensures not_a_plant { IfErr result (λ e. (row : ℕ) → e ≡ fault.NotAPlant row → blocks_in file.now ≡ Err row) }
    ensures own { IfErr result (λ e. e ≢ fault.Failed) }
{
    if !file.starts_with(HEAD) {
        return Err(JournalFault::NotAPlant { row: 1 });
    }
    let mut texts = Vec::new(alloc);
    let mut offset = HEAD.len();
    while offset + 1 < file.len() && file[offset] == b'+' {
        if file[offset + 1] != b'\n' {
            return Err(JournalFault::NotAPlant {
                row: row_at(file, offset),
            });
        }
        let start = offset + 2;
        let Some(len) = block_len(&file[start..]) else {
            return Err(JournalFault::NotAPlant {
                row: row_at(file, file.len()),
            });
        };
        texts.push(file[start..start + len].to_vec(alloc)?)?;
        offset = start + len;
    }
    let tail = tail_at(&file[offset..]);
    Ok(Blocks {
        texts,
        gate: Gate { offset },
        tail,
    })
}

// What lies from the gate on.
fn tail_at(bytes: &[u8]) -> Tail
    ensures { result ≡ tail_of bytes.now }
{
    if bytes == CLOSED {
        Tail::Closed
    } else {
        Tail::Torn(bytes.len())
    }
}

// The number of the row in which an offset lies.
fn row_at(file: &[u8], offset: usize) -> usize
    requires fits { length file.now < 2 ^ 63 }
    requires within { offset ≤ length file.now }
    ensures row { result ≡ 1 + rows_in (take offset file.now) }
{
    1 + file[..offset].iter().filter(|byte| **byte == b'\n').count()
}

// How long the block is that begins here; none where it isn't whole.
fn block_len(bytes: &[u8]) -> Option<usize>
    ensures block { IfSome result (λ len. (len ≤ length bytes.now) × IsBlock (take len bytes.now)) }
    ensures unfinished { IfNone result (IsUnfinished bytes.now) }
{
    let mut at = 0;
    while let Some(len) = row_len(&bytes[at..]) {
        let ends = bytes[at..at + len].starts_with(END);
        at += len + 1;
        if ends {
            return Some(at);
        }
    }
    None
}

// How long the row is that begins here, without its line feed; none where it isn't whole.
fn row_len(bytes: &[u8]) -> Option<usize>
    ensures row { IfSome result (λ len. (len < length bytes.now) × IsRow (take len bytes.now)
        × (slice_index bytes.now len ≡ line_feed)) }
    ensures start { IfNone result (IsRow bytes.now) }
{
    bytes.iter().position(|byte| *byte == b'\n')
}
