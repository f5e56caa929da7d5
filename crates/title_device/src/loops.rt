//! A script is read whole by one loop, and a report is written by another.

ghost use Rattle.std.specs.Prelude.{◌≡◌, ◌≤◌, ◌<◌, ◌+◌, ◌⊎◌, ℕ, List, [], Bool, true, false, Option, None, Some};
ghost use Rattle.std.specs.{Prelude.{IfOk, IfErr, IfSome, OnOk, OnErr, length, take}, Io.KnownBytes.{Appends, Consumes, IsAtEnd}};

use crate::fault::{Failed, ReadFault};
use crate::sink::Sink;
use crate::source::Source;
use std::alloc::Global;

/// The most bytes that a script may have.
pub const SCRIPT_LIMIT: usize = 16_777_216;

/// All the bytes of a source, read to its end in at most `SCRIPT_LIMIT + 1` turns. `Read` where a pull
/// fails or there are more than `SCRIPT_LIMIT` bytes, `Memory` where they can't be held; the source has
/// then given some of its bytes.
pub fn read_all<S: Source>(alloc: Global, source: &mut S) -> Result<Vec<u8>, ReadFault>
    requires works { S.has_failed source.old ≡ false }
    ensures bytes { IfOk result (λ script. IfSome (S.left source.old) (λ bytes. script.items ≡ bytes)) }
    ensures all { OnOk result (IsAtEnd (S.left source.new)) }
    ensures within { IfOk result (λ script. length script.items ≤ SCRIPT_LIMIT) }
    ensures well { OnOk result (S.has_failed source.new ≡ false) }
    ensures read { IfErr result (λ e. e ≡ ReadFault.Read
        → (S.has_failed source.new ≡ true)
        ⊎ IfSome (S.left source.old) (λ bytes. SCRIPT_LIMIT < length bytes)) }
    ensures memory { IfErr result (λ e. e ≡ ReadFault.Memory → S.has_failed source.new ≡ false) }
    ensures given { OnErr result ((given : List ℕ)
        × Consumes (S.left source.old) (S.left source.new) given) }
    ensures turns { S.turns source.new ≤ S.turns source.old + SCRIPT_LIMIT + 1 }
{
    let mut script = Vec::new(alloc);
    let mut buf = [0u8; 4096];
    for _turn in 0..SCRIPT_LIMIT + 1 {
        let count = source.pull(&mut buf)?;
        if count == 0 {
            return Ok(script);
        }
        script.extend_from_slice(&buf[..count])?;
        if script.len() > SCRIPT_LIMIT {
            return Err(ReadFault::Read);
        }
    }
    unreachable!()
}

/// Writes a text to a sink, in as many turns as that takes. `Failed` where a push fails; the sink has then
/// taken the beginning of the text and nothing else.
pub fn write_all<S: Sink>(sink: &mut S, text: &[u8]) -> Result<(), Failed>
    requires works { S.has_failed sink.old ≡ false }
    ensures bytes { OnOk result (Appends (S.taken sink.old) (S.taken sink.new) text.now) }
    ensures well { OnOk result (S.has_failed sink.new ≡ false) }
    ensures write { OnErr result (S.has_failed sink.new ≡ true) }
    ensures part { OnErr result ((n : ℕ) × Appends (S.taken sink.old) (S.taken sink.new) (take n text.now)) }
{
    let mut at = 0;
    while at < text.len() {
        let count = sink.push(&text[at..])?;
        at += count;
    }
    Ok(())
}
