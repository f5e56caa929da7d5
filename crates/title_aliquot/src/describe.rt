//! Reading descriptions.

ghost use Rattle.std.specs.{Bool.{Decides}, Prelude.{◌≡◌, ◌≢◌, take, drop, IfOk, IfErr}, Str.{chars}};
ghost use Rattle.title_land.specs.{Depth.{depth}, declared.tract.Land.{Land}};
ghost use Rattle.title_aliquot.specs.{Letters.{letters}, Answers.{Answers, IsTractOf, IsFault}, Grammar.{Description}, Views.{words_view}};
ghost use Rattle.title_aliquot.specs.{Describes.{Describes, FaultOf, Says, StepMayBegin, IsLot}, declared.fault.DescFault.{DescFault}};
ghost use Rattle.title_grammar.specs.Language.{Begins};
ghost use Rattle.title_aliquot.specs.declared.fault.DescFault.TheVariants as fault;

use crate::fault::DescFault;
use crate::letters::{offset_of, split_at_letter};
use crate::meaning::land_of;
use crate::reader::{Reader, Stop};
use crate::squares::{half_in, node_of};
use crate::syntax::Words;
use std::alloc::Global;
use title_land::Tract;

/// The most bytes of a text.
pub const LONGEST: usize = 1000;

/// Why letters say nothing.
#[derive(Clone, Copy, Debug, PartialEq, Eq, Drop)]
pub enum Unread {
    /// The index of the first letter that can't stand there.
    Letter(usize),
    Memory,
}

/// What a text's letters say, or the first of them that can't stand there.
fn read_letters(alloc: Global, text: &str) -> Result<Words, Unread>
    ensures answers { Answers result (letters (chars text.now)) }
{
    let mut reader = Reader::new(text);
    let words = match reader.description(alloc) {
        Ok(words) => words,
        Err(Stop::Stuck) => return Err(Unread::Letter(reader.letters_before(text))),
        Err(Stop::Memory) => return Err(Unread::Memory),
    };
    if !reader.is_done() {
        return Err(Unread::Letter(reader.letters_before(text)));
    }
    Ok(words)
}

/// Whether a step may begin after a text's letters.
fn step_may_begin(alloc: Global, before: &str) -> Result<bool, DescFault>
    ensures may { IfOk result (λ may. Decides may (StepMayBegin (letters (chars before.now)))) }
    ensures memory { IfErr result (λ e. e ≡ fault.Memory) }
{
    let mut reader = Reader::of_both(before, "n1/2");
    let Err(stop) = reader.description(alloc) else {
        return Ok(reader.is_done());
    };
    match stop {
        Stop::Stuck => Ok(reader.is_done()),
        Stop::Memory => Err(DescFault::Memory),
    }
}

/// Whether the letters after this index go on with the word lot, and a step may begin there.
fn is_lot(alloc: Global, text: &str, index: usize) -> Result<bool, DescFault>
    ensures lot { IfOk result (λ lot. Decides lot (IsLot (take index (letters (chars text.now))) (drop index (letters (chars text.now))))) }
    ensures memory { IfErr result (λ e. e ≡ fault.Memory) }
{
    let (before, after) = split_at_letter(text, index);
    match Reader::new(after).word("lot") {
        Ok(()) => step_may_begin(alloc, before),
        Err(Stop::Stuck) => Ok(false),
        Err(Stop::Memory) => Err(DescFault::Memory),
    }
}

/// What a text says.
fn words_of(alloc: Global, text: &str) -> Result<Words, DescFault>
    ensures says { IfOk result (λ w. Says text.now (words_view w)) }
    ensures fault { IfErr result (λ e. e ≢ fault.Memory → FaultOf depth text.now e) }
{
    if text.len() > LONGEST {
        return Err(DescFault::BadText(LONGEST));
    }
    let index = match read_letters(alloc, text) {
        Ok(words) => return Ok(words),
        Err(Unread::Letter(index)) => index,
        Err(Unread::Memory) => return Err(DescFault::Memory),
    };
    if is_lot(alloc, text, index)? {
        return Err(DescFault::Lots);
    }
    Err(DescFault::BadText(offset_of(text, index)))
}

/// The tract that a text describes.
fn tract_of(alloc: Global, text: &str) -> Result<Tract, DescFault>
    ensures described { IfOk result (λ t. Describes depth text.now t) }
    ensures fault { IfErr result (λ e. e ≢ fault.Memory → FaultOf depth text.now e) }
{
    let words = words_of(alloc, text)?;
    if let Some(node) = node_of(&words) {
        return Ok(Tract::of(node));
    }
    if let Some((section, which, within)) = half_in(&words) {
        return Ok(Tract::of_half(alloc, section, which, within)?);
    }
    let land = land_of(&words)?;
    Ok(Tract::new(alloc, land)?)
}

/// The tract that a text describes, or the first fault of a text that describes none; `Memory` may stand in place of
/// either. Townships and sections are those of the public survey (BLM, Manual of Surveying Instructions, 2009); the
/// grammar of descriptions is this project's.
pub fn read(alloc: Global, text: &str) -> Result<Tract, DescFault>
    ensures described { IfOk result (λ t. Describes depth text.now t) }
    ensures fault { IfErr result (λ e. e ≢ fault.Memory → FaultOf depth text.now e) }
    ensures only { (land : Land) → Describes depth text.now land → IsTractOf land result }
    ensures only_fault { (f : DescFault) → FaultOf depth text.now f → IsFault f result }
{
    tract_of(alloc, text)
}
