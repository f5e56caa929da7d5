//! The fields of posts.

ghost use Rattle.std.specs.{Prelude.{◌≡◌, ◌++◌, IfOk, OnOk}, String.{string_bytes}};
ghost use Rattle.title_instrument.specs.Kinds.{kind_of, kind_word};
ghost use Rattle.title_spelling.specs.Posts.{and_item, quantum_text, reserve_text};

use std::alloc::{AllocError, Global};
use std::fmt::Write;
use title_instrument::{Estate, Instrument, Quantum};
use title_share::Share;

/// The word of an instrument's kind.
pub(crate) fn spell_kind(alloc: Global, instrument: &Instrument) -> Result<String, AllocError>
    ensures word { IfOk result (λ word. string_bytes word ≡ kind_word (kind_of instrument.now)) }
{
    let kind = instrument.kind();
    format!(in alloc; "{kind}")
}

/// A quantum as a row has it: `W` or `I` and the share in lowest terms.
pub(crate) fn spell_quantum(alloc: Global, quantum: &Quantum) -> Result<String, AllocError>
    ensures text { IfOk result (λ text. string_bytes text ≡ quantum_text quantum.now) }
{
    match quantum {
        Quantum::Whole(share) => format!(in alloc; "W{share}"),
        Quantum::Interest(share) => format!(in alloc; "I{share}"),
    }
}

// Adds an item behind those before it, where something is reserved of the estate.
fn push_item(text: &mut String, estate: Estate, reserved: Option<Share>) -> Result<(), AllocError>
    ensures added { OnOk result (string_bytes text.new ≡ and_item (string_bytes text.old) estate reserved) }
{
    let Some(share) = reserved else {
        return Ok(());
    };
    if !text.is_empty() {
        text.push(';')?;
    }
    write!(text, "{estate}{share}")?;
    Ok(())
}

/// What is reserved, as a row has it: items in the order S, O, M with `;` between them.
pub(crate) fn spell_reserve(
    alloc: Global,
    reserve: &[Option<Share>; 3],
) -> Result<String, AllocError>
    ensures text { IfOk result (λ text. string_bytes text ≡ reserve_text reserve.now) }
{
    let mut text = String::new(alloc);
    push_item(&mut text, Estate::S, reserve[0])?;
    push_item(&mut text, Estate::O, reserve[1])?;
    push_item(&mut text, Estate::M, reserve[2])?;
    Ok(text)
}
