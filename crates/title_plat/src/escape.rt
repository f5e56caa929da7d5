//! Text as it stands in XML.

ghost use Rattle.std.specs.{Prelude.{◌≡◌, ◌++◌, IfOk, OnOk}, Str.{chars}, String.{string_bytes}};
ghost use Rattle.title_plat.specs.Escapes.{escape_of, escapes, is_forbidden};

use std::alloc::{AllocError, Global};

// Whether XML forbids a character, as it does most control characters (W3C, Extensible Markup Language 1.0, 2.2).
fn is_forbidden(c: char) -> bool
    ensures forbidden { result ≡ is_forbidden c }
{
    (c < ' ' && c != '\t' && c != '\n' && c != '\r') || c == '\u{FFFE}' || c == '\u{FFFF}'
}

// Adds a character as it stands in XML.
fn push_escaped(out: &mut String, c: char) -> Result<(), AllocError>
    ensures pushed { OnOk result (string_bytes out.new ≡ string_bytes out.old ++ escape_of c) }
{
    match c {
        '&' => out.push_str("&amp;"),
        '<' => out.push_str("&lt;"),
        '>' => out.push_str("&gt;"),
        '"' => out.push_str("&quot;"),
        '\'' => out.push_str("&apos;"),
        c if is_forbidden(c) => out.push('\u{FFFD}'),
        c => out.push(c),
    }
}

// Characters as they stand in XML.
fn escape_all(alloc: Global, characters: &[char]) -> Result<String, AllocError>
    ensures escaped { IfOk result (λ out. string_bytes out ≡ escapes characters.now) }
{
    let mut out = String::new(alloc);
    for c in characters {
        push_escaped(&mut out, *c)?;
    }
    Ok(out)
}

// The characters of a text.
fn characters_of(alloc: Global, text: &str) -> Result<Vec<char>, AllocError>
    ensures characters { IfOk result (λ characters. characters.items ≡ chars text.now) }
{
    text.chars().collect(alloc)
}

/// A text as it stands in XML: the five characters that XML gives a meaning as their entities, characters that XML forbids as
/// U+FFFD, and all others as they are.
pub fn escaped(alloc: Global, text: &str) -> Result<String, AllocError>
    ensures escaped { IfOk result (λ out. string_bytes out ≡ escapes (chars text.now)) }
{
    let characters = characters_of(alloc, text)?;
    escape_all(alloc, characters.as_slice())
}
