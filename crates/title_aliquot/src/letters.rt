//! The letters of a text: its characters without spaces and periods, in lower case.

ghost use Rattle.std.specs.{Char.{to_ascii_lowercase}, Prelude.{◌≡◌, true, false, [], ◌∷◌, length, take, drop, MatchOption}, Str.{chars}};
ghost use Rattle.title_aliquot.specs.Letters.{passed_over, letters, offset};

/// Whether a character is passed over.
fn is_passed_over(c: char) -> bool
    ensures passed { result ≡ passed_over c }
{
    c == ' ' || c == '.'
}

/// The letter that a character gives; `None` where it's passed over.
fn letter_of(c: char) -> Option<char>
    ensures letter { MatchOption result (passed_over c ≡ true) (λ l. (passed_over c ≡ false) × (l ≡ to_ascii_lowercase c)) }
{
    if is_passed_over(c) {
        return None;
    }
    Some(c.to_ascii_lowercase())
}

/// The first letter of a text, and the text behind its character; `None` where there are no letters.
// (Put inline at each call: a call for each letter cost a tenth of reading a description.)
#[inline(always)]
pub fn split_letter(text: &str) -> Option<(char, &str)>
    ensures split { MatchOption result (letters (chars text.now) ≡ []) (λ p. letters (chars text.now) ≡ p.0 ∷ letters (chars p.1.now)) }
{
    let mut characters = text.chars();
    'passed: while let Some(c) = characters.next() {
        if let Some(letter) = letter_of(c) {
            return Some((letter, characters.as_str()));
        }
    }
    None
}

/// The number of a text's letters.
pub fn count_letters(text: &str) -> usize
    ensures count { result ≡ length (letters (chars text.now)) }
{
    text.chars().filter(|c| !is_passed_over(*c)).count()
}

/// The byte offset of the character that gives this letter; the text's length where there are no more letters.
pub fn offset_of(text: &str, letter: usize) -> usize
    ensures offset { result ≡ offset (chars text.now) letter }
{
    let mut left = letter;
    'walk: for (at, c) in text.char_indices() {
        if !is_passed_over(c) {
            if left == 0 {
                return at;
            }
            left -= 1;
        }
    }
    text.len()
}

/// A text before the character that gives this letter, and from it on.
pub fn split_at_letter(text: &str, letter: usize) -> (&str, &str)
    ensures before { letters (chars result.0.now) ≡ take letter (letters (chars text.now)) }
    ensures after { letters (chars result.1.now) ≡ drop letter (letters (chars text.now)) }
{
    text.split_at(offset_of(text, letter))
}
