//! The forms of fields.

// The greatest denominator of a share.
const UNITS: u64 = 4_294_967_296;

fn add_digit(number: u64, digit: u8) -> u64 {
    let digit = u64::from(digit.saturating_sub(b'0'));
    number.saturating_mul(10).saturating_add(digit)
}

/// The number that digits write; the greatest of 64 bits where they write a greater one.
pub fn value_of(digits: &[u8]) -> u64 {
    let mut number = 0;
    for digit in digits {
        number = add_digit(number, *digit);
    }
    number
}

/// The number from 1 to another that a text writes in decimal without leading zeros.
pub fn number(text: &str, greatest: u64) -> Option<u64> {
    let is_decimal = text.bytes().all(|byte| byte.is_ascii_digit());
    if !is_decimal || text.starts_with('0') {
        return None;
    }
    let number = value_of(text.as_bytes());
    if number == 0 || number > greatest {
        return None;
    }
    Some(number)
}

/// Whether a text is a share: `a/b`, b a power of two.
pub fn is_share(text: &str) -> bool {
    let Some((part, whole)) = text.split_once('/') else {
        return false;
    };
    match number(whole, UNITS) {
        Some(whole) => whole.is_power_of_two() && number(part, whole).is_some(),
        None => false,
    }
}

/// Whether a text names estates.
pub fn is_estates(text: &str) -> bool {
    matches!(text, "S" | "O" | "M" | "SO" | "SM" | "OM" | "SOM")
}

/// Whether a text is the quantum of a deed.
pub fn is_quantum(text: &str) -> bool {
    match text.strip_prefix('W') {
        Some(share) => is_share(share),
        None => text.strip_prefix('I').is_some_and(is_share),
    }
}

// The index of an estate's letter among three, where an item of a reservation is one and a share.
fn reserved(item: &str) -> Option<usize> {
    let (letter, share) = item.split_at_checked(1)?;
    let index = match letter {
        "S" => 0,
        "O" => 1,
        "M" => 2,
        _ => return None,
    };
    if is_share(share) { Some(index) } else { None }
}

/// Whether a text says what a deed reserves: nothing, or items of which no two are of one estate.
pub fn is_reserve(text: &str) -> bool {
    if text.is_empty() {
        return true;
    }
    let mut seen = [false; 3];
    for item in text.split(';') {
        let Some(index) = reserved(item) else {
            return false;
        };
        match seen.get(index) {
            Some(false) => seen[index] = true,
            _ => return false,
        }
    }
    true
}

/// Whether a text is a party's name by its form.
pub fn is_name(text: &str) -> bool {
    let is_printed = text.bytes().all(|byte| byte >= 32 && byte != 127);
    is_printed && !text.is_empty() && text.len() <= 60
}
