//! The fields of a row.

ghost use Rattle.std.specs.{Prelude.{◌≡◌, option_map}, List.{list_all}};
ghost use Rattle.csv.specs.Records.{fields_of};
ghost use Rattle.title_plan.specs.Fields.{document_in, estates_in, examiner_in, field, is_name_byte, name_in, number_up_to};

use csv::StringRecord;
use title_instrument::Estates;
use title_share::number;

/// The greatest number of an examiner.
pub const EXAMINERS: u64 = 9_999;

/// The greatest number of a document.
pub const DOCUMENTS: u64 = 999_999_999_999;

/// The most bytes of a party's name.
pub const NAME_LIMIT: usize = 60;

/// A field of a row, empty where the row has fewer.
pub(crate) fn field(row: &StringRecord, i: usize) -> &str
    ensures field { result.now ≡ field (fields_of row.now) i }
{
    row.get(i).unwrap_or("")
}

// Out of line: within the reading of a row its loop would set all that the row's other ends want anew for each byte.
#[inline(never)]
fn has_name_bytes(text: &str) -> bool
    ensures bytes { result ≡ list_all is_name_byte text.now }
{
    text.bytes().all(|b| b >= 32 && b != 127)
}

/// The party's name that a text is: 1 to 60 bytes, none below 32 and none 127.
pub(crate) fn read_name(text: &str) -> Option<&str>
    ensures name { option_map (λ name. name.now) result ≡ name_in text.now }
{
    if text.is_empty() || text.len() > NAME_LIMIT || !has_name_bytes(text) {
        return None;
    }
    Some(text)
}

// The number of at most `greatest` that a text writes in decimal without leading zeros.
fn read_number(text: &str, greatest: u64) -> Option<u64>
    ensures number { result ≡ number_up_to greatest text.now }
{
    let number = number(text)?;
    if number > greatest {
        return None;
    }
    Some(number)
}

/// The examiner that a text names: from 1 to 9,999.
pub(crate) fn read_examiner(text: &str) -> Option<u32>
    ensures examiner { result ≡ examiner_in text.now }
{
    Some(read_number(text, EXAMINERS)? as u32)
}

/// The number of a document that a text writes: from 1 to 999,999,999,999.
pub(crate) fn read_document(text: &str) -> Option<u64>
    ensures document { result ≡ document_in text.now }
{
    read_number(text, DOCUMENTS)
}

/// The estates that a text names: the letters of one at least, in the order S, O, M.
pub(crate) fn read_estates(text: &str) -> Option<Estates>
    ensures estates { result ≡ estates_in text.now }
{
    let (s, o, m) = match text {
        "S" => (true, false, false),
        "O" => (false, true, false),
        "M" => (false, false, true),
        "SO" => (true, true, false),
        "SM" => (true, false, true),
        "OM" => (false, true, true),
        "SOM" => (true, true, true),
        _ => return None,
    };
    Some(Estates { s, o, m })
}
