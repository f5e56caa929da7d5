//! The fields of a row, and what is wanted of each.

use std::fmt;
use thiserror::Error;
use title_plan::{DOCUMENTS, EXAMINERS, NAME_LIMIT};
use title_share::{Share, number};

// A field of a row, by the word that the formats have for it.
#[derive(Clone, Copy, Debug, PartialEq, Eq)]
pub(crate) enum Field {
    Examiner,
    Doc,
    Name,
    Grantor,
    Grantee,
    From,
    To,
    Estates,
    Quantum,
    Reserve,
}

// What is wanted of a field that isn't of its form.
#[derive(Clone, Copy, Debug, PartialEq, Eq, Error)]
pub(crate) enum Wanted {
    #[error("it must be township, party or an examiner's number, 1 to 9999")]
    Examiner,
    #[error("it must be the document's number, 1 to 999999999999, in digits alone and without a 0 at the front")]
    Doc,
    #[error("a party must have a name")]
    Name,
    #[error("a party's name has at most 60 bytes, and this one has {0}")]
    ShorterName(usize),
    #[error("a party's name has no tab, line end or other control character")]
    PlainName,
    #[error("it must be one of S, O, M, SO, SM, OM, SOM")]
    Estates,
    #[error("it must be W and a share of the whole, as W1/2, or I and a share of what the grantor has, as I1/1")]
    Quantum,
    #[error("it must be empty or have items as O1/2;M1/1, each an estate's letter S, O or M and a share")]
    Reserve,
    #[error("it names an estate twice")]
    EstateOnce,
    #[error("a share is written a/b, as 1/2, with whole numbers above 0")]
    Share,
    #[error("the second number of a share must be 1, 2, 4, 8, 16 and so on, doubling up to 4294967296")]
    PowerOfTwo,
    #[error("a share is at most the whole, so its first number is at most its second")]
    AtMostOne,
}

impl fmt::Display for Field {
    fn fmt<W: fmt::Write>(&self, f: &mut fmt::Formatter<W>) -> fmt::Result {
        f.write_str(match self {
            Field::Examiner => "the first field",
            Field::Doc => "DOC",
            Field::Name => "NAME",
            Field::Grantor => "GRANTOR",
            Field::Grantee => "GRANTEE",
            Field::From => "FROM",
            Field::To => "TO",
            Field::Estates => "ESTATES",
            Field::Quantum => "QUANTUM",
            Field::Reserve => "RESERVE",
        })
    }
}

// Whether a text is a number from 1 to this one.
fn is_number(text: &str, greatest: u64) -> bool {
    match number(text) {
        Some(number) => number <= greatest,
        None => false,
    }
}

fn judge_name(name: &str) -> Result<(), Wanted> {
    if name.is_empty() {
        return Err(Wanted::Name);
    }
    if name.len() > NAME_LIMIT {
        return Err(Wanted::ShorterName(name.len()));
    }
    if name.bytes().any(|byte| byte < 32 || byte == 127) {
        return Err(Wanted::PlainName);
    }
    Ok(())
}

fn judge_share(text: &str) -> Result<(), Wanted> {
    let Some((top, bottom)) = text.split_once('/') else {
        return Err(Wanted::Share);
    };
    let (Some(top), Some(bottom)) = (number(top), number(bottom)) else {
        return Err(Wanted::Share);
    };
    if top > bottom {
        return Err(Wanted::AtMostOne);
    }
    match Share::parse(text) {
        Some(_) => Ok(()),
        None => Err(Wanted::PowerOfTwo),
    }
}

fn judge_quantum(text: &str) -> Result<(), Wanted> {
    if let Some(share) = text.strip_prefix('W') {
        return judge_share(share);
    }
    if let Some(share) = text.strip_prefix('I') {
        return judge_share(share);
    }
    Err(Wanted::Quantum)
}

// The index of the estate whose letter an item of a reserve begins with.
fn judge_item(item: &str) -> Result<usize, Wanted> {
    let (index, share) = if let Some(share) = item.strip_prefix('S') {
        (0, share)
    } else if let Some(share) = item.strip_prefix('O') {
        (1, share)
    } else if let Some(share) = item.strip_prefix('M') {
        (2, share)
    } else {
        return Err(Wanted::Reserve);
    };
    judge_share(share)?;
    Ok(index)
}

fn judge_reserve(text: &str) -> Result<(), Wanted> {
    if text.is_empty() {
        return Ok(());
    }
    let mut seen = [false; 3];
    for item in text.split(';') {
        let index = judge_item(item)?;
        match seen.get(index) {
            Some(false) => seen[index] = true,
            _ => return Err(Wanted::EstateOnce),
        }
    }
    Ok(())
}

impl Field {
    // Whether a text is of the field's form, or what is wanted.
    pub(crate) fn judge(self, text: &str) -> Result<(), Wanted> {
        match self {
            Field::Examiner if is_number(text, EXAMINERS) => Ok(()),
            Field::Examiner => Err(Wanted::Examiner),
            Field::Doc if is_number(text, DOCUMENTS) => Ok(()),
            Field::Doc => Err(Wanted::Doc),
            Field::Name | Field::Grantor | Field::Grantee | Field::From | Field::To => {
                judge_name(text)
            }
            Field::Estates => match text {
                "S" | "O" | "M" | "SO" | "SM" | "OM" | "SOM" => Ok(()),
                _ => Err(Wanted::Estates),
            },
            Field::Quantum => judge_quantum(text),
            Field::Reserve => judge_reserve(text),
        }
    }
}
