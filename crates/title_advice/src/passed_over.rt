//! Rows at a desk that are passed over.

use std::str;
use title_plan::ScriptFault;
use title_share::number;

/// A row that was passed over: its number, and why.
#[derive(Clone, Copy)]
pub(crate) struct PassedOver {
    pub row: u64,
    pub fault: ScriptFault,
}

// The row that a text says was passed over.
fn read_text(text: &str) -> Option<PassedOver> {
    let (fault, row) = text.strip_prefix("fault,")?.split_once(',')?;
    let row = number(row)?;
    let fault = match fault {
        "31" => ScriptFault::Row(row),
        "34" => ScriptFault::Party(row),
        "35" => ScriptFault::Order(row),
        "6" => ScriptFault::Memory,
        _ => return None,
    };
    Some(PassedOver { row, fault })
}

impl PassedOver {
    /// The row that an answer says was passed over, where it says so of one.
    pub(crate) fn told_by(answer: &[u8]) -> Option<PassedOver> {
        match str::from_utf8(answer) {
            Ok(text) => read_text(text),
            Err(_) => None,
        }
    }
}
