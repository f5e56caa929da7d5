//! What the tests want: an assertion as a call, which costs a caller's proof less than one written out.

use std::process::Abort;
use title_store::SheetRow;

/// Stops the test where this isn't so.
pub fn must(rt: &impl Abort, is_so: bool, what: &str) {
    assert!(rt; is_so, "{what}");
}

/// Three rows, each of which has the whole as the United States': the sheet of a node in the opening plant.
pub fn assert_opening(rt: &impl Abort, rows: &[SheetRow]) {
    must(rt, rows.len() == 3, "three rows");
    for row in rows {
        let is_whole = row.party == 0 && row.units == 4_294_967_296;
        must(rt, is_whole, "the United States' whole");
    }
}
