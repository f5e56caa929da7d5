//! What the tests want: an assertion as a call, which costs a caller's proof less than one written out.

use std::process::Abort;

/// Stops the test where this isn't so.
pub fn must(rt: &impl Abort, is_so: bool, what: &str) {
    assert!(rt; is_so, "{what}");
}
