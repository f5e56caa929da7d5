//! The texts of land in a plant's file.

use crate::checks::must;
use std::alloc::Global;
use std::process::Abort;
use title_spelling::{read_land, spell};

// How the land is spelled that a text says.
fn spelled(rt: &impl Abort, alloc: Global, text: &str) -> String {
    let tract = read_land(alloc, text)
        .expect(rt, "there is memory")
        .expect(rt, "the text says a tract");
    spell(alloc, &tract).expect(rt, "there is memory")
}

fn is_spelled(rt: &impl Abort, alloc: Global, text: &str, wanted: &str) -> bool {
    spelled(rt, alloc, text).as_str() == wanted
}

fn assert_spelled(rt: &impl Abort, alloc: Global, lands: &[(&str, &str)]) {
    for (text, wanted) in lands {
        must(rt, is_spelled(rt, alloc, text, wanted), text);
    }
}

// Texts, and how their lands are spelled: by one node, by the nodes of a cover, and by cells where that would be too long. Every other
// column of the north half is 64 cells, of which no two are in a square. Cells begin in the northwest.
static LANDS: [(&str, &str); 8] = [
    ("everything", "everything"),
    ("t. 3 n., r. 2 w.", "T3N R2W"),
    ("T3N-R2W, section 5: all", "T3N R2W sec 5"),
    ("T3N R2W sec 5 NE¼ of the SW¼", "T3N R2W sec 5 NE1/4SW1/4"),
    (
        "T3N R2W sec 5 W1/2, NW1/4SE1/4",
        "T3N R2W sec 5 NW1/4, SW1/4, NW1/4SE1/4",
    ),
    (
        "T3N R2W sec 5 cells 8000 0000 0000 0000 0000 0000 0000 0000 0000 0000 0000 0000 0000 0000 0000 0000",
        "T3N R2W sec 5 NW1/4NW1/4NW1/4NW1/4",
    ),
    (
        "T3N R2W sec 6 W1/2W1/2W1/2W1/2N1/2, W1/2E1/2W1/2W1/2N1/2, W1/2W1/2E1/2W1/2N1/2, W1/2E1/2E1/2W1/2N1/2, \
         W1/2W1/2W1/2E1/2N1/2, W1/2E1/2W1/2E1/2N1/2, W1/2W1/2E1/2E1/2N1/2, W1/2E1/2E1/2E1/2N1/2",
        "T3N R2W sec 6 cells aaaa aaaa aaaa aaaa aaaa aaaa aaaa aaaa 0000 0000 0000 0000 0000 0000 0000 0000",
    ),
    (
        "T3N R2W sec 6 cells aaaa aaaa aaaa aaaa aaaa aaaa aaaa aaaa 0000 0000 0000 0000 0000 0000 0000 0000",
        "T3N R2W sec 6 cells aaaa aaaa aaaa aaaa aaaa aaaa aaaa aaaa 0000 0000 0000 0000 0000 0000 0000 0000",
    ),
];

#[test]
fn lands_are_spelled(rt: HostRuntime) {
    assert_spelled(&rt, rt.alloc(), &LANDS);
}
