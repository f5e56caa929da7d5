//! Townships, sections, squares and tracts for the tests.

use std::alloc::Global;
use std::process::Abort;
use title_aliquot::read;
use title_land::{Node, Quarter, Section, Township, Tract, Within};

/// The township of this number north, range 2 west.
pub fn township(rt: &impl Abort, number: u8) -> Township {
    Township::new(number, true, 2, false).expect(rt, "the numbers are in range")
}

/// The section of T3N R2W with this number.
pub fn section(rt: &impl Abort, number: u8) -> Section {
    Section::new(township(rt, 3), number).expect(rt, "the number is in range")
}

/// The square of that section with these quarters, the innermost first.
pub fn square(rt: &impl Abort, number: u8, quarters: &[Quarter]) -> Node {
    let within = Within::named(quarters).expect(rt, "no more quarters than there are");
    Node::Part(section(rt, number), within)
}

/// The tract of a description.
pub fn tract(rt: &impl Abort, alloc: Global, text: &str) -> Tract {
    read(alloc, text).expect(rt, "it describes land")
}
