//! The number of the one fault of a description that no text has. The others stand with the vectors.

use title_aliquot::DescFault;

#[test]
fn memory_has_a_number(rt: HostRuntime) {
    assert!(rt; DescFault::Memory.number() == 6);
}
