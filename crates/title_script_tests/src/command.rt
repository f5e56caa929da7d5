//! The line of want of memory, in which no run ends. What words give, and help, stand with the vectors.

use crate::checks::must;
use std::alloc::Global;
use std::process::Abort;
use title_command::LineFault;

fn line_of(rt: &impl Abort, alloc: Global, fault: LineFault) -> String {
    format!(in alloc; "{fault}").expect(rt, "there is memory")
}

#[test]
fn memory_has_a_line(rt: HostRuntime) {
    let line = line_of(&rt, rt.alloc(), LineFault::Memory);
    must(&rt, line.as_str() == "fault,6", "the line");
}
