//! The lines of an office's faults.

use crate::checks::must;
use std::alloc::Global;
use std::process::Abort;
use title_day::OfficeFault;
use title_instrument::Cause;
use title_office::{Fault as WorkerFault, Unsettled};
use title_program::Fault;
use title_script::RunFault;
use title_trace::Denial;

static LINES: [(OfficeFault, &str); 16] = [
    (OfficeFault::Run(RunFault::Row(4)), "fault,31,4"),
    (
        OfficeFault::Worker(WorkerFault::Denied(Denial::NotOpen)),
        "fault,1",
    ),
    (
        OfficeFault::Worker(WorkerFault::Denied(Denial::AlreadyOpen)),
        "fault,2",
    ),
    (
        OfficeFault::Worker(WorkerFault::Denied(Denial::Invalid(Cause::SameParty))),
        "fault,3",
    ),
    (
        OfficeFault::Worker(WorkerFault::Denied(Denial::Conflict(2))),
        "fault,4",
    ),
    (
        OfficeFault::Worker(WorkerFault::Denied(Denial::TooLong)),
        "fault,5",
    ),
    (OfficeFault::Worker(WorkerFault::Memory), "fault,6"),
    (OfficeFault::Worker(WorkerFault::Stranger), "fault,7"),
    (OfficeFault::Worker(WorkerFault::NoThread), "fault,9"),
    (
        OfficeFault::Worker(WorkerFault::Denied(Denial::NoSuchTownship)),
        "fault,26",
    ),
    (OfficeFault::Unsettled(Unsettled::Open(64)), "fault,41,64"),
    (OfficeFault::Unsettled(Unsettled::Unknown(3)), "fault,42,3"),
    (OfficeFault::Unsettled(Unsettled::Missing(2)), "fault,43,2"),
    (OfficeFault::Unsettled(Unsettled::Doubled(1)), "fault,44,1"),
    (
        OfficeFault::Unsettled(Unsettled::Different(10)),
        "fault,45,10",
    ),
    (OfficeFault::Unsettled(Unsettled::Memory), "fault,6"),
];

fn line_of(rt: &impl Abort, alloc: Global, fault: OfficeFault) -> String {
    format!(in alloc; "{}", Fault::from(fault)).expect(rt, "there is memory")
}

fn assert_told(rt: &impl Abort, alloc: Global, lines: &[(OfficeFault, &str)]) {
    for (fault, line) in lines {
        must(rt, line_of(rt, alloc, *fault).as_str() == *line, line);
    }
}

#[test]
fn each_fault_of_an_office_has_its_line(rt: HostRuntime) {
    assert_told(&rt, rt.alloc(), &LINES);
}
