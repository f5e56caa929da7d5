//! Scripts that aren't served, each for its reason: the file stays as it is.

use crate::served::{How, PLAIN, serve};
use anyhow::Result;
use std::alloc::{AllocError, Global};
use title_lasting::LastingFault;

// A plant: half of a section is ADAMS's, who sold all of it, and a township that joins has none of that.
const FILE: &str = "titleplant plant 1\n\
    +\n\
    township,T3N R2W\n\
    party,ADAMS\n\
    party,BELL\n\
    1,deed,1,UNITED STATES,ADAMS,S,W1/2,,T3N R2W\n\
    2,deed,2,ADAMS,BELL,S,W1/2,,everything\n\
    end,2\n\
    -";

// A script, the place that has to be the last, and why it isn't served.
#[derive(Clone, Copy)]
struct Case {
    script: &'static str,
    after: Option<u64>,
    fault: LastingFault,
}

fn any(script: &'static str, fault: LastingFault) -> Case {
    Case {
        script,
        after: None,
        fault,
    }
}

fn after(place: u64, script: &'static str, fault: LastingFault) -> Case {
    Case {
        script,
        after: Some(place),
        fault,
    }
}

// Whether a script isn't served for its reason, and the file was only read.
fn is_right(alloc: Global, case: Case) -> Result<bool, AllocError> {
    let how = How {
        after: case.after,
        ..PLAIN
    };
    let served = serve(alloc, FILE.as_bytes(), case.script.as_bytes(), how)?;
    Ok(
        served.outcome == Err(case.fault)
            && served.cut == 0
            && served.report.is_empty()
            && served.disk.calls().len() == 1
            && served.disk.bytes() == FILE.as_bytes(),
    )
}

fn try_cases<R: Print + AllocGlobal>(rt: &R, cases: &[Case]) -> Result<()> {
    let (mut count, mut differ) = (0u32, 0u32);
    for case in cases {
        count = count.saturating_add(1);
        if !is_right(rt.alloc(), *case)? {
            differ = differ.saturating_add(1);
            println!(rt; "differs: {:?}", case.script)?;
        }
    }
    println!(rt; "scripts that aren't served: {count}, {differ} differ")?;
    Ok(())
}

/// Tries scripts that aren't served.
pub fn try_faults<R: Print + AllocGlobal>(rt: &R) -> Result<()> {
    let sale = "1,deed,3,UNITED STATES,BELL,S,W1/2,,T3N R2W\n";
    let cases = [
        after(1, sale, LastingFault::After(2)),
        after(3, sale, LastingFault::After(2)),
        after(0, "nonsense", LastingFault::After(2)),
        after(2, "nonsense", LastingFault::Row(1)),
        any("party,CLARK\n1,grant\n", LastingFault::Row(2)),
        any("1,begin\nparty,ADAMS\n", LastingFault::Order(2)),
        any("1,begin\n2,begin\n", LastingFault::Order(2)),
        any(
            "1,deed,3,ADAMS,CLARK,S,W1/2,,T3N R2W\n",
            LastingFault::Party(1),
        ),
        any("party,CLARK\nparty,CLARK\n", LastingFault::Party(2)),
        any("party,UNITED STATES\n", LastingFault::Party(1)),
        any("township,T4N R2W\ntownship,T4N R2W\n", LastingFault::Row(2)),
        any("township,T4N R2W\n", LastingFault::Joins(2)),
        any(
            "township,T4N R2W\nparty,CLARK\n1,begin\n1,commit\n",
            LastingFault::Joins(2),
        ),
    ];
    try_cases(rt, &cases)
}
