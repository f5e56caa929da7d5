// Scripts at each side of limits that take long scripts: a line that stands many times, and how the report ends. Short ones stand with
// the vectors.

use super::{is_told, report_of};
use crate::checks::must;
use std::alloc::{AllocError, Global};
use std::process::Abort;

/// The lines that a script has many times: the same each time, or with their number, from 1, between two texts.
#[derive(Clone, Copy)]
pub enum Lines {
    Same(&'static str),
    Numbered(&'static str, &'static str),
}

/// A script of a head, of so many lines and of a tail, and the end of its report or the line of its fault.
#[derive(Clone, Copy)]
pub struct Limit {
    pub name: &'static str,
    pub head: &'static str,
    pub lines: Lines,
    pub times: u32,
    pub tail: &'static str,
    pub wanted: Result<&'static str, &'static str>,
}

pub static LIMITS: [Limit; 10] = [
    Limit {
        name: "ten thousand steps",
        head: "township,T3N R2W\n1,begin\n",
        lines: Lines::Same("1,chain,T3N R2W\n"),
        times: 10_000,
        tail: "1,commit\n",
        wanted: Ok("1,chain,0\n1,chain,0\n1,committed,1\nend,10002\n"),
    },
    Limit {
        name: "a step more",
        head: "township,T3N R2W\n1,begin\n",
        lines: Lines::Same("1,chain,T3N R2W\n"),
        times: 10_001,
        tail: "1,commit\n",
        wanted: Ok("1,chain,0\n1,toolong\n1,committed,1\nend,10003\n"),
    },
    Limit {
        name: "an instrument that can't stand comes before a step too many",
        head: "township,T3N R2W\nparty,ADAMS\n1,begin\n",
        lines: Lines::Same("1,chain,T3N R2W\n"),
        times: 10_000,
        tail: "1,deed,1,ADAMS,ADAMS,S,W1/1,,T3N R2W\n",
        wanted: Ok("1,chain,0\n1,invalid,2\nend,10002\n"),
    },
    Limit {
        name: "a step too many comes before a conflict",
        head: "township,T3N R2W\nparty,ADAMS\n2,begin\n2,deed,1,UNITED STATES,ADAMS,S,W1/1,,T3N R2W sec 5\n1,begin\n",
        lines: Lines::Same("1,chain,T3N R2W sec 6\n"),
        times: 10_000,
        tail: "1,chain,T3N R2W sec 5\n",
        wanted: Ok("1,chain,0\n1,toolong\nend,10004\n"),
    },
    Limit {
        name: "a hundred thousand rows",
        head: "",
        lines: Lines::Same("1,begin\n1,abort\n"),
        times: 50_000,
        tail: "",
        wanted: Ok("1,began\n1,aborted\nend,100000\n"),
    },
    Limit {
        name: "a row more",
        head: "",
        lines: Lines::Same("1,begin\n1,abort\n"),
        times: 50_000,
        tail: "1,begin\n",
        wanted: Err("fault,31,100001"),
    },
    Limit {
        name: "65,535 names",
        head: "township,T3N R2W\n",
        lines: Lines::Numbered("party,P", "\n"),
        times: 65_535,
        tail: "1,begin\n1,release,1,P65535,UNITED STATES,S,T3N R2W\n1,chain,T3N R2W\n",
        wanted: Ok("1,posted\n1,chain,1\n1,entry,0,1,release,P65535,UNITED STATES,S\nend,3\n"),
    },
    Limit {
        name: "a name more",
        head: "township,T3N R2W\n",
        lines: Lines::Numbered("party,P", "\n"),
        times: 65_536,
        tail: "",
        wanted: Err("fault,31,65537"),
    },
    Limit {
        name: "16,777,216 bytes",
        head: "1,begin\n1,abort\n",
        lines: Lines::Same("\n\n\n\n\n\n\n\n\n\n\n\n\n\n\n\n"),
        times: 1_048_575,
        tail: "",
        wanted: Ok("1,began\n1,aborted\nend,2\n"),
    },
    Limit {
        name: "a byte more",
        head: "1,begin\n1,abort\n",
        lines: Lines::Same("\n\n\n\n\n\n\n\n\n\n\n\n\n\n\n\n"),
        times: 1_048_575,
        tail: "\n",
        wanted: Err("fault,32"),
    },
];

fn add_line(script: &mut String, lines: Lines, number: u32) -> Result<(), AllocError> {
    match lines {
        Lines::Same(text) => script.push_str(text),
        Lines::Numbered(before, after) => write!(script, "{before}{number}{after}"),
    }
}

fn add_script(script: &mut String, limit: &Limit) -> Result<(), AllocError> {
    script.push_str(limit.head)?;
    for number in 1..=limit.times {
        add_line(script, limit.lines, number)?;
    }
    script.push_str(limit.tail)
}

/// The script of a limit.
fn script_of(rt: &impl Abort, alloc: Global, limit: &Limit) -> String {
    let mut script = String::new(alloc);
    add_script(&mut script, limit).expect(rt, "there is memory");
    script
}

/// Whether a script gives what is wanted.
fn ends_so(rt: &impl Abort, alloc: Global, script: &str, wanted: Result<&str, &str>) -> bool {
    match (report_of(alloc, script.as_bytes()), wanted) {
        (Ok(report), Ok(end)) => report.ends_with(end.as_bytes()),
        (Err(fault), Err(line)) => is_told(rt, alloc, fault, line),
        _ => false,
    }
}

/// A limit's script gives what is wanted.
fn assert_kept(rt: &impl Abort, alloc: Global, limit: &Limit) {
    let script = script_of(rt, alloc, limit);
    let is_so = ends_so(rt, alloc, script.as_str(), limit.wanted);
    must(rt, is_so, limit.name);
}

pub fn assert_all_kept(rt: &impl Abort, alloc: Global, limits: &[Limit]) {
    for limit in limits {
        assert_kept(rt, alloc, limit);
    }
}
