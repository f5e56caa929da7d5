//! The program `titleplat`: reads a report on standard input and draws a sheet of it, as SVG, on standard output.
#![tactic(auto)]

mod asked;
mod serving;

use asked::read_words;
use serving::{refuse, serve};
use std::process::ExitCode;
use std::{env, io};
use title_device::Device;

fn words(rt: &HostRuntime) -> io::Result<Vec<String>> {
    let words = env::args(rt)?.skip(1).collect(rt.alloc())?;
    Ok(words)
}

fn main(rt: HostRuntime) -> ExitCode {
    let mut source = Device::new(rt.stdin());
    let mut sink = Device::new(io::writer(&rt));
    let mut errors = Device::new(rt.stderr());
    let Ok(words) = words(&rt) else {
        return ExitCode::from(refuse(&mut errors));
    };
    let status = match read_words(words.as_slice()) {
        Some(asked) => serve(rt.alloc(), asked, &mut source, &mut sink, &mut errors),
        None => refuse(&mut errors),
    };
    ExitCode::from(status)
}
