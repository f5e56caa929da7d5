//! The program `titleplant`: takes the words of the command line, opens standard input, output and error, and ends with the
//! status of what the words ask for.
#![tactic(auto)]

use std::io::IsTerminal;
use std::process::ExitCode;
use std::{env, io};
use title_advice::{Aside, Audience, Heard, Listened, Progress, Spoken};
use title_device::{Device, Sink};
use title_file::Drawer;
use title_program::{WordsFault, explain, is_desk, obey_words_onto, refuse_untaken, tell_cut};

/// What stands in a plant's file that is made: its head line, and a closed gate.
const NEW_PLANT: &[u8] = b"titleplant plant 1\n-";

fn words(rt: &HostRuntime) -> Result<Vec<String>, WordsFault> {
    let words = env::args(rt)?.skip(1).collect(rt.alloc())?;
    Ok(words)
}

// Who is told beside the answers, of the words that were taken, where this is shown to anybody.
fn audience(asked: &Result<Vec<String>, WordsFault>, is_shown: bool) -> Audience {
    match asked {
        Ok(words) if is_shown && is_desk(words.as_slice()) => Audience::at_desk(words.as_slice()),
        _ => Audience::Nobody,
    }
}

fn main(rt: HostRuntime) -> ExitCode {
    let asked = words(&rt);
    let is_shown = rt.stderr().is_terminal();
    let aside = Aside::new(rt.alloc(), audience(&asked, is_shown));
    let given = Listened::new(Device::new(rt.stdin()), &aside);
    let mut source = Heard::new(rt.alloc(), given);
    let mut sink = Spoken::new(
        Device::new(io::writer(&rt)),
        Device::new(rt.stderr()),
        &aside,
    );
    let mut errors = Device::new(rt.stderr());
    let mut progress = Progress::new(rt.stderr(), is_shown);
    let status = match asked {
        Ok(words) => {
            let words = words.as_slice();
            let mut drawer = Drawer::new(&rt, NEW_PLANT);
            let ending = obey_words_onto(
                &rt,
                rt.alloc(),
                words,
                &mut source,
                &mut sink,
                &mut errors,
                &mut progress,
                &mut drawer,
            );
            progress.wipe();
            // (That the output has failed is told already, in one line. A script may count all the same.)
            if !sink.failed() || ending.counts_untold() {
                tell_cut(
                    rt.alloc(),
                    words,
                    ending.cut,
                    drawer.has_kept(),
                    &mut errors,
                );
                explain(rt.alloc(), words, ending, &source, &mut errors);
            }
            ending.status
        }
        Err(why) => refuse_untaken(why, &mut sink, &mut errors).status,
    };
    ExitCode::from(status)
}
