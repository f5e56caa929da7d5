//! Command lines, run through the functions that the program calls.

use crate::case::Case;
use std::alloc::Global;
use std::sync::Wait;
use std::thread::Threads;
use title_advice::{Aside, Audience, Heard, Listened, Spoken};
use title_device::Device;
use title_program::{Unwatched, explain, is_desk, obey_words, tell_cut};

/// What is printed and the status after it, what is told beside the answers of a desk, and what is told on the errors at the end.
pub struct Came {
    pub stdout: Vec<u8>,
    pub status: u8,
    beside: Vec<u8>,
    errors: Vec<u8>,
}

// By hand, so that whoever lets one go sees one call.
impl Drop for Came {
    fn drop(self) {
        let Came {
            stdout,
            status: _,
            beside,
            errors,
        } = self;
        drop(stdout);
        drop(beside);
        drop(errors);
    }
}

impl Came {
    fn of(
        sink: Spoken<'_, Device<Vec<u8>>, Device<Vec<u8>>>,
        errors: Device<Vec<u8>>,
        status: u8,
    ) -> Came {
        let (sink, beside) = sink.into_parts();
        Came {
            stdout: sink.into_inner(),
            status,
            beside: beside.into_inner(),
            errors: errors.into_inner(),
        }
    }

    /// What is told: beside the answers of a desk, or else at the end.
    pub fn told(&self) -> &[u8] {
        if self.beside.is_empty() {
            self.errors.as_slice()
        } else {
            self.beside.as_slice()
        }
    }
}

// Who is told beside the answers.
fn audience(words: &[String]) -> Audience {
    if is_desk(words) {
        Audience::at_desk(words)
    } else {
        Audience::Nobody
    }
}

// Does what a command line asks for, and has what is told beside it.
fn run_beside<'a, R: AllocGlobal + Threads + Wait + Sync>(
    rt: &R,
    words: &[String],
    stdin: &'a [u8],
    aside: &'a Aside,
) -> Came {
    let alloc = rt.alloc();
    let mut source = Heard::new(alloc, Listened::new(Device::new(stdin), aside));
    let beside = Device::new(Vec::new(alloc));
    let mut sink = Spoken::new(Device::new(Vec::new(alloc)), beside, aside);
    let mut errors = Device::new(Vec::new(alloc));
    let ending = obey_words(
        rt,
        alloc,
        words,
        &mut source,
        &mut sink,
        &mut errors,
        &mut Unwatched,
    );
    explain(alloc, words, ending, &source, &mut errors);
    Came::of(sink, errors, ending.status.code())
}

/// Does what a command line asks for, as the program does at a terminal.
pub fn run<R: AllocGlobal + Threads + Wait + Sync>(rt: &R, case: &Case) -> Came {
    let words = case.words.as_slice();
    let aside = Aside::new(rt.alloc(), audience(words));
    run_beside(rt, words, case.stdin.as_slice(), &aside)
}

/// What is told of so many bytes that were cut off the end of a plant's file, which are kept beside it or lost.
pub fn told_of_cut(alloc: Global, words: &[String], cut: usize, is_kept: bool) -> Vec<u8> {
    let mut errors = Device::new(Vec::new(alloc));
    tell_cut(alloc, words, cut, is_kept, &mut errors);
    errors.into_inner()
}
