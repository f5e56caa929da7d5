//! Runs lists of calls whose answers have to be the same whichever growth is refused. A call that wants memory is made again at
//! once, and standard error tells how many there were; `bench/refuse_growths.py` refuses each growth in turn. A word names one
//! list; without a word all are run.
//!
//! - `desk`, `desk_aborts`: two examiners overlap at a desk, and then both commit, or both abort.
//! - `desk_alone`: an examiner's asks at a desk, each a transaction of its own.
//! - `office`, `office_aborts`: an examiner of an office commits and the write is read back, or aborts and is swept.
//! - `views`: a viewer of an office is asked for all that it shows, after each of two commits.
//! - `work`: two scripts are run by threads, of which one may end for want of memory.
//! - `run`: a script is run from its bytes to those of its report, or nothing is written.
#![tactic(auto)]

mod alone;
mod asker;
mod at_desk;
mod at_office;
mod crew;
mod deeds;
mod parcels;
mod script;
mod telling;
mod viewing;
mod wanted;

use anyhow::{Result, bail};
use at_desk::Ending;
use at_office::{Day, Work};
use std::env;
use std::sync::Wait;
use std::thread::Threads;
use wanted::Wanted;

// A list of calls.
#[derive(Clone, Copy)]
enum List {
    Desk(Ending),
    DeskAlone,
    Office(Day),
    Work,
    Run,
}

impl List {
    fn all() -> [List; 8] {
        [
            List::Desk(Ending::Commits),
            List::Desk(Ending::Aborts),
            List::DeskAlone,
            List::Office(Day::ReadsBack),
            List::Office(Day::Aborts),
            List::Office(Day::Views),
            List::Work,
            List::Run,
        ]
    }

    fn word(self) -> &'static str {
        match self {
            List::Desk(Ending::Commits) => "desk",
            List::Desk(Ending::Aborts) => "desk_aborts",
            List::DeskAlone => "desk_alone",
            List::Office(Day::ReadsBack) => "office",
            List::Office(Day::Aborts) => "office_aborts",
            List::Office(Day::Views) => "views",
            List::Work => "work",
            List::Run => "run",
        }
    }

    // The list that a word names.
    fn named(word: &str) -> Option<List> {
        for list in List::all() {
            if list.word() == word {
                return Some(list);
            }
        }
        None
    }
}

// What is asked for.
#[derive(Clone, Copy)]
enum Asked {
    All,
    One(List),
    Unknown,
}

// What the first word asks for.
fn of_first_word(rt: &HostRuntime) -> Result<Asked> {
    for word in env::args(rt)?.skip(1) {
        return Ok(match List::named(word.as_str()) {
            Some(list) => Asked::One(list),
            None => Asked::Unknown,
        });
    }
    Ok(Asked::All)
}

fn tell<R: Threads + Wait + Sync + Print + AllocGlobal>(
    rt: &R,
    list: List,
    wanted: &mut Wanted,
) -> Result<()> {
    println!(rt; "{}:", list.word())?;
    match list {
        List::Desk(ending) => at_desk::tell(rt, rt.alloc(), ending, wanted),
        List::DeskAlone => alone::tell(rt, rt.alloc(), wanted),
        List::Office(day) => at_office::tell(rt, rt.alloc(), Work::Day(day), wanted),
        List::Work => at_office::tell(rt, rt.alloc(), Work::Scripts, wanted),
        List::Run => script::tell(rt, rt.alloc(), wanted),
    }
}

fn tell_all<R: Threads + Wait + Sync + Print + AllocGlobal>(
    rt: &R,
    wanted: &mut Wanted,
) -> Result<()> {
    for list in List::all() {
        tell(rt, list, wanted)?;
    }
    Ok(())
}

fn main(rt: HostRuntime) -> Result<()> {
    let mut wanted = Wanted::new();
    let asked = match of_first_word(&rt) {
        Ok(asked) => asked,
        Err(_) => {
            wanted.count();
            of_first_word(&rt)?
        }
    };
    match asked {
        Asked::All => tell_all(&rt, &mut wanted)?,
        Asked::One(list) => tell(&rt, list, &mut wanted)?,
        Asked::Unknown => bail!("there is no such list"),
    }
    eprintln!(rt; "growths: {} wanted memory", wanted.calls())?;
    Ok(())
}
