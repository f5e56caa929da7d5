//! What a person is told on the errors where a command failed, by why it ended.

mod plant;

ghost use Rattle.std.specs.{Prelude.{◌≡◌, ℕ, List, None}, Io.KnownBytes.{Appends}};

use crate::ending::{Ending, Why};
use crate::explaining::plant::{
    cut_advice, lasting_advice, looking_advice, opening_advice, telling_advice,
};
use std::alloc::{AllocError, Global};
use title_advice::{Heard, Script, look_advice, pointed_out, script_advice};
use title_aliquot::DescFault;
use title_counter::CounterFault;
use title_day::OfficeFault;
use title_device::{SCRIPT_LIMIT, Sink, write_all};
use title_disk::OpenFault;
use title_kept_office::KeptOfficeFault;
use title_lasting::LastingFault;
use title_plan::{Schedule, ScriptFault};
use title_script::RunFault;

const OUT_OF_MEMORY: &str = "error: out of memory\n";

// What is wrong with a script whose bytes were kept, or weren't.
fn row_advice(
    alloc: Global,
    schedule: Schedule,
    is_kept: bool,
    fault: ScriptFault,
    kept: Option<&[u8]>,
) -> Result<String, AllocError> {
    let Some(bytes) = kept else {
        return format!(in alloc; "{fault}\n");
    };
    let script = Script {
        alloc,
        schedule,
        is_kept,
        bytes,
    };
    let said = script_advice(&script, fault)?;
    format!(in alloc; "{said}\n")
}

// Why a script couldn't be read.
fn read_advice(alloc: Global, kept: Option<&[u8]>) -> Result<String, AllocError> {
    match kept {
        Some(bytes) if bytes.len() <= SCRIPT_LIMIT => {
            String::from_str(alloc, "error: the script on standard input can't be read\n")
        }
        _ => format!(in alloc; "error: a script has at most {SCRIPT_LIMIT} bytes\n"),
    }
}

// What is wrong with a run. That the report can't be written has been told before.
fn run_advice(
    alloc: Global,
    schedule: Schedule,
    fault: RunFault,
    kept: Option<&[u8]>,
) -> Result<String, AllocError> {
    match fault {
        RunFault::Row(n) => row_advice(alloc, schedule, false, ScriptFault::Row(n), kept),
        RunFault::Order(n) => row_advice(alloc, schedule, false, ScriptFault::Order(n), kept),
        RunFault::Party(n) => row_advice(alloc, schedule, false, ScriptFault::Party(n), kept),
        RunFault::Read => read_advice(alloc, kept),
        RunFault::Write => Ok(String::new(alloc)),
        RunFault::Memory => String::from_str(alloc, OUT_OF_MEMORY),
    }
}

fn office_advice(
    alloc: Global,
    examiners: u32,
    fault: OfficeFault,
    kept: Option<&[u8]>,
) -> Result<String, AllocError> {
    match fault {
        OfficeFault::Run(why) => run_advice(alloc, Schedule::Office(examiners), why, kept),
        OfficeFault::Worker(why) => {
            format!(in alloc; "error: the work of an examiner ended early: {why}\n")
        }
        OfficeFault::Unsettled(why) => {
            format!(in alloc; "error: the office can't be settled: {why}\n")
        }
    }
}

// Why rows at a desk weren't attended to their end.
fn desk_advice(alloc: Global, fault: CounterFault) -> Result<String, AllocError> {
    match fault {
        CounterFault::Read => {
            String::from_str(alloc, "error: the rows on standard input can't be read\n")
        }
        CounterFault::Write => Ok(String::new(alloc)),
        CounterFault::Memory => String::from_str(alloc, OUT_OF_MEMORY),
    }
}

// What is wrong with a script on top of a plant's file, or with the file.
fn kept_advice(
    alloc: Global,
    schedule: Schedule,
    path: &str,
    fault: LastingFault,
    kept: Option<&[u8]>,
) -> Result<String, AllocError> {
    match fault {
        LastingFault::Row(n) => row_advice(alloc, schedule, true, ScriptFault::Row(n), kept),
        LastingFault::Order(n) => row_advice(alloc, schedule, true, ScriptFault::Order(n), kept),
        LastingFault::Party(n) => row_advice(alloc, schedule, true, ScriptFault::Party(n), kept),
        LastingFault::Read => read_advice(alloc, kept),
        _ => lasting_advice(alloc, path, fault),
    }
}

// What is wrong with an office's script on top of a plant's file, or with the file.
fn kept_office_advice(
    alloc: Global,
    examiners: u32,
    path: &str,
    fault: KeptOfficeFault,
    kept: Option<&[u8]>,
) -> Result<String, AllocError> {
    match fault {
        KeptOfficeFault::Kept(why) => {
            kept_advice(alloc, Schedule::Office(examiners), path, why, kept)
        }
        KeptOfficeFault::Worker(why) => {
            office_advice(alloc, examiners, OfficeFault::Worker(why), kept)
        }
        KeptOfficeFault::Unsettled(why) => {
            office_advice(alloc, examiners, OfficeFault::Unsettled(why), kept)
        }
    }
}

// Why rows at a desk on top of a plant's file weren't attended to their end.
fn kept_desk_advice(alloc: Global, path: &str, fault: LastingFault) -> Result<String, AllocError> {
    match fault {
        LastingFault::Read => desk_advice(alloc, CounterFault::Read),
        LastingFault::Write => desk_advice(alloc, CounterFault::Write),
        LastingFault::Disk => String::from_str(
            alloc,
            "error: the disk failed at the plant's file, or is full: what was answered stands, and nothing else\n",
        ),
        LastingFault::Unsure => String::from_str(
            alloc,
            "error: the disk failed at the end of the plant's file: what was answered stands, and the rows behind it count all or none; \
            see the last place by titleplant check\n",
        ),
        _ => lasting_advice(alloc, path, fault),
    }
}

// What is wrong with the n-th row of a script that looks at a plant's file, whose bytes were kept, or weren't.
fn look_row_advice(alloc: Global, n: u64, kept: Option<&[u8]>) -> Result<String, AllocError> {
    let Some(bytes) = kept else {
        return row_advice(alloc, Schedule::Serial, true, ScriptFault::Row(n), kept);
    };
    let script = Script {
        alloc,
        schedule: Schedule::Serial,
        is_kept: true,
        bytes,
    };
    let said = look_advice(&script, n)?;
    format!(in alloc; "{said}\n")
}

// What is wrong with a script that looks at a plant's file, or with the file.
fn look_script_advice(
    alloc: Global,
    path: &str,
    fault: LastingFault,
    kept: Option<&[u8]>,
) -> Result<String, AllocError> {
    match fault {
        LastingFault::Row(n) => look_row_advice(alloc, n, kept),
        LastingFault::Disk => looking_advice(alloc, path, OpenFault::Unopened),
        LastingFault::Write => Ok(String::new(alloc)),
        _ => kept_advice(alloc, Schedule::Serial, path, fault, kept),
    }
}

// Why rows at a desk that looks at a plant's file weren't attended to their end.
fn look_desk_advice(alloc: Global, path: &str, fault: LastingFault) -> Result<String, AllocError> {
    match fault {
        LastingFault::Disk => looking_advice(alloc, path, OpenFault::Unopened),
        _ => kept_desk_advice(alloc, path, fault),
    }
}

// The word that follows the command `tract` or `check`: the first that is no flag, or that stands behind the mark which ends options.
fn text_in(words: &[String]) -> &str {
    let mut has_mark = false;
    for word in words.iter().skip(1) {
        let is_mark = word.as_str() == "--";
        if has_mark || !is_mark && word.as_str() != "--script" {
            return word.as_str();
        }
        has_mark = has_mark || is_mark;
    }
    ""
}

// Whether this is the command.
fn is_command(words: &[String], command: &str) -> bool {
    match words.first() {
        Some(word) => word.as_str() == command,
        None => false,
    }
}

/// Whether the command is `desk`.
pub fn is_desk(words: &[String]) -> bool {
    is_command(words, "desk")
}

// The name of the plant's file that `--plant` names.
fn plant_in(words: &[String]) -> &str {
    let mut is_next = false;
    for word in words {
        if is_next {
            return word.as_str();
        }
        if let Some(path) = word.strip_prefix("--plant=") {
            return path;
        }
        is_next = word.as_str() == "--plant";
    }
    ""
}

// Whether the words ask for a look.
fn is_look(words: &[String]) -> bool {
    for word in words {
        if word.as_str() == "--look" {
            return true;
        }
    }
    false
}

// Why a plant's file isn't opened, or isn't looked at.
fn unopened_advice(
    alloc: Global,
    words: &[String],
    fault: OpenFault,
) -> Result<String, AllocError> {
    if is_command(words, "check") {
        looking_advice(alloc, text_in(words), fault)
    } else if is_look(words) {
        looking_advice(alloc, plant_in(words), fault)
    } else {
        opening_advice(alloc, plant_in(words), fault)
    }
}

// What is wrong, in lines for a person.
fn advice(
    alloc: Global,
    words: &[String],
    why: Why,
    kept: Option<&[u8]>,
) -> Result<String, AllocError> {
    match why {
        Why::Unopened(fault) => unopened_advice(alloc, words, fault),
        Why::Kept(schedule, fault) => kept_advice(alloc, schedule, plant_in(words), fault, kept),
        Why::KeptDesk(fault) => kept_desk_advice(alloc, plant_in(words), fault),
        Why::KeptOffice(examiners, fault) => {
            kept_office_advice(alloc, examiners, plant_in(words), fault, kept)
        }
        Why::Look(fault) => look_script_advice(alloc, plant_in(words), fault, kept),
        Why::LookDesk(fault) => look_desk_advice(alloc, plant_in(words), fault),
        Why::Untold(fault) => telling_advice(alloc, text_in(words), fault),
        Why::Run(schedule, fault) => run_advice(alloc, schedule, fault, kept),
        Why::Office(examiners, fault) => office_advice(alloc, examiners, fault, kept),
        Why::Desk(fault) => desk_advice(alloc, fault),
        Why::Description(DescFault::Memory) | Why::Memory => String::from_str(alloc, OUT_OF_MEMORY),
        Why::Description(fault) => pointed_out(alloc, text_in(words), fault),
    }
}

fn tell<E: Sink>(errors: &mut E, text: &str)
    ensures told { (told : List ℕ) × Appends (E.taken errors.old) (E.taken errors.new) told }
{
    if !errors.failed() {
        let _told = write_all(errors, text.as_bytes());
    }
}

/// Tells on the errors how many bytes at the end of a plant's file were cut off, and whether they are kept beside. Nothing where none
/// were.
pub fn tell_cut<E: Sink>(alloc: Global, words: &[String], cut: usize, is_kept: bool, errors: &mut E)
    ensures quiet { cut ≡ 0 → errors.new ≡ errors.old }
    ensures told { (told : List ℕ) × Appends (E.taken errors.old) (E.taken errors.new) told }
{
    if cut > 0 {
        match cut_advice(alloc, plant_in(words), cut, is_kept) {
            Ok(text) => tell(errors, text.as_str()),
            Err(_) => tell(errors, OUT_OF_MEMORY),
        }
    }
}

/// Tells on the errors, in plain words, why a command failed: by the words of the command line and by what was read. Nothing where it
/// didn't fail.
pub fn explain<R, E: Sink>(
    alloc: Global,
    words: &[String],
    ending: Ending,
    source: &Heard<R>,
    errors: &mut E,
)
    ensures quiet { ending.why ≡ None → errors.new ≡ errors.old }
    ensures told { (told : List ℕ) × Appends (E.taken errors.old) (E.taken errors.new) told }
{
    let Some(why) = ending.why else {
        return;
    };
    match advice(alloc, words, why, source.kept()) {
        Ok(text) => tell(errors, text.as_str()),
        Err(_) => tell(errors, OUT_OF_MEMORY),
    }
}
