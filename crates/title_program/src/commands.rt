//! From the words of the command line to the status of the program.

ghost use Rattle.std.specs.{Prelude.{◌≡◌, false, map, IfOk, None, Result}, String.{string_bytes}};
ghost use Rattle.title_command.specs.{CommandLine.{IsInRange}, declared.choice.{Line.{Line}, LineFault.{LineFault}}};
ghost use Rattle.title_program.specs.{Endings.{IsQuiet}, ObeyingOnto.{Asks, IsAnsweredOnto, IsObeyedOnto, asked_by, schedule_of}};
ghost use Rattle.title_program.specs.Obeying.{Complains, IsAnswered, IsAsked, IsObeyed, PrintsTract, Reads, ReadsFor, Tells};
ghost use Rattle.title_program.specs.Obeying.{Turns, TurnsFor};

use crate::checking::check;
use crate::desk_keeping::serve_kept_desk;
use crate::desk_serving::serve_desk;
use crate::ending::{Ending, Why};
use crate::keeping::{refuse_file, serve_kept};
use crate::look_serving::{serve_look, serve_look_desk};
use crate::office_keeping::serve_kept_office;
use crate::office_serving::serve_office;
use crate::printing::{complain, print, tell_memory};
use crate::refusal::refuse;
use crate::serving::serve;
use crate::tract::tract_printout;
use std::alloc::{AllocError, Global};
use std::sync::Wait;
use std::thread::Threads;
use title_aliquot::DescFault;
use title_command::{Line, LineFault, Work, line};
use title_device::{Sink, Source};
use title_disk::{Cabinet, OpenFault};
use title_script::{Schedule, Watch};

/// Prints the nodes of the tract that a text describes and its acres, or the line of its fault.
pub fn print_tract<W: Sink>(alloc: Global, text: &str, sink: &mut W) -> Ending
    ensures printed { PrintsTract text.now (W.taken sink.old) (W.taken sink.new) (W.has_failed sink.new) result.status }
    ensures quiet { IsQuiet result }
    ensures uncut { result.cut ≡ 0 }
{
    match tract_printout(alloc, text) {
        Ok(printout) => {
            let status = print(sink, printout.text.as_bytes(), printout.status);
            Ending::told(status, why_of(printout.why))
        }
        Err(_) => Ending::told(tell_memory(sink), Some(Why::Memory)),
    }
}

// Why `tract` failed, by the fault of its text.
fn why_of(fault: Option<DescFault>) -> Option<Why>
    ensures none { fault ≡ None → result ≡ None }
{
    match fault {
        Some(fault) => Some(Why::Description(fault)),
        None => None,
    }
}

// Does what a command asks for.
fn carry_out<T: Threads + Wait + Sync, R: Source, W: Sink, V: Watch>(
    rt: &T,
    alloc: Global,
    line: Line,
    source: &mut R,
    sink: &mut W,
    watch: &mut V,
) -> Ending
    requires ranges { IsInRange line }
    requires source_works { R.has_failed source.old ≡ false }
    requires sink_works { W.has_failed sink.old ≡ false }
    ensures obeyed { IsObeyed line.entry (R.left source.old) (R.left source.new) (R.has_failed source.new) (W.has_failed sink.new)
        (W.taken sink.old) (W.taken sink.new) result.status }
    ensures read { ReadsFor line.entry (R.left source.old) (R.left source.new) result.status }
    ensures turns { TurnsFor line.entry (R.turns source.old) (R.turns source.new) }
    ensures quiet { IsQuiet result }
    ensures uncut { result.cut ≡ 0 }
{
    match line {
        Line::Run => serve(alloc, Schedule::Interleaved, source, sink, watch),
        Line::Alone => serve(alloc, Schedule::Serial, source, sink, watch),
        Line::Office { examiners, tries } => {
            serve_office(rt, alloc, examiners, tries, source, sink)
        }
        Line::Desk => serve_desk(alloc, source, sink),
        Line::Tract(text) => print_tract(alloc, text, sink),
        Line::Kept { .. }
        | Line::KeptDesk { .. }
        | Line::KeptOffice { .. }
        | Line::Look { .. }
        | Line::LookDesk { .. }
        | Line::Check { .. } => refuse_file(alloc, OpenFault::Unopened, sink),
    }
}

/// Does what a command asks for, an office by threads: from the source to the sink, and to the errors where the sink has failed.
/// Where there is no cabinet, no plant's file is opened.
pub fn obey<T: Threads + Wait + Sync, R: Source, W: Sink, E: Sink, V: Watch>(
    rt: &T,
    alloc: Global,
    line: Line,
    source: &mut R,
    sink: &mut W,
    errors: &mut E,
    watch: &mut V,
) -> Ending
    requires ranges { IsInRange line }
    requires source_works { R.has_failed source.old ≡ false }
    requires sink_works { W.has_failed sink.old ≡ false }
    ensures obeyed { IsObeyed line.entry (R.left source.old) (R.left source.new) (R.has_failed source.new) (W.has_failed sink.new)
        (W.taken sink.old) (W.taken sink.new) result.status }
    ensures read { ReadsFor line.entry (R.left source.old) (R.left source.new) result.status }
    ensures turns { TurnsFor line.entry (R.turns source.old) (R.turns source.new) }
    ensures quiet { IsQuiet result }
    ensures uncut { result.cut ≡ 0 }
    ensures told { Complains (W.has_failed sink.new) (E.taken errors.old) (E.taken errors.new) }
{
    let ending = carry_out(rt, alloc, line, source, sink, watch);
    complain(sink, errors);
    ending
}

// The words as texts.
fn borrowed<'a>(alloc: Global, words: &'a [String]) -> Result<Vec<&'a str>, AllocError>
    ensures texts { IfOk result (λ texts. map (λ text. text.now) texts.items ≡ map string_bytes words.entry.now) }
{
    let mut texts = Vec::new(alloc);
    for word in words {
        texts.push(word.as_str())?;
    }
    Ok(texts)
}

/// Does what the words after the program's name ask for, and answers the status with which the program ends, and why where that's
/// a failure. There is no cabinet, so no plant's file is opened.
pub fn obey_words<T: Threads + Wait + Sync, R: Source, W: Sink, E: Sink, V: Watch>(
    rt: &T,
    alloc: Global,
    words: &[String],
    source: &mut R,
    sink: &mut W,
    errors: &mut E,
    watch: &mut V,
) -> Ending
    requires source_works { R.has_failed source.old ≡ false }
    requires sink_works { W.has_failed sink.old ≡ false }
    ensures answered { (asked : Result Line LineFault) × IsAsked (map string_bytes words.now) asked
        × IsAnswered asked (R.left source.old) (R.left source.new) (R.has_failed source.new) (W.has_failed sink.new)
        (W.taken sink.old) (W.taken sink.new) result.status
        × Reads asked (R.left source.old) (R.left source.new) result.status
        × Turns asked (R.turns source.old) (R.turns source.new)
        × Tells asked (W.has_failed sink.new) (E.taken errors.old) (E.taken errors.new) }
    ensures quiet { IsQuiet result }
    ensures uncut { result.cut ≡ 0 }
{
    let Ok(texts) = borrowed(alloc, words) else {
        return refuse(alloc, LineFault::Memory, sink, errors);
    };
    match line(alloc, texts.as_slice()) {
        Ok(line) => obey(rt, alloc, line, source, sink, errors, watch),
        Err(why) => refuse(alloc, why, sink, errors),
    }
}

// How the transactions of a script come that is kept.
fn schedule_of(work: Work) -> Schedule
    ensures schedule { result ≡ schedule_of work }
{
    match work {
        Work::Run => Schedule::Interleaved,
        Work::Alone => Schedule::Serial,
    }
}

// Does what a command asks for, with a cabinet in which plants' files are.
fn carry_out_onto<T: Threads + Wait + Sync, R: Source, W: Sink, V: Watch, K: Cabinet>(
    rt: &T,
    alloc: Global,
    line: Line,
    source: &mut R,
    sink: &mut W,
    watch: &mut V,
    cabinet: &mut K,
) -> Ending
    requires ranges { IsInRange line }
    requires source_works { R.has_failed source.old ≡ false }
    requires sink_works { W.has_failed sink.old ≡ false }
    ensures obeyed { IsObeyedOnto K.File.seen K.File.may_leave K.File.moment K.File.left_since K.File.has_failed K.name
        K.Shared.seen K.Shared.may_leave K.Shared.moment K.Shared.left_since K.Shared.has_failed K.shared_name
        K.refuses K.shows line.entry
        (R.left source.old) (R.left source.new) (R.turns source.old) (R.turns source.new) (W.taken sink.old) (W.taken sink.new)
        (R.has_failed source.new) (W.has_failed sink.new) result.cut result.status }
    ensures asked { K.asked cabinet.new ≡ asked_by line.entry (K.asked cabinet.old) }
    ensures turns { TurnsFor line.entry (R.turns source.old) (R.turns source.new) }
    ensures quiet { IsQuiet result }
{
    match line {
        Line::Kept { plant, after, work } => {
            let schedule = schedule_of(work);
            serve_kept(alloc, schedule, after, plant, cabinet, source, sink, watch)
        }
        Line::KeptDesk { plant } => serve_kept_desk(alloc, plant, cabinet, source, sink),
        Line::KeptOffice {
            plant,
            after,
            examiners,
            tries,
        } => serve_kept_office(
            rt, alloc, examiners, tries, after, plant, cabinet, source, sink,
        ),
        Line::Look { plant, after } => {
            serve_look(alloc, after, plant, cabinet, source, sink, watch)
        }
        Line::LookDesk { plant } => serve_look_desk(alloc, plant, cabinet, source, sink),
        Line::Check { file, as_script } => check(alloc, file, as_script, cabinet, sink),
        Line::Run | Line::Alone | Line::Office { .. } | Line::Desk | Line::Tract(_) => {
            carry_out(rt, alloc, line, source, sink, watch)
        }
    }
}

/// Does what a command asks for, with a cabinet in which plants' files are.
pub fn obey_onto<T: Threads + Wait + Sync, R: Source, W: Sink, E: Sink, V: Watch, K: Cabinet>(
    rt: &T,
    alloc: Global,
    line: Line,
    source: &mut R,
    sink: &mut W,
    errors: &mut E,
    watch: &mut V,
    cabinet: &mut K,
) -> Ending
    requires ranges { IsInRange line }
    requires source_works { R.has_failed source.old ≡ false }
    requires sink_works { W.has_failed sink.old ≡ false }
    ensures obeyed { IsObeyedOnto K.File.seen K.File.may_leave K.File.moment K.File.left_since K.File.has_failed K.name
        K.Shared.seen K.Shared.may_leave K.Shared.moment K.Shared.left_since K.Shared.has_failed K.shared_name
        K.refuses K.shows line.entry
        (R.left source.old) (R.left source.new) (R.turns source.old) (R.turns source.new) (W.taken sink.old) (W.taken sink.new)
        (R.has_failed source.new) (W.has_failed sink.new) result.cut result.status }
    ensures asked { K.asked cabinet.new ≡ asked_by line.entry (K.asked cabinet.old) }
    ensures turns { TurnsFor line.entry (R.turns source.old) (R.turns source.new) }
    ensures quiet { IsQuiet result }
    ensures told { Complains (W.has_failed sink.new) (E.taken errors.old) (E.taken errors.new) }
{
    let ending = carry_out_onto(rt, alloc, line, source, sink, watch, cabinet);
    complain(sink, errors);
    ending
}

/// Does what the words after the program's name ask for, with a cabinet in which plants' files are, and answers the status with which
/// the program ends, why where that's a failure, and how many bytes at the end of a plant's file were cut off.
pub fn obey_words_onto<T: Threads + Wait + Sync, R: Source, W: Sink, E: Sink, V: Watch, K: Cabinet>(
    rt: &T,
    alloc: Global,
    words: &[String],
    source: &mut R,
    sink: &mut W,
    errors: &mut E,
    watch: &mut V,
    cabinet: &mut K,
) -> Ending
    requires source_works { R.has_failed source.old ≡ false }
    requires sink_works { W.has_failed sink.old ≡ false }
    ensures answered { (asked : Result Line LineFault) × IsAsked (map string_bytes words.now) asked
        × IsAnsweredOnto K.File.seen K.File.may_leave K.File.moment K.File.left_since K.File.has_failed K.name
        K.Shared.seen K.Shared.may_leave K.Shared.moment K.Shared.left_since K.Shared.has_failed K.shared_name
        K.refuses K.shows asked
        (R.left source.old) (R.left source.new) (R.turns source.old) (R.turns source.new) (W.taken sink.old) (W.taken sink.new)
        (R.has_failed source.new) (W.has_failed sink.new) result.cut result.status
        × Turns asked (R.turns source.old) (R.turns source.new)
        × Tells asked (W.has_failed sink.new) (E.taken errors.old) (E.taken errors.new)
        × Asks asked (K.asked cabinet.old) (K.asked cabinet.new) }
    ensures quiet { IsQuiet result }
{
    let Ok(texts) = borrowed(alloc, words) else {
        return refuse(alloc, LineFault::Memory, sink, errors);
    };
    match line(alloc, texts.as_slice()) {
        Ok(line) => obey_onto(rt, alloc, line, source, sink, errors, watch, cabinet),
        Err(why) => refuse(alloc, why, sink, errors),
    }
}
