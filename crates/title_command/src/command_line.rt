//! The words of a command line, read by `clap`.

ghost use Rattle.std.specs.Prelude.{◌≡◌, IfErr, IfOk, IfSome, List, None, OnOk, Some, codes, map, true, []};
ghost use Rattle.clap.specs.{Faults.{fault_of}, Walk.{Row, Text}, Words.{found_of, is_simple_and_free, kind_of, rows_of, subcommand_of}};
ghost use Rattle.title_command.specs.CommandLine.{Explains, HasFlag, HasNumber, IsFaultFor, IsInRange, IsKeeping, IsLine, IsLineOf};
ghost use Rattle.title_command.specs.CommandLine.{IsLooked, IsPlantless, IsReadable, IsTaken, LacksPlant, MayHavePlace, command};
ghost use Rattle.title_command.specs.CommandLine.{most_examiners, most_tries, name_of};

use crate::choice::{Line, LineFault, Work};
use crate::program::{no_plant, program};
use clap::error::ErrorKind;
use clap::{ArgMatches, Error};
use std::alloc::Global;

fn fault_for(error: Error) -> LineFault
    ensures kind { IsFaultFor (kind_of error) result }
{
    match error.kind() {
        ErrorKind::OutOfMemory => LineFault::Memory,
        ErrorKind::DisplayHelp => LineFault::Help(error),
        _ => LineFault::Bad(error),
    }
}

// The line of a command that serves a script: one that keeps it where a plant is named. None where a place is expected and no plant is
// named.
fn read_work<'a>(work: Work, values: &ArgMatches<'a>) -> Option<Line<'a>>
    requires place { MayHavePlace (rows_of (found_of values.now)) }
    requires keeps { IsKeeping work (rows_of (found_of values.now)) }
    ensures line { IfSome result (IsLine (name_of work) (rows_of (found_of values.now))) }
    ensures lacks { result ≡ None → LacksPlant (Some (name_of work, rows_of (found_of values.now))) }
    ensures ranges { IfSome result IsInRange }
{
    let after = values.get_one::<u64>("after");
    match (values.get_str("plant"), after) {
        (Some(plant), after) => Some(Line::Kept { plant, after, work }),
        (None, None) => Some(unkept(work)),
        (None, Some(_)) => None,
    }
}

// The line of a command whose script isn't kept.
fn unkept<'a>(work: Work) -> Line<'a>
    ensures line { (rows : List Row) → IsPlantless rows → IsKeeping work rows → IsLine (name_of work) rows result }
    ensures ranges { IsInRange result }
{
    match work {
        Work::Run => Line::Run,
        Work::Alone => Line::Alone,
    }
}

// The line of an office: one that keeps its script where a plant is named. None where a place is expected and no plant is named.
fn read_office<'a>(values: &ArgMatches<'a>) -> Option<Line<'a>>
    requires examiners { HasNumber (codes "examiners") most_examiners (rows_of (found_of values.now)) }
    requires tries { HasNumber (codes "tries") most_tries (rows_of (found_of values.now)) }
    requires place { MayHavePlace (rows_of (found_of values.now)) }
    ensures line { IfSome result (IsLine (codes "office") (rows_of (found_of values.now))) }
    ensures lacks { result ≡ None → LacksPlant (Some (codes "office", rows_of (found_of values.now))) }
    ensures ranges { IfSome result IsInRange }
{
    let examiners_said = values.get_one::<u32>("examiners");
    let examiners = examiners_said.unwrap();
    let tries_said = values.get_one::<u32>("tries");
    let tries = tries_said.unwrap();
    let after = values.get_one::<u64>("after");
    match (values.get_str("plant"), after) {
        (Some(plant), after) => Some(Line::KeptOffice {
            plant,
            after,
            examiners,
            tries,
        }),
        (None, None) => Some(Line::Office { examiners, tries }),
        (None, Some(_place)) => None,
    }
}

// The line of a script that looks at a plant; none where no plant is named.
fn read_look<'a>(values: &ArgMatches<'a>) -> Option<Line<'a>>
    requires place { MayHavePlace (rows_of (found_of values.now)) }
    requires looks { IsLooked (rows_of (found_of values.now)) }
    ensures line { IfSome result (IsLine (codes "alone") (rows_of (found_of values.now))) }
    ensures lacks { result ≡ None → LacksPlant (Some (codes "alone", rows_of (found_of values.now))) }
    ensures ranges { IfSome result IsInRange }
{
    let after = values.get_one::<u64>("after");
    match values.get_str("plant") {
        Some(plant) => Some(Line::Look { plant, after }),
        None => None,
    }
}

// The line of a script of transactions that follow one another: one that looks at a plant where the words ask for that.
fn read_alone<'a>(values: &ArgMatches<'a>) -> Option<Line<'a>>
    requires place { MayHavePlace (rows_of (found_of values.now)) }
    requires flag { HasFlag (codes "look") (rows_of (found_of values.now)) }
    ensures line { IfSome result (IsLine (codes "alone") (rows_of (found_of values.now))) }
    ensures lacks { result ≡ None → LacksPlant (Some (codes "alone", rows_of (found_of values.now))) }
    ensures ranges { IfSome result IsInRange }
{
    let looks = values.get_flag("look");
    if looks {
        return read_look(values);
    }
    read_work(Work::Alone, values)
}

// The line of a desk that looks at a plant; none where no plant is named.
fn read_desk_look<'a>(values: &ArgMatches<'a>) -> Option<Line<'a>>
    requires looks { IsLooked (rows_of (found_of values.now)) }
    ensures line { IfSome result (IsLine (codes "desk") (rows_of (found_of values.now))) }
    ensures lacks { result ≡ None → LacksPlant (Some (codes "desk", rows_of (found_of values.now))) }
    ensures ranges { IfSome result IsInRange }
{
    match values.get_str("plant") {
        Some(plant) => Some(Line::LookDesk { plant }),
        None => None,
    }
}

// The line of a desk: on top of a plant's file where one is named, and one that looks at it where the words ask for that.
fn read_desk<'a>(values: &ArgMatches<'a>) -> Option<Line<'a>>
    requires flag { HasFlag (codes "look") (rows_of (found_of values.now)) }
    ensures line { IfSome result (IsLine (codes "desk") (rows_of (found_of values.now))) }
    ensures lacks { result ≡ None → LacksPlant (Some (codes "desk", rows_of (found_of values.now))) }
    ensures ranges { IfSome result IsInRange }
{
    let looks = values.get_flag("look");
    if looks {
        return read_desk_look(values);
    }
    match values.get_str("plant") {
        Some(plant) => Some(Line::KeptDesk { plant }),
        None => Some(Line::Desk),
    }
}

// The line that a subcommand and its matches say; None where a place is expected or a look is asked for and no plant is named.
fn read_line<'a>(name: &'a str, values: &ArgMatches<'a>) -> Option<Line<'a>>
    requires readable { IsReadable name.now (rows_of (found_of values.now)) }
    ensures line { IfSome result (IsLine name.entry.now (rows_of (found_of values.now))) }
    ensures lacks { result ≡ None → LacksPlant (Some (name.entry.now, rows_of (found_of values.now))) }
    ensures ranges { IfSome result IsInRange }
{
    if name == "run" {
        return read_work(Work::Run, values);
    }
    if name == "alone" {
        return read_alone(values);
    }
    if name == "office" {
        return read_office(values);
    }
    if name == "desk" {
        return read_desk(values);
    }
    if name == "check" {
        let file = values.get_str("FILE").unwrap();
        let as_script = values.get_flag("script");
        return Some(Line::Check { file, as_script });
    }
    let text = values.get_str("TEXT").unwrap();
    Some(Line::Tract(text))
}

// The fault of words that expect a place or ask for a look and name no plant.
fn lacking_plant(alloc: Global) -> LineFault
    ensures fault { (words : List Text) → LacksPlant (subcommand_of command words) → Explains words result }
{
    match no_plant(alloc) {
        Ok(error) => LineFault::Bad(error),
        Err(_) => LineFault::Memory,
    }
}

/// What the words after the program's name ask for. `Help` where they ask for help, `Bad` where they
/// aren't understood (a word that `clap` doesn't expect, one that is missing, an option that is repeated,
/// a number that is none or out of its range, or a place that is expected in no plant, or a look at none), and
/// `Memory` only where memory ran out.
pub fn line<'a>(alloc: Global, words: &'a [&'a str]) -> Result<Line<'a>, LineFault>
    ensures line { IfOk result (IsLineOf (subcommand_of command (map (λ w. w.now) words.entry.now))) }
    ensures ranges { IfOk result IsInRange }
    ensures understood { OnOk result (fault_of command (map (λ w. w.now) words.entry.now) ≡ []) }
    ensures simple { is_simple_and_free command ≡ true }
    ensures taken { IfErr result (λ e. IsTaken (map (λ w. w.now) words.entry.now) → e ≡ LineFault.Memory) }
    ensures why { IfErr result (Explains (map (λ w. w.now) words.entry.now)) }
{
    let Ok(command) = program(alloc) else {
        return Err(LineFault::Memory);
    };
    match command.try_get_matches_from(words) {
        Ok(matches) => {
            let (name, values) = matches.subcommand().unwrap();
            match read_line(name, values) {
                Some(line) => Ok(line),
                None => Err(lacking_plant(alloc)),
            }
        }
        Err(error) => Err(fault_for(error)),
    }
}
