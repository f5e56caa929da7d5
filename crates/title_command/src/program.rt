//! The program's command, as `clap` is told it, with its help.

ghost use Rattle.std.specs.Prelude.{◌≡◌, IfOk, false, true, []};
ghost use Rattle.clap.specs.{Words.{app_of, new_app, rule_of}, Simple.{App, Shape, with_rule, with_subcommand}, Walk.{Rule}};
ghost use Rattle.clap.specs.declared.builder.command.Command.TheViews.{out-Command};
ghost use Rattle.title_command.specs.Building.{IsApp, leaf_of};
ghost use Rattle.title_command.specs.CommandLine.{after_rule, alone, check, command, desk, file_rule, look_rule, number_rule, office};
ghost use Rattle.title_command.specs.CommandLine.{plant_rule, script_rule, serving, text_rule, titleplant, tract};

use clap::builder::ValueParser;
use clap::error::ErrorKind;
use clap::{Arg, ArgAction, Command, Error};
use std::alloc::{AllocError, Global};

/// What the help of a command says: what it is for in a line and in full, its usage and an example.
#[derive(Clone, Copy)]
struct Help<'a> {
    about: &'a str,
    long_about: &'a str,
    usage: &'a str,
    example: &'a str,
}

const TITLEPLANT: Help<'static> = Help {
    about: "A title plant: an index of deeds by tract, with the owners of each tract",
    long_about: "\
A title plant: it posts deeds and releases of land to a tract index, lists the chain of
instruments that touch a tract, and works out who owns which share of the surface, of the
oil and gas, and of the other minerals in it.

Land is described by township, range, section and parts of a section. A script of work is
read from standard input as CSV, and its report is written to standard output as CSV. With
--plant FILE what a script commits is kept in a file, on which the next script goes on.",
    usage: "titleplant <COMMAND>",
    example: "\
Examples:
  titleplant run < script.csv
  titleplant alone < script.csv
  titleplant office --examiners 3 < script.csv
  titleplant desk
  titleplant alone --plant county.plant < script.csv
  titleplant check county.plant
  titleplant tract \"T3N R2W sec 5 NE1/4\"",
};

const RUN: Help<'static> = Help {
    about: "Serve several examiners at once: CSV script on standard input, CSV report on standard output",
    long_about: "\
Reads a CSV script from standard input and writes a CSV report to standard output.

A script declares its townships and parties, and then has a row for each step. A step's row
begins with the number of the examiner who takes it. Several examiners may be at work at
once: each begins a transaction, takes its steps (a sheet of owners, a chain of instruments,
a deed, a release), and commits or aborts. A step is refused where another examiner has an
open step on some of the same land and one of the two is a deed or a release; the report
names that examiner.

Rows; a field with a comma stands in double quotes, no space is passed over but in TEXT:
  township,TEXT         the plant has this township; declarations come before all steps
  party,NAME            a party; UNITED STATES, who owns all at first, needs no row
  E,begin               examiner E, 1 to 9999, opens a transaction
  E,sheet,TEXT          who owns what in the tract
  E,chain,TEXT          which instruments were posted in it, and where they are recorded
  E,deed,DOC,GRANTOR,GRANTEE,ESTATES,QUANTUM,RESERVE,TEXT
  E,warranty,DOC,GRANTOR,GRANTEE,ESTATES,QUANTUM,RESERVE,TEXT
                        a deed with warranty: with a quantum W its reservation yields first
  E,release,DOC,FROM,TO,ESTATES,TEXT
                        all that FROM has there in ESTATES passes to TO
  E,commit              the transaction is recorded, and takes the next place
  E,abort               the transaction is undone

Fields:
  DOC                   the document's number, 1 to 999999999999
  GRANTOR, GRANTEE, FROM, TO
                        parties by their names
  ESTATES               S surface, O oil and gas, M other minerals: S, O, M, SO, SM, OM or SOM
  QUANTUM               W and a share of the whole, as W1/2, or I and a share of what the
                        grantor has, as I1/1; a share is A/B, B a power of two
  RESERVE               nothing, or what the grantor keeps back, as O1/2;M1/1
  TEXT                  the description of land: see titleplant tract --help

Replies, each after its examiner's number:
  began, posted, aborted, and committed,PLACE
  sheet,K and K rows row,NODE,ESTATE,NAME,SHARE
  chain,K and K rows entry,PLACE,DOC,KIND,FROM,TO,ESTATES; PLACE is 0 before the commit
  refused,RULE,ESTATE,NODE
                        11 the grantor has too little, 12 no whole number of units passes,
                        13 more is reserved than passes; nothing was posted
  conflict,EXAMINER     this examiner's open transaction is in the way
  notopen, alreadyopen  the examiner has no transaction open, or has one
  notownship            the land's township isn't declared
  invalid,CAUSE         2 grantor and grantee are one, 4 a reserved estate isn't named
  toolong               the transaction has 10000 steps
  description,N         TEXT has fault N: see titleplant tract --help
The last row is end,K with the number of step rows.

Faults, in place of the report:
  fault,31,ROW          this row isn't understood
  fault,34,ROW          a party isn't declared, or is declared again
  fault,35,ROW          this row stands where no such row may stand
  fault,32              the script can't be read, or has above 16777216 bytes
  fault,6               out of memory

With --plant FILE the script goes on from what stands in that file; where there is none it
is made. Places, chains and sheets go on. What FILE declares may be left out, or declared
again before the first step. What the script declares and commits counts in FILE whole or
not at all, and the report is written once it is on the disk. After any fault but 40 the
script doesn't count.
With --after N it is served only where the last place in FILE is N. A script whose report
was lost is sent again with its N: if it was in, nothing is done but to answer fault,47.

Faults with --plant, besides:
  fault,36              FILE can't be opened, made, read or synced, or is no regular file
  fault,37              FILE is in use
  fault,38,ROW          FILE is no plant, by this row of it; it is left as it is
  fault,39              the disk failed, or is full; what stood in FILE stands
  fault,40              the disk failed at the end: the script counts, or it doesn't
  fault,46,PLACE        the transaction of this place can't stand in a township that joins
  fault,47,LAST         the last place in FILE is this one, and not N

The exit status is 0 for a report, 1 for a fault, 2 for words that aren't understood. The
whole format stands in docs/FORMATS.md.",
    usage: "titleplant run [--plant <FILE> [--after <N>]]",
    example: "\
Example: titleplant run < script.csv, where script.csv has
  township,T3N R2W
  party,ADAMS
  party,BELL
  1,begin
  1,deed,101,UNITED STATES,ADAMS,SOM,W1/1,,T3N R2W sec 5 NE1/4
  1,warranty,102,ADAMS,BELL,SOM,W1/2,M1/4,\"T3N R2W sec 5, NE1/4\"
  1,release,103,BELL,ADAMS,M,T3N R2W sec 5 NE1/4
  1,sheet,T3N R2W sec 5
  2,begin
  2,chain,T3N R2W sec 6
  1,commit
  2,abort",
};

const ALONE: Help<'static> = Help {
    about: "Serve transactions one by one: CSV script on standard input, CSV report on standard output",
    long_about: "\
Reads a CSV script from standard input and writes a CSV report to standard output.

A script is as for the command run, but each transaction ends before the next one begins. A
step outside a transaction is a transaction of its own and is committed at once, so a script
may be a plain list of deeds and questions.

With --plant FILE the script goes on from what stands in that file, and counts there whole or
not at all; see titleplant run --help, also for --after and for the faults.

With --look besides, nothing is kept, and FILE isn't changed: rows begin, ask for sheets and
chains, and abort, and any other row is a fault (31). Any number of scripts may look at FILE
at once. While one does, FILE is in use for whoever keeps something in it, and the other way
round.",
    usage: "titleplant alone [--plant <FILE> [--after <N>] [--look]]",
    example: "\
Example: titleplant alone < script.csv, where script.csv has
  township,T3N R2W
  party,ADAMS
  1,deed,101,UNITED STATES,ADAMS,S,W1/2,,T3N R2W sec 5 NE1/4
  1,sheet,T3N R2W sec 5",
};

const OFFICE: Help<'static> = Help {
    about: "Serve several examiners by threads of one office: CSV script on standard input, CSV report on standard output",
    long_about: "\
Reads a CSV script from standard input and writes a CSV report to standard output.

A script is as for the command run, but the rows of each examiner are a script of its own:
threads of one office run these scripts at once. The order in which their transactions
commit may differ from run to run. A transaction that another one is in the way of is
aborted and begun again, at most K times.

With --plant FILE the office goes on from what stands in that file, and all that it commits
counts there whole or not at all; the report counts its own commits, and its last sheet is of
all. See titleplant run --help, also for --after and for the faults.",
    usage: "titleplant office [--examiners <N>] [--tries <K>] [--plant <FILE> [--after <N>]]",
    example: "\
Example: titleplant office --examiners 2 --tries 50 < script.csv, where script.csv has
  township,T3N R2W
  party,ADAMS
  1,begin
  1,deed,101,UNITED STATES,ADAMS,S,W1/2,,T3N R2W sec 5 NE1/4
  1,commit
  2,begin
  2,chain,T3N R2W sec 5
  2,commit",
};

// An option with a number: what help calls the number, the most that it may be, and what it is where the option is left out.
#[derive(Clone, Copy)]
struct NumberOption<'a> {
    name: &'a str,
    value_name: &'a str,
    most: u64,
    default: &'a str,
    help: &'a str,
}

const EXAMINERS: NumberOption<'static> = NumberOption {
    name: "examiners",
    value_name: "N",
    most: 64,
    default: "2",
    help: "How many examiners are at work at once, 1 to 64",
};

const TRIES: NumberOption<'static> = NumberOption {
    name: "tries",
    value_name: "K",
    most: 10_000,
    default: "100",
    help: "How many times at most a transaction is begun, 1 to 10000",
};

const DESK: Help<'static> = Help {
    about: "Answer rows one by one as they come: CSV rows on standard input, CSV answers on standard output",
    long_about: "\
Reads CSV rows from standard input, and answers each on standard output before it waits for
more of them: a desk for a program at the other end of two pipes, or for a person.

Rows are those of the command run, each on a line of its own: a quote is closed on its line,
and a line has at most 8192 bytes. There may be any number of them. A township is declared
before the first step, a party at any time.

Answers, in the order of their rows; a blank line has none:
  township,N            the township is declared, and is the Nth
  party,N               the party is declared, and has the number N
  E,..                  the reply to a step, in the rows of a report of run: behind E,sheet,K
                        and E,chain,K there are K rows, and any other reply is one row
  fault,NUMBER,ROW      this row is passed over: nothing has changed, and rows go on
  end,K                 the last row, where there are no more rows: K steps were answered, and
                        open transactions are aborted

Rows are passed over for these numbers, and are numbered from 1:
  31                    this row isn't understood
  34                    a party isn't declared, or is declared again
  35                    a township is declared after the first step
  6                     out of memory
At a terminal a sentence tells why, and the row help lists the rows that there are.

With --plant FILE rows go on from what stands in that file, and what they declare and commit
is kept there: no row is answered before that is on the disk. Rows that come together are kept
together. Where transactions stand in FILE no township joins by a row (35), but by a script.
With --look besides, nothing is kept: rows begin, ask for sheets and chains, and abort, and any
other row is passed over (31). See titleplant alone --help.

Faults at which the answers end, with status 1; what was answered stands:
  fault,32              the rows can't be read
  fault,6               out of memory before the first row, or for what is kept
  fault,36 to fault,40  as for titleplant run --plant; of what wasn't answered nothing is kept,
                        but after 40 perhaps the rows that came together last

For rows and replies see titleplant run --help. The whole format stands in docs/FORMATS.md.",
    usage: "titleplant desk [--plant <FILE> [--look]]",
    example: "\
Example: of these rows
  township,T3N R2W
  party,ADAMS
  1,begin
  1,deed,101,UNITED STATES,ADAMS,S,W1/2,,T3N R2W sec 5 NE1/4
  1,deed,102,ADAMS,BELL,S,W1/2,,T3N R2W sec 5 NE1/4
  1,commit
the answers are
  township,1
  party,1
  1,began
  1,posted
  fault,34,5
  1,committed,1
  end,3",
};

const TRACT: Help<'static> = Help {
    about: "List the parts and acres of one description of land: CSV on standard output",
    long_about: "\
Reads the description TEXT, and nothing from standard input. Writes to standard output, as
CSV, a row for each township, section, quarter or smaller part that makes up the land, and
a row with its acres.

These are one tract:
  T3N R2W sec 5 NE1/4SW1/4
  t3n r2w section 5 ne/4sw/4
  T. 3 N., R. 2 W., sec. 5, NE1/4 of the SW1/4
  T3N-R2W, Sec 5: NE1/4 of SW1/4
  T3N R2W sec 5 NE¼SW¼
  T3NR2WSEC5NE/4SW/4
Parts with a comma between them are taken together; a part is read from right to left. A
township alone, as T3N R2W, and everything are tracts too.

Faults, in place of the rows, with status 1:
  fault,21,BYTE         nothing that is a description goes on as this one does at this byte
  fault,22              a township or range isn't 1 to 99, or a section isn't 1 to 36
  fault,23              a part is narrower than 330 feet, a side of 2.5 acres
  fault,24              a government lot, which has no place in this plant
  fault,25              two parts share land
  fault,6               out of memory",
    usage: "titleplant tract <TEXT>",
    example: "Example: titleplant tract \"T3N R2W sec 5 NE1/4\"",
};

const CHECK: Help<'static> = Help {
    about: "Tell what stands in a plant's file: CSV on standard output",
    long_about: "\
Reads the plant in FILE, and nothing from standard input. Writes to standard output, as CSV:
  townships,N           how many townships are declared
  parties,N             how many parties there are, UNITED STATES among them
  transactions,N        how many transactions are committed: the last place
  posts,N               how many deeds and releases they posted
  tail,BYTES            bytes at the end of FILE that don't count, as a power failure may leave
                        some; the next script that is served with --plant cuts them off
FILE isn't changed, and it may be in use.

With --script it writes a script for the command alone in place of this, which commits the
same transactions, in the same places, on an empty plant.

Faults, in place of the rows, with status 1:
  fault,36              FILE can't be read, or is no regular file
  fault,38,ROW          FILE is no plant, by this row of it
  fault,48,ROW          no script says what stands, by this row of it: it would be one row or
                        one byte too many, or its land has no description
  fault,6               out of memory",
    usage: "titleplant check <FILE> [--script]",
    example: "\
Examples:
  titleplant check county.plant
  titleplant check county.plant --script > county.csv",
};

// A command with its name and its help, and nothing that follows it.
fn named<'a>(alloc: Global, name: &'a str, help: Help<'a>) -> Command<'a>
    ensures app { app_of result ≡ new_app name.entry.now }
    ensures local { (out-Command result).has_globals ≡ false }
{
    Command::new(alloc, name)
        .about(help.about)
        .long_about(help.long_about)
        .override_usage(help.usage)
        .after_help(help.example)
}

fn text_argument<'a>(alloc: Global) -> Arg<'a>
    ensures rule { rule_of result ≡ text_rule }
    ensures local { result.global ≡ false }
{
    Arg::new(alloc, "TEXT")
        .required(true)
        .action(ArgAction::Set)
        .help("The description of land, in quotes; after -- where it begins with a dash")
}

fn file_argument<'a>(alloc: Global) -> Arg<'a>
    ensures rule { rule_of result ≡ file_rule }
    ensures local { result.global ≡ false }
{
    Arg::new(alloc, "FILE")
        .required(true)
        .action(ArgAction::Set)
        .help("The plant's file; after -- where its name begins with a dash")
}

fn script_option<'a>(alloc: Global) -> Arg<'a>
    ensures rule { rule_of result ≡ script_rule }
    ensures local { result.global ≡ false }
{
    Arg::new(alloc, "script")
        .long("script")
        .action(ArgAction::SetTrue)
        .help("Write it as a script for the command alone")
}

fn plant_option<'a>(alloc: Global) -> Arg<'a>
    ensures rule { rule_of result ≡ plant_rule }
    ensures local { result.global ≡ false }
{
    Arg::new(alloc, "plant")
        .long("plant")
        .action(ArgAction::Set)
        .value_name("FILE")
        .help("Go on from what stands in this file, and keep there what is committed")
}

fn after_option<'a>(alloc: Global) -> Arg<'a>
    ensures rule { rule_of result ≡ after_rule }
    ensures local { result.global ≡ false }
{
    Arg::new(alloc, "after")
        .long("after")
        .action(ArgAction::Set)
        .value_parser(ValueParser::unsigned(0, u64::MAX))
        .value_name("N")
        .help("With --plant: only where the last place there is N")
}

fn look_option<'a>(alloc: Global) -> Arg<'a>
    ensures rule { rule_of result ≡ look_rule }
    ensures local { result.global ≡ false }
{
    Arg::new(alloc, "look")
        .long("look")
        .action(ArgAction::SetTrue)
        .help("With --plant: only look at what stands there, and keep nothing")
}

fn number_option<'a>(alloc: Global, option: NumberOption<'a>) -> Arg<'a>
    ensures rule { rule_of result ≡ number_rule option.entry.name.now option.entry.most option.entry.default.now }
    ensures local { result.global ≡ false }
{
    Arg::new(alloc, option.name)
        .long(option.name)
        .action(ArgAction::Set)
        .value_parser(ValueParser::unsigned(1, option.most))
        .value_name(option.value_name)
        .default_value(option.default)
        .help(option.help)
}

// A command with one argument more, where there was memory for it so far.
fn with_argument<'a>(
    command: Result<Command<'a>, AllocError>,
    argument: Arg<'a>,
) -> Result<Command<'a>, AllocError>
    requires local { argument.global ≡ false }
    ensures app { (a : App) → (r : Rule) → rule_of argument.entry ≡ r → IsApp a command.entry → IsApp (with_rule a r) result }
{
    command?.arg(argument)
}

// A command with the options by which a script is kept in a plant's file.
fn with_file<'a>(
    alloc: Global,
    command: Result<Command<'a>, AllocError>,
) -> Result<Command<'a>, AllocError>
    ensures app { (a : App) → IsApp a command.entry → IsApp (with_rule (with_rule a plant_rule) after_rule) result }
{
    let with_plant = with_argument(command, plant_option(alloc));
    with_argument(with_plant, after_option(alloc))
}

fn office_command<'a>(alloc: Global) -> Result<Command<'a>, AllocError>
    ensures app { IsApp (leaf_of office) result }
{
    let with_examiners = with_argument(
        Ok(named(alloc, "office", OFFICE)),
        number_option(alloc, EXAMINERS),
    );
    let with_tries = with_argument(with_examiners, number_option(alloc, TRIES));
    with_file(alloc, with_tries)
}

// A command that a script may be kept by.
fn work_command<'a>(alloc: Global, name: &'a str, help: Help<'a>) -> Result<Command<'a>, AllocError>
    ensures app { IsApp (leaf_of (serving name.entry.now)) result }
{
    with_file(alloc, Ok(named(alloc, name, help)))
}

fn alone_command<'a>(alloc: Global) -> Result<Command<'a>, AllocError>
    ensures app { IsApp (leaf_of alone) result }
{
    with_argument(work_command(alloc, "alone", ALONE), look_option(alloc))
}

fn desk_command<'a>(alloc: Global) -> Result<Command<'a>, AllocError>
    ensures app { IsApp (leaf_of desk) result }
{
    let with_plant = with_argument(Ok(named(alloc, "desk", DESK)), plant_option(alloc));
    with_argument(with_plant, look_option(alloc))
}

fn check_command<'a>(alloc: Global) -> Result<Command<'a>, AllocError>
    ensures app { IsApp (leaf_of check) result }
{
    let with_file = with_argument(Ok(named(alloc, "check", CHECK)), file_argument(alloc));
    with_argument(with_file, script_option(alloc))
}

fn tract_command<'a>(alloc: Global) -> Result<Command<'a>, AllocError>
    ensures app { IsApp (leaf_of tract) result }
{
    with_argument(Ok(named(alloc, "tract", TRACT)), text_argument(alloc))
}

fn top<'a>(alloc: Global) -> Command<'a>
    ensures app { app_of result ≡ record { top = record titleplant { is_leaf = true }; subs = [] } }
    ensures local { (out-Command result).has_globals ≡ false }
{
    named(alloc, "titleplant", TITLEPLANT)
        .no_binary_name(true)
        .subcommand_required(true)
        .disable_help_subcommand(true)
}

// A command with one subcommand more, where there was memory for both.
fn with_command<'a>(
    command: Result<Command<'a>, AllocError>,
    added: Result<Command<'a>, AllocError>,
) -> Result<Command<'a>, AllocError>
    ensures app { (a : App) → (s : Shape) → IsApp a command.entry → IsApp (leaf_of s) added.entry → IsApp (with_subcommand a s) result }
{
    command?.subcommand(added?)
}

/// The command of the program `titleplant`, with each of its subcommands.
pub fn program<'a>(alloc: Global) -> Result<Command<'a>, AllocError>
    ensures app { IfOk result (λ c. app_of c ≡ command) }
{
    let with_run = with_command(Ok(top(alloc)), work_command(alloc, "run", RUN));
    let with_alone = with_command(with_run, alone_command(alloc));
    let with_office = with_command(with_alone, office_command(alloc));
    let with_desk = with_command(with_office, desk_command(alloc));
    let with_tract = with_command(with_desk, tract_command(alloc));
    with_command(with_tract, check_command(alloc))
}

/// The error of words that expect a last place or ask for a look, and name no plant.
pub fn no_plant(alloc: Global) -> Result<Error, AllocError> {
    let mut command = named(alloc, "titleplant", TITLEPLANT);
    command.error(
        ErrorKind::MissingRequiredArgument,
        "--after <N> and --look are for a plant's file: --plant <FILE> is wanted too",
    )
}
