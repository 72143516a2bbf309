//! What the words of a command line ask for.
ghost use Rattle.std.specs.Prelude.{◌≡◌, ◌≤◌, ℕ, ◌∷◌, ◌++◌, [], IfOk, IfErr, IfSome, IsOkAnd, OnOk, map, codes, is_some, option_map, true, false};
ghost use Rattle.command_line.specs.declared.form.Form.TheVariants as form;
ghost use Rattle.command_line.specs.declared.spelling.Spelling.TheVariants as spelling;
ghost use Rattle.command_line.specs.declared.telling.Telling.TheVariants as told;
ghost use Rattle.clap.specs.Words.{app_of, found_of, first_value, fault_of, kind_of, new_app, rule_of};
ghost use Rattle.clap.specs.declared.builder.command.Command.TheViews.{out-Command as fields_of};
ghost use Rattle.call_types.specs.declared.limits.TheConstants.{FILE_SIZE_MAX};
ghost use Rattle.command_line.specs.declared.demand.Demand.TheVariants as demand;
ghost use Rattle.command_line.specs.CommandLine.{Asks, AsksActsAlone, Deserves, IsCapacity, IsJobOf, IsNoCapacity, IsNoNumber, IsNoRecords, IsNoStates, IsNoTelling, IsNumber, IsOutcome, IsRecords, IsStates, IsTelling, IsTold, SaysNotText, audit_app, bare_app, demand_of, fdref_app, file_rule, flag_rule, form_given, form_of, is_used, line, migrate_app, name_given, option_rule, outcomes_app, replay_app, required_rule, serve_app, show_app, spelling_of, status_of, text_given, word_rule};
ghost use Rattle.command_line.specs.Proved.Parsing.{GivesAll, GivesBoth, GivesFile, HaveApps, HaveRules, IsFaultOf, IsParse, IsUntold, RefusesForms, RefusesNumber, RefusesRace, completed, migrated, mixed, served, shown, witnessed};

use crate::demand::Demand;
use crate::form::Form;
use crate::spelling::Spelling;
use crate::telling::Telling;
use call_types::limits::{
    Limits, PIPE_CAPACITY_DEFAULT, PIPE_CAPACITY_MAX, PIPE_CAPACITY_MIN, RECORDS_MAX,
};
use clap::error::ErrorKind;
use clap::{Arg, ArgAction, ArgMatches, Command, Error};
use std::alloc::{AllocError, Global};
use std::convert::AsStr;
use std::fmt;

/// The records of a replay whose command line names no number.
pub const DEFAULT_RECORDS: u64 = 10_000;

/// The most sessions that a server may have.
pub const SESSIONS_MAX: u8 = 64;

/// The positions of a race that are searched where its command line names no number.
pub const STATES_DEFAULT: u64 = 300_000;

/// The most positions of a race that may be searched.
pub const STATES_MAX: u64 = 100_000_000;

/// The greatest number of an outcome that can be asked for.
pub const WITNESS_MAX: u64 = 4_294_967_295;

/// The least and the greatest number that an option takes.
#[derive(Clone, Copy)]
struct Range {
    least: u64,
    most: u64,
}

/// The numbers of records.
const RECORDS_RANGE: Range = Range {
    least: 1,
    most: RECORDS_MAX,
};

/// The numbers of sessions.
const SESSIONS_RANGE: Range = Range {
    least: 1,
    most: SESSIONS_MAX as u64,
};

/// The capacities of pipes, in bytes.
const CAPACITY_RANGE: Range = Range {
    least: PIPE_CAPACITY_MIN,
    most: PIPE_CAPACITY_MAX,
};

/// The numbers of positions that are searched.
const STATES_RANGE: Range = Range {
    least: 1,
    most: STATES_MAX,
};

/// What the program is asked to do.
#[derive(Debug, Drop)]
pub enum Job {
    /// To run the script on standard input, which is spelled so.
    Replay {
        limits: Limits,
        spelling: Spelling,
    },
    /// To serve so many sessions, 1 to 64, over a Unix socket that it makes at this path, and to write their trace to this file.
    Serve {
        socket: String,
        sessions: u8,
        limits: Limits,
        trace: String,
    },
    /// To judge the trace in this file, of which so much is demanded.
    Audit {
        file: String,
        demand: Demand,
    },
    /// To show the records of the trace in this file, in this form.
    Show {
        file: String,
        form: Form,
    },
    /// To write the trace of version 1 in one file to another, which is made, as one of version 2.
    Migrate {
        from: String,
        to: String,
    },
    /// To tell all that the calls of the race on standard input may answer, if it has at most so many positions.
    Outcomes {
        limits: Limits,
        most: u64,
        telling: Telling,
    },
}

/// Why a command line gives no job.
#[derive(Debug, Drop)]
pub enum JobFault {
    /// The words are none that the program takes, a number is out of its range, acts are asked for without a witness, or objects and
    /// another form.
    Usage(Error),
    /// Help or the version was asked for, and this is its text.
    Shown(Error),
    /// Memory ran out.
    NoMemory,
}

impl JobFault {
    /// The exit status of the program.
    pub fn status(&self) -> u8
        ensures { result ≡ status_of self.now }
    {
        match self {
            JobFault::Usage(_) => 2,
            JobFault::Shown(_) => 0,
            JobFault::NoMemory => 5,
        }
    }
}

impl fmt::Display for JobFault {
    fn fmt<W: fmt::Write>(&self, f: &mut fmt::Formatter<W>) -> fmt::Result {
        match self {
            JobFault::Usage(error) | JobFault::Shown(error) => error.fmt(f),
            JobFault::NoMemory => f.write_str("no memory\n"),
        }
    }
}

impl From<AllocError> for JobFault {
    ghost use Rattle.std.specs.Prelude.{◌≡◌};
    ghost use Rattle.command_line.specs.declared.job.JobFault.TheVariants.{NoMemory};

    ghost from_gives = { λ _ fault. fault ≡ NoMemory };

    fn from(_error: AllocError) -> JobFault {
        JobFault::NoMemory
    }
}

/// What the help of `replay` says after its options.
const REPLAY_HELP: &str =
    "Reads a script, one act a line, such as 'p0 read 0 5'. The first act is 'join'.
Writes 'PLACE pN ACT = OUTCOME' for each record, and the totals.
Ends with 0 when all was run, 3 where a line is no act, 4 where input or output
failed, 5 for want of memory.

Example:
  printf 'join\\np0 open a rw,creat\\np0 write 0 x6869\\n' | fdref replay";

/// The same of `serve`.
const SERVE_HELP: &str =
    "Reads requests and writes answers, on each connection. Clients in C and in Python
are in the folder 'clients', the bytes in docs/FORMATS.md.
Writes 'sessions N records R in I out O trace T' when N connections have ended.
Ends with 0 then, 4 where it cannot listen or write or the trace is not whole, 5
for want of memory or of a thread, 6 where counts or records disagree.

Example:
  fdref serve --socket /tmp/fdref.socket --sessions 2 --records 100 --trace /tmp/fdref.trace";

/// The same of `audit`.
const AUDIT_HELP: &str = "Reads a trace that 'fdref serve' wrote, or a program of your own.
Writes 'legal N rest B', 'illegal PLACE expected OUTCOME' or 'malformed AT'.
Where the trace tells how many records its run may have, a record after which too
few are left for the exits and the closing is illegal too.
Ends with 0 where it is legal, 1 where it is not complete and has to be, 7 where it
is illegal, 8 where it is malformed, 4 where FILE cannot be read or output failed, 5
for want of memory.

Example:
  fdref audit /tmp/fdref.trace";

/// The same of `show`.
const SHOW_HELP: &str = "Reads a trace that 'fdref serve' wrote, or a program of your own.
Writes 'PLACE pN ACT = OUTCOME' for each record, the act alone or an object, and on
standard error how many bytes are left over.
Ends with 0 at its end, 8 where it is malformed, 4 where FILE cannot be read or
output failed, 5 for want of memory.

Example:
  fdref show --acts /tmp/fdref.trace | fdref replay --records 100";

/// The same of `migrate`.
const MIGRATE_HELP: &str =
    "Reads a trace of version 1, and writes it to OUT under a header of version 2, which
tells the limits of version 1. All bytes after the header stay as they are.
Writes 'migrated N rest B', or 'malformed AT'; OUT has then the records before.
Ends with 0 where all is written, 8 where the trace is malformed, 4 where IN cannot
be read, OUT is there or cannot be written, or output failed, 5 for want of memory.

Example:
  fdref migrate /tmp/old.trace /tmp/new.trace";

/// The same of `outcomes`.
const OUTCOMES_HELP: &str =
    "Reads acts, a line 'race', and calls that are made at once, those of one process
in turn. After a call may stand ' = OUTCOME', what it is to answer.
Writes 'race K pN CALL' for each call, 'outcome K: ANSWER, ..' for each outcome
that the calls can have over all orders, and 'outcomes N states M'.
Ends with 0 then, 1 where none agrees with what is asked or there is no outcome K,
3 where a line cannot be, 4 where input or output failed, 5 for want of memory, 9
for too many states.

Example:
  printf 'join\\np0 open a rw,creat\\np0 fork\\np1 attach\\nrace\\np0 write 0 x61\\np1 write 0 x62\\np1 pread 0 0 9\\n' | fdref outcomes";

/// What the help of the program says after its commands.
const FDREF_HELP: &str =
    "'fdref COMMAND --help' tells what a command reads, writes and ends with. Wrong
words end with 2.

Example:
  printf 'join\\np0 pipe\\np0 write 1 x6869\\np0 read 0 9\\n' | fdref replay";

/// An option `--name VALUE`.
fn option_arg<'a>(alloc: Global, name: &'a str, value: &'a str) -> Arg<'a>
    ensures rule { rule_of result ≡ option_rule name.entry.now }
    ensures local { result.global ≡ false }
{
    Arg::new(alloc, name).long(name).value_name(value)
}

/// An option `--name VALUE` that has to be given.
fn required_arg<'a>(alloc: Global, name: &'a str, value: &'a str, help: &'a str) -> Arg<'a>
    ensures rule { rule_of result ≡ required_rule name.entry.now }
    ensures local { result.global ≡ false }
{
    option_arg(alloc, name, value).required(true).help(help)
}

/// An option `--name` without a value.
fn flag_arg<'a>(alloc: Global, name: &'a str, help: &'a str) -> Arg<'a>
    ensures rule { rule_of result ≡ flag_rule name.entry.now }
    ensures local { result.global ≡ false }
{
    Arg::new(alloc, name)
        .long(name)
        .action(ArgAction::SetTrue)
        .help(help)
}

/// A word that stands by itself and has to be given.
fn word_arg<'a>(alloc: Global, name: &'a str, value: &'a str, help: &'a str) -> Arg<'a>
    ensures rule { rule_of result ≡ word_rule name.entry.now }
    ensures local { result.global ≡ false }
{
    Arg::new(alloc, name)
        .value_name(value)
        .required(true)
        .help(help)
}

/// The file of a subcommand that reads one.
fn file_arg<'a>(alloc: Global) -> Arg<'a>
    ensures rule { rule_of result ≡ file_rule }
    ensures local { result.global ≡ false }
{
    word_arg(alloc, "file", "FILE", "The file that has the trace")
}

/// These items in a list.
fn list_of<T: Drop, const N: usize>(alloc: Global, items: [T; N]) -> Result<Vec<T>, AllocError>
    ensures { IfOk result (λ list. list.items ≡ items) }
{
    Ok(Vec::from_array(alloc, items)?)
}

/// Appends to a list what was made, if memory did not run out for it.
fn push_made<T: Drop>(list: &mut Vec<T>, made: Result<T, AllocError>) -> Result<(), AllocError>
    ensures { OnOk result (IsOkAnd made (λ item. list.new.items ≡ list.old.items ++ item ∷ [])) }
{
    list.push(made?)?;
    Ok(())
}

/// A command of this name that has these texts in its help, and takes nothing.
fn described_command<'a>(
    alloc: Global,
    name: &'a str,
    about: &'a str,
    after_help: &'a str,
) -> Command<'a>
    ensures app { app_of result ≡ new_app name.entry.now }
    ensures local { (fields_of result).has_globals ≡ false }
{
    Command::new(alloc, name)
        .about(about)
        .after_help(after_help)
}

/// The option of `replay` for its records.
fn records_arg<'a>(alloc: Global) -> Arg<'a>
    ensures rule { rule_of result ≡ option_rule (codes "records") }
    ensures local { result.global ≡ false }
{
    let help = "Records that the run may have, 1 to 1000000 [default: 10000]";
    option_arg(alloc, "records", "N").help(help)
}

/// The option for the capacity of pipes.
fn capacity_arg<'a>(alloc: Global) -> Arg<'a>
    ensures rule { rule_of result ≡ option_rule (codes "pipe-capacity") }
    ensures local { result.global ≡ false }
{
    let help = "Bytes that a pipe holds, 512 to 65536 [default: 1024]";
    option_arg(alloc, "pipe-capacity", "N").help(help)
}

/// The options of `replay`.
fn replay_args<'a>(alloc: Global) -> Result<Vec<Arg<'a>>, AllocError>
    ensures { IfOk result (λ args. HaveRules args.items replay_app.top.rules) }
{
    let text = "Read comments after # and data as \"hello\\n\", and print such data so";
    let args = [
        records_arg(alloc),
        capacity_arg(alloc),
        flag_arg(alloc, "text", text),
    ];
    list_of(alloc, args)
}

/// The subcommand `replay`.
fn replay_command<'a>(alloc: Global) -> Result<Command<'a>, AllocError>
    ensures app { IfOk result (λ c. app_of c ≡ replay_app) }
    ensures local { IfOk result (λ c. (fields_of c).has_globals ≡ false) }
{
    let about = "Runs the script on standard input and prints a line for each record";
    let args = replay_args(alloc)?;
    described_command(alloc, "replay", about, REPLAY_HELP).args(args)
}

/// The options of `serve`.
fn serve_args<'a>(alloc: Global) -> Result<Vec<Arg<'a>>, AllocError>
    ensures { IfOk result (λ args. HaveRules args.items serve_app.top.rules) }
{
    let socket = "Where the Unix socket is made: at most 107 bytes; nothing may be there";
    let sessions = "Connections that are accepted, 1 to 64; each is one process";
    let records = "Records that the run may have, 1 to 1000000";
    let trace =
        "The file for the trace; emptied, also by a start that fails, unless another server writes it";
    let args = [
        required_arg(alloc, "socket", "PATH", socket),
        required_arg(alloc, "sessions", "N", sessions),
        required_arg(alloc, "records", "N", records),
        required_arg(alloc, "trace", "FILE", trace),
        capacity_arg(alloc),
    ];
    list_of(alloc, args)
}

/// The subcommand `serve`.
fn serve_command<'a>(alloc: Global) -> Result<Command<'a>, AllocError>
    ensures app { IfOk result (λ c. app_of c ≡ serve_app) }
    ensures local { IfOk result (λ c. (fields_of c).has_globals ≡ false) }
{
    let about =
        "Answers requests over a Unix socket and prints a report when all sessions have ended";
    let args = serve_args(alloc)?;
    described_command(alloc, "serve", about, SERVE_HELP).args(args)
}

/// The subcommand `audit`.
fn audit_command<'a>(alloc: Global) -> Result<Command<'a>, AllocError>
    ensures app { IfOk result (λ c. app_of c ≡ audit_app) }
    ensures local { IfOk result (λ c. (fields_of c).has_globals ≡ false) }
{
    let about = "Prints whether each record of a trace is what the model gives";
    let complete = "Demand that the trace ends with the closing of its run";
    let args = list_of(
        alloc,
        [flag_arg(alloc, "complete", complete), file_arg(alloc)],
    )?;
    described_command(alloc, "audit", about, AUDIT_HELP).args(args)
}

/// The options of `show`, and its file.
fn show_args<'a>(alloc: Global) -> Result<Vec<Arg<'a>>, AllocError>
    ensures { IfOk result (λ args. HaveRules args.items show_app.top.rules) }
{
    let acts = "Print the lines of a script that asks for the same acts";
    let text = "Print data of printable bytes as strings, such as \"hello\\n\"";
    let json = "Print a JSON object for each record; not with --acts or --text";
    let args = [
        flag_arg(alloc, "acts", acts),
        flag_arg(alloc, "text", text),
        flag_arg(alloc, "json", json),
        file_arg(alloc),
    ];
    list_of(alloc, args)
}

/// The subcommand `show`.
fn show_command<'a>(alloc: Global) -> Result<Command<'a>, AllocError>
    ensures app { IfOk result (λ c. app_of c ≡ show_app) }
    ensures local { IfOk result (λ c. (fields_of c).has_globals ≡ false) }
{
    let about = "Prints a line for each record of a trace, and judges none";
    let args = show_args(alloc)?;
    described_command(alloc, "show", about, SHOW_HELP).args(args)
}

/// The subcommand `migrate`.
fn migrate_command<'a>(alloc: Global) -> Result<Command<'a>, AllocError>
    ensures app { IfOk result (λ c. app_of c ≡ migrate_app) }
    ensures local { IfOk result (λ c. (fields_of c).has_globals ≡ false) }
{
    let about = "Writes a trace of version 1 as one of version 2";
    let from = word_arg(alloc, "in", "IN", "The file that has the trace");
    let to = word_arg(
        alloc,
        "out",
        "OUT",
        "The file that is made; nothing may be there",
    );
    let args = list_of(alloc, [from, to])?;
    described_command(alloc, "migrate", about, MIGRATE_HELP).args(args)
}

/// The option of `outcomes` for its positions.
fn states_arg<'a>(alloc: Global) -> Arg<'a>
    ensures rule { rule_of result ≡ option_rule (codes "states") }
    ensures local { result.global ≡ false }
{
    let help = "Positions that are searched, 1 to 100000000 [default: 300000]";
    option_arg(alloc, "states", "N").help(help)
}

/// The option of `outcomes` for its witnesses.
fn witness_arg<'a>(alloc: Global) -> Arg<'a>
    ensures rule { rule_of result ≡ option_rule (codes "witness") }
    ensures local { result.global ≡ false }
{
    let help = "Print one order that ends in outcome K, or with all one for each";
    option_arg(alloc, "witness", "K").help(help)
}

/// The options of `outcomes`.
fn outcomes_args<'a>(alloc: Global) -> Result<Vec<Arg<'a>>, AllocError>
    ensures { IfOk result (λ args. HaveRules args.items outcomes_app.top.rules) }
{
    let acts = "With --witness: print its acts, as lines of a script, and not its records";
    let args = [
        states_arg(alloc),
        capacity_arg(alloc),
        witness_arg(alloc),
        flag_arg(alloc, "acts", acts),
    ];
    list_of(alloc, args)
}

/// The subcommand `outcomes`.
fn outcomes_command<'a>(alloc: Global) -> Result<Command<'a>, AllocError>
    ensures app { IfOk result (λ c. app_of c ≡ outcomes_app) }
    ensures local { IfOk result (λ c. (fields_of c).has_globals ≡ false) }
{
    let about = "Prints all that the calls of a race may answer, over every order";
    let args = outcomes_args(alloc)?;
    described_command(alloc, "outcomes", about, OUTCOMES_HELP).args(args)
}

/// Puts the six subcommands into a list that is empty.
fn push_subcommands<'a>(alloc: Global, commands: &mut Vec<Command<'a>>) -> Result<(), AllocError>
    requires { commands.old.items ≡ [] }
    ensures { OnOk result (HaveApps commands.new.items (replay_app ∷ serve_app ∷ audit_app ∷ show_app ∷ migrate_app ∷ outcomes_app ∷ [])) }
{
    push_made(commands, replay_command(alloc))?;
    push_made(commands, serve_command(alloc))?;
    push_made(commands, audit_command(alloc))?;
    push_made(commands, show_command(alloc))?;
    push_made(commands, migrate_command(alloc))?;
    push_made(commands, outcomes_command(alloc))
}

/// The command line of the program with no subcommand yet.
fn bare_command<'a>(alloc: Global) -> Command<'a>
    ensures app { app_of result ≡ bare_app }
    ensures local { (fields_of result).has_globals ≡ false }
{
    let about = "A machine-checked reference for POSIX file descriptors";
    described_command(alloc, "fdref", about, FDREF_HELP)
        .version("0.2.0")
        .propagate_version(true)
        .subcommand_required(true)
        .disable_help_subcommand(true)
}

/// The command line of the program.
fn fdref_command<'a>(alloc: Global) -> Result<Command<'a>, AllocError>
    ensures app { IfOk result (λ c. app_of c ≡ fdref_app) }
    ensures local { IfOk result (λ c. (fields_of c).has_globals ≡ false) }
{
    let mut commands = Vec::new(alloc);
    push_subcommands(alloc, &mut commands)?;
    bare_command(alloc).subcommands(commands)
}

/// The error of a subcommand whose option has a text that is no number in its range.
fn number_error(
    alloc: Global,
    mut command: Command<'_>,
    option: &str,
    text: &str,
    range: Range,
) -> Result<Error, AllocError>
    ensures { IfOk result (λ e. kind_of e ≡ ErrorKind.ValueValidation) }
{
    let Range { least, most } = range;
    let message = format!(in alloc;
        "invalid value '{text}' for '--{option} <N>': not a number from {least} to {most}"
    )?;
    command.error(ErrorKind::ValueValidation, message.as_str())
}

/// The error of `replay` whose option has a text that is no number in its range.
fn replay_error(alloc: Global, option: &str, text: &str, range: Range) -> Result<Error, AllocError>
    ensures { IfOk result (λ e. kind_of e ≡ ErrorKind.ValueValidation) }
{
    let command = replay_command(alloc)?.bin_name("fdref replay")?;
    number_error(alloc, command, option, text, range)
}

/// The error of `serve` whose option has a text that is no number in its range.
fn serve_error(alloc: Global, option: &str, text: &str, range: Range) -> Result<Error, AllocError>
    ensures { IfOk result (λ e. kind_of e ≡ ErrorKind.ValueValidation) }
{
    let command = serve_command(alloc)?.bin_name("fdref serve")?;
    number_error(alloc, command, option, text, range)
}

/// The error of `outcomes` whose option has a text that is no number in its range.
fn outcomes_error(
    alloc: Global,
    option: &str,
    text: &str,
    range: Range,
) -> Result<Error, AllocError>
    ensures { IfOk result (λ e. kind_of e ≡ ErrorKind.ValueValidation) }
{
    let command = outcomes_command(alloc)?.bin_name("fdref outcomes")?;
    number_error(alloc, command, option, text, range)
}

/// The error of `outcomes` whose `--witness` has a text that names no outcome.
fn witness_error(alloc: Global, text: &str) -> Result<Error, AllocError>
    ensures { IfOk result (λ e. kind_of e ≡ ErrorKind.ValueValidation) }
{
    let mut command = outcomes_command(alloc)?.bin_name("fdref outcomes")?;
    let message = format!(in alloc;
        "invalid value '{text}' for '--witness <K>': not a number from 0 to {WITNESS_MAX}, nor the word all"
    )?;
    command.error(ErrorKind::ValueValidation, message.as_str())
}

/// The error of `outcomes` that is asked for acts without a witness.
fn acts_error(alloc: Global) -> Result<Error, AllocError>
    ensures { IfOk result (λ e. kind_of e ≡ ErrorKind.MissingRequiredArgument) }
{
    let mut command = outcomes_command(alloc)?.bin_name("fdref outcomes")?;
    let message = "the following required arguments were not provided:\n  --witness <K>";
    command.error(ErrorKind::MissingRequiredArgument, message)
}

/// The number of records that the text of `--records` gives.
fn records_of(text: &str) -> Option<u64>
    ensures number { IfSome result (λ records. IsNumber RECORDS_MAX (Some text.now) records) }
    ensures refused { result ≡ None → IsNoNumber RECORDS_MAX (Some text.now) }
{
    let records = text.parse::<u64>().ok()?;
    if records == 0 || records > RECORDS_MAX {
        return None;
    }
    Some(records)
}

/// The capacity of pipes that the text of `--pipe-capacity` gives.
fn capacity_of(text: &str) -> Option<u64>
    ensures number { IfSome result (λ capacity. IsCapacity (Some text.now) capacity) }
    ensures refused { result ≡ None → IsNoCapacity (Some text.now) }
{
    let capacity = text.parse::<u64>().ok()?;
    if capacity < PIPE_CAPACITY_MIN || capacity > PIPE_CAPACITY_MAX {
        return None;
    }
    Some(capacity)
}

/// The capacity of pipes that the matches of a subcommand give, or the text that is no such number.
fn given_capacity<'a>(matches: &ArgMatches<'a>) -> Result<u64, &'a str>
    ensures number { IfOk result (λ capacity. IsCapacity (first_value (found_of matches.now) (codes "pipe-capacity")) capacity) }
    ensures refused { IfErr result (λ text. IsNoCapacity (first_value (found_of matches.now) (codes "pipe-capacity"))) }
{
    match matches.get_str("pipe-capacity") {
        None => Ok(PIPE_CAPACITY_DEFAULT),
        Some(text) => match capacity_of(text) {
            Some(capacity) => Ok(capacity),
            None => Err(text),
        },
    }
}

/// The limits of a run, of numbers in their ranges.
fn limits_of(records: u64, capacity: u64) -> Limits
    requires records { (1 ≤ records) × (records ≤ RECORDS_MAX) }
    requires capacity { (PIPE_CAPACITY_MIN ≤ capacity) × (capacity ≤ PIPE_CAPACITY_MAX) }
    ensures records { result.records ≡ records }
    ensures capacity { result.bounds.pipe_capacity ≡ capacity }
    ensures size { result.bounds.file_size ≡ FILE_SIZE_MAX }
{
    Limits::new(records, capacity).unwrap()
}

/// The number of sessions that the text of `--sessions` gives.
fn sessions_of(text: &str) -> Option<u8>
    ensures number { IfSome result (λ sessions. IsNumber SESSIONS_MAX (Some text.now) sessions) }
    ensures refused { result ≡ None → IsNoNumber SESSIONS_MAX (Some text.now) }
{
    let sessions = text.parse::<u8>().ok()?;
    if sessions == 0 || sessions > SESSIONS_MAX {
        return None;
    }
    Some(sessions)
}

/// The number of positions that the text of `--states` gives.
fn states_of(text: &str) -> Option<u64>
    ensures number { IfSome result (λ most. IsNumber STATES_MAX (Some text.now) most) }
    ensures refused { result ≡ None → IsNoNumber STATES_MAX (Some text.now) }
{
    let most = text.parse::<u64>().ok()?;
    if most == 0 || most > STATES_MAX {
        return None;
    }
    Some(most)
}

/// The number of positions that the matches of `outcomes` give, or the text that is no such number.
fn given_states<'a>(matches: &ArgMatches<'a>) -> Result<u64, &'a str>
    ensures number { IfOk result (λ most. IsStates (first_value (found_of matches.now) (codes "states")) most) }
    ensures range { IfOk result (λ most. (1 ≤ most) × (most ≤ STATES_MAX)) }
    ensures refused { IfErr result (λ text. IsNoStates (first_value (found_of matches.now) (codes "states"))) }
{
    match matches.get_str("states") {
        None => Ok(STATES_DEFAULT),
        Some(text) => match states_of(text) {
            Some(most) => Ok(most),
            None => Err(text),
        },
    }
}

/// The number of an outcome that the text of `--witness` gives.
fn outcome_of(text: &str) -> Option<u64>
    ensures number { IfSome result (λ number. IsOutcome text.now number) }
    ensures refused { result ≡ None → (n : ℕ) → IsOutcome text.now n → ⊥ }
{
    let number = text.parse::<u64>().ok()?;
    if number > WITNESS_MAX {
        return None;
    }
    Some(number)
}

/// What the text of `--witness` asks to tell, with each witness in this form.
fn telling_of(text: &str, form: Form) -> Option<Telling>
    ensures telling { IfSome result (λ telling. IsTold (Some text.now) form telling) }
    ensures refused { result ≡ None → IsNoTelling (Some text.now) }
{
    if text == "all" {
        return Some(Telling::Witnesses { form });
    }
    let number = outcome_of(text)?;
    Some(Telling::Witness { number, form })
}

/// Why `outcomes` cannot tell what it is asked for.
#[derive(Clone, Copy)]
enum Untold<'a> {
    /// The text of `--witness` names no outcome.
    NoOutcome(&'a str),
    /// The acts of witnesses are asked for, and no witness is.
    ActsAlone,
}

/// What the matches of `outcomes` ask to tell, or why they ask for nothing that can be told.
fn given_telling<'a>(matches: &ArgMatches<'a>) -> Result<Telling, Untold<'a>>
    ensures telling { IfOk result (λ telling. IsTelling (first_value (found_of matches.now)) telling) }
    ensures refused { IfErr result (λ why. IsUntold (first_value (found_of matches.now)) why) }
{
    let acts = matches.get_str("acts");
    match matches.get_str("witness") {
        None if is_used(acts) => Err(Untold::ActsAlone),
        None => Ok(Telling::Outcomes),
        Some(text) => match telling_of(text, form_of(acts)) {
            Some(telling) => Ok(telling),
            None => Err(Untold::NoOutcome(text)),
        },
    }
}

/// The fault that an error of the parse is.
fn fault_of_parse(error: Error) -> JobFault
    ensures { IsFaultOf error result }
{
    match error.kind() {
        ErrorKind::OutOfMemory => JobFault::NoMemory,
        ErrorKind::DisplayHelp | ErrorKind::DisplayVersion => JobFault::Shown(error),
        _ => JobFault::Usage(error),
    }
}

/// Whether an option without a value is used, by its value.
fn is_used(text: Option<&str>) -> bool
    ensures { result ≡ is_used (option_map (λ s. s.now) text.entry) }
{
    match text {
        Some(text) => text == "true",
        None => false,
    }
}

/// The spelling that the value of `--text` stands for.
fn spelling_of(text: Option<&str>) -> Spelling
    ensures { result ≡ spelling_of (option_map (λ s. s.now) text.entry) }
{
    if is_used(text) {
        Spelling::Text
    } else {
        Spelling::Plain
    }
}

/// The job that the matches of `replay` ask for.
fn replay_job(alloc: Global, matches: &ArgMatches<'_>) -> Result<Job, JobFault>
    ensures job { IfOk result (λ job. IsJobOf (Some (codes "replay")) (first_value (found_of matches.now)) job) }
    ensures fault { IfErr result (λ fault. RefusesNumber (Some (codes "replay")) (first_value (found_of matches.now)) fault) }
{
    let records = match matches.get_str("records") {
        None => DEFAULT_RECORDS,
        Some(text) => match records_of(text) {
            Some(records) => records,
            None => {
                let error = replay_error(alloc, "records", text, RECORDS_RANGE)?;
                return Err(JobFault::Usage(error));
            }
        },
    };
    let capacity = match given_capacity(matches) {
        Ok(capacity) => capacity,
        Err(text) => {
            let error = replay_error(alloc, "pipe-capacity", text, CAPACITY_RANGE)?;
            return Err(JobFault::Usage(error));
        }
    };
    Ok(Job::Replay {
        limits: limits_of(records, capacity),
        spelling: spelling_of(matches.get_str("text")),
    })
}

/// The text of an option that is given.
fn text_of<'a>(matches: &ArgMatches<'a>, option: &str) -> &'a str
    requires there { is_some (first_value (found_of matches.now) option.now) ≡ true }
    ensures { first_value (found_of matches.now) option.now ≡ Some result.now }
{
    match matches.get_str(option) {
        Some(text) => text,
        None => unreachable!(),
    }
}

/// The job that the matches of `serve` ask for, in which each of its options is given.
fn serve_job(alloc: Global, matches: &ArgMatches<'_>) -> Result<Job, JobFault>
    requires all { GivesAll (first_value (found_of matches.now)) }
    ensures job { IfOk result (λ job. IsJobOf (Some (codes "serve")) (first_value (found_of matches.now)) job) }
    ensures fault { IfErr result (λ fault. RefusesNumber (Some (codes "serve")) (first_value (found_of matches.now)) fault) }
{
    let text = text_of(matches, "sessions");
    let sessions = match sessions_of(text) {
        Some(sessions) => sessions,
        None => {
            let error = serve_error(alloc, "sessions", text, SESSIONS_RANGE)?;
            return Err(JobFault::Usage(error));
        }
    };
    let text = text_of(matches, "records");
    let records = match records_of(text) {
        Some(records) => records,
        None => {
            let error = serve_error(alloc, "records", text, RECORDS_RANGE)?;
            return Err(JobFault::Usage(error));
        }
    };
    let capacity = match given_capacity(matches) {
        Ok(capacity) => capacity,
        Err(text) => {
            let error = serve_error(alloc, "pipe-capacity", text, CAPACITY_RANGE)?;
            return Err(JobFault::Usage(error));
        }
    };
    let socket = String::from_str(alloc, text_of(matches, "socket"))?;
    let trace = String::from_str(alloc, text_of(matches, "trace"))?;
    Ok(Job::Serve {
        socket,
        sessions,
        limits: limits_of(records, capacity),
        trace,
    })
}

/// The demand that the value of `--complete` stands for.
fn demand_of(text: Option<&str>) -> Demand
    ensures { result ≡ demand_of (option_map (λ s. s.now) text.entry) }
{
    if is_used(text) {
        Demand::Complete
    } else {
        Demand::Legal
    }
}

/// The job that the matches of `audit` ask for, in which its file is given.
fn audit_job(alloc: Global, matches: &ArgMatches<'_>) -> Result<Job, JobFault>
    requires { GivesFile (first_value (found_of matches.now)) }
    ensures job { IfOk result (λ job. IsJobOf (Some (codes "audit")) (first_value (found_of matches.now)) job) }
    ensures fault { IfErr result (λ fault. RefusesNumber (Some (codes "audit")) (first_value (found_of matches.now)) fault) }
{
    let demand = demand_of(matches.get_str("complete"));
    let file = String::from_str(alloc, text_of(matches, "file"))?;
    Ok(Job::Audit { file, demand })
}

/// The form of witnesses for which the value of `--acts` stands.
fn form_of(text: Option<&str>) -> Form
    ensures { result ≡ form_of (option_map (λ s. s.now) text.entry) }
{
    if is_used(text) {
        Form::Acts
    } else {
        Form::Records
    }
}

/// The form in which the matches of `show` ask for a trace, if there is one.
fn form_given(matches: &ArgMatches<'_>) -> Option<Form>
    ensures { result ≡ form_given (first_value (found_of matches.now)) }
{
    let acts = is_used(matches.get_str("acts"));
    let text = is_used(matches.get_str("text"));
    let json = is_used(matches.get_str("json"));
    match (acts, text, json) {
        (false, false, false) => Some(Form::Records),
        (true, false, false) => Some(Form::Acts),
        (false, true, false) => Some(Form::RecordsInText),
        (true, true, false) => Some(Form::ActsInText),
        (false, false, true) => Some(Form::Objects),
        (_, _, true) => None,
    }
}

/// The error of `show` that is asked for objects and for another form too.
fn forms_error(alloc: Global) -> Result<Error, AllocError>
    ensures { IfOk result (λ e. kind_of e ≡ ErrorKind.ArgumentConflict) }
{
    let mut command = show_command(alloc)?.bin_name("fdref show")?;
    let message = "the argument '--json' cannot be used with '--acts' or '--text'";
    command.error(ErrorKind::ArgumentConflict, message)
}

/// The job that the matches of `show` ask for, in which its file is given.
fn show_job(alloc: Global, matches: &ArgMatches<'_>) -> Result<Job, JobFault>
    requires { GivesFile (first_value (found_of matches.now)) }
    ensures job { IfOk result (λ job. IsJobOf (Some (codes "show")) (first_value (found_of matches.now)) job) }
    ensures fault { IfErr result (λ fault. RefusesForms (first_value (found_of matches.now)) fault) }
{
    let form = match form_given(matches) {
        Some(form) => form,
        None => {
            let error = forms_error(alloc)?;
            return Err(JobFault::Usage(error));
        }
    };
    let file = String::from_str(alloc, text_of(matches, "file"))?;
    Ok(Job::Show { file, form })
}

/// The job that the matches of `migrate` ask for, in which both its files are given.
fn migrate_job(alloc: Global, matches: &ArgMatches<'_>) -> Result<Job, JobFault>
    requires { GivesBoth (first_value (found_of matches.now)) }
    ensures job { IfOk result (λ job. IsJobOf (Some (codes "migrate")) (first_value (found_of matches.now)) job) }
    ensures fault { IfErr result (λ fault. RefusesNumber (Some (codes "migrate")) (first_value (found_of matches.now)) fault) }
{
    let from = String::from_str(alloc, text_of(matches, "in"))?;
    let to = String::from_str(alloc, text_of(matches, "out"))?;
    Ok(Job::Migrate { from, to })
}

/// The job that the matches of `outcomes` ask for.
fn outcomes_job(alloc: Global, matches: &ArgMatches<'_>) -> Result<Job, JobFault>
    ensures job { IfOk result (λ job. IsJobOf (Some (codes "outcomes")) (first_value (found_of matches.now)) job) }
    ensures fault { IfErr result (λ fault. RefusesRace (first_value (found_of matches.now)) fault) }
{
    let most = match given_states(matches) {
        Ok(most) => most,
        Err(text) => {
            let error = outcomes_error(alloc, "states", text, STATES_RANGE)?;
            return Err(JobFault::Usage(error));
        }
    };
    let capacity = match given_capacity(matches) {
        Ok(capacity) => capacity,
        Err(text) => {
            let error = outcomes_error(alloc, "pipe-capacity", text, CAPACITY_RANGE)?;
            return Err(JobFault::Usage(error));
        }
    };
    let telling = match given_telling(matches) {
        Ok(telling) => telling,
        Err(why) => match why {
            Untold::NoOutcome(text) => {
                let error = witness_error(alloc, text)?;
                return Err(JobFault::Usage(error));
            }
            Untold::ActsAlone => {
                let error = acts_error(alloc)?;
                return Err(JobFault::Usage(error));
            }
        },
    };
    Ok(Job::Outcomes {
        limits: limits_of(DEFAULT_RECORDS, capacity),
        most,
        telling,
    })
}

/// The matches of the program's command line.
fn parsed<'a, S: AsStr>(alloc: Global, words: &'a [S]) -> Result<ArgMatches<'a>, JobFault>
    ensures ok { IfOk result (λ m. IsParse (map S.text words.entry.now) m) }
    ensures fault { IfErr result (λ fault. Deserves (map S.text words.entry.now) fault) }
{
    match fdref_command(alloc)?.try_get_matches_from(words) {
        Ok(matches) => Ok(matches),
        Err(error) => Err(fault_of_parse(error)),
    }
}

/// What the words ask for, of which the first is the program's name.
pub fn job_of<S: AsStr>(alloc: Global, words: &[S]) -> Result<Job, JobFault>
    ensures job { IfOk result (λ job. Asks (map S.text words.entry.now) job) }
    ensures fault { IfErr result (λ fault. Deserves (map S.text words.entry.now) fault) }
{
    let matches = parsed(alloc, words)?;
    if let Some(replay) = matches.subcommand_matches("replay") {
        return replay_job(alloc, replay);
    }
    if let Some(serve) = matches.subcommand_matches("serve") {
        return serve_job(alloc, serve);
    }
    if let Some(audit) = matches.subcommand_matches("audit") {
        return audit_job(alloc, audit);
    }
    if let Some(show) = matches.subcommand_matches("show") {
        return show_job(alloc, show);
    }
    if let Some(migrate) = matches.subcommand_matches("migrate") {
        return migrate_job(alloc, migrate);
    }
    match matches.subcommand_matches("outcomes") {
        Some(outcomes) => outcomes_job(alloc, outcomes),
        None => unreachable!(),
    }
}

/// The fault of a command line with a word that is not UTF-8.
pub fn not_text(alloc: Global) -> JobFault
    ensures { SaysNotText result }
{
    match not_text_error(alloc) {
        Ok(error) => JobFault::Usage(error),
        Err(_) => JobFault::NoMemory,
    }
}

/// The error of a command line with a word that is not UTF-8.
fn not_text_error(alloc: Global) -> Result<Error, AllocError>
    ensures { IfOk result (λ e. kind_of e ≡ ErrorKind.InvalidValue) }
{
    fdref_command(alloc)?.error(ErrorKind::InvalidValue, "a word is not UTF-8")
}

/// Command lines, written out, and how the program reads each of them. It does nothing.
pub fn lines_read()
    ensures plain { (fault_of fdref_app (line (codes "replay" ∷ [])) ≡ []) × (text_given (line (codes "replay" ∷ [])) (codes "records") ≡ None) }
    ensures apart { (fault_of fdref_app (line (codes "replay" ∷ codes "--records" ∷ codes "5" ∷ [])) ≡ []) × (text_given (line (codes "replay" ∷ codes "--records" ∷ codes "5" ∷ [])) (codes "records") ≡ Some (codes "5")) }
    ensures joined { (fault_of fdref_app (line (codes "replay" ∷ codes "--records=5" ∷ [])) ≡ []) × (text_given (line (codes "replay" ∷ codes "--records=5" ∷ [])) (codes "records") ≡ Some (codes "5")) }
    ensures greatest { IsRecords (Some (codes "1000000")) 1000000 }
    ensures zero { IsNoRecords (Some (codes "0")) }
    ensures above { IsNoRecords (Some (codes "1000001")) }
    ensures word { IsNoRecords (Some (codes "x")) }
    ensures missing { fault_of fdref_app (line []) ≡ ErrorKind.MissingSubcommand ∷ [] }
    ensures help { fault_of fdref_app (line (codes "--help" ∷ [])) ≡ ErrorKind.DisplayHelp ∷ [] }
    ensures version { fault_of fdref_app (line (codes "replay" ∷ codes "--version" ∷ [])) ≡ ErrorKind.DisplayVersion ∷ [] }
    ensures surplus { fault_of fdref_app (line (codes "replay" ∷ codes "x" ∷ [])) ≡ ErrorKind.UnknownArgument ∷ [] }
    ensures twice { fault_of fdref_app (line (codes "replay" ∷ codes "--records=5" ∷ codes "--records=5" ∷ [])) ≡ ErrorKind.ArgumentConflict ∷ [] }
    ensures serve { (fault_of fdref_app (line served) ≡ []) × (name_given (line served) ≡ Some (codes "serve")) }
    ensures socket { text_given (line served) (codes "socket") ≡ Some (codes "s") }
    ensures sessions { text_given (line served) (codes "sessions") ≡ Some (codes "2") }
    ensures records { text_given (line served) (codes "records") ≡ Some (codes "5") }
    ensures trace { text_given (line served) (codes "trace") ≡ Some (codes "t") }
    ensures incomplete { fault_of fdref_app (line (codes "serve" ∷ codes "--socket=s" ∷ codes "--records=5" ∷ codes "--trace=t" ∷ [])) ≡ ErrorKind.MissingRequiredArgument ∷ [] }
    ensures audit { (fault_of fdref_app (line (codes "audit" ∷ codes "t" ∷ [])) ≡ []) × (name_given (line (codes "audit" ∷ codes "t" ∷ [])) ≡ Some (codes "audit")) }
    ensures file { text_given (line (codes "audit" ∷ codes "t" ∷ [])) (codes "file") ≡ Some (codes "t") }
    ensures no_file { fault_of fdref_app (line (codes "audit" ∷ [])) ≡ ErrorKind.MissingRequiredArgument ∷ [] }
    ensures two_files { fault_of fdref_app (line (codes "audit" ∷ codes "t" ∷ codes "u" ∷ [])) ≡ ErrorKind.UnknownArgument ∷ [] }
    ensures audit_alone { demand_of (text_given (line (codes "audit" ∷ codes "t" ∷ [])) (codes "complete")) ≡ demand.Legal }
    ensures complete { (fault_of fdref_app (line completed) ≡ []) × (name_given (line completed) ≡ Some (codes "audit")) }
    ensures demand_of_complete { (text_given (line completed) (codes "file") ≡ Some (codes "t")) × (demand_of (text_given (line completed) (codes "complete")) ≡ demand.Complete) }
    ensures show { (fault_of fdref_app (line shown) ≡ []) × (name_given (line shown) ≡ Some (codes "show")) }
    ensures acts { (text_given (line shown) (codes "file") ≡ Some (codes "t")) × (form_given (text_given (line shown)) ≡ Some form.Acts) }
    ensures records_alone { form_given (text_given (line (codes "show" ∷ codes "t" ∷ []))) ≡ Some form.Records }
    ensures objects { (fault_of fdref_app (line (codes "show" ∷ codes "--json" ∷ codes "t" ∷ [])) ≡ []) × (form_given (text_given (line (codes "show" ∷ codes "--json" ∷ codes "t" ∷ []))) ≡ Some form.Objects) }
    ensures acts_in_text { form_given (text_given (line (codes "show" ∷ codes "--text" ∷ codes "--acts" ∷ codes "t" ∷ []))) ≡ Some form.ActsInText }
    ensures mixed_forms { (fault_of fdref_app (line mixed) ≡ []) × (form_given (text_given (line mixed)) ≡ None) }
    ensures in_text { (fault_of fdref_app (line (codes "replay" ∷ codes "--text" ∷ [])) ≡ []) × (spelling_of (text_given (line (codes "replay" ∷ codes "--text" ∷ [])) (codes "text")) ≡ spelling.Text) }
    ensures plainly { spelling_of (text_given (line (codes "replay" ∷ [])) (codes "text")) ≡ spelling.Plain }
    ensures migrate { (fault_of fdref_app (line migrated) ≡ []) × (name_given (line migrated) ≡ Some (codes "migrate")) }
    ensures both_files { (text_given (line migrated) (codes "in") ≡ Some (codes "t")) × (text_given (line migrated) (codes "out") ≡ Some (codes "u")) }
    ensures one_word { fault_of fdref_app (line (codes "migrate" ∷ codes "t" ∷ [])) ≡ ErrorKind.MissingRequiredArgument ∷ [] }
    ensures three_words { fault_of fdref_app (line (codes "migrate" ∷ codes "t" ∷ codes "u" ∷ codes "v" ∷ [])) ≡ ErrorKind.UnknownArgument ∷ [] }
    ensures traceless { fault_of fdref_app (line (codes "serve" ∷ codes "--socket=s" ∷ codes "--sessions=2" ∷ codes "--records=5" ∷ [])) ≡ ErrorKind.MissingRequiredArgument ∷ [] }
    ensures most_sessions { IsNumber SESSIONS_MAX (Some (codes "64")) 64 }
    ensures no_sessions { IsNoNumber SESSIONS_MAX (Some (codes "0")) }
    ensures too_many_sessions { IsNoNumber SESSIONS_MAX (Some (codes "65")) }
    ensures word_of_sessions { IsNoNumber SESSIONS_MAX (Some (codes "x")) }
    ensures greatest_capacity { IsCapacity (Some (codes "65536")) 65536 }
    ensures least_capacity { IsCapacity (Some (codes "512")) 512 }
    ensures capacity_above { IsNoCapacity (Some (codes "65537")) }
    ensures capacity_below { IsNoCapacity (Some (codes "511")) }
    ensures served_capacity { text_given (line (served ++ codes "--pipe-capacity=65536" ∷ [])) (codes "pipe-capacity") ≡ Some (codes "65536") }
    ensures capacity_given { (fault_of fdref_app (line (codes "replay" ∷ codes "--pipe-capacity=512" ∷ [])) ≡ []) × (text_given (line (codes "replay" ∷ codes "--pipe-capacity=512" ∷ [])) (codes "pipe-capacity") ≡ Some (codes "512")) }
    ensures outcomes { (fault_of fdref_app (line (codes "outcomes" ∷ [])) ≡ []) × (name_given (line (codes "outcomes" ∷ [])) ≡ Some (codes "outcomes")) }
    ensures outcomes_alone { (text_given (line (codes "outcomes" ∷ [])) (codes "states") ≡ None) × (text_given (line (codes "outcomes" ∷ [])) (codes "witness") ≡ None) }
    ensures states { (fault_of fdref_app (line (codes "outcomes" ∷ codes "--states" ∷ codes "5" ∷ [])) ≡ []) × (text_given (line (codes "outcomes" ∷ codes "--states" ∷ codes "5" ∷ [])) (codes "states") ≡ Some (codes "5")) }
    ensures witness { (fault_of fdref_app (line witnessed) ≡ []) × (text_given (line witnessed) (codes "witness") ≡ Some (codes "3")) }
    ensures acts_of_witness { form_of (text_given (line witnessed) (codes "acts")) ≡ form.Acts }
    ensures file_of_outcomes { fault_of fdref_app (line (codes "outcomes" ∷ codes "t" ∷ [])) ≡ ErrorKind.UnknownArgument ∷ [] }
    ensures default_states { IsStates None 300000 }
    ensures most_states { IsStates (Some (codes "100000000")) 100000000 }
    ensures no_states { IsNoStates (Some (codes "0")) }
    ensures too_many_states { IsNoStates (Some (codes "100000001")) }
    ensures tell_outcomes { IsTold None form.Records told.Outcomes }
    ensures tell_no_acts { (telling : Telling) → IsTold None form.Acts telling → ⊥ }
    ensures acts_alone { (fault_of fdref_app (line (codes "outcomes" ∷ codes "--acts" ∷ [])) ≡ []) × AsksActsAlone (text_given (line (codes "outcomes" ∷ codes "--acts" ∷ []))) }
    ensures tell_all { IsTold (Some (codes "all")) form.Records (told.Witnesses form.Records) }
    ensures tell_third { IsTold (Some (codes "3")) form.Acts (told.Witness 3 form.Acts) }
    ensures tell_greatest { IsTold (Some (codes "4294967295")) form.Acts (told.Witness 4294967295 form.Acts) }
    ensures outcome_above { IsNoTelling (Some (codes "4294967296")) }
    ensures word_of_outcome { IsNoTelling (Some (codes "x")) }
{}
