//! One run of a script: its bytes in, its lines out.
ghost use Rattle.std.specs.Prelude.{◌≡◌, ◌+◌, ◌≤◌, [], ◌++◌, Ok, length, IfOk, IfErr, IfSome, OnOk};
ghost use Rattle.script_text.specs.Races.{race_script};
ghost use Rattle.script_text.specs.ReadingCalls.{reading};
ghost use Rattle.script_text.specs.ReadingResults.{ScriptFails};
ghost use Rattle.script_text.specs.declared.script.TheConstants.{SCRIPT_MAX};
ghost use Rattle.job_core.specs.Reads.{ReadsFew};
ghost use Rattle.job_core.specs.Replay.{ReplayEnds, byte_at, column_in, end_at, end_in, end_of_fault, ends_in_return, from_line, is_data, last_of_line, opens_string, read_in};
ghost use Rattle.job_core.specs.Proved.Reading.{FailsToRead};
ghost use Rattle.job_core.specs.Proved.Running.{Gathers, RunsNext, RunsOn, RunsScript, RunsText, FailsAs, FailsReading, FailsTold};
ghost use Rattle.command_line.specs.declared.spelling.Spelling.{Spelling};
ghost use Rattle.command_line.specs.declared.spelling.Spelling.TheVariants as spelling;
ghost use Rattle.script_text.specs.declared.fault.ScriptFault.{ScriptFault};

use crate::job_end::JobEnd;
use crate::output::{put_line, write_lines};
use call_types::act::ScriptAct;
use call_types::limits::Limits;
use command_line::spelling::Spelling;
use logged_streams::reader::LoggedReader;
use logged_streams::reading::{ReadEnd, Takes, read_all};
use logged_streams::stream_log::INTERRUPTIONS_MAX;
use logged_streams::writer::LoggedWriter;
use script_run::run::ScriptRun;
use script_text::fault::{Expected, ScriptFault};
use script_text::lines::write_totals;
use script_text::round_trip::{read_scripts_are_spelled, spelled_scripts_are_read};
use script_text::script::{SCRIPT_MAX, Script};
use std::alloc::{AllocError, Global};
use std::io::{Read, Write};
use std::mem::forget;
use text_forms::scripts::{Lines, plain_script, source_column, write_strung};

/// How often a script is read. A reader that is not at its end by then has failed.
pub const READS_MAX: u32 = 1_048_576;

/// How often a script is read. The definitions name the constant, so a wrong number is seen here. It does nothing.
pub fn reads_of_a_script()
    ensures { READS_MAX ≡ 1048576 }
{}

/// How many bytes a read asks for.
const READ_LENGTH: usize = 65_536;

/// Why the text of a script is read no further.
#[derive(Clone, Copy, Debug, PartialEq, Eq)]
enum Stopped {
    /// It has more bytes than a script has.
    TooLong,
    /// Memory ran out.
    NoMemory,
}

/// The text of a script, as it is read.
#[derive(Drop)]
struct ScriptText {
    bytes: Vec<u8>,
}

impl Takes<()> for ScriptText {
    ghost use Rattle.std.specs.Prelude.{◌≡◌};
    ghost use Rattle.job_core.specs.ScriptText.{HasStopped};

    type Told = Stopped;

    ghost has_taken = { λ _ _ text _ bytes. text.bytes.items ≡ bytes };

    ghost has_told = { λ _ _ text _ bytes stopped. HasStopped text.bytes.items bytes stopped };

    fn take(&mut self, _out: &mut (), piece: &[u8]) -> Option<Stopped> {
        if self.bytes.extend_from_slice(piece).is_err() {
            return Some(Stopped::NoMemory);
        }
        if self.bytes.len() > SCRIPT_MAX {
            return Some(Stopped::TooLong);
        }
        None
    }
}

/// Reads the whole script, or a piece more than a script has. It can't be read where a read fails, sixteen in a row were interrupted, or
/// 1,048,576 found no end.
pub(crate) fn read_text<R: Read>(
    alloc: Global,
    reader: &mut LoggedReader<R>,
) -> Result<Vec<u8>, JobEnd>
    ensures few { reader.new.log.calls ≤ reader.old.log.calls + READS_MAX }
    ensures few_interrupted { reader.new.log.interruptions ≤ INTERRUPTIONS_MAX }
    ensures text { (how : Spelling) → IfOk result (λ text. IfSome reader.old.remaining (λ input. read_in how text.items ≡ read_in how input)) }
    ensures whole { IfOk result (λ text. IfSome reader.old.remaining (λ input. length text.items ≤ SCRIPT_MAX → text.items ≡ input)) }
    ensures race { IfOk result (λ text. IfSome reader.old.remaining (λ input. race_script text.items ≡ race_script input)) }
    ensures sound { OnOk result (reader.new.log.failed ≡ reader.old.log.failed) }
    ensures fault { IfErr result (λ ended. FailsToRead READS_MAX reader.old.log reader.new.log ended) }
{
    let _few = reader.log().interruptions();
    let mut buffer = vec![in alloc; 0u8; READ_LENGTH]?;
    let mut text = ScriptText {
        bytes: Vec::new(alloc),
    };
    match read_all(reader, &mut text, &mut (), buffer.as_mut_slice(), READS_MAX) {
        ReadEnd::AtEnd => Ok(text.bytes),
        ReadEnd::CannotRead => Err(JobEnd::CannotRead),
        ReadEnd::Told(stopped) => match stopped {
            Stopped::TooLong => Ok(text.bytes),
            Stopped::NoMemory => Err(JobEnd::NoMemory),
        },
    }
}

/// Runs the next act, which was read from a line, and gathers the lines of what is told of it.
fn run_next(
    alloc: Global,
    run: &mut ScriptRun,
    act: ScriptAct,
    line: &[u8],
    lines: &mut Vec<u8>,
) -> Result<(), AllocError>
    requires { reading line.now ≡ Ok act }
    ensures { OnOk result (RunsNext run.old run.new act lines.old.items lines.new.items) }
{
    let told = run.run_act(alloc, act);
    put_line(lines, line, &told)
}

/// Runs the acts that are left of a script, one after another as they are read, and gathers the lines of what is told of each.
fn run_all(
    alloc: Global,
    script: &mut Script<'_>,
    run: &mut ScriptRun,
    lines: &mut Vec<u8>,
) -> Result<(), ScriptFault>
    ensures ok { OnOk result (RunsOn script.old.read (Ok []) run.old run.new lines.old.items lines.new.items) }
    ensures fault { IfErr result (λ fault. ScriptFails fault script.old.read) }
{
    while let Some(act) = script.next_act(alloc)? {
        match run_next(alloc, run, act, script.line(), lines) {
            Ok(()) => {}
            Err(_) => return Err(ScriptFault::NoMemory),
        }
    }
    Ok(())
}

/// Runs the acts that are left of a script, and gathers their lines and the line of totals. `room` is the room for
/// lines at the start, in bytes.
fn gather_lines(
    alloc: Global,
    script: &mut Script<'_>,
    run: &mut ScriptRun,
    room: usize,
) -> Result<Vec<u8>, JobEnd>
    ensures lines { IfOk result (λ lines. Gathers script.old.read run.old lines.items) }
    ensures fault { IfErr result (λ ended. FailsReading script.old.read ended) }
{
    let mut lines = Vec::with_capacity(alloc, room)?;
    run_all(alloc, script, run, &mut lines)?;
    let counts = run.counts();
    write_totals(
        &mut lines,
        counts.records,
        counts.bytes_in,
        counts.bytes_out,
    )?;
    Ok(lines)
}

/// Gives an outcome back, and lets go of a value: leaks it where the outcome is a success, and drops it where it is none.
fn leaked_if_ok<T: Drop, U, E>(value: T, outcome: Result<U, E>) -> Result<U, E>
    ensures { result ≡ outcome }
{
    if outcome.is_ok() {
        forget(value);
    }
    outcome
}

/// Runs the acts of a script in a new run as they are read, and gathers its output. Where it succeeds, the run is leaked, and not
/// dropped one file after another.
fn run_script(alloc: Global, limits: Limits, text: &[u8]) -> Result<Vec<u8>, JobEnd>
    ensures lines { IfOk result (λ lines. RunsScript limits text.now lines.items) }
    ensures fault { IfErr result (λ ended. FailsAs text.now ended) }
{
    let mut script = Script::new(text)?;
    let mut run = ScriptRun::new(alloc, limits)?;
    let gathered = gather_lines(alloc, &mut script, &mut run, 2 * text.len());
    leaked_if_ok(run, gathered)
}

/// Runs the script for which a text with comments and strings stands, and gathers its output, with strings too.
fn run_text(alloc: Global, limits: Limits, text: &[u8]) -> Result<Vec<u8>, JobEnd>
    ensures lines { IfOk result (λ lines. RunsText limits spelling.Text text.now lines.items) }
    ensures fault { IfErr result (λ ended. FailsReading (read_in spelling.Text text.now) ended) }
{
    if text.len() > SCRIPT_MAX {
        return Err(JobEnd::TooLong);
    }
    let plain = plain_script(alloc, text)?;
    let lines = run_script(alloc, limits, plain.as_slice())?;
    let mut strung = Vec::with_capacity(alloc, lines.len())?;
    write_strung(&mut strung, Lines::Records, lines.as_slice())?;
    Ok(strung)
}

/// What is left of a text from a line on, which has so many lines before it.
fn from_line(text: &[u8], before: usize) -> &[u8]
    ensures { result.now ≡ from_line text.now before }
{
    let mut rest = text;
    let mut left = before;
    while let Some((byte, more)) = rest.split_first() {
        if left == 0 {
            return rest;
        }
        if *byte == b'\n' {
            left -= 1;
        }
        rest = more;
    }
    rest
}

/// The byte before the next end of a line; 0 for none.
fn last_of_line(text: &[u8]) -> u8
    ensures { result ≡ last_of_line 0 text.now }
{
    let mut rest = text;
    let mut last = 0;
    while let Some((byte, more)) = rest.split_first() {
        if *byte == b'\n' {
            return last;
        }
        last = *byte;
        rest = more;
    }
    last
}

/// Whether a line of a text, counted from 1, ends in a carriage return.
pub(crate) fn ends_in_return(text: &[u8], line: usize) -> bool
    ensures { result ≡ ends_in_return text.now line }
{
    last_of_line(from_line(text, line.saturating_sub(1))) == b'\r'
}

/// The byte at a line and column of a text, which count from 1; 0 for none.
fn byte_at(text: &[u8], line: usize, column: usize) -> u8
    ensures { result ≡ byte_at text.now line column }
{
    match from_line(text, line.saturating_sub(1)).get(column.saturating_sub(1)) {
        Some(byte) => *byte,
        None => 0,
    }
}

/// Whether data is expected.
fn is_data(expected: Expected) -> bool
    ensures { result ≡ is_data expected }
{
    match expected {
        Expected::Data => true,
        _ => false,
    }
}

/// Whether a byte begins a string where data is expected.
fn opens_string(byte: u8, expected: Expected) -> bool
    ensures { result ≡ opens_string byte expected }
{
    byte == b'"' && is_data(expected)
}

/// How a job ends where at this byte something else is expected.
fn end_at(how: Spelling, byte: u8, line: usize, column: usize, expected: Expected) -> JobEnd
    ensures { result ≡ end_at how byte line column expected }
{
    let bad_line = JobEnd::BadLine {
        line,
        column,
        expected,
    };
    match how {
        Spelling::Plain => {
            if byte == b'#' || opens_string(byte, expected) {
                JobEnd::NeedsText { line, column }
            } else {
                bad_line
            }
        }
        Spelling::Text => {
            if opens_string(byte, expected) {
                JobEnd::BadString { line, column }
            } else {
                bad_line
            }
        }
    }
}

/// The column in a text of a byte of the plain script.
fn column_in(how: Spelling, text: &[u8], line: usize, column: usize) -> usize
    ensures { result ≡ column_in how text.now line column }
{
    match how {
        Spelling::Plain => column,
        Spelling::Text => source_column(text, line, column),
    }
}

/// How a job ends where the plain script of a text ends it so.
fn end_in(how: Spelling, text: &[u8], found: JobEnd) -> JobEnd
    ensures { (fault : ScriptFault) → found ≡ end_of_fault fault → result ≡ end_in how text.now fault }
{
    let JobEnd::BadLine {
        line,
        column,
        expected,
    } = found
    else {
        return found;
    };
    let column = column_in(how, text, line, column);
    if ends_in_return(text, line) {
        return JobEnd::CarriageReturn { line, column };
    }
    end_at(how, byte_at(text, line, column), line, column, expected)
}

/// Runs the acts of a script that is spelled so in a new run, and gathers its output in the same spelling.
fn run_spelled(alloc: Global, limits: Limits, how: Spelling, text: &[u8]) -> Result<Vec<u8>, JobEnd>
    ensures lines { IfOk result (λ lines. RunsText limits how text.now lines.items) }
    ensures fault { IfErr result (λ ended. FailsReading (read_in how text.now) ended) }
{
    match how {
        Spelling::Plain => run_script(alloc, limits, text),
        Spelling::Text => run_text(alloc, limits, text),
    }
}

/// Runs the acts of a script that is spelled so in a new run, and gathers its output in the same spelling. A fault is told of the text.
fn run_in(alloc: Global, limits: Limits, how: Spelling, text: &[u8]) -> Result<Vec<u8>, JobEnd>
    ensures lines { IfOk result (λ lines. RunsText limits how text.now lines.items) }
    ensures fault { IfErr result (λ ended. FailsTold how text.now ended) }
{
    match run_spelled(alloc, limits, how, text) {
        Ok(lines) => Ok(lines),
        Err(found) => Err(end_in(how, text, found)),
    }
}

/// Reads a script that is spelled so, runs its acts in their order in a new run, and writes a line for each record and each act that is
/// not recorded, and a line of totals, in the same spelling. Nothing is written before the whole script is read and run. The state of
/// the run is leaked: it is meant for a program that ends then, and is to be called once in a process.
pub fn replay<R: Read, W: Write>(
    alloc: Global,
    reader: &mut LoggedReader<R>,
    writer: &mut LoggedWriter<W>,
    limits: Limits,
    how: Spelling,
) -> JobEnd
    ensures ends { ReplayEnds limits how reader.old.remaining writer.old writer.new result }
    ensures reads { ReadsFew READS_MAX reader.old.log reader.new.log result }
{
    spelled_scripts_are_read();
    read_scripts_are_spelled();
    let text = match read_text(alloc, reader) {
        Ok(text) => text,
        Err(ended) => return ended,
    };
    let lines = match run_in(alloc, limits, how, text.as_slice()) {
        Ok(lines) => lines,
        Err(ended) => return ended,
    };
    match write_lines(writer, lines.as_slice()) {
        Ok(()) => JobEnd::Done,
        Err(ended) => ended,
    }
}
