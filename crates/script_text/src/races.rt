//! The script of a race: acts that are made one after another, a line `race`, and calls that are made at once.

ghost use Rattle.std.specs.Prelude.{◌≡◌, ◌≤◌, ◌+◌, Some, length, bytes_eq, codes, option_copied};
ghost use Rattle.script_text.specs.ReadingCalls.{reading};
ghost use Rattle.script_text.specs.ReadingScripts.{left_lines, left_size};
ghost use Rattle.script_text.specs.Races.{in_part, cut_answer, asked_at, act_of, as_call, call_line, line_calls, lines_calls, line_setup, lines_race, followed, RaceGives, ReadsRace};

use crate::answers::read_asked;
use crate::cutting::{Unread, cut_at};
use crate::fault::{Expected, ReadFault};
use crate::reading::read_act;
use crate::row::Row;
use crate::script::SCRIPT_MAX;
use call_types::act::ScriptAct;
use call_types::call::Call;
use std::alloc::{AllocError, Global};

/// An act before the race, and the number of its line, from 1.
#[derive(Drop)]
pub struct SetupAct {
    pub line: usize,
    pub act: ScriptAct,
}

/// A call of the race, the number of its line, from 1, and the text of the answer that is asked for, if one is.
#[derive(Drop)]
pub struct RaceCall {
    pub line: usize,
    pub process: u32,
    pub call: Call,
    pub asked: Option<Row<u8>>,
}

/// The acts before the race, and its calls, as their lines stand.
#[derive(Drop)]
pub struct RaceScript {
    pub setup: Row<SetupAct>,
    pub calls: Row<RaceCall>,
}

/// Why the script of a race isn't read. Lines and columns are counted from 1.
#[derive(Clone, Copy, Debug, PartialEq, Eq)]
pub enum RaceFault {
    /// A line is no act.
    BadLine {
        line: usize,
        column: usize,
        expected: Expected,
    },
    /// There is no line `race`.
    NoRace,
    /// A line after `race` is an act that is no call.
    NoCall {
        line: usize,
    },
    /// What stands behind a call and ` = ` is no answer.
    BadAnswer {
        line: usize,
        column: usize,
    },
    /// It has more than 16,777,216 bytes.
    TooLong,
    /// Memory ran out.
    NoMemory,
}

impl From<AllocError> for RaceFault {
    ghost use Rattle.script_text.specs.declared.races.RaceFault.TheVariants.{NoMemory};

    ghost from_gives = { λ _ e. e ≡ NoMemory };

    fn from(_fault: AllocError) -> RaceFault {
        RaceFault::NoMemory
    }
}

/// What stands before the first ` = ` of a line, and what after it.
#[tactic(auto, using(crate::proofs::RaceCuts::further_at, crate::proofs::RaceCuts::found, crate::proofs::RaceCuts::ends))]
fn cut_answer(line: &[u8]) -> (&[u8], Unread<'_>)
    ensures { (result.0.now, option_copied result.1) ≡ cut_answer line.now }
{
    for start in 0..line.len() {
        if let Some(answer) = line[start..].strip_prefix(b" = ") {
            return (&line[..start], Some(answer));
        }
    }
    (line, None)
}

/// What line `number` asks for behind the call that stands `before`, if anything.
fn asked_at(
    alloc: Global,
    number: usize,
    before: &[u8],
    answer: Unread<'_>,
) -> Result<Option<Row<u8>>, RaceFault>
    ensures { RaceGives (λ asked. asked) result (asked_at number before.now (option_copied answer.entry)) }
{
    let Some(text) = answer else {
        return Ok(None);
    };
    match read_asked(alloc, text)? {
        Some(asked) => Ok(asked),
        None => Err(RaceFault::BadAnswer {
            line: number,
            column: before.len() + 4,
        }),
    }
}

/// The parts of the script of a race: the lines before the line `race`, and those after it.
#[derive(Clone, Copy)]
enum Part {
    Setup,
    Race,
}

/// What could stand in this part, where in any script `expected` could.
fn in_part(part: Part, expected: Expected) -> Expected
    ensures { result ≡ in_part part expected }
{
    match (part, expected) {
        (Part::Setup, Expected::Actor) => Expected::ActorOrRace,
        (Part::Race, Expected::Actor) => Expected::Process,
        (Part::Race, Expected::Act) => Expected::Call,
        (_, other) => other,
    }
}

/// The act of line `number`, which stands in this part.
fn act_of(alloc: Global, part: Part, number: usize, line: &[u8]) -> Result<ScriptAct, RaceFault>
    ensures { RaceGives (λ act. act) result (act_of part number (reading line.now)) }
{
    match read_act(alloc, line) {
        Ok(act) => Ok(act),
        Err(ReadFault::NoMemory) => Err(RaceFault::NoMemory),
        Err(ReadFault::BadLine { column, expected }) => Err(RaceFault::BadLine {
            line: number,
            column,
            expected: in_part(part, expected),
        }),
    }
}

/// The process and the call of an act that is a call.
fn as_call(act: ScriptAct) -> Option<(u32, Call)>
    ensures { result ≡ as_call act }
{
    match act {
        ScriptAct::Call { process, call } => Some((process, call)),
        ScriptAct::Join
        | ScriptAct::Attach { .. }
        | ScriptAct::Resume { .. }
        | ScriptAct::Exit { .. }
        | ScriptAct::CloseRun => None,
    }
}

/// The call of line `number`, which isn't empty, and what is asked for behind it.
fn call_line(alloc: Global, number: usize, line: &[u8]) -> Result<RaceCall, RaceFault>
    ensures { RaceGives (λ call. call) result (call_line number line.now) }
{
    let (before, answer) = cut_answer(line);
    let Some((process, call)) = as_call(act_of(alloc, Part::Race, number, before)?) else {
        return Err(RaceFault::NoCall { line: number });
    };
    let asked = asked_at(alloc, number, before, answer)?;
    Ok(RaceCall {
        line: number,
        process,
        call,
        asked,
    })
}

/// Appends the call of line `number`; an empty line has none.
fn push_call(
    alloc: Global,
    number: usize,
    line: &[u8],
    calls: &mut Row<RaceCall>,
) -> Result<(), RaceFault>
    ensures { RaceGives (λ done. calls.new) result (followed calls.old (line_calls number line.now)) }
{
    if !line.is_empty() {
        calls.push(call_line(alloc, number, line)?)?;
    }
    Ok(())
}

/// The calls of what is left after so many lines.
fn read_calls(alloc: Global, lines: usize, rest: Unread<'_>) -> Result<Row<RaceCall>, RaceFault>
    requires { lines + left_size (option_copied rest) ≤ SCRIPT_MAX + 1 }
    ensures { RaceGives (λ calls. calls) result (lines_calls (lines + 1) (left_lines (option_copied rest.entry))) }
{
    let mut calls = Row::new(alloc);
    let mut number = lines;
    let mut left = rest;
    while let Some(bytes) = left {
        let (line, after) = cut_at(b'\n', bytes);
        number += 1;
        left = after;
        push_call(alloc, number, line, &mut calls)?;
    }
    Ok(calls)
}

/// Appends the act of line `number`; an empty line has none.
fn push_act(
    alloc: Global,
    number: usize,
    line: &[u8],
    setup: &mut Row<SetupAct>,
) -> Result<(), RaceFault>
    ensures { RaceGives (λ done. setup.new) result (followed setup.old (line_setup number line.now)) }
{
    if !line.is_empty() {
        let act = act_of(alloc, Part::Setup, number, line)?;
        setup.push(SetupAct { line: number, act })?;
    }
    Ok(())
}

/// Whether a line is the one after which the calls race.
fn is_race(line: &[u8]) -> bool
    ensures { result ≡ bytes_eq line.now (codes "race") }
{
    line == b"race".as_slice()
}

/// The script of a race that isn't too long.
fn read_lines(alloc: Global, text: &[u8]) -> Result<RaceScript, RaceFault>
    requires { length text.now ≤ SCRIPT_MAX }
    ensures { RaceGives (λ race. race) result (lines_race 1 (left_lines (Some text.now))) }
{
    let mut setup = Row::new(alloc);
    let mut number = 0;
    let mut left = Some(text);
    while let Some(bytes) = left {
        let (line, after) = cut_at(b'\n', bytes);
        number += 1;
        left = after;
        if is_race(line) {
            let calls = read_calls(alloc, number, left)?;
            return Ok(RaceScript { setup, calls });
        }
        push_act(alloc, number, line, &mut setup)?;
    }
    Err(RaceFault::NoRace)
}

/// Reads the script of a race: acts, one a line, a line `race`, and the calls that race, one a line. Behind a call may stand ` = ` and
/// the answer that is asked for, or a `?`. Empty lines are passed over. A fault is that of the first line that has one, or says that
/// there is no line `race`, that the text is too long, or that memory ran out.
pub fn read_race(alloc: Global, text: &[u8]) -> Result<RaceScript, RaceFault>
    ensures { ReadsRace result text.now }
{
    if text.len() > SCRIPT_MAX {
        return Err(RaceFault::TooLong);
    }
    read_lines(alloc, text)
}
