//! The lines that tell of a race: its calls, what they may answer, and how much was searched.

ghost use Rattle.std.specs.Prelude.{◌≡◌, ◌++◌, decimal, OnOk};
ghost use Rattle.script_text.specs.Lines.{act_line};
ghost use Rattle.race_outcomes.specs.Tellings.{texts, outcome_line, outcome_lines, race_line, race_lines, counts_line};

use crate::tellings::Told;
use call_types::act::{Act, Record};
use call_types::call::Call;
use call_types::outcome::{Outcome, Reply};
use itoa::Buffer;
use script_text::lines::write_act;
use script_text::races::RaceCall;
use std::alloc::AllocError;

/// Appends a number.
fn put_number(out: &mut Vec<u8>, number: usize) -> Result<(), AllocError>
    ensures { OnOk result (out.new.items ≡ out.old.items ++ decimal number) }
{
    let mut buffer = Buffer::new();
    out.extend_from_slice(buffer.format(number as u64).as_bytes())?;
    Ok(())
}

/// Appends the line of an outcome, with its LF.
pub fn put_outcome(out: &mut Vec<u8>, number: usize, text: &[u8]) -> Result<(), AllocError>
    ensures { OnOk result (out.new.items ≡ out.old.items ++ outcome_line number text.now) }
{
    out.extend_from_slice(b"outcome ")?;
    put_number(out, number)?;
    out.extend_from_slice(b": ")?;
    out.extend_from_slice(text)?;
    out.extend_from_slice(b"\n")?;
    Ok(())
}

/// Appends a line for each outcome, with its number, from 0, and its LF. An error says that memory ran out: then some of the
/// lines may be there.
pub fn put_outcomes(out: &mut Vec<u8>, told: &[Told]) -> Result<(), AllocError>
    ensures { OnOk result (out.new.items ≡ out.old.items ++ outcome_lines 0 (texts told.now)) }
{
    for index in 0..told.len() {
        put_outcome(out, index, told[index].text.as_slice())?;
    }
    Ok(())
}

/// Appends a call, as the line of a script asks for it, with its LF.
fn put_act(out: &mut Vec<u8>, process: u32, call: &Call) -> Result<(), AllocError>
    ensures { OnOk result (out.new.items ≡ out.old.items ++ act_line process (Act.Call call.now)) }
{
    // What is written of a record here is its act: the outcome isn't.
    let record = Record {
        actor: process,
        act: Act::Call(call.clone()?),
        outcome: Outcome::Reply(Reply::Done),
    };
    write_act(out, &record)
}

/// Appends the line of a call, with its LF.
fn put_call(out: &mut Vec<u8>, number: usize, call: &RaceCall) -> Result<(), AllocError>
    ensures { OnOk result (out.new.items ≡ out.old.items ++ race_line number call.now) }
{
    out.extend_from_slice(b"race ")?;
    put_number(out, number)?;
    out.extend_from_slice(b" ")?;
    put_act(out, call.process, &call.call)
}

/// Appends a line for each call of a race, with its number, from 0, and its LF. An error says that memory ran out: then some
/// of the lines may be there.
pub fn put_race(out: &mut Vec<u8>, calls: &[RaceCall]) -> Result<(), AllocError>
    ensures { OnOk result (out.new.items ≡ out.old.items ++ race_lines 0 calls.now) }
{
    for index in 0..calls.len() {
        put_call(out, index, &calls[index])?;
    }
    Ok(())
}

/// Appends the last line, with its LF: how many outcomes there are, and how many positions were met.
pub fn put_counts(out: &mut Vec<u8>, outcomes: usize, states: usize) -> Result<(), AllocError>
    ensures { OnOk result (out.new.items ≡ out.old.items ++ counts_line outcomes states) }
{
    out.extend_from_slice(b"outcomes ")?;
    put_number(out, outcomes)?;
    out.extend_from_slice(b" states ")?;
    put_number(out, states)?;
    out.extend_from_slice(b"\n")?;
    Ok(())
}
