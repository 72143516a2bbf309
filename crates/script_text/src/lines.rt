//! The lines of a run, written. Room for a whole line is made first; then nothing can fail.

ghost use Rattle.std.specs.Prelude.{◌≡◌, ◌≤◌, ◌+◌, ◌-◌, ◌++◌, length, ◌<◌, ◌^◌};
ghost use Rattle.call_types.specs.Writing.{Appends};
ghost use Rattle.script_text.specs.ReadingResults.{IsReadAs};
ghost use Rattle.script_text.specs.Lines.{actor_word, act_line, act_text, outcome_text, record_line, script_act_text, script_actor_word, refused_line, still_line, refusal_word, totals_line};
ghost use Rattle.script_text.specs.Proved.Asked.{asked_of};
ghost use Rattle.script_text.specs.Proved.Copied.{copied_line};
ghost use Rattle.script_text.specs.Proved.Room.{HasRoom, UsesRoom, act_room, call_room, script_act_room, outcome_room};

use crate::calls::{CALL_ROOM, put_call, room_of_call};
use crate::copies::is_as_written;
use crate::outcomes::{OUTCOME_ROOM, put_outcome, room_of_outcome};
use crate::put::{FIELD_ROOM, put, put_number, put_process};
use call_types::act::{Act, Record, ScriptAct};
use call_types::call::Call;
use call_types::outcome::Outcome;
use call_types::refusal::Refusal;
use std::alloc::AllocError;

/// Bytes of a line without its act and outcome, at most: the place, the actor, and what stands between.
const LINE_ROOM: usize = 64;

/// Bytes of the last line, at most.
const TOTALS_ROOM: usize = 96;

/// Room in which an act can be written.
#[inline(always)]
fn room_of_act(act: &Act) -> usize
    ensures enough { act_room act.now ≤ result }
    ensures small { result < 2 ^ 32 }
{
    match act {
        Act::Call(call) => room_of_call(call),
        Act::Join | Act::Attach | Act::Resume | Act::Exit | Act::CloseRun => CALL_ROOM,
    }
}

/// Appends an act, after its actor.
#[inline(always)]
fn put_act(out: &mut Vec<u8>, act: &Act)
    requires { HasRoom out.old (act_room act.now) }
    ensures text { out.new.items ≡ out.old.items ++ act_text act.now }
    ensures room { UsesRoom out.old out.new (act_room act.now) }
{
    match act {
        Act::Join => put(out, b"join"),
        Act::Attach => put(out, b"attach"),
        Act::Call(call) => put_call(out, call),
        Act::Resume => put(out, b"resume"),
        Act::Exit => put(out, b"exit"),
        Act::CloseRun => put(out, b"close-run"),
    }
}

/// Appends the actor of an act.
fn put_actor(out: &mut Vec<u8>, actor: u32, act: &Act)
    requires { HasRoom out.old FIELD_ROOM }
    ensures text { out.new.items ≡ out.old.items ++ actor_word actor act.now }
    ensures room { UsesRoom out.old out.new FIELD_ROOM }
{
    match act {
        Act::CloseRun => put(out, b"house"),
        Act::Join | Act::Attach | Act::Call(_) | Act::Resume | Act::Exit => put_process(out, actor),
    }
}

/// Appends the line of the record at a place, with its LF, for which there is room.
fn put_record(out: &mut Vec<u8>, place: u64, record: &Record)
    requires { HasRoom out.old (LINE_ROOM + (act_room «record».now.act + outcome_room «record».now.outcome)) }
    ensures { out.new.items ≡ out.old.items ++ record_line place «record».now }
{
    put_number(out, place);
    out.push_reserved(b' ');
    put_actor(out, record.actor, &record.act);
    out.push_reserved(b' ');
    put_act(out, &record.act);
    put(out, b" = ");
    put_outcome(out, &record.outcome);
    out.push_reserved(b'\n');
}

/// Appends the line of the record at a place, with its LF.
pub fn write_record(out: &mut Vec<u8>, place: u64, record: &Record) -> Result<(), AllocError>
    // The line stands after the old bytes; where memory runs out these are still the front.
    ensures { Appends result out.old.items out.new.items (record_line place «record».now) }
{
    out.reserve(LINE_ROOM + room_of_act(&record.act) + room_of_outcome(&record.outcome))?;
    put_record(out, place, record);
    Ok(())
}

/// Appends the line of the record at a place, with its LF, by the line of the script that asked for it, for which there is room.
fn put_copied(out: &mut Vec<u8>, place: u64, line: &[u8], outcome: &Outcome)
    requires { HasRoom out.old (LINE_ROOM + (length line.now + outcome_room outcome.now)) }
    ensures { out.new.items ≡ out.old.items ++ copied_line place line.now outcome.now }
{
    put_number(out, place);
    out.push_reserved(b' ');
    put(out, line);
    put(out, b" = ");
    put_outcome(out, outcome);
    out.push_reserved(b'\n');
}

/// Appends the line of the record at a place, with its LF, by the line of the script that asked for it.
fn write_copied(
    out: &mut Vec<u8>,
    place: u64,
    line: &[u8],
    outcome: &Outcome,
) -> Result<(), AllocError>
    // The line stands after the old bytes; where memory runs out these are still the front.
    ensures { Appends result out.old.items out.new.items (copied_line place line.now outcome.now) }
{
    out.reserve(LINE_ROOM + line.len() + room_of_outcome(outcome))?;
    put_copied(out, place, line, outcome);
    Ok(())
}

/// Appends the line of the record at a place, with its LF, as `write_record` does. It copies the line of the script, without its
/// LF, that was read as the record's act, unless the act might be written otherwise than it is spelled there.
pub fn write_record_as_read(
    out: &mut Vec<u8>,
    place: u64,
    line: &[u8],
    record: &Record,
) -> Result<(), AllocError>
    requires { IsReadAs line.now «record».now.actor «record».now.act }
    // The line stands after the old bytes; where memory runs out these are still the front.
    ensures { Appends result out.old.items out.new.items (record_line place «record».now) }
{
    if is_as_written(line, &record.act) {
        write_copied(out, place, line, &record.outcome)
    } else {
        write_record(out, place, record)
    }
}

/// Appends an outcome, as the line of a record has it.
pub fn write_outcome(out: &mut Vec<u8>, outcome: &Outcome) -> Result<(), AllocError>
    // The outcome stands after the old bytes; where memory runs out these are still the front.
    ensures { Appends result out.old.items out.new.items (outcome_text outcome.now) }
{
    out.reserve(room_of_outcome(outcome))?;
    put_outcome(out, outcome);
    Ok(())
}

/// Appends the process that a script asks for an act, and a space; nothing for a join or for the closing.
fn put_asked(out: &mut Vec<u8>, actor: u32, act: &Act)
    requires { HasRoom out.old LINE_ROOM }
    ensures text { out.new.items ≡ out.old.items ++ asked_of actor act.now }
    ensures room { UsesRoom out.old out.new (LINE_ROOM - 1) }
{
    match act {
        Act::Join | Act::CloseRun => {}
        Act::Attach | Act::Call(_) | Act::Resume | Act::Exit => {
            put_process(out, actor);
            out.push_reserved(b' ');
        }
    }
}

/// Appends the line of a script that asks for an act, with its LF, for which there is room.
fn put_act_line(out: &mut Vec<u8>, actor: u32, act: &Act)
    requires { HasRoom out.old (LINE_ROOM + act_room act.now) }
    ensures { out.new.items ≡ out.old.items ++ act_line actor act.now }
{
    put_asked(out, actor, act);
    put_act(out, act);
    out.push_reserved(b'\n');
}

/// Appends the line of a script that asks for what a record tells, with its LF.
pub fn write_act(out: &mut Vec<u8>, record: &Record) -> Result<(), AllocError>
    // The line stands after the old bytes; where memory runs out these are still the front.
    ensures { Appends result out.old.items out.new.items (act_line «record».now.actor «record».now.act) }
{
    out.reserve(LINE_ROOM + room_of_act(&record.act))?;
    put_act_line(out, record.actor, &record.act);
    Ok(())
}

/// Appends the line of a script that asks for a call, with its LF, for which there is room.
fn put_call_line(out: &mut Vec<u8>, process: u32, call: &Call)
    requires { HasRoom out.old (LINE_ROOM + call_room call.now) }
    ensures { out.new.items ≡ out.old.items ++ act_line process (Act.Call call.now) }
{
    put_process(out, process);
    out.push_reserved(b' ');
    put_call(out, call);
    out.push_reserved(b'\n');
}

/// Appends the line of a script that asks for a call of a process, with its LF.
pub fn write_call_line(out: &mut Vec<u8>, process: u32, call: &Call) -> Result<(), AllocError>
    // The line stands after the old bytes; where memory runs out these are still the front.
    ensures { Appends result out.old.items out.new.items (act_line process (Act.Call call.now)) }
{
    out.reserve(LINE_ROOM + room_of_call(call))?;
    put_call_line(out, process, call);
    Ok(())
}

/// Room in which an act of a script can be written.
fn room_of_script_act(act: &ScriptAct) -> usize
    ensures enough { script_act_room act.now ≤ result }
    ensures small { result < 2 ^ 32 }
{
    match act {
        ScriptAct::Call { call, .. } => room_of_call(call),
        ScriptAct::Join
        | ScriptAct::Attach { .. }
        | ScriptAct::Resume { .. }
        | ScriptAct::Exit { .. }
        | ScriptAct::CloseRun => CALL_ROOM,
    }
}

/// Appends an act of a script, after its actor.
fn put_script_act(out: &mut Vec<u8>, act: &ScriptAct)
    requires { HasRoom out.old (script_act_room act.now) }
    ensures text { out.new.items ≡ out.old.items ++ script_act_text act.now }
    ensures room { UsesRoom out.old out.new (script_act_room act.now) }
{
    match act {
        ScriptAct::Join => put(out, b"join"),
        ScriptAct::Attach { .. } => put(out, b"attach"),
        ScriptAct::Call { call, .. } => put_call(out, call),
        ScriptAct::Resume { .. } => put(out, b"resume"),
        ScriptAct::Exit { .. } => put(out, b"exit"),
        ScriptAct::CloseRun => put(out, b"close-run"),
    }
}

/// Appends the actor of an act of a script.
fn put_script_actor(out: &mut Vec<u8>, actor: u32, act: &ScriptAct)
    requires { HasRoom out.old FIELD_ROOM }
    ensures text { out.new.items ≡ out.old.items ++ script_actor_word actor act.now }
    ensures room { UsesRoom out.old out.new FIELD_ROOM }
{
    match act {
        ScriptAct::CloseRun => put(out, b"house"),
        ScriptAct::Join
        | ScriptAct::Attach { .. }
        | ScriptAct::Call { .. }
        | ScriptAct::Resume { .. }
        | ScriptAct::Exit { .. } => put_process(out, actor),
    }
}

/// How a refusal is written.
fn refusal_text(refusal: Refusal) -> &'static [u8]
    ensures text { result.now ≡ refusal_word refusal }
    ensures short { length result.now ≤ 8 }
{
    match refusal {
        Refusal::NoMemory => b"NoMemory",
        Refusal::RunFull => b"RunFull",
        Refusal::Waiting => b"Waiting",
        Refusal::NotHere => b"NotHere",
        Refusal::Foreign { .. } => b"Foreign",
    }
}

/// Appends the line of an act that isn't recorded, with its LF, for which there is room.
fn put_refused(out: &mut Vec<u8>, actor: u32, act: &ScriptAct, refusal: Refusal)
    requires { HasRoom out.old (LINE_ROOM + script_act_room act.now) }
    ensures { out.new.items ≡ out.old.items ++ refused_line actor act.now refusal }
{
    put(out, b"- ");
    put_script_actor(out, actor, act);
    out.push_reserved(b' ');
    put_script_act(out, act);
    put(out, b" = refused ");
    put(out, refusal_text(refusal));
    out.push_reserved(b'\n');
}

/// Appends the line of an act that isn't recorded, with its LF. The actor of a join is the one that it would have had, and
/// that of a closing is the house, whatever number is given.
pub fn write_refused(
    out: &mut Vec<u8>,
    actor: u32,
    act: &ScriptAct,
    refusal: Refusal,
) -> Result<(), AllocError>
    // The line stands after the old bytes; where memory runs out these are still the front.
    ensures { Appends result out.old.items out.new.items (refused_line actor act.now refusal) }
{
    out.reserve(LINE_ROOM + room_of_script_act(act))?;
    put_refused(out, actor, act, refusal);
    Ok(())
}

/// Appends the line of an act that records nothing, with its LF, for which there is room.
fn put_still(out: &mut Vec<u8>, actor: u32, act: &ScriptAct)
    requires { HasRoom out.old (LINE_ROOM + script_act_room act.now) }
    ensures { out.new.items ≡ out.old.items ++ still_line actor act.now }
{
    put(out, b"- ");
    put_script_actor(out, actor, act);
    out.push_reserved(b' ');
    put_script_act(out, act);
    put(out, b" = still\n");
}

/// Appends the line of an act that records nothing, since it has nothing to do, with its LF.
pub fn write_still(out: &mut Vec<u8>, actor: u32, act: &ScriptAct) -> Result<(), AllocError>
    // The line stands after the old bytes; where memory runs out these are still the front.
    ensures { Appends result out.old.items out.new.items (still_line actor act.now) }
{
    out.reserve(LINE_ROOM + room_of_script_act(act))?;
    put_still(out, actor, act);
    Ok(())
}

/// Appends the last line, for which there is room.
fn put_totals(out: &mut Vec<u8>, records: u64, bytes_in: u64, bytes_out: u64)
    requires { HasRoom out.old TOTALS_ROOM }
    ensures { out.new.items ≡ out.old.items ++ totals_line records bytes_in bytes_out }
{
    put(out, b"records ");
    put_number(out, records);
    put(out, b" in ");
    put_number(out, bytes_in);
    put(out, b" out ");
    put_number(out, bytes_out);
    out.push_reserved(b'\n');
}

/// Appends the last line, of the number of records and of the bytes that went in and out, with its LF.
pub fn write_totals(
    out: &mut Vec<u8>,
    records: u64,
    bytes_in: u64,
    bytes_out: u64,
) -> Result<(), AllocError>
    // The line stands after the old bytes; where memory runs out these are still the front.
    ensures { Appends result out.old.items out.new.items (totals_line records bytes_in bytes_out) }
{
    out.reserve(TOTALS_ROOM)?;
    put_totals(out, records, bytes_in, bytes_out);
    Ok(())
}
