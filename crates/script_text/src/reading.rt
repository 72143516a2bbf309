//! Reading one line of a script.

ghost use Rattle.std.specs.Prelude.{Some, Ok, IfOk};
ghost use Rattle.std.specs.Option.{option_copied};
ghost use Rattle.script_text.specs.Reading.{Gives, Word};
ghost use Rattle.script_text.specs.ReadingCalls.{process_act, bare_act, act_at, reading};
ghost use Rattle.script_text.specs.ReadingResults.{LineGives};
ghost use Rattle.script_text.specs.Spellings.{SpellsAct};
ghost use Rattle.call_types.specs.declared.act.ScriptAct.{ScriptAct};

use crate::calls::call;
use crate::fault::{Expected, ReadFault, WordFault};
use crate::number::process_value;
use crate::words::{Next, line_end, next_word};
use call_types::act::ScriptAct;
use std::alloc::Global;

/// The act of a process, by the word after the process.
fn process_act(alloc: Global, process: u32, word: Next<'_>) -> Result<ScriptAct, WordFault>
    ensures { Gives (λ x. x) result (process_act process (record { text = word.entry.text.now; remaining = word.entry.remaining; after = option_copied word.entry.after })) }
{
    if word.is(b"attach") {
        line_end(word.after)?;
        return Ok(ScriptAct::Attach { process });
    }
    if word.is(b"resume") {
        line_end(word.after)?;
        return Ok(ScriptAct::Resume { process });
    }
    if word.is(b"exit") {
        line_end(word.after)?;
        return Ok(ScriptAct::Exit { process });
    }
    // A match, since `?` would move the call once more.
    match call(alloc, word) {
        Ok(call) => Ok(ScriptAct::Call { process, call }),
        Err(fault) => Err(fault),
    }
}

/// The act that has no process in front, by its word.
fn bare_act(word: Next<'_>) -> Result<ScriptAct, WordFault>
    ensures { Gives (λ x. x) result (bare_act (record { text = word.entry.text.now; remaining = word.entry.remaining; after = option_copied word.entry.after })) }
{
    if word.is(b"join") {
        line_end(word.after)?;
        return Ok(ScriptAct::Join);
    }
    if word.is(b"close-run") {
        line_end(word.after)?;
        return Ok(ScriptAct::CloseRun);
    }
    Err(WordFault::At {
        remaining: word.remaining,
        expected: Expected::Actor,
    })
}

/// The act of a line.
fn act(alloc: Global, line: &[u8]) -> Result<ScriptAct, WordFault>
    ensures { Gives (λ x. x) result (act_at (Some line.now)) }
{
    let word = next_word(Expected::Actor, Some(line))?;
    match process_value(word.text) {
        Some(process) => process_act(alloc, process, next_word(Expected::Act, word.after)?),
        None => bare_act(word),
    }
}

/// Reads the act of a script line, given without its LF.
pub fn read_act(alloc: Global, line: &[u8]) -> Result<ScriptAct, ReadFault>
    // The line spells the act that is returned.
    ensures found { IfOk result (λ act. SpellsAct act line.now) }
    // A line that spells an act is read as that act, unless memory runs out.
    ensures only { (act : ScriptAct) → SpellsAct act line.now → LineGives result (Ok act) }
    // Which act or fault is returned, exactly.
    ensures exact { LineGives result (reading line.now) }
{
    match act(alloc, line) {
        Ok(act) => Ok(act),
        Err(WordFault::NoMemory) => Err(ReadFault::NoMemory),
        Err(
            WordFault::At {
                remaining,
                expected,
            },
        ) => Err(ReadFault::BadLine {
            column: line.len().saturating_sub(remaining) + 1,
            expected,
        }),
    }
}
