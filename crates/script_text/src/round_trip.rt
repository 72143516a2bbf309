//! What holds of the reading itself. Each function does nothing; its contract is the law.

ghost use Rattle.std.specs.Prelude.{◌≡◌, ◌<◌, ◌^◌, ◌++◌, ℕ, List, Option, Some, Ok, codes};
ghost use Rattle.call_types.specs.declared.call.Call.{Call};
ghost use Rattle.call_types.specs.declared.act.ScriptAct.{ScriptAct};
ghost use Rattle.call_types.specs.declared.act.ScriptAct.TheVariants as acts;
ghost use Rattle.call_types.specs.declared.outcome.Outcome.{Outcome};
ghost use Rattle.script_text.specs.Answers.{answer_text, asked_of};
ghost use Rattle.script_text.specs.Proved.Answered.{FitsAnswer, RaceRows};
ghost use Rattle.script_text.specs.Proved.CallRows.{CallRows};
ghost use Rattle.script_text.specs.Lines.{process_word, call_text, script_line};
ghost use Rattle.script_text.specs.ReadingCalls.{reading};
ghost use Rattle.script_text.specs.ReadingScripts.{script};
ghost use Rattle.script_text.specs.Spellings.{SpellsScript};
ghost use Rattle.script_text.specs.Proved.Scripts.{IsScriptCall, IsScriptAct};

use crate::script::SCRIPT_MAX;

/// Every call and every other act that a script may have is read again from the words in which a run writes it.
pub fn written_calls_are_read_again()
    ensures calls { (process : ℕ) (call : Call) → process < 2 ^ 32 → IsScriptCall call → reading (process_word process ++ codes " " ++ call_text call) ≡ Ok (acts.Call process call) }
    ensures acts { (act : ScriptAct) → IsScriptAct act → reading (script_line act) ≡ Ok act }
{}

/// A text that spells acts is read as these, so what is read as a fault spells none.
pub fn spelled_scripts_are_read()
    ensures { (acts : List ScriptAct) (text : List ℕ) → SpellsScript acts text → script text ≡ Ok acts }
{}

/// A text that is read as acts spells these.
pub fn read_scripts_are_spelled()
    ensures { (acts : List ScriptAct) (text : List ℕ) → script text ≡ Ok acts → SpellsScript acts text }
{}

/// The words of the calls, their request bytes, the order of their fields and the greatest length of a script, each said
/// once more: what is read and what is written both go by the one table of calls and the one constant.
pub fn calls_as_read()
    ensures calls { CallRows }
    ensures script_max { SCRIPT_MAX ≡ 2 ^ 24 }
{}

/// What is written for an answer is asked for by its text, where its numbers and its data are in their ranges.
pub fn written_answers_are_asked_for()
    ensures { (answer : Option Outcome) → FitsAnswer answer → asked_of (answer_text answer) ≡ Some (Some (answer_text answer)) }
{}

/// What texts ask for, and the races that scripts are, said once more row by row.
pub fn races_as_read()
    ensures { RaceRows }
{}
