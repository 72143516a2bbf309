//! Reading a script, act by act.

ghost use Rattle.std.specs.Prelude.{◌≡◌, ◌<◌, ◌∷◌, [], true, is_some, IfOk};
ghost use Rattle.script_text.specs.ReadingCalls.{reading};
ghost use Rattle.script_text.specs.ReadingScripts.{numbered};
ghost use Rattle.call_types.specs.declared.act.ScriptAct.{ScriptAct};
ghost use Rattle.script_text.specs.ReadingResults.{Opens, NextGives, NextIsFrom};
ghost use Rattle.script_text.specs.Proved.Scripts.{ScriptGives};

use crate::common::common_act;
use crate::cutting::{Unread, cut_at};
use crate::fault::{ReadFault, ScriptFault};
use crate::reading::read_act;
use call_types::act::ScriptAct;
use std::alloc::Global;
use std::marker::Model;

/// The bytes of a script, at most.
pub const SCRIPT_MAX: usize = 16_777_216;

/// What is left of a script. Contracts see the acts that are still to be read, or the first fault of the lines that are left,
/// how many lines there are at most, and the line that was read last.
#[derive(Debug, Drop)]
pub struct Script<'a> {
    /// How many lines were read.
    number: usize,
    left: Unread<'a>,
    /// The line that was read last.
    line: &'a [u8],
}

impl<'a> Model for Script<'a> {
    ghost use Rattle.std.specs.Prelude.{◌≤◌, ◌+◌};
    ghost use Rattle.std.specs.Option.{option_copied};
    ghost use Rattle.script_text.specs.declared.script.TheConstants.{SCRIPT_MAX};
    ghost use Rattle.script_text.specs.ReadingScripts.{Rest, rest_of, left_size};

    ghost Value = { Rest };

    ghost view = { λ script. rest_of script.number (option_copied script.left) script.line.now };

    ghost invariant = { λ script. script.number + left_size (option_copied script.left) ≤ SCRIPT_MAX + 1 };
}

/// The act of line `number`, which isn't empty.
fn line_act(alloc: Global, number: usize, line: &[u8]) -> Result<ScriptAct, ScriptFault>
    ensures { ScriptGives (λ act. act ∷ []) result (numbered number (reading line.now)) }
{
    if let Some(act) = common_act(alloc, line) {
        return Ok(act);
    }
    match read_act(alloc, line) {
        Ok(act) => Ok(act),
        Err(ReadFault::NoMemory) => Err(ScriptFault::NoMemory),
        Err(ReadFault::BadLine { column, expected }) => Err(ScriptFault::BadLine {
            line: number,
            column,
            expected,
        }),
    }
}

impl<'a> Script<'a> {
    /// The script of a text. One of more than `SCRIPT_MAX` bytes is too long, which is the only fault here: no line is read yet.
    pub fn new(text: &'a [u8]) -> Result<Script<'a>, ScriptFault>
        ensures opened { Opens result text.now }
    {
        if text.len() > SCRIPT_MAX {
            return Err(ScriptFault::TooLong);
        }
        Ok(Script {
            number: 0,
            left: Some(text),
            line: b"",
        })
    }

    /// The line, without its LF, from which the last act was read; where `next_act` has read none, the line is empty.
    pub fn line(&self) -> &'a [u8]
        ensures { result.now ≡ self.now.line }
    {
        self.line
    }

    /// Reads the next act; `None` at the end of the script. A fault is a line that is no act, with its number from 1 and its
    /// column, or says that memory ran out. After a fault nothing is promised of what is left.
    pub fn next_act(&mut self, alloc: Global) -> Result<Option<ScriptAct>, ScriptFault>
        ensures gives { NextGives self.old.read self.new.read result }
        ensures shorter { IfOk result (λ next. is_some next ≡ true → self.new.most < self.old.most) }
        ensures line { NextIsFrom self.new.line result }
    {
        while let Some(rest) = self.left {
            let (line, after) = cut_at(b'\n', rest);
            self.number += 1;
            self.left = after;
            self.line = line;
            if !line.is_empty() {
                // A match, since `?` would move the act once more.
                match line_act(alloc, self.number, line) {
                    Ok(act) => return Ok(Some(act)),
                    Err(fault) => return Err(fault),
                }
            }
        }
        Ok(None)
    }
}
