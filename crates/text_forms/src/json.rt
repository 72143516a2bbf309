//! Records as JSON objects, one on each line.

ghost use Rattle.std.specs.Prelude.{◌≡◌, ◌++◌, OnOk};
ghost use Rattle.text_forms.specs.Json.{actor_value, front_text, json_line};

mod acts;
mod flags;
mod members;
mod names;
mod outcomes;
mod values;

use crate::json::acts::put_act;
use crate::json::members::{put_key, put_number};
use crate::json::outcomes::put_told;
use crate::json::values::{put, put_decimal};
use call_types::act::{Act, Record};
use std::alloc::AllocError;

/// Appends the actor of an act.
fn put_actor(out: &mut Vec<u8>, actor: u32, act: &Act) -> Result<(), AllocError>
    ensures { OnOk result (out.new.items ≡ out.old.items ++ actor_value actor act.now) }
{
    match act {
        Act::CloseRun => put(out, b"\"house\""),
        Act::Join | Act::Attach | Act::Call(_) | Act::Resume | Act::Exit => put_decimal(
            out,
            u64::from(actor),
        ),
    }
}

/// Appends the start of an object: the place and the process.
fn put_front(out: &mut Vec<u8>, place: u64, actor: u32, act: &Act) -> Result<(), AllocError>
    ensures { OnOk result (out.new.items ≡ out.old.items ++ front_text place actor act.now) }
{
    put(out, b"{")?;
    put_number(out, b"place", place)?;
    put_key(out, b"process")?;
    put_actor(out, actor, act)?;
    put(out, b",")
}

/// Appends the object of a record at a place, and a line end.
pub fn write_json(out: &mut Vec<u8>, place: u64, told: &Record) -> Result<(), AllocError>
    ensures { OnOk result (out.new.items ≡ out.old.items ++ json_line place told.now) }
{
    put_front(out, place, told.actor, &told.act)?;
    put_act(out, &told.act)?;
    put_key(out, b"outcome")?;
    put_told(out, told)?;
    put(out, b"}\n")
}
