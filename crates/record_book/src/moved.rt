ghost use Rattle.std.specs.Prelude.{◌≡◌, ◌≤◌, [], length, unwrap_or};
ghost use Rattle.call_types.specs.CallTable.{payload_of};
ghost use Rattle.posix_model.specs.Proved.Sound.{data_of};
ghost use Rattle.posix_model.specs.Turns.{total, took_in, new_turn, next_turn, took, gave};
ghost use Rattle.posix_model.specs.declared.world.World.{World};

use call_types::act::{Act, Record};
use call_types::call::Call;
use call_types::limits::{GIVEN_BYTES_MAX, TRANSFER_MAX};
use call_types::outcome::{Outcome, Reply};
use machine_state::machine::Machine;
use posix_model::reader::WorldReader;
use process_table::process::Parked;

/// How many bytes a call has moved in all, as its outcome says.
#[inline(always)]
fn total(outcome: &Outcome) -> u64
    ensures { result ≡ total outcome.now }
{
    match outcome {
        Outcome::Reply(Reply::Number(count)) => *count,
        Outcome::Parked { moved } => u64::from(*moved),
        Outcome::Part { moved } => u64::from(*moved),
        _ => 0,
    }
}

/// How many bytes a new call took from its process, where it moved `now` bytes.
#[inline(always)]
fn took_at_once(now: u64, call: &Call) -> u64
    ensures { result ≡ took_in now (new_turn call.now) }
{
    if call.payload().is_some() { now } else { 0 }
}

/// How many bytes a call took from its process since it was parked, where it has moved `now` bytes in all.
#[inline(never)]
fn took_since(now: u64, parked: &Parked) -> u64
    ensures { result ≡ took_in now (next_turn parked.now) }
{
    if parked.call.get().payload().is_some() {
        now.saturating_sub(u64::from(parked.moved))
    } else {
        0
    }
}

/// Promises that the data of a call is short. It does nothing.
#[inline(always)]
fn payload_is_short(call: &Call)
    ensures { length (unwrap_or (payload_of call.now) []) ≤ GIVEN_BYTES_MAX }
{
    if let Some(bytes) = call.payload() {
        let _len = bytes.len();
    }
}

/// Promises that the data from which the act of a record takes its bytes is short. It does nothing.
#[inline(always)]
fn data_is_short(machine: &Machine, item: &Record)
    ensures { length (data_of machine.now.world item.now.actor item.now.act) ≤ GIVEN_BYTES_MAX }
{
    match &item.act {
        Act::Call(call) => payload_is_short(call),
        Act::Resume => {
            if let Some(parked) = machine.parked(item.actor as usize) {
                payload_is_short(parked.call.get());
            }
        }
        Act::Join | Act::Attach | Act::Exit | Act::CloseRun => {}
    }
}

/// How many bytes a record took from its process. The machine must still be as it was before the record.
#[inline(always)]
pub(crate) fn took(machine: &Machine, item: &Record) -> u64
    ensures { result ≡ took machine.now.world item.now }
{
    let now = total(&item.outcome);
    match &item.act {
        Act::Call(call) => took_at_once(now, call),
        Act::Resume => match machine.parked(item.actor as usize) {
            Some(parked) => took_since(now, parked),
            None => 0,
        },
        Act::Join | Act::Attach | Act::Exit | Act::CloseRun => 0,
    }
}

/// How many bytes a record gave to its process: at most 65,536.
#[inline(always)]
pub(crate) fn gave(item: &Record) -> u64
    ensures bytes { (w : World) → result ≡ gave w item.now }
    ensures few { result ≤ TRANSFER_MAX }
{
    match &item.outcome {
        Outcome::Reply(Reply::Data(content)) => content.len() as u64,
        _ => 0,
    }
}

/// How many bytes a record took from its process and gave to it, at most 65,700 of each.
#[derive(Clone, Copy)]
pub struct BytesMoved {
    pub bytes_in: u64,
    pub bytes_out: u64,
}

/// How many bytes a record took from its process and gave to it. The machine must still be as it was before the record, which
/// takes no more than the data of its call, or of the call that its process waits in.
#[inline(always)]
pub(crate) fn bytes_moved(machine: &Machine, item: &Record) -> BytesMoved
    requires { took machine.now.world item.now ≤ length (data_of machine.now.world item.now.actor item.now.act) }
    ensures bytes_in { result.bytes_in ≡ took machine.now.world item.now }
    ensures bytes_out { (w : World) → result.bytes_out ≡ gave w item.now }
    ensures few_in { result.bytes_in ≤ GIVEN_BYTES_MAX }
    ensures few_out { result.bytes_out ≤ GIVEN_BYTES_MAX }
{
    data_is_short(machine, item);
    BytesMoved {
        bytes_in: took(machine, item),
        bytes_out: gave(item),
    }
}
