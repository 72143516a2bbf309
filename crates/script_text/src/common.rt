//! Acts of a process that are common, each read in one pass over its line. Where a line has none, `read_act` decides.

ghost use Rattle.std.specs.Prelude.{◌≡◌, ℕ, [], Some, Ok, IfSome};
ghost use Rattle.call_types.specs.CallTable.{open_entry, close_entry, read_entry, write_entry, pread_entry, pwrite_entry, lseek_entry, dup_entry, dup2_entry, link_entry, unlink_entry, fstat_entry};
ghost use Rattle.call_types.specs.declared.act.ScriptAct.TheVariants as acts;
ghost use Rattle.script_text.specs.ReadingCalls.{entry_at, reading};
ghost use Rattle.script_text.specs.Proved.Ahead.{act_after};

use crate::ahead;
use crate::calls::{link_call, open_call, unlink_call};
use crate::fault::WordFault;
use call_types::act::ScriptAct;
use call_types::call::Call;
use std::alloc::Global;

/// `FD` of a close.
#[inline(always)]
fn close_fields(bytes: &[u8]) -> Option<Call>
    ensures { IfSome result (λ call. entry_at close_entry (Some bytes.now) ≡ Ok call) }
{
    let (fd, left) = ahead::descriptor(Some(bytes))?;
    ahead::end(left)?;
    Some(Call::Close { fd })
}

/// `FD N` of a read.
#[inline(always)]
fn read_fields(bytes: &[u8]) -> Option<Call>
    ensures { IfSome result (λ call. entry_at read_entry (Some bytes.now) ≡ Ok call) }
{
    let (fd, left) = ahead::descriptor(Some(bytes))?;
    let (count, left) = ahead::count(left)?;
    ahead::end(left)?;
    Some(Call::Read { fd, count })
}

/// `FD DATA` of a write.
#[inline(always)]
fn write_fields(alloc: Global, bytes: &[u8]) -> Option<Call>
    ensures { IfSome result (λ call. entry_at write_entry (Some bytes.now) ≡ Ok call) }
{
    let (fd, left) = ahead::descriptor(Some(bytes))?;
    let bytes = ahead::last_payload(alloc, left)?;
    Some(Call::Write { fd, bytes })
}

/// `FD POS N` of a pread.
#[inline(always)]
fn pread_fields(bytes: &[u8]) -> Option<Call>
    ensures { IfSome result (λ call. entry_at pread_entry (Some bytes.now) ≡ Ok call) }
{
    let (fd, left) = ahead::descriptor(Some(bytes))?;
    let (start, left) = ahead::position(left)?;
    let (count, left) = ahead::count(left)?;
    ahead::end(left)?;
    Some(Call::Pread { fd, start, count })
}

/// `FD POS DATA` of a pwrite.
#[inline(always)]
fn pwrite_fields(alloc: Global, bytes: &[u8]) -> Option<Call>
    ensures { IfSome result (λ call. entry_at pwrite_entry (Some bytes.now) ≡ Ok call) }
{
    let (fd, left) = ahead::descriptor(Some(bytes))?;
    let (start, left) = ahead::position(left)?;
    let bytes = ahead::last_payload(alloc, left)?;
    Some(Call::Pwrite { fd, start, bytes })
}

/// `FD OFF set` of an lseek, or `cur`, or `end`.
#[inline(always)]
fn lseek_fields(bytes: &[u8]) -> Option<Call>
    ensures { IfSome result (λ call. entry_at lseek_entry (Some bytes.now) ≡ Ok call) }
{
    let (fd, left) = ahead::descriptor(Some(bytes))?;
    let (offset, left) = ahead::position(left)?;
    let whence = ahead::last_whence(left)?;
    Some(Call::Lseek { fd, offset, whence })
}

/// `FD` of a dup.
#[inline(always)]
fn dup_fields(bytes: &[u8]) -> Option<Call>
    ensures { IfSome result (λ call. entry_at dup_entry (Some bytes.now) ≡ Ok call) }
{
    let (fd, left) = ahead::descriptor(Some(bytes))?;
    ahead::end(left)?;
    Some(Call::Dup { fd })
}

/// `FD FD` of a dup2.
#[inline(always)]
fn dup2_fields(bytes: &[u8]) -> Option<Call>
    ensures { IfSome result (λ call. entry_at dup2_entry (Some bytes.now) ≡ Ok call) }
{
    let (fd, left) = ahead::descriptor(Some(bytes))?;
    let (to, left) = ahead::descriptor(left)?;
    ahead::end(left)?;
    Some(Call::Dup2 { fd, to })
}

/// `FD` of an fstat.
#[inline(always)]
fn fstat_fields(bytes: &[u8]) -> Option<Call>
    ensures { IfSome result (λ call. entry_at fstat_entry (Some bytes.now) ≡ Ok call) }
{
    let (fd, left) = ahead::descriptor(Some(bytes))?;
    ahead::end(left)?;
    Some(Call::Fstat { fd })
}

/// The call that was read, unless there was a fault.
#[inline(always)]
fn unless_fault(read: Result<Call, WordFault>) -> Option<Call>
    ensures { IfSome result (λ call. read ≡ Ok call) }
{
    match read {
        Ok(call) => Some(call),
        Err(_) => None,
    }
}

/// The call of what follows a process, where it is a common one.
#[inline(always)]
#[tactic(auto, using(crate::proofs::CommonCalls::open_next, crate::proofs::CommonCalls::close_next, crate::proofs::CommonCalls::read_next, crate::proofs::CommonCalls::write_next, crate::proofs::CommonCalls::pread_next, crate::proofs::CommonCalls::pwrite_next, crate::proofs::CommonCalls::lseek_next, crate::proofs::CommonCalls::dup_next, crate::proofs::CommonCalls::dup2_next, crate::proofs::CommonCalls::link_next, crate::proofs::CommonCalls::unlink_next, crate::proofs::CommonCalls::fstat_next, crate::proofs::CommonCalls::fork_next, crate::proofs::CommonCalls::pipe_next))]
fn common_call(alloc: Global, bytes: &[u8]) -> Option<Call>
    ensures { IfSome result (λ call. (process : ℕ) → act_after process (Some bytes.now) ≡ Ok (acts.Call process call)) }
{
    match bytes {
        [b'w', b'r', b'i', b't', b'e', b' ', rest @ ..] => write_fields(alloc, rest),
        [b'r', b'e', b'a', b'd', b' ', rest @ ..] => read_fields(rest),
        [b'c', b'l', b'o', b's', b'e', b' ', rest @ ..] => close_fields(rest),
        [b'o', b'p', b'e', b'n', b' ', rest @ ..] => unless_fault(open_call(alloc, Some(rest))),
        [b'p', b'r', b'e', b'a', b'd', b' ', rest @ ..] => pread_fields(rest),
        [b'p', b'w', b'r', b'i', b't', b'e', b' ', rest @ ..] => pwrite_fields(alloc, rest),
        [b'l', b's', b'e', b'e', b'k', b' ', rest @ ..] => lseek_fields(rest),
        [b'f', b's', b't', b'a', b't', b' ', rest @ ..] => fstat_fields(rest),
        [b'd', b'u', b'p', b' ', rest @ ..] => dup_fields(rest),
        [b'd', b'u', b'p', b'2', b' ', rest @ ..] => dup2_fields(rest),
        [b'f', b'o', b'r', b'k'] => Some(Call::Fork),
        [b'p', b'i', b'p', b'e'] => Some(Call::Pipe),
        [b'l', b'i', b'n', b'k', b' ', rest @ ..] => unless_fault(link_call(alloc, Some(rest))),
        [b'u', b'n', b'l', b'i', b'n', b'k', b' ', rest @ ..] => {
            unless_fault(unlink_call(alloc, Some(rest)))
        }
        _ => None,
    }
}

/// The act, where nothing follows its word.
#[inline(always)]
fn alone(act: ScriptAct, rest: &[u8]) -> Option<ScriptAct>
    ensures is { IfSome result (λ given. given ≡ act) }
    ensures end { IfSome result (λ given. rest.now ≡ []) }
{
    match rest {
        [] => Some(act),
        _ => None,
    }
}

/// The act that is no call of what follows a process, where there is one.
#[inline(always)]
#[tactic(auto, using(crate::proofs::CommonCalls::attach_next, crate::proofs::CommonCalls::resume_next, crate::proofs::CommonCalls::exit_next))]
fn other_act(process: u32, bytes: &[u8]) -> Option<ScriptAct>
    ensures { IfSome result (λ act. act_after process (Some bytes.now) ≡ Ok act) }
{
    match bytes {
        [b'a', b't', b't', b'a', b'c', b'h', rest @ ..] => {
            alone(ScriptAct::Attach { process }, rest)
        }
        [b'r', b'e', b's', b'u', b'm', b'e', rest @ ..] => {
            alone(ScriptAct::Resume { process }, rest)
        }
        [b'e', b'x', b'i', b't', rest @ ..] => alone(ScriptAct::Exit { process }, rest),
        _ => None,
    }
}

/// The act of a line, where it is a common one.
pub(crate) fn common_act(alloc: Global, line: &[u8]) -> Option<ScriptAct>
    ensures { IfSome result (λ act. reading line.now ≡ Ok act) }
{
    let (process, left) = ahead::process(line)?;
    let bytes = left?;
    if let Some(call) = common_call(alloc, bytes) {
        return Some(ScriptAct::Call { process, call });
    }
    other_act(process, bytes)
}
