ghost use Rattle.std.specs.Prelude.{◌≡◌, false, IfOk, OnErr};
ghost use Rattle.process_table.specs.Proved.Waits.{AsksFew};
ghost use Rattle.posix_model.specs.Tries.{instead, waiting, parks, first_try, next_try};
ghost use Rattle.posix_model.specs.Pages.{does};
ghost use Rattle.calls.specs.Proved.Refusals.{is_refusal};

use call_types::call::Call;
use call_types::errno::Errno;
use call_types::outcome::{Outcome, Reply};
use posix_model::change::{Change, Decided, FileEdit, ProcessEdit, TableEdit, Try, does, refused};
use posix_model::opened::OpenDescriptor;
use process_table::kept_call::KeptCall;
use process_table::process::Parked;
use std::alloc::{AllocError, Global};

/// What a call that would wait returns under nonblock: how many bytes it moved, or EAGAIN (pages of read, write).
fn instead(moved: u32, edit: FileEdit) -> Decided
    ensures { result ≡ instead moved edit }
{
    if moved == 0 {
        return refused(Errno::EAGAIN);
    }
    does(Reply::Number(u64::from(moved)), edit, TableEdit::Nothing)
}

/// The same decision, except that the process now waits in this call.
pub(crate) fn parks(process: usize, parked: Parked, mut decided: Decided) -> Decided
    ensures { result ≡ parks process parked decided }
{
    decided.outcome = Outcome::Parked {
        moved: parked.moved,
    };
    decided.change.process = ProcessEdit::Park { process, parked };
    decided
}

/// The call waits on a descriptor, having moved so many bytes. An error says that memory for a copy of it ran out.
fn waits(
    alloc: Global,
    process: usize,
    call: &Call,
    descriptor: &OpenDescriptor,
    moved: u32,
    edit: FileEdit,
) -> Result<Decided, AllocError>
    requires { AsksFew call.now }
    ensures { IfOk result (λ d. d ≡ parks process (waiting call.now descriptor.now.fd moved 0) (does (Reply.Number moved) edit TableEdit.Nothing)) }
{
    let parked = Parked {
        call: KeptCall::copied(alloc, call)?,
        fd: descriptor.fd,
        moved,
        openings: 0,
    };
    let reply = Reply::Number(u64::from(moved));
    Ok(parks(process, parked, does(reply, edit, TableEdit::Nothing)))
}

/// What the first try of a call comes to: where it would wait, the process waits in it, or under nonblock the call tells what
/// it moved. An error says that memory for a copy of the call ran out.
pub fn first_try(
    alloc: Global,
    process: usize,
    call: &Call,
    descriptor: &OpenDescriptor,
    tried: Try,
) -> Result<Decided, AllocError>
    requires { AsksFew call.now }
    ensures effect { IfOk result (λ d. d ≡ first_try process call.now descriptor.now tried) }
    ensures needed { OnErr result (is_refusal (first_try process call.now descriptor.now tried) ≡ false) }
{
    match tried {
        Try::Ends { reply, edit } => Ok(does(reply, edit, TableEdit::Nothing)),
        Try::Waits { moved, edit } => {
            if descriptor.description.nonblock {
                return Ok(instead(moved, edit));
            }
            waits(alloc, process, call, descriptor, moved, edit)
        }
    }
}

/// What the next try of a waiting call comes to: the call ends, or it has moved more bytes and waits on.
pub fn next_try(process: usize, tried: Try) -> Decided
    ensures { result ≡ next_try process tried }
{
    match tried {
        Try::Ends { reply, edit } => Decided {
            outcome: Outcome::Reply(reply),
            change: Change {
                files: edit,
                process: ProcessEdit::Unpark { process },
                table: TableEdit::Nothing,
            },
        },
        Try::Waits { moved, edit } => Decided {
            outcome: Outcome::Part { moved },
            change: Change {
                files: edit,
                process: ProcessEdit::Total { process, moved },
                table: TableEdit::Nothing,
            },
        },
    }
}
