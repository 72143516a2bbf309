//! The lines of a run, gathered, and then written.
ghost use Rattle.std.specs.Prelude.{◌≡◌, ◌++◌, IfErr, OnErr, OnOk};
ghost use Rattle.std.specs.List.{flat_map};
ghost use Rattle.logged_streams.specs.Streams.{Writes};
ghost use Rattle.job_core.specs.Output.{AppendsFront, receipt_line, told_line};
ghost use Rattle.job_core.specs.Proved.Running.{IsToldAsRead};

use crate::job_end::JobEnd;
use logged_streams::writer::LoggedWriter;
use script_run::told::{ScriptAnswer, Told};
use script_text::lines::{write_record, write_record_as_read, write_refused, write_still};
use std::alloc::AllocError;
use std::io::Write;

/// Gathers the lines of records.
fn put_records(out: &mut Vec<u8>, records: &[Told]) -> Result<(), AllocError>
    ensures { OnOk result (out.new.items ≡ out.old.items ++ flat_map receipt_line records.now) }
{
    for told in records {
        write_record(out, told.place(), told.record())?;
    }
    Ok(())
}

/// Gathers the lines of what is told of an act, which was read from a line.
pub(crate) fn put_line(
    out: &mut Vec<u8>,
    line: &[u8],
    told: &ScriptAnswer,
) -> Result<(), AllocError>
    requires { IsToldAsRead line.now told.now }
    ensures { OnOk result (out.new.items ≡ out.old.items ++ told_line told.now) }
{
    match told {
        ScriptAnswer::Recorded(told) => {
            write_record_as_read(out, told.place(), line, told.record())
        }
        ScriptAnswer::Closed(records) => put_records(out, records.as_slice()),
        ScriptAnswer::Still { actor, act } => write_still(out, *actor, act),
        ScriptAnswer::Refused {
            actor,
            act,
            refusal,
        } => write_refused(out, *actor, act, *refusal),
    }
}

/// Writes a text whole, and flushes it. A writer that fails, takes no byte or is interrupted sixteen times in a row has a front of
/// it, and nothing else.
pub fn write_lines<W: Write>(writer: &mut LoggedWriter<W>, text: &[u8]) -> Result<(), JobEnd>
    ensures text { OnOk result (Writes writer.old writer.new text.now) }
    ensures front { OnErr result (AppendsFront writer.old writer.new text.now) }
    ensures fault { IfErr result (λ ended. ended ≡ JobEnd.CannotWrite) }
{
    match writer.write_all(text) {
        (_, Ok(())) => Ok(()),
        (_, Err(_)) => Err(JobEnd::CannotWrite),
    }
}
