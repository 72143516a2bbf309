//! The lines of a run, gathered although memory is wanting once.
use crate::answer::Answer;
use record_book::seat::Receipt;
use script_run::told::Told;
use script_text::lines::{write_record, write_refused, write_still};
use std::alloc::AllocError;

/// Appends the lines of records.
fn put_records(out: &mut Vec<u8>, records: &[Told]) -> Result<(), AllocError> {
    for told in records {
        write_record(out, told.place(), told.record())?;
    }
    Ok(())
}

/// Appends the lines of receipts.
fn put_receipts(out: &mut Vec<u8>, receipts: &[Receipt]) -> Result<(), AllocError> {
    for receipt in receipts {
        write_record(out, receipt.place(), receipt.record())?;
    }
    Ok(())
}

/// Appends the lines of what is told of an act.
fn put_told(out: &mut Vec<u8>, answer: &Answer) -> Result<(), AllocError> {
    match answer {
        Answer::Told(told) => write_record(out, told.place(), told.record()),
        Answer::AllTold(records) => put_records(out, records.as_slice()),
        Answer::Recorded(receipt) => write_record(out, receipt.place(), receipt.record()),
        Answer::Closed(receipts) => put_receipts(out, receipts.as_slice()),
        Answer::Still { actor, act } => write_still(out, *actor, act),
        Answer::Refused {
            actor,
            act,
            refusal,
        } => write_refused(out, *actor, act, *refusal),
    }
}

/// Appends the lines of what is told of an act; where memory was wanting, it is asked for once more.
pub(crate) fn gather(out: &mut Vec<u8>, answer: &Answer) -> Result<(), AllocError> {
    let len = out.len();
    if put_told(out, answer).is_ok() {
        return Ok(());
    }
    out.truncate(len);
    put_told(out, answer)
}
