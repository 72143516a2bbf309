//! What is shown of the values of a stream: the lines that a run has for them. Requests are of process 0, and so is the fork that an
//! answer, which does not tell its act, answers. The first record of a stream has place 0.
use call_types::act::{Act, Record, ScriptAct};
use call_types::call::Call;
use call_types::request::Request;
use frame_codec::answer::Answer;
use frame_codec::encode::{encode_answer, encode_record, encode_request};
use frame_codec::fault::EncodeFault;
use frame_codec::frame_kind::{Answers, FrameKind, Records, Requests};
use script_text::lines::{write_record, write_refused, write_still};
use std::alloc::AllocError;

/// A kind of stream whose values can be shown.
pub(crate) trait Shown: FrameKind {
    /// Appends the line of a value, which comes after so many others.
    fn put_line(out: &mut Vec<u8>, before: u64, value: &Self::Value) -> Result<(), AllocError>;

    /// Appends the frame of a value.
    fn put_frame(out: &mut Vec<u8>, value: &Self::Value) -> Result<(), EncodeFault>;
}

impl Shown for Requests {
    fn put_line(out: &mut Vec<u8>, _before: u64, value: &Request) -> Result<(), AllocError> {
        match value {
            Request::Join => {
                out.extend_from_slice(b"join\n")?;
                Ok(())
            }
            Request::Attach { process } => {
                write_still(out, *process, &ScriptAct::Attach { process: *process })
            }
            Request::Call(call) => {
                let act = ScriptAct::Call {
                    process: 0,
                    call: call.clone()?,
                };
                write_still(out, 0, &act)
            }
        }
    }

    fn put_frame(out: &mut Vec<u8>, value: &Request) -> Result<(), EncodeFault> {
        encode_request(out, value)
    }
}

impl Shown for Answers {
    fn put_line(out: &mut Vec<u8>, _before: u64, value: &Answer) -> Result<(), AllocError> {
        match value {
            Answer::Recorded { place, outcome } => {
                let record = Record {
                    actor: 0,
                    act: Act::Call(Call::Fork),
                    outcome: outcome.clone()?,
                };
                write_record(out, *place, &record)
            }
            Answer::Refused(refusal) => {
                let act = ScriptAct::Call {
                    process: 0,
                    call: Call::Fork,
                };
                write_refused(out, 0, &act, *refusal)
            }
        }
    }

    fn put_frame(out: &mut Vec<u8>, value: &Answer) -> Result<(), EncodeFault> {
        encode_answer(out, value)?;
        Ok(())
    }
}

impl Shown for Records {
    fn put_line(out: &mut Vec<u8>, before: u64, value: &Record) -> Result<(), AllocError> {
        write_record(out, before, value)
    }

    fn put_frame(out: &mut Vec<u8>, value: &Record) -> Result<(), EncodeFault> {
        encode_record(out, value)
    }
}
