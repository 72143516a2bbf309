//! The answers of a session, and their way to its writer.

ghost use Rattle.std.specs.Prelude.{◌≡◌, ◌<◌, ◌≤◌, true, false, [], Option, length, OnOk, OnErr, IfOk, IfErr};
ghost use Rattle.session_core.specs.declared.told.Told.TheVariants as told;
ghost use Rattle.session_core.specs.Proved.Output.{fresh_output, Passes, Puts, Flushes, SendsAll, FailsToSend};
ghost use Rattle.session_core.specs.Proved.Closing.{IsTaken};

use crate::asking::ask_often;
use crate::connection::Connection;
use crate::gate::Gate;
use crate::told::Told;
use call_types::refusal::Refusal;
use frame_codec::encode::{encode_recorded, encode_refused};
use logged_streams::writer::{LoggedWriter, WriterFailed};
use record_book::seat::Receipt;
use std::alloc::{AllocError, Global};
use std::io::Write;
use std::marker::Model;

/// The answers of a session, and those bytes of them that are not written yet. There is always room for one answer more.
#[derive(Drop)]
pub(crate) struct Output<W: Write, G: Gate> {
    sink: LoggedWriter<W>,
    gate: G,
    /// The number of the session.
    session: u64,
    /// How many answers were let through.
    let_through: usize,
    /// How many records the session's process has seen by the last of these.
    seen: u64,
    unsent: Vec<u8>,
    /// How many bytes were written.
    sent: u64,
    answers: Vec<Told>,
}

impl<W: Write, G: Gate> Model for Output<W, G> {
    ghost use Rattle.std.specs.Prelude.{◌≡◌, ◌<◌, ◌≤◌, true, vec_len, vec_capacity};
    ghost use Rattle.session_core.specs.OutputState.{OutputState};

    ghost Value = { OutputState };

    ghost view = { λ o. record { sink = o.sink; unsent = o.unsent.items; sent = o.sent; answers = o.answers.items } };

    ghost invariant = { λ o. (vec_len o.answers < vec_capacity o.answers) × (o.let_through ≤ vec_len o.answers) × (G.is_open ≡ true → o.sink.log.refusals ≡ 0) };
}

/// The place that the gate is told for an answer; `seen` is how many records the process had seen before it.
fn place_of(answer: &Told, seen: u64) -> u64 {
    match answer {
        Told::Recorded(receipt) => receipt.place(),
        Told::Refused(_) => seen,
    }
}

/// How many records a process has seen with this answer. It has seen so many before it.
fn seen_with(answer: &Told, seen: u64) -> u64 {
    match answer {
        Told::Recorded(receipt) => receipt.place().saturating_add(1),
        Told::Refused(_) => seen,
    }
}

/// Asks a gate for answers, one after another, as long as they are let through: whether all were, and how many records the session's
/// process has seen by then.
fn let_all<W: Write, G: Gate>(
    sink: &mut LoggedWriter<W>,
    gate: &G,
    session: u64,
    seen: u64,
    answers: &[Told],
) -> (bool, u64)
    ensures contents { sink.new.contents ≡ sink.old.contents }
    ensures refused { result.0 ≡ false → 1000 ≤ sink.new.log.refusals }
    ensures always { G.is_open ≡ true → sink.old.log.refusals ≡ 0 → sink.new.log.refusals ≡ 0 }
{
    let mut seen = seen;
    for answer in answers {
        if !ask_often(sink, gate, session, place_of(answer, seen)) {
            return (false, seen);
        }
        seen = seen_with(answer, seen);
    }
    (true, seen)
}

/// Answers are written before the next request once so many bytes of them are gathered.
const GATHERED: usize = 65_536;

impl<W: Write, G: Gate> Output<W, G> {
    /// No answers yet. The gate is asked by this number of the session. Where memory runs out, the writer is given back.
    pub(crate) fn new(alloc: Global, writer: W, session: u64, gate: G) -> Result<Self, W>
        ensures ok { IfOk result (λ output. output ≡ fresh_output (W.contents writer)) }
        ensures err { IfErr result (λ back. back ≡ writer) }
    {
        match Vec::with_capacity(alloc, 1) {
            Ok(answers) => Ok(Output {
                sink: LoggedWriter::new(writer),
                gate,
                session,
                let_through: 0,
                seen: 0,
                unsent: Vec::new(alloc),
                sent: 0,
                answers,
            }),
            Err(_) => Err(writer),
        }
    }

    /// How many bytes were written, or the greatest number where they were more.
    pub(crate) fn sent(&self) -> u64
        ensures { result ≡ self.now.sent }
    {
        self.sent
    }

    /// Asks the gate for each answer that was not let through yet. After an error nothing more is to be written.
    fn pass(&mut self) -> Result<(), WriterFailed>
        ensures passes { Passes self.old self.new }
        ensures err { OnErr result (1000 ≤ self.new.sink.log.refusals) }
    {
        if self.gate.is_always_open() {
            return Ok(());
        }
        let (_, left) = self.answers.as_slice().split_at(self.let_through);
        let (are_let, seen) = let_all(&mut self.sink, &self.gate, self.session, self.seen, left);
        if !are_let {
            return Err(WriterFailed);
        }
        self.let_through = self.answers.len();
        self.seen = seen;
        Ok(())
    }

    /// Writes what is not written yet, once the gate lets it through. After an error the writer has failed, or the gate held an answer
    /// back, and nothing more is to be written.
    pub(crate) fn flush(&mut self) -> Result<(), WriterFailed>
        ensures ok { OnOk result (SendsAll self.old self.new) }
        ensures err { OnErr result (FailsToSend self.old self.new) }
    {
        if self.unsent.is_empty() {
            return Ok(());
        }
        self.pass()?;
        self.send()
    }

    /// Writes what is not written yet. After an error the writer has failed, and nothing more is to be written.
    fn send(&mut self) -> Result<(), WriterFailed>
        ensures ok { OnOk result (SendsAll self.old self.new) }
        ensures err { OnErr result (FailsToSend self.old self.new) }
    {
        let (written, result) = self.sink.write_all(self.unsent.as_slice());
        self.sent = self.sent.saturating_add(written as u64);
        self.unsent.clear();
        result
    }

    /// Writes what is not written yet, if it is much, or if the gate has to be asked for each answer.
    pub(crate) fn flush_much(&mut self) -> Result<(), WriterFailed>
        ensures ok { OnOk result (Flushes self.old self.new) }
        ensures few { OnOk result (length self.new.unsent < 65536) }
        ensures one { OnOk result (G.is_open ≡ false → self.new.unsent ≡ []) }
        ensures err { OnErr result (FailsToSend self.old self.new) }
    {
        if self.unsent.len() < GATHERED && self.gate.is_always_open() {
            return Ok(());
        }
        self.flush()
    }

    /// Adds an answer with its frame. Where memory runs out, all stays as it is, and the receipt is given back.
    pub(crate) fn put_recorded(&mut self, receipt: Receipt) -> Result<(), Receipt>
        ensures ok { OnOk result (Puts self.old self.new (told.Recorded receipt)) }
        ensures back { IfErr result (λ back. back ≡ receipt) }
        ensures err { OnErr result (self.new ≡ self.old) }
    {
        if self.answers.reserve(2).is_err() {
            return Err(receipt);
        }
        let before = self.unsent.len();
        if encode_recorded(&mut self.unsent, receipt.place(), &receipt.record().outcome).is_err() {
            self.unsent.truncate(before);
            return Err(receipt);
        }
        self.answers.push_reserved(Told::Recorded(receipt));
        Ok(())
    }

    /// Adds the answer that nothing was recorded, with its frame. Where memory runs out, all stays as it is.
    pub(crate) fn put_refused(&mut self, refusal: Refusal) -> Result<(), AllocError>
        ensures ok { OnOk result (Puts self.old self.new (told.Refused refusal)) }
        ensures err { OnErr result (self.new ≡ self.old) }
    {
        self.answers.reserve(2)?;
        let before = self.unsent.len();
        if let Err(fault) = encode_refused(&mut self.unsent, refusal) {
            self.unsent.truncate(before);
            return Err(fault);
        }
        self.answers.push_reserved(Told::Refused(refusal));
        Ok(())
    }

    /// The answers, and the writer with what became of its calls. A last answer that is not written is added to the answers.
    pub(crate) fn into_parts(self, last: Option<Receipt>) -> (Vec<Told>, LoggedWriter<W>)
        ensures taken { IsTaken self last result.0.items result.1 }
        ensures gate { G.is_open ≡ true → result.1.log.refusals ≡ 0 }
    {
        let mut answers = self.answers;
        if let Some(receipt) = last {
            answers.push_reserved(Told::Recorded(receipt));
        }
        let _few = self.sink.log().interruptions();
        (answers, self.sink)
    }
}

impl<W: Write + Connection, G: Gate> Output<W, G> {
    /// Shuts the connection.
    pub(crate) fn shut(&self)
        ensures { W.was_shut self.now.sink.contents }
    {
        self.sink.get_ref().shut();
    }
}
