//! A session from its first byte to its end.

ghost use Rattle.std.specs.Prelude.{◌≡◌, ℕ, List, Option, Some, []};
ghost use Rattle.std.specs.Option.{option_map};
ghost use Rattle.rtrb.specs.Ring.{sent, received, producer_capacity, IsPair};
ghost use Rattle.run_history.specs.Fronts.{Since};
ghost use Rattle.session_core.specs.Proved.Desk.{IsNamedPair};
ghost use Rattle.session_core.specs.Proved.Together.{IsPutTogether, unserved_by, why_of};
ghost use Rattle.session_core.specs.Proved.Output.{fresh_output};
ghost use Rattle.session_core.specs.Said.{CutSaid, EndSaid};
ghost use Rattle.session_core.specs.Proved.Saying.{IsReadingEnd};
ghost use Rattle.logged_streams.specs.Streams.{fresh_log};
ghost use Rattle.session_core.specs.Refusals.{ServesUnder};
ghost use Rattle.session_core.specs.Served.{failures_after};

use crate::connection::Connection;
use crate::desk::{Desk, Naming, answer_rest};
use crate::end::End;
use crate::gate::Gate;
use crate::output::Output;
use crate::stage::LeaveCause;
use crate::starter::Starter;
use crate::threads::{Helper, Pushed, Shared, start_reading};
use crate::told::Told;
use call_types::request::Request;
use logged_streams::reader::LoggedReader;
use logged_streams::writer::LoggedWriter;
use request_pump::bell::RingCount;
use request_pump::inlet::PushLog;
use request_pump::pumped::PumpEnd;
use rtrb::{Consumer, Producer, RingBuffer};
use run_history::front::Front;
use std::alloc::{AllocError, Global};
use std::io::{Read, Write};
use std::marker::{Brand, Model};
use std::sync::{Arc, Wait};
use std::thread::Threads;
use system_lock::kernel::{AdmissionTo, KernelOf};
use system_lock::run::Run;
use system_lock::run_seat::SpentRunSeat;

/// How many requests may wait to be answered.
pub const REQUESTS_AHEAD: usize = 16;

/// A session that is over. Contracts see it as a `SessionState`.
#[derive(Drop)]
pub struct Served<R: Read, W: Write, L: Run> {
    /// The seat of its process. Its last receipt is that of the exit, except at `End::Foreign`. Where the opening was refused in the
    /// record, the seat has only the receipt of that. Where no opening was recorded, the admission is handed back.
    pub seat: Result<SpentRunSeat<L>, AdmissionTo<L>>,
    /// What it told its client, in order.
    pub answers: Vec<Told>,
    pub end: End,
    /// The reader, with what became of its reads. `None` just at `End::NoThread`.
    pub reader: Option<LoggedReader<R>>,
    /// The writer, with what became of its writes.
    pub writer: LoggedWriter<W>,
    /// What the ring of its requests gave back.
    pub pushes: PushLog,
}

impl<R: Read, W: Write, L: Run> Model for Served<R, W, L> {
    ghost use Rattle.std.specs.Result.{result_ok};
    ghost use Rattle.session_core.specs.Served.{SessionState};

    ghost Value = { SessionState };

    ghost view = { λ s. record { reader = s.reader; writer = s.writer; pushes = s.pushes; seat = result_ok s.seat; answers = s.answers.items; end_is = s.end } };
}

/// Serves one process: reads its requests, asks the kernel for each, and writes each answer once the gate lets it through. This goes on
/// until the session ends for one of the reasons of `End`; then its process is hung up and its connection shut. A thread of its own
/// reads, so that the end of the connection is noticed while a call of the process waits: such a call is given up. The gate knows the
/// session by its number. The admission is for its one opening. The session is without a thread just where the starter could not start
/// it, and has counted that. What is known of the run's history goes on from the front that is given, and is handed back.
pub fn serve<
    Rt: Threads + Wait + Copy + Drop + Send + Sync + 'static,
    T: Starter,
    R: Read + Send + Drop + 'static,
    W: Write + Connection + Send + Drop + 'static,
    G: Gate + Send + 'static,
    L: Run + Send + Sync + 'static,
    K: KernelOf<L> + Send + Sync + Drop + 'static,
>(
    rt: Rt,
    alloc: Global,
    starter: &mut T,
    reader: R,
    writer: W,
    kernel: Arc<K>,
    front: Front<L>,
    admission: AdmissionTo<L>,
    session: u64,
    gate: G,
) -> (Served<R, W, L>, Front<L>)
    ensures serves { Since result.1 (λ h. ServesUnder (K.says h) G.is_open (R.remaining reader) (W.contents writer) result.0) }
    ensures said { Since result.1 (λ h. EndSaid (K.says h) result.0.seat result.0.end_is) }
    ensures given_up { Since result.1 (λ h. CutSaid (K.says h).ended result.0.seat result.0.answers result.0.end_is) }
    ensures starts { T.failures starter.new ≡ failures_after result.0.end_is (T.failures starter.old) }
    ensures shut { W.was_shut result.0.writer.contents }
{
    let (producer, consumer) = match RingBuffer::new(alloc, REQUESTS_AHEAD) {
        Ok(ends) => ends,
        Err(_) => {
            let writer = LoggedWriter::new(writer);
            let served = unserved(alloc, Some(reader), writer, admission, End::NoMemory);
            return (served, front);
        }
    };
    match Output::new(alloc, writer, session, gate) {
        Ok(output) => serve_named::<Rt, T, R, Brand, W, G, L, K>(
            rt, alloc, starter, reader, output, kernel, front, admission, producer, consumer,
        ),
        Err(writer) => {
            let writer = LoggedWriter::new(writer);
            let served = unserved(alloc, Some(reader), writer, admission, End::NoMemory);
            (served, front)
        }
    }
}

/// Serves the session that the type names.
fn serve_named<
    Rt: Threads + Wait + Copy + Drop + Send + Sync + 'static,
    T: Starter,
    R: Read + Send + Drop + 'static,
    D: Naming + Send + Sync + 'static,
    W: Write + Connection + Send + Drop + 'static,
    G: Gate + Send + 'static,
    L: Run + Send + Sync + 'static,
    K: KernelOf<L> + Send + Sync + Drop + 'static,
>(
    rt: Rt,
    alloc: Global,
    starter: &mut T,
    reader: R,
    output: Output<W, G>,
    kernel: Arc<K>,
    front: Front<L>,
    admission: AdmissionTo<L>,
    producer: Producer<Request>,
    consumer: Consumer<Request>,
) -> (Served<R, W, L>, Front<L>)
    requires ring { D.ring ≡ Some consumer }
    requires base { output ≡ fresh_output D.base }
    requires pair { IsPair producer consumer }
    requires fresh { (received consumer ≡ []) × (sent producer ≡ []) }
    requires room { producer_capacity producer ≡ REQUESTS_AHEAD }
    ensures serves { Since result.1 (λ h. ServesUnder (K.says h) G.is_open (R.remaining reader) D.base result.0) }
    ensures said { Since result.1 (λ h. EndSaid (K.says h) result.0.seat result.0.end_is) }
    ensures given_up { Since result.1 (λ h. CutSaid (K.says h).ended result.0.seat result.0.answers result.0.end_is) }
    ensures starts { T.failures starter.new ≡ failures_after result.0.end_is (T.failures starter.old) }
    ensures shut { W.was_shut result.0.writer.contents }
{
    match shared_twice::<Rt, D, W, G, L, K>(rt, alloc, kernel) {
        Ok((shared, helper)) => serve_shared(
            rt, alloc, starter, reader, output, &*shared, helper, front, admission, producer,
            consumer,
        ),
        Err(_) => {
            let served = unstarted(alloc, Some(reader), output, admission, End::NoMemory);
            (served, front)
        }
    }
}

/// Serves the session of two threads that share this: the helper is for the one that reads.
fn serve_shared<
    Rt: Threads + Wait + Copy + Drop + Send + Sync + 'static,
    T: Starter,
    R: Read + Send + Drop + 'static,
    D: Naming + Send + Sync + 'static,
    W: Write + Connection + Send + Drop + 'static,
    G: Gate + Send + 'static,
    L: Run + Send + Sync + 'static,
    K: KernelOf<L> + Send + Sync + Drop + 'static,
>(
    rt: Rt,
    alloc: Global,
    starter: &mut T,
    reader: R,
    output: Output<W, G>,
    shared: &Shared<D, W, G, L, K>,
    helper: Helper<Rt, D, W, G, L, K>,
    front: Front<L>,
    admission: AdmissionTo<L>,
    producer: Producer<Request>,
    consumer: Consumer<Request>,
) -> (Served<R, W, L>, Front<L>)
    requires ring { D.ring ≡ Some consumer }
    requires base { output ≡ fresh_output D.base }
    requires pair { IsPair producer consumer }
    requires fresh { (received consumer ≡ []) × (sent producer ≡ []) }
    requires room { producer_capacity producer ≡ REQUESTS_AHEAD }
    ensures serves { Since result.1 (λ h. ServesUnder (K.says h) G.is_open (R.remaining reader) D.base result.0) }
    ensures said { Since result.1 (λ h. EndSaid (K.says h) result.0.seat result.0.end_is) }
    ensures given_up { Since result.1 (λ h. CutSaid (K.says h).ended result.0.seat result.0.answers result.0.end_is) }
    ensures starts { T.failures starter.new ≡ failures_after result.0.end_is (T.failures starter.old) }
    ensures shut { W.was_shut result.0.writer.contents }
{
    // the thread that reads finds the desk locked until it is there
    let mut place = shared.desk.lock(&rt);
    match start_reading(&rt, alloc, starter, reader, producer, helper) {
        Ok(thread) => {
            drop(place.replace(Desk::new(consumer, output, front, admission)));
            drop(place);
            shared.answer_waits(&rt);
            put_together(&rt, shared, thread.join(&rt))
        }
        Err(_) => {
            let served = unstarted(alloc, None, output, admission, End::NoThread);
            (served, front)
        }
    }
}

/// What two threads share, for the one that waits, and the helper of the one that reads.
fn shared_twice<
    Rt: Wait + Drop,
    D: Naming,
    W: Write + Connection + Drop,
    G: Gate,
    L: Run,
    K: KernelOf<L> + Drop,
>(
    rt: Rt,
    alloc: Global,
    kernel: Arc<K>,
) -> Result<(Arc<Shared<D, W, G, L, K>>, Helper<Rt, D, W, G, L, K>), AllocError> {
    let shared = Arc::new(alloc, Shared::new(kernel))?;
    let other = Arc::try_clone(&shared)?;
    let helper = Helper {
        rt,
        shared: other,
        rings: RingCount::new(),
    };
    Ok((shared, helper))
}

/// Why a session leaves off whose requests are all answered.
fn why_of(end: PumpEnd) -> LeaveCause
    ensures why { result ≡ why_of end }
    ensures reading { IsReadingEnd result }
{
    match end {
        PumpEnd::Closed => LeaveCause::Closed,
        PumpEnd::ReadFault => LeaveCause::ReadFault,
        PumpEnd::Malformed => LeaveCause::Malformed,
        PumpEnd::NoMemory => LeaveCause::NoMemory,
        PumpEnd::Ahead => LeaveCause::Ahead,
    }
}

/// Answers what the ring still holds when no more is read, and puts the session together.
fn put_together<
    Rt: Wait,
    R: Read + Drop,
    D: Naming,
    W: Write + Connection + Drop,
    G: Gate,
    L: Run,
    K: KernelOf<L>,
>(rt: &Rt, shared: &Shared<D, W, G, L, K>, pushed: Pushed<R>) -> (Served<R, W, L>, Front<L>)
    requires { IsNamedPair D.ring pushed.producer }
    ensures together { Since result.1 (λ h. IsPutTogether (K.says h) G.is_open D.base pushed result.0) }
    ensures shut { W.was_shut result.0.writer.contents }
{
    let Pushed {
        end,
        reader,
        producer,
        pushes,
        ..
    } = pushed;
    let Desk {
        mut consumer,
        mut output,
        mut front,
        standing,
        ..
    } = shared.take_desk(rt);
    let Some(standing) = standing else {
        unreachable!()
    };
    let mut producer = producer;
    let count = consumer.slots_beside(&mut producer);
    let left = answer_rest(
        rt,
        &shared.note,
        &*shared.kernel,
        &mut front,
        &mut consumer,
        &mut output,
        standing,
        count,
        why_of(end),
    );
    let (answers, writer) = output.into_parts(left.last);
    let served = Served {
        seat: left.seat,
        answers,
        end: left.end,
        reader: Some(reader),
        writer,
        pushes,
    };
    (served, front)
}

/// A session that has read nothing.
fn unserved<R: Read, W: Write + Connection + Drop, L: Run>(
    alloc: Global,
    reader: Option<R>,
    writer: LoggedWriter<W>,
    admission: AdmissionTo<L>,
    end: End,
) -> Served<R, W, L>
    ensures is { writer.log ≡ fresh_log → result ≡ unserved_by (option_map R.remaining reader) writer.contents end }
    ensures shut { W.was_shut result.writer.contents }
{
    writer.get_ref().shut();
    let reader = match reader {
        Some(reader) => Some(LoggedReader::new(reader)),
        None => None,
    };
    Served {
        seat: Err(admission),
        answers: Vec::new(alloc),
        end,
        reader,
        writer,
        pushes: PushLog::new(),
    }
}

/// A session for which no thread reads. It has answered nothing.
fn unstarted<R: Read, W: Write + Connection + Drop, G: Gate, L: Run>(
    alloc: Global,
    reader: Option<R>,
    output: Output<W, G>,
    admission: AdmissionTo<L>,
    end: End,
) -> Served<R, W, L>
    ensures is { (base : Option (List ℕ)) → output ≡ fresh_output base → result ≡ unserved_by (option_map R.remaining reader) base end }
    ensures shut { W.was_shut result.writer.contents }
{
    let (_none, writer) = output.into_parts(None);
    unserved(alloc, reader, writer, admission, end)
}
