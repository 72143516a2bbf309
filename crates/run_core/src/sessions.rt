//! The sessions of a run, each in a thread of its own.

ghost use Rattle.std.specs.Prelude.{◌≡◌, ◌≤◌, ◌<◌, ◌+◌, ◌^◌, ◌++◌, ◌∷◌, [], ℕ, true, None, Some, map, length, vec_len, vec_capacity, IfOk, IfErr, IfSome, OnErr, OnOk};
ghost use Rattle.std.specs.Option.{option_map};
ghost use Rattle.std.specs.Arc.{arc_value};
ghost use Rattle.rtrb.specs.Ring.{received};
ghost use Rattle.run_history.specs.Fronts.{Grows, Since};
ghost use Rattle.run_core.specs.Judged.{IsJudged};
ghost use Rattle.run_core.specs.Proved.Laws.{FlagsDecideAll};
ghost use Rattle.run_core.specs.Receipts.{GoodAt, held_by};
ghost use Rattle.run_core.specs.Run.{AreShut, IsRun, IsRunOf, IsBlank, IsProcessOf, FailsIfFewer, GivesConnections, ServesSince, CountsItsOwn, held_in, streams, with_seat};
ghost use Rattle.run_core.specs.Proved.Joining.{HasEnded, IsJoined};
ghost use Rattle.logged_streams.specs.Streams.{one_more};
ghost use Rattle.system_lock.specs.Owns.{OwnsUnder};
ghost use Rattle.session_core.specs.Served.{failures_after};
ghost use Rattle.run_core.specs.Starters.{failures_by, failures_with, left_sessions};
ghost use Rattle.run_core.specs.Proved.Starting.{failures_at, failures_for};
ghost use Rattle.run_core.specs.Unreported.{IsNoWant, IsUnreported, UnreportedFor};
ghost use Rattle.run_core.specs.declared.sessions.Want.{Want};
ghost use Rattle.run_core.specs.declared.sessions.Want.TheVariants as wants;
ghost use Rattle.run_core.specs.declared.report.RunFault.TheVariants as run_fault;
ghost use Rattle.run_core.specs.declared.sessions.Shortage.TheVariants as shortage;
ghost use Rattle.trace_writer.specs.declared.traced.TraceFault.TheVariants as trace_fault;

use crate::closing::{Closed, close, end_run, unshared};
use crate::laws::runs_are_judged;
use crate::report::{Left, Process, Report, RunFault, Session, Unreported};
use crate::source::Source;
use crate::tracing::{Done, Traces, start_trace};
use byte_ledger::tallies::Shares;
use call_types::limits::Limits;
use run_history::front::Front;
use session_core::connection::Connection;
use session_core::gate::Gate;
use session_core::serve::{Served, serve};
use session_core::starter::{StartFailed, Starter, start};
use std::alloc::{AllocError, Global};
use std::io::{Read, Write};
use std::snapshot::Snapshot;
use std::sync::{Arc, Wait};
use std::thread::{Promise, PromisedHandle, Threads};
use std::time::Clock;
use system_lock::lock::SystemLock;
use system_lock::run::{NewRun, Run};
use trace_ring::trace_ring::TraceEnd;
use trace_writer::sink::Sink;

/// What all sessions of a run share: the lock round its book, and the gate that is asked before an answer is written.
#[derive(Drop)]
struct Common<G: Gate, L: Run> {
    lock: Arc<SystemLock<L>>,
    gate: Arc<G>,
}

impl<G: Gate, L: Run> Common<G, L> {
    /// The same, for one session.
    fn share(&self) -> Result<Self, AllocError> {
        Ok(Common {
            lock: Arc::try_clone(&self.lock)?,
            gate: Arc::try_clone(&self.gate)?,
        })
    }
}

/// What the thread of a session promises: that the connection is served and then shut. Its writer holds nothing yet, and its starter has
/// failed at nothing.
#[derive(Drop)]
pub(crate) struct Serving<R: Read, W: Write, G: Gate, T: Starter> {
    reader: Snapshot<R>,
    writer: Snapshot<W>,
    gate: Snapshot<Arc<G>>,
    starter: Snapshot<T>,
    ghost blank: { IsBlank (W.contents writer.value) },
    ghost fresh: { T.failures starter.value ≡ 0 },
}

/// A session that is over, what it knows of the run's history, and the starter of its thread.
#[derive(Drop)]
pub(crate) struct ServedSession<R: Read, W: Write, L: Run, T: Starter> {
    served: Served<R, W, L>,
    known: Front<L>,
    starter: T,
}

impl<R: Read, W: Write + Connection, G: Gate, L: Run, T: Starter> Promise<ServedSession<R, W, L, T>>
    for Serving<R, W, G, T> {
    ghost use Rattle.std.specs.Prelude.{◌≡◌};
    ghost use Rattle.session_core.specs.Served.{failures_after};
    ghost use Rattle.run_core.specs.Run.{ServesSince};

    ghost kept_by = { λ p over. ServesSince L.limits over.known G.is_open (R.remaining p.reader.value) (W.contents p.writer.value) over.served × (T.failures over.starter ≡ failures_after over.served.end_is (T.failures p.starter.value)) × W.was_shut over.served.writer.contents };
}

impl<R: Read, W: Write, G: Gate, T: Starter> Serving<R, W, G, T> {
    /// The promise to serve this reader and this writer under this gate, with this starter.
    fn of(reader: &R, writer: &W, gate: &Arc<G>, starter: &T) -> Self
        requires blank { IsBlank (W.contents writer.now) }
        requires fresh { T.failures starter.now ≡ 0 }
        ensures reader { R.remaining result.reader.value ≡ R.remaining reader.now }
        ensures writer { W.contents result.writer.value ≡ W.contents writer.now }
        ensures starter { T.failures result.starter.value ≡ T.failures starter.now }
    {
        Serving {
            reader: Snapshot::of(reader),
            writer: Snapshot::of(writer),
            gate: Snapshot::of(gate),
            starter: Snapshot::of(starter),
        }
    }
}

/// A session that goes on in its thread.
type Running<R, W, G, L, T> = PromisedHandle<ServedSession<R, W, L, T>, Serving<R, W, G, T>>;

/// Learns what the seat of a session knows of the run's history, if it has one.
fn learn_from<R: Read, W: Write, L: Run>(known: &mut Front<L>, served: &Served<R, W, L>)
    ensures grows { Grows known.old known.new }
    ensures owns { Since known.new (λ h. IfSome served.now.seat (OwnsUnder L.limits h)) }
{
    if let Ok(seat) = &served.seat {
        seat.tell(known);
    }
}

/// Serves a connection, and ends it.
fn serve_connection<
    Rt: Threads + Wait + Copy + Drop + Send + Sync + 'static,
    S: Source + Send + 'static,
    G: Gate + Send + Sync + 'static,
    L: Run + Send + Sync + 'static,
    T: Starter + Drop,
>(
    rt: Rt,
    alloc: Global,
    starter: T,
    lock: Arc<SystemLock<L>>,
    gate: Arc<G>,
    reader: S::Reader,
    writer: S::Writer,
    session: u64,
) -> ServedSession<S::Reader, S::Writer, L, T>
    ensures serves { ServesSince L.limits result.known G.is_open (S.Reader.Read.remaining reader) (S.Writer.Write.contents writer) result.served }
    ensures starts { T.failures result.starter ≡ failures_after result.served.end_is (T.failures starter) }
    ensures shut { S.Writer.Connection.was_shut result.served.writer.contents }
{
    let mut starter = starter;
    let admission = lock.admit();
    let front = lock.front(&rt);
    let (served, mut known) = serve(
        rt,
        alloc,
        &mut starter,
        reader,
        writer,
        lock,
        front,
        admission,
        session,
        gate,
    );
    learn_from(&mut known, &served);
    ServedSession {
        served,
        known,
        starter,
    }
}

/// Serves a connection in a thread of its own, if one can be started.
fn start_session<
    Rt: Threads + Wait + Copy + Drop + Send + Sync + 'static,
    S: Source + Send + 'static,
    G: Gate + Send + Sync + 'static,
    L: Run + Send + Sync + 'static,
    T: Starter + Send + Drop + 'static,
>(
    rt: Rt,
    alloc: Global,
    starter: &mut T,
    shared: Common<G, L>,
    reader: S::Reader,
    writer: S::Writer,
    session: u64,
) -> Result<Running<S::Reader, S::Writer, G, L, T>, StartFailed>
    requires { IsBlank (S.Writer.Write.contents writer) }
    ensures promised { IfOk result (λ thread. (S.Reader.Read.remaining thread.promise.reader.value ≡ S.Reader.Read.remaining reader) × (S.Writer.Write.contents thread.promise.writer.value ≡ S.Writer.Write.contents writer)) }
    ensures started { OnOk result (T.failures starter.new ≡ T.failures starter.old) }
    ensures refused { OnErr result (T.failures starter.new ≡ one_more (T.failures starter.old)) }
{
    let Common { lock, gate } = shared;
    let own = starter.another();
    let promise = Serving::of(&reader, &writer, &gate, &own);
    let serving = move || {
        serve_connection::<Rt, S, G, L, T>(rt, alloc, own, lock, gate, reader, writer, session)
    };
    start(&rt, starter, promise, serving)
}

/// Why no session was started.
#[derive(Clone, Copy, Debug, PartialEq, Eq)]
enum Shortage {
    /// The source gave no connection.
    NoConnection,
    /// It gave one, for which memory or a thread was wanting.
    Unserved(Want),
}

/// What was wanting for a session.
#[derive(Clone, Copy, Debug, PartialEq, Eq)]
enum Want {
    /// Memory for what it shares with the others.
    Memory,
    /// A thread of its own.
    Thread,
}

impl From<Want> for RunFault {
    ghost use Rattle.run_core.specs.Wants.{fault_of_want};

    ghost from_gives = { λ want fault. fault ≡ fault_of_want want };

    fn from(want: Want) -> RunFault {
        match want {
            Want::Memory => RunFault::NoMemory,
            Want::Thread => RunFault::NoThread,
        }
    }
}

/// Accepts a connection, and serves it in a thread of its own.
fn next_session<
    Rt: Threads + Wait + Copy + Drop + Send + Sync + 'static,
    S: Source + Send + 'static,
    G: Gate + Send + Sync + 'static,
    L: Run + Send + Sync + 'static,
    T: Starter + Send + Drop + 'static,
>(
    rt: Rt,
    alloc: Global,
    starter: &mut T,
    shared: &Common<G, L>,
    source: &mut S,
    session: u64,
) -> Result<Running<S::Reader, S::Writer, G, L, T>, Shortage>
    requires failures { S.failures source.old + 1 < 2 ^ 64 }
    requires accepted { S.accepted source.old + 1 < 2 ^ 64 }
    ensures failures { OnOk result (S.failures source.new ≡ S.failures source.old) }
    ensures accepted { OnOk result (S.accepted source.new ≡ S.accepted source.old + 1) }
    ensures next { IfOk result (λ thread. GivesConnections (S.coming source.old) (S.coming source.new) (streams (S.Reader.Read.remaining thread.promise.reader.value) (S.Writer.Write.contents thread.promise.writer.value) ∷ [])) }
    ensures no_connection { IfErr result (λ why. why ≡ shortage.NoConnection → (S.failures source.new ≡ S.failures source.old + 1) × (S.accepted source.new ≡ S.accepted source.old) × (S.coming source.new ≡ S.coming source.old)) }
    ensures started { OnOk result (T.failures starter.new ≡ T.failures starter.old) }
    ensures unstarted { IfErr result (λ why. T.failures starter.new ≡ failures_at why (T.failures starter.old)) }
    ensures unserved { IfErr result (λ why. (want : Want) → why ≡ shortage.Unserved want → S.failures source.new ≡ S.failures source.old) }
{
    let (reader, writer) = match source.accept() {
        Ok(connection) => connection,
        Err(_) => return Err(Shortage::NoConnection),
    };
    match shared.share() {
        Ok(shared) => {
            match start_session::<Rt, S, G, L, T>(
                rt, alloc, starter, shared, reader, writer, session,
            ) {
                Ok(running) => Ok(running),
                Err(_) => Err(Shortage::Unserved(Want::Thread)),
            }
        }
        Err(_) => Err(Shortage::Unserved(Want::Memory)),
    }
}

/// The sessions that were started, and what was wanting for a connection that was accepted after them, if there was one.
#[derive(Drop)]
struct Started<R: Read, W: Write + Connection, G: Gate, L: Run, T: Starter> {
    running: Vec<Running<R, W, G, L, T>>,
    want: Option<Want>,
}

/// Accepts so many connections, and serves each in a thread of its own. There is room for them.
fn start_all<
    Rt: Threads + Wait + Copy + Drop + Send + Sync + 'static,
    S: Source + Send + 'static,
    G: Gate + Send + Sync + 'static,
    L: Run + Send + Sync + 'static,
    T: Starter + Send + Drop + 'static,
>(
    rt: Rt,
    alloc: Global,
    starter: &mut T,
    shared: &Common<G, L>,
    source: &mut S,
    sessions: usize,
    room: Vec<Running<S::Reader, S::Writer, G, L, T>>,
) -> Started<S::Reader, S::Writer, G, L, T>
    requires failures { S.failures source.old + 1 < 2 ^ 64 }
    requires accepted { S.accepted source.old + sessions < 2 ^ 64 }
    requires room { sessions ≤ vec_capacity room }
    requires empty { vec_len room ≡ 0 }
    ensures few { vec_len result.running ≤ sessions }
    ensures failures { result.want ≡ None → FailsIfFewer (vec_len result.running) sessions (S.failures source.old) (S.failures source.new) }
    ensures accepted { result.want ≡ None → S.accepted source.new ≡ S.accepted source.old + vec_len result.running }
    ensures unserved { (want : Want) → result.want ≡ Some want → S.failures source.new ≡ S.failures source.old }
    ensures starts { T.failures starter.new ≡ failures_for result.want (T.failures starter.old) }
    ensures gives { result.want ≡ None → GivesConnections (S.coming source.old) (S.coming source.new) (map (λ thread. streams (S.Reader.Read.remaining thread.promise.reader.value) (S.Writer.Write.contents thread.promise.writer.value)) result.running.items) }
{
    let mut running = room;
    for session in 0..sessions {
        match next_session(rt, alloc, starter, shared, source, session as u64) {
            Ok(session) => running.push_reserved(session),
            Err(Shortage::NoConnection) => {
                return Started {
                    running,
                    want: None,
                };
            }
            Err(Shortage::Unserved(want)) => {
                return Started {
                    running,
                    want: Some(want),
                };
            }
        }
    }
    Started {
        running,
        want: None,
    }
}

/// The sessions of a run that is over, and the shares of their seats.
#[derive(Drop)]
struct Parted<R: Read, W: Write, L: Run> {
    sessions: Vec<Session<R, W>>,
    shares: Vec<Shares<L>>,
}

/// A session without its seat, and the shares of the seat.
fn part<R: Read + Drop, W: Write + Drop, L: Run>(
    served: Served<R, W, L>,
) -> (Session<R, W>, Option<Shares<L>>)
    ensures process { IsProcessOf served.seat result.0.process }
    ensures shares { result.1 ≡ option_map (λ s. s.counted) served.seat }
    ensures own { CountsItsOwn served.seat }
    ensures session { with_seat served.seat result.0 ≡ served }
{
    let Served {
        seat,
        answers,
        end,
        reader,
        writer,
        pushes,
    } = served;
    let (process, shares) = match seat {
        Ok(seat) => {
            let pid = seat.pid();
            let (receipts, shares) = seat.into_parts();
            (Some(Process { pid, receipts }), Some(shares))
        }
        Err(_unused) => (None, None),
    };
    let session = Session {
        process,
        answers,
        end,
        reader,
        writer,
        pushes,
    };
    (session, shares)
}

/// Waits until all sessions have ended, parts each from its seat, learns what it knows of the run's history, and counts what their starters
/// could not start. There is room for them.
fn join_all<
    Rt: Threads,
    R: Read + Drop,
    W: Write + Connection + Drop,
    G: Gate,
    L: Run,
    T: Starter + Drop,
>(
    rt: &Rt,
    starter: &mut T,
    front: &mut Front<L>,
    running: Vec<Running<R, W, G, L, T>>,
    room: Parted<R, W, L>,
) -> Parted<R, W, L>
    requires sessions { vec_len room.sessions + vec_len running ≤ vec_capacity room.sessions }
    requires shares { vec_len room.shares + vec_len running ≤ vec_capacity room.shares }
    requires empty { vec_len room.sessions ≡ 0 }
    requires no_shares { vec_len room.shares ≡ 0 }
    ensures joined { Since front.new (λ h. IsJoined L.limits h G.is_open (map (λ thread. streams (R.remaining thread.promise.reader.value) (W.contents thread.promise.writer.value)) running.items) result.sessions.items result.shares.items) }
    ensures starts { T.failures starter.new ≡ failures_with result.sessions.items (T.failures starter.old) }
    ensures all { vec_len result.sessions ≡ vec_len running }
    ensures shut { AreShut W.was_shut result.sessions.items }
{
    let Parted {
        mut sessions,
        mut shares,
    } = room;
    for thread in running {
        let ServedSession {
            served,
            known,
            starter: own,
        } = thread.join(rt);
        starter.absorb(own);
        front.catch_up(&known);
        drop(known);
        let (session, counted) = part(served);
        sessions.push_reserved(session);
        match counted {
            Some(counted) => shares.push_reserved(counted),
            None => {}
        }
    }
    Parted { sessions, shares }
}

/// Room for all sessions of a run: while they go on, and when they are over.
#[derive(Drop)]
struct Rooms<R: Read, W: Write + Connection, G: Gate, L: Run, T: Starter> {
    running: Vec<Running<R, W, G, L, T>>,
    ends: Parted<R, W, L>,
}

/// Makes room for so many sessions.
fn rooms_for<R: Read + Drop, W: Write + Connection + Drop, G: Gate, L: Run, T: Starter + Drop>(
    alloc: Global,
    sessions: usize,
) -> Result<Rooms<R, W, G, L, T>, AllocError>
    ensures running { IfOk result (λ rooms. (vec_len rooms.running ≡ 0) × (sessions ≤ vec_capacity rooms.running)) }
    ensures ends { IfOk result (λ rooms. (vec_len rooms.ends.sessions ≡ 0) × (sessions ≤ vec_capacity rooms.ends.sessions)) }
    ensures shares { IfOk result (λ rooms. (vec_len rooms.ends.shares ≡ 0) × (sessions ≤ vec_capacity rooms.ends.shares)) }
{
    let running = Vec::with_capacity(alloc, sessions)?;
    Ok(Rooms {
        running,
        ends: Parted {
            sessions: Vec::with_capacity(alloc, sessions)?,
            shares: Vec::with_capacity(alloc, sessions)?,
        },
    })
}

/// What the sessions of a new run share, and the end of its ring that gives its records to the trace.
fn shared_by<G: Gate, L: Run>(
    alloc: Global,
    limits: Limits,
    run: NewRun,
    gate: G,
) -> Result<(Common<G, L>, TraceEnd), AllocError>
    requires named { run ≡ record { names = L.names; book = L.book } }
    requires limits { L.limits ≡ Some limits }
    ensures { IfOk result (λ pair. received pair.1 ≡ []) }
{
    let (lock, end) = SystemLock::new(alloc, limits, run)?;
    let shared = Common {
        lock: Arc::new(alloc, lock)?,
        gate: Arc::new(alloc, gate)?,
    };
    Ok((shared, end))
}

/// Sessions that have ended, their run, which is closed, and what was wanting for a connection that was accepted after them, if there was
/// one.
#[derive(Drop)]
struct Ended<R: Read, W: Write, L: Run> {
    closed: Closed<L>,
    parted: Parted<R, W, L>,
    want: Option<Want>,
}

/// Accepts so many connections, serves each in a thread of its own, and closes the run when all have ended. No thread goes on then, and
/// no record is put into the ring any more.
fn serve_all<
    Rt: Threads + Wait + Copy + Drop + Send + Sync + 'static,
    S: Source + Send + 'static,
    G: Gate + Send + Sync + 'static,
    L: Run + Send + Sync + 'static,
    T: Starter + Send + Drop + 'static,
>(
    rt: Rt,
    alloc: Global,
    starter: &mut T,
    shared: Common<G, L>,
    source: &mut S,
    sessions: usize,
    rooms: Rooms<S::Reader, S::Writer, G, L, T>,
) -> Ended<S::Reader, S::Writer, L>
    requires failures { S.failures source.old + 1 < 2 ^ 64 }
    requires accepted { S.accepted source.old + sessions < 2 ^ 64 }
    requires running { (vec_len rooms.running ≡ 0) × (sessions ≤ vec_capacity rooms.running) }
    requires ends { (vec_len rooms.ends.sessions ≡ 0) × (sessions ≤ vec_capacity rooms.ends.sessions) }
    requires shares { (vec_len rooms.ends.shares ≡ 0) × (sessions ≤ vec_capacity rooms.ends.shares) }
    ensures failures { result.want ≡ None → FailsIfFewer (vec_len result.parted.sessions) sessions (S.failures source.old) (S.failures source.new) }
    ensures accepted { result.want ≡ None → S.accepted source.new ≡ S.accepted source.old + vec_len result.parted.sessions }
    ensures few { vec_len result.parted.sessions ≤ sessions }
    ensures ended { HasEnded G.is_open L.limits result.want (S.coming source.old) (S.coming source.new) result.closed.book result.closed.house result.parted.sessions.items result.parted.shares.items }
    ensures starts { T.failures starter.new ≡ failures_with result.parted.sessions.items (failures_for result.want (T.failures starter.old)) }
    ensures unserved { (want : Want) → result.want ≡ Some want → S.failures source.new ≡ S.failures source.old }
    ensures shut { AreShut S.Writer.Connection.was_shut result.parted.sessions.items }
{
    let Rooms { running, ends } = rooms;
    let started = start_all(rt, alloc, starter, &shared, source, sessions, running);
    let Started { running, want } = started;
    let mut front = shared.lock.front(&rt);
    let parted = join_all(&rt, starter, &mut front, running, ends);
    let system = unshared(&rt, shared.lock).take();
    system.has_all_of(&rt, &front);
    let closed = close(system.into_book());
    Ended {
        closed,
        parted,
        want,
    }
}

/// What a run left that gives no report for this.
fn unreported<R: Read, W: Write, L: Run, K: Sink>(
    fault: RunFault,
    closed: Closed<L>,
    ends: Vec<Session<R, W>>,
    done: Done<K>,
) -> Unreported<R, W, K, L>
    ensures { result ≡ record { fault = fault; left = Some (record { traced = done.traced; ends = ends; sink = done.sink; book = closed.book; house = closed.house }) } }
{
    let Closed { book, house } = closed;
    let Done { traced, sink } = done;
    Unreported {
        fault,
        left: Some(Left {
            traced,
            ends,
            sink,
            book,
            house,
        }),
    }
}

/// Compares and gathers what sessions and their trace left. The receipts of the sessions are good.
#[tactic(auto, using(crate::proofs::StarterLemmas::failures_wanted, crate::proofs::StarterLemmas::no_more_by))]
fn report_of<R: Read + Drop, W: Write + Drop, L: Run, K: Sink + Drop>(
    alloc: Global,
    ended: Ended<R, W, L>,
    done: Done<K>,
) -> Result<Report<R, W, K>, Unreported<R, W, K, L>>
    requires owned { (p : ℕ) → GoodAt ended.closed.book.history p (map (λ s. held_by s.process) ended.parted.sessions.items) }
    ensures run { IfOk result (λ report. IsRunOf ended.closed.book.limits report.records report.bytes_in report.bytes_out ended.closed.book ended.closed.house ended.parted.shares.items (map (λ s. held_by s.process) ended.parted.sessions.items) (map arc_value done.traced.received.items)) }
    ensures decided { OnOk result (FlagsDecideAll (map arc_value done.traced.received.items)) }
    ensures whole { OnOk result (ended.want ≡ None) }
    ensures ends { IfOk result (λ report. (report.ends ≡ ended.parted.sessions) × (report.sessions ≡ vec_len ended.parted.sessions)) }
    ensures trace { IfOk result (λ report. (report.traced ≡ done.traced) × (report.sink ≡ done.sink)) }
    ensures fault { IfErr result (λ u. UnreportedFor ended.closed.book (vec_len ended.parted.shares + 1) (map (λ s. held_by s.process) ended.parted.sessions.items ++ held_in ended.closed.house ∷ []) done.traced.fault (map arc_value done.traced.received.items) u.fault) }
    ensures want { IfErr result (λ u. IsNoWant u.fault → ended.want ≡ None) }
    ensures no_thread { IfErr result (λ u. u.fault ≡ run_fault.NoThread → ended.want ≡ Some wants.Thread) }
    ensures wanted { IfErr result (λ u. (n : ℕ) → failures_for ended.want n ≡ failures_by u.fault n) }
    ensures left { IfErr result (λ u. u.left ≡ Some (record { traced = done.traced; ends = ended.parted.sessions; sink = done.sink; book = ended.closed.book; house = ended.closed.house })) }
{
    let Ended {
        closed,
        parted,
        want,
    } = ended;
    let Parted {
        sessions: ends,
        shares,
    } = parted;
    if let Some(want) = want {
        return Err(unreported(RunFault::from(want), closed, ends, done));
    }
    match end_run(alloc, closed, ends.as_slice(), shares, &done.traced) {
        Ok(sums) => Ok(Report {
            sessions: ends.len(),
            records: sums.records,
            bytes_in: sums.bytes_in,
            bytes_out: sums.bytes_out,
            traced: done.traced,
            ends,
            sink: done.sink,
        }),
        Err(unended) => Err(unreported(unended.fault, unended.closed, ends, done)),
    }
}

/// Serves so many sessions while their trace goes on, then waits until it is written, and compares and gathers what they left. The sink
/// is the one by which the trace was started, and the limits are those that it tells. In any case no thread goes on then.
fn serve_traced<
    Rt: Threads + Wait + Clock + Copy + Drop + Send + Sync + 'static,
    S: Source + Send + 'static,
    G: Gate + Send + Sync + 'static,
    L: Run + Send + Sync + 'static,
    K: Sink + Send + Drop + 'static,
    T: Starter + Send + Drop + 'static,
>(
    rt: Rt,
    alloc: Global,
    starter: &mut T,
    shared: Common<G, L>,
    source: &mut S,
    sessions: usize,
    rooms: Rooms<S::Reader, S::Writer, G, L, T>,
    limits: Limits,
    traces: Traces<K>,
) -> Result<Report<S::Reader, S::Writer, K>, Unreported<S::Reader, S::Writer, K, L>>
    requires limits { L.limits ≡ Some limits }
    requires traced { traces.thread.promise.limits ≡ limits }
    requires failures { S.failures source.old + 1 < 2 ^ 64 }
    requires accepted { S.accepted source.old + sessions < 2 ^ 64 }
    requires running { (vec_len rooms.running ≡ 0) × (sessions ≤ vec_capacity rooms.running) }
    requires ends { (vec_len rooms.ends.sessions ≡ 0) × (sessions ≤ vec_capacity rooms.ends.sessions) }
    requires shares { (vec_len rooms.ends.shares ≡ 0) × (sessions ≤ vec_capacity rooms.ends.shares) }
    ensures failures { IfOk result (λ report. FailsIfFewer report.sessions sessions (S.failures source.old) (S.failures source.new)) }
    ensures accepted { IfOk result (λ report. S.accepted source.new ≡ S.accepted source.old + report.sessions) }
    ensures few { IfOk result (λ report. (report.sessions ≡ vec_len report.ends) × (report.sessions ≤ sessions)) }
    ensures run { IfOk result (λ report. IsRun (record { always = G.is_open; limits_are = limits; coming = S.coming source.old; later = S.coming source.new; records = report.records; taken = report.bytes_in; given = report.bytes_out; ends = report.ends.items; received = map arc_value report.traced.received.items; trace = record { base = K.contents traces.thread.promise.sink.value; now = K.contents report.sink; before = K.failures traces.thread.promise.sink.value; after = K.failures report.sink; is_synced = K.is_synced report.sink; whole = report.traced.whole; bytes = report.traced.bytes; fault = report.traced.fault } })) }
    ensures judged { IfOk result (λ report. IsJudged (K.contents traces.thread.promise.sink.value) (K.contents report.sink) report.traced.whole report.traced.bytes) }
    ensures unreported { IfErr result (λ u. IsUnreported (option_map (λ left. record { always = G.is_open; limits_are = limits; coming = S.coming source.old; later = S.coming source.new; ends = left.ends.items; received = map arc_value left.traced.received.items; trace = record { base = K.contents traces.thread.promise.sink.value; now = K.contents left.sink; before = K.failures traces.thread.promise.sink.value; after = K.failures left.sink; is_synced = K.is_synced left.sink; whole = left.traced.whole; bytes = left.traced.bytes; fault = left.traced.fault }; book = left.book; house = left.house }) u.left) u.fault) }
    ensures unbegun { IfErr result (λ u. u.left ≡ None → S.accepted source.new ≡ S.accepted source.old) }
    ensures started { IfOk result (λ report. T.failures starter.new ≡ failures_with report.ends.items (T.failures starter.old)) }
    ensures unstarted { IfErr result (λ u. T.failures starter.new ≡ failures_with (left_sessions (option_map (λ left. left.ends.items) u.left)) (failures_by u.fault (T.failures starter.old))) }
    ensures unserved { IfErr result (λ u. u.fault ≡ run_fault.NoThread → S.failures source.new ≡ S.failures source.old) }
    ensures shut { IfOk result (λ report. AreShut S.Writer.Connection.was_shut report.ends.items) }
    ensures left_shut { IfErr result (λ u. AreShut S.Writer.Connection.was_shut (left_sessions (option_map (λ left. left.ends.items) u.left))) }
    ensures spelled { IfOk result (λ report. report.traced.fault ≡ Some trace_fault.Unspellable → ⊥) }
{
    runs_are_judged(limits);
    let ended = serve_all(rt, alloc, starter, shared, source, sessions, rooms);
    let done = traces.join(&rt);
    let report = report_of(alloc, ended, done)?;
    Ok(report)
}

/// Runs so many sessions, each in a thread of its own, and a thread beside them that writes the trace into a sink. An answer is written
/// once the gate lets it through. When all sessions have ended, the run is closed, what their seats counted is gathered, and receipts,
/// records and what the trace thread received are compared. Where accepting fails, the sessions before are served to their end, and the
/// report has fewer. Where a session's own thread cannot be started, or memory is wanting for it, they are too, but there is no report.
/// Where the sink fails, the report tells it; that a record cannot be spelled it never tells. The trace tells the limits of the run, and an
/// audit finds what the sink took legal, with the whole records that are told. The connection of each session is shut. A run without a report hands out what its sessions left, its records and what the trace thread
/// received, in which its fault can be seen. All threads are started through the starter, which counts those that could not be: one for
/// each session that has no thread to read, and one where that is why there is no report. In any case no thread goes on then.
pub fn run_sessions<
    Rt: Threads + Wait + Clock + Copy + Drop + Send + Sync + 'static,
    S: Source + Send + 'static,
    G: Gate + Send + Sync + 'static,
    L: Run + Send + Sync + 'static,
    K: Sink + Send + Drop + 'static,
    T: Starter + Send + Drop + 'static,
>(
    rt: Rt,
    alloc: Global,
    starter: &mut T,
    source: &mut S,
    sessions: usize,
    limits: Limits,
    run: NewRun,
    gate: G,
    sink: K,
) -> Result<Report<S::Reader, S::Writer, K>, Unreported<S::Reader, S::Writer, K, L>>
    requires failures { S.failures source.old + 1 < 2 ^ 64 }
    requires accepted { S.accepted source.old + sessions < 2 ^ 64 }
    requires named { run ≡ record { names = L.names; book = L.book } }
    requires limits { L.limits ≡ Some limits }
    requires sound { K.is_sound sink ≡ true }
    requires few { K.failures sink + 1 < 2 ^ 64 }
    ensures failures { IfOk result (λ report. FailsIfFewer report.sessions sessions (S.failures source.old) (S.failures source.new)) }
    ensures accepted { IfOk result (λ report. S.accepted source.new ≡ S.accepted source.old + report.sessions) }
    ensures few { IfOk result (λ report. (report.sessions ≡ vec_len report.ends) × (report.sessions ≤ sessions)) }
    ensures run { IfOk result (λ report. IsRun (record { always = G.is_open; limits_are = limits; coming = S.coming source.old; later = S.coming source.new; records = report.records; taken = report.bytes_in; given = report.bytes_out; ends = report.ends.items; received = map arc_value report.traced.received.items; trace = record { base = K.contents sink; now = K.contents report.sink; before = K.failures sink; after = K.failures report.sink; is_synced = K.is_synced report.sink; whole = report.traced.whole; bytes = report.traced.bytes; fault = report.traced.fault } })) }
    ensures judged { IfOk result (λ report. IsJudged (K.contents sink) (K.contents report.sink) report.traced.whole report.traced.bytes) }
    ensures unreported { IfErr result (λ u. IsUnreported (option_map (λ left. record { always = G.is_open; limits_are = limits; coming = S.coming source.old; later = S.coming source.new; ends = left.ends.items; received = map arc_value left.traced.received.items; trace = record { base = K.contents sink; now = K.contents left.sink; before = K.failures sink; after = K.failures left.sink; is_synced = K.is_synced left.sink; whole = left.traced.whole; bytes = left.traced.bytes; fault = left.traced.fault }; book = left.book; house = left.house }) u.left) u.fault) }
    ensures unbegun { IfErr result (λ u. u.left ≡ None → S.accepted source.new ≡ S.accepted source.old) }
    ensures started { IfOk result (λ report. T.failures starter.new ≡ failures_with report.ends.items (T.failures starter.old)) }
    ensures unstarted { IfErr result (λ u. T.failures starter.new ≡ failures_with (left_sessions (option_map (λ left. left.ends.items) u.left)) (failures_by u.fault (T.failures starter.old))) }
    ensures unserved { IfErr result (λ u. u.fault ≡ run_fault.NoThread → S.failures source.new ≡ S.failures source.old) }
    ensures shut { IfOk result (λ report. AreShut S.Writer.Connection.was_shut report.ends.items) }
    ensures left_shut { IfErr result (λ u. AreShut S.Writer.Connection.was_shut (left_sessions (option_map (λ left. left.ends.items) u.left))) }
    ensures spelled { IfOk result (λ report. report.traced.fault ≡ Some trace_fault.Unspellable → ⊥) }
{
    let rooms = rooms_for(alloc, sessions)?;
    let (shared, end) = shared_by::<G, L>(alloc, limits, run, gate)?;
    match start_trace(rt, alloc, starter, end, limits, sink) {
        Ok(traces) => serve_traced(
            rt, alloc, starter, shared, source, sessions, rooms, limits, traces,
        ),
        Err(_) => Err(Unreported {
            fault: RunFault::NoThread,
            left: None,
        }),
    }
}
