//! Sessions of one run go on side by side, each answer is written once its gate lets it through, and no lock is held meanwhile.

ghost use Rattle.std.specs.Prelude.{◌≡◌, ◌≤◌, ◌+◌, ◌<◌, All, Some, length, IfOk};
ghost use Rattle.run_core.specs.Run.{IsBlank};

use call_types::limits::Limits;
use run_core::report::{Report, Session};
use run_core::sessions::run_sessions;
use run_core::source::{AcceptFailed, Source};
use session_core::connection::Connection;
use session_core::end::End;
use session_core::gate::{Gate, OpenGate};
use session_core::memory::{Manner as StreamManner, MemoryReader, MemoryWriter};
use session_core::starter::SystemThreads;
use std::alloc::{AllocError, Global};
use std::io::{Error, ErrorKind, Read, Write};
use std::marker::Brand;
use std::process::Abort;
use std::sync::atomic::{AtomicBool, AtomicU64, Ordering};
use std::sync::{Arc, Wait};
use std::test::Fail;
use std::thread::Threads;
use std::time::Clock;
use std::{io, thread};
use system_lock::run::{NewRun, Run};
use trace_writer::memory::{Manner, MemorySink};
use trace_writer::sink::Sink;
use trace_writer::traced::TraceFault;

/// How often a run is repeated whose threads wait for one another.
const REPEATED: u32 = 100;

/// How often a reader waits for the other session.
const WAITS: u32 = 1_000;

/// The frame of a join.
const JOIN: [u8; 5] = [0, 0, 0, 1, 1];

/// The frame of an fstat of descriptor 0.
const FSTAT: [u8; 9] = [0, 0, 0, 5, 30, 0, 0, 0, 0];

/// A stream over memory that neither fails nor is interrupted.
const WELL: StreamManner = StreamManner {
    most: 65_536,
    fails_at: None,
    interruptions: 0,
    flush_fails_at: None,
};

/// Lets other threads run.
fn stand_aside() {
    for _ in 0..1_000 {
        thread::yield_now();
    }
}

/// Connections that are there from the start, of which the last is accepted first. Nothing was written to any of them.
#[derive(Drop)]
struct Waiting<R: Read + Drop, W: Write + Drop> {
    connections: Vec<(R, W)>,
    accepted: u64,
    failures: u64,
    ghost blank: { All (λ connection. IsBlank (W.contents connection.1)) connections.items },
}

impl<R: Read + Send + Drop + 'static, W: Write + Connection + Send + Drop + 'static> Source
    for Waiting<R, W> {
    type Reader = R;

    type Writer = W;

    ghost use Rattle.std.specs.Prelude.{Some, map, reverse};
    ghost use Rattle.run_core.specs.Run.{streams};

    ghost failures = { λ s. s.failures };

    ghost accepted = { λ s. s.accepted };

    ghost coming = { λ s. Some (map (λ connection. streams (R.remaining connection.0) (W.contents connection.1)) (reverse s.connections.items)) };

    fn accept(&mut self) -> Result<(R, W), AcceptFailed> {
        match self.connections.pop() {
            Some(connection) => {
                self.accepted += 1;
                Ok(connection)
            }
            None => {
                self.failures += 1;
                Err(AcceptFailed)
            }
        }
    }

    fn failures(&self) -> u64 {
        self.failures
    }
}

/// The report of a run over all these connections, under this gate, with a trace into a sink of this manner, if there is one.
fn report_of<
    Rt: Threads + Wait + Clock + Copy + Drop + Send + Sync + 'static,
    R: Read + Send + Drop + 'static,
    W: Write + Connection + Send + Drop + 'static,
    G: Gate + Send + Sync + 'static,
    L: Run + Send + Sync + 'static,
>(
    rt: Rt,
    alloc: Global,
    connections: Vec<(R, W)>,
    gate: G,
    limits: Limits,
    run: NewRun,
    manner: Manner,
) -> Option<Report<R, W, MemorySink>>
    requires named { run ≡ record { names = L.names; book = L.book } }
    requires limits { L.limits ≡ Some limits }
    requires blank { All (λ connection. IsBlank (W.contents connection.1)) connections.items }
{
    let sessions = connections.len();
    let mut source = Waiting {
        connections,
        accepted: 0,
        failures: 0,
    };
    let ran = run_sessions::<Rt, Waiting<R, W>, G, L, MemorySink, SystemThreads>(
        rt,
        alloc,
        &mut SystemThreads::new(),
        &mut source,
        sessions,
        limits,
        run,
        gate,
        MemorySink::new(alloc, manner),
    );
    ran.ok()
}

/// Whether a session has ended well, with two answers.
fn is_whole<R: Read, W: Write>(session: &Session<R, W>) -> bool {
    session.end == End::Closed && session.answers.len() == 2
}

/// Whether two sessions of two requests each have ended well: two joins, two calls, two exits and the closing.
fn are_whole<R: Read, W: Write>(report: &Report<R, W, MemorySink>) -> bool {
    match report.ends.as_slice() {
        [one, other] => report.records == 7 && is_whole(one) && is_whole(other),
        _ => false,
    }
}

/// Whether a run over two connections, under this gate and with a sound sink, was whole; none where there is no memory for a report.
fn is_whole_under<
    Rt: Threads + Wait + Clock + Copy + Drop + Send + Sync + 'static,
    R: Read + Send + Drop + 'static,
    W: Write + Connection + Send + Drop + 'static,
    G: Gate + Send + Sync + 'static,
    L: Run + Send + Sync + 'static,
>(
    rt: Rt,
    alloc: Global,
    connections: Vec<(R, W)>,
    gate: G,
    limits: Limits,
    run: NewRun,
) -> Option<bool>
    requires named { run ≡ record { names = L.names; book = L.book } }
    requires limits { L.limits ≡ Some limits }
    requires blank { All (λ connection. IsBlank (W.contents connection.1)) connections.items }
{
    match report_of::<Rt, R, W, G, L>(rt, alloc, connections, gate, limits, run, Manner::sound()) {
        Some(report) => Some(are_whole(&report)),
        None => None,
    }
}

/// When a gate lets an answer through.
#[derive(Clone, Copy, PartialEq, Eq)]
enum Says {
    /// At once.
    Yes,
    /// Never.
    No,
    /// That of place 0 once an answer of the other session was let through; all others at once.
    OthersFirst,
}

/// What a gate was asked, and what it let through.
#[derive(Drop)]
struct Said {
    questions: AtomicU64,
    /// A bit for each place that was let through once; it is another one where that was twice.
    places: AtomicU64,
    /// How many answers of session 0, and of all others.
    first: AtomicU64,
    others: AtomicU64,
}

impl Said {
    fn new() -> Self {
        Said {
            questions: AtomicU64::new(0),
            places: AtomicU64::new(0),
            first: AtomicU64::new(0),
            others: AtomicU64::new(0),
        }
    }

    /// How many questions there were, the bits of the places, and the answers of session 0 and of all others.
    fn numbers(&self) -> (u64, u64, u64, u64) {
        (
            self.questions.load(Ordering::SeqCst),
            self.places.load(Ordering::SeqCst),
            self.first.load(Ordering::SeqCst),
            self.others.load(Ordering::SeqCst),
        )
    }
}

/// The bit of a place, of which a run of these tests has few.
fn bit_of(place: u64) -> u64 {
    match place {
        0 => 0x1,
        1 => 0x10,
        2 => 0x100,
        3 => 0x1000,
        4 => 0x1_0000,
        _ => 0x10_0000,
    }
}

/// A gate whose questions are noted.
#[derive(Drop)]
struct NotedGate {
    says: Says,
    said: Arc<Said>,
}

impl NotedGate {
    /// Whether it lets an answer through.
    fn lets(&self, session: u64, place: u64) -> bool {
        let others = if session == 0 {
            &self.said.others
        } else {
            &self.said.first
        };
        match self.says {
            Says::Yes => true,
            Says::No => false,
            Says::OthersFirst => place != 0 || others.load(Ordering::SeqCst) > 0,
        }
    }
}

impl Gate for NotedGate {
    ghost use Rattle.std.specs.Prelude.{false};

    ghost is_open = { false };

    ghost said = { λ _ _ _. Unit {0} };

    fn may_write(&self, session: u64, place: u64) -> bool {
        self.said.questions.fetch_add(1, Ordering::SeqCst);
        if !self.lets(session, place) {
            if self.says == Says::OthersFirst {
                stand_aside();
            }
            return false;
        }
        self.said.places.fetch_add(bit_of(place), Ordering::SeqCst);
        if session == 0 {
            self.said.first.fetch_add(1, Ordering::SeqCst);
        } else {
            self.said.others.fetch_add(1, Ordering::SeqCst);
        }
        true
    }

    fn is_always_open(&self) -> bool {
        false
    }
}

/// A writer that fails where it is given another thing than one answer whose place was let through, just once.
#[derive(Drop)]
struct GuardedWriter {
    said: Arc<Said>,
}

impl Write for GuardedWriter {
    ghost use Rattle.std.specs.Prelude.{None};

    ghost contents = { λ w. None };

    fn write(&mut self, buffer: &[u8]) -> io::Result<usize> {
        // a frame's length, a byte for a record, and its place
        let bit = match buffer.get(12) {
            Some(place) => bit_of(u64::from(*place)),
            None => return Err(Error::from(ErrorKind::InvalidData)),
        };
        if self.said.places.load(Ordering::SeqCst) & bit == 0 {
            return Err(Error::from(ErrorKind::InvalidData));
        }
        Ok(buffer.len())
    }

    fn flush(&mut self) -> io::Result<()> {
        Ok(())
    }
}

impl Connection for GuardedWriter {
    ghost was_shut = { λ _. Unit {0} };

    fn shut(&self) {}
}

/// The frames of a join, and of a question about descriptor 0, which is not open.
fn two_requests(alloc: Global) -> Result<Vec<u8>, AllocError> {
    let mut bytes = Vec::new(alloc);
    bytes.extend_from_slice(&JOIN)?;
    bytes.extend_from_slice(&FSTAT)?;
    Ok(bytes)
}

/// A connection that sends two requests at once, and whose writer knows what its gate lets through.
fn guarded(alloc: Global, said: &Arc<Said>) -> Result<(MemoryReader, GuardedWriter), AllocError> {
    let writer = GuardedWriter {
        said: Arc::try_clone(said)?,
    };
    Ok((MemoryReader::new(two_requests(alloc)?, WELL), writer))
}

/// Two such connections.
fn two_guarded(
    alloc: Global,
    said: &Arc<Said>,
) -> Result<Vec<(MemoryReader, GuardedWriter)>, AllocError> {
    let one = guarded(alloc, said)?;
    let other = guarded(alloc, said)?;
    let connections = vec![in alloc; one, other]?;
    Ok(connections)
}

/// A gate that says this.
fn gate_of(says: Says, said: &Arc<Said>) -> Result<NotedGate, AllocError> {
    let said = Arc::try_clone(said)?;
    Ok(NotedGate { says, said })
}

/// Whether a run of two sessions is whole whose first answer waits for the other session.
fn is_whole_others_first<
    Rt: Threads + Wait + Clock + Copy + Drop + Send + Sync + 'static,
    L: Run + Send + Sync + 'static,
>(
    rt: Rt,
    alloc: Global,
    said: &Arc<Said>,
    limits: Limits,
    run: NewRun,
) -> Result<Option<bool>, AllocError>
    requires named { run ≡ record { names = L.names; book = L.book } }
    requires limits { L.limits ≡ Some limits }
{
    let gate = gate_of(Says::OthersFirst, said)?;
    let connections = two_guarded(alloc, said)?;
    Ok(is_whole_under::<Rt, MemoryReader, GuardedWriter, NotedGate, L>(
        rt,
        alloc,
        connections,
        gate,
        limits,
        run,
    ))
}

/// One run whose first answer waits for the other session.
fn waits_at_its_gate<
    Rt: Abort + Threads + Wait + Clock + Copy + Drop + Send + Sync + 'static,
    L: Run + Send + Sync + 'static,
>(rt: Rt, alloc: Global, limits: Limits, run: NewRun) -> Result<(), AllocError>
    requires named { run ≡ record { names = L.names; book = L.book } }
    requires limits { L.limits ≡ Some limits }
{
    let said = Arc::new(alloc, Said::new())?;
    assert!(rt; is_whole_others_first::<Rt, L>(rt, alloc, &said, limits, run)? == Some(true));
    let (_, _, first, others) = said.numbers();
    assert_eq!(rt; (first, others), (2, 2));
    Ok(())
}

#[test]
fn answer_waits_at_its_gate_for_another_session(rt: HostRuntime) -> Result<(), Fail> {
    for _ in 0..REPEATED {
        let limits = Limits::new(100, 1024)?;
        waits_at_its_gate::<HostRuntime, Brand>(rt, rt.alloc(), limits, NewRun::new())?;
    }
    Ok(())
}

/// A connection that sends two requests at once, over memory.
fn plain(alloc: Global) -> Result<(MemoryReader, MemoryWriter), AllocError>
    ensures { IfOk result (λ connection. IsBlank (Some connection.1.bytes)) }
{
    let reader = MemoryReader::new(two_requests(alloc)?, WELL);
    Ok((reader, MemoryWriter::new(alloc, WELL)))
}

/// What came of one session over memory under a gate: its end, how many answers there were, how often the last was refused, the bytes
/// written, and how many records the run has.
fn came_of(
    report: &Report<MemoryReader, MemoryWriter, MemorySink>,
) -> Option<(End, usize, u32, usize, u64)> {
    match report.ends.as_slice() {
        [only] => {
            let answers = only.answers.len();
            let written = only.writer.get_ref().bytes().len();
            Some((
                only.end,
                answers,
                only.writer.log().refusals(),
                written,
                report.records,
            ))
        }
        _ => None,
    }
}

/// What comes of one session over memory, in a run of so many records, under a gate that says this.
fn under_a_gate<
    Rt: Threads + Wait + Clock + Copy + Drop + Send + Sync + 'static,
    L: Run + Send + Sync + 'static,
>(
    rt: Rt,
    alloc: Global,
    says: Says,
    said: &Arc<Said>,
    limits: Limits,
    run: NewRun,
) -> Result<Option<(End, usize, u32, usize, u64)>, AllocError>
    requires named { run ≡ record { names = L.names; book = L.book } }
    requires limits { L.limits ≡ Some limits }
{
    let gate = gate_of(says, said)?;
    let connections = vec![in alloc; plain(alloc)?]?;
    match report_of::<Rt, MemoryReader, MemoryWriter, NotedGate, L>(
        rt,
        alloc,
        connections,
        gate,
        limits,
        run,
        Manner::sound(),
    ) {
        Some(report) => Ok(came_of(&report)),
        None => Ok(None),
    }
}

#[test]
fn answer_is_refused_a_thousand_times(rt: HostRuntime) -> Result<(), Fail> {
    let said = Arc::new(rt.alloc(), Said::new())?;
    let limits = Limits::new(100, 1024)?;
    let came = under_a_gate::<HostRuntime, Brand>(
        rt,
        rt.alloc(),
        Says::No,
        &said,
        limits,
        NewRun::new(),
    )?;
    // the join, its process's exit and the closing
    assert!(rt; came == Some((End::WriteFault { sent: 0 }, 1, 1_000, 0, 3)));
    assert_eq!(rt; said.numbers(), (1_000, 0, 0, 0));
    Ok(())
}

#[test]
fn refusal_is_asked_for_by_the_records_seen(rt: HostRuntime) -> Result<(), Fail> {
    let said = Arc::new(rt.alloc(), Said::new())?;
    let limits = Limits::new(3, 1024)?;
    let came = under_a_gate::<HostRuntime, Brand>(
        rt,
        rt.alloc(),
        Says::Yes,
        &said,
        limits,
        NewRun::new(),
    )?;
    // the join at place 0, in a frame of 22 bytes, and a refusal in one of 6, since the run is full
    assert!(rt; came == Some((End::Closed, 2, 0, 28, 3)));
    assert_eq!(rt; said.numbers(), (2, 0x11, 2, 0));
    Ok(())
}

/// A reader that gives its second frame only after the other session has written.
#[derive(Drop)]
struct ShyReader {
    first: Vec<u8>,
    second: Vec<u8>,
    reads: u8,
    has_other_written: Arc<AtomicBool>,
}

impl ShyReader {
    /// Waits until the other session has written, but not for ever.
    fn wait(&self) -> io::Result<()> {
        for _ in 0..WAITS {
            if self.has_other_written.load(Ordering::SeqCst) {
                return Ok(());
            }
            stand_aside();
        }
        Err(Error::from(ErrorKind::TimedOut))
    }
}

/// Copies bytes, as many as fit, and tells how many.
fn copied(bytes: &[u8], buffer: &mut [u8]) -> usize
    ensures few { result ≤ length buffer.old }
    ensures long { length buffer.new ≡ length buffer.old }
{
    let count = bytes.len().min(buffer.len());
    let (front, _) = bytes.split_at(count);
    buffer[..count].copy_from_slice(front);
    count
}

impl Read for ShyReader {
    ghost use Rattle.std.specs.Prelude.{None};

    ghost remaining = { λ r. None };

    fn read(&mut self, buffer: &mut [u8]) -> io::Result<usize> {
        self.reads = self.reads.saturating_add(1);
        match self.reads {
            1 => Ok(copied(self.first.as_slice(), buffer)),
            2 => {
                self.wait()?;
                Ok(copied(self.second.as_slice(), buffer))
            }
            _ => Ok(0),
        }
    }
}

/// A writer that tells when it has got bytes.
#[derive(Drop)]
struct TellingWriter {
    has_written: Arc<AtomicBool>,
}

impl Write for TellingWriter {
    ghost use Rattle.std.specs.Prelude.{None};

    ghost contents = { λ w. None };

    fn write(&mut self, buffer: &[u8]) -> io::Result<usize> {
        self.has_written.store(true, Ordering::SeqCst);
        Ok(buffer.len())
    }

    fn flush(&mut self) -> io::Result<()> {
        Ok(())
    }
}

impl Connection for TellingWriter {
    ghost was_shut = { λ _. Unit {0} };

    fn shut(&self) {}
}

/// A connection that joins, and asks about descriptor 0 only after the other session has written.
fn one_by_one(
    alloc: Global,
    own: &Arc<AtomicBool>,
    other: &Arc<AtomicBool>,
) -> Result<(ShyReader, TellingWriter), AllocError> {
    let mut first = Vec::new(alloc);
    first.extend_from_slice(&JOIN)?;
    let mut second = Vec::new(alloc);
    second.extend_from_slice(&FSTAT)?;
    let reader = ShyReader {
        first,
        second,
        reads: 0,
        has_other_written: Arc::try_clone(other)?,
    };
    let writer = TellingWriter {
        has_written: Arc::try_clone(own)?,
    };
    Ok((reader, writer))
}

/// Two such connections, of which each waits for the other.
fn two_one_by_one(alloc: Global) -> Result<Vec<(ShyReader, TellingWriter)>, AllocError> {
    let one = Arc::new(alloc, AtomicBool::new(false))?;
    let other = Arc::new(alloc, AtomicBool::new(false))?;
    let first = one_by_one(alloc, &one, &other)?;
    let second = one_by_one(alloc, &other, &one)?;
    let connections = vec![in alloc; first, second]?;
    Ok(connections)
}

/// Whether a run of two sessions is whole whose readers wait for one another.
fn is_whole_one_by_one<
    Rt: Threads + Wait + Clock + Copy + Drop + Send + Sync + 'static,
    L: Run + Send + Sync + 'static,
>(rt: Rt, alloc: Global, limits: Limits, run: NewRun) -> Result<Option<bool>, AllocError>
    requires named { run ≡ record { names = L.names; book = L.book } }
    requires limits { L.limits ≡ Some limits }
{
    let connections = two_one_by_one(alloc)?;
    Ok(is_whole_under::<Rt, ShyReader, TellingWriter, OpenGate, L>(
        rt,
        alloc,
        connections,
        OpenGate,
        limits,
        run,
    ))
}

#[test]
fn reader_waits_for_the_answer_of_another_session(rt: HostRuntime) -> Result<(), Fail> {
    for _ in 0..REPEATED {
        let limits = Limits::new(100, 1024)?;
        let whole = is_whole_one_by_one::<HostRuntime, Brand>(
            rt,
            rt.alloc(),
            limits,
            NewRun::new(),
        )?;
        assert!(rt; whole == Some(true));
    }
    Ok(())
}

/// Whether all answers of two sessions came, in a run whose sink failed once, so that this was told of its trace.
fn came_all_the_same(
    report: &Report<MemoryReader, MemoryWriter, MemorySink>,
    fault: TraceFault,
    whole: u64,
) -> bool {
    are_whole(report)
        && report.sessions == 2
        && report.sink.failures() == 1
        && report.traced.fault == Some(fault)
        && report.traced.whole == whole
        && report.traced.bytes == report.sink.bytes().len() as u64
}

/// Two connections over memory that send two requests each.
fn two_plain(alloc: Global) -> Result<Vec<(MemoryReader, MemoryWriter)>, AllocError>
    ensures { IfOk result (λ connections. All (λ connection. IsBlank (Some connection.1.bytes)) connections.items) }
{
    let one = plain(alloc)?;
    let other = plain(alloc)?;
    let connections = vec![in alloc; one, other]?;
    Ok(connections)
}

/// Whether all answers of two sessions come, in a run whose sink fails so, and whether this is told of its trace.
fn keeps_no_answer_back<
    Rt: Threads + Wait + Clock + Copy + Drop + Send + Sync + 'static,
    L: Run + Send + Sync + 'static,
>(
    rt: Rt,
    alloc: Global,
    manner: Manner,
    told: (TraceFault, u64),
    limits: Limits,
    run: NewRun,
) -> Result<Option<bool>, AllocError>
    requires named { run ≡ record { names = L.names; book = L.book } }
    requires limits { L.limits ≡ Some limits }
{
    let connections = two_plain(alloc)?;
    match report_of::<Rt, MemoryReader, MemoryWriter, OpenGate, L>(
        rt,
        alloc,
        connections,
        OpenGate,
        limits,
        run,
        manner,
    ) {
        Some(report) => Ok(Some(came_all_the_same(&report, told.0, told.1))),
        None => Ok(None),
    }
}

#[test]
fn sink_that_fails_keeps_no_answer_back(rt: HostRuntime) -> Result<(), Fail> {
    // the sync fails, and then the first write does
    for (manner, fault, whole) in [
        (Manner::unsyncable(), TraceFault::Sync, 7),
        (Manner::refusing(), TraceFault::Write, 0),
    ] {
        let limits = Limits::new(100, 1024)?;
        let came = keeps_no_answer_back::<HostRuntime, Brand>(
            rt,
            rt.alloc(),
            manner,
            (fault, whole),
            limits,
            NewRun::new(),
        )?;
        assert!(rt; came == Some(true));
    }
    Ok(())
}
