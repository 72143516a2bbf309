//! A run of sessions, its trace, and the line that reports it.

ghost use Rattle.std.specs.Prelude.{◌≡◌, ◌+◌, ◌<◌, ◌≤◌, ◌^◌, Some, true, IfOk, option_map};
ghost use Rattle.fdref.specs.Serve.{Reports, end_of_run, is_unstarted, lacks_a_thread, report_line};
ghost use Rattle.fdref.specs.Proved.Serving.{end_without_report};
ghost use Rattle.job_core.specs.Output.{WritesLine};
ghost use Rattle.logged_streams.specs.Streams.{one_more};
ghost use Rattle.job_core.specs.declared.job_end.JobEnd.TheVariants as ended;

use call_types::limits::Limits;
use job_core::job_end::JobEnd;
use job_core::output::write_lines;
use logged_streams::writer::LoggedWriter;
use run_core::report::{Report, RunFault, Session};
use run_core::sessions::run_sessions;
use run_core::source::Source;
use session_core::end::End;
use session_core::gate::OpenGate;
use session_core::starter::Starter;
use std::alloc::{AllocError, Global};
use std::io::{Read, Write};
use std::marker::Brand;
use std::mem::forget;
use std::sync::Wait;
use std::thread::Threads;
use std::time::Clock;
use system_lock::run::{NewRun, Run};
use trace_writer::sink::Sink;
use trace_writer::traced::TraceFault;

/// How a run of sessions ended, and the sink with its trace. A run without a report gives no sink back.
#[derive(Drop)]
pub struct Served<K: Drop> {
    pub end: JobEnd,
    pub sink: Option<K>,
}

/// The line of a report.
fn line_of<R: Read, V: Write, K: Sink>(
    alloc: Global,
    report: &Report<R, V, K>,
) -> Result<Vec<u8>, AllocError>
    ensures { IfOk result (λ line. line.items ≡ report_line report.now.sessions report.now.records report.now.bytes_in report.now.bytes_out report.now.traced.whole) }
{
    let sessions = report.sessions;
    let records = report.records;
    let bytes_in = report.bytes_in;
    let bytes_out = report.bytes_out;
    let whole = report.traced.whole;
    let line = format!(in alloc;
        "sessions {sessions} records {records} in {bytes_in} out {bytes_out} trace {whole}\n"
    )?;
    Ok(line.into_bytes())
}

/// Whether a session ended since no thread could be started for it.
fn is_unstarted(end: End) -> bool
    ensures { result ≡ is_unstarted end }
{
    match end {
        End::NoThread => true,
        End::Closed
        | End::ReadFault
        | End::WriteFault { .. }
        | End::Malformed
        | End::Ahead
        | End::RunFull
        | End::NoMemory
        | End::Foreign => false,
    }
}

/// Whether one of these sessions did.
fn lacks_a_thread<R: Read, V: Write>(sessions: &[Session<R, V>]) -> bool
    ensures { result ≡ lacks_a_thread sessions.now }
{
    sessions.iter().any(|session| is_unstarted(session.end))
}

/// How a run with a report ended. If several apply: missing sessions first, then a fault of the trace, then a missing
/// thread.
fn end_of_run(
    started: usize,
    wanted: usize,
    fault: Option<TraceFault>,
    lacks_a_thread: bool,
) -> JobEnd
    ensures { result ≡ end_of_run started wanted fault lacks_a_thread }
{
    if started < wanted {
        return JobEnd::CannotListen;
    }
    match fault {
        Some(_) => JobEnd::TraceFault,
        None if lacks_a_thread => JobEnd::NoThread,
        None => JobEnd::Done,
    }
}

/// The end of a run that gives no report.
fn end_without_report(fault: RunFault) -> JobEnd
    ensures { result ≡ end_without_report fault }
{
    match fault {
        RunFault::NoMemory => JobEnd::NoMemory,
        RunFault::NoThread => JobEnd::NoThread,
        RunFault::Missing => JobEnd::MissingShare,
        RunFault::Disagree { place } => JobEnd::Disagree { place },
    }
}

/// Writes the line of a report, of a run that was to have so many sessions: how the run ended.
fn write_report<R: Read, V: Write, K: Sink, W: Write>(
    alloc: Global,
    report: &Report<R, V, K>,
    wanted: usize,
    writer: &mut LoggedWriter<W>,
) -> JobEnd
    ensures { WritesLine (report_line report.now.sessions report.now.records report.now.bytes_in report.now.bytes_out report.now.traced.whole) (end_of_run report.now.sessions wanted report.now.traced.fault (lacks_a_thread report.now.ends.items)) writer.old writer.new result }
{
    let line = match line_of(alloc, report) {
        Ok(line) => line,
        Err(_) => return JobEnd::NoMemory,
    };
    match write_lines(writer, line.as_slice()) {
        Ok(()) => end_of_run(
            report.sessions,
            wanted,
            report.traced.fault,
            lacks_a_thread(report.ends.as_slice()),
        ),
        Err(ended) => ended,
    }
}

/// Lets go of what sessions left: their streams are dropped, and their answers and receipts leaked, which the end of the program gives back.
fn let_go<R: Read + Drop, V: Write + Drop>(sessions: Vec<Session<R, V>>) {
    for session in sessions {
        let Session {
            process,
            answers,
            ..
        } = session;
        forget(process);
        forget(answers);
    }
}

/// Serves so many sessions within these limits, counted by these ledgers, writes their trace to a sink, and the line of their report.
fn serve_with<
    Rt: Threads + Wait + Clock + Copy + Drop + Send + Sync + 'static,
    S: Source + Send + 'static,
    K: Sink + Send + Drop + 'static,
    W: Write,
    L: Run + Send + Sync + 'static,
    T: Starter + Send + Drop + 'static,
>(
    rt: Rt,
    alloc: Global,
    starter: &mut T,
    source: &mut S,
    sessions: usize,
    limits: Limits,
    run: NewRun,
    sink: K,
    writer: &mut LoggedWriter<W>,
) -> Served<K>
    requires failures { S.failures source.old + 1 < 2 ^ 64 }
    requires accepted { S.accepted source.old + sessions < 2 ^ 64 }
    requires named { run ≡ record { names = L.names; book = L.book } }
    requires limits { L.limits ≡ Some limits }
    requires sound { K.is_sound sink ≡ true }
    requires few { K.failures sink + 1 < 2 ^ 64 }
    ensures reports { Reports (record { limits = limits; sessions = sessions; coming = S.coming source.old; later = S.coming source.new; sink = record { contents = K.contents sink; failures = K.failures sink; is_synced = K.is_synced sink } }) writer.old writer.new (option_map (λ s. record { contents = K.contents s; failures = K.failures s; is_synced = K.is_synced s }) result.sink) result.end }
    ensures failed { result.end ≡ ended.CannotListen → S.failures source.new ≡ S.failures source.old + 1 }
    ensures unstarted { result.end ≡ ended.NoThread → one_more (T.failures starter.old) ≤ T.failures starter.new }
{
    let ran = run_sessions::<Rt, S, OpenGate, L, K, T>(
        rt, alloc, starter, source, sessions, limits, run, OpenGate, sink,
    );
    let report = match ran {
        Ok(report) => report,
        Err(unreported) => {
            return Served {
                end: end_without_report(unreported.fault),
                sink: None,
            };
        }
    };
    let end = write_report(alloc, &report, sessions, writer);
    let Report {
        traced,
        ends,
        sink,
        ..
    } = report;
    forget(traced);
    let_go(ends);
    Served {
        end,
        sink: Some(sink),
    }
}

/// Serves so many sessions within these limits, writes their trace to a sink, and the line of their report. A run with a report gives
/// the sink back, which has the trace that the line tells of. It ends for want of a thread only where the starter could not start one more.
pub fn serve_on<
    Rt: Threads + Wait + Clock + Copy + Drop + Send + Sync + 'static,
    S: Source + Send + 'static,
    K: Sink + Send + Drop + 'static,
    W: Write,
    T: Starter + Send + Drop + 'static,
>(
    rt: Rt,
    alloc: Global,
    starter: &mut T,
    source: &mut S,
    sessions: usize,
    limits: Limits,
    sink: K,
    writer: &mut LoggedWriter<W>,
) -> Served<K>
    requires failures { S.failures source.old + 1 < 2 ^ 64 }
    requires accepted { S.accepted source.old + sessions < 2 ^ 64 }
    requires sound { K.is_sound sink ≡ true }
    requires few { K.failures sink + 1 < 2 ^ 64 }
    ensures reports { Reports (record { limits = limits; sessions = sessions; coming = S.coming source.old; later = S.coming source.new; sink = record { contents = K.contents sink; failures = K.failures sink; is_synced = K.is_synced sink } }) writer.old writer.new (option_map (λ s. record { contents = K.contents s; failures = K.failures s; is_synced = K.is_synced s }) result.sink) result.end }
    ensures failed { result.end ≡ ended.CannotListen → S.failures source.new ≡ S.failures source.old + 1 }
    ensures unstarted { result.end ≡ ended.NoThread → one_more (T.failures starter.old) ≤ T.failures starter.new }
{
    serve_with::<Rt, S, K, W, Brand, T>(
        rt,
        alloc,
        starter,
        source,
        sessions,
        limits,
        NewRun::new(),
        sink,
        writer,
    )
}
