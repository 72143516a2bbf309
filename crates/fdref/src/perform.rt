//! A job, done.

ghost use Rattle.std.specs.Prelude.{◌≡◌, ◌+◌, ◌<◌, ◌^◌, true, IfSome, IfNone};
ghost use Rattle.job_core.specs.Audit.{AuditEnds};
ghost use Rattle.run_core.specs.Run.{IsBlank};
ghost use Rattle.fdref.specs.Perform.{Has, ListenEnds, MovesTo, Performs, ServeEnds};
ghost use Rattle.job_core.specs.Show.{ShowEnds};

use crate::serve::{Served, serve_on};
use call_types::limits::Limits;
use command_line::demand::Demand;
use command_line::form::Form;
use command_line::job::Job;
use job_core::audit_file::audit_file;
use job_core::job_end::JobEnd;
use job_core::migrate_file::migrate_file;
use job_core::outcomes::outcomes;
use job_core::replay::replay;
use job_core::show::show;
use logged_streams::reader::LoggedReader;
use logged_streams::writer::LoggedWriter;
use run_core::source::Source;
use session_core::starter::SystemThreads;
use std::alloc::Global;
use std::io::{Read, Write};
use std::sync::Wait;
use std::thread::Threads;
use std::time::Clock;
use trace_writer::sink::Sink;

/// What makes sources of connections.
pub trait Listens {
    ghost use Rattle.std.specs.Prelude.{ℕ, List, Option};
    ghost use Rattle.run_core.specs.Run.{Streams};

    type Source: Source + Send + Drop + 'static;

    /// What the connections to a path are to hold, in order, where that is known.
    ghost coming_at: { Self → List ℕ → Option (List Streams) };

    /// There is nothing to listen on at a path.
    ghost is_unheard: { Self → List ℕ → Type 0 };

    /// A source of the connections to a path, at which nothing was before.
    fn listen(&self, path: &str) -> Option<Self::Source>
        ensures coming { IfSome result (λ source. Self.Source.Source.coming source ≡ coming_at self.now path.now) }
        ensures none { IfNone result (is_unheard self.now path.now) }
        ensures failures { IfSome result (λ source. Self.Source.Source.failures source ≡ 0) }
        ensures accepted { IfSome result (λ source. Self.Source.Source.accepted source ≡ 0) };

    /// Notes why a source of connections to a path gave no further one, if it did not.
    fn note(&self, path: &str, source: &Self::Source);
}

/// What opens files, and makes them.
pub trait Opens {
    ghost use Rattle.std.specs.Prelude.{ℕ, List, Option};

    type File: Read + Drop;

    type Sink: Sink + Send + Drop + 'static;

    type New: Write + Drop;

    /// What the file at a path has, where that is known.
    ghost bytes_at: { Self → List ℕ → Option (List ℕ) };

    /// No file can be made at a path.
    ghost is_unmade: { Self → List ℕ → Type 0 };

    /// No new file can be made at a path; for one, something is there.
    ghost is_taken: { Self → List ℕ → Type 0 };

    /// The file at a path, to be read from its first byte on.
    fn open(&self, path: &str) -> Option<Self::File>
        ensures { IfSome result (λ file. Has (bytes_at self.now path.now) (Self.File.Read.remaining file)) };

    /// An empty file at a path, to be written, in place of one that is there.
    fn create(&self, path: &str) -> Option<Self::Sink>
        ensures blank { IfSome result (λ sink. IsBlank (Self.Sink.Sink.contents sink)) }
        ensures none { IfNone result (is_unmade self.now path.now) }
        ensures sound { IfSome result (λ sink. Self.Sink.Sink.is_sound sink ≡ true) }
        ensures failures { IfSome result (λ sink. Self.Sink.Sink.failures sink ≡ 0) };

    /// An empty file at a path at which nothing was, to be written.
    fn create_new(&self, path: &str) -> Option<Self::New>
        ensures blank { IfSome result (λ file. IsBlank (Self.New.Write.contents file)) }
        ensures none { IfNone result (is_taken self.now path.now) };

    /// Notes why the file at a path did not take all that was written to it, or may not keep it, if it did not.
    fn note_loss(&self, path: &str, sink: &Self::Sink);
}

/// Audits the trace at a path.
fn audit_at<F: Opens, W: Write>(
    alloc: Global,
    files: &F,
    path: &str,
    writer: &mut LoggedWriter<W>,
    demand: Demand,
) -> JobEnd
    ensures { AuditEnds demand (F.bytes_at files.now path.now) writer.old writer.new result }
{
    match files.open(path) {
        Some(file) => {
            let mut reader = LoggedReader::new(file);
            audit_file(alloc, &mut reader, writer, demand)
        }
        None => JobEnd::CannotRead,
    }
}

/// Shows the trace at a path.
fn show_at<F: Opens, W: Write>(
    alloc: Global,
    files: &F,
    path: &str,
    writer: &mut LoggedWriter<W>,
    form: Form,
) -> JobEnd
    ensures { ShowEnds form (F.bytes_at files.now path.now) writer.old writer.new result }
{
    match files.open(path) {
        Some(file) => {
            let mut reader = LoggedReader::new(file);
            show(alloc, &mut reader, writer, form)
        }
        None => JobEnd::CannotRead,
    }
}

/// Writes the trace at a path as one of version 2 to a file that is made at another.
fn migrate_at<F: Opens, W: Write>(
    alloc: Global,
    files: &F,
    from: &str,
    to: &str,
    writer: &mut LoggedWriter<W>,
) -> JobEnd
    ensures { MovesTo (F.bytes_at files.now from.now) (F.is_taken files.now to.now) writer.old writer.new result }
{
    let mut reader = match files.open(from) {
        Some(file) => LoggedReader::new(file),
        None => return JobEnd::CannotRead,
    };
    let mut made = match files.create_new(to) {
        Some(made) => LoggedWriter::new(made),
        None => return JobEnd::CannotWrite,
    };
    migrate_file(alloc, &mut reader, &mut made, writer)
}

/// Serves the connections to a path, and writes their trace to a sink.
fn serve_at<
    Rt: Threads + Wait + Clock + Copy + Drop + Send + Sync + 'static,
    L: Listens,
    K: Sink + Send + Drop + 'static,
    W: Write,
>(
    rt: Rt,
    alloc: Global,
    listens: &L,
    path: &str,
    sessions: u8,
    limits: Limits,
    sink: K,
    writer: &mut LoggedWriter<W>,
) -> Served<K>
    requires blank { IsBlank (K.contents sink) }
    requires sound { K.is_sound sink ≡ true }
    requires few { K.failures sink + 1 < 2 ^ 64 }
    ensures { ListenEnds (L.coming_at listens.now path.now) (L.is_unheard listens.now path.now) limits sessions writer.old writer.new result.end }
{
    match listens.listen(path) {
        Some(source) => {
            let mut source = source;
            let served = serve_on(
                rt,
                alloc,
                &mut SystemThreads::new(),
                &mut source,
                usize::from(sessions),
                limits,
                sink,
                writer,
            );
            listens.note(path, &source);
            served
        }
        None => Served {
            end: JobEnd::CannotListen,
            sink: None,
        },
    }
}

/// Notes why the file of a trace did not take it, where a run ended for that.
fn note_fault<F: Opens>(files: &F, path: &str, served: &Served<F::Sink>) {
    if let (JobEnd::TraceFault, Some(sink)) = (served.end, &served.sink) {
        files.note_loss(path, sink);
    }
}

/// Makes the file of the trace, serves the connections to a path, and writes their trace to the file.
fn serve_to<
    Rt: Threads + Wait + Clock + Copy + Drop + Send + Sync + 'static,
    L: Listens,
    F: Opens,
    W: Write,
>(
    rt: Rt,
    alloc: Global,
    listens: &L,
    files: &F,
    path: &str,
    sessions: u8,
    limits: Limits,
    trace: &str,
    writer: &mut LoggedWriter<W>,
) -> JobEnd
    ensures { ServeEnds (L.coming_at listens.now path.now) (L.is_unheard listens.now path.now) (F.is_unmade files.now trace.now) limits sessions writer.old writer.new result }
{
    match files.create(trace) {
        Some(sink) => {
            let served = serve_at(rt, alloc, listens, path, sessions, limits, sink, writer);
            note_fault(files, trace, &served);
            served.end
        }
        None => JobEnd::CannotWrite,
    }
}

/// Does a job: reads its input, a file or its connections, writes its output, and says how it ended. It leaks what `replay` leaks:
/// call it once in a process.
pub fn perform<
    Rt: Threads + Wait + Clock + Copy + Drop + Send + Sync + 'static,
    L: Listens,
    F: Opens,
    R: Read + Drop,
    W: Write,
>(
    rt: Rt,
    alloc: Global,
    listens: &L,
    files: &F,
    reader: R,
    writer: &mut LoggedWriter<W>,
    job: Job,
) -> JobEnd
    ensures { Performs (record { bytes_at = F.bytes_at files.now; is_unmade = F.is_unmade files.now; is_taken = F.is_taken files.now; coming_at = L.coming_at listens.now; is_unheard = L.is_unheard listens.now }) job (R.remaining reader) writer.old writer.new result }
{
    match job {
        Job::Replay { limits, spelling } => {
            let mut reader = LoggedReader::new(reader);
            replay(alloc, &mut reader, writer, limits, spelling)
        }
        Job::Serve {
            socket,
            sessions,
            limits,
            trace,
        } => serve_to(
            rt,
            alloc,
            listens,
            files,
            socket.as_str(),
            sessions,
            limits,
            trace.as_str(),
            writer,
        ),
        Job::Outcomes {
            limits,
            most,
            telling,
        } => {
            let mut reader = LoggedReader::new(reader);
            outcomes(alloc, &mut reader, writer, limits, most, telling)
        }
        Job::Audit { file, demand } => { audit_at(alloc, files, file.as_str(), writer, demand) }
        Job::Show { file, form } => show_at(alloc, files, file.as_str(), writer, form),
        Job::Migrate { from, to } => {
            migrate_at(alloc, files, from.as_str(), to.as_str(), writer)
        }
    }
}
