//! The program `fdref`.
#![tactic(auto)]

mod causes;
mod files;
mod listener;
mod perform;
mod serve;
mod trace_file;

ghost use Rattle.std.specs.Prelude.{◌≡◌};
ghost use Rattle.std.specs.Process.{exit_status};
ghost use Rattle.command_line.specs.CommandLine.{status_of};
ghost use Rattle.job_core.specs.JobEnds.{ended_status};

use causes::Causes;
use command_line::job::{Job, JobFault, job_of, not_text};
use files::SystemFiles;
use job_core::job_end::JobEnd;
use listener::Sockets;
use logged_streams::writer::LoggedWriter;
use perform::perform;
use std::io;
use std::process::ExitCode;

/// Prints the text of a fault: help and the version as output, anything else as an error.
fn tell(rt: &HostRuntime, fault: &JobFault) -> io::Result<()> {
    match fault {
        JobFault::Shown(_) => print!(rt; "{fault}"),
        JobFault::Usage(_) | JobFault::NoMemory => eprint!(rt; "{fault}"),
    }
}

/// The words of the command line.
fn words_of(rt: &HostRuntime) -> Result<Vec<String>, JobFault> {
    match std::env::args(rt) {
        Ok(words) => Ok(words.collect(rt.alloc())?),
        Err(error) if error.kind() == io::ErrorKind::InvalidData => Err(not_text(rt.alloc())),
        Err(_) => Err(JobFault::NoMemory),
    }
}

/// The job that the program is asked to do.
fn asked(rt: &HostRuntime) -> Result<Job, JobFault> {
    let words = words_of(rt)?;
    job_of(rt.alloc(), words.as_slice())
}

/// The exit code of how a job ended.
fn code_of(ended: JobEnd) -> ExitCode
    ensures { exit_status result ≡ ended_status ended }
{
    ExitCode::from(ended.status())
}

/// The exit code where no job was asked for.
fn code_of_fault(fault: &JobFault) -> ExitCode
    ensures { exit_status result ≡ status_of fault.now }
{
    ExitCode::from(fault.status())
}

/// Says on standard error how a job ended, and which path could not be used for it, and ends the program.
fn end(rt: &HostRuntime, ended: JobEnd, causes: &Causes) -> ExitCode
    ensures { exit_status result ≡ ended_status ended }
{
    let _ = eprint!(rt; "{ended}{causes}");
    code_of(ended)
}

fn main(rt: HostRuntime) -> ExitCode {
    let causes = Causes::new(rt.alloc());
    let fault = match asked(&rt) {
        Ok(job) => {
            let ended = perform(
                rt,
                rt.alloc(),
                &Sockets {
                    rt: &rt,
                    causes: &causes,
                },
                &SystemFiles {
                    rt: &rt,
                    causes: &causes,
                },
                rt.reader(),
                &mut LoggedWriter::new(io::writer(&rt)),
                job,
            );
            return end(&rt, ended, &causes);
        }
        Err(fault) => fault,
    };
    match (tell(&rt, &fault), &fault) {
        (Err(_), JobFault::Shown(_)) => end(&rt, JobEnd::CannotWrite, &causes),
        _ => code_of_fault(&fault),
    }
}
