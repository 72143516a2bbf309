//! A run of two sessions over memory.

ghost use Rattle.std.specs.Prelude.{◌≡◌, Some};

use crate::others_first::OthersFirst;
use crate::trial_fault::TrialFault;
use crate::waiting::{SESSIONS, Waiting};
use call_types::limits::Limits;
use run_core::report::Report;
use run_core::sessions::run_sessions;
use session_core::memory::{MemoryReader, MemoryWriter};
use session_core::starter::SystemThreads;
use std::alloc::Global;
use std::sync::Wait;
use std::thread::Threads;
use std::time::Clock;
use system_lock::run::{NewRun, Run};
use trace_writer::memory::{Manner, MemorySink};

/// The report of the run, counted by these ledgers.
pub(crate) fn ran<
    Rt: Threads + Wait + Clock + Copy + Drop + Send + Sync + 'static,
    L: Run + Send + Sync + 'static,
>(
    rt: Rt,
    alloc: Global,
    limits: Limits,
    run: NewRun,
) -> Result<Report<MemoryReader, MemoryWriter, MemorySink>, TrialFault>
    requires named { run ≡ record { names = L.names; book = L.book } }
    requires limits { L.limits ≡ Some limits }
{
    let mut source = Waiting::new(alloc)?;
    let ran = run_sessions::<Rt, Waiting, OthersFirst<Rt>, L, MemorySink, SystemThreads>(
        rt,
        alloc,
        &mut SystemThreads::new(),
        &mut source,
        SESSIONS,
        limits,
        run,
        OthersFirst::new(rt),
        MemorySink::new(alloc, Manner::sound()),
    );
    match ran {
        Ok(report) => Ok(report),
        Err(unreported) => Err(TrialFault::from(unreported.fault)),
    }
}
