//! What becomes of a session whose thread cannot be started.

ghost use Rattle.std.specs.Prelude.{◌≡◌, Some};

use call_types::limits::Limits;
use session_core::end::End;
use session_core::gate::OpenGate;
use session_core::memory::{Manner, MemoryReader, MemoryWriter};
use session_core::serve::{Served, serve};
use session_core::starter::{Refused, Starter, SystemThreads};
use std::alloc::{AllocError, Global};
use std::marker::Brand;
use std::sync::{Arc, Wait};
use std::test::Fail;
use std::thread::Threads;
use system_lock::lock::SystemLock;
use system_lock::run::{NewRun, Run};

/// A starter that starts nothing.
#[derive(Drop)]
struct NoThreads {
    failures: u64,
}

impl Starter for NoThreads {
    ghost failures = { λ s. s.failures };

    fn asks(&mut self) -> bool {
        self.failures = self.failures.saturating_add(1);
        false
    }

    fn count(&mut self, _refused: Refused) {
        self.failures = self.failures.saturating_add(1);
    }

    fn another(&self) -> Self {
        NoThreads { failures: 0 }
    }

    fn absorb(&mut self, other: Self) {
        self.failures = self.failures.saturating_add(other.failures);
    }
}

/// Why a session ended, whether it has a seat, whether its reader was handed back, and how much was answered and written.
type CameTo = (End, bool, bool, usize, usize);

/// The same of a session that is over.
fn came_to<L: Run>(served: Served<MemoryReader, MemoryWriter, L>) -> CameTo {
    (
        served.end,
        served.seat.is_ok(),
        served.reader.is_some(),
        served.answers.len(),
        served.writer.get_ref().bytes().len(),
    )
}

/// What a session comes to whose client sends a join and no more, by threads of this starter.
fn served_by<
    Rt: Threads + Wait + Copy + Drop + Send + Sync + 'static,
    T: Starter,
    L: Run + Send + Sync + 'static,
>(rt: Rt, alloc: Global, starter: &mut T, limits: Limits, run: NewRun) -> Result<CameTo, AllocError>
    requires named { run ≡ record { names = L.names; book = L.book } }
    requires limits { L.limits ≡ Some limits }
{
    let manner = Manner {
        most: 65_536,
        fails_at: None,
        interruptions: 0,
        flush_fails_at: None,
    };
    let join = vec![in alloc; 0u8, 0, 0, 1, 1]?;
    let reader = MemoryReader::new(join, manner);
    let writer = MemoryWriter::new(alloc, manner);
    let (kernel, _trace) = SystemLock::<L>::new(alloc, limits, run)?;
    let kernel = Arc::new(alloc, kernel)?;
    let admission = kernel.admit();
    let front = kernel.front(&rt);
    let (served, _known) = serve(
        rt, alloc, starter, reader, writer, kernel, front, admission, 0, OpenGate,
    );
    Ok(came_to(served))
}

#[test]
fn session_without_a_thread_does_nothing(rt: HostRuntime) -> Result<(), Fail> {
    let limits = Limits::new(100, 1024)?;
    let mut starter = NoThreads { failures: 0 };
    let came = served_by::<HostRuntime, NoThreads, Brand>(
        rt,
        rt.alloc(),
        &mut starter,
        limits,
        NewRun::new(),
    )?;
    assert!(rt; came == (End::NoThread, false, false, 0, 0));
    assert!(rt; starter.failures == 1);
    Ok(())
}

#[test]
fn session_with_a_thread_counts_no_failure(rt: HostRuntime) -> Result<(), Fail> {
    let limits = Limits::new(100, 1024)?;
    let mut starter = SystemThreads::new();
    let came = served_by::<HostRuntime, SystemThreads, Brand>(
        rt,
        rt.alloc(),
        &mut starter,
        limits,
        NewRun::new(),
    )?;
    assert!(rt; came == (End::Closed, true, true, 1, 22));
    Ok(())
}
