//! What becomes of a call that waits when the connection of its process is lost.

ghost use Rattle.std.specs.Prelude.{◌≡◌, Some};
ghost use Rattle.system_lock.specs.Kernel.{AsksForASeat};

use call_types::act::Act;
use call_types::bounded::Payload;
use call_types::call::Call;
use call_types::limits::Limits;
use call_types::outcome::{Outcome, Reply};
use call_types::request::Request;
use record_book::opening::Opened;
use record_book::seat::Receipt;
use std::alloc::Global;
use std::marker::Brand;
use std::process::Abort;
use std::sync::{Arc, Wait};
use std::test::Fail;
use std::thread;
use std::thread::{Builder, Threads};
use system_lock::kernel::{Finished, FinishedIn, Kernel, OpenedIn, Why};
use system_lock::lock::SystemLock;
use system_lock::run::{NewRun, Run};
use system_lock::run_seat::RunSeat;
use system_lock::system::System;

/// How often a thread sleeps and is woken.
const REPEATED: u32 = 100;

/// The kernel of a run of few records.
fn kernel_of<L: Run>(alloc: Global, limits: Limits, run: NewRun) -> Result<SystemLock<L>, Fail>
    requires named { run ≡ record { names = L.names; book = L.book } }
    requires limits { L.limits ≡ Some limits }
{
    let (kernel, _trace) = SystemLock::new(alloc, limits, run)?;
    Ok(kernel)
}

/// The seat of a process that was opened.
fn seated<L: Run>(opened: OpenedIn<L>) -> Option<RunSeat<L>> {
    match opened {
        Opened::Seated(seat) => Some(seat),
        Opened::Refused(_) => None,
    }
}

/// The seat that an opening gives, which is a join or an attach.
fn opened<Rt: Wait, L: Run>(rt: &Rt, kernel: &SystemLock<L>, request: Request) -> Option<RunSeat<L>>
    requires { AsksForASeat request }
{
    match kernel.open(rt, &mut kernel.front(rt), kernel.admit(), request) {
        Ok(opened) => seated(opened),
        Err(_) => None,
    }
}

/// The seat of a new process.
fn joined<Rt: Wait, L: Run>(rt: &Rt, kernel: &SystemLock<L>) -> Result<RunSeat<L>, Fail> {
    match opened(rt, kernel, Request::Join) {
        Some(seat) => Ok(seat),
        None => Err("there is room for a process")?,
    }
}

/// The seat of process 1, which is not attached yet.
fn attached<Rt: Wait, L: Run>(rt: &Rt, kernel: &SystemLock<L>) -> Result<RunSeat<L>, Fail> {
    match opened(rt, kernel, Request::Attach { process: 1 }) {
        Some(seat) => Ok(seat),
        None => Err("there is room for a process")?,
    }
}

/// Whether a call is recorded as one that waits.
fn waits<Rt: Wait, L: Run>(
    rt: &Rt,
    kernel: &SystemLock<L>,
    seat: &mut RunSeat<L>,
    call: Call,
) -> bool {
    match kernel.call(rt, &mut kernel.front(rt), seat, call) {
        Ok(receipt) => match receipt.record().outcome {
            Outcome::Parked { .. } => true,
            _ => false,
        },
        Err(_) => false,
    }
}

/// Whether a call is recorded.
fn is_recorded<Rt: Wait, L: Run>(
    rt: &Rt,
    kernel: &SystemLock<L>,
    seat: &mut RunSeat<L>,
    call: Call,
) -> bool {
    kernel.call(rt, &mut kernel.front(rt), seat, call).is_ok()
}

/// Has a process wait for the bytes of a pipe of its own, which its child could write.
fn read_of_a_pipe<Rt: Wait, L: Run>(
    rt: &Rt,
    kernel: &SystemLock<L>,
    seat: &mut RunSeat<L>,
) -> Result<(), Fail> {
    if !is_recorded(rt, kernel, seat, Call::Pipe) || !is_recorded(rt, kernel, seat, Call::Fork) {
        return Err("there is room for a pipe and a child")?;
    }
    if !waits(rt, kernel, seat, Call::Read { fd: 0, count: 1 }) {
        return Err("the pipe is empty")?;
    }
    Ok(())
}

/// The seat of a new process that waits for the bytes of a pipe of its own.
fn waiting<Rt: Wait, L: Run>(rt: &Rt, kernel: &SystemLock<L>) -> Result<RunSeat<L>, Fail> {
    let mut seat = joined(rt, kernel)?;
    read_of_a_pipe(rt, kernel, &mut seat)?;
    Ok(seat)
}

/// Whether the last of these receipts is that of an exit.
fn ends_in_exit(receipts: &[Receipt]) -> bool {
    match receipts.last() {
        Some(last) => match last.record().act {
            Act::Exit => true,
            _ => false,
        },
        None => false,
    }
}

/// Whether a process was given up: of its join, its three calls and its exit there are receipts, and no more.
fn is_given_up<L: Run>(finished: FinishedIn<L>) -> bool {
    match finished {
        Finished::Ended(ended) => {
            ended.why == Why::Lost
                && ended.seat.receipts().len() == 5
                && ends_in_exit(ended.seat.receipts())
        }
        Finished::Resumed { .. } => false,
    }
}

/// Whether a call is given up whose process is lost twice before it would sleep.
fn is_given_up_awake<Rt: Wait, L: Run>(rt: &Rt, kernel: &SystemLock<L>) -> Result<bool, Fail> {
    let seat = waiting(rt, kernel)?;
    kernel.mark_lost(rt, seat.pid());
    kernel.mark_lost(rt, seat.pid());
    Ok(is_given_up(kernel.finish(rt, &mut kernel.front(rt), seat)))
}

/// Whether nobody sleeps.
fn none_sleeps<L: Run>(system: &System<L>) -> bool {
    system.asleep().is_empty()
}

/// Whether nobody is lost.
fn none_is_lost<L: Run>(system: &System<L>) -> bool {
    system.lost().is_empty()
}

/// Whether nobody sleeps and nobody is lost.
fn is_at_rest<L: Run>(system: &System<L>) -> bool {
    none_sleeps(system) && none_is_lost(system)
}

/// Whether nobody sleeps and nobody is lost when the kernel is closed.
fn ends_at_rest<L: Run>(kernel: SystemLock<L>) -> bool {
    let system = kernel.take();
    is_at_rest(&system)
}

/// Whether a call is given up whose process is lost before it would sleep, and a second word of that changes nothing.
fn gives_up_at_once<Rt: Wait, L: Run>(
    rt: &Rt,
    alloc: Global,
    limits: Limits,
    run: NewRun,
) -> Result<bool, Fail>
    requires named { run ≡ record { names = L.names; book = L.book } }
    requires limits { L.limits ≡ Some limits }
{
    let kernel = kernel_of::<L>(alloc, limits, run)?;
    let is_given_up = is_given_up_awake(rt, &kernel);
    let is_at_rest = ends_at_rest(kernel);
    Ok(is_given_up? && is_at_rest)
}

#[test]
fn call_of_a_lost_process_is_given_up(rt: HostRuntime) -> Result<(), Fail> {
    let limits = Limits::new(100, 1024)?;
    assert!(rt; gives_up_at_once::<HostRuntime, Brand>(&rt, rt.alloc(), limits, NewRun::new())?);
    Ok(())
}

/// Has a child write a byte into the pipe that its parent waits for, after the parent is lost.
fn child_writes<Rt: Wait, L: Run>(
    rt: &Rt,
    alloc: Global,
    kernel: &SystemLock<L>,
    parent: u32,
) -> Result<(), Fail> {
    let bytes = Payload::copied(alloc, b"x")?;
    let mut child = attached(rt, kernel)?;
    kernel.mark_lost(rt, parent);
    if is_recorded(rt, kernel, &mut child, Call::Write { fd: 1, bytes }) {
        Ok(())
    } else {
        Err("the pipe has room")?
    }
}

/// The seat of a process whose call went on and gave data.
fn resumed<L: Run>(finished: FinishedIn<L>) -> Option<RunSeat<L>> {
    match finished {
        Finished::Resumed { seat, receipt } => match receipt.record().outcome {
            Outcome::Reply(Reply::Data(_)) => Some(seat),
            _ => None,
        },
        Finished::Ended(_) => None,
    }
}

/// Whether a process has ended as one that is lost.
fn is_lost<L: Run>(finished: FinishedIn<L>) -> bool {
    match finished {
        Finished::Ended(ended) => ended.why == Why::Lost && ends_in_exit(ended.seat.receipts()),
        Finished::Resumed { .. } => false,
    }
}

/// Whether the next call of a lost process waits and is given up.
fn gives_up_the_next<Rt: Wait, L: Run>(rt: &Rt, kernel: &SystemLock<L>, seat: RunSeat<L>) -> bool {
    let mut seat = seat;
    waits(rt, kernel, &mut seat, Call::Read { fd: 0, count: 1 })
        && is_lost(kernel.finish(rt, &mut kernel.front(rt), seat))
}

/// Whether the call of a lost process goes on once a byte is there, and its next one is given up.
fn goes_on_once<Rt: Wait, L: Run>(
    rt: &Rt,
    alloc: Global,
    kernel: &SystemLock<L>,
) -> Result<bool, Fail> {
    let seat = waiting(rt, kernel)?;
    child_writes(rt, alloc, kernel, seat.pid())?;
    match resumed(kernel.finish(rt, &mut kernel.front(rt), seat)) {
        Some(seat) => Ok(gives_up_the_next(rt, kernel, seat)),
        None => Ok(false),
    }
}

/// Whether a call that is ready goes on although its process is lost, and the next one that waits is given up.
fn goes_on_first<Rt: Wait, L: Run>(
    rt: &Rt,
    alloc: Global,
    limits: Limits,
    run: NewRun,
) -> Result<bool, Fail>
    requires named { run ≡ record { names = L.names; book = L.book } }
    requires limits { L.limits ≡ Some limits }
{
    let kernel = kernel_of::<L>(alloc, limits, run)?;
    goes_on_once(rt, alloc, &kernel)
}

#[test]
fn call_that_is_ready_goes_on_first(rt: HostRuntime) -> Result<(), Fail> {
    let limits = Limits::new(100, 1024)?;
    assert!(rt; goes_on_first::<HostRuntime, Brand>(&rt, rt.alloc(), limits, NewRun::new())?);
    Ok(())
}

/// Lets other threads run, so that one that was started sleeps more often than not.
fn stand_aside() {
    for _ in 0..100 {
        thread::yield_now();
    }
}

/// Whether a thread that sleeps in a call is woken when its process is lost, and gives the call up.
fn wakes_a_sleeper<
    Rt: Threads + Wait + Copy + Send + Drop + 'static,
    L: Run + Send + Sync + 'static,
>(rt: Rt, alloc: Global, limits: Limits, run: NewRun) -> Result<bool, Fail>
    requires named { run ≡ record { names = L.names; book = L.book } }
    requires limits { L.limits ≡ Some limits }
{
    let kernel = Arc::new(alloc, kernel_of::<L>(alloc, limits, run)?)?;
    let its_kernel = Arc::try_clone(&kernel)?;
    let seat = waiting(&rt, &kernel)?;
    let process = seat.pid();
    let finishing = move || is_given_up(its_kernel.finish(&rt, &mut its_kernel.front(&rt), seat));
    match Builder::new().spawn(&rt, finishing) {
        Ok(sleeper) => {
            stand_aside();
            kernel.mark_lost(&rt, process);
            Ok(sleeper.join(&rt))
        }
        Err(_) => Err("a thread can be started")?,
    }
}

#[test]
fn sleeper_is_woken_when_its_process_is_lost(rt: HostRuntime) -> Result<(), Fail> {
    for _ in 0..REPEATED {
        let limits = Limits::new(100, 1024)?;
        assert!(rt; wakes_a_sleeper::<HostRuntime, Brand>(rt, rt.alloc(), limits, NewRun::new())?);
    }
    Ok(())
}
