//! What comes of requests that stand in a ring, answered in the thread that put them there.

ghost use Rattle.std.specs.Prelude.{◌≡◌, [], IfOk, Some};
ghost use Rattle.rtrb.specs.Ring.{received};

use byte_ledger::ledgers::Blanks;
use call_types::call::Call;
use call_types::limits::Limits;
use call_types::request::Request;
use record_book::book::Book;
use rtrb::{Consumer, Producer, RingBuffer};
use run_history::front::{Begun, Front};
use session_core::answer::{Answered, AnsweredSeat, answer};
use session_core::end::End;
use session_core::gate::OpenGate;
use session_core::memory::{Manner, MemoryWriter};
use session_core::note::Note;
use std::alloc::{AllocError, Global};
use std::marker::Brand;
use std::sync::Wait;
use std::test::Fail;
use system_lock::kernel::{AdmissionTo, KernelOf};
use system_lock::lock::SystemLock;
use system_lock::one_book::{OneBook, Unlimited};
use system_lock::run::{NewRun, Run};

/// How many requests the ring has room for.
const ROOM: usize = 16;

/// What is held in the end.
#[derive(Clone, Copy, Debug, PartialEq, Eq)]
enum Held {
    Admission,
    Live,
    Spent,
}

/// What is held in the end, how many answers there are, and why it ended.
type CameOf = (Held, usize, Option<End>);

/// The same of what was answered.
fn came_of<L: Run>(answered: Answered<MemoryWriter, L>) -> CameOf {
    let held = match answered.seat {
        AnsweredSeat::None(_) => Held::Admission,
        AnsweredSeat::Live(_) => Held::Live,
        AnsweredSeat::Spent(_) => Held::Spent,
    };
    (held, answered.answers.len(), answered.end)
}

/// Puts these requests into a ring, and tells whether there was room for all.
fn put_all(producer: &mut Producer<Request>, requests: Vec<Request>) -> bool {
    for request in requests {
        if producer.push(request).is_err() {
            return false;
        }
    }
    true
}

/// Both ends of a ring that holds these requests.
fn ring_of(
    alloc: Global,
    requests: Vec<Request>,
) -> Result<(Producer<Request>, Consumer<Request>), Fail>
    ensures { IfOk result (λ ends. received ends.1 ≡ []) }
{
    let (mut producer, consumer) = RingBuffer::new(alloc, ROOM)?;
    if put_all(&mut producer, requests) {
        Ok((producer, consumer))
    } else {
        Err("there is room for the requests")?
    }
}

/// What comes of the requests that a ring holds, where no more is read.
fn answered<Rt: Wait, L: Run, K: KernelOf<L>>(
    rt: &Rt,
    alloc: Global,
    kernel: &K,
    front: Front<L>,
    admission: AdmissionTo<L>,
    ring: Consumer<Request>,
) -> CameOf
    requires { received ring ≡ [] }
{
    let note = Note::new();
    note.end_reading(rt);
    let manner = Manner {
        most: 65_536,
        fails_at: None,
        interruptions: 0,
        flush_fails_at: None,
    };
    let writer = MemoryWriter::new(alloc, manner);
    let (answered, _front) = answer(
        rt, alloc, ring, &note, writer, kernel, front, admission, 0, OpenGate,
    );
    came_of(answered)
}

/// A join and so many forks.
fn join_and_forks(alloc: Global, forks: u32) -> Result<Vec<Request>, AllocError> {
    let mut requests = Vec::new(alloc);
    requests.push(Request::Join)?;
    for _ in 0..forks {
        requests.push(Request::Call(Call::Fork))?;
    }
    Ok(requests)
}

/// A run without records, under a lock.
fn lock_of<L: Run>(alloc: Global, limits: Limits, run: NewRun) -> Result<SystemLock<L>, AllocError>
    requires named { run ≡ record { names = L.names; book = L.book } }
    requires limits { L.limits ≡ Some limits }
{
    let (kernel, _trace) = SystemLock::new(alloc, limits, run)?;
    Ok(kernel)
}

/// What comes of a join and so many forks, under a lock.
fn forks_answered<Rt: Wait, L: Run>(
    rt: &Rt,
    alloc: Global,
    limits: Limits,
    run: NewRun,
    forks: u32,
) -> Result<CameOf, Fail>
    requires named { run ≡ record { names = L.names; book = L.book } }
    requires limits { L.limits ≡ Some limits }
{
    let (_producer, ring) = ring_of(alloc, join_and_forks(alloc, forks)?)?;
    let kernel = lock_of::<L>(alloc, limits, run)?;
    let front = kernel.front(rt);
    Ok(answered(rt, alloc, &kernel, front, kernel.admit(), ring))
}

#[test]
fn all_that_a_ring_holds_is_answered(rt: HostRuntime) -> Result<(), Fail> {
    let limits = Limits::new(100, 1024)?;
    let came = forks_answered::<HostRuntime, Brand>(&rt, rt.alloc(), limits, NewRun::new(), 15)?;
    assert!(rt; came == (Held::Live, 16, None));
    Ok(())
}

/// What comes of these requests, in a book of one thread that gives up a call that would wait.
fn requests_answered<Rt: Wait, L: Run>(
    rt: &Rt,
    alloc: Global,
    limits: Limits,
    blanks: Blanks,
    begun: Begun,
    requests: Vec<Request>,
) -> Result<CameOf, Fail>
    requires ledgers { blanks ≡ L.names }
    requires history { begun.seen.book ≡ L.book }
    requires limits { L.limits ≡ Some limits }
{
    let (_producer, ring) = ring_of(alloc, requests)?;
    let book = Book::<Unlimited<L>>::new(alloc, limits, blanks)?;
    let kernel = OneBook::<L>::new(alloc, book, Vec::new(alloc));
    let (_history, front) = begun.named::<Unlimited<L>>();
    Ok(answered(rt, alloc, &kernel, front, kernel.admit(), ring))
}

/// The requests of a process that joins and waits for the bytes of a pipe which its child could write.
fn waiting_requests(alloc: Global) -> Result<Vec<Request>, AllocError> {
    let requests = vec![in alloc;
        Request::Join,
        Request::Call(Call::Pipe),
        Request::Call(Call::Fork),
        Request::Call(Call::Read { fd: 0, count: 1 }),
        Request::Call(Call::Fork),
    ]?;
    Ok(requests)
}

#[test]
fn call_that_is_given_up_is_the_last(rt: HostRuntime) -> Result<(), Fail> {
    let limits = Limits::new(100, 1024)?;
    let requests = waiting_requests(rt.alloc())?;
    let came = requests_answered::<HostRuntime, Brand>(
        &rt,
        rt.alloc(),
        limits,
        Blanks::new(),
        Begun::new(),
        requests,
    )?;
    assert!(rt; came == (Held::Spent, 4, None));
    Ok(())
}

#[test]
fn request_out_of_place_ends_it(rt: HostRuntime) -> Result<(), Fail> {
    let limits = Limits::new(100, 1024)?;
    let requests = vec![in rt.alloc(); Request::Join, Request::Join]?;
    let came = requests_answered::<HostRuntime, Brand>(
        &rt,
        rt.alloc(),
        limits,
        Blanks::new(),
        Begun::new(),
        requests,
    )?;
    assert!(rt; came == (Held::Spent, 1, Some(End::Malformed)));
    Ok(())
}
