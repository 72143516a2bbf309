//! The two threads of a session. One reads, and answers too as long as no call waits; the other waits for such a call, or for the end.

ghost use Rattle.std.specs.Prelude.{◌≡◌, IfOk, OnErr, OnOk};
ghost use Rattle.logged_streams.specs.Streams.{one_more};
ghost use Rattle.rtrb.specs.Ring.{SameProducer};
ghost use Rattle.request_pump.specs.Pump.{Pumps};

use crate::connection::Connection;
use crate::desk::{Attended, Desk, Naming, tell_lost};
use crate::gate::Gate;
use crate::note::{KnownProcess, Note};
use crate::starter::{StartFailed, Starter, start};
use call_types::request::Request;
use logged_streams::reader::LoggedReader;
use request_pump::bell::{Bell, RingCount};
use request_pump::inlet::PushLog;
use request_pump::pump::pump;
use request_pump::pumped::{PumpEnd, Pumped};
use rtrb::Producer;
use std::alloc::Global;
use std::io::{Read, Write};
use std::marker::Model;
use std::snapshot::Snapshot;
use std::sync::{Arc, Mutex, Wait};
use std::thread;
use std::thread::{Promise, PromisedHandle, Threads};
use system_lock::kernel::KernelOf;
use system_lock::run::Run;
use system_lock::watch::Marked;

/// What shows that the end of the reads was told: to the kernel too, where the session has a process. Only `ReadingTold::by` makes one.
#[derive(Drop)]
pub(crate) struct ReadingTold {
    process: KnownProcess,
    mark: Option<Marked>,
}

impl ReadingTold {
    ghost use Rattle.session_core.specs.Proved.Losing.{IsToldOf};

    /// Shows it by the kernel's mark of the process, if there is one.
    fn by<L: Run, K: KernelOf<L>>(process: KnownProcess, mark: Option<Marked>) -> Self
        requires { IsToldOf K.marks process mark }
    {
        ReadingTold { process, mark }
    }
}

/// What the two threads of a session share. The desk is put there as the thread that reads starts. Whoever answers holds its lock; the
/// thread that waits in a call takes the desk away, and puts it back when the call has gone on.
#[derive(Drop)]
pub(crate) struct Shared<D: Naming, W: Write + Connection, G: Gate, L: Run, K: KernelOf<L>> {
    pub(crate) desk: Mutex<Option<Desk<D, W, G, L, K>>>,
    pub(crate) note: Note,
    pub(crate) kernel: Arc<K>,
}

impl<D: Naming, W: Write + Connection + Drop, G: Gate, L: Run, K: KernelOf<L>> Shared<
    D,
    W,
    G,
    L,
    K,
> {
    /// What they share before the first is read.
    pub(crate) fn new(kernel: Arc<K>) -> Self {
        Shared {
            desk: Mutex::new(None),
            note: Note::new(),
            kernel,
        }
    }

    /// Takes the desk away, if it is there.
    fn take_away<Rt: Wait>(&self, rt: &Rt) -> Option<Desk<D, W, G, L, K>> {
        self.desk.lock(rt).take()
    }

    /// Takes the desk. It waits until it is there.
    pub(crate) fn take_desk<Rt: Wait>(&self, rt: &Rt) -> Desk<D, W, G, L, K> {
        for _ in rt.forever() {
            match self.take_away(rt) {
                Some(desk) => return desk,
                None => thread::yield_now(),
            }
        }
        unreachable!()
    }

    /// Tells that no more is read: a call that the process waits in, now or later, is given up.
    fn end_reading<Rt: Wait>(&self, rt: &Rt) -> ReadingTold {
        self.note.end_reading(rt);
        let process = self.note.process(rt);
        let mark = tell_lost(rt, &*self.kernel, process.number());
        ReadingTold::by::<L, K>(process, mark)
    }

    /// Answers what the ring holds, and writes it. A desk that is away is with a call that waits.
    fn answer<Rt: Wait>(&self, rt: &Rt) -> Attended {
        let mut place = self.desk.lock(rt);
        match place.as_mut() {
            Some(desk) => desk.attend(rt, &self.note, &*self.kernel),
            None => Attended::Waits,
        }
    }

    /// Answers what the ring holds. The answers are written later.
    fn make_room<Rt: Wait>(&self, rt: &Rt) -> Attended {
        let mut place = self.desk.lock(rt);
        match place.as_mut() {
            Some(desk) => desk.make_room(rt, &self.note, &*self.kernel),
            None => Attended::Waits,
        }
    }

    /// Takes the desk away, waits until its call goes on, and puts it back.
    fn wait_out<Rt: Wait>(&self, rt: &Rt) {
        if let Some(mut desk) = self.take_away(rt) {
            desk.wait(rt, &*self.kernel);
            drop(self.desk.lock(rt).replace(desk));
        }
    }

    /// Waits for each call that waits, then answers the requests after it, until the session ends or no more is read.
    pub(crate) fn answer_waits<Rt: Wait>(&self, rt: &Rt) {
        for _ in rt.forever() {
            let has_ended = self.note.has_ended(rt);
            match self.answer(rt) {
                Attended::Waits => self.wait_out(rt),
                Attended::Ready if !has_ended => self.note.sleep(rt),
                Attended::Ready | Attended::Left => break,
            }
        }
        self.note.none_opened(rt);
    }

    /// Wakes the thread that waits, where that is wanted.
    fn wake(&self, attended: Attended) {
        match attended {
            Attended::Ready => {}
            Attended::Waits | Attended::Left => self.note.wake(),
        }
    }
}

/// What the thread that reads rings, and tells when it ends.
pub(crate) trait Attendant: Bell {
    /// No more is read. What it gives shows that this was told.
    fn end_reading(&self) -> ReadingTold;
}

/// It answers at the desk, and wakes the other thread where a call waits or the session is left.
#[derive(Drop)]
pub(crate) struct Helper<
    Rt: Wait + Drop,
    D: Naming,
    W: Write + Connection + Drop,
    G: Gate,
    L: Run,
    K: KernelOf<L> + Drop,
> {
    pub(crate) rt: Rt,
    pub(crate) shared: Arc<Shared<D, W, G, L, K>>,
    /// How often it was rung.
    pub(crate) rings: RingCount,
}

impl<
    Rt: Wait + Drop,
    D: Naming,
    W: Write + Connection + Drop,
    G: Gate,
    L: Run,
    K: KernelOf<L> + Drop,
> Bell for Helper<Rt, D, W, G, L, K> {
    ghost rings = { λ h. h.rings };

    fn make_room(&mut self) {
        self.shared.wake(self.shared.make_room(&self.rt));
        self.rings.add_room();
    }

    fn end_of_piece(&mut self) {
        self.shared.wake(self.shared.answer(&self.rt));
        self.rings.add_piece();
    }
}

impl<
    Rt: Wait + Drop,
    D: Naming,
    W: Write + Connection + Drop,
    G: Gate,
    L: Run,
    K: KernelOf<L> + Drop,
> Attendant for Helper<Rt, D, W, G, L, K> {
    fn end_reading(&self) -> ReadingTold {
        self.shared.end_reading(&self.rt)
    }
}

/// What the thread that reads has come to, and what shows that its end was told. Contracts see it as a `PumpState`.
#[derive(Drop)]
pub(crate) struct Pushed<R: Read> {
    pub(crate) end: PumpEnd,
    pub(crate) reader: LoggedReader<R>,
    pub(crate) producer: Producer<Request>,
    pub(crate) pushes: PushLog,
    pub(crate) told: ReadingTold,
}

impl<R: Read> Model for Pushed<R> {
    ghost use Rattle.request_pump.specs.Pump.{PumpState};

    ghost Value = { PumpState };

    ghost view = { λ s. record { reader = s.reader; producer = s.producer; pushes = s.pushes; end_is = s.end } };
}

/// What the thread that reads promises: that it pushes, in order, the requests that it reads from this reader into this ring.
#[derive(Drop)]
pub(crate) struct Pushing<R: Read> {
    reader: Snapshot<R>,
    producer: Snapshot<Producer<Request>>,
}

impl<R: Read> Promise<Pushed<R>> for Pushing<R> {
    ghost use Rattle.rtrb.specs.Ring.{SameProducer};
    ghost use Rattle.request_pump.specs.Pump.{Pumps};

    ghost kept_by = { λ p pushed. SameProducer p.producer.value pushed.producer × Pumps (R.remaining p.reader.value) p.producer.value pushed };
}

impl<R: Read> Pushing<R> {
    /// The promise for this reader and this ring.
    fn of(reader: &R, producer: &Producer<Request>) -> Self
        ensures reader { R.remaining result.reader.value ≡ R.remaining reader.now }
        ensures producer { result.producer.value ≡ producer.now }
    {
        Pushing {
            reader: Snapshot::of(reader),
            producer: Snapshot::of(producer),
        }
    }
}

/// The thread that reads.
pub(crate) type Reading<R> = PromisedHandle<Pushed<R>, Pushing<R>>;

/// Reads to the end, and tells it.
fn read_to_end<R: Read, H: Attendant>(
    alloc: Global,
    reader: R,
    producer: Producer<Request>,
    helper: H,
) -> Pushed<R>
    ensures ring { SameProducer producer result.producer }
    ensures pumps { Pumps (R.remaining reader) producer result }
{
    let Pumped {
        end,
        reader,
        producer,
        pushes,
        bell,
    } = pump(alloc, reader, producer, helper);
    let told = bell.end_reading();
    Pushed {
        end,
        reader,
        producer,
        pushes,
        told,
    }
}

/// Starts the thread that reads, if one can be started.
pub(crate) fn start_reading<
    Rt: Threads,
    T: Starter,
    R: Read + Send + Drop + 'static,
    H: Attendant + Send + 'static,
>(
    rt: &Rt,
    alloc: Global,
    starter: &mut T,
    reader: R,
    producer: Producer<Request>,
    helper: H,
) -> Result<Reading<R>, StartFailed>
    ensures promised { IfOk result (λ thread. (thread.promise.producer.value ≡ producer) × (R.remaining thread.promise.reader.value ≡ R.remaining reader)) }
    ensures started { OnOk result (T.failures starter.new ≡ T.failures starter.old) }
    ensures refused { OnErr result (T.failures starter.new ≡ one_more (T.failures starter.old)) }
{
    let promise = Pushing::of(&reader, &producer);
    let reading = move || read_to_end(alloc, reader, producer, helper);
    start(rt, starter, promise, reading)
}
