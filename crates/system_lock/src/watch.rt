//! Whom the lock of a run watches: the processes that sleep, and those whose connections are lost.

ghost use Rattle.std.specs.Prelude.{◌≡◌, [], true, false, IfOk};
ghost use Rattle.system_lock.specs.System.{is_live_in, is_among, marked_by_watch};
ghost use Rattle.system_lock.specs.Proved.Sleeping.{with_one};
ghost use Rattle.record_book.specs.Refusals.{is_ready_in};
ghost use Rattle.system_lock.specs.Proved.Events.{still_asleep, still_lost};
ghost use Rattle.system_lock.specs.Proved.Sleepers.{pipe_in};
ghost use Rattle.system_lock.specs.Proved.Watch.{WatchSound, AreLeft, LiveAreFew, lost_with, asleep_without};

use crate::bells::Bells;
use crate::lost::{Lost, is_live};
use crate::sleepers::Sleepers;
use crate::stirred::Stirred;
use byte_ledger::ledgers::Ledgers;
use posix_model::laws::processes_are_counted;
use record_book::book::Book;
use std::alloc::{AllocError, Global};
use std::marker::Model;

/// The processes that sleep, and those whose connections are lost. None of these sleeps.
#[derive(Drop)]
pub(crate) struct Watch {
    pub(crate) sleepers: Sleepers,
    pub(crate) lost: Lost,
}

/// What shows that it was told of a process that its connection is lost. That the watch marked it, or that it had ended, only the marking
/// shows. Contracts see it as a `MarkState`.
#[derive(Drop)]
pub struct Marked {
    process: u32,
    by_watch: bool,
}

impl Model for Marked {
    ghost use Rattle.system_lock.specs.System.{MarkState};

    ghost Value = { MarkState };

    ghost view = { λ m. record { process_is = m.process; by_watch = m.by_watch } };
}

impl Marked {
    /// Shows that nobody had to be told: in a kernel without a watch no call waits for long.
    pub fn needless(process: u32) -> Self
        ensures { result ≡ record { process_is = process; by_watch = false } }
    {
        Marked {
            process,
            by_watch: false,
        }
    }
}

/// Different processes that are live are at most as many as may be live at once. It does nothing.
fn live_are_few()
    ensures { LiveAreFew }
{
    processes_are_counted();
}

impl Watch {
    /// Nobody sleeps, and nobody is lost.
    pub(crate) fn new(alloc: Global) -> Result<Self, AllocError>
        ensures asleep { IfOk result (λ watch. watch.sleepers.asleep.items ≡ []) }
        ensures pipes { IfOk result (λ watch. watch.sleepers.pipes.items ≡ []) }
        ensures lost { IfOk result (λ watch. watch.lost.processes.items ≡ []) }
    {
        Ok(Watch {
            sleepers: Sleepers::new(alloc)?,
            lost: Lost::new(alloc)?,
        })
    }

    /// Takes those out that an event has ended, and wakes those that it has made ready. Of those that sleep it looks at none whom the
    /// event does not stir.
    pub(crate) fn wake_stirred<L: Ledgers>(
        &mut self,
        book: &Book<L>,
        bells: &Bells,
        stirred: Stirred,
    )
        requires left { AreLeft book.now stirred self.old }
        ensures sound { WatchSound book.now self.new }
        ensures asleep { self.new.sleepers.asleep.items ≡ still_asleep book.now self.old.sleepers.asleep.items }
        ensures lost { self.new.lost.processes.items ≡ still_lost book.now self.old.lost.processes.items }
    {
        if let Stirred::Nobody = stirred {
            return;
        }
        self.lost.forget_ended(book);
        self.sleepers.wake(book, bells, stirred);
    }

    /// Puts a process to sleep. Its call waits on this pipe and is not ready. It takes no memory.
    pub(crate) fn fall_asleep<L: Ledgers>(
        &mut self,
        book: &Book<L>,
        process: u32,
        pipe: Option<usize>,
    )
        requires sound { WatchSound book.now self.old }
        requires live { is_live_in book.now process ≡ true }
        requires not_ready { is_ready_in book.now process ≡ false }
        requires unmarked { is_among self.old.lost.processes.items process ≡ false }
        requires its_pipe { pipe ≡ pipe_in book.now process }
        ensures sound { WatchSound book.now self.new }
        ensures asleep { self.new.sleepers.asleep.items ≡ with_one self.old.sleepers.asleep.items process }
        ensures lost { self.new.lost.processes.items ≡ self.old.lost.processes.items }
    {
        if !self.sleepers.has(process) {
            live_are_few();
            self.sleepers.fall_asleep(process, pipe);
        }
    }

    /// Marks a process as lost, unless it has ended or is marked, and wakes it if it sleeps. It takes no memory.
    pub(crate) fn mark_lost<L: Ledgers>(
        &mut self,
        book: &Book<L>,
        bells: &Bells,
        process: u32,
    ) -> Marked
        requires { WatchSound book.now self.old }
        ensures sound { WatchSound book.now self.new }
        ensures lost { self.new.lost.processes.items ≡ lost_with book.now self.old.lost.processes.items process }
        ensures asleep { self.new.sleepers.asleep.items ≡ asleep_without book.now self.old.lost.processes.items self.old.sleepers.asleep.items process }
        ensures its { result ≡ marked_by_watch process }
    {
        let marked = Marked {
            process,
            by_watch: true,
        };
        if !is_live(book, process) || self.lost.has(process) {
            return marked;
        }
        live_are_few();
        self.lost.mark(process);
        self.sleepers.take_out(bells, process);
        marked
    }
}
