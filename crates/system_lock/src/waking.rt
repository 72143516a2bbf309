//! Who of those that sleep is woken after an event.

ghost use Rattle.std.specs.Prelude.{◌≡◌, ℕ, ◌<◌, ◌&&◌, Option, map, vec_len};
ghost use Rattle.system_lock.specs.Proved.Sleeping.{SleepsSound, wakes_in};
ghost use Rattle.system_lock.specs.Proved.Events.{still_asleep};
ghost use Rattle.system_lock.specs.Proved.Stirred.{stirs};
ghost use Rattle.system_lock.specs.Proved.Sleepers.{pipe_in, pipe_then, SleepersSound, SparesIn, AreSpared, LooksAt};
ghost use Rattle.record_book.specs.Book.{BookState};

use crate::bells::Bells;
use crate::lost::is_live;
use crate::sleepers::Sleepers;
use crate::stirred::{Stirred, pipe_waited};
use byte_ledger::ledgers::Ledgers;
use record_book::book::Book;

/// Whether a process that sleeps is to be woken: its call is ready, or the process has ended.
fn wakes<L: Ledgers>(book: &Book<L>, process: u32) -> bool
    ensures { result ≡ wakes_in book.now process }
{
    book.is_ready(process) || !is_live(book, process)
}

/// Whether to wake a sleeping process: the event may have made its call ready or ended it, and it did.
fn is_woken<L: Ledgers>(book: &Book<L>, stirred: Stirred, process: u32, pipe: Option<usize>) -> bool
    ensures { result ≡ (stirs stirred process pipe && wakes_in book.now process) }
{
    stirred.stirs(process, pipe) && wakes(book, process)
}

/// The pipe on which a process waits after an event, if it waited on this one before.
fn pipe_then<L: Ledgers>(
    book: &Book<L>,
    stirred: Stirred,
    process: u32,
    pipe: Option<usize>,
) -> Option<usize>
    ensures { result ≡ pipe_then book.now stirred process pipe }
{
    if stirred.is_by(process) {
        pipe_waited(book.machine(), process)
    } else {
        pipe
    }
}

impl Sleepers {
    /// Looks at the one at a place: takes it out and wakes it, if it is to be woken. Returns the place of the next.
    fn look_at<L: Ledgers>(
        &mut self,
        book: &Book<L>,
        bells: &Bells,
        stirred: Stirred,
        at: usize,
    ) -> usize
        requires within { at < vec_len self.old.asleep }
        requires paired { vec_len self.old.pipes ≡ vec_len self.old.asleep }
        ensures { LooksAt book.now stirred self.old self.new at result }
    {
        let process = self.asleep[at];
        if !is_woken(book, stirred, process, self.pipes[at]) {
            return at + 1;
        }
        bells.of(process).notify_all();
        self.asleep.remove(at);
        self.pipes.remove(at);
        at
    }

    /// Takes those out whose call is ready or who have ended, and wakes them.
    fn wake_ready<L: Ledgers>(&mut self, book: &Book<L>, bells: &Bells, stirred: Stirred)
        requires spared { AreSpared book.now stirred self.old }
        ensures none_wakes { SleepsSound book.now self.new.asleep.items }
        ensures others { self.new.asleep.items ≡ still_asleep book.now self.old.asleep.items }
        ensures pipes { (was : BookState) → SleepersSound was self.old → SparesIn was book.now stirred → self.new.pipes.items ≡ map (pipe_in was) self.new.asleep.items }
    {
        let mut at = 0;
        while at < self.asleep.len() {
            at = self.look_at(book, bells, stirred, at);
        }
    }

    /// Asks on which pipe the event's own process waits now.
    fn renew_pipes<L: Ledgers>(&mut self, book: &Book<L>, stirred: Stirred)
        requires paired { vec_len self.old.pipes ≡ vec_len self.old.asleep }
        ensures asleep { self.new.asleep.items ≡ self.old.asleep.items }
        ensures pipes { (f : ℕ → Option ℕ) → self.old.pipes.items ≡ map f self.old.asleep.items → self.new.pipes.items ≡ map (λ q. pipe_then book.now stirred q (f q)) self.new.asleep.items }
    {
        for at in 0..self.asleep.len() {
            self.pipes[at] = pipe_then(book, stirred, self.asleep[at], self.pipes[at]);
        }
    }

    /// Takes those out whose call is ready after an event or who have ended in it, and wakes them. It looks at none whom the event does not stir.
    pub(crate) fn wake<L: Ledgers>(&mut self, book: &Book<L>, bells: &Bells, stirred: Stirred)
        requires spared { AreSpared book.now stirred self.old }
        ensures sound { SleepersSound book.now self.new }
        ensures others { self.new.asleep.items ≡ still_asleep book.now self.old.asleep.items }
    {
        self.wake_ready(book, bells, stirred);
        self.renew_pipes(book, stirred);
    }
}
