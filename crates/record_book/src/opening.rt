ghost use Rattle.std.specs.Prelude.{◌≡◌, None, IfOk, IfErr, OnOk, OnErr};
ghost use Rattle.record_book.specs.Refusals.{join_refusal, attach_refusal, IsDue};

use crate::book::Book;
use crate::seat::{Receipt, Seat, SpentSeat};
use byte_ledger::ledgers::Ledgers;
use call_types::act::Act;
use call_types::refusal::Refusal;
use std::alloc::{AllocError, Global};

/// What a join or an attach gives: a seat of type `S`, or a spent seat of type `P`.
#[derive(Drop)]
pub enum Opened<S, P> {
    /// The seat of the process.
    Seated(S),
    /// A seat with one receipt, that of the recorded error: EAGAIN of a join, ESRCH of an attach.
    Refused(P),
}

/// The same, with the seats of a book.
pub type OpenedIn<L> = Opened<Seat<L>, SpentSeat<L>>;

impl<L: Ledgers> Book<L> {
    ghost use Rattle.record_book.specs.Openings.{next_pid, JoinsBy, Joins, AttachesBy, Attaches};

    /// The number that the next process will have.
    pub fn next_pid(&self) -> u32
        ensures { result ≡ next_pid self.now }
    {
        self.progress().next_pid()
    }

    /// Records a join that is not refused. Returns the seat and, beside it, its receipt. On an error nothing changes.
    fn record_join(&mut self, alloc: Global) -> Result<(OpenedIn<L>, Receipt), AllocError>
        requires free { join_refusal self.old ≡ None }
        ensures recorded { IfOk result (λ joined. JoinsBy self.old self.new joined.0 joined.1) }
        ensures unchanged { OnErr result (self.new ≡ self.old) }
    {
        let full = self.progress().is_full();
        let actor = self.next_pid();
        let decided = self.progress().join_comes_to(alloc)?;
        self.progress().is_planned(actor, &Act::Join, &decided);
        let (seat, receipt) = self.record_opening(alloc, actor, Act::Join, decided)?;
        if full {
            return Ok((Opened::Refused(SpentSeat::of(seat)), receipt));
        }
        Ok((Opened::Seated(seat), receipt))
    }

    /// Records an attach that is not refused. Returns its receipt once more beside the seat. On an error nothing changes.
    fn record_attach(
        &mut self,
        alloc: Global,
        process: u32,
    ) -> Result<(OpenedIn<L>, Receipt), AllocError>
        requires free { attach_refusal self.old process ≡ None }
        ensures recorded { IfOk result (λ attached. AttachesBy self.old self.new process attached.0 attached.1) }
        ensures unchanged { OnErr result (self.new ≡ self.old) }
    {
        let awaits = self.progress().awaits(process);
        let decided = self.progress().attach_comes_to(process);
        self.progress().is_planned(process, &Act::Attach, &decided);
        let (seat, receipt) = self.record_opening(alloc, process, Act::Attach, decided)?;
        if awaits {
            return Ok((Opened::Seated(seat), receipt));
        }
        Ok((Opened::Refused(SpentSeat::of(seat)), receipt))
    }

    /// Records a join: a new process, already attached, or EAGAIN. A `Refusal` is not recorded, and leaves the book as it was.
    pub fn join(&mut self, alloc: Global) -> Result<OpenedIn<L>, Refusal>
        ensures recorded { IfOk result (λ opened. Joins self.old self.new opened) }
        ensures not_refused { OnOk result (join_refusal self.old ≡ None) }
        ensures refused { IfErr result (λ refusal. IsDue (join_refusal self.old) refusal) }
        ensures unchanged { OnErr result (self.new ≡ self.old) }
    {
        if self.progress().join_overfills() {
            return Err(Refusal::RunFull);
        }
        let (opened, _receipt) = self.record_join(alloc)?;
        Ok(opened)
    }

    /// Records an attach: it connects a child that waits for a connection, or gives ESRCH. A `Refusal` is not recorded, and leaves
    /// the book as it was.
    pub fn attach(&mut self, alloc: Global, process: u32) -> Result<OpenedIn<L>, Refusal>
        ensures recorded { IfOk result (λ opened. Attaches self.old self.new process opened) }
        ensures not_refused { OnOk result (attach_refusal self.old process ≡ None) }
        ensures refused { IfErr result (λ refusal. IsDue (attach_refusal self.old process) refusal) }
        ensures unchanged { OnErr result (self.new ≡ self.old) }
    {
        if self.progress().attach_overfills(process) {
            return Err(Refusal::RunFull);
        }
        let (opened, _receipt) = self.record_attach(alloc, process)?;
        Ok(opened)
    }
}
