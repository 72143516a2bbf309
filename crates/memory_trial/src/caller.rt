//! A book, to which acts are given by its public calls, one for each kind of act, and the seats of their processes.

ghost use Rattle.std.specs.Prelude.{◌≡◌, ◌<◌, vec_len, IfSome};

use crate::answer::Answer;
use crate::stand::{BookStand, Held};
use crate::trial_fault::TrialFault;
use byte_ledger::ledgers::{Blanks, Ledgers};
use byte_ledger::tallies::Sums;
use call_types::act::{HOUSE, ScriptAct};
use call_types::call::Call;
use call_types::limits::{Limits, PROCESSES_MAX};
use call_types::refusal::Refusal;
use record_book::book::Book;
use record_book::calling::Resumed;
use record_book::exits::Unspent;
use record_book::opening::{Opened, OpenedIn};
use record_book::seat::{Receipt, Seat, SpentSeat};
use std::alloc::{AllocError, Global};

/// Why there is no receipt of an act.
#[derive(Drop)]
enum Unrecorded {
    /// The book refused it.
    Refused(Refusal),
    /// The trial fails.
    Failed(TrialFault),
}

impl From<Refusal> for Unrecorded {
    fn from(refusal: Refusal) -> Unrecorded {
        Unrecorded::Refused(refusal)
    }
}

impl From<AllocError> for Unrecorded {
    fn from(error: AllocError) -> Unrecorded {
        Unrecorded::Failed(TrialFault::from(error))
    }
}

/// A copy of a call; where memory is wanting, it is asked for once more.
fn copy_of(call: &Call) -> Result<Call, AllocError> {
    match call.clone() {
        Ok(copy) => Ok(copy),
        Err(_) => call.clone(),
    }
}

/// The last receipt of a seat that gets no more.
fn last_of<L: Ledgers>(seat: SpentSeat<L>) -> Result<Receipt, Unrecorded> {
    let (mut receipts, _shares) = seat.into_parts();
    receipts
        .pop()
        .ok_or(Unrecorded::Failed(TrialFault::NoReceipt))
}

/// What is told of an act that is recorded or refused.
fn told(
    actor: u32,
    act: ScriptAct,
    recorded: Result<Receipt, Unrecorded>,
) -> Result<Answer, TrialFault> {
    match recorded {
        Ok(receipt) => Ok(Answer::Recorded(receipt)),
        Err(Unrecorded::Refused(refusal)) => Ok(Answer::Refused {
            actor,
            act,
            refusal,
        }),
        Err(Unrecorded::Failed(fault)) => Err(fault),
    }
}

/// What is told of a resume.
fn resumed(process: u32, resumed: Result<Resumed, Refusal>) -> Answer {
    match resumed {
        Ok(Resumed::Recorded(receipt)) => Answer::Recorded(receipt),
        Ok(Resumed::Still) => Answer::Still {
            actor: process,
            act: ScriptAct::Resume { process },
        },
        Err(refusal) => Answer::Refused {
            actor: process,
            act: ScriptAct::Resume { process },
            refusal,
        },
    }
}

/// A book, and the seats of the processes that are live and attached.
#[derive(Drop)]
pub(crate) struct Caller<L: Ledgers> {
    seats: Vec<Seat<L>>,
    book: Book<L>,
}

impl<L: Ledgers> Caller<L> {
    /// A book without records that counts by these ledgers, and room for the seats of as many processes as live at one time.
    pub(crate) fn new(alloc: Global, limits: Limits, blanks: Blanks) -> Result<Self, AllocError>
        requires { blanks ≡ L.names }
    {
        let seats = Vec::with_capacity(alloc, PROCESSES_MAX)?;
        let book = Book::new(alloc, limits, blanks)?;
        Ok(Caller { seats, book })
    }

    /// How many records the book holds, and how many bytes they took and gave.
    pub(crate) fn counts(&self) -> Sums {
        self.book.counts()
    }

    /// Where the seat of a process is.
    fn index_of(&self, process: u32) -> Option<usize>
        ensures { IfSome result (λ index. index < vec_len self.now.seats) }
    {
        for index in 0..self.seats.len() {
            if self.seats[index].pid() == process {
                return Some(index);
            }
        }
        None
    }

    /// What the seat of a process holds.
    fn held(&self, process: u32) -> Option<Held> {
        let index = self.index_of(process)?;
        Some(Held::of(&self.book, &self.seats[index]))
    }

    /// How the book and the seats stand.
    pub(crate) fn stand(&self) -> BookStand {
        let mut seats = [None; PROCESSES_MAX];
        for (number, slot) in seats.iter_mut().enumerate() {
            *slot = self.held(number as u32);
        }
        BookStand {
            counts: self.book.counts(),
            next_pid: self.book.next_pid(),
            seats,
        }
    }

    /// Keeps a seat.
    fn keep(&mut self, seat: Seat<L>) -> Result<(), AllocError> {
        self.seats.push(seat).map_err(AllocError::from)
    }

    /// Keeps the seat that was opened, if one was: the receipt of the opening.
    fn opened(&mut self, opened: OpenedIn<L>) -> Result<Receipt, Unrecorded> {
        match opened {
            Opened::Seated(seat) => {
                let receipt = match seat.receipts().last() {
                    Some(receipt) => receipt.share()?,
                    None => return Err(Unrecorded::Failed(TrialFault::NoReceipt)),
                };
                self.keep(seat)?;
                Ok(receipt)
            }
            Opened::Refused(seat) => last_of(seat),
        }
    }

    /// Gives a join to the book.
    fn join(&mut self, alloc: Global) -> Result<Receipt, Unrecorded> {
        let opened = self.book.join(alloc)?;
        self.opened(opened)
    }

    /// Gives an attach to the book.
    fn attach(&mut self, alloc: Global, process: u32) -> Result<Receipt, Unrecorded> {
        let opened = self.book.attach(alloc, process)?;
        self.opened(opened)
    }

    /// Gives a call to the book.
    fn call(&mut self, alloc: Global, process: u32, call: &Call) -> Result<Receipt, Unrecorded> {
        let Some(index) = self.index_of(process) else {
            return Err(Unrecorded::Refused(Refusal::NotHere));
        };
        let call = copy_of(call)?;
        Ok(self.book.start(alloc, &mut self.seats[index], call)?)
    }

    /// Gives a resume to the book.
    fn resume(&mut self, alloc: Global, process: u32) -> Result<Resumed, Refusal> {
        match self.index_of(process) {
            Some(index) => self.book.resume(alloc, &mut self.seats[index]),
            None => Err(Refusal::NotHere),
        }
    }

    /// Gives an exit to the book. A seat that the book gives back is kept.
    fn exit(&mut self, process: u32) -> Result<Receipt, Unrecorded> {
        let Some(index) = self.index_of(process) else {
            return Err(Unrecorded::Refused(Refusal::NotHere));
        };
        match self.book.exit(self.seats.swap_remove(index)) {
            Ok(seat) => last_of(seat),
            Err(Unspent { seat, refusal }) => {
                self.keep(seat)?;
                Err(Unrecorded::Refused(refusal))
            }
        }
    }

    /// Closes the book.
    fn close(&mut self) -> Answer {
        match self.book.close_run() {
            Some(house) => {
                let (receipts, _shares) = house.into_parts();
                Answer::Closed(receipts)
            }
            None => Answer::Still {
                actor: HOUSE,
                act: ScriptAct::CloseRun,
            },
        }
    }

    /// Gives an act to the book.
    pub(crate) fn give(&mut self, alloc: Global, act: ScriptAct) -> Result<Answer, TrialFault> {
        match act {
            ScriptAct::Join => {
                let actor = self.book.next_pid();
                told(actor, ScriptAct::Join, self.join(alloc))
            }
            ScriptAct::Attach { process } => {
                let recorded = self.attach(alloc, process);
                told(process, ScriptAct::Attach { process }, recorded)
            }
            ScriptAct::Call { process, call } => {
                let recorded = self.call(alloc, process, &call);
                told(process, ScriptAct::Call { process, call }, recorded)
            }
            ScriptAct::Resume { process } => Ok(resumed(process, self.resume(alloc, process))),
            ScriptAct::Exit { process } => {
                let recorded = self.exit(process);
                told(process, ScriptAct::Exit { process }, recorded)
            }
            ScriptAct::CloseRun => Ok(self.close()),
        }
    }
}
