//! Prepared acts of processes that no session serves, run in a book.

ghost use Rattle.std.specs.Prelude.{◌<◌, vec_len, vec_capacity, IfSome};

use byte_ledger::ledgers::Ledgers;
use call_types::act::ScriptAct;
use call_types::call::Call;
use call_types::refusal::Refusal;
use record_book::book::Book;
use record_book::opening::{Opened, OpenedIn};
use record_book::seat::Seat;
use std::alloc::Global;

/// The seats that prepared acts opened. What is refused is passed over.
#[derive(Drop)]
struct Others<L: Ledgers> {
    seats: Vec<Seat<L>>,
}

impl<L: Ledgers> Others<L> {
    /// Where the seat of a process is.
    fn index_of(&self, process: u32) -> Option<usize>
        ensures { IfSome result (λ index. index < vec_len self.now.seats) }
    {
        self.seats.iter().position(|seat| seat.pid() == process)
    }

    /// Keeps the seat of an opening, if it gave one. There is room for it.
    fn keep(&mut self, opened: Result<OpenedIn<L>, Refusal>)
        requires { vec_len self.old.seats < vec_capacity self.old.seats }
    {
        if let Ok(Opened::Seated(seat)) = opened {
            self.seats.push_reserved(seat);
        }
    }

    /// Opens a new process.
    fn join(&mut self, book: &mut Book<L>, alloc: Global) {
        if self.seats.reserve(1).is_ok() {
            self.keep(book.join(alloc));
        }
    }

    /// Opens a child that waits for a connection.
    fn attach(&mut self, book: &mut Book<L>, alloc: Global, process: u32) {
        if self.seats.reserve(1).is_ok() {
            self.keep(book.attach(alloc, process));
        }
    }

    /// Makes a call of a process.
    fn call(&mut self, book: &mut Book<L>, alloc: Global, process: u32, call: Call) {
        if let Some(index) = self.index_of(process) {
            let _told = book.start(alloc, &mut self.seats[index], call);
        }
    }

    /// Takes up the call that a process waits in.
    fn resume(&mut self, book: &mut Book<L>, alloc: Global, process: u32) {
        if let Some(index) = self.index_of(process) {
            let _told = book.resume(alloc, &mut self.seats[index]);
        }
    }

    /// Ends a process.
    fn exit(&mut self, book: &mut Book<L>, process: u32) {
        let Some(index) = self.index_of(process) else {
            return;
        };
        if let Err(unspent) = book.exit(self.seats.swap_remove(index)) {
            self.seats.push_reserved(unspent.seat);
        }
    }

    /// Runs an act.
    fn run(&mut self, book: &mut Book<L>, alloc: Global, act: ScriptAct) {
        match act {
            ScriptAct::Join => self.join(book, alloc),
            ScriptAct::Attach { process } => self.attach(book, alloc, process),
            ScriptAct::Call { process, call } => self.call(book, alloc, process, call),
            ScriptAct::Resume { process } => self.resume(book, alloc, process),
            ScriptAct::Exit { process } => self.exit(book, process),
            ScriptAct::CloseRun => drop(book.close_run()),
        }
    }
}

/// Runs acts in order.
pub(crate) fn run_acts<L: Ledgers>(book: &mut Book<L>, alloc: Global, acts: Vec<ScriptAct>) {
    let mut others = Others {
        seats: Vec::new(alloc),
    };
    for act in acts {
        others.run(book, alloc, act);
    }
}
