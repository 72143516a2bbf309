//! A book by its seats: what a server will call, and a script does not.

ghost use Rattle.std.specs.Prelude.{◌≡◌};

use byte_ledger::ledgers::{Blanks, Ledgers};
use call_types::act::{Act, HOUSE};
use call_types::bounded::Name;
use call_types::call::Call;
use call_types::errno::Errno;
use call_types::flags::OpenFlags;
use call_types::limits::Limits;
use call_types::outcome::{Outcome, Reply};
use call_types::refusal::Refusal;
use posix_model::reader::WorldReader;
use record_book::book::Book;
use record_book::exits::Unspent;
use record_book::opening::{Opened, OpenedIn};
use record_book::seat::{Receipt, Seat, SpentSeat};
use slots::ticket::Ticket;
use std::alloc::Global;
use std::marker::Brand;
use std::process::Abort;
use std::test::Fail;

/// The seat of the next process.
fn joined<L: Ledgers>(alloc: Global, book: &mut Book<L>) -> Result<Seat<L>, Fail> {
    match book.join(alloc) {
        Ok(Opened::Seated(seat)) => Ok(seat),
        _ => Err("there is room for a process")?,
    }
}

/// Whether a call was recorded at this place with this number.
fn is_number(receipt: &Receipt, place: u64, number: u64) -> bool {
    match &receipt.record().outcome {
        Outcome::Reply(Reply::Number(told)) => receipt.place() == place && *told == number,
        _ => false,
    }
}

/// Whether this error was recorded at this place.
fn is_error(receipt: &Receipt, place: u64, error: Errno) -> bool {
    match &receipt.record().outcome {
        Outcome::Reply(Reply::Error(told)) => receipt.place() == place && *told == error,
        _ => false,
    }
}

/// Whether the exit of this process was recorded at this place.
fn is_exit(receipt: &Receipt, place: u64, process: u32) -> bool {
    let record = receipt.record();
    match &record.act {
        Act::Exit => receipt.place() == place && record.actor == process,
        _ => false,
    }
}

/// Whether the closing was recorded at this place.
fn is_closing(receipt: &Receipt, place: u64) -> bool {
    let record = receipt.record();
    match &record.act {
        Act::CloseRun => receipt.place() == place && record.actor == HOUSE,
        _ => false,
    }
}

/// The seat of a child that an attach gives.
fn attached<L: Ledgers>(alloc: Global, book: &mut Book<L>, process: u32) -> Result<Seat<L>, Fail> {
    match book.attach(alloc, process) {
        Ok(Opened::Seated(seat)) => Ok(seat),
        _ => Err("the child waits for its connection")?,
    }
}

/// How many records a seat has seen, and the book has, of a call that is refused as another book's.
fn foreign<L: Ledgers>(
    alloc: Global,
    book: &mut Book<L>,
    seat: &mut Seat<L>,
) -> Option<(u64, u64)> {
    match book.start(alloc, seat, Call::Close { fd: 0 }) {
        Err(Refusal::Foreign { seen, len }) => Some((seen, len)),
        _ => None,
    }
}

/// Whether the process of a seat makes a new file and opens it, as record 1.
fn opens<L: Ledgers>(alloc: Global, book: &mut Book<L>, seat: &mut Seat<L>) -> bool {
    let name = match Name::copied(alloc, b"a") {
        Ok(name) => name,
        Err(_) => return false,
    };
    let flags = OpenFlags::WRITE | OpenFlags::CREAT;
    match book.start(alloc, seat, Call::Open { name, flags }) {
        Ok(receipt) => is_number(&receipt, 1, 0),
        Err(_) => false,
    }
}

/// Whether the process of a seat gives that file a second name, makes a child, and then a pipe.
fn links_forks_and_makes_a_pipe<L: Ledgers>(
    alloc: Global,
    book: &mut Book<L>,
    seat: &mut Seat<L>,
) -> bool {
    let (old, new) = match (Name::copied(alloc, b"a"), Name::copied(alloc, b"b")) {
        (Ok(old), Ok(new)) => (old, new),
        _ => return false,
    };
    book.start(alloc, seat, Call::Link { old, new }).is_ok()
        && book.start(alloc, seat, Call::Fork).is_ok()
        && book.start(alloc, seat, Call::Pipe).is_ok()
}

/// What is counted of that: two descriptors of the file's description, its two names and one holder, and one end of each kind.
fn counts_what_it_did<L: Ledgers>(
    rt: &impl Abort,
    alloc: Global,
    book: &mut Book<L>,
) -> Result<(), Fail> {
    let mut seat = joined(alloc, book)?;
    assert!(rt; opens(alloc, book, &mut seat));
    assert!(rt; links_forks_and_makes_a_pipe(alloc, book, &mut seat));
    let machine = book.machine();
    let description = Ticket::new(0, 0);
    assert_eq!(rt;
        (
            machine.references(&description),
            machine.references(&Ticket::new(3, 0))
        ),
        (2, 0)
    );
    assert_eq!(rt; (machine.links(0), machine.holders(0)), (2, 1));
    assert_eq!(rt; (machine.readers(0), machine.writers(0)), (1, 1));
    assert_eq!(rt;
        (machine.live_descriptions(), machine.live_processes()),
        (3, 2)
    );
    Ok(())
}

/// Whether the process of a seat makes so many children.
fn forks<L: Ledgers>(alloc: Global, book: &mut Book<L>, seat: &mut Seat<L>, children: u32) -> bool {
    (0..children).all(|_| book.start(alloc, seat, Call::Fork).is_ok())
}

/// How many records a seat has seen, and how many receipts it has.
fn held<L: Ledgers>(seat: &Seat<L>) -> (u64, usize) {
    (seat.seen(), seat.receipts().len())
}

/// A seat of one book is told of more records than the book has.
fn is_told_of_more<L: Ledgers>(
    rt: &impl Abort,
    alloc: Global,
    book: &mut Book<L>,
) -> Result<(), Fail> {
    let mut seat = joined(alloc, book)?;
    assert!(rt; opens(alloc, book, &mut seat));
    assert_eq!(rt; (seat.pid(), held(&seat)), (0, (2, 2)));
    seat.told(3);
    assert!(rt; foreign(alloc, book, &mut seat) == Some((3, 2)));
    assert_eq!(rt; book.counts().records, 2);
    Ok(())
}

/// Whether the exit of a seat that has seen 3 records was refused, and that seat is given back.
fn is_given_back<L: Ledgers>(ended: &Result<SpentSeat<L>, Unspent<L>>) -> bool {
    match ended {
        Ok(_) => false,
        Err(unspent) => {
            unspent.refusal == Refusal::Foreign { seen: 3, len: 1 }
                && unspent.seat.pid() == 0
                && held(&unspent.seat) == (3, 1)
        }
    }
}

/// Whether the exit of a seat that has seen 3 records is refused so.
fn gives_back<L: Ledgers>(book: &mut Book<L>, seat: Seat<L>) -> bool {
    is_given_back(&book.exit(seat))
}

/// An exit of such a seat.
fn refuses_the_exit<L: Ledgers>(
    rt: &impl Abort,
    alloc: Global,
    book: &mut Book<L>,
) -> Result<(), Fail> {
    let mut seat = joined(alloc, book)?;
    seat.told(3);
    assert!(rt; gives_back(book, seat));
    assert_eq!(rt; book.counts().records, 1);
    Ok(())
}

/// Whether an attach of process 1 was recorded as refused, at place 3.
fn is_refused<L: Ledgers>(opened: &Result<OpenedIn<L>, Refusal>) -> bool {
    match opened {
        Ok(Opened::Refused(spent)) => match spent.receipts() {
            [only] => (spent.pid(), spent.seen()) == (1, 4) && is_error(only, 3, Errno::ESRCH),
            _ => false,
        },
        _ => false,
    }
}

/// Whether a second attach of process 1 is recorded so.
fn is_attached_once<L: Ledgers>(alloc: Global, book: &mut Book<L>) -> bool {
    is_refused(&book.attach(alloc, 1))
}

/// Whether the exit of process 1 was recorded at place 4.
fn is_ended<L: Ledgers>(ended: &Result<SpentSeat<L>, Unspent<L>>) -> bool {
    match ended {
        Ok(spent) => match spent.receipts() {
            [_attach, exit] => (spent.pid(), spent.seen()) == (1, 5) && is_exit(exit, 4, 1),
            _ => false,
        },
        Err(_) => false,
    }
}

/// Whether the exit of process 1 is recorded so.
fn ends<L: Ledgers>(book: &mut Book<L>, child: Seat<L>) -> bool {
    is_ended(&book.exit(child))
}

/// A child that is attached, and ends.
fn attaches_a_child<L: Ledgers>(
    rt: &impl Abort,
    alloc: Global,
    book: &mut Book<L>,
) -> Result<(), Fail> {
    let mut parent = joined(alloc, book)?;
    assert!(rt; forks(alloc, book, &mut parent, 1));
    let child = attached(alloc, book, 1)?;
    assert_eq!(rt; (child.pid(), held(&child)), (1, (3, 1)));
    assert!(rt; is_attached_once(alloc, book));
    assert!(rt; ends(book, child));
    Ok(())
}

/// Whether the closing ended processes 1 and 3, which have no connection, and stands at place 7.
fn has_ended_one_and_three<L: Ledgers>(closed: &Option<SpentSeat<L>>) -> bool {
    match closed {
        Some(house) => match house.receipts() {
            [first, second, last] => {
                (house.pid(), house.seen()) == (HOUSE, 8)
                    && is_exit(first, 5, 1)
                    && is_exit(second, 6, 3)
                    && is_closing(last, 7)
            }
            _ => false,
        },
        None => false,
    }
}

/// Whether the closing does that.
fn ends_one_and_three<L: Ledgers>(book: &mut Book<L>) -> bool {
    has_ended_one_and_three(&book.close_run())
}

/// Two children that are never attached.
fn ends_two_of_three<L: Ledgers>(
    rt: &impl Abort,
    alloc: Global,
    book: &mut Book<L>,
) -> Result<(), Fail> {
    let mut parent = joined(alloc, book)?;
    assert!(rt; forks(alloc, book, &mut parent, 3));
    let _child = attached(alloc, book, 2)?;
    assert!(rt; ends_one_and_three(book));
    assert!(rt; book.close_run().is_none());
    assert_eq!(rt; book.counts().records, 8);
    Ok(())
}

/// What is tried in a new book.
#[derive(Clone, Copy)]
enum Trial {
    Counts,
    ForeignCall,
    ForeignExit,
    Attach,
    Closing,
}

/// Tries it in a book.
fn tried<L: Ledgers>(
    rt: &impl Abort,
    alloc: Global,
    book: &mut Book<L>,
    trial: Trial,
) -> Result<(), Fail> {
    match trial {
        Trial::Counts => counts_what_it_did(rt, alloc, book),
        Trial::ForeignCall => is_told_of_more(rt, alloc, book),
        Trial::ForeignExit => refuses_the_exit(rt, alloc, book),
        Trial::Attach => attaches_a_child(rt, alloc, book),
        Trial::Closing => ends_two_of_three(rt, alloc, book),
    }
}

/// Tries it in a new book.
fn in_a_new_book<L: Ledgers>(
    rt: &impl Abort,
    alloc: Global,
    blanks: Blanks,
    trial: Trial,
) -> Result<(), Fail>
    requires { blanks ≡ L.names }
{
    // A match, since `?` would move the book three times more.
    match Book::<L>::new(alloc, Limits::new(20, 1024)?, blanks) {
        Ok(mut book) => tried(rt, alloc, &mut book, trial),
        Err(error) => Err(Fail::from(error)),
    }
}

#[test]
fn state_is_counted_as_it_goes(rt: HostRuntime) -> Result<(), Fail> {
    in_a_new_book::<Brand>(&rt, rt.alloc(), Blanks::new(), Trial::Counts)
}

#[test]
fn seat_has_its_receipts_and_is_of_one_book(rt: HostRuntime) -> Result<(), Fail> {
    in_a_new_book::<Brand>(&rt, rt.alloc(), Blanks::new(), Trial::ForeignCall)
}

#[test]
fn exit_in_another_book_gives_the_seat_back(rt: HostRuntime) -> Result<(), Fail> {
    in_a_new_book::<Brand>(&rt, rt.alloc(), Blanks::new(), Trial::ForeignExit)
}

#[test]
fn child_is_attached_once_and_ends(rt: HostRuntime) -> Result<(), Fail> {
    in_a_new_book::<Brand>(&rt, rt.alloc(), Blanks::new(), Trial::Attach)
}

#[test]
fn closing_ends_the_children_without_a_connection(rt: HostRuntime) -> Result<(), Fail> {
    in_a_new_book::<Brand>(&rt, rt.alloc(), Blanks::new(), Trial::Closing)
}
