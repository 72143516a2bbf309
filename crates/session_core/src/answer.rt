//! The requests of a session, answered in one thread while another reads them into a ring.

ghost use Rattle.std.specs.Prelude.{◌≡◌, [], true};
ghost use Rattle.rtrb.specs.Ring.{received, SameConsumer};
ghost use Rattle.run_history.specs.Fronts.{Grows, Since};
ghost use Rattle.session_core.specs.Answering.{AnswersRing, IsShutAtItsEnd};
ghost use Rattle.session_core.specs.Proved.Leaving.{answered_of, seat_of};
ghost use Rattle.session_core.specs.Proved.Desk.{StandsOn, IsAtRest};

use crate::connection::Connection;
use crate::desk::{send_ready, take_ready, wait_on};
use crate::end::End;
use crate::gate::Gate;
use crate::note::Note;
use crate::output::Output;
use crate::stage::{Stage, Standing, StandingOf};
use crate::told::Told;
use call_types::request::Request;
use logged_streams::writer::LoggedWriter;
use rtrb::Consumer;
use run_history::front::Front;
use std::alloc::Global;
use std::io::Write;
use std::marker::Model;
use std::sync::Wait;
use system_lock::kernel::{AdmissionTo, KernelOf};
use system_lock::run::Run;
use system_lock::run_seat::{RunSeat, SpentRunSeat};

/// What a session holds of its run, with a seat of the kind `S`, a spent one of the kind `P`, or an admission of the kind `A`.
#[derive(Drop)]
pub enum AnsweredSeat<S, P, A> {
    /// No opening was recorded: there still is leave to open a process.
    None(A),
    /// Its process goes on.
    Live(S),
    /// Its process has ended, or its opening was refused in the record.
    Spent(P),
}

/// Requests that were answered. Contracts see it as an `AnsweredState`.
#[derive(Drop)]
pub struct Answered<W: Write, L: Run> {
    pub seat: AnsweredSeat<RunSeat<L>, SpentRunSeat<L>, AdmissionTo<L>>,
    /// What was told, in order.
    pub answers: Vec<Told>,
    /// `None` where no more was read, or the kernel gave up the call that the process waited in.
    pub end: Option<End>,
    /// The end of the ring from which the requests were taken.
    pub ring: Consumer<Request>,
    /// The writer, with what became of its writes.
    pub writer: LoggedWriter<W>,
}

impl<W: Write, L: Run> Model for Answered<W, L> {
    ghost use Rattle.session_core.specs.Answering.{AnsweredState};

    ghost Value = { AnsweredState };

    ghost view = { λ s. record { seat_is = s.seat; answers = s.answers.items; end_is = s.end; ring = s.ring; writer = s.writer } };
}

/// Takes up what a ring gives and writes each answer, until the session is over, its call is given up, or the note says that no more is
/// read and the ring is empty.
fn answer_all<Rt: Wait, W: Write + Connection, G: Gate, L: Run, K: KernelOf<L>>(
    rt: &Rt,
    note: &Note,
    kernel: &K,
    front: &mut Front<L>,
    ring: &mut Consumer<Request>,
    output: &mut Output<W, G>,
    standing: StandingOf<L>,
) -> StandingOf<L>
    ensures ring { SameConsumer ring.old ring.new }
    ensures stands { StandsOn front.new K.says W.was_shut (received ring.old) output.old standing (received ring.new) output.new result }
    ensures rests { IsAtRest output.new result }
    ensures grows { Grows front.old front.new }
{
    let mut standing = standing;
    for _ in rt.forever() {
        let has_ended = note.has_ended(rt);
        let taken = take_ready(rt, note, kernel, front, ring, output, standing);
        standing = match send_ready(rt, kernel, front, output, taken) {
            Standing::Waits(seat) => wait_on(rt, kernel, front, output, seat),
            Standing::Ready(stage) => {
                if has_ended {
                    return Standing::Ready(stage);
                }
                note.sleep(rt);
                Standing::Ready(stage)
            }
            other => return other,
        };
    }
    unreachable!()
}

/// What is held by a session that is left with this seat.
fn seat_of<L: Run>(
    seat: Result<SpentRunSeat<L>, AdmissionTo<L>>,
) -> AnsweredSeat<RunSeat<L>, SpentRunSeat<L>, AdmissionTo<L>>
    ensures { result ≡ seat_of seat }
{
    match seat {
        Ok(seat) => AnsweredSeat::Spent(seat),
        Err(admission) => AnsweredSeat::None(admission),
    }
}

/// What was answered of a session that stands there, and takes up no more requests.
fn answered_by<W: Write, G: Gate, L: Run>(
    standing: StandingOf<L>,
    output: Output<W, G>,
    ring: Consumer<Request>,
) -> Answered<W, L>
    ensures is { result ≡ answered_of output ring standing }
    ensures let_through { G.is_open ≡ true → result.writer.log.refusals ≡ 0 }
{
    let (seat, end, last) = match standing {
        Standing::Ready(Stage::Opening(admission)) => (AnsweredSeat::None(admission), None, None),
        Standing::Ready(Stage::Ready(seat)) => (AnsweredSeat::Live(seat), None, None),
        Standing::Waits(seat) => (AnsweredSeat::Live(seat), None, None),
        Standing::GivenUp(seat) => (AnsweredSeat::Spent(seat), None, None),
        Standing::Over(left) => (seat_of(left.seat), Some(left.end), left.last),
    };
    let (answers, writer) = output.into_parts(last);
    Answered {
        seat,
        answers,
        end,
        ring,
        writer,
    }
}

/// Answers the requests that a ring gives, which another thread reads: that one wakes this one by the note, and says there when it reads
/// no more. Nothing was taken from the ring before. It ends of itself as a session does, and else once the note says so and the ring is
/// empty, or the kernel has given up a call; then the seat is not hung up. The gate knows the session by its number. What is known of the
/// run's history goes on from the front that is given, and is handed back.
pub fn answer<Rt: Wait, W: Write + Connection + Drop, G: Gate, L: Run, K: KernelOf<L>>(
    rt: &Rt,
    alloc: Global,
    ring: Consumer<Request>,
    note: &Note,
    writer: W,
    kernel: &K,
    front: Front<L>,
    admission: AdmissionTo<L>,
    session: u64,
    gate: G,
) -> (Answered<W, L>, Front<L>)
    requires fresh { received ring ≡ [] }
    ensures ring { SameConsumer ring result.0.ring }
    ensures answers { Since result.1 (λ h. AnswersRing (K.says h) G.is_open (W.contents writer) result.0) }
    ensures shut { IsShutAtItsEnd W.was_shut result.0.writer result.0.end_is }
{
    let mut output = match Output::new(alloc, writer, session, gate) {
        Ok(output) => output,
        Err(writer) => {
            note.none_opened(rt);
            writer.shut();
            let answered = Answered {
                seat: AnsweredSeat::None(admission),
                answers: Vec::new(alloc),
                end: Some(End::NoMemory),
                ring,
                writer: LoggedWriter::new(writer),
            };
            return (answered, front);
        }
    };
    let (mut ring, mut front) = (ring, front);
    let opening = Standing::Ready(Stage::Opening(admission));
    let standing = answer_all(
        rt,
        note,
        kernel,
        &mut front,
        &mut ring,
        &mut output,
        opening,
    );
    note.none_opened(rt);
    (answered_by(standing, output, ring), front)
}
