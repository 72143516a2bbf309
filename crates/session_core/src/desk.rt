//! The desk of a session: what answers its requests, whichever of its two threads holds it.

ghost use Rattle.std.specs.Prelude.{◌≡◌, ◌∷◌, ◌++◌, List, Some, true, [], length};
ghost use Rattle.rtrb.specs.Ring.{received, known_items, SameConsumer};
ghost use Rattle.call_types.specs.declared.act.Record.{Record};
ghost use Rattle.call_types.specs.declared.request.Request.{Request};
ghost use Rattle.run_history.specs.Fronts.{Grows, Since};
ghost use Rattle.session_core.specs.Proved.Losing.{IsToldOf, is_opening, ready_process};
ghost use Rattle.session_core.specs.Proved.Desk.{EndsOn, LeftBy, SentIfReady, StandsBy, StandsOn, TurnsOn, attended_by};
ghost use Rattle.session_core.specs.Proved.Turns.{turn_of};
ghost use Rattle.session_core.specs.Proved.Saying.{IsReadingEnd, OverSaid};
ghost use Rattle.session_core.specs.declared.stage.Stage.TheVariants as stages;
ghost use Rattle.session_core.specs.declared.stage.Standing.TheVariants as standings;

use crate::closing::close_session;
use crate::connection::Connection;
use crate::gate::Gate;
use crate::note::Note;
use crate::output::Output;
use crate::stage::{
    Called, LeaveCause, LeftOf, Over, OverOf, Stage, StageOf, Standing, StandingOf, TurnOf,
};
use crate::turns::{take_at, take_first, turn_of, wait_once};
use call_types::request::Request;
use rtrb::Consumer;
use run_history::front::Front;
use std::io::Write;
use std::marker::{Brand, Model, PhantomData};
use std::sync::Wait;
use system_lock::kernel::{AdmissionTo, KernelOf};
use system_lock::run::Run;
use system_lock::run_seat::RunSeat;
use system_lock::watch::Marked;

/// Which session it is: the end of its ring that gives requests, and what its writer held at the start.
pub(crate) trait Naming {
    ghost use Rattle.std.specs.Prelude.{ℕ, List, Option};
    ghost use Rattle.session_core.specs.Answering.{TakingEnd};

    ghost ring: { Option TakingEnd };

    ghost base: { Option (List ℕ) };
}

impl Naming for Brand {
    ghost use Rattle.std.specs.Prelude.{None};

    ghost ring = { None };

    ghost base = { None };
}

/// What answers the requests of a session: the end of the ring that gives them, the answers, and where the session stands. Its type
/// names the session and its kernel.
#[derive(Drop)]
pub(crate) struct Desk<D: Naming, W: Write + Connection, G: Gate, L: Run, K: KernelOf<L>> {
    pub(crate) consumer: Consumer<Request>,
    pub(crate) output: Output<W, G>,
    /// What is known of the history of the run.
    pub(crate) front: Front<L>,
    /// It is taken away only while it changes.
    pub(crate) standing: Option<StandingOf<L>>,
    session: PhantomData<D>,
    kernel: PhantomData<K>,
}

impl<D: Naming, W: Write + Connection, G: Gate, L: Run, K: KernelOf<L>> Model
    for Desk<D, W, G, L, K> {
    ghost use Rattle.rtrb.specs.Ring.{received};
    ghost use Rattle.session_core.specs.DeskState.{DeskState};
    ghost use Rattle.session_core.specs.Proved.Desk.{IsRingOf, StandsThere};

    ghost Value = { DeskState };

    ghost view = { λ d. record { ring = d.consumer; output_is = d.output; standing = d.standing } };

    ghost invariant = { λ d. IsRingOf D.ring d.consumer × StandsThere d.front K.says W.was_shut D.base (received d.consumer) d.output d.standing };
}

/// Closes a session that is over, and shuts its connection.
fn close_and_shut<Rt: Wait, W: Write + Connection, G: Gate, L: Run, K: KernelOf<L>>(
    rt: &Rt,
    output: &mut Output<W, G>,
    kernel: &K,
    front: &mut Front<L>,
    over: OverOf<L>,
) -> LeftOf<L>
    ensures left { Since front.new (λ h. OverSaid (K.says h) over → LeftBy (K.says h) output.old over output.new result) }
    ensures shut { W.was_shut output.new.sink.contents }
    ensures grows { Grows front.old front.new }
{
    let left = close_session(rt, output, kernel, front, over);
    output.shut();
    left
}

/// Where a session stands after a turn. One that is over is closed now.
fn stand<Rt: Wait, W: Write + Connection, G: Gate, L: Run, K: KernelOf<L>>(
    rt: &Rt,
    output: &mut Output<W, G>,
    kernel: &K,
    front: &mut Front<L>,
    turn: TurnOf<L>,
) -> StandingOf<L>
    ensures stands { Since front.new (λ h. StandsBy (K.says h) W.was_shut output.old turn output.new result) }
    ensures grows { Grows front.old front.new }
{
    match turn {
        Standing::Ready(stage) => Standing::Ready(stage),
        Standing::Waits(seat) => Standing::Waits(seat),
        Standing::GivenUp(seat) => Standing::GivenUp(seat),
        Standing::Over(over) => Standing::Over(close_and_shut(rt, output, kernel, front, over)),
    }
}

/// Takes up what the ring holds at the seat of a session, until it is empty, a call waits or the session is over. The seat
/// is lent meanwhile, so that no request moves it.
fn take_calls<Rt: Wait, W: Write + Connection, G: Gate, L: Run, K: KernelOf<L>>(
    rt: &Rt,
    kernel: &K,
    front: &mut Front<L>,
    consumer: &mut Consumer<Request>,
    output: &mut Output<W, G>,
    seat: &mut RunSeat<L>,
) -> Called
    ensures ring { SameConsumer consumer.old consumer.new }
    ensures turns { TurnsOn front.new K.says (received consumer.old) output.old (stages.Ready seat.old) (received consumer.new) output.new (turn_of seat.new result) }
    ensures grows { Grows front.old front.new }
{
    for _ in rt.forever() {
        let request = match consumer.pop() {
            Ok(request) => request,
            Err(_) => return Called::Goes,
        };
        match take_at(rt, output, kernel, front, seat, request) {
            Called::Goes => {}
            called => return called,
        }
    }
    unreachable!()
}

/// Takes up what the ring holds, if a request may be taken up: until it is empty, a call waits or the session is over.
pub(crate) fn take_ready<Rt: Wait, W: Write + Connection, G: Gate, L: Run, K: KernelOf<L>>(
    rt: &Rt,
    note: &Note,
    kernel: &K,
    front: &mut Front<L>,
    consumer: &mut Consumer<Request>,
    output: &mut Output<W, G>,
    standing: StandingOf<L>,
) -> StandingOf<L>
    ensures ring { SameConsumer consumer.old consumer.new }
    ensures stands { StandsOn front.new K.says W.was_shut (received consumer.old) output.old standing (received consumer.new) output.new result }
    ensures grows { Grows front.old front.new }
{
    let mut standing = standing;
    for _ in rt.forever() {
        standing = match standing {
            Standing::Ready(Stage::Ready(seat)) => {
                let mut seat = seat;
                let called = take_calls(rt, kernel, front, consumer, output, &mut seat);
                return stand(rt, output, kernel, front, turn_of(seat, called));
            }
            Standing::Ready(Stage::Opening(admission)) => {
                let request = match consumer.pop() {
                    Ok(request) => request,
                    Err(_) => return Standing::Ready(Stage::Opening(admission)),
                };
                let turn = take_first(rt, note, output, kernel, front, admission, request);
                stand(rt, output, kernel, front, turn)
            }
            other => return other,
        };
    }
    unreachable!()
}

/// Writes the answers of a session, if a request may be taken up.
pub(crate) fn send_ready<Rt: Wait, W: Write + Connection, G: Gate, L: Run, K: KernelOf<L>>(
    rt: &Rt,
    kernel: &K,
    front: &mut Front<L>,
    output: &mut Output<W, G>,
    standing: StandingOf<L>,
) -> StandingOf<L>
    ensures stands { (taken : List Request) → StandsOn front.new K.says W.was_shut taken output.old standing taken output.new result }
    ensures sent { SentIfReady output.new result }
    ensures grows { Grows front.old front.new }
{
    match standing {
        Standing::Ready(stage) => match output.flush() {
            Ok(()) => Standing::Ready(stage),
            Err(_) => Standing::Over(close_and_shut(
                rt,
                output,
                kernel,
                front,
                Over::Unwritten(stage),
            )),
        },
        other => other,
    }
}

/// Waits until a call goes on.
pub(crate) fn wait_on<Rt: Wait, W: Write + Connection, G: Gate, L: Run, K: KernelOf<L>>(
    rt: &Rt,
    kernel: &K,
    front: &mut Front<L>,
    output: &mut Output<W, G>,
    seat: RunSeat<L>,
) -> StandingOf<L>
    ensures stands { (taken : List Request) → StandsOn front.new K.says W.was_shut taken output.old (standings.Waits seat) taken output.new result }
    ensures grows { Grows front.old front.new }
{
    let turn = wait_once(rt, output, kernel, front, seat);
    stand(rt, output, kernel, front, turn)
}

/// Waits until a call goes on, where one waits.
fn wait_ready<Rt: Wait, W: Write + Connection, G: Gate, L: Run, K: KernelOf<L>>(
    rt: &Rt,
    kernel: &K,
    front: &mut Front<L>,
    output: &mut Output<W, G>,
    standing: StandingOf<L>,
) -> StandingOf<L>
    ensures stands { (taken : List Request) → StandsOn front.new K.says W.was_shut taken output.old standing taken output.new result }
    ensures grows { Grows front.old front.new }
{
    match standing {
        Standing::Waits(seat) => wait_on(rt, kernel, front, output, seat),
        other => other,
    }
}

/// Tells that the connection of a process is lost, if there is one. What it gives shows that this was told.
pub(crate) fn tell_lost<Rt: Wait, L: Run, K: KernelOf<L>>(
    rt: &Rt,
    kernel: &K,
    process: Option<u32>,
) -> Option<Marked>
    ensures { IsToldOf K.marks process result }
{
    match process {
        Some(process) => Some(kernel.mark_lost(rt, process)),
        None => None,
    }
}

/// The process of a session at which a request may be taken up, if there is one.
fn ready_process<L: Run>(standing: &StandingOf<L>) -> Option<u32>
    ensures { result ≡ ready_process standing.now }
{
    match standing {
        Standing::Ready(Stage::Ready(seat)) => Some(seat.pid()),
        _ => None,
    }
}

/// Takes up a request when no more is read. A process that it opens has lost its connection already: that is told, and what shows it is given.
fn take_late<Rt: Wait, W: Write + Connection, G: Gate, L: Run, K: KernelOf<L>>(
    rt: &Rt,
    note: &Note,
    kernel: &K,
    front: &mut Front<L>,
    output: &mut Output<W, G>,
    stage: StageOf<L>,
    request: Request,
) -> (StandingOf<L>, Option<Marked>)
    ensures stands { (l : List Request) → StandsOn front.new K.says W.was_shut l output.old (standings.Ready stage) (l ++ request ∷ []) output.new result.0 }
    ensures told { is_opening stage ≡ true → IsToldOf K.marks (ready_process result.0) result.1 }
    ensures grows { Grows front.old front.new }
{
    match stage {
        Stage::Ready(seat) => {
            let mut seat = seat;
            let called = take_at(rt, output, kernel, front, &mut seat, request);
            (
                stand(rt, output, kernel, front, turn_of(seat, called)),
                None,
            )
        }
        Stage::Opening(admission) => {
            let turn = take_first(rt, note, output, kernel, front, admission, request);
            let standing = stand(rt, output, kernel, front, turn);
            let told = tell_lost(rt, kernel, ready_process(&standing));
            (standing, told)
        }
    }
}

/// Answers the `count` requests that are still in the ring, once both its ends are in one thread. Then it closes the
/// session, for the reason that ended its reads.
pub(crate) fn answer_rest<Rt: Wait, W: Write + Connection, G: Gate, L: Run, K: KernelOf<L>>(
    rt: &Rt,
    note: &Note,
    kernel: &K,
    front: &mut Front<L>,
    consumer: &mut Consumer<Request>,
    output: &mut Output<W, G>,
    standing: StandingOf<L>,
    count: usize,
    why: LeaveCause,
) -> LeftOf<L>
    requires count { length (known_items consumer.old) ≡ count }
    requires reading { IsReadingEnd why }
    ensures ends { EndsOn front.new K.says W.was_shut (received consumer.old) (known_items consumer.old) why output.old standing output.new result }
    ensures grows { Grows front.old front.new }
{
    let mut standing = standing;
    let mut count = count;
    for _ in rt.forever() {
        standing = match standing {
            Standing::Ready(stage) => {
                if count == 0 {
                    return close_and_shut(rt, output, kernel, front, Over::Leaves { stage, why });
                }
                count -= 1;
                let (after, _told) = take_late(
                    rt,
                    note,
                    kernel,
                    front,
                    output,
                    stage,
                    consumer.pop_known(),
                );
                after
            }
            Standing::Waits(seat) => wait_on(rt, kernel, front, output, seat),
            Standing::GivenUp(seat) => return close_and_shut(
                rt,
                output,
                kernel,
                front,
                Over::GivenUp { seat, why },
            ),
            Standing::Over(left) => return left,
        };
    }
    unreachable!()
}

/// What a desk has come to.
#[derive(Clone, Copy, Debug, PartialEq, Eq)]
pub(crate) enum Attended {
    /// What the ring held is answered.
    Ready,
    /// A call waits.
    Waits,
    /// No request is taken up any more.
    Left,
}

/// What a desk has come to, by where its session stands.
fn attended_by<L: Run>(standing: &StandingOf<L>) -> Attended
    ensures { result ≡ attended_by standing.now }
{
    match standing {
        Standing::Ready(_) => Attended::Ready,
        Standing::Waits(_) => Attended::Waits,
        Standing::GivenUp(_) | Standing::Over(_) => Attended::Left,
    }
}

/// Puts back where a session stands, and says what its desk has come to.
fn put_back<L: Run>(place: &mut Option<StandingOf<L>>, standing: StandingOf<L>) -> Attended
    ensures place { place.new ≡ Some standing }
    ensures attended { result ≡ attended_by standing }
{
    let attended = attended_by(&standing);
    drop(place.replace(standing));
    attended
}

impl<D: Naming, W: Write + Connection, G: Gate, L: Run, K: KernelOf<L>> Desk<D, W, G, L, K> {
    ghost use Rattle.std.specs.Prelude.{◌≡◌, [], Some};
    ghost use Rattle.rtrb.specs.Ring.{received};
    ghost use Rattle.session_core.specs.Proved.Output.{fresh_output};

    /// A desk at which nothing was taken up.
    pub(crate) fn new(
        consumer: Consumer<Request>,
        output: Output<W, G>,
        front: Front<L>,
        admission: AdmissionTo<L>,
    ) -> Self
        requires ring { D.ring ≡ Some consumer }
        requires none { received consumer ≡ [] }
        requires fresh { output ≡ fresh_output D.base }
    {
        Desk {
            consumer,
            output,
            front,
            standing: Some(Standing::Ready(Stage::Opening(admission))),
            session: PhantomData,
            kernel: PhantomData,
        }
    }

    /// Answers what the ring holds, up to a call that waits. What is answered is written later.
    pub(crate) fn make_room<Rt: Wait>(&mut self, rt: &Rt, note: &Note, kernel: &K) -> Attended {
        let Some(standing) = self.standing.take() else {
            unreachable!()
        };
        let standing = take_ready(
            rt,
            note,
            kernel,
            &mut self.front,
            &mut self.consumer,
            &mut self.output,
            standing,
        );
        put_back(&mut self.standing, standing)
    }

    /// Answers what the ring holds, up to a call that waits, and writes it.
    pub(crate) fn attend<Rt: Wait>(&mut self, rt: &Rt, note: &Note, kernel: &K) -> Attended
        ensures { result ≡ Attended.Ready → self.new.output_is.unsent ≡ [] }
    {
        let Some(standing) = self.standing.take() else {
            unreachable!()
        };
        let standing = take_ready(
            rt,
            note,
            kernel,
            &mut self.front,
            &mut self.consumer,
            &mut self.output,
            standing,
        );
        let standing = send_ready(rt, kernel, &mut self.front, &mut self.output, standing);
        put_back(&mut self.standing, standing)
    }

    /// Writes what is answered and waits until a call goes on, where one waits.
    pub(crate) fn wait<Rt: Wait>(&mut self, rt: &Rt, kernel: &K) {
        let Some(standing) = self.standing.take() else {
            unreachable!()
        };
        let standing = wait_ready(rt, kernel, &mut self.front, &mut self.output, standing);
        put_back(&mut self.standing, standing);
    }
}
