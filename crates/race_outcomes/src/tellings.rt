//! What the calls of a race may answer, told by texts: each once, in the order of their bytes.

ghost use Rattle.std.specs.Prelude.{◌≡◌, ◌<◌, ◌↔◌, ◌++◌, ℕ, [], true, length, List, option_copied, option_to_list, IfOk, OnOk};
ghost use Rattle.std.specs.List.{All, Contains};
ghost use Rattle.std.specs.List.Sorted.{IsStrictlySortedBy};
ghost use Rattle.std.specs.Ordering.{nat_cmp};
ghost use Rattle.std.specs.Cmp.Lexicographic.{slice_cmp};
ghost use Rattle.posix_model.specs.declared.world.World.{World as AWorld};
ghost use Rattle.call_types.specs.Writing.{Appends};
ghost use Rattle.script_text.specs.Answers.{answer_text, answers_text};
ghost use Rattle.race_outcomes.specs.Setups.{lanes_of};
ghost use Rattle.race_outcomes.specs.declared.tellings.Told.{Told as ATold};
ghost use Rattle.race_outcomes.specs.Moves.{move};
ghost use Rattle.race_outcomes.specs.Search.{EndsAt, IsExplored};
ghost use Rattle.race_outcomes.specs.Outcomes.{start_of};
ghost use Rattle.race_outcomes.specs.Tellings.{made_by, IsAsked, Agrees, AreTold, IsToldAt, texts};
ghost use Rattle.race_outcomes.specs.Proved.Tellings.{seats_from, answer_at, answers_at, SaysOrNot, SaidAll};

use crate::lanes::{Lane, place_of};
use crate::position::{Answers, Race};
use crate::positions::Positions;
use call_types::outcome::Outcome;
use script_text::answers::write_answer;
use script_text::races::RaceCall;
use script_text::row::Row;
use std::alloc::{AllocError, Global};
use std::cmp::Ordering;

/// What the calls may answer, and an end where they did. Two are compared by their texts alone.
#[derive(Drop)]
pub struct Told {
    /// The answers of all calls, in the order of their lines.
    pub text: Vec<u8>,
    /// The place of the end among the positions that were met.
    pub place: usize,
}

impl PartialEq for Told {
    ghost use Rattle.std.specs.Prelude.{nat_eq};
    ghost use Rattle.std.specs.Cmp.{partial_equiv_from_equiv, on_equiv};
    ghost use Rattle.std.specs.Cmp.Lexicographic.{pointwise, nat_list_eq_equiv};

    ghost eq = { λ x y. pointwise nat_eq x.text.items y.text.items };

    ghost laws = { partial_equiv_from_equiv (on_equiv (λ t. t.text.items) nat_list_eq_equiv) };

    fn eq(&self, other: &Told) -> bool {
        self.text.as_slice() == other.text.as_slice()
    }
}

impl Eq for Told {
    ghost use Rattle.std.specs.Cmp.{on_equiv};
    ghost use Rattle.std.specs.Cmp.Lexicographic.{nat_list_eq_equiv};

    ghost laws = { on_equiv (λ t. t.text.items) nat_list_eq_equiv };
}

impl PartialOrd for Told {
    ghost use Rattle.std.specs.Prelude.{Some};
    ghost use Rattle.std.specs.Ordering.{nat_cmp};
    ghost use Rattle.std.specs.Cmp.{on_po};
    ghost use Rattle.std.specs.Cmp.Lexicographic.{slice_cmp, texts_po};

    ghost partial_cmp = { λ x y. Some (slice_cmp nat_cmp x.text.items y.text.items) };

    ghost laws = { on_po (λ t. t.text.items) texts_po };

    fn partial_cmp(&self, other: &Told) -> Option<Ordering> {
        Some(self.cmp(other))
    }
}

impl Ord for Told {
    ghost use Rattle.std.specs.Prelude.{refl};
    ghost use Rattle.std.specs.Ordering.{nat_cmp};
    ghost use Rattle.std.specs.Cmp.{on_total};
    ghost use Rattle.std.specs.Cmp.Lexicographic.{slice_cmp, nat_list_cmp_total, texts_ties};

    ghost cmp = { λ x y. slice_cmp nat_cmp x.text.items y.text.items };

    ghost total = { on_total (λ t. t.text.items) nat_list_cmp_total };

    ghost matches_partial_cmp = { λ x y. refl };

    ghost matches_eq = { λ x y. texts_ties x.text.items y.text.items };

    fn cmp(&self, other: &Told) -> Ordering {
        self.text.as_slice().cmp(&other.text.as_slice())
    }
}

/// Where the answer of a call stands: the place of the lane of its process, if there is one, and how many calls of that process
/// come before.
#[derive(Clone, Copy, Debug, PartialEq, Eq)]
struct Seat {
    lane: Option<usize>,
    place: usize,
}

/// How many of these calls are of a process.
fn made_by(process: u32, calls: &[RaceCall]) -> usize
    ensures { result ≡ made_by process calls.now }
{
    calls.iter().filter(|call| call.process == process).count()
}

/// Where the answers of all calls stand.
fn seats_of(alloc: Global, lanes: &[Lane], calls: &[RaceCall]) -> Result<Row<Seat>, AllocError>
    ensures { IfOk result (λ seats. seats ≡ seats_from lanes.now [] calls.now) }
{
    let mut seats = Row::new(alloc);
    for index in 0..calls.len() {
        let process = calls[index].process;
        let lane = place_of(lanes, process);
        let place = made_by(process, &calls[..index]);
        seats.push(Seat { lane, place })?;
    }
    Ok(seats)
}

/// The answer at a seat, if there is one.
fn answer_at(told: &Answers, seat: Seat) -> Option<&Outcome>
    ensures { option_copied result ≡ answer_at told.now seat }
{
    match seat.lane {
        Some(lane) => match told.get(lane) {
            Some(row) => row.get(seat.place),
            None => None,
        },
        None => None,
    }
}

/// Appends the answer at a seat.
fn write_seat(out: &mut Vec<u8>, told: &Answers, seat: Seat) -> Result<(), AllocError>
    ensures { Appends result out.old.items out.new.items (answer_text (answer_at told.now seat)) }
{
    write_answer(out, answer_at(told, seat))
}

/// Appends the answers at seats, with a comma and a space between two of them.
fn write_seats(out: &mut Vec<u8>, told: &Answers, seats: &[Seat]) -> Result<(), AllocError>
    ensures { OnOk result (out.new.items ≡ out.old.items ++ answers_text (answers_at told.now seats.now)) }
{
    if let Some((first, rest)) = seats.split_first() {
        write_seat(out, told, *first)?;
        for seat in rest {
            out.extend_from_slice(b", ")?;
            write_seat(out, told, *seat)?;
        }
    }
    Ok(())
}

/// Whether an answer is written as its call asks for it, if it asks.
fn is_asked(alloc: Global, call: &RaceCall, answer: Option<&Outcome>) -> Result<bool, AllocError>
    ensures { IfOk result (λ yes. (yes ≡ true) ↔ IsAsked call.now.asked (option_copied answer.entry)) }
{
    match &call.asked {
        Some(text) => {
            let mut written = Vec::new(alloc);
            write_answer(&mut written, answer)?;
            Ok(written.as_slice() == text.all())
        }
        None => Ok(true),
    }
}

/// Whether each answer is written as its call asks for it, if it asks.
fn agrees(
    alloc: Global,
    calls: &[RaceCall],
    seats: &[Seat],
    told: &Answers,
) -> Result<bool, AllocError>
    ensures { IfOk result (λ yes. (yes ≡ true) ↔ Agrees calls.now (answers_at told.now seats.now)) }
{
    let mut left = calls;
    let mut right = seats;
    while let Some((call, rest)) = left.split_first() {
        match right.split_first() {
            Some((seat, behind)) => {
                if !is_asked(alloc, call, answer_at(told, *seat))? {
                    return Ok(false);
                }
                right = behind;
            }
            None => return Ok(true),
        }
        left = rest;
    }
    Ok(true)
}

/// What the position at a place tells, if it agrees with what is asked for.
fn told_at(
    alloc: Global,
    calls: &[RaceCall],
    seats: &[Seat],
    explored: &Positions,
    place: usize,
) -> Result<Option<Told>, AllocError>
    requires { place < length explored.now.met }
    ensures { IfOk result (SaysOrNot calls.now seats.now explored.now.met place) }
{
    let told = explored.told(alloc, place)?;
    if !agrees(alloc, calls, seats, &told)? {
        return Ok(None);
    }
    let mut text = Vec::new(alloc);
    write_seats(&mut text, &told, seats)?;
    Ok(Some(Told { text, place }))
}

/// Adds what is told, if anything is.
fn add_told(all: &mut Vec<Told>, told: Option<Told>) -> Result<(), AllocError>
    ensures { OnOk result (all.new.items ≡ all.old.items ++ option_to_list told) }
{
    if let Some(told) = told {
        all.push(told)?;
    }
    Ok(())
}

/// What the positions at these places tell that agree with what is asked for.
fn told_all(
    alloc: Global,
    calls: &[RaceCall],
    seats: &[Seat],
    explored: &Positions,
    ends: &[usize],
) -> Result<Vec<Told>, AllocError>
    requires { (place : ℕ) → Contains ends.now place → place < length explored.now.met }
    ensures { IfOk result (λ told. SaidAll calls.now seats.now explored.now.met ends.now told.items) }
{
    let mut all = Vec::new(alloc);
    for index in 0..ends.len() {
        let told = told_at(alloc, calls, seats, explored, ends[index])?;
        add_told(&mut all, told)?;
    }
    Ok(all)
}

/// Puts what is told in the order of the texts, and leaves each text once.
fn put_in_order(told: &mut Vec<Told>)
    ensures sound { (t : ATold) → Contains told.new.items t → Contains told.old.items t }
    ensures kept { (text : List ℕ) → Contains (texts told.old.items) text → Contains (texts told.new.items) text }
    ensures rising { IsStrictlySortedBy (slice_cmp nat_cmp) (texts told.new.items) }
{
    told.sort_unstable();
    told.dedup();
}

/// All that the calls may answer, as they are asked to: each text once, in the order of their bytes, with an end where they did.
/// An error says that memory ran out.
pub fn tellings(
    alloc: Global,
    race: &Race,
    calls: &[RaceCall],
    explored: &Positions,
) -> Result<Vec<Told>, AllocError>
    requires lanes { race.now.lanes ≡ lanes_of calls.now }
    requires ends { (place : ℕ) → Contains explored.now.ends place → EndsAt (move race.now.limits.bounds race.now.lanes) explored.now.met place }
    ensures all { IfOk result (λ told. (world : AWorld) → IsExplored (move race.now.limits.bounds race.now.lanes) (start_of race.now.lanes world) explored.now → AreTold race.now.limits.bounds calls.now world (texts told.items)) }
    ensures places { IfOk result (λ told. All (IsToldAt (move race.now.limits.bounds race.now.lanes) explored.now.met calls.now) told.items) }
{
    let seats = seats_of(alloc, race.lanes.all(), calls)?;
    let mut told = told_all(alloc, calls, seats.all(), explored, explored.ends())?;
    put_in_order(&mut told);
    Ok(told)
}
