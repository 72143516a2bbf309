//! What is recorded of an order of moves.

ghost use Rattle.std.specs.Prelude.{◌≡◌, ◌++◌, [], List, replicate, IfOk};
ghost use Rattle.call_types.specs.declared.act.Record.{Record as OneRecord};
ghost use Rattle.posix_model.specs.History.{legal, world_of};
ghost use Rattle.race_outcomes.specs.declared.position.Position.{Position as APosition};
ghost use Rattle.race_outcomes.specs.Moves.{move, moved};
ghost use Rattle.race_outcomes.specs.Orders.{Leads};
ghost use Rattle.race_outcomes.specs.Outcomes.{start_of};
ghost use Rattle.race_outcomes.specs.Witnesses.{recorded_as, records_along, IsWitness};
ghost use Rattle.race_outcomes.specs.Proved.Recorded.{RecordsMove};

use crate::position::{Answers, Going, Position, Race, answered, go_on};
use call_types::act::Record;
use call_types::outcome::Outcome;
use posix_model::world::World;
use script_text::row::Row;
use std::alloc::{AllocError, Global};

/// The record of a move, and where it leads.
#[derive(Drop)]
struct Recorded {
    one: Record,
    to: Position,
}

/// What a move is recorded as that comes to this, and where it leads.
fn record_move(
    from: Position,
    number: usize,
    actor: u32,
    row: Row<Outcome>,
    going: Going,
) -> Result<Recorded, AllocError>
    ensures { IfOk result (λ both. (both.one ≡ recorded_as actor going) × (both.to ≡ moved from.told number row going)) }
{
    let after = answered(going.resumes, &row, &going.outcome)?;
    let mut told = from.told;
    told.put(number, after);
    let one = Record {
        actor,
        act: going.act,
        outcome: going.outcome,
    };
    let to = Position {
        world: going.world,
        told,
    };
    Ok(Recorded { one, to })
}

/// What a lane was answered, once more.
fn copy_of_row(row: &Row<Outcome>) -> Result<Row<Outcome>, AllocError>
    ensures { IfOk result (λ copy. copy ≡ row.now) }
{
    row.clone()
}

/// What a move of the lane of this number is recorded as and where it leads, if it can move.
fn go_along(
    alloc: Global,
    race: &Race,
    from: Position,
    number: usize,
) -> Result<Option<Recorded>, AllocError>
    ensures { IfOk result (RecordsMove race.now.limits.bounds race.now.lanes from number) }
{
    let lane = match race.lanes.all().get(number) {
        Some(lane) => lane,
        None => return Ok(None),
    };
    let row = match from.told.get(number) {
        Some(row) => copy_of_row(row)?,
        None => return Ok(None),
    };
    match go_on(alloc, race.limits, &from.world, lane, row.len())? {
        Some(going) => Ok(Some(record_move(from, number, lane.actor, row, going)?)),
        None => Ok(None),
    }
}

/// The records of these moves, one after another, from a position on.
fn records_from(
    alloc: Global,
    race: &Race,
    start: Position,
    order: &[usize],
) -> Result<Row<Record>, AllocError>
    ensures { IfOk result (λ records. records ≡ records_along race.now.limits.bounds race.now.lanes start order.now) }
{
    let mut from = start;
    let mut records = Row::new(alloc);
    for number in order {
        match go_along(alloc, race, from, *number)? {
            Some(both) => {
                records.push(both.one)?;
                from = both.to;
            }
            None => return Ok(records),
        }
    }
    Ok(records)
}

/// No answer yet, of so many lanes.
fn nothing_told(alloc: Global, lanes: usize) -> Result<Answers, AllocError>
    ensures { IfOk result (λ told. told ≡ replicate lanes []) }
{
    let mut told = Row::new(alloc);
    for _lane in 0..lanes {
        told.push(Row::new(alloc))?;
    }
    Ok(told)
}

/// Where a race begins in a world like this one.
fn start_in(alloc: Global, race: &Race, world: &World) -> Result<Position, AllocError>
    ensures { IfOk result (λ start. start ≡ start_of race.now.lanes world.now) }
{
    let world = world.clone()?;
    let told = nothing_told(alloc, race.lanes.all().len())?;
    Ok(Position { world, told })
}

/// The records of these moves, one after another, from where a race begins in this world. An error says that memory ran out.
pub fn records_along(
    alloc: Global,
    race: &Race,
    world: &World,
    order: &[usize],
) -> Result<Row<Record>, AllocError>
    ensures exact { IfOk result (λ records. records ≡ records_along race.now.limits.bounds race.now.lanes (start_of race.now.lanes world.now) order.now) }
    ensures witness { IfOk result (λ records. (end : APosition) → Leads (move race.now.limits.bounds race.now.lanes) (start_of race.now.lanes world.now) order.now end → IsWitness race.now.limits.bounds world.now order.now end.world records) }
    ensures goes_on { IfOk result (λ records. (end : APosition) (history : List OneRecord) → Leads (move race.now.limits.bounds race.now.lanes) (start_of race.now.lanes world.now) order.now end → legal race.now.limits.bounds history → world_of race.now.limits.bounds history ≡ world.now → legal race.now.limits.bounds (history ++ records)) }
{
    let start = start_in(alloc, race, world)?;
    let records = records_from(alloc, race, start, order)?;
    Ok(records)
}
