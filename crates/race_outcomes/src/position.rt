//! Positions of a race, and the moves between them.

ghost use Rattle.std.specs.Prelude.{◌≡◌, IfOk};
ghost use Rattle.posix_model.specs.Step.{is_parked};
ghost use Rattle.slots.specs.Slots.{slot};
ghost use Rattle.race_outcomes.specs.Moves.{next_at, answered, going_on};

use crate::lanes::{Lane, Lanes};
use call_types::act::Act;
use call_types::call::Call;
use call_types::limits::Limits;
use call_types::outcome::Outcome;
use plain_world::step::{StepFault, plain_step};
use posix_model::world::World;
use script_text::row::Row;
use std::alloc::{AllocError, Global};

/// What the calls of all lanes answer: of each lane, the last outcome of each call that was begun.
pub type Answers = Row<Row<Outcome>>;

/// Where the calls of all lanes have come to.
#[derive(Clone, Drop)]
pub struct Position {
    pub world: World,
    pub told: Answers,
}

/// Calls of different processes, under these limits.
#[derive(Drop)]
pub struct Race {
    pub limits: Limits,
    pub lanes: Lanes,
}

/// Whether a process waits in a call.
pub(crate) fn is_parked(world: &World, process: usize) -> bool
    ensures { result ≡ is_parked (slot world.now.processes process) }
{
    match world.processes.get(process) {
        Some(process) => process.parked.is_some(),
        None => false,
    }
}

/// What the process of a lane does next that has begun so many of its calls, if anything is left.
fn next_at(waits: bool, lane: &Lane, begun: usize) -> Result<Option<Act>, AllocError>
    ensures { IfOk result (λ act. act ≡ next_at waits lane.now begun) }
{
    if waits {
        return Ok(Some(Act::Resume));
    }
    match lane.calls.get(begun) {
        Some(call) => Ok(Some(Act::Call(call.clone()?))),
        None => Ok(None),
    }
}

/// One more act of a lane: what it is, whether it goes on with a call, and what it comes to.
#[derive(Drop)]
pub(crate) struct Going {
    pub act: Act,
    pub resumes: bool,
    pub world: World,
    pub outcome: Outcome,
}

/// What the next act of a lane that has begun so many of its calls comes to in a world, if there is one that can be made.
pub(crate) fn go_on(
    alloc: Global,
    limits: Limits,
    world: &World,
    lane: &Lane,
    begun: usize,
) -> Result<Option<Going>, AllocError>
    ensures { IfOk result (λ going. going ≡ going_on limits.bounds world.now lane.now begun) }
{
    let resumes = is_parked(world, lane.actor as usize);
    let act = match next_at(resumes, lane, begun)? {
        Some(act) => act,
        None => return Ok(None),
    };
    match plain_step(alloc, limits, world, lane.actor, &act) {
        Ok((world, outcome)) => Ok(Some(Going {
            act,
            resumes,
            world,
            outcome,
        })),
        Err(StepFault::NotReady) => Ok(None),
        Err(StepFault::NoMemory) => Err(AllocError),
    }
}

/// The outcomes of a lane's calls after one more act of it: a resume tells a new one of the last call.
pub(crate) fn answered(
    resumes: bool,
    told: &Row<Outcome>,
    outcome: &Outcome,
) -> Result<Row<Outcome>, AllocError>
    ensures { IfOk result (λ after. after ≡ answered resumes told.now outcome.now) }
{
    let mut after = told.clone()?;
    let last = outcome.clone()?;
    if resumes {
        after.put(told.len().saturating_sub(1), last);
    } else {
        after.push(last)?;
    }
    Ok(after)
}
