//! What comes before a race, and the lanes of its calls.

ghost use Rattle.std.specs.Prelude.{◌≡◌, length, IfOk};
ghost use Rattle.posix_model.specs.History.{legal, world_of};
ghost use Rattle.race_outcomes.specs.Setups.{asked_in, ended, made, one_more, set_up, Returns, is_attached, absent, lanes_of};

use crate::lanes::Lanes;
use call_types::act::{Act, Record, ScriptAct};
use call_types::limits::Limits;
use call_types::outcome::Outcome;
use plain_world::history::empty_world;
use plain_world::step::{StepFault, plain_step};
use posix_model::world::World;
use script_text::races::{RaceCall, SetupAct};
use script_text::row::Row;
use std::alloc::{AllocError, Global};

/// What the acts before a race left: the world, and the record of each of them.
#[derive(Drop)]
pub struct Setup {
    pub world: World,
    pub records: Row<Record>,
}

/// Why a race isn't begun. Lines are counted from 1.
#[derive(Clone, Copy, Debug, PartialEq, Eq)]
pub enum Unready {
    /// The rules record no such act there: a call of a process that is not live and attached, a resume of one that waits in
    /// no call that is ready, an exit of a process that is not attached. Nor may the run be closed before a race.
    Refused { line: usize },
    /// A call of this line waits, or goes on waiting: what comes before a race has to end.
    Waits { line: usize },
    /// Memory ran out, as it does where there are more processes than numbers of them.
    NoMemory,
}

impl From<AllocError> for Unready {
    ghost use Rattle.std.specs.Prelude.{◌≡◌};
    ghost use Rattle.race_outcomes.specs.declared.setup.Unready.TheVariants.{NoMemory};

    ghost from_gives = { λ _ fault. fault ≡ NoMemory };

    fn from(_error: AllocError) -> Self {
        Unready::NoMemory
    }
}

/// An act, and who makes it.
#[derive(Drop)]
pub struct ActorsAct {
    pub actor: u32,
    pub act: Act,
}

/// The number that the next process will have.
fn next_process(world: &World) -> Result<u32, AllocError>
    ensures { IfOk result (λ number. number ≡ length world.now.processes) }
{
    let number = world.processes.len();
    if number > u32::MAX as usize {
        return Err(AllocError);
    }
    Ok(number as u32)
}

/// Whether a process is there and attached.
fn is_attached(world: &World, process: u32) -> bool
    ensures { result ≡ is_attached world.now process }
{
    match world.processes.get(process as usize) {
        Some(process) => process.attached,
        None => false,
    }
}

/// Who makes an act of a script in this world, and what it is there. The closing of the run is none.
fn asked_in(world: &World, act: &ScriptAct) -> Result<Option<ActorsAct>, AllocError>
    ensures { IfOk result (λ asked. asked ≡ asked_in world.now act.now) }
{
    let (actor, act) = match act {
        ScriptAct::Join => (next_process(world)?, Act::Join),
        ScriptAct::Attach { process } => (*process, Act::Attach),
        ScriptAct::Call { process, call } => (*process, Act::Call(call.clone()?)),
        ScriptAct::Resume { process } => (*process, Act::Resume),
        ScriptAct::Exit { process } if is_attached(world, *process) => (*process, Act::Exit),
        ScriptAct::Exit { .. } | ScriptAct::CloseRun => return Ok(None),
    };
    Ok(Some(ActorsAct { actor, act }))
}

/// What was set up after an act that came to this, if the act ended.
fn ended(
    setup: Setup,
    line: usize,
    asked: ActorsAct,
    world: World,
    outcome: Outcome,
) -> Result<Setup, Unready>
    ensures { Returns (ended setup line asked world outcome) result }
{
    match outcome {
        Outcome::Reply(reply) => {
            let mut records = setup.records;
            records.push(Record {
                actor: asked.actor,
                act: asked.act,
                outcome: Outcome::Reply(reply),
            })?;
            Ok(Setup { world, records })
        }
        Outcome::Parked { .. } | Outcome::Part { .. } => Err(Unready::Waits { line }),
    }
}

/// What was set up after the act of a line, if it is one.
fn made(
    alloc: Global,
    limits: Limits,
    setup: Setup,
    line: usize,
    asked: Option<ActorsAct>,
) -> Result<Setup, Unready>
    ensures { Returns (made limits.bounds setup line asked) result }
{
    let asked = match asked {
        Some(asked) => asked,
        None => return Err(Unready::Refused { line }),
    };
    match plain_step(alloc, limits, &setup.world, asked.actor, &asked.act) {
        Ok((world, outcome)) => ended(setup, line, asked, world, outcome),
        Err(StepFault::NotReady) => Err(Unready::Refused { line }),
        Err(StepFault::NoMemory) => Err(Unready::NoMemory),
    }
}

/// What was set up after one more act.
fn one_more(alloc: Global, limits: Limits, setup: Setup, act: &SetupAct) -> Result<Setup, Unready>
    ensures { Returns (one_more limits.bounds setup act.now) result }
{
    let asked = asked_in(&setup.world, &act.act)?;
    made(alloc, limits, setup, act.line, asked)
}

/// What these acts set up, one after another, from the empty world on; or the first that doesn't end.
pub fn set_up(alloc: Global, limits: Limits, acts: &[SetupAct]) -> Result<Setup, Unready>
    ensures exact { Returns (set_up limits.bounds acts.now) result }
    ensures legal { IfOk result (λ setup. legal limits.bounds setup.records) }
    ensures world { IfOk result (λ setup. setup.world ≡ world_of limits.bounds setup.records) }
{
    let mut setup = Setup {
        world: empty_world(alloc),
        records: Row::new(alloc),
    };
    for act in acts {
        setup = one_more(alloc, limits, setup, act)?;
    }
    Ok(setup)
}

/// The line of the first call of a process that is not attached.
pub fn absent(world: &World, calls: &[RaceCall]) -> Option<usize>
    ensures { result ≡ absent world.now calls.now }
{
    for call in calls {
        if !is_attached(world, call.process) {
            return Some(call.line);
        }
    }
    None
}

/// The calls, a lane for each process, in the order of their first calls.
pub fn lanes_of(alloc: Global, calls: &[RaceCall]) -> Result<Lanes, AllocError>
    ensures { IfOk result (λ lanes. lanes ≡ lanes_of calls.now) }
{
    let mut lanes = Lanes::new(alloc);
    for call in calls {
        lanes.add_call(alloc, call.process, call.call.clone()?)?;
    }
    Ok(lanes)
}
