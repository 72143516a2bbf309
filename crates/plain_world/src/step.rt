ghost use Rattle.std.specs.Prelude.{◌≡◌, ◌↔◌, true, is_some, Some, None, Err, IfOk, OnErr};
ghost use Rattle.posix_model.specs.Proved.Fits.{IsProper};
ghost use Rattle.posix_model.specs.Step.{given, stepped, step};

use crate::make::make;
use crate::sweep::sweep;
use call_types::act::{Act, HOUSE};
use call_types::limits::{Bounds, Limits};
use call_types::outcome::Outcome;
use calls::decide::{can_call, decide};
use calls::given::given;
use calls::resume::is_ready;
use posix_model::change::Decided;
use posix_model::laws::acts_are_sound;
use posix_model::reader::WorldReader;
use posix_model::world::World;
use std::alloc::{AllocError, Global};

/// Why there was no step. The world is as it was.
#[derive(Clone, Copy, Debug, PartialEq, Eq)]
pub enum StepFault {
    /// The rules record no such act here: a join under another number than the next, a call of a process that is not live
    /// and attached or that waits in one, a resume of one that waits in no call that is ready, an exit of a process that is
    /// not live, and a closing by another than the house or of a run that is closed.
    NotReady,
    /// Memory ran out.
    NoMemory,
}

impl From<AllocError> for StepFault {
    ghost use Rattle.std.specs.Prelude.{◌≡◌};
    ghost use Rattle.plain_world.specs.declared.step.StepFault.TheVariants.{NoMemory};

    ghost from_gives = { λ _ fault. fault ≡ NoMemory };

    fn from(_error: AllocError) -> Self {
        StepFault::NoMemory
    }
}

/// Whether the rules record such an act here at all.
fn is_step(world: &World, bounds: Bounds, actor: usize, act: &Act) -> bool
    ensures { result ≡ is_some (step bounds world.now actor act.now) }
{
    match act {
        Act::Join => actor == world.processes.len(),
        Act::Attach => true,
        Act::Call(_) => can_call(world, actor),
        Act::Resume => is_ready(world, bounds, actor),
        Act::Exit => world.process(actor).is_some(),
        Act::CloseRun => actor == HOUSE as usize && !world.closed,
    }
}

/// Makes what was decided of an act, and sweeps. Where memory runs out the world may be changed.
fn make_step(
    alloc: Global,
    world: &mut World,
    act: &Act,
    decided: Decided,
) -> Result<Outcome, AllocError>
    requires { IsProper world.old (given act.now) decided.change }
    ensures { IfOk result (λ o. stepped world.old (given act.now) decided ≡ record { world = world.new; outcome = o }) }
{
    let Decided { outcome, change } = decided;
    make(alloc, world, given(act), change)?;
    sweep(world);
    Ok(outcome)
}

/// One step of an act that the rules record here. Where memory runs out the world may be changed.
fn take_step(
    alloc: Global,
    limits: Limits,
    world: &mut World,
    actor: usize,
    act: &Act,
) -> Result<Outcome, AllocError>
    requires { is_some (step limits.bounds world.old actor act.now) ≡ true }
    ensures { IfOk result (λ o. step limits.bounds world.old actor act.now ≡ Some (record { world = world.new; outcome = o })) }
{
    let bounds = limits.bounds();
    acts_are_sound();
    match decide(world, alloc, bounds, actor, act)? {
        Some(decided) => make_step(alloc, world, act, decided),
        None => unreachable!(),
    }
}

/// A copy of a world.
fn copy_of(world: &World) -> Result<World, AllocError>
    ensures { IfOk result (λ copy. copy ≡ world.now) }
{
    world.clone()
}

/// One step of the model, on a copy of the world.
pub fn plain_step(
    alloc: Global,
    limits: Limits,
    world: &World,
    actor: u32,
    act: &Act,
) -> Result<(World, Outcome), StepFault>
    ensures step { IfOk result (λ stepped. step limits.bounds world.now actor act.now ≡ Some (record { world = stepped.0; outcome = stepped.1 })) }
    ensures not_ready { (result ≡ Err StepFault.NotReady) ↔ (step limits.bounds world.now actor act.now ≡ None) }
{
    if !is_step(world, limits.bounds(), actor as usize, act) {
        return Err(StepFault::NotReady);
    }
    let mut after = copy_of(world)?;
    let outcome = take_step(alloc, limits, &mut after, actor as usize, act)?;
    Ok((after, outcome))
}

/// One step of the model, in place: what the act does, and the sweep after it.
pub fn step_in_place(
    alloc: Global,
    limits: Limits,
    world: &mut World,
    actor: u32,
    act: &Act,
) -> Result<Outcome, StepFault>
    ensures step { IfOk result (λ o. step limits.bounds world.old actor act.now ≡ Some (record { world = world.new; outcome = o })) }
    ensures not_ready { (result ≡ Err StepFault.NotReady) ↔ (step limits.bounds world.old actor act.now ≡ None) }
    ensures err { OnErr result (world.new ≡ world.old) }
{
    let (after, outcome) = plain_step(alloc, limits, world, actor, act)?;
    *world = after;
    Ok(outcome)
}
