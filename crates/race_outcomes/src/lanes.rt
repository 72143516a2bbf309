//! The calls of a race: those of each process in their order.

ghost use Rattle.std.specs.Prelude.{◌≡◌, ◌++◌, ◌∷◌, [], IfOk, OnOk, OnErr};
ghost use Rattle.race_outcomes.specs.Lanes.{AreOfDifferent, IsPlaceOf, with_call};

use call_types::call::Call;
use script_text::row::Row;
use std::alloc::{AllocError, Global};
use std::marker::Model;

/// The calls that one process makes, in their order.
#[derive(Drop)]
pub struct Lane {
    pub actor: u32,
    pub calls: Row<Call>,
}

/// Lanes of different processes, in the order of their first calls. Contracts see the list of them.
#[derive(Drop)]
pub struct Lanes {
    lanes: Vec<Lane>,
}

impl Model for Lanes {
    ghost use Rattle.std.specs.Prelude.{List};
    ghost use Rattle.race_outcomes.specs.Lanes.{AreOfDifferent};
    ghost use Rattle.race_outcomes.specs.declared.lanes.Lane.{Lane as OneLane};

    ghost Value = { List OneLane };

    ghost view = { λ all. all.lanes.items };

    ghost invariant = { λ all. AreOfDifferent all.lanes.items };
}

/// The place of the lane of a process.
pub(crate) fn place_of(lanes: &[Lane], actor: u32) -> Option<usize>
    ensures { IsPlaceOf actor lanes.now result }
{
    for (place, lane) in lanes.iter().enumerate() {
        if lane.actor == actor {
            return Some(place);
        }
    }
    None
}

/// A lane of one call.
fn lane_with(alloc: Global, actor: u32, call: Call) -> Result<Lane, AllocError>
    ensures { IfOk result (λ lane. lane ≡ record { actor = actor; calls = call ∷ [] }) }
{
    let mut calls = Row::new(alloc);
    calls.push(call)?;
    Ok(Lane { actor, calls })
}

impl Lanes {
    /// No call.
    pub fn new(alloc: Global) -> Self
        ensures { result ≡ [] }
    {
        Lanes {
            lanes: Vec::new(alloc),
        }
    }

    /// One more call of a process, after those that it has. An error says that memory ran out, and that nothing changed.
    pub fn add_call(&mut self, alloc: Global, actor: u32, call: Call) -> Result<(), AllocError>
        ensures ok { OnOk result (self.new ≡ with_call actor call self.old) }
        ensures err { OnErr result (self.new ≡ self.old) }
    {
        match place_of(self.lanes.as_slice(), actor) {
            Some(place) => self.lanes[place].calls.push(call)?,
            None => {
                let lane = lane_with(alloc, actor, call)?;
                self.lanes.push(lane)?;
            }
        }
        Ok(())
    }

    /// The lanes.
    pub fn all(&self) -> &[Lane]
        ensures value { result.now ≡ self.now }
        ensures different { AreOfDifferent self.now }
    {
        self.lanes.as_slice()
    }
}
