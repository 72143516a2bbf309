//! Positions that were met. Worlds and rows of answers are kept once each, and a position names them by places.

ghost use Rattle.std.specs.Prelude.{◌≡◌, ◌<◌, Some, length, IfOk};
ghost use Rattle.std.specs.List.{slice_get};
ghost use Rattle.race_outcomes.specs.declared.position.Position.{Position as APosition};
ghost use Rattle.race_outcomes.specs.declared.positions.Met.{Met as AMet};
ghost use Rattle.race_outcomes.specs.Moves.{move};
ghost use Rattle.race_outcomes.specs.Search.{AreTraced, LeadsTo};
ghost use Rattle.race_outcomes.specs.Positions.{told_at, explored_of};

use crate::position::{Answers, Race};
use call_types::outcome::Outcome;
use posix_model::world::World;
use script_text::row::Row;
use std::alloc::{AllocError, Global};
use std::marker::Model;

/// A move: of the lane of this number, from the position that was met at this place.
#[derive(Clone, Copy, Debug, PartialEq, Eq)]
pub struct Move {
    pub from: usize,
    pub lane: usize,
}

/// A position that was met, and by which move. The first was met by none.
#[derive(Drop)]
pub struct Met<P> {
    pub position: P,
    pub by: Option<Move>,
}

/// All positions that are reached, the first one first, and the places of those where nothing can move.
#[derive(Drop)]
pub struct Explored<P> {
    pub met: Row<Met<P>>,
    pub ends: Row<usize>,
}

/// A position: the place of its world, and of each lane the place of its row of answers.
#[derive(Clone, Drop)]
pub struct Spot {
    pub world: usize,
    pub rows: Row<usize>,
}

/// All positions that are reached. Contracts see them whole, whatever they share.
#[derive(Drop)]
pub struct Positions {
    worlds: Row<World>,
    rows: Row<Row<Outcome>>,
    found: Explored<Spot>,
}

impl Model for Positions {
    ghost use Rattle.race_outcomes.specs.declared.position.Position.{Position as APosition};
    ghost use Rattle.race_outcomes.specs.declared.positions.Explored.{Explored as AllExplored};
    ghost use Rattle.race_outcomes.specs.Positions.{explored_of};

    ghost Value = { AllExplored APosition };

    ghost view = { λ all. explored_of all.worlds all.rows all.found };
}

/// The rows of answers at places. Past the last one there are no answers.
fn rows_at(alloc: Global, rows: &Row<Row<Outcome>>, places: &[usize]) -> Result<Answers, AllocError>
    ensures { IfOk result (λ told. told ≡ told_at rows.now places.now) }
{
    let mut told = Row::new(alloc);
    for place in places {
        match rows.get(*place) {
            Some(row) => told.push(row.clone()?)?,
            None => told.push(Row::new(alloc))?,
        }
    }
    Ok(told)
}

impl Positions {
    /// Positions that name these worlds and rows by places.
    pub(crate) fn new(worlds: Row<World>, rows: Row<Row<Outcome>>, found: Explored<Spot>) -> Self
        ensures { result ≡ explored_of worlds rows found }
    {
        Positions {
            worlds,
            rows,
            found,
        }
    }

    /// How many there are.
    pub fn len(&self) -> usize
        ensures { result ≡ length self.now.met }
    {
        self.found.met.len()
    }

    /// The places of those where nothing can move.
    pub fn ends(&self) -> &[usize]
        ensures { result.now ≡ self.now.ends }
    {
        self.found.ends.all()
    }

    /// What the calls have answered at the position that was met at a place. An error says that memory ran out.
    pub fn told(&self, alloc: Global, place: usize) -> Result<Answers, AllocError>
        requires { place < length self.now.met }
        ensures { IfOk result (λ told. (m : AMet APosition) → slice_get self.now.met place ≡ Some m → told ≡ m.position.told) }
    {
        match self.found.met.get(place) {
            Some(entry) => rows_at(alloc, &self.rows, entry.position.rows.all()),
            None => unreachable!(),
        }
    }

    /// The move by which the position at a place was met.
    fn met_by(&self, place: usize) -> Option<Move>
        requires { place < length self.now.met }
        ensures { (m : AMet APosition) → slice_get self.now.met place ≡ Some m → result ≡ m.by }
    {
        match self.found.met.get(place) {
            Some(entry) => entry.by,
            None => unreachable!(),
        }
    }

    /// An order of moves of a race that leads from the first position to the one at a place. An error says that memory ran out.
    pub fn order_to(
        &self,
        alloc: Global,
        _race: &Race,
        place: usize,
    ) -> Result<Row<usize>, AllocError>
        requires within { place < length self.now.met }
        requires traced { AreTraced (move _race.now.limits.bounds _race.now.lanes) self.now.met }
        ensures { IfOk result (LeadsTo (move _race.now.limits.bounds _race.now.lanes) self.now.met place) }
    {
        let mut order = Row::new(alloc);
        let mut at = place;
        while let Some(by) = self.met_by(at) {
            order.push(by.lane)?;
            at = by.from;
        }
        order.reverse();
        Ok(order)
    }
}
