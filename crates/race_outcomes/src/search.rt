//! All positions that are reached from where a race begins.

ghost use Rattle.std.specs.Prelude.{◌≡◌, ◌<◌, ◌≤◌, [], ◌∷◌, None, Some, Err, length, replicate, IfOk, OnOk};
ghost use Rattle.std.specs.List.{slice_get};
ghost use Rattle.race_outcomes.specs.declared.position.Position.{Position as APosition};
ghost use Rattle.race_outcomes.specs.declared.positions.Met.{Met as AMet};
ghost use Rattle.race_outcomes.specs.declared.positions.Spot.{Spot as ASpot};
ghost use Rattle.race_outcomes.specs.Moves.{move};
ghost use Rattle.race_outcomes.specs.Orders.{MoreOrders};
ghost use Rattle.race_outcomes.specs.Outcomes.{start_of};
ghost use Rattle.race_outcomes.specs.Positions.{met_of};
ghost use Rattle.race_outcomes.specs.Search.{IsExplored};
ghost use Rattle.race_outcomes.specs.Proved.Search.{Searched, TakesIn, TakesMove, TakesMoves, NotesEnd};
ghost use Rattle.race_outcomes.specs.Proved.Spots.{met_in, IsKept, IsWithin, GoesOn, Names, Places, LearnsWay, FindsWay, GoesTo, Moves, TakesSpot};

use crate::digest::{digest_of_places, digest_of_row, digest_of_world};
use crate::position::{Going, Race, answered, go_on};
use crate::positions::{Explored, Met, Move, Positions, Spot};
use crate::same::{Same, same_world};
use crate::table::{Entry, Table};
use call_types::outcome::Outcome;
use posix_model::world::World;
use script_text::row::Row;
use std::alloc::{AllocError, Global};

/// Why a search was given up.
#[derive(Clone, Copy, Debug, PartialEq, Eq)]
pub enum GivenUp {
    /// More positions are reached than were allowed.
    TooMany,
    /// Memory ran out.
    NoMemory,
}

impl From<AllocError> for GivenUp {
    ghost use Rattle.std.specs.Prelude.{◌≡◌};
    ghost use Rattle.race_outcomes.specs.declared.search.GivenUp.TheVariants.{NoMemory};

    ghost from_gives = { λ _ given_up. given_up ≡ NoMemory };

    fn from(_error: AllocError) -> Self {
        GivenUp::NoMemory
    }
}

/// The next act of a lane that has begun so many of its calls, in the world at a place.
#[derive(Drop)]
struct Turn {
    world: usize,
    lane: usize,
    begun: usize,
}

/// What an act comes to: the place of the world after it, whether it goes on with a call, and its outcome.
#[derive(Drop)]
struct Onward {
    world: usize,
    resumes: bool,
    outcome: Outcome,
}

/// What the next act of a lane comes to, if it can be made.
#[derive(Drop)]
struct Way {
    turn: Turn,
    to: Option<Onward>,
}

impl Entry<World> for World {
    ghost key = { λ w. w };

    fn has(&self, alloc: Global, sought: &World) -> bool {
        same_world(alloc, self, sought)
    }

    fn digest(alloc: Global, sought: &World) -> u64 {
        digest_of_world(alloc, sought)
    }
}

impl Entry<Row<Outcome>> for Row<Outcome> {
    ghost key = { λ row. row };

    fn has(&self, _alloc: Global, sought: &Row<Outcome>) -> bool {
        self.is_as(sought)
    }

    fn digest(_alloc: Global, sought: &Row<Outcome>) -> u64 {
        digest_of_row(sought)
    }
}

impl Entry<Turn> for Way {
    ghost key = { λ way. way.turn };

    fn has(&self, _alloc: Global, sought: &Turn) -> bool {
        self.turn.world == sought.world
            && self.turn.lane == sought.lane
            && self.turn.begun == sought.begun
    }

    fn digest(_alloc: Global, sought: &Turn) -> u64 {
        digest_of_places(&[sought.world, sought.lane, sought.begun])
    }
}

impl Entry<Spot> for Met<Spot> {
    ghost key = { λ met. met.position };

    fn has(&self, _alloc: Global, sought: &Spot) -> bool {
        self.position.world == sought.world && self.position.rows.all() == sought.rows.all()
    }

    fn digest(_alloc: Global, sought: &Spot) -> u64 {
        digest_of_places(&[sought.world]) ^ digest_of_places(sought.rows.all())
    }
}

/// The place of a value in a table, to which it is added unless it is there.
fn place_in<T: Entry<T> + Drop>(
    alloc: Global,
    table: &mut Table<T>,
    value: T,
) -> Result<usize, AllocError>
    ensures { IfOk result (Places T.key table.old table.new value) }
{
    let digest = T::digest(alloc, &value);
    if let Some(place) = table.find(alloc, &value, digest) {
        return Ok(place);
    }
    let place = table.len();
    table.add(digest, value)?;
    Ok(place)
}

/// What has been searched so far. Each world and each row of answers stands here once, and each act was made once.
#[derive(Drop)]
struct Search {
    worlds: Table<World>,
    rows: Table<Row<Outcome>>,
    ways: Table<Way>,
    met: Table<Met<Spot>>,
}

/// What an act comes to, by the place of its world.
fn name_world(
    alloc: Global,
    worlds: &mut Table<World>,
    going: Option<Going>,
) -> Result<Option<Onward>, AllocError>
    ensures { IfOk result (Names worlds.old worlds.new going) }
{
    match going {
        Some(going) => {
            let world = place_in(alloc, worlds, going.world)?;
            Ok(Some(Onward {
                world,
                resumes: going.resumes,
                outcome: going.outcome,
            }))
        }
        None => Ok(None),
    }
}

/// What the next act of a lane comes to in a world, if the lane is there and the act can be made.
fn going_on(
    alloc: Global,
    race: &Race,
    worlds: &Table<World>,
    turn: &Turn,
) -> Result<Option<Going>, AllocError>
    requires { turn.now.world < length worlds.now }
    ensures { IfOk result (GoesOn race.now.limits.bounds race.now.lanes worlds.now turn.now) }
{
    let world = match worlds.get(turn.world) {
        Some(world) => world,
        None => unreachable!(),
    };
    match race.lanes.all().get(turn.lane) {
        Some(lane) => go_on(alloc, race.limits, world, lane, turn.begun),
        None => Ok(None),
    }
}

/// Makes the next act of a lane, and adds what it comes to.
fn learn_way(
    alloc: Global,
    race: &Race,
    search: &mut Search,
    turn: Turn,
    digest: u64,
) -> Result<(), AllocError>
    requires { turn.world < length search.old.worlds }
    ensures { OnOk result (LearnsWay race.now.limits.bounds race.now.lanes search.old search.new turn) }
{
    let going = going_on(alloc, race, &search.worlds, &turn)?;
    let to = name_world(alloc, &mut search.worlds, going)?;
    search.ways.add(digest, Way { turn, to })?;
    Ok(())
}

/// The place of what the next act of a lane comes to.
fn way_of(alloc: Global, race: &Race, search: &mut Search, turn: Turn) -> Result<usize, AllocError>
    requires kept { IsKept race.now.limits.bounds race.now.lanes search.old }
    requires within { turn.world < length search.old.worlds }
    ensures { IfOk result (FindsWay race.now.limits.bounds race.now.lanes search.old search.new turn) }
{
    let digest = Way::digest(alloc, &turn);
    if let Some(place) = search.ways.find(alloc, &turn, digest) {
        return Ok(place);
    }
    let place = search.ways.len();
    learn_way(alloc, race, search, turn, digest)?;
    Ok(place)
}

/// The position after an act of a lane, whose row of answers stands at `row`.
fn spot_after(
    alloc: Global,
    rows: &mut Table<Row<Outcome>>,
    from: Spot,
    lane: usize,
    row: usize,
    to: &Onward,
) -> Result<Spot, AllocError>
    requires { row < length rows.old }
    ensures { IfOk result (GoesTo rows.old rows.new from lane row to.now) }
{
    let told = match rows.get(row) {
        Some(told) => answered(to.resumes, told, &to.outcome)?,
        None => unreachable!(),
    };
    let place = place_in(alloc, rows, told)?;
    let mut places = from.rows;
    places.put(lane, place);
    Ok(Spot {
        world: to.world,
        rows: places,
    })
}

/// The position that was met at a place, once more.
fn copy_of_spot(met: &Table<Met<Spot>>, place: usize) -> Result<Spot, AllocError>
    requires { place < length met.now }
    ensures { IfOk result (λ spot. (m : AMet ASpot) → slice_get met.now place ≡ Some m → spot ≡ m.position) }
{
    match met.get(place) {
        Some(entry) => entry.position.clone(),
        None => unreachable!(),
    }
}

/// Where the move of a lane leads, if it can move.
fn make_move(
    alloc: Global,
    race: &Race,
    search: &mut Search,
    by: Move,
) -> Result<Option<Spot>, AllocError>
    requires kept { IsKept race.now.limits.bounds race.now.lanes search.old }
    requires within { by.from < length search.old.met }
    ensures { IfOk result (Moves race.now.limits.bounds race.now.lanes search.old search.new by) }
{
    let spot = copy_of_spot(&search.met, by.from)?;
    let row = match spot.rows.get(by.lane) {
        Some(row) => *row,
        None => return Ok(None),
    };
    let begun = match search.rows.get(row) {
        Some(told) => told.len(),
        None => unreachable!(),
    };
    let turn = Turn {
        world: spot.world,
        lane: by.lane,
        begun,
    };
    let place = way_of(alloc, race, search, turn)?;
    let way = match search.ways.get(place) {
        Some(way) => way,
        None => unreachable!(),
    };
    match &way.to {
        Some(to) => Ok(Some(spot_after(alloc, &mut search.rows, spot, by.lane, row, to)?)),
        None => Ok(None),
    }
}

/// Takes a position among those that were met, unless it is there.
fn take_in(alloc: Global, most: usize, search: &mut Search, next: Met<Spot>) -> Result<(), GivenUp>
    requires { IsWithin search.old.worlds search.old.rows next.position }
    ensures ok { OnOk result (TakesIn most (met_in search.old) (met_in search.new) (met_of search.old.worlds search.old.rows next)) }
    ensures kept { OnOk result (TakesSpot search.old search.new next) }
    ensures many { result ≡ Err GivenUp.TooMany → most ≤ length search.old.met }
{
    let digest = Met::<Spot>::digest(alloc, &next.position);
    if let Some(_place) = search.met.find(alloc, &next.position, digest) {
        return Ok(());
    }
    if search.met.len() >= most {
        return Err(GivenUp::TooMany);
    }
    search.met.add(digest, next)?;
    Ok(())
}

/// Takes in where the move of one lane leads, and tells whether it can move.
fn take_move(
    alloc: Global,
    race: &Race,
    most: usize,
    search: &mut Search,
    by: Move,
) -> Result<bool, GivenUp>
    requires kept { IsKept race.now.limits.bounds race.now.lanes search.old }
    requires within { by.from < length search.old.met }
    ensures ok { IfOk result (λ goes. TakesMove (move race.now.limits.bounds race.now.lanes) most by.from by.lane (met_in search.old) (met_in search.new) goes) }
    ensures kept { OnOk result (IsKept race.now.limits.bounds race.now.lanes search.new) }
    ensures many { result ≡ Err GivenUp.TooMany → (start : APosition) → Searched (move race.now.limits.bounds race.now.lanes) start most by.from by.lane (met_in search.old) → MoreOrders (move race.now.limits.bounds race.now.lanes) start most }
{
    match make_move(alloc, race, search, by)? {
        Some(position) => {
            let next = Met {
                position,
                by: Some(by),
            };
            take_in(alloc, most, search, next)?;
            Ok(true)
        }
        None => Ok(false),
    }
}

/// Takes in where the moves of all lanes lead, and tells whether any can move.
fn take_moves(
    alloc: Global,
    race: &Race,
    most: usize,
    search: &mut Search,
    place: usize,
) -> Result<bool, GivenUp>
    requires kept { IsKept race.now.limits.bounds race.now.lanes search.old }
    requires within { place < length search.old.met }
    ensures ok { IfOk result (λ goes. TakesMoves (move race.now.limits.bounds race.now.lanes) most place (met_in search.old) (met_in search.new) goes) }
    ensures kept { OnOk result (IsKept race.now.limits.bounds race.now.lanes search.new) }
    ensures many { result ≡ Err GivenUp.TooMany → (start : APosition) → Searched (move race.now.limits.bounds race.now.lanes) start most place 0 (met_in search.old) → MoreOrders (move race.now.limits.bounds race.now.lanes) start most }
{
    let mut moved = false;
    for lane in 0..race.lanes.all().len() {
        let by = Move { from: place, lane };
        let goes = take_move(alloc, race, most, search, by)?;
        moved = moved || goes;
    }
    Ok(moved)
}

/// Notes the place of a position, if it is an end.
fn note_end(ends: &mut Row<usize>, place: usize, moved: bool) -> Result<(), AllocError>
    ensures { OnOk result (NotesEnd ends.old ends.new place moved) }
{
    if !moved {
        ends.push(place)?;
    }
    Ok(())
}

/// The place of no answer, for each lane.
fn no_answers(alloc: Global, lanes: usize) -> Result<Row<usize>, AllocError>
    ensures { IfOk result (λ places. places ≡ replicate lanes 0) }
{
    let mut places = Row::new(alloc);
    for _lane in 0..lanes {
        places.push(0)?;
    }
    Ok(places)
}

/// A search that begins in this world.
fn begin(alloc: Global, race: &Race, world: World) -> Result<Search, AllocError>
    ensures kept { IfOk result (IsKept race.now.limits.bounds race.now.lanes) }
    ensures begun { IfOk result (λ search. met_in search ≡ record { position = start_of race.now.lanes world; by = None } ∷ []) }
{
    let mut worlds = Table::new(alloc)?;
    worlds.add(World::digest(alloc, &world), world)?;
    let mut rows = Table::new(alloc)?;
    let none = Row::new(alloc);
    rows.add(digest_of_row(&none), none)?;
    let mut met = Table::new(alloc)?;
    let position = Spot {
        world: 0,
        rows: no_answers(alloc, race.lanes.all().len())?,
    };
    met.add(
        Met::<Spot>::digest(alloc, &position),
        Met { position, by: None },
    )?;
    let ways = Table::new(alloc)?;
    Ok(Search {
        worlds,
        rows,
        ways,
        met,
    })
}

/// All positions that were met, where the search is over.
fn found(search: Search, ends: Row<usize>) -> Positions
    ensures { result ≡ record { met = met_in search; ends = ends } }
{
    let found = Explored {
        met: search.met.into_row(),
        ends,
    };
    Positions::new(search.worlds.into_row(), search.rows.into_row(), found)
}

/// All positions of a race that begins in this world, and those where it ends, if at most `most` are met.
pub fn explore_race(
    alloc: Global,
    race: &Race,
    world: World,
    most: usize,
) -> Result<Positions, GivenUp>
    ensures all { IfOk result (IsExplored (move race.now.limits.bounds race.now.lanes) (start_of race.now.lanes world)) }
    ensures many { result ≡ Err GivenUp.TooMany → MoreOrders (move race.now.limits.bounds race.now.lanes) (start_of race.now.lanes world) most }
{
    if most == 0 {
        return Err(GivenUp::TooMany);
    }
    let mut search = begin(alloc, race, world)?;
    let mut ends = Row::new(alloc);
    for place in 0..most {
        if place >= search.met.len() {
            return Ok(found(search, ends));
        }
        let moved = take_moves(alloc, race, most, &mut search, place)?;
        note_end(&mut ends, place, moved)?;
    }
    Ok(found(search, ends))
}
