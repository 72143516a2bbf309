//! All that the calls of a race may answer: its script in, its outcomes out.
ghost use Rattle.std.specs.Prelude.{◌≡◌, ◌++◌, IfOk, IfErr, OnOk};
ghost use Rattle.posix_model.specs.History.{legal, world_of};
ghost use Rattle.race_outcomes.specs.Moves.{move};
ghost use Rattle.race_outcomes.specs.Outcomes.{start_of};
ghost use Rattle.race_outcomes.specs.Search.{IsExplored};
ghost use Rattle.race_outcomes.specs.Tellings.{texts};
ghost use Rattle.job_core.specs.Outcomes.{IsReady, IsWitness, OutcomesEnd};
ghost use Rattle.job_core.specs.Reads.{ReadsFew};
ghost use Rattle.job_core.specs.Shown.{shown_lines};
ghost use Rattle.job_core.specs.Proved.Racing.{end_of_fault, end_of_line, end_of_setup, IsUnready, GivesUp, IsSearch, IsToldIn, PutsTold, PutsWitness, PutsWitnesses, end_of_count, PrintsAll, PrintsOne, LacksNumber, Prints, IsUnprinted, IsUnsearched, IsToldWith, IsUntold};

use crate::job_end::{JobEnd, Unfit};
use crate::output::write_lines;
use crate::replay::{READS_MAX, ends_in_return, read_text};
use crate::shown::Lines;
use call_types::act::{Act, Record};
use call_types::limits::Limits;
use command_line::form::Form;
use command_line::telling::Telling;
use logged_streams::reader::LoggedReader;
use logged_streams::writer::LoggedWriter;
use posix_model::world::World;
use race_outcomes::lines::{put_counts, put_outcome, put_outcomes, put_race};
use race_outcomes::position::Race;
use race_outcomes::positions::Positions;
use race_outcomes::search::{GivenUp, explore_race};
use race_outcomes::setup::{Setup, Unready, absent, lanes_of, set_up};
use race_outcomes::tellings::{Told, tellings};
use race_outcomes::witness::records_along;
use script_text::fault::Expected;
use script_text::races::{RaceFault, RaceScript, read_race};
use script_text::row::Row;
use std::alloc::{AllocError, Global};
use std::io::{Read, Write};
use std::mem::forget;

/// The end that a line of a text is that is no act.
fn end_of_line(text: &[u8], line: usize, column: usize, expected: Expected) -> JobEnd
    ensures { result ≡ end_of_line text.now line column expected }
{
    if ends_in_return(text, line) {
        JobEnd::CarriageReturn { line, column }
    } else {
        JobEnd::BadLine {
            line,
            column,
            expected,
        }
    }
}

/// The end that a fault of a text is that is to be the script of a race.
fn end_of_fault(text: &[u8], fault: RaceFault) -> JobEnd
    ensures { result ≡ end_of_fault text.now fault }
{
    match fault {
        RaceFault::BadLine {
            line,
            column,
            expected,
        } => end_of_line(text, line, column, expected),
        RaceFault::NoRace => JobEnd::NoRace,
        RaceFault::NoCall { line } => JobEnd::BadRace {
            line,
            why: Unfit::NoCall,
        },
        RaceFault::BadAnswer { line, column } => JobEnd::BadAnswer { line, column },
        RaceFault::TooLong => JobEnd::TooLong,
        RaceFault::NoMemory => JobEnd::NoMemory,
    }
}

/// The end that a setup is which cannot be made.
fn end_of_setup(unready: Unready) -> JobEnd
    ensures { result ≡ end_of_setup unready }
{
    match unready {
        Unready::Refused { line } => JobEnd::BadRace {
            line,
            why: Unfit::Refused,
        },
        Unready::Waits { line } => JobEnd::BadRace {
            line,
            why: Unfit::Waits,
        },
        Unready::NoMemory => JobEnd::NoMemory,
    }
}

/// The script of a race that a text is, and what its acts before the race come to.
fn made_ready(alloc: Global, limits: Limits, text: &[u8]) -> Result<(RaceScript, Setup), JobEnd>
    ensures ready { IfOk result (λ made. IsReady limits.bounds text.now made.0 made.1) }
    ensures legal { IfOk result (λ made. legal limits.bounds made.1.records) }
    ensures world { IfOk result (λ made. made.1.world ≡ world_of limits.bounds made.1.records) }
    ensures fault { IfErr result (λ end. IsUnready limits.bounds text.now end) }
{
    let script = match read_race(alloc, text) {
        Ok(script) => script,
        Err(fault) => return Err(end_of_fault(text, fault)),
    };
    let setup = match set_up(alloc, limits, script.setup.all()) {
        Ok(setup) => setup,
        Err(unready) => return Err(end_of_setup(unready)),
    };
    match absent(&setup.world, script.calls.all()) {
        None => Ok((script, setup)),
        Some(line) => Err(JobEnd::BadRace {
            line,
            why: Unfit::NotAttached,
        }),
    }
}

/// All positions of a race, if there are at most `most`.
fn explored(alloc: Global, race: &Race, world: World, most: u64) -> Result<Positions, JobEnd>
    ensures all { IfOk result (IsExplored (move race.now.limits.bounds race.now.lanes) (start_of race.now.lanes world)) }
    ensures fault { IfErr result (λ end. GivesUp (move race.now.limits.bounds race.now.lanes) (start_of race.now.lanes world) most end) }
{
    match explore_race(alloc, race, world, most as usize) {
        Ok(explored) => Ok(explored),
        Err(GivenUp::TooMany) => Err(JobEnd::TooManyStates { most }),
        Err(GivenUp::NoMemory) => Err(JobEnd::NoMemory),
    }
}

/// A race that is searched: its script, what came before it, its calls by lanes, all its positions, and what its ends tell.
#[derive(Drop)]
struct Search {
    script: RaceScript,
    setup: Setup,
    race: Race,
    explored: Positions,
    told: Vec<Told>,
}

/// A world once more.
fn copy_of_world(world: &World) -> Result<World, AllocError>
    ensures { IfOk result (λ copy. copy ≡ world.now) }
{
    world.clone()
}

/// The race that a text is the script of, searched.
fn searched(alloc: Global, limits: Limits, most: u64, text: &[u8]) -> Result<Search, JobEnd>
    ensures ready { IfOk result (λ search. IsReady limits.bounds text.now search.script search.setup) }
    ensures limits { IfOk result (λ search. search.race.limits ≡ limits) }
    ensures search { IfOk result IsSearch }
    ensures fault { IfErr result (λ end. IsUnsearched limits.bounds most text.now end) }
{
    let (script, setup) = made_ready(alloc, limits, text)?;
    let lanes = lanes_of(alloc, script.calls.all())?;
    let race = Race { limits, lanes };
    let world = copy_of_world(&setup.world)?;
    let explored = explored(alloc, &race, world, most)?;
    let told = tellings(alloc, &race, script.calls.all(), &explored)?;
    Ok(Search {
        script,
        setup,
        race,
        explored,
        told,
    })
}

/// An act once more.
fn copy_of_act(act: &Act) -> Result<Act, AllocError>
    ensures { IfOk result (λ copy. copy ≡ act.now) }
{
    Ok(match act {
        Act::Join => Act::Join,
        Act::Attach => Act::Attach,
        Act::Call(call) => Act::Call(call.clone()?),
        Act::Resume => Act::Resume,
        Act::Exit => Act::Exit,
        Act::CloseRun => Act::CloseRun,
    })
}

/// A record once more.
fn copy_of(told: &Record) -> Result<Record, AllocError>
    ensures { IfOk result (λ copy. copy ≡ told.now) }
{
    let act = copy_of_act(&told.act)?;
    let outcome = told.outcome.clone()?;
    Ok(Record {
        actor: told.actor,
        act,
        outcome,
    })
}

/// Adds records behind others.
fn append(records: &mut Row<Record>, more: &[Record]) -> Result<(), AllocError>
    ensures { OnOk result (records.new ≡ records.old ++ more.now) }
{
    for index in 0..more.len() {
        let record = copy_of(&more[index])?;
        records.push(record)?;
    }
    Ok(())
}

/// The records of one order of all acts and calls of a race, which ends as this tells.
fn witness(alloc: Global, search: &Search, told: &Told) -> Result<Row<Record>, AllocError>
    requires search { IsSearch search.now }
    requires at { IsToldIn search.now told.now }
    ensures { IfOk result (IsWitness search.now.race.limits.bounds search.now.script search.now.setup told.now.text.items) }
{
    let order = search.explored.order_to(alloc, &search.race, told.place)?;
    let along = records_along(alloc, &search.race, &search.setup.world, order.all())?;
    let mut records = Row::new(alloc);
    append(&mut records, search.setup.records.all())?;
    append(&mut records, along.all())?;
    Ok(records)
}

/// Gathers the lines of records.
fn put_records(
    alloc: Global,
    out: &mut Vec<u8>,
    form: Form,
    records: &[Record],
) -> Result<(), AllocError>
    ensures { OnOk result (out.new.items ≡ out.old.items ++ shown_lines form records.now) }
{
    let mut lines = Lines::new(alloc, form);
    lines.put_all(out, records)?;
    Ok(())
}

/// Gathers the line of an outcome, and those of an order that ends so.
fn put_witness(
    alloc: Global,
    out: &mut Vec<u8>,
    search: &Search,
    number: usize,
    told: &Told,
    form: Form,
) -> Result<(), AllocError>
    requires search { IsSearch search.now }
    requires at { IsToldIn search.now told.now }
    ensures { OnOk result (PutsWitness search.now form number told.now.text.items out.old.items out.new.items) }
{
    put_outcome(out, number, told.text.as_slice())?;
    let records = witness(alloc, search, told)?;
    put_records(alloc, out, form, records.all())?;
    Ok(())
}

/// Gathers the lines of all outcomes, each before those of an order that ends so.
fn put_witnesses(
    alloc: Global,
    out: &mut Vec<u8>,
    search: &Search,
    form: Form,
) -> Result<(), AllocError>
    requires { IsSearch search.now }
    ensures { OnOk result (PutsWitnesses search.now form (texts search.now.told.items) out.old.items out.new.items) }
{
    for number in 0..search.told.len() {
        put_witness(alloc, out, search, number, &search.told[number], form)?;
    }
    Ok(())
}

/// Gathers the lines of all outcomes, with an order for each where a form is given.
fn put_told(
    alloc: Global,
    out: &mut Vec<u8>,
    search: &Search,
    form: Option<Form>,
) -> Result<(), AllocError>
    requires { IsSearch search.now }
    ensures { OnOk result (PutsTold search.now form (texts search.now.told.items) out.old.items out.new.items) }
{
    match form {
        Some(form) => put_witnesses(alloc, out, search, form)?,
        None => put_outcomes(out, search.told.as_slice())?,
    }
    Ok(())
}

/// What is written of a race, and how the job ends where it is.
#[derive(Drop)]
struct Printed {
    lines: Vec<u8>,
    end: JobEnd,
}

/// The end where so many outcomes are told.
fn end_of_count(count: usize) -> JobEnd
    ensures { result ≡ end_of_count count }
{
    if count == 0 {
        JobEnd::NoneAgrees
    } else {
        JobEnd::Done
    }
}

/// What is written of all outcomes of a race: the lines of its calls, those of the outcomes, with an order for each where a form
/// is given, and the last line.
fn print_all(alloc: Global, search: &Search, form: Option<Form>) -> Result<Printed, AllocError>
    requires { IsSearch search.now }
    ensures { IfOk result (λ printed. PrintsAll search.now form printed.lines.items printed.end) }
{
    let mut lines = Vec::new(alloc);
    put_race(&mut lines, search.script.calls.all())?;
    put_told(alloc, &mut lines, search, form)?;
    put_counts(&mut lines, search.told.len(), search.explored.len())?;
    let end = end_of_count(search.told.len());
    Ok(Printed { lines, end })
}

/// What is written of the outcome of this number, if there is one.
fn print_one(alloc: Global, search: &Search, number: u64, form: Form) -> Result<Printed, JobEnd>
    requires { IsSearch search.now }
    ensures one { IfOk result (λ printed. PrintsOne search.now form number printed.lines.items printed.end) }
    ensures fault { IfErr result (λ end. LacksNumber search.now number end) }
{
    match search.told.get(number as usize) {
        Some(told) => {
            let records = witness(alloc, search, told)?;
            let mut lines = Vec::new(alloc);
            put_records(alloc, &mut lines, form, records.all())?;
            Ok(Printed {
                lines,
                end: JobEnd::Done,
            })
        }
        None => Err(JobEnd::NoSuchOutcome),
    }
}

/// What is written of a race.
fn print(alloc: Global, search: &Search, telling: Telling) -> Result<Printed, JobEnd>
    requires { IsSearch search.now }
    ensures told { IfOk result (λ printed. Prints search.now telling printed.lines.items printed.end) }
    ensures fault { IfErr result (λ end. IsUnprinted search.now telling end) }
{
    match telling {
        Telling::Outcomes => Ok(print_all(alloc, search, None)?),
        Telling::Witnesses { form } => Ok(print_all(alloc, search, Some(form))?),
        Telling::Witness { number, form } => print_one(alloc, search, number, form),
    }
}

/// What is written of the race that a text is the script of. The positions that were met are leaked.
fn told_of(
    alloc: Global,
    limits: Limits,
    most: u64,
    telling: Telling,
    text: &[u8],
) -> Result<Printed, JobEnd>
    ensures told { IfOk result (λ printed. IsToldWith limits.bounds telling text.now printed.lines.items printed.end) }
    ensures fault { IfErr result (λ end. IsUntold limits.bounds most telling text.now end) }
{
    let search = searched(alloc, limits, most, text)?;
    let printed = print(alloc, &search, telling);
    forget(search);
    printed
}

/// Reads the script of a race, and writes all that its calls may answer, over every order in which each process keeps its own;
/// or, where it is asked to, the records of such orders. At most `most` positions are searched. Nothing is written before all is
/// known. What was searched is leaked: it is meant for a program that ends then, and is to be called once in a process.
pub fn outcomes<R: Read, W: Write>(
    alloc: Global,
    reader: &mut LoggedReader<R>,
    writer: &mut LoggedWriter<W>,
    limits: Limits,
    most: u64,
    telling: Telling,
) -> JobEnd
    ensures ends { OutcomesEnd limits most telling reader.old.remaining writer.old writer.new result }
    ensures reads { ReadsFew READS_MAX reader.old.log reader.new.log result }
{
    let text = match read_text(alloc, reader) {
        Ok(text) => text,
        Err(ended) => return ended,
    };
    let printed = match told_of(alloc, limits, most, telling, text.as_slice()) {
        Ok(printed) => printed,
        Err(ended) => return ended,
    };
    match write_lines(writer, printed.lines.as_slice()) {
        Ok(()) => printed.end,
        Err(ended) => ended,
    }
}
