//! Numbers made of worlds, answers and places, by which the chains of an index are told apart. Nothing is promised of them.

use call_types::description::{Description, Target};
use call_types::outcome::{Outcome, Reply};
use call_types::span::Span;
use posix_model::contents::Contents;
use posix_model::runs::Runs;
use posix_model::world::{File, World};
use process_table::process::Process;
use script_text::row::Row;
use slots::ticket::Ticket;
use std::alloc::Global;

/// How many bytes of each end of a file count.
const LOOKED_AT: usize = 4096;

/// A number that is made of others, one after another.
#[derive(Clone, Copy)]
struct Digest {
    sum: u64,
}

impl Digest {
    /// One more number.
    fn add(&mut self, number: u64) {
        self.sum = (self.sum ^ number)
            .wrapping_mul(0x9e37_79b9_7f4a_7c15)
            .rotate_left(29);
    }

    /// Bytes.
    fn add_bytes(&mut self, bytes: &[u8]) {
        self.add(bytes.len() as u64);
        for byte in bytes {
            self.add(*byte as u64);
        }
    }

    /// Bytes, where they are.
    fn add_span(&mut self, span: Span<'_>) {
        match span {
            Span::Slice(bytes) => self.add_bytes(bytes),
            Span::Same { byte, count } => {
                self.add(count as u64);
                self.add(byte as u64);
            }
        }
    }

    /// What a call was answered.
    fn add_outcome(&mut self, outcome: &Outcome) {
        match outcome {
            Outcome::Reply(Reply::Number(number)) => self.add(*number),
            Outcome::Reply(Reply::Data(bytes)) => self.add_span(bytes.span()),
            Outcome::Reply(Reply::Error(error)) => self.add(error.number() as u64 + 11),
            Outcome::Reply(Reply::Pair(first, second)) => {
                self.add(*first as u64);
                self.add(*second as u64);
            }
            Outcome::Reply(Reply::Stat(stat)) => {
                self.add(stat.size);
                self.add(stat.links as u64);
            }
            Outcome::Parked { moved } => self.add(*moved as u64 + 13),
            Outcome::Part { moved } => self.add(*moved as u64 + 17),
            Outcome::Reply(Reply::Done) => self.add(5),
        }
    }

    /// What a lane was answered.
    fn add_row(&mut self, row: &Row<Outcome>) {
        self.add(row.len() as u64);
        for outcome in row.all() {
            self.add_outcome(outcome);
        }
    }

    /// An open file description.
    fn add_description(&mut self, slot: &Option<Description>) {
        match slot {
            Some(description) => {
                self.add(description.offset);
                self.add(description.append as u64 + 2 * description.nonblock as u64);
                self.add_target(description.target);
            }
            None => self.add(3),
        }
    }

    /// What a description refers to.
    fn add_target(&mut self, target: Target) {
        match target {
            Target::Regular { file } => self.add(file as u64),
            Target::Pipe { pipe } => self.add(pipe as u64),
            Target::Fifo { file, pipe } => {
                self.add(file as u64);
                self.add(pipe as u64);
            }
        }
    }

    /// Some bytes of a file, from `start` on. Where memory runs out they do not count.
    fn add_piece(&mut self, alloc: Global, runs: &Runs, start: usize) {
        if let Ok(bytes) = runs.read_at(alloc, start, LOOKED_AT) {
            self.add_span(bytes.span());
        }
    }

    /// The bytes at both ends of a file.
    fn add_ends(&mut self, alloc: Global, runs: &Runs) {
        self.add_piece(alloc, runs, 0);
        if runs.len() > LOOKED_AT {
            self.add_piece(alloc, runs, runs.len() - LOOKED_AT);
        }
    }

    /// A file: its length, and its bytes at both ends.
    fn add_file(&mut self, alloc: Global, slot: &Option<File>) {
        match slot {
            Some(File::Regular(runs)) => {
                self.add(runs.len() as u64);
                self.add_ends(alloc, runs);
            }
            Some(File::Fifo(fifo)) => {
                self.add(fifo.reader_openings);
                self.add(fifo.writer_openings);
            }
            None => self.add(3),
        }
    }

    /// What a pipe holds.
    fn add_pipe(&mut self, slot: &Option<Contents>) {
        match slot {
            Some(contents) => self.add_bytes(contents.as_slice()),
            None => self.add(3),
        }
    }

    /// What a descriptor refers to.
    fn add_descriptor(&mut self, entry: &Option<Ticket>) {
        match entry {
            Some(ticket) => self.add(ticket.number() as u64),
            None => self.add(3),
        }
    }

    /// A process: whether it waits, and its descriptors.
    fn add_process(&mut self, slot: &Option<Process>) {
        match slot {
            Some(process) => {
                self.add(process.parked.is_some() as u64);
                for entry in process.table.entries() {
                    self.add_descriptor(entry);
                }
            }
            None => self.add(3),
        }
    }

    /// A world.
    fn add_world(&mut self, alloc: Global, world: &World) {
        for slot in world.descriptions.all() {
            self.add_description(slot);
        }
        for slot in world.files.all() {
            self.add_file(alloc, slot);
        }
        for slot in world.pipes.all() {
            self.add_pipe(slot);
        }
        for slot in world.processes.all() {
            self.add_process(slot);
        }
        for entry in world.names.entries() {
            self.add_bytes(entry.0.as_slice());
        }
    }
}

/// A number that is made of a world.
pub fn digest_of_world(alloc: Global, world: &World) -> u64 {
    let mut digest = Digest { sum: 0 };
    digest.add_world(alloc, world);
    digest.sum
}

/// A number that is made of what a lane was answered.
pub fn digest_of_row(row: &Row<Outcome>) -> u64 {
    let mut digest = Digest { sum: 0 };
    digest.add_row(row);
    digest.sum
}

/// A number that is made of places.
pub fn digest_of_places(places: &[usize]) -> u64 {
    let mut digest = Digest { sum: 0 };
    for place in places {
        digest.add(*place as u64);
    }
    digest.sum
}
