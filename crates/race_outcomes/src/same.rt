//! Whether two worlds are the same. Every part is compared exactly but for long files.

ghost use Rattle.std.specs.Prelude.{◌≡◌, ◌↔◌, true, take};
ghost use Rattle.posix_model.specs.Bytes.{bytes_at};
ghost use Rattle.call_types.specs.declared.limits.TheConstants.{TRANSFER_MAX};

use call_types::bounded::Name;
use call_types::description::{Description, Mode, Target};
use call_types::limits::TRANSFER_MAX;
use call_types::outcome::Outcome;
use posix_model::contents::Contents;
use posix_model::names::Names;
use posix_model::runs::Runs;
use posix_model::world::{Fifo, File, World};
use process_table::kept_call::KeptCall;
use process_table::process::{Parked, Process};
use process_table::table::DescriptorTable;
use script_text::row::Row;
use slots::dense::Slots;
use slots::ticket::Ticket;
use std::alloc::Global;

/// How many pieces of 65,536 bytes of a file are compared. Longer files count as different.
const PIECES_MAX: usize = 16;

/// What can be compared with another of its type.
pub trait Same {
    /// Whether this is the same as another.
    fn is_as(&self, other: &Self) -> bool
        ensures { (result ≡ true) ↔ (self.now ≡ other.now) };
}

/// Whether two slices are the same.
fn same_all<T: Same>(these: &[T], others: &[T]) -> bool
    ensures { (result ≡ true) ↔ (these.now ≡ others.now) }
{
    let mut left = these;
    let mut right = others;
    while let Some((first, rest)) = left.split_first() {
        match right.split_first() {
            Some((other, behind)) => {
                if !first.is_as(other) {
                    return false;
                }
                right = behind;
            }
            None => return false,
        }
        left = rest;
    }
    right.is_empty()
}

impl<T: Same> Same for Option<T> {
    fn is_as(&self, other: &Self) -> bool {
        match (self, other) {
            (None, None) => true,
            (Some(this), Some(other)) => this.is_as(other),
            _ => false,
        }
    }
}

impl<T: Same> Same for Slots<T> {
    fn is_as(&self, other: &Self) -> bool {
        same_all(self.all(), other.all())
    }
}

impl<T: Same> Same for Row<T> {
    fn is_as(&self, other: &Self) -> bool {
        same_all(self.all(), other.all())
    }
}

impl Same for Outcome {
    fn is_as(&self, other: &Self) -> bool {
        self.is_same(other)
    }
}

impl Same for Ticket {
    fn is_as(&self, other: &Self) -> bool {
        self.number() == other.number()
    }
}

impl Same for DescriptorTable {
    fn is_as(&self, other: &Self) -> bool {
        same_all(self.entries(), other.entries())
    }
}

impl Same for KeptCall {
    fn is_as(&self, other: &Self) -> bool {
        self.get().is_same(other.get())
    }
}

impl Same for Parked {
    fn is_as(&self, other: &Self) -> bool {
        self.fd == other.fd
            && self.moved == other.moved
            && self.openings == other.openings
            && self.call.is_as(&other.call)
    }
}

impl Same for Process {
    fn is_as(&self, other: &Self) -> bool {
        self.attached == other.attached
            && self.table.is_as(&other.table)
            && self.parked.is_as(&other.parked)
    }
}

impl Same for Contents {
    fn is_as(&self, other: &Self) -> bool {
        self.as_slice() == other.as_slice()
    }
}

/// Whether two targets are the same.
fn same_target(this: Target, other: Target) -> bool
    ensures { (result ≡ true) ↔ (this ≡ other) }
{
    match (this, other) {
        (Target::Regular { file: a }, Target::Regular { file: b }) => a == b,
        (Target::Pipe { pipe: a }, Target::Pipe { pipe: b }) => a == b,
        (Target::Fifo { file: a, pipe: s }, Target::Fifo { file: b, pipe: t }) => a == b && s == t,
        _ => false,
    }
}

/// Whether two modes are the same.
fn same_mode(this: Mode, other: Mode) -> bool
    ensures { (result ≡ true) ↔ (this ≡ other) }
{
    match (this, other) {
        (Mode::Read, Mode::Read) => true,
        (Mode::Write, Mode::Write) => true,
        (Mode::ReadWrite, Mode::ReadWrite) => true,
        _ => false,
    }
}

impl Same for Description {
    fn is_as(&self, other: &Self) -> bool {
        self.offset == other.offset
            && self.append == other.append
            && self.nonblock == other.nonblock
            && same_mode(self.mode, other.mode)
            && same_target(self.target, other.target)
    }
}

impl Same for (Name, usize) {
    fn is_as(&self, other: &Self) -> bool {
        self.1 == other.1 && self.0.is_same(&other.0)
    }
}

impl Same for Names {
    fn is_as(&self, other: &Self) -> bool {
        same_all(self.entries(), other.entries())
    }
}

/// Whether two pipes of FIFOs are the same.
fn same_pipe(this: Option<usize>, other: Option<usize>) -> bool
    ensures { (result ≡ true) ↔ (this ≡ other) }
{
    match (this, other) {
        (None, None) => true,
        (Some(this), Some(other)) => this == other,
        _ => false,
    }
}

impl Same for Fifo {
    fn is_as(&self, other: &Self) -> bool {
        self.reader_openings == other.reader_openings
            && self.writer_openings == other.writer_openings
            && same_pipe(self.pipe, other.pipe)
    }
}

/// Whether two files have the same bytes in a piece from `start` on. No says nothing: memory may have run out.
fn same_piece(alloc: Global, this: &Runs, other: &Runs, start: usize) -> bool
    ensures { result ≡ true → bytes_at this.now start TRANSFER_MAX ≡ bytes_at other.now start TRANSFER_MAX }
{
    match this.read_at(alloc, start, TRANSFER_MAX) {
        Ok(bytes) => match other.read_at(alloc, start, TRANSFER_MAX) {
            Ok(others) => bytes.is_same(&others),
            Err(_) => false,
        },
        Err(_) => false,
    }
}

/// Whether two files have the same bytes. No says nothing of files of more than a million bytes, nor where memory ran out.
fn same_bytes(alloc: Global, this: &Runs, other: &Runs) -> bool
    ensures { result ≡ true → this.now ≡ other.now }
{
    if this.len() != other.len() || this.len() > PIECES_MAX * TRANSFER_MAX {
        return false;
    }
    for piece in 0..PIECES_MAX {
        if !same_piece(alloc, this, other, piece * TRANSFER_MAX) {
            return false;
        }
    }
    true
}

/// Whether two files are the same. No says nothing of long files.
fn same_file(alloc: Global, this: &File, other: &File) -> bool
    ensures { result ≡ true → this.now ≡ other.now }
{
    match (this, other) {
        (File::Regular(this), File::Regular(other)) => same_bytes(alloc, this, other),
        (File::Fifo(this), File::Fifo(other)) => this.is_as(other),
        _ => false,
    }
}

/// Whether the same stands in two slots. No says nothing of long files.
fn same_slot(alloc: Global, this: &Option<File>, other: &Option<File>) -> bool
    ensures { result ≡ true → this.now ≡ other.now }
{
    match (this, other) {
        (None, None) => true,
        (Some(this), Some(other)) => same_file(alloc, this, other),
        _ => false,
    }
}

/// Whether all files are the same. No says nothing of long files.
fn same_files(alloc: Global, these: &[Option<File>], others: &[Option<File>]) -> bool
    ensures { result ≡ true → these.now ≡ others.now }
{
    let mut left = these;
    let mut right = others;
    while let Some((first, rest)) = left.split_first() {
        match right.split_first() {
            Some((other, behind)) => {
                if !same_slot(alloc, first, other) {
                    return false;
                }
                right = behind;
            }
            None => return false,
        }
        left = rest;
    }
    right.is_empty()
}

/// Whether two worlds are the same. No says nothing of long files.
pub fn same_world(alloc: Global, this: &World, other: &World) -> bool
    ensures { result ≡ true → this.now ≡ other.now }
{
    this.closed == other.closed
        && this.descriptions.is_as(&other.descriptions)
        && this.processes.is_as(&other.processes)
        && this.pipes.is_as(&other.pipes)
        && this.names.is_as(&other.names)
        && same_files(alloc, this.files.all(), other.files.all())
}
