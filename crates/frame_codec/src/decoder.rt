//! A decoder of a stream of frames, which comes in any pieces.

ghost use Rattle.std.specs.Prelude.{◌≡◌, ◌≤◌, ◌++◌, length, vec_capacity, IfOk, OnOk, OnErr};
ghost use Rattle.call_types.specs.Writing.{KeepsFront};
ghost use Rattle.frame_codec.specs.Frames.{IsShort};
ghost use Rattle.frame_codec.specs.Proved.Filling.{further, Fills, FillsHead, Completes, HoldsRest, ReadsTo};
ghost use Rattle.frame_codec.specs.Decoding.{fresh, told_progress, Feeds};
ghost use Rattle.frame_codec.specs.Taking.{FeedsTo};
ghost use Rattle.frame_codec.specs.declared.decoder.Progress.TheVariants as progress;

use crate::begun::{Begins, HEAD, Stop, begun, length_told};
use crate::frame_kind::FrameKind;
use crate::value_taker::ValueTaker;
use std::alloc::{AllocError, Global};
use std::marker::{Model, PhantomData};

/// Whether a stream goes on, or where its first fault is.
#[derive(Clone, Copy, Debug, PartialEq, Eq)]
pub enum Progress {
    /// There is no fault so far.
    More,
    /// A payload spells no value. Its frame begins at this byte of the stream, from 0; `u64::MAX` stands for that byte
    /// and all after it.
    Malformed { at: u64 },
    /// A length is greater than is allowed. It begins at this byte of the stream, as above.
    TooLong { at: u64 },
}

/// What one piece gave.
#[derive(Drop)]
pub struct Fed<V> {
    /// The values whose frames are complete now, in their order.
    pub values: Vec<V>,
    pub progress: Progress,
}

/// What became of a piece whose values a taker is handed.
#[derive(Clone, Copy, Debug, PartialEq, Eq)]
pub enum FedTo {
    /// The taker took all values whose frames are complete now, and wants more.
    All(Progress),
    /// The taker wants no more than it took.
    Enough,
}

/// What takes a stream of frames, piece by piece. It holds less than one frame between two pieces.
#[derive(Drop)]
pub struct Decoder<K: FrameKind> {
    alloc: Global,
    /// The bytes since the last whole frame.
    held: Vec<u8>,
    /// How many bytes of the stream were before these.
    before: u64,
    progress: Progress,
    kind: PhantomData<K>,
}

impl<K: FrameKind> Model for Decoder<K> {
    ghost use Rattle.frame_codec.specs.Decoding.{DecoderState};
    ghost use Rattle.frame_codec.specs.Proved.Filling.{RestsOn};

    ghost Value = { DecoderState };

    ghost view = { λ decoder. record { before = decoder.before; held = decoder.held.items; progress = decoder.progress } };

    ghost invariant = { λ decoder. RestsOn K.most decoder.held.items decoder.progress };
}

/// What is told after a stop.
fn progress_of(before: u64, stop: Stop) -> Progress
    ensures { result ≡ told_progress before stop }
{
    match stop {
        Stop::Short => Progress::More,
        Stop::Malformed => Progress::Malformed { at: before },
        Stop::TooLong => Progress::TooLong { at: before },
    }
}

/// Takes bytes of a piece until `len` are held or the piece ends, and returns how many it took. An error says that
/// memory ran out; then `held` still begins with what it held.
fn fill(held: &mut Vec<u8>, len: usize, piece: &[u8]) -> Result<usize, AllocError>
    requires { length held.old.items ≤ len }
    ensures ok { IfOk result (λ taken. Fills held.old.items held.new.items piece.now len taken) }
    ensures err { OnErr result (KeepsFront held.old.items held.new.items) }
{
    let taken = piece.len().min(len - held.len());
    held.extend_from_slice(&piece[..taken])?;
    Ok(taken)
}

/// Takes bytes of a piece until the length of a frame can be told, as above.
fn fill_head(held: &mut Vec<u8>, piece: &[u8]) -> Result<usize, AllocError>
    ensures ok { IfOk result (λ taken. FillsHead held.old.items held.new.items piece.now taken) }
    ensures err { OnErr result (KeepsFront held.old.items held.new.items) }
{
    if held.len() >= HEAD {
        return Ok(0);
    }
    fill(held, HEAD, piece)
}

/// Takes bytes of a piece until the first frame is complete, or its length is too great, as above.
fn complete(held: &mut Vec<u8>, most: usize, piece: &[u8]) -> Result<usize, AllocError>
    requires { IsShort most held.old.items }
    ensures ok { IfOk result (λ taken. Completes most held.old.items held.new.items piece.now taken) }
    ensures err { OnErr result (KeepsFront held.old.items held.new.items) }
{
    let first = fill_head(held, piece)?;
    if held.len() < HEAD {
        return Ok(first);
    }
    let told = length_told(held.as_slice());
    if told > most {
        return Ok(first);
    }
    let (_, after) = piece.split_at(first);
    let second = fill(held, HEAD + told, after)?;
    Ok(first + second)
}

/// Makes room for so many bytes in all. What was held is held, after an error too.
#[cold]
#[inline(never)]
fn make_room(held: &mut Vec<u8>, len: usize) -> Result<(), AllocError>
    ensures items { held.new.items ≡ held.old.items }
    ensures room { OnOk result (len ≤ vec_capacity held.new) }
{
    if held.capacity() < len {
        held.reserve_exact(len - held.len())?;
    }
    Ok(())
}

/// Holds what is left after a stop, where it may become a frame. The first time that anything is left, room is made for the longest
/// frame, and never again. After an error what was held is held.
fn keep_rest<K: FrameKind>(held: &mut Vec<u8>, stop: Stop, rest: &[u8]) -> Result<(), AllocError>
    ensures ok { OnOk result (HoldsRest held.new.items rest.now stop) }
    ensures err { OnErr result (held.new.items ≡ held.old.items) }
{
    if stop != Stop::Short {
        return Ok(());
    }
    if rest.len() > held.capacity() {
        make_room(held, rest.len().max(HEAD.saturating_add(K::most())))?;
    }
    held.clear();
    held.extend_from_slice(rest).unwrap();
    Ok(())
}

/// How far bytes were read.
#[derive(Clone, Copy)]
enum Read {
    /// Up to where no further frame begins: how many bytes the frames before it have, and why there is none.
    Up { used: u64, stop: Stop },
    /// Up to a value after which its taker wanted no more.
    Enough,
}

/// Hands the values of the frames with which bytes begin to a taker, each as soon as it is read. What is left is held.
fn read_on<K: FrameKind, T: ValueTaker<K::Value>>(
    alloc: Global,
    held: &mut Vec<u8>,
    taker: &mut T,
    bytes: &[u8],
) -> Result<Read, AllocError>
    ensures ok { IfOk result (λ read. ReadsTo K.spells K.most T.takes bytes.now held.new.items taker.old taker.new read) }
    ensures err { OnErr result (held.new.items ≡ held.old.items) }
{
    let mut used: usize = 0;
    loop {
        let (_, rest) = bytes.split_at(used);
        match begun::<K>(alloc, rest) {
            Ok(Begins::Stopped(stop)) => {
                keep_rest::<K>(held, stop, rest)?;
                return Ok(Read::Up {
                    used: used as u64,
                    stop,
                });
            }
            Ok(Begins::Whole { value, len }) => {
                if !taker.take(value)? {
                    return Ok(Read::Enough);
                }
                used += len;
            }
            Err(fault) => return Err(fault),
        }
    }
}

/// How far bytes were read, with a frame of so many bytes before them.
fn further(read: Read, len: usize) -> Read
    ensures { result ≡ further read len }
{
    match read {
        Read::Up { used, stop } => Read::Up {
            used: used.saturating_add(len as u64),
            stop,
        },
        Read::Enough => Read::Enough,
    }
}

/// Reads a piece after what is held, if anything is, as above.
fn read_in<K: FrameKind, T: ValueTaker<K::Value>>(
    alloc: Global,
    held: &mut Vec<u8>,
    taker: &mut T,
    piece: &[u8],
) -> Result<Read, AllocError>
    requires { IsShort K.most held.old.items }
    ensures ok { IfOk result (λ read. ReadsTo K.spells K.most T.takes (held.old.items ++ piece.now) held.new.items taker.old taker.new read) }
    ensures err { OnErr result (KeepsFront held.old.items held.new.items) }
{
    if held.is_empty() {
        return read_on::<K, T>(alloc, held, taker, piece);
    }
    let taken = complete(held, K::most(), piece)?;
    match begun::<K>(alloc, held.as_slice())? {
        Begins::Stopped(stop) => Ok(Read::Up { used: 0, stop }),
        Begins::Whole { value, len } => {
            if !taker.take(value)? {
                return Ok(Read::Enough);
            }
            let (_, after) = piece.split_at(taken);
            let read = read_on::<K, T>(alloc, held, taker, after)?;
            Ok(further(read, len))
        }
    }
}

impl<K: FrameKind> Decoder<K> {
    /// A decoder at the beginning of a stream. It takes no memory.
    pub fn new(alloc: Global) -> Self
        ensures { result ≡ fresh }
    {
        Decoder {
            alloc,
            held: Vec::new(alloc),
            before: 0,
            progress: Progress::More,
            kind: PhantomData,
        }
    }

    /// The bytes that it holds: those after the last whole frame, where there is no fault.
    pub fn held(&self) -> &[u8]
        ensures { result.now ≡ self.now.held }
    {
        self.held.as_slice()
    }

    /// How many bytes it holds.
    pub fn held_len(&self) -> usize
        ensures { result ≡ length self.now.held }
    {
        self.held.len()
    }

    /// Takes a piece of a stream without a fault so far.
    fn go_on<T: ValueTaker<K::Value>>(
        &mut self,
        piece: &[u8],
        taker: &mut T,
    ) -> Result<FedTo, AllocError>
        requires { self.old.progress ≡ progress.More }
        ensures fed { IfOk result (λ fed. FeedsTo K.spells K.most T.takes self.old self.new piece.now taker.old taker.new fed) }
        ensures err { OnErr result (self.new ≡ self.old) }
    {
        let kept = self.held.len();
        match read_in::<K, T>(self.alloc, &mut self.held, taker, piece) {
            Ok(Read::Up { used, stop }) => {
                self.before = self.before.saturating_add(used);
                self.progress = progress_of(self.before, stop);
                Ok(FedTo::All(self.progress))
            }
            Ok(Read::Enough) => {
                self.held.clear();
                Ok(FedTo::Enough)
            }
            Err(fault) => {
                self.held.truncate(kept);
                Err(fault)
            }
        }
    }

    /// Takes a piece of the stream, of any length, and hands each value to a taker as soon as its frame is complete. After a fault no
    /// byte is read any more, and the same fault is told again. Do not go on with a stream of which the taker had enough. An error says
    /// that memory ran out, or that the taker could not take a value: the decoder is then as it was, but the taker has what it took.
    pub fn feed_to<T: ValueTaker<K::Value>>(
        &mut self,
        piece: &[u8],
        taker: &mut T,
    ) -> Result<FedTo, AllocError>
        ensures fed { IfOk result (λ fed. FeedsTo K.spells K.most T.takes self.old self.new piece.now taker.old taker.new fed) }
        ensures err { OnErr result (self.new ≡ self.old) }
    {
        match self.progress {
            Progress::More => self.go_on(piece, taker),
            fault => Ok(FedTo::All(fault)),
        }
    }

    /// Takes a piece of the stream, of any length, and gives the values whose frames are complete now. After a fault no byte is read
    /// any more, and the same fault is told again. An error says that memory ran out: the decoder is then as it was, and the piece
    /// can be given again.
    pub fn feed(&mut self, piece: &[u8]) -> Result<Fed<K::Value>, AllocError>
        ensures fed { IfOk result (λ fed. Feeds K.spells K.most self.old self.new piece.now fed.values.items fed.progress) }
        ensures err { OnErr result (self.new ≡ self.old) }
    {
        let mut values = Vec::new(self.alloc);
        match self.feed_to(piece, &mut values)? {
            FedTo::All(progress) => Ok(Fed { values, progress }),
            FedTo::Enough => unreachable!(),
        }
    }
}
