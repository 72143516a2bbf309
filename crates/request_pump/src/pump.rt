//! Reading, and pushing what is read.

ghost use Rattle.std.specs.Prelude.{◌≡◌, ◌<◌, ◌≤◌, false, length, Some};
ghost use Rattle.rtrb.specs.Ring.{sent, producer_capacity, SameProducer};
ghost use Rattle.frame_codec.specs.Decoding.{fresh};
ghost use Rattle.logged_streams.specs.Streams.{fresh_log};
ghost use Rattle.request_pump.specs.Pump.{Pumps, Rings};
ghost use Rattle.request_pump.specs.Proved.Pumping.{PumpsPiece, IsPieceEnd, PumpsOn, PumpsAll, RingsPiece, RingsOn, IsRung};
ghost use Rattle.request_pump.specs.Pushes.{none_back};
ghost use Rattle.request_pump.specs.declared.pump.TheConstants.{READS_MAX};

use crate::bell::Bell;
use crate::inlet::Inlet;
use crate::pumped::{PumpEnd, Pumped};
use call_types::request::Request;
use frame_codec::decoder::{Decoder, Progress};
use frame_codec::frame_kind::Requests;
use frame_codec::laws::cuts_do_not_matter;
use logged_streams::reader::LoggedReader;
use logged_streams::stream_log::{Gave, INTERRUPTIONS_MAX};
use rtrb::Producer;
use std::alloc::Global;
use std::io::Read;

/// How many reads a pump has.
pub const READS_MAX: u32 = 1_048_576;

/// How many bytes a read asks for.
const PIECE: usize = 65_536;

/// Pushes the requests that a piece completes.
fn pump_piece<B: Bell>(
    decoder: &mut Decoder<Requests>,
    ring: &mut Inlet<B>,
    piece: &[u8],
) -> Option<PumpEnd>
    requires none_back { ring.old.pushes.in_a_row ≡ 0 }
    ensures ring { SameProducer ring.old.producer ring.new.producer }
    ensures pumps { PumpsPiece (producer_capacity ring.new.producer) piece.now decoder.old decoder.new (sent ring.old.producer) (sent ring.new.producer) result }
    ensures end { IsPieceEnd result }
    ensures rings { RingsPiece (B.rings ring.old.bell) (B.rings ring.new.bell) ring.old.pushes ring.new.pushes result }
{
    cuts_do_not_matter();
    let fed = match decoder.feed(piece) {
        Ok(fed) => fed,
        Err(_) => return Some(PumpEnd::NoMemory),
    };
    let progress = fed.progress;
    match ring.push_all(fed.values) {
        Ok(()) => {}
        Err(_) => return Some(PumpEnd::Ahead),
    }
    ring.end_of_piece();
    match progress {
        Progress::More => None,
        _ => Some(PumpEnd::Malformed),
    }
}

/// Reads once more, and pushes what that gives.
fn pump_on<R: Read, B: Bell>(
    source: &mut LoggedReader<R>,
    decoder: &mut Decoder<Requests>,
    ring: &mut Inlet<B>,
    buffer: &mut [u8],
) -> Option<PumpEnd>
    requires room { 0 < length buffer.old }
    requires few { source.old.log.interruptions < 16 }
    requires sound { source.old.log.failed ≡ false }
    requires few_moved { source.old.log.moved < READS_MAX }
    requires none_back { ring.old.pushes.in_a_row ≡ 0 }
    ensures ring { SameProducer ring.old.producer ring.new.producer }
    ensures pumps { PumpsOn (producer_capacity ring.new.producer) source.old source.new decoder.old decoder.new (sent ring.old.producer) (sent ring.new.producer) result }
    ensures rings { RingsOn source.old source.new (B.rings ring.old.bell) (B.rings ring.new.bell) ring.old.pushes ring.new.pushes result }
    ensures long { length buffer.new ≡ length buffer.old }
{
    cuts_do_not_matter();
    match source.read(buffer) {
        Gave::Bytes(count) => {
            let (piece, _) = buffer.split_at(count);
            pump_piece(decoder, ring, piece)
        }
        Gave::Nothing => Some(PumpEnd::Closed),
        Gave::Interrupted => {
            if source.log().interruptions() < INTERRUPTIONS_MAX {
                None
            } else {
                Some(PumpEnd::ReadFault)
            }
        }
        Gave::Failed => Some(PumpEnd::ReadFault),
    }
}

/// Reads as often as a pump may, and pushes what that gives, until an end is met.
fn pump_often<R: Read, B: Bell>(
    source: &mut LoggedReader<R>,
    decoder: &mut Decoder<Requests>,
    ring: &mut Inlet<B>,
    buffer: &mut [u8],
) -> PumpEnd
    requires room { 0 < length buffer.old }
    requires unread { source.old.log ≡ fresh_log }
    requires unfed { decoder.old ≡ fresh }
    requires unpushed { ring.old.pushes ≡ none_back }
    ensures ring { SameProducer ring.old.producer ring.new.producer }
    ensures few { source.new.log.calls ≤ READS_MAX }
    ensures pumps { PumpsAll (producer_capacity ring.new.producer) source.old source.new (sent ring.old.producer) (sent ring.new.producer) result }
    ensures rings { IsRung (B.rings ring.old.bell) (B.rings ring.new.bell) ring.new.pushes source.new.log.moved (Some result) }
{
    cuts_do_not_matter();
    for _turn in 0..READS_MAX {
        match pump_on(source, decoder, ring, buffer) {
            Some(end) => return end,
            None => {}
        }
    }
    PumpEnd::ReadFault
}

/// A pump that has ended so.
fn ended<R: Read, B: Bell>(end: PumpEnd, reader: LoggedReader<R>, ring: Inlet<B>) -> Pumped<R, B>
    ensures { result ≡ record { pump = record { reader = reader; producer = ring.producer; pushes = ring.pushes; end_is = end }; rings = B.rings ring.bell } }
{
    let (producer, pushes, bell) = ring.into_parts();
    Pumped {
        end,
        reader,
        producer,
        pushes,
        bell,
    }
}

/// Reads pieces of a reader, and pushes the requests that they complete into a ring, until an end is met. After each piece it rings the
/// bell. Where the ring gives a request back, it asks for room and tries once more. It waits only where its bell does.
pub fn pump<R: Read, B: Bell>(
    alloc: Global,
    reader: R,
    producer: Producer<Request>,
    bell: B,
) -> Pumped<R, B>
    ensures ring { SameProducer producer result.pump.producer }
    ensures pumps { Pumps (R.remaining reader) producer result.pump }
    ensures rings { Rings (B.rings bell) result.rings result.pump }
{
    let mut ring = Inlet::new(producer, bell);
    let mut source = LoggedReader::new(reader);
    let mut buffer = match vec![in alloc; 0u8; PIECE] {
        Ok(buffer) => buffer,
        Err(_) => return ended(PumpEnd::NoMemory, source, ring),
    };
    let mut decoder = Decoder::new(alloc);
    let end = pump_often(&mut source, &mut decoder, &mut ring, buffer.as_mut_slice());
    let _few = source.log().interruptions();
    ended(end, source, ring)
}
