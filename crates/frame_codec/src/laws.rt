//! What holds of the frames themselves. Each function does nothing; its contract is the law.

ghost use Rattle.std.specs.Prelude.{◌≡◌, ℕ, List, Some};
ghost use Rattle.call_types.specs.Ranges.{AreBytes};
ghost use Rattle.call_types.specs.declared.act.Record.{Record};
ghost use Rattle.call_types.specs.declared.request.Request.{Request};
ghost use Rattle.frame_codec.specs.declared.answer.Answer.{Answer};
ghost use Rattle.frame_codec.specs.Requests.{request_bytes, RequestFits, SpellsRequest};
ghost use Rattle.frame_codec.specs.Answers.{answer_bytes, AnswerFits, SpellsAnswer};
ghost use Rattle.frame_codec.specs.Records.{record_bytes, RecordFits, SpellsRecord};
ghost use Rattle.frame_codec.specs.Proved.Laws.{DataIsRead, OneForm, CutsDoNotMatter, OneReading, LongestReading, FrontReads, NoFrameThere, PiecesGoOn};
ghost use Rattle.frame_codec.specs.Frames.{frame, IsFrame};
ghost use Rattle.frame_codec.specs.Proved.Reading.{payload_at};
ghost use Rattle.frame_codec.specs.Proved.ReadingRequests.{request_at};
ghost use Rattle.frame_codec.specs.Proved.ReadingAnswers.{answer_at};
ghost use Rattle.frame_codec.specs.Proved.ReadingRecords.{record_at};
ghost use Rattle.frame_codec.specs.Proved.FrameRows.{FrameRows};

use crate::frame_kind::FrameKind;

/// Every request, answer and record in range is read again from its payload.
pub fn written_values_are_read()
    ensures requests { (request : Request) → RequestFits request → payload_at request_at (request_bytes request) ≡ Some request }
    ensures answers { (answer : Answer) → AnswerFits answer → payload_at answer_at (answer_bytes answer) ≡ Some answer }
    ensures records { (r : Record) → RecordFits r → payload_at record_at (record_bytes r) ≡ Some r }
{}

/// What is read from a payload is in range, and the payload spells it, each byte.
pub fn read_values_are_spelled()
    ensures requests { (request : Request) (payload : List ℕ) → AreBytes payload → payload_at request_at payload ≡ Some request → SpellsRequest request payload }
    ensures answers { (answer : Answer) (payload : List ℕ) → AreBytes payload → payload_at answer_at payload ≡ Some answer → SpellsAnswer answer payload }
    ensures records { (r : Record) (payload : List ℕ) → AreBytes payload → payload_at record_at payload ≡ Some r → SpellsRecord r payload }
{}

/// A decoder takes the frame of each record in range, if only a read, a pread or a resume is answered with data. With
/// other acts the frame could be too long: a long write that is answered with long data.
pub fn records_have_frames()
    ensures { (r : Record) → RecordFits r → DataIsRead r.act r.outcome → IsFrame SpellsRecord 66048 r (frame (record_bytes r)) }
{}

/// No frame is a proper front of another, so what was written is read again, whatever follows it.
pub fn no_frame_begins_another()
    ensures requests { OneForm SpellsRequest 65792 }
    ensures answers { OneForm SpellsAnswer 66048 }
    ensures records { OneForm SpellsRecord 66048 }
{}

/// However a stream is cut into pieces, a decoder gives the same values and tells the same first fault.
pub fn cuts_do_not_matter()
    ensures requests { CutsDoNotMatter SpellsRequest 65792 }
    ensures answers { CutsDoNotMatter SpellsAnswer 66048 }
    ensures records { CutsDoNotMatter SpellsRecord 66048 }
{}

/// Bytes have one list of values and one fault or none, and no list of values whose frames begin the bytes is longer.
pub fn bytes_have_one_reading()
    ensures requests { OneReading SpellsRequest 65792 }
    ensures answers { OneReading SpellsAnswer 66048 }
    ensures records { OneReading SpellsRecord 66048 }
    ensures most_requests { LongestReading SpellsRequest 65792 }
    ensures most_answers { LongestReading SpellsAnswer 66048 }
    ensures most_records { LongestReading SpellsRecord 66048 }
{}

/// If a stream of frames is cut off anywhere, what is read of it has no fault, and gives the first of its values and nothing else.
pub fn fronts_are_read()
    ensures requests { FrontReads SpellsRequest 65792 }
    ensures answers { FrontReads SpellsAnswer 66048 }
    ensures records { FrontReads SpellsRecord 66048 }
{}

/// Where bytes are too few for a frame, or the first frame is at fault, no value's frame begins.
pub fn stops_are_no_frames()
    ensures requests { NoFrameThere SpellsRequest 65792 }
    ensures answers { NoFrameThere SpellsAnswer 66048 }
    ensures records { NoFrameThere SpellsRecord 66048 }
{}

/// What a decoder gave of a stream, and what it holds or where the fault is, goes on with each piece.
pub fn pieces_go_on<K: FrameKind>()
    ensures { PiecesGoOn K.spells K.most }
{}

/// A frame of each request and of each kind of answer, and those of some records, byte by byte: what is read and what is written both
/// go by the same tables. Some frames spell no record, and the length of one is too great.
pub fn frames_as_written()
    ensures { FrameRows }
{}
