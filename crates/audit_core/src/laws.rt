//! What holds of verdicts. Each function does nothing; its contract is the law.

ghost use Rattle.std.specs.Prelude.{◌≡◌};
ghost use Rattle.audit_core.specs.declared.audit.TheConstants.{READS_MAX};
ghost use Rattle.audit_core.specs.Proved.Laws.{OneVerdict, OneEnding, TextIsLegal, FrontIsLegal, LegalFront, LegalHaveFrames, WrittenIsLegal, FaultStays, BrokenStays};

use frame_codec::laws::{no_frame_begins_another, stops_are_no_frames};
use frame_codec::trace::{headers_are_read, headers_go_on};
use posix_model::laws::{numbers_rise, records_are_short};

/// How often an audit reads. Definitions name the constant, so a wrong number is seen here.
pub fn reads_of_an_audit()
    ensures { READS_MAX ≡ 16777216 }
{}

/// Bytes have one verdict, and the records of legal ones one ending.
pub fn verdicts_are_one()
    ensures verdict { OneVerdict }
    ensures ending { OneEnding }
{
    no_frame_begins_another();
    stops_are_no_frames();
}

/// The text of a legal run is legal, and whatever front of it was written is legal too, with the records that are whole in it.
pub fn fronts_are_legal()
    ensures text { TextIsLegal }
    ensures front { FrontIsLegal }
{
    no_frame_begins_another();
    stops_are_no_frames();
    headers_go_on();
    headers_are_read();
}

/// Each record of a legal history has a frame, if its fields are in range (`record_is_in_range`): a closing has the actor that it is
/// to have, and no record is too long.
pub fn legal_records_have_frames()
    ensures { LegalHaveFrames }
{
    records_are_short();
    numbers_rise();
}

/// Whatever front of the text of a legal run was written is legal, with the records that are whole in it; and so is a front of the
/// run itself.
pub fn written_fronts_are_legal()
    ensures written { WrittenIsLegal }
    ensures front { LegalFront }
{
    legal_records_have_frames();
    headers_go_on();
    headers_are_read();
}

/// A verdict that tells a fault stays, whatever bytes come after: an audit need not read on.
pub fn faults_stay()
    ensures { FaultStays }
{
    headers_go_on();
}

/// A frame at fault is at fault whatever bytes come after it.
pub fn broken_stays()
    ensures { BrokenStays }
{}
