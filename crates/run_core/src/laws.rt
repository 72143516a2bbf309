//! What holds of each run. No function does anything; its contract is the law.

ghost use Rattle.std.specs.Prelude.{◌≡◌, true};
ghost use Rattle.frame_codec.specs.Trace.{is_told, told_of};
ghost use Rattle.run_core.specs.Proved.Laws.{RunsAreJudged, RunsAreSpelled};

use audit_core::laws::{legal_records_have_frames, written_fronts_are_legal};
use call_types::limits::Limits;
use frame_codec::trace::{ToldLimits, headers_are_read};
use session_core::laws::acts_of_seats_are_in_range;

/// What was added to the sink of a run is legal, whatever the sink took of its trace, and each of its records can be spelled. Its header
/// may tell these limits.
pub(crate) fn runs_are_judged(limits: Limits)
    ensures judged { RunsAreJudged }
    ensures spelled { RunsAreSpelled }
    ensures told { is_told (told_of limits) ≡ true }
{
    acts_of_seats_are_in_range();
    legal_records_have_frames();
    written_fronts_are_legal();
    headers_are_read();
    let _told = ToldLimits::of(limits);
}
