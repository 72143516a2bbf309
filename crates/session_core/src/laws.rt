//! What holds of each session that is over, and the numbers of sessions. No function does anything; its contract is the law.

ghost use Rattle.std.specs.Prelude.{◌≡◌};
ghost use Rattle.logged_streams.specs.declared.stream_log.TheConstants.{INTERRUPTIONS_MAX, REFUSALS_MAX};
ghost use Rattle.request_pump.specs.declared.pump.TheConstants.{READS_MAX};
ghost use Rattle.session_core.specs.Proved.Laws.{ActsOfSeatsFit};
ghost use Rattle.session_core.specs.declared.serve.TheConstants.{REQUESTS_AHEAD};

/// The fields of each act in the receipts of a session's seat are in the ranges that a frame has for them.
pub fn acts_of_seats_are_in_range()
    ensures { ActsOfSeatsFit }
{}

/// How many requests may wait, how often a session reads, how many interruptions in a row end that, and how often a gate is asked for
/// one answer. Definitions name the constants, so a wrong number is seen here.
pub fn numbers_of_a_session()
    ensures ahead { REQUESTS_AHEAD ≡ 16 }
    ensures reads { READS_MAX ≡ 1048576 }
    ensures interruptions { INTERRUPTIONS_MAX ≡ 16 }
    ensures refusals { REFUSALS_MAX ≡ 1000 }
{}
