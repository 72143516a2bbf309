//! How a gate is asked for an answer.

ghost use Rattle.std.specs.Prelude.{◌≡◌, ◌≤◌, true, false};

use crate::gate::Gate;
use logged_streams::stream_log::REFUSALS_MAX;
use logged_streams::writer::LoggedWriter;
use std::io::Write;
use std::thread;

/// Asks a gate for an answer until the answer may be written, but not for ever. Other threads may run between two questions.
pub(crate) fn ask_often<W: Write, G: Gate>(
    sink: &mut LoggedWriter<W>,
    gate: &G,
    session: u64,
    place: u64,
) -> bool
    ensures contents { sink.new.contents ≡ sink.old.contents }
    ensures refused { result ≡ false → 1000 ≤ sink.new.log.refusals }
    ensures always { G.is_open ≡ true → sink.old.log.refusals ≡ 0 → (result ≡ true) × (sink.new.log.refusals ≡ 0) }
{
    while sink.log().refusals() < REFUSALS_MAX {
        if sink.ask(gate, session, place) {
            return true;
        }
        thread::yield_now();
    }
    false
}
