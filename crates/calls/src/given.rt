ghost use Rattle.std.specs.Prelude.{◌≡◌, ◌≤◌, [], length, unwrap_or};
ghost use Rattle.call_types.specs.CallTable.{payload_of};
ghost use Rattle.call_types.specs.Stored.{span_bytes};
ghost use Rattle.posix_model.specs.Step.{given};

use call_types::act::Act;
use call_types::call::Call;
use call_types::limits::GIVEN_BYTES_MAX;
use call_types::span::Span;

/// The data of a call that writes, at most 65,700 bytes; none of any other.
#[inline(always)]
fn payload_of(call: &Call) -> Span<'_>
    ensures bytes { span_bytes result ≡ unwrap_or (payload_of call.now) [] }
    ensures few { length (span_bytes result) ≤ GIVEN_BYTES_MAX }
{
    match call.payload() {
        Some(bytes) => bytes.span(),
        None => Span::Slice(&[]),
    }
}

/// The bytes that an act gives: the data of a call that writes, at most 65,700.
#[inline(always)]
pub fn given(act: &Act) -> Span<'_>
    ensures bytes { span_bytes result ≡ given act.now }
    ensures few { length (span_bytes result) ≤ GIVEN_BYTES_MAX }
{
    match act {
        Act::Call(call) => payload_of(call),
        _ => Span::Slice(&[]),
    }
}
