//! Requests, read from their payloads.

ghost use Rattle.std.specs.Int.{w32};
ghost use Rattle.call_types.specs.declared.request.Request.TheVariants as requests;
ghost use Rattle.frame_codec.specs.Proved.Reading.{Gives, as_at, number_at, payload_at};
ghost use Rattle.frame_codec.specs.Proved.ReadingRequests.{call_at, request_at};

use crate::calls::call;
use crate::fault::PayloadFault;
use crate::fields::number32;
use call_types::request::Request;
use std::alloc::Global;

/// The process of an attach.
fn attach(bytes: &[u8]) -> Result<(Request, &[u8]), PayloadFault>
    ensures { Gives (λ x. (x.0, x.1.now)) result (as_at (number_at w32) requests.Attach bytes.now) }
{
    let (process, rest) = number32(bytes)?;
    Ok((Request::Attach { process }, rest))
}

/// The call at the front.
fn called(alloc: Global, bytes: &[u8]) -> Result<(Request, &[u8]), PayloadFault>
    ensures { Gives (λ x. (x.0, x.1.now)) result (as_at call_at requests.Call bytes.now) }
{
    let (call, rest) = call(alloc, bytes)?;
    Ok((Request::Call(call), rest))
}

/// The request at the front.
fn request(alloc: Global, bytes: &[u8]) -> Result<(Request, &[u8]), PayloadFault>
    ensures { Gives (λ x. (x.0, x.1.now)) result (request_at bytes.now) }
{
    match bytes {
        [] => Err(PayloadFault::Malformed),
        [1, rest @ ..] => Ok((Request::Join, rest)),
        [2, rest @ ..] => attach(rest),
        [_, ..] => called(alloc, bytes),
    }
}

/// The request of a payload.
pub(crate) fn request_of(alloc: Global, payload: &[u8]) -> Result<Request, PayloadFault>
    ensures { Gives (λ x. x) result (payload_at request_at payload.now) }
{
    let (request, rest) = request(alloc, payload)?;
    if !rest.is_empty() {
        return Err(PayloadFault::Malformed);
    }
    Ok(request)
}
