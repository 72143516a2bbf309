//! One stream, decoded or encoded many times, so that it can be timed.
use crate::shown::Shown;
use crate::trial_fault::TrialFault;
use frame_codec::decoder::Decoder;
use std::alloc::Global;

/// Decodes a stream so many times, in pieces of a size (of one byte where that is 0), and tells how many values it gave in all.
pub(crate) fn decoded_often<K: Shown>(
    alloc: Global,
    stream: &[u8],
    size: usize,
    times: usize,
) -> Result<u64, TrialFault> {
    let mut count: u64 = 0;
    for _time in 0..times {
        let mut decoder = Decoder::<K>::new(alloc);
        for piece in stream.chunks(size.max(1)) {
            let fed = decoder.feed(piece)?;
            count = count.saturating_add(fed.values.len() as u64);
        }
    }
    Ok(count)
}

/// Encodes the values of a stream so many times, into a buffer that is used again after so many bytes, and tells how many bytes that made.
pub(crate) fn encoded_often<K: Shown>(
    alloc: Global,
    stream: &[u8],
    size: usize,
    times: usize,
) -> Result<u64, TrialFault> {
    let fed = Decoder::<K>::new(alloc).feed(stream)?;
    let mut out = Vec::new(alloc);
    let mut count: u64 = 0;
    for _time in 0..times {
        for value in fed.values.as_slice() {
            K::put_frame(&mut out, value)?;
            if out.len() >= size {
                count = count.saturating_add(out.len() as u64);
                out.clear();
            }
        }
    }
    Ok(count.saturating_add(out.len() as u64))
}
