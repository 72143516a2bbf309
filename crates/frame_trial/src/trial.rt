//! One stream, decoded in pieces.
use crate::shown::Shown;
use crate::trial_fault::TrialFault;
use frame_codec::decoder::{Decoder, Fed, Progress};
use std::alloc::Global;
use std::fmt::Write;
use std::io::{ErrorKind, Read};

/// How a stream is cut: a first piece of so many bytes, and then pieces of a size, of one byte where that is 0.
#[derive(Clone, Copy)]
pub(crate) struct Cut {
    pub first: usize,
    pub size: usize,
}

/// What came of a stream.
#[derive(Drop)]
pub(crate) struct Ran {
    /// All its lines.
    pub lines: Vec<u8>,
    /// How many pieces were given again.
    pub again: u64,
}

/// A stream that is being decoded.
#[derive(Drop)]
struct Trial<K: Shown> {
    alloc: Global,
    decoder: Decoder<K>,
    lines: Vec<u8>,
    frames: Vec<u8>,
    /// How many values there were so far.
    values: u64,
    again: u64,
}

/// The line of what is told after a piece.
fn progress_line(alloc: Global, progress: Progress) -> Result<String, TrialFault> {
    let mut line = String::new(alloc);
    let written = match progress {
        Progress::More => write!(line, "more\n"),
        Progress::Malformed { at } => write!(line, "malformed {at}\n"),
        Progress::TooLong { at } => write!(line, "too long {at}\n"),
    };
    written.map_err(|_| TrialFault::NoMemory)?;
    Ok(line)
}

impl<K: Shown> Trial<K> {
    /// Gives a piece to the decoder, and once more where memory is wanting.
    fn feed(&mut self, piece: &[u8]) -> Result<Fed<K::Value>, TrialFault> {
        match self.decoder.feed(piece) {
            Ok(fed) => Ok(fed),
            Err(_) => {
                self.again = self.again.saturating_add(1);
                self.decoder
                    .feed(piece)
                    .map_err(|_| TrialFault::RefusedTwice)
            }
        }
    }

    /// Gives a piece to the decoder, and gathers the lines and the frames of its values.
    fn give(&mut self, piece: &[u8]) -> Result<(), TrialFault> {
        let fed = self.feed(piece)?;
        for value in fed.values.as_slice() {
            K::put_line(&mut self.lines, self.values, value)?;
            K::put_frame(&mut self.frames, value)?;
            self.values = self.values.saturating_add(1);
        }
        let line = progress_line(self.alloc, fed.progress)?;
        self.lines.extend_from_slice(line.as_bytes())?;
        Ok(())
    }
}

/// Reads the whole stream.
pub(crate) fn read_stream<R: Read + Drop>(
    alloc: Global,
    mut reader: R,
) -> Result<Vec<u8>, TrialFault> {
    let mut stream = Vec::new(alloc);
    match reader.read_to_end(&mut stream) {
        Ok(_) => Ok(stream),
        Err(error) if error.kind() == ErrorKind::OutOfMemory => Err(TrialFault::NoMemory),
        Err(_) => Err(TrialFault::CannotRead),
    }
}

/// What comes of a stream that is cut so.
pub(crate) fn tried<K: Shown>(alloc: Global, cut: Cut, stream: &[u8]) -> Result<Ran, TrialFault> {
    let mut trial = Trial::<K> {
        alloc,
        decoder: Decoder::new(alloc),
        lines: Vec::new(alloc),
        frames: Vec::new(alloc),
        values: 0,
        again: 0,
    };
    let (first, rest) = stream.split_at(cut.first.min(stream.len()));
    trial.give(first)?;
    for piece in rest.chunks(cut.size.max(1)) {
        trial.give(piece)?;
    }
    let frames = hex::encode(alloc, trial.frames.as_slice())?;
    trial.lines.extend_from_slice(frames.as_bytes())?;
    trial.lines.extend_from_slice(b"\n")?;
    Ok(Ran {
        lines: trial.lines,
        again: trial.again,
    })
}
