ghost use Rattle.std.specs.Prelude.{◌≡◌, length, take, drop};
ghost use Rattle.call_types.specs.Stored.{span_bytes};

/// Bytes, read where they are: a slice of them, or one byte that stands so many times.
#[derive(Clone, Copy, Debug)]
pub enum Span<'a> {
    Slice(&'a [u8]),
    Same { byte: u8, count: usize },
}

impl<'a> Span<'a> {
    /// How many bytes there are.
    pub fn len(self) -> usize
        ensures { result ≡ length (span_bytes self.entry) }
    {
        match self {
            Span::Slice(bytes) => bytes.len(),
            Span::Same { count, .. } => count,
        }
    }

    /// At most `count` bytes from `start` on; none at the end or past it.
    pub fn cut(self, start: usize, count: usize) -> Span<'a>
        ensures { span_bytes result ≡ take count (drop start (span_bytes self.entry)) }
    {
        match self {
            Span::Slice(bytes) => {
                let after = &bytes[start.min(bytes.len())..];
                Span::Slice(&after[..count.min(after.len())])
            }
            Span::Same { byte, count: all } => Span::Same {
                byte,
                count: all.saturating_sub(start).min(count),
            },
        }
    }
}
