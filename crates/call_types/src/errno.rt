ghost use Rattle.std.specs.Prelude.{◌≡◌};
ghost use Rattle.call_types.specs.Errors.{error_number};

/// The recorded refusals, with the error numbers of records and answers (XSH 2.3, Error Numbers, and the pages of the calls).
#[derive(Clone, Copy, Debug, PartialEq, Eq)]
pub enum Errno {
    /// Bad file descriptor.
    EBADF = 1,
    /// Invalid argument.
    EINVAL = 2,
    /// Illegal seek: a position on a pipe or FIFO.
    ESPIPE = 3,
    /// File too large: a write at the size limit or past it, or an ftruncate over it.
    EFBIG = 4,
    /// An offset past the greatest of its type.
    EOVERFLOW = 5,
    /// No such name.
    ENOENT = 6,
    /// The name exists.
    EEXIST = 7,
    /// Too many links.
    EMLINK = 8,
    /// A name of more than 64 bytes.
    ENAMETOOLONG = 9,
    /// No descriptor of the process is free.
    EMFILE = 10,
    /// Too many open file descriptions.
    ENFILE = 11,
    /// No room for a further name.
    ENOSPC = 12,
    /// The call would wait, or there are too many processes, or the run is closed.
    EAGAIN = 13,
    /// A pipe without a reader.
    EPIPE = 14,
    /// A FIFO without a reader.
    ENXIO = 15,
    /// No such process, or none that has no connection yet.
    ESRCH = 16,
}

impl Errno {
    /// The number of the error in records and answers, 1 to 16.
    pub fn number(self) -> u8
        ensures { result ≡ error_number self }
    {
        self as u8
    }
}
