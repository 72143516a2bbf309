//! Where the connections of a run come from.

ghost use Rattle.std.specs.Prelude.{◌≡◌, ◌+◌, ◌<◌, ◌^◌, ◌∷◌, [], ℕ, OnOk, OnErr, IfOk};
ghost use Rattle.run_core.specs.Run.{GivesConnections, IsBlank, streams};

use session_core::connection::Connection;
use std::io::{Read, Write};

/// No connection could be accepted.
#[derive(Clone, Copy, Debug, PartialEq, Eq)]
pub struct AcceptFailed;

/// What gives connections, one after another, each as a reader and a writer.
pub trait Source {
    type Reader: Read + Send + Drop + 'static;

    type Writer: Write + Connection + Send + Drop + 'static;

    ghost use Rattle.std.specs.Prelude.{Option, List};
    ghost use Rattle.run_core.specs.Run.{Streams};

    /// How many times it gave no connection.
    ghost failures: { Self → ℕ };

    /// How many connections it gave.
    ghost accepted: { Self → ℕ };

    /// What the connections to come hold, in order; `None` where that is not known, as for sockets.
    ghost coming: { Self → Option (List Streams) };

    /// The next connection, for which it may wait. It is the next of those to come, and its writer holds nothing.
    fn accept(&mut self) -> Result<(Self::Reader, Self::Writer), AcceptFailed>
        requires failures { failures self.old + 1 < 2 ^ 64 }
        requires accepted { accepted self.old + 1 < 2 ^ 64 }
        ensures ok { OnOk result ((failures self.new ≡ failures self.old) × (accepted self.new ≡ accepted self.old + 1)) }
        ensures next { IfOk result (λ connection. GivesConnections (coming self.old) (coming self.new) (streams (Self.Reader.Read.remaining connection.0) (Self.Writer.Write.contents connection.1) ∷ [])) }
        ensures blank { IfOk result (λ connection. IsBlank (Self.Writer.Write.contents connection.1)) }
        ensures err { OnErr result ((failures self.new ≡ failures self.old + 1) × (accepted self.new ≡ accepted self.old) × (coming self.new ≡ coming self.old)) };

    /// How many times a connection could not be accepted.
    fn failures(&self) -> u64
        ensures { result ≡ failures self.now };
}
