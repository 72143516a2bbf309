//! The connection of a session, as far as its answers need it.

use std::io::Write;
use std::net::Shutdown;
use std::os::unix::net::UnixStream;

/// What writes to a connection that can be shut.
pub trait Connection: Write {
    ghost use Rattle.std.specs.Prelude.{ℕ, List, Option};

    // A connection whose writer holds these bytes was shut. Where the connection is not known, only `shut` tells this.
    ghost was_shut: { Option (List ℕ) → Type 0 };

    /// Shuts the connection: its client reads no further than to what was written, and its reader soon gives no more.
    fn shut(&self)
        ensures { was_shut (Self.Write.contents self.now) };
}

impl Connection for UnixStream {
    ghost was_shut = { λ _. Unit {0} };

    fn shut(&self) {
        let _gone = self.shutdown(Shutdown::Both);
    }
}
