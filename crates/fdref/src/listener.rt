//! Connections over a Unix socket.

use crate::causes::Causes;
use crate::perform::Listens;
use run_core::source::{AcceptFailed, Source};
use std::fs::Files;
use std::io;
use std::net::Net;
use std::os::unix::net::{UnixListener, UnixStream};

/// A socket that listens, how many connections it gave, how many times it gave none, and what the system said last when it gave none.
#[derive(Drop)]
pub struct Listener {
    socket: UnixListener,
    accepted: u64,
    failures: u64,
    said: Option<io::Error>,
}

impl Listener {
    /// The next connection, as a stream to read and one to write.
    fn next(&self) -> io::Result<(UnixStream, UnixStream)> {
        let (reader, _address) = self.socket.accept()?;
        let writer = reader.try_clone()?;
        Ok((reader, writer))
    }
}

impl Source for Listener {
    type Reader = UnixStream;

    type Writer = UnixStream;

    ghost use Rattle.std.specs.Prelude.{None};

    ghost failures = { λ listener. listener.failures };

    ghost accepted = { λ listener. listener.accepted };

    ghost coming = { λ _. None };

    fn accept(&mut self) -> Result<(UnixStream, UnixStream), AcceptFailed> {
        match self.next() {
            Ok(connection) => {
                self.accepted += 1;
                Ok(connection)
            }
            Err(error) => {
                self.failures += 1;
                self.said = Some(error);
                Err(AcceptFailed)
            }
        }
    }

    fn failures(&self) -> u64 {
        self.failures
    }
}

/// What makes sockets that listen.
#[derive(Drop)]
pub struct Sockets<'a, R> {
    pub rt: &'a R,
    pub causes: &'a Causes,
}

impl<'a, R: Files + Net> Listens for Sockets<'a, R> {
    ghost use Rattle.std.specs.Prelude.{None, ⊤};

    type Source = Listener;

    ghost coming_at = { λ _ _. None };

    ghost is_unheard = { λ _ _. ⊤ };

    fn listen(&self, path: &str) -> Option<Listener> {
        // an empty path would be an address that the system chooses
        if path.is_empty() {
            self.causes.note(path, io::Error::other("an empty path"));
            return None;
        }
        match UnixListener::bind(self.rt, path) {
            Ok(socket) => Some(Listener {
                socket,
                accepted: 0,
                failures: 0,
                said: None,
            }),
            Err(error) => {
                self.causes.note(path, error);
                None
            }
        }
    }

    fn note(&self, path: &str, source: &Listener) {
        if let Some(error) = source.said {
            self.causes.note_unaccepted(path, error);
        }
    }
}
