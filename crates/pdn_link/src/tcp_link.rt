//! A link over any stream.
ghost use Rattle.std.specs.Prelude.{◌≡◌, None};

use crate::{Link, LinkErr};
use std::io::{Read, Write};

/// A link over a stream, as a socket's. It tells nothing of what its peer sends or has taken.
#[derive(Drop)]
pub struct TcpLink<S: Read + Write + Drop> {
    stream: S,
    faults: u64,
}

impl<S: Read + Write + Drop> TcpLink<S> {
    /// The link over this stream; no call has failed.
    pub fn new(stream: S) -> TcpLink<S>
        ensures { ⟦<TcpLink<S> as Link>⟧.faults result ≡ 0 }
    {
        TcpLink { stream, faults: 0 }
    }
}

impl<S: Read + Write + Drop> Link for TcpLink<S> {
    ghost left = { λ _. None };

    ghost sent = { λ _. None };

    ghost faults = { λ l. l.faults };

    fn recv(&mut self, room: &mut [u8]) -> Result<usize, LinkErr> {
        let Ok(count) = self.stream.read(room) else {
            self.faults = self.faults.saturating_add(1);
            return Err(LinkErr::Failed);
        };
        Ok(count)
    }

    // A write that takes nothing of a piece is an error of `write_all`.
    fn send(&mut self, bytes: &[u8]) -> Result<(), LinkErr> {
        if self.stream.write_all(bytes).is_err() || self.stream.flush().is_err() {
            self.faults = self.faults.saturating_add(1);
            return Err(LinkErr::Failed);
        }
        Ok(())
    }
}
