//! A sink over any writer.
ghost use Rattle.std.specs.Prelude.{◌≡◌, None};

use crate::{Sink, SinkErr};
use std::io::Write;

/// A sink over a writer, as standard output. It tells nothing of what was put.
#[derive(Drop)]
pub struct StdSink<W: Write + Drop> {
    to: W,
    faults: u64,
}

impl<W: Write + Drop> StdSink<W> {
    /// The sink that writes to this writer; no put has failed.
    pub fn new(to: W) -> StdSink<W>
        ensures { ⟦<StdSink<W> as Sink>⟧.faults result ≡ 0 }
    {
        StdSink { to, faults: 0 }
    }
}

impl<W: Write + Drop> Sink for StdSink<W> {
    ghost written = { λ _. None };

    ghost faults = { λ s. s.faults };

    // A write that takes nothing of a piece is an error of `write_all`.
    fn put(&mut self, bytes: &[u8]) -> Result<(), SinkErr> {
        if self.to.write_all(bytes).is_err() || self.to.flush().is_err() {
            self.faults = self.faults.saturating_add(1);
            return Err(SinkErr::Failed);
        }
        Ok(())
    }
}
