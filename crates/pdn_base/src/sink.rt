//! Where texts go.
ghost use Rattle.std.specs.Prelude.{List, ℕ, Option, OnOk, OnErr, IsErr};
ghost use Rattle.std.specs.Io.KnownBytes.{Appends};
ghost use Rattle.pdn_base.specs.Outside.{HasCause, AppendsFront};

/// Why bytes were not all taken.
#[derive(Clone, Copy, Debug, PartialEq, Eq)]
pub enum SinkErr {
    Failed,
}

/// Takes bytes, one piece after the other.
pub trait Sink {
    /// All that was put so far, where that is told.
    ghost written: { Self → Option (List ℕ) };

    /// How many puts have failed.
    ghost faults: { Self → ℕ };

    /// Puts these bytes after those that were put. Failed comes only where the count of faults rose; a front of the
    /// bytes is then put.
    fn put(&mut self, bytes: &[u8]) -> Result<(), SinkErr>
        ensures ok { OnOk result (Appends (written self.old) (written self.new) bytes.now) }
        ensures failed { OnErr result (AppendsFront (written self.old) (written self.new)
            bytes.now) }
        ensures cause { HasCause (faults self.old) (faults self.new) (IsErr result) };
}
