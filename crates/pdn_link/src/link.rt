//! A link to a peer.
ghost use Rattle.std.specs.Prelude.{◌≡◌, ◌<◌, List, ℕ, length, Option, OnOk, OnErr, IsErr};
ghost use Rattle.std.specs.Io.{ReadsAtMost};
ghost use Rattle.std.specs.Io.KnownBytes.{Appends, ReadConsumes};
ghost use Rattle.pdn_base.specs.Outside.{HasCause, AppendsFront};

/// Why bytes were not received, or not all taken.
#[derive(Clone, Copy, Debug, PartialEq, Eq)]
pub enum LinkErr {
    Failed,
}

/// A link to a peer, which sends bytes and takes bytes. Failed comes only where the count of
/// faults rose.
pub trait Link {
    /// All that the peer will still send, up to its end, where that is told.
    ghost left: { Self → Option (List ℕ) };

    /// All that was sent to the peer so far, where that is told.
    ghost sent: { Self → Option (List ℕ) };

    /// How many calls have failed.
    ghost faults: { Self → ℕ };

    /// Receives the next bytes at the front of the room, and gives how many: at most the room's
    /// length, and 0 exactly where the peer sends no more. Failed receives nothing.
    fn recv(&mut self, room: &mut [u8]) -> Result<usize, LinkErr>
        requires some { 0 < length room.now }
        ensures bound { ReadsAtMost result room.new }
        ensures bytes { ReadConsumes (left self.old) (left self.new) result room.new }
        ensures same { sent self.new ≡ sent self.old }
        ensures cause { HasCause (faults self.old) (faults self.new) (IsErr result) };

    /// Sends these bytes after those that were sent. After Failed a front of them is sent.
    fn send(&mut self, bytes: &[u8]) -> Result<(), LinkErr>
        ensures ok { OnOk result (Appends (sent self.old) (sent self.new) bytes.now) }
        ensures failed { OnErr result (AppendsFront (sent self.old) (sent self.new) bytes.now) }
        ensures same { left self.new ≡ left self.old }
        ensures cause { HasCause (faults self.old) (faults self.new) (IsErr result) };
}
