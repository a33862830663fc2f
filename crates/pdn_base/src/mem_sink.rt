//! A sink in memory.
ghost use Rattle.std.specs.Prelude.{◌≡◌, IfOk, []};

use crate::calls::Calls;
use crate::{Memory, Sink, SinkErr};
use std::alloc::Global;
use std::marker::Model;

/// A sink in memory with room for so many bytes, which is reserved when it is made. It fails at the calls that are
/// listed, by number from 1, taking nothing, and at a put past its room, taking what fits. With an empty list and room
/// left none has failed.
#[derive(Drop)]
pub struct MemSink {
    bytes: Vec<u8>,
    room: usize,
    calls: Calls,
}

impl Model for MemSink {
    ghost use Rattle.std.specs.Prelude.{◌≡◌, ◌≤◌, ◌<◌, [], length};
    ghost use Rattle.std.specs.Vec.{vec_capacity};
    ghost use Rattle.pdn_base.specs.Outside.{SinkHeld};

    ghost Value = { SinkHeld };

    ghost view = { λ s. record { bytes = s.bytes.items; room = s.room; calls = s.calls } };

    ghost invariant = { λ s. (length s.bytes.items ≤ s.room) × (s.room ≤ vec_capacity s.bytes)
        × (s.calls.fail ≡ [] → length s.bytes.items < s.room → s.calls.faults ≡ 0) };
}

impl MemSink {
    ghost use Rattle.pdn_base.specs.Outside.{no_calls};

    /// An empty sink with this room, and the numbers of the calls that are to fail.
    pub fn new(alloc: Global, room: usize, fail: Vec<u64>) -> Result<MemSink, Memory>
        ensures { IfOk result (λ sink. sink
            ≡ record { bytes = []; room = room; calls = no_calls fail.items }) }
    {
        Ok(MemSink {
            bytes: Vec::with_capacity(alloc, room)?,
            room,
            calls: Calls::new(fail),
        })
    }

    /// All that was taken so far.
    pub fn bytes(&self) -> &[u8]
        ensures { result.now ≡ self.now.bytes }
    {
        &self.bytes
    }
}

impl Sink for MemSink {
    ghost use Rattle.std.specs.Prelude.{◌≡◌, ◌↔◌, ◌++◌, length, OnOk, OnErr, IsErr, IsOk, IsTrue, Some};
    ghost use Rattle.pdn_base.specs.Outside.{HasCause, AppendsFront, after_put, takes_all};

    ghost written = { λ s. Some s.bytes };

    ghost faults = { λ s. s.calls.faults };

    fn put(&mut self, bytes: &[u8]) -> Result<(), SinkErr>
        ensures ok { OnOk result (self.new.bytes ≡ self.old.bytes ++ bytes.now) }
        ensures failed { OnErr result (AppendsFront (Some self.old.bytes) (Some self.new.bytes)
            bytes.now) }
        ensures cause { HasCause self.old.calls.faults self.new.calls.faults (IsErr result) }
        ensures taken { self.new ≡ after_put self.old bytes.now }
        ensures whole { IsOk result ↔ IsTrue (takes_all self.old (length bytes.now)) }
    {
        if self.calls.fails() {
            return Err(SinkErr::Failed);
        }
        let fits = bytes.len().min(self.room - self.bytes.len());
        self.bytes.extend_from_slice(&bytes[..fits]).unwrap();
        if fits < bytes.len() {
            self.calls.count_fault();
            return Err(SinkErr::Failed);
        }
        Ok(())
    }
}
