//! A link in memory.
ghost use Rattle.std.specs.Prelude.{◌≡◌, ◌++◌, IfOk, [], length, take, drop, min};

use crate::{Link, LinkErr};
use pdn_base::{Calls, Memory};
use std::alloc::Global;
use std::marker::Model;

/// A link in memory to a peer that sends these bytes and takes as many as there is room for, which
/// is reserved when the link is made. It fails at the calls that are listed, by number from 1, and
/// nothing is then received or sent; and at a send past its room, of which what fits is sent. With
/// an empty list and room left none has failed.
#[derive(Drop)]
pub struct MemLink {
    input: Vec<u8>,
    at: usize,
    sent: Vec<u8>,
    room: usize,
    calls: Calls,
}

impl Model for MemLink {
    ghost use Rattle.std.specs.Prelude.{◌≡◌, ◌≤◌, ◌<◌, [], length, drop};
    ghost use Rattle.std.specs.Vec.{vec_capacity};
    ghost use Rattle.pdn_link.specs.Links.{LinkHeld};

    ghost Value = { LinkHeld };

    ghost view = { λ l. record {
      left = drop l.at l.input.items;
      out = record { bytes = l.sent.items; room = l.room; calls = l.calls };
    } };

    ghost invariant = { λ l. (l.at ≤ length l.input.items)
        × (length l.sent.items ≤ l.room) × (l.room ≤ vec_capacity l.sent)
        × (l.calls.fail ≡ [] → length l.sent.items < l.room → l.calls.faults ≡ 0) };
}

impl MemLink {
    ghost use Rattle.pdn_link.specs.Links.{new_link};

    /// A link to a peer that sends `input`, with this room for what it takes, and the numbers of
    /// the calls that are to fail.
    pub fn new(
        alloc: Global,
        input: Vec<u8>,
        room: usize,
        fail: Vec<u64>,
    ) -> Result<MemLink, Memory>
        ensures { IfOk result (λ link. link ≡ new_link input.items room fail.items) }
    {
        Ok(MemLink {
            input,
            at: 0,
            sent: Vec::with_capacity(alloc, room)?,
            room,
            calls: Calls::new(fail),
        })
    }

    /// All that was sent so far.
    pub fn sent(&self) -> &[u8]
        ensures { result.now ≡ self.now.out.bytes }
    {
        &self.sent
    }
}

/// Copies as many bytes as there is room for to the front of the room, and gives how many.
fn fill(room: &mut [u8], bytes: &[u8]) -> usize
    ensures count { result ≡ min (length room.old) (length bytes.now) }
    ensures filled { room.new ≡ take result bytes.now ++ drop result room.old }
{
    let count = room.len().min(bytes.len());
    room[..count].copy_from_slice(&bytes[..count]);
    count
}

impl Link for MemLink {
    ghost use Rattle.std.specs.Prelude.{◌≡◌, ◌<◌, ◌↔◌, ◌++◌, length, take, drop, Some};
    ghost use Rattle.std.specs.Prelude.{OnOk, OnErr, IsErr, IsOk, IsTrue, IfOk};
    ghost use Rattle.std.specs.Io.{ReadsAtMost};
    ghost use Rattle.std.specs.Io.KnownBytes.{ReadConsumes};
    ghost use Rattle.pdn_base.specs.Outside.{HasCause, AppendsFront, after_put, takes_all};
    ghost use Rattle.pdn_link.specs.Links.{received, after_recv};

    ghost left = { λ l. Some l.left };

    ghost sent = { λ l. Some l.out.bytes };

    ghost faults = { λ l. l.out.calls.faults };

    fn recv(&mut self, room: &mut [u8]) -> Result<usize, LinkErr>
        requires some { 0 < length room.now }
        ensures bound { ReadsAtMost result room.new }
        ensures bytes { ReadConsumes (Some self.old.left) (Some self.new.left) result room.new }
        ensures same { self.new.out.bytes ≡ self.old.out.bytes }
        ensures cause { HasCause self.old.out.calls.faults self.new.out.calls.faults
            (IsErr result) }
        ensures exact { result ≡ received self.old (length room.old) }
        ensures taken { self.new ≡ after_recv self.old (length room.old) }
    {
        if self.calls.fails() {
            return Err(LinkErr::Failed);
        }
        let count = fill(room, &self.input[self.at..]);
        self.at += count;
        Ok(count)
    }

    fn send(&mut self, bytes: &[u8]) -> Result<(), LinkErr>
        ensures ok { OnOk result (self.new.out.bytes ≡ self.old.out.bytes ++ bytes.now) }
        ensures failed { OnErr result
            (AppendsFront (Some self.old.out.bytes) (Some self.new.out.bytes) bytes.now) }
        ensures same { self.new.left ≡ self.old.left }
        ensures cause { HasCause self.old.out.calls.faults self.new.out.calls.faults
            (IsErr result) }
        ensures taken { self.new.out ≡ after_put self.old.out bytes.now }
        ensures whole { IsOk result ↔ IsTrue (takes_all self.old.out (length bytes.now)) }
    {
        if self.calls.fails() {
            return Err(LinkErr::Failed);
        }
        let fits = bytes.len().min(self.room - self.sent.len());
        self.sent.extend_from_slice(&bytes[..fits]).unwrap();
        if fits < bytes.len() {
            self.calls.count_fault();
            return Err(LinkErr::Failed);
        }
        Ok(())
    }
}
