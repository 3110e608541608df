//! Bytes in a room that is taken at the start.
ghost use Rattle.std.specs.Prelude.{◌≡◌, ◌↔◌, ◌⊎◌, ◌+◌, ◌≤◌, ◌++◌, [], length, IfOk, IsTrue, IsErr, is_ok, is_err, if◌then◌else◌};
ghost use Rattle.vod_source.specs.Causes.{HasCause};
ghost use Rattle.vod_source.specs.Memory.{IsDue, IsFull, counted, failed};

use crate::SinkFailed;
use crate::memory::calls::Calls;
use std::alloc::{AllocError, Global};
use std::marker::Model;

/// Bytes in a room that is taken at the start.
#[derive(Drop)]
pub struct Room {
    bytes: Vec<u8>,
    room: usize,
}

impl Model for Room {
    ghost use Rattle.std.specs.Prelude.{◌≤◌, vec_len, vec_capacity};
    ghost use Rattle.vod_source.specs.Memory.{RoomValue};

    ghost Value = { RoomValue };

    ghost view = { λ a. record { written = a.bytes.items; room = a.room } };

    ghost invariant = { λ a. (vec_len a.bytes ≤ a.room) × (a.room ≤ vec_capacity a.bytes) };
}

impl Room {
    /// An empty room for `room` bytes. It fails for want of memory.
    pub fn new(alloc: Global, room: usize) -> Result<Self, AllocError>
        ensures { IfOk result (λ empty. empty ≡ record { written = []; room = room }) }
    {
        let bytes = Vec::with_capacity(alloc, room)?;
        Ok(Room { bytes, room })
    }

    /// The bytes that were written.
    pub fn written(&self) -> &[u8]
        ensures { result.now ≡ self.now.written }
    {
        &self.bytes
    }

    // Puts bytes at the end, and whether they had room.
    fn push(&mut self, piece: &[u8]) -> bool
        ensures full { IsTrue result ↔ (length self.old.written + length piece.now ≤ self.old.room) }
        ensures written { self.new.written ≡ (if result then self.old.written ++ piece.now else self.old.written) }
        ensures room { self.new.room ≡ self.old.room }
    {
        if piece.len() > self.room - self.bytes.len() {
            return false;
        }
        let _ = self.bytes.extend_from_slice(piece);
        true
    }

    /// Puts a piece at the end, as one of the calls. It fails where that call is to fail or the piece has no room, and then
    /// writes nothing.
    pub fn put(&mut self, calls: &mut Calls, piece: &[u8]) -> Result<(), SinkFailed>
        ensures put { self.new.written ≡ (if is_ok result then self.old.written ++ piece.now else self.old.written) }
        ensures room { self.new.room ≡ self.old.room }
        ensures due { IsErr result ↔ (IsDue calls.old ⊎ IsFull self.old piece.now) }
        ensures plan { calls.new ≡ (if is_err result then failed (counted calls.old) else counted calls.old) }
        ensures cause { HasCause calls.old.faults calls.new.faults result }
    {
        if calls.begin() {
            return Err(SinkFailed);
        }
        if self.push(piece) {
            Ok(())
        } else {
            calls.fail();
            Err(SinkFailed)
        }
    }
}
