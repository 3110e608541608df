//! A sink in memory.
ghost use Rattle.std.specs.Prelude.{◌≡◌, ◌↔◌, ◌⊎◌, ◌++◌, [], Some, IfOk, IfErr, IsErr, is_ok, is_err, if◌then◌else◌};
ghost use Rattle.vod_types.specs.declared.refusal.Refusal.TheVariants.{NoMemory};
ghost use Rattle.vod_source.specs.Causes.{HasCause};
ghost use Rattle.vod_source.specs.Memory.{IsDue, IsFull, counted, failed};

use crate::memory::calls::Calls;
use crate::memory::room::Room;
use crate::{Sink, SinkFailed};
use std::alloc::Global;
use std::marker::Model;
use vod_types::Refusal;

/// A list of bytes in memory, in a room that is taken at the start.
///
/// A `put` fails where its number is one of those that are to fail, or its piece has no room, and then writes nothing.
#[derive(Drop)]
pub struct MemSink {
    out: Room,
    calls: Calls,
}

impl Model for MemSink {
    ghost use Rattle.vod_source.specs.Memory.{SinkValue};

    ghost Value = { SinkValue };

    ghost view = { λ a. record { out = a.out; plan = a.calls } };
}

impl MemSink {
    /// An empty sink with room for `room` bytes, whose calls with the numbers `fails`, from 1, fail. It fails for want of
    /// memory.
    pub fn new(alloc: Global, room: usize, fails: Vec<u64>) -> Result<Self, Refusal>
        ensures empty { IfOk result (λ sink. sink ≡ record {
          out = record { written = []; room = room };
          plan = record { fails = fails.items; made = 0; faults = 0 };
        }) }
        ensures only { IfErr result (λ refusal. refusal ≡ NoMemory) }
    {
        match Room::new(alloc, room) {
            Ok(out) => Ok(MemSink {
                out,
                calls: Calls::new(fails),
            }),
            Err(_) => Err(Refusal::NoMemory),
        }
    }

    /// What was written.
    pub fn written(&self) -> &[u8]
        ensures { result.now ≡ self.now.out.written }
    {
        self.out.written()
    }
}

impl Sink for MemSink {
    ghost kept = { λ _. tt };

    ghost written = { λ s. Some s.out.written };

    ghost faults = { λ s. s.plan.faults };

    fn put(&mut self, piece: &[u8]) -> Result<(), SinkFailed>
        ensures put { self.new.out.written ≡ (if is_ok result then self.old.out.written ++ piece.now else self.old.out.written) }
        ensures room { self.new.out.room ≡ self.old.out.room }
        ensures due { IsErr result ↔ (IsDue self.old.plan ⊎ IsFull self.old.out piece.now) }
        ensures plan { self.new.plan ≡ (if is_err result then failed (counted self.old.plan) else counted self.old.plan) }
        ensures cause { HasCause self.old.plan.faults self.new.plan.faults result }
    {
        self.out.put(&mut self.calls, piece)
    }
}
