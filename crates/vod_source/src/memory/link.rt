//! A link in memory.
ghost use Rattle.std.specs.Prelude.{◌≡◌, ◌↔◌, ◌⊎◌, ◌++◌, ◌<◌, [], length, min, take, Some, IfOk, IfErr, OnErr, IsErr, is_ok, is_err, if◌then◌else◌};
ghost use Rattle.std.specs.List.{concat};
ghost use Rattle.std.proofs.Common.{ap};
ghost use Rattle.vod_types.specs.declared.refusal.Refusal.TheVariants.{NoMemory};
ghost use Rattle.vod_source.specs.Causes.{HasCause};
ghost use Rattle.vod_source.specs.Exchanged.{Takes};
ghost use Rattle.vod_source.specs.Memory.{IsDue, IsFull, counted, failed, skipped, cut, first_piece, pieces_in};

use crate::memory::calls::Calls;
use crate::memory::pieces::Pieces;
use crate::memory::room::Room;
use crate::{Link, LinkFailed, Sink, SinkFailed};
use std::alloc::Global;
use std::marker::Model;
use vod_types::Refusal;

/// A connection in memory, whose input comes in pieces. What is written goes into a room that is taken at the start.
///
/// `put` and `take` count as calls of one number. A call fails where its number is one of those that are to fail, and a
/// `put` also where its piece has no room; it then writes and takes nothing. A `take` crosses no border between two pieces.
#[derive(Drop)]
pub struct MemLink {
    input: Pieces,
    out: Room,
    calls: Calls,
}

impl Model for MemLink {
    ghost use Rattle.vod_source.specs.Memory.{LinkValue};

    ghost Value = { LinkValue };

    ghost view = { λ a. record { input = a.input; out = a.out; plan = a.calls } };
}

impl MemLink {
    /// A link with this input and room for `room` bytes, whose calls with the numbers `fails`, from 1, fail. It fails for
    /// want of memory.
    pub fn new(
        alloc: Global,
        input: Vec<Vec<u8>>,
        room: usize,
        fails: Vec<u64>,
    ) -> Result<Self, Refusal>
        ensures fresh { IfOk result (λ link. link ≡ record {
          input = cut 0 (pieces_in input.items);
          out = record { written = []; room = room };
          plan = record { fails = fails.items; made = 0; faults = 0 };
        }) }
        ensures only { IfErr result (λ refusal. refusal ≡ NoMemory) }
    {
        match Room::new(alloc, room) {
            Ok(out) => Ok(MemLink {
                input: Pieces::new(input),
                out,
                calls: Calls::new(fails),
            }),
            Err(_) => Err(Refusal::NoMemory),
        }
    }

    /// What was written.
    pub fn written(&self) -> &[u8]
        ensures { result.now ≡ self.now.out.written }
    {
        self.out.written()
    }
}

impl Sink for MemLink {
    ghost use Rattle.std.specs.Prelude.{ℕ, List};

    ghost Kept = { List (List ℕ) };

    ghost kept = { λ l. l.input };

    ghost written = { λ l. Some l.out.written };

    ghost faults = { λ l. l.plan.faults };

    fn put(&mut self, piece: &[u8]) -> Result<(), SinkFailed>
        ensures kept { self.new.input ≡ self.old.input }
        ensures put { self.new.out.written ≡ (if is_ok result then self.old.out.written ++ piece.now else self.old.out.written) }
        ensures room { self.new.out.room ≡ self.old.out.room }
        ensures due { IsErr result ↔ (IsDue self.old.plan ⊎ IsFull self.old.out piece.now) }
        ensures plan { self.new.plan ≡ (if is_err result then failed (counted self.old.plan) else counted self.old.plan) }
        ensures cause { HasCause self.old.plan.faults self.new.plan.faults result }
    {
        self.out.put(&mut self.calls, piece)
    }
}

impl Link for MemLink {
    ghost left = { λ l. Some (concat l.input) };

    ghost left_by_kept = { λ a b e. ap (λ input. Some (concat input)) e };

    fn take(&mut self, room: &mut [u8]) -> Result<usize, LinkFailed>
        requires { 0 < length room.old }
        // It crosses no border between two pieces.
        ensures within { IfOk result (λ n. n ≡ min (length room.new) (length (first_piece (skipped self.old.input)))) }
        ensures rest { IfOk result (λ n. self.new.input ≡ cut n (skipped self.old.input)) }
        ensures kept { OnErr result (self.new.input ≡ self.old.input) }
        ensures out { self.new.out ≡ self.old.out }
        ensures due { IsErr result ↔ IsDue self.old.plan }
        ensures plan { self.new.plan ≡ (if is_err result then failed (counted self.old.plan) else counted self.old.plan) }
        ensures taken { Takes (Some (concat self.old.input)) (Some (concat self.new.input)) result room.new }
        ensures cause { HasCause self.old.plan.faults self.new.plan.faults result }
    {
        if self.calls.begin() {
            return Err(LinkFailed);
        }
        Ok(self.input.take(room))
    }
}
