//! A store of one file that changes.
ghost use Rattle.std.specs.Prelude.{◌≡◌, ◌^◌, ◌<◌, length, None, Some, Ok, IfOk, IfErr, IsOk, if◌then◌else◌, bytes_eq, [], ◌≤◌};
ghost use Rattle.vod_source.specs.contracts.memory.shift.ShiftStore.{the_row};
ghost use Rattle.std.specs.Borrow.{sem};
ghost use Rattle.std.specs.Io.BufRead.{Rests};
ghost use Rattle.vod_types.specs.declared.refusal.Refusal.TheVariants.{NoMemory};
ghost use Rattle.vod_source.specs.Stored.{LentFrom};
ghost use Rattle.vod_source.specs.Memory.{text_shown, zero_filled, raised};

use crate::memory::zeros::refill;
use crate::{Store, StoreFailed};
use std::alloc::Global;
use std::marker::Model;
use vod_types::{Name, Refusal};

// The length of the longest loan.
const LOAN: usize = 65536;

/// One file, whose text is another after some loans. It tells no content, and none of its calls fails.
#[derive(Drop)]
pub struct ShiftStore {
    name: Name,
    first: Vec<u8>,
    second: Vec<u8>,
    turn: u64,
    loans: u64,
    room: Vec<u8>,
}

impl Model for ShiftStore {
    ghost use Rattle.std.specs.Prelude.{◌≤◌, vec_capacity};
    ghost use Rattle.vod_source.specs.Stored.{LentFrom};
    ghost use Rattle.vod_source.specs.Memory.{ShiftValue};

    ghost Value = { ShiftValue };

    ghost view = { λ a. record { name = a.name; first = a.first.items; second = a.second.items; turn = a.turn; loans = a.loans } };

    ghost invariant = { λ a. 65536 ≤ vec_capacity a.room };
}

impl ShiftStore {
    /// A file that shows the first text in its first `turn` loans, and then the second, which is as long. It fails for want
    /// of memory.
    pub fn new(
        alloc: Global,
        name: Name,
        first: Vec<u8>,
        second: Vec<u8>,
        turn: u64,
    ) -> Result<Self, Refusal>
        requires { length first.items ≡ length second.items }
        ensures fresh { IfOk result (λ store. store ≡ record { name = name; first = first.items; second = second.items; turn = turn; loans = 0 }) }
        ensures only { IfErr result (λ refusal. refusal ≡ NoMemory) }
    {
        match Vec::with_capacity(alloc, LOAN) {
            Ok(room) => Ok(ShiftStore {
                name,
                first,
                second,
                turn,
                loans: 0,
                room,
            }),
            Err(_) => Err(Refusal::NoMemory),
        }
    }
}

// One of two texts, or an empty one.
fn choose<'a>(first: &'a [u8], second: &'a [u8], is_named: bool, is_early: bool) -> &'a [u8]
    ensures { result.now ≡ (if is_named then (if is_early then first.now else second.now) else []) }
{
    if !is_named {
        &[]
    } else if is_early {
        first
    } else {
        second
    }
}

impl Store for ShiftStore {
    ghost content = { λ _. None };

    ghost log = { λ _. None };

    ghost faults = { λ _. 0 };

    ghost moved = { λ old new _. new ≡ record old { loans = raised old.loans } };

    fn size(&mut self, name: &str) -> Result<Option<u64>, StoreFailed>
        ensures size { result ≡ Ok (if bytes_eq self.old.name name.now then Some (length self.old.first) else None) }
        ensures file { self.new ≡ self.old }
    {
        Ok(if self.name.as_str() == name {
            Some(self.first.len() as u64)
        } else {
            None
        })
    }

    fn lend(&mut self, name: &str, at: u64, n: usize) -> Result<&[u8], StoreFailed>
        requires few { n ≤ 65536 }
        ensures length { IfOk result (λ piece. length piece.now ≡ n) }
        ensures shown { IfOk result (λ piece. piece.now ≡ zero_filled (text_shown self.old name.now) at n) }
        ensures ok { IsOk result }
        ensures* after_loan { sem 𝓛 (Rests the_row self.entry (λ new.
            LentFrom None None None None 0 0 (name.now, at, n) result
            (new ≡ record self.old { loans = raised self.old.loans }))) }
    {
        let is_named = self.name.as_str() == name;
        let is_early = self.loans < self.turn;
        self.loans = self.loans.saturating_add(1);
        let text = choose(&self.first, &self.second, is_named, is_early);
        refill(&mut self.room, text, at as usize, n);
        Ok(&self.room)
    }
}
