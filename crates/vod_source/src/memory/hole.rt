//! A store of one long file that is mostly 0.
ghost use Rattle.std.specs.Prelude.{◌≡◌, ◌+◌, ◌≤◌, length, None, Some, Ok, IfOk, IfErr, IsOk};
ghost use Rattle.vod_types.specs.declared.refusal.Refusal.TheVariants.{NoMemory};
ghost use Rattle.vod_source.specs.Stored.{size_of, bytes_at};
ghost use Rattle.vod_source.specs.Memory.{hole_file};

use crate::memory::zeros::refill;
use crate::{Store, StoreFailed};
use std::alloc::Global;
use std::marker::Model;
use vod_types::{Name, Refusal};

// The length of the longest loan.
const LOAN: usize = 65536;

/// One file, whose bytes after the first ones are 0 up to its size. It tells its content, and none of its calls fails.
#[derive(Drop)]
pub struct HoleStore {
    name: Name,
    first: Vec<u8>,
    size: u64,
    room: Vec<u8>,
}

impl Model for HoleStore {
    ghost use Rattle.std.specs.Prelude.{◌≤◌, vec_len, vec_capacity};
    ghost use Rattle.vod_source.specs.Memory.{HoleValue};

    ghost Value = { HoleValue };

    ghost view = { λ a. record { name = a.name; first = a.first.items; size = a.size } };

    ghost invariant = { λ a. (65536 ≤ vec_capacity a.room) × (vec_len a.first ≤ a.size) };
}

impl HoleStore {
    /// A file of `size` bytes that begins with these. It fails for want of memory.
    pub fn new(alloc: Global, name: Name, first: Vec<u8>, size: u64) -> Result<Self, Refusal>
        requires { length first.items ≤ size }
        ensures file { IfOk result (λ store. store ≡ record { name = name; first = first.items; size = size }) }
        ensures only { IfErr result (λ refusal. refusal ≡ NoMemory) }
    {
        match Vec::with_capacity(alloc, LOAN) {
            Ok(room) => Ok(HoleStore {
                name,
                first,
                size,
                room,
            }),
            Err(_) => Err(Refusal::NoMemory),
        }
    }
}

impl Store for HoleStore {
    ghost content = { λ s. Some (hole_file s) };

    ghost log = { λ _. None };

    ghost faults = { λ _. 0 };

    fn size(&mut self, name: &str) -> Result<Option<u64>, StoreFailed>
        ensures told { result ≡ Ok (size_of (hole_file self.old) name.now) }
        ensures file { self.new ≡ self.old }
    {
        Ok(if self.name.as_str() == name {
            Some(self.size)
        } else {
            None
        })
    }

    fn lend(&mut self, _name: &str, at: u64, n: usize) -> Result<&[u8], StoreFailed> {
        refill(&mut self.room, &self.first, at as usize, n);
        Ok(&self.room)
    }
}
