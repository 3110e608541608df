//! A door in memory.
ghost use Rattle.std.specs.Prelude.{◌≡◌, ◌↔◌, ◌⊎◌, ◌+◌, ◌-◌, ◌<◌, ◌≤◌, ◌++◌, ◌∷◌, [], length, Some, None, IfOk, IfErr, OnOk, OnErr, IsErr, is_err, if◌then◌else◌};
ghost use Rattle.vod_types.specs.declared.refusal.Refusal.TheVariants.{NoMemory};
ghost use Rattle.vod_source.specs.Causes.{HasCause};
ghost use Rattle.vod_source.specs.Memory.{IsDue, counted, failed};

use crate::memory::calls::Calls;
use crate::{Door, DoorFailed, MemLink};
use std::alloc::Global;
use std::marker::Model;
use vod_types::Refusal;

/// Links in memory, one after another. The room for those that come back is taken at the start.
///
/// `listen` and `next` count as calls of one number. A call fails where its number is one of those that are to fail, and
/// `next` also where no link is left.
#[derive(Drop)]
pub struct MemDoor {
    coming: Vec<MemLink>,
    returned: Vec<MemLink>,
    out: usize,
    calls: Calls,
}

impl Model for MemDoor {
    ghost use Rattle.std.specs.Prelude.{◌+◌, ◌≤◌, vec_len, vec_capacity};
    ghost use Rattle.vod_source.specs.Memory.{DoorValue};

    ghost Value = { DoorValue };

    ghost view = { λ a. record { coming = a.coming.items; returned = a.returned.items; out = a.out; plan = a.calls } };

    ghost invariant = { λ a. vec_len a.coming + a.out + vec_len a.returned ≤ vec_capacity a.returned };
}

impl MemDoor {
    /// A door with these links, whose calls with the numbers `fails`, from 1, fail. It fails for want of memory.
    pub fn new(alloc: Global, links: Vec<MemLink>, fails: Vec<u64>) -> Result<Self, Refusal>
        ensures fresh { IfOk result (λ door. door ≡ record {
          coming = links.items;
          returned = [];
          out = 0;
          plan = record { fails = fails.items; made = 0; faults = 0 };
        }) }
        ensures only { IfErr result (λ refusal. refusal ≡ NoMemory) }
    {
        match Vec::with_capacity(alloc, links.len()) {
            Ok(returned) => Ok(MemDoor {
                coming: links,
                returned,
                out: 0,
                calls: Calls::new(fails),
            }),
            Err(_) => Err(Refusal::NoMemory),
        }
    }

    /// The links that were given back, in that order.
    pub fn back(&self) -> &[MemLink]
        ensures { result.now ≡ self.now.returned }
    {
        &self.returned
    }
}

impl Door for MemDoor {
    type L = MemLink;

    ghost coming = { λ d. Some d.coming };

    ghost returned = { λ d. Some d.returned };

    ghost out = { λ d. Some d.out };

    ghost faults = { λ d. d.plan.faults };

    fn listen(&mut self, _addr: &str) -> Result<(), DoorFailed>
        ensures coming { self.new.coming ≡ self.old.coming }
        ensures returned { self.new.returned ≡ self.old.returned }
        ensures out { self.new.out ≡ self.old.out }
        ensures due { IsErr result ↔ IsDue self.old.plan }
        ensures plan { self.new.plan ≡ (if is_err result then failed (counted self.old.plan) else counted self.old.plan) }
        ensures cause { HasCause self.old.plan.faults self.new.plan.faults result }
    {
        if self.calls.begin() {
            return Err(DoorFailed);
        }
        Ok(())
    }

    fn next(&mut self) -> Result<MemLink, DoorFailed>
        ensures given { IfOk result (λ link. self.old.coming ≡ link ∷ self.new.coming) }
        ensures kept { OnErr result (self.new.coming ≡ self.old.coming) }
        ensures returned { self.new.returned ≡ self.old.returned }
        ensures counted { OnOk result (self.new.out ≡ self.old.out + 1) }
        ensures uncounted { OnErr result (self.new.out ≡ self.old.out) }
        ensures due { IsErr result ↔ (IsDue self.old.plan ⊎ (self.old.coming ≡ [])) }
        ensures plan { self.new.plan ≡ (if is_err result then failed (counted self.old.plan) else counted self.old.plan) }
        ensures cause { HasCause self.old.plan.faults self.new.plan.faults result }
    {
        if self.calls.begin() {
            return Err(DoorFailed);
        }
        if self.coming.is_empty() {
            self.calls.fail();
            return Err(DoorFailed);
        }
        self.out += 1;
        Ok(self.coming.remove(0))
    }

    fn give_back(&mut self, link: MemLink)
        requires { 0 < self.old.out }
        ensures coming { self.new.coming ≡ self.old.coming }
        ensures returned { self.new.returned ≡ self.old.returned ++ link ∷ [] }
        ensures out { self.new.out ≡ self.old.out - 1 }
        ensures plan { self.new.plan ≡ self.old.plan }
    {
        self.out -= 1;
        let _ = self.returned.push(link);
    }
}
