//! Which calls of an object in memory fail.
ghost use Rattle.std.specs.Prelude.{◌≡◌, ◌↔◌, ◌≤◌, [], IsTrue, if◌then◌else◌};
ghost use Rattle.vod_source.specs.Causes.{Rose};
ghost use Rattle.vod_source.specs.Memory.{IsDue, counted, failed};

use std::marker::Model;

/// The calls that are to fail, by number from 1. It counts the calls, and those that failed; either count stands still at
/// the end of its type.
#[derive(Drop)]
pub struct Calls {
    fails: Vec<u64>,
    made: u64,
    faults: u64,
}

impl Model for Calls {
    ghost use Rattle.vod_source.specs.Causes.{Rose};
    ghost use Rattle.vod_source.specs.Memory.{Plan};

    ghost Value = { Plan };

    ghost view = { λ a. record { fails = a.fails.items; made = a.made; faults = a.faults } };
}

impl Calls {
    /// No call was made yet.
    pub fn new(fails: Vec<u64>) -> Self
        ensures { result ≡ record { fails = fails.items; made = 0; faults = 0 } }
    {
        Calls {
            fails,
            made: 0,
            faults: 0,
        }
    }

    /// Counts a call, and whether it is to fail.
    pub fn begin(&mut self) -> bool
        ensures due { IsTrue result ↔ IsDue self.old }
        ensures after { self.new ≡ (if result then failed (counted self.old) else counted self.old) }
        ensures later { self.old.faults ≤ self.new.faults }
        ensures rose { IsTrue result → Rose self.old.faults self.new.faults }
    {
        let due = match self.made.checked_add(1) {
            Some(number) => {
                self.made = number;
                self.fails.contains(&number)
            }
            None => false,
        };
        if due {
            self.faults = self.faults.saturating_add(1);
        }
        due
    }

    /// Counts a failure of the call that was counted last.
    pub fn fail(&mut self)
        ensures after { self.new ≡ failed self.old }
        ensures later { self.old.faults ≤ self.new.faults }
        ensures rose { Rose self.old.faults self.new.faults }
    {
        self.faults = self.faults.saturating_add(1);
    }
}
