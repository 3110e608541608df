//! Where links come from.
ghost use Rattle.std.specs.Prelude.{◌≡◌, ℕ, ◌+◌, ◌-◌, ◌<◌, ◌≤◌, List, [], ◌∷◌, ◌++◌, Option, option_map, IfSome, IfOk, OnErr, OnOk};
ghost use Rattle.vod_source.specs.Causes.{HasCause};

use crate::Link;

/// A call on a door failed.
#[derive(Clone, Copy, Debug, PartialEq, Eq)]
pub struct DoorFailed;

/// Hands out links one after another, and takes them back.
pub trait Door {
    type L: Link;

    /// The links that are to come, where the door tells them.
    ghost coming: { Self → Option (List Self.L) };

    /// The links that were given back, where the door tells them.
    ghost returned: { Self → Option (List Self.L) };

    /// How many links are out, where the door tells it.
    ghost out: { Self → Option ℕ };

    /// How many calls have failed.
    ghost faults: { Self → ℕ };

    /// Opens the door at an address, as `127.0.0.1:8080`.
    fn listen(&mut self, addr: &str) -> Result<(), DoorFailed>
        ensures coming { coming self.new ≡ coming self.old }
        ensures returned { returned self.new ≡ returned self.old }
        ensures out { out self.new ≡ out self.old }
        ensures cause { HasCause (faults self.old) (faults self.new) result };

    /// The next link, which is out from then on. A door that has none left fails.
    fn next(&mut self) -> Result<Self::L, DoorFailed>
        ensures given { IfOk result (λ link. coming self.old ≡ option_map (λ rest. link ∷ rest) (coming self.new)) }
        ensures kept { OnErr result (coming self.new ≡ coming self.old) }
        ensures returned { returned self.new ≡ returned self.old }
        ensures counted { OnOk result (out self.new ≡ option_map (λ n. n + 1) (out self.old)) }
        ensures uncounted { OnErr result (out self.new ≡ out self.old) }
        ensures cause { HasCause (faults self.old) (faults self.new) result };

    /// Takes a link back.
    fn give_back(&mut self, link: Self::L)
        requires { IfSome (out self.old) (λ n. 0 < n) }
        ensures coming { coming self.new ≡ coming self.old }
        ensures returned { returned self.new ≡ option_map (λ before. before ++ link ∷ []) (returned self.old) }
        ensures out { out self.new ≡ option_map (λ n. n - 1) (out self.old) }
        ensures later { faults self.old ≤ faults self.new };
}
