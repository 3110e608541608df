//! A connection.
ghost use Rattle.std.specs.Prelude.{◌≡◌, ℕ, ◌<◌, List, Option, length};
ghost use Rattle.vod_source.specs.Causes.{HasCause};
ghost use Rattle.vod_source.specs.Exchanged.{Takes};

use crate::Sink;

/// A call on a link failed.
#[derive(Clone, Copy, Debug, PartialEq, Eq)]
pub struct LinkFailed;

/// A sink that is read from too.
pub trait Link: Sink {
    /// The input that is left, where the link tells it.
    ghost left: { Self → Option (List ℕ) };

    /// Takes bytes from the front of the input into the front of the room, and how many. 0 means the end of the input. A
    /// failure takes none.
    fn take(&mut self, room: &mut [u8]) -> Result<usize, LinkFailed>
        requires { 0 < length room.old }
        ensures taken { Takes (left self.old) (left self.new) result room.new }
        ensures written { Self.written self.new ≡ Self.written self.old }
        ensures cause { HasCause (Self.faults self.old) (Self.faults self.new) result };

    /// The input is a function of what is kept, so that no `put` changes it.
    ghost left_by_kept: { (a b : Self) → Self.kept a ≡ Self.kept b → left a ≡ left b };
}
