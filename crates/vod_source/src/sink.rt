//! Where bytes go.
ghost use Rattle.std.specs.Prelude.{◌≡◌, ℕ, List, Option};
ghost use Rattle.vod_source.specs.Causes.{HasCause};
ghost use Rattle.vod_source.specs.Told.{Grows};

/// A call on a sink failed.
#[derive(Clone, Copy, Debug, PartialEq, Eq)]
pub struct SinkFailed;

/// A list of bytes that grows.
pub trait Sink {
    /// The type of what no `put` changes.
    ghost Kept: { Type 0 } = { Unit {0} };

    /// What no `put` changes.
    ghost kept: { Self → Kept };

    /// What was written, where the sink tells it.
    ghost written: { Self → Option (List ℕ) };

    /// How many calls have failed.
    ghost faults: { Self → ℕ };

    /// Writes a piece at the end. After a failure a front part of the piece may have been written.
    fn put(&mut self, piece: &[u8]) -> Result<(), SinkFailed>
        ensures kept { kept self.new ≡ kept self.old }
        ensures written { Grows (written self.old) (written self.new) result piece.now }
        ensures cause { HasCause (faults self.old) (faults self.new) result };
}
