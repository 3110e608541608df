//! A sink that keeps nothing.

use vod_source::{Sink, SinkFailed};

/// Drops what is put to it, and never fails.
#[derive(Debug, Drop)]
pub struct Nowhere;

impl Sink for Nowhere {
    ghost use Rattle.std.specs.Prelude.{None};

    ghost kept = { λ _. tt };

    ghost written = { λ _. None };

    ghost faults = { λ _. 0 };

    fn put(&mut self, _piece: &[u8]) -> Result<(), SinkFailed> {
        Ok(())
    }
}
