//! A sink in memory that grows.
ghost use Rattle.std.specs.Prelude.{◌≡◌, ◌++◌, Some, is_ok, is_err, if◌then◌else◌};
ghost use Rattle.vod_source.specs.Causes.{HasCause};
ghost use Rattle.vod_source.specs.Memory.{raised};

use crate::{Sink, SinkFailed};
use std::marker::Model;

/// Bytes in memory that grow as they are written.
///
/// A `put` fails for want of memory alone, and then writes nothing. Bytes within the capacity of the `Vec` need none.
#[derive(Drop)]
pub struct VecSink {
    bytes: Vec<u8>,
    faults: u64,
}

impl Model for VecSink {
    ghost use Rattle.vod_source.specs.Memory.{VecSinkValue};

    ghost Value = { VecSinkValue };

    ghost view = { λ a. record { bytes = a.bytes.items; faults = a.faults } };
}

impl VecSink {
    /// A sink that writes behind these bytes.
    pub fn new(bytes: Vec<u8>) -> Self
        ensures { result ≡ record { bytes = bytes.items; faults = 0 } }
    {
        VecSink { bytes, faults: 0 }
    }

    /// What was written.
    pub fn bytes(&self) -> &[u8]
        ensures { result.now ≡ self.now.bytes }
    {
        &self.bytes
    }

    /// What was written, as a `Vec`.
    pub fn into_vec(self) -> Vec<u8>
        ensures { result.items ≡ self.bytes }
    {
        let VecSink { bytes, faults: _ } = self;
        bytes
    }
}

impl Sink for VecSink {
    ghost kept = { λ _. tt };

    ghost written = { λ s. Some s.bytes };

    ghost faults = { λ s. s.faults };

    fn put(&mut self, piece: &[u8]) -> Result<(), SinkFailed>
        ensures put { self.new.bytes ≡ (if is_ok result then self.old.bytes ++ piece.now else self.old.bytes) }
        ensures counted { self.new.faults ≡ (if is_err result then raised self.old.faults else self.old.faults) }
        ensures cause { HasCause self.old.faults self.new.faults result }
    {
        match self.bytes.extend_from_slice(piece) {
            Ok(()) => Ok(()),
            Err(_) => {
                self.faults = self.faults.saturating_add(1);
                Err(SinkFailed)
            }
        }
    }
}
