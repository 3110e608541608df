//! The tables of places: the chunks' samples and the chunks' offsets.

ghost use Rattle.std.specs.Prelude.{◌≡◌, ◌+◌, ◌*◌, ◌<◌, ◌≤◌, length, slice_get, option_map, if◌then◌else◌};
ghost use Rattle.vod_bytes.specs.Fields.{u32_at};
ghost use Rattle.mp4_model.specs.Tables.{read_stsc, read_stco, read_co64};

use crate::room::has_entries;
use std::sync::ledger::Ledger;
use vod_bytes::{be_u32, be_u64};
use vod_types::Steps;

/// Runs of chunks with equally many samples: `stsc` (ISO/IEC 14496-12, 8.7.4).
#[derive(Clone, Copy, Debug)]
pub struct Stsc<'a> {
    body: &'a [u8],
    ghost room: { 8 + 12 * u32_at body.now 4 ≤ length body.now },
}

#[tactic(auto, using(crate::proofs::Shown::stsc_views))]
impl<'a> Stsc<'a> {
    ghost use Rattle.mp4_tables.specs.Views.{stsc_entries};

    /// Views the payload of an `stsc` box, unless it has too few bytes for its count.
    pub fn read(body: &'a [u8]) -> Option<Self>
        ensures { option_map stsc_entries result ≡ read_stsc body.now }
    {
        if has_entries(body, 12) {
            Some(Stsc { body })
        } else {
            None
        }
    }

    /// The number of runs.
    pub fn len(&self) -> u32
        ensures { result ≡ length (stsc_entries self.now) }
    {
        be_u32(self.body, 4)
    }

    /// Run `i`, counted from 0, by one look: its first chunk, from 1, the number of samples in each
    /// of its chunks, and the index of their sample description.
    pub fn entry<L: Ledger>(&self, i: u32, steps: &mut Steps<L>) -> (u32, u32, u32)
        requires { i < length (stsc_entries self.now) }
        ensures value { slice_get (stsc_entries self.now) i ≡ Some result }
        ensures look { steps.new ≡ steps.old + 1 }
    {
        steps.tick();
        self.at(i)
    }

    pub(crate) fn at(&self, i: u32) -> (u32, u32, u32)
        requires { i < length (stsc_entries self.now) }
        ensures { slice_get (stsc_entries self.now) i ≡ Some result }
    {
        let place = 8 + 12 * i as usize;
        (
            be_u32(self.body, place),
            be_u32(self.body, place + 4),
            be_u32(self.body, place + 8),
        )
    }
}

/// The offsets of the chunks in the file: `stco` or `co64` (ISO/IEC 14496-12, 8.7.5).
#[derive(Clone, Copy, Debug)]
pub struct Chunks<'a> {
    body: &'a [u8],
    wide: bool,
    ghost room: { 8 + (if wide then 8 else 4) * u32_at body.now 4 ≤ length body.now },
}

#[tactic(auto, using(crate::proofs::Shown::chunks_views))]
impl<'a> Chunks<'a> {
    ghost use Rattle.mp4_tables.specs.Views.{chunks_entries};

    /// Views the payload of an `stco` box, unless it has too few bytes for its count.
    pub fn read(body: &'a [u8]) -> Option<Self>
        ensures { option_map chunks_entries result ≡ read_stco body.now }
    {
        if has_entries(body, 4) {
            Some(Chunks { body, wide: false })
        } else {
            None
        }
    }

    /// Views the payload of a `co64` box, whose offsets have 64 bits.
    pub fn read64(body: &'a [u8]) -> Option<Self>
        ensures { option_map chunks_entries result ≡ read_co64 body.now }
    {
        if has_entries(body, 8) {
            Some(Chunks { body, wide: true })
        } else {
            None
        }
    }

    /// The number of chunks.
    pub fn len(&self) -> u32
        ensures { result ≡ length (chunks_entries self.now) }
    {
        be_u32(self.body, 4)
    }

    /// The offset in the file of chunk `i`, counted from 0, by one look.
    pub fn entry<L: Ledger>(&self, i: u32, steps: &mut Steps<L>) -> u64
        requires { i < length (chunks_entries self.now) }
        ensures value { slice_get (chunks_entries self.now) i ≡ Some result }
        ensures look { steps.new ≡ steps.old + 1 }
    {
        steps.tick();
        if self.wide {
            be_u64(self.body, 8 + 8 * i as usize)
        } else {
            u64::from(be_u32(self.body, 8 + 4 * i as usize))
        }
    }
}
