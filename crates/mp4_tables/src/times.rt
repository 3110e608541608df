//! The tables of times: decode time deltas and composition offsets.

ghost use Rattle.std.specs.Prelude.{◌≡◌, ◌+◌, ◌*◌, ◌<◌, ◌≤◌, length, slice_get, slice_index, option_map};
ghost use Rattle.vod_bytes.specs.Fields.{u32_at};
ghost use Rattle.mp4_model.specs.Tables.{read_stts, read_ctts};

use crate::room::has_entries;
use std::sync::ledger::Ledger;
use vod_bytes::{be_i32, be_u32};
use vod_types::Steps;

/// Runs of samples with one decode time delta: `stts` (ISO/IEC 14496-12, 8.6.1.2).
#[derive(Clone, Copy, Debug)]
pub struct Stts<'a> {
    body: &'a [u8],
    ghost room: { 8 + 8 * u32_at body.now 4 ≤ length body.now },
}

#[tactic(auto, using(crate::proofs::Shown::stts_views))]
impl<'a> Stts<'a> {
    ghost use Rattle.mp4_tables.specs.Views.{stts_entries};

    /// Views the payload of an `stts` box, unless it has too few bytes for its count.
    pub fn read(body: &'a [u8]) -> Option<Self>
        ensures { option_map stts_entries result ≡ read_stts body.now }
    {
        if has_entries(body, 8) {
            Some(Stts { body })
        } else {
            None
        }
    }

    /// The number of runs.
    pub fn len(&self) -> u32
        ensures { result ≡ length (stts_entries self.now) }
    {
        be_u32(self.body, 4)
    }

    /// Run `i`, counted from 0, by one look: its number of samples, and their delta in the track's
    /// timescale.
    pub fn entry<L: Ledger>(&self, i: u32, steps: &mut Steps<L>) -> (u32, u32)
        requires { i < length (stts_entries self.now) }
        ensures value { slice_get (stts_entries self.now) i ≡ Some result }
        ensures look { steps.new ≡ steps.old + 1 }
    {
        steps.tick();
        self.at(i)
    }

    pub(crate) fn at(&self, i: u32) -> (u32, u32)
        requires { i < length (stts_entries self.now) }
        ensures { slice_get (stts_entries self.now) i ≡ Some result }
    {
        let place = 8 + 8 * i as usize;
        (be_u32(self.body, place), be_u32(self.body, place + 4))
    }
}

/// Runs of samples with one composition offset: `ctts` (ISO/IEC 14496-12, 8.6.1.3).
#[derive(Clone, Copy, Debug)]
pub struct Ctts<'a> {
    body: &'a [u8],
    ghost room: { 8 + 8 * u32_at body.now 4 ≤ length body.now },
    ghost version: { slice_index body.now 0 ≤ 1 },
}

#[tactic(auto, using(crate::proofs::Shown::ctts_views))]
impl<'a> Ctts<'a> {
    ghost use Rattle.mp4_tables.specs.Views.{ctts_entries};

    /// Views the payload of a `ctts` box, unless it has too few bytes for its count or a version
    /// above 1.
    pub fn read(body: &'a [u8]) -> Option<Self>
        ensures { option_map ctts_entries result ≡ read_ctts body.now }
    {
        if has_entries(body, 8) && body[0] <= 1 {
            Some(Ctts { body })
        } else {
            None
        }
    }

    /// The number of runs.
    pub fn len(&self) -> u32
        ensures { result ≡ length (ctts_entries self.now) }
    {
        be_u32(self.body, 4)
    }

    /// Run `i`, counted from 0, by one look: its number of samples, and their offset in the track's
    /// timescale, which is signed in version 1.
    pub fn entry<L: Ledger>(&self, i: u32, steps: &mut Steps<L>) -> (u32, i64)
        requires { i < length (ctts_entries self.now) }
        ensures value { slice_get (ctts_entries self.now) i ≡ Some result }
        ensures look { steps.new ≡ steps.old + 1 }
    {
        steps.tick();
        self.at(i)
    }

    pub(crate) fn at(&self, i: u32) -> (u32, i64)
        requires { i < length (ctts_entries self.now) }
        ensures { slice_get (ctts_entries self.now) i ≡ Some result }
    {
        let place = 8 + 8 * i as usize;
        let count = be_u32(self.body, place);
        if self.body[0] == 0 {
            (count, i64::from(be_u32(self.body, place + 4)))
        } else {
            (count, i64::from(be_i32(self.body, place + 4)))
        }
    }
}
