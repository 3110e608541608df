//! The tables of samples: which of them are sync samples, and their sizes.

ghost use Rattle.std.specs.Prelude.{◌≡◌, ◌+◌, ◌*◌, ◌<◌, ◌≤◌, length, slice_get, option_map};
ghost use Rattle.vod_bytes.specs.Fields.{u32_at};
ghost use Rattle.mp4_model.specs.Tables.{read_stss, read_stsz};

use crate::room::has_entries;
use std::sync::ledger::Ledger;
use vod_bytes::be_u32;
use vod_types::Steps;

/// The numbers of the sync samples: `stss` (ISO/IEC 14496-12, 8.6.2).
#[derive(Clone, Copy, Debug)]
pub struct Stss<'a> {
    body: &'a [u8],
    ghost room: { 8 + 4 * u32_at body.now 4 ≤ length body.now },
}

#[tactic(auto, using(crate::proofs::Shown::stss_views))]
impl<'a> Stss<'a> {
    ghost use Rattle.mp4_tables.specs.Views.{stss_entries};

    /// Views the payload of an `stss` box, unless it has too few bytes for its count.
    pub fn read(body: &'a [u8]) -> Option<Self>
        ensures { option_map stss_entries result ≡ read_stss body.now }
    {
        if has_entries(body, 4) {
            Some(Stss { body })
        } else {
            None
        }
    }

    /// The number of sync samples.
    pub fn len(&self) -> u32
        ensures { result ≡ length (stss_entries self.now) }
    {
        be_u32(self.body, 4)
    }

    /// Sync sample `i`, counted from 0, by one look: its number in the track, from 1.
    pub fn entry<L: Ledger>(&self, i: u32, steps: &mut Steps<L>) -> u32
        requires { i < length (stss_entries self.now) }
        ensures value { slice_get (stss_entries self.now) i ≡ Some result }
        ensures look { steps.new ≡ steps.old + 1 }
    {
        steps.tick();
        self.at(i)
    }

    pub(crate) fn at(&self, i: u32) -> u32
        requires { i < length (stss_entries self.now) }
        ensures { slice_get (stss_entries self.now) i ≡ Some result }
    {
        be_u32(self.body, 8 + 4 * i as usize)
    }
}

/// The sizes of the samples, or one size for all of them: `stsz` (ISO/IEC 14496-12, 8.7.3.2).
#[derive(Clone, Copy, Debug)]
pub struct Stsz<'a> {
    body: &'a [u8],
    ghost fields: { 12 ≤ length body.now },
    ghost room: { u32_at body.now 4 ≡ 0 → 12 + 4 * u32_at body.now 8 ≤ length body.now },
}

#[tactic(auto, using(crate::proofs::Shown::stsz_views))]
impl<'a> Stsz<'a> {
    ghost use Rattle.mp4_tables.specs.Views.{stsz_table, stsz_entries};

    /// Views the payload of an `stsz` box, unless it has too few bytes for its count.
    pub fn read(body: &'a [u8]) -> Option<Self>
        ensures { option_map stsz_table result ≡ read_stsz body.now }
    {
        if body.len() < 12 {
            return None;
        }
        if be_u32(body, 4) == 0 && body.len() - 12 < 4 * be_u32(body, 8) as usize {
            return None;
        }
        Some(Stsz { body })
    }

    /// The number of samples.
    pub fn len(&self) -> u32
        ensures { result ≡ length (stsz_entries self.now) }
    {
        be_u32(self.body, 8)
    }

    /// The size in bytes of every sample, or 0 where each has a size of its own, by one look.
    pub fn common<L: Ledger>(&self, steps: &mut Steps<L>) -> u32
        ensures value { result ≡ (stsz_table self.now).common }
        ensures look { steps.new ≡ steps.old + 1 }
    {
        steps.tick();
        be_u32(self.body, 4)
    }

    /// The size in bytes of sample `i`, counted from 0, by one look.
    pub fn entry<L: Ledger>(&self, i: u32, steps: &mut Steps<L>) -> u32
        requires { i < length (stsz_entries self.now) }
        ensures value { slice_get (stsz_entries self.now) i ≡ Some result }
        ensures look { steps.new ≡ steps.old + 1 }
    {
        steps.tick();
        let common = be_u32(self.body, 4);
        if common == 0 {
            be_u32(self.body, 12 + 4 * i as usize)
        } else {
            common
        }
    }
}
