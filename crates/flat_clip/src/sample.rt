//! One sample of a clip.

ghost use Rattle.std.specs.Prelude.{◌≡◌};

use std::marker::Model;

/// A selected sample: its number in its track from 0, its place and its size in the file in bytes, when it is decoded and when it
/// is shown in 1/90000 s, how long it lasts, and whether it is a sync sample. Its place may lie past the end of every file.
#[derive(Clone, Copy, Debug)]
pub struct ClipSample {
    pub number: u64,
    pub at: u128,
    pub size: u32,
    pub dts: i64,
    pub pts: i64,
    pub dur: u32,
    pub sync: bool,
}

impl Model for ClipSample {
    ghost use Rattle.vod_types.specs.declared.segments.Row.{Row};

    ghost Value = { Row };

    ghost view = { λ s. record { file = 0; number = s.number; sample = record { at = s.at; size = s.size; dts = s.dts; pts = s.pts; dur = s.dur; sync = s.sync } } };

    ghost inverse = { λ r. record { number = r.number; at = r.sample.at; size = r.sample.size; dts = r.sample.dts; pts = r.sample.pts; dur = r.sample.dur; sync = r.sample.sync } };
}

impl ClipSample {
    /// Its number in its track, from 0.
    pub fn number(&self) -> u64
        ensures { result ≡ self.now.number }
    {
        self.number
    }

    /// Its place in the file.
    pub fn at(&self) -> u128
        ensures { result ≡ self.now.sample.at }
    {
        self.at
    }

    /// How many bytes it has.
    pub fn size(&self) -> u32
        ensures { result ≡ self.now.sample.size }
    {
        self.size
    }

    /// When it is decoded, in 1/90000 s.
    pub fn dts(&self) -> i64
        ensures { result ≡ self.now.sample.dts }
    {
        self.dts
    }

    /// When it is shown, in 1/90000 s.
    pub fn pts(&self) -> i64
        ensures { result ≡ self.now.sample.pts }
    {
        self.pts
    }

    /// How long it lasts, in 1/90000 s.
    pub fn dur(&self) -> u32
        ensures { result ≡ self.now.sample.dur }
    {
        self.dur
    }

    /// Whether it is a sync sample.
    pub fn is_sync(&self) -> bool
        ensures { result ≡ self.now.sample.sync }
    {
        self.sync
    }
}
