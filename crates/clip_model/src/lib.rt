//! What a mapping says, and the pieces and parts of a sequence.
#![tactic(auto)]

ghost use Rattle.clip_model.specs.Trim.{TrimTwice};

use vod_types::{Name, TrackList};

/// The part of a file that a sequence shows. Times are in 1/90000 s: `lo` and `hi` in the file's own time, and
/// `base` is added to give a time of the presentation. Without `hi` the piece reaches to the end of the file. `part` is
/// the place of its part, from 0.
#[derive(Debug, Drop)]
pub struct Piece {
    pub name: Name,
    pub tracks: TrackList,
    pub base: i64,
    pub lo: i64,
    pub hi: Option<i64>,
    pub part: u32,
}

/// A part of the presentation, with the pieces from `first` on, as many as `count`. `start` is in 1/90000 s.
#[derive(Clone, Copy, Debug, PartialEq, Eq)]
pub struct Part {
    pub start: i64,
    pub length_ms: Option<u64>,
    pub first: u32,
    pub count: u32,
}

/// A window of the times in a window is one window.
pub fn trim_twice()
    ensures { TrimTwice }
{}
