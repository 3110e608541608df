//! How long the tracks of a part are.

ghost use Rattle.std.specs.Prelude.{◌≡◌, ◌≤◌, ◌^◌, [], unsigned_abs};
ghost use Rattle.clip_model.specs.IsTimeline.{IsPart};
ghost use Rattle.segment_model.specs.Grid.{cells as cells_of_ms, milliseconds};
ghost use Rattle.flat_lists.specs.CountedCells.{length_seen};
ghost use Rattle.seek_lists.specs.PartTracks.{seen_of, IsKeptTrack};

use crate::part_tracks::PartTrack;
use clip_model::Part;
use segmenter::{Grid, cells};
use std::sync::ledger::Ledger;
use vod_plan::end_of;
use vod_types::Steps;

/// The length of a track of a part in milliseconds: the declared one, and else up to the end of its rows.
pub(crate) fn track_length<L: Ledger>(part: &Part, track: &PartTrack, steps: &mut Steps<L>) -> u64
    requires part { IsPart part.now }
    requires kept { IsKeptTrack track.now }
    ensures length { result ≡ length_seen part.now (seen_of track.now).1.lead }
    ensures short { result ≤ 2 ^ 41 }
{
    match part.length_ms {
        Some(length) => length,
        None => milliseconds_of(end_of(&track.pieces, track.facts.kind, part.start, steps)),
    }
}

/// The length of a part in which no row stands.
pub(crate) fn bare_length(part: &Part) -> u64
    requires { IsPart part.now }
    ensures length { result ≡ length_seen part.now [] }
    ensures short { result ≤ 2 ^ 41 }
{
    match part.length_ms {
        Some(length) => length,
        None => milliseconds_of(part.start),
    }
}

/// The cells of a part that is so long.
pub(crate) fn length_cells(grid: &Grid, length: u64) -> u64
    requires { length ≤ 2 ^ 41 }
    ensures cells { result ≡ cells_of_ms grid.now length }
    ensures bound { result ≤ 2 ^ 42 }
{
    cells(grid, length)
}

// A time in milliseconds, rounded up; none where it is before 0.
fn milliseconds_of(time: i64) -> u64
    requires { unsigned_abs time ≤ 2 ^ 43 }
    ensures value { result ≡ milliseconds time }
    ensures small { result ≤ 2 ^ 41 }
{
    if time < 0 { 0 } else { (time as u64 + 89) / 90 }
}
