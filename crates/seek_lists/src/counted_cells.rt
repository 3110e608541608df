//! The cells of all parts of all sequences.

ghost use Rattle.std.specs.Prelude.{◌≡◌, ◌+◌, ◌≤◌, ◌*◌, ◌^◌, All, IfSome, length, option_map, sum_by};
ghost use Rattle.clip_model.specs.IsTimeline.{IsPart};
ghost use Rattle.flat_lists.specs.CountedCells.{part_cells as part_cells_of, track_cells as track_cells_of};
ghost use Rattle.flat_lists.specs.Written.{declared_cells as declared_cells_of};
ghost use Rattle.seek_lists.specs.Looked.{all_cells as all_cells_of, looked_seen, sequence_cells as sequence_cells_of, IsLookedPart, IsLookedSequence};
ghost use Rattle.seek_lists.specs.PartTracks.{seen_of, IsKeptTrack};

use crate::lengths::{bare_length, length_cells, track_length};
use crate::looked_sequences::{LookedPart, LookedSequence};
use crate::part_tracks::PartTrack;
use clip_model::Part;
use segmenter::Grid;
use std::sync::ledger::Ledger;
use vod_types::Steps;

/// How many cells all representations of at most 32 sequences have together.
pub(crate) fn all_cells<L: Ledger>(
    grid: &Grid,
    sequences: &[LookedSequence],
    steps: &mut Steps<L>,
) -> u64
    requires each { All IsLookedSequence sequences.now }
    requires few { length sequences.now ≤ 32 }
    ensures { result ≡ all_cells_of grid.now sequences.now }
{
    let mut all = 0;
    for sequence in sequences {
        all += sequence_cells(grid, sequence, steps);
    }
    all
}

fn sequence_cells<L: Ledger>(grid: &Grid, sequence: &LookedSequence, steps: &mut Steps<L>) -> u64
    requires { IsLookedSequence sequence.now }
    ensures cells { result ≡ sequence_cells_of grid.now sequence.now }
    ensures bound { result ≤ 2 ^ 50 }
{
    let mut all = 0;
    for part in &sequence.parts {
        all += part_cells(grid, part, steps);
    }
    all
}

// Those of the tracks of a part, which counts once where it has none.
fn part_cells<L: Ledger>(grid: &Grid, looked: &LookedPart, steps: &mut Steps<L>) -> u64
    requires { IsLookedPart looked.now }
    ensures cells { result ≡ part_cells_of grid.now (looked_seen looked.now) }
    ensures bound { result ≤ 2 ^ 43 }
{
    let once = length_cells(grid, bare_length(&looked.part));
    let video = track_cells(grid, &looked.part, &looked.tracks.video, steps);
    let audio = track_cells(grid, &looked.part, &looked.tracks.audio, steps);
    match video {
        Some(video) => video + audio.unwrap_or(0),
        None => audio.unwrap_or(once),
    }
}

fn track_cells<L: Ledger>(
    grid: &Grid,
    part: &Part,
    track: &Option<PartTrack>,
    steps: &mut Steps<L>,
) -> Option<u64>
    requires part { IsPart part.now }
    requires kept { IfSome track.now IsKeptTrack }
    ensures cells { result ≡ option_map (track_cells_of grid.now part.now) (option_map seen_of track.now) }
    ensures bound { IfSome result (λ n. n ≤ 2 ^ 42) }
{
    match track {
        Some(track) => Some(length_cells(grid, track_length(part, track, steps))),
        None => None,
    }
}

/// The number of the first cell behind at most 128 parts, which have so many cells as their declared lengths say.
pub(crate) fn first_cell_behind(grid: &Grid, parts: &[LookedPart]) -> u64
    requires each { All IsLookedPart parts.now }
    requires few { length parts.now ≤ 128 }
    ensures { result ≡ 1 + sum_by (λ p. declared_cells_of grid.now p.part) parts.now }
{
    let mut number = 1;
    for looked in parts {
        number += declared_cells(grid, &looked.part);
    }
    number
}

// The cells of a part by its declared length; a length that is not declared is 0 here.
fn declared_cells(grid: &Grid, part: &Part) -> u64
    requires { IsPart part.now }
    ensures cells { result ≡ declared_cells_of grid.now part.now }
    ensures bound { result ≤ 2 ^ 42 }
{
    length_cells(grid, part.length_ms.unwrap_or(0))
}
