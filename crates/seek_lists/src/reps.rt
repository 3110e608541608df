//! Representations of the tracks of a part.

ghost use Rattle.std.specs.Prelude.{◌≡◌, ◌+◌, ◌++◌, ◌≤◌, ◌<◌, ◌^◌, All, IfErr, IfOk, IfSome, OnOk, length, option_map, option_to_list};
ghost use Rattle.std.specs.Int.{IsInRange};
ghost use Rattle.vod_types.specs.declared.refusal.Refusal.TheVariants.{NoMemory};
ghost use Rattle.clip_model.specs.IsTimeline.{IsPart};
ghost use Rattle.list_model.specs.Manifest.{IsRep};
ghost use Rattle.seq_cells.specs.Cells.{part_grid_of};
ghost use Rattle.flat_lists.specs.CountedCells.{part_cells, track_cells};
ghost use Rattle.flat_lists.specs.Written.{grid_seen, rep_seen, reps_seen, IsWritable};
ghost use Rattle.seek_lists.specs.Looked.{looked_seen, IsLookedPart};
ghost use Rattle.seek_lists.specs.PartTracks.{seen_of, IsKeptTrack};

use crate::lengths::{length_cells, track_length};
use crate::looked_sequences::LookedPart;
use crate::part_tracks::PartTrack;
use crate::track_rows::track_rows;
use clip_map::Mapping;
use clip_model::Part;
use list_model::{Rep, RowList};
use segmenter::Grid;
use seq_cells::PartCells;
use std::alloc::Global;
use std::sync::ledger::Ledger;
use vod_types::{Refusal, Steps};

/// How the parts of sequences are cut, and what the mapping says of the sequences.
#[derive(Clone, Copy)]
pub(crate) struct Writing<'a> {
    pub(crate) mapping: &'a Mapping,
    pub(crate) grid: &'a Grid,
    pub(crate) align: bool,
}

/// Where a part stands in its sequence: the number of the sequence, its own, and that of its first cell.
#[derive(Clone, Copy)]
pub(crate) struct PartPlace {
    pub(crate) sequence: u32,
    pub(crate) part: u32,
    pub(crate) first: u32,
}

/// The representation of a track of a part. The only refusal is `NoMemory`.
pub(crate) fn rep_of<L: Ledger>(
    alloc: Global,
    writing: Writing<'_>,
    place: PartPlace,
    part: &Part,
    track: &PartTrack,
    steps: &mut Steps<L>,
) -> Result<Rep, Refusal>
    requires sequence { IsInRange 1 (length writing.mapping.now.sequences) place.sequence }
    requires low { place.sequence ≤ 9999 }
    requires number { place.part ≤ 9999 }
    requires few { track_cells writing.grid.now part.now (seen_of track.now) ≤ 100000 }
    requires numbers { place.first + 100000 < 2 ^ 32 }
    requires part { IsPart part.now }
    requires kept { IsKeptTrack track.now }
    requires whole { IsWritable (seen_of track.now) }
    ensures rep { IfOk result (λ rep. rep ≡ rep_seen writing.entry.mapping.now writing.entry.grid.now writing.entry.align place.sequence place.part place.first part.now (seen_of track.now)) }
    ensures each { IfOk result IsRep }
    ensures only { IfErr result (λ refusal. refusal ≡ NoMemory) }
{
    let cells = cells_of(writing, part, track, steps);
    let facts = track.facts;
    let rows = track_rows(
        alloc,
        cells,
        place.part,
        place.first,
        facts.kind,
        &track.pieces,
        steps,
    )?;
    Ok(Rep {
        sequence: place.sequence,
        kind: facts.kind,
        bandwidth: facts.bandwidth,
        size: facts.size,
        video: facts.video,
        aac: facts.aac,
        rate: facts.rate,
        language: writing.mapping.language(place.sequence),
        rows: RowList::new(rows),
    })
}

/// Puts the representations of a part behind others, video first. After a refusal, `NoMemory`, some of them may stand there.
pub(crate) fn add_reps<L: Ledger>(
    alloc: Global,
    writing: Writing<'_>,
    place: PartPlace,
    looked: &LookedPart,
    reps: &mut Vec<Rep>,
    steps: &mut Steps<L>,
) -> Result<(), Refusal>
    requires sequence { IsInRange 1 (length writing.mapping.now.sequences) place.sequence }
    requires low { place.sequence ≤ 9999 }
    requires number { place.part ≤ 9999 }
    requires few { part_cells writing.grid.now (looked_seen looked.now) ≤ 100000 }
    requires numbers { place.first + 100000 < 2 ^ 32 }
    requires looked { IsLookedPart looked.now }
    ensures reps { OnOk result (reps.new.items ≡ reps.old.items ++ reps_seen writing.entry.mapping.now writing.entry.grid.now writing.entry.align place.sequence place.part place.first (looked_seen looked.now)) }
    ensures each { OnOk result (All IsRep reps.old.items → All IsRep reps.new.items) }
    ensures only { IfErr result (λ refusal. refusal ≡ NoMemory) }
{
    add_rep(
        alloc,
        writing,
        place,
        &looked.part,
        &looked.tracks.video,
        reps,
        steps,
    )?;
    add_rep(
        alloc,
        writing,
        place,
        &looked.part,
        &looked.tracks.audio,
        reps,
        steps,
    )
}

// Puts the representation of a track behind others, if there is one.
fn add_rep<L: Ledger>(
    alloc: Global,
    writing: Writing<'_>,
    place: PartPlace,
    part: &Part,
    track: &Option<PartTrack>,
    reps: &mut Vec<Rep>,
    steps: &mut Steps<L>,
) -> Result<(), Refusal>
    requires sequence { IsInRange 1 (length writing.mapping.now.sequences) place.sequence }
    requires low { place.sequence ≤ 9999 }
    requires number { place.part ≤ 9999 }
    requires few { IfSome track.now (λ t. track_cells writing.grid.now part.now (seen_of t) ≤ 100000) }
    requires numbers { place.first + 100000 < 2 ^ 32 }
    requires part { IsPart part.now }
    requires kept { IfSome track.now IsKeptTrack }
    requires whole { IfSome track.now (λ t. IsWritable (seen_of t)) }
    ensures reps { OnOk result (reps.new.items ≡ reps.old.items ++ option_to_list (option_map (rep_seen writing.entry.mapping.now writing.entry.grid.now writing.entry.align place.sequence place.part place.first part.now) (option_map seen_of track.now))) }
    ensures each { OnOk result (All IsRep reps.old.items → All IsRep reps.new.items) }
    ensures only { IfErr result (λ refusal. refusal ≡ NoMemory) }
{
    let Some(track) = track else {
        return Ok(());
    };
    let rep = rep_of(alloc, writing, place, part, track, steps)?;
    reps.push(rep)?;
    Ok(())
}

// How a part is cut for one of its tracks.
fn cells_of<'a, L: Ledger>(
    writing: Writing<'a>,
    part: &Part,
    track: &PartTrack,
    steps: &mut Steps<L>,
) -> PartCells<'a>
    requires part { IsPart part.now }
    requires kept { IsKeptTrack track.now }
    ensures { part_grid_of result ≡ grid_seen writing.entry.grid.now writing.entry.align part.now (seen_of track.now) }
{
    let cells = length_cells(writing.grid, track_length(part, track, steps));
    PartCells {
        grid: writing.grid,
        align: writing.align,
        start: part.start,
        cells,
    }
}
