//! The periods of media presentation descriptions: one for each part, with the representations of all sequences.

ghost use Rattle.std.specs.Prelude.{◌≡◌, ◌++◌, ◌+◌, ◌≤◌, ◌^◌, All, IfErr, IfOk, IfSome, OnOk, flat_map, fold, length, map, max, option_map, slice_get};
ghost use Rattle.std.specs.Int.{IsInRange};
ghost use Rattle.std.specs.List.{enumerate_from};
ghost use Rattle.vod_types.specs.declared.refusal.Refusal.TheVariants.{NoMemory};
ghost use Rattle.clip_model.specs.IsTimeline.{IsPart};
ghost use Rattle.list_model.specs.Manifest.{IsPeriod, IsRep};
ghost use Rattle.flat_lists.specs.Written.{lead_length as lead_length_of, part_length as part_length_of, period_seen, periods_seen, sequence_length as sequence_length_of, sequence_reps};
ghost use Rattle.seek_lists.specs.Looked.{all_cells as all_cells_of, looked_seen, sequence_cells as sequence_cells_of, sequence_seen, IsLookedPart, IsLookedSequence, IsOfMapping};
ghost use Rattle.seek_lists.specs.PartTracks.{seen_of, IsKeptTrack};

use crate::counted_cells::first_cell_behind;
use crate::lengths::track_length;
use crate::looked_sequences::{LookedPart, LookedSequence};
use crate::part_tracks::PartTrack;
use crate::reps::{PartPlace, Writing, add_reps};
use clip_model::Part;
use list_model::{Period, Rep, Reps};
use std::alloc::Global;
use std::sync::ledger::Ledger;
use vod_types::{Refusal, Steps};

/// The periods of sequences, a period for each part of the first one. The only refusal is `NoMemory`.
pub(crate) fn periods<L: Ledger>(
    alloc: Global,
    writing: Writing<'_>,
    looked: &[LookedSequence],
    steps: &mut Steps<L>,
) -> Result<Vec<Period>, Refusal>
    requires each { All (IsOfMapping writing.mapping.now) looked.now }
    requires cells { all_cells_of writing.grid.now looked.now ≤ 100000 }
    ensures periods { IfOk result (λ periods. periods.items ≡ periods_seen writing.entry.mapping.now writing.entry.grid.now writing.entry.align (map sequence_seen looked.now)) }
    ensures each { IfOk result (λ periods. All IsPeriod periods.items) }
    ensures only { IfErr result (λ refusal. refusal ≡ NoMemory) }
{
    match looked.split_first() {
        Some((first, _)) => periods_of(alloc, writing, looked, &first.parts, steps),
        None => Ok(Vec::new(alloc)),
    }
}

// The periods for these parts.
fn periods_of<L: Ledger>(
    alloc: Global,
    writing: Writing<'_>,
    looked: &[LookedSequence],
    parts: &[LookedPart],
    steps: &mut Steps<L>,
) -> Result<Vec<Period>, Refusal>
    requires each { All (IsOfMapping writing.mapping.now) looked.now }
    requires cells { all_cells_of writing.grid.now looked.now ≤ 100000 }
    requires parts { All IsLookedPart parts.now }
    requires few { length parts.now ≤ 128 }
    ensures periods { IfOk result (λ periods. periods.items ≡
        map (period_seen writing.entry.mapping.now writing.entry.grid.now writing.entry.align (map sequence_seen looked.now)) (enumerate_from 0 (map (λ p. p.part) parts.now))) }
    ensures each { IfOk result (λ periods. All IsPeriod periods.items) }
    ensures only { IfErr result (λ refusal. refusal ≡ NoMemory) }
{
    let mut periods = Vec::new(alloc);
    let mut place = 0;
    for first in parts {
        let period = period_at(alloc, writing, looked, place, &first.part, steps)?;
        periods.push(period)?;
        place += 1;
    }
    Ok(periods)
}

// The period at the place of a part.
fn period_at<L: Ledger>(
    alloc: Global,
    writing: Writing<'_>,
    looked: &[LookedSequence],
    place: u32,
    part: &Part,
    steps: &mut Steps<L>,
) -> Result<Period, Refusal>
    requires each { All (IsOfMapping writing.mapping.now) looked.now }
    requires cells { all_cells_of writing.grid.now looked.now ≤ 100000 }
    requires place { place ≤ 128 }
    requires part { IsPart part.now }
    ensures period { IfOk result (λ period. period ≡ period_seen writing.entry.mapping.now writing.entry.grid.now writing.entry.align (map sequence_seen looked.now) (place, part.now)) }
    ensures each { IfOk result IsPeriod }
    ensures only { IfErr result (λ refusal. refusal ≡ NoMemory) }
{
    let length_ms = length_at(writing, place, looked, steps);
    let reps = reps_at(alloc, writing, place, looked, steps)?;
    Ok(Period {
        part: place + 1,
        start: part.start,
        length_ms,
        reps: Reps::new(reps),
    })
}

// The length of the longest of the parts at a place.
fn length_at<L: Ledger>(
    writing: Writing<'_>,
    place: u32,
    looked: &[LookedSequence],
    steps: &mut Steps<L>,
) -> u64
    requires each { All (IsOfMapping writing.mapping.now) looked.now }
    ensures length { result ≡ fold max 0 (map (sequence_length_of place) (map sequence_seen looked.now)) }
    ensures short { result ≤ 2 ^ 41 }
{
    let mut longest = 0;
    for sequence in looked {
        longest = longest.max(sequence_length(sequence, place, steps));
    }
    longest
}

// The length of the part at a place in a sequence, 0 where there is none.
fn sequence_length<L: Ledger>(sequence: &LookedSequence, place: u32, steps: &mut Steps<L>) -> u64
    requires { IsLookedSequence sequence.now }
    ensures length { result ≡ sequence_length_of place (sequence_seen sequence.now) }
    ensures short { result ≤ 2 ^ 41 }
{
    match part_at(sequence, place) {
        Some(part) => part_length(part, steps),
        None => 0,
    }
}

// The part at a place in a sequence.
fn part_at(sequence: &LookedSequence, place: u32) -> Option<&LookedPart>
    requires { IsLookedSequence sequence.now }
    ensures part { option_map (λ p. looked_seen p.now) result ≡ slice_get (sequence_seen sequence.now).parts place }
    ensures looked { IfSome result (λ p. IsLookedPart p.now) }
{
    sequence.parts.get(place as usize)
}

// The length of a part: the declared one, and else that of its longest track.
fn part_length<L: Ledger>(looked: &LookedPart, steps: &mut Steps<L>) -> u64
    requires { IsLookedPart looked.now }
    ensures length { result ≡ part_length_of (looked_seen looked.now) }
    ensures short { result ≤ 2 ^ 41 }
{
    match looked.part.length_ms {
        Some(length) => length,
        None => {
            let video = lead_length(&looked.part, &looked.tracks.video, steps);
            video.max(lead_length(&looked.part, &looked.tracks.audio, steps))
        }
    }
}

// The length of a track of a part, 0 where there is none.
fn lead_length<L: Ledger>(part: &Part, track: &Option<PartTrack>, steps: &mut Steps<L>) -> u64
    requires part { IsPart part.now }
    requires kept { IfSome track.now IsKeptTrack }
    ensures length { result ≡ lead_length_of part.now (option_map seen_of track.now) }
    ensures short { result ≤ 2 ^ 41 }
{
    match track {
        Some(track) => track_length(part, track, steps),
        None => 0,
    }
}

// The representations of all sequences at the place of a part.
fn reps_at<L: Ledger>(
    alloc: Global,
    writing: Writing<'_>,
    place: u32,
    looked: &[LookedSequence],
    steps: &mut Steps<L>,
) -> Result<Vec<Rep>, Refusal>
    requires each { All (IsOfMapping writing.mapping.now) looked.now }
    requires cells { all_cells_of writing.grid.now looked.now ≤ 100000 }
    requires place { place ≤ 128 }
    ensures reps { IfOk result (λ reps. reps.items ≡ flat_map (sequence_reps writing.entry.mapping.now writing.entry.grid.now writing.entry.align place) (map sequence_seen looked.now)) }
    ensures each { IfOk result (λ reps. All IsRep reps.items) }
    ensures only { IfErr result (λ refusal. refusal ≡ NoMemory) }
{
    let mut reps = Vec::new(alloc);
    for sequence in looked {
        add_sequence(alloc, writing, place, sequence, &mut reps, steps)?;
    }
    Ok(reps)
}

// Puts the representations of a sequence at the place of a part behind others.
fn add_sequence<L: Ledger>(
    alloc: Global,
    writing: Writing<'_>,
    place: u32,
    sequence: &LookedSequence,
    reps: &mut Vec<Rep>,
    steps: &mut Steps<L>,
) -> Result<(), Refusal>
    requires of { IsOfMapping writing.mapping.now sequence.now }
    requires cells { sequence_cells_of writing.grid.now sequence.now ≤ 100000 }
    requires place { place ≤ 128 }
    ensures reps { OnOk result (reps.new.items ≡ reps.old.items ++ sequence_reps writing.entry.mapping.now writing.entry.grid.now writing.entry.align place (sequence_seen sequence.now)) }
    ensures each { OnOk result (All IsRep reps.old.items → All IsRep reps.new.items) }
    ensures only { IfErr result (λ refusal. refusal ≡ NoMemory) }
{
    match sequence.parts.get(place as usize) {
        Some(part) => {
            let before = &sequence.parts[..place as usize];
            let own = PartPlace {
                sequence: sequence.number,
                part: place + 1,
                first: first_cell_behind(writing.grid, before) as u32,
            };
            add_reps(alloc, writing, own, part, reps, steps)
        }
        None => Ok(()),
    }
}
