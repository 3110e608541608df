//! The row of one I-frame alone.

ghost use Rattle.std.specs.Prelude.{List, ◌≡◌, ◌≢◌, ◌≤◌, All, None, filter, length, map, IfErr, IfOk, IfSome, IsErrOf};
ghost use Rattle.vod_types.specs.declared.refusal.Refusal.TheVariants.{NoIframe, NoMemory, StoreFailed};
ghost use Rattle.vod_types.specs.declared.segments.Form.TheVariants.{Ts};
ghost use Rattle.vod_types.specs.Lists.{nth_from_one};
ghost use Rattle.vod_types.specs.Results.{Answers};
ghost use Rattle.vod_types.specs.Tracks.{video_alone};
ghost use Rattle.segment_model.specs.Iframes.{sync_rows};
ghost use Rattle.vod_source.specs.Calls.{Came};
ghost use Rattle.vod_source.specs.Causes.{Rose};
ghost use Rattle.origin_model.specs.Iframes.{checked_iframe as checked_iframe_of, planned_iframe};
ghost use Rattle.origin_model.specs.Loaded.{CheckedPiece};
ghost use Rattle.flat_samples.specs.Rows.{part_rows, timed_view, ArePlacedRows, IsPlacedRow};
ghost use Rattle.answer_laws.specs.Refusals.{IsPathRefusal};
ghost use Rattle.flat_segments.specs.Needed.{AreTyped};
ghost use Rattle.flat_segments.specs.Planned.{cutting_of, segment_turns, IsNthSync};
ghost use Rattle.flat_segments.specs.RowFaults.{EndsLow};
ghost use Rattle.flat_segments.specs.Segments.{facts_of, file_of, flat_plan, AreWritableBy};

use crate::needed::NeededFile;
use crate::parts::Cut;
use crate::row_checks::{check_front, checked_rows};
use crate::rows::FlatRows;
use crate::segment::{Wanted, wanted_segment};
use flat_samples::{PartRows, TimedSample};
use std::alloc::Global;
use vod_source::Store;
use vod_types::{Asked, Form, Refusal};

/// The row of one I-frame: the one of an index, from 1, in the segment of a number, whose video track is asked alone.
///
/// Its refusals are those of the segment up to `TooManySamples`, then `NoIframe`, and those of its sample.
pub fn iframe_row<S: Store>(
    alloc: Global,
    files: &mut S,
    cut: Cut<'_>,
    video: u8,
    number: u32,
    index: u32,
) -> Result<FlatRows, Refusal>
    ensures told { IfSome (S.content files.old) (λ known.
        Came flat_plan result (planned_iframe (cutting_of known cut.entry.grid.now cut.entry.align cut.entry.edits) video cut.entry.timeline.now number index)
        (segment_turns (cutting_of known cut.entry.grid.now cut.entry.align cut.entry.edits) (video_alone video) cut.entry.timeline.now number) (S.log files.old) (S.log files.new)) }
    ensures writable { IfOk result (λ rows. AreWritableBy Ts (video_alone video) (S.content files.new) rows) }
    ensures content { S.content files.new ≡ S.content files.old }
    ensures later { S.faults files.old ≤ S.faults files.new }
    ensures store_failed { IsErrOf result StoreFailed → Rose (S.faults files.old) (S.faults files.new) }
    ensures refused { IfErr result IsPathRefusal }
{
    let asked = Asked {
        video: Some(video),
        audio: None,
    };
    wanted_segment(alloc, files, cut, asked, number, Wanted::Iframe(index))
}

/// The I-frame of an index, from 1, among the rows of a cell, or its first refusal.
pub(crate) fn checked_iframe(
    alloc: Global,
    number: u32,
    index: u32,
    asked: Asked,
    files: Vec<NeededFile>,
    rows: &PartRows,
) -> Result<FlatRows, Refusal>
    requires placed { ArePlacedRows (part_rows rows.now) }
    requires typed { AreTyped asked files.items }
    ensures answers { (pieces : List CheckedPiece) → map file_of pieces ≡ map facts_of files.items →
        Answers flat_plan result (checked_iframe_of number index asked pieces (part_rows rows.now)) }
    ensures video_ends { IfOk result (λ r. All EndsLow r.video.items) }
    ensures audio_ends { IfOk result (λ r. All EndsLow r.audio.items) }
    ensures files { IfOk result (λ r. r.files ≡ files) }
{
    match check_front(alloc, number, Form::Ts, asked, &files, rows) {
        Ok(()) => {}
        Err(refusal) => return Err(refusal),
    }
    match alone(alloc, index, &rows.lead) {
        Ok(rows) => checked_rows(alloc, number, Form::Ts, asked, files, &rows),
        Err(refusal) => Err(refusal),
    }
}

// The I-frame of an index, from 1, as the only row.
fn alone(alloc: Global, index: u32, lead: &[TimedSample]) -> Result<PartRows, Refusal>
    requires placed { All IsPlacedRow (map timed_view lead.now) }
    requires few { length lead.now ≤ 200000 }
    ensures found { IfOk result (λ rows. IsNthSync (map timed_view lead.now) index (part_rows rows)) }
    ensures none { IfErr result (λ refusal. refusal ≢ NoMemory → (nth_from_one (sync_rows (map timed_view lead.now)) index ≡ None)
        × (refusal ≡ NoIframe index (length (sync_rows (map timed_view lead.now))))) }
    ensures placed { IfOk result (λ rows. ArePlacedRows (part_rows rows)) }
{
    let sync = sync_samples(alloc, lead)?;
    let Some(sample) = from_one(&sync, index) else {
        return Err(Refusal::NoIframe {
            index,
            have: sync.len() as u32,
        });
    };
    let Ok(lead) = Vec::from_slice(alloc, &[sample]) else {
        return Err(Refusal::NoMemory);
    };
    Ok(PartRows {
        lead,
        other: Vec::new(alloc),
    })
}

// The sample of an index from 1.
fn from_one(samples: &[TimedSample], index: u32) -> Option<TimedSample>
    ensures { result ≡ nth_from_one samples.now index }
{
    if index == 0 {
        return None;
    }
    samples.get(index as usize - 1).copied()
}

// The sync samples.
fn sync_samples(alloc: Global, samples: &[TimedSample]) -> Result<Vec<TimedSample>, Refusal>
    ensures samples { IfOk result (λ v. v.items ≡ filter (λ s. s.sync) samples.now) }
    ensures only { IfErr result (λ refusal. refusal ≡ NoMemory) }
{
    match samples
        .iter()
        .filter(|sample| sample.sync)
        .copied()
        .collect(alloc)
    {
        Ok(samples) => Ok(samples),
        Err(_) => Err(Refusal::NoMemory),
    }
}
