//! The rows of the clip of a sequence: its one piece, the asked tracks of that piece, and their selected samples.

ghost use Rattle.std.specs.Prelude.{◌≡◌, ◌≢◌, ◌≤◌, Bool, Ok, Err, [], length, map, option_map, IfOk, IfErr, IfSome, IsErrOf, All};
ghost use Rattle.vod_types.specs.declared.refusal.Refusal.TheVariants.{StoreFailed};
ghost use Rattle.vod_types.specs.declared.segments.Form.TheVariants.{Fmp4};
ghost use Rattle.vod_types.specs.Results.{Answers};
ghost use Rattle.vod_types.specs.Tracks.{lead_of};
ghost use Rattle.mp4_model.specs.Samples.{sample_count};
ghost use Rattle.mp4_tables.specs.Views.{tables_of};
ghost use Rattle.mp4_tracks.specs.Views.{good_of};
ghost use Rattle.clip_model.specs.IsTimeline.{IsPiece};
ghost use Rattle.segment_model.specs.Grid.{SegmentGrid};
ghost use Rattle.segment_model.specs.Rows.{written_row};
ghost use Rattle.segment_model.specs.Timeline.{rows_of};
ghost use Rattle.vod_source.specs.Calls.{Came};
ghost use Rattle.vod_source.specs.Causes.{Rose};
ghost use Rattle.vod_source.specs.Stored.{bytes_of as stored_bytes};
ghost use Rattle.origin_model.specs.Clips.{checked_clip as checked_clip_of, clip_track, one_piece as one_piece_of, planned_clip};
ghost use Rattle.origin_model.specs.Reads.{turns};
ghost use Rattle.answer_laws.specs.Refusals.{IsPathRefusal};
ghost use Rattle.flat_samples.specs.Checks.{checked_view, AreSound};
ghost use Rattle.flat_samples.specs.Rows.{timed_view, part_rows, IsPlacedRow};
ghost use Rattle.flat_clip.specs.Rows.{as_facts, clip_looks, counts_checked, cutting_of, facts_of, AreFirst, IsSmallClip};
ghost use Rattle.flat_clip.specs.Tracks.{track_view, IsClipRow};

use crate::sample::ClipSample;
use crate::sizes::bytes_of;
use crate::tracks::TrackRows;
use clip_model::Piece;
use flat_samples::{CheckedTracks, Movies, PartRows, TimedSample, check};
use mp4_tracks::TrackView;
use seq_timeline::Timeline;
use std::alloc::Global;
use vod_bytes::NoMemory;
use vod_source::Store;
use vod_types::{Asked, Kind, Name, Refusal};

/// The clip of a piece: the name of its file and its size in bytes, and the asked tracks with their selected samples.
#[derive(Debug, Drop)]
pub struct ClipRows {
    pub name: Name,
    pub file_size: u64,
    pub video: TrackRows,
    pub audio: TrackRows,
}

/// The rows of the clip of a sequence with this timeline, with the edits of its tracks where `edits` are honoured. The movie of
/// the piece is read alone.
///
/// Refused with `ManyPieces`, with the first fault of the piece, with `EmptyClip`, with `TooManySamples` of more than 2,000,000
/// samples of a track, and with `SegmentTooLarge` of more than 2^40 bytes of samples.
pub(crate) fn clip_rows<S: Store>(
    alloc: Global,
    files: &mut S,
    timeline: &Timeline,
    sequence: u32,
    asked: Asked,
    edits: bool,
) -> Result<ClipRows, Refusal>
    ensures told { IfSome (S.content files.old) (λ known. (grid : SegmentGrid) (align : Bool) →
        Came facts_of result (as_facts (planned_clip (cutting_of known edits grid align) asked timeline.now sequence))
        (turns known [] (clip_looks sequence timeline.now)).reads (S.log files.old) (S.log files.new)) }
    ensures sized { IfOk result (λ r. IfSome (S.content files.old) (λ known. length (stored_bytes known r.name) ≡ r.file_size)) }
    ensures small { IfOk result (λ r. IsSmallClip (facts_of r)) }
    ensures content { S.content files.new ≡ S.content files.old }
    ensures later { S.faults files.old ≤ S.faults files.new }
    ensures store_failed { IsErrOf result StoreFailed → Rose (S.faults files.old) (S.faults files.new) }
    ensures refused { IfErr result IsPathRefusal }
{
    let piece = match one_piece(timeline, sequence) {
        Ok(piece) => piece,
        Err(refusal) => return Err(refusal),
    };
    let mut movies = Movies::new(alloc);
    match movies.turn(alloc, files, piece.name.as_str()) {
        Ok(()) => {}
        Err(refusal) => return Err(refusal),
    }
    match check(alloc, piece, movies.front(), edits, asked) {
        Ok(tracks) => checked_clip(alloc, sequence, asked, piece, &tracks),
        Err(refusal) => Err(refusal),
    }
}

/// The one piece of a timeline. Refused with `ManyPieces`, and with `NothingSelected`, of the sequence, where there is none.
pub fn one_piece(timeline: &Timeline, sequence: u32) -> Result<&Piece, Refusal>
    ensures piece { IfOk result (λ piece. one_piece_of sequence timeline.now ≡ Ok piece.now) }
    ensures each { IfOk result (λ piece. IsPiece piece.now) }
    ensures fault { IfErr result (λ refusal. one_piece_of sequence timeline.now ≡ Err refusal) }
    ensures not_failed { IfErr result (λ refusal. refusal ≢ StoreFailed) }
    ensures refused { IfErr result IsPathRefusal }
{
    let pieces = timeline.pieces.as_slice();
    if pieces.len() > 1 {
        return Err(Refusal::ManyPieces {
            have: pieces.len() as u32,
        });
    }
    match pieces.first() {
        Some(piece) => Ok(piece),
        None => Err(Refusal::NothingSelected { sequence }),
    }
}

// The clip of a piece whose asked tracks have no fault, or its first refusal.
fn checked_clip(
    alloc: Global,
    sequence: u32,
    asked: Asked,
    piece: &Piece,
    tracks: &CheckedTracks<'_>,
) -> Result<ClipRows, Refusal>
    requires piece { IsPiece piece.now }
    requires sound { AreSound (checked_view piece.now tracks.now) }
    requires video { IfSome tracks.now.video (λ v. v.samples ≡ sample_count (tables_of v.tables)) }
    requires audio { IfSome tracks.now.audio (λ v. v.samples ≡ sample_count (tables_of v.tables)) }
    ensures answers { Answers facts_of result (as_facts (checked_clip_of sequence asked (checked_view piece.now tracks.now))) }
    ensures small { IfOk result (λ r. IsSmallClip (facts_of r)) }
    ensures file { IfOk result (λ r. r.file_size ≡ tracks.now.file_size) }
    ensures named { IfOk result (λ r. r.name ≡ piece.now.name) }
    ensures not_failed { IfErr result (λ refusal. refusal ≢ StoreFailed) }
    ensures refused { IfErr result IsPathRefusal }
{
    let mut rows = PartRows::new(alloc);
    match rows.add(alloc, 0, piece, tracks) {
        Ok(()) => {}
        Err(refusal) => return Err(refusal),
    }
    match check_counts(sequence, &rows) {
        Ok(()) => {}
        Err(refusal) => return Err(refusal),
    }
    let Ok(video) = written(alloc, samples_of(&rows, asked, Kind::Video)) else {
        return Err(Refusal::NoMemory);
    };
    let Ok(audio) = written(alloc, samples_of(&rows, asked, Kind::Audio)) else {
        return Err(Refusal::NoMemory);
    };
    let bytes = bytes_of(&video) + bytes_of(&audio);
    if bytes > 1_099_511_627_776 {
        return Err(Refusal::SegmentTooLarge { bytes });
    }
    let Ok(video) = held_track(alloc, &tracks.video, video) else {
        return Err(Refusal::NoMemory);
    };
    let Ok(audio) = held_track(alloc, &tracks.audio, audio) else {
        return Err(Refusal::NoMemory);
    };
    match Name::new(alloc, piece.name.as_str()) {
        Ok(name) => Ok(ClipRows {
            name,
            file_size: tracks.file_size,
            video,
            audio,
        }),
        Err(refusal) => Err(refusal),
    }
}

// What is refused for the numbers of samples: no lead sample, or more than 2,000,000 of a track.
fn check_counts(sequence: u32, rows: &PartRows) -> Result<(), Refusal>
    ensures answers { result ≡ counts_checked sequence (part_rows rows.now) }
    ensures lead { IfOk result (λ done. length rows.now.lead.items ≤ 2000000) }
    ensures other { IfOk result (λ done. length rows.now.other.items ≤ 2000000) }
    ensures not_failed { IfErr result (λ refusal. refusal ≢ StoreFailed) }
    ensures refused { IfErr result IsPathRefusal }
{
    if rows.lead.is_empty() {
        return Err(Refusal::EmptyClip { sequence });
    }
    if rows.lead.len() > 2_000_000 {
        return Err(Refusal::TooManySamples {
            count: rows.lead.len() as u64,
        });
    }
    if rows.other.len() > 2_000_000 {
        return Err(Refusal::TooManySamples {
            count: rows.other.len() as u64,
        });
    }
    Ok(())
}

// The samples of a kind: the lead track's are those of video, where video is asked.
fn samples_of(rows: &PartRows, asked: Asked, kind: Kind) -> &[TimedSample]
    ensures samples { map timed_view result.now ≡ rows_of (lead_of asked) kind (part_rows rows.now) }
{
    match (asked.video, kind) {
        (Some(_), Kind::Video) | (None, Kind::Audio) => &rows.lead,
        (Some(_), Kind::Audio) | (None, Kind::Video) => &rows.other,
    }
}

// A track with these samples; nothing where there is no track.
fn held_track(
    alloc: Global,
    track: &Option<TrackView<'_>>,
    rows: Vec<ClipSample>,
) -> Result<TrackRows, NoMemory>
    ensures { IfOk result (λ t. track_view t ≡ clip_track (option_map good_of track.now) rows.items) }
{
    match track {
        Some(track) => Ok(TrackRows {
            entry: track.entry.to_vec(alloc)?,
            width: track.width,
            height: track.height,
            rows,
        }),
        None => Ok(TrackRows {
            entry: Vec::new(alloc),
            width: 0,
            height: 0,
            rows: Vec::new(alloc),
        }),
    }
}

// Samples as a clip has them.
fn written(alloc: Global, samples: &[TimedSample]) -> Result<Vec<ClipSample>, NoMemory>
    requires placed { All IsPlacedRow (map timed_view samples.now) }
    requires first { AreFirst (map timed_view samples.now) }
    ensures rows { IfOk result (λ rows. rows.items ≡ map (written_row Fmp4) (map timed_view samples.now)) }
    ensures each { IfOk result (λ rows. All IsClipRow rows.items) }
{
    let mut rows = Vec::new(alloc);
    for sample in samples {
        rows.push(clip_sample(sample))?;
    }
    Ok(rows)
}

// A sample as a clip has it.
fn clip_sample(sample: &TimedSample) -> ClipSample
    requires placed { IsPlacedRow (timed_view sample.now) }
    requires first { sample.now.file ≡ 0 }
    ensures row { result ≡ written_row Fmp4 (timed_view sample.now) }
    ensures each { IsClipRow result }
{
    ClipSample {
        number: u64::from(sample.number),
        at: sample.offset,
        size: sample.size,
        dts: sample.place,
        pts: sample.presentation,
        dur: sample.duration.min(4_294_967_295) as u32,
        sync: sample.sync,
    }
}
