//! The part of a clip that is asked for.

ghost use Rattle.std.specs.Prelude.{◌≡◌, ◌≢◌, ◌+◌, ◌++◌, ◌≤◌, ◌<◌, ◌^◌, Bool, Ok, Err, length, map, slice_range, IfOk, IfErr, IfSome, IsErrOf};
ghost use Rattle.vod_types.specs.declared.refusal.Refusal.TheVariants.{StoreFailed};
ghost use Rattle.vod_types.specs.declared.refusal.Refusal.TheVariants as refusals;
ghost use Rattle.media_model.specs.Clip.{clip_front, clip_size, placed_rows};
ghost use Rattle.segment_model.specs.Grid.{SegmentGrid};
ghost use Rattle.vod_source.specs.Calls.{Came};
ghost use Rattle.vod_source.specs.Causes.{Rose};
ghost use Rattle.vod_source.specs.Stored.{bytes_of as stored_bytes};
ghost use Rattle.origin_model.specs.Clips.{asked_part as asked_part_of};
ghost use Rattle.flat_clip.specs.Answers.{due_part, facts_part, held_part, part_reads_of, held_reads, part_view, IsClipRefusal};
ghost use Rattle.flat_clip.specs.Rows.{cutting_of, facts_of, IsSmallClip};
ghost use Rattle.flat_clip.specs.Tracks.{placed_view, track_view};

use crate::faults::check_samples;
use crate::front::front_of;
use crate::placed::{PlacedSample, placed_samples};
use crate::ranges::asked_part;
use crate::reading::read_samples;
use crate::rows::{ClipRows, clip_rows};
use crate::sizes::{bytes_of, media_start};
use seq_timeline::Timeline;
use std::alloc::Global;
use vod_bytes::NoMemory;
use vod_source::Store;
use vod_types::{Asked, ByteRange, Refusal};

/// The part of a clip that was asked for: its bytes, the places of the first and of the last of them, and how many bytes the whole
/// clip has.
#[derive(Debug, Drop)]
pub struct ClipPart {
    pub bytes: Vec<u8>,
    pub first: u64,
    pub last: u64,
    pub length: u64,
}

/// The clip of a sequence with this timeline, or the part of it that a range asks for, with the edits of its tracks where `edits`
/// are honoured. Of the file, the movie is read, and of the samples the bytes that are in the part.
///
/// Refused with `ManyPieces`, with the first fault of the piece, with `EmptyClip`, with `TooManySamples`, with `SegmentTooLarge`,
/// with `BadRange` where the range begins behind the clip, and with `SampleTooLong` or `OutOfFile` of a sample that has bytes in
/// the part.
pub fn clip_part<S: Store>(
    alloc: Global,
    files: &mut S,
    timeline: &Timeline,
    sequence: u32,
    asked: Asked,
    edits: bool,
    range: Option<ByteRange>,
) -> Result<ClipPart, Refusal>
    ensures told { IfSome (S.content files.old) (λ known. (grid : SegmentGrid) (align : Bool) →
        Came part_view result (due_part (cutting_of known edits grid align) asked timeline.now sequence range)
        (part_reads_of (cutting_of known edits grid align) asked timeline.now sequence range) (S.log files.old) (S.log files.new)) }
    ensures content { S.content files.new ≡ S.content files.old }
    ensures later { S.faults files.old ≤ S.faults files.new }
    ensures store_failed { IsErrOf result StoreFailed → Rose (S.faults files.old) (S.faults files.new) }
    ensures asked { IfOk result (λ p. asked_part_of range p.length ≡ Ok (p.first, p.last)) }
    ensures refused { IfErr result (IsClipRefusal range) }
{
    match clip_rows(alloc, files, timeline, sequence, asked, edits) {
        Ok(rows) => rows_part(alloc, files, &rows, range),
        Err(refusal) => Err(refusal),
    }
}

/// The part that a range asks for of the clip of these rows. Of their file, which has so many bytes, the bytes of samples that are
/// in the part are read.
///
/// Refused with `BadRange`, `SampleTooLong` and `OutOfFile` as the part of a sequence's clip.
pub fn rows_part<S: Store>(
    alloc: Global,
    files: &mut S,
    rows: &ClipRows,
    range: Option<ByteRange>,
) -> Result<ClipPart, Refusal>
    requires small { IsSmallClip (facts_of rows.now) }
    requires sized { IfSome (S.content files.old) (λ known. length (stored_bytes known rows.now.name) ≡ rows.now.file_size) }
    ensures told { IfSome (S.content files.old) (λ known.
        Came part_view result (held_part known range (facts_of rows.now)) (held_reads range (facts_of rows.now)) (S.log files.old) (S.log files.new)) }
    ensures content { S.content files.new ≡ S.content files.old }
    ensures later { S.faults files.old ≤ S.faults files.new }
    ensures store_failed { IsErrOf result StoreFailed → Rose (S.faults files.old) (S.faults files.new) }
    ensures asked { IfOk result (λ p. asked_part_of range p.length ≡ Ok (p.first, p.last)) }
    ensures refused { IfErr result (IsClipRefusal range) }
{
    let _size = rows.file_size;
    let begun = match begun_part(alloc, rows, range) {
        Ok(begun) => begun,
        Err(refusal) => return Err(refusal),
    };
    let BegunPart {
        part,
        length,
        samples,
        mut bytes,
    } = begun;
    match read_samples(alloc, files, rows.name.as_str(), part, &samples, &mut bytes) {
        Ok(()) => Ok(ClipPart {
            bytes,
            first: part.0,
            last: part.1,
            length,
        }),
        Err(refusal) => Err(refusal),
    }
}

// A part before its samples are read: its first and its last byte, the length of the clip, all samples in their places, and the
// bytes of the part that stand before the samples.
#[derive(Drop)]
struct BegunPart {
    part: (u64, u64),
    length: u64,
    samples: Vec<PlacedSample>,
    bytes: Vec<u8>,
}

// The part that a range asks for, before its samples are read, or its first refusal.
fn begun_part(
    alloc: Global,
    rows: &ClipRows,
    range: Option<ByteRange>,
) -> Result<BegunPart, Refusal>
    requires small { IsSmallClip (facts_of rows.now) }
    ensures asked { IfOk result (λ b. asked_part_of range b.length ≡ Ok b.part) }
    ensures part { IfOk result (λ b. facts_part range (facts_of rows.now) ≡ Ok b.part) }
    ensures length { IfOk result (λ b. b.length ≡ clip_size (track_view rows.now.video) (track_view rows.now.audio)) }
    ensures samples { IfOk result (λ b. map placed_view b.samples.items ≡ placed_rows (track_view rows.now.video) (track_view rows.now.audio)) }
    ensures bytes { IfOk result (λ b. b.bytes.items ≡ slice_range (clip_front (track_view rows.now.video) (track_view rows.now.audio)) b.part.0 (b.part.1 + 1)) }
    ensures fault { IfErr result (λ refusal. refusal ≢ refusals.NoMemory → facts_part range (facts_of rows.now) ≡ Err refusal) }
    ensures not_failed { IfErr result (λ refusal. refusal ≢ StoreFailed) }
    ensures refused { IfErr result (IsClipRefusal range) }
{
    let start = media_start(&rows.video, &rows.audio);
    let size = bytes_of(&rows.video.rows) + bytes_of(&rows.audio.rows);
    let length = start + size;
    let part = match asked_part(range, length) {
        Ok(part) => part,
        Err(refusal) => return Err(refusal),
    };
    let Ok(samples) = placed_samples(alloc, start, &rows.video.rows, &rows.audio.rows) else {
        return Err(Refusal::NoMemory);
    };
    match check_samples(alloc, rows.name.as_str(), rows.file_size, part, &samples) {
        Ok(()) => {}
        Err(refusal) => return Err(refusal),
    }
    let Ok(front) = front_of(alloc, &rows.video, &rows.audio, &samples, size) else {
        return Err(Refusal::NoMemory);
    };
    match front_part(alloc, &front, part) {
        Ok(bytes) => Ok(BegunPart {
            part,
            length,
            samples,
            bytes,
        }),
        Err(_) => Err(Refusal::NoMemory),
    }
}

// The bytes of the front that are in a part.
fn front_part(alloc: Global, front: &[u8], part: (u64, u64)) -> Result<Vec<u8>, NoMemory>
    requires { part.1 < 2 ^ 63 }
    ensures { IfOk result (λ bytes. bytes.items ≡ slice_range front.now part.0 (part.1 + 1)) }
{
    let from = (part.0 as usize).min(front.len());
    let until = (part.1 as usize + 1).min(front.len()).max(from);
    Ok(Vec::from_slice(alloc, &front[from..until])?)
}
