//! The rows of a segment, checked one after another.

ghost use Rattle.std.specs.Prelude.{◌≡◌, ◌≢◌, ◌+◌, ◌++◌, ◌<◌, ◌≤◌, ◌^◌, true, false, None, List, ◌∷◌, [], int_lt, map, length, IfOk, IfErr, OnOk, All};
ghost use Rattle.std.specs.List.{prefix_len};
ghost use Rattle.vod_types.specs.declared.refusal.Refusal.TheVariants.{NoMemory, SampleTooLong, OutOfFile, BackwardOffset};
ghost use Rattle.vod_types.specs.declared.segments.Form.TheVariants.{Ts};
ghost use Rattle.vod_types.specs.declared.tracks.Kind.{Kind};
ghost use Rattle.vod_types.specs.declared.tracks.Kind.TheVariants.{Video, Audio};
ghost use Rattle.vod_types.specs.Results.{Answers, unless};
ghost use Rattle.vod_types.specs.Tracks.{lead_of};
ghost use Rattle.segment_model.specs.Rows.{decode_time_of};
ghost use Rattle.segment_model.specs.Timeline.{rows_of};
ghost use Rattle.media_model.specs.Fragment.{sizes};
ghost use Rattle.media_model.specs.WritingOrder.{of_track};
ghost use Rattle.origin_model.specs.Loaded.{CheckedPiece};
ghost use Rattle.origin_model.specs.Samples.{checked_rows as checked_rows_of, greatest_size as greatest_size_of, is_backward as is_backward_of};
ghost use Rattle.flat_samples.specs.Rows.{timed_view, part_rows, ArePlacedRows, IsPlacedRow};
ghost use Rattle.flat_segments.specs.Needed.{AreTyped};
ghost use Rattle.flat_segments.specs.RowFaults.{front_in, kind_fault, ordered_fault, row_fault, rows_before, shown, EndsLow};
ghost use Rattle.flat_segments.specs.Segments.{file_of, facts_of, flat_plan};

use crate::codecs::{begins_with_hevc, check_codecs};
use crate::facts::{name_of, size_of};
use crate::needed::NeededFile;
use crate::rows::FlatRows;
use flat_samples::{PartRows, TimedSample};
use std::alloc::Global;
use vod_types::{Asked, Form, Kind, Name, Refusal, Row, Sample};

/// The rows of a segment in a form, or its first refusal for them: `EmptySegment`, in a transport stream `MixedCodecs`,
/// `TooManySamples`, then row by row in writing order `SampleTooLong`, `OutOfFile` and in a transport stream
/// `BackwardOffset`, then `SegmentTooLarge`.
pub(crate) fn checked_rows(
    alloc: Global,
    number: u32,
    form: Form,
    asked: Asked,
    files: Vec<NeededFile>,
    rows: &PartRows,
) -> Result<FlatRows, Refusal>
    requires placed { ArePlacedRows (part_rows rows.now) }
    requires typed { AreTyped asked files.items }
    ensures answers { (pieces : List CheckedPiece) → map file_of pieces ≡ map facts_of files.items →
        Answers flat_plan result (checked_rows_of number form asked pieces (part_rows rows.now)) }
    ensures video_ends { IfOk result (λ r. All EndsLow r.video.items) }
    ensures audio_ends { IfOk result (λ r. All EndsLow r.audio.items) }
    ensures files { IfOk result (λ r. r.files ≡ files) }
{
    match check_front(alloc, number, form, asked, &files, rows) {
        Ok(()) => {}
        Err(refusal) => return Err(refusal),
    }
    let samples = BothSamples {
        video: samples_of(rows, asked, Kind::Video),
        audio: samples_of(rows, asked, Kind::Audio),
    };
    let written = match written_rows(alloc, form, &files, samples) {
        Ok(written) => written,
        Err(refusal) => return Err(refusal),
    };
    let BothRows { video, audio } = written;
    let bytes = bytes_of(&video) + bytes_of(&audio);
    if bytes > 2_130_706_432 {
        return Err(Refusal::SegmentTooLarge { bytes });
    }
    Ok(FlatRows {
        hevc: begins_with_hevc(&files),
        video,
        audio,
        video_given: 0,
        audio_given: 0,
        files,
    })
}

// What is refused before the samples are gone through: no lead row, in a transport stream mixed codecs, then more than
// 200,000 rows of a track.
pub(crate) fn check_front(
    alloc: Global,
    number: u32,
    form: Form,
    asked: Asked,
    files: &[NeededFile],
    rows: &PartRows,
) -> Result<(), Refusal>
    requires typed { AreTyped asked files.now }
    ensures answers { Answers (λ done. done) result (unless (front_in number form (map facts_of files.now) (part_rows rows.now))) }
    ensures lead { IfOk result (λ done. length rows.now.lead.items ≤ 200000) }
    ensures other { IfOk result (λ done. length rows.now.other.items ≤ 200000) }
{
    if rows.lead.is_empty() {
        return Err(Refusal::EmptySegment { number });
    }
    match check_codecs(alloc, form, asked, files) {
        Ok(()) => {}
        Err(refusal) => return Err(refusal),
    }
    if rows.lead.len() > 200_000 {
        return Err(Refusal::TooManySamples {
            count: rows.lead.len() as u64,
        });
    }
    if rows.other.len() > 200_000 {
        return Err(Refusal::TooManySamples {
            count: rows.other.len() as u64,
        });
    }
    Ok(())
}

// The samples of a kind: the lead track's are those of video, where video is asked.
fn samples_of(rows: &PartRows, asked: Asked, kind: Kind) -> &[TimedSample]
    ensures { map timed_view result.now ≡ rows_of (lead_of asked) kind (part_rows rows.now) }
{
    match (asked.video, kind) {
        (Some(_), Kind::Video) | (None, Kind::Audio) => &rows.lead,
        (Some(_), Kind::Audio) | (None, Kind::Video) => &rows.other,
    }
}

// The samples of both kinds.
#[derive(Clone, Copy)]
struct BothSamples<'a> {
    video: &'a [TimedSample],
    audio: &'a [TimedSample],
}

// The rows of both kinds.
#[derive(Drop)]
struct BothRows {
    video: Vec<Row>,
    audio: Vec<Row>,
}

// The rows of samples, gone through in the writing order of a form, or their first fault.
fn written_rows(
    alloc: Global,
    form: Form,
    files: &[NeededFile],
    samples: BothSamples<'_>,
) -> Result<BothRows, Refusal>
    requires video { All IsPlacedRow (map timed_view samples.video.now) }
    requires audio { All IsPlacedRow (map timed_view samples.audio.now) }
    ensures video { IfOk result (λ rows. rows.video.items ≡ map (shown form) samples.entry.video.now) }
    ensures audio { IfOk result (λ rows. rows.audio.items ≡ map (shown form) samples.entry.audio.now) }
    ensures sound { IfOk result (λ rows. ordered_fault form (map facts_of files.now) samples.entry.video.now samples.entry.audio.now ≡ None) }
    ensures video_ends { IfOk result (λ rows. All EndsLow rows.video.items) }
    ensures audio_ends { IfOk result (λ rows. All EndsLow rows.audio.items) }
    ensures refused { IfErr result (λ refusal. refusal ≢ NoMemory → ordered_fault form (map facts_of files.now) samples.entry.video.now samples.entry.audio.now ≡ Some refusal) }
{
    let mut video = Vec::new(alloc);
    let mut audio = Vec::new(alloc);
    let mut left = samples.audio;
    for sample in samples.video {
        let (before, later) = left.split_at(audio_before(form, sample, left));
        match add_rows(alloc, form, Kind::Audio, files, before, &mut audio) {
            Ok(()) => {}
            Err(refusal) => return Err(refusal),
        }
        match add_row(alloc, form, Kind::Video, files, sample, &mut video) {
            Ok(()) => {}
            Err(refusal) => return Err(refusal),
        }
        left = later;
    }
    match add_rows(alloc, form, Kind::Audio, files, left, &mut audio) {
        Ok(()) => Ok(BothRows { video, audio }),
        Err(refusal) => Err(refusal),
    }
}

// How many of the audio samples that are left a form writes before a video sample: in a transport stream those that are
// decoded before it, up to the first that isn't.
fn audio_before(form: Form, video: &TimedSample, left: &[TimedSample]) -> usize
    requires video { IsPlacedRow (timed_view video.now) }
    requires left { All IsPlacedRow (map timed_view left.now) }
    ensures count { result ≡ rows_before form (shown form video.now) (map (shown form) left.now) }
    ensures within { result ≤ length left.now }
{
    match form {
        Form::Ts => decoded_before(decode_time(form, video), left),
        Form::Fmp4 => 0,
    }
}

// How many samples a transport stream decodes before a time, up to the first that it doesn't.
fn decoded_before(time: i64, samples: &[TimedSample]) -> usize
    requires { All IsPlacedRow (map timed_view samples.now) }
    ensures count { result ≡ prefix_len (λ r. int_lt (decode_time_of Ts r) time) (map timed_view samples.now) }
    ensures within { result ≤ length samples.now }
{
    for (place, sample) in samples.iter().enumerate() {
        if decode_time(Form::Ts, sample) >= time {
            return place;
        }
    }
    samples.len()
}

// When a form decodes a sample.
fn decode_time(form: Form, sample: &TimedSample) -> i64
    requires { IsPlacedRow (timed_view sample.now) }
    ensures { result ≡ decode_time_of form (timed_view sample.now) }
{
    match form {
        Form::Ts => sample.place - i64::from(sample.lead_in),
        Form::Fmp4 => sample.place,
    }
}

// A transport stream can't show a sample before it is decoded.
fn is_backward(form: Form, sample: &TimedSample) -> bool
    requires { IsPlacedRow (timed_view sample.now) }
    ensures { (kind : Kind) → result ≡ is_backward_of form (of_track kind (shown form sample.now)) }
{
    match form {
        Form::Ts => sample.presentation < decode_time(form, sample),
        Form::Fmp4 => false,
    }
}

// Puts the rows of samples of a kind behind others, or gives their first fault.
fn add_rows(
    alloc: Global,
    form: Form,
    kind: Kind,
    files: &[NeededFile],
    samples: &[TimedSample],
    rows: &mut Vec<Row>,
) -> Result<(), Refusal>
    requires placed { All IsPlacedRow (map timed_view samples.now) }
    requires ends { All EndsLow rows.old.items }
    ensures rows { OnOk result (rows.new.items ≡ rows.old.items ++ map (shown form) samples.now) }
    ensures sound { OnOk result (kind_fault form kind (map facts_of files.now) samples.now ≡ None) }
    ensures ends { OnOk result (All EndsLow rows.new.items) }
    ensures refused { IfErr result (λ refusal. refusal ≢ NoMemory → kind_fault form kind (map facts_of files.now) samples.now ≡ Some refusal) }
{
    for sample in samples {
        match add_row(alloc, form, kind, files, sample, rows) {
            Ok(()) => {}
            Err(refusal) => return Err(refusal),
        }
    }
    Ok(())
}

// Puts the row of a sample behind others, or gives its first fault.
fn add_row(
    alloc: Global,
    form: Form,
    kind: Kind,
    files: &[NeededFile],
    sample: &TimedSample,
    rows: &mut Vec<Row>,
) -> Result<(), Refusal>
    requires placed { IsPlacedRow (timed_view sample.now) }
    requires ends { All EndsLow rows.old.items }
    ensures rows { OnOk result (rows.new.items ≡ rows.old.items ++ shown form sample.now ∷ []) }
    ensures sound { OnOk result (row_fault form (map facts_of files.now) (of_track kind (shown form sample.now)) ≡ None) }
    ensures ends { OnOk result (All EndsLow rows.new.items) }
    ensures refused { IfErr result (λ refusal. refusal ≢ NoMemory → row_fault form (map facts_of files.now) (of_track kind (shown form sample.now)) ≡ Some refusal) }
{
    match checked_row(alloc, form, kind, files, sample) {
        Ok(row) => match rows.push(row) {
            Ok(()) => Ok(()),
            Err(_) => Err(Refusal::NoMemory),
        },
        Err(refusal) => Err(refusal),
    }
}

// The row of a sample, or its first fault.
fn checked_row(
    alloc: Global,
    form: Form,
    kind: Kind,
    files: &[NeededFile],
    sample: &TimedSample,
) -> Result<Row, Refusal>
    requires { IsPlacedRow (timed_view sample.now) }
    ensures row { IfOk result (λ row. row ≡ shown form sample.now) }
    ensures sound { IfOk result (λ row. row_fault form (map facts_of files.now) (of_track kind (shown form sample.now)) ≡ None) }
    ensures ends { IfOk result EndsLow }
    ensures refused { IfErr result (λ refusal. refusal ≢ NoMemory → row_fault form (map facts_of files.now) (of_track kind (shown form sample.now)) ≡ Some refusal) }
{
    if sample.size > greatest_size(form, kind) {
        return Err(too_long(alloc, name_of(files, sample.file), sample));
    }
    if !fits(size_of(files, sample.file), sample.offset, sample.size) {
        return Err(out_of_file(alloc, name_of(files, sample.file), sample));
    }
    if is_backward(form, sample) {
        return Err(backward(alloc, name_of(files, sample.file), sample));
    }
    Ok(Row {
        file: sample.file,
        number: u64::from(sample.number),
        sample: Sample {
            at: sample.offset as u64,
            size: sample.size,
            dts: decode_time(form, sample),
            pts: sample.presentation,
            dur: sample.duration.min(4_294_967_295) as u32,
            sync: sample.sync,
        },
    })
}

// The greatest size of a sample: an AAC frame in a transport stream has to fit an ADTS header.
fn greatest_size(form: Form, kind: Kind) -> u32
    ensures { result ≡ greatest_size_of form kind }
{
    match (form, kind) {
        (Form::Ts, Kind::Audio) => 8184,
        (Form::Ts, Kind::Video) => 16_777_216,
        (Form::Fmp4, _) => 16_777_216,
    }
}

// Whether a file of this size has so many bytes from a place on.
fn fits(file: u64, at: u128, size: u32) -> bool
    ensures within { result ≡ true → at + size ≤ file }
    ensures beyond { result ≡ false → file < at + size }
{
    let size = u64::from(size);
    size <= file && at <= u128::from(file - size)
}

fn too_long(alloc: Global, name: &str, sample: &TimedSample) -> Refusal
    ensures { result ≢ NoMemory → result ≡ SampleTooLong name.now sample.now.number sample.now.size }
{
    match Name::new(alloc, name) {
        Ok(name) => Refusal::SampleTooLong {
            name,
            sample: u64::from(sample.number),
            size: sample.size,
        },
        Err(refusal) => refusal,
    }
}

fn out_of_file(alloc: Global, name: &str, sample: &TimedSample) -> Refusal
    ensures { result ≢ NoMemory → result ≡ OutOfFile name.now sample.now.number }
{
    match Name::new(alloc, name) {
        Ok(name) => Refusal::OutOfFile {
            name,
            sample: u64::from(sample.number),
        },
        Err(refusal) => refusal,
    }
}

fn backward(alloc: Global, name: &str, sample: &TimedSample) -> Refusal
    ensures { result ≢ NoMemory → result ≡ BackwardOffset name.now sample.now.number }
{
    match Name::new(alloc, name) {
        Ok(name) => Refusal::BackwardOffset {
            name,
            sample: u64::from(sample.number),
        },
        Err(refusal) => refusal,
    }
}

// The bytes of all these samples.
fn bytes_of(rows: &[Row]) -> u64
    requires { length rows.now ≤ 200000 }
    ensures bytes { result ≡ sizes rows.now }
    ensures few { result < 2 ^ 63 }
{
    let mut bytes = 0;
    for row in rows {
        bytes += u64::from(row.sample.size);
    }
    bytes
}
