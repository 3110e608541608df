//! Times of the rows of a clip, and how long they last.

ghost use Rattle.std.specs.Prelude.{◌≡◌, ◌≤◌, ◌<◌, ◌^◌, All, pos, ◌+ℤ◌, unsigned_abs};
ghost use Rattle.std.specs.Int.{int_gap};
ghost use Rattle.std.specs.Option.{ForSome, option_copied, option_to_list};
ghost use Rattle.media_model.specs.Fragment.{composition_offset, row_duration, written_duration};
ghost use Rattle.media_model.specs.Clip.{begins_after as begins_after_of, lead_rows as lead_rows_of, shown_duration as shown_duration_of, track_duration as track_duration_of};
ghost use Rattle.flat_clip.specs.Tracks.{IsClipRow};

use crate::sample::ClipSample;

/// The rows of the lead: those of the video where there are any.
pub(crate) fn lead_rows<'a>(video: &'a [ClipSample], audio: &'a [ClipSample]) -> &'a [ClipSample]
    ensures { result.now ≡ lead_rows_of video.now audio.now }
{
    if video.is_empty() { audio } else { video }
}

/// How long the rows of a track last together, in 1/90000 s.
pub(crate) fn track_duration(rows: &[ClipSample]) -> u64
    requires { All IsClipRow rows.now }
    ensures duration { result ≡ track_duration_of rows.now }
    ensures small { result < 2 ^ 44 }
{
    match (rows.first(), rows.last()) {
        (Some(first), Some(last)) => gap(first.dts(), end_of(last)),
        _ => 0,
    }
}

// Where a row ends.
fn end_of(row: &ClipSample) -> i64
    requires { IsClipRow row.now }
    ensures end { result ≡ (row.now.sample.dts +ℤ pos (written_duration row.now.sample.dur)) }
    ensures bounded { unsigned_abs result ≤ 2 ^ 43 }
{
    row.dts() + i64::from(row.dur())
}

/// How long after the lead a track begins, in 1/90000 s.
pub(crate) fn begins_after(lead: &[ClipSample], rows: &[ClipSample]) -> u64
    requires lead { All IsClipRow lead.now }
    requires rows { All IsClipRow rows.now }
    ensures after { result ≡ begins_after_of lead.now rows.now }
    ensures small { result < 2 ^ 44 }
{
    match (lead.first(), rows.first()) {
        (Some(first), Some(row)) => gap(first.dts(), row.dts()),
        _ => 0,
    }
}

/// When a track is over, from the start of the lead, in 1/90000 s.
pub(crate) fn shown_duration(lead: &[ClipSample], rows: &[ClipSample]) -> u64
    requires lead { All IsClipRow lead.now }
    requires rows { All IsClipRow rows.now }
    ensures { result ≡ shown_duration_of lead.now rows.now }
{
    begins_after(lead, rows) + track_duration(rows)
}

// How far the second time is above the first.
fn gap(first: i64, second: i64) -> u64
    requires first { unsigned_abs first ≤ 2 ^ 42 }
    requires second { unsigned_abs second ≤ 2 ^ 43 }
    ensures gap { result ≡ int_gap first second }
    ensures small { result < 2 ^ 44 }
{
    (second - first).max(0) as u64
}

/// How long a row lasts before the row that follows, at most what 32 bits hold.
pub(crate) fn duration(row: &ClipSample, following: Option<&ClipSample>) -> u32
    requires row { IsClipRow row.now }
    requires following { ForSome following (λ r. IsClipRow r.now) }
    ensures { result ≡ row_duration row.now (option_to_list (option_copied following.entry)) }
{
    let last = row.dur();
    match following {
        Some(next) => gap(row.dts(), next.dts()).min(4_294_967_295) as u32,
        None => last,
    }
}

/// Presentation minus decode time, as the bits of a number with a sign.
pub(crate) fn offset(row: &ClipSample) -> u32
    requires { IsClipRow row.now }
    ensures { result ≡ composition_offset row.now }
{
    ((row.pts() - row.dts()) as i32).cast_unsigned()
}
