//! How long a clip is, before any byte of it stands.

ghost use Rattle.std.specs.Prelude.{◌≡◌, ◌*◌, ◌≤◌, ◌<◌, ◌^◌, length, All};
ghost use Rattle.media_model.specs.Clip.{edits_size as edits_size_of, if_rows, lead_rows, media_start as media_start_of, movie_size as movie_size_of, sync_numbers, track_rest_size as track_rest_size_of, track_size as track_size_of};
ghost use Rattle.media_model.specs.Fragment.{sizes};
ghost use Rattle.flat_clip.specs.Tracks.{track_view, IsClipRow, IsSmallTrack};

use crate::sample::ClipSample;
use crate::times;
use crate::times::begins_after;
use crate::tracks::TrackRows;
use vod_types::Kind;

/// The bytes of all these samples.
pub(crate) fn bytes_of(rows: &[ClipSample]) -> u64
    requires { length rows.now ≤ 2000000 }
    ensures bytes { result ≡ sizes rows.now }
    ensures few { result < 2 ^ 54 }
{
    let mut bytes = 0;
    for row in rows {
        bytes += u64::from(row.size());
    }
    bytes
}

/// Where the first sample of the clip stands: behind `ftyp`, `moov` and the header of `mdat`.
pub(crate) fn media_start(video: &TrackRows, audio: &TrackRows) -> u64
    requires video { IsSmallTrack (track_view video.now) }
    requires audio { IsSmallTrack (track_view audio.now) }
    ensures start { result ≡ media_start_of (track_view video.now) (track_view audio.now) }
    ensures small { result < 2 ^ 40 }
{
    24 + movie_size(video, audio) + 16
}

// The length of `moov`.
fn movie_size(video: &TrackRows, audio: &TrackRows) -> u64
    requires video { IsSmallTrack (track_view video.now) }
    requires audio { IsSmallTrack (track_view audio.now) }
    ensures size { result ≡ movie_size_of (track_view video.now) (track_view audio.now) }
    ensures small { result < 2 ^ 39 }
{
    let lead = times::lead_rows(&video.rows, &audio.rows);
    128 + given_size(Kind::Video, lead, video) + given_size(Kind::Audio, lead, audio)
}

// The length of `trak` of a track that has rows; no bytes of a track without rows.
fn given_size(kind: Kind, lead: &[ClipSample], track: &TrackRows) -> u64
    requires small { IsSmallTrack (track_view track.now) }
    requires lead { All IsClipRow lead.now }
    ensures size { result ≡ if_rows track.now.rows.items 0 (track_size_of kind lead.now (track_view track.now)) }
    ensures small { result < 2 ^ 37 }
{
    if track.rows.is_empty() {
        return 0;
    }
    track_size(kind, lead, track)
}

// The length of `trak`.
fn track_size(kind: Kind, lead: &[ClipSample], track: &TrackRows) -> u64
    requires small { IsSmallTrack (track_view track.now) }
    requires lead { All IsClipRow lead.now }
    ensures size { result ≡ track_size_of kind lead.now (track_view track.now) }
    ensures small { result < 2 ^ 37 }
{
    let rest = track_rest_size(kind, &track.rows);
    let edits = edits_size(begins_after(lead, &track.rows));
    rest + edits + track.entry.len() as u64 + 28 * track.rows.len() as u64
}

// What `trak` has beside its edits, its entry and 28 bytes for each row.
fn track_rest_size(kind: Kind, rows: &[ClipSample]) -> u64
    requires { length rows.now ≤ 2000000 }
    ensures size { result ≡ track_rest_size_of kind rows.now }
    ensures small { result < 2 ^ 32 }
{
    match kind {
        Kind::Video => 397 + 4 * sync_count(rows),
        Kind::Audio => 377,
    }
}

// How many rows are sync rows.
fn sync_count(rows: &[ClipSample]) -> u64
    requires { length rows.now ≤ 2000000 }
    ensures count { result ≡ length (sync_numbers rows.now) }
    ensures few { result ≤ 2000000 }
{
    let mut count = 0;
    for row in rows {
        if row.is_sync() {
            count += 1;
        }
    }
    count
}

// The length of `edts` of a track that begins so long after the lead.
fn edits_size(after: u64) -> u64
    ensures size { result ≡ edits_size_of after }
    ensures small { result ≤ 64 }
{
    if after == 0 { 0 } else { 64 }
}
