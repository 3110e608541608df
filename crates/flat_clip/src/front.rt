//! All that stands before the samples of a clip: `ftyp`, `moov` and the header of `mdat`.

ghost use Rattle.std.specs.Prelude.{◌≡◌, ◌+◌, ◌++◌, ◌≤◌, ◌^◌, map, OnOk, IfOk};
ghost use Rattle.media_model.specs.Clip.{clip_front, file_type, media_data_header, movie_box, movie_header, placed_rows};
ghost use Rattle.media_model.specs.Fragment.{sizes};
ghost use Rattle.flat_clip.specs.Tracks.{placed_view, track_view, IsSmallTrack};

use crate::boxes::{put_box, put_full_box};
use crate::placed::{PlacedSample, places_of};
use crate::times::{lead_rows, shown_duration};
use crate::tracks::{TrackRows, put_given_track, put_matrix};
use std::alloc::Global;
use vod_bytes::{Buf, NoMemory};
use vod_types::Kind;

/// All that stands before the samples of the clip of two tracks, which stand at these places and have so many bytes.
pub(crate) fn front_of(
    alloc: Global,
    video: &TrackRows,
    audio: &TrackRows,
    samples: &[PlacedSample],
    bytes: u64,
) -> Result<Vec<u8>, NoMemory>
    requires video { IsSmallTrack (track_view video.now) }
    requires audio { IsSmallTrack (track_view audio.now) }
    requires samples { map placed_view samples.now ≡ placed_rows (track_view video.now) (track_view audio.now) }
    requires bytes { bytes ≡ sizes video.now.rows.items + sizes audio.now.rows.items }
    requires few { bytes ≤ 2 ^ 62 }
    ensures { IfOk result (λ front. front.items ≡ clip_front (track_view video.now) (track_view audio.now)) }
{
    let mut buf = Buf::new(alloc);
    put_file_type(&mut buf)?;
    put_movie(alloc, &mut buf, video, audio, samples)?;
    put_media_data_header(&mut buf, bytes)?;
    Ok(buf.into_vec())
}

// `ftyp` (4.3).
fn put_file_type(buf: &mut Buf) -> Result<(), NoMemory>
    ensures { OnOk result (buf.new ≡ buf.old ++ file_type) }
{
    put_box(buf, b"ftyp", b"isom\0\0\0\0isommp42")?;
    Ok(())
}

// `moov` of the tracks that have rows (8.2.1).
fn put_movie(
    alloc: Global,
    buf: &mut Buf,
    video: &TrackRows,
    audio: &TrackRows,
    samples: &[PlacedSample],
) -> Result<(), NoMemory>
    requires video { IsSmallTrack (track_view video.now) }
    requires audio { IsSmallTrack (track_view audio.now) }
    requires samples { map placed_view samples.now ≡ placed_rows (track_view video.now) (track_view audio.now) }
    ensures { OnOk result (buf.new ≡ buf.old ++ movie_box (track_view video.now) (track_view audio.now)) }
{
    let lead = lead_rows(&video.rows, &audio.rows);
    let video_places = places_of(alloc, Kind::Video, samples)?;
    let audio_places = places_of(alloc, Kind::Audio, samples)?;
    let video_shown = shown_duration(lead, &video.rows);
    let audio_shown = shown_duration(lead, &audio.rows);
    let mut inside = Buf::new(alloc);
    put_movie_header(alloc, &mut inside, video_shown.max(audio_shown))?;
    put_given_track(alloc, &mut inside, Kind::Video, lead, &video_places, video)?;
    put_given_track(alloc, &mut inside, Kind::Audio, lead, &audio_places, audio)?;
    let inside = inside.into_vec();
    put_box(buf, b"moov", &inside)?;
    Ok(())
}

// `mvhd` of version 1 (8.2.2).
fn put_movie_header(alloc: Global, buf: &mut Buf, duration: u64) -> Result<(), NoMemory>
    ensures { OnOk result (buf.new ≡ buf.old ++ movie_header duration) }
{
    let mut fields = Buf::new(alloc);
    // creation and modification time
    fields.bytes(&[0; 16])?;
    fields.u32(90000)?;
    fields.u64(duration)?;
    // rate and volume 1, and reserved bytes
    fields.u32(0x0001_0000)?;
    fields.u16(0x0100)?;
    fields.bytes(&[0; 10])?;
    put_matrix(&mut fields)?;
    fields.bytes(&[0; 24])?;
    // the next track's number
    fields.u32(3)?;
    let fields = fields.into_vec();
    put_full_box(buf, b"mvhd", 0x0100_0000, &fields)?;
    Ok(())
}

// The header of `mdat` with a size of 64 bits, over so many bytes (4.2 and 8.1.1).
fn put_media_data_header(buf: &mut Buf, bytes: u64) -> Result<(), NoMemory>
    requires { bytes ≤ 2 ^ 62 }
    ensures { OnOk result (buf.new ≡ buf.old ++ media_data_header bytes) }
{
    buf.u32(1)?;
    buf.bytes(b"mdat")?;
    buf.u64(16 + bytes)?;
    Ok(())
}
