//! The tracks of a clip, and their boxes (ISO/IEC 14496-12, 8.3 and 8.4).

ghost use Rattle.std.specs.Prelude.{◌≡◌, ◌++◌, ◌≤◌, [], length, All, OnOk};
ghost use Rattle.vod_bytes.specs.Fields.{be64};
ghost use Rattle.media_model.specs.Clip.{edit_entry, edits, if_rows, media, media_header, track_box, track_header};
ghost use Rattle.media_model.specs.InitSegment.{data_information, handler, kind_header, track_number, unity_matrix, volume};
ghost use Rattle.flat_clip.specs.Tracks.{information, track_view, HasRoom, IsClipRow, IsSmallTrack};

use crate::boxes::{put_box, put_full_box};
use crate::sample::ClipSample;
use crate::tables::put_sample_table;
use crate::times::{begins_after, shown_duration, track_duration};
use std::alloc::Global;
use vod_bytes::{Buf, NoMemory};
use vod_types::Kind;

/// A track of a clip: its sample entry, the width and the height of its picture, and its rows. Without rows it is left out.
#[derive(Debug, Drop)]
pub struct TrackRows {
    pub entry: Vec<u8>,
    pub width: u16,
    pub height: u16,
    pub rows: Vec<ClipSample>,
}

/// `trak` of a track that has rows, which stand at these places, beside these rows of the lead; nothing of a track without
/// rows (8.3.1).
pub(crate) fn put_given_track(
    alloc: Global,
    buf: &mut Buf,
    kind: Kind,
    lead: &[ClipSample],
    places: &[u64],
    track: &TrackRows,
) -> Result<(), NoMemory>
    requires small { IsSmallTrack (track_view track.now) }
    requires lead { All IsClipRow lead.now }
    ensures { OnOk result (buf.new ≡ buf.old ++ if_rows track.now.rows.items [] (track_box kind lead.now places.now (track_view track.now))) }
{
    if track.rows.is_empty() {
        return Ok(());
    }
    put_track(alloc, buf, kind, lead, places, track)
}

// `trak` beside these rows of the lead (8.3.1).
fn put_track(
    alloc: Global,
    buf: &mut Buf,
    kind: Kind,
    lead: &[ClipSample],
    places: &[u64],
    track: &TrackRows,
) -> Result<(), NoMemory>
    requires small { IsSmallTrack (track_view track.now) }
    requires entry { HasRoom track.now.entry.items }
    requires lead { All IsClipRow lead.now }
    ensures { OnOk result (buf.new ≡ buf.old ++ track_box kind lead.now places.now (track_view track.now)) }
{
    let mut inside = Buf::new(alloc);
    let shown = shown_duration(lead, &track.rows);
    put_track_header(alloc, &mut inside, kind, (track.width, track.height), shown)?;
    let after = begins_after(lead, &track.rows);
    put_edits(alloc, &mut inside, after, track_duration(&track.rows))?;
    put_media(alloc, &mut inside, kind, places, track)?;
    let inside = inside.into_vec();
    put_box(buf, b"trak", &inside)?;
    Ok(())
}

// `tkhd` of version 1 of an enabled track, with the width and the height of its picture (8.3.2).
fn put_track_header(
    alloc: Global,
    buf: &mut Buf,
    kind: Kind,
    size: (u16, u16),
    duration: u64,
) -> Result<(), NoMemory>
    ensures { OnOk result (buf.new ≡ buf.old ++ track_header kind size.0 size.1 duration) }
{
    let mut fields = Buf::new(alloc);
    // creation and modification time
    fields.bytes(&[0; 16])?;
    fields.u32(number_of(kind))?;
    fields.u32(0)?;
    fields.u64(duration)?;
    // reserved bytes, layer and group
    fields.bytes(&[0; 12])?;
    fields.u16(volume_of(kind))?;
    fields.u16(0)?;
    put_matrix(&mut fields)?;
    fields.u32(u32::from(size.0) * 65536)?;
    fields.u32(u32::from(size.1) * 65536)?;
    let fields = fields.into_vec();
    put_full_box(buf, b"tkhd", 0x0100_0007, &fields)?;
    Ok(())
}

// The number of the kind's track.
fn number_of(kind: Kind) -> u32
    ensures { result ≡ track_number kind }
{
    match kind {
        Kind::Video => 1,
        Kind::Audio => 2,
    }
}

// The volume of a track, with 8 bits behind the point.
fn volume_of(kind: Kind) -> u16
    ensures { result ≡ volume kind }
{
    match kind {
        Kind::Video => 0,
        Kind::Audio => 0x0100,
    }
}

/// The matrix that changes nothing (6.2.2).
pub(crate) fn put_matrix(buf: &mut Buf) -> Result<(), NoMemory>
    ensures { OnOk result (buf.new ≡ buf.old ++ unity_matrix) }
{
    buf.u32(0x0001_0000)?;
    buf.bytes(&[0; 12])?;
    buf.u32(0x0001_0000)?;
    buf.bytes(&[0; 12])?;
    buf.u32(0x4000_0000)?;
    Ok(())
}

// `edts` of a track that begins after the lead: an empty edit, and then the whole track (8.6.5).
fn put_edits(alloc: Global, buf: &mut Buf, after: u64, duration: u64) -> Result<(), NoMemory>
    ensures { OnOk result (buf.new ≡ buf.old ++ edits after duration) }
{
    if after == 0 {
        return Ok(());
    }
    put_edit_list(alloc, buf, after, duration)
}

// `edts` with `elst` of these two edits (8.6.6).
fn put_edit_list(alloc: Global, buf: &mut Buf, after: u64, duration: u64) -> Result<(), NoMemory>
    requires { 1 ≤ after }
    ensures { OnOk result (buf.new ≡ buf.old ++ edits after duration) }
{
    let mut list = Buf::new(alloc);
    list.u32(2)?;
    put_edit(&mut list, after, -1)?;
    put_edit(&mut list, duration, 0)?;
    let list = list.into_vec();
    let mut inside = Buf::new(alloc);
    put_full_box(&mut inside, b"elst", 0x0100_0000, &list)?;
    let inside = inside.into_vec();
    put_box(buf, b"edts", &inside)?;
    Ok(())
}

// An edit at rate 1: its duration and its media time (8.6.6).
fn put_edit(buf: &mut Buf, duration: u64, time: i64) -> Result<(), NoMemory>
    ensures { OnOk result (buf.new ≡ buf.old ++ edit_entry duration time) }
{
    buf.u64(duration)?;
    buf.u64(time.cast_unsigned())?;
    buf.u32(0x0001_0000)?;
    Ok(())
}

// `mdia` (8.4.1).
fn put_media(
    alloc: Global,
    buf: &mut Buf,
    kind: Kind,
    places: &[u64],
    track: &TrackRows,
) -> Result<(), NoMemory>
    requires small { IsSmallTrack (track_view track.now) }
    requires entry { HasRoom track.now.entry.items }
    ensures { OnOk result (buf.new ≡ buf.old ++ media kind track.now.entry.items places.now track.now.rows.items) }
{
    let mut inside = Buf::new(alloc);
    put_media_header(alloc, &mut inside, track_duration(&track.rows))?;
    put_handler(&mut inside, kind)?;
    put_information(alloc, &mut inside, kind, places, track)?;
    let inside = inside.into_vec();
    put_box(buf, b"mdia", &inside)?;
    Ok(())
}

// `mdhd` of version 1 with the language `und` (8.4.2).
fn put_media_header(alloc: Global, buf: &mut Buf, duration: u64) -> Result<(), NoMemory>
    ensures { OnOk result (buf.new ≡ buf.old ++ media_header duration) }
{
    let mut fields = Buf::new(alloc);
    fields.bytes(&[0; 16])?;
    fields.u32(90000)?;
    fields.u64(duration)?;
    fields.u16(0x55C4)?;
    fields.u16(0)?;
    let fields = fields.into_vec();
    put_full_box(buf, b"mdhd", 0x0100_0000, &fields)?;
    Ok(())
}

// `hdlr` with an empty name (8.4.3).
fn put_handler(buf: &mut Buf, kind: Kind) -> Result<(), NoMemory>
    ensures { OnOk result (buf.new ≡ buf.old ++ handler kind) }
{
    match kind {
        Kind::Video => {
            put_full_box(buf, b"hdlr", 0, b"\0\0\0\0vide\0\0\0\0\0\0\0\0\0\0\0\0\0")?;
            Ok(())
        }
        Kind::Audio => {
            put_full_box(buf, b"hdlr", 0, b"\0\0\0\0soun\0\0\0\0\0\0\0\0\0\0\0\0\0")?;
            Ok(())
        }
    }
}

// `minf` (8.4.4).
fn put_information(
    alloc: Global,
    buf: &mut Buf,
    kind: Kind,
    places: &[u64],
    track: &TrackRows,
) -> Result<(), NoMemory>
    requires small { IsSmallTrack (track_view track.now) }
    requires entry { HasRoom track.now.entry.items }
    ensures { OnOk result (buf.new ≡ buf.old ++ information kind track.now.entry.items places.now track.now.rows.items) }
{
    let mut inside = Buf::new(alloc);
    put_kind_header(&mut inside, kind)?;
    put_data_information(&mut inside)?;
    put_sample_table(alloc, &mut inside, kind, places, track)?;
    let inside = inside.into_vec();
    put_box(buf, b"minf", &inside)?;
    Ok(())
}

// `vmhd` or `smhd` (12.1.2 and 12.2.2).
fn put_kind_header(buf: &mut Buf, kind: Kind) -> Result<(), NoMemory>
    ensures { OnOk result (buf.new ≡ buf.old ++ kind_header kind) }
{
    match kind {
        Kind::Video => {
            put_full_box(buf, b"vmhd", 1, &[0; 8])?;
            Ok(())
        }
        Kind::Audio => {
            put_full_box(buf, b"smhd", 0, &[0; 4])?;
            Ok(())
        }
    }
}

// `dinf` with one reference to the file itself (8.7.1 and 8.7.2).
fn put_data_information(buf: &mut Buf) -> Result<(), NoMemory>
    ensures { OnOk result (buf.new ≡ buf.old ++ data_information) }
{
    put_box(
        buf,
        b"dinf",
        b"\0\0\0\x1cdref\0\0\0\0\0\0\0\x01\0\0\0\x0curl \0\0\0\x01",
    )?;
    Ok(())
}
