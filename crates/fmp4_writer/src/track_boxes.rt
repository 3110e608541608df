// The boxes of a movie without samples.
ghost use Rattle.std.specs.Prelude.{◌≡◌, ◌+◌, ◌*◌, ◌≤◌, ◌++◌, length, OnOk};
ghost use Rattle.vod_bytes.specs.Fields.{be32};
ghost use Rattle.media_model.specs.InitSegment.{unity_matrix, movie_header, volume, track_header, media_header, handler, kind_header, data_information, payload_place, with_data_reference, sample_table, track, track_defaults};
ghost use Rattle.fmp4_writer.specs.Entry.{beside};
ghost use Rattle.media_model.specs.InitSegment.{IsEntry};

use crate::front::number_of;
use vod_bytes::{Buf, NoMemory, be_u32};
use vod_types::Kind;

// The header of a box of so many bytes, and the version and flags of a full box (4.2).
fn put_full(
    buf: &mut Buf,
    size: u32,
    kind: &[u8; 4],
    version_and_flags: u32,
) -> Result<(), NoMemory>
    ensures { OnOk result (buf.new ≡ buf.old ++ (be32 size ++ kind.now ++ be32 version_and_flags)) }
{
    buf.u32(size)?;
    buf.bytes(kind)?;
    buf.u32(version_and_flags)?;
    Ok(())
}

// `mvhd` (8.2.2).
pub fn put_movie_header(buf: &mut Buf) -> Result<(), NoMemory>
    ensures { OnOk result (buf.new ≡ buf.old ++ movie_header) }
{
    put_full(buf, 108, b"mvhd", 0)?;
    // creation and modification time
    buf.bytes(&[0; 8])?;
    // timescale, and no duration
    buf.u32(90000)?;
    buf.u32(0)?;
    // rate and volume 1, and reserved bytes
    buf.u32(0x0001_0000)?;
    buf.u16(0x0100)?;
    buf.bytes(&[0; 10])?;
    put_matrix(buf)?;
    buf.bytes(&[0; 24])?;
    // the next track's number
    buf.u32(3)?;
    Ok(())
}

// The matrix that changes nothing (6.2.2).
fn put_matrix(buf: &mut Buf) -> Result<(), NoMemory>
    ensures { OnOk result (buf.new ≡ buf.old ++ unity_matrix) }
{
    buf.u32(0x0001_0000)?;
    buf.bytes(&[0; 12])?;
    buf.u32(0x0001_0000)?;
    buf.bytes(&[0; 12])?;
    buf.u32(0x4000_0000)?;
    Ok(())
}

// `trak` of a kind, with the size of its picture and its sample entry (8.3.1).
pub fn put_track(buf: &mut Buf, kind: Kind, size: (u16, u16), entry: &[u8]) -> Result<(), NoMemory>
    requires { IsEntry entry.now }
    ensures { OnOk result (buf.new ≡ buf.old ++ track kind size.0 size.1 entry.now) }
{
    let size_of_track = track_size_of(kind, entry);
    buf.u32(size_of_track)?;
    buf.bytes(b"trak")?;
    put_track_header(buf, kind, size)?;
    buf.u32(size_of_track - 100)?;
    buf.bytes(b"mdia")?;
    put_media_header(buf)?;
    put_handler(buf, kind)?;
    buf.u32(size_of_track - 173)?;
    buf.bytes(b"minf")?;
    put_kind_header(buf, kind)?;
    put_data_information(buf)?;
    put_sample_table(buf, entry)?;
    Ok(())
}

// The size of `trak`: beside its entry it has 108 bytes, the header of its kind and 201 bytes.
pub fn track_size_of(kind: Kind, entry: &[u8]) -> u32
    requires { IsEntry entry.now }
    ensures { result ≡ beside kind + length entry.now }
{
    match kind {
        Kind::Video => 329 + entry.len() as u32,
        Kind::Audio => 325 + entry.len() as u32,
    }
}

// `tkhd` of an enabled track (8.3.2).
fn put_track_header(buf: &mut Buf, kind: Kind, size: (u16, u16)) -> Result<(), NoMemory>
    ensures { OnOk result (buf.new ≡ buf.old ++ track_header kind size.0 size.1) }
{
    put_full(buf, 92, b"tkhd", 7)?;
    // creation and modification time
    buf.bytes(&[0; 8])?;
    buf.u32(number_of(kind))?;
    // no duration, reserved bytes, layer and group
    buf.bytes(&[0; 20])?;
    buf.u16(volume_of(kind))?;
    buf.u16(0)?;
    put_matrix(buf)?;
    buf.u32(u32::from(size.0) * 65536)?;
    buf.u32(u32::from(size.1) * 65536)?;
    Ok(())
}

// The volume of a track, with 8 bits behind the point.
fn volume_of(kind: Kind) -> u16
    ensures { result ≡ volume kind }
{
    match kind {
        Kind::Video => 0,
        Kind::Audio => 0x0100,
    }
}

// `mdhd` with the language `und` (8.4.2).
fn put_media_header(buf: &mut Buf) -> Result<(), NoMemory>
    ensures { OnOk result (buf.new ≡ buf.old ++ media_header) }
{
    put_full(buf, 32, b"mdhd", 0)?;
    buf.bytes(&[0; 8])?;
    buf.u32(90000)?;
    buf.u32(0)?;
    buf.u16(0x55C4)?;
    buf.u16(0)?;
    Ok(())
}

// `hdlr` with an empty name (8.4.3).
fn put_handler(buf: &mut Buf, kind: Kind) -> Result<(), NoMemory>
    ensures { OnOk result (buf.new ≡ buf.old ++ handler kind) }
{
    put_full(buf, 33, b"hdlr", 0)?;
    buf.u32(0)?;
    match kind {
        Kind::Video => {
            buf.bytes(b"vide")?;
            buf.bytes(&[0; 13])?;
            Ok(())
        }
        Kind::Audio => {
            buf.bytes(b"soun")?;
            buf.bytes(&[0; 13])?;
            Ok(())
        }
    }
}

// `vmhd` or `smhd` (12.1.2 and 12.2.2).
fn put_kind_header(buf: &mut Buf, kind: Kind) -> Result<(), NoMemory>
    ensures { OnOk result (buf.new ≡ buf.old ++ kind_header kind) }
{
    match kind {
        Kind::Video => {
            put_full(buf, 20, b"vmhd", 1)?;
            buf.bytes(&[0; 8])?;
            Ok(())
        }
        Kind::Audio => {
            put_full(buf, 16, b"smhd", 0)?;
            buf.u32(0)?;
            Ok(())
        }
    }
}

// `dinf` with one reference to the file itself (8.7.1 and 8.7.2).
fn put_data_information(buf: &mut Buf) -> Result<(), NoMemory>
    ensures { OnOk result (buf.new ≡ buf.old ++ data_information) }
{
    buf.u32(36)?;
    buf.bytes(b"dinf")?;
    put_full(buf, 28, b"dref", 0)?;
    buf.u32(1)?;
    put_full(buf, 12, b"url ", 1)?;
    Ok(())
}

// `stbl` with the sample entry and no samples (8.5, 8.6.1.2, 8.7.4, 8.7.3 and 8.7.5).
fn put_sample_table(buf: &mut Buf, entry: &[u8]) -> Result<(), NoMemory>
    requires { IsEntry entry.now }
    ensures { OnOk result (buf.new ≡ buf.old ++ sample_table entry.now) }
{
    let size = entry.len() as u32;
    buf.u32(92 + size)?;
    buf.bytes(b"stbl")?;
    put_full(buf, 16 + size, b"stsd", 0)?;
    buf.u32(1)?;
    put_entry(buf, entry)?;
    put_full(buf, 16, b"stts", 0)?;
    buf.u32(0)?;
    put_full(buf, 16, b"stsc", 0)?;
    buf.u32(0)?;
    put_full(buf, 20, b"stsz", 0)?;
    buf.bytes(&[0; 8])?;
    put_full(buf, 16, b"stco", 0)?;
    buf.u32(0)?;
    Ok(())
}

// The sample entry with data reference 1 (8.5.2).
fn put_entry(buf: &mut Buf, entry: &[u8]) -> Result<(), NoMemory>
    requires { IsEntry entry.now }
    ensures { OnOk result (buf.new ≡ buf.old ++ with_data_reference entry.now) }
{
    let payload = payload_at(entry);
    buf.bytes(&entry[..payload + 6])?;
    buf.u16(1)?;
    buf.bytes(&entry[payload + 8..])?;
    Ok(())
}

// Where the payload of a box begins (4.2).
fn payload_at(entry: &[u8]) -> usize
    requires { IsEntry entry.now }
    ensures place { result ≡ payload_place entry.now }
    ensures within { result + 8 ≤ length entry.now }
{
    if be_u32(entry, 0) == 1 { 16 } else { 8 }
}

// `trex` (8.8.3).
pub fn put_track_defaults(buf: &mut Buf, kind: Kind) -> Result<(), NoMemory>
    ensures { OnOk result (buf.new ≡ buf.old ++ track_defaults kind) }
{
    put_full(buf, 32, b"trex", 0)?;
    buf.u32(number_of(kind))?;
    buf.u32(1)?;
    buf.bytes(&[0; 12])?;
    Ok(())
}
