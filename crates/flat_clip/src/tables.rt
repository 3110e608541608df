//! The sample tables of a track (ISO/IEC 14496-12, 8.5 to 8.7).

ghost use Rattle.std.specs.Prelude.{◌≡◌, ◌+◌, ◌++◌, ◌≤◌, length, flat_map, All, OnOk, IfOk};
ghost use Rattle.vod_bytes.specs.Fields.{be32, be64};
ghost use Rattle.media_model.specs.Clip.{chunk_offsets, chunk_runs, composition_offsets, decode_times, duration_entry, durations, offset_entry, sample_sizes, sample_table, sync_numbers as sync_numbers_of, sync_samples};
ghost use Rattle.media_model.specs.InitSegment.{payload_place, with_data_reference};
ghost use Rattle.vod_types.specs.declared.tracks.Kind.TheVariants.{Video};
ghost use Rattle.flat_clip.specs.Tracks.{description, HasRoom, IsClipRow};

use crate::boxes::{put_box, put_full_box, put_low};
use crate::sample::ClipSample;
use crate::times::{duration, offset};
use crate::tracks::TrackRows;
use std::alloc::Global;
use vod_bytes::{Buf, NoMemory, be_u32};
use vod_types::Kind;

/// `stbl` of a track of a kind, whose rows stand at these places (8.5.1).
pub(crate) fn put_sample_table(
    alloc: Global,
    buf: &mut Buf,
    kind: Kind,
    places: &[u64],
    track: &TrackRows,
) -> Result<(), NoMemory>
    requires entry { HasRoom track.now.entry.items }
    requires few { length track.now.rows.items ≤ 2000000 }
    requires rows { All IsClipRow track.now.rows.items }
    ensures { OnOk result (buf.new ≡ buf.old ++ sample_table kind track.now.entry.items places.now track.now.rows.items) }
{
    let mut tables = Buf::new(alloc);
    put_description(alloc, &mut tables, &track.entry)?;
    put_decode_times(alloc, &mut tables, &track.rows)?;
    put_composition_offsets(alloc, &mut tables, &track.rows)?;
    put_sync_samples(alloc, &mut tables, kind, &track.rows)?;
    put_chunk_runs(alloc, &mut tables)?;
    put_sample_sizes(alloc, &mut tables, &track.rows)?;
    put_chunk_offsets(alloc, &mut tables, places)?;
    let tables = tables.into_vec();
    put_box(buf, b"stbl", &tables)?;
    Ok(())
}

// `stsd` with the one entry (8.5.2).
fn put_description(alloc: Global, buf: &mut Buf, entry: &[u8]) -> Result<(), NoMemory>
    requires { HasRoom entry.now }
    ensures { OnOk result (buf.new ≡ buf.old ++ description entry.now) }
{
    let mut fields = Buf::new(alloc);
    fields.u32(1)?;
    put_entry(&mut fields, entry)?;
    let fields = fields.into_vec();
    put_full_box(buf, b"stsd", 0, &fields)?;
    Ok(())
}

// The sample entry with data reference 1 (8.5.2).
fn put_entry(buf: &mut Buf, entry: &[u8]) -> Result<(), NoMemory>
    requires { HasRoom entry.now }
    ensures { OnOk result (buf.new ≡ buf.old ++ with_data_reference entry.now) }
{
    let payload = payload_at(entry);
    buf.bytes(&entry[..payload + 6])?;
    buf.u16(1)?;
    buf.bytes(&entry[payload + 8..])?;
    Ok(())
}

// Where the payload of a box begins (4.2).
fn payload_at(entry: &[u8]) -> usize
    requires { HasRoom entry.now }
    ensures place { result ≡ payload_place entry.now }
    ensures within { result + 8 ≤ length entry.now }
{
    if be_u32(entry, 0) == 1 { 16 } else { 8 }
}

// `stts` with a run for each row (8.6.1.2).
fn put_decode_times(alloc: Global, buf: &mut Buf, rows: &[ClipSample]) -> Result<(), NoMemory>
    requires { All IsClipRow rows.now }
    ensures { OnOk result (buf.new ≡ buf.old ++ decode_times rows.now) }
{
    let mut fields = Buf::new(alloc);
    put_low(&mut fields, rows.len() as u128)?;
    put_durations(&mut fields, rows)?;
    let fields = fields.into_vec();
    put_full_box(buf, b"stts", 0, &fields)?;
    Ok(())
}

// The durations of rows, each as a run of one.
fn put_durations(buf: &mut Buf, rows: &[ClipSample]) -> Result<(), NoMemory>
    requires { All IsClipRow rows.now }
    ensures { OnOk result (buf.new ≡ buf.old ++ flat_map duration_entry (durations rows.now)) }
{
    for (place, row) in rows.iter().enumerate() {
        put_run(buf, duration(row, rows.get(place + 1)))?;
    }
    Ok(())
}

// A run of one element with this value.
fn put_run(buf: &mut Buf, value: u32) -> Result<(), NoMemory>
    ensures { OnOk result (buf.new ≡ buf.old ++ (be32 1 ++ be32 value)) }
{
    buf.u32(1)?;
    buf.u32(value)?;
    Ok(())
}

// `ctts` with a run for each row (8.6.1.3).
fn put_composition_offsets(
    alloc: Global,
    buf: &mut Buf,
    rows: &[ClipSample],
) -> Result<(), NoMemory>
    requires { All IsClipRow rows.now }
    ensures { OnOk result (buf.new ≡ buf.old ++ composition_offsets rows.now) }
{
    let mut fields = Buf::new(alloc);
    put_low(&mut fields, rows.len() as u128)?;
    put_offsets(&mut fields, rows)?;
    let fields = fields.into_vec();
    put_full_box(buf, b"ctts", 0x0100_0000, &fields)?;
    Ok(())
}

// The composition offsets of rows, each as a run of one.
fn put_offsets(buf: &mut Buf, rows: &[ClipSample]) -> Result<(), NoMemory>
    requires { All IsClipRow rows.now }
    ensures { OnOk result (buf.new ≡ buf.old ++ flat_map offset_entry rows.now) }
{
    for row in rows {
        put_run(buf, offset(row))?;
    }
    Ok(())
}

// `stss` of video (8.6.2).
fn put_sync_samples(
    alloc: Global,
    buf: &mut Buf,
    kind: Kind,
    rows: &[ClipSample],
) -> Result<(), NoMemory>
    requires { length rows.now ≤ 2000000 }
    ensures { OnOk result (buf.new ≡ buf.old ++ sync_samples kind rows.now) }
{
    match kind {
        Kind::Video => put_sync_numbers(alloc, buf, rows),
        Kind::Audio => Ok(()),
    }
}

// `stss` with the numbers of the sync rows, from 1.
fn put_sync_numbers(alloc: Global, buf: &mut Buf, rows: &[ClipSample]) -> Result<(), NoMemory>
    requires { length rows.now ≤ 2000000 }
    ensures { OnOk result (buf.new ≡ buf.old ++ sync_samples Video rows.now) }
{
    let numbers = sync_numbers(alloc, rows)?;
    let mut fields = Buf::new(alloc);
    put_low(&mut fields, numbers.len() as u128)?;
    put_numbers(&mut fields, &numbers)?;
    let fields = fields.into_vec();
    put_full_box(buf, b"stss", 0, &fields)?;
    Ok(())
}

// The numbers of the sync rows, from 1.
fn sync_numbers(alloc: Global, rows: &[ClipSample]) -> Result<Vec<u32>, NoMemory>
    requires { length rows.now ≤ 2000000 }
    ensures { IfOk result (λ numbers. numbers.items ≡ sync_numbers_of rows.now) }
{
    let mut numbers = Vec::new(alloc);
    for (place, row) in rows.iter().enumerate() {
        if row.is_sync() {
            numbers.push(place as u32 + 1)?;
        }
    }
    Ok(numbers)
}

// Numbers of 32 bits, one after another.
fn put_numbers(buf: &mut Buf, numbers: &[u32]) -> Result<(), NoMemory>
    ensures { OnOk result (buf.new ≡ buf.old ++ flat_map be32 numbers.now) }
{
    for number in numbers {
        buf.u32(*number)?;
    }
    Ok(())
}

// `stsc` with one sample in each chunk (8.7.4).
fn put_chunk_runs(alloc: Global, buf: &mut Buf) -> Result<(), NoMemory>
    ensures { OnOk result (buf.new ≡ buf.old ++ chunk_runs) }
{
    let mut fields = Buf::new(alloc);
    fields.u32(1)?;
    fields.u32(1)?;
    fields.u32(1)?;
    fields.u32(1)?;
    let fields = fields.into_vec();
    put_full_box(buf, b"stsc", 0, &fields)?;
    Ok(())
}

// `stsz` with the size of each row (8.7.3.2).
fn put_sample_sizes(alloc: Global, buf: &mut Buf, rows: &[ClipSample]) -> Result<(), NoMemory>
    ensures { OnOk result (buf.new ≡ buf.old ++ sample_sizes rows.now) }
{
    let mut fields = Buf::new(alloc);
    fields.u32(0)?;
    put_low(&mut fields, rows.len() as u128)?;
    put_sizes(&mut fields, rows)?;
    let fields = fields.into_vec();
    put_full_box(buf, b"stsz", 0, &fields)?;
    Ok(())
}

// The sizes of rows, one after another.
fn put_sizes(buf: &mut Buf, rows: &[ClipSample]) -> Result<(), NoMemory>
    ensures { OnOk result (buf.new ≡ buf.old ++ flat_map (λ row. be32 row.sample.size) rows.now) }
{
    for row in rows {
        buf.u32(row.size())?;
    }
    Ok(())
}

// `co64` with the place of each row (8.7.5).
fn put_chunk_offsets(alloc: Global, buf: &mut Buf, places: &[u64]) -> Result<(), NoMemory>
    ensures { OnOk result (buf.new ≡ buf.old ++ chunk_offsets places.now) }
{
    let mut fields = Buf::new(alloc);
    put_low(&mut fields, places.len() as u128)?;
    put_places(&mut fields, places)?;
    let fields = fields.into_vec();
    put_full_box(buf, b"co64", 0, &fields)?;
    Ok(())
}

// Numbers of 64 bits, one after another.
fn put_places(buf: &mut Buf, places: &[u64]) -> Result<(), NoMemory>
    ensures { OnOk result (buf.new ≡ buf.old ++ flat_map be64 places.now) }
{
    for place in places {
        buf.u64(*place)?;
    }
    Ok(())
}
