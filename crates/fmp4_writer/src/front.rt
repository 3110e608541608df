// What stands before the samples of a media segment: `styp`, `moof` and the header of `mdat`.
ghost use Rattle.std.specs.Prelude.{◌≡◌, ◌+◌, ◌*◌, ◌≤◌, ◌<◌, ◌^◌, ◌++◌, ◌∷◌, length, codes, pos, ◌≤ℤ◌};
ghost use Rattle.std.specs.Int.{w64, int_gap, cast_unsigned};
ghost use Rattle.std.specs.Option.{option_to_list, option_copied};
ghost use Rattle.arrayvec.specs.ArrayVec.{array_vec_len};
ghost use Rattle.vod_bytes.specs.Fields.{be32};
ghost use Rattle.media_model.specs.Boxes.{full_box};
ghost use Rattle.media_model.specs.Fragment.{segment_type, media_data_header, run_entry as run_entry_of, decode_time, composition_offset, row_duration, written_duration, sample_flags, sizes, track_fragment, run_entries, fragment_front, movie_fragment_size, track_fragment_size};
ghost use Rattle.media_model.specs.InitSegment.{track_number};
ghost use Rattle.media_model.specs.Laws.{IsFragmentTrack, AreFragmentTracks};
ghost use Rattle.vod_types.specs.SegmentRows.{rows_of, rows_left};
ghost use Rattle.vod_source.specs.Causes.{HasCause};
ghost use Rattle.vod_source.specs.Told.{Grows};
ghost use Rattle.fmp4_writer.specs.Front.{track_fragment_head, StepsFrom, OffsetFits, IsRunFrom};

use crate::fields::{Fields, put_bytes, put_u32, put_u64};
use vod_source::{Sink, SinkFailed};
use vod_types::{Kind, Row, Rows};

// All that stands before the samples of the segment with this number.
pub fn put_front<R: Rows, K: Sink>(
    number: u32,
    rows: &mut R,
    sink: &mut K,
) -> Result<(), SinkFailed>
    requires { AreFragmentTracks (R.rows rows.old).video (R.rows rows.old).audio }
    ensures rows { R.rows rows.new ≡ R.rows rows.old }
    ensures kept { K.kept sink.new ≡ K.kept sink.old }
    ensures written { Grows (K.written sink.old) (K.written sink.new) result
        (fragment_front number (R.rows rows.old).video (R.rows rows.old).audio) }
    ensures cause { HasCause (K.faults sink.old) (K.faults sink.new) result }
{
    let video_bytes = sizes(rows, Kind::Video);
    let audio_bytes = sizes(rows, Kind::Audio);
    let size = movie_size(rows) as u32;
    sink.put(segment_head(number, size).as_slice())?;
    put_track(rows, Kind::Video, size + 8, sink)?;
    put_track(rows, Kind::Audio, size + 8 + video_bytes, sink)?;
    sink.put(media_data_head(video_bytes + audio_bytes).as_slice())
}

// The size of `moof`.
pub fn movie_size<R: Rows>(rows: &R) -> u64
    ensures size { result ≡ movie_fragment_size (length (R.rows rows.now).video) (length (R.rows rows.now).audio) }
    ensures small { result < 2 ^ 40 }
{
    24 + track_size(rows.count(Kind::Video)) + track_size(rows.count(Kind::Audio))
}

// The size of a `traf` of so many rows.
fn track_size(rows: u32) -> u64
    ensures size { result ≡ track_fragment_size rows }
    ensures small { result < 2 ^ 37 }
{
    if rows == 0 {
        0
    } else {
        64 + 16 * u64::from(rows)
    }
}

// The bytes of all samples of a kind.
fn sizes<R: Rows>(rows: &mut R, kind: Kind) -> u32
    requires { sizes (rows_of kind (R.rows rows.old)) ≤ 2130706432 }
    ensures rows { R.rows rows.new ≡ R.rows rows.old }
    ensures sizes { result ≡ sizes (rows_of kind (R.rows rows.old)) }
{
    rows.restart();
    let mut total = 0;
    while let Some(row) = rows.next(kind) {
        total += row.sample.size;
    }
    total
}

// `traf` of a kind, where it has rows (8.8.6).
fn put_track<R: Rows, K: Sink>(
    rows: &mut R,
    kind: Kind,
    data_offset: u32,
    sink: &mut K,
) -> Result<(), SinkFailed>
    requires { IsFragmentTrack (rows_of kind (R.rows rows.old)) }
    ensures rows { R.rows rows.new ≡ R.rows rows.old }
    ensures kept { K.kept sink.new ≡ K.kept sink.old }
    ensures written { Grows (K.written sink.old) (K.written sink.new) result
        (track_fragment (track_number kind) data_offset (rows_of kind (R.rows rows.old))) }
    ensures cause { HasCause (K.faults sink.old) (K.faults sink.new) result }
{
    rows.restart();
    let Some(first) = rows.next(kind) else {
        return Ok(());
    };
    let head = track_head(number_of(kind), &first, rows.count(kind), data_offset);
    sink.put(head.as_slice())?;
    put_entries(rows, kind, first, sink)
}

// The number of the kind's track.
pub fn number_of(kind: Kind) -> u32
    ensures { result ≡ track_number kind }
{
    match kind {
        Kind::Video => 1,
        Kind::Audio => 2,
    }
}

// `trun`'s entries of a row and of the rows that are left behind it.
fn put_entries<R: Rows, K: Sink>(
    rows: &mut R,
    kind: Kind,
    first: Row,
    sink: &mut K,
) -> Result<(), SinkFailed>
    requires { IsRunFrom first (rows_left kind (R.rows rows.old) (R.places rows.old)) }
    ensures rows { R.rows rows.new ≡ R.rows rows.old }
    ensures kept { K.kept sink.new ≡ K.kept sink.old }
    ensures written { Grows (K.written sink.old) (K.written sink.new) result
        (run_entries (first ∷ rows_left kind (R.rows rows.old) (R.places rows.old))) }
    ensures cause { HasCause (K.faults sink.old) (K.faults sink.new) result }
{
    let mut row = first;
    while let Some(following) = rows.next(kind) {
        sink.put(run_entry(&row, Some(&following)).as_slice())?;
        row = following;
    }
    sink.put(run_entry(&row, None).as_slice())
}

// `styp`, the header of a `moof` of so many bytes, and `mfhd` (8.16.2, 8.8.4 and 8.8.5).
fn segment_head(number: u32, size: u32) -> Fields
    ensures { result.items ≡ segment_type ++ be32 size ++ codes "moof" ++ full_box (codes "mfhd") 0 0 (be32 number) }
{
    let mut fields = Fields::new();
    put_u32(&mut fields, 24);
    put_bytes(&mut fields, b"stypmsdh");
    put_u32(&mut fields, 0);
    put_bytes(&mut fields, b"msdhiso6");
    put_u32(&mut fields, size);
    put_bytes(&mut fields, b"moof");
    put_u32(&mut fields, 16);
    put_bytes(&mut fields, b"mfhd");
    put_u32(&mut fields, 0);
    put_u32(&mut fields, number);
    fields
}

// The header of a `traf` of so many rows, `tfhd`, `tfdt`, and `trun` up to its entries (8.8.6, 8.8.7, 8.8.12 and 8.8.8).
fn track_head(track: u32, first: &Row, rows: u32, data_offset: u32) -> Fields
    requires { rows ≤ 200000 }
    ensures { result.items ≡ track_fragment_head track first.now rows data_offset }
{
    let mut fields = Fields::new();
    put_u32(&mut fields, 64 + 16 * rows);
    put_bytes(&mut fields, b"traf");
    put_u32(&mut fields, 16);
    put_bytes(&mut fields, b"tfhd");
    put_u32(&mut fields, 0x0002_0000);
    put_u32(&mut fields, track);
    put_decode_time(&mut fields, first);
    put_u32(&mut fields, 20 + 16 * rows);
    put_bytes(&mut fields, b"trun");
    put_u32(&mut fields, 0x0100_0F01);
    put_u32(&mut fields, rows);
    put_u32(&mut fields, data_offset);
    fields
}

// `tfdt` of a track's first row (8.8.12).
fn put_decode_time(fields: &mut Fields, first: &Row)
    requires { array_vec_len fields.old + 20 ≤ 64 }
    ensures items { fields.new.items ≡ fields.old.items ++ decode_time first.now.sample.dts }
    ensures len { array_vec_len fields.new ≡ array_vec_len fields.old + 20 }
{
    put_u32(fields, 20);
    put_bytes(fields, b"tfdt");
    put_u32(fields, 0x0100_0000);
    put_u64(fields, time_bits(first));
}

// The decode time, as the bits of a number with a sign.
fn time_bits(row: &Row) -> u64
    ensures { result ≡ cast_unsigned w64 row.now.sample.dts }
{
    row.sample.dts.cast_unsigned()
}

// `trun`'s entry of a row, before the row that follows in the segment (8.8.8).
fn run_entry(row: &Row, following: Option<&Row>) -> Fields
    requires offset { OffsetFits row.now }
    requires times { StepsFrom row.now (option_to_list (option_copied following)) }
    ensures { result.items ≡ run_entry_of row.now (option_to_list (option_copied following.entry)) }
{
    let mut fields = Fields::new();
    put_u32(&mut fields, duration(row, following));
    put_u32(&mut fields, row.sample.size);
    put_u32(&mut fields, flags(row.sample.sync));
    put_u32(&mut fields, offset(row));
    fields
}

// How long the row lasts before the row that follows, at most what 32 bits hold.
fn duration(row: &Row, following: Option<&Row>) -> u32
    requires { StepsFrom row.now (option_to_list (option_copied following)) }
    ensures { result ≡ row_duration row.now (option_to_list (option_copied following.entry)) }
{
    let last = row.sample.dur;
    match following {
        Some(next) => step(row.sample.dts, next.sample.dts),
        None => last,
    }
}

// How far the second time is behind the first, at most what 32 bits hold.
fn step(first: i64, second: i64) -> u32
    requires from_zero { pos 0 ≤ℤ first }
    requires in_order { first ≤ℤ second }
    ensures { result ≡ written_duration (int_gap first second) }
{
    (second - first).min(4_294_967_295) as u32
}

// Presentation minus decode time, as the bits of a number with a sign.
fn offset(row: &Row) -> u32
    requires { OffsetFits row.now }
    ensures { result ≡ composition_offset row.now }
{
    ((row.sample.pts - row.sample.dts) as i32).cast_unsigned()
}

// Whether a sample depends on others (8.8.3.1).
fn flags(sync: bool) -> u32
    ensures { result ≡ sample_flags sync }
{
    if sync { 0x0200_0000 } else { 0x0101_0000 }
}

// The header of `mdat` over so many bytes (8.1.1).
fn media_data_head(bytes: u32) -> Fields
    requires { bytes ≤ 2130706432 }
    ensures { result.items ≡ media_data_header bytes }
{
    let mut fields = Fields::new();
    put_u32(&mut fields, 8 + bytes);
    put_bytes(&mut fields, b"mdat");
    fields
}
