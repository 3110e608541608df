//! The samples of a track, written out.

ghost use Rattle.std.specs.Prelude.{◌≡◌, ◌+◌, ◌*◌, ◌<◌, ◌≤◌, ◌++◌, ◌+ℤ◌, ◌-ℤ◌, pos, unsigned_abs, IfOk, IfErr, OnOk, Some, All, [], ◌∷◌, filter, map};
ghost use Rattle.vod_types.specs.declared.refusal.Refusal.TheVariants.{NoMemory};
ghost use Rattle.mp4_model.specs.Clock.{to_units, to_units_signed};
ghost use Rattle.mp4_model.specs.Samples.{flat_rows, sample_count};
ghost use Rattle.mp4_tables.specs.Views.{tables_of};
ghost use Rattle.mp4_tracks.specs.Views.{good_of};
ghost use Rattle.mp4_tracks.specs.Edits.{edit_of_view};
ghost use Rattle.segment_model.specs.Rows.{is_kept, timed_row, timed_rows};
ghost use Rattle.origin_model.specs.Sources.{source_track};
ghost use Rattle.flat_samples.specs.Checks.{IsSound};
ghost use Rattle.flat_samples.specs.Rows.{timed_view, IsFileRow};
ghost use Rattle.flat_samples.specs.Cuts.{cut_of, cut_track};
ghost use Rattle.flat_samples.specs.Written.{IsWrittenOut, flat_view, most_units, most_shift};

use crate::cut::Cut;
use crate::tables::{FileSample, WrittenTables};
use mp4_tracks::{Edit, TrackView};
use std::alloc::Global;
use std::marker::Brand;
use std::sync::ledger::{Blank, Ledger};
use vod_types::{Kind, Refusal, Steps};

/// A sample on the clock of 1/90000 s. `file` is the place of its piece among those that are needed, and `number` its place
/// in its track, both from 0; `offset` is its place in the file. `place` is the time by which it is selected and cut, and
/// at which a fragment decodes it, `presentation` the one at which it is shown, `duration` the time to the next one, and
/// `lead_in` how much earlier a transport stream decodes it.
#[derive(Clone, Copy, Debug)]
pub struct TimedSample {
    pub file: u32,
    pub number: u32,
    pub offset: u128,
    pub size: u32,
    pub place: i64,
    pub presentation: i64,
    pub duration: u64,
    pub lead_in: u32,
    pub sync: bool,
}

/// The samples of a track of a kind that its edit keeps, in the time of its file. The only refusal is `NoMemory`.
pub(crate) fn written_out(
    alloc: Global,
    kind: Kind,
    edit: Edit,
    track: &TrackView<'_>,
) -> Result<Vec<TimedSample>, Refusal>
    requires sound { IsSound (good_of track.now) }
    requires samples { track.now.samples ≡ sample_count (tables_of track.now.tables) }
    ensures rows { IfOk result (λ rows. map timed_view rows.items ≡ timed_rows (source_track kind (edit_of_view edit) (Some (good_of track.now)))) }
    ensures bounds { IfOk result (λ rows. All IsFileRow (map timed_view rows.items)) }
    ensures only { IfErr result (λ refusal. refusal ≡ NoMemory) }
{
    counted_out::<Brand>(alloc, Cut::new(kind, edit), track, Blank::new(1))
}

/// Those that a cut keeps, with a counter of its own for the looks at the tables.
fn counted_out<L: Ledger>(
    alloc: Global,
    cut: Cut,
    track: &TrackView<'_>,
    blank: Blank,
) -> Result<Vec<TimedSample>, Refusal>
    requires name { blank.name ≡ L.name }
    requires parts { blank.parts ≡ L.parts }
    requires some { 0 < L.parts }
    requires sound { IsSound (good_of track.now) }
    requires samples { track.now.samples ≡ sample_count (tables_of track.now.tables) }
    ensures rows { IfOk result (λ rows. map timed_view rows.items ≡ timed_rows (cut_track cut track.now.timescale (flat_rows (tables_of track.now.tables)))) }
    ensures bounds { IfOk result (λ rows. All IsFileRow (map timed_view rows.items)) }
    ensures only { IfErr result (λ refusal. refusal ≡ NoMemory) }
{
    let mut steps = Steps::<L>::start(blank);
    let tables = WrittenTables::new(alloc, track, &mut steps)?;
    timed_rows(alloc, cut, track, &tables)
}

/// The samples of the tables of a track that a cut keeps, with their times on the clock of 1/90000 s.
fn timed_rows(
    alloc: Global,
    cut: Cut,
    track: &TrackView<'_>,
    tables: &WrittenTables,
) -> Result<Vec<TimedSample>, Refusal>
    requires sound { IsSound (good_of track.now) }
    requires samples { track.now.samples ≡ sample_count (tables_of track.now.tables) }
    requires tables { IsWrittenOut (tables_of track.now.tables) tables.now }
    ensures rows { IfOk result (λ rows. map timed_view rows.items ≡ timed_rows (cut_track cut track.now.timescale (flat_rows (tables_of track.now.tables)))) }
    ensures bounds { IfOk result (λ rows. All IsFileRow (map timed_view rows.items)) }
    ensures only { IfErr result (λ refusal. refusal ≡ NoMemory) }
{
    let mut rows = Vec::new(alloc);
    let mut decode_time = 0u128;
    for number in 0..track.samples {
        let sample = tables.sample(number, decode_time);
        push_kept(&mut rows, cut, track.timescale, number, &sample)?;
        decode_time += u128::from(sample.delta);
    }
    Ok(rows)
}

/// Puts a sample with its number in the track at the end of others, if the cut keeps it.
fn push_kept(
    rows: &mut Vec<TimedSample>,
    cut: Cut,
    timescale: u32,
    number: u32,
    sample: &FileSample,
) -> Result<(), Refusal>
    requires timescale { 1 ≤ timescale }
    requires short { to_units timescale (sample.now.decode_time + sample.now.delta) ≤ most_units }
    requires near { unsigned_abs sample.now.composition_offset ≤ 3600 * timescale }
    requires bounds { All IsFileRow (map timed_view rows.old.items) }
    ensures rows { OnOk result (map timed_view rows.new.items ≡ map timed_view rows.old.items ++ map (timed_row (cut_of cut timescale)) (filter (is_kept (cut_of cut timescale)) ((number, flat_view sample.now) ∷ []))) }
    ensures bounds { OnOk result (All IsFileRow (map timed_view rows.new.items)) }
    ensures only { IfErr result (λ refusal. refusal ≡ NoMemory) }
{
    let time = to_units(timescale, sample.decode_time);
    if time < cut.from {
        return Ok(());
    }
    rows.push(timed(cut, timescale, time, number, sample))?;
    Ok(())
}

/// A sample that the cut keeps, of a track of a timescale, with its number in the track. It is decoded at `time`.
fn timed(cut: Cut, timescale: u32, time: u64, number: u32, sample: &FileSample) -> TimedSample
    requires timescale { 1 ≤ timescale }
    requires time { time ≡ to_units timescale sample.now.decode_time }
    requires kept { cut.from ≤ time }
    requires short { to_units timescale (sample.now.decode_time + sample.now.delta) ≤ most_units }
    requires near { unsigned_abs sample.now.composition_offset ≤ 3600 * timescale }
    ensures row { timed_view result ≡ timed_row (cut_of cut timescale) (number, flat_view sample.now) }
    ensures bounds { IsFileRow (timed_view result) }
{
    let end = to_units(timescale, sample.decode_time + u128::from(sample.delta));
    let shown = presentation(timescale, sample.decode_time, sample.composition_offset);
    TimedSample {
        file: 0,
        number,
        offset: sample.offset,
        size: sample.size,
        place: (time + cut.delay - cut.from) as i64,
        presentation: shown + cut.delay as i64 - cut.skip as i64,
        duration: end - time,
        lead_in: cut.lead_in,
        sync: sample.sync,
    }
}

/// A time of a timescale on the clock of 1/90000 s, rounded down.
fn to_units(timescale: u32, time: u128) -> u64
    requires timescale { 1 ≤ timescale }
    requires short { to_units timescale time ≤ most_units }
    ensures value { result ≡ to_units timescale time }
    ensures bound { result ≤ most_units }
{
    (time * 90_000 / u128::from(timescale)) as u64
}

/// The time of a timescale at which a sample is shown, on the clock of 1/90000 s and rounded down.
fn presentation(timescale: u32, decode_time: u128, offset: i64) -> i64
    requires timescale { 1 ≤ timescale }
    requires short { to_units timescale decode_time ≤ most_units }
    requires near { unsigned_abs offset ≤ 3600 * timescale }
    ensures value { result ≡ to_units_signed timescale (pos decode_time +ℤ offset) }
    ensures near { unsigned_abs (result -ℤ pos (to_units timescale decode_time)) ≤ most_shift }
{
    let time = decode_time as i128 + i128::from(offset);
    (time * 90_000).div_euclid(i128::from(timescale)) as i64
}
