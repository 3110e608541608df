//! How many bits per second a list says of a track.

ghost use Rattle.std.specs.Prelude.{◌≡◌, ◌*◌, ◌<◌, ◌≤◌, ◌^◌, None, option_and_then, sum, length};
ghost use Rattle.std.specs.Int.{IsInRange};
ghost use Rattle.mp4_model.specs.Samples.{sample_deltas, sample_sizes};
ghost use Rattle.mp4_tables.specs.Views.{tables_of};
ghost use Rattle.clip_model.specs.Mapping.{bitrate_of, sequence_at};
ghost use Rattle.list_model.specs.Playlist.{bandwidth_of};

use clip_map::Mapping;
use mp4_tables::Tables;
use mp4_tracks::TrackView;
use std::marker::Brand;
use std::sync::ledger::{Blank, Ledger};
use vod_types::{Kind, Steps};

/// The bits per second of a track of a kind in a sequence: those that the mapping names, and else the average over the whole
/// track, rounded up, at least 1.
pub fn bandwidth(mapping: &Mapping, sequence: u32, kind: Kind, track: &TrackView<'_>) -> u128
    requires { IsInRange 1 (length mapping.now.sequences) sequence }
    ensures value { result ≡ bandwidth_of (option_and_then (bitrate_of kind) (sequence_at mapping.now sequence))
        (sum (sample_sizes (tables_of track.now.tables))) track.now.timescale (sum (sample_deltas (tables_of track.now.tables))) }
    ensures bound { result ≤ 2 ^ 102 }
{
    match mapping.bitrate(sequence, kind) {
        Some(bitrate) => u128::from(bitrate),
        None => counted_average::<Brand>(track, Blank::new(1)),
    }
}

// The average, with a counter of its own for the looks at the tables.
fn counted_average<L: Ledger>(track: &TrackView<'_>, blank: Blank) -> u128
    requires name { blank.name ≡ L.name }
    requires parts { blank.parts ≡ L.parts }
    requires some { 0 < L.parts }
    ensures value { result ≡ bandwidth_of None (sum (sample_sizes (tables_of track.now.tables))) track.now.timescale (sum (sample_deltas (tables_of track.now.tables))) }
    ensures bound { result ≤ 2 ^ 102 }
{
    let mut steps = Steps::<L>::start(blank);
    let bytes = bytes_of(&track.tables, &mut steps);
    let time = time_of(&track.tables, &mut steps);
    average(bytes, track.timescale, time)
}

// The bytes of all samples.
fn bytes_of<L: Ledger>(tables: &Tables<'_>, steps: &mut Steps<L>) -> u128
    ensures value { result ≡ sum (sample_sizes (tables_of tables.now)) }
    ensures bound { result ≤ 2 ^ 64 }
{
    let Some(table) = tables.stsz else {
        return 0;
    };
    let mut bytes = 0u128;
    for i in 0..table.len() {
        bytes += u128::from(table.entry(i, steps));
    }
    bytes
}

// The sum of all deltas, in the track's timescale.
fn time_of<L: Ledger>(tables: &Tables<'_>, steps: &mut Steps<L>) -> u128
    ensures value { result ≡ sum (sample_deltas (tables_of tables.now)) }
    ensures bound { result ≤ 2 ^ 96 }
{
    let Some(table) = tables.stts else {
        return 0;
    };
    let mut time = 0u128;
    for i in 0..table.len() {
        let (count, delta) = table.entry(i, steps);
        time += run_time(count, delta);
    }
    time
}

// How long so many samples of a delta are.
fn run_time(count: u32, delta: u32) -> u128
    ensures value { result ≡ count * delta }
    ensures bound { result ≤ 2 ^ 64 }
{
    u128::from(count) * u128::from(delta)
}

/// The bits per second of so many bytes in a time of a timescale, rounded up, at least 1.
pub fn average(bytes: u128, timescale: u32, time: u128) -> u128
    requires bytes { bytes < 2 ^ 66 }
    requires time { time ≤ 2 ^ 96 }
    ensures value { result ≡ bandwidth_of None bytes timescale time }
    ensures bound { result ≤ 2 ^ 102 }
{
    if time == 0 {
        return 1;
    }
    let bits = bits_by(bytes, timescale);
    ((bits + (time - 1)) / time).max(1)
}

// The bits of so many bytes, times a timescale.
fn bits_by(bytes: u128, timescale: u32) -> u128
    requires { bytes < 2 ^ 66 }
    ensures value { result ≡ 8 * bytes * timescale }
    ensures bound { result ≤ 2 ^ 101 }
{
    8 * bytes * u128::from(timescale)
}
