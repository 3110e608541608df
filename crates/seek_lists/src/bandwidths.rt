//! How many bits per second a list says of a track, by seeks behind its last sample.

ghost use Rattle.std.specs.Prelude.{◌≡◌, ◌+◌, ◌≤◌, ◌^◌, None, Ok, length, sum};
ghost use Rattle.std.specs.Int.{IsInRange};
ghost use Rattle.std.specs.Option.{option_map_or};
ghost use Rattle.mp4_model.specs.Fitting.{IsUsable};
ghost use Rattle.mp4_model.specs.GoodTracks.{track_view};
ghost use Rattle.mp4_model.specs.Samples.{sample_count, sample_deltas, sample_sizes};
ghost use Rattle.mp4_tables.specs.Views.{tables_of};
ghost use Rattle.mp4_tracks.specs.Views.{good_of};
ghost use Rattle.list_model.specs.Playlist.{bandwidth_of};
ghost use Rattle.flat_lists.specs.Shown.{bandwidth_in};
ghost use Rattle.vod_plan.specs.Tracks.{track_in};

use clip_map::Mapping;
use flat_lists::average;
use mp4_tracks::TrackView;
use std::sync::ledger::Ledger;
use vod_meta::Meta;
use vod_plan::AskedTrack;
use vod_types::{Kind, Steps, TrackName};

/// The bits per second of an asked track of a kind in a sequence, 0 where there is none: those that the mapping names, and else
/// the average over the whole track, rounded up, at least 1.
pub(crate) fn bandwidth_if<L: Ledger>(
    mapping: &Mapping,
    sequence: u32,
    kind: Kind,
    meta: &Meta,
    track: Option<AskedTrack>,
    steps: &mut Steps<L>,
) -> u128
    requires { IsInRange 1 (length mapping.now.sequences) sequence }
    ensures value { result ≡ option_map_or (bandwidth_in mapping.now sequence kind) (track_in meta.now.movie track) 0 }
    ensures bound { result ≤ 2 ^ 102 }
    ensures looks { steps.new ≤ steps.old + 384 }
{
    let Some(asked) = track else {
        return 0;
    };
    match meta.track(asked.track) {
        Ok(view) => bandwidth_by(mapping, sequence, kind, meta, asked.track, &view, steps),
        Err(_) => 0,
    }
}

// That of a track of this view.
fn bandwidth_by<L: Ledger>(
    mapping: &Mapping,
    sequence: u32,
    kind: Kind,
    meta: &Meta,
    track: TrackName,
    view: &TrackView<'_>,
    steps: &mut Steps<L>,
) -> u128
    requires sequence { IsInRange 1 (length mapping.now.sequences) sequence }
    requires track { track_view meta.now.movie.tracks track ≡ Ok (good_of view.now) }
    requires samples { view.now.samples ≡ sample_count (tables_of view.now.tables) }
    requires usable { IsUsable (good_of view.now) }
    ensures value { result ≡ bandwidth_in mapping.now sequence kind (good_of view.now) }
    ensures bound { result ≤ 2 ^ 102 }
    ensures looks { steps.new ≤ steps.old + 384 }
{
    match mapping.bitrate(sequence, kind) {
        Some(bitrate) => u128::from(bitrate),
        None => average_of(meta, track, view, steps),
    }
}

// The average of a track of this view, by what stands behind its last sample.
fn average_of<L: Ledger>(
    meta: &Meta,
    track: TrackName,
    view: &TrackView<'_>,
    steps: &mut Steps<L>,
) -> u128
    requires track { track_view meta.now.movie.tracks track ≡ Ok (good_of view.now) }
    requires samples { view.now.samples ≡ sample_count (tables_of view.now.tables) }
    requires usable { IsUsable (good_of view.now) }
    ensures value { result ≡ bandwidth_of None (sum (sample_sizes (tables_of view.now.tables))) view.now.timescale (sum (sample_deltas (tables_of view.now.tables))) }
    ensures bound { result ≤ 2 ^ 102 }
    ensures looks { steps.new ≤ steps.old + 384 }
{
    let Some(places) = meta.places(track) else {
        return 0;
    };
    let Some(times) = meta.times(track) else {
        return 0;
    };
    let samples = u64::from(view.samples);
    let bytes = places.bytes_before(samples, steps);
    let (time, _) = times.times(samples, steps);
    average(bytes, view.timescale, u128::from(time))
}
