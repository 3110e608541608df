//! The checkpoints of the tracks of a movie.

ghost use Rattle.std.specs.Prelude.{◌≡◌, ◌<◌, ◌^◌, IfOk};
ghost use Rattle.mp4_model.specs.Fitting.{IsUsable};
ghost use Rattle.mp4_tables.specs.Views.{tables_of};
ghost use Rattle.mp4_tracks.specs.Made.{IsMadeOf};
ghost use Rattle.mp4_tracks.specs.Views.{good_of};
ghost use Rattle.time_runs.specs.Checkpoints.{checkpoints_of as time_checkpoints};
ghost use Rattle.chunk_runs.specs.Checkpoints.{checkpoints_of as place_checkpoints};
ghost use Rattle.vod_meta.specs.Held.{tracks_in};
ghost use Rattle.vod_meta.specs.Kept.{indexes_of};
ghost use Rattle.vod_meta.specs.Read.{is_there, named_index};

use chunk_runs::PlaceIndex;
use mp4_tracks::{TrackFault, TrackView, Tracks};
use std::alloc::Global;
use time_runs::TimeIndex;
use vod_bytes::NoMemory;
use vod_types::{Kind, TrackName};

// As many tracks of a kind are numbered.
const MOST: u8 = 99;

/// The checkpoints of a track.
#[derive(Debug, Drop)]
pub(crate) struct TrackIndex {
    pub(crate) times: TimeIndex,
    pub(crate) places: PlaceIndex,
}

/// The checkpoints of each track of a kind that is numbered, and none of one with a fault.
pub(crate) fn indexes(
    alloc: Global,
    moov: &[u8],
    tracks: &Tracks,
    kind: Kind,
) -> Result<Vec<Option<TrackIndex>>, NoMemory>
    requires { IsMadeOf moov.now tracks.now }
    ensures { IfOk result (λ list. list.items ≡ indexes_of kind (tracks_in moov.now)) }
{
    let mut list = Vec::new(alloc);
    for before in 0..MOST {
        let track = TrackName {
            kind,
            number: before + 1,
        };
        match index_of(alloc, moov, tracks, track)? {
            Some(index) => list.push(index)?,
            None => return Ok(list),
        }
    }
    Ok(list)
}

// The checkpoints of the track of a name: none where there is no such track, and within that none where it has a fault.
fn index_of(
    alloc: Global,
    moov: &[u8],
    tracks: &Tracks,
    track: TrackName,
) -> Result<Option<Option<TrackIndex>>, NoMemory>
    requires { IsMadeOf moov.now tracks.now }
    ensures { IfOk result (λ found. found ≡ named_index (tracks_in moov.now) track) }
{
    match tracks.view(moov, track) {
        Ok(view) => {
            let _fits = timescale_of(&view);
            Ok(Some(Some(checkpoints(alloc, &view)?)))
        }
        Err(fault) => {
            if is_there(fault) {
                return Ok(Some(None));
            }
            Ok(None)
        }
    }
}

/// Whether it is a fault of a track that the movie has.
pub(crate) fn is_there(fault: TrackFault) -> bool
    ensures { result ≡ is_there fault }
{
    match fault {
        TrackFault::Absent => false,
        _ => true,
    }
}

/// A track's timescale, which fits 32 bits.
pub(crate) fn timescale_of(view: &TrackView<'_>) -> u32
    ensures value { result ≡ view.now.timescale }
    ensures fits { result < 2 ^ 32 }
{
    view.timescale
}

fn checkpoints(alloc: Global, view: &TrackView<'_>) -> Result<TrackIndex, NoMemory>
    requires { IsUsable (good_of view.now) }
    ensures times { IfOk result (λ index. index.times ≡ time_checkpoints (tables_of view.now.tables)) }
    ensures places { IfOk result (λ index. index.places ≡ place_checkpoints (tables_of view.now.tables)) }
{
    let times = TimeIndex::build(alloc, &view.tables)?;
    let places = PlaceIndex::build(alloc, &view.tables)?;
    Ok(TrackIndex { times, places })
}
