//! The asked tracks of a piece, viewed in the metadata of its file.

ghost use Rattle.std.specs.Prelude.{◌≡◌, IfSome, option_map};
ghost use Rattle.mp4_model.specs.Entries.{entry_type};
ghost use Rattle.media_model.specs.InitSegment.{IsEntry};
ghost use Rattle.mp4_tracks.specs.Views.{good_of};
ghost use Rattle.vod_plan.specs.Tracks.{track_in};

use mp4_tracks::TrackView;
use vod_meta::Meta;
use vod_plan::AskedTrack;

/// The view of an asked track, where there is one without a fault.
pub(crate) fn view_of(meta: &Meta, track: Option<AskedTrack>) -> Option<TrackView<'_>>
    ensures view { option_map good_of result ≡ track_in meta.now.movie track }
    ensures fourcc { IfSome result (λ v. v.fourcc ≡ entry_type v.entry.now) }
    ensures entry { IfSome result (λ v. IsEntry v.entry.now) }
{
    let Some(track) = track else {
        return None;
    };
    match meta.track(track.track) {
        Ok(view) => Some(view),
        Err(_) => None,
    }
}
