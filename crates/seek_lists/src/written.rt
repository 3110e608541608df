//! Initialization segments of views of tracks.

ghost use Rattle.std.specs.Prelude.{◌≡◌, IfErr, IfOk, IfSome, option_map};
ghost use Rattle.std.specs.Option.{option_copied, option_map_or};
ghost use Rattle.vod_types.specs.declared.refusal.Refusal.TheVariants.{NoMemory};
ghost use Rattle.media_model.specs.InitSegment.{IsEntry, init_segment};

use fmp4_writer::init;
use mp4_tracks::TrackView;
use std::alloc::Global;
use vod_types::Refusal;

/// The initialization segment of a video and an audio track, each where there is one. The only refusal is `NoMemory`.
pub(crate) fn init_of_views(
    alloc: Global,
    video: Option<TrackView<'_>>,
    audio: Option<TrackView<'_>>,
) -> Result<Vec<u8>, Refusal>
    requires video { IfSome video (λ v. IsEntry v.entry.now) }
    requires audio { IfSome audio (λ v. IsEntry v.entry.now) }
    ensures bytes { IfOk result (λ bytes. bytes.items ≡
        init_segment (option_map (λ v. v.entry.now) video.entry) (option_map_or (λ v. v.width) video.entry 0) (option_map_or (λ v. v.height) video.entry 0) (option_map (λ v. v.entry.now) audio.entry)) }
    ensures only { IfErr result (λ refusal. refusal ≡ NoMemory) }
{
    let size = picture_size(video);
    match init(alloc, entry_of(video), size, entry_of(audio)) {
        Ok(bytes) => Ok(bytes),
        Err(_) => Err(Refusal::NoMemory),
    }
}

// The width and the height of a video track, 0 where there is none.
fn picture_size(video: Option<TrackView<'_>>) -> (u16, u16)
    ensures width { result.0 ≡ option_map_or (λ v. v.width) video.entry 0 }
    ensures height { result.1 ≡ option_map_or (λ v. v.height) video.entry 0 }
{
    match video {
        Some(video) => (video.width, video.height),
        None => (0, 0),
    }
}

// The sample entry of a track, where there is one.
fn entry_of<'a>(track: Option<TrackView<'a>>) -> Option<&'a [u8]>
    ensures { option_copied result ≡ option_map (λ v. v.entry.now) track.entry }
{
    match track {
        Some(track) => Some(track.entry),
        None => None,
    }
}
