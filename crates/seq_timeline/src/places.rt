//! The clips of a sequence in their places.

ghost use Rattle.std.specs.Prelude.{◌≡◌, ◌≤◌, Some, IfOk, IfErr, IfSome, map, length, option_map};
ghost use Rattle.std.specs.List.{AllByRecursion};
ghost use Rattle.vod_types.specs.declared.refusal.Refusal.TheVariants.{NoMemory};
ghost use Rattle.clip_model.specs.Mapping.{IsClip, IsConcatClip, from_zero, concat_length};
ghost use Rattle.clip_model.specs.Timeline.{placed_from, clip_lengths, own_length};
ghost use Rattle.clip_map.specs.Views.{clip_view, concat_view};
ghost use Rattle.seq_timeline.specs.Bounds.{longest};
ghost use Rattle.seq_timeline.specs.Views.{placed_view};

use clip_map::{Clip, ConcatClip};
use std::alloc::Global;
use vod_types::{Refusal, TrackList, Window};

/// A clip in its place. Times are in milliseconds.
#[derive(Clone, Copy)]
pub(crate) struct Placed<'a> {
    pub clip: &'a Clip,
    /// When the clip begins in the sequence.
    pub start: u64,
    /// How long the clip is, where that is declared.
    pub length: Option<u64>,
}

/// What is asked of a sequence.
#[derive(Drop)]
pub(crate) struct Selection<'a> {
    /// Below which name of the store the files stand.
    pub root: &'a str,
    /// The tracks of a clip that names none itself.
    pub tracks: TrackList,
    pub window: Window,
}

/// The clips one after another from time 0, each as long as its element of `durations` says, or else as long as it is by itself.
pub(crate) fn placed_clips<'a>(
    alloc: Global,
    durations: Option<&[u32]>,
    clips: &'a [Clip],
) -> Result<Vec<Placed<'a>>, Refusal>
    requires durations { IfSome durations (λ ds. length ds.now ≡ length clips.now) }
    requires count { length clips.now ≤ 128 }
    requires clips { AllByRecursion IsClip (map clip_view clips.now) }
    ensures placed { IfOk result (λ ps. map placed_view ps.items ≡ placed_from 0 (clip_lengths (option_map (λ ds. ds.now) durations.entry) (map clip_view clips.now)) (map clip_view clips.now)) }
    ensures only { IfErr result (λ refusal. refusal ≡ NoMemory) }
{
    match durations {
        Some(durations) => placed_by(alloc, durations, clips),
        None => placed_alone(alloc, clips),
    }
}

/// The clips one after another, of these durations.
fn placed_by<'a>(
    alloc: Global,
    durations: &[u32],
    clips: &'a [Clip],
) -> Result<Vec<Placed<'a>>, Refusal>
    requires durations { length durations.now ≡ length clips.now }
    requires count { length clips.now ≤ 128 }
    ensures placed { IfOk result (λ ps. map placed_view ps.items ≡ placed_from 0 (map Some durations.now) (map clip_view clips.now)) }
    ensures only { IfErr result (λ refusal. refusal ≡ NoMemory) }
{
    let mut placed = Vec::with_capacity(alloc, clips.len())?;
    let mut start = 0;
    for (i, clip) in clips.iter().enumerate() {
        let duration = u64::from(durations[i]);
        placed.push(Placed {
            clip,
            start,
            length: Some(duration),
        })?;
        start += duration;
    }
    Ok(placed)
}

/// The clips one after another, each as long as it is by itself.
fn placed_alone(alloc: Global, clips: &[Clip]) -> Result<Vec<Placed<'_>>, Refusal>
    requires count { length clips.now ≤ 128 }
    requires clips { AllByRecursion IsClip (map clip_view clips.now) }
    ensures placed { IfOk result (λ ps. map placed_view ps.items ≡ placed_from 0 (map own_length (map clip_view clips.now)) (map clip_view clips.now)) }
    ensures only { IfErr result (λ refusal. refusal ≡ NoMemory) }
{
    let mut placed = Vec::with_capacity(alloc, clips.len())?;
    let mut start = 0;
    for clip in clips {
        let length = own_length(clip);
        placed.push(Placed {
            clip,
            start,
            length,
        })?;
        start += length.unwrap_or(0);
    }
    Ok(placed)
}

/// How long a clip is by itself; a source clip doesn't say.
fn own_length(clip: &Clip) -> Option<u64>
    requires { IsClip (clip_view clip.now) }
    ensures length { result ≡ own_length (clip_view clip.now) }
    ensures bound { IfSome result (λ n. n ≤ longest) }
{
    match clip {
        Clip::Source(_) => None,
        Clip::Concat(clip) => Some(concat_length(clip)),
    }
}

/// How long the files of a concat clip are, later by its offset.
fn concat_length(clip: &ConcatClip) -> u64
    requires { IsConcatClip (concat_view clip.now) }
    ensures length { result ≡ from_zero (concat_length (concat_view clip.now)) }
    ensures bound { result ≤ longest }
{
    let mut length = i64::from(clip.offset);
    for file in &clip.files {
        length += i64::from(file.duration);
    }
    if length < 0 { 0 } else { length as u64 }
}
