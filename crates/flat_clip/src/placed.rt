//! Where the samples of a clip stand.

ghost use Rattle.std.specs.Prelude.{◌≡◌, ◌+◌, ◌++◌, ◌∷◌, [], ◌≤◌, ◌^◌, length, map, OnOk, IfOk};
ghost use Rattle.std.specs.List.{prefix_len};
ghost use Rattle.media_model.specs.Clip.{placed_from};
ghost use Rattle.media_model.specs.Fragment.{sizes};
ghost use Rattle.media_model.specs.WritingOrder.{is_before, of_track, writing_order};
ghost use Rattle.flat_clip.specs.Tracks.{placed_view, places_in};

use crate::sample::ClipSample;
use std::alloc::Global;
use vod_bytes::NoMemory;
use vod_types::Kind;

/// A sample of a clip with its place: how many bytes stand before it.
#[derive(Clone, Copy, Debug)]
pub(crate) struct PlacedSample {
    pub(crate) place: u64,
    pub(crate) kind: Kind,
    pub(crate) row: ClipSample,
}

// Samples one after another, and the place behind them.
#[derive(Drop)]
struct Standing {
    place: u64,
    samples: Vec<PlacedSample>,
}

impl Standing {
    // Puts a sample behind the others.
    fn add(&mut self, kind: Kind, row: &ClipSample) -> Result<(), NoMemory>
        requires { self.old.place ≤ 2 ^ 62 }
        ensures samples { OnOk result (map placed_view self.new.samples.items ≡ map placed_view self.old.samples.items ++ placed_from self.old.place (of_track kind row.now ∷ [])) }
        ensures place { OnOk result (self.new.place ≡ self.old.place + row.now.sample.size) }
    {
        self.samples.push(PlacedSample {
            place: self.place,
            kind,
            row: *row,
        })?;
        self.place += u64::from(row.size());
        Ok(())
    }

    // Puts samples of a kind behind the others.
    fn add_all(&mut self, kind: Kind, rows: &[ClipSample]) -> Result<(), NoMemory>
        requires { self.old.place + sizes rows.now ≤ 2 ^ 62 }
        ensures samples { OnOk result (map placed_view self.new.samples.items ≡ map placed_view self.old.samples.items ++ placed_from self.old.place (map (of_track kind) rows.now)) }
        ensures place { OnOk result (self.new.place ≡ self.old.place + sizes rows.now) }
    {
        for row in rows {
            self.add(kind, row)?;
        }
        Ok(())
    }
}

/// The samples of both tracks as they stand in the clip, from a place on: before each video sample the audio samples that are
/// decoded before it, up to the first that isn't.
pub(crate) fn placed_samples(
    alloc: Global,
    start: u64,
    video: &[ClipSample],
    audio: &[ClipSample],
) -> Result<Vec<PlacedSample>, NoMemory>
    requires { start + sizes video.now + sizes audio.now ≤ 2 ^ 62 }
    ensures { IfOk result (λ samples. map placed_view samples.items ≡ placed_from start (writing_order video.now audio.now)) }
{
    let mut standing = Standing {
        place: start,
        samples: Vec::new(alloc),
    };
    let mut left = audio;
    for row in video {
        let (before, later) = left.split_at(audio_before(row, left));
        standing.add_all(Kind::Audio, before)?;
        standing.add(Kind::Video, row)?;
        left = later;
    }
    standing.add_all(Kind::Audio, left)?;
    Ok(standing.samples)
}

// How many of the audio samples that are left are decoded before a video sample, up to the first that isn't.
fn audio_before(video: &ClipSample, left: &[ClipSample]) -> usize
    ensures count { result ≡ prefix_len (is_before video.now) left.now }
    ensures within { result ≤ length left.now }
{
    for (place, row) in left.iter().enumerate() {
        if row.dts() >= video.dts() {
            return place;
        }
    }
    left.len()
}

/// The places of the samples of a kind.
pub(crate) fn places_of(
    alloc: Global,
    kind: Kind,
    samples: &[PlacedSample],
) -> Result<Vec<u64>, NoMemory>
    ensures { IfOk result (λ places. places.items ≡ places_in kind (map placed_view samples.now)) }
{
    let mut places = Vec::new(alloc);
    for sample in samples {
        if sample.kind == kind {
            places.push(sample.place)?;
        }
    }
    Ok(places)
}
