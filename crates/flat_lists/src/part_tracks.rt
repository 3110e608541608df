//! The tracks that the first piece of a part exposes, each with its samples in the pieces of the part.

ghost use Rattle.std.specs.Prelude.{◌≡◌, ◌≤◌, Some, None, All, IfOk, IfErr, IfSome, OnOk, option_map, length};
ghost use Rattle.std.specs.Int.{IsInRange};
ghost use Rattle.vod_types.specs.declared.refusal.Refusal.TheVariants.{NoMemory};
ghost use Rattle.vod_types.specs.declared.tracks.Kind.TheVariants.{Video, Audio};
ghost use Rattle.vod_types.specs.Results.{Answers};
ghost use Rattle.mp4_model.specs.Entries.{entry_type};
ghost use Rattle.mp4_model.specs.Samples.{sample_count};
ghost use Rattle.mp4_model.specs.Video.{video_codec_name};
ghost use Rattle.mp4_tables.specs.Views.{tables_of};
ghost use Rattle.mp4_tracks.specs.Views.{good_of};
ghost use Rattle.clip_model.specs.IsTimeline.{IsPiece};
ghost use Rattle.origin_model.specs.Lists.{aac_of, first_track, rate_of};
ghost use Rattle.origin_model.specs.Sources.{source_piece};
ghost use Rattle.flat_samples.specs.Checks.{checked_view, AreSound};
ghost use Rattle.flat_samples.specs.Rows.{rows_with};
ghost use Rattle.answer_laws.specs.Refusals.{IsPathRefusal};
ghost use Rattle.flat_lists.specs.PartTracks.{alone, asked_in, facts_due, part_begun, part_seen, part_with, seen_of, seen_with, seen_due, no_rows, ArePlaced, IsPlacedTrack};

use crate::bandwidths::bandwidth;
use crate::codecs::{codec_name, object_type, sampling_rate};
use clip_map::Mapping;
use clip_model::Piece;
use flat_samples::{CheckedTracks, Movie, PartRows, exposed};
use mp4_tracks::{Edit, TrackView};
use std::alloc::Global;
use vod_types::{Asked, CodecName, Kind, Name, Refusal, TrackName};

/// What a representation says of its track.
#[derive(Clone, Copy)]
pub struct TrackFacts {
    pub kind: Kind,
    pub bandwidth: u128,
    pub size: (u16, u16),
    pub video: Option<CodecName>,
    pub aac: u8,
    pub rate: u32,
}

/// A track with its samples in pieces of a part, as if no track of the other kind was asked.
#[derive(Drop)]
pub(crate) struct PartTrack {
    pub(crate) facts: TrackFacts,
    pub(crate) rows: PartRows,
}

/// The tracks v1 and a1 of a part, as far as its first piece exposes them.
#[derive(Drop)]
pub(crate) struct PartTracks {
    pub(crate) video: Option<PartTrack>,
    pub(crate) audio: Option<PartTrack>,
}

impl PartTracks {
    /// Those of a part without a piece.
    pub(crate) fn none() -> PartTracks
        ensures seen { part_seen result ≡ record { video = None; audio = None } }
        ensures placed { ArePlaced result }
    {
        PartTracks {
            video: None,
            audio: None,
        }
    }

    /// Those of a first piece, without its samples.
    pub(crate) fn of(
        alloc: Global,
        mapping: &Mapping,
        sequence: u32,
        tracks: &CheckedTracks<'_>,
    ) -> PartTracks
        requires sequence { IsInRange 1 (length mapping.now.sequences) sequence }
        requires fourcc { IfSome tracks.now.video (λ v. v.fourcc ≡ entry_type v.entry.now) }
        ensures seen { (p : Piece) → part_seen result ≡ part_begun mapping.now sequence (checked_view p tracks.now) }
        ensures placed { ArePlaced result }
    {
        PartTracks {
            video: video_of(alloc, mapping, sequence, tracks.video),
            audio: audio_of(alloc, mapping, sequence, tracks.audio),
        }
    }

    /// Puts the samples of a piece, by its place in the part, behind those of the others. After a refusal, `NoMemory`, some
    /// of them may stand there.
    pub(crate) fn add(
        &mut self,
        alloc: Global,
        place: u32,
        piece: &Piece,
        tracks: &CheckedTracks<'_>,
    ) -> Result<(), Refusal>
        requires piece { IsPiece piece.now }
        requires sound { AreSound (checked_view piece.now tracks.now) }
        requires video { IfSome tracks.now.video (λ v. v.samples ≡ sample_count (tables_of v.tables)) }
        requires audio { IfSome tracks.now.audio (λ v. v.samples ≡ sample_count (tables_of v.tables)) }
        requires placed { ArePlaced self.old }
        ensures added { OnOk result (part_seen self.new ≡ part_with place (checked_view piece.now tracks.now) (part_seen self.old)) }
        ensures placed { OnOk result (ArePlaced self.new) }
        ensures only { IfErr result (λ refusal. refusal ≡ NoMemory) }
    {
        add_rows(&mut self.video, alloc, place, piece, &video_alone(tracks))?;
        add_rows(&mut self.audio, alloc, place, piece, &audio_alone(tracks))
    }
}

// A video track with no samples yet.
fn video_of(
    alloc: Global,
    mapping: &Mapping,
    sequence: u32,
    track: Option<TrackView<'_>>,
) -> Option<PartTrack>
    requires sequence { IsInRange 1 (length mapping.now.sequences) sequence }
    requires fourcc { IfSome track (λ v. v.fourcc ≡ entry_type v.entry.now) }
    ensures seen { option_map seen_of result ≡ option_map (λ t. (facts_due mapping.now sequence Video (good_of t), no_rows)) track.entry }
    ensures placed { IsPlacedTrack result }
{
    match track {
        Some(track) => Some(PartTrack {
            facts: video_facts(mapping, sequence, &track),
            rows: PartRows::new(alloc),
        }),
        None => None,
    }
}

fn video_facts(mapping: &Mapping, sequence: u32, track: &TrackView<'_>) -> TrackFacts
    requires sequence { IsInRange 1 (length mapping.now.sequences) sequence }
    requires fourcc { track.now.fourcc ≡ entry_type track.now.entry.now }
    ensures { result ≡ facts_due mapping.now sequence Video (good_of track.now) }
{
    facts_of_video(bandwidth(mapping, sequence, Kind::Video, track), track)
}

/// What a representation says of a video track with so many bits per second.
pub fn facts_of_video(bandwidth: u128, track: &TrackView<'_>) -> TrackFacts
    requires { track.now.fourcc ≡ entry_type track.now.entry.now }
    ensures { result ≡ record {
      kind = Video;
      bandwidth = bandwidth;
      size = (track.now.width, track.now.height);
      video = Some (video_codec_name (good_of track.now));
      aac = 0;
      rate = 0;
    } }
{
    TrackFacts {
        kind: Kind::Video,
        bandwidth,
        size: (track.width, track.height),
        video: Some(codec_name(track)),
        aac: 0,
        rate: 0,
    }
}

// An audio track with no samples yet.
fn audio_of(
    alloc: Global,
    mapping: &Mapping,
    sequence: u32,
    track: Option<TrackView<'_>>,
) -> Option<PartTrack>
    requires sequence { IsInRange 1 (length mapping.now.sequences) sequence }
    ensures seen { option_map seen_of result ≡ option_map (λ t. (facts_due mapping.now sequence Audio (good_of t), no_rows)) track.entry }
    ensures placed { IsPlacedTrack result }
{
    match track {
        Some(track) => Some(PartTrack {
            facts: audio_facts(mapping, sequence, &track),
            rows: PartRows::new(alloc),
        }),
        None => None,
    }
}

fn audio_facts(mapping: &Mapping, sequence: u32, track: &TrackView<'_>) -> TrackFacts
    requires sequence { IsInRange 1 (length mapping.now.sequences) sequence }
    ensures { result ≡ facts_due mapping.now sequence Audio (good_of track.now) }
{
    facts_of_audio(bandwidth(mapping, sequence, Kind::Audio, track), track)
}

/// What a representation says of an audio track with so many bits per second.
pub fn facts_of_audio(bandwidth: u128, track: &TrackView<'_>) -> TrackFacts
    ensures { result ≡ record {
      kind = Audio;
      bandwidth = bandwidth;
      size = (0, 0);
      video = None;
      aac = aac_of (good_of track.now);
      rate = rate_of (good_of track.now);
    } }
{
    TrackFacts {
        kind: Kind::Audio,
        bandwidth,
        size: (0, 0),
        video: None,
        aac: object_type(track),
        rate: sampling_rate(track),
    }
}

// The tracks of a piece without the audio track.
fn video_alone<'a>(tracks: &CheckedTracks<'a>) -> CheckedTracks<'a>
    ensures alone { (p : Piece) → checked_view p result ≡ alone Video (checked_view p tracks.now) }
    ensures same { result.video ≡ tracks.now.video }
    ensures without { result.audio ≡ None }
{
    CheckedTracks {
        file_size: tracks.file_size,
        video: tracks.video,
        audio: None,
        video_edit: tracks.video_edit,
        audio_edit: Edit::none(),
    }
}

// The tracks of a piece without the video track.
fn audio_alone<'a>(tracks: &CheckedTracks<'a>) -> CheckedTracks<'a>
    ensures alone { (p : Piece) → checked_view p result ≡ alone Audio (checked_view p tracks.now) }
    ensures same { result.audio ≡ tracks.now.audio }
    ensures without { result.video ≡ None }
{
    CheckedTracks {
        file_size: tracks.file_size,
        video: None,
        audio: tracks.audio,
        video_edit: Edit::none(),
        audio_edit: tracks.audio_edit,
    }
}

// Puts the samples of a piece behind those of a track, if there is one.
fn add_rows(
    track: &mut Option<PartTrack>,
    alloc: Global,
    place: u32,
    piece: &Piece,
    tracks: &CheckedTracks<'_>,
) -> Result<(), Refusal>
    requires piece { IsPiece piece.now }
    requires sound { AreSound (checked_view piece.now tracks.now) }
    requires video { IfSome tracks.now.video (λ v. v.samples ≡ sample_count (tables_of v.tables)) }
    requires audio { IfSome tracks.now.audio (λ v. v.samples ≡ sample_count (tables_of v.tables)) }
    requires placed { IsPlacedTrack track.old }
    ensures added { OnOk result (option_map seen_of track.new ≡ option_map (λ s. (s.0, rows_with s.1 place (source_piece (checked_view piece.now tracks.now)))) (option_map seen_of track.old)) }
    ensures placed { OnOk result (IsPlacedTrack track.new) }
    ensures only { IfErr result (λ refusal. refusal ≡ NoMemory) }
{
    match track {
        Some(track) => track.rows.add(alloc, place, piece, tracks),
        None => Ok(()),
    }
}

/// Which of v1 and a1 a piece exposes in the movie of its file. Refused with `NoTrack` of v1 where it exposes neither.
pub(crate) fn asked_of(alloc: Global, piece: &Piece, movie: &Movie) -> Result<Asked, Refusal>
    ensures answers { Answers (λ a. a) result (asked_in piece.now movie.now.movie) }
    ensures refused { IfErr result IsPathRefusal }
{
    let asked = Asked {
        video: first_number(piece, movie, Kind::Video),
        audio: first_number(piece, movie, Kind::Audio),
    };
    if asked.video.is_some() || asked.audio.is_some() {
        return Ok(asked);
    }
    match Name::new(alloc, piece.name.as_str()) {
        Ok(name) => Err(Refusal::NoTrack {
            name,
            track: TrackName {
                kind: Kind::Video,
                number: 1,
            },
        }),
        Err(refusal) => Err(refusal),
    }
}

// 1 where a piece exposes a track of a kind.
fn first_number(piece: &Piece, movie: &Movie, kind: Kind) -> Option<u8>
    ensures { result ≡ first_track piece.now movie.now.movie kind }
{
    match exposed(
        movie,
        piece.tracks.as_slice(),
        TrackName { kind, number: 1 },
    ) {
        Some(_) => Some(1),
        None => None,
    }
}
