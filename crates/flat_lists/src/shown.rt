//! The sequences of a request as a master playlist shows them, each by its first piece.

ghost use Rattle.std.specs.Prelude.{◌≡◌, ◌≤◌, ◌^◌, [], ◌∷◌, All, IfOk, IfSome, IsErrOf, length, not, option_map, IfErr};
ghost use Rattle.std.specs.Int.{IsInRange};
ghost use Rattle.std.specs.Option.{option_map_or};
ghost use Rattle.vod_types.specs.declared.refusal.Refusal.TheVariants.{StoreFailed};
ghost use Rattle.vod_types.specs.Results.{Answers};
ghost use Rattle.mp4_model.specs.Entries.{entry_type};
ghost use Rattle.mp4_model.specs.Video.{video_codec_name};
ghost use Rattle.mp4_tracks.specs.Views.{good_of};
ghost use Rattle.vod_source.specs.Calls.{Came};
ghost use Rattle.vod_source.specs.Causes.{Rose};
ghost use Rattle.origin_model.specs.Lists.{aac_of};
ghost use Rattle.origin_model.specs.Writable.{IsSoundPiece};
ghost use Rattle.list_model.specs.Names.{IsAsked};
ghost use Rattle.flat_samples.specs.Checks.{checked_view};
ghost use Rattle.flat_samples.specs.Movies.{AreTrue};
ghost use Rattle.answer_laws.specs.Refusals.{IsPathRefusal};
ghost use Rattle.flat_lists.specs.Asked.{asking_view, setup_of};
ghost use Rattle.flat_lists.specs.Shown.{IsShown, all_shown, bandwidth_in, first_names, shown_by_piece, shown_due, shown_in_movie, shown_of, shown_turns};
ghost use Rattle.flat_lists.specs.Steps.{IsStep};

use crate::bandwidths::bandwidth;
use crate::codecs::{codec_name, object_type};
use crate::first_asked::first_asked;
use crate::subject::Asking;
use clip_map::Mapping;
use clip_model::Piece;
use flat_samples::{CheckedTracks, Movie, Movies, check};
use mp4_tracks::TrackView;
use std::alloc::Global;
use vod_source::Store;
use vod_types::{Asked, CodecName, Kind, Refusal, Settings};

/// A sequence as a master playlist shows it: the tracks that are asked of it, the bits per second of its video and of its
/// audio, which are 0 where there is none, and what is said of these tracks.
#[derive(Clone, Copy, Debug)]
pub struct Shown {
    pub sequence: u32,
    pub asked: Asked,
    pub video_bandwidth: u128,
    pub audio_bandwidth: u128,
    pub size: Option<(u16, u16)>,
    pub video: Option<CodecName>,
    pub aac: Option<u8>,
}

/// The sequences of what a request is about, in order. Of the files the movies of their first pieces are read.
///
/// Refused, sequence by sequence, where the sequence has no piece, and with the first fault of its first piece.
pub fn shown_sequences<S: Store>(
    alloc: Global,
    files: &mut S,
    settings: &Settings,
    root: &str,
    asking: &Asking,
) -> Result<Vec<Shown>, Refusal>
    ensures told { IfSome (S.content files.old) (λ known.
        Came (λ shown. shown.items) result (all_shown (setup_of settings.now root.now known) (asking_view asking.now))
        (shown_turns (setup_of settings.now root.now known) (asking_view asking.now)) (S.log files.old) (S.log files.new)) }
    ensures shown { IfOk result (λ shown. All (IsShown (length asking.now.mapping.sequences)) shown.items) }
    ensures content { S.content files.new ≡ S.content files.old }
    ensures later { S.faults files.old ≤ S.faults files.new }
    ensures store_failed { IsErrOf result StoreFailed → Rose (S.faults files.old) (S.faults files.new) }
    ensures refused { IfErr result IsPathRefusal }
{
    let mut movies = Movies::new(alloc);
    let mut all = Vec::new(alloc);
    let end = asking.mapping.sequences() + 1;
    for sequence in 1..end {
        match look(alloc, files, &mut movies, settings, root, asking, sequence) {
            Ok(shown) => {
                if all.push(shown).is_err() {
                    return Err(Refusal::NoMemory);
                }
            }
            Err(refusal) => return Err(refusal),
        }
    }
    Ok(all)
}

// Looks at a sequence, by a turn on the file of its first piece.
fn look<S: Store>(
    alloc: Global,
    files: &mut S,
    movies: &mut Movies,
    settings: &Settings,
    root: &str,
    asking: &Asking,
    sequence: u32,
) -> Result<Shown, Refusal>
    requires number { IsInRange 1 (length asking.now.mapping.sequences) sequence }
    requires small { sequence ≤ 9999 }
    ensures told { IfSome (S.content files.old) (λ known. AreTrue known movies.old →
        IsStep known (shown_due (setup_of settings.now root.now known) (asking_view asking.now) sequence)
        (first_names (setup_of settings.now root.now known) (asking_view asking.now) sequence) result movies.old movies.new (S.log files.old) (S.log files.new)) }
    ensures shown { IfOk result (IsShown (length asking.now.mapping.sequences)) }
    ensures content { S.content files.new ≡ S.content files.old }
    ensures later { S.faults files.old ≤ S.faults files.new }
    ensures store_failed { IsErrOf result StoreFailed → Rose (S.faults files.old) (S.faults files.new) }
    ensures refused { IfErr result IsPathRefusal }
{
    let timeline = match asking.timeline(alloc, root, sequence) {
        Ok(timeline) => timeline,
        Err(refusal) => return Err(refusal),
    };
    match timeline.pieces.first() {
        Some(piece) => look_at(
            alloc, files, movies, settings, root, asking, sequence, piece,
        ),
        None => Err(Refusal::NothingSelected { sequence }),
    }
}

// The same by the first piece.
fn look_at<S: Store>(
    alloc: Global,
    files: &mut S,
    movies: &mut Movies,
    settings: &Settings,
    root: &str,
    asking: &Asking,
    sequence: u32,
    piece: &Piece,
) -> Result<Shown, Refusal>
    requires number { IsInRange 1 (length asking.now.mapping.sequences) sequence }
    requires small { sequence ≤ 9999 }
    ensures told { IfSome (S.content files.old) (λ known. AreTrue known movies.old →
        IsStep known (shown_by_piece (setup_of settings.now root.now known) (asking_view asking.now) sequence piece.now)
        (piece.now.name ∷ []) result movies.old movies.new (S.log files.old) (S.log files.new)) }
    ensures shown { IfOk result (IsShown (length asking.now.mapping.sequences)) }
    ensures content { S.content files.new ≡ S.content files.old }
    ensures later { S.faults files.old ≤ S.faults files.new }
    ensures store_failed { IsErrOf result StoreFailed → Rose (S.faults files.old) (S.faults files.new) }
    ensures refused { IfErr result IsPathRefusal }
{
    match movies.turn(alloc, files, piece.name.as_str()) {
        Ok(()) => {}
        Err(refusal) => return Err(refusal),
    }
    let edits = !settings.ignore_edits;
    shown_in(
        alloc,
        &asking.mapping,
        sequence,
        piece,
        movies.front(),
        edits,
    )
}

// The same by the first piece in the movie of its file, where `edits` are honoured or aren't.
fn shown_in(
    alloc: Global,
    mapping: &Mapping,
    sequence: u32,
    piece: &Piece,
    movie: &Movie,
    edits: bool,
) -> Result<Shown, Refusal>
    requires number { IsInRange 1 (length mapping.now.sequences) sequence }
    requires small { sequence ≤ 9999 }
    ensures answers { Answers (λ shown. shown) result (shown_in_movie edits mapping.now sequence piece.now movie.now.movie) }
    ensures shown { IfOk result (IsShown (length mapping.now.sequences)) }
    ensures store { IsErrOf result StoreFailed → ⊥ }
    ensures refused { IfErr result IsPathRefusal }
{
    let asked = match first_asked(alloc, piece, movie) {
        Ok(asked) => asked,
        Err(refusal) => return Err(refusal),
    };
    match check(alloc, piece, movie, edits, asked) {
        Ok(tracks) => Ok(shown_of(mapping, sequence, asked, &tracks)),
        Err(refusal) => Err(refusal),
    }
}

// What is said of a sequence by the asked tracks of its first piece.
fn shown_of(mapping: &Mapping, sequence: u32, asked: Asked, tracks: &CheckedTracks<'_>) -> Shown
    requires sequence { IsInRange 1 (length mapping.now.sequences) sequence }
    requires fourcc { IfSome tracks.now.video (λ v. v.fourcc ≡ entry_type v.entry.now) }
    ensures value { result ≡ shown_of mapping.now sequence asked (option_map good_of tracks.now.video) (option_map good_of tracks.now.audio) }
    ensures video { result.video_bandwidth ≤ 2 ^ 102 }
    ensures audio { result.audio_bandwidth ≤ 2 ^ 102 }
{
    let video_bandwidth = bandwidth_if(mapping, sequence, Kind::Video, tracks.video);
    let audio_bandwidth = bandwidth_if(mapping, sequence, Kind::Audio, tracks.audio);
    shown_as(
        sequence,
        asked,
        video_bandwidth,
        audio_bandwidth,
        tracks.video,
        tracks.audio,
    )
}

/// What is said of a sequence by the asked tracks of its first piece, which have so many bits per second.
pub fn shown_as(
    sequence: u32,
    asked: Asked,
    video_bandwidth: u128,
    audio_bandwidth: u128,
    video: Option<TrackView<'_>>,
    audio: Option<TrackView<'_>>,
) -> Shown
    requires { IfSome video (λ v. v.fourcc ≡ entry_type v.entry.now) }
    ensures { result ≡ record {
      sequence = sequence;
      asked = asked;
      video_bandwidth = video_bandwidth;
      audio_bandwidth = audio_bandwidth;
      size = option_map (λ t. (t.width, t.height)) (option_map good_of video.entry);
      video = option_map video_codec_name (option_map good_of video.entry);
      aac = option_map aac_of (option_map good_of audio.entry);
    } }
{
    Shown {
        sequence,
        asked,
        video_bandwidth,
        audio_bandwidth,
        size: size_of(video),
        video: name_of(video),
        aac: type_of(audio),
    }
}

// The bits per second of a track, 0 where there is none.
fn bandwidth_if(mapping: &Mapping, sequence: u32, kind: Kind, track: Option<TrackView<'_>>) -> u128
    requires { IsInRange 1 (length mapping.now.sequences) sequence }
    ensures value { result ≡ option_map_or (bandwidth_in mapping.now sequence kind) (option_map good_of track.entry) 0 }
    ensures bound { result ≤ 2 ^ 102 }
{
    match track {
        Some(track) => bandwidth(mapping, sequence, kind, &track),
        None => 0,
    }
}

// The width and the height of a video track.
fn size_of(track: Option<TrackView<'_>>) -> Option<(u16, u16)>
    ensures { result ≡ option_map (λ t. (t.width, t.height)) (option_map good_of track.entry) }
{
    match track {
        Some(track) => Some((track.width, track.height)),
        None => None,
    }
}

// The name of a video track's codec.
fn name_of(track: Option<TrackView<'_>>) -> Option<CodecName>
    requires { IfSome track (λ v. v.fourcc ≡ entry_type v.entry.now) }
    ensures { result ≡ option_map video_codec_name (option_map good_of track.entry) }
{
    match track {
        Some(track) => Some(codec_name(&track)),
        None => None,
    }
}

// The object type that an AAC track names first.
fn type_of(track: Option<TrackView<'_>>) -> Option<u8>
    ensures { result ≡ option_map aac_of (option_map good_of track.entry) }
{
    match track {
        Some(track) => Some(object_type(&track)),
        None => None,
    }
}
