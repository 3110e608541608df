//! Initialization segments.

ghost use Rattle.std.specs.Prelude.{◌≡◌, ◌≤◌, [], ◌∷◌, Ok, Err, MatchResult, IfSome, IfOk, IfErr, IsErrOf, option_map};
ghost use Rattle.std.specs.Option.{option_copied, option_map_or};
ghost use Rattle.vod_types.specs.declared.refusal.Refusal.TheVariants.{NoMemory, StoreFailed};
ghost use Rattle.vod_types.specs.Lists.{nth_from_one};
ghost use Rattle.vod_types.specs.Results.{Answers};
ghost use Rattle.vod_source.specs.Causes.{Rose};
ghost use Rattle.origin_model.specs.Reads.{turns};
ghost use Rattle.origin_model.specs.Requests.{init_piece};
ghost use Rattle.answer_laws.specs.Refusals.{IsPathRefusal};
ghost use Rattle.mp4_flat.specs.Inits.{part_init, init_names};
ghost use Rattle.vod_source.specs.Calls.{Came};
ghost use Rattle.media_model.specs.InitSegment.{IsEntry};
ghost use Rattle.mp4_flat.specs.Inits.{init_in_movie, init_of_tracks, piece_init};

use clip_model::{Part, Piece};
use flat_samples::{CheckedTracks, Movie, Movies, check};
use fmp4_writer::init;
use mp4_tracks::TrackView;
use seq_timeline::Timeline;
use std::alloc::Global;
use vod_source::Store;
use vod_types::{Asked, Refusal};

/// The initialization segment of a part by its number from 1, of the asked tracks of its first piece, whose edit lists are
/// checked where `edits` are honoured.
///
/// Refused with `NoPart`, `EmptyPart`, or the first fault of that piece.
pub(crate) fn init_of_part<S: Store>(
    alloc: Global,
    files: &mut S,
    timeline: &Timeline,
    part: u32,
    edits: bool,
    asked: Asked,
) -> Result<Vec<u8>, Refusal>
    ensures told { IfSome (S.content files.old) (λ known.
        Came (λ bytes. bytes.items) result (part_init known edits asked timeline.now part)
        (turns known [] (init_names timeline.now part)).reads (S.log files.old) (S.log files.new)) }
    ensures content { S.content files.new ≡ S.content files.old }
    ensures later { S.faults files.old ≤ S.faults files.new }
    ensures store_failed { IsErrOf result StoreFailed → Rose (S.faults files.old) (S.faults files.new) }
    ensures refused { IfErr result IsPathRefusal }
{
    match first_piece(timeline, part) {
        Ok(piece) => init_of_piece(alloc, files, piece, edits, asked),
        Err(refusal) => Err(refusal),
    }
}

// The first piece of a part by its number from 1.
fn first_piece(timeline: &Timeline, number: u32) -> Result<&Piece, Refusal>
    ensures piece { MatchResult result (λ piece. init_piece timeline.now number ≡ Ok piece.now) (λ refusal. init_piece timeline.now number ≡ Err refusal) }
    ensures store { IsErrOf result StoreFailed → ⊥ }
    ensures refused { IfErr result IsPathRefusal }
{
    let Some(part) = part_of(timeline, number) else {
        return Err(Refusal::NoPart {
            asked: number,
            have: timeline.parts.len() as u32,
        });
    };
    if part.count == 0 {
        return Err(Refusal::EmptyPart { part: number });
    }
    Ok(&timeline.pieces[part.first as usize])
}

// A part by its number from 1.
fn part_of(timeline: &Timeline, number: u32) -> Option<&Part>
    ensures { option_copied result ≡ nth_from_one timeline.now.parts number }
{
    if number == 0 {
        return None;
    }
    timeline.parts.get(number as usize - 1)
}

// The initialization segment of the asked tracks of a piece.
fn init_of_piece<S: Store>(
    alloc: Global,
    files: &mut S,
    piece: &Piece,
    edits: bool,
    asked: Asked,
) -> Result<Vec<u8>, Refusal>
    ensures told { IfSome (S.content files.old) (λ known.
        Came (λ bytes. bytes.items) result (piece_init known edits asked piece.now)
        (turns known [] (piece.now.name ∷ [])).reads (S.log files.old) (S.log files.new)) }
    ensures content { S.content files.new ≡ S.content files.old }
    ensures later { S.faults files.old ≤ S.faults files.new }
    ensures store_failed { IsErrOf result StoreFailed → Rose (S.faults files.old) (S.faults files.new) }
    ensures refused { IfErr result IsPathRefusal }
{
    let mut movies = Movies::new(alloc);
    match movies.turn(alloc, files, piece.name.as_str()) {
        Ok(()) => init_in(alloc, piece, movies.front(), edits, asked),
        Err(refusal) => Err(refusal),
    }
}

// The initialization segment of the asked tracks of a piece in the movie of its file.
fn init_in(
    alloc: Global,
    piece: &Piece,
    movie: &Movie,
    edits: bool,
    asked: Asked,
) -> Result<Vec<u8>, Refusal>
    ensures answers { Answers (λ bytes. bytes.items) result (init_in_movie edits asked piece.now movie.now.movie) }
    ensures store { IsErrOf result StoreFailed → ⊥ }
    ensures refused { IfErr result IsPathRefusal }
{
    match check(alloc, piece, movie, edits, asked) {
        Ok(tracks) => written(alloc, &tracks),
        Err(refusal) => Err(refusal),
    }
}

// The initialization segment of checked tracks. The only refusal is `NoMemory`.
fn written(alloc: Global, tracks: &CheckedTracks<'_>) -> Result<Vec<u8>, Refusal>
    requires video { IfSome tracks.now.video (λ v. IsEntry v.entry.now) }
    requires audio { IfSome tracks.now.audio (λ v. IsEntry v.entry.now) }
    ensures bytes { IfOk result (λ bytes. bytes.items ≡ init_of_tracks tracks.now) }
    ensures only { IfErr result (λ refusal. refusal ≡ NoMemory) }
{
    let size = picture_size(tracks.video);
    match init(alloc, entry_of(tracks.video), size, entry_of(tracks.audio)) {
        Ok(bytes) => Ok(bytes),
        Err(_) => Err(Refusal::NoMemory),
    }
}

// The width and the height of a video track, 0 where there is none.
fn picture_size(video: Option<TrackView<'_>>) -> (u16, u16)
    ensures width { result.0 ≡ option_map_or (λ v. v.width) video.entry 0 }
    ensures height { result.1 ≡ option_map_or (λ v. v.height) video.entry 0 }
{
    match video {
        Some(video) => (video.width, video.height),
        None => (0, 0),
    }
}

// The sample entry of a track, where there is one.
fn entry_of<'a>(track: Option<TrackView<'a>>) -> Option<&'a [u8]>
    ensures { option_copied result ≡ option_map (λ v. v.entry.now) track.entry }
{
    match track {
        Some(track) => Some(track.entry),
        None => None,
    }
}
