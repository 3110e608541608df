//! The pieces of a part, looked at one after another.

ghost use Rattle.std.specs.Prelude.{◌≡◌, ◌≢◌, ◌≤◌, ◌<◌, All, IfOk, IfErr, IfSome, IsErrOf, OnOk, length};
ghost use Rattle.std.specs.Int.{IsInRange};
ghost use Rattle.vod_types.specs.declared.refusal.Refusal.TheVariants.{NoMemory, StoreFailed};
ghost use Rattle.vod_source.specs.Causes.{Rose};
ghost use Rattle.clip_model.specs.IsTimeline.{IsPiece};
ghost use Rattle.flat_samples.specs.Movies.{AreTrue};
ghost use Rattle.answer_laws.specs.Refusals.{IsPathRefusal};
ghost use Rattle.flat_lists.specs.LookedParts.{FirstStands, IsFirstTour, IsLaterTour, IsPartTour, IsPieceTour, IsOfFirst, IsWithPiece, AreWithPieces, IsPartOf};
ghost use Rattle.flat_lists.specs.PartTracks.{part_seen, ArePlaced};

use crate::part_tracks::{PartTracks, asked_of};
use clip_map::Mapping;
use clip_model::Piece;
use flat_samples::{Movie, Movies, check};
use std::alloc::Global;
use vod_source::Store;
use vod_types::{Asked, Refusal};

/// Whose parts are looked at: a sequence of a mapping, with the edits of tracks where `edits` are honoured.
#[derive(Clone, Copy)]
pub(crate) struct Looking<'a> {
    pub(crate) mapping: &'a Mapping,
    pub(crate) sequence: u32,
    pub(crate) edits: bool,
}

/// Looks at the pieces of a part in order. Of the files the movies are read alone, each once as long as it is held.
///
/// Refused with the first fault of a piece.
pub(crate) fn look_at_part<S: Store>(
    alloc: Global,
    files: &mut S,
    movies: &mut Movies,
    looking: Looking<'_>,
    pieces: &[Piece],
) -> Result<PartTracks, Refusal>
    requires sequence { IsInRange 1 (length looking.mapping.now.sequences) looking.sequence }
    requires pieces { All IsPiece pieces.now }
    requires few { length pieces.now ≤ 1024 }
    ensures told { IfSome (S.content files.old) (λ known. AreTrue known movies.old →
        IsPartTour known looking.entry.edits looking.entry.mapping.now looking.entry.sequence pieces.now result movies.old movies.new (S.log files.old) (S.log files.new)) }
    ensures of { IfOk result (λ p. IsPartOf looking.entry.mapping.now looking.entry.sequence pieces.now (part_seen p)) }
    ensures placed { IfOk result ArePlaced }
    ensures content { S.content files.new ≡ S.content files.old }
    ensures later { S.faults files.old ≤ S.faults files.new }
    ensures store_failed { IsErrOf result StoreFailed → Rose (S.faults files.old) (S.faults files.new) }
    ensures refused { IfErr result IsPathRefusal }
{
    let Some((first, later)) = pieces.split_first() else {
        return Ok(PartTracks::none());
    };
    match look_at_first(alloc, files, movies, looking, first) {
        Ok((asked, part)) => {
            look_at_later(alloc, files, movies, looking.edits, asked, later, part)
        }
        Err(refusal) => Err(refusal),
    }
}

// Looks at the first piece of a part.
fn look_at_first<S: Store>(
    alloc: Global,
    files: &mut S,
    movies: &mut Movies,
    looking: Looking<'_>,
    piece: &Piece,
) -> Result<(Asked, PartTracks), Refusal>
    requires sequence { IsInRange 1 (length looking.mapping.now.sequences) looking.sequence }
    requires piece { IsPiece piece.now }
    ensures told { IfSome (S.content files.old) (λ known. AreTrue known movies.old →
        IsFirstTour known looking.entry.edits looking.entry.mapping.now looking.entry.sequence piece.now result movies.old movies.new (S.log files.old) (S.log files.new)) }
    ensures of { IfOk result (λ r. IsOfFirst looking.entry.mapping.now looking.entry.sequence piece.now (part_seen r.1)) }
    ensures placed { IfOk result (λ r. ArePlaced r.1) }
    ensures content { S.content files.new ≡ S.content files.old }
    ensures later { S.faults files.old ≤ S.faults files.new }
    ensures store_failed { IsErrOf result StoreFailed → Rose (S.faults files.old) (S.faults files.new) }
    ensures refused { IfErr result IsPathRefusal }
{
    match movies.turn(alloc, files, piece.name.as_str()) {
        Ok(()) => first_of(alloc, looking, piece, movies.front()),
        Err(refusal) => Err(refusal),
    }
}

// The first piece of a part in the movie of its file.
fn first_of(
    alloc: Global,
    looking: Looking<'_>,
    piece: &Piece,
    movie: &Movie,
) -> Result<(Asked, PartTracks), Refusal>
    requires sequence { IsInRange 1 (length looking.mapping.now.sequences) looking.sequence }
    requires piece { IsPiece piece.now }
    ensures stands { FirstStands looking.entry.edits looking.entry.mapping.now looking.entry.sequence piece.now movie.now.movie result }
    ensures of { IfOk result (λ r. IsOfFirst looking.entry.mapping.now looking.entry.sequence piece.now (part_seen r.1)) }
    ensures placed { IfOk result (λ r. ArePlaced r.1) }
    ensures not_failed { IfErr result (λ refusal. refusal ≢ StoreFailed) }
    ensures refused { IfErr result IsPathRefusal }
{
    let asked = match asked_of(alloc, piece, movie) {
        Ok(asked) => asked,
        Err(refusal) => return Err(refusal),
    };
    let tracks = match check(alloc, piece, movie, looking.edits, asked) {
        Ok(tracks) => tracks,
        Err(refusal) => return Err(refusal),
    };
    let mut part = PartTracks::of(alloc, looking.mapping, looking.sequence, &tracks);
    match part.add(alloc, 0, piece, &tracks) {
        Ok(()) => Ok((asked, part)),
        Err(refusal) => Err(refusal),
    }
}

// Looks at the pieces behind the first one of a part.
fn look_at_later<S: Store>(
    alloc: Global,
    files: &mut S,
    movies: &mut Movies,
    edits: bool,
    asked: Asked,
    pieces: &[Piece],
    first: PartTracks,
) -> Result<PartTracks, Refusal>
    requires pieces { All IsPiece pieces.now }
    requires few { length pieces.now < 1024 }
    requires placed { ArePlaced first }
    ensures told { IfSome (S.content files.old) (λ known. AreTrue known movies.old →
        IsLaterTour known edits asked pieces.now (part_seen first) result movies.old movies.new (S.log files.old) (S.log files.new)) }
    ensures of { IfOk result (λ p. AreWithPieces 1 pieces.now (part_seen first) (part_seen p)) }
    ensures placed { IfOk result ArePlaced }
    ensures content { S.content files.new ≡ S.content files.old }
    ensures later { S.faults files.old ≤ S.faults files.new }
    ensures store_failed { IsErrOf result StoreFailed → Rose (S.faults files.old) (S.faults files.new) }
    ensures refused { IfErr result IsPathRefusal }
{
    let mut part = first;
    let mut place = 1;
    for piece in pieces {
        match look_at(alloc, files, movies, edits, asked, place, piece, &mut part) {
            Ok(()) => {}
            Err(refusal) => return Err(refusal),
        }
        place += 1;
    }
    Ok(part)
}

// Looks at one more piece of a part, by its place in the part.
fn look_at<S: Store>(
    alloc: Global,
    files: &mut S,
    movies: &mut Movies,
    edits: bool,
    asked: Asked,
    place: u32,
    piece: &Piece,
    part: &mut PartTracks,
) -> Result<(), Refusal>
    requires piece { IsPiece piece.now }
    requires placed { ArePlaced part.old }
    ensures told { IfSome (S.content files.old) (λ known. AreTrue known movies.old →
        IsPieceTour known edits asked place piece.now (part_seen part.old) (part_seen part.new) result movies.old movies.new (S.log files.old) (S.log files.new)) }
    ensures of { OnOk result (IsWithPiece place piece.now (part_seen part.old) (part_seen part.new)) }
    ensures placed { OnOk result (ArePlaced part.new) }
    ensures content { S.content files.new ≡ S.content files.old }
    ensures later { S.faults files.old ≤ S.faults files.new }
    ensures store_failed { IsErrOf result StoreFailed → Rose (S.faults files.old) (S.faults files.new) }
    ensures refused { IfErr result IsPathRefusal }
{
    match movies.turn(alloc, files, piece.name.as_str()) {
        Ok(()) => {}
        Err(refusal) => return Err(refusal),
    }
    match check(alloc, piece, movies.front(), edits, asked) {
        Ok(tracks) => part.add(alloc, place, piece, &tracks),
        Err(refusal) => Err(refusal),
    }
}
