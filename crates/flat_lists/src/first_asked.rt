//! The tracks that a list asks of a piece.

ghost use Rattle.std.specs.Prelude.{◌≡◌, ◌⊎◌, Err, IfOk, IsErrOf};
ghost use Rattle.vod_types.specs.declared.refusal.Refusal.TheVariants.{NoMemory, NoTrack, StoreFailed};
ghost use Rattle.vod_types.specs.declared.tracks.Kind.TheVariants.{Audio, Video};
ghost use Rattle.vod_types.specs.Results.{Answers};
ghost use Rattle.list_model.specs.Names.{IsAsked};
ghost use Rattle.origin_model.specs.Lists.{asked_first, first_track as first_track_of_kind};
ghost use Rattle.origin_model.specs.Loaded.{track_of_kind};

use clip_model::Piece;
use flat_samples::{Movie, exposed};
use std::alloc::Global;
use vod_types::{Asked, Kind, Name, Refusal, TrackName};

/// Which of v1 and a1 a piece exposes in the movie of its file, at least one of them.
///
/// Refused with `NoTrack` of v1 where it exposes neither.
pub(crate) fn first_asked(alloc: Global, piece: &Piece, movie: &Movie) -> Result<Asked, Refusal>
    ensures answers { Answers (λ asked. asked) result
        (asked_first piece.now.name (first_track_of_kind piece.now movie.now.movie Video) (first_track_of_kind piece.now movie.now.movie Audio)) }
    ensures numbers { IfOk result IsAsked }
    ensures store { IsErrOf result StoreFailed → ⊥ }
{
    let video = first_track(piece, movie, Kind::Video);
    let audio = first_track(piece, movie, Kind::Audio);
    match (video, audio) {
        (None, None) => Err(no_video(alloc, piece.name.as_str())),
        _ => Ok(Asked { video, audio }),
    }
}

// The first track of a kind, by its number 1, where the piece exposes one.
fn first_track(piece: &Piece, movie: &Movie, kind: Kind) -> Option<u8>
    ensures { result ≡ first_track_of_kind piece.now movie.now.movie kind }
{
    match exposed(
        movie,
        piece.tracks.as_slice(),
        TrackName { kind, number: 1 },
    ) {
        Some(_) => Some(1),
        None => None,
    }
}

/// The refusal where a file has no v1, or want of memory for its name.
pub fn no_video(alloc: Global, name: &str) -> Refusal
    ensures { (result ≡ NoMemory) ⊎ (result ≡ NoTrack name.now (track_of_kind Video 1)) }
{
    let track = TrackName {
        kind: Kind::Video,
        number: 1,
    };
    match Name::new(alloc, name) {
        Ok(name) => Refusal::NoTrack { name, track },
        Err(refusal) => refusal,
    }
}
