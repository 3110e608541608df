//! The tracks that a list asks of a piece.

ghost use Rattle.std.specs.Prelude.{◌≡◌, IfErr, IfOk, IsErrOf};
ghost use Rattle.vod_types.specs.declared.refusal.Refusal.TheVariants.{StoreFailed};
ghost use Rattle.vod_types.specs.declared.tracks.Kind.TheVariants.{Audio, Video};
ghost use Rattle.vod_types.specs.Results.{Answers};
ghost use Rattle.list_model.specs.Names.{IsAsked};
ghost use Rattle.origin_model.specs.Lists.{asked_first, first_track as first_track_of_kind};
ghost use Rattle.answer_laws.specs.Refusals.{IsPathRefusal};

use clip_model::Piece;
use flat_lists::no_video;
use std::alloc::Global;
use vod_meta::Meta;
use vod_plan::exposed;
use vod_types::{Asked, Kind, Refusal, TrackName};

/// Which of v1 and a1 a piece exposes in the metadata of its file, at least one of them.
///
/// Refused with `NoTrack` of v1 where it exposes neither.
pub(crate) fn first_asked(alloc: Global, piece: &Piece, meta: &Meta) -> Result<Asked, Refusal>
    ensures answers { Answers (λ asked. asked) result
        (asked_first piece.now.name (first_track_of_kind piece.now meta.now.movie Video) (first_track_of_kind piece.now meta.now.movie Audio)) }
    ensures numbers { IfOk result IsAsked }
    ensures store { IsErrOf result StoreFailed → ⊥ }
    ensures refused { IfErr result IsPathRefusal }
{
    let video = first_track(piece, meta, Kind::Video);
    let audio = first_track(piece, meta, Kind::Audio);
    match (video, audio) {
        (None, None) => Err(no_video(alloc, piece.name.as_str())),
        _ => Ok(Asked { video, audio }),
    }
}

// The first track of a kind, by its number 1, where the piece exposes one.
fn first_track(piece: &Piece, meta: &Meta, kind: Kind) -> Option<u8>
    ensures { result ≡ first_track_of_kind piece.now meta.now.movie kind }
{
    match exposed(meta, piece.tracks.as_slice(), TrackName { kind, number: 1 }) {
        Some(_) => Some(1),
        None => None,
    }
}
