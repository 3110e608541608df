//! The codecs of the video of pieces.

ghost use Rattle.std.specs.Prelude.{◌≡◌, ◌≢◌, [], true, is_some, map, All, IfErr};
ghost use Rattle.std.specs.Option.{option_map_or};
ghost use Rattle.vod_types.specs.declared.refusal.Refusal.TheVariants.{MixedCodecs, NoMemory, StoreFailed};
ghost use Rattle.vod_types.specs.Results.{Answers, unless};
ghost use Rattle.vod_plan.specs.RowFaults.{begins_in, facts_of, has_hevc as has_hevc_of, mixed_in, mixed_with, AreTyped};
ghost use Rattle.vod_plan.specs.Spans.{IsPlanPiece};

use crate::spans::PlanPiece;
use std::alloc::Global;
use vod_types::{Asked, Form, Name, Refusal};

/// Whether the video of the first piece is HEVC.
pub(crate) fn begins_with_hevc(pieces: &[PlanPiece]) -> bool
    requires pieces { All IsPlanPiece pieces.now }
    ensures { result ≡ begins_in (map facts_of pieces.now) }
{
    match pieces.first() {
        Some(piece) => has_hevc(piece),
        None => false,
    }
}

/// A transport stream has video of one codec: it is refused with the first piece that has another one than the first.
pub(crate) fn check_codecs(
    alloc: Global,
    form: Form,
    asked: Asked,
    pieces: &[PlanPiece],
) -> Result<(), Refusal>
    requires pieces { All IsPlanPiece pieces.now }
    requires typed { AreTyped asked pieces.now }
    ensures answers { Answers (λ done. done) result (unless (mixed_in form (map facts_of pieces.now))) }
    ensures no_store { IfErr result (λ refusal. refusal ≢ StoreFailed) }
{
    if form == Form::Fmp4 || pieces.is_empty() {
        return Ok(());
    }
    check_others(alloc, asked, &pieces[0], &pieces[1..])
}

// The first of these pieces that has another codec than the first.
fn check_others(
    alloc: Global,
    asked: Asked,
    first: &PlanPiece,
    others: &[PlanPiece],
) -> Result<(), Refusal>
    requires good { IsPlanPiece first.now }
    requires pieces { All IsPlanPiece others.now }
    requires first { is_some first.now.video ≡ is_some asked.video }
    requires others { AreTyped asked others.now }
    ensures answers { Answers (λ done. done) result (unless (mixed_with (facts_of first.now) (map facts_of others.now))) }
    ensures no_store { IfErr result (λ refusal. refusal ≢ StoreFailed) }
{
    let hevc = has_hevc(first);
    for other in others {
        if has_hevc(other) != hevc {
            return Err(mixed_codecs(alloc, first, other));
        }
    }
    Ok(())
}

fn mixed_codecs(alloc: Global, first: &PlanPiece, other: &PlanPiece) -> Refusal
    requires good { IsPlanPiece first.now }
    requires good_other { IsPlanPiece other.now }
    requires first { is_some first.now.video ≡ true }
    requires other { is_some other.now.video ≡ true }
    ensures is { result ≢ NoMemory → result ≡ MixedCodecs (facts_of other.now).name (facts_of first.now).video_type (facts_of other.now).video_type }
    ensures no_store { result ≢ StoreFailed }
{
    match Name::new(alloc, other.meta.name()) {
        Ok(name) => Refusal::MixedCodecs {
            name,
            first: video_type(first).unwrap(),
            other: video_type(other).unwrap(),
        },
        Err(refusal) => refusal,
    }
}

// Whether the video of a piece is HEVC, by the type of its sample entry.
fn has_hevc(piece: &PlanPiece) -> bool
    requires good { IsPlanPiece piece.now }
    ensures value { result ≡ has_hevc_of (facts_of piece.now) }
    ensures there { result ≡ true → is_some piece.now.video ≡ true }
{
    match video_type(piece) {
        Some(kind) => kind == *b"hvc1" || kind == *b"hev1",
        None => false,
    }
}

// The type of the sample entry of its video track, if it has one.
fn video_type(piece: &PlanPiece) -> Option<[u8; 4]>
    requires good { IsPlanPiece piece.now }
    ensures value { option_map_or (λ kind. kind) result [] ≡ (facts_of piece.now).video_type }
    ensures there { is_some result ≡ is_some piece.now.video }
{
    let Some(span) = piece.video else {
        return None;
    };
    match piece.meta.track(span.track) {
        Ok(view) => Some(view.fourcc),
        Err(_) => None,
    }
}
