//! The pieces of a part, looked at one after another.

ghost use Rattle.std.specs.Prelude.{◌≡◌, ◌≢◌, ◌+◌, ◌≤◌, ◌<◌, All, IfOk, IfErr, IfSome, IsErrOf, OnOk, length};
ghost use Rattle.std.specs.Int.{IsInRange};
ghost use Rattle.std.specs.Rc.{rc_value};
ghost use Rattle.vod_types.specs.declared.refusal.Refusal.TheVariants.{NoMemory, StoreFailed};
ghost use Rattle.vod_source.specs.Causes.{Rose};
ghost use Rattle.clip_model.specs.IsTimeline.{IsPiece};
ghost use Rattle.answer_laws.specs.Refusals.{IsPathRefusal};
ghost use Rattle.flat_lists.specs.LookedParts.{AreWithPieces, IsOfFirst, IsPartOf, IsWithPiece};
ghost use Rattle.vod_meta.specs.Held.{names_held, AreTrue, HeldMovie};
ghost use Rattle.seek_lists.specs.Looked.{FirstStands, IsFirstTour, IsLaterTour, IsPartTour, IsPieceTour};
ghost use Rattle.seek_lists.specs.PartTracks.{part_seen, AreFew, ArePlaced};

use crate::first_asked::first_asked;
use crate::part_tracks::PartTracks;
use clip_map::Mapping;
use clip_model::Piece;
use std::alloc::Global;
use std::rc::Rc;
use std::sync::ledger::Ledger;
use vod_meta::{Meta, Metas};
use vod_plan::{check, loaded};
use vod_source::Store;
use vod_types::{Asked, Refusal, Steps};

/// Whose parts are looked at: a sequence of a mapping, with the edits of tracks where `edits` are honoured.
#[derive(Clone, Copy)]
pub(crate) struct Looking<'a> {
    pub(crate) mapping: &'a Mapping,
    pub(crate) sequence: u32,
    pub(crate) edits: bool,
}

/// Looks at the pieces of a part in order. Of the files the movies are read alone, and one that is kept not at all.
///
/// Refused with the first fault of a piece.
pub(crate) fn look_at_part<S: Store, L: Ledger>(
    alloc: Global,
    metas: &mut Metas,
    store: &mut S,
    looking: Looking<'_>,
    pieces: &[Piece],
    steps: &mut Steps<L>,
) -> Result<PartTracks, Refusal>
    requires held { IfSome (S.content store.old) (λ known. AreTrue known metas.old) }
    requires sequence { IsInRange 1 (length looking.mapping.now.sequences) looking.sequence }
    requires pieces { All IsPiece pieces.now }
    requires few { length pieces.now ≤ 1024 }
    ensures told { IfSome (S.content store.old) (λ known.
        IsPartTour known looking.entry.edits looking.entry.mapping.now looking.entry.sequence pieces.now result (names_held metas.old) (names_held metas.new) (S.log store.old) (S.log store.new)) }
    ensures of { IfOk result (λ p. IsPartOf looking.entry.mapping.now looking.entry.sequence pieces.now (part_seen p)) }
    ensures placed { IfOk result AreFew }
    ensures held { IfSome (S.content store.old) (λ known. AreTrue known metas.new) }
    ensures content { S.content store.new ≡ S.content store.old }
    ensures later { S.faults store.old ≤ S.faults store.new }
    ensures store_failed { IsErrOf result StoreFailed → Rose (S.faults store.old) (S.faults store.new) }
    ensures refused { IfErr result IsPathRefusal }
{
    let Some((first, later)) = pieces.split_first() else {
        return Ok(PartTracks::none());
    };
    match look_at_first(alloc, metas, store, looking, first, steps) {
        Ok((asked, part)) => {
            look_at_later(
                alloc,
                metas,
                store,
                looking.edits,
                asked,
                later,
                part,
                steps,
            )
        }
        Err(refusal) => Err(refusal),
    }
}

// Looks at the first piece of a part.
fn look_at_first<S: Store, L: Ledger>(
    alloc: Global,
    metas: &mut Metas,
    store: &mut S,
    looking: Looking<'_>,
    piece: &Piece,
    steps: &mut Steps<L>,
) -> Result<(Asked, PartTracks), Refusal>
    requires held { IfSome (S.content store.old) (λ known. AreTrue known metas.old) }
    requires sequence { IsInRange 1 (length looking.mapping.now.sequences) looking.sequence }
    requires piece { IsPiece piece.now }
    ensures told { IfSome (S.content store.old) (λ known.
        IsFirstTour known looking.entry.edits looking.entry.mapping.now looking.entry.sequence piece.now result (names_held metas.old) (names_held metas.new) (S.log store.old) (S.log store.new)) }
    ensures of { IfOk result (λ r. IsOfFirst looking.entry.mapping.now looking.entry.sequence piece.now (part_seen r.1)) }
    ensures placed { IfOk result (λ r. ArePlaced 1 r.1) }
    ensures held { IfSome (S.content store.old) (λ known. AreTrue known metas.new) }
    ensures content { S.content store.new ≡ S.content store.old }
    ensures later { S.faults store.old ≤ S.faults store.new }
    ensures store_failed { IsErrOf result StoreFailed → Rose (S.faults store.old) (S.faults store.new) }
    ensures refused { IfErr result IsPathRefusal }
{
    match loaded(alloc, metas, store, piece) {
        Ok(meta) => first_of(alloc, looking, piece, meta, steps),
        Err(refusal) => Err(refusal),
    }
}

// The first piece of a part in the metadata of its file.
fn first_of<L: Ledger>(
    alloc: Global,
    looking: Looking<'_>,
    piece: &Piece,
    meta: Rc<Meta>,
    steps: &mut Steps<L>,
) -> Result<(Asked, PartTracks), Refusal>
    requires sequence { IsInRange 1 (length looking.mapping.now.sequences) looking.sequence }
    requires piece { IsPiece piece.now }
    requires named { (rc_value {X = HeldMovie} meta).name ≡ piece.now.name }
    ensures stands { FirstStands looking.entry.edits looking.entry.mapping.now looking.entry.sequence piece.now (rc_value meta).movie result }
    ensures of { IfOk result (λ r. IsOfFirst looking.entry.mapping.now looking.entry.sequence piece.now (part_seen r.1)) }
    ensures placed { IfOk result (λ r. ArePlaced 1 r.1) }
    ensures not_failed { IfErr result (λ refusal. refusal ≢ StoreFailed) }
    ensures refused { IfErr result IsPathRefusal }
{
    let asked = match first_asked(alloc, piece, &meta) {
        Ok(asked) => asked,
        Err(refusal) => return Err(refusal),
    };
    let tracks = match check(alloc, piece, meta, looking.edits, asked) {
        Ok(tracks) => tracks,
        Err(refusal) => return Err(refusal),
    };
    let mut part = PartTracks::of(
        alloc,
        looking.mapping,
        looking.sequence,
        &tracks.meta,
        tracks.video,
        tracks.audio,
        steps,
    );
    match part.add(piece, &tracks, 0, steps) {
        Ok(()) => Ok((asked, part)),
        Err(refusal) => Err(refusal),
    }
}

// Looks at the pieces behind the first one of a part.
fn look_at_later<S: Store, L: Ledger>(
    alloc: Global,
    metas: &mut Metas,
    store: &mut S,
    edits: bool,
    asked: Asked,
    pieces: &[Piece],
    first: PartTracks,
    steps: &mut Steps<L>,
) -> Result<PartTracks, Refusal>
    requires held { IfSome (S.content store.old) (λ known. AreTrue known metas.old) }
    requires pieces { All IsPiece pieces.now }
    requires few { length pieces.now < 1024 }
    requires placed { ArePlaced 1 first }
    ensures told { IfSome (S.content store.old) (λ known.
        IsLaterTour known edits asked pieces.now (part_seen first) result (names_held metas.old) (names_held metas.new) (S.log store.old) (S.log store.new)) }
    ensures of { IfOk result (λ p. AreWithPieces 1 pieces.now (part_seen first) (part_seen p)) }
    ensures placed { IfOk result (ArePlaced (1 + length pieces.now)) }
    ensures held { IfSome (S.content store.old) (λ known. AreTrue known metas.new) }
    ensures content { S.content store.new ≡ S.content store.old }
    ensures later { S.faults store.old ≤ S.faults store.new }
    ensures store_failed { IsErrOf result StoreFailed → Rose (S.faults store.old) (S.faults store.new) }
    ensures refused { IfErr result IsPathRefusal }
{
    let mut part = first;
    let mut place = 1;
    for piece in pieces {
        match look_at(
            alloc, metas, store, edits, asked, place, piece, &mut part, steps,
        ) {
            Ok(()) => {}
            Err(refusal) => return Err(refusal),
        }
        place += 1;
    }
    Ok(part)
}

// Looks at one more piece of a part, by its place in the part.
fn look_at<S: Store, L: Ledger>(
    alloc: Global,
    metas: &mut Metas,
    store: &mut S,
    edits: bool,
    asked: Asked,
    place: u32,
    piece: &Piece,
    part: &mut PartTracks,
    steps: &mut Steps<L>,
) -> Result<(), Refusal>
    requires held { IfSome (S.content store.old) (λ known. AreTrue known metas.old) }
    requires piece { IsPiece piece.now }
    requires placed { ArePlaced place part.old }
    ensures told { IfSome (S.content store.old) (λ known.
        IsPieceTour known edits asked place piece.now (part_seen part.old) (part_seen part.new) result (names_held metas.old) (names_held metas.new) (S.log store.old) (S.log store.new)) }
    ensures of { OnOk result (IsWithPiece place piece.now (part_seen part.old) (part_seen part.new)) }
    ensures placed { OnOk result (ArePlaced (place + 1) part.new) }
    ensures held { IfSome (S.content store.old) (λ known. AreTrue known metas.new) }
    ensures content { S.content store.new ≡ S.content store.old }
    ensures later { S.faults store.old ≤ S.faults store.new }
    ensures store_failed { IsErrOf result StoreFailed → Rose (S.faults store.old) (S.faults store.new) }
    ensures refused { IfErr result IsPathRefusal }
{
    let meta = match loaded(alloc, metas, store, piece) {
        Ok(meta) => meta,
        Err(refusal) => return Err(refusal),
    };
    match check(alloc, piece, meta, edits, asked) {
        Ok(tracks) => part.add(piece, &tracks, place, steps),
        Err(refusal) => Err(refusal),
    }
}
