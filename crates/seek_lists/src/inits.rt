//! Initialization segments.

ghost use Rattle.std.specs.Prelude.{◌≡◌, ◌≤◌, [], ◌∷◌, Ok, Err, IfErr, IfOk, IfSome, IsErrOf, MatchResult};
ghost use Rattle.std.specs.Rc.{rc_value};
ghost use Rattle.vod_types.specs.declared.refusal.Refusal.TheVariants.{NoMemory, StoreFailed};
ghost use Rattle.vod_types.specs.Results.{Answers};
ghost use Rattle.vod_source.specs.Calls.{Came};
ghost use Rattle.vod_source.specs.Causes.{Rose};
ghost use Rattle.origin_model.specs.Bodies.{init_body};
ghost use Rattle.origin_model.specs.Loaded.{CheckedPiece};
ghost use Rattle.origin_model.specs.Reads.{turns};
ghost use Rattle.origin_model.specs.Requests.{init_piece};
ghost use Rattle.answer_laws.specs.Refusals.{IsPathRefusal};
ghost use Rattle.vod_meta.specs.Held.{names_held, AreTrue};
ghost use Rattle.vod_plan.specs.Tracks.{track_in};
ghost use Rattle.vod_plan.specs.Turned.{LeavesCache};
ghost use Rattle.seek_lists.specs.Inits.{init_in_movie, init_names, part_init, piece_init};
ghost use Rattle.seek_lists.specs.Turned.{IsTurned};

use crate::views::view_of;
use crate::written::init_of_views;
use clip_model::Piece;
use seq_cells::{part_at, parts_of};
use seq_timeline::Timeline;
use std::alloc::Global;
use std::rc::Rc;
use vod_meta::{Meta, Metas};
use vod_plan::{AskedTrack, check, loaded};
use vod_source::Store;
use vod_types::{Asked, Refusal};

/// The initialization segment of a part by its number from 1, of the asked tracks of its first piece, whose edit lists are
/// checked where `edits` are honoured. Of the files the movie of that piece is read alone, and one that is kept not at all.
///
/// Refused with `NoPart`, `EmptyPart`, or the first fault of that piece.
pub fn init<S: Store>(
    alloc: Global,
    metas: &mut Metas,
    store: &mut S,
    timeline: &Timeline,
    part: u32,
    asked: Asked,
    edits: bool,
) -> Result<Vec<u8>, Refusal>
    requires held { IfSome (S.content store.old) (λ files. AreTrue files metas.old) }
    ensures told { IfSome (S.content store.old) (λ files.
        Came (λ bytes. bytes.items) result (part_init files edits asked timeline.now part)
        (turns files (names_held metas.old) (init_names timeline.now part)).reads (S.log store.old) (S.log store.new)) }
    ensures cache { IfSome (S.content store.old) (λ files.
        LeavesCache files (init_names timeline.now part) result (names_held metas.old) (names_held metas.new)) }
    ensures held { IfSome (S.content store.old) (λ files. AreTrue files metas.new) }
    ensures content { S.content store.new ≡ S.content store.old }
    ensures later { S.faults store.old ≤ S.faults store.new }
    ensures store_failed { IsErrOf result StoreFailed → Rose (S.faults store.old) (S.faults store.new) }
    ensures refused { IfErr result IsPathRefusal }
{
    match first_piece(timeline, part) {
        Ok(piece) => init_of_piece(alloc, metas, store, piece, asked, edits),
        Err(refusal) => Err(refusal),
    }
}

// The first piece of a part by its number from 1.
fn first_piece(timeline: &Timeline, number: u32) -> Result<&Piece, Refusal>
    ensures piece { MatchResult result (λ piece. init_piece timeline.now number ≡ Ok piece.now) (λ refusal. init_piece timeline.now number ≡ Err refusal) }
    ensures store { IsErrOf result StoreFailed → ⊥ }
    ensures refused { IfErr result IsPathRefusal }
{
    let have = parts_of(timeline).len() as u32;
    if number == 0 || number > have {
        return Err(Refusal::NoPart {
            asked: number,
            have,
        });
    }
    let (_, pieces) = part_at(timeline, number - 1);
    match pieces.first() {
        Some(piece) => Ok(piece),
        None => Err(Refusal::EmptyPart { part: number }),
    }
}

// The initialization segment of the asked tracks of a piece.
fn init_of_piece<S: Store>(
    alloc: Global,
    metas: &mut Metas,
    store: &mut S,
    piece: &Piece,
    asked: Asked,
    edits: bool,
) -> Result<Vec<u8>, Refusal>
    requires held { IfSome (S.content store.old) (λ files. AreTrue files metas.old) }
    ensures told { IfSome (S.content store.old) (λ files.
        IsTurned files (λ bytes. bytes.items) (piece_init files edits asked piece.now) (piece.now.name ∷ []) result
        (names_held metas.old) (names_held metas.new) (S.log store.old) (S.log store.new)) }
    ensures held { IfSome (S.content store.old) (λ files. AreTrue files metas.new) }
    ensures content { S.content store.new ≡ S.content store.old }
    ensures later { S.faults store.old ≤ S.faults store.new }
    ensures store_failed { IsErrOf result StoreFailed → Rose (S.faults store.old) (S.faults store.new) }
    ensures refused { IfErr result IsPathRefusal }
{
    match loaded(alloc, metas, store, piece) {
        Ok(meta) => init_in(alloc, piece, meta, asked, edits),
        Err(refusal) => Err(refusal),
    }
}

// The initialization segment of the asked tracks of a piece in the metadata of its file.
fn init_in(
    alloc: Global,
    piece: &Piece,
    meta: Rc<Meta>,
    asked: Asked,
    edits: bool,
) -> Result<Vec<u8>, Refusal>
    ensures answers { Answers (λ bytes. bytes.items) result (init_in_movie edits asked piece.now (rc_value meta).movie) }
    ensures store { IsErrOf result StoreFailed → ⊥ }
    ensures refused { IfErr result IsPathRefusal }
{
    match check(alloc, piece, meta, edits, asked) {
        Ok(tracks) => init_of(alloc, &tracks.meta, tracks.video, tracks.audio),
        Err(refusal) => Err(refusal),
    }
}

// The initialization segment of asked tracks. The only refusal is `NoMemory`.
fn init_of(
    alloc: Global,
    meta: &Meta,
    video: Option<AskedTrack>,
    audio: Option<AskedTrack>,
) -> Result<Vec<u8>, Refusal>
    ensures bytes { IfOk result (λ bytes. (c : CheckedPiece) → c.video ≡ track_in meta.now.movie video → c.audio ≡ track_in meta.now.movie audio → bytes.items ≡ init_body c) }
    ensures only { IfErr result (λ refusal. refusal ≡ NoMemory) }
{
    init_of_views(alloc, view_of(meta, video), view_of(meta, audio))
}
