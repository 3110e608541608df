//! The pieces that a segment needs, looked at one after another: their metadata, and their selected rows by number.

ghost use Rattle.std.specs.Prelude.{◌≡◌, ◌≢◌, ◌+◌, ◌*◌, ◌≤◌, [], ◌∷◌, false, length, All, IfErr, IfOk, IfSome, IsErrOf};
ghost use Rattle.std.specs.List.{list_any};
ghost use Rattle.std.specs.Option.{option_map_or};
ghost use Rattle.std.specs.Rc.{rc_value};
ghost use Rattle.vod_types.specs.declared.refusal.Refusal.TheVariants.{StoreFailed};
ghost use Rattle.vod_types.specs.Lists.{through_first};
ghost use Rattle.vod_types.specs.Tracks.{lead_of as lead_of_asked};
ghost use Rattle.clip_model.specs.IsTimeline.{IsPiece, IsTime};
ghost use Rattle.segment_model.specs.Grid.{may_begin};
ghost use Rattle.vod_source.specs.Calls.{AnswersUnlessFailed};
ghost use Rattle.vod_source.specs.Causes.{Rose};
ghost use Rattle.origin_model.specs.Loaded.{loaded as loaded_of};
ghost use Rattle.answer_laws.specs.Refusals.{IsPathRefusal};
ghost use Rattle.seq_cells.specs.Cells.{part_grid_of, stops};
ghost use Rattle.vod_meta.specs.Held.{names_held, AreTrue, HeldMovie};
ghost use Rattle.vod_plan.specs.Looks.{tracks_asked};
ghost use Rattle.vod_plan.specs.Needed.{looked_count, piece_rows, tracks_found, AreFoundPieces, AreLooks, IsFoundFor, IsLook};
ghost use Rattle.vod_plan.specs.Selected.{AreFound, IsKeptIn, IsSelected};
ghost use Rattle.vod_plan.specs.Spans.{piece_view, rows_in, IsPlanPiece};
ghost use Rattle.vod_plan.specs.Tracks.{checked_view};
ghost use Rattle.vod_plan.specs.Turned.{AreTurns};

use crate::seeks::rows_before;
use crate::select::selected;
use crate::spans::PlanPiece;
use crate::tracks::{CheckedTracks, check};
use clip_model::Piece;
use seq_cells::PartCells;
use std::alloc::Global;
use std::rc::Rc;
use std::sync::ledger::Ledger;
use vod_meta::{Meta, Metas};
use vod_source::Store;
use vod_types::{Asked, Kind, Refusal, Steps};

/// Needed pieces in order, which count their files from 0.
#[derive(Debug, Drop)]
pub(crate) struct NeededPieces {
    pub(crate) pieces: Vec<PlanPiece>,
}

/// Looks at pieces in order, with the edits of their tracks where `edits` are honoured, through the first with a lead row that
/// may begin the next cell, if one is named, or through the last. Of the files, the movies are read alone, and one that is
/// kept not at all.
///
/// Refused with the first fault of a piece.
pub(crate) fn needed_of<S: Store, L: Ledger>(
    alloc: Global,
    metas: &mut Metas,
    store: &mut S,
    edits: bool,
    asked: Asked,
    pieces: &[Piece],
    next: Option<(PartCells<'_>, u64)>,
    steps: &mut Steps<L>,
) -> Result<NeededPieces, Refusal>
    requires held { IfSome (S.content store.old) (λ files. AreTrue files metas.old) }
    requires pieces { All IsPiece pieces.now }
    requires few { length pieces.now ≤ 1024 }
    requires cell { IfSome next (λ n. n.1 ≤ 100001) }
    requires start { IfSome next (λ n. IsTime n.0.start) }
    ensures told { IfSome (S.content store.old) (λ files.
        AreLooks files edits asked (through_first (stops files edits asked next.entry) pieces.now) result metas.old metas.new (S.log store.old) (S.log store.new)) }
    ensures pieces { IfOk result (λ n. All IsPlanPiece n.pieces.items) }
    ensures found { IfOk result (λ n. AreFoundPieces asked pieces.now n.pieces.items) }
    ensures held { IfSome (S.content store.old) (λ files. AreTrue files metas.new) }
    ensures looks { IfSome (S.content store.old) (λ files.
        steps.new ≤ steps.old + 1280 * (looked_count files edits asked (through_first (stops files edits asked next.entry) pieces.now) * tracks_asked asked)) }
    ensures content { S.content store.new ≡ S.content store.old }
    ensures later { S.faults store.old ≤ S.faults store.new }
    ensures store_failed { IsErrOf result StoreFailed → Rose (S.faults store.old) (S.faults store.new) }
    ensures refused { IfErr result IsPathRefusal }
{
    let leads = lead_of(asked);
    let mut found = Vec::new(alloc);
    for piece in pieces {
        let rows = match look(alloc, metas, store, edits, asked, piece, steps) {
            Ok(rows) => rows,
            Err(refusal) => return Err(refusal),
        };
        let last = is_reached(next, leads, &rows, steps);
        match found.push(rows) {
            Ok(()) => {}
            Err(_) => return Err(Refusal::NoMemory),
        }
        if last {
            return Ok(NeededPieces { pieces: found });
        }
    }
    Ok(NeededPieces { pieces: found })
}

/// The kind of the asked track that leads: the video where it is asked.
pub(crate) fn lead_of(asked: Asked) -> Kind
    ensures { result ≡ lead_of_asked asked }
{
    match asked.video {
        Some(_) => Kind::Video,
        None => Kind::Audio,
    }
}

// Brings the movie of a piece to the front, checks the asked tracks of the piece, with their edits where these are honoured,
// and selects their rows. No look is taken where no track is asked.
fn look<S: Store, L: Ledger>(
    alloc: Global,
    metas: &mut Metas,
    store: &mut S,
    edits: bool,
    asked: Asked,
    piece: &Piece,
    steps: &mut Steps<L>,
) -> Result<PlanPiece, Refusal>
    requires held { IfSome (S.content store.old) (λ files. AreTrue files metas.old) }
    requires piece { IsPiece piece.now }
    ensures told { IfSome (S.content store.old) (λ files.
        IsLook files edits asked piece.now result metas.old metas.new (S.log store.old) (S.log store.new)) }
    ensures kept { IfOk result IsPlanPiece }
    ensures found { IfOk result (IsFoundFor asked piece.now) }
    ensures held { IfSome (S.content store.old) (λ files. AreTrue files metas.new) }
    ensures looks { steps.new ≤ steps.old + 1024 * tracks_asked asked }
    ensures content { S.content store.new ≡ S.content store.old }
    ensures later { S.faults store.old ≤ S.faults store.new }
    ensures store_failed { IsErrOf result StoreFailed → Rose (S.faults store.old) (S.faults store.new) }
    ensures refused { IfErr result IsPathRefusal }
{
    let meta = match loaded(alloc, metas, store, piece) {
        Ok(meta) => meta,
        Err(refusal) => return Err(refusal),
    };
    match check(alloc, piece, meta, edits, asked) {
        Ok(tracks) => Ok(rows_of(piece, tracks, steps)),
        Err(refusal) => Err(refusal),
    }
}

/// The metadata of the file of a piece, which stand in front of those that are kept then.
pub fn loaded<S: Store>(
    alloc: Global,
    metas: &mut Metas,
    store: &mut S,
    piece: &Piece,
) -> Result<Rc<Meta>, Refusal>
    requires held { IfSome (S.content store.old) (λ files. AreTrue files metas.old) }
    ensures answers { IfSome (S.content store.old) (λ files.
        AnswersUnlessFailed (λ meta. (rc_value {X = HeldMovie} meta).movie) result (loaded_of files piece.now.name)) }
    ensures turned { IfSome (S.content store.old) (λ files.
        AreTurns files (piece.now.name ∷ []) result (names_held metas.old) (names_held metas.new) (S.log store.old) (S.log store.new)) }
    ensures named { IfOk result (λ meta. (rc_value {X = HeldMovie} meta).name ≡ piece.now.name) }
    ensures held { IfSome (S.content store.old) (λ files. AreTrue files metas.new) }
    ensures content { S.content store.new ≡ S.content store.old }
    ensures later { S.faults store.old ≤ S.faults store.new }
    ensures store_failed { IsErrOf result StoreFailed → Rose (S.faults store.old) (S.faults store.new) }
    ensures refused { IfErr result IsPathRefusal }
{
    metas.load(alloc, store, piece.name.as_str())
}

// The selected rows of a piece, without a look where it has no asked track.
fn rows_of<L: Ledger>(piece: &Piece, tracks: CheckedTracks, steps: &mut Steps<L>) -> PlanPiece
    requires piece { IsPiece piece.now }
    requires named { (rc_value tracks.meta).name ≡ piece.now.name }
    requires found { AreFound tracks }
    ensures selected { IsSelected (checked_view piece.now tracks) (piece_view result) }
    ensures kept { IsPlanPiece result }
    ensures meta { rc_value result.meta ≡ rc_value tracks.meta }
    ensures looks { steps.new ≤ steps.old + 1024 * tracks_found tracks }
{
    if tracks.video.is_none() && tracks.audio.is_none() {
        return PlanPiece {
            meta: tracks.meta,
            base: piece.base,
            video: None,
            audio: None,
        };
    }
    selected(piece, tracks, steps)
}

// Whether a row of a kind of a piece may begin the next cell, if one is named. No look is taken where it has no such row.
fn is_reached<L: Ledger>(
    next: Option<(PartCells<'_>, u64)>,
    kind: Kind,
    piece: &PlanPiece,
    steps: &mut Steps<L>,
) -> bool
    requires cell { IfSome next (λ n. n.1 ≤ 100001) }
    requires start { IfSome next (λ n. IsTime n.0.start) }
    requires piece { IsPlanPiece piece.now }
    requires kept { IsKeptIn kind (piece_view piece.now) }
    ensures reached { result ≡ option_map_or (λ n. list_any (may_begin (part_grid_of n.0) n.1) (piece_rows kind 0 (piece_view piece.now))) next.entry false }
    ensures looks { steps.new ≤ steps.old + 256 }
    ensures none { rows_in kind (piece_view piece.now) ≡ 0 → steps.new ≤ steps.old }
{
    let Some((cells, k)) = next else {
        return false;
    };
    let rows = piece.rows(kind);
    if rows == 0 {
        return false;
    }
    rows_before(piece, kind, cells.align, cells.time(k), steps) < rows
}
