//! The sync rows of several pieces, found one after another.

ghost use Rattle.std.specs.Prelude.{◌≡◌, ◌+◌, ◌*◌, ◌≤◌, ℕ, Some, All, drop, length, map, slice_get};
ghost use Rattle.std.specs.List.{position_or_len};
ghost use Rattle.vod_plan.specs.ListingReach.{place_of, IsFront, IsReached};
ghost use Rattle.vod_plan.specs.Narrowed.{IsSound};
ghost use Rattle.vod_plan.specs.Ranges.{planned_of};
ghost use Rattle.vod_plan.specs.Spans.{piece_view, rows_in};
ghost use Rattle.vod_plan.specs.Syncs.{rows_at};

use crate::reach::Reach;
use crate::seeks::aligned;
use crate::spans::PlanPiece;
use std::sync::ledger::Ledger;
use vod_types::{Kind, Steps};

/// Goes on to the first sync row of a kind from a row on. Each piece that is passed takes a look, and none before the piece of
/// the row.
pub(crate) fn reach_sync<L: Ledger>(
    pieces: &[PlanPiece],
    kind: Kind,
    from: Reach,
    steps: &mut Steps<L>,
) -> Reach
    requires few { length pieces.now ≤ 1024 }
    requires pieces { All IsSound pieces.now }
    requires from { IsFront kind pieces.now from }
    requires index { (p : PlanPiece) → slice_get pieces.now from.piece ≡ Some p → from.index ≤ rows_in kind (piece_view p) }
    ensures reached { IsReached kind pieces.now result }
    ensures later { from.piece ≤ result.piece }
    ensures place { place_of result ≡ place_of from + position_or_len (λ r. r.sync) (drop (place_of from) (planned_of kind (map piece_view pieces.now))) }
    ensures looks { steps.new + 128 * from.piece ≤ steps.old + 128 * result.piece + 128 }
{
    let mut before = from.before;
    let mut index = from.index;
    for place in from.piece..pieces.len() {
        let piece = &pieces[place];
        let at = sync_from(piece, kind, index, steps);
        let rows = piece.rows(kind);
        if at < rows {
            return Reach {
                piece: place,
                before,
                index: at,
            };
        }
        before += u64::from(rows);
        index = 0;
    }
    Reach {
        piece: pieces.len(),
        before,
        index,
    }
}

// The index of the first sync row of a kind of a piece from an index on; how many rows there are stands for none.
fn sync_from<L: Ledger>(piece: &PlanPiece, kind: Kind, index: u32, steps: &mut Steps<L>) -> u32
    requires piece { IsSound piece.now }
    requires index { index ≤ rows_in kind (piece_view piece.now) }
    ensures sync { (file : ℕ) → result ≡ index + position_or_len (λ r. r.sync) (drop index (rows_at kind file (piece_view piece.now))) }
    ensures within { result ≤ rows_in kind (piece_view piece.now) }
    ensures looks { steps.new ≤ steps.old + 128 }
{
    if index >= piece.rows(kind) {
        return index;
    }
    let span = piece.range(kind);
    aligned(piece, kind, true, span.from + index, steps).min(span.to) - span.from
}
