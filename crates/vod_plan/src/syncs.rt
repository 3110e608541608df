//! The sync rows of pieces, and one row alone.

ghost use Rattle.std.specs.Prelude.{◌≡◌, ◌+◌, ◌*◌, ◌^◌, ◌<◌, ◌≤◌, if◌then◌else◌, ℕ, [], ◌∷◌, None, Some, length, map, slice_get, All, IfErr, IfOk};
ghost use Rattle.vod_types.specs.Lists.{nth_from_one};
ghost use Rattle.segment_model.specs.Iframes.{sync_rows};
ghost use Rattle.segment_model.specs.Rows.{TimedRow};
ghost use Rattle.vod_plan.specs.Narrowed.{other_kind, IsSound};
ghost use Rattle.vod_plan.specs.Ranges.{planned_of};
ghost use Rattle.vod_plan.specs.Selected.{AreSamePieces};
ghost use Rattle.vod_plan.specs.Spans.{piece_view, rows_in, IsPlanPiece};
ghost use Rattle.vod_plan.specs.Syncs.{rows_at, IsSyncAt};

use crate::cell::cut_by_number;
use crate::spans::PlanPiece;
use std::sync::ledger::Ledger;
use vod_types::{Kind, Steps};

/// The place, among the rows of a kind of all pieces, of the sync row of an index from 1, or how many sync rows there are.
pub(crate) fn nth_sync<L: Ledger>(
    pieces: &[PlanPiece],
    kind: Kind,
    index: u32,
    steps: &mut Steps<L>,
) -> Result<u64, u64>
    requires few { length pieces.now ≤ 1024 }
    requires pieces { All IsPlanPiece pieces.now }
    ensures found { IfOk result (λ place. (row : TimedRow) × (slice_get (planned_of kind (map piece_view pieces.now)) place ≡ Some row)
        × (nth_from_one (sync_rows (planned_of kind (map piece_view pieces.now))) index ≡ Some row)) }
    ensures fits { IfOk result (λ place. place < 2 ^ 44) }
    ensures none { IfErr result (λ count. (nth_from_one (sync_rows (planned_of kind (map piece_view pieces.now))) index ≡ None)
        × (count ≡ length (sync_rows (planned_of kind (map piece_view pieces.now))))) }
    ensures looks { steps.new ≤ steps.old + 128 * length pieces.now + 4 * length (planned_of kind (map piece_view pieces.now)) }
{
    if index == 0 {
        // No piece has so many rows that one has this index.
        return sync_at(pieces, kind, u64::MAX, steps);
    }
    sync_at(pieces, kind, u64::from(index) - 1, steps)
}

/// Leaves of the rows of a kind the one at a place alone.
pub(crate) fn cut_to_row(pieces: &mut [PlanPiece], kind: Kind, place: u64)
    requires pieces { All IsSound pieces.old }
    requires fits { place < 2 ^ 44 }
    ensures row { (row : TimedRow) → slice_get (planned_of kind (map piece_view pieces.old)) place ≡ Some row → planned_of kind (map piece_view pieces.new) ≡ row ∷ [] }
    ensures other { planned_of (other_kind kind) (map piece_view pieces.new) ≡ planned_of (other_kind kind) (map piece_view pieces.old) }
    ensures pieces { All IsSound pieces.new }
    ensures same { AreSamePieces pieces.old pieces.new }
{
    cut_by_number(pieces, kind, place, place + 1);
}

// The same as `nth_sync` with an index from 0.
fn sync_at<L: Ledger>(
    pieces: &[PlanPiece],
    kind: Kind,
    index: u64,
    steps: &mut Steps<L>,
) -> Result<u64, u64>
    requires few { length pieces.now ≤ 1024 }
    requires pieces { All IsPlanPiece pieces.now }
    ensures found { IfOk result (λ place. IsSyncAt (planned_of kind (map piece_view pieces.now)) index place) }
    ensures none { IfErr result (λ count. (count ≤ index) × (count ≡ length (sync_rows (planned_of kind (map piece_view pieces.now))))) }
    ensures low { IfOk result (λ place. index < 2 ^ 44) }
    ensures fits { IfOk result (λ place. place < 2 ^ 44) }
    ensures looks { steps.new ≤ steps.old + 128 * length pieces.now + 4 * length (planned_of kind (map piece_view pieces.now)) }
{
    let mut place = 0;
    let mut passed = 0;
    for piece in pieces {
        match sync_in(piece, kind, index - passed, steps) {
            Ok(at) => return Ok(place + u64::from(at)),
            Err(syncs) => {
                passed += u64::from(syncs);
                place += u64::from(piece.rows(kind));
            }
        }
    }
    Err(passed)
}

// The index, among the rows of a kind of a piece, of the sync row of an index from 0, or how many sync rows the piece has.
fn sync_in<L: Ledger>(
    piece: &PlanPiece,
    kind: Kind,
    index: u64,
    steps: &mut Steps<L>,
) -> Result<u32, u32>
    requires { IsPlanPiece piece.now }
    ensures found { IfOk result (λ at. (file : ℕ) → IsSyncAt (rows_at kind file (piece_view piece.now)) index at) }
    ensures none { IfErr result (λ count. (count ≤ index) × ((file : ℕ) → count ≡ length (sync_rows (rows_at kind file (piece_view piece.now))))) }
    ensures low { IfOk result (λ at. index < 2 ^ 32) }
    ensures looks { steps.new ≤ steps.old + 128 + 4 * rows_in kind (piece_view piece.now) }
{
    let rows = piece.rows(kind);
    if rows == 0 {
        return Err(0);
    }
    let times = piece.times(kind);
    let mut cursor = times.cursor(u64::from(piece.range(kind).from), steps);
    let mut syncs = 0;
    for at in 0..rows {
        let (_, _, _, sync) = cursor.next(&times, steps);
        if sync && u64::from(syncs) == index {
            return Ok(at);
        }
        syncs += count_of(sync);
    }
    Err(syncs)
}

// How many sync rows a row is.
fn count_of(sync: bool) -> u32
    ensures { result ≡ (if sync then 1 else 0) }
{
    if sync { 1 } else { 0 }
}
