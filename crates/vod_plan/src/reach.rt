//! How far a search among the rows of several pieces has come.

ghost use Rattle.std.specs.Prelude.{◌≡◌, ◌+◌, ◌*◌, ◌^◌, ◌≤◌, length, map, option_map, slice_get, unsigned_abs, All, IfSome};
ghost use Rattle.std.specs.List.{position_or_len};
ghost use Rattle.vod_plan.specs.ListingReach.{place_of, IsFront, IsReached};
ghost use Rattle.vod_plan.specs.Narrowed.{IsSound};
ghost use Rattle.vod_plan.specs.Ranges.{planned_of};
ghost use Rattle.vod_plan.specs.Selected.{begins_by};
ghost use Rattle.vod_plan.specs.Spans.{piece_view};

use crate::cell::{count_of, index_by};
use crate::seeks::time_at;
use crate::spans::PlanPiece;
use std::sync::ledger::Ledger;
use vod_types::{Kind, Steps};

/// How far a search among the rows of a kind has come: to the row of an index in a piece, where so many rows stand in the
/// pieces before it; behind the last row it stands behind the last piece.
#[derive(Clone, Copy)]
pub(crate) struct Reach {
    pub(crate) piece: usize,
    pub(crate) before: u64,
    pub(crate) index: u32,
}

impl Reach {
    /// Before the first piece.
    pub(crate) fn new() -> Reach
        ensures piece { result.piece ≡ 0 }
        ensures before { result.before ≡ 0 }
    {
        Reach {
            piece: 0,
            before: 0,
            index: 0,
        }
    }

    /// The place of its row among those of all pieces.
    pub(crate) fn place(&self) -> u64
        requires { self.now.before ≤ 2 ^ 43 }
        ensures { result ≡ place_of self.now }
    {
        self.before + u64::from(self.index)
    }
}

/// Goes on to the first row of a kind that isn't before a time and, with alignment, is a sync row. Each piece that is passed
/// takes a look, and none before the piece of an earlier search.
pub(crate) fn reach_time<L: Ledger>(
    pieces: &[PlanPiece],
    kind: Kind,
    align: bool,
    time: i64,
    earlier: Reach,
    steps: &mut Steps<L>,
) -> Reach
    requires few { length pieces.now ≤ 1024 }
    requires pieces { All IsSound pieces.now }
    requires time { unsigned_abs time ≤ 2 ^ 61 }
    requires earlier { IsFront kind pieces.now earlier }
    ensures reached { IsReached kind pieces.now result }
    ensures later { earlier.piece ≤ result.piece }
    ensures place { let due = position_or_len (begins_by align time) (planned_of kind (map piece_view pieces.now)) in earlier.before ≤ due → place_of result ≡ due }
    ensures looks { steps.new + 256 * earlier.piece ≤ steps.old + 256 * result.piece + 256 }
{
    let mut before = earlier.before;
    for place in earlier.piece..pieces.len() {
        let piece = &pieces[place];
        let index = index_by(piece, kind, align, time, steps);
        let rows = piece.rows(kind);
        if index < rows {
            return Reach {
                piece: place,
                before,
                index,
            };
        }
        before += u64::from(rows);
    }
    Reach {
        piece: pieces.len(),
        before,
        index: 0,
    }
}

/// Behind the last row of a kind.
pub(crate) fn reach_end(pieces: &[PlanPiece], kind: Kind) -> Reach
    requires few { length pieces.now ≤ 1024 }
    requires pieces { All IsSound pieces.now }
    ensures reached { IsReached kind pieces.now result }
    ensures end { result.piece ≡ length pieces.now }
    ensures place { place_of result ≡ length (planned_of kind (map piece_view pieces.now)) }
{
    Reach {
        piece: pieces.len(),
        before: count_of(pieces, kind),
        index: 0,
    }
}

/// The time in the output of the row that is reached, if there is one.
pub(crate) fn reached_time<L: Ledger>(
    pieces: &[PlanPiece],
    kind: Kind,
    reach: Reach,
    steps: &mut Steps<L>,
) -> Option<i64>
    requires pieces { All IsSound pieces.now }
    requires reached { IsReached kind pieces.now reach }
    ensures time { result ≡ option_map (λ r. r.place) (slice_get (planned_of kind (map piece_view pieces.now)) (place_of reach)) }
    ensures bound { IfSome result (λ time. unsigned_abs time ≤ 2 ^ 43) }
    ensures looks { steps.new ≤ steps.old + 128 }
{
    if reach.piece >= pieces.len() {
        return None;
    }
    Some(time_at(&pieces[reach.piece], kind, reach.index, steps))
}
