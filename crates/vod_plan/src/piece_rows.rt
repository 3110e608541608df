//! The rows of a kind of one piece, one after another, as a movie file has them.

ghost use Rattle.std.specs.Prelude.{◌≡◌, ◌∷◌, ◌<◌, [], map, MatchOption};
ghost use Rattle.vod_types.specs.declared.segments.Form.TheVariants.{Fmp4};
ghost use Rattle.segment_model.specs.Rows.{written_row};
ghost use Rattle.vod_plan.specs.Dues.{shown, IsDue};
ghost use Rattle.vod_plan.specs.Needed.{piece_rows};
ghost use Rattle.vod_plan.specs.Passes.{rows_behind};
ghost use Rattle.vod_plan.specs.Spans.{piece_view, IsPlanPiece};
ghost use Rattle.vod_plan.specs.Walks.{IsWalk};

use crate::samples::DueRow;
use crate::spans::PlanPiece;
use crate::walk::{Walk, due_at};
use std::marker::{Brand, Model};
use std::slice::from_ref;
use std::sync::ledger::{Blank, Ledger};
use vod_types::{Form, Kind, Steps};

/// A row: its number in its track from 0, its place and its size in the file in bytes, when it is decoded and when it is shown
/// in 1/90000 s, how long it lasts, and whether it is a sync sample. Its place may lie past the end of every file.
#[derive(Clone, Copy, Debug)]
pub struct PieceRow {
    pub number: u32,
    pub at: u128,
    pub size: u32,
    pub dts: i64,
    pub pts: i64,
    pub dur: u32,
    pub sync: bool,
}

impl Model for PieceRow {
    ghost use Rattle.vod_types.specs.declared.segments.Row.{Row};

    ghost Value = { Row };

    ghost view = { λ r. record { file = 0; number = r.number; sample = record { at = r.at; size = r.size; dts = r.dts; pts = r.pts; dur = r.dur; sync = r.sync } } };

    ghost inverse = { λ r. record { number = r.number; at = r.sample.at; size = r.sample.size; dts = r.sample.dts; pts = r.sample.pts; dur = r.sample.dur; sync = r.sample.sync } };
}

/// The rows of a kind of a piece that weren't given yet, as fragments have them.
#[derive(Debug, Drop)]
pub struct PieceRows<'a> {
    piece: &'a PlanPiece,
    kind: Kind,
    walk: Walk,
}

impl<'a> Model for PieceRows<'a> {
    ghost use Rattle.std.specs.Prelude.{List};
    ghost use Rattle.vod_types.specs.declared.segments.Row.{Row};

    ghost Value = { List Row };

    ghost use Rattle.vod_plan.specs.RowsLeft.{left_in, IsPieceRows};

    ghost view = { left_in };

    ghost invariant = { IsPieceRows };
}

impl<'a> PieceRows<'a> {
    /// All rows of a kind of a piece.
    pub fn new(piece: &'a PlanPiece, kind: Kind) -> PieceRows<'a>
        requires { IsPlanPiece piece.now }
        ensures { result ≡ map (written_row Fmp4) (piece_rows kind 0 (piece_view piece.now)) }
    {
        PieceRows {
            piece,
            kind,
            walk: Walk::first(piece.rows(kind)),
        }
    }

    /// The next row, which isn't left then, and `None` where none is left.
    pub fn next(&mut self) -> Option<PieceRow>
        ensures { MatchOption result (self.old ≡ []) (λ row. self.old ≡ row ∷ self.new) }
    {
        if self.walk.given == self.walk.count {
            return None;
        }
        let (row, walk) = next_row::<Brand>(self.piece, self.kind, self.walk, Blank::new(1));
        self.walk = walk;
        Some(row)
    }
}

// The next row of a walk over the rows of a piece, and the walk behind it, with a counter of its own for the looks at the tables.
fn next_row<L: Ledger>(piece: &PlanPiece, kind: Kind, walk: Walk, blank: Blank) -> (PieceRow, Walk)
    requires name { blank.name ≡ L.name }
    requires parts { blank.parts ≡ L.parts }
    requires some { 0 < L.parts }
    requires piece { IsPlanPiece piece.now }
    requires walk { IsWalk kind (piece_view piece.now ∷ []) walk }
    requires left { walk.given < walk.count }
    ensures row { rows_behind Fmp4 kind (piece_view piece.now ∷ []) walk ≡ result.0 ∷ rows_behind Fmp4 kind (piece_view piece.now ∷ []) result.1 }
    ensures walk { IsWalk kind (piece_view piece.now ∷ []) result.1 }
{
    let mut steps = Steps::<L>::start(blank);
    let (due, behind) = due_at(from_ref(piece), kind, walk, &mut steps);
    (row_of(&due), behind)
}

// A row of the first piece as a fragment has it.
fn row_of(due: &DueRow) -> PieceRow
    requires due { IsDue due.now }
    requires first { due.now.file ≡ 0 }
    ensures { result ≡ shown Fmp4 due.now }
{
    PieceRow {
        number: due.sample.number,
        at: due.sample.offset,
        size: due.sample.size,
        dts: due.decode_time(Form::Fmp4),
        pts: due.base + due.sample.presentation,
        dur: due.sample.duration.min(u64::from(u32::MAX)) as u32,
        sync: due.sample.sync,
    }
}
