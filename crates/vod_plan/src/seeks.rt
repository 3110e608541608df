//! Rows of one piece by their times.

ghost use Rattle.std.specs.Prelude.{◌≡◌, ◌+◌, ◌-◌, ◌^◌, ◌≤◌, ◌<◌, ℕ, pos, IsSome, Some, slice_get, unsigned_abs};
ghost use Rattle.std.specs.List.{position_or_len};
ghost use Rattle.mp4_model.specs.Samples.{sample_count};
ghost use Rattle.segment_model.specs.Rows.{TimedRow};
ghost use Rattle.segment_model.specs.Timeline.{lead_end};
ghost use Rattle.vod_plan.specs.Cuts.{most_units, place_by};
ghost use Rattle.vod_plan.specs.Ranges.{range_of, range_rows, RowRange};
ghost use Rattle.vod_plan.specs.Seeks.{aligned, first_from, first_kept, found_at, place_at, units_at};
ghost use Rattle.vod_plan.specs.Selected.{begins_by, IsKeptIn};
ghost use Rattle.vod_plan.specs.Spans.{piece_view, rows_in, IsPlanPiece};

use crate::cut::Cut;
use crate::samples::to_units;
use crate::spans::PlanPiece;
use std::sync::ledger::Ledger;
use vod_types::{Kind, Steps};

/// How many rows of a kind stand in a piece before the first that isn't before a time of the output and, with alignment, is
/// a sync row: all of them where there is no such row.
pub fn rows_before<L: Ledger>(
    piece: &PlanPiece,
    kind: Kind,
    align: bool,
    time: i64,
    steps: &mut Steps<L>,
) -> u32
    requires piece { IsPlanPiece piece.now }
    requires kept { IsKeptIn kind (piece_view piece.now) }
    requires time { unsigned_abs time ≤ 2 ^ 61 }
    ensures count { (file : ℕ) (r : RowRange) → range_of kind (piece_view piece.now) ≡ Some r →
        result ≡ position_or_len (begins_by align time) (range_rows kind file piece.now.base r) }
    ensures within { (r : RowRange) → range_of kind (piece_view piece.now) ≡ Some r → result ≤ r.to - r.from }
    ensures looks { steps.new ≤ steps.old + 256 }
{
    if !piece.has(kind) {
        return 0;
    }
    let span = piece.range(kind);
    let row = span
        .from
        .max(found_at(piece, kind, time - piece.base, steps));
    aligned(piece, kind, align, row, steps).min(span.to) - span.from
}

/// The time in the output of the row of a kind with this index among those of the piece.
pub fn time_at<L: Ledger>(piece: &PlanPiece, kind: Kind, index: u32, steps: &mut Steps<L>) -> i64
    requires piece { IsPlanPiece piece.now }
    requires within { index < rows_in kind (piece_view piece.now) }
    ensures time { (file : ℕ) (r : RowRange) (row : TimedRow) → range_of kind (piece_view piece.now) ≡ Some r →
        slice_get (range_rows kind file piece.now.base r) index ≡ Some row → result ≡ row.place }
    ensures bound { unsigned_abs result ≤ 2 ^ 43 }
    ensures looks { steps.new ≤ steps.old + 128 }
{
    let row = piece.range(kind).from + index;
    piece.base + place_at(piece, kind, row, steps)
}

/// Where the last row of a kind of a piece ends in the output.
pub fn end_of_rows<L: Ledger>(piece: &PlanPiece, kind: Kind, steps: &mut Steps<L>) -> i64
    requires piece { IsPlanPiece piece.now }
    requires some { 1 ≤ rows_in kind (piece_view piece.now) }
    ensures end { (file start : ℕ) (r : RowRange) → range_of kind (piece_view piece.now) ≡ Some r →
        result ≡ lead_end (pos start) (range_rows kind file piece.now.base r) }
    ensures bound { unsigned_abs result ≤ 2 ^ 43 }
    ensures looks { steps.new ≤ steps.old + 256 }
{
    let span = piece.range(kind);
    let begin = units_at(piece, kind, span.to - 1, steps);
    let end = units_at(piece, kind, span.to, steps);
    piece.base + place_of(Cut::new(kind, &span), begin) + (end - begin) as i64
}

/// The first row of a piece's track of a kind that isn't before a time of the file, or the number of its rows.
pub fn found_at<L: Ledger>(piece: &PlanPiece, kind: Kind, time: i64, steps: &mut Steps<L>) -> u32
    requires piece { IsPlanPiece piece.now }
    requires some { IsSome (range_of kind (piece_view piece.now)) }
    requires time { unsigned_abs time ≤ 2 ^ 62 }
    ensures value { (r : RowRange) → range_of kind (piece_view piece.now) ≡ Some r → result ≡ found_at kind r time }
    ensures looks { steps.new ≤ steps.old + 128 }
{
    let cut = Cut::new(kind, &piece.range(kind));
    first_from(
        piece,
        kind,
        time + cut.from as i64 - cut.delay as i64,
        steps,
    )
}

/// The first row of its track that the edit keeps.
pub fn first_kept<L: Ledger>(piece: &PlanPiece, kind: Kind, steps: &mut Steps<L>) -> u32
    requires piece { IsPlanPiece piece.now }
    requires some { IsSome (range_of kind (piece_view piece.now)) }
    ensures value { (r : RowRange) → range_of kind (piece_view piece.now) ≡ Some r → result ≡ first_kept kind r }
    ensures looks { steps.new ≤ steps.old + 128 }
{
    let cut = Cut::new(kind, &piece.range(kind));
    first_from(piece, kind, cut.from as i64, steps)
}

// The first row of a time of the media on, or the number of rows.
fn first_from<L: Ledger>(piece: &PlanPiece, kind: Kind, time: i64, steps: &mut Steps<L>) -> u32
    requires { IsSome (range_of kind (piece_view piece.now)) }
    ensures value { (r : RowRange) → range_of kind (piece_view piece.now) ≡ Some r → result ≡ first_from r time }
    ensures looks { steps.new ≤ steps.old + 128 }
{
    // The number of rows, which none is above, fits 32 bits.
    let _rows = piece.samples(kind);
    piece.times(kind).first_at(time, steps) as u32
}

/// The same row, or with alignment the first sync row from it on, or the number of rows.
pub fn aligned<L: Ledger>(
    piece: &PlanPiece,
    kind: Kind,
    align: bool,
    row: u32,
    steps: &mut Steps<L>,
) -> u32
    requires some { IsSome (range_of kind (piece_view piece.now)) }
    requires within { (r : RowRange) → range_of kind (piece_view piece.now) ≡ Some r → row ≤ sample_count r.track.tables }
    ensures value { (r : RowRange) → range_of kind (piece_view piece.now) ≡ Some r → result ≡ aligned align r row }
    ensures looks { steps.new ≤ steps.old + 128 }
{
    if !align {
        return row;
    }
    let _rows = piece.samples(kind);
    piece.times(kind).first_sync_from(u64::from(row), steps) as u32
}

/// Where a row stands in the time of the file.
pub fn place_at<L: Ledger>(piece: &PlanPiece, kind: Kind, row: u32, steps: &mut Steps<L>) -> i64
    requires piece { IsPlanPiece piece.now }
    requires some { IsSome (range_of kind (piece_view piece.now)) }
    requires within { (r : RowRange) → range_of kind (piece_view piece.now) ≡ Some r → row ≤ sample_count r.track.tables }
    ensures value { (r : RowRange) → range_of kind (piece_view piece.now) ≡ Some r → result ≡ place_at kind r row }
    ensures bound { unsigned_abs result ≤ 2 ^ 41 }
    ensures looks { steps.new ≤ steps.old + 128 }
{
    let units = units_at(piece, kind, row, steps);
    place_of(Cut::new(kind, &piece.range(kind)), units)
}

// Where a row of a cut track stands that is decoded at a time in units.
fn place_of(cut: Cut, units: u64) -> i64
    requires { units ≤ most_units }
    ensures value { result ≡ place_by cut units }
    ensures bound { unsigned_abs result ≤ 2 ^ 41 }
{
    (units + cut.delay).saturating_sub(cut.from) as i64
}

// When a row is decoded, or where the last one ends, in 1/90000 s.
fn units_at<L: Ledger>(piece: &PlanPiece, kind: Kind, row: u32, steps: &mut Steps<L>) -> u64
    requires piece { IsPlanPiece piece.now }
    requires some { IsSome (range_of kind (piece_view piece.now)) }
    requires within { (r : RowRange) → range_of kind (piece_view piece.now) ≡ Some r → row ≤ sample_count r.track.tables }
    ensures value { (r : RowRange) → range_of kind (piece_view piece.now) ≡ Some r → result ≡ units_at r row }
    ensures bound { result ≤ most_units }
    ensures looks { steps.new ≤ steps.old + 128 }
{
    let (time, _) = piece.times(kind).times(u64::from(row), steps);
    to_units(piece.timescale(kind), u128::from(time))
}
