//! The rows of one cell among those of its pieces.

ghost use Rattle.std.specs.Prelude.{◌≡◌, ◌+◌, ◌*◌, ◌^◌, ◌≤◌, ◌<◌, ◌-◌, length, map, min, option_map, slice_get, slice_range, unsigned_abs, All, IfSome};
ghost use Rattle.std.specs.List.{position_or_len};
ghost use Rattle.clip_model.specs.IsTimeline.{IsTime};
ghost use Rattle.segment_model.specs.Lone.{first_row, lone_cell};
ghost use Rattle.segment_model.specs.Timeline.{lead_end};
ghost use Rattle.vod_types.specs.declared.tracks.Kind.TheVariants.{Video, Audio};
ghost use Rattle.seq_cells.specs.Cells.{part_grid_of};
ghost use Rattle.vod_plan.specs.Narrowed.{between_times, index_at, index_by, narrow_span, narrowed, other_kind, IsSound};
ghost use Rattle.vod_plan.specs.Ranges.{planned_of};
ghost use Rattle.vod_plan.specs.Selected.{begins_by, rows_planned, AreSamePieces, IsKeptIn, IsSamePiece};
ghost use Rattle.vod_plan.specs.Spans.{piece_view, rows_in, IsPlanPiece};

use crate::seeks::{end_of_rows, rows_before, time_at};
use crate::spans::{PlanPiece, RowSpan};
use seq_cells::PartCells;
use std::sync::ledger::Ledger;
use vod_types::{Kind, Steps};

/// Leaves of the rows of pieces those of the cell `k`, from 0, where a kind leads. Pieces without a row of it stay, with empty
/// ranges.
pub(crate) fn cut_to_cell<L: Ledger>(
    pieces: &mut [PlanPiece],
    leads: Kind,
    cells: PartCells<'_>,
    k: u64,
    steps: &mut Steps<L>,
)
    requires few { length pieces.old ≤ 1024 }
    requires pieces { All IsPlanPiece pieces.old }
    requires video { All (λ p. IsKeptIn Video (piece_view p)) pieces.old }
    requires audio { All (λ p. IsKeptIn Audio (piece_view p)) pieces.old }
    requires cell { k ≤ 100000 }
    requires start { IsTime cells.start }
    ensures rows { rows_planned leads (map piece_view pieces.new) ≡ lone_cell (part_grid_of cells.entry) (rows_planned leads (map piece_view pieces.old)) k }
    ensures pieces { All IsPlanPiece pieces.new }
    ensures video { All (λ p. IsKeptIn Video (piece_view p)) pieces.new }
    ensures audio { All (λ p. IsKeptIn Audio (piece_view p)) pieces.new }
    ensures same { AreSamePieces pieces.old pieces.new }
    ensures looks { steps.new ≤ steps.old + 1024 * length pieces.old + 256 }
{
    let first = first_row(pieces, leads, cells, k, steps);
    let next = first_row(pieces, leads, cells, k + 1, steps);
    let from = time_of(pieces, leads, first, steps);
    let to = time_of(pieces, leads, next, steps);
    cut_by_number(pieces, leads, first, next);
    cut_by_time(pieces, other_kind(leads), from, to, steps);
}

/// Where the last row of the leading kind ends, and a part's start where there is none.
pub(crate) fn end_of_lead<L: Ledger>(
    pieces: &[PlanPiece],
    leads: Kind,
    start: i64,
    steps: &mut Steps<L>,
) -> i64
    requires few { length pieces.now ≤ 1024 }
    requires pieces { All IsPlanPiece pieces.now }
    requires start { IsTime start }
    ensures end { result ≡ lead_end start (rows_planned leads (map piece_view pieces.now)).lead }
    ensures bound { unsigned_abs result ≤ 2 ^ 43 }
    ensures looks { steps.new ≤ steps.old + 256 }
{
    for passed in 0..pieces.len() {
        let piece = &pieces[pieces.len() - 1 - passed];
        if piece.rows(leads) > 0 {
            return end_of_rows(piece, leads, steps);
        }
    }
    start
}

/// The kind beside a kind.
pub(crate) fn other_kind(kind: Kind) -> Kind
    ensures { result ≡ other_kind kind }
{
    match kind {
        Kind::Video => Kind::Audio,
        Kind::Audio => Kind::Video,
    }
}

// The place of the first row of a cell among the rows of the leading kind; how many there are stands for the part's end.
fn first_row<L: Ledger>(
    pieces: &[PlanPiece],
    leads: Kind,
    cells: PartCells<'_>,
    k: u64,
    steps: &mut Steps<L>,
) -> u64
    requires few { length pieces.now ≤ 1024 }
    requires pieces { All IsSound pieces.now }
    requires cell { k ≤ 100001 }
    requires start { IsTime cells.start }
    ensures row { result ≡ first_row (part_grid_of cells.entry) (planned_of leads (map piece_view pieces.now)) k }
    ensures looks { steps.new ≤ steps.old + 256 * length pieces.now }
{
    if k < cells.cells {
        first_beginning(pieces, leads, cells.align, cells.time(k), steps)
    } else {
        count_of(pieces, leads)
    }
}

// The place of the first row of a kind that isn't before a time and, with alignment, is a sync row.
fn first_beginning<L: Ledger>(
    pieces: &[PlanPiece],
    kind: Kind,
    align: bool,
    time: i64,
    steps: &mut Steps<L>,
) -> u64
    requires few { length pieces.now ≤ 1024 }
    requires pieces { All IsSound pieces.now }
    requires time { unsigned_abs time ≤ 2 ^ 61 }
    ensures row { result ≡ position_or_len (begins_by align time) (planned_of kind (map piece_view pieces.now)) }
    ensures looks { steps.new ≤ steps.old + 256 * length pieces.now }
{
    let mut place = 0;
    for piece in pieces {
        let index = index_by(piece, kind, align, time, steps);
        place += u64::from(index);
        if index < piece.rows(kind) {
            return place;
        }
    }
    place
}

/// How many rows of a kind there are.
pub(crate) fn count_of(pieces: &[PlanPiece], kind: Kind) -> u64
    requires few { length pieces.now ≤ 1024 }
    requires pieces { All IsSound pieces.now }
    ensures count { result ≡ length (planned_of kind (map piece_view pieces.now)) }
    ensures small { result ≤ length pieces.now * 2 ^ 32 }
{
    let mut count = 0;
    for piece in pieces {
        count += u64::from(piece.rows(kind));
    }
    count
}

// The time in the output of the row of a kind at a place; none where no row stands there.
fn time_of<L: Ledger>(
    pieces: &[PlanPiece],
    kind: Kind,
    place: u64,
    steps: &mut Steps<L>,
) -> Option<i64>
    requires pieces { All IsSound pieces.now }
    ensures time { result ≡ option_map (λ r. r.place) (slice_get (planned_of kind (map piece_view pieces.now)) place) }
    ensures bound { IfSome result (λ time. unsigned_abs time ≤ 2 ^ 43) }
    ensures looks { steps.new ≤ steps.old + 128 }
{
    let mut left = place;
    for piece in pieces {
        let rows = u64::from(piece.rows(kind));
        if left < rows {
            return Some(time_at(piece, kind, left as u32, steps));
        }
        left -= rows;
    }
    None
}

/// Leaves of the rows of a kind those from a place on and before another.
pub(crate) fn cut_by_number(pieces: &mut [PlanPiece], kind: Kind, from: u64, to: u64)
    requires pieces { All IsSound pieces.old }
    ensures rows { planned_of kind (map piece_view pieces.new) ≡ slice_range (planned_of kind (map piece_view pieces.old)) from to }
    ensures other { planned_of (other_kind kind) (map piece_view pieces.new) ≡ planned_of (other_kind kind) (map piece_view pieces.old) }
    ensures pieces { All IsSound pieces.new }
    ensures same { AreSamePieces pieces.old pieces.new }
{
    let mut left = (from, to);
    for i in 0..pieces.len() {
        left = cut_front(&mut pieces[i], kind, left.0, left.1);
    }
}

// The same for one piece; both places count from its first row on, and those that it gives from the first behind its last row.
fn cut_front(piece: &mut PlanPiece, kind: Kind, from: u64, to: u64) -> (u64, u64)
    requires { IsSound piece.old }
    ensures view { piece_view piece.new ≡ narrowed kind (min from (rows_in kind (piece_view piece.old))) (min to (rows_in kind (piece_view piece.old))) (piece_view piece.old) }
    ensures left { result ≡ (from - rows_in kind (piece_view piece.old), to - rows_in kind (piece_view piece.old)) }
    ensures piece { IsSound piece.new }
    ensures same { IsSamePiece piece.old piece.new }
{
    let rows = u64::from(piece.rows(kind));
    narrow(piece, kind, from.min(rows) as u32, to.min(rows) as u32);
    (from.saturating_sub(rows), to.saturating_sub(rows))
}

// Leaves of the rows of a kind those that aren't before a time, and that are before another; no time is above all.
fn cut_by_time<L: Ledger>(
    pieces: &mut [PlanPiece],
    kind: Kind,
    from: Option<i64>,
    to: Option<i64>,
    steps: &mut Steps<L>,
)
    requires pieces { All IsSound pieces.old }
    requires from { IfSome from (λ time. unsigned_abs time ≤ 2 ^ 43) }
    requires to { IfSome to (λ time. unsigned_abs time ≤ 2 ^ 43) }
    ensures rows { planned_of kind (map piece_view pieces.new) ≡ between_times from to (planned_of kind (map piece_view pieces.old)) }
    ensures other { planned_of (other_kind kind) (map piece_view pieces.new) ≡ planned_of (other_kind kind) (map piece_view pieces.old) }
    ensures pieces { All IsSound pieces.new }
    ensures same { AreSamePieces pieces.old pieces.new }
    ensures looks { steps.new ≤ steps.old + 512 * length pieces.old }
{
    for i in 0..pieces.len() {
        cut_times(&mut pieces[i], kind, from, to, steps);
    }
}

// The same for one piece.
fn cut_times<L: Ledger>(
    piece: &mut PlanPiece,
    kind: Kind,
    from: Option<i64>,
    to: Option<i64>,
    steps: &mut Steps<L>,
)
    requires piece { IsSound piece.old }
    requires from { IfSome from (λ time. unsigned_abs time ≤ 2 ^ 43) }
    requires to { IfSome to (λ time. unsigned_abs time ≤ 2 ^ 43) }
    ensures view { piece_view piece.new ≡ narrowed kind (index_at kind from (piece_view piece.old)) (index_at kind to (piece_view piece.old)) (piece_view piece.old) }
    ensures piece { IsSound piece.new }
    ensures same { IsSamePiece piece.old piece.new }
    ensures looks { steps.new ≤ steps.old + 512 }
{
    let first = index_at(piece, kind, from, steps);
    let last = index_at(piece, kind, to, steps);
    narrow(piece, kind, first, last);
}

// How many rows of a kind of a piece are before a time; all of them where there is none.
fn index_at<L: Ledger>(
    piece: &PlanPiece,
    kind: Kind,
    time: Option<i64>,
    steps: &mut Steps<L>,
) -> u32
    requires piece { IsSound piece.now }
    requires time { IfSome time (λ time. unsigned_abs time ≤ 2 ^ 43) }
    ensures index { result ≡ index_at kind time (piece_view piece.now) }
    ensures within { result ≤ rows_in kind (piece_view piece.now) }
    ensures looks { steps.new ≤ steps.old + 256 }
{
    match time {
        Some(time) => index_by(piece, kind, false, time, steps),
        None => piece.rows(kind),
    }
}

/// How many rows of a kind of a piece stand before the first that isn't before a time and, with alignment, is a sync row.
pub(crate) fn index_by<L: Ledger>(
    piece: &PlanPiece,
    kind: Kind,
    align: bool,
    time: i64,
    steps: &mut Steps<L>,
) -> u32
    requires piece { IsSound piece.now }
    requires time { unsigned_abs time ≤ 2 ^ 61 }
    ensures index { result ≡ index_by kind align time (piece_view piece.now) }
    ensures within { result ≤ rows_in kind (piece_view piece.now) }
    ensures looks { steps.new ≤ steps.old + 256 }
{
    if piece.rows(kind) == 0 {
        return 0;
    }
    rows_before(piece, kind, align, time, steps)
}

// Leaves of the rows of a kind of a piece those from an index on and before another.
fn narrow(piece: &mut PlanPiece, kind: Kind, from: u32, to: u32)
    requires piece { IsSound piece.old }
    requires from { from ≤ rows_in kind (piece_view piece.old) }
    requires to { to ≤ rows_in kind (piece_view piece.old) }
    ensures view { piece_view piece.new ≡ narrowed kind from to (piece_view piece.old) }
    ensures piece { IsSound piece.new }
    ensures same { IsSamePiece piece.old piece.new }
{
    let Some(span) = piece.span(kind) else {
        return;
    };
    let span = narrow_span(span, from, to);
    match kind {
        Kind::Video => piece.video = Some(span),
        Kind::Audio => piece.audio = Some(span),
    }
}

// The rows of a span from an index on and before another.
fn narrow_span(span: RowSpan, from: u32, to: u32) -> RowSpan
    requires from { span.from + from < 2 ^ 32 }
    requires to { span.from + to < 2 ^ 32 }
    ensures { result ≡ narrow_span from to span }
{
    RowSpan {
        track: span.track,
        delay: span.delay,
        skip: span.skip,
        from: span.from + from,
        to: span.from + from.max(to),
    }
}
