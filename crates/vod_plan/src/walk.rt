//! A walk over the rows of a kind.

ghost use Rattle.std.specs.Prelude.{◌≡◌, ◌+◌, ◌*◌, ◌<◌, ◌≤◌, List, length, map, slice_get, All, IfSome, IsSome, MatchOption, Some};
ghost use Rattle.vod_types.specs.declared.tracks.Kind.{Kind};
ghost use Rattle.mp4_model.specs.Samples.{flat_row};
ghost use Rattle.segment_model.specs.Rows.{timed_row, written_row};
ghost use Rattle.segment_model.specs.Timeline.{placed};
ghost use Rattle.origin_model.specs.Sources.{source_track};
ghost use Rattle.vod_plan.specs.Cuts.{flat_view};
ghost use Rattle.vod_plan.specs.Dues.{due_view, IsDue};
ghost use Rattle.vod_plan.specs.Passes.{looks_of};
ghost use Rattle.vod_plan.specs.Ranges.{planned_of, range_of, PlannedPiece, RowRange};
ghost use Rattle.vod_plan.specs.Spans.{piece_view, rows_before, rows_in, IsPlanPiece};
ghost use Rattle.vod_plan.specs.Walks.{behind, FitsFile, HasNext, IsIn, IsSpot, IsWalk};

use crate::cut::Cut;
use crate::samples::{DueRow, FlatSample, TimedSample};
use crate::spans::PlanPiece;
use chunk_runs::PlaceCursor;
use std::sync::ledger::{Blank, Ledger};
use time_runs::TimeCursor;
use vod_types::{Form, Kind, Row, Steps};

/// How many rows of a kind were given, how many there are, the piece of the next one, and where it stands in the tables of
/// its track. Without cursors no row of the piece was given.
#[derive(Clone, Copy, Debug)]
pub(crate) struct Walk {
    pub(crate) given: u32,
    pub(crate) count: u32,
    pub(crate) piece: u32,
    pub(crate) cursors: Option<(TimeCursor, PlaceCursor)>,
}

impl Walk {
    /// A walk over so many rows, at its first one.
    pub(crate) fn first(count: u32) -> Walk
        ensures walk { (kind : Kind) (pieces : List PlannedPiece) → count ≡ rows_before kind pieces (length pieces) → IsWalk kind pieces result }
        ensures given { result.given ≡ 0 }
        ensures behind { behind result ≡ 0 }
    {
        Walk {
            given: 0,
            count,
            piece: 0,
            cursors: None,
        }
    }

    /// The same walk at its first row.
    pub(crate) fn restarted(self) -> Walk
        ensures given { result.given ≡ 0 }
        ensures walk { (kind : Kind) (pieces : List PlannedPiece) → IsWalk kind pieces self → IsWalk kind pieces result }
    {
        Walk {
            given: 0,
            count: self.count,
            piece: 0,
            cursors: None,
        }
    }
}

/// The piece of a row, and where it stands in the tables of its track.
#[derive(Clone, Copy, Debug)]
pub(crate) struct Spot {
    pub(crate) piece: u32,
    pub(crate) times: TimeCursor,
    pub(crate) places: PlaceCursor,
}

/// The next row of a walk, and the walk behind it, with a counter of its own for the looks at the tables.
pub(crate) fn stepped<L: Ledger>(
    pieces: &[PlanPiece],
    form: Form,
    kind: Kind,
    walk: Walk,
    blank: Blank,
) -> (Row, Walk)
    requires name { blank.name ≡ L.name }
    requires parts { blank.parts ≡ L.parts }
    requires some { 0 < L.parts }
    requires few { length pieces.now ≤ 1024 }
    requires pieces { All IsPlanPiece pieces.now }
    requires fits { All FitsFile (planned_of kind (map piece_view pieces.now)) }
    requires walk { IsWalk kind (map piece_view pieces.now) walk }
    requires left { walk.given < walk.count }
    ensures row { slice_get (map (written_row form) (planned_of kind (map piece_view pieces.now))) walk.given ≡ Some result.0 }
    ensures walk { IsWalk kind (map piece_view pieces.now) result.1 }
    ensures given { result.1.given ≡ walk.given + 1 }
{
    let mut steps = Steps::<L>::start(blank);
    let (due, behind) = due_at(pieces, kind, walk, &mut steps);
    (due.row(form), behind)
}

/// The row that is due in a walk, and the walk behind it.
pub(crate) fn due_at<L: Ledger>(
    pieces: &[PlanPiece],
    kind: Kind,
    walk: Walk,
    steps: &mut Steps<L>,
) -> (DueRow, Walk)
    requires few { length pieces.now ≤ 1024 }
    requires pieces { All IsPlanPiece pieces.now }
    requires walk { IsWalk kind (map piece_view pieces.now) walk }
    requires left { walk.given < walk.count }
    ensures row { slice_get (planned_of kind (map piece_view pieces.now)) walk.given ≡ Some (due_view result.0) }
    ensures due { IsDue result.0 }
    ensures walk { IsWalk kind (map piece_view pieces.now) result.1 }
    ensures given { result.1.given ≡ walk.given + 1 }
    ensures looks { steps.new + looks_of walk ≤ steps.old + looks_of result.1 }
{
    let mut spot = entered(pieces, kind, walk, steps);
    let due = row_at(&pieces[spot.piece as usize], kind, &mut spot, steps);
    let walk = Walk {
        given: walk.given + 1,
        count: walk.count,
        piece: spot.piece,
        cursors: Some((spot.times, spot.places)),
    };
    (due, walk)
}

// Where the next row of a walk stands.
fn entered<L: Ledger>(pieces: &[PlanPiece], kind: Kind, walk: Walk, steps: &mut Steps<L>) -> Spot
    requires few { length pieces.now ≤ 1024 }
    requires pieces { All IsPlanPiece pieces.now }
    requires walk { IsWalk kind (map piece_view pieces.now) walk }
    requires left { walk.given < walk.count }
    ensures spot { IsSpot kind (map piece_view pieces.now) walk.given result }
    ensures looks { steps.new + 384 * behind walk ≤ steps.old + 384 * (result.piece + 1) }
{
    if let Some(spot) = standing(pieces, kind, walk) {
        return spot;
    }
    let piece = next_piece(pieces, kind, behind(walk));
    begin(&pieces[piece as usize], kind, piece, steps)
}

// Where the next row stands, if it is at the cursors.
fn standing(pieces: &[PlanPiece], kind: Kind, walk: Walk) -> Option<Spot>
    requires pieces { All IsPlanPiece pieces.now }
    requires walk { IsWalk kind (map piece_view pieces.now) walk }
    ensures spot { MatchOption result (walk.given ≡ rows_before kind (map piece_view pieces.now) (behind walk)) (IsSpot kind (map piece_view pieces.now) walk.given) }
    ensures behind { behind walk ≤ length pieces.now }
    ensures place { IfSome result (λ spot. spot.piece + 1 ≡ behind walk) }
{
    let Some((times, places)) = walk.cursors else {
        return None;
    };
    if times.row < pieces[walk.piece as usize].range(kind).to {
        return Some(Spot {
            piece: walk.piece,
            times,
            places,
        });
    }
    None
}

// The piece from which on the next row is looked for, where it isn't at the cursors.
fn behind(walk: Walk) -> u32
    requires { walk.piece ≤ 1024 }
    ensures { result ≡ behind walk }
{
    match walk.cursors {
        Some(_) => walk.piece + 1,
        None => walk.piece,
    }
}

// The first piece from one on that has rows of a kind, or the number of pieces.
fn next_piece(pieces: &[PlanPiece], kind: Kind, from: u32) -> u32
    requires few { length pieces.now ≤ 1024 }
    requires pieces { All IsPlanPiece pieces.now }
    requires from { from ≤ length pieces.now }
    ensures within { result ≤ length pieces.now }
    ensures later { from ≤ result }
    ensures same { rows_before kind (map piece_view pieces.now) result ≡ rows_before kind (map piece_view pieces.now) from }
    ensures some { (p : PlanPiece) → slice_get pieces.now result ≡ Some p → 0 < rows_in kind (piece_view p) }
{
    let end = pieces.len() as u32;
    for piece in from..end {
        if pieces[piece as usize].rows(kind) > 0 {
            return piece;
        }
    }
    end
}

// The first row of a kind of a piece.
fn begin<L: Ledger>(piece: &PlanPiece, kind: Kind, place: u32, steps: &mut Steps<L>) -> Spot
    requires piece { IsPlanPiece piece.now }
    requires some { IsSome (range_of kind (piece_view piece.now)) }
    ensures inside { (r : RowRange) → range_of kind (piece_view piece.now) ≡ Some r → IsIn r result.times result.places }
    ensures first { (r : RowRange) → range_of kind (piece_view piece.now) ≡ Some r → result.times.row ≡ r.from }
    ensures place { result.piece ≡ place }
    ensures looks { steps.new ≤ steps.old + 384 }
{
    let row = u64::from(piece.range(kind).from);
    let (_, runs, chunks) = piece.runs(kind);
    let times = runs.cursor(row, steps);
    let places = chunks.cursor(row, steps);
    Spot {
        piece: place,
        times,
        places,
    }
}

// The row at a spot, which goes on to the next one.
fn row_at<L: Ledger>(piece: &PlanPiece, kind: Kind, spot: &mut Spot, steps: &mut Steps<L>) -> DueRow
    requires piece { IsPlanPiece piece.now }
    requires next { HasNext kind (piece_view piece.now) spot.old }
    ensures row { (r : RowRange) → range_of kind (piece_view piece.now) ≡ Some r →
        due_view result ≡ placed spot.old.piece piece.now.base
        (timed_row (source_track kind r.edit (Some r.track)) (spot.old.times.row, flat_row r.track.tables spot.old.times.row)) }
    ensures due { IsDue result }
    ensures inside { (r : RowRange) → range_of kind (piece_view piece.now) ≡ Some r → IsIn r spot.new.times spot.new.places }
    ensures next { spot.new.times.row ≡ spot.old.times.row + 1 }
    ensures same { spot.new.piece ≡ spot.old.piece }
    ensures looks { steps.new ≤ steps.old + 8 }
{
    let number = spot.times.row;
    let file = spot.piece;
    let cut = Cut::new(kind, &piece.range(kind));
    let (timescale, sample) = sample_at(piece, kind, spot, steps);
    DueRow {
        file,
        base: piece.base,
        sample: TimedSample::new(cut, timescale, number, &sample),
    }
}

// The timescale of a track and its sample at a spot, which goes on to the next one.
fn sample_at<L: Ledger>(
    piece: &PlanPiece,
    kind: Kind,
    spot: &mut Spot,
    steps: &mut Steps<L>,
) -> (u32, FlatSample)
    requires piece { IsPlanPiece piece.now }
    requires next { HasNext kind (piece_view piece.now) spot.old }
    ensures timescale { (r : RowRange) → range_of kind (piece_view piece.now) ≡ Some r → result.0 ≡ r.track.timescale }
    ensures sample { (r : RowRange) → range_of kind (piece_view piece.now) ≡ Some r → flat_view result.1 ≡ flat_row r.track.tables spot.old.times.row }
    ensures inside { (r : RowRange) → range_of kind (piece_view piece.now) ≡ Some r → IsIn r spot.new.times spot.new.places }
    ensures next { spot.new.times.row ≡ spot.old.times.row + 1 }
    ensures same { spot.new.piece ≡ spot.old.piece }
    ensures looks { steps.new ≤ steps.old + 8 }
{
    let (timescale, times, places) = piece.runs(kind);
    let (decode_time, composition_offset, delta, sync) = spot.times.next(&times, steps);
    let (offset, size) = spot.places.next(&places, steps);
    let sample = FlatSample {
        offset,
        size,
        decode_time,
        delta,
        composition_offset,
        sync,
    };
    (timescale, sample)
}
