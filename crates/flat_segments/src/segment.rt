//! The rows of a segment: where its number stands, which pieces it needs, and what of their samples is in its cell.

ghost use Rattle.std.specs.Prelude.{List, Option, Some, None, nat_lt, ◌+◌, if◌then◌else◌, ◌≢◌, ◌≡◌, ◌≤◌, ◌<◌, ◌^◌, true, false, length, map, IfOk, IfErr, IfSome, IsErrOf, All};
ghost use Rattle.vod_types.specs.declared.refusal.Refusal.TheVariants.{StoreFailed};
ghost use Rattle.vod_types.specs.Lists.{from_first};
ghost use Rattle.vod_types.specs.Results.{Answers};
ghost use Rattle.clip_model.specs.IsTimeline.{IsPiece, IsTime};
ghost use Rattle.segment_model.specs.Lone.{lone_cell};
ghost use Rattle.segment_model.specs.Timeline.{timeline};
ghost use Rattle.vod_source.specs.Causes.{Rose};
ghost use Rattle.vod_source.specs.Stored.{Files};
ghost use Rattle.origin_model.specs.Loaded.{CheckedPiece};
ghost use Rattle.origin_model.specs.Plans.{planned_segment};
ghost use Rattle.origin_model.specs.Sources.{is_declared, source_piece};
ghost use Rattle.vod_source.specs.Calls.{Came};
ghost use Rattle.flat_samples.specs.Rows.{part_rows, ArePlacedRows};
ghost use Rattle.answer_laws.specs.Refusals.{IsPathRefusal};
ghost use Rattle.flat_segments.specs.Cells.{part_grid_of};
ghost use Rattle.flat_segments.specs.Needed.{AreNeeded, AreOfPart, AreTyped};
ghost use Rattle.flat_segments.specs.Planned.{cutting_of, form_of, piece_ends_after, place_among, planned_wanted, segment_turns, wanted_rows as wanted_rows_of};
ghost use Rattle.flat_segments.specs.RowFaults.{EndsLow};
ghost use Rattle.flat_segments.specs.Segments.{facts_of, file_of, flat_plan, AreWritableBy, SizesAreTrue};

use crate::cells::{PartCells, length_of};
use crate::lone_iframe::checked_iframe;
use crate::needed::{Needed, NeededFile, needed_of};
use crate::parts::{Cut, counts_of, is_declared, part_at, parts_of, sum_of};
use crate::rows::{FlatRows, checked_rows};
use clip_model::Piece;
use flat_samples::PartRows;
use segmenter::{cells, locate};
use std::alloc::Global;
use vod_source::Store;
use vod_types::{Asked, Form, Refusal};

/// What is wanted of a segment: all of its rows in a form, or of its transport stream the I-frame of an index from 1 alone.
#[derive(Clone, Copy)]
pub(crate) enum Wanted {
    Whole(Form),
    Iframe(u32),
}

/// The rows of the segment of a number in a form.
///
/// Where all lengths are declared, `TooManySegments` and `NoSegment` come before any movie is read, else right after the
/// checks of the one piece. Then come the first fault of a needed piece, and the refusals for the rows.
pub fn segment_rows<S: Store>(
    alloc: Global,
    files: &mut S,
    cut: Cut<'_>,
    asked: Asked,
    number: u32,
    form: Form,
) -> Result<FlatRows, Refusal>
    ensures told { IfSome (S.content files.old) (λ known.
        Came flat_plan result (planned_segment (cutting_of known cut.entry.grid.now cut.entry.align cut.entry.edits) asked cut.entry.timeline.now number form)
        (segment_turns (cutting_of known cut.entry.grid.now cut.entry.align cut.entry.edits) asked cut.entry.timeline.now number) (S.log files.old) (S.log files.new)) }
    ensures writable { IfOk result (λ rows. AreWritableBy form asked (S.content files.new) rows) }
    ensures content { S.content files.new ≡ S.content files.old }
    ensures later { S.faults files.old ≤ S.faults files.new }
    ensures store_failed { IsErrOf result StoreFailed → Rose (S.faults files.old) (S.faults files.new) }
    ensures refused { IfErr result IsPathRefusal }
{
    wanted_segment(alloc, files, cut, asked, number, Wanted::Whole(form))
}

/// What is wanted of the segment of a number.
pub(crate) fn wanted_segment<S: Store>(
    alloc: Global,
    files: &mut S,
    cut: Cut<'_>,
    asked: Asked,
    number: u32,
    wanted: Wanted,
) -> Result<FlatRows, Refusal>
    ensures told { IfSome (S.content files.old) (λ known.
        Came flat_plan result (planned_wanted (cutting_of known cut.entry.grid.now cut.entry.align cut.entry.edits) asked cut.entry.timeline.now number wanted)
        (segment_turns (cutting_of known cut.entry.grid.now cut.entry.align cut.entry.edits) asked cut.entry.timeline.now number) (S.log files.old) (S.log files.new)) }
    ensures writable { IfOk result (λ rows. AreWritableBy (form_of wanted) asked (S.content files.new) rows) }
    ensures content { S.content files.new ≡ S.content files.old }
    ensures later { S.faults files.old ≤ S.faults files.new }
    ensures store_failed { IsErrOf result StoreFailed → Rose (S.faults files.old) (S.faults files.new) }
    ensures refused { IfErr result IsPathRefusal }
{
    if is_declared(parts_of(cut.timeline)) {
        declared_segment(alloc, files, cut, asked, number, wanted)
    } else {
        open_segment(alloc, files, cut, asked, number, wanted)
    }
}

// The rows of a segment where all lengths are declared.
fn declared_segment<S: Store>(
    alloc: Global,
    files: &mut S,
    cut: Cut<'_>,
    asked: Asked,
    number: u32,
    wanted: Wanted,
) -> Result<FlatRows, Refusal>
    requires declared { is_declared cut.timeline.now ≡ true }
    ensures told { IfSome (S.content files.old) (λ known.
        Came flat_plan result (planned_wanted (cutting_of known cut.entry.grid.now cut.entry.align cut.entry.edits) asked cut.entry.timeline.now number wanted)
        (segment_turns (cutting_of known cut.entry.grid.now cut.entry.align cut.entry.edits) asked cut.entry.timeline.now number) (S.log files.old) (S.log files.new)) }
    ensures writable { IfOk result (λ rows. AreWritableBy (form_of wanted) asked (S.content files.new) rows) }
    ensures content { S.content files.new ≡ S.content files.old }
    ensures later { S.faults files.old ≤ S.faults files.new }
    ensures store_failed { IsErrOf result StoreFailed → Rose (S.faults files.old) (S.faults files.new) }
    ensures refused { IfErr result IsPathRefusal }
{
    let counts = match counts_of(alloc, cut.grid, parts_of(cut.timeline)) {
        Ok(counts) => counts,
        Err(refusal) => return Err(refusal),
    };
    let (place, k) = match place_among(&counts, number) {
        Ok(place) => place,
        Err(refusal) => return Err(refusal),
    };
    let (part, pieces) = part_at(cut.timeline, place);
    let cells = cut.cells(&part, counts[place as usize]);
    let pieces = ending_after(pieces, cells.time(k));
    match needed_of(alloc, files, cut.edits, asked, pieces, next_cell(cells, k)) {
        Ok(needed) => cell_rows(alloc, &cells, k, number, wanted, asked, needed),
        Err(refusal) => Err(refusal),
    }
}

// The rows of a segment of a timeline of one part and one piece, whose length is not declared.
fn open_segment<S: Store>(
    alloc: Global,
    files: &mut S,
    cut: Cut<'_>,
    asked: Asked,
    number: u32,
    wanted: Wanted,
) -> Result<FlatRows, Refusal>
    requires declared { is_declared cut.timeline.now ≡ false }
    ensures told { IfSome (S.content files.old) (λ known.
        Came flat_plan result (planned_wanted (cutting_of known cut.entry.grid.now cut.entry.align cut.entry.edits) asked cut.entry.timeline.now number wanted)
        (segment_turns (cutting_of known cut.entry.grid.now cut.entry.align cut.entry.edits) asked cut.entry.timeline.now number) (S.log files.old) (S.log files.new)) }
    ensures writable { IfOk result (λ rows. AreWritableBy (form_of wanted) asked (S.content files.new) rows) }
    ensures content { S.content files.new ≡ S.content files.old }
    ensures later { S.faults files.old ≤ S.faults files.new }
    ensures store_failed { IsErrOf result StoreFailed → Rose (S.faults files.old) (S.faults files.new) }
    ensures refused { IfErr result IsPathRefusal }
{
    let (part, pieces) = part_at(cut.timeline, 0);
    let needed = match needed_of(alloc, files, cut.edits, asked, pieces, None) {
        Ok(needed) => needed,
        Err(refusal) => return Err(refusal),
    };
    let count = cells(cut.grid, length_of(part.start, &needed.rows.lead));
    match place_among(&[count], number) {
        Ok((_, k)) => cell_rows(
            alloc,
            &cut.cells(&part, count),
            k,
            number,
            wanted,
            asked,
            needed,
        ),
        Err(refusal) => Err(refusal),
    }
}

// The cell behind a cell, where the part has one.
fn next_cell<'a>(cells: PartCells<'a>, k: u64) -> Option<(PartCells<'a>, u64)>
    requires { k < 100000 }
    ensures { result ≡ (if nat_lt (k + 1) cells.entry.cells then Some (cells.entry, k + 1) else None) }
{
    if k + 1 < cells.cells {
        Some((cells, k + 1))
    } else {
        None
    }
}

// The part, counted from 0, in which a number stands, and its cell in that part, counted from 0.
fn place_among(counts: &[u64], number: u32) -> Result<(u32, u64), Refusal>
    requires few { length counts.now ≤ 128 }
    requires bounded { All (λ count. count ≤ 2 ^ 42) counts.now }
    ensures place { result ≡ place_among counts.now number }
    ensures not_failed { IfErr result (λ refusal. refusal ≢ StoreFailed) }
    ensures part { IfOk result (λ place. place.0 < length counts.now) }
    ensures cell { IfOk result (λ place. place.1 < 100000) }
    ensures refused { IfErr result IsPathRefusal }
{
    let all = sum_of(counts);
    if all > 100_000 {
        return Err(Refusal::TooManySegments { cells: all });
    }
    match locate(counts, number) {
        Some(place) => Ok(place),
        None => Err(Refusal::NoSegment { number, cells: all }),
    }
}

// The pieces from the first that ends after a time.
fn ending_after<'a>(pieces: &'a [Piece], time: i64) -> &'a [Piece]
    requires { All IsPiece pieces.now }
    ensures pieces { result.now ≡ from_first (piece_ends_after time) pieces.now }
    ensures each { All IsPiece result.now }
    ensures few { length result.now ≤ length pieces.now }
{
    for (place, piece) in pieces.iter().enumerate() {
        if ends_after(piece, time) {
            return &pieces[place..];
        }
    }
    &pieces[pieces.len()..]
}

fn ends_after(piece: &Piece, time: i64) -> bool
    requires { IsPiece piece.now }
    ensures { result ≡ piece_ends_after time piece.now }
{
    match piece.hi {
        Some(hi) => time < piece.base + hi,
        None => true,
    }
}

// The rows of a cell of a part, over the pieces that it needs.
fn cell_rows(
    alloc: Global,
    cells: &PartCells<'_>,
    k: u64,
    number: u32,
    wanted: Wanted,
    asked: Asked,
    needed: Needed,
) -> Result<FlatRows, Refusal>
    requires few { k < 100000 }
    requires start { IsTime cells.now.start }
    requires of { AreOfPart asked needed }
    ensures writable { IfOk result (λ rows. (content : Option Files) → IfSome content (λ known. SizesAreTrue known needed.files.items) →
        AreWritableBy (form_of wanted) asked content rows) }
    ensures not_failed { IfErr result (λ refusal. refusal ≢ StoreFailed) }
    ensures answers { (pieces : List CheckedPiece) → AreNeeded pieces needed →
        Answers flat_plan result (wanted_rows_of number wanted asked pieces (lone_cell (part_grid_of cells.now) (timeline (map source_piece pieces)) k)) }
    ensures refused { IfErr result IsPathRefusal }
{
    let Needed { files, rows } = needed;
    match cells.rows_of(alloc, &rows, k) {
        Ok(rows) => wanted_rows(alloc, number, wanted, asked, files, &rows),
        Err(refusal) => Err(refusal),
    }
}

// Those of the rows of a cell that are wanted.
fn wanted_rows(
    alloc: Global,
    number: u32,
    wanted: Wanted,
    asked: Asked,
    files: Vec<NeededFile>,
    rows: &PartRows,
) -> Result<FlatRows, Refusal>
    requires placed { ArePlacedRows (part_rows rows.now) }
    requires typed { AreTyped asked files.items }
    ensures answers { (pieces : List CheckedPiece) → map file_of pieces ≡ map facts_of files.items →
        Answers flat_plan result (wanted_rows_of number wanted asked pieces (part_rows rows.now)) }
    ensures video_ends { IfOk result (λ r. All EndsLow r.video.items) }
    ensures audio_ends { IfOk result (λ r. All EndsLow r.audio.items) }
    ensures files { IfOk result (λ r. r.files ≡ files) }
{
    match wanted {
        Wanted::Whole(form) => checked_rows(alloc, number, form, asked, files, rows),
        Wanted::Iframe(index) => checked_iframe(alloc, number, index, asked, files, rows),
    }
}
