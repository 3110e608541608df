//! The listed segments of a track of a part.

ghost use Rattle.std.specs.Prelude.{◌≡◌, ◌+◌, ◌≤◌, ◌<◌, ◌^◌, All, IfErr, IfOk, IsTrue, length, map, pos};
ghost use Rattle.vod_types.specs.declared.refusal.Refusal.TheVariants.{NoMemory};
ghost use Rattle.clip_model.specs.IsTimeline.{IsTime};
ghost use Rattle.segment_model.specs.Cut.{listed_part};
ghost use Rattle.segment_model.specs.Laws.{AreTimelineRows};
ghost use Rattle.list_model.specs.Manifest.{IsListedRow};
ghost use Rattle.seq_cells.specs.Cells.{part_grid_of};
ghost use Rattle.vod_plan.specs.Narrowed.{IsSound};
ghost use Rattle.vod_plan.specs.Selected.{rows_planned};
ghost use Rattle.vod_plan.specs.Spans.{piece_view};

use seq_cells::PartCells;
use std::alloc::Global;
use std::sync::ledger::Ledger;
use vod_plan::{ListedPart, PlanPiece};
use vod_types::{Kind, Listed, Refusal, SegmentRow, Steps};

/// The listed segments of a track that is asked alone, in a part by its number, where its first cell has this number. The only
/// refusal is `NoMemory`.
pub(crate) fn track_rows<L: Ledger>(
    alloc: Global,
    cells: PartCells<'_>,
    part: u32,
    number: u32,
    kind: Kind,
    pieces: &[PlanPiece],
    steps: &mut Steps<L>,
) -> Result<Vec<SegmentRow>, Refusal>
    requires few { cells.cells ≤ 100000 }
    requires numbers { number + cells.cells < 2 ^ 32 }
    requires start { IsTime cells.start }
    requires sound { All IsSound pieces.now }
    requires many { length pieces.now ≤ 1024 }
    requires order { AreTimelineRows (pos 0) (rows_planned kind (map piece_view pieces.now)) }
    requires part { part ≤ 9999 }
    ensures rows { IfOk result (λ out. out.items ≡ map (λ l. l.0) (listed_part kind part number (part_grid_of cells.entry) (rows_planned kind (map piece_view pieces.now)))) }
    ensures times { IfOk result (λ out. All IsListedRow out.items) }
    ensures only { IfErr result (λ refusal. refusal ≡ NoMemory) }
{
    let own = ListedPart {
        part,
        number,
        leads: kind,
        cells,
        pieces,
    };
    let mut listed = Vec::new(alloc);
    own.list(&mut listed, steps)?;
    rows_of(alloc, &listed)
}

// The rows of listed segments, of which none has a time that no description can have.
fn rows_of(alloc: Global, listed: &[Listed]) -> Result<Vec<SegmentRow>, Refusal>
    ensures rows { IfOk result (λ rows. rows.items ≡ map (λ l. l.row) listed.now) }
    ensures times { IfOk result (λ rows. All IsListedRow rows.items) }
    ensures only { IfErr result (λ refusal. refusal ≡ NoMemory) }
{
    let mut rows = Vec::new(alloc);
    for segment in listed {
        if !is_written(segment.row) {
            return Err(Refusal::NoMemory);
        }
        rows.push(segment.row)?;
    }
    Ok(rows)
}

// Whether a description can have its times, as it can those of all segments.
fn is_written(row: SegmentRow) -> bool
    ensures { IsTrue result → IsListedRow row }
{
    row.start >= 0 && row.start <= 1 << 62 && row.length <= 1 << 62
}
