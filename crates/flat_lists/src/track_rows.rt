//! The listed segments of a track of a part.

ghost use Rattle.std.specs.Prelude.{◌≡◌, ◌+◌, ◌≤◌, ◌<◌, ◌^◌, ◌≤ℤ◌, All, IfErr, IfOk, map, pos};
ghost use Rattle.vod_types.specs.declared.refusal.Refusal.TheVariants.{NoMemory};
ghost use Rattle.clip_model.specs.IsTimeline.{IsTime};
ghost use Rattle.segment_model.specs.Cut.{listed_part};
ghost use Rattle.segment_model.specs.Laws.{AreTimelineRows};
ghost use Rattle.list_model.specs.Manifest.{IsListedRow};
ghost use Rattle.flat_samples.specs.Rows.{part_rows, ArePlacedRows};
ghost use Rattle.flat_segments.specs.Cells.{part_grid_of};

use crate::listed_part::{ListedPart, RowSlices};
use flat_samples::PartRows;
use flat_segments::PartCells;
use std::alloc::Global;
use vod_types::{Kind, Listed, Refusal, SegmentRow};

/// The listed segments of a track that is asked alone, in a part by its number, where its first cell has this number. The only
/// refusal is `NoMemory`.
pub(crate) fn track_rows(
    alloc: Global,
    cells: PartCells<'_>,
    part: u32,
    number: u32,
    kind: Kind,
    rows: &PartRows,
) -> Result<Vec<SegmentRow>, Refusal>
    requires few { cells.cells ≤ 100000 }
    requires numbers { number + cells.cells < 2 ^ 32 }
    requires start { IsTime cells.start }
    requires low { pos 0 ≤ℤ cells.start }
    requires placed { ArePlacedRows (part_rows rows.now) }
    requires order { AreTimelineRows (pos 0) (part_rows rows.now) }
    requires part { part ≤ 9999 }
    ensures rows { IfOk result (λ out. out.items ≡ map (λ l. l.0) (listed_part kind part number (part_grid_of cells.entry) (part_rows rows.now))) }
    ensures times { IfOk result (λ out. All IsListedRow out.items) }
    ensures only { IfErr result (λ refusal. refusal ≡ NoMemory) }
{
    let own = ListedPart {
        part,
        number,
        leads: kind,
        cells,
        rows: RowSlices {
            lead: &rows.lead,
            other: &rows.other,
        },
    };
    let mut listed = Vec::new(alloc);
    own.list(&mut listed)?;
    rows_of(alloc, &listed)
}

// The rows of listed segments.
fn rows_of(alloc: Global, listed: &[Listed]) -> Result<Vec<SegmentRow>, Refusal>
    ensures rows { IfOk result (λ rows. rows.items ≡ map (λ l. l.row) listed.now) }
    ensures only { IfErr result (λ refusal. refusal ≡ NoMemory) }
{
    let mut rows = Vec::new(alloc);
    for segment in listed {
        rows.push(segment.row)?;
    }
    Ok(rows)
}
