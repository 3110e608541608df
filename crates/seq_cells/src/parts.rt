//! The parts of a timeline: how they are cut, the pieces of each, and the numbers of their cells.

ghost use Rattle.std.specs.Prelude.{◌≡◌, ◌≤◌, ◌<◌, ◌^◌, is_some, length, slice_get, sum, IfOk, IfErr, All};
ghost use Rattle.std.specs.List.{list_all};
ghost use Rattle.vod_types.specs.declared.refusal.Refusal.TheVariants.{NoMemory};
ghost use Rattle.clip_model.specs.IsTimeline.{IsTimeline, IsPart, IsPiece, IsTime};
ghost use Rattle.origin_model.specs.Sources.{part_pieces};
ghost use Rattle.seq_cells.specs.Cells.{declared_counts, part_grid_of};

use crate::cells::PartCells;
use clip_model::{Part, Piece};
use segmenter::{Grid, cells};
use seq_timeline::Timeline;
use std::alloc::Global;
use vod_types::Refusal;

/// How the parts of a timeline are cut: by the grid, at sync samples alone or not, with the edit lists of the files or without.
#[derive(Clone, Copy)]
pub struct Cut<'a> {
    pub timeline: &'a Timeline,
    pub grid: &'a Grid,
    pub align: bool,
    pub edits: bool,
}

impl<'a> Cut<'a> {
    /// How a part with so many cells is cut.
    pub fn cells(&self, part: &Part, cells: u64) -> PartCells<'a>
        ensures { part_grid_of result ≡ record { grid = self.now.grid.now; align = self.now.align; start = part.now.start; cells = cells } }
    {
        PartCells {
            grid: self.grid,
            align: self.align,
            start: part.start,
            cells,
        }
    }
}

/// The parts in order.
pub fn parts_of(timeline: &Timeline) -> &[Part]
    ensures parts { result.now ≡ timeline.now.parts }
    ensures kept { IsTimeline timeline.now.pieces timeline.now.parts }
{
    &timeline.parts
}

/// Whether all lengths are declared.
pub fn is_declared(parts: &[Part]) -> bool
    ensures { result ≡ list_all (λ part. is_some part.length_ms) parts.now }
{
    parts.iter().all(|part| part.length_ms.is_some())
}

/// A part by its place from 0, with its pieces.
pub fn part_at(timeline: &Timeline, place: u32) -> (Part, &[Piece])
    requires { place < length timeline.now.parts }
    ensures part { slice_get timeline.now.parts place ≡ Some result.0 }
    ensures pieces { result.1.now ≡ part_pieces timeline.now result.0 }
    ensures start { IsTime result.0.start }
    ensures each { All IsPiece result.1.now }
    ensures few { length result.1.now ≤ 1024 }
    ensures kept { IsTimeline timeline.now.pieces timeline.now.parts }
{
    let part = timeline.parts[place as usize];
    let first = part.first as usize;
    (part, &timeline.pieces[first..first + part.count as usize])
}

/// The number of cells of each part, all of whose lengths are declared. The only refusal is `NoMemory`.
pub fn counts_of(alloc: Global, grid: &Grid, parts: &[Part]) -> Result<Vec<u64>, Refusal>
    requires { All IsPart parts.now }
    ensures counts { IfOk result (λ counts. counts.items ≡ declared_counts grid.now parts.now) }
    ensures bounded { IfOk result (λ counts. All (λ count. count ≤ 2 ^ 42) counts.items) }
    ensures many { IfOk result (λ counts. length counts.items ≡ length parts.now) }
    ensures only { IfErr result (λ refusal. refusal ≡ NoMemory) }
{
    let mut counts = Vec::new(alloc);
    for part in parts {
        counts.push(cells(grid, part.length_ms.unwrap_or(0)))?;
    }
    Ok(counts)
}

/// The sum of the numbers of cells of at most 128 parts.
pub fn sum_of(counts: &[u64]) -> u64
    requires few { length counts.now ≤ 128 }
    requires bounded { All (λ count. count ≤ 2 ^ 42) counts.now }
    ensures { result ≡ sum counts.now }
{
    let mut all = 0;
    for count in counts {
        all += *count;
    }
    all
}
