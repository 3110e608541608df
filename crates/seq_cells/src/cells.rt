//! The cells of a part.

ghost use Rattle.std.specs.Prelude.{◌≡◌, ◌+◌, ◌<◌, ◌≤◌, ◌^◌, if◌then◌else◌, nat_lt, unsigned_abs, None, Some};
ghost use Rattle.clip_model.specs.IsTimeline.{IsTime};
ghost use Rattle.segment_model.specs.Grid.{cell_time, cells as cells_of, milliseconds};
ghost use Rattle.seq_cells.specs.Cells.{part_grid_of};

use segmenter::Grid;

/// How a part is cut: by the grid, with alignment or without, from its start in 1/90000 s, into so many cells.
#[derive(Clone, Copy)]
pub struct PartCells<'a> {
    pub grid: &'a Grid,
    pub align: bool,
    pub start: i64,
    pub cells: u64,
}

impl<'a> PartCells<'a> {
    /// The boundary of a cell from 0, in 1/90000 s.
    pub fn time(&self, k: u64) -> i64
        requires few { k ≤ 100001 }
        requires start { IsTime self.now.start }
        ensures time { result ≡ cell_time (part_grid_of self.now) k }
        ensures bound { unsigned_abs result ≤ 2 ^ 61 }
    {
        self.start + 90 * segmenter::boundary(self.grid, k) as i64
    }

    /// The cell behind a cell, where the part has one.
    pub fn next(self, k: u64) -> Option<(PartCells<'a>, u64)>
        requires { k < 100000 }
        ensures { result ≡ (if nat_lt (k + 1) self.entry.cells then Some (self.entry, k + 1) else None) }
    {
        if k + 1 < self.cells {
            Some((self, k + 1))
        } else {
            None
        }
    }
}

/// The number of cells of a part without a declared length, whose lead rows end at this time in 1/90000 s: by that length in
/// milliseconds, rounded up.
pub fn open_cells(grid: &Grid, end: i64) -> u64
    requires { unsigned_abs end ≤ 2 ^ 43 }
    ensures count { result ≡ cells_of grid.now (milliseconds end) }
    ensures bounded { result ≤ 2 ^ 42 }
{
    segmenter::cells(grid, milliseconds_of(end))
}

// A time in milliseconds, rounded up; none where it is before 0.
fn milliseconds_of(time: i64) -> u64
    ensures { result ≡ milliseconds time }
{
    if time < 0 { 0 } else { (time as u64 + 89) / 90 }
}
