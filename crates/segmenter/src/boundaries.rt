//! Boundaries and numbers of cells. Times are milliseconds from a part's start.

ghost use Rattle.std.specs.Prelude.{◌≡◌, ◌+◌, ◌*◌, ◌≤◌, ◌^◌, length, sum};
ghost use Rattle.segment_model.specs.Grid.{boundary as boundary_of, cells as cells_of};
ghost use Rattle.segmenter.specs.Reached.{IsReached};

use crate::Grid;
use vod_types::Policy;

/// Where the cell `k`, counted from 0, begins. No cell lasts longer than 600,000 ms.
pub fn boundary(grid: &Grid, k: u64) -> u64
    requires { k ≤ 2 ^ 40 }
    ensures value { result ≡ boundary_of grid.now k }
    ensures bounded { result ≤ k * 600000 }
    ensures short { boundary_of grid.now (k + 1) ≤ boundary_of grid.now k + 600000 }
{
    let first = grid.bootstrap.len().min(k as usize);
    let steps = k.saturating_sub(grid.bootstrap.len() as u64);
    total(&grid.bootstrap[..first]) + steps * u64::from(grid.step)
}

// The sum of a few durations.
fn total(durations: &[u32]) -> u64
    requires { length durations.now ≤ 16 }
    ensures { result ≡ sum durations.now }
{
    durations.iter().map(|duration| u64::from(*duration)).sum()
}

/// The number of cells of a part of `ms` milliseconds.
pub fn cells(grid: &Grid, ms: u64) -> u64
    ensures { result ≡ cells_of grid.now ms }
{
    if ms == 0 {
        return 0;
    }
    let last = last_reached(grid, ms);
    match grid.policy {
        Policy::LastShort if last.rest == 0 => last.cell,
        Policy::LastShort => last.cell + 1,
        Policy::LastLong => last.cell.max(1),
        Policy::LastRounded if last.rest * 2 >= last.duration => last.cell + 1,
        Policy::LastRounded => last.cell.max(1),
    }
}

// A cell, how much of a length is behind its boundary, and its duration.
#[derive(Clone, Copy)]
struct Reached {
    cell: u64,
    rest: u64,
    duration: u64,
}

// The last cell that begins at or before the end of a length.
fn last_reached(grid: &Grid, ms: u64) -> Reached
    ensures { IsReached grid.now ms result.cell result.rest result.duration }
{
    let mut rest = ms;
    for (cell, duration) in grid.bootstrap.iter().enumerate() {
        let duration = u64::from(*duration);
        if rest < duration {
            return Reached {
                cell: cell as u64,
                rest,
                duration,
            };
        }
        rest -= duration;
    }
    let step = u64::from(grid.step);
    Reached {
        cell: grid.bootstrap.len() as u64 + rest / step,
        rest: rest % step,
        duration: step,
    }
}
