//! The cells of a part, and what of its rows is in one.

ghost use Rattle.std.specs.Prelude.{◌≡◌, ◌≤◌, ◌&&◌, ◌||◌, All, IfOk, IfErr, filter, int_le, length, map, not, option_map, slice_get};
ghost use Rattle.std.specs.List.{list_any, position};
ghost use Rattle.vod_types.specs.declared.refusal.Refusal.TheVariants.{NoMemory};
ghost use Rattle.clip_model.specs.IsTimeline.{IsTime};
ghost use Rattle.segment_model.specs.Grid.{cell_time, may_begin, milliseconds};
ghost use Rattle.segment_model.specs.Lone.{first_row, lone_cell};
ghost use Rattle.segment_model.specs.Timeline.{lead_end};
ghost use Rattle.flat_segments.specs.Cells.{is_past as is_past_of};
ghost use Rattle.flat_samples.specs.Rows.{timed_view, part_rows, IsPlacedRow};
ghost use Rattle.flat_segments.specs.Cells.{part_grid_of};

use flat_samples::{PartRows, TimedSample};
use segmenter::Grid;
use std::alloc::Global;
use vod_types::Refusal;

/// How a part is cut: by the grid, with alignment or without, from its start in 1/90000 s, into so many cells.
#[derive(Clone, Copy)]
pub struct PartCells<'a> {
    pub grid: &'a Grid,
    pub align: bool,
    pub start: i64,
    pub cells: u64,
}

impl PartCells<'_> {
    /// The boundary of a cell from 0, in 1/90000 s.
    pub fn time(&self, k: u64) -> i64
        requires few { k ≤ 100001 }
        requires start { IsTime self.now.start }
        ensures { result ≡ cell_time (part_grid_of self.now) k }
    {
        self.start + 90 * segmenter::boundary(self.grid, k) as i64
    }

    /// Whether one of these lead rows may begin the cell.
    pub fn begins(&self, k: u64, lead: &[TimedSample]) -> bool
        requires few { k ≤ 100001 }
        requires start { IsTime self.now.start }
        ensures { result ≡ list_any (may_begin (part_grid_of self.now) k) (map timed_view lead.now) }
    {
        self.first_from(self.time(k), lead).is_some()
    }

    /// The index of the first of these lead rows with which a cell may begin whose boundary is at this time.
    pub fn first_from(&self, time: i64, lead: &[TimedSample]) -> Option<usize>
        ensures { result ≡ position (λ r. int_le time r.place && (not self.now.align || r.sync)) lead.now }
    {
        lead.iter()
            .position(|row| time <= row.place && (!self.align || row.sync))
    }

    // The index of the first lead row of a cell, or the count where the cell begins behind them.
    fn first(&self, k: u64, lead: &[TimedSample]) -> usize
        requires few { k ≤ 100001 }
        requires start { IsTime self.now.start }
        ensures index { result ≡ first_row (part_grid_of self.now) (map timed_view lead.now) k }
        ensures within { result ≤ length lead.now }
    {
        if k >= self.cells {
            return lead.len();
        }
        self.first_from(self.time(k), lead).unwrap_or(lead.len())
    }

    /// The rows of the cell `k`, from 0. The only refusal is `NoMemory`.
    pub fn rows_of(&self, alloc: Global, rows: &PartRows, k: u64) -> Result<PartRows, Refusal>
        requires few { k ≤ 100000 }
        requires start { IsTime self.now.start }
        ensures rows { IfOk result (λ cell. part_rows cell ≡ lone_cell (part_grid_of self.now) (part_rows rows.now) k) }
        ensures only { IfErr result (λ refusal. refusal ≡ NoMemory) }
    {
        let lead = rows.lead.as_slice();
        let from = self.first(k, lead);
        let next = self.first(k + 1, lead);
        let Ok(own) = Vec::from_slice(alloc, &lead[from..next.max(from)]) else {
            return Err(Refusal::NoMemory);
        };
        let other = between(alloc, &rows.other, time_at(lead, from), time_at(lead, next))?;
        Ok(PartRows { lead: own, other })
    }
}

/// The time of the row of an index; there is none behind the last row.
pub fn time_at(rows: &[TimedSample], index: usize) -> Option<i64>
    ensures { result ≡ option_map (λ r. r.place) (slice_get (map timed_view rows.now) index) }
{
    rows.get(index).map(|row| row.place)
}

/// Whether a time isn't before a bound; an absent bound is behind every time.
pub fn is_past(bound: Option<i64>, time: i64) -> bool
    ensures { result ≡ is_past_of bound time }
{
    bound.is_some_and(|bound| bound <= time)
}

// The rows from a time on and before another, each of which may be behind all.
fn between(
    alloc: Global,
    rows: &[TimedSample],
    from: Option<i64>,
    to: Option<i64>,
) -> Result<Vec<TimedSample>, Refusal>
    ensures rows { IfOk result (λ v. v.items ≡ filter (λ r. is_past_of from r.place && not (is_past_of to r.place)) rows.now) }
    ensures only { IfErr result (λ refusal. refusal ≡ NoMemory) }
{
    match rows
        .iter()
        .filter(|row| is_past(from, row.place) && !is_past(to, row.place))
        .copied()
        .collect(alloc)
    {
        Ok(rows) => Ok(rows),
        Err(_) => Err(Refusal::NoMemory),
    }
}

/// The length of a part in milliseconds, rounded up, by the end of its lead rows.
pub fn length_of(start: i64, lead: &[TimedSample]) -> u64
    requires start { IsTime start }
    requires placed { All IsPlacedRow (map timed_view lead.now) }
    ensures { result ≡ milliseconds (lead_end start (map timed_view lead.now)) }
{
    milliseconds_of(end_of_lead(start, lead))
}

/// Where the last lead row ends, and the start of the part where there is none.
pub fn end_of_lead(start: i64, lead: &[TimedSample]) -> i64
    requires { All IsPlacedRow (map timed_view lead.now) }
    ensures { result ≡ lead_end start (map timed_view lead.now) }
{
    match lead.last() {
        Some(row) => row.place + row.duration as i64,
        None => start,
    }
}

// A time in milliseconds, rounded up; none where it is before 0.
fn milliseconds_of(time: i64) -> u64
    ensures { result ≡ milliseconds time }
{
    if time < 0 { 0 } else { (time as u64 + 89) / 90 }
}
