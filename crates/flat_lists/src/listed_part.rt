//! The listed segments of a part.

ghost use Rattle.std.specs.Prelude.{◌≡◌, ◌++◌, ◌+◌, ◌≤◌, ◌<◌, ◌^◌, [], ◌∷◌, ◌==◌, All, IfErr, OnOk, ℤ, cond, length, map, nat_lt, unsigned_abs};
ghost use Rattle.std.specs.List.{position, position_or_len};
ghost use Rattle.vod_types.specs.declared.refusal.Refusal.TheVariants.{NoMemory};
ghost use Rattle.clip_model.specs.IsTimeline.{IsTime};
ghost use Rattle.segment_model.specs.Laws.{PlaceRises};
ghost use Rattle.segment_model.specs.Lone.{first_row, lone_segments};
ghost use Rattle.flat_lists.specs.ListedCells.{slices_view, other_from, counted, row_time, segment_between};
ghost use Rattle.segment_model.specs.Listing.{listed_view};
ghost use Rattle.flat_lists.specs.Listings.{HasPart};
ghost use Rattle.flat_segments.specs.Cells.{part_grid_of};
ghost use Rattle.flat_samples.specs.Rows.{ArePlacedRows};
ghost use Rattle.flat_segments.specs.Cells.{is_past as is_past_of};

use flat_samples::TimedSample;
use flat_segments::{PartCells, end_of_lead, is_past, time_at};
use vod_types::{Kind, Listed, Refusal, SegmentRow};

/// Samples of the lead track and of the other asked track, in order.
#[derive(Clone, Copy)]
pub(crate) struct RowSlices<'a> {
    pub(crate) lead: &'a [TimedSample],
    pub(crate) other: &'a [TimedSample],
}

/// A part whose segments are listed: its number from 1, the number of its first cell, the kind of the track that leads,
/// how the part is cut, and its samples.
#[derive(Clone, Copy)]
pub(crate) struct ListedPart<'a> {
    pub(crate) part: u32,
    pub(crate) number: u32,
    pub(crate) leads: Kind,
    pub(crate) cells: PartCells<'a>,
    pub(crate) rows: RowSlices<'a>,
}

/// Where a cell begins: the indices of its first lead row and of its first row of the other track.
#[derive(Clone, Copy)]
pub(crate) struct Begin {
    pub(crate) lead: usize,
    pub(crate) other: usize,
}

impl ListedPart<'_> {
    /// Puts the listed segments of the part behind others. After a refusal, `NoMemory`, some of them may stand there.
    pub(crate) fn list(&self, out: &mut Vec<Listed>) -> Result<(), Refusal>
        requires few { self.now.cells.cells ≤ 100000 }
        requires numbers { self.now.number + self.now.cells.cells < 2 ^ 32 }
        requires start { IsTime self.now.cells.start }
        requires placed { ArePlacedRows (slices_view self.now.rows) }
        requires part { self.now.part ≤ 9999 }
        ensures listed { OnOk result ((s : ℤ) → PlaceRises s (slices_view self.now.rows).lead → PlaceRises s (slices_view self.now.rows).other →
            map listed_view out.new.items ≡ map listed_view out.old.items
            ++ lone_segments self.now.leads self.now.part self.now.number (part_grid_of self.now.cells) (slices_view self.now.rows)) }
        ensures parts { OnOk result (All HasPart out.old.items → All HasPart out.new.items) }
        ensures only { IfErr result (λ refusal. refusal ≡ NoMemory) }
    {
        let others = out.len();
        let mut from = self.begin(0, Begin { lead: 0, other: 0 });
        for k in 0..self.cells.cells {
            let next = self.begin(k + 1, from);
            self.list_cell(k, from, next, others, out)?;
            from = next;
        }
        Ok(())
    }

    // Puts the segment of a cell behind others, if it is listed. So many of these are of other parts.
    fn list_cell(
        &self,
        k: u64,
        from: Begin,
        next: Begin,
        others: usize,
        out: &mut Vec<Listed>,
    ) -> Result<(), Refusal>
        requires number { self.now.number + k < 2 ^ 32 }
        requires order { from.other ≤ next.other }
        requires start { IsTime self.now.cells.start }
        requires placed { ArePlacedRows (slices_view self.now.rows) }
        requires part { self.now.part ≤ 9999 }
        ensures row { OnOk result (map listed_view out.new.items ≡ map listed_view out.old.items ++ cond (nat_lt from.lead next.lead)
            (segment_between self.now.leads self.now.part (self.now.number + k) self.now.cells.start (slices_view self.now.rows) from next (length out.old.items == others) ∷ []) []) }
        ensures parts { OnOk result (All HasPart out.old.items → All HasPart out.new.items) }
        ensures only { IfErr result (λ refusal. refusal ≡ NoMemory) }
    {
        if from.lead < next.lead {
            out.push(self.segment(k, from, next, out.len() == others))?;
        }
        Ok(())
    }

    // The segment of a cell between where it begins and where the next one does.
    fn segment(&self, k: u64, from: Begin, next: Begin, first_in_part: bool) -> Listed
        requires number { self.now.number + k < 2 ^ 32 }
        requires lead { from.lead ≤ next.lead }
        requires other { from.other ≤ next.other }
        requires start { IsTime self.now.cells.start }
        requires placed { ArePlacedRows (slices_view self.now.rows) }
        ensures row { listed_view result ≡ segment_between self.now.leads self.now.part (self.now.number + k) self.now.cells.start (slices_view self.now.rows) from next first_in_part }
        ensures part { result.row.part ≡ self.now.part }
    {
        let start = self.time(from.lead);
        let row = SegmentRow {
            number: self.number + k as u32,
            start,
            length: (self.time(next.lead) - start).unsigned_abs(),
            first_in_part,
            part: self.part,
        };
        counted_row(
            self.leads,
            row,
            (next.lead - from.lead) as u64,
            (next.other - from.other) as u64,
        )
    }

    // The time of a lead row by its index, and the end of the lead track behind the last one.
    fn time(&self, index: usize) -> i64
        requires start { IsTime self.now.cells.start }
        requires placed { ArePlacedRows (slices_view self.now.rows) }
        ensures time { result ≡ row_time self.now.cells.start (slices_view self.now.rows) index }
        ensures small { unsigned_abs result ≤ 2 ^ 43 }
    {
        let end = end_of_lead(self.cells.start, self.rows.lead);
        time_at(self.rows.lead, index).unwrap_or(end)
    }

    // Where a cell begins, if that isn't before where an earlier one does.
    fn begin(&self, k: u64, earlier: Begin) -> Begin
        requires few { k ≤ 100001 }
        requires start { IsTime self.now.cells.start }
        requires lead { earlier.lead ≤ length self.now.rows.lead.now }
        requires other { earlier.other ≤ length self.now.rows.other.now }
        ensures later { earlier.other ≤ result.other }
        ensures lead_within { result.lead ≤ length self.now.rows.lead.now }
        ensures other_within { result.other ≤ length self.now.rows.other.now }
        ensures lead { let due = first_row (part_grid_of self.now.cells) (slices_view self.now.rows).lead k in earlier.lead ≤ due → result.lead ≡ due }
        ensures other { let due = other_from (slices_view self.now.rows) result.lead in earlier.other ≤ due → result.other ≡ due }
    {
        let lead = self.first_lead(k, earlier.lead);
        let other = self.first_other(lead, earlier.other);
        Begin { lead, other }
    }

    // The index of the first lead row of a cell, if that isn't before an earlier one.
    pub(crate) fn first_lead(&self, k: u64, earlier: usize) -> usize
        requires few { k ≤ 100001 }
        requires start { IsTime self.now.cells.start }
        requires earlier { earlier ≤ length self.now.rows.lead.now }
        ensures within { result ≤ length self.now.rows.lead.now }
        ensures row { let due = first_row (part_grid_of self.now.cells) (slices_view self.now.rows).lead k in earlier ≤ due → result ≡ due }
    {
        if k >= self.cells.cells {
            return self.rows.lead.len();
        }
        let later = &self.rows.lead[earlier..];
        earlier
            + self
                .cells
                .first_from(self.cells.time(k), later)
                .unwrap_or(later.len())
    }

    // The index of the first row of the other track that isn't before a lead row, if that isn't before an earlier one.
    fn first_other(&self, lead: usize, earlier: usize) -> usize
        requires earlier { earlier ≤ length self.now.rows.other.now }
        ensures later { earlier ≤ result }
        ensures within { result ≤ length self.now.rows.other.now }
        ensures row { let due = other_from (slices_view self.now.rows) lead in earlier ≤ due → result ≡ due }
    {
        earlier + first_past(time_at(self.rows.lead, lead), &self.rows.other[earlier..])
    }
}

// The index of the first row that isn't before a bound, or the count where there is none.
fn first_past(bound: Option<i64>, rows: &[TimedSample]) -> usize
    ensures index { result ≡ position_or_len (λ r. is_past_of bound r.place) rows.now }
    ensures within { result ≤ length rows.now }
{
    past_at(bound, rows).unwrap_or(rows.len())
}

fn past_at(bound: Option<i64>, rows: &[TimedSample]) -> Option<usize>
    ensures { result ≡ position (λ r. is_past_of bound r.place) rows.now }
{
    rows.iter().position(|row| is_past(bound, row.place))
}

// A segment with its numbers of samples of the lead track and of the other one.
fn counted_row(leads: Kind, row: SegmentRow, lead: u64, other: u64) -> Listed
    ensures counted { listed_view result ≡ counted leads row lead other }
    ensures part { result.row.part ≡ row.part }
{
    match leads {
        Kind::Video => Listed {
            row,
            video: lead,
            audio: other,
        },
        Kind::Audio => Listed {
            row,
            video: other,
            audio: lead,
        },
    }
}
