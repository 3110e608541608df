//! The listed segments of a part, found from cell to cell.

ghost use Rattle.std.specs.Prelude.{◌≡◌, ◌++◌, ◌+◌, ◌*◌, ◌≤◌, ◌<◌, ◌^◌, [], ◌∷◌, ◌==◌, false, All, IfErr, IfSome, OnOk, ℤ, cond, length, map, nat_lt, option_map, slice_get, unsigned_abs, unwrap_or};
ghost use Rattle.vod_types.specs.declared.refusal.Refusal.TheVariants.{NoMemory};
ghost use Rattle.clip_model.specs.IsTimeline.{IsTime};
ghost use Rattle.segment_model.specs.Laws.{PlaceRises};
ghost use Rattle.segment_model.specs.Listing.{listed_view};
ghost use Rattle.segment_model.specs.Lone.{first_row, lone_segments};
ghost use Rattle.segment_model.specs.Timeline.{lead_end};
ghost use Rattle.seq_cells.specs.Cells.{part_grid_of};
ghost use Rattle.vod_plan.specs.ListingCells.{counted, first_after, other_from, part_rows, segment_between, AreFronts, HasPart};
ghost use Rattle.vod_plan.specs.ListingReach.{place_of, IsFront, IsReached};
ghost use Rattle.vod_plan.specs.Narrowed.{other_kind as other_kind_of, IsSound};
ghost use Rattle.vod_plan.specs.Segments.{has_rows as has_rows_of};

use crate::cell::{end_of_lead, other_kind};
use crate::lone::has_rows;
use crate::reach::{Reach, reach_end, reach_time, reached_time};
use crate::spans::PlanPiece;
use seq_cells::PartCells;
use std::sync::ledger::Ledger;
use vod_types::{Kind, Listed, Refusal, SegmentRow, Steps};

/// Where a cell begins: at a lead row and its time in the output, or behind the last one without a time, and at the first row
/// of the other kind that isn't before it.
#[derive(Clone, Copy)]
pub(crate) struct CellStart {
    pub(crate) lead: Reach,
    pub(crate) time: Option<i64>,
    pub(crate) other: Reach,
}

/// A part whose segments are listed: its number from 1, the number of its first cell, the kind of the track that leads, how
/// the part is cut, and its pieces.
#[derive(Clone, Copy)]
pub struct ListedPart<'a> {
    pub part: u32,
    pub number: u32,
    pub leads: Kind,
    pub cells: PartCells<'a>,
    pub pieces: &'a [PlanPiece],
}

impl ListedPart<'_> {
    /// Puts the listed segments of the part behind others; without a lead row there are none, and no look is taken. After a
    /// refusal, `NoMemory`, some of them may stand there.
    pub fn list<L: Ledger>(
        &self,
        out: &mut Vec<Listed>,
        steps: &mut Steps<L>,
    ) -> Result<(), Refusal>
        requires few { length self.now.pieces.now ≤ 1024 }
        requires pieces { All IsSound self.now.pieces.now }
        requires cells { self.now.cells.cells ≤ 100000 }
        requires numbers { self.now.number + self.now.cells.cells < 2 ^ 32 }
        requires start { IsTime self.now.cells.start }
        requires part { self.now.part ≤ 9999 }
        ensures listed { OnOk result ((s : ℤ) → PlaceRises s (part_rows self.now).lead → PlaceRises s (part_rows self.now).other →
            map listed_view out.new.items ≡ map listed_view out.old.items
            ++ lone_segments self.now.leads self.now.part self.now.number (part_grid_of self.now.cells) (part_rows self.now)) }
        ensures count { OnOk result (length out.new.items ≤ length out.old.items + self.now.cells.cells) }
        ensures parts { OnOk result (All HasPart out.old.items → All HasPart out.new.items) }
        ensures only { IfErr result (λ refusal. refusal ≡ NoMemory) }
        ensures looks { steps.new ≤ steps.old + 512 * length self.now.pieces.now + 896 + 640 * self.now.cells.cells }
        ensures none { has_rows_of self.now.leads self.now.pieces.now ≡ false → steps.new ≤ steps.old }
    {
        if !has_rows(self.pieces, self.leads) {
            return Ok(());
        }
        let end = end_of_lead(self.pieces, self.leads, self.cells.start, steps);
        self.list_cells(end, out, steps)
    }

    // The same where the lead ends at a time.
    fn list_cells<L: Ledger>(
        &self,
        end: i64,
        out: &mut Vec<Listed>,
        steps: &mut Steps<L>,
    ) -> Result<(), Refusal>
        requires few { length self.now.pieces.now ≤ 1024 }
        requires pieces { All IsSound self.now.pieces.now }
        requires cells { self.now.cells.cells ≤ 100000 }
        requires numbers { self.now.number + self.now.cells.cells < 2 ^ 32 }
        requires start { IsTime self.now.cells.start }
        requires end { end ≡ lead_end self.now.cells.start (part_rows self.now).lead }
        requires small { unsigned_abs end ≤ 2 ^ 43 }
        requires part { self.now.part ≤ 9999 }
        ensures listed { OnOk result ((s : ℤ) → PlaceRises s (part_rows self.now).lead → PlaceRises s (part_rows self.now).other →
            map listed_view out.new.items ≡ map listed_view out.old.items
            ++ lone_segments self.now.leads self.now.part self.now.number (part_grid_of self.now.cells) (part_rows self.now)) }
        ensures count { OnOk result (length out.new.items ≤ length out.old.items + self.now.cells.cells) }
        ensures parts { OnOk result (All HasPart out.old.items → All HasPart out.new.items) }
        ensures only { IfErr result (λ refusal. refusal ≡ NoMemory) }
        ensures looks { steps.new ≤ steps.old + 512 * length self.now.pieces.now + 640 + 640 * self.now.cells.cells }
    {
        let others = out.len();
        let mut from = self.begin(0, self.front(), steps);
        for k in 0..self.cells.cells {
            let next = self.begin(k + 1, from, steps);
            self.list_cell(k, from, next, end, others, out)?;
            from = next;
        }
        Ok(())
    }

    // Before the first piece.
    fn front(&self) -> CellStart
        ensures fronts { AreFronts self.now.leads self.now.pieces.now result }
        ensures lead { result.lead.before ≡ 0 }
        ensures other { result.other.before ≡ 0 }
    {
        CellStart {
            lead: Reach::new(),
            time: None,
            other: Reach::new(),
        }
    }

    // Puts the segment of a cell behind others, if it is listed. So many of these are of other parts.
    fn list_cell(
        &self,
        k: u64,
        from: CellStart,
        next: CellStart,
        end: i64,
        others: usize,
        out: &mut Vec<Listed>,
    ) -> Result<(), Refusal>
        requires number { self.now.number + k < 2 ^ 32 }
        requires few { length self.now.pieces.now ≤ 1024 }
        requires from { AreFronts self.now.leads self.now.pieces.now from }
        requires next { AreFronts self.now.leads self.now.pieces.now next }
        requires end { unsigned_abs end ≤ 2 ^ 43 }
        requires part { self.now.part ≤ 9999 }
        ensures row { OnOk result (map listed_view out.new.items ≡ map listed_view out.old.items ++ cond (nat_lt (place_of from.lead) (place_of next.lead))
            (segment_between self.now.leads self.now.part (self.now.number + k) end from next (length out.old.items == others) ∷ []) []) }
        ensures count { OnOk result (length out.new.items ≤ length out.old.items + 1) }
        ensures parts { OnOk result (All HasPart out.old.items → All HasPart out.new.items) }
        ensures only { IfErr result (λ refusal. refusal ≡ NoMemory) }
    {
        if from.lead.place() < next.lead.place() {
            out.push(self.segment(k, from, next, end, out.len() == others))?;
        }
        Ok(())
    }

    // The segment of a cell between where it begins and where the next one does; the lead ends at a time.
    fn segment(
        &self,
        k: u64,
        from: CellStart,
        next: CellStart,
        end: i64,
        first_in_part: bool,
    ) -> Listed
        requires number { self.now.number + k < 2 ^ 32 }
        requires few { length self.now.pieces.now ≤ 1024 }
        requires from { AreFronts self.now.leads self.now.pieces.now from }
        requires next { AreFronts self.now.leads self.now.pieces.now next }
        requires end { unsigned_abs end ≤ 2 ^ 43 }
        ensures row { listed_view result ≡ segment_between self.now.leads self.now.part (self.now.number + k) end from next first_in_part }
        ensures part { result.row.part ≡ self.now.part }
    {
        let start = time_or(from.time, end);
        let row = SegmentRow {
            number: self.number + k as u32,
            start,
            length: (time_or(next.time, end) - start).unsigned_abs(),
            first_in_part,
            part: self.part,
        };
        counted_row(
            self.leads,
            row,
            next.lead.place().saturating_sub(from.lead.place()),
            next.other.place().saturating_sub(from.other.place()),
        )
    }

    // Where a cell begins, if that isn't before the pieces that an earlier one reached.
    fn begin<L: Ledger>(&self, k: u64, earlier: CellStart, steps: &mut Steps<L>) -> CellStart
        requires few { length self.now.pieces.now ≤ 1024 }
        requires pieces { All IsSound self.now.pieces.now }
        requires cell { k ≤ 100001 }
        requires start { IsTime self.now.cells.start }
        requires earlier { AreFronts self.now.leads self.now.pieces.now earlier }
        ensures fronts { AreFronts self.now.leads self.now.pieces.now result }
        ensures time { result.time ≡ option_map (λ r. r.place) (slice_get (part_rows self.now).lead (place_of result.lead)) }
        ensures lead { let due = first_row (part_grid_of self.now.cells) (part_rows self.now).lead k in earlier.lead.before ≤ due → place_of result.lead ≡ due }
        ensures other { let due = other_from (part_rows self.now) (place_of result.lead) in earlier.other.before ≤ due → place_of result.other ≡ due }
        ensures looks { steps.new + 256 * (earlier.lead.piece + earlier.other.piece) ≤ steps.old + 256 * (result.lead.piece + result.other.piece) + 640 }
    {
        let lead = self.first_lead(k, earlier.lead, steps);
        let time = reached_time(self.pieces, self.leads, lead, steps);
        let other = self.first_other(time, earlier.other, steps);
        CellStart { lead, time, other }
    }

    // The first lead row of a cell, if that isn't before an earlier piece; behind the last row for the part's end.
    pub(crate) fn first_lead<L: Ledger>(
        &self,
        k: u64,
        earlier: Reach,
        steps: &mut Steps<L>,
    ) -> Reach
        requires few { length self.now.pieces.now ≤ 1024 }
        requires pieces { All IsSound self.now.pieces.now }
        requires cell { k ≤ 100001 }
        requires start { IsTime self.now.cells.start }
        requires earlier { IsFront self.now.leads self.now.pieces.now earlier }
        ensures reached { IsReached self.now.leads self.now.pieces.now result }
        ensures row { let due = first_row (part_grid_of self.now.cells) (part_rows self.now).lead k in earlier.before ≤ due → place_of result ≡ due }
        ensures looks { steps.new + 256 * earlier.piece ≤ steps.old + 256 * result.piece + 256 }
    {
        if k >= self.cells.cells {
            return reach_end(self.pieces, self.leads);
        }
        reach_time(
            self.pieces,
            self.leads,
            self.cells.align,
            self.cells.time(k),
            earlier,
            steps,
        )
    }

    // The first row of the other kind that isn't before a time, if that isn't before an earlier piece; no time is above all.
    fn first_other<L: Ledger>(
        &self,
        time: Option<i64>,
        earlier: Reach,
        steps: &mut Steps<L>,
    ) -> Reach
        requires few { length self.now.pieces.now ≤ 1024 }
        requires pieces { All IsSound self.now.pieces.now }
        requires time { IfSome time (λ time. unsigned_abs time ≤ 2 ^ 43) }
        requires earlier { IsFront (other_kind_of self.now.leads) self.now.pieces.now earlier }
        ensures reached { IsReached (other_kind_of self.now.leads) self.now.pieces.now result }
        ensures row { let due = first_after time (part_rows self.now).other in earlier.before ≤ due → place_of result ≡ due }
        ensures looks { steps.new + 256 * earlier.piece ≤ steps.old + 256 * result.piece + 256 }
    {
        let kind = other_kind(self.leads);
        match time {
            Some(time) => reach_time(self.pieces, kind, false, time, earlier, steps),
            None => reach_end(self.pieces, kind),
        }
    }
}

// A time, or another one where there is none.
fn time_or(time: Option<i64>, end: i64) -> i64
    requires time { IfSome time (λ time. unsigned_abs time ≤ 2 ^ 43) }
    requires end { unsigned_abs end ≤ 2 ^ 43 }
    ensures value { result ≡ unwrap_or time end }
    ensures small { unsigned_abs result ≤ 2 ^ 43 }
{
    match time {
        Some(time) => time,
        None => end,
    }
}

// A segment with its numbers of samples of the lead track and of the other one.
fn counted_row(leads: Kind, row: SegmentRow, lead: u64, other: u64) -> Listed
    ensures { listed_view result ≡ counted leads row lead other }
{
    match leads {
        Kind::Video => Listed {
            row,
            video: lead,
            audio: other,
        },
        Kind::Audio => Listed {
            row,
            video: other,
            audio: lead,
        },
    }
}
