//! The I-frames of parts, found one after another.

ghost use Rattle.std.specs.Prelude.{◌≡◌, ◌+◌, ◌-◌, ◌*◌, ◌≤◌, ◌<◌, ◌^◌, ℕ, ℤ, [], ◌∷◌, false, All, IfErr, IfOk, OnErr, OnOk, Some, drop, length, map, min, option_map, slice_get};
ghost use Rattle.vod_types.specs.declared.refusal.Refusal.TheVariants.{NoMemory};
ghost use Rattle.clip_model.specs.IsTimeline.{IsTime};
ghost use Rattle.segment_model.specs.Iframes.{lone_iframes};
ghost use Rattle.segment_model.specs.Laws.{PlaceRises};
ghost use Rattle.segment_model.specs.Timeline.{lead_end};
ghost use Rattle.seq_cells.specs.Cells.{part_grid_of};
ghost use Rattle.vod_plan.specs.IframeMarks.{cell_marks, first_sync, mark_at, rows_before, AreAdded};
ghost use Rattle.vod_plan.specs.ListingCells.{part_rows};
ghost use Rattle.vod_plan.specs.ListingReach.{place_of, IsReached};
ghost use Rattle.vod_plan.specs.Narrowed.{IsSound};
ghost use Rattle.vod_plan.specs.Ranges.{planned_of};
ghost use Rattle.vod_plan.specs.Segments.{has_rows as has_rows_of};
ghost use Rattle.vod_plan.specs.Spans.{piece_view};

use crate::cell::end_of_lead;
use crate::iframe_reach::reach_sync;
use crate::listed_part::ListedPart;
use crate::lone::has_rows;
use crate::reach::Reach;
use crate::seeks::time_at;
use crate::spans::PlanPiece;
use std::alloc::Global;
use std::sync::ledger::Ledger;
use vod_types::{Kind, Refusal, Steps};

/// The most I-frames that are listed.
const MOST: u64 = 100_000;

/// An I-frame: the `index`-th one of the segment `number`, both from 1, and its time. `part` counts from 1 and its lead track
/// ends at `end`, both times in 1/90000 s.
#[derive(Clone, Copy, Debug)]
pub(crate) struct Mark {
    pub(crate) part: u32,
    pub(crate) end: i64,
    pub(crate) number: u32,
    pub(crate) index: u32,
    pub(crate) start: i64,
}

/// How many I-frames there are, and the first 100,000 of them.
#[derive(Debug, Drop)]
pub(crate) struct Marks {
    pub(crate) count: u64,
    pub(crate) kept: Vec<Mark>,
}

impl Marks {
    /// None.
    pub(crate) fn new(alloc: Global) -> Marks
        ensures count { result.count ≡ 0 }
        ensures kept { result.kept.items ≡ [] }
    {
        Marks {
            count: 0,
            kept: Vec::new(alloc),
        }
    }

    // Puts an I-frame of the part and of the segment of a mark behind others, of which so many are of other segments.
    fn put(&mut self, of: Mark, others: u64, start: i64) -> Result<(), Refusal>
        requires kept { length self.old.kept.items ≡ min self.old.count 100000 }
        requires others { others ≤ self.old.count }
        ensures put { OnOk result (AreAdded (record of { index = self.old.count - others + 1; start = start } ∷ []) self.old self.new) }
        ensures kept { OnOk result (length self.new.kept.items ≡ min self.new.count 100000) }
        ensures same { OnErr result (self.new.count ≡ self.old.count) }
        ensures only { IfErr result (λ refusal. refusal ≡ NoMemory) }
    {
        let Some(count) = self.count.checked_add(1) else {
            return Err(Refusal::NoMemory);
        };
        if self.count >= MOST {
            self.count = count;
            return Ok(());
        }
        self.kept.push(Mark {
            index: (count - others) as u32,
            start,
            ..of
        })?;
        self.count = count;
        Ok(())
    }
}

impl ListedPart<'_> {
    /// Puts the I-frames of the segments of the part behind others. After a refusal, `NoMemory`, some of them may stand there. Without a
    /// lead row there are none, and no look is taken.
    pub(crate) fn put_iframes<L: Ledger>(
        &self,
        out: &mut Marks,
        steps: &mut Steps<L>,
    ) -> Result<(), Refusal>
        requires few { length self.now.pieces.now ≤ 1024 }
        requires pieces { All IsSound self.now.pieces.now }
        requires cells { self.now.cells.cells ≤ 100000 }
        requires numbers { self.now.number + self.now.cells.cells < 2 ^ 32 }
        requires start { IsTime self.now.cells.start }
        requires kept { length out.old.kept.items ≡ min out.old.count 100000 }
        ensures marks { OnOk result (AreAdded (map (mark_at self.now.part (lead_end self.now.cells.start (part_rows self.now).lead))
            (lone_iframes self.now.number (part_grid_of self.now.cells) (part_rows self.now))) out.old out.new) }
        ensures few { out.new.count ≤ out.old.count + length (lone_iframes self.now.number (part_grid_of self.now.cells) (part_rows self.now)) }
        ensures kept { OnOk result (length out.new.kept.items ≡ min out.new.count 100000) }
        ensures only { IfErr result (λ refusal. refusal ≡ NoMemory) }
        ensures looks { steps.new + 256 * out.old.count ≤ steps.old + 384 * length self.now.pieces.now + 768 + 256 * self.now.cells.cells + 256 * out.new.count }
        ensures none { has_rows_of self.now.leads self.now.pieces.now ≡ false → steps.new ≤ steps.old }
    {
        if !has_rows(self.pieces, self.leads) {
            return Ok(());
        }
        self.put_cells(out, steps)
    }

    // The same where there is a lead row.
    fn put_cells<L: Ledger>(&self, out: &mut Marks, steps: &mut Steps<L>) -> Result<(), Refusal>
        requires few { length self.now.pieces.now ≤ 1024 }
        requires pieces { All IsSound self.now.pieces.now }
        requires cells { self.now.cells.cells ≤ 100000 }
        requires numbers { self.now.number + self.now.cells.cells < 2 ^ 32 }
        requires start { IsTime self.now.cells.start }
        requires kept { length out.old.kept.items ≡ min out.old.count 100000 }
        ensures marks { OnOk result (AreAdded (map (mark_at self.now.part (lead_end self.now.cells.start (part_rows self.now).lead))
            (lone_iframes self.now.number (part_grid_of self.now.cells) (part_rows self.now))) out.old out.new) }
        ensures few { out.new.count ≤ out.old.count + length (lone_iframes self.now.number (part_grid_of self.now.cells) (part_rows self.now)) }
        ensures kept { OnOk result (length out.new.kept.items ≡ min out.new.count 100000) }
        ensures only { IfErr result (λ refusal. refusal ≡ NoMemory) }
        ensures looks { steps.new + 256 * out.old.count ≤ steps.old + 384 * length self.now.pieces.now + 768 + 256 * self.now.cells.cells + 256 * out.new.count }
    {
        let end = end_of_lead(self.pieces, self.leads, self.cells.start, steps);
        let mut from = self.first_lead(0, Reach::new(), steps);
        let mut at = reach_sync(self.pieces, self.leads, from, steps);
        for k in 0..self.cells.cells {
            let next = self.first_lead(k + 1, from, steps);
            let of = Mark {
                part: self.part,
                end,
                number: self.number + k as u32,
                index: 0,
                start: 0,
            };
            at = self.put_cell(of, at, next.place(), out, steps)?;
            from = next;
        }
        Ok(())
    }

    // Puts the I-frames of the segment of a mark behind others: those among the lead rows from a sync row on and before a place.
    // It gives the next sync row from that place on.
    fn put_cell<L: Ledger>(
        &self,
        of: Mark,
        first: Reach,
        to: u64,
        out: &mut Marks,
        steps: &mut Steps<L>,
    ) -> Result<Reach, Refusal>
        requires few { length self.now.pieces.now ≤ 1024 }
        requires pieces { All IsSound self.now.pieces.now }
        requires first { IsReached self.now.leads self.now.pieces.now first }
        requires sync { first_sync (drop (place_of first) (part_rows self.now).lead) ≡ 0 }
        requires kept { length out.old.kept.items ≡ min out.old.count 100000 }
        ensures marks { OnOk result (AreAdded (cell_marks of (rows_before (place_of first) to (part_rows self.now).lead)) out.old out.new) }
        ensures few { out.new.count ≤ out.old.count + length (cell_marks of (rows_before (place_of first) to (part_rows self.now).lead)) }
        ensures reached { IfOk result (IsReached self.now.leads self.now.pieces.now) }
        ensures next { IfOk result (λ at. (s : ℕ) → s ≤ to → to ≤ length (part_rows self.now).lead → place_of first ≡ s + first_sync (drop s (part_rows self.now).lead) →
            place_of at ≡ to + first_sync (drop to (part_rows self.now).lead)) }
        ensures sync { IfOk result (λ at. first_sync (drop (place_of at) (part_rows self.now).lead) ≡ 0) }
        ensures kept { OnOk result (length out.new.kept.items ≡ min out.new.count 100000) }
        ensures only { IfErr result (λ refusal. refusal ≡ NoMemory) }
        ensures looks { IfOk result (λ at. steps.new + 128 * first.piece + 256 * out.old.count ≤ steps.old + 128 * at.piece + 256 * out.new.count) }
        ensures most { steps.new + 128 * first.piece + 256 * out.old.count ≤ steps.old + 128 * length self.now.pieces.now + 256 * out.new.count + 128 }
    {
        let others = out.count;
        let mut at = first;
        for _ in first.place()..to {
            if at.place() >= to {
                return Ok(at);
            }
            if at.piece >= self.pieces.len() {
                return Ok(at);
            }
            let start = time_there(self.pieces, self.leads, at, steps);
            out.put(of, others, start)?;
            at = next_sync(self.pieces, self.leads, at, steps);
        }
        Ok(at)
    }
}

// The next sync row of a kind behind the row that is reached.
fn next_sync<L: Ledger>(pieces: &[PlanPiece], kind: Kind, at: Reach, steps: &mut Steps<L>) -> Reach
    requires few { length pieces.now ≤ 1024 }
    requires pieces { All IsSound pieces.now }
    requires at { IsReached kind pieces.now at }
    requires there { at.piece < length pieces.now }
    ensures reached { IsReached kind pieces.now result }
    ensures later { at.piece ≤ result.piece }
    ensures place { place_of result ≡ place_of at + 1 + first_sync (drop (place_of at + 1) (planned_of kind (map piece_view pieces.now))) }
    ensures looks { steps.new + 128 * at.piece ≤ steps.old + 128 * result.piece + 128 }
{
    // The row's index is below their number, which fits.
    let _rows = pieces[at.piece].rows(kind);
    let behind = Reach {
        piece: at.piece,
        before: at.before,
        index: at.index + 1,
    };
    reach_sync(pieces, kind, behind, steps)
}

// The time in the output of the row that is reached.
fn time_there<L: Ledger>(pieces: &[PlanPiece], kind: Kind, at: Reach, steps: &mut Steps<L>) -> i64
    requires pieces { All IsSound pieces.now }
    requires at { IsReached kind pieces.now at }
    requires there { at.piece < length pieces.now }
    ensures time { Some result ≡ option_map (λ r. r.place) (slice_get (planned_of kind (map piece_view pieces.now)) (place_of at)) }
    ensures looks { steps.new ≤ steps.old + 128 }
{
    time_at(&pieces[at.piece], kind, at.index, steps)
}
