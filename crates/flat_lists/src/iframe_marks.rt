//! The sync samples of the lead tracks of parts, cell by cell.

ghost use Rattle.std.specs.Prelude.{List, ◌≡◌, ◌++◌, ◌+◌, ◌-◌, ◌≤◌, ◌<◌, ◌^◌, [], ◌∷◌, All, IfErr, IfOk, OnOk, ℤ, cond, length, map, sum, unsigned_abs};
ghost use Rattle.vod_types.specs.declared.refusal.Refusal.TheVariants.{NoMemory};
ghost use Rattle.clip_model.specs.IsTimeline.{IsPart, IsTime};
ghost use Rattle.segment_model.specs.Iframes.{iframes, lone_iframes};
ghost use Rattle.segment_model.specs.Laws.{PlaceRises};
ghost use Rattle.segment_model.specs.Timeline.{SourcePiece, lead_end};
ghost use Rattle.flat_samples.specs.Rows.{timed_view, ArePlacedRows, IsPlacedRow};
ghost use Rattle.flat_segments.specs.Cells.{part_grid_of};
ghost use Rattle.flat_lists.specs.ListedCells.{slices_view};
ghost use Rattle.flat_lists.specs.ListedParts.{part_over, AreRowsOfParts};
ghost use Rattle.flat_lists.specs.Marks.{cell_marks, mark_at, marks_from, AreMarks};

use crate::listed_part::{ListedPart, RowSlices};
use crate::listed_parts::split;
use clip_model::Part;
use flat_samples::TimedSample;
use flat_segments::{Cut, end_of_lead};
use std::alloc::Global;
use vod_types::{Kind, Refusal};

/// An I-frame: the `index`-th one of the segment `number`, both from 1, and its time. `part` counts from 1 and its lead track
/// ends at `end`, both times in 1/90000 s.
#[derive(Clone, Copy, Debug)]
pub(crate) struct Mark {
    pub(crate) part: u32,
    pub(crate) end: i64,
    pub(crate) number: u32,
    pub(crate) index: usize,
    pub(crate) start: i64,
}

/// The I-frames of parts with so many cells, over the samples of all of their pieces. The only refusal is `NoMemory`.
pub(crate) fn marks_of_parts(
    alloc: Global,
    cut: Cut<'_>,
    parts: &[Part],
    counts: &[u64],
    rows: RowSlices<'_>,
) -> Result<Vec<Mark>, Refusal>
    requires many { length parts.now ≤ 128 }
    requires parts { All IsPart parts.now }
    requires places { All (λ part. part.first + part.count ≤ 1024) parts.now }
    requires counts { length counts.now ≡ length parts.now }
    requires few { sum counts.now ≤ 100000 }
    requires placed { ArePlacedRows (slices_view rows) }
    ensures marks { IfOk result (λ out. (pieces : List SourcePiece) → AreRowsOfParts cut.entry.grid.now cut.entry.align parts.now counts.now (slices_view rows.entry) pieces →
        out.items ≡ marks_from 1 (iframes cut.entry.grid.now cut.entry.align (map (part_over pieces) parts.now))) }
    ensures small { IfOk result (λ out. AreMarks out.items) }
    ensures only { IfErr result (λ refusal. refusal ≡ NoMemory) }
{
    let mut out = Vec::new(alloc);
    let mut rest = rows;
    let mut number = 1;
    for (place, part) in parts.iter().enumerate() {
        let (own, later) = split(rest, part.first + part.count);
        let listed = ListedPart {
            part: place as u32 + 1,
            number,
            leads: Kind::Video,
            cells: cut.cells(part, counts[place]),
            rows: own,
        };
        put_part(&listed, &mut out)?;
        number += counts[place] as u32;
        rest = later;
    }
    Ok(out)
}

// Puts the I-frames of a part behind others. After a refusal, `NoMemory`, some of them may stand there.
fn put_part(part: &ListedPart<'_>, out: &mut Vec<Mark>) -> Result<(), Refusal>
    requires few { part.now.cells.cells ≤ 100000 }
    requires numbers { part.now.number + part.now.cells.cells < 2 ^ 32 }
    requires start { IsTime part.now.cells.start }
    requires placed { ArePlacedRows (slices_view part.now.rows) }
    ensures marks { OnOk result ((s : ℤ) → PlaceRises s (slices_view part.now.rows).lead →
        out.new.items ≡ out.old.items ++ map (mark_at part.now.part (lead_end part.now.cells.start (slices_view part.now.rows).lead))
        (lone_iframes part.now.number (part_grid_of part.now.cells) (slices_view part.now.rows))) }
    ensures small { OnOk result (AreMarks out.old.items → AreMarks out.new.items) }
    ensures only { IfErr result (λ refusal. refusal ≡ NoMemory) }
{
    let end = end_of_lead(part.cells.start, part.rows.lead);
    let mut from = part.first_lead(0, 0);
    for k in 0..part.cells.cells {
        let next = part.first_lead(k + 1, from);
        let first = Mark {
            part: part.part,
            end,
            number: part.number + k as u32,
            index: 0,
            start: 0,
        };
        put_cell(first, &part.rows.lead[from..next.max(from)], out)?;
        from = next;
    }
    Ok(())
}

// Puts the I-frames among the samples of a cell behind others, with the part and the number of a mark.
fn put_cell(of: Mark, lead: &[TimedSample], out: &mut Vec<Mark>) -> Result<(), Refusal>
    requires end { unsigned_abs of.end ≤ 2 ^ 43 }
    requires placed { All IsPlacedRow (map timed_view lead.now) }
    ensures marks { OnOk result (out.new.items ≡ out.old.items ++ cell_marks of (map timed_view lead.now)) }
    ensures small { OnOk result (AreMarks out.old.items → AreMarks out.new.items) }
    ensures only { IfErr result (λ refusal. refusal ≡ NoMemory) }
{
    let others = out.len();
    for row in lead {
        put_row(of, row, others, out)?;
    }
    Ok(())
}

// Puts a sample behind others if it is an I-frame. So many of these are of other cells.
fn put_row(of: Mark, row: &TimedSample, others: usize, out: &mut Vec<Mark>) -> Result<(), Refusal>
    requires end { unsigned_abs of.end ≤ 2 ^ 43 }
    requires placed { IsPlacedRow (timed_view row.now) }
    requires others { others ≤ length out.now.items }
    ensures marks { OnOk result (out.new.items ≡ out.old.items ++ cond row.now.sync
        (record of { index = length out.old.items - others + 1; start = row.now.place } ∷ []) []) }
    ensures small { OnOk result (AreMarks out.old.items → AreMarks out.new.items) }
    ensures only { IfErr result (λ refusal. refusal ≡ NoMemory) }
{
    if row.sync {
        out.push(Mark {
            index: out.len() - others + 1,
            start: row.place,
            ..of
        })?;
    }
    Ok(())
}
