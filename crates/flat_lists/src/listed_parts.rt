//! The listed segments of the parts of a sequence.

ghost use Rattle.std.specs.Prelude.{List, ◌≡◌, ◌+◌, ◌≤◌, All, IfErr, IfOk, length, map, nat_le, sum};
ghost use Rattle.std.specs.List.{position, position_or_len};
ghost use Rattle.vod_types.specs.declared.refusal.Refusal.TheVariants.{NoMemory};
ghost use Rattle.clip_model.specs.IsTimeline.{IsPart};
ghost use Rattle.segment_model.specs.Cut.{listed};
ghost use Rattle.segment_model.specs.Timeline.{SourcePiece};
ghost use Rattle.flat_lists.specs.ListedCells.{slices_view};
ghost use Rattle.flat_lists.specs.ListedParts.{rows_before, rows_from, part_over, AreRowsOfParts};
ghost use Rattle.segment_model.specs.Listing.{listed_view};
ghost use Rattle.flat_lists.specs.Listings.{HasPart};
ghost use Rattle.flat_samples.specs.Rows.{ArePlacedRows};

use crate::listed_part::{ListedPart, RowSlices};
use clip_model::Part;
use flat_samples::TimedSample;
use flat_segments::Cut;
use std::alloc::Global;
use vod_types::{Kind, Listed, Refusal};

/// The listed segments of parts with so many cells, over the samples of all of their pieces. The only refusal is
/// `NoMemory`.
pub(crate) fn list_parts(
    alloc: Global,
    cut: Cut<'_>,
    parts: &[Part],
    counts: &[u64],
    leads: Kind,
    rows: RowSlices<'_>,
) -> Result<Vec<Listed>, Refusal>
    requires many { length parts.now ≤ 128 }
    requires parts { All IsPart parts.now }
    requires places { All (λ part. part.first + part.count ≤ 1024) parts.now }
    requires counts { length counts.now ≡ length parts.now }
    requires few { sum counts.now ≤ 100000 }
    requires placed { ArePlacedRows (slices_view rows) }
    ensures listed { IfOk result (λ out. (pieces : List SourcePiece) → AreRowsOfParts cut.entry.grid.now cut.entry.align parts.now counts.now (slices_view rows.entry) pieces →
        map listed_view out.items ≡ listed leads cut.entry.grid.now cut.entry.align (map (part_over pieces) parts.now)) }
    ensures parts { IfOk result (λ out. All HasPart out.items) }
    ensures only { IfErr result (λ refusal. refusal ≡ NoMemory) }
{
    let mut out = Vec::new(alloc);
    let mut rest = rows;
    let mut number = 1;
    for (place, part) in parts.iter().enumerate() {
        let (own, later) = split(rest, part.first + part.count);
        let listed = ListedPart {
            part: place as u32 + 1,
            number,
            leads,
            cells: cut.cells(part, counts[place]),
            rows: own,
        };
        listed.list(&mut out)?;
        number += counts[place] as u32;
        rest = later;
    }
    Ok(out)
}

// The rows before those of a piece, by its place, and the others.
pub(crate) fn split(rows: RowSlices<'_>, place: u32) -> (RowSlices<'_>, RowSlices<'_>)
    ensures before { slices_view result.0 ≡ rows_before place (slices_view rows.entry) }
    ensures from { slices_view result.1 ≡ rows_from place (slices_view rows.entry) }
{
    let (lead, later_lead) = rows.lead.split_at(place_in(rows.lead, place));
    let (other, later_other) = rows.other.split_at(place_in(rows.other, place));
    (
        RowSlices { lead, other },
        RowSlices {
            lead: later_lead,
            other: later_other,
        },
    )
}

// How many rows stand before those of a piece, by its place.
fn place_in(rows: &[TimedSample], place: u32) -> usize
    ensures index { result ≡ position_or_len (λ r. nat_le place r.file) rows.now }
    ensures within { result ≤ length rows.now }
{
    first_at(rows, place).unwrap_or(rows.len())
}

fn first_at(rows: &[TimedSample], place: u32) -> Option<usize>
    ensures { result ≡ position (λ r. nat_le place r.file) rows.now }
{
    rows.iter().position(|row| place <= row.file)
}
