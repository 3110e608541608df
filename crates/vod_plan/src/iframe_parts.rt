//! The I-frames of all parts of a sequence.

ghost use Rattle.std.specs.Prelude.{◌≡◌, ◌+◌, ◌*◌, ◌≤◌, ℕ, List, length, map, sum, All, IfErr, IfOk};
ghost use Rattle.vod_types.specs.declared.refusal.Refusal.TheVariants.{NoMemory};
ghost use Rattle.clip_model.specs.IsTimeline.{Follow, IsPart};
ghost use Rattle.segment_model.specs.Iframes.{iframes};
ghost use Rattle.origin_model.specs.Loaded.{CheckedPiece};
ghost use Rattle.origin_model.specs.Sources.{source_piece};
ghost use Rattle.vod_plan.specs.IframeMarks.{marks_from, AreAll};
ghost use Rattle.vod_plan.specs.ListingParts.{counts_over, part_over, ArePiecesOfParts};
ghost use Rattle.vod_plan.specs.Narrowed.{IsSound};

use crate::iframe_marks::Marks;
use crate::listed::pieces_in;
use crate::listed_part::ListedPart;
use crate::needed::lead_of;
use crate::spans::PlanPiece;
use clip_model::Part;
use seq_cells::Cut;
use std::alloc::Global;
use std::sync::ledger::Ledger;
use vod_types::{Asked, Refusal, Steps};

/// The I-frames of parts with so many cells, over all of their pieces. The only refusal is `NoMemory`.
pub(crate) fn marks_of_parts<L: Ledger>(
    alloc: Global,
    cut: Cut<'_>,
    parts: &[Part],
    counts: &[u64],
    asked: Asked,
    pieces: &[PlanPiece],
    steps: &mut Steps<L>,
) -> Result<Marks, Refusal>
    requires many { length parts.now ≤ 128 }
    requires parts { All IsPart parts.now }
    requires counts { length counts.now ≡ length parts.now }
    requires few { sum counts.now ≤ 100000 }
    requires pieces { All IsSound pieces.now }
    requires looked { length pieces.now ≤ 1024 }
    ensures marks { IfOk result (λ out. (cs : List CheckedPiece) → ArePiecesOfParts asked pieces.now cs → counts.now ≡ counts_over cut.entry.grid.now cut.entry.align cs parts.now →
        AreAll (marks_from 1 (iframes cut.entry.grid.now cut.entry.align (map (part_over (map source_piece cs)) parts.now))) out) }
    ensures only { IfErr result (λ refusal. refusal ≡ NoMemory) }
    ensures looks { (cs : List CheckedPiece) (n : ℕ) → ArePiecesOfParts asked pieces.now cs → counts.now ≡ counts_over cut.entry.grid.now cut.entry.align cs parts.now → Follow 0 parts.now n →
        steps.new ≤ steps.old + 1152 * n + 256 * sum counts.now + 256 * length (marks_from 1 (iframes cut.entry.grid.now cut.entry.align (map (part_over (map source_piece cs)) parts.now))) }
{
    let leads = lead_of(asked);
    let mut out = Marks::new(alloc);
    let mut number = 1;
    for (place, part) in parts.iter().enumerate() {
        let part = ListedPart {
            part: place as u32 + 1,
            number,
            leads,
            cells: cut.cells(part, counts[place]),
            pieces: pieces_in(pieces, part),
        };
        match part.put_iframes(&mut out, steps) {
            Ok(()) => {}
            Err(refusal) => return Err(refusal),
        }
        number += counts[place] as u32;
    }
    Ok(out)
}
