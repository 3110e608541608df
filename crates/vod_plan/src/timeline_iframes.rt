//! The I-frames of a sequence, over its pieces.

ghost use Rattle.std.specs.Prelude.{◌≡◌, ◌≢◌, ◌+◌, ◌*◌, ◌≤◌, ℕ, List, false, true, length, sum, All, IfErr, IfOk, IfSome, IsErrOf};
ghost use Rattle.vod_types.specs.declared.refusal.Refusal.TheVariants.{NoMemory, StoreFailed};
ghost use Rattle.clip_model.specs.IsTimeline.{Follow, IsPart};
ghost use Rattle.vod_source.specs.Causes.{Rose};
ghost use Rattle.origin_model.specs.Loaded.{CheckedPiece};
ghost use Rattle.origin_model.specs.Sources.{is_declared as is_declared_of};
ghost use Rattle.answer_laws.specs.Refusals.{IsPathRefusal};
ghost use Rattle.vod_meta.specs.Held.{names_held, AreTrue};
ghost use Rattle.vod_plan.specs.IframesPlanned.{iframes_over, AreFew, AreIframesBy, AreMore};
ghost use Rattle.vod_plan.specs.ListingParts.{counts_over, ArePiecesOfParts};
ghost use Rattle.vod_plan.specs.Narrowed.{IsSound};
ghost use Rattle.vod_plan.specs.Planned.{cutting_of};

use crate::iframe_parts::marks_of_parts;
use crate::listed::{few_cells, pieces_of};
use crate::lone::end_of;
use crate::marked_rows::listed_rows;
use crate::needed::{lead_of, needed_of};
use crate::spans::PlanPiece;
use clip_model::Part;
use seq_cells::{Cut, counts_of, open_cells, part_at, parts_of};
use std::alloc::Global;
use std::sync::ledger::Ledger;
use vod_meta::Metas;
use vod_source::Store;
use vod_types::{Asked, IframeRow, Refusal, Steps};

/// The I-frames where all lengths are declared. More than 100,000 cells are refused before any movie is read.
pub(crate) fn declared_iframes<S: Store, L: Ledger>(
    alloc: Global,
    metas: &mut Metas,
    store: &mut S,
    cut: Cut<'_>,
    video: u8,
    steps: &mut Steps<L>,
) -> Result<Vec<IframeRow>, Refusal>
    requires declared { is_declared_of cut.timeline.now ≡ true }
    requires held { IfSome (S.content store.old) (λ files. AreTrue files metas.old) }
    ensures done { IfSome (S.content store.old) (λ files.
        AreIframesBy (λ rows. rows.items) (cutting_of files cut.entry.grid.now cut.entry.align cut.entry.edits) video cut.entry.timeline.now result
        (names_held metas.old) (names_held metas.new) (S.log store.old) (S.log store.new) steps.old steps.new) }
    ensures held { IfSome (S.content store.old) (λ files. AreTrue files metas.new) }
    ensures refused { IfErr result IsPathRefusal }
    ensures content { S.content store.new ≡ S.content store.old }
    ensures later { S.faults store.old ≤ S.faults store.new }
    ensures store_failed { IsErrOf result StoreFailed → Rose (S.faults store.old) (S.faults store.new) }
{
    let asked = Asked {
        video: Some(video),
        audio: None,
    };
    let counts = match counts_of(alloc, cut.grid, parts_of(cut.timeline)) {
        Ok(counts) => counts,
        Err(refusal) => return Err(refusal),
    };
    match few_cells(&counts) {
        Ok(()) => {}
        Err(refusal) => return Err(refusal),
    }
    let pieces = pieces_of(cut.timeline);
    match needed_of(alloc, metas, store, cut.edits, asked, pieces, None, steps) {
        Ok(needed) => iframes_of_parts(
            alloc,
            cut,
            parts_of(cut.timeline),
            &counts,
            asked,
            &needed.pieces,
            steps,
        ),
        Err(refusal) => Err(refusal),
    }
}

/// Those of a timeline of one part and one piece, whose length is not declared.
pub(crate) fn open_iframes<S: Store, L: Ledger>(
    alloc: Global,
    metas: &mut Metas,
    store: &mut S,
    cut: Cut<'_>,
    video: u8,
    steps: &mut Steps<L>,
) -> Result<Vec<IframeRow>, Refusal>
    requires declared { is_declared_of cut.timeline.now ≡ false }
    requires held { IfSome (S.content store.old) (λ files. AreTrue files metas.old) }
    ensures done { IfSome (S.content store.old) (λ files.
        AreIframesBy (λ rows. rows.items) (cutting_of files cut.entry.grid.now cut.entry.align cut.entry.edits) video cut.entry.timeline.now result
        (names_held metas.old) (names_held metas.new) (S.log store.old) (S.log store.new) steps.old steps.new) }
    ensures held { IfSome (S.content store.old) (λ files. AreTrue files metas.new) }
    ensures refused { IfErr result IsPathRefusal }
    ensures content { S.content store.new ≡ S.content store.old }
    ensures later { S.faults store.old ≤ S.faults store.new }
    ensures store_failed { IsErrOf result StoreFailed → Rose (S.faults store.old) (S.faults store.new) }
{
    let asked = Asked {
        video: Some(video),
        audio: None,
    };
    let (part, pieces) = part_at(cut.timeline, 0);
    let needed = match needed_of(alloc, metas, store, cut.edits, asked, pieces, None, steps) {
        Ok(needed) => needed,
        Err(refusal) => return Err(refusal),
    };
    let end = end_of(&needed.pieces, lead_of(asked), part.start, steps);
    let counts = [open_cells(cut.grid, end)];
    match few_cells(&counts) {
        Ok(()) => iframes_of_parts(
            alloc,
            cut,
            parts_of(cut.timeline),
            &counts,
            asked,
            &needed.pieces,
            steps,
        ),
        Err(refusal) => Err(refusal),
    }
}

// The I-frames of parts with so many cells, over all of their pieces, unless there are more than 100,000.
fn iframes_of_parts<L: Ledger>(
    alloc: Global,
    cut: Cut<'_>,
    parts: &[Part],
    counts: &[u64],
    asked: Asked,
    pieces: &[PlanPiece],
    steps: &mut Steps<L>,
) -> Result<Vec<IframeRow>, Refusal>
    requires many { length parts.now ≤ 128 }
    requires parts { All IsPart parts.now }
    requires counts { length counts.now ≡ length parts.now }
    requires few { sum counts.now ≤ 100000 }
    requires pieces { All IsSound pieces.now }
    requires looked { length pieces.now ≤ 1024 }
    ensures rows { IfOk result (λ rows. (cs : List CheckedPiece) → ArePiecesOfParts asked pieces.now cs → counts.now ≡ counts_over cut.entry.grid.now cut.entry.align cs parts.now →
        AreFew rows.items (iframes_over cut.entry.grid.now cut.entry.align cs parts.now)) }
    ensures more { IfErr result (λ refusal. refusal ≢ NoMemory → (cs : List CheckedPiece) → ArePiecesOfParts asked pieces.now cs → counts.now ≡ counts_over cut.entry.grid.now cut.entry.align cs parts.now →
        AreMore refusal (iframes_over cut.entry.grid.now cut.entry.align cs parts.now)) }
    ensures refused { IfErr result IsPathRefusal }
    ensures no_store { IfErr result (λ refusal. refusal ≢ StoreFailed) }
    ensures looks { (cs : List CheckedPiece) (n : ℕ) → ArePiecesOfParts asked pieces.now cs → counts.now ≡ counts_over cut.entry.grid.now cut.entry.align cs parts.now → Follow 0 parts.now n →
        steps.new ≤ steps.old + 1152 * n + 256 * sum counts.now + 256 * length (iframes_over cut.entry.grid.now cut.entry.align cs parts.now) }
{
    match marks_of_parts(alloc, cut, parts, counts, asked, pieces, steps) {
        Ok(marks) => listed_rows(alloc, &marks),
        Err(refusal) => Err(refusal),
    }
}
