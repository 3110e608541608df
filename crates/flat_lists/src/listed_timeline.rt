//! The listed segments of a sequence, over its pieces in the store.

ghost use Rattle.std.specs.Prelude.{List, ◌≡◌, ◌≤◌, ◌<◌, ◌^◌, Err, true, false, length, map, sum, All, IfOk, IfErr, IfSome, IsErrOf};
ghost use Rattle.vod_types.specs.declared.refusal.Refusal.TheVariants.{NoMemory, StoreFailed};
ghost use Rattle.vod_types.specs.Tracks.{lead_of as lead_of_asked};
ghost use Rattle.clip_model.specs.IsTimeline.{IsPiece};
ghost use Rattle.segment_model.specs.Cut.{listed};
ghost use Rattle.segment_model.specs.Grid.{cell_counts};
ghost use Rattle.vod_source.specs.Causes.{Rose};
ghost use Rattle.origin_model.specs.Loaded.{CheckedPiece};
ghost use Rattle.origin_model.specs.Plans.{few_cells as few_cells_of, planned_rows};
ghost use Rattle.origin_model.specs.Sources.{is_declared, source_piece};
ghost use Rattle.vod_source.specs.Calls.{Came};
ghost use Rattle.answer_laws.specs.Refusals.{IsPathRefusal};
ghost use Rattle.flat_lists.specs.ListedParts.{part_over};
ghost use Rattle.segment_model.specs.Listing.{listed_view};
ghost use Rattle.flat_lists.specs.Listings.{HasPart, rows_turns};
ghost use Rattle.flat_segments.specs.Needed.{AreLooks, AreNeeded};
ghost use Rattle.flat_segments.specs.Planned.{cutting_of};
ghost use Rattle.flat_samples.specs.Rows.{part_rows, ArePlacedRows};

use crate::listed_part::RowSlices;
use crate::listed_parts::list_parts;
use clip_model::Piece;
use flat_segments::{
    Cut, Needed, counts_of, is_declared, length_of, needed_of, part_at, parts_of, sum_of,
};
use segmenter::cells;
use seq_timeline::Timeline;
use std::alloc::Global;
use vod_source::Store;
use vod_types::{Asked, Kind, Listed, Refusal};

/// The listed segments of a sequence.
///
/// Where all lengths are declared, `TooManySegments` comes before any movie is read, else right after the checks of the
/// one piece. All pieces are needed: the first fault of one of them is the refusal.
pub fn timeline_rows<S: Store>(
    alloc: Global,
    files: &mut S,
    cut: Cut<'_>,
    asked: Asked,
) -> Result<Vec<Listed>, Refusal>
    ensures told { IfSome (S.content files.old) (λ known.
        Came (λ rows. map listed_view rows.items) result (planned_rows (cutting_of known cut.entry.grid.now cut.entry.align cut.entry.edits) asked cut.entry.timeline.now)
        (rows_turns (cutting_of known cut.entry.grid.now cut.entry.align cut.entry.edits) asked cut.entry.timeline.now) (S.log files.old) (S.log files.new)) }
    ensures parts { IfOk result (λ rows. All HasPart rows.items) }
    ensures content { S.content files.new ≡ S.content files.old }
    ensures later { S.faults files.old ≤ S.faults files.new }
    ensures store_failed { IsErrOf result StoreFailed → Rose (S.faults files.old) (S.faults files.new) }
    ensures refused { IfErr result IsPathRefusal }
{
    if is_declared(parts_of(cut.timeline)) {
        declared_rows(alloc, files, cut, asked)
    } else {
        open_rows(alloc, files, cut, asked)
    }
}

// The same where all lengths are declared.
fn declared_rows<S: Store>(
    alloc: Global,
    files: &mut S,
    cut: Cut<'_>,
    asked: Asked,
) -> Result<Vec<Listed>, Refusal>
    requires declared { is_declared cut.timeline.now ≡ true }
    ensures told { IfSome (S.content files.old) (λ known.
        Came (λ rows. map listed_view rows.items) result (planned_rows (cutting_of known cut.entry.grid.now cut.entry.align cut.entry.edits) asked cut.entry.timeline.now)
        (rows_turns (cutting_of known cut.entry.grid.now cut.entry.align cut.entry.edits) asked cut.entry.timeline.now) (S.log files.old) (S.log files.new)) }
    ensures parts { IfOk result (λ rows. All HasPart rows.items) }
    ensures content { S.content files.new ≡ S.content files.old }
    ensures later { S.faults files.old ≤ S.faults files.new }
    ensures store_failed { IsErrOf result StoreFailed → Rose (S.faults files.old) (S.faults files.new) }
    ensures refused { IfErr result IsPathRefusal }
{
    let counts = match counts_of(alloc, cut.grid, parts_of(cut.timeline)) {
        Ok(counts) => counts,
        Err(refusal) => return Err(refusal),
    };
    match few_cells(&counts) {
        Ok(()) => {}
        Err(refusal) => return Err(refusal),
    }
    match all_needed(alloc, files, cut, asked) {
        Ok(needed) => needed_rows(alloc, cut, &counts, asked, &needed),
        Err(refusal) => Err(refusal),
    }
}

// The same of one part and one piece, whose length is not declared.
fn open_rows<S: Store>(
    alloc: Global,
    files: &mut S,
    cut: Cut<'_>,
    asked: Asked,
) -> Result<Vec<Listed>, Refusal>
    requires declared { is_declared cut.timeline.now ≡ false }
    ensures told { IfSome (S.content files.old) (λ known.
        Came (λ rows. map listed_view rows.items) result (planned_rows (cutting_of known cut.entry.grid.now cut.entry.align cut.entry.edits) asked cut.entry.timeline.now)
        (rows_turns (cutting_of known cut.entry.grid.now cut.entry.align cut.entry.edits) asked cut.entry.timeline.now) (S.log files.old) (S.log files.new)) }
    ensures parts { IfOk result (λ rows. All HasPart rows.items) }
    ensures content { S.content files.new ≡ S.content files.old }
    ensures later { S.faults files.old ≤ S.faults files.new }
    ensures store_failed { IsErrOf result StoreFailed → Rose (S.faults files.old) (S.faults files.new) }
    ensures refused { IfErr result IsPathRefusal }
{
    let (part, _) = part_at(cut.timeline, 0);
    let needed = match all_needed(alloc, files, cut, asked) {
        Ok(needed) => needed,
        Err(refusal) => return Err(refusal),
    };
    let counts = [cells(cut.grid, length_of(part.start, &needed.rows.lead))];
    match few_cells(&counts) {
        Ok(()) => needed_rows(alloc, cut, &counts, asked, &needed),
        Err(refusal) => Err(refusal),
    }
}

// There are at most 100,000 cells in all.
pub(crate) fn few_cells(counts: &[u64]) -> Result<(), Refusal>
    requires few { length counts.now ≤ 128 }
    requires bounded { All (λ count. count ≤ 2 ^ 42) counts.now }
    ensures few { IfOk result (λ done. sum counts.now ≤ 100000) }
    ensures many { IfErr result (λ refusal. few_cells_of (sum counts.now) ≡ Err refusal) }
    ensures not_failed { IsErrOf result StoreFailed → ⊥ }
    ensures refused { IfErr result IsPathRefusal }
{
    let all = sum_of(counts);
    if all > 100_000 {
        return Err(Refusal::TooManySegments { cells: all });
    }
    Ok(())
}

// Looks at all pieces of a sequence.
pub(crate) fn all_needed<S: Store>(
    alloc: Global,
    files: &mut S,
    cut: Cut<'_>,
    asked: Asked,
) -> Result<Needed, Refusal>
    ensures told { IfSome (S.content files.old) (λ known.
        AreLooks known cut.entry.edits asked cut.entry.timeline.now.pieces result (S.log files.old) (S.log files.new)) }
    ensures placed { IfOk result (λ needed. ArePlacedRows (part_rows needed.rows)) }
    ensures content { S.content files.new ≡ S.content files.old }
    ensures later { S.faults files.old ≤ S.faults files.new }
    ensures store_failed { IsErrOf result StoreFailed → Rose (S.faults files.old) (S.faults files.new) }
    ensures refused { IfErr result IsPathRefusal }
{
    needed_of(
        alloc,
        files,
        cut.edits,
        asked,
        pieces_of(cut.timeline),
        None,
    )
}

fn pieces_of(timeline: &Timeline) -> &[Piece]
    ensures pieces { result.now ≡ timeline.now.pieces }
    ensures each { All IsPiece result.now }
    ensures few { length result.now ≤ 1024 }
{
    &timeline.pieces
}

// The listed segments of parts with so many cells, over the samples of all of their pieces. The only refusal is
// `NoMemory`.
fn needed_rows(
    alloc: Global,
    cut: Cut<'_>,
    counts: &[u64],
    asked: Asked,
    needed: &Needed,
) -> Result<Vec<Listed>, Refusal>
    requires counts { length counts.now ≡ length cut.timeline.now.parts }
    requires few { sum counts.now ≤ 100000 }
    requires placed { ArePlacedRows (part_rows needed.now.rows) }
    ensures listed { IfOk result (λ out. (all : List CheckedPiece) → map (λ c. c.piece) all ≡ cut.entry.timeline.now.pieces → AreNeeded all needed.now →
        counts.now ≡ cell_counts cut.entry.grid.now cut.entry.align (map (part_over (map source_piece all)) cut.entry.timeline.now.parts) →
        map listed_view out.items ≡ listed (lead_of_asked asked) cut.entry.grid.now cut.entry.align (map (part_over (map source_piece all)) cut.entry.timeline.now.parts)) }
    ensures parts { IfOk result (λ out. All HasPart out.items) }
    ensures only { IfErr result (λ refusal. refusal ≡ NoMemory) }
{
    let rows = RowSlices {
        lead: &needed.rows.lead,
        other: &needed.rows.other,
    };
    list_parts(
        alloc,
        cut,
        parts_of(cut.timeline),
        counts,
        lead_of(asked),
        rows,
    )
}

// The kind of the track that leads.
fn lead_of(asked: Asked) -> Kind
    ensures { result ≡ lead_of_asked asked }
{
    match asked.video {
        Some(_) => Kind::Video,
        None => Kind::Audio,
    }
}
