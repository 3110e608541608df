//! The I-frames of a sequence.

ghost use Rattle.std.specs.Prelude.{◌≡◌, ◌≢◌, ◌≤◌, true, false, length, sum, IfErr, IfOk, IfSome, IsErrOf};
ghost use Rattle.vod_types.specs.declared.refusal.Refusal.TheVariants.{NoMemory, StoreFailed};
ghost use Rattle.vod_types.specs.Tracks.{video_alone};
ghost use Rattle.vod_source.specs.Calls.{Came};
ghost use Rattle.vod_source.specs.Causes.{Rose};
ghost use Rattle.origin_model.specs.Iframes.{planned_iframes};
ghost use Rattle.origin_model.specs.Sources.{is_declared};
ghost use Rattle.answer_laws.specs.Refusals.{IsPathRefusal};
ghost use Rattle.flat_lists.specs.Counted.{AreFew, AreMore, CountedAt, OfIframes};
ghost use Rattle.flat_lists.specs.Listings.{rows_turns};
ghost use Rattle.flat_segments.specs.Planned.{cutting_of};
ghost use Rattle.flat_samples.specs.Rows.{part_rows, ArePlacedRows};

use crate::iframe_marks::marks_of_parts;
use crate::listed_part::RowSlices;
use crate::listed_timeline::{all_needed, few_cells};
use crate::marked_rows::listed_rows;
use flat_segments::{Cut, Needed, counts_of, is_declared, length_of, part_at, parts_of};
use segmenter::cells;
use std::alloc::Global;
use vod_source::Store;
use vod_types::{Asked, IframeRow, Refusal};

// How many cells each part of a sequence has, and the samples of all of its pieces.
#[derive(Debug, Drop)]
struct Counted {
    counts: Vec<u64>,
    needed: Needed,
}

/// The I-frames of all listed segments of a video track, which is asked alone, in order.
///
/// Its refusals are those of the media playlist of that track, and `TooManyIframes` where there are more than 100,000.
pub fn iframe_rows<S: Store>(
    alloc: Global,
    files: &mut S,
    cut: Cut<'_>,
    video: u8,
) -> Result<Vec<IframeRow>, Refusal>
    ensures told { IfSome (S.content files.old) (λ known.
        Came (λ rows. rows.items) result (planned_iframes (cutting_of known cut.entry.grid.now cut.entry.align cut.entry.edits) video cut.entry.timeline.now)
        (rows_turns (cutting_of known cut.entry.grid.now cut.entry.align cut.entry.edits) (video_alone video) cut.entry.timeline.now) (S.log files.old) (S.log files.new)) }
    ensures content { S.content files.new ≡ S.content files.old }
    ensures later { S.faults files.old ≤ S.faults files.new }
    ensures store_failed { IsErrOf result StoreFailed → Rose (S.faults files.old) (S.faults files.new) }
    ensures refused { IfErr result IsPathRefusal }
{
    let asked = Asked {
        video: Some(video),
        audio: None,
    };
    match count_cells(alloc, files, cut, asked) {
        Ok(counted) => counted_rows(alloc, cut, &counted),
        Err(refusal) => Err(refusal),
    }
}

// The refusals are those of the listed segments.
fn count_cells<S: Store>(
    alloc: Global,
    files: &mut S,
    cut: Cut<'_>,
    asked: Asked,
) -> Result<Counted, Refusal>
    ensures told { IfSome (S.content files.old) (λ known.
        CountedAt known cut.entry.grid.now cut.entry.align cut.entry.edits asked cut.entry.timeline.now result (S.log files.old) (S.log files.new)) }
    ensures many { IfOk result (λ c. length c.counts.items ≡ length cut.entry.timeline.now.parts) }
    ensures few { IfOk result (λ c. sum c.counts.items ≤ 100000) }
    ensures placed { IfOk result (λ c. ArePlacedRows (part_rows c.needed.rows)) }
    ensures content { S.content files.new ≡ S.content files.old }
    ensures later { S.faults files.old ≤ S.faults files.new }
    ensures store_failed { IsErrOf result StoreFailed → Rose (S.faults files.old) (S.faults files.new) }
    ensures refused { IfErr result IsPathRefusal }
{
    if is_declared(parts_of(cut.timeline)) {
        count_declared(alloc, files, cut, asked)
    } else {
        count_open(alloc, files, cut, asked)
    }
}

// The same where all lengths are declared.
fn count_declared<S: Store>(
    alloc: Global,
    files: &mut S,
    cut: Cut<'_>,
    asked: Asked,
) -> Result<Counted, Refusal>
    requires declared { is_declared cut.timeline.now ≡ true }
    ensures told { IfSome (S.content files.old) (λ known.
        CountedAt known cut.entry.grid.now cut.entry.align cut.entry.edits asked cut.entry.timeline.now result (S.log files.old) (S.log files.new)) }
    ensures many { IfOk result (λ c. length c.counts.items ≡ length cut.entry.timeline.now.parts) }
    ensures few { IfOk result (λ c. sum c.counts.items ≤ 100000) }
    ensures placed { IfOk result (λ c. ArePlacedRows (part_rows c.needed.rows)) }
    ensures content { S.content files.new ≡ S.content files.old }
    ensures later { S.faults files.old ≤ S.faults files.new }
    ensures store_failed { IsErrOf result StoreFailed → Rose (S.faults files.old) (S.faults files.new) }
    ensures refused { IfErr result IsPathRefusal }
{
    let counts = match counts_of(alloc, cut.grid, parts_of(cut.timeline)) {
        Ok(counts) => counts,
        Err(refusal) => return Err(refusal),
    };
    match few_cells(&counts) {
        Ok(()) => {}
        Err(refusal) => return Err(refusal),
    }
    match all_needed(alloc, files, cut, asked) {
        Ok(needed) => Ok(Counted { counts, needed }),
        Err(refusal) => Err(refusal),
    }
}

// The same of one part and one piece, whose length is not declared.
fn count_open<S: Store>(
    alloc: Global,
    files: &mut S,
    cut: Cut<'_>,
    asked: Asked,
) -> Result<Counted, Refusal>
    requires declared { is_declared cut.timeline.now ≡ false }
    ensures told { IfSome (S.content files.old) (λ known.
        CountedAt known cut.entry.grid.now cut.entry.align cut.entry.edits asked cut.entry.timeline.now result (S.log files.old) (S.log files.new)) }
    ensures many { IfOk result (λ c. length c.counts.items ≡ length cut.entry.timeline.now.parts) }
    ensures few { IfOk result (λ c. sum c.counts.items ≤ 100000) }
    ensures placed { IfOk result (λ c. ArePlacedRows (part_rows c.needed.rows)) }
    ensures content { S.content files.new ≡ S.content files.old }
    ensures later { S.faults files.old ≤ S.faults files.new }
    ensures store_failed { IsErrOf result StoreFailed → Rose (S.faults files.old) (S.faults files.new) }
    ensures refused { IfErr result IsPathRefusal }
{
    let (part, _) = part_at(cut.timeline, 0);
    let needed = match all_needed(alloc, files, cut, asked) {
        Ok(needed) => needed,
        Err(refusal) => return Err(refusal),
    };
    let counts = [cells(cut.grid, length_of(part.start, &needed.rows.lead))];
    match few_cells(&counts) {
        Ok(()) => {}
        Err(refusal) => return Err(refusal),
    }
    match Vec::from_slice(alloc, &counts) {
        Ok(counts) => Ok(Counted { counts, needed }),
        Err(_) => Err(Refusal::NoMemory),
    }
}

// The I-frames of parts with so many cells, unless there are too many.
fn counted_rows(alloc: Global, cut: Cut<'_>, counted: &Counted) -> Result<Vec<IframeRow>, Refusal>
    requires counts { length counted.now.counts.items ≡ length cut.timeline.now.parts }
    requires few { sum counted.now.counts.items ≤ 100000 }
    requires placed { ArePlacedRows (part_rows counted.now.needed.rows) }
    ensures listed { IfOk result (λ rows. OfIframes cut.entry.grid.now cut.entry.align cut.entry.timeline.now counted.now (AreFew rows.items)) }
    ensures more { IfErr result (λ refusal. refusal ≢ NoMemory → OfIframes cut.entry.grid.now cut.entry.align cut.entry.timeline.now counted.now (AreMore refusal)) }
    ensures not_failed { IsErrOf result StoreFailed → ⊥ }
    ensures refused { IfErr result IsPathRefusal }
{
    let rows = RowSlices {
        lead: &counted.needed.rows.lead,
        other: &counted.needed.rows.other,
    };
    let marks = marks_of_parts(alloc, cut, parts_of(cut.timeline), &counted.counts, rows)?;
    listed_rows(alloc, &marks)
}
