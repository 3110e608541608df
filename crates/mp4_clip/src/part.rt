//! The part of a clip that is asked for, over the metadata that are kept.

ghost use Rattle.std.specs.Prelude.{◌≡◌, ◌++◌, ◌≤◌, ◌<◌, [], ◌∷◌, ◌≢◌, length, Bool, Ok, IfErr, IfOk, IfSome, IsErrOf};
ghost use Rattle.std.specs.Rc.{rc_value};
ghost use Rattle.vod_types.specs.declared.refusal.Refusal.TheVariants.{StoreFailed};
ghost use Rattle.vod_types.specs.Results.{Answers};
ghost use Rattle.segment_model.specs.Grid.{SegmentGrid};
ghost use Rattle.vod_source.specs.Calls.{AnswersUnlessFailed, Came};
ghost use Rattle.vod_source.specs.Causes.{Rose};
ghost use Rattle.vod_source.specs.Stored.{bytes_of};
ghost use Rattle.origin_model.specs.Clips.{asked_part as asked_part_of, planned_clip};
ghost use Rattle.origin_model.specs.Reads.{turns};
ghost use Rattle.answer_laws.specs.Refusals.{IsPathRefusal};
ghost use Rattle.flat_clip.specs.Answers.{due_part, part_view, sample_reads_of, IsClipRefusal};
ghost use Rattle.flat_clip.specs.Rows.{as_facts, clip_looks, cutting_of, facts_of, IsSmallClip};
ghost use Rattle.vod_meta.specs.Held.{names_held, AreTrue};
ghost use Rattle.vod_plan.specs.Turned.{AreTurns, LeavesCache};
ghost use Rattle.mp4_clip.specs.Kept.{due_clip, piece_facts};

use crate::making::clip;
use clip_model::Piece;
use flat_clip::{ClipPart, ClipRows, one_piece, rows_part};
use seq_timeline::Timeline;
use std::alloc::Global;
use std::marker::Brand;
use std::rc::Rc;
use std::sync::ledger::{Blank, Ledger};
use vod_meta::{Meta, Metas};
use vod_plan::loaded;
use vod_source::Store;
use vod_types::{Asked, ByteRange, Refusal, Steps};

/// The clip of a sequence with this timeline, or the part of it that a range asks for, with the edits of its tracks where `edits`
/// are honoured. Of the file, the movie is read unless it is kept, and of the samples the bytes that are in the part.
///
/// Refused with `ManyPieces`, with the first fault of the piece, with `EmptyClip`, with `TooManySamples`, with `SegmentTooLarge`,
/// with `BadRange` where the range begins behind the clip, and with `SampleTooLong` or `OutOfFile` of a sample that has bytes in
/// the part.
pub fn kept_clip_part<S: Store>(
    alloc: Global,
    metas: &mut Metas,
    store: &mut S,
    timeline: &Timeline,
    sequence: u32,
    asked: Asked,
    edits: bool,
    range: Option<ByteRange>,
) -> Result<ClipPart, Refusal>
    requires held { IfSome (S.content store.old) (λ files. AreTrue files metas.old) }
    ensures told { IfSome (S.content store.old) (λ files. (grid : SegmentGrid) (align : Bool) →
        Came part_view result (due_part (cutting_of files edits grid align) asked timeline.now sequence range)
        ((turns files (names_held metas.old) (clip_looks sequence timeline.now)).reads
        ++ sample_reads_of (cutting_of files edits grid align) asked timeline.now sequence range)
        (S.log store.old) (S.log store.new)) }
    ensures cache { IfSome (S.content store.old) (λ files.
        LeavesCache files (clip_looks sequence timeline.now) result (names_held metas.old) (names_held metas.new)) }
    ensures held { IfSome (S.content store.old) (λ files. AreTrue files metas.new) }
    ensures content { S.content store.new ≡ S.content store.old }
    ensures later { S.faults store.old ≤ S.faults store.new }
    ensures store_failed { IsErrOf result StoreFailed → Rose (S.faults store.old) (S.faults store.new) }
    ensures asked { IfOk result (λ p. asked_part_of range p.length ≡ Ok (p.first, p.last)) }
    ensures refused { IfErr result (IsClipRefusal range) }
{
    match clip_rows(alloc, metas, store, timeline, sequence, asked, edits) {
        Ok(rows) => rows_part(alloc, store, &rows, range),
        Err(refusal) => Err(refusal),
    }
}

// The rows of the clip of a sequence. Of its file the movie is read alone, and one that is kept not at all.
fn clip_rows<S: Store>(
    alloc: Global,
    metas: &mut Metas,
    store: &mut S,
    timeline: &Timeline,
    sequence: u32,
    asked: Asked,
    edits: bool,
) -> Result<ClipRows, Refusal>
    requires held { IfSome (S.content store.old) (λ files. AreTrue files metas.old) }
    ensures told { IfSome (S.content store.old) (λ files. (grid : SegmentGrid) (align : Bool) →
        AnswersUnlessFailed facts_of result (as_facts (planned_clip (cutting_of files edits grid align) asked timeline.now sequence))) }
    ensures turned { IfSome (S.content store.old) (λ files.
        AreTurns files (clip_looks sequence timeline.now) result (names_held metas.old) (names_held metas.new) (S.log store.old) (S.log store.new)) }
    ensures sized { IfOk result (λ rows. IfSome (S.content store.old) (λ files. length (bytes_of files rows.name) ≡ rows.file_size)) }
    ensures small { IfOk result (λ rows. IsSmallClip (facts_of rows)) }
    ensures held { IfSome (S.content store.old) (λ files. AreTrue files metas.new) }
    ensures content { S.content store.new ≡ S.content store.old }
    ensures later { S.faults store.old ≤ S.faults store.new }
    ensures store_failed { IsErrOf result StoreFailed → Rose (S.faults store.old) (S.faults store.new) }
    ensures refused { IfErr result IsPathRefusal }
{
    match one_piece(timeline, sequence) {
        Ok(piece) => piece_rows(alloc, metas, store, piece, sequence, asked, edits),
        Err(refusal) => Err(refusal),
    }
}

// The rows of the clip of a piece, where a sequence of this number is refused.
fn piece_rows<S: Store>(
    alloc: Global,
    metas: &mut Metas,
    store: &mut S,
    piece: &Piece,
    sequence: u32,
    asked: Asked,
    edits: bool,
) -> Result<ClipRows, Refusal>
    requires held { IfSome (S.content store.old) (λ files. AreTrue files metas.old) }
    ensures told { IfSome (S.content store.old) (λ files.
        AnswersUnlessFailed facts_of result (piece_facts files edits asked sequence piece.now)) }
    ensures turned { IfSome (S.content store.old) (λ files.
        AreTurns files (piece.now.name ∷ []) result (names_held metas.old) (names_held metas.new) (S.log store.old) (S.log store.new)) }
    ensures sized { IfOk result (λ rows. IfSome (S.content store.old) (λ files. length (bytes_of files rows.name) ≡ rows.file_size)) }
    ensures small { IfOk result (λ rows. IsSmallClip (facts_of rows)) }
    ensures held { IfSome (S.content store.old) (λ files. AreTrue files metas.new) }
    ensures content { S.content store.new ≡ S.content store.old }
    ensures later { S.faults store.old ≤ S.faults store.new }
    ensures store_failed { IsErrOf result StoreFailed → Rose (S.faults store.old) (S.faults store.new) }
    ensures refused { IfErr result IsPathRefusal }
{
    match loaded(alloc, metas, store, piece) {
        Ok(meta) => rows_in::<Brand>(alloc, meta, piece, sequence, asked, edits, Blank::new(1)),
        Err(refusal) => Err(refusal),
    }
}

// The rows of the clip of a piece in the metadata of its file, with a counter of its own for the looks at the tables.
fn rows_in<L: Ledger>(
    alloc: Global,
    meta: Rc<Meta>,
    piece: &Piece,
    sequence: u32,
    asked: Asked,
    edits: bool,
    blank: Blank,
) -> Result<ClipRows, Refusal>
    requires name { blank.name ≡ L.name }
    requires parts { blank.parts ≡ L.parts }
    requires some { 0 < L.parts }
    requires named { (rc_value meta).name ≡ piece.now.name }
    ensures answers { Answers facts_of result (as_facts (due_clip (rc_value meta) piece.now sequence asked edits)) }
    ensures small { IfOk result (λ rows. IsSmallClip (facts_of rows)) }
    ensures not_failed { IfErr result (λ refusal. refusal ≢ StoreFailed) }
    ensures refused { IfErr result IsPathRefusal }
{
    let mut steps = Steps::<L>::start(blank);
    let clip = match clip(alloc, meta, piece, sequence, asked, edits, &mut steps) {
        Ok(clip) => clip,
        Err(refusal) => return Err(refusal),
    };
    match clip.written(alloc) {
        Ok(rows) => Ok(rows),
        Err(_) => Err(Refusal::NoMemory),
    }
}
