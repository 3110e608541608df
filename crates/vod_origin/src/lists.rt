//! Lists of which the rows are found by seeks.

ghost use Rattle.std.specs.Prelude.{◌≡◌, ◌≤◌, ◌<◌, Bool, Option, map, All, IfErr, IfOk, IfSome, IsErrOf};
ghost use Rattle.vod_types.specs.declared.paths.ByteRange.{ByteRange};
ghost use Rattle.vod_types.specs.declared.paths.Leaf.TheVariants.{Iframes, Index};
ghost use Rattle.vod_types.specs.declared.refusal.Refusal.TheVariants.{StoreFailed};
ghost use Rattle.vod_types.specs.Tracks.{video_alone};
ghost use Rattle.segment_model.specs.Listing.{listed_view};
ghost use Rattle.vod_source.specs.Calls.{AnswersUnlessFailed};
ghost use Rattle.vod_source.specs.Causes.{Rose};
ghost use Rattle.origin_model.specs.Iframes.{planned_iframes};
ghost use Rattle.origin_model.specs.Plans.{planned_rows, rows_looks};
ghost use Rattle.answer_laws.specs.Refusals.{IsPathRefusal};
ghost use Rattle.flat_lists.specs.Asked.{setup_of};
ghost use Rattle.flat_lists.specs.Listings.{HasPart};
ghost use Rattle.mp4_flat.specs.Asks.{IsPathAsk};
ghost use Rattle.vod_meta.specs.Held.{names_held, AreTrue};
ghost use Rattle.vod_plan.specs.Looks.{names_of};
ghost use Rattle.vod_plan.specs.Planned.{cutting_of};
ghost use Rattle.vod_plan.specs.Turned.{AreTurns};
ghost use Rattle.vod_origin.specs.Begun.{asked_answer, Begins, Replies};
ghost use Rattle.vod_origin.specs.Held.{AreHeld};
ghost use Rattle.vod_origin.specs.Reads.{cache_of, ReadsForAsk};

use crate::bodies::begun;
use crate::cursor::Cursor;
use crate::plans::{SequenceCut, kept, sequence_cut};
use mp4_flat::{FlatBody, iframe_playlist_of, playlist_of};
use std::alloc::Global;
use std::marker::Brand;
use std::sync::ledger::{Blank, Ledger};
use vod_http::Reply;
use vod_meta::Metas;
use vod_plan::{iframes, rows};
use vod_source::Store;
use vod_types::{Ask, Asked, IframeRow, Listed, Refusal, Settings, Steps};

/// The reply with the media playlist of the asked tracks of a sequence.
pub(crate) fn playlist_reply<S: Store>(
    alloc: Global,
    metas: &mut Option<Metas>,
    store: &mut S,
    settings: &Settings,
    root: &str,
    ask: Ask,
    sequence: u32,
    asked: Asked,
) -> Reply<Cursor>
    requires ask { IsPathAsk ask }
    requires leaf { ask.leaf ≡ Index sequence asked }
    requires held { AreHeld (S.content store.old) metas.old }
    ensures replies { Replies (asked_answer settings.now root.now ask (S.content store.old)) (S.faults store.old) (S.faults store.new) result }
    ensures begins { Begins (asked_answer settings.now root.now ask (S.content store.old)) (S.content store.old) result }
    ensures reads { (head_only : Bool) (range : Option ByteRange) → IfSome (S.content store.old) (λ files.
        ReadsForAsk (setup_of settings.now root.now files) head_only range ask result (cache_of metas.old) (cache_of metas.new) (S.log store.old) (S.log store.new)) }
    ensures held { AreHeld (S.content store.new) metas.new }
    ensures content { S.content store.new ≡ S.content store.old }
    ensures later { S.faults store.old ≤ S.faults store.new }
{
    let leaf = ask.leaf;
    let cut = match sequence_cut(alloc, store, settings, root, ask, sequence) {
        Ok(cut) => cut,
        Err(refusal) => return Reply::Refused(refusal),
    };
    let listed = match listed(alloc, metas, store, &cut, asked) {
        Ok(listed) => listed,
        Err(refusal) => return Reply::Refused(refusal),
    };
    match playlist_of(alloc, &listed, sequence, asked, settings.hls_fmp4) {
        Ok(bytes) => begun(leaf, FlatBody { bytes, cut: None }),
        Err(refusal) => Reply::Refused(refusal),
    }
}

/// The reply with the I-frame playlist of a video track of a sequence.
pub(crate) fn iframes_reply<S: Store>(
    alloc: Global,
    metas: &mut Option<Metas>,
    store: &mut S,
    settings: &Settings,
    root: &str,
    ask: Ask,
    sequence: u32,
    video: u8,
) -> Reply<Cursor>
    requires ask { IsPathAsk ask }
    requires leaf { ask.leaf ≡ Iframes sequence video }
    requires held { AreHeld (S.content store.old) metas.old }
    ensures replies { Replies (asked_answer settings.now root.now ask (S.content store.old)) (S.faults store.old) (S.faults store.new) result }
    ensures begins { Begins (asked_answer settings.now root.now ask (S.content store.old)) (S.content store.old) result }
    ensures reads { (head_only : Bool) (range : Option ByteRange) → IfSome (S.content store.old) (λ files.
        ReadsForAsk (setup_of settings.now root.now files) head_only range ask result (cache_of metas.old) (cache_of metas.new) (S.log store.old) (S.log store.new)) }
    ensures held { AreHeld (S.content store.new) metas.new }
    ensures content { S.content store.new ≡ S.content store.old }
    ensures later { S.faults store.old ≤ S.faults store.new }
{
    let leaf = ask.leaf;
    let cut = match sequence_cut(alloc, store, settings, root, ask, sequence) {
        Ok(cut) => cut,
        Err(refusal) => return Reply::Refused(refusal),
    };
    let marked = match marked(alloc, metas, store, &cut, video) {
        Ok(marked) => marked,
        Err(refusal) => return Reply::Refused(refusal),
    };
    match iframe_playlist_of(alloc, &marked, sequence, video) {
        Ok(bytes) => begun(leaf, FlatBody { bytes, cut: None }),
        Err(refusal) => Reply::Refused(refusal),
    }
}

/// The listed segments of a sequence, over the metadata that are kept.
pub(crate) fn listed<S: Store>(
    alloc: Global,
    metas: &mut Option<Metas>,
    store: &mut S,
    cut: &SequenceCut,
    asked: Asked,
) -> Result<Vec<Listed>, Refusal>
    requires held { AreHeld (S.content store.old) metas.old }
    ensures told { IfSome (S.content store.old) (λ files.
        AnswersUnlessFailed (λ rows. map listed_view rows.items) result (planned_rows (cutting_of files cut.now.grid cut.now.align cut.now.edits) asked cut.now.timeline)) }
    ensures parts { IfOk result (λ rows. All HasPart rows.items) }
    ensures turned { IfSome (S.content store.old) (λ files.
        AreTurns files (names_of (rows_looks (cutting_of files cut.now.grid cut.now.align cut.now.edits) asked cut.now.timeline)) result
        (cache_of metas.old) (cache_of metas.new) (S.log store.old) (S.log store.new)) }
    ensures held { AreHeld (S.content store.new) metas.new }
    ensures refused { IfErr result IsPathRefusal }
    ensures content { S.content store.new ≡ S.content store.old }
    ensures later { S.faults store.old ≤ S.faults store.new }
    ensures store_failed { IsErrOf result StoreFailed → Rose (S.faults store.old) (S.faults store.new) }
{
    let mut held = match kept(alloc, metas.take()) {
        Ok(held) => held,
        Err(refusal) => return Err(refusal),
    };
    let listed = listed_over::<S, Brand>(alloc, &mut held, store, cut, asked, Blank::new(1));
    *metas = Some(held);
    listed
}

// The listed segments over these metadata, with a counter of its own for the looks at the tables.
fn listed_over<S: Store, L: Ledger>(
    alloc: Global,
    metas: &mut Metas,
    store: &mut S,
    cut: &SequenceCut,
    asked: Asked,
    blank: Blank,
) -> Result<Vec<Listed>, Refusal>
    requires name { blank.name ≡ L.name }
    requires parts { blank.parts ≡ L.parts }
    requires some { 0 < L.parts }
    requires held { IfSome (S.content store.old) (λ files. AreTrue files metas.old) }
    ensures told { IfSome (S.content store.old) (λ files.
        AnswersUnlessFailed (λ rows. map listed_view rows.items) result (planned_rows (cutting_of files cut.now.grid cut.now.align cut.now.edits) asked cut.now.timeline)) }
    ensures parts { IfOk result (λ rows. All HasPart rows.items) }
    ensures turned { IfSome (S.content store.old) (λ files.
        AreTurns files (names_of (rows_looks (cutting_of files cut.now.grid cut.now.align cut.now.edits) asked cut.now.timeline)) result
        (names_held metas.old) (names_held metas.new) (S.log store.old) (S.log store.new)) }
    ensures held { IfSome (S.content store.old) (λ files. AreTrue files metas.new) }
    ensures refused { IfErr result IsPathRefusal }
    ensures content { S.content store.new ≡ S.content store.old }
    ensures later { S.faults store.old ≤ S.faults store.new }
    ensures store_failed { IsErrOf result StoreFailed → Rose (S.faults store.old) (S.faults store.new) }
{
    let mut steps = Steps::<L>::start(blank);
    rows(
        alloc,
        metas,
        store,
        &cut.timeline,
        &cut.grid,
        cut.align,
        cut.edits,
        asked,
        &mut steps,
    )
}

// The I-frames of a video track of a sequence, over the metadata that are kept.
fn marked<S: Store>(
    alloc: Global,
    metas: &mut Option<Metas>,
    store: &mut S,
    cut: &SequenceCut,
    video: u8,
) -> Result<Vec<IframeRow>, Refusal>
    requires held { AreHeld (S.content store.old) metas.old }
    ensures told { IfSome (S.content store.old) (λ files.
        AnswersUnlessFailed (λ rows. rows.items) result (planned_iframes (cutting_of files cut.now.grid cut.now.align cut.now.edits) video cut.now.timeline)) }
    ensures turned { IfSome (S.content store.old) (λ files.
        AreTurns files (names_of (rows_looks (cutting_of files cut.now.grid cut.now.align cut.now.edits) (video_alone video) cut.now.timeline)) result
        (cache_of metas.old) (cache_of metas.new) (S.log store.old) (S.log store.new)) }
    ensures held { AreHeld (S.content store.new) metas.new }
    ensures refused { IfErr result IsPathRefusal }
    ensures content { S.content store.new ≡ S.content store.old }
    ensures later { S.faults store.old ≤ S.faults store.new }
    ensures store_failed { IsErrOf result StoreFailed → Rose (S.faults store.old) (S.faults store.new) }
{
    let mut held = match kept(alloc, metas.take()) {
        Ok(held) => held,
        Err(refusal) => return Err(refusal),
    };
    let marked = marked_over::<S, Brand>(alloc, &mut held, store, cut, video, Blank::new(1));
    *metas = Some(held);
    marked
}

// The I-frames over these metadata, with a counter of its own for the looks at the tables.
fn marked_over<S: Store, L: Ledger>(
    alloc: Global,
    metas: &mut Metas,
    store: &mut S,
    cut: &SequenceCut,
    video: u8,
    blank: Blank,
) -> Result<Vec<IframeRow>, Refusal>
    requires name { blank.name ≡ L.name }
    requires parts { blank.parts ≡ L.parts }
    requires some { 0 < L.parts }
    requires held { IfSome (S.content store.old) (λ files. AreTrue files metas.old) }
    ensures told { IfSome (S.content store.old) (λ files.
        AnswersUnlessFailed (λ rows. rows.items) result (planned_iframes (cutting_of files cut.now.grid cut.now.align cut.now.edits) video cut.now.timeline)) }
    ensures turned { IfSome (S.content store.old) (λ files.
        AreTurns files (names_of (rows_looks (cutting_of files cut.now.grid cut.now.align cut.now.edits) (video_alone video) cut.now.timeline)) result
        (names_held metas.old) (names_held metas.new) (S.log store.old) (S.log store.new)) }
    ensures held { IfSome (S.content store.old) (λ files. AreTrue files metas.new) }
    ensures refused { IfErr result IsPathRefusal }
    ensures content { S.content store.new ≡ S.content store.old }
    ensures later { S.faults store.old ≤ S.faults store.new }
    ensures store_failed { IsErrOf result StoreFailed → Rose (S.faults store.old) (S.faults store.new) }
{
    let mut steps = Steps::<L>::start(blank);
    iframes(
        alloc,
        metas,
        store,
        &cut.timeline,
        &cut.grid,
        cut.align,
        cut.edits,
        video,
        &mut steps,
    )
}
