//! Initialization segments, over the metadata that are kept.

ghost use Rattle.std.specs.Prelude.{◌≡◌, ◌≤◌, length, not, Bool, IfErr, IfSome, IsErrOf, Option};
ghost use Rattle.std.specs.Int.{IsInRange};
ghost use Rattle.vod_types.specs.declared.paths.ByteRange.{ByteRange};
ghost use Rattle.vod_types.specs.declared.paths.Leaf.TheVariants.{Init};
ghost use Rattle.vod_types.specs.declared.refusal.Refusal.TheVariants.{StoreFailed};
ghost use Rattle.vod_types.specs.Settled.{Settled};
ghost use Rattle.vod_source.specs.Calls.{AnswersUnlessFailed, LogsReads};
ghost use Rattle.vod_source.specs.Causes.{Rose};
ghost use Rattle.list_model.specs.Path.{is_local};
ghost use Rattle.origin_model.specs.Reads.{mapping_reads_by};
ghost use Rattle.origin_model.specs.Requests.{target_names};
ghost use Rattle.answer_laws.specs.Refusals.{IsPathRefusal};
ghost use Rattle.flat_lists.specs.Asked.{setup_of};
ghost use Rattle.mp4_flat.specs.Asks.{IsPathAsk};
ghost use Rattle.seek_lists.specs.Inits.{init_names, part_init};
ghost use Rattle.vod_plan.specs.Turned.{AreTurns};
ghost use Rattle.vod_origin.specs.Begun.{asked_answer, Begins, Replies};
ghost use Rattle.vod_origin.specs.Held.{AreHeld};
ghost use Rattle.vod_origin.specs.Reads.{cache_of, ReadsForAsk};
ghost use Rattle.vod_origin.specs.Wanted.{timeline_due};

use crate::bodies::begun;
use crate::cursor::Cursor;
use crate::plans::kept;
use flat_lists::asking_of;
use mp4_flat::FlatBody;
use seek_lists::init;
use seq_timeline::Timeline;
use std::alloc::Global;
use vod_http::Reply;
use vod_meta::Metas;
use vod_source::Store;
use vod_types::{Ask, Asked, Refusal, Settings};

/// The reply with the initialization segment of the asked tracks of a part of a sequence.
pub(crate) fn init_reply<S: Store>(
    alloc: Global,
    metas: &mut Option<Metas>,
    store: &mut S,
    settings: &Settings,
    root: &str,
    ask: Ask,
    part: u32,
    sequence: u32,
    asked: Asked,
) -> Reply<Cursor>
    requires ask { IsPathAsk ask }
    requires leaf { ask.leaf ≡ Init part sequence asked }
    requires held { AreHeld (S.content store.old) metas.old }
    ensures replies { Replies (asked_answer settings.now root.now ask (S.content store.old)) (S.faults store.old) (S.faults store.new) result }
    ensures begins { Begins (asked_answer settings.now root.now ask (S.content store.old)) (S.content store.old) result }
    ensures reads { (head_only : Bool) (range : Option ByteRange) → IfSome (S.content store.old) (λ files.
        ReadsForAsk (setup_of settings.now root.now files) head_only range ask result (cache_of metas.old) (cache_of metas.new) (S.log store.old) (S.log store.new)) }
    ensures held { AreHeld (S.content store.new) metas.new }
    ensures content { S.content store.new ≡ S.content store.old }
    ensures later { S.faults store.old ≤ S.faults store.new }
{
    let leaf = ask.leaf;
    let timeline = match sequence_timeline(alloc, store, root, ask, sequence) {
        Ok(timeline) => timeline,
        Err(refusal) => return Reply::Refused(refusal),
    };
    match init_of_part(alloc, metas, store, settings, &timeline, part, asked) {
        Ok(bytes) => begun(leaf, FlatBody { bytes, cut: None }),
        Err(refusal) => Reply::Refused(refusal),
    }
}

/// The timeline of a sequence by its number from 1 in what a request asks for. Of the store a mapping file is read alone.
pub(crate) fn sequence_timeline<S: Store>(
    alloc: Global,
    store: &mut S,
    root: &str,
    ask: Ask,
    sequence: u32,
) -> Result<Timeline, Refusal>
    requires names { IsInRange 1 32 (length (target_names ask.target)) }
    ensures told { IfSome (S.content store.old) (λ files. (settings : Settled) →
        AnswersUnlessFailed (λ t. t) result (timeline_due (setup_of settings root.now files) ask sequence)) }
    ensures logged { IfSome (S.content store.old) (λ files. (settings : Settled) →
        LogsReads result (mapping_reads_by (setup_of settings root.now files) (is_local ask.place) ask.target) (S.log store.old) (S.log store.new)) }
    ensures refused { IfErr result IsPathRefusal }
    ensures content { S.content store.new ≡ S.content store.old }
    ensures later { S.faults store.old ≤ S.faults store.new }
    ensures store_failed { IsErrOf result StoreFailed → Rose (S.faults store.old) (S.faults store.new) }
{
    match asking_of(alloc, store, root, ask) {
        Ok(asking) => asking.timeline(alloc, root, sequence),
        Err(refusal) => Err(refusal),
    }
}

// The initialization segment of a part of a timeline.
fn init_of_part<S: Store>(
    alloc: Global,
    metas: &mut Option<Metas>,
    store: &mut S,
    settings: &Settings,
    timeline: &Timeline,
    part: u32,
    asked: Asked,
) -> Result<Vec<u8>, Refusal>
    requires held { AreHeld (S.content store.old) metas.old }
    ensures told { IfSome (S.content store.old) (λ files.
        AnswersUnlessFailed (λ bytes. bytes.items) result (part_init files (not settings.now.ignore_edits) asked timeline.now part)) }
    ensures turned { IfSome (S.content store.old) (λ files.
        AreTurns files (init_names timeline.now part) result (cache_of metas.old) (cache_of metas.new) (S.log store.old) (S.log store.new)) }
    ensures held { AreHeld (S.content store.new) metas.new }
    ensures refused { IfErr result IsPathRefusal }
    ensures content { S.content store.new ≡ S.content store.old }
    ensures later { S.faults store.old ≤ S.faults store.new }
    ensures store_failed { IsErrOf result StoreFailed → Rose (S.faults store.old) (S.faults store.new) }
{
    let mut held = match kept(alloc, metas.take()) {
        Ok(held) => held,
        Err(refusal) => return Err(refusal),
    };
    let bytes = init(
        alloc,
        &mut held,
        store,
        timeline,
        part,
        asked,
        !settings.ignore_edits,
    );
    *metas = Some(held);
    bytes
}
