//! Clips, whole and in part, over the metadata that are kept.

ghost use Rattle.std.specs.Prelude.{◌≡◌, ◌≤◌, ◌<◌, ◌+◌, ◌-◌, ◌++◌, not, Bool, IfErr, IfOk, IfSome, IsErrOf, None, Ok, Some, length};
ghost use Rattle.vod_types.specs.declared.paths.Leaf.TheVariants as leaves;
ghost use Rattle.vod_types.specs.declared.refusal.Refusal.TheVariants.{StoreFailed};
ghost use Rattle.segment_model.specs.Grid.{SegmentGrid};
ghost use Rattle.list_model.specs.Ranges.{IsByteRange};
ghost use Rattle.vod_source.specs.Calls.{Came};
ghost use Rattle.vod_source.specs.Causes.{Rose};
ghost use Rattle.vod_http.specs.Answered.{IsReply};
ghost use Rattle.origin_model.specs.Clips.{asked_part as asked_part_of};
ghost use Rattle.origin_model.specs.Reads.{turns};
ghost use Rattle.flat_clip.specs.Answers.{due_part, part_view, sample_reads_of, IsClipRefusal};
ghost use Rattle.flat_clip.specs.Rows.{clip_looks, cutting_of};
ghost use Rattle.flat_lists.specs.Asked.{setup_of};
ghost use Rattle.mp4_flat.specs.Asks.{IsPathAsk};
ghost use Rattle.vod_plan.specs.Turned.{LeavesCache};
ghost use Rattle.vod_origin.specs.Begun.{asked_part, Begins, IsMadeReply};
ghost use Rattle.vod_origin.specs.Held.{AreHeld};
ghost use Rattle.vod_origin.specs.Ranges.{clip_of};
ghost use Rattle.vod_origin.specs.Reads.{cache_of, ReadsForAsk};

use crate::cursor::{Cursor, MadeBody};
use crate::inits::sequence_timeline;
use crate::media::media_of;
use crate::plans::kept;
use flat_clip::ClipPart;
use mp4_clip::kept_clip_part;
use mp4_flat::FlatBody;
use seq_timeline::Timeline;
use std::alloc::Global;
use vod_http::Reply;
use vod_meta::Metas;
use vod_source::Store;
use vod_types::{Ask, Asked, ByteRange, Leaf, Media, Refusal, Settings};

/// The reply to a request for a clip, or for the part of it that a range of bytes asks for.
pub(crate) fn clip_reply<S: Store>(
    alloc: Global,
    metas: &mut Option<Metas>,
    store: &mut S,
    settings: &Settings,
    root: &str,
    ask: Ask,
    sequence: u32,
    asked: Asked,
    range: Option<ByteRange>,
) -> Reply<Cursor>
    requires ask { IsPathAsk ask }
    requires leaf { ask.leaf ≡ leaves.Clip sequence asked }
    requires range { IfSome range IsByteRange }
    requires held { AreHeld (S.content store.old) metas.old }
    ensures replies { IsReply range (asked_part settings.now root.now range ask (S.content store.old)) (S.faults store.old) (S.faults store.new) result }
    ensures begins { Begins (asked_part settings.now root.now range ask (S.content store.old)) (S.content store.old) result }
    ensures reads { (head_only : Bool) → IfSome (S.content store.old) (λ files.
        ReadsForAsk (setup_of settings.now root.now files) head_only range ask result (cache_of metas.old) (cache_of metas.new) (S.log store.old) (S.log store.new)) }
    ensures held { AreHeld (S.content store.new) metas.new }
    ensures content { S.content store.new ≡ S.content store.old }
    ensures later { S.faults store.old ≤ S.faults store.new }
{
    let kind = media_of(ask.leaf);
    let timeline = match sequence_timeline(alloc, store, root, ask, sequence) {
        Ok(timeline) => timeline,
        Err(refusal) => return Reply::Refused(refusal),
    };
    let part = match part_of_clip(
        alloc, metas, store, settings, &timeline, sequence, asked, range,
    ) {
        Ok(part) => part,
        Err(refusal) => return Reply::Refused(refusal),
    };
    match range {
        None => whole_reply(kind, part.bytes),
        Some(_) => part_reply(kind, part),
    }
}

// The part that a range asks for of the clip of a sequence with this timeline.
fn part_of_clip<S: Store>(
    alloc: Global,
    metas: &mut Option<Metas>,
    store: &mut S,
    settings: &Settings,
    timeline: &Timeline,
    sequence: u32,
    asked: Asked,
    range: Option<ByteRange>,
) -> Result<ClipPart, Refusal>
    requires held { AreHeld (S.content store.old) metas.old }
    ensures told { IfSome (S.content store.old) (λ files. (grid : SegmentGrid) (align : Bool) →
        Came part_view result (due_part (cutting_of files (not settings.now.ignore_edits) grid align) asked timeline.now sequence range)
        ((turns files (cache_of metas.old) (clip_looks sequence timeline.now)).reads
        ++ sample_reads_of (cutting_of files (not settings.now.ignore_edits) grid align) asked timeline.now sequence range)
        (S.log store.old) (S.log store.new)) }
    ensures cache { IfSome (S.content store.old) (λ files.
        LeavesCache files (clip_looks sequence timeline.now) result (cache_of metas.old) (cache_of metas.new)) }
    ensures held { AreHeld (S.content store.new) metas.new }
    ensures asked { IfOk result (λ part. asked_part_of range part.length ≡ Ok (part.first, part.last)) }
    ensures refused { IfErr result (IsClipRefusal range) }
    ensures content { S.content store.new ≡ S.content store.old }
    ensures later { S.faults store.old ≤ S.faults store.new }
    ensures store_failed { IsErrOf result StoreFailed → Rose (S.faults store.old) (S.faults store.new) }
{
    let mut held = match kept(alloc, metas.take()) {
        Ok(held) => held,
        Err(refusal) => return Err(refusal),
    };
    let part = kept_clip_part(
        alloc,
        &mut held,
        store,
        timeline,
        sequence,
        asked,
        !settings.ignore_edits,
        range,
    );
    *metas = Some(held);
    part
}

/// The sequence and the asked tracks of a clip, where a leaf is that.
pub(crate) fn clip_of(leaf: Leaf) -> Option<(u32, Asked)>
    ensures { result ≡ clip_of leaf }
{
    match leaf {
        Leaf::Clip { sequence, asked } => Some((sequence, asked)),
        Leaf::Master
        | Leaf::Mpd
        | Leaf::Index { .. }
        | Leaf::Init { .. }
        | Leaf::Segment { .. }
        | Leaf::Iframes { .. }
        | Leaf::Iframe { .. } => None,
    }
}

// The reply with a whole clip.
fn whole_reply(kind: Media, bytes: Vec<u8>) -> Reply<Cursor>
    ensures { IsMadeReply kind (length bytes.items) None bytes.items result }
{
    let length = bytes.len() as u64;
    made_reply(kind, length, None, bytes)
}

// The reply with a part of a clip.
fn part_reply(kind: Media, part: ClipPart) -> Reply<Cursor>
    requires ordered { part.first ≤ part.last }
    requires within { part.last < part.length }
    ensures { IsMadeReply kind (part.last + 1 - part.first) (Some (part.first, part.last, part.length)) part.bytes.items result }
{
    let told = (part.first, part.last, part.length);
    made_reply(kind, part.last + 1 - part.first, Some(told), part.bytes)
}

// The reply with bytes of which none is written.
fn made_reply(
    kind: Media,
    length: u64,
    part: Option<(u64, u64, u64)>,
    bytes: Vec<u8>,
) -> Reply<Cursor>
    ensures { IsMadeReply kind length part bytes.items result }
{
    Reply::Body {
        kind,
        length: Some(length),
        part,
        cursor: Cursor::Made(MadeBody {
            body: FlatBody { bytes, cut: None },
            in_packets: false,
            waits: true,
        }),
    }
}
