//! What a request is replied.

ghost use Rattle.std.specs.Prelude.{◌≡◌, ◌≤◌, Bool, false, IfSome, None, Option};
ghost use Rattle.vod_types.specs.declared.paths.ByteRange.{ByteRange};
ghost use Rattle.flat_lists.specs.Asked.{setup_of};
ghost use Rattle.vod_origin.specs.Begun.{asked_answer, Begins, IsPlanReply, Replies};
ghost use Rattle.vod_origin.specs.Held.{AreHeld};
ghost use Rattle.vod_origin.specs.Ranges.{clip_of};
ghost use Rattle.vod_origin.specs.Reads.{cache_of, ReadsForAsk};
ghost use Rattle.vod_origin.specs.Wanted.{asked_of, form_of, is_wanted, leaf_of, number_of};
ghost use Rattle.mp4_flat.specs.Asks.{IsPathAsk};

use crate::cursor::Cursor;
use crate::fragments::fragment_reply;
use crate::inits::init_reply;
use crate::lists::{iframes_reply, playlist_reply};
use crate::plans::{plan, sequence_cut};
use crate::presentations::{Presentation, presentation_reply};
use crate::streams::stream_reply;
use crate::wanted::{Wanted, wanted_of};
use std::alloc::Global;
use vod_http::Reply;
use vod_meta::Metas;
use vod_plan::Plan;
use vod_source::Store;
use vod_types::{Ask, Form, Leaf, Settings};

/// The reply to a request for anything but a clip, over the metadata that are kept.
pub(crate) fn ask_reply<S: Store>(
    alloc: Global,
    metas: &mut Option<Metas>,
    store: &mut S,
    settings: &Settings,
    root: &str,
    ask: Ask,
    head_only: bool,
) -> Reply<Cursor>
    requires ask { IsPathAsk ask }
    requires unclipped { clip_of ask.leaf ≡ None }
    requires held { AreHeld (S.content store.old) metas.old }
    ensures replies { Replies (asked_answer settings.now root.now ask (S.content store.old)) (S.faults store.old) (S.faults store.new) result }
    ensures begins { head_only ≡ false → Begins (asked_answer settings.now root.now ask (S.content store.old)) (S.content store.old) result }
    ensures reads { (range : Option ByteRange) → IfSome (S.content store.old) (λ files.
        ReadsForAsk (setup_of settings.now root.now files) head_only range ask result (cache_of metas.old) (cache_of metas.new) (S.log store.old) (S.log store.new)) }
    ensures held { AreHeld (S.content store.new) metas.new }
    ensures content { S.content store.new ≡ S.content store.old }
    ensures later { S.faults store.old ≤ S.faults store.new }
{
    match wanted_of(ask.leaf) {
        Some((sequence, wanted)) => planned_reply(
            alloc, metas, store, settings, root, ask, sequence, wanted, head_only,
        ),
        None => made_reply(alloc, metas, store, settings, root, ask),
    }
}

// The reply with a body that is made whole.
fn made_reply<S: Store>(
    alloc: Global,
    metas: &mut Option<Metas>,
    store: &mut S,
    settings: &Settings,
    root: &str,
    ask: Ask,
) -> Reply<Cursor>
    requires ask { IsPathAsk ask }
    requires unclipped { clip_of ask.leaf ≡ None }
    requires unwanted { is_wanted ask.leaf ≡ false }
    requires held { AreHeld (S.content store.old) metas.old }
    ensures replies { Replies (asked_answer settings.now root.now ask (S.content store.old)) (S.faults store.old) (S.faults store.new) result }
    ensures begins { Begins (asked_answer settings.now root.now ask (S.content store.old)) (S.content store.old) result }
    ensures reads { (head_only : Bool) (range : Option ByteRange) → IfSome (S.content store.old) (λ files.
        ReadsForAsk (setup_of settings.now root.now files) head_only range ask result (cache_of metas.old) (cache_of metas.new) (S.log store.old) (S.log store.new)) }
    ensures held { AreHeld (S.content store.new) metas.new }
    ensures content { S.content store.new ≡ S.content store.old }
    ensures later { S.faults store.old ≤ S.faults store.new }
{
    match ask.leaf {
        Leaf::Master => presentation_reply(
            alloc,
            metas,
            store,
            settings,
            root,
            ask,
            Presentation::Master,
        ),
        Leaf::Mpd => presentation_reply(
            alloc,
            metas,
            store,
            settings,
            root,
            ask,
            Presentation::Description,
        ),
        Leaf::Index { sequence, asked } => {
            playlist_reply(alloc, metas, store, settings, root, ask, sequence, asked)
        }
        Leaf::Iframes { sequence, video } => {
            iframes_reply(alloc, metas, store, settings, root, ask, sequence, video)
        }
        Leaf::Init {
            part,
            sequence,
            asked,
        } => init_reply(
            alloc, metas, store, settings, root, ask, part, sequence, asked,
        ),
        Leaf::Segment { .. } | Leaf::Iframe { .. } | Leaf::Clip { .. } => unreachable!(),
    }
}

// The reply with what is wanted of a sequence.
fn planned_reply<S: Store>(
    alloc: Global,
    metas: &mut Option<Metas>,
    store: &mut S,
    settings: &Settings,
    root: &str,
    ask: Ask,
    sequence: u32,
    wanted: Wanted,
    head_only: bool,
) -> Reply<Cursor>
    requires ask { IsPathAsk ask }
    requires leaf { ask.leaf ≡ leaf_of sequence wanted }
    requires held { AreHeld (S.content store.old) metas.old }
    ensures replies { Replies (asked_answer settings.now root.now ask (S.content store.old)) (S.faults store.old) (S.faults store.new) result }
    ensures begins { head_only ≡ false → Begins (asked_answer settings.now root.now ask (S.content store.old)) (S.content store.old) result }
    ensures reads { (range : Option ByteRange) → IfSome (S.content store.old) (λ files.
        ReadsForAsk (setup_of settings.now root.now files) head_only range ask result (cache_of metas.old) (cache_of metas.new) (S.log store.old) (S.log store.new)) }
    ensures held { AreHeld (S.content store.new) metas.new }
    ensures content { S.content store.new ≡ S.content store.old }
    ensures later { S.faults store.old ≤ S.faults store.new }
{
    let cut = match sequence_cut(alloc, store, settings, root, ask, sequence) {
        Ok(cut) => cut,
        Err(refusal) => return Reply::Refused(refusal),
    };
    match plan(alloc, metas, store, &cut, wanted) {
        Ok(plan) => plan_reply(alloc, wanted, plan, head_only),
        Err(refusal) => Reply::Refused(refusal),
    }
}

// The reply with the body of a plan.
fn plan_reply(alloc: Global, wanted: Wanted, plan: Plan, head_only: bool) -> Reply<Cursor>
    requires { plan.bytes ≤ 2130706432 }
    ensures { IsPlanReply head_only (number_of wanted) (asked_of wanted) (form_of wanted) plan result }
{
    match wanted.form() {
        Form::Ts => stream_reply(alloc, wanted.asked(), plan, head_only),
        Form::Fmp4 => fragment_reply(wanted.number(), wanted.asked(), plan),
    }
}
