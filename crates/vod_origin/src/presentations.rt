//! Master playlists and media presentation descriptions, over the metadata that are kept.

ghost use Rattle.std.specs.Prelude.{◌≡◌, ◌≤◌, ◌<◌, Bool, IfErr, IfSome, IsErrOf, Option};
ghost use Rattle.vod_types.specs.declared.paths.ByteRange.{ByteRange};
ghost use Rattle.vod_types.specs.declared.refusal.Refusal.TheVariants.{StoreFailed};
ghost use Rattle.vod_source.specs.Calls.{AnswersUnlessFailed};
ghost use Rattle.vod_source.specs.Causes.{Rose};
ghost use Rattle.answer_laws.specs.Refusals.{IsPathRefusal};
ghost use Rattle.flat_lists.specs.Asked.{asking_view, setup_of};
ghost use Rattle.mp4_flat.specs.Asks.{IsPathAsk};
ghost use Rattle.vod_meta.specs.Held.{names_held, AreTrue};
ghost use Rattle.vod_plan.specs.Turned.{AreTurns};
ghost use Rattle.vod_origin.specs.Begun.{asked_answer, Begins, Replies};
ghost use Rattle.vod_origin.specs.Held.{AreHeld};
ghost use Rattle.vod_origin.specs.Presentations.{leaf_presented, names_presented, text_due};
ghost use Rattle.vod_origin.specs.Reads.{cache_of, ReadsForAsk};

use crate::bodies::begun;
use crate::cursor::Cursor;
use crate::plans::kept;
use flat_lists::{Asking, asking_of};
use mp4_flat::FlatBody;
use seek_lists::{master_playlist, presentation_description};
use std::alloc::Global;
use std::marker::Brand;
use std::sync::ledger::{Blank, Ledger};
use vod_http::Reply;
use vod_meta::Metas;
use vod_source::Store;
use vod_types::{Ask, Refusal, Settings, Steps};

/// What presents all sequences of a request.
#[derive(Clone, Copy, Debug)]
pub enum Presentation {
    Master,
    Description,
}

// Of what a presentation is made, with the settings and in the folder of all files.
#[derive(Clone, Copy)]
struct Subject<'a> {
    settings: &'a Settings,
    root: &'a str,
    asking: &'a Asking,
}

/// The reply with a presentation of what is asked for.
pub(crate) fn presentation_reply<S: Store>(
    alloc: Global,
    metas: &mut Option<Metas>,
    store: &mut S,
    settings: &Settings,
    root: &str,
    ask: Ask,
    presentation: Presentation,
) -> Reply<Cursor>
    requires ask { IsPathAsk ask }
    requires leaf { ask.leaf ≡ leaf_presented presentation }
    requires held { AreHeld (S.content store.old) metas.old }
    ensures replies { Replies (asked_answer settings.now root.now ask (S.content store.old)) (S.faults store.old) (S.faults store.new) result }
    ensures begins { Begins (asked_answer settings.now root.now ask (S.content store.old)) (S.content store.old) result }
    ensures reads { (head_only : Bool) (range : Option ByteRange) → IfSome (S.content store.old) (λ files.
        ReadsForAsk (setup_of settings.now root.now files) head_only range ask result (cache_of metas.old) (cache_of metas.new) (S.log store.old) (S.log store.new)) }
    ensures held { AreHeld (S.content store.new) metas.new }
    ensures content { S.content store.new ≡ S.content store.old }
    ensures later { S.faults store.old ≤ S.faults store.new }
{
    let leaf = ask.leaf;
    let asking = match asking_of(alloc, store, root, ask) {
        Ok(asking) => asking,
        Err(refusal) => return Reply::Refused(refusal),
    };
    match text(alloc, metas, store, settings, root, &asking, presentation) {
        Ok(bytes) => begun(leaf, FlatBody { bytes, cut: None }),
        Err(refusal) => Reply::Refused(refusal),
    }
}

// The text of a presentation.
fn text<S: Store>(
    alloc: Global,
    metas: &mut Option<Metas>,
    store: &mut S,
    settings: &Settings,
    root: &str,
    asking: &Asking,
    presentation: Presentation,
) -> Result<Vec<u8>, Refusal>
    requires held { AreHeld (S.content store.old) metas.old }
    ensures told { IfSome (S.content store.old) (λ files.
        AnswersUnlessFailed (λ text. text.items) result (text_due presentation (setup_of settings.now root.now files) (asking_view asking.now))) }
    ensures turned { IfSome (S.content store.old) (λ files.
        AreTurns files (names_presented presentation (setup_of settings.now root.now files) (asking_view asking.now)) result
        (cache_of metas.old) (cache_of metas.new) (S.log store.old) (S.log store.new)) }
    ensures held { AreHeld (S.content store.new) metas.new }
    ensures refused { IfErr result IsPathRefusal }
    ensures content { S.content store.new ≡ S.content store.old }
    ensures later { S.faults store.old ≤ S.faults store.new }
    ensures store_failed { IsErrOf result StoreFailed → Rose (S.faults store.old) (S.faults store.new) }
{
    let mut held = match kept(alloc, metas.take()) {
        Ok(held) => held,
        Err(refusal) => return Err(refusal),
    };
    let subject = Subject {
        settings,
        root,
        asking,
    };
    let text = text_over::<S, Brand>(
        alloc,
        &mut held,
        store,
        subject,
        presentation,
        Blank::new(1),
    );
    *metas = Some(held);
    text
}

// The text over these metadata, with a counter of its own for the looks at the tables.
fn text_over<S: Store, L: Ledger>(
    alloc: Global,
    metas: &mut Metas,
    store: &mut S,
    subject: Subject<'_>,
    presentation: Presentation,
    blank: Blank,
) -> Result<Vec<u8>, Refusal>
    requires name { blank.name ≡ L.name }
    requires parts { blank.parts ≡ L.parts }
    requires some { 0 < L.parts }
    requires held { IfSome (S.content store.old) (λ files. AreTrue files metas.old) }
    ensures told { IfSome (S.content store.old) (λ files.
        AnswersUnlessFailed (λ text. text.items) result (text_due presentation (setup_of subject.entry.settings.now subject.entry.root.now files) (asking_view subject.entry.asking.now))) }
    ensures turned { IfSome (S.content store.old) (λ files.
        AreTurns files (names_presented presentation (setup_of subject.entry.settings.now subject.entry.root.now files) (asking_view subject.entry.asking.now)) result
        (names_held metas.old) (names_held metas.new) (S.log store.old) (S.log store.new)) }
    ensures held { IfSome (S.content store.old) (λ files. AreTrue files metas.new) }
    ensures refused { IfErr result IsPathRefusal }
    ensures content { S.content store.new ≡ S.content store.old }
    ensures later { S.faults store.old ≤ S.faults store.new }
    ensures store_failed { IsErrOf result StoreFailed → Rose (S.faults store.old) (S.faults store.new) }
{
    let mut steps = Steps::<L>::start(blank);
    let Subject {
        settings,
        root,
        asking,
    } = subject;
    match presentation {
        Presentation::Master => {
            master_playlist(alloc, metas, store, settings, root, asking, &mut steps)
        }
        Presentation::Description => {
            presentation_description(alloc, metas, store, settings, root, asking, &mut steps)
        }
    }
}
