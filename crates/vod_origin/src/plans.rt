//! Plans over the metadata that are kept.

ghost use Rattle.std.specs.Prelude.{◌≡◌, ◌≤◌, ◌+◌, ◌<◌, [], length, IfErr, IfOk, IfSome, IsErrOf, Option};
ghost use Rattle.std.specs.Int.{IsInRange};
ghost use Rattle.vod_types.specs.declared.refusal.Refusal.TheVariants.{StoreFailed};
ghost use Rattle.media_model.specs.Fragment.{sizes};
ghost use Rattle.vod_source.specs.Calls.{AnswersUnlessFailed, LogsReads};
ghost use Rattle.vod_source.specs.Causes.{Rose};
ghost use Rattle.vod_source.specs.Stored.{Files};
ghost use Rattle.list_model.specs.Path.{is_local};
ghost use Rattle.origin_model.specs.Reads.{mapping_reads_by};
ghost use Rattle.origin_model.specs.Requests.{target_names};
ghost use Rattle.answer_laws.specs.Refusals.{IsPathRefusal};
ghost use Rattle.flat_lists.specs.Asked.{setup_of};
ghost use Rattle.vod_meta.specs.Held.{names_held, AreTrue};
ghost use Rattle.vod_plan.specs.Planned.{cutting_of, plan_rows, plan_view};
ghost use Rattle.vod_plan.specs.Turned.{AreTurns};
ghost use Rattle.vod_plan.specs.Writable.{IsWritableBy};
ghost use Rattle.vod_origin.specs.Held.{AreHeld};
ghost use Rattle.vod_origin.specs.Reads.{cache_of};
ghost use Rattle.vod_origin.specs.Wanted.{asked_of, cut_due, cut_view, form_of, plan_due, plan_names};

use crate::wanted::Wanted;
use flat_lists::asking_of;
use segmenter::Grid;
use seq_timeline::Timeline;
use std::alloc::Global;
use std::marker::Brand;
use std::sync::ledger::{Blank, Ledger};
use vod_meta::Metas;
use vod_plan::{Plan, iframe, segment};
use vod_source::Store;
use vod_types::{Ask, Refusal, Settings, Steps};

/// The timeline of a sequence, and how its parts are cut.
#[derive(Debug, Drop)]
pub struct SequenceCut {
    pub timeline: Timeline,
    pub grid: Grid,
    pub align: bool,
    pub edits: bool,
}

/// That of a sequence by its number from 1 in what a request asks for. Of the store a mapping file is read alone.
pub(crate) fn sequence_cut<S: Store>(
    alloc: Global,
    store: &mut S,
    settings: &Settings,
    root: &str,
    ask: Ask,
    sequence: u32,
) -> Result<SequenceCut, Refusal>
    requires names { IsInRange 1 32 (length (target_names ask.target)) }
    ensures told { IfSome (S.content store.old) (λ files.
        AnswersUnlessFailed (cut_view files) result (cut_due (setup_of settings.now root.now files) ask sequence)) }
    ensures logged { IfSome (S.content store.old) (λ files.
        LogsReads result (mapping_reads_by (setup_of settings.now root.now files) (is_local ask.place) ask.target) (S.log store.old) (S.log store.new)) }
    ensures refused { IfErr result IsPathRefusal }
    ensures content { S.content store.new ≡ S.content store.old }
    ensures later { S.faults store.old ≤ S.faults store.new }
    ensures store_failed { IsErrOf result StoreFailed → Rose (S.faults store.old) (S.faults store.new) }
{
    let asking = match asking_of(alloc, store, root, ask) {
        Ok(asking) => asking,
        Err(refusal) => return Err(refusal),
    };
    let timeline = match asking.timeline(alloc, root, sequence) {
        Ok(timeline) => timeline,
        Err(refusal) => return Err(refusal),
    };
    match asking.grid(alloc, settings) {
        Ok(grid) => Ok(SequenceCut {
            timeline,
            grid,
            align: settings.align,
            edits: !settings.ignore_edits,
        }),
        Err(refusal) => Err(refusal),
    }
}

/// The plan of what is wanted of a sequence, over the metadata that are kept. Of the files the movies are read alone that
/// aren't kept yet.
pub(crate) fn plan<S: Store>(
    alloc: Global,
    metas: &mut Option<Metas>,
    store: &mut S,
    cut: &SequenceCut,
    wanted: Wanted,
) -> Result<Plan, Refusal>
    requires held { AreHeld (S.content store.old) metas.old }
    ensures told { IfSome (S.content store.old) (λ files.
        AnswersUnlessFailed plan_view result (plan_due wanted (cutting_of files cut.now.grid cut.now.align cut.now.edits) cut.now.timeline)) }
    ensures turned { IfSome (S.content store.old) (λ files.
        AreTurns files (plan_names wanted (cutting_of files cut.now.grid cut.now.align cut.now.edits) cut.now.timeline) result
        (cache_of metas.old) (cache_of metas.new) (S.log store.old) (S.log store.new)) }
    ensures held { AreHeld (S.content store.new) metas.new }
    ensures writable { IfOk result (λ plan. IsWritableBy (form_of wanted) (asked_of wanted) (S.content store.new) plan) }
    ensures bytes { IfOk result (λ plan. plan.bytes ≡ sizes (plan_rows plan).video + sizes (plan_rows plan).audio) }
    ensures small { IfOk result (λ plan. plan.bytes ≤ 2130706432) }
    ensures refused { IfErr result IsPathRefusal }
    ensures content { S.content store.new ≡ S.content store.old }
    ensures later { S.faults store.old ≤ S.faults store.new }
    ensures store_failed { IsErrOf result StoreFailed → Rose (S.faults store.old) (S.faults store.new) }
{
    let mut held = match kept(alloc, metas.take()) {
        Ok(held) => held,
        Err(refusal) => return Err(refusal),
    };
    let planned = plan_over::<S, Brand>(alloc, &mut held, store, cut, wanted, Blank::new(1));
    *metas = Some(held);
    planned
}

/// The metadata that are kept, and none where nothing was kept yet. The only refusal is `NoMemory`.
pub(crate) fn kept(alloc: Global, metas: Option<Metas>) -> Result<Metas, Refusal>
    ensures held { (content : Option Files) → AreHeld content metas → IfOk result (λ held. IfSome content (λ files. AreTrue files held)) }
    ensures names { IfOk result (λ held. names_held held ≡ cache_of metas) }
    ensures none { IfErr result (λ refusal. cache_of metas ≡ []) }
    ensures refused { IfErr result IsPathRefusal }
    ensures only { IfErr result (λ refusal. refusal ≡ Refusal.NoMemory) }
{
    match metas {
        Some(metas) => Ok(metas),
        None => Metas::new(alloc),
    }
}

// The plan over these metadata, with a counter of its own for the looks at the tables.
fn plan_over<S: Store, L: Ledger>(
    alloc: Global,
    metas: &mut Metas,
    store: &mut S,
    cut: &SequenceCut,
    wanted: Wanted,
    blank: Blank,
) -> Result<Plan, Refusal>
    requires name { blank.name ≡ L.name }
    requires parts { blank.parts ≡ L.parts }
    requires some { 0 < L.parts }
    requires held { IfSome (S.content store.old) (λ files. AreTrue files metas.old) }
    ensures told { IfSome (S.content store.old) (λ files.
        AnswersUnlessFailed plan_view result (plan_due wanted (cutting_of files cut.now.grid cut.now.align cut.now.edits) cut.now.timeline)) }
    ensures turned { IfSome (S.content store.old) (λ files.
        AreTurns files (plan_names wanted (cutting_of files cut.now.grid cut.now.align cut.now.edits) cut.now.timeline) result
        (names_held metas.old) (names_held metas.new) (S.log store.old) (S.log store.new)) }
    ensures held { IfSome (S.content store.old) (λ files. AreTrue files metas.new) }
    ensures writable { IfOk result (λ plan. IsWritableBy (form_of wanted) (asked_of wanted) (S.content store.new) plan) }
    ensures bytes { IfOk result (λ plan. plan.bytes ≡ sizes (plan_rows plan).video + sizes (plan_rows plan).audio) }
    ensures small { IfOk result (λ plan. plan.bytes ≤ 2130706432) }
    ensures refused { IfErr result IsPathRefusal }
    ensures content { S.content store.new ≡ S.content store.old }
    ensures later { S.faults store.old ≤ S.faults store.new }
    ensures store_failed { IsErrOf result StoreFailed → Rose (S.faults store.old) (S.faults store.new) }
{
    let mut steps = Steps::<L>::start(blank);
    match wanted {
        Wanted::Segment {
            number,
            asked,
            form,
        } => segment(
            alloc,
            metas,
            store,
            &cut.timeline,
            &cut.grid,
            cut.align,
            cut.edits,
            asked,
            number,
            form,
            &mut steps,
        ),
        Wanted::Iframe { number, index, .. } => iframe(
            alloc,
            metas,
            store,
            &cut.timeline,
            &cut.grid,
            cut.align,
            cut.edits,
            wanted.asked(),
            number,
            index,
            &mut steps,
        ),
    }
}
