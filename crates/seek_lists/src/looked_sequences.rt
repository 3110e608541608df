//! The sequences of a request, looked at one after another.

ghost use Rattle.std.specs.Prelude.{◌≡◌, ◌≢◌, ◌≤◌, ◌<◌, All, IfOk, IfErr, IfSome, IsErrOf, OnOk, length, not};
ghost use Rattle.std.specs.Int.{IsInRange};
ghost use Rattle.vod_types.specs.declared.refusal.Refusal.TheVariants.{NoMemory, StoreFailed};
ghost use Rattle.vod_source.specs.Causes.{Rose};
ghost use Rattle.clip_model.specs.IsTimeline.{IsTimeline};
ghost use Rattle.answer_laws.specs.Refusals.{IsPathRefusal};
ghost use Rattle.flat_lists.specs.Asked.{asking_view, setup_of};
ghost use Rattle.vod_meta.specs.Held.{names_held, AreTrue};
ghost use Rattle.seek_lists.specs.Looked.{AreSequences, IsLookedPart, IsLookedSequence, IsOfMapping, IsPartsTour, IsSequenceTour, IsTimelineTour};

use crate::looked_parts::{Looking, look_at_part};
use crate::part_tracks::PartTracks;
use clip_model::Part;
use flat_lists::Asking;
use seq_cells::{part_at, parts_of};
use seq_timeline::Timeline;
use std::alloc::Global;
use std::sync::ledger::Ledger;
use vod_meta::Metas;
use vod_source::Store;
use vod_types::{Refusal, Settings, Steps};

/// A part, with the tracks that its first piece exposes.
#[derive(Drop)]
pub(crate) struct LookedPart {
    pub(crate) part: Part,
    pub(crate) tracks: PartTracks,
}

/// A sequence by its number, with its parts.
#[derive(Drop)]
pub(crate) struct LookedSequence {
    pub(crate) number: u32,
    pub(crate) parts: Vec<LookedPart>,
}

/// Looks at all pieces of all sequences. Of the files the movies are read alone, and one that is kept not at all.
///
/// Refused, sequence by sequence, with the first fault of a piece.
pub(crate) fn look_at_sequences<S: Store, L: Ledger>(
    alloc: Global,
    metas: &mut Metas,
    store: &mut S,
    settings: &Settings,
    root: &str,
    asking: &Asking,
    steps: &mut Steps<L>,
) -> Result<Vec<LookedSequence>, Refusal>
    requires held { IfSome (S.content store.old) (λ known. AreTrue known metas.old) }
    ensures told { IfSome (S.content store.old) (λ known.
        AreSequences (λ ss. ss.items) (setup_of settings.now root.now known) (asking_view asking.now) result (names_held metas.old) (names_held metas.new) (S.log store.old) (S.log store.new)) }
    ensures each { IfOk result (λ ss. All (IsOfMapping asking.now.mapping) ss.items) }
    ensures some { IfOk result (λ ss. length ss.items ≡ length asking.now.mapping.sequences) }
    ensures count { IfOk result (λ ss. IsInRange 1 32 (length ss.items)) }
    ensures held { IfSome (S.content store.old) (λ known. AreTrue known metas.new) }
    ensures content { S.content store.new ≡ S.content store.old }
    ensures later { S.faults store.old ≤ S.faults store.new }
    ensures store_failed { IsErrOf result StoreFailed → Rose (S.faults store.old) (S.faults store.new) }
    ensures refused { IfErr result IsPathRefusal }
{
    let mut looked = Vec::new(alloc);
    for place in 0..asking.mapping.sequences() {
        let number = place + 1;
        let sequence = match look_at_sequence(
            alloc, metas, store, settings, root, asking, number, steps,
        ) {
            Ok(sequence) => sequence,
            Err(refusal) => return Err(refusal),
        };
        match looked.push(sequence) {
            Ok(()) => {}
            Err(_) => return Err(Refusal::NoMemory),
        }
    }
    Ok(looked)
}

// Looks at the pieces of the sequence of a number.
fn look_at_sequence<S: Store, L: Ledger>(
    alloc: Global,
    metas: &mut Metas,
    store: &mut S,
    settings: &Settings,
    root: &str,
    asking: &Asking,
    number: u32,
    steps: &mut Steps<L>,
) -> Result<LookedSequence, Refusal>
    requires held { IfSome (S.content store.old) (λ known. AreTrue known metas.old) }
    requires sequence { IsInRange 1 (length asking.now.mapping.sequences) number }
    requires number { number ≤ 9999 }
    ensures told { IfSome (S.content store.old) (λ known.
        IsSequenceTour (setup_of settings.now root.now known) (asking_view asking.now) number result (names_held metas.old) (names_held metas.new) (S.log store.old) (S.log store.new)) }
    ensures each { IfOk result IsLookedSequence }
    ensures number { IfOk result (λ s. s.number ≡ number) }
    ensures held { IfSome (S.content store.old) (λ known. AreTrue known metas.new) }
    ensures content { S.content store.new ≡ S.content store.old }
    ensures later { S.faults store.old ≤ S.faults store.new }
    ensures store_failed { IsErrOf result StoreFailed → Rose (S.faults store.old) (S.faults store.new) }
    ensures refused { IfErr result IsPathRefusal }
{
    let looking = Looking {
        mapping: &asking.mapping,
        sequence: number,
        edits: honours_edits(settings),
    };
    match asking.timeline(alloc, root, number) {
        Ok(timeline) => look_at_timeline(alloc, metas, store, looking, &timeline, steps),
        Err(refusal) => Err(refusal),
    }
}

// Whether edit lists count.
fn honours_edits(settings: &Settings) -> bool
    ensures { result ≡ not settings.now.ignore_edits }
{
    !settings.ignore_edits
}

// Looks at the pieces of a sequence with this timeline.
fn look_at_timeline<S: Store, L: Ledger>(
    alloc: Global,
    metas: &mut Metas,
    store: &mut S,
    looking: Looking<'_>,
    timeline: &Timeline,
    steps: &mut Steps<L>,
) -> Result<LookedSequence, Refusal>
    requires held { IfSome (S.content store.old) (λ known. AreTrue known metas.old) }
    requires sequence { IsInRange 1 (length looking.mapping.now.sequences) looking.sequence }
    requires number { looking.sequence ≤ 9999 }
    ensures told { IfSome (S.content store.old) (λ known.
        IsTimelineTour known looking.entry.edits looking.entry.mapping.now looking.entry.sequence timeline.now result (names_held metas.old) (names_held metas.new) (S.log store.old) (S.log store.new)) }
    ensures each { IfOk result IsLookedSequence }
    ensures number { IfOk result (λ s. s.number ≡ looking.entry.sequence) }
    ensures held { IfSome (S.content store.old) (λ known. AreTrue known metas.new) }
    ensures content { S.content store.new ≡ S.content store.old }
    ensures later { S.faults store.old ≤ S.faults store.new }
    ensures store_failed { IsErrOf result StoreFailed → Rose (S.faults store.old) (S.faults store.new) }
    ensures refused { IfErr result IsPathRefusal }
{
    match look_at_parts(alloc, metas, store, looking, timeline, steps) {
        Ok(parts) => Ok(LookedSequence {
            number: looking.sequence,
            parts,
        }),
        Err(refusal) => Err(refusal),
    }
}

// Looks at the pieces of the parts of a timeline.
fn look_at_parts<S: Store, L: Ledger>(
    alloc: Global,
    metas: &mut Metas,
    store: &mut S,
    looking: Looking<'_>,
    timeline: &Timeline,
    steps: &mut Steps<L>,
) -> Result<Vec<LookedPart>, Refusal>
    requires held { IfSome (S.content store.old) (λ known. AreTrue known metas.old) }
    requires sequence { IsInRange 1 (length looking.mapping.now.sequences) looking.sequence }
    ensures told { IfSome (S.content store.old) (λ known.
        IsPartsTour (λ ps. ps.items) known looking.entry.edits looking.entry.mapping.now looking.entry.sequence timeline.now result (names_held metas.old) (names_held metas.new) (S.log store.old) (S.log store.new)) }
    ensures each { IfOk result (λ ps. All IsLookedPart ps.items) }
    ensures few { IfOk result (λ ps. length ps.items ≤ 128) }
    ensures held { IfSome (S.content store.old) (λ known. AreTrue known metas.new) }
    ensures content { S.content store.new ≡ S.content store.old }
    ensures later { S.faults store.old ≤ S.faults store.new }
    ensures store_failed { IsErrOf result StoreFailed → Rose (S.faults store.old) (S.faults store.new) }
    ensures refused { IfErr result IsPathRefusal }
{
    let mut looked = Vec::new(alloc);
    for place in 0..count_of(timeline) {
        let (part, pieces) = part_at(timeline, place);
        let tracks = match look_at_part(alloc, metas, store, looking, pieces, steps) {
            Ok(tracks) => tracks,
            Err(refusal) => return Err(refusal),
        };
        match looked.push(LookedPart { part, tracks }) {
            Ok(()) => {}
            Err(_) => return Err(Refusal::NoMemory),
        }
    }
    Ok(looked)
}

// How many parts there are.
fn count_of(timeline: &Timeline) -> u32
    ensures count { result ≡ length timeline.now.parts }
    ensures kept { IsTimeline timeline.now.pieces timeline.now.parts }
{
    parts_of(timeline).len() as u32
}
