//! The sequences of a request as a master playlist shows them, each by its first piece.

ghost use Rattle.std.specs.Prelude.{◌≡◌, ◌≤◌, ◌+◌, ◌*◌, ◌^◌, [], ◌∷◌, All, IfErr, IfOk, IfSome, IsErrOf, length};
ghost use Rattle.std.specs.Int.{IsInRange};
ghost use Rattle.std.specs.Rc.{rc_value};
ghost use Rattle.vod_types.specs.declared.refusal.Refusal.TheVariants.{StoreFailed};
ghost use Rattle.vod_types.specs.Results.{Answers};
ghost use Rattle.vod_source.specs.Causes.{Rose};
ghost use Rattle.answer_laws.specs.Refusals.{IsPathRefusal};
ghost use Rattle.flat_lists.specs.Asked.{asking_view, setup_of};
ghost use Rattle.flat_lists.specs.Shown.{IsShown, all_shown, first_names, shown_by_piece, shown_due, shown_in_movie, shown_of};
ghost use Rattle.vod_meta.specs.Held.{names_held, AreTrue};
ghost use Rattle.vod_plan.specs.Tracks.{track_in};
ghost use Rattle.seek_lists.specs.Shown.{shown_names};
ghost use Rattle.seek_lists.specs.Turned.{IsTurned};

use crate::bandwidths::bandwidth_if;
use crate::first_asked::first_asked;
use crate::views::view_of;
use clip_map::Mapping;
use clip_model::Piece;
use flat_lists::{Asking, Shown, shown_as};
use std::alloc::Global;
use std::rc::Rc;
use std::sync::ledger::Ledger;
use vod_meta::{Meta, Metas};
use vod_plan::{AskedTrack, check, loaded};
use vod_source::Store;
use vod_types::{Asked, Kind, Refusal, Settings, Steps};

/// The sequences of what a request is about, in order. Of the files the movies of their first pieces are read, and one that is
/// kept not at all.
///
/// Refused, sequence by sequence, where the sequence has no piece, and with the first fault of its first piece.
pub(crate) fn shown_sequences<S: Store, L: Ledger>(
    alloc: Global,
    metas: &mut Metas,
    store: &mut S,
    settings: &Settings,
    root: &str,
    asking: &Asking,
    steps: &mut Steps<L>,
) -> Result<Vec<Shown>, Refusal>
    requires held { IfSome (S.content store.old) (λ files. AreTrue files metas.old) }
    ensures told { IfSome (S.content store.old) (λ files.
        IsTurned files (λ shown. shown.items) (all_shown (setup_of settings.now root.now files) (asking_view asking.now))
        (shown_names (setup_of settings.now root.now files) (asking_view asking.now)) result
        (names_held metas.old) (names_held metas.new) (S.log store.old) (S.log store.new)) }
    ensures shown { IfOk result (λ shown. All (IsShown (length asking.now.mapping.sequences)) shown.items) }
    ensures looks { steps.new ≤ steps.old + 768 * length asking.now.mapping.sequences }
    ensures held { IfSome (S.content store.old) (λ files. AreTrue files metas.new) }
    ensures content { S.content store.new ≡ S.content store.old }
    ensures later { S.faults store.old ≤ S.faults store.new }
    ensures store_failed { IsErrOf result StoreFailed → Rose (S.faults store.old) (S.faults store.new) }
    ensures refused { IfErr result IsPathRefusal }
{
    let mut all = Vec::new(alloc);
    let end = asking.mapping.sequences() + 1;
    for sequence in 1..end {
        match look(alloc, metas, store, settings, root, asking, sequence, steps) {
            Ok(shown) => {
                if all.push(shown).is_err() {
                    return Err(Refusal::NoMemory);
                }
            }
            Err(refusal) => return Err(refusal),
        }
    }
    Ok(all)
}

// Looks at a sequence, by a turn on the file of its first piece.
fn look<S: Store, L: Ledger>(
    alloc: Global,
    metas: &mut Metas,
    store: &mut S,
    settings: &Settings,
    root: &str,
    asking: &Asking,
    sequence: u32,
    steps: &mut Steps<L>,
) -> Result<Shown, Refusal>
    requires held { IfSome (S.content store.old) (λ files. AreTrue files metas.old) }
    requires number { IsInRange 1 (length asking.now.mapping.sequences) sequence }
    requires small { sequence ≤ 9999 }
    ensures told { IfSome (S.content store.old) (λ files.
        IsTurned files (λ shown. shown) (shown_due (setup_of settings.now root.now files) (asking_view asking.now) sequence)
        (first_names (setup_of settings.now root.now files) (asking_view asking.now) sequence) result
        (names_held metas.old) (names_held metas.new) (S.log store.old) (S.log store.new)) }
    ensures shown { IfOk result (IsShown (length asking.now.mapping.sequences)) }
    ensures looks { steps.new ≤ steps.old + 768 }
    ensures held { IfSome (S.content store.old) (λ files. AreTrue files metas.new) }
    ensures content { S.content store.new ≡ S.content store.old }
    ensures later { S.faults store.old ≤ S.faults store.new }
    ensures store_failed { IsErrOf result StoreFailed → Rose (S.faults store.old) (S.faults store.new) }
    ensures refused { IfErr result IsPathRefusal }
{
    let timeline = match asking.timeline(alloc, root, sequence) {
        Ok(timeline) => timeline,
        Err(refusal) => return Err(refusal),
    };
    match timeline.pieces.first() {
        Some(piece) => look_at(
            alloc, metas, store, settings, root, asking, sequence, piece, steps,
        ),
        None => Err(Refusal::NothingSelected { sequence }),
    }
}

// The same by the first piece.
fn look_at<S: Store, L: Ledger>(
    alloc: Global,
    metas: &mut Metas,
    store: &mut S,
    settings: &Settings,
    root: &str,
    asking: &Asking,
    sequence: u32,
    piece: &Piece,
    steps: &mut Steps<L>,
) -> Result<Shown, Refusal>
    requires held { IfSome (S.content store.old) (λ files. AreTrue files metas.old) }
    requires number { IsInRange 1 (length asking.now.mapping.sequences) sequence }
    requires small { sequence ≤ 9999 }
    ensures told { IfSome (S.content store.old) (λ files.
        IsTurned files (λ shown. shown) (shown_by_piece (setup_of settings.now root.now files) (asking_view asking.now) sequence piece.now)
        (piece.now.name ∷ []) result (names_held metas.old) (names_held metas.new) (S.log store.old) (S.log store.new)) }
    ensures shown { IfOk result (IsShown (length asking.now.mapping.sequences)) }
    ensures looks { steps.new ≤ steps.old + 768 }
    ensures held { IfSome (S.content store.old) (λ files. AreTrue files metas.new) }
    ensures content { S.content store.new ≡ S.content store.old }
    ensures later { S.faults store.old ≤ S.faults store.new }
    ensures store_failed { IsErrOf result StoreFailed → Rose (S.faults store.old) (S.faults store.new) }
    ensures refused { IfErr result IsPathRefusal }
{
    let meta = match loaded(alloc, metas, store, piece) {
        Ok(meta) => meta,
        Err(refusal) => return Err(refusal),
    };
    let edits = !settings.ignore_edits;
    shown_in(alloc, &asking.mapping, sequence, piece, meta, edits, steps)
}

// The same by the first piece in the metadata of its file, where `edits` are honoured or aren't.
fn shown_in<L: Ledger>(
    alloc: Global,
    mapping: &Mapping,
    sequence: u32,
    piece: &Piece,
    meta: Rc<Meta>,
    edits: bool,
    steps: &mut Steps<L>,
) -> Result<Shown, Refusal>
    requires number { IsInRange 1 (length mapping.now.sequences) sequence }
    requires small { sequence ≤ 9999 }
    ensures answers { Answers (λ shown. shown) result (shown_in_movie edits mapping.now sequence piece.now (rc_value meta).movie) }
    ensures shown { IfOk result (IsShown (length mapping.now.sequences)) }
    ensures looks { steps.new ≤ steps.old + 768 }
    ensures store { IsErrOf result StoreFailed → ⊥ }
    ensures refused { IfErr result IsPathRefusal }
{
    let asked = match first_asked(alloc, piece, &meta) {
        Ok(asked) => asked,
        Err(refusal) => return Err(refusal),
    };
    match check(alloc, piece, meta, edits, asked) {
        Ok(tracks) => Ok(shown_of(
            mapping,
            sequence,
            asked,
            &tracks.meta,
            tracks.video,
            tracks.audio,
            steps,
        )),
        Err(refusal) => Err(refusal),
    }
}

// What is said of a sequence by the asked tracks of its first piece.
fn shown_of<L: Ledger>(
    mapping: &Mapping,
    sequence: u32,
    asked: Asked,
    meta: &Meta,
    video: Option<AskedTrack>,
    audio: Option<AskedTrack>,
    steps: &mut Steps<L>,
) -> Shown
    requires { IsInRange 1 (length mapping.now.sequences) sequence }
    ensures value { result ≡ shown_of mapping.now sequence asked (track_in meta.now.movie video) (track_in meta.now.movie audio) }
    ensures video { result.video_bandwidth ≤ 2 ^ 102 }
    ensures audio { result.audio_bandwidth ≤ 2 ^ 102 }
    ensures looks { steps.new ≤ steps.old + 768 }
{
    let video_bandwidth = bandwidth_if(mapping, sequence, Kind::Video, meta, video, steps);
    let audio_bandwidth = bandwidth_if(mapping, sequence, Kind::Audio, meta, audio, steps);
    shown_as(
        sequence,
        asked,
        video_bandwidth,
        audio_bandwidth,
        view_of(meta, video),
        view_of(meta, audio),
    )
}
