//! The names of a DASH packaging: the media presentation description, and those that it names.

ghost use Rattle.std.specs.Prelude.{◌≡◌, ◌≤◌, ◌++◌, [], true, All, IfErr, IfOk, IfSome, IsErrOf, OnOk, filter, flat_map, map, if◌then◌else◌};
ghost use Rattle.std.specs.List.{range_with_len};
ghost use Rattle.std.specs.Result.{result_unwrap_or};
ghost use Rattle.vod_types.specs.declared.paths.Leaf.TheVariants.{Init, Mpd};
ghost use Rattle.vod_types.specs.declared.refusal.Refusal.TheVariants.{NoMemory, StoreFailed};
ghost use Rattle.vod_types.specs.Tracks.{same_kind};
ghost use Rattle.vod_source.specs.Causes.{Rose};
ghost use Rattle.list_model.specs.Manifest.{IsPeriod};
ghost use Rattle.list_model.specs.Names.{IsLeafOf, IsAsked, first_of_kind};
ghost use Rattle.list_model.specs.Pack.{fragment_leaves, init_leaves, is_listed_of, track_leaves};
ghost use Rattle.origin_model.specs.Lists.{periods as periods_of};
ghost use Rattle.origin_model.specs.Packaging.{packed_leaves};
ghost use Rattle.flat_lists.specs.Asked.{asking_view, setup_of};
ghost use Rattle.mp4_flat.specs.Packed.{HasFailed, described_leaves, rep_fragments};

use crate::packaging::has_failed;
use crate::packed_names::{push, push_segments};
use flat_lists::{Asking, presentation_periods};
use list_model::{Period, Rep};
use std::alloc::Global;
use vod_source::Store;
use vod_types::{Asked, Form, Kind, Leaf, Refusal, Settings};

/// The names of the DASH packaging of what a request is about, in order; where the description is refused there is its own
/// alone.
pub(crate) fn dash_names<S: Store>(
    alloc: Global,
    files: &mut S,
    settings: &Settings,
    root: &str,
    asking: &Asking,
) -> Result<Vec<Leaf>, Refusal>
    ensures told { IfSome (S.content files.old) (λ known.
        IfOk result (λ names. names.items ≡ packed_leaves (setup_of settings.now root.now known) (asking_view asking.now) Mpd)) }
    ensures each { IfOk result (λ names. All (IsLeafOf true) names.items) }
    ensures failed { IfErr result HasFailed }
    ensures content { S.content files.new ≡ S.content files.old }
    ensures later { S.faults files.old ≤ S.faults files.new }
    ensures store_failed { IsErrOf result StoreFailed → Rose (S.faults files.old) (S.faults files.new) }
{
    let periods = match periods_or_none(alloc, files, settings, root, asking) {
        Ok(periods) => periods,
        Err(refusal) => return Err(refusal),
    };
    let mut names = Vec::new(alloc);
    match push(&mut names, Leaf::Mpd) {
        Ok(()) => {}
        Err(refusal) => return Err(refusal),
    }
    match push_described(&mut names, asking.mapping.sequences(), &periods) {
        Ok(()) => Ok(names),
        Err(refusal) => Err(refusal),
    }
}

// The periods of the description, none where it is refused.
fn periods_or_none<S: Store>(
    alloc: Global,
    files: &mut S,
    settings: &Settings,
    root: &str,
    asking: &Asking,
) -> Result<Vec<Period>, Refusal>
    ensures told { IfSome (S.content files.old) (λ known.
        IfOk result (λ found. found.items ≡ result_unwrap_or (periods_of (setup_of settings.now root.now known) (asking_view asking.now)) [])) }
    ensures each { IfOk result (λ found. All IsPeriod found.items) }
    ensures failed { IfErr result HasFailed }
    ensures content { S.content files.new ≡ S.content files.old }
    ensures later { S.faults files.old ≤ S.faults files.new }
    ensures store_failed { IsErrOf result StoreFailed → Rose (S.faults files.old) (S.faults files.new) }
{
    match presentation_periods(alloc, files, settings, root, asking) {
        Ok(periods) => Ok(periods),
        Err(refusal) => {
            if has_failed(&refusal) {
                return Err(refusal);
            }
            Ok(Vec::new(alloc))
        }
    }
}

// Appends what the periods name of so many sequences.
fn push_described(names: &mut Vec<Leaf>, sequences: u32, periods: &[Period]) -> Result<(), Refusal>
    requires few { sequences ≤ 9999 }
    requires periods { All IsPeriod periods.now }
    ensures names { OnOk result (names.new.items ≡ names.old.items ++ flat_map (described_leaves periods.now) (range_with_len 1 sequences)) }
    ensures each { OnOk result (All (IsLeafOf true) names.old.items → All (IsLeafOf true) names.new.items) }
    ensures only { IfErr result (λ refusal. refusal ≡ NoMemory) }
{
    for before in 0..sequences {
        push_sequence(names, before + 1, periods)?;
    }
    Ok(())
}

// Appends what the periods name of a sequence, video first.
fn push_sequence(names: &mut Vec<Leaf>, sequence: u32, periods: &[Period]) -> Result<(), Refusal>
    requires sequence { sequence ≤ 9999 }
    requires periods { All IsPeriod periods.now }
    ensures names { OnOk result (names.new.items ≡ names.old.items ++ described_leaves periods.now sequence) }
    ensures each { OnOk result (All (IsLeafOf true) names.old.items → All (IsLeafOf true) names.new.items) }
    ensures only { IfErr result (λ refusal. refusal ≡ NoMemory) }
{
    push_track(names, sequence, Kind::Video, periods)?;
    push_track(names, sequence, Kind::Audio, periods)
}

// Appends what the periods name of the first track of a kind of a sequence.
fn push_track(
    names: &mut Vec<Leaf>,
    sequence: u32,
    kind: Kind,
    periods: &[Period],
) -> Result<(), Refusal>
    requires sequence { sequence ≤ 9999 }
    requires periods { All IsPeriod periods.now }
    ensures names { OnOk result (names.new.items ≡ names.old.items ++ track_leaves periods.now sequence kind) }
    ensures each { OnOk result (All (IsLeafOf true) names.old.items → All (IsLeafOf true) names.new.items) }
    ensures only { IfErr result (λ refusal. refusal ≡ NoMemory) }
{
    push_inits(names, sequence, kind, periods)?;
    push_fragments(names, sequence, kind, periods)
}

// Appends the init segments of the track.
fn push_inits(
    names: &mut Vec<Leaf>,
    sequence: u32,
    kind: Kind,
    periods: &[Period],
) -> Result<(), Refusal>
    ensures names { OnOk result (names.new.items ≡ names.old.items ++ init_leaves sequence kind periods.now) }
    ensures only { IfErr result (λ refusal. refusal ≡ NoMemory) }
{
    for period in periods {
        push_period_inits(names, sequence, kind, period)?;
    }
    Ok(())
}

// Appends those of a period.
fn push_period_inits(
    names: &mut Vec<Leaf>,
    sequence: u32,
    kind: Kind,
    period: &Period,
) -> Result<(), Refusal>
    ensures names { OnOk result (names.new.items ≡ names.old.items ++ map (λ rep. Init period.now.part sequence (first_of_kind kind)) (filter (is_listed_of sequence kind) period.now.reps)) }
    ensures only { IfErr result (λ refusal. refusal ≡ NoMemory) }
{
    push_part_inits(names, sequence, kind, period.part, period.reps.as_slice())
}

// Appends an init segment of this part for each representation of the track.
fn push_part_inits(
    names: &mut Vec<Leaf>,
    sequence: u32,
    kind: Kind,
    part: u32,
    reps: &[Rep],
) -> Result<(), Refusal>
    ensures names { OnOk result (names.new.items ≡ names.old.items ++ map (λ rep. Init part sequence (first_of_kind kind)) (filter (is_listed_of sequence kind) reps.now)) }
    ensures only { IfErr result (λ refusal. refusal ≡ NoMemory) }
{
    for rep in reps {
        if is_listed(sequence, kind, rep) {
            push(
                names,
                Leaf::Init {
                    part,
                    sequence,
                    asked: first_track(kind),
                },
            )?;
        }
    }
    Ok(())
}

// Appends the listed fragments of the track.
fn push_fragments(
    names: &mut Vec<Leaf>,
    sequence: u32,
    kind: Kind,
    periods: &[Period],
) -> Result<(), Refusal>
    requires sequence { sequence ≤ 9999 }
    ensures names { OnOk result (names.new.items ≡ names.old.items ++ fragment_leaves sequence kind periods.now) }
    ensures each { OnOk result (All (IsLeafOf true) names.old.items → All (IsLeafOf true) names.new.items) }
    ensures only { IfErr result (λ refusal. refusal ≡ NoMemory) }
{
    for period in periods {
        push_period_fragments(names, sequence, kind, period)?;
    }
    Ok(())
}

// Appends those of a period.
fn push_period_fragments(
    names: &mut Vec<Leaf>,
    sequence: u32,
    kind: Kind,
    period: &Period,
) -> Result<(), Refusal>
    requires sequence { sequence ≤ 9999 }
    ensures names { OnOk result (names.new.items ≡ names.old.items ++ flat_map (rep_fragments sequence kind) (filter (is_listed_of sequence kind) period.now.reps)) }
    ensures each { OnOk result (All (IsLeafOf true) names.old.items → All (IsLeafOf true) names.new.items) }
    ensures only { IfErr result (λ refusal. refusal ≡ NoMemory) }
{
    push_rep_fragments(names, sequence, kind, period.reps.as_slice())
}

// Appends those of the representations of the track.
fn push_rep_fragments(
    names: &mut Vec<Leaf>,
    sequence: u32,
    kind: Kind,
    reps: &[Rep],
) -> Result<(), Refusal>
    requires sequence { sequence ≤ 9999 }
    ensures names { OnOk result (names.new.items ≡ names.old.items ++ flat_map (rep_fragments sequence kind) (filter (is_listed_of sequence kind) reps.now)) }
    ensures each { OnOk result (All (IsLeafOf true) names.old.items → All (IsLeafOf true) names.new.items) }
    ensures only { IfErr result (λ refusal. refusal ≡ NoMemory) }
{
    for rep in reps {
        push_rep(names, sequence, kind, rep)?;
    }
    Ok(())
}

// Appends those of a representation, if it is one of the track.
fn push_rep(names: &mut Vec<Leaf>, sequence: u32, kind: Kind, rep: &Rep) -> Result<(), Refusal>
    requires sequence { sequence ≤ 9999 }
    ensures names { OnOk result (names.new.items ≡ names.old.items ++ (if is_listed_of sequence kind rep.now then rep_fragments sequence kind rep.now else [])) }
    ensures each { OnOk result (All (IsLeafOf true) names.old.items → All (IsLeafOf true) names.new.items) }
    ensures only { IfErr result (λ refusal. refusal ≡ NoMemory) }
{
    if !is_listed(sequence, kind, rep) {
        return Ok(());
    }
    push_segments(
        names,
        rep.rows.as_slice(),
        sequence,
        first_track(kind),
        Form::Fmp4,
    )
}

// Whether a representation is that of the first track of a kind of a sequence, and has a listed segment.
fn is_listed(sequence: u32, kind: Kind, rep: &Rep) -> bool
    ensures { result ≡ is_listed_of sequence kind rep.now }
{
    is_of_kind(kind, rep) && !rep.rows.as_slice().is_empty() && rep.sequence == sequence
}

fn is_of_kind(kind: Kind, rep: &Rep) -> bool
    ensures { result ≡ same_kind kind rep.now.kind }
{
    match kind {
        Kind::Video => rep.kind == Kind::Video,
        Kind::Audio => rep.kind == Kind::Audio,
    }
}

// The first track of a kind, asked alone.
fn first_track(kind: Kind) -> Asked
    ensures asked { result ≡ first_of_kind kind }
    ensures numbers { IsAsked result }
{
    match kind {
        Kind::Video => Asked {
            video: Some(1),
            audio: None,
        },
        Kind::Audio => Asked {
            video: None,
            audio: Some(1),
        },
    }
}
