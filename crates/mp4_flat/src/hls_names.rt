//! The names of an HLS packaging: the master playlist, and those that its media playlists name.

ghost use Rattle.std.specs.Prelude.{◌≡◌, ◌≤◌, ◌++◌, false, All, IfErr, IfOk, IfSome, IsErrOf, OnOk, length};
ghost use Rattle.vod_types.specs.declared.paths.Leaf.TheVariants.{Master};
ghost use Rattle.vod_types.specs.declared.refusal.Refusal.TheVariants.{StoreFailed};
ghost use Rattle.vod_source.specs.Causes.{Rose};
ghost use Rattle.list_model.specs.Names.{IsLeafOf, IsAsked};
ghost use Rattle.list_model.specs.Playlist.{HasRowNumbers};
ghost use Rattle.origin_model.specs.Lists.{listed_segments};
ghost use Rattle.origin_model.specs.Packaging.{packed_leaves, rows_or_none as rows_or_none_of};
ghost use Rattle.flat_lists.specs.Asked.{asking_view, setup_of};
ghost use Rattle.flat_lists.specs.Shown.{IsShown};
ghost use Rattle.mp4_flat.specs.Packed.{HasFailed, sequence_leaves, shown_leaves, shown_or_none as shown_or_none_of};

use crate::listing::sequence_rows;
use crate::packaging::has_failed;
use crate::packed_names::{push, push_playlist};
use crate::playlist::rows_of;
use flat_lists::{Asking, Shown, shown_sequences};
use std::alloc::Global;
use vod_source::Store;
use vod_types::{Asked, Leaf, Refusal, SegmentRow, Settings};

/// The names of the HLS packaging of what a request is about, in order; of a list that is refused there is its own alone.
pub(crate) fn hls_names<S: Store>(
    alloc: Global,
    files: &mut S,
    settings: &Settings,
    root: &str,
    asking: &Asking,
) -> Result<Vec<Leaf>, Refusal>
    ensures told { IfSome (S.content files.old) (λ known.
        IfOk result (λ names. names.items ≡ packed_leaves (setup_of settings.now root.now known) (asking_view asking.now) Master)) }
    ensures each { IfOk result (λ names. All (IsLeafOf false) names.items) }
    ensures failed { IfErr result HasFailed }
    ensures content { S.content files.new ≡ S.content files.old }
    ensures later { S.faults files.old ≤ S.faults files.new }
    ensures store_failed { IsErrOf result StoreFailed → Rose (S.faults files.old) (S.faults files.new) }
{
    let shown = match shown_or_none(alloc, files, settings, root, asking) {
        Ok(shown) => shown,
        Err(refusal) => return Err(refusal),
    };
    let mut names = Vec::new(alloc);
    match push(&mut names, Leaf::Master) {
        Ok(()) => {}
        Err(refusal) => return Err(refusal),
    }
    match push_sequences(alloc, files, settings, root, asking, &shown, &mut names) {
        Ok(()) => Ok(names),
        Err(refusal) => Err(refusal),
    }
}

// The sequences as a master playlist shows them, none where it is refused.
fn shown_or_none<S: Store>(
    alloc: Global,
    files: &mut S,
    settings: &Settings,
    root: &str,
    asking: &Asking,
) -> Result<Vec<Shown>, Refusal>
    ensures told { IfSome (S.content files.old) (λ known.
        IfOk result (λ shown. shown.items ≡ shown_or_none_of (setup_of settings.now root.now known) (asking_view asking.now))) }
    ensures each { IfOk result (λ shown. All (IsShown (length asking.now.mapping.sequences)) shown.items) }
    ensures failed { IfErr result HasFailed }
    ensures content { S.content files.new ≡ S.content files.old }
    ensures later { S.faults files.old ≤ S.faults files.new }
    ensures store_failed { IsErrOf result StoreFailed → Rose (S.faults files.old) (S.faults files.new) }
{
    match shown_sequences(alloc, files, settings, root, asking) {
        Ok(shown) => Ok(shown),
        Err(refusal) => {
            if has_failed(&refusal) {
                return Err(refusal);
            }
            Ok(Vec::new(alloc))
        }
    }
}

// Appends the names of sequences.
fn push_sequences<S: Store>(
    alloc: Global,
    files: &mut S,
    settings: &Settings,
    root: &str,
    asking: &Asking,
    shown: &[Shown],
    names: &mut Vec<Leaf>,
) -> Result<(), Refusal>
    requires each { All (IsShown (length asking.now.mapping.sequences)) shown.now }
    ensures told { IfSome (S.content files.old) (λ known.
        OnOk result (names.new.items ≡ names.old.items ++ shown_leaves (setup_of settings.now root.now known) (asking_view asking.now) shown.now)) }
    ensures each { OnOk result (All (IsLeafOf false) names.old.items → All (IsLeafOf false) names.new.items) }
    ensures failed { IfErr result HasFailed }
    ensures content { S.content files.new ≡ S.content files.old }
    ensures later { S.faults files.old ≤ S.faults files.new }
    ensures store_failed { IsErrOf result StoreFailed → Rose (S.faults files.old) (S.faults files.new) }
{
    for one in shown {
        match push_sequence(
            alloc,
            files,
            settings,
            root,
            asking,
            one.sequence,
            one.asked,
            names,
        ) {
            Ok(()) => {}
            Err(refusal) => return Err(refusal),
        }
    }
    Ok(())
}

// Appends the names of a sequence: its media playlist, and those that this one names.
fn push_sequence<S: Store>(
    alloc: Global,
    files: &mut S,
    settings: &Settings,
    root: &str,
    asking: &Asking,
    sequence: u32,
    asked: Asked,
    names: &mut Vec<Leaf>,
) -> Result<(), Refusal>
    requires sequence { sequence ≤ 9999 }
    requires asked { IsAsked asked }
    ensures told { IfSome (S.content files.old) (λ known.
        OnOk result (names.new.items ≡ names.old.items ++ sequence_leaves (setup_of settings.now root.now known) (asking_view asking.now) sequence asked)) }
    ensures each { OnOk result (All (IsLeafOf false) names.old.items → All (IsLeafOf false) names.new.items) }
    ensures failed { IfErr result HasFailed }
    ensures content { S.content files.new ≡ S.content files.old }
    ensures later { S.faults files.old ≤ S.faults files.new }
    ensures store_failed { IsErrOf result StoreFailed → Rose (S.faults files.old) (S.faults files.new) }
{
    let rows = match rows_or_none(alloc, files, settings, root, asking, sequence, asked) {
        Ok(rows) => rows,
        Err(refusal) => return Err(refusal),
    };
    match push(names, Leaf::Index { sequence, asked }) {
        Ok(()) => push_playlist(names, &rows, sequence, asked, settings.hls_fmp4),
        Err(refusal) => Err(refusal),
    }
}

// The rows of the listed segments of a sequence, none where its playlist is refused.
fn rows_or_none<S: Store>(
    alloc: Global,
    files: &mut S,
    settings: &Settings,
    root: &str,
    asking: &Asking,
    sequence: u32,
    asked: Asked,
) -> Result<Vec<SegmentRow>, Refusal>
    ensures told { IfSome (S.content files.old) (λ known.
        IfOk result (λ rows. rows.items ≡ rows_or_none_of (listed_segments (setup_of settings.now root.now known) (asking_view asking.now) sequence asked))) }
    ensures parts { IfOk result (λ rows. All HasRowNumbers rows.items) }
    ensures failed { IfErr result HasFailed }
    ensures content { S.content files.new ≡ S.content files.old }
    ensures later { S.faults files.old ≤ S.faults files.new }
    ensures store_failed { IsErrOf result StoreFailed → Rose (S.faults files.old) (S.faults files.new) }
{
    match sequence_rows(alloc, files, settings, root, asking, sequence, asked) {
        Ok(listed) => rows_of(alloc, &listed),
        Err(refusal) => {
            if has_failed(&refusal) {
                return Err(refusal);
            }
            Ok(Vec::new(alloc))
        }
    }
}
