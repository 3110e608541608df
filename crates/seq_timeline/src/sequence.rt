//! The timeline of a sequence.

ghost use Rattle.std.specs.Prelude.{◌≡◌, ◌≤◌, ◌<◌, ◌+◌, [], ◌∷◌, true, false, IfOk, IfErr, OnOk, Some, option_map, map, length, flat_map};
ghost use Rattle.std.specs.Int.{IsInRange};
ghost use Rattle.std.specs.Option.{option_copied};
ghost use Rattle.vod_types.specs.declared.refusal.Refusal.TheVariants.{NoMemory};
ghost use Rattle.vod_types.specs.Results.{Answers};
ghost use Rattle.clip_model.specs.Mapping.{IsMapping, file_count, sequence_at};
ghost use Rattle.clip_model.specs.Timeline.{timeline_of, placed_pieces, spans, sequence_timeline};
ghost use Rattle.clip_model.specs.Trim.{trimmed};
ghost use Rattle.seq_timeline.specs.Bounds.{ArePlaced, IsPlaced};
ghost use Rattle.seq_timeline.specs.Spans.{timeline_of_clips, kept_shares, with_shares};
ghost use Rattle.seq_timeline.specs.Views.{placed_view};
ghost use Rattle.seq_timeline.specs.Drafts.{draft_view};

use crate::pieces::push_pieces;
use crate::places::{Placed, Selection, placed_clips};
use crate::spans::{Span, total_length};
use crate::timed::Timeline;
use clip_map::Mapping;
use clip_model::{Part, Piece};
use std::alloc::Global;
use vod_types::{Refusal, TrackList, Window};

/// The pieces and the parts so far.
#[derive(Drop)]
struct Draft {
    pieces: Vec<Piece>,
    parts: Vec<Part>,
}

/// Puts the part of a clip at the end, and its pieces, unless the window leaves nothing of the part.
fn push_part(
    alloc: Global,
    selection: &Selection,
    placed: &Placed,
    draft: &mut Draft,
) -> Result<(), Refusal>
    requires placed { IsPlaced (placed_view placed.now) }
    requires pieces { length draft.old.pieces.items + file_count (placed_view placed.now).clip ≤ 1024 }
    requires parts { length draft.old.parts.items < 128 }
    ensures part { OnOk result (draft_view draft.new ≡ with_shares (draft_view draft.old) (kept_shares selection.now.root.now selection.now.tracks selection.now.window (length draft.old.parts.items) (spans true (placed_view placed.now ∷ [])))) }
    ensures only { IfErr result (λ refusal. refusal ≡ NoMemory) }
{
    let span = Span {
        start: placed.start,
        length: placed.length,
    }
    .windowed(selection.window);
    if !span.is_lasting() {
        return Ok(());
    }
    let part = draft.parts.len() as u32;
    let first = draft.pieces.len();
    push_pieces(alloc, selection, part, placed, &mut draft.pieces)?;
    let count = draft.pieces.len() - first;
    draft.parts.push(span.part(first as u32, count as u32))?;
    Ok(())
}

/// The timeline of clips of which each is a part of its own.
fn apart(alloc: Global, selection: &Selection, clips: &[Placed]) -> Result<Draft, Refusal>
    requires { ArePlaced (map placed_view clips.now) }
    ensures draft { IfOk result (λ draft. draft_view draft ≡ timeline_of_clips selection.now.root.now selection.now.tracks selection.now.window true (map placed_view clips.now)) }
    ensures only { IfErr result (λ refusal. refusal ≡ NoMemory) }
{
    let mut draft = Draft {
        pieces: Vec::new(alloc),
        parts: Vec::new(alloc),
    };
    for placed in clips {
        push_part(alloc, selection, placed, &mut draft)?;
    }
    Ok(draft)
}

/// What the window leaves of the pieces of all clips, in one part.
fn all_pieces(alloc: Global, selection: &Selection, clips: &[Placed]) -> Result<Vec<Piece>, Refusal>
    requires { ArePlaced (map placed_view clips.now) }
    ensures pieces { IfOk result (λ pieces. pieces.items ≡ trimmed selection.now.window (flat_map (placed_pieces selection.now.root.now selection.now.tracks 0) (map placed_view clips.now))) }
    ensures count { IfOk result (λ pieces. length pieces.items ≤ 1024) }
    ensures only { IfErr result (λ refusal. refusal ≡ NoMemory) }
{
    let mut pieces = Vec::new(alloc);
    for placed in clips {
        push_pieces(alloc, selection, 0, placed, &mut pieces)?;
    }
    Ok(pieces)
}

/// The timeline of clips that are one part together.
fn joined(alloc: Global, selection: &Selection, clips: &[Placed]) -> Result<Draft, Refusal>
    requires { ArePlaced (map placed_view clips.now) }
    ensures draft { IfOk result (λ draft. draft_view draft ≡ timeline_of_clips selection.now.root.now selection.now.tracks selection.now.window false (map placed_view clips.now)) }
    ensures only { IfErr result (λ refusal. refusal ≡ NoMemory) }
{
    let span = Span {
        start: 0,
        length: total_length(clips),
    }
    .windowed(selection.window);
    let mut parts = Vec::new(alloc);
    if !span.is_lasting() {
        return Ok(Draft {
            pieces: Vec::new(alloc),
            parts,
        });
    }
    let pieces = all_pieces(alloc, selection, clips)?;
    parts.push(span.part(0, pieces.len() as u32))?;
    Ok(Draft { pieces, parts })
}

/// The timeline of a sequence of the mapping by its number from 1.
fn drafted(
    alloc: Global,
    selection: &Selection,
    mapping: &Mapping,
    sequence: u32,
) -> Result<Draft, Refusal>
    requires rules { IsMapping mapping.now }
    requires number { IsInRange 1 (length mapping.now.sequences) sequence }
    ensures draft { IfOk result (λ draft. option_map (sequence_timeline selection.now.root.now selection.now.tracks mapping.now selection.now.window) (sequence_at mapping.now sequence) ≡ Some (draft_view draft)) }
    ensures only { IfErr result (λ refusal. refusal ≡ NoMemory) }
{
    let clips = placed_clips(alloc, mapping.durations(), mapping.clips(sequence))?;
    if mapping.discontinuity() {
        apart(alloc, selection, &clips)
    } else {
        joined(alloc, selection, &clips)
    }
}

/// The timeline of a sequence of the mapping, counted from 1, within a window in milliseconds. The files stand below `root`
/// in the store. A clip that names no tracks itself has those of `tracks`, and v1 and a1 where there are none.
///
/// Refused with `NoSequence` where the mapping has no such sequence, with `NothingSelected` where the window leaves no piece,
/// and with `NoMemory`.
pub fn timeline(
    alloc: Global,
    root: &str,
    mapping: &Mapping,
    sequence: u32,
    window: Window,
    tracks: Option<&TrackList>,
) -> Result<Timeline, Refusal>
    ensures { Answers (λ t. t) result (timeline_of root.now mapping.now sequence window (option_copied tracks.entry)) }
{
    let have = mapping.sequences();
    if sequence == 0 || sequence > have {
        return Err(Refusal::NoSequence {
            asked: sequence,
            have,
        });
    }
    let selection = Selection {
        root,
        tracks: tracks.copied().unwrap_or(TrackList::default_list()),
        window,
    };
    let draft = drafted(alloc, &selection, mapping, sequence)?;
    if draft.pieces.is_empty() {
        return Err(Refusal::NothingSelected { sequence });
    }
    let Draft { pieces, parts } = draft;
    Ok(Timeline { pieces, parts })
}
