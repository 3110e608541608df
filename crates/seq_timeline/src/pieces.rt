//! The pieces that clips make.

ghost use Rattle.std.specs.Prelude.{◌≡◌, ◌≤◌, ◌+◌, ◌++◌, [], ◌∷◌, IfOk, IfErr, OnOk, IfSome, IfNone, unwrap_or, length};
ghost use Rattle.vod_types.specs.declared.refusal.Refusal.TheVariants.{NoMemory};
ghost use Rattle.clip_model.specs.Trim.{windowed, is_left, trimmed};
ghost use Rattle.clip_model.specs.Timeline.{source_piece, file_piece, concat_pieces, placed_pieces};
ghost use Rattle.clip_map.specs.Views.{source_view, file_view, concat_view};
ghost use Rattle.seq_timeline.specs.Bounds.{AreUnits, IsPlaced, IsFileStart, longest};
ghost use Rattle.seq_timeline.specs.Views.{placed_view, as_source, as_concat};

use crate::names::store_name;
use crate::places::{Placed, Selection};
use crate::times::{clip_end_in_file, end_after, end_in_file, lesser_end, units};
use clip_map::{Clip, ConcatClip, ConcatFile, SourceClip};
use clip_model::Piece;
use std::alloc::Global;
use vod_types::{Refusal, TrackList, Window};

/// The piece of a source clip.
fn source_piece(
    alloc: Global,
    selection: &Selection,
    part: u32,
    placed: &Placed,
    clip: &SourceClip,
) -> Result<Piece, Refusal>
    requires { IsPlaced (as_source placed.now (source_view clip.now)) }
    ensures piece { IfOk result (λ piece. piece ≡ source_piece selection.now.root.now selection.now.tracks part placed.now.start placed.now.length (source_view clip.now)) }
    ensures only { IfErr result (λ refusal. refusal ≡ NoMemory) }
{
    let clip_from = i64::from(clip.clip_from);
    let lo = units(clip_from);
    Ok(Piece {
        name: store_name(alloc, selection.root, &clip.path)?,
        tracks: clip.tracks.unwrap_or(selection.tracks),
        base: units(placed.start as i64 - clip_from),
        lo,
        hi: end_after(lo, placed.length),
        part,
    })
}

/// The piece of a concat clip's file that begins at `at`, in milliseconds of the sequence.
fn file_piece(
    alloc: Global,
    root: &str,
    tracks: TrackList,
    part: u32,
    placed: &Placed,
    file: &ConcatFile,
    at: i64,
) -> Result<Piece, Refusal>
    requires start { placed.now.start ≤ longest }
    requires length { IfSome placed.now.length (λ n. n ≤ longest) }
    requires at { IsFileStart at }
    ensures piece { IfOk result (λ piece. piece ≡ file_piece root.now tracks part placed.now.start placed.now.length (file_view file.now) at) }
    ensures only { IfErr result (λ refusal. refusal ≡ NoMemory) }
{
    let base = units(at);
    let duration = units(i64::from(file.duration));
    let clip_end = clip_end_in_file(placed.start, placed.length, base);
    Ok(Piece {
        name: store_name(alloc, root, &file.path)?,
        tracks,
        base,
        lo: (units(placed.start as i64) - base).max(0),
        hi: lesser_end(Some(duration), clip_end),
        part,
    })
}

/// The piece in the times of the window, cut to it.
fn windowed(window: Window, piece: Piece) -> Piece
    requires { AreUnits piece }
    ensures { result ≡ windowed window piece }
{
    let from = units(i64::from(window.from));
    let lo = piece.lo.max(from - piece.base);
    let hi = lesser_end(piece.hi, end_in_file(window.to, piece.base));
    Piece {
        base: piece.base - from,
        lo,
        hi,
        ..piece
    }
}

/// Whether something of the piece is left between its ends.
fn is_left(piece: &Piece) -> bool
    ensures { result ≡ is_left piece.now }
{
    match piece.hi {
        Some(hi) => piece.lo < hi,
        None => true,
    }
}

/// What the window leaves of the piece, if anything.
fn trimmed(window: Window, piece: Piece) -> Option<Piece>
    requires { AreUnits piece }
    ensures some { IfSome result (λ left. trimmed window (piece ∷ []) ≡ left ∷ []) }
    ensures none { IfNone result (trimmed window (piece ∷ []) ≡ []) }
{
    let piece = windowed(window, piece);
    if is_left(&piece) { Some(piece) } else { None }
}

/// Puts what the window leaves of the piece at the end.
fn push_trimmed(window: Window, piece: Piece, pieces: &mut Vec<Piece>) -> Result<(), Refusal>
    requires { AreUnits piece }
    ensures pieces { OnOk result (pieces.new.items ≡ pieces.old.items ++ trimmed window (piece ∷ [])) }
    ensures only { IfErr result (λ refusal. refusal ≡ NoMemory) }
{
    if let Some(piece) = trimmed(window, piece) {
        pieces.push(piece)?;
    }
    Ok(())
}

/// Puts what the window leaves of each file's piece at the end.
fn push_files(
    alloc: Global,
    selection: &Selection,
    part: u32,
    placed: &Placed,
    clip: &ConcatClip,
    pieces: &mut Vec<Piece>,
) -> Result<(), Refusal>
    requires { IsPlaced (as_concat placed.now (concat_view clip.now)) }
    ensures pieces { OnOk result (pieces.new.items ≡ pieces.old.items ++ trimmed selection.now.window (concat_pieces selection.now.root.now selection.now.tracks part placed.now.start placed.now.length (concat_view clip.now))) }
    ensures only { IfErr result (λ refusal. refusal ≡ NoMemory) }
{
    let tracks = clip.tracks.unwrap_or(selection.tracks);
    let mut at = placed.start as i64 + i64::from(clip.offset);
    for file in &clip.files {
        let piece = file_piece(alloc, selection.root, tracks, part, placed, file, at)?;
        push_trimmed(selection.window, piece, pieces)?;
        at += i64::from(file.duration);
    }
    Ok(())
}

/// Puts what the window leaves of the clip's pieces at the end.
pub(crate) fn push_pieces(
    alloc: Global,
    selection: &Selection,
    part: u32,
    placed: &Placed,
    pieces: &mut Vec<Piece>,
) -> Result<(), Refusal>
    requires { IsPlaced (placed_view placed.now) }
    ensures pieces { OnOk result (pieces.new.items ≡ pieces.old.items ++ trimmed selection.now.window (placed_pieces selection.now.root.now selection.now.tracks part (placed_view placed.now))) }
    ensures only { IfErr result (λ refusal. refusal ≡ NoMemory) }
{
    match placed.clip {
        Clip::Source(clip) => {
            let piece = source_piece(alloc, selection, part, placed, clip)?;
            push_trimmed(selection.window, piece, pieces)
        }
        Clip::Concat(clip) => push_files(alloc, selection, part, placed, clip, pieces),
    }
}
