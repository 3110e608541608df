//! The selected rows of one piece.

ghost use Rattle.std.specs.Prelude.{◌≡◌, ◌+◌, ◌≤◌, option_and_then, option_map, IfSome, IsSome, Some};
ghost use Rattle.std.specs.Rc.{rc_value};
ghost use Rattle.mp4_model.specs.Samples.{sample_count};
ghost use Rattle.clip_model.specs.IsTimeline.{IsPiece, IsTime};
ghost use Rattle.vod_types.specs.declared.tracks.Kind.TheVariants.{Audio, Video};
ghost use Rattle.vod_plan.specs.Ranges.{range_of, RowRange};
ghost use Rattle.vod_plan.specs.Seeks.{audio_range, first_place, found_past, lead_range, other_range, rows_from, video_range, whole_range};
ghost use Rattle.vod_plan.specs.Selected.{AreFound, IsFound, IsSelected};
ghost use Rattle.vod_plan.specs.Spans.{piece_view, range_in, AreRangesIn, IsPlanPiece, IsRangeIn};
ghost use Rattle.vod_plan.specs.Tracks.{checked_view, edit_in, track_in};

use crate::seeks::{aligned, first_kept, found_at, place_at};
use crate::spans::{PlanPiece, RowSpan};
use crate::tracks::{AskedTrack, CheckedTracks};
use clip_model::Piece;
use std::sync::ledger::Ledger;
use vod_meta::Meta;
use vod_types::{Kind, Steps};

/// The selected rows of a piece, each asked track's by their numbers: those of the lead track, which is the video where there
/// is one, from its first sync row in the piece on, and those of the other from the time of that row on.
pub fn selected<L: Ledger>(piece: &Piece, tracks: CheckedTracks, steps: &mut Steps<L>) -> PlanPiece
    requires piece { IsPiece piece.now }
    requires named { (rc_value tracks.meta).name ≡ piece.now.name }
    requires found { AreFound tracks }
    ensures selected { IsSelected (checked_view piece.now tracks) (piece_view result) }
    ensures kept { IsPlanPiece result }
    ensures meta { rc_value result.meta ≡ rc_value tracks.meta }
    ensures looks { steps.new ≤ steps.old + 1024 }
{
    let mut selected = whole(piece, tracks);
    let (video, audio) = ranges(&selected, piece, steps);
    selected.video = video;
    selected.audio = audio;
    selected
}

// A piece with all rows of its asked tracks.
fn whole(piece: &Piece, tracks: CheckedTracks) -> PlanPiece
    requires piece { IsPiece piece.now }
    requires found { AreFound tracks }
    ensures kept { IsPlanPiece result }
    ensures meta { rc_value result.meta ≡ rc_value tracks.meta }
    ensures base { result.base ≡ piece.now.base }
    ensures video { (piece_view result).video ≡ option_map (whole_range (edit_in tracks.video)) (checked_view piece.now tracks).video }
    ensures audio { (piece_view result).audio ≡ option_map (whole_range (edit_in tracks.audio)) (checked_view piece.now tracks).audio }
{
    let video = all_rows(&tracks.meta, tracks.video);
    let audio = all_rows(&tracks.meta, tracks.audio);
    PlanPiece {
        meta: tracks.meta,
        base: piece.base,
        video,
        audio,
    }
}

// All rows of a track that is asked.
fn all_rows(meta: &Meta, asked: Option<AskedTrack>) -> Option<RowSpan>
    requires { IfSome asked (IsFound meta.now.movie) }
    ensures kept { AreRangesIn meta.now.movie result }
    ensures range { option_and_then (range_in meta.now.movie) result ≡ option_map (whole_range (edit_in asked)) (track_in meta.now.movie asked) }
{
    match asked {
        Some(asked) => Some(rows_of(meta, asked)),
        None => None,
    }
}

// All rows of a track.
fn rows_of(meta: &Meta, asked: AskedTrack) -> RowSpan
    requires { IsFound meta.now.movie asked }
    ensures kept { IsRangeIn meta.now.movie result }
    ensures range { range_in meta.now.movie result ≡ option_map (whole_range (edit_in (Some asked))) (track_in meta.now.movie (Some asked)) }
{
    RowSpan {
        track: asked.track,
        delay: asked.edit.delay,
        skip: asked.edit.skip,
        from: 0,
        to: match meta.track(asked.track) {
            Ok(view) => view.samples,
            Err(_) => 0,
        },
    }
}

// The rows of the video and of the audio of a piece that stand in its bounds.
fn ranges<L: Ledger>(
    whole: &PlanPiece,
    piece: &Piece,
    steps: &mut Steps<L>,
) -> (Option<RowSpan>, Option<RowSpan>)
    requires whole { IsPlanPiece whole.now }
    requires piece { IsPiece piece.now }
    ensures kept_video { AreRangesIn (rc_value whole.now.meta).movie result.0 }
    ensures kept_audio { AreRangesIn (rc_value whole.now.meta).movie result.1 }
    ensures video { option_and_then (range_in (rc_value whole.now.meta).movie) result.0 ≡ video_range piece.now (piece_view whole.now).video }
    ensures audio { option_and_then (range_in (rc_value whole.now.meta).movie) result.1 ≡ audio_range piece.now (piece_view whole.now).video (piece_view whole.now).audio }
    ensures looks { steps.new ≤ steps.old + 1024 }
{
    if whole.has(Kind::Video) {
        let video = lead(whole, Kind::Video, piece, steps);
        let audio = audio_beside(whole, &video, piece, steps);
        return (Some(video), audio);
    }
    if whole.has(Kind::Audio) {
        return (None, Some(lead(whole, Kind::Audio, piece, steps)));
    }
    (None, None)
}

// The rows of the lead track, from the first sync row on that the edit keeps and that isn't before the lower bound.
fn lead<L: Ledger>(whole: &PlanPiece, kind: Kind, piece: &Piece, steps: &mut Steps<L>) -> RowSpan
    requires whole { IsPlanPiece whole.now }
    requires some { IsSome (range_of kind (piece_view whole.now)) }
    requires piece { IsPiece piece.now }
    ensures kept { IsRangeIn (rc_value whole.now.meta).movie result }
    ensures range { (r : RowRange) → range_of kind (piece_view whole.now) ≡ Some r →
        range_in (rc_value whole.now.meta).movie result ≡ Some (lead_range kind piece.now.lo piece.now.hi r) }
    ensures looks { steps.new ≤ steps.old + 512 }
{
    let kept = first_kept(whole, kind, steps);
    let first = kept.max(found_at(whole, kind, piece.lo, steps));
    let from = aligned(whole, kind, true, first, steps);
    let to = found_past(whole, kind, piece.hi, steps);
    rows_from(whole, kind, from, to)
}

// The rows of the audio where the video has these.
fn audio_beside<L: Ledger>(
    whole: &PlanPiece,
    video: &RowSpan,
    piece: &Piece,
    steps: &mut Steps<L>,
) -> Option<RowSpan>
    requires whole { IsPlanPiece whole.now }
    requires some { IsSome (range_of Video (piece_view whole.now)) }
    requires piece { IsPiece piece.now }
    requires video { (r : RowRange) → range_of Video (piece_view whole.now) ≡ Some r →
        range_in (rc_value whole.now.meta).movie video.now ≡ Some (lead_range Video piece.now.lo piece.now.hi r) }
    ensures kept { AreRangesIn (rc_value whole.now.meta).movie result }
    ensures range { option_and_then (range_in (rc_value whole.now.meta).movie) result ≡ audio_range piece.now (piece_view whole.now).video (piece_view whole.now).audio }
    ensures looks { steps.new ≤ steps.old + 512 }
{
    if !whole.has(Kind::Audio) {
        return None;
    }
    let first = first_place(whole, Kind::Video, video, steps);
    Some(other(whole, Kind::Audio, first, piece.hi, steps))
}

// Where the first row of a span stands in the time of the file.
fn first_place<L: Ledger>(
    whole: &PlanPiece,
    kind: Kind,
    span: &RowSpan,
    steps: &mut Steps<L>,
) -> Option<i64>
    requires whole { IsPlanPiece whole.now }
    requires some { IsSome (range_of kind (piece_view whole.now)) }
    requires within { (r : RowRange) → range_of kind (piece_view whole.now) ≡ Some r → span.now.to ≤ sample_count r.track.tables }
    ensures value { (r : RowRange) → range_of kind (piece_view whole.now) ≡ Some r → result ≡ first_place kind (record { track = r.track; edit = r.edit; from = span.now.from; to = span.now.to }) }
    ensures bound { IfSome result IsTime }
    ensures looks { steps.new ≤ steps.old + 128 }
{
    if span.from < span.to {
        Some(place_at(whole, kind, span.from, steps))
    } else {
        None
    }
}

// The rows of another track from the time on at which the lead begins, and none where it has no row.
fn other<L: Ledger>(
    whole: &PlanPiece,
    kind: Kind,
    first: Option<i64>,
    hi: Option<i64>,
    steps: &mut Steps<L>,
) -> RowSpan
    requires whole { IsPlanPiece whole.now }
    requires some { IsSome (range_of kind (piece_view whole.now)) }
    requires first { IfSome first IsTime }
    requires hi { IfSome hi IsTime }
    ensures kept { IsRangeIn (rc_value whole.now.meta).movie result }
    ensures range { (r : RowRange) → range_of kind (piece_view whole.now) ≡ Some r →
        range_in (rc_value whole.now.meta).movie result ≡ Some (other_range kind first hi r) }
    ensures looks { steps.new ≤ steps.old + 384 }
{
    let kept = first_kept(whole, kind, steps);
    let Some(first) = first else {
        return rows_from(whole, kind, kept, kept);
    };
    let from = kept.max(found_at(whole, kind, first, steps));
    let to = found_past(whole, kind, hi, steps);
    rows_from(whole, kind, from, to)
}

// Where the rows end that stand before a time of the file.
fn found_past<L: Ledger>(
    whole: &PlanPiece,
    kind: Kind,
    hi: Option<i64>,
    steps: &mut Steps<L>,
) -> u32
    requires whole { IsPlanPiece whole.now }
    requires some { IsSome (range_of kind (piece_view whole.now)) }
    requires hi { IfSome hi IsTime }
    ensures value { (r : RowRange) → range_of kind (piece_view whole.now) ≡ Some r → result ≡ found_past kind r hi }
    ensures looks { steps.new ≤ steps.old + 128 }
{
    match hi {
        Some(hi) => found_at(whole, kind, hi, steps),
        None => whole.samples(kind),
    }
}

// The rows of a kind from one number on and before another, and none where that isn't above.
fn rows_from(whole: &PlanPiece, kind: Kind, from: u32, to: u32) -> RowSpan
    requires whole { IsPlanPiece whole.now }
    requires some { IsSome (range_of kind (piece_view whole.now)) }
    requires from { (r : RowRange) → range_of kind (piece_view whole.now) ≡ Some r → from ≤ sample_count r.track.tables }
    requires to { (r : RowRange) → range_of kind (piece_view whole.now) ≡ Some r → to ≤ sample_count r.track.tables }
    ensures kept { IsRangeIn (rc_value whole.now.meta).movie result }
    ensures range { (r : RowRange) → range_of kind (piece_view whole.now) ≡ Some r → range_in (rc_value whole.now.meta).movie result ≡ Some (rows_from r from to) }
{
    let span = whole.range(kind);
    RowSpan {
        track: span.track,
        delay: span.delay,
        skip: span.skip,
        from,
        to: to.max(from),
    }
}
