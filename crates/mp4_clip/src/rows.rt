//! What the rows of a clip come to together, found by seeks.

ghost use Rattle.std.specs.Prelude.{◌≡◌, ◌+◌, ◌≤◌, IfSome, length};
ghost use Rattle.vod_types.specs.declared.tracks.Kind.TheVariants.{Audio, Video};
ghost use Rattle.media_model.specs.Clip.{sync_numbers};
ghost use Rattle.media_model.specs.Fragment.{sizes};
ghost use Rattle.vod_plan.specs.Spans.{IsPlanPiece};
ghost use Rattle.mp4_clip.specs.Kept.{kept_rows};

use crate::syncs::syncs_before;
use std::sync::ledger::Ledger;
use vod_plan::PlanPiece;
use vod_types::{Kind, Steps};

/// The bytes of the rows of both kinds; none where 64 bits don't hold them.
pub(crate) fn bytes_of_both<L: Ledger>(rows: &PlanPiece, steps: &mut Steps<L>) -> Option<u64>
    requires rows { IsPlanPiece rows.now }
    ensures bytes { IfSome result (λ n. n ≡ sizes (kept_rows Video rows.now) + sizes (kept_rows Audio rows.now)) }
    ensures looks { steps.new ≤ steps.old + 1024 }
{
    let video = bytes_of(rows, Kind::Video, steps);
    let audio = bytes_of(rows, Kind::Audio, steps);
    let Some(bytes) = video.checked_add(audio) else {
        return None;
    };
    if bytes > u128::from(u64::MAX) {
        return None;
    }
    Some(bytes as u64)
}

/// The bytes of the rows of a kind.
pub(crate) fn bytes_of<L: Ledger>(rows: &PlanPiece, kind: Kind, steps: &mut Steps<L>) -> u128
    requires rows { IsPlanPiece rows.now }
    ensures bytes { result ≡ sizes (kept_rows kind rows.now) }
    ensures looks { steps.new ≤ steps.old + 512 }
{
    if !rows.has(kind) {
        return 0;
    }
    let span = rows.range(kind);
    let places = rows.places(kind);
    let before = places.bytes_before(u64::from(span.from), steps);
    let through = places.bytes_before(u64::from(span.to), steps);
    through - before
}

/// How many of the rows of a kind are sync rows.
pub(crate) fn sync_count<L: Ledger>(rows: &PlanPiece, kind: Kind, steps: &mut Steps<L>) -> u32
    requires rows { IsPlanPiece rows.now }
    ensures count { result ≡ length (sync_numbers (kept_rows kind rows.now)) }
    ensures looks { steps.new ≤ steps.old + 64 }
{
    if !rows.has(kind) {
        return 0;
    }
    let span = rows.range(kind);
    let Ok(view) = rows.meta.track(span.track) else {
        return 0;
    };
    let before = syncs_before(&view.tables, span.from, steps);
    let through = syncs_before(&view.tables, span.to, steps);
    through - before
}
