//! How long all that stands before the rows of a clip is.

ghost use Rattle.std.specs.Prelude.{◌≡◌, ◌+◌, ◌≤◌, ◌<◌, ◌^◌, IfSome, length, unsigned_abs};
ghost use Rattle.std.specs.Int.{int_gap};
ghost use Rattle.vod_types.specs.declared.tracks.Kind.TheVariants.{Audio, Video};
ghost use Rattle.media_model.specs.Clip.{begins_after as begins_after_of, edits_size as edits_size_of, if_rows, media_start as media_start_of, track_rest_size, track_size as track_size_of};
ghost use Rattle.vod_plan.specs.Spans.{piece_view, rows_in, IsPlanPiece};
ghost use Rattle.mp4_clip.specs.Kept.{kept_lead, kept_rows, lead_kind_of, track_with_rows, AreFew};

use crate::rows::sync_count;
use std::sync::ledger::Ledger;
use vod_plan::{PlanPiece, time_at};
use vod_types::{Kind, Steps};

/// Where the first row stands: behind `ftyp`, `moov` and the header of `mdat`. None where that is above 2^62.
pub(crate) fn media_start<L: Ledger>(rows: &PlanPiece, steps: &mut Steps<L>) -> Option<u64>
    requires rows { IsPlanPiece rows.now }
    requires video { AreFew Video rows.now }
    requires audio { AreFew Audio rows.now }
    ensures start { IfSome result (λ n. n ≡ media_start_of (track_with_rows Video rows.now) (track_with_rows Audio rows.now)) }
    ensures low { IfSome result (λ n. n ≤ 2 ^ 62) }
    ensures looks { steps.new ≤ steps.old + 1024 }
{
    let video = given_size(rows, Kind::Video, steps);
    let audio = given_size(rows, Kind::Audio, steps);
    let start = 24 + 128 + video + audio + 16;
    if start > 4_611_686_018_427_387_904 {
        return None;
    }
    Some(start as u64)
}

// The length of `trak` of a track that has rows; no bytes of a track without rows.
fn given_size<L: Ledger>(rows: &PlanPiece, kind: Kind, steps: &mut Steps<L>) -> u128
    requires rows { IsPlanPiece rows.now }
    requires few { AreFew kind rows.now }
    ensures size { result ≡ if_rows (kept_rows kind rows.now) 0 (track_size_of kind (kept_lead rows.now) (track_with_rows kind rows.now)) }
    ensures small { result < 2 ^ 66 }
    ensures looks { steps.new ≤ steps.old + 512 }
{
    if rows.rows(kind) == 0 {
        return 0;
    }
    let rest = rest_size(rows, kind, steps);
    let edits = edits_size(begins_after(rows, kind, steps));
    let entry = entry_size(rows, kind);
    let entries = 28 * u64::from(rows.rows(kind));
    u128::from(rest) + u128::from(edits) + entry as u128 + u128::from(entries)
}

// What `trak` has beside its edits, its entry and 28 bytes for each row.
fn rest_size<L: Ledger>(rows: &PlanPiece, kind: Kind, steps: &mut Steps<L>) -> u64
    requires { IsPlanPiece rows.now }
    ensures size { result ≡ track_rest_size kind (kept_rows kind rows.now) }
    ensures small { result < 2 ^ 40 }
    ensures looks { steps.new ≤ steps.old + 64 }
{
    match kind {
        Kind::Video => 397 + 4 * u64::from(sync_count(rows, Kind::Video, steps)),
        Kind::Audio => 377,
    }
}

// The length of `edts` of a track that begins so long after the lead.
fn edits_size(after: u64) -> u64
    ensures size { result ≡ edits_size_of after }
    ensures small { result ≤ 64 }
{
    if after == 0 { 0 } else { 64 }
}

// The length of the sample entry of a track that has rows.
fn entry_size(rows: &PlanPiece, kind: Kind) -> usize
    requires rows { IsPlanPiece rows.now }
    requires some { 0 < rows_in kind (piece_view rows.now) }
    ensures { result ≡ length (track_with_rows kind rows.now).entry }
{
    match rows.meta.track(rows.range(kind).track) {
        Ok(view) => view.entry.len(),
        Err(_) => 0,
    }
}

/// How long after the lead a track that has rows begins, in 1/90000 s.
pub(crate) fn begins_after<L: Ledger>(rows: &PlanPiece, kind: Kind, steps: &mut Steps<L>) -> u64
    requires rows { IsPlanPiece rows.now }
    requires some { 0 < rows_in kind (piece_view rows.now) }
    ensures after { result ≡ begins_after_of (kept_lead rows.now) (kept_rows kind rows.now) }
    ensures small { result ≤ 2 ^ 44 }
    ensures looks { steps.new ≤ steps.old + 256 }
{
    let lead = lead_kind(rows);
    let begins = time_at(rows, lead, 0, steps);
    let first = time_at(rows, kind, 0, steps);
    gap(begins, first)
}

// How far the second time is above the first.
fn gap(first: i64, second: i64) -> u64
    requires first { unsigned_abs first ≤ 2 ^ 43 }
    requires second { unsigned_abs second ≤ 2 ^ 43 }
    ensures gap { result ≡ int_gap first second }
    ensures small { result ≤ 2 ^ 44 }
{
    (second - first).max(0) as u64
}

// The kind of the lead: video where there are rows of it.
fn lead_kind(rows: &PlanPiece) -> Kind
    requires { IsPlanPiece rows.now }
    ensures { result ≡ lead_kind_of rows.now }
{
    if rows.rows(Kind::Video) > 0 {
        Kind::Video
    } else {
        Kind::Audio
    }
}
