//! The rows of a plan, checked one after another.

ghost use Rattle.std.specs.Prelude.{◌≡◌, ◌≢◌, ◌+◌, ◌++◌, ◌*◌, ◌≤◌, List, length, map, All, IfErr, IfOk};
ghost use Rattle.vod_types.specs.declared.refusal.Refusal.TheVariants.{StoreFailed};
ghost use Rattle.vod_types.specs.declared.tracks.Kind.TheVariants.{Video, Audio};
ghost use Rattle.vod_types.specs.Results.{Answers, unless};
ghost use Rattle.vod_types.specs.Tracks.{lead_of};
ghost use Rattle.media_model.specs.Fragment.{sizes};
ghost use Rattle.origin_model.specs.Loaded.{CheckedPiece};
ghost use Rattle.origin_model.specs.Samples.{checked_rows, front_fault};
ghost use Rattle.vod_plan.specs.Looks.{samples_through};
ghost use Rattle.vod_plan.specs.Planned.{plan_rows, plan_view};
ghost use Rattle.vod_plan.specs.RowFaults.{facts_of, front_in, largest_of, lead_first as lead_first_of, AreTyped, EndsLow};
ghost use Rattle.vod_plan.specs.Selected.{rows_planned, ArePiecesOf};
ghost use Rattle.vod_plan.specs.Spans.{piece_view, rows_before, IsPlanPiece};

use crate::codecs::{begins_with_hevc, check_codecs};
use crate::passes::passed;
use crate::plan::Plan;
use crate::spans::PlanPiece;
use crate::walk::Walk;
use std::alloc::Global;
use std::sync::ledger::Ledger;
use vod_types::{Asked, Form, Kind, Refusal, Steps};

/// The plan of the rows of pieces in a form, or the first refusal for them: `EmptySegment`, in a transport stream
/// `MixedCodecs`, `TooManySamples`, then row by row in writing order `SampleTooLong`, `OutOfFile` and in a transport stream
/// `BackwardOffset`, then `SegmentTooLarge`.
pub(crate) fn checked_plan<L: Ledger>(
    alloc: Global,
    number: u32,
    form: Form,
    asked: Asked,
    pieces: Vec<PlanPiece>,
    steps: &mut Steps<L>,
) -> Result<Plan, Refusal>
    requires few { length pieces.items ≤ 1024 }
    requires pieces { All IsPlanPiece pieces.items }
    requires typed { AreTyped asked pieces.items }
    ensures answers { (cs : List CheckedPiece) → ArePiecesOf cs pieces.items →
        Answers plan_view result (checked_rows number form asked cs (rows_planned (lead_of asked) (map piece_view pieces.items))) }
    ensures pieces { IfOk result (λ plan. plan.pieces ≡ map piece_view pieces.items) }
    ensures largest { IfOk result (λ plan. plan.largest ≡ largest_of ((plan_rows plan).video ++ (plan_rows plan).audio)) }
    ensures bytes { IfOk result (λ plan. plan.bytes ≡ sizes (plan_rows plan).video + sizes (plan_rows plan).audio) }
    ensures small { IfOk result (λ plan. plan.bytes ≤ 2130706432) }
    ensures video_ends { IfOk result (λ plan. All EndsLow (plan_rows plan).video) }
    ensures audio_ends { IfOk result (λ plan. All EndsLow (plan_rows plan).audio) }
    ensures number { IfOk result (λ plan. plan.number ≡ number) }
    ensures form { IfOk result (λ plan. plan.form ≡ form) }
    ensures no_store { IfErr result (λ refusal. refusal ≢ StoreFailed) }
    ensures looks { steps.new ≤ steps.old + 1024 * length pieces.items + 8 * samples_through (rows_planned (lead_of asked) (map piece_view pieces.items)) }
{
    let video = count_of(&pieces, Kind::Video);
    let audio = count_of(&pieces, Kind::Audio);
    let counts = lead_first(asked, video, audio);
    match check_front(alloc, number, form, asked, &pieces, counts) {
        Ok(()) => {}
        Err(refusal) => return Err(refusal),
    }
    let pass = match passed(alloc, form, &pieces, video as u32, audio as u32, steps) {
        Ok(pass) => pass,
        Err(refusal) => return Err(refusal),
    };
    if pass.bytes > 2_130_706_432 {
        return Err(Refusal::SegmentTooLarge { bytes: pass.bytes });
    }
    let hevc = begins_with_hevc(&pieces);
    Ok(Plan {
        number,
        form,
        pieces,
        video: Walk::first(video as u32),
        audio: Walk::first(audio as u32),
        largest: pass.largest,
        bytes: pass.bytes,
        hevc,
    })
}

/// What is refused of the rows of pieces before the samples are gone through.
pub(crate) fn check_pieces(
    alloc: Global,
    number: u32,
    form: Form,
    asked: Asked,
    pieces: &[PlanPiece],
) -> Result<(), Refusal>
    requires few { length pieces.now ≤ 1024 }
    requires pieces { All IsPlanPiece pieces.now }
    requires typed { AreTyped asked pieces.now }
    ensures answers { (cs : List CheckedPiece) → ArePiecesOf cs pieces.now →
        Answers (λ done. done) result (unless (front_fault number form cs (rows_planned (lead_of asked) (map piece_view pieces.now)))) }
    ensures lead { IfOk result (λ done. length (rows_planned (lead_of asked) (map piece_view pieces.now)).lead ≤ 200000) }
    ensures other { IfOk result (λ done. length (rows_planned (lead_of asked) (map piece_view pieces.now)).other ≤ 200000) }
    ensures no_store { IfErr result (λ refusal. refusal ≢ StoreFailed) }
{
    let video = count_of(pieces, Kind::Video);
    let audio = count_of(pieces, Kind::Audio);
    let counts = lead_first(asked, video, audio);
    check_front(alloc, number, form, asked, pieces, counts)
}

// How many rows of a kind all pieces have.
fn count_of(pieces: &[PlanPiece], kind: Kind) -> u64
    requires few { length pieces.now ≤ 1024 }
    requires pieces { All IsPlanPiece pieces.now }
    ensures { result ≡ rows_before kind (map piece_view pieces.now) (length pieces.now) }
{
    let mut count = 0;
    for piece in pieces {
        count += u64::from(piece.rows(kind));
    }
    count
}

// The numbers of rows of both kinds, that of the lead track first.
fn lead_first(asked: Asked, video: u64, audio: u64) -> (u64, u64)
    ensures { result ≡ lead_first_of (lead_of asked) video audio }
{
    match asked.video {
        Some(_) => (video, audio),
        None => (audio, video),
    }
}

// What is refused before the samples are gone through: no lead row, in a transport stream mixed codecs, then more than
// 200,000 rows of a track.
fn check_front(
    alloc: Global,
    number: u32,
    form: Form,
    asked: Asked,
    pieces: &[PlanPiece],
    counts: (u64, u64),
) -> Result<(), Refusal>
    requires pieces { All IsPlanPiece pieces.now }
    requires typed { AreTyped asked pieces.now }
    ensures answers { Answers (λ done. done) result (unless (front_in number form (map facts_of pieces.now) counts.0 counts.1)) }
    ensures lead { IfOk result (λ done. counts.0 ≤ 200000) }
    ensures other { IfOk result (λ done. counts.1 ≤ 200000) }
    ensures no_store { IfErr result (λ refusal. refusal ≢ StoreFailed) }
{
    let (lead, other) = counts;
    if lead == 0 {
        return Err(Refusal::EmptySegment { number });
    }
    match check_codecs(alloc, form, asked, pieces) {
        Ok(()) => {}
        Err(refusal) => return Err(refusal),
    }
    if lead > 200_000 {
        return Err(Refusal::TooManySamples { count: lead });
    }
    if other > 200_000 {
        return Err(Refusal::TooManySamples { count: other });
    }
    Ok(())
}
