//! The rows of both kinds, gone through in writing order.

ghost use Rattle.std.specs.Prelude.{◌≡◌, ◌≢◌, ◌+◌, ◌*◌, ◌≤◌, ◌∷◌, max, map, length, All, IfErr, IfOk, IfSome, MatchOption, None, Some};
ghost use Rattle.std.specs.List.{AllByRecursion};
ghost use Rattle.vod_types.specs.declared.refusal.Refusal.TheVariants.{NoMemory, StoreFailed};
ghost use Rattle.vod_types.specs.declared.segments.Form.{Form};
ghost use Rattle.vod_types.specs.declared.tracks.Kind.TheVariants.{Video, Audio};
ghost use Rattle.media_model.specs.WritingOrder.{of_track};
ghost use Rattle.origin_model.specs.Samples.{sizes_of};
ghost use Rattle.vod_plan.specs.Dues.{shown, IsDue};
ghost use Rattle.vod_plan.specs.Passes.{audio_first as audio_first_of, behind_turn, head_rows, looks_for, looks_of, ordered_rows, rows_behind, rows_left, IsHead, IsPass, IsTurn};
ghost use Rattle.vod_plan.specs.RowFaults.{facts_of, first_fault, largest_in, row_fault, EndsLow};
ghost use Rattle.vod_plan.specs.Spans.{piece_view, rows_before, IsPlanPiece};
ghost use Rattle.vod_plan.specs.Walks.{IsWalk};

use crate::row_checks::check_row;
use crate::samples::DueRow;
use crate::spans::PlanPiece;
use crate::walk::{Walk, due_at};
use std::alloc::Global;
use std::sync::ledger::Ledger;
use vod_types::{Form, Kind, Refusal, Steps};

/// The row that is due in the rows of a kind, none where none is left, and the walk behind it.
#[derive(Clone, Copy, Debug)]
pub(crate) struct Head {
    pub(crate) next: Option<DueRow>,
    pub(crate) walk: Walk,
}

impl Head {
    // With the next row of a walk.
    fn of<L: Ledger>(pieces: &[PlanPiece], kind: Kind, walk: Walk, steps: &mut Steps<L>) -> Head
        requires few { length pieces.now ≤ 1024 }
        requires pieces { All IsPlanPiece pieces.now }
        requires walk { IsWalk kind (map piece_view pieces.now) walk }
        ensures head { IsHead kind (map piece_view pieces.now) result }
        ensures rows { (form : Form) → head_rows form kind (map piece_view pieces.now) result ≡ rows_behind form kind (map piece_view pieces.now) walk }
        ensures looks { steps.new + looks_of walk ≤ steps.old + looks_of result.walk }
    {
        if walk.given == walk.count {
            return Head { next: None, walk };
        }
        let (due, later) = due_at(pieces, kind, walk, steps);
        Head {
            next: Some(due),
            walk: later,
        }
    }
}

/// How far the rows of each kind were gone through, the greatest size of a sample so far, and the sum of their sizes.
#[derive(Clone, Copy, Debug)]
pub(crate) struct Pass {
    pub(crate) video: Head,
    pub(crate) audio: Head,
    pub(crate) largest: u32,
    pub(crate) bytes: u64,
}

impl Pass {
    // The row that is written next, and its kind.
    fn due(&self, form: Form) -> Option<(Kind, DueRow)>
        requires video { IfSome self.now.video.next IsDue }
        requires audio { IfSome self.now.audio.next IsDue }
        ensures { MatchOption result ((self.now.video.next ≡ None) × (self.now.audio.next ≡ None))
            (λ d. IsTurn form self.now.video.next self.now.audio.next d.0 d.1 × IsDue d.1) }
    {
        match (self.video.next, self.audio.next) {
            (None, None) => None,
            (Some(video), None) => Some((Kind::Video, video)),
            (None, Some(audio)) => Some((Kind::Audio, audio)),
            (Some(video), Some(audio)) => Some(first_of(form, video, audio)),
        }
    }

    // With a sample of this size.
    fn counted(self, size: u32) -> Pass
        requires room { self.bytes ≤ 4294967295 * 400000 }
        ensures { result ≡ record self { largest = max self.largest size; bytes = self.bytes + size } }
    {
        Pass {
            video: self.video,
            audio: self.audio,
            largest: self.largest.max(size),
            bytes: self.bytes + u64::from(size),
        }
    }

    // Behind the row of a kind that is due.
    fn advanced<L: Ledger>(self, pieces: &[PlanPiece], kind: Kind, steps: &mut Steps<L>) -> Pass
        requires few { length pieces.now ≤ 1024 }
        requires pieces { All IsPlanPiece pieces.now }
        requires pass { IsPass (map piece_view pieces.now) self }
        ensures pass { IsPass (map piece_view pieces.now) result }
        ensures rows { (form : Form) → rows_left form (map piece_view pieces.now) result
            ≡ behind_turn form kind self.video.next self.audio.next (rows_behind form Video (map piece_view pieces.now) self.video.walk) (rows_behind form Audio (map piece_view pieces.now) self.audio.walk) }
        ensures largest { result.largest ≡ self.largest }
        ensures bytes { result.bytes ≡ self.bytes }
        ensures looks { steps.new + looks_for self ≤ steps.old + looks_for result }
    {
        match kind {
            Kind::Video => Pass {
                video: Head::of(pieces, Kind::Video, self.video.walk, steps),
                audio: self.audio,
                largest: self.largest,
                bytes: self.bytes,
            },
            Kind::Audio => Pass {
                video: self.video,
                audio: Head::of(pieces, Kind::Audio, self.audio.walk, steps),
                largest: self.largest,
                bytes: self.bytes,
            },
        }
    }
}

// Which of two rows that are due comes first: in a transport stream the audio row where it is decoded before the video row.
fn first_of(form: Form, video: DueRow, audio: DueRow) -> (Kind, DueRow)
    requires video { IsDue video }
    requires audio { IsDue audio }
    ensures turn { IsTurn form (Some video) (Some audio) result.0 result.1 }
    ensures due { IsDue result.1 }
{
    if audio_first(form, &video, &audio) {
        (Kind::Audio, audio)
    } else {
        (Kind::Video, video)
    }
}

fn audio_first(form: Form, video: &DueRow, audio: &DueRow) -> bool
    requires video { IsDue video.now }
    requires audio { IsDue audio.now }
    ensures { result ≡ audio_first_of form (shown form video.now) (shown form audio.now) }
{
    match form {
        Form::Ts => audio.decode_time(Form::Ts) < video.decode_time(Form::Ts),
        Form::Fmp4 => false,
    }
}

// Goes over the row that is due, or gives its first fault.
fn taken<L: Ledger>(
    alloc: Global,
    form: Form,
    pieces: &[PlanPiece],
    pass: Pass,
    turn: (Kind, DueRow),
    steps: &mut Steps<L>,
) -> Result<Pass, Refusal>
    requires few { length pieces.now ≤ 1024 }
    requires pieces { All IsPlanPiece pieces.now }
    requires pass { IsPass (map piece_view pieces.now) pass }
    requires turn { IsTurn form pass.video.next pass.audio.next turn.0 turn.1 }
    requires due { IsDue turn.1 }
    requires room { pass.bytes ≤ 4294967295 * 400000 }
    ensures pass { IfOk result (IsPass (map piece_view pieces.now)) }
    ensures rows { IfOk result (λ now. rows_left form (map piece_view pieces.now) pass ≡ of_track turn.0 (shown form turn.1) ∷ rows_left form (map piece_view pieces.now) now) }
    ensures sound { IfOk result (λ now. row_fault form (map facts_of pieces.now) (of_track turn.0 (shown form turn.1)) ≡ None) }
    ensures ends { IfOk result (λ now. EndsLow (shown form turn.1)) }
    ensures largest { IfOk result (λ now. now.largest ≡ max pass.largest (shown form turn.1).sample.size) }
    ensures bytes { IfOk result (λ now. now.bytes ≡ pass.bytes + (shown form turn.1).sample.size) }
    ensures short { (shown form turn.1).sample.size ≤ 4294967295 }
    ensures refused { IfErr result (λ refusal. refusal ≢ NoMemory → row_fault form (map facts_of pieces.now) (of_track turn.0 (shown form turn.1)) ≡ Some refusal) }
    ensures no_store { IfErr result (λ refusal. refusal ≢ StoreFailed) }
    ensures looks { IfOk result (λ now. steps.new + looks_for pass ≤ steps.old + looks_for now) }
    ensures same_looks { IfErr result (λ refusal. steps.new ≡ steps.old) }
{
    let (kind, due) = turn;
    match check_row(alloc, form, kind, pieces, &due) {
        Ok(()) => Ok(pass.counted(due.sample.size).advanced(pieces, kind, steps)),
        Err(refusal) => Err(refusal),
    }
}

/// Goes through the rows of both kinds, so many of each, in the writing order of a form, and gives the greatest size of a sample and the sum of
/// all sizes, or the first fault of a row.
pub(crate) fn passed<L: Ledger>(
    alloc: Global,
    form: Form,
    pieces: &[PlanPiece],
    video: u32,
    audio: u32,
    steps: &mut Steps<L>,
) -> Result<Pass, Refusal>
    requires few { length pieces.now ≤ 1024 }
    requires pieces { All IsPlanPiece pieces.now }
    requires video { video ≡ rows_before Video (map piece_view pieces.now) (length pieces.now) }
    requires audio { audio ≡ rows_before Audio (map piece_view pieces.now) (length pieces.now) }
    requires short { video + audio ≤ 400000 }
    ensures sound { IfOk result (λ pass. first_fault form (map facts_of pieces.now) (ordered_rows form (map piece_view pieces.now)) ≡ None) }
    ensures ends { IfOk result (λ pass. AllByRecursion (λ r. EndsLow r.row) (ordered_rows form (map piece_view pieces.now))) }
    ensures largest { IfOk result (λ pass. pass.largest ≡ largest_in (ordered_rows form (map piece_view pieces.now))) }
    ensures bytes { IfOk result (λ pass. pass.bytes ≡ sizes_of (ordered_rows form (map piece_view pieces.now))) }
    ensures refused { IfErr result (λ refusal. refusal ≢ NoMemory → first_fault form (map facts_of pieces.now) (ordered_rows form (map piece_view pieces.now)) ≡ Some refusal) }
    ensures no_store { IfErr result (λ refusal. refusal ≢ StoreFailed) }
    ensures looks { steps.new ≤ steps.old + 768 * length pieces.now + 8 * (video + audio) }
{
    let mut pass = begun(pieces, video, audio, steps);
    while let Some(turn) = pass.due(form) {
        pass = match taken(alloc, form, pieces, pass, turn, steps) {
            Ok(now) => now,
            Err(refusal) => return Err(refusal),
        };
    }
    Ok(pass)
}

// At the first row of each kind.
fn begun<L: Ledger>(pieces: &[PlanPiece], video: u32, audio: u32, steps: &mut Steps<L>) -> Pass
    requires few { length pieces.now ≤ 1024 }
    requires pieces { All IsPlanPiece pieces.now }
    requires video { video ≡ rows_before Video (map piece_view pieces.now) (length pieces.now) }
    requires audio { audio ≡ rows_before Audio (map piece_view pieces.now) (length pieces.now) }
    ensures pass { IsPass (map piece_view pieces.now) result }
    ensures rows { (form : Form) → rows_left form (map piece_view pieces.now) result ≡ ordered_rows form (map piece_view pieces.now) }
    ensures largest { result.largest ≡ 0 }
    ensures bytes { result.bytes ≡ 0 }
    ensures looks { steps.new ≤ steps.old + looks_for result }
{
    Pass {
        video: Head::of(pieces, Kind::Video, Walk::first(video), steps),
        audio: Head::of(pieces, Kind::Audio, Walk::first(audio), steps),
        largest: 0,
        bytes: 0,
    }
}
