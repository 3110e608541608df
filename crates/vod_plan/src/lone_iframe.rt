//! The plan of one I-frame of a cell.

ghost use Rattle.std.specs.Prelude.{◌≡◌, ◌≢◌, ◌+◌, ◌*◌, ◌≤◌, None, List, length, map, All, IfErr, IfOk};
ghost use Rattle.vod_types.specs.declared.refusal.Refusal.TheVariants.{NoIframe, StoreFailed};
ghost use Rattle.vod_types.specs.declared.segments.Form.TheVariants.{Ts};
ghost use Rattle.vod_types.specs.Lists.{nth_from_one};
ghost use Rattle.vod_types.specs.Results.{Answers};
ghost use Rattle.vod_types.specs.Tracks.{lead_of as lead_of_asked};
ghost use Rattle.segment_model.specs.Iframes.{sync_rows};
ghost use Rattle.origin_model.specs.Iframes.{checked_iframe};
ghost use Rattle.origin_model.specs.Loaded.{CheckedPiece};
ghost use Rattle.vod_plan.specs.Looks.{samples_through};
ghost use Rattle.vod_plan.specs.Narrowed.{IsSound};
ghost use Rattle.vod_plan.specs.Planned.{plan_view};
ghost use Rattle.vod_plan.specs.RowFaults.{AreTyped};
ghost use Rattle.vod_plan.specs.Selected.{rows_planned, ArePiecesOf, AreSamePieces};
ghost use Rattle.vod_plan.specs.Spans.{piece_view};
ghost use Rattle.vod_plan.specs.Wanted.{IsNthSync};
ghost use Rattle.vod_plan.specs.Writable.{IsCounted};

use crate::cell::{cut_by_number, other_kind};
use crate::checks::{check_pieces, checked_plan};
use crate::needed::lead_of;
use crate::plan::Plan;
use crate::spans::PlanPiece;
use crate::syncs::{cut_to_row, nth_sync};
use std::alloc::Global;
use std::sync::ledger::Ledger;
use vod_types::{Asked, Form, Kind, Refusal, Steps};

/// The plan of the I-frame of an index, from 1, among the rows of pieces, as the only row of a transport stream, or its first
/// refusal: those for all rows before the samples are gone through, then `NoIframe`, and those of its sample.
pub(crate) fn iframe_plan<L: Ledger>(
    alloc: Global,
    number: u32,
    index: u32,
    asked: Asked,
    pieces: Vec<PlanPiece>,
    steps: &mut Steps<L>,
) -> Result<Plan, Refusal>
    requires few { length pieces.items ≤ 1024 }
    requires pieces { All IsSound pieces.items }
    requires typed { AreTyped asked pieces.items }
    ensures answers { (cs : List CheckedPiece) → ArePiecesOf cs pieces.items →
        Answers plan_view result (checked_iframe number index asked cs (rows_planned (lead_of_asked asked) (map piece_view pieces.items))) }
    ensures looks { steps.new ≤ steps.old + 1152 * length pieces.items + 8 + 8 * samples_through (rows_planned (lead_of_asked asked) (map piece_view pieces.items)) }
    ensures number { IfOk result (λ plan. plan.number ≡ number) }
    ensures form { IfOk result (λ plan. plan.form ≡ Ts) }
    ensures counted { IfOk result IsCounted }
    ensures no_store { IfErr result (λ refusal. refusal ≢ StoreFailed) }
{
    match check_pieces(alloc, number, Form::Ts, asked, &pieces) {
        Ok(()) => {}
        Err(refusal) => return Err(refusal),
    }
    let leads = lead_of(asked);
    let mut pieces = pieces;
    match cut_to_sync(&mut pieces, leads, index, steps) {
        Ok(()) => checked_plan(alloc, number, Form::Ts, asked, pieces, steps),
        Err(refusal) => Err(refusal),
    }
}

// Leaves of all rows the sync row of an index, from 1, of the leading kind alone.
fn cut_to_sync<L: Ledger>(
    pieces: &mut [PlanPiece],
    leads: Kind,
    index: u32,
    steps: &mut Steps<L>,
) -> Result<(), Refusal>
    requires few { length pieces.old ≤ 1024 }
    requires pieces { All IsSound pieces.old }
    requires rows { length (rows_planned leads (map piece_view pieces.old)).lead ≤ 200000 }
    ensures found { IfOk result (λ done. IsNthSync (rows_planned leads (map piece_view pieces.old)).lead index (rows_planned leads (map piece_view pieces.new))) }
    ensures none { IfErr result (λ refusal. (nth_from_one (sync_rows (rows_planned leads (map piece_view pieces.old)).lead) index ≡ None)
        × (refusal ≡ NoIframe index (length (sync_rows (rows_planned leads (map piece_view pieces.old)).lead)))) }
    ensures pieces { All IsSound pieces.new }
    ensures same { IfOk result (λ done. AreSamePieces pieces.old pieces.new) }
    ensures looks { steps.new ≤ steps.old + 128 * length pieces.old + 4 * length (rows_planned leads (map piece_view pieces.old)).lead }
{
    match nth_sync(pieces, leads, index, steps) {
        Ok(place) => {
            cut_to_row(pieces, leads, place);
            cut_by_number(pieces, other_kind(leads), 0, 0);
            Ok(())
        }
        Err(have) => Err(Refusal::NoIframe {
            index,
            have: have as u32,
        }),
    }
}
