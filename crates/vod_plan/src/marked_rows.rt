//! The rows of I-frames.

ghost use Rattle.std.specs.Prelude.{◌≡◌, ◌≢◌, ◌≤◌, ◌<◌, List, IfErr, IfOk, length, min};
ghost use Rattle.vod_types.specs.declared.refusal.Refusal.TheVariants.{NoMemory, StoreFailed, TooManyIframes};
ghost use Rattle.answer_laws.specs.Refusals.{IsPathRefusal};
ghost use Rattle.vod_plan.specs.declared.iframe_marks.Mark.{Mark};
ghost use Rattle.vod_plan.specs.IframeMarks.{end_of_mark, row_of_mark, rows_of_marks, AreAll};

use crate::iframe_marks::{Mark, Marks};
use std::alloc::Global;
use vod_types::{IframeRow, Refusal};

/// The rows of I-frames, unless these are more than 100,000.
pub(crate) fn listed_rows(alloc: Global, marks: &Marks) -> Result<Vec<IframeRow>, Refusal>
    ensures listed { IfOk result (λ rows. (all : List Mark) → AreAll all marks.now → (rows.items ≡ rows_of_marks 0 all) × (length all ≤ 100000)) }
    ensures only { IfErr result (λ refusal. refusal ≢ NoMemory → (all : List Mark) → AreAll all marks.now → (100000 < length all) × (refusal ≡ TooManyIframes (length all))) }
    ensures refused { IfErr result IsPathRefusal }
    ensures no_store { IfErr result (λ refusal. refusal ≢ StoreFailed) }
{
    if marks.count > 100_000 {
        return Err(Refusal::TooManyIframes { count: marks.count });
    }
    rows_of(alloc, &marks.kept)
}

// The rows of I-frames in order. The only refusal is `NoMemory`.
fn rows_of(alloc: Global, marks: &[Mark]) -> Result<Vec<IframeRow>, Refusal>
    ensures rows { IfOk result (λ rows. rows.items ≡ rows_of_marks 0 marks.now) }
    ensures only { IfErr result (λ refusal. refusal ≡ NoMemory) }
{
    let mut out = Vec::new(alloc);
    let mut part = 0;
    for (place, mark) in marks.iter().enumerate() {
        out.push(row_of(mark, marks.get(place + 1).copied(), mark.part != part))?;
        part = mark.part;
    }
    Ok(out)
}

// The row of an I-frame, with the one behind it, if there is one.
fn row_of(mark: &Mark, next: Option<Mark>, first_in_part: bool) -> IframeRow
    ensures { result ≡ row_of_mark mark.now (next) first_in_part }
{
    IframeRow {
        number: mark.number,
        index: mark.index,
        start: mark.start,
        length: end_of(mark, next).abs_diff(mark.start),
        first_in_part,
        part: mark.part,
    }
}

// Where an I-frame ends: with the next one of its part, or with its part's lead track.
fn end_of(mark: &Mark, next: Option<Mark>) -> i64
    ensures { result ≡ end_of_mark mark.now (next) }
{
    match next {
        Some(next) if next.part == mark.part => next.start,
        _ => mark.end,
    }
}
