//! The rows of I-frames.

ghost use Rattle.std.specs.Prelude.{◌≡◌, ◌≢◌, ◌≤◌, ◌<◌, ◌^◌, IfErr, IfOk, IfSome, length, unsigned_abs};
ghost use Rattle.vod_types.specs.declared.refusal.Refusal.TheVariants.{NoMemory, TooManyIframes};
ghost use Rattle.answer_laws.specs.Refusals.{IsPathRefusal};
ghost use Rattle.flat_lists.specs.Marks.{end_of_mark, row_of_mark, rows_of_marks, AreMarks};

use crate::iframe_marks::Mark;
use std::alloc::Global;
use vod_types::{IframeRow, Refusal};

/// The rows of I-frames, unless these are more than 100,000.
pub(crate) fn listed_rows(alloc: Global, marks: &[Mark]) -> Result<Vec<IframeRow>, Refusal>
    requires small { AreMarks marks.now }
    ensures listed { IfOk result (λ rows. (rows.items ≡ rows_of_marks 0 marks.now) × (length marks.now ≤ 100000)) }
    ensures only { IfErr result (λ refusal. refusal ≢ NoMemory → (100000 < length marks.now) × (refusal ≡ TooManyIframes (length marks.now))) }
    ensures refused { IfErr result IsPathRefusal }
{
    if marks.len() > 100_000 {
        return Err(Refusal::TooManyIframes {
            count: marks.len() as u64,
        });
    }
    rows_of(alloc, marks)
}

// The rows of at most 100,000 I-frames. The only refusal is `NoMemory`.
fn rows_of(alloc: Global, marks: &[Mark]) -> Result<Vec<IframeRow>, Refusal>
    requires small { AreMarks marks.now }
    requires few { length marks.now ≤ 100000 }
    ensures rows { IfOk result (λ rows. rows.items ≡ rows_of_marks 0 marks.now) }
    ensures only { IfErr result (λ refusal. refusal ≡ NoMemory) }
{
    let mut out = Vec::new(alloc);
    let mut part = 0;
    for (place, mark) in marks.iter().enumerate() {
        out.push(row_of(mark, marks.get(place + 1).copied(), mark.part != part))?;
        part = mark.part;
    }
    Ok(out)
}

// The row of an I-frame, with the one behind it, if there is one.
fn row_of(mark: &Mark, next: Option<Mark>, first_in_part: bool) -> IframeRow
    requires index { mark.now.index ≤ 100000 }
    requires end { unsigned_abs mark.now.end ≤ 2 ^ 43 }
    requires start { unsigned_abs mark.now.start ≤ 2 ^ 42 }
    requires next { IfSome next (λ m. unsigned_abs m.start ≤ 2 ^ 42) }
    ensures { result ≡ row_of_mark mark.now (next) first_in_part }
{
    IframeRow {
        number: mark.number,
        index: mark.index as u32,
        start: mark.start,
        length: (end_of(mark, next) - mark.start).unsigned_abs(),
        first_in_part,
        part: mark.part,
    }
}

// Where an I-frame ends: with the next one of its part, or with its part's lead track.
fn end_of(mark: &Mark, next: Option<Mark>) -> i64
    ensures { result ≡ end_of_mark mark.now (next) }
{
    match next {
        Some(next) if next.part == mark.part => next.start,
        _ => mark.end,
    }
}
