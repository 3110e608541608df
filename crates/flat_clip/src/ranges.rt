//! Which part of a clip is asked for, and which of its samples have bytes in it.

ghost use Rattle.std.specs.Prelude.{◌≡◌, true, ◌+◌, ◌≤◌, ◌<◌, IfOk, IfErr, IfSome};
ghost use Rattle.list_model.specs.Ranges.{range_first as range_first_of, range_last as range_last_of, taken_range as taken_range_of};
ghost use Rattle.vod_types.specs.declared.refusal.Refusal.TheVariants.{BadRange};
ghost use Rattle.media_model.specs.Clip.{meets as meets_of, met_bytes as met_bytes_of};
ghost use Rattle.origin_model.specs.Clips.{asked_part as asked_part_of};
ghost use Rattle.flat_clip.specs.Answers.{BadRangeOf};
ghost use Rattle.flat_clip.specs.Tracks.{placed_view};

use crate::placed::PlacedSample;
use vod_types::{ByteRange, Refusal};

/// The first and the last byte that are asked for, of so many.
///
/// Refused with `BadRange` where a range begins behind them all.
pub(crate) fn asked_part(range: Option<ByteRange>, length: u64) -> Result<(u64, u64), Refusal>
    requires { 1 ≤ length }
    ensures part { result ≡ asked_part_of range length }
    ensures first { IfOk result (λ part. part.0 < length) }
    ensures last { IfOk result (λ part. part.1 < length) }
    ensures refused { IfErr result (λ refusal. (refusal ≡ BadRange length) × BadRangeOf range) }
{
    match range {
        None => Ok((0, length - 1)),
        Some(range) => match taken_range(range, length) {
            Some(part) => Ok(part),
            None => Err(Refusal::BadRange { length }),
        },
    }
}

// The first and the last byte that a range takes of so many.
fn taken_range(range: ByteRange, length: u64) -> Option<(u64, u64)>
    requires { 1 ≤ length }
    ensures part { result ≡ taken_range_of range length }
    ensures first { IfSome result (λ part. part.0 < length) }
    ensures last { IfSome result (λ part. part.1 < length) }
{
    let first = range_first(range, length);
    if first < length {
        Some((first, range_last(range, length)))
    } else {
        None
    }
}

fn range_first(range: ByteRange, length: u64) -> u64
    ensures { result ≡ range_first_of range length }
{
    match range {
        ByteRange::From { first, .. } => first,
        ByteRange::Suffix(count) => length.saturating_sub(count),
    }
}

fn range_last(range: ByteRange, length: u64) -> u64
    requires { 1 ≤ length }
    ensures last { result ≡ range_last_of range length }
    ensures within { result < length }
{
    match range {
        ByteRange::From {
            last: Some(last),
            ..
        } => last.min(length - 1),
        ByteRange::From { last: None, .. } => length - 1,
        ByteRange::Suffix(_) => length - 1,
    }
}

/// Whether a sample has bytes among those from a first through a last one.
pub(crate) fn meets(part: (u64, u64), sample: &PlacedSample) -> bool
    ensures { result ≡ meets_of part (placed_view sample.now) }
{
    let size = sample.row.size();
    size > 0
        && sample.place <= part.1
        && u128::from(part.0) < u128::from(sample.place) + u128::from(size)
}

/// Which of its bytes, counted from its first: where they begin, and how many there are.
pub(crate) fn met_bytes(part: (u64, u64), sample: &PlacedSample) -> (u64, u64)
    requires { meets_of part (placed_view sample.now) ≡ true }
    ensures met { result ≡ met_bytes_of part (placed_view sample.now) }
    ensures within { result.0 + result.1 ≤ sample.now.row.sample.size }
{
    let end = u128::from(sample.place) + u128::from(sample.row.size());
    let until = end.min(u128::from(part.1) + 1);
    let from = part.0.max(sample.place);
    let count = until.saturating_sub(u128::from(from));
    (part.0.saturating_sub(sample.place), count as u64)
}
