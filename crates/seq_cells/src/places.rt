//! Where a number stands, and which pieces may matter to its cell.

ghost use Rattle.std.specs.Prelude.{◌≡◌, ◌≢◌, ◌<◌, ◌≤◌, ◌^◌, length, All, IfErr, IfOk};
ghost use Rattle.vod_types.specs.declared.refusal.Refusal.TheVariants.{StoreFailed};
ghost use Rattle.vod_types.specs.Lists.{from_first};
ghost use Rattle.clip_model.specs.IsTimeline.{IsPiece};
ghost use Rattle.answer_laws.specs.Refusals.{IsPathRefusal};
ghost use Rattle.seq_cells.specs.Cells.{piece_ends_after, place_among};

use crate::parts::sum_of;
use clip_model::Piece;
use segmenter::locate;
use vod_types::Refusal;

/// The part, counted from 0, in which the number of a segment stands, and its cell in that part, counted from 0; at most 100,000 cells.
pub fn place_among(counts: &[u64], number: u32) -> Result<(u32, u64), Refusal>
    requires few { length counts.now ≤ 128 }
    requires bounded { All (λ count. count ≤ 2 ^ 42) counts.now }
    ensures place { result ≡ place_among counts.now number }
    ensures not_failed { IfErr result (λ refusal. refusal ≢ StoreFailed) }
    ensures part { IfOk result (λ place. place.0 < length counts.now) }
    ensures cell { IfOk result (λ place. place.1 < 100000) }
    ensures refused { IfErr result IsPathRefusal }
{
    let all = sum_of(counts);
    if all > 100_000 {
        return Err(Refusal::TooManySegments { cells: all });
    }
    match locate(counts, number) {
        Some(place) => Ok(place),
        None => Err(Refusal::NoSegment { number, cells: all }),
    }
}

/// The pieces from the first that ends after a time.
pub fn ending_after<'a>(pieces: &'a [Piece], time: i64) -> &'a [Piece]
    requires { All IsPiece pieces.now }
    ensures pieces { result.now ≡ from_first (piece_ends_after time) pieces.now }
    ensures each { All IsPiece result.now }
    ensures few { length result.now ≤ length pieces.now }
{
    for (place, piece) in pieces.iter().enumerate() {
        if ends_after(piece, time) {
            return &pieces[place..];
        }
    }
    &pieces[pieces.len()..]
}

fn ends_after(piece: &Piece, time: i64) -> bool
    requires { IsPiece piece.now }
    ensures { result ≡ piece_ends_after time piece.now }
{
    match piece.hi {
        Some(hi) => time < piece.base + hi,
        None => true,
    }
}
