//! The parts that clips make, in the times of a window.

ghost use Rattle.std.specs.Prelude.{◌≡◌, ◌≤◌, ◌*◌, [], map, IfSome};
ghost use Rattle.clip_model.specs.Timeline.{windowed_span, is_lasting, total_length, end_within};
ghost use Rattle.seq_timeline.specs.Bounds.{longest, ArePlaced};
ghost use Rattle.seq_timeline.specs.Views.{placed_view};
ghost use Rattle.seq_timeline.specs.Spans.{span_view, part_of};

use crate::places::Placed;
use crate::times::units;
use clip_model::Part;
use vod_types::Window;

/// When a part begins and how long it is, where that is declared, in milliseconds.
#[derive(Clone, Copy)]
pub(crate) struct Span {
    pub start: u64,
    pub length: Option<u64>,
}

impl Span {
    /// What the window leaves of the part, in the window's times.
    pub fn windowed(self, window: Window) -> Span
        requires start { self.start ≤ longest }
        requires length { IfSome self.length (λ n. n ≤ 128 * longest) }
        ensures { span_view [] result ≡ windowed_span window (span_view [] self) }
    {
        let from = u64::from(window.from);
        let start = self.start.max(from);
        let length = match self.length {
            Some(length) => Some(end_within(window.to, self.start + length).saturating_sub(start)),
            None => None,
        };
        Span {
            start: start - from,
            length,
        }
    }

    /// Whether something of the part is left.
    pub fn is_lasting(self) -> bool
        ensures { result ≡ is_lasting (span_view [] self) }
    {
        match self.length {
            Some(length) => 0 < length,
            None => true,
        }
    }

    /// The part with the pieces from `first` on, as many as `count`.
    pub fn part(self, first: u32, count: u32) -> Part
        requires { self.start ≤ longest }
        ensures { result ≡ part_of (span_view [] self) first count }
    {
        Part {
            start: units(self.start as i64),
            length_ms: self.length,
            first,
            count,
        }
    }
}

/// The end that a window leaves.
fn end_within(to: Option<u32>, end: u64) -> u64
    ensures { result ≡ end_within to end }
{
    match to {
        Some(to) => end.min(u64::from(to)),
        None => end,
    }
}

/// How long the clips are together, where each has a declared length.
pub(crate) fn total_length(clips: &[Placed]) -> Option<u64>
    requires { ArePlaced (map placed_view clips.now) }
    ensures total { result ≡ total_length (map placed_view clips.now) }
    ensures bound { IfSome result (λ n. n ≤ 128 * longest) }
{
    let mut total = 0;
    for placed in clips {
        total += placed.length?;
    }
    Some(total)
}
