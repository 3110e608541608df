//! What an edit keeps of a track.

ghost use Rattle.std.specs.Prelude.{◌≡◌, ◌+◌, ◌≤◌, ◌^◌, unsigned_abs};
ghost use Rattle.vod_plan.specs.Spans.{edit_of_span};

use crate::spans::RowSpan;
use vod_types::Kind;

/// What an edit keeps of a track, in 1/90000 s: the media from `from` on, which is moved by `delay` and shown from `skip` on.
/// Of what is skipped, `lead_in` is kept for decoding.
#[derive(Clone, Copy, Debug)]
pub(crate) struct Cut {
    pub(crate) from: u64,
    pub(crate) delay: u64,
    pub(crate) skip: u64,
    pub(crate) lead_in: u32,
    pub(crate) ghost from_is: { from + lead_in ≡ skip },
    pub(crate) ghost delay_units: { delay ≤ 2 ^ 40 },
    pub(crate) ghost skip_units: { skip ≤ 2 ^ 40 },
    pub(crate) ghost lead_in_short: { lead_in ≤ 90000 },
}

impl Cut {
    ghost use Rattle.segment_model.specs.Rows.{lead_in_of};
    ghost use Rattle.vod_plan.specs.Cuts.{edit_of_cut};

    /// That of the edit of a track of a kind.
    pub(crate) fn new(kind: Kind, span: &RowSpan) -> Cut
        requires delay { unsigned_abs span.now.delay ≤ 2 ^ 40 }
        requires skip { unsigned_abs span.now.skip ≤ 2 ^ 40 }
        ensures edit { edit_of_cut result ≡ edit_of_span span.now }
        ensures lead_in { result.lead_in ≡ lead_in_of kind (edit_of_span span.now) }
    {
        let lead_in = Cut::lead_in(kind, span);
        let skip = span.skip.unsigned_abs();
        Cut {
            from: skip - u64::from(lead_in),
            delay: span.delay.unsigned_abs(),
            skip,
            lead_in,
        }
    }

    // Up to a second of what is skipped of a video track.
    fn lead_in(kind: Kind, span: &RowSpan) -> u32
        ensures value { result ≡ lead_in_of kind (edit_of_span span.now) }
        ensures short { result ≤ 90000 }
        ensures within { result ≤ (edit_of_span span.now).skip }
    {
        match kind {
            Kind::Video => span.skip.unsigned_abs().min(90_000) as u32,
            Kind::Audio => 0,
        }
    }
}
