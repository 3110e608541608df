//! What an edit keeps of a track.

ghost use Rattle.std.specs.Prelude.{◌≡◌, ◌+◌, ◌≤◌, ◌^◌};

use mp4_tracks::Edit;
use vod_types::Kind;

/// What an edit keeps of a track, in 1/90000 s: the media from `from` on, which is moved by `delay` and shown from `skip` on.
/// Of what is skipped, `lead_in` is kept for decoding.
#[derive(Clone, Copy, Debug)]
pub(crate) struct Cut {
    pub(crate) from: u64,
    pub(crate) delay: u64,
    pub(crate) skip: u64,
    pub(crate) lead_in: u32,
    pub(crate) ghost from_is: { from + lead_in ≡ skip },
    pub(crate) ghost delay_units: { delay ≤ 2 ^ 40 },
    pub(crate) ghost skip_units: { skip ≤ 2 ^ 40 },
    pub(crate) ghost lead_in_short: { lead_in ≤ 90000 },
}

impl Cut {
    ghost use Rattle.mp4_tracks.specs.Edits.{edit_of_view};
    ghost use Rattle.segment_model.specs.Rows.{lead_in_of};
    ghost use Rattle.flat_samples.specs.Cuts.{edit_of_cut};

    /// That of a track of a kind with an edit.
    pub(crate) fn new(kind: Kind, edit: Edit) -> Cut
        ensures edit { edit_of_cut result ≡ edit_of_view edit }
        ensures lead_in { result.lead_in ≡ lead_in_of kind (edit_of_view edit) }
    {
        let lead_in = Cut::lead_in(kind, edit);
        let skip = edit.skip.unsigned_abs();
        Cut {
            from: skip - u64::from(lead_in),
            delay: edit.delay.unsigned_abs(),
            skip,
            lead_in,
        }
    }

    // Up to a second of what is skipped of a video track.
    fn lead_in(kind: Kind, edit: Edit) -> u32
        ensures value { result ≡ lead_in_of kind (edit_of_view edit) }
        ensures short { result ≤ 90000 }
        ensures within { result ≤ (edit_of_view edit).skip }
    {
        match kind {
            Kind::Video => edit.skip.unsigned_abs().min(90_000) as u32,
            Kind::Audio => 0,
        }
    }
}
