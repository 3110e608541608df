//! One row of a track.

ghost use Rattle.std.specs.Prelude.{◌≡◌, ◌+◌, ◌*◌, ◌<◌, ◌≤◌, ◌^◌, ◌+ℤ◌, ◌-ℤ◌, pos, unsigned_abs};
ghost use Rattle.mp4_model.specs.Clock.{to_units, to_units_signed};
ghost use Rattle.segment_model.specs.Rows.{timed_row, written_row};
ghost use Rattle.segment_model.specs.Timeline.{placed};
ghost use Rattle.media_model.specs.WritingOrder.{of_track};
ghost use Rattle.origin_model.specs.Samples.{is_backward as is_backward_of};
ghost use Rattle.vod_types.specs.declared.tracks.Kind.{Kind};
ghost use Rattle.vod_plan.specs.Cuts.{cut_of, decoded_at, flat_view, timed_view, most_units, most_shift, AreSmall, IsTimely};
ghost use Rattle.vod_plan.specs.Dues.{shown, IsDue};

use crate::cut::Cut;
use vod_types::{Form, Row, Sample};

/// A sample as the tables of its track have it.
#[derive(Clone, Copy, Debug)]
pub(crate) struct FlatSample {
    pub(crate) offset: u128,
    pub(crate) size: u32,
    pub(crate) decode_time: u64,
    pub(crate) delta: u32,
    pub(crate) composition_offset: i64,
    pub(crate) sync: bool,
}

/// A sample on the clock of 1/90000 s, in the time of its file. `place` is the time by which it is selected and cut, and
/// at which a fragment decodes it, `presentation` the one at which it is shown, `duration` the time to the next one, and
/// `lead_in` how much earlier a transport stream decodes it.
#[derive(Clone, Copy, Debug)]
pub(crate) struct TimedSample {
    pub(crate) number: u32,
    pub(crate) offset: u128,
    pub(crate) size: u32,
    pub(crate) place: i64,
    pub(crate) presentation: i64,
    pub(crate) duration: u64,
    pub(crate) lead_in: u32,
    pub(crate) sync: bool,
}

impl TimedSample {
    /// The sample with its number in a track of a timescale, of which a cut keeps a part.
    pub(crate) fn new(cut: Cut, timescale: u32, number: u32, sample: &FlatSample) -> TimedSample
        requires timescale { 1 ≤ timescale }
        requires timely { IsTimely timescale (flat_view sample.now) }
        ensures row { timed_view result ≡ timed_row (cut_of cut timescale) (number, flat_view sample.now) }
        ensures small { AreSmall result }
    {
        let time = to_units(timescale, u128::from(sample.decode_time));
        let end = to_units(
            timescale,
            u128::from(sample.decode_time) + u128::from(sample.delta),
        );
        let shown = presentation(timescale, sample.decode_time, sample.composition_offset);
        TimedSample {
            number,
            offset: sample.offset,
            size: sample.size,
            place: (time + cut.delay).saturating_sub(cut.from) as i64,
            presentation: shown + cut.delay as i64 - cut.skip as i64,
            duration: end - time,
            lead_in: cut.lead_in,
            sync: sample.sync,
        }
    }

    /// Its row in a form, where the time 0 of its file stands at `base`.
    pub(crate) fn row(&self, form: Form, file: u32, base: i64) -> Row
        requires small { AreSmall self.now }
        requires base { unsigned_abs base ≤ 2 ^ 41 }
        requires fits { self.now.offset < 2 ^ 64 }
        ensures { result ≡ written_row form (placed file base (timed_view self.now)) }
    {
        let place = base + self.place;
        Row {
            file,
            number: u64::from(self.number),
            sample: Sample {
                at: self.offset as u64,
                size: self.size,
                dts: decoded(form, place, self.lead_in),
                pts: base + self.presentation,
                dur: self.duration.min(u64::from(u32::MAX)) as u32,
                sync: self.sync,
            },
        }
    }
}

/// A row that is due in a walk: the place of its piece among the pieces, where the time 0 of its file stands in 1/90000 s, and
/// its sample.
#[derive(Clone, Copy, Debug)]
pub(crate) struct DueRow {
    pub(crate) file: u32,
    pub(crate) base: i64,
    pub(crate) sample: TimedSample,
}

impl DueRow {
    /// The row in a form.
    pub(crate) fn row(&self, form: Form) -> Row
        requires due { IsDue self.now }
        requires fits { self.now.sample.offset < 2 ^ 64 }
        ensures { result ≡ shown form self.now }
    {
        self.sample.row(form, self.file, self.base)
    }

    /// When a form decodes it.
    pub(crate) fn decode_time(&self, form: Form) -> i64
        requires due { IsDue self.now }
        ensures { result ≡ (shown form self.now).sample.dts }
    {
        decoded(form, self.base + self.sample.place, self.sample.lead_in)
    }

    /// Whether it is shown before it is decoded, which no transport stream can do.
    pub(crate) fn is_backward(&self, form: Form) -> bool
        requires due { IsDue self.now }
        ensures { (kind : Kind) → result ≡ is_backward_of form (of_track kind (shown form self.now)) }
    {
        match form {
            Form::Ts => self.base + self.sample.presentation < self.decode_time(Form::Ts),
            Form::Fmp4 => false,
        }
    }
}

// A transport stream begins to decode the lead-in before the place time.
fn decoded(form: Form, place: i64, lead_in: u32) -> i64
    requires place { unsigned_abs place ≤ 2 ^ 43 }
    ensures { result ≡ decoded_at form place lead_in }
{
    match form {
        Form::Ts => place - i64::from(lead_in),
        Form::Fmp4 => place,
    }
}

/// A time of a timescale on the clock of 1/90000 s, rounded down.
pub(crate) fn to_units(timescale: u32, time: u128) -> u64
    requires timescale { 1 ≤ timescale }
    requires short { to_units timescale time ≤ most_units }
    ensures value { result ≡ to_units timescale time }
    ensures bound { result ≤ most_units }
{
    (time * 90_000 / u128::from(timescale)) as u64
}

/// The time of a timescale at which a sample is shown, on the clock of 1/90000 s and rounded down.
fn presentation(timescale: u32, decode_time: u64, offset: i64) -> i64
    requires timescale { 1 ≤ timescale }
    requires short { to_units timescale decode_time ≤ most_units }
    requires near { unsigned_abs offset ≤ 3600 * timescale }
    ensures value { result ≡ to_units_signed timescale (pos decode_time +ℤ offset) }
    ensures near { unsigned_abs (result -ℤ pos (to_units timescale decode_time)) ≤ most_shift }
{
    let time = i128::from(decode_time) + i128::from(offset);
    (time * 90_000).div_euclid(i128::from(timescale)) as i64
}
