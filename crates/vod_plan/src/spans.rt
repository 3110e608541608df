//! Ranges of the rows of files.

ghost use Rattle.std.specs.Prelude.{◌≡◌, [], is_some, IsSome, Some};
ghost use Rattle.std.specs.Option.{option_map_or};
ghost use Rattle.mp4_model.specs.Samples.{sample_count};
ghost use Rattle.vod_meta.specs.Shown.{places_of, runs_of, times_of};
ghost use Rattle.vod_plan.specs.Ranges.{range_of, RowRange};
ghost use Rattle.vod_plan.specs.Spans.{edit_of_span, piece_view, rows_in, span_of, IsPlanPiece};

use chunk_runs::ChunkRuns;
use std::rc::Rc;
use time_runs::TimeRuns;
use vod_meta::Meta;
use vod_types::{Kind, TrackName};

/// Rows of a track by their numbers in it: from `from` on and before `to`. `delay` and `skip` are those of the track's edit in
/// 1/90000 s, and 0 where edits aren't honoured.
#[derive(Clone, Copy, Debug)]
pub struct RowSpan {
    pub track: TrackName,
    pub delay: i64,
    pub skip: i64,
    pub from: u32,
    pub to: u32,
}

/// A needed piece: the metadata of its file, where the file's time 0 stands in 1/90000 s, and the rows of each asked track.
#[derive(Debug, Drop)]
pub struct PlanPiece {
    pub meta: Rc<Meta>,
    pub base: i64,
    pub video: Option<RowSpan>,
    pub audio: Option<RowSpan>,
}

impl PlanPiece {
    /// The rows of a kind by their numbers.
    pub fn span(&self, kind: Kind) -> Option<RowSpan>
        ensures { result ≡ span_of kind self.now }
    {
        match kind {
            Kind::Video => self.video,
            Kind::Audio => self.audio,
        }
    }

    /// How many rows of a kind it has.
    pub fn rows(&self, kind: Kind) -> u32
        requires { IsPlanPiece self.now }
        ensures { result ≡ rows_in kind (piece_view self.now) }
    {
        match self.span(kind) {
            Some(span) => span.to - span.from,
            None => 0,
        }
    }

    /// Whether it has a range of a kind.
    pub fn has(&self, kind: Kind) -> bool
        requires { IsPlanPiece self.now }
        ensures { result ≡ is_some (range_of kind (piece_view self.now)) }
    {
        self.span(kind).is_some()
    }

    /// The span of a kind that has rows.
    pub fn range(&self, kind: Kind) -> RowSpan
        requires some { IsSome (range_of kind (piece_view self.now)) }
        ensures span { span_of kind self.now ≡ Some result }
        ensures from { (r : RowRange) → range_of kind (piece_view self.now) ≡ Some r → result.from ≡ r.from }
        ensures to { (r : RowRange) → range_of kind (piece_view self.now) ≡ Some r → result.to ≡ r.to }
        ensures edit { (r : RowRange) → range_of kind (piece_view self.now) ≡ Some r → edit_of_span result ≡ r.edit }
    {
        self.span(kind).unwrap()
    }

    /// The timescale of its track of a kind.
    pub fn timescale(&self, kind: Kind) -> u32
        requires some { IsSome (range_of kind (piece_view self.now)) }
        ensures { (r : RowRange) → range_of kind (piece_view self.now) ≡ Some r → result ≡ r.track.timescale }
    {
        match self.meta.track(self.range(kind).track) {
            Ok(view) => view.timescale,
            Err(_) => 1,
        }
    }

    /// The number of rows of its track of a kind.
    pub fn samples(&self, kind: Kind) -> u32
        requires some { IsSome (range_of kind (piece_view self.now)) }
        ensures { (r : RowRange) → range_of kind (piece_view self.now) ≡ Some r → result ≡ sample_count r.track.tables }
    {
        match self.meta.track(self.range(kind).track) {
            Ok(view) => view.samples,
            Err(_) => 0,
        }
    }

    /// The timescale, the times and the places of its track of a kind.
    pub fn runs(&self, kind: Kind) -> (u32, TimeRuns<'_>, ChunkRuns<'_>)
        requires some { IsSome (range_of kind (piece_view self.now)) }
        ensures { (r : RowRange) → range_of kind (piece_view self.now) ≡ Some r → result ≡ runs_of r.track }
    {
        self.meta.runs(self.range(kind).track).unwrap()
    }

    /// The times of its track of a kind.
    pub fn times(&self, kind: Kind) -> TimeRuns<'_>
        requires some { IsSome (range_of kind (piece_view self.now)) }
        ensures { (r : RowRange) → range_of kind (piece_view self.now) ≡ Some r → result ≡ times_of r.track }
    {
        self.meta.times(self.range(kind).track).unwrap()
    }

    /// The places of its track of a kind.
    pub fn places(&self, kind: Kind) -> ChunkRuns<'_>
        requires some { IsSome (range_of kind (piece_view self.now)) }
        ensures { (r : RowRange) → range_of kind (piece_view self.now) ≡ Some r → result ≡ places_of r.track }
    {
        self.meta.places(self.range(kind).track).unwrap()
    }

    /// The configuration of its track of a kind, and nothing where it has no rows of it.
    pub fn config(&self, kind: Kind) -> &[u8]
        ensures { result.now ≡ option_map_or (λ r. r.track.config) (range_of kind (piece_view self.now)) [] }
    {
        let Some(span) = self.span(kind) else {
            return &[];
        };
        match self.meta.track(span.track) {
            Ok(view) => view.config,
            Err(_) => &[],
        }
    }
}
