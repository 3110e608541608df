//! The samples of pieces that are selected.

ghost use Rattle.std.specs.Prelude.{◌≡◌, ◌&&◌, ◌++◌, All, IfErr, IfOk, IfSome, OnOk, [], filter, map, option_map};
ghost use Rattle.std.specs.List.{position};
ghost use Rattle.vod_types.specs.declared.refusal.Refusal.TheVariants.{NoMemory};
ghost use Rattle.mp4_model.specs.Samples.{sample_count};
ghost use Rattle.mp4_tables.specs.Views.{tables_of};
ghost use Rattle.mp4_tracks.specs.Views.{good_of};
ghost use Rattle.mp4_tracks.specs.Edits.{edit_of_view};
ghost use Rattle.clip_model.specs.IsTimeline.{IsPiece, IsTime};
ghost use Rattle.segment_model.specs.Rows.{timed_rows};
ghost use Rattle.segment_model.specs.Timeline.{is_below as is_below_bound, placed as placed_row};
ghost use Rattle.origin_model.specs.Sources.{source_piece, source_track};
ghost use Rattle.flat_samples.specs.Checks.{checked_view, AreSound, IsSound};
ghost use Rattle.flat_samples.specs.Rows.{timed_view, part_rows, rows_with, ArePlacedRows, IsFileRow};
ghost use Rattle.flat_samples.specs.Selection.{is_within, rows_added};

use crate::samples::{TimedSample, written_out};
use crate::tracks::CheckedTracks;
use clip_model::Piece;
use mp4_tracks::{Edit, TrackView};
use std::alloc::Global;
use vod_types::{Kind, Refusal};

/// Samples of the lead track and of the other asked track, each in the order of its track and of the pieces.
#[derive(Debug, Drop)]
pub struct PartRows {
    pub lead: Vec<TimedSample>,
    pub other: Vec<TimedSample>,
}

impl PartRows {
    /// No samples. It takes no memory.
    pub fn new(alloc: Global) -> PartRows
        ensures { part_rows result ≡ record { lead = []; other = [] } }
    {
        PartRows {
            lead: Vec::new(alloc),
            other: Vec::new(alloc),
        }
    }

    /// Puts the selected samples of a piece at the end, in the time of the output. `file` is the place of the piece among
    /// those that are needed. The video track leads where there is one. The only refusal is `NoMemory`, and it may leave
    /// some of the samples there.
    pub fn add(
        &mut self,
        alloc: Global,
        file: u32,
        piece: &Piece,
        tracks: &CheckedTracks<'_>,
    ) -> Result<(), Refusal>
        requires piece { IsPiece piece.now }
        requires sound { AreSound (checked_view piece.now tracks.now) }
        requires video { IfSome tracks.now.video (λ v. v.samples ≡ sample_count (tables_of v.tables)) }
        requires audio { IfSome tracks.now.audio (λ v. v.samples ≡ sample_count (tables_of v.tables)) }
        requires placed { ArePlacedRows (part_rows self.old) }
        ensures rows { OnOk result (part_rows self.new ≡ rows_with (part_rows self.old) file (source_piece (checked_view piece.now tracks.now))) }
        ensures placed { OnOk result (ArePlacedRows (part_rows self.new)) }
        ensures only { IfErr result (λ refusal. refusal ≡ NoMemory) }
    {
        let video = samples_of(alloc, Kind::Video, tracks.video_edit, &tracks.video)?;
        let audio = samples_of(alloc, Kind::Audio, tracks.audio_edit, &tracks.audio)?;
        let window = Window {
            file,
            base: piece.base,
            from: piece.lo,
            hi: piece.hi,
        };
        if tracks.video.is_some() {
            self.add_within(&window, &video, &audio)
        } else {
            self.add_within(&window, &audio, &[])
        }
    }

    // Puts the samples of a window at the end: those of the lead track from a sync sample on, and those of the other track
    // not before it.
    fn add_within(
        &mut self,
        window: &Window,
        lead: &[TimedSample],
        other: &[TimedSample],
    ) -> Result<(), Refusal>
        requires base { IsTime window.now.base }
        requires lead { All IsFileRow (map timed_view lead.now) }
        requires other { All IsFileRow (map timed_view other.now) }
        requires placed { ArePlacedRows (part_rows self.old) }
        ensures rows { OnOk result (part_rows self.new ≡ rows_added (part_rows self.old) window.now.file window.now.base window.now.from window.now.hi (map timed_view lead.now) (map timed_view other.now)) }
        ensures placed { OnOk result (ArePlacedRows (part_rows self.new)) }
        ensures only { IfErr result (λ refusal. refusal ≡ NoMemory) }
    {
        let Some(i) = window.first_sync(lead) else {
            return Ok(());
        };
        let later = Window {
            from: lead[i].place,
            ..*window
        };
        window.add(&lead[i..], &mut self.lead)?;
        later.add(other, &mut self.other)
    }
}

// The samples of a track of a kind that its edit keeps; none where there is no track.
fn samples_of(
    alloc: Global,
    kind: Kind,
    edit: Edit,
    track: &Option<TrackView<'_>>,
) -> Result<Vec<TimedSample>, Refusal>
    requires sound { IfSome (option_map good_of track.now) IsSound }
    requires samples { IfSome track.now (λ t. t.samples ≡ sample_count (tables_of t.tables)) }
    ensures rows { IfOk result (λ rows. map timed_view rows.items ≡ timed_rows (source_track kind (edit_of_view edit) (option_map good_of track.now))) }
    ensures bounds { IfOk result (λ rows. All IsFileRow (map timed_view rows.items)) }
    ensures only { IfErr result (λ refusal. refusal ≡ NoMemory) }
{
    match track {
        Some(track) => written_out(alloc, kind, edit, track),
        None => Ok(Vec::new(alloc)),
    }
}

// A range of times in a file: from one on, and below another where there is one. `file` is the place of its piece, and
// `base` is added to give a time of the output.
#[derive(Clone, Copy)]
struct Window {
    file: u32,
    base: i64,
    from: i64,
    hi: Option<i64>,
}

impl Window {
    fn has(&self, sample: &TimedSample) -> bool
        ensures { result ≡ is_within self.now.from self.now.hi (timed_view sample.now) }
    {
        self.from <= sample.place && is_below(sample.place, self.hi)
    }

    // The index of the first sync sample of the window.
    fn first_sync(&self, samples: &[TimedSample]) -> Option<usize>
        ensures { result ≡ position (λ s. is_within self.now.from self.now.hi (timed_view s) && s.sync) samples.now }
    {
        samples
            .iter()
            .position(|sample| self.has(sample) && sample.sync)
    }

    // The sample in the time of the output.
    fn placed(&self, sample: &TimedSample) -> TimedSample
        requires base { IsTime self.now.base }
        requires row { IsFileRow (timed_view sample.now) }
        ensures { timed_view result ≡ placed_row self.now.file self.now.base (timed_view sample.now) }
    {
        TimedSample {
            file: self.file,
            place: self.base + sample.place,
            presentation: self.base + sample.presentation,
            ..*sample
        }
    }

    // Puts the samples of the window at the end of others. The only refusal is `NoMemory`.
    fn add(&self, samples: &[TimedSample], out: &mut Vec<TimedSample>) -> Result<(), Refusal>
        requires base { IsTime self.now.base }
        requires rows { All IsFileRow (map timed_view samples.now) }
        ensures rows { OnOk result (map timed_view out.new.items ≡ map timed_view out.old.items ++ map (placed_row self.now.file self.now.base) (filter (is_within self.now.from self.now.hi) (map timed_view samples.now))) }
        ensures only { IfErr result (λ refusal. refusal ≡ NoMemory) }
    {
        for sample in samples {
            if self.has(sample) && out.push(self.placed(sample)).is_err() {
                return Err(Refusal::NoMemory);
            }
        }
        Ok(())
    }
}

// Whether a time is below a bound, where there is one.
fn is_below(time: i64, bound: Option<i64>) -> bool
    ensures { result ≡ is_below_bound time bound }
{
    match bound {
        Some(bound) => time < bound,
        None => true,
    }
}
