//! A sequence of what a request is about, and how its parts are cut.

ghost use Rattle.std.specs.Prelude.{◌≡◌, ◌≢◌, IfErr, IfOk, not};
ghost use Rattle.vod_types.specs.declared.refusal.Refusal.TheVariants.{StoreFailed};
ghost use Rattle.answer_laws.specs.Refusals.{IsPathRefusal};

use flat_lists::Asking;
use flat_segments::Cut;
use segmenter::Grid;
use seq_timeline::Timeline;
use std::alloc::Global;
use vod_types::{Refusal, Settings};

/// The timeline of a sequence, and how its parts are cut by the mapping and the settings.
#[derive(Debug, Drop)]
pub(crate) struct SequenceCut {
    timeline: Timeline,
    grid: Grid,
    align: bool,
    edits: bool,
}

impl SequenceCut {
    ghost use Rattle.vod_types.specs.Results.{Answers};
    ghost use Rattle.clip_model.specs.Timeline.{timeline_of};
    ghost use Rattle.segment_model.specs.Grid.{grid_of};

    /// That of a sequence by its number from 1. Refused with the first fault of the timeline.
    pub(crate) fn new(
        alloc: Global,
        settings: &Settings,
        root: &str,
        asking: &Asking,
        sequence: u32,
    ) -> Result<SequenceCut, Refusal>
        ensures timeline { Answers (λ s. s.timeline) result (timeline_of root.now asking.now.mapping sequence asking.now.window asking.now.tracks) }
        ensures grid { IfOk result (λ s. s.grid ≡ grid_of settings.now asking.now.mapping.segment_ms) }
        ensures align { IfOk result (λ s. s.align ≡ settings.now.align) }
        ensures edits { IfOk result (λ s. s.edits ≡ not settings.now.ignore_edits) }
        ensures not_failed { IfErr result (λ refusal. refusal ≢ StoreFailed) }
        ensures refused { IfErr result IsPathRefusal }
    {
        let timeline = match asking.timeline(alloc, root, sequence) {
            Ok(timeline) => timeline,
            Err(refusal) => return Err(refusal),
        };
        let grid = match asking.grid(alloc, settings) {
            Ok(grid) => grid,
            Err(refusal) => return Err(refusal),
        };
        Ok(SequenceCut {
            timeline,
            grid,
            align: settings.align,
            edits: !settings.ignore_edits,
        })
    }

    /// The same, lent out.
    pub(crate) fn cut(&self) -> Cut<'_>
        ensures timeline { result.timeline.now ≡ self.now.timeline }
        ensures grid { result.grid.now ≡ self.now.grid }
        ensures align { result.align ≡ self.now.align }
        ensures edits { result.edits ≡ self.now.edits }
    {
        Cut {
            timeline: &self.timeline,
            grid: &self.grid,
            align: self.align,
            edits: self.edits,
        }
    }
}
