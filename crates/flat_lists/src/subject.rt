//! What a request is about, with the timelines and the grid that it has.

ghost use Rattle.std.specs.Prelude.{◌≡◌, ◌≢◌, ◌<◌, ◌^◌, IfOk, IfErr, IfSome};
ghost use Rattle.std.proofs.Props.{props};
ghost use Rattle.vod_types.specs.declared.refusal.Refusal.TheVariants.{NoMemory, StoreFailed};
ghost use Rattle.answer_laws.specs.Refusals.{IsPathRefusal};
ghost use Rattle.clip_model.specs.Mapping.{IsMapping};
ghost use Rattle.flat_lists.specs.ClipFacts.{clip_fact, fit_fact};

use clip_map::Mapping;
use segmenter::Grid;
use seq_timeline::{Timeline, timeline};
use std::alloc::Global;
use vod_types::{Refusal, Settings, TrackList, Window};

/// The mapping of a request, its window and its tracks.
#[derive(Debug, Drop)]
pub struct Asking {
    pub mapping: Mapping,
    pub window: Window,
    pub tracks: Option<TrackList>,
    pub ghost rules: { IsMapping mapping } by { Prim.hlevel (props, clip_fact, fit_fact) },
    pub ghost from: { window.from < 2 ^ 32 },
    pub ghost to: { IfSome window.to (λ to. to < 2 ^ 32) } by { Prim.hlevel props },
}

impl Asking {
    ghost use Rattle.vod_types.specs.Results.{Answers};
    ghost use Rattle.clip_model.specs.Timeline.{timeline_of};
    ghost use Rattle.segment_model.specs.Grid.{grid_of};

    /// The timeline of a sequence within the window.
    pub fn timeline(&self, alloc: Global, root: &str, sequence: u32) -> Result<Timeline, Refusal>
        ensures answers { Answers (λ t. t) result (timeline_of root.now self.now.mapping sequence self.now.window self.now.tracks) }
        ensures not_failed { IfErr result (λ refusal. refusal ≢ StoreFailed) }
        ensures refused { IfErr result IsPathRefusal }
    {
        timeline(
            alloc,
            root,
            &self.mapping,
            sequence,
            self.window,
            self.tracks.as_ref(),
        )
    }

    /// How the mapping and the settings cut the parts. The only refusal is `NoMemory`.
    pub fn grid(&self, alloc: Global, settings: &Settings) -> Result<Grid, Refusal>
        ensures grid { IfOk result (λ grid. grid ≡ grid_of settings.now self.now.mapping.segment_ms) }
        ensures only { IfErr result (λ refusal. refusal ≡ NoMemory) }
    {
        Grid::new(alloc, settings, self.mapping.segment_ms())
    }
}
