//! How the parts of a presentation are cut.

ghost use Rattle.std.specs.Prelude.{◌≡◌, IfOk, IfErr};
ghost use Rattle.std.specs.Int.{IsInRange};
ghost use Rattle.std.specs.Option.{ForSome};
ghost use Rattle.vod_types.specs.declared.refusal.Refusal.TheVariants.{NoMemory};

use std::alloc::Global;
use std::marker::Model;
use vod_types::{Policy, Refusal, Settings};

/// The durations of a part's first cells and of the others in milliseconds, and how its last cell is cut. They begin anew in
/// each part.
#[derive(Debug, Drop)]
pub struct Grid {
    pub(crate) bootstrap: Vec<u32>,
    pub(crate) step: u32,
    pub(crate) policy: Policy,
}

impl Model for Grid {
    ghost use Rattle.segment_model.specs.Grid.{SegmentGrid};
    ghost use Rattle.segmenter.specs.Ranges.{HasRanges};

    ghost Value = { SegmentGrid };

    ghost view = { λ g. record { bootstrap = g.bootstrap.items; step = g.step; policy = g.policy } };

    ghost invariant = { λ g. HasRanges (record { bootstrap = g.bootstrap.items; step = g.step; policy = g.policy }) };
}

impl Grid {
    ghost use Rattle.segment_model.specs.Grid.{grid_of};

    /// The grid of the settings, in which a duration that the mapping names, from 1 to 600,000, goes before that of the
    /// settings. The only refusal is `NoMemory`.
    pub fn new(alloc: Global, settings: &Settings, segment_ms: Option<u32>) -> Result<Grid, Refusal>
        requires { ForSome segment_ms (IsInRange 1 600000) }
        ensures grid { IfOk result (λ grid. grid ≡ grid_of settings.now segment_ms) }
        ensures only { IfErr result (λ refusal. refusal ≡ NoMemory) }
    {
        match settings.bootstrap.to_vec(alloc) {
            Ok(bootstrap) => Ok(Grid {
                bootstrap,
                step: segment_ms.unwrap_or(settings.segment_ms),
                policy: settings.policy,
            }),
            Err(_) => Err(Refusal::NoMemory),
        }
    }
}
