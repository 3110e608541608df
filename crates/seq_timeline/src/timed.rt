//! The pieces and the parts of a sequence.

use clip_model::{Part, Piece};
use std::marker::Model;

/// The pieces of a sequence, part by part and in the order of time, and the parts. There are at most 1,024 pieces and 128
/// parts. The pieces of a part stand from its `first` on, as many as its `count`, and parts are counted from 0 in `part`.
#[derive(Debug, Drop)]
pub struct Timeline {
    pub pieces: Vec<Piece>,
    pub parts: Vec<Part>,
}

impl Model for Timeline {
    ghost use Rattle.clip_model.specs.Timeline.{Timeline as Timed};
    ghost use Rattle.clip_model.specs.IsTimeline.{IsTimeline};

    ghost Value = { Timed };

    ghost view = { λ t. record { pieces = t.pieces.items; parts = t.parts.items } };

    ghost invariant = { λ t. IsTimeline t.pieces.items t.parts.items };
}
