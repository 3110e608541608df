//! The pieces and the parts of a sequence of a mapping.
#![tactic(auto)]

mod names;
mod pieces;
mod places;
mod sequence;
mod spans;
mod timed;
mod times;

pub use clip_model::{Part, Piece};
pub use names::store_name;
pub use sequence::timeline;
pub use timed::Timeline;
