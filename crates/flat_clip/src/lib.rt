//! The clipped MP4 by the plain way: the rows of the clip of a sequence, all that stands before its samples, and the bytes of
//! the part that is asked for.
#![tactic(auto)]

mod boxes;
mod faults;
mod front;
mod part;
mod placed;
mod ranges;
mod reading;
mod rows;
mod sample;
mod sizes;
mod tables;
mod times;
mod tracks;

pub use part::{ClipPart, clip_part, rows_part};
pub use rows::{ClipRows, one_piece};
pub use sample::ClipSample;
pub use tracks::TrackRows;
