//! From a file to the selected samples of a piece: the movies that a request holds, the asked tracks of a piece in the movie
//! of its file, and the samples of these tracks, written out one by one.
#![tactic(auto)]

mod cut;
mod movies;
mod samples;
mod selection;
mod tables;
mod tracks;

pub use movies::{Movie, Movies};
pub use samples::TimedSample;
pub use selection::PartRows;
pub use tracks::{CheckedTracks, check, exposed};
