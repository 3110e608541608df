//! Films in memory, runs of the program over them, and their bytes: what the crates of tests share.
#![tactic(auto)]

mod bytes;
mod movies;
mod runs;

pub use bytes::{Damage, behind, box_at, damaged, word};
pub use movies::{
    Shape, aac, avc, entry, film, films, out_of_order, sound, store_of, track, two_samples,
};
pub use runs::{Run, ran};
