//! Initialization segments, master playlists and media presentation descriptions over metadata that are kept: what they say of
//! the tracks of files is found by seeks in their tables, and no list of samples is written out.
#![tactic(auto)]

mod bandwidths;
mod counted_cells;
mod description;
mod first_asked;
mod inits;
mod lengths;
mod looked_parts;
mod looked_sequences;
mod master;
mod part_tracks;
mod periods;
mod reps;
mod shown;
mod track_rows;
mod views;
mod written;

pub use description::presentation_description;
pub use inits::init;
pub use master::master_playlist;
