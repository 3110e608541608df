//! The lists of a request by the plain way, over the written-out samples of its pieces: what the request is about, the listed
//! segments and the I-frames of a sequence, what master playlists show and media presentation descriptions describe, and their
//! texts.
#![tactic(auto)]

mod asking;
mod bandwidths;
mod codecs;
mod counted_cells;
mod description;
mod first_asked;
mod found_periods;
mod iframe_marks;
mod iframes;
mod listed_part;
mod listed_parts;
mod listed_timeline;
mod looked_parts;
mod looked_sequences;
mod marked_rows;
mod master;
mod part_tracks;
mod periods;
mod reps;
mod shown;
mod subject;
mod track_rows;
mod variants;

pub use asking::asking_of;
pub use bandwidths::{average, bandwidth};
pub use description::presentation_description;
pub use first_asked::no_video;
pub use found_periods::presentation_periods;
pub use iframes::iframe_rows;
pub use listed_timeline::timeline_rows;
pub use master::master_playlist;
pub use part_tracks::{TrackFacts, facts_of_audio, facts_of_video};
pub use shown::{Shown, shown_as, shown_sequences};
pub use subject::Asking;
pub use variants::text_of;
