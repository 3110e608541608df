//! The plain way to answer a request: of every file that it needs the lists of samples are written out, cut by the grid and
//! written. It is the definition's plain program, short and slow; what it reads of the files is what the definition allows.
#![tactic(auto)]

mod answers;
mod clips;
mod dash_names;
mod entries;
mod hls_names;
mod init;
mod listing;
mod lists;
mod packaging;
mod packed_names;
mod packs;
mod playlist;
mod requests;
mod segments;
mod sequence;

pub use clips::clip_ask;
pub use entries::PackEnd;
pub use flat_clip::ClipPart;
pub use flat_segments::FlatBody;
pub use listing::listed;
pub use lists::iframe_playlist_of;
pub use packs::pack;
pub use playlist::playlist_of;
pub use requests::{answer, answer_ask, path_ask};
pub use vod_types::Listed;
