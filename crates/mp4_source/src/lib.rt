//! Where a file has its `moov` box (ISO/IEC 14496-12, 8.2.1), and the bytes of that box.
#![tactic(auto)]

mod movie;
mod place;
mod seek;

pub use movie::read;
pub use mp4_model::MoviePlace;
pub use place::find;
