//! Initialization segments and media segments in fragmented MP4 form (ISO/IEC 14496-12).
#![tactic(auto)]

mod fields;
mod front;
mod movie;
#[cfg(test)]
mod tests;
mod track_boxes;
mod whole;
mod writing;

pub use movie::init;
pub use whole::write_fragment;
pub use writing::{Fragment, fragment_size};
