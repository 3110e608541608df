//! Views of the sample tables of a track (ISO/IEC 14496-12, 8.6 and 8.7). Each borrows the payload of
//! its box and reads an entry where it is asked for.
#![tactic(auto)]

mod places;
mod room;
mod samples;
mod tables;
mod times;
mod validity;

pub use places::{Chunks, Stsc};
pub use samples::{Stss, Stsz};
pub use tables::Tables;
pub use times::{Ctts, Stts};
pub use validity::valid;
