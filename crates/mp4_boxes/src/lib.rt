//! Boxes of ISO/IEC 14496-12, read in place: their headers, and the lists that they make.
#![tactic(auto)]

mod front;
mod head;
mod list;
mod payload;

pub use front::whole_box;
pub use head::header;
pub use list::{BoxRef, Boxes};
pub use mp4_model::BoxHead;
pub use payload::children;
