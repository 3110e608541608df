//! The outside in memory: what it holds and which of its calls fail are known.
mod calls;
pub mod door;
pub mod hole;
pub mod link;
mod pieces;
mod room;
pub mod shift;
pub mod sink;
pub mod store;
pub mod vec_sink;
mod zeros;
