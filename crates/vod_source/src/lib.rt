//! The outside as traits: a store of files, a sink of bytes, a link that is a sink with input, and a door that hands out
//! links. Each may tell what it holds, and always counts its failures. With them, implementations in memory, a store that
//! logs its reads, and the calls that read a range of a file in pieces.
#![tactic(auto)]

mod door;
mod link;
mod logged;
mod memory;
mod ranges;
mod sink;
mod step;
mod store;
#[cfg(test)]
mod tests;

pub use door::{Door, DoorFailed};
pub use link::{Link, LinkFailed};
pub use logged::{Lent, Logged};
pub use memory::door::MemDoor;
pub use memory::hole::HoleStore;
pub use memory::link::MemLink;
pub use memory::shift::ShiftStore;
pub use memory::sink::MemSink;
pub use memory::store::MemStore;
pub use memory::vec_sink::VecSink;
pub use ranges::{CopyFault, ReadFault, copy_range, read_range};
pub use sink::{Sink, SinkFailed};
pub use step::Step;
pub use store::{Store, StoreFailed};
