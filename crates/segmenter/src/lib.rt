//! The segment grid of a part: where its cells begin, how many there are, and which cell has a number.
#![tactic(auto)]

mod boundaries;
mod grid;
mod numbers;
#[cfg(test)]
mod tests;

pub use boundaries::{boundary, cells};
pub use grid::Grid;
pub use numbers::locate;
