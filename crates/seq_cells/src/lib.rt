//! The cells of the parts of a sequence: how many each part has, where the number of a segment stands among them, when a cell
//! begins, and which pieces end behind a time. Nothing of a movie is asked.
#![tactic(auto)]

mod cells;
mod parts;
mod places;

pub use cells::{PartCells, open_cells};
pub use parts::{Cut, counts_of, is_declared, part_at, parts_of, sum_of};
pub use places::{ending_after, place_among};
