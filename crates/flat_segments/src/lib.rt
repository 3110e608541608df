//! A segment over the pieces that it needs: where its number stands among the cells of the parts, which pieces are looked at,
//! the rows of its cell, the checks of these rows, and its bytes.
#![tactic(auto)]

mod body;
mod cells;
mod codecs;
mod facts;
mod lone_iframe;
mod needed;
mod parts;
mod row_checks;
mod rows;
mod segment;

pub use body::{FlatBody, segment_body};
pub use cells::{PartCells, end_of_lead, is_past, length_of, time_at};
pub use lone_iframe::iframe_row;
pub use needed::{Needed, NeededFile, needed_of};
pub use parts::{Cut, counts_of, is_declared, part_at, parts_of, sum_of};
pub use rows::FlatRows;
pub use segment::segment_rows;
