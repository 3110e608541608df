//! Fields of bytes and pieces of text that the packager reads and writes.
#![tactic(auto)]

mod bits;
mod buf;
mod fields;

pub use bits::Bits;
pub use buf::{Buf, NoMemory};
pub use fields::{be_i32, be_u16, be_u32, be_u64};
