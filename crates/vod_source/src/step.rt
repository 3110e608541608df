//! One step of writing a body.

/// What one step of writing a body came to. `Again` alone leaves it under way.
#[derive(Clone, Copy, Debug, PartialEq, Eq)]
pub enum Step {
    /// The front part or one sample was written, and there is more.
    Again,
    /// All was written.
    Whole,
    /// The body ends before this sample, in which the length of a NAL unit passes the sample's end. `file` and
    /// `sample` count from 0.
    BadNal { file: u32, sample: u64 },
    /// A sample couldn't be read.
    StoreFailed,
    /// Nothing more could be written.
    SinkFailed,
}
