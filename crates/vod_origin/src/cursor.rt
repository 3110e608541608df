//! What stands for a body that is under way.

ghost use Rattle.std.specs.Prelude.{◌≡◌, ◌%◌, length, true};

use fmp4_writer::Fragment;
use mp4_flat::FlatBody;
use ts_writer::TsSegment;
use vod_plan::Plan;

/// A body that is under way.
#[derive(Drop)]
pub enum Cursor {
    Made(MadeBody),
    Fragment(FragmentBody),
    Stream(StreamBody),
}

/// A body of which all bytes are made before the first is written.
#[derive(Drop)]
pub struct MadeBody {
    pub body: FlatBody,
    /// Whether it is a transport stream.
    pub in_packets: bool,
    /// Whether it is still to be written.
    pub waits: bool,

    ghost packets: { in_packets ≡ true → length body.bytes.items % 188 ≡ 0 },
}

/// A media segment in fragmented MP4 form, written sample by sample.
#[derive(Drop)]
pub struct FragmentBody {
    pub plan: Plan,
    pub writing: Fragment,
}

/// A transport stream, written sample by sample.
#[derive(Drop)]
pub struct StreamBody {
    pub plan: Plan,
    pub writing: TsSegment,
}
