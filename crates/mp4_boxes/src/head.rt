//! The header of one box.

ghost use Rattle.std.specs.Prelude.{◌≡◌, ◌≤◌, min, length};
ghost use Rattle.mp4_model.specs.Boxes as boxes;

use mp4_model::BoxHead;
use vod_bytes::{be_u32, be_u64};

/// The header of a box (ISO/IEC 14496-12, 4.2) where `left` bytes remain from its first byte on, of
/// which `bytes` has at least the first 16. The size is that of the whole box; a written size of 0
/// means all that is left. `None` is exactly where the header doesn't lie within the box, or the box
/// within what is left.
#[tactic(auto, using(mp4_model::proofs::BoxesLemmas::header_cases, mp4_model::proofs::FieldsLemmas::take_four))]
pub fn header(bytes: &[u8], left: u64) -> Option<BoxHead>
    requires { min 16 left ≤ length bytes.now }
    ensures { result ≡ boxes.header bytes.now left }
{
    if left < 8 {
        return None;
    }
    let kind = [bytes[4], bytes[5], bytes[6], bytes[7]];
    let (head, size) = match be_u32(bytes, 0) {
        0 => (8, left),
        1 if left < 16 => return None,
        1 => (16, be_u64(bytes, 8)),
        n => (8, u64::from(n)),
    };
    if u64::from(head) <= size && size <= left {
        Some(BoxHead { kind, head, size })
    } else {
        None
    }
}
