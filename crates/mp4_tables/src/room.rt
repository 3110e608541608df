//! Whether a payload has all the entries that its count asks for.

ghost use Rattle.std.specs.Prelude.{◌↔◌, ◌+◌, ◌*◌, ◌<◌, ◌≤◌, length, IsTrue};
ghost use Rattle.vod_bytes.specs.Fields.{u32_at};

use vod_bytes::be_u32;

/// Whether as many entries of `width` bytes follow the count as it asks for.
pub(crate) fn has_entries(body: &[u8], width: usize) -> bool
    requires { 0 < width }
    ensures { IsTrue result ↔ (8 + width * u32_at body.now 4 ≤ length body.now) }
{
    body.len() >= 8 && be_u32(body, 4) as usize <= (body.len() - 8) / width
}
