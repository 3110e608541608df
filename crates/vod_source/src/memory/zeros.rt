//! A room for loans past the end of a text.
ghost use Rattle.std.specs.Prelude.{◌≡◌, ◌≤◌, IfOk, vec_capacity};
ghost use Rattle.vod_source.specs.Memory.{zero_filled};

/// Fills a room with `n` bytes of a text from a place on, and with 0 past the text's end.
pub fn refill(room: &mut Vec<u8>, text: &[u8], at: usize, n: usize)
    requires { n ≤ vec_capacity room.old }
    ensures bytes { room.new.items ≡ zero_filled text.now at n }
    ensures capacity { vec_capacity room.old ≤ vec_capacity room.new }
{
    let rest = &text[at.min(text.len())..];
    let part = &rest[..rest.len().min(n)];
    room.clear();
    let _ = room.extend_from_slice(part);
    let _ = room.resize(n, 0);
}
