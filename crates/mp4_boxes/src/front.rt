//! The box at the front of bytes.

ghost use Rattle.std.specs.Prelude.{◌≡◌, ◌+◌, ◌<◌, ◌^◌, length, drop, Some, option_map};
ghost use Rattle.mp4_model.specs.Boxes as model;
ghost use Rattle.mp4_boxes.specs.Views.{placed, IsFirst};

use crate::{BoxHead, BoxRef, header};

// The first box of bytes whose first byte has the place `at`, and the bytes after it.
pub(crate) fn first_box(bytes: &[u8], at: usize) -> Option<(BoxRef<'_>, &[u8])>
    requires { at + length bytes.now < 2 ^ 64 }
    ensures { IsFirst at bytes.now result }
{
    let head = header(bytes, bytes.len() as u64)?;
    Some(cut(bytes, at, head))
}

// The box that a header says, and the bytes after it.
fn cut(bytes: &[u8], at: usize, head: BoxHead) -> (BoxRef<'_>, &[u8])
    requires fits { at + length bytes.now < 2 ^ 64 }
    requires head { model.header bytes.now (length bytes.now) ≡ Some head }
    ensures first { placed result.0 ≡ model.placed_box at head bytes.now }
    ensures rest { result.1.now ≡ drop head.size bytes.now }
{
    let BoxHead { kind, head, size } = head;
    let (whole, rest) = bytes.split_at(size as usize);
    let (_, body) = whole.split_at(head as usize);
    let first = BoxRef {
        kind,
        head,
        body,
        at,
    };
    (first, rest)
}

/// The one box that the bytes are (ISO/IEC 14496-12, 4.2), if they are one.
pub fn whole_box(bytes: &[u8]) -> Option<BoxRef<'_>>
    ensures { option_map placed result ≡ model.whole_box bytes.now }
{
    let (first, rest) = first_box(bytes, 0)?;
    if rest.is_empty() { Some(first) } else { None }
}
