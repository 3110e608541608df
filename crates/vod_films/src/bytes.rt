//! Bytes of films and of answers.

use std::alloc::Global;
use std::test::Fail;

/// What stands behind a place, or nothing.
pub fn behind(bytes: &[u8], at: usize) -> &[u8] {
    if at <= bytes.len() { &bytes[at..] } else { &[] }
}

/// The 32 bits at a place, or 0 where they aren't there.
pub fn word(bytes: &[u8], at: usize) -> u32 {
    let rest = behind(bytes, at);
    if rest.len() < 4 {
        return 0;
    }
    u32::from_be_bytes([rest[0], rest[1], rest[2], rest[3]])
}

/// Where the first box of this type begins that has its size before it.
pub fn box_at(bytes: &[u8], kind: &[u8; 4]) -> Option<usize> {
    for at in 0..bytes.len() {
        if behind(bytes, at + 4).starts_with(kind) {
            return Some(at);
        }
    }
    None
}

/// The same bytes but for some from this many bytes behind the beginning of a box on.
pub fn damaged(alloc: Global, bytes: &[u8], damage: Damage) -> Result<Vec<u8>, Fail> {
    let (kind, place, other, _) = damage;
    let at = box_at(bytes, kind)
        .ok_or("no such box")?
        .saturating_add(place);
    let mut copy = bytes.to_vec(alloc)?;
    copy.truncate(at);
    copy.extend_from_slice(other)?;
    copy.extend_from_slice(behind(bytes, at.saturating_add(other.len())))?;
    Ok(copy)
}

/// Bytes that stand in the place of those of a film: the first box of a type, how far behind its beginning, and the bytes;
/// and what becomes of the film's first fragment.
pub type Damage = (&'static [u8; 4], usize, &'static [u8], &'static str);
