//! The media playlist of listed segments.

ghost use Rattle.std.specs.Prelude.{◌≡◌, ◌≤◌, All, IfErr, IfOk, map};
ghost use Rattle.vod_types.specs.declared.refusal.Refusal.TheVariants.{NoMemory};
ghost use Rattle.list_model.specs.Names.{IsAsked};
ghost use Rattle.list_model.specs.Playlist.{media_playlist};
ghost use Rattle.flat_lists.specs.Listings.{HasPart};

use hls_lists::media;
use std::alloc::Global;
use vod_types::{Asked, Listed, Refusal, SegmentRow};

/// The playlist of these listed segments of a sequence, as fragmented MP4 where `fmp4` is true. The only refusal is `NoMemory`.
pub fn playlist_of(
    alloc: Global,
    listed: &[Listed],
    sequence: u32,
    asked: Asked,
    fmp4: bool,
) -> Result<Vec<u8>, Refusal>
    requires parts { All HasPart listed.now }
    requires sequence { sequence ≤ 9999 }
    requires asked { IsAsked asked }
    ensures text { IfOk result (λ text. text.items ≡ media_playlist (map (λ l. l.row) listed.now) sequence asked fmp4) }
    ensures only { IfErr result (λ refusal. refusal ≡ NoMemory) }
{
    let rows = match rows_of(alloc, listed) {
        Ok(rows) => rows,
        Err(refusal) => return Err(refusal),
    };
    match media(alloc, &rows, sequence, asked, fmp4) {
        Ok(text) => Ok(text),
        Err(_) => Err(Refusal::NoMemory),
    }
}

/// The rows of listed segments. The only refusal is `NoMemory`.
pub(crate) fn rows_of(alloc: Global, listed: &[Listed]) -> Result<Vec<SegmentRow>, Refusal>
    ensures rows { IfOk result (λ rows. rows.items ≡ map (λ l. l.row) listed.now) }
    ensures only { IfErr result (λ refusal. refusal ≡ NoMemory) }
{
    match listed.iter().map(|segment| segment.row).collect(alloc) {
        Ok(rows) => Ok(rows),
        Err(_) => Err(Refusal::NoMemory),
    }
}
