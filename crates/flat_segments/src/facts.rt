//! What is kept of a file, by its place among those of a segment.

ghost use Rattle.std.specs.Prelude.{◌≡◌, map};
ghost use Rattle.flat_segments.specs.Segments.{facts_of};
ghost use Rattle.flat_segments.specs.RowFaults.{name_in, size_in, config_in};

use crate::needed::NeededFile;
use vod_types::Kind;

/// The name of a file, empty past the last one.
pub(crate) fn name_of(files: &[NeededFile], file: u32) -> &str
    ensures { result.now ≡ name_in (map facts_of files.now) file }
{
    match files.get(file as usize) {
        Some(found) => found.name.as_str(),
        None => "",
    }
}

/// The size of a file in bytes, 0 past the last one.
pub(crate) fn size_of(files: &[NeededFile], file: u32) -> u64
    ensures { result ≡ size_in (map facts_of files.now) file }
{
    match files.get(file as usize) {
        Some(found) => found.size,
        None => 0,
    }
}

/// The configuration of a file's track of a kind, empty past the last file.
pub(crate) fn config_of(files: &[NeededFile], file: u32, kind: Kind) -> &[u8]
    ensures { result.now ≡ config_in (map facts_of files.now) file kind }
{
    match (files.get(file as usize), kind) {
        (Some(found), Kind::Video) => &found.video,
        (Some(found), Kind::Audio) => &found.audio,
        (None, _) => &[],
    }
}
