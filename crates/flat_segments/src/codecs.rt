//! The codecs of the files of a segment.

ghost use Rattle.std.specs.Prelude.{◌≡◌, ◌≢◌, true, is_some, map};
ghost use Rattle.vod_types.specs.declared.refusal.Refusal.TheVariants.{MixedCodecs, NoMemory};
ghost use Rattle.vod_types.specs.Results.{Answers, unless};
ghost use Rattle.flat_segments.specs.Needed.{AreTyped};
ghost use Rattle.flat_segments.specs.RowFaults.{begins_in, has_hevc as has_hevc_of, mixed_in, mixed_with};
ghost use Rattle.flat_segments.specs.Segments.{facts_of};

use crate::needed::NeededFile;
use std::alloc::Global;
use vod_types::{Asked, Form, Name, Refusal};

/// Whether the video of the first file is HEVC.
pub(crate) fn begins_with_hevc(files: &[NeededFile]) -> bool
    ensures { result ≡ begins_in (map facts_of files.now) }
{
    match files.first() {
        Some(file) => has_hevc(file),
        None => false,
    }
}

/// A transport stream has video of one codec: it is refused with the first file that has another one than the first.
pub(crate) fn check_codecs(
    alloc: Global,
    form: Form,
    asked: Asked,
    files: &[NeededFile],
) -> Result<(), Refusal>
    requires typed { AreTyped asked files.now }
    ensures { Answers (λ done. done) result (unless (mixed_in form (map facts_of files.now))) }
{
    if form == Form::Fmp4 || files.is_empty() {
        return Ok(());
    }
    check_others(alloc, asked, &files[0], &files[1..])
}

// The first of these files that has another codec than the first.
fn check_others(
    alloc: Global,
    asked: Asked,
    first: &NeededFile,
    others: &[NeededFile],
) -> Result<(), Refusal>
    requires first { is_some first.now.video_type ≡ is_some asked.video }
    requires others { AreTyped asked others.now }
    ensures { Answers (λ done. done) result (unless (mixed_with (facts_of first.now) (map facts_of others.now))) }
{
    let hevc = has_hevc(first);
    for other in others {
        if has_hevc(other) != hevc {
            return Err(mixed_codecs(alloc, first, other));
        }
    }
    Ok(())
}

fn mixed_codecs(alloc: Global, first: &NeededFile, other: &NeededFile) -> Refusal
    requires first { is_some first.now.video_type ≡ true }
    requires other { is_some other.now.video_type ≡ true }
    ensures { result ≢ NoMemory → result ≡ MixedCodecs (facts_of other.now).name (facts_of first.now).video_type (facts_of other.now).video_type }
{
    match Name::new(alloc, other.name.as_str()) {
        Ok(name) => Refusal::MixedCodecs {
            name,
            first: first.video_type.unwrap(),
            other: other.video_type.unwrap(),
        },
        Err(refusal) => refusal,
    }
}

// Whether the video of a file is HEVC, by the type of its sample entry.
fn has_hevc(file: &NeededFile) -> bool
    ensures { result ≡ has_hevc_of (facts_of file.now) }
{
    match file.video_type {
        Some(kind) => kind == *b"hvc1" || kind == *b"hev1",
        None => false,
    }
}
