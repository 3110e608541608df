// The initialization segment: `ftyp`, and `moov` without samples.
ghost use Rattle.std.specs.Prelude.{◌≡◌, ◌+◌, ◌≤◌, ◌++◌, OnOk, IfOk};
ghost use Rattle.std.specs.Option.{ForSome, option_copied};
ghost use Rattle.media_model.specs.InitSegment.{init_segment, for_entry, track, track_defaults, file_type, entry_size};
ghost use Rattle.fmp4_writer.specs.Entry.{beside, defaults_size, movie};
ghost use Rattle.media_model.specs.InitSegment.{IsEntry};

use crate::track_boxes::{put_movie_header, put_track, put_track_defaults, track_size_of};
use std::alloc::Global;
use vod_bytes::{Buf, NoMemory};
use vod_types::Kind;

/// The initialization segment of a video and an audio track (ISO/IEC 14496-12, 8.2 to 8.8), each where its sample entry is
/// given: one whole box. `size` is the video's width and height.
pub fn init(
    alloc: Global,
    video: Option<&[u8]>,
    size: (u16, u16),
    audio: Option<&[u8]>,
) -> Result<Vec<u8>, NoMemory>
    requires video { ForSome video (λ entry. IsEntry entry.now) }
    requires audio { ForSome audio (λ entry. IsEntry entry.now) }
    ensures { IfOk result (λ bytes. bytes.items ≡ init_segment (option_copied video.entry) size.0 size.1 (option_copied audio.entry)) }
{
    let mut buf = Buf::new(alloc);
    put_file_type(&mut buf)?;
    put_movie(&mut buf, video, size, audio)?;
    Ok(buf.into_vec())
}

// `ftyp` (4.3).
fn put_file_type(buf: &mut Buf) -> Result<(), NoMemory>
    ensures { OnOk result (buf.new ≡ buf.old ++ file_type) }
{
    buf.u32(24)?;
    buf.bytes(b"ftypiso6")?;
    buf.u32(0)?;
    buf.bytes(b"iso6dash")?;
    Ok(())
}

// `moov` of the tracks whose entries are given (8.2.1).
fn put_movie(
    buf: &mut Buf,
    video: Option<&[u8]>,
    size: (u16, u16),
    audio: Option<&[u8]>,
) -> Result<(), NoMemory>
    requires video { ForSome video (λ entry. IsEntry entry.now) }
    requires audio { ForSome audio (λ entry. IsEntry entry.now) }
    ensures { OnOk result (buf.new ≡ buf.old ++ movie (option_copied video.entry) size.0 size.1 (option_copied audio.entry)) }
{
    let defaults = defaults_size(video) + defaults_size(audio);
    let tracks = track_size(Kind::Video, video) + track_size(Kind::Audio, audio);
    buf.u32(124 + tracks + defaults)?;
    buf.bytes(b"moov")?;
    put_movie_header(buf)?;
    put_given_track(buf, Kind::Video, size, video)?;
    put_given_track(buf, Kind::Audio, (0, 0), audio)?;
    buf.u32(8 + defaults)?;
    buf.bytes(b"mvex")?;
    put_given_defaults(buf, Kind::Video, video)?;
    put_given_defaults(buf, Kind::Audio, audio)?;
    Ok(())
}

// The size of a track whose entry is given.
fn track_size(kind: Kind, entry: Option<&[u8]>) -> u32
    requires { ForSome entry (λ entry. IsEntry entry.now) }
    ensures size { result ≡ entry_size (beside kind) (option_copied entry.entry) }
    ensures few { result ≤ 33554761 }
{
    match entry {
        Some(entry) => track_size_of(kind, entry),
        None => 0,
    }
}

// The size of the defaults of a track whose entry is given.
fn defaults_size(entry: Option<&[u8]>) -> u32
    ensures { result ≡ defaults_size (option_copied entry.entry) }
{
    match entry {
        Some(_) => 32,
        None => 0,
    }
}

// The track whose entry is given.
fn put_given_track(
    buf: &mut Buf,
    kind: Kind,
    size: (u16, u16),
    entry: Option<&[u8]>,
) -> Result<(), NoMemory>
    requires { ForSome entry (λ entry. IsEntry entry.now) }
    ensures { OnOk result (buf.new ≡ buf.old ++ for_entry (option_copied entry.entry) (track kind size.0 size.1)) }
{
    match entry {
        Some(entry) => put_track(buf, kind, size, entry),
        None => Ok(()),
    }
}

// The defaults of the track whose entry is given.
fn put_given_defaults(buf: &mut Buf, kind: Kind, entry: Option<&[u8]>) -> Result<(), NoMemory>
    ensures { OnOk result (buf.new ≡ buf.old ++ for_entry (option_copied entry.entry) (λ _. track_defaults kind)) }
{
    match entry {
        Some(_) => put_track_defaults(buf, kind),
        None => Ok(()),
    }
}
