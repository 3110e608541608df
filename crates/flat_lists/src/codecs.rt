//! What a list says of the codec of a track.

ghost use Rattle.std.specs.Prelude.{◌≡◌, ◌+◌, ◌<◌, ◌≤◌, ◌++◌, [], ◌∷◌, codes, flat_map, length};
ghost use Rattle.std.specs.Option.{option_map_or};
ghost use Rattle.std.specs.Char.{digit_char};
ghost use Rattle.vod_bytes.specs.Texts.{hex_pair};
ghost use Rattle.mp4_model.specs.Aac.{sampling_rate as sampling_rate_of_index};
ghost use Rattle.mp4_model.specs.Avc.{avc_codec_name, read_avcc};
ghost use Rattle.mp4_model.specs.Entries.{entry_type, is_hevc_type as is_type_of_hevc};
ghost use Rattle.mp4_model.specs.Hevc.{hevc_codec_name, read_hvcc};
ghost use Rattle.mp4_model.specs.Video.{video_codec_name};
ghost use Rattle.mp4_tracks.specs.Views.{good_of};
ghost use Rattle.origin_model.specs.Lists.{aac_of, rate_of};

use av_repack::{read_asc, read_avcc};
use hevc_repack::read_hvcc;
use mp4_tracks::TrackView;
use vod_types::CodecName;

// The sampling frequencies of the indices from 0 to 12.
const SAMPLING_RATES: [u32; 13] = [
    96000, 88200, 64000, 48000, 44100, 32000, 24000, 22050, 16000, 12000, 11025, 8000, 7350,
];

/// The name of a video track's codec.
pub(crate) fn codec_name(track: &TrackView<'_>) -> CodecName
    requires { track.now.fourcc ≡ entry_type track.now.entry.now }
    ensures { result ≡ video_codec_name (good_of track.now) }
{
    if is_hevc_type(track.fourcc) {
        hevc_name(track.config, track.fourcc)
    } else {
        avc_name(track.config)
    }
}

// Whether it is the type of an HEVC entry.
fn is_hevc_type(kind: [u8; 4]) -> bool
    ensures { result ≡ is_type_of_hevc kind }
{
    kind == *b"hvc1" || kind == *b"hev1"
}

// The name by the record of an HEVC entry of a type, without a byte where there is no record.
fn hevc_name(config: &[u8], kind: [u8; 4]) -> CodecName
    ensures { result ≡ option_map_or hevc_codec_name (read_hvcc config.now kind) [] }
{
    let mut name = CodecName::new();
    if let Some(record) = read_hvcc(config, kind) {
        name.push(record.name_bytes().as_slice());
    }
    name
}

// The name by the record of an AVC entry, without a byte where there is no record.
fn avc_name(config: &[u8]) -> CodecName
    ensures { result ≡ option_map_or avc_codec_name (read_avcc config.now) [] }
{
    match read_avcc(config) {
        Some(record) => avc_name_of(record.profile, record.compat, record.level),
        None => CodecName::new(),
    }
}

fn avc_name_of(profile: u8, compat: u8, level: u8) -> CodecName
    ensures { result ≡ codes "avc1." ++ flat_map hex_pair (profile ∷ compat ∷ level ∷ []) }
{
    let mut name = CodecName::new();
    name.push(b"avc1.");
    push_hex(&mut name, profile);
    push_hex(&mut name, compat);
    push_hex(&mut name, level);
    name
}

// Puts a byte at the end as two lower-case hexadecimal digits.
fn push_hex(name: &mut CodecName, byte: u8)
    requires { length name.old + 2 ≤ 64 }
    ensures { name.new ≡ name.old ++ hex_pair byte }
{
    name.push(&[hex_digit(byte / 16), hex_digit(byte % 16)]);
}

// The lower-case digit of a number below 16.
fn hex_digit(n: u8) -> u8
    requires { n < 16 }
    ensures { result ≡ digit_char n }
{
    match n {
        0..=9 => b'0' + n,
        _ => b'a' + (n - 10),
    }
}

/// The object type that an AAC track names first.
pub(crate) fn object_type(track: &TrackView<'_>) -> u8
    ensures { result ≡ aac_of (good_of track.now) }
{
    match read_asc(track.config) {
        Some(aac) => aac.first_type,
        None => 0,
    }
}

/// The sampling frequency of an AAC track.
pub(crate) fn sampling_rate(track: &TrackView<'_>) -> u32
    ensures { result ≡ rate_of (good_of track.now) }
{
    match read_asc(track.config) {
        Some(aac) => rate_at(aac.rate_index),
        None => 0,
    }
}

// The sampling frequency of an index, 0 where there is none.
fn rate_at(index: u8) -> u32
    ensures { result ≡ sampling_rate_of_index index }
{
    if index > 12 {
        return 0;
    }
    SAMPLING_RATES[usize::from(index)]
}
