//! Films with a fault, films at the limits, and stores that fail: what becomes of a request.

use std::alloc::Global;
use std::process::Abort;
use std::string::String;
use std::test::Fail;
use vod_films::{
    Damage, behind, damaged, entry, film, out_of_order, ran, sound, store_of, two_samples,
};
use vod_gen::TrackSpec;
use vod_source::{HoleStore, Logged, MemStore};
use vod_types::{Kind, Name};

// Of the film of `TWO_SAMPLES`.
const AUDIO_DAMAGES: [Damage; 26] = [
    // The first top box has 7 bytes, then none is `moov`.
    (b"ftyp", 0, b"\0\0\0\x07", "refused 21 BadBox"),
    (b"moov", 4, b"free", "refused 22 NoMovie"),
    (b"mvhd", 4, b"mvex", "refused 22 NoMovie"),
    // A box of `moov`, of `trak` and of `minf` that ends too early or too late, and the first of `stbl`.
    (b"mvhd", 0, b"\0\0\0\x07", "refused 21 BadBox"),
    (b"tkhd", 0, b"\xff\xff\xff\xff", "refused 21 BadBox"),
    (b"smhd", 0, b"\0\0\0\x01", "refused 21 BadBox"),
    (b"stsd", 0, b"\0\0\0\x05", "refused 21 BadBox"),
    // A track of another kind isn't numbered.
    (b"hdlr", 16, b"text", "refused 25 NoTrack"),
    // A table that isn't there.
    (b"mdhd", 4, b"free", "refused 24 BadTable"),
    (b"stsd", 4, b"free", "refused 24 BadTable"),
    (b"stts", 4, b"free", "refused 24 BadTable"),
    (b"stsc", 4, b"free", "refused 24 BadTable"),
    (b"stsz", 4, b"free", "refused 24 BadTable"),
    (b"stco", 4, b"free", "refused 24 BadTable"),
    // A timescale of 0, a count of runs that has no room, and runs of 3 samples and of none; a first chunk 2, and a description 2.
    (b"mdhd", 20, b"\0\0\0\0", "refused 24 BadTable"),
    (b"stts", 12, b"\0\0\0\x03", "refused 24 BadTable"),
    (b"stts", 16, b"\0\0\0\x03", "refused 24 BadTable"),
    (b"stts", 16, b"\0\0\0\0", "refused 24 BadTable"),
    (b"stsc", 16, b"\0\0\0\x02", "refused 24 BadTable"),
    (b"stsc", 24, b"\0\0\0\x02", "refused 24 BadTable"),
    (b"stsz", 16, b"\0\0\0\x01", "refused 24 BadTable"),
    // Other codecs.
    (b"mp4a", 4, b"twos", "refused 26 Codec"),
    (b"esds", 4, b"free", "refused 26 Codec"),
    // A chunk behind the end, a sample of 31 bytes with one of 20 behind it, and one of 2^24 + 1.
    (b"stco", 16, b"\x7f\xff\xff\xff", "refused 27 OutOfFile"),
    (b"stsz", 20, b"\0\0\0\x1f", "refused 27 OutOfFile"),
    (b"stsz", 20, b"\x01\0\0\x01", "refused 29 SampleTooLong"),
];

// Of the film of `OUT_OF_ORDER`.
const VIDEO_DAMAGES: [Damage; 7] = [
    // A version that isn't known, and offsets of an hour and a tick more than an hour of 25 ticks a second.
    (b"ctts", 8, b"\x02\0\0\0", "refused 24 BadTable"),
    (b"ctts", 20, b"\0\x01\x5f\x90", ""),
    (b"ctts", 20, b"\0\x01\x5f\x91", "refused 24 BadTable"),
    // The number 0, and 4 of 3 samples.
    (b"stss", 16, b"\0\0\0\0", "refused 24 BadTable"),
    (b"stss", 16, b"\0\0\0\x04", "refused 24 BadTable"),
    // A configuration of version 2, and none.
    (b"avcC", 8, b"\x02", "refused 26 Codec"),
    (b"avcC", 4, b"free", "refused 26 Codec"),
];

// Asks for the audio of a film of its own.
const AUDIO_WORDS: &str = "get /r - /local/dash/f.mp4/fragment-1-a1.m4s";

// Asks for a fragment of a film with each of these damages.
fn check_damages(
    rt: &impl Abort,
    alloc: Global,
    film: &[u8],
    words: &str,
    damages: &[Damage],
) -> Result<(), Fail> {
    for damage in damages {
        let (kind, place, _, due) = *damage;
        let bytes = damaged(alloc, film, *damage)?;
        let store = store_of(alloc, "/r/f.mp4", bytes, Vec::new(alloc))?;
        let it = ran(alloc, words, store)?;
        let line = str::from_utf8(&it.line)?;
        assert_eq!(rt; line.trim_end(), due, "at {kind:?} {place}");
        assert_eq!(rt; it.status, if due.is_empty() { 0 } else { 2 });
    }
    Ok(())
}

#[test]
fn damaged_films_are_refused(rt: HostRuntime) -> Result<(), Fail> {
    let alloc = rt.alloc();
    let film = two_samples(alloc)?;
    check_damages(&rt, alloc, &film, AUDIO_WORDS, &AUDIO_DAMAGES)?;
    let film = out_of_order(alloc)?;
    check_damages(
        &rt,
        alloc,
        &film,
        "get /r - /local/dash/f.mp4/fragment-1-v1.m4s",
        &VIDEO_DAMAGES,
    )
}

// Audio of so many samples of 0 bytes and so many ticks at 48000.
fn silence(alloc: Global, count: u32, delta: u32) -> Result<Vec<u8>, Fail> {
    let mut samples = Vec::new(alloc);
    for _ in 0..count {
        samples.push(Vec::new(alloc))?;
    }
    let track = TrackSpec {
        kind: Kind::Audio,
        timescale: 48000,
        stts: vec![in alloc; (count, delta)]?,
        ctts: None,
        stss: None,
        samples,
        entry: entry(alloc, Kind::Audio)?,
    };
    film(alloc, vec![in alloc; track]?)
}

// A common size of 2^24 bytes.
const LARGE: Damage = (b"stsz", 12, b"\x01\0\0\0", "refused 43 SegmentTooLarge");

#[test]
fn limits_are_kept(rt: HostRuntime) -> Result<(), Fail> {
    let alloc = rt.alloc();
    // 128 samples of 2^24 bytes are 2147483648 bytes, and a `moov` of 2^25 + 1 is too long.
    let large = damaged(alloc, &silence(alloc, 128, 1024)?, LARGE)?;
    let rows = [
        (large, LARGE.3),
        (
            b"\x02\0\0\x01moov".to_vec(alloc)?,
            "refused 23 MovieTooLong",
        ),
    ];
    for (first, due) in rows {
        assert!(rt; first.len() < 3_000_000_000);
        let store = HoleStore::new(alloc, Name::new(alloc, "/r/f.mp4")?, first, 3_000_000_000)?;
        let it = ran(alloc, AUDIO_WORDS, store)?;
        assert_eq!(rt; str::from_utf8(&it.line)?.trim_end(), due);
    }
    // With 200,000 samples `moof` would have 24 + 64 + 3,200,000 bytes, and one more is too many.
    let it = ran(alloc, AUDIO_WORDS, store_of_silence(alloc, 200_001)?)?;
    assert_eq!(rt; (it.status, it.body.len()), (2, 0));
    assert_eq!(rt; str::from_utf8(&it.line)?, "refused 44 TooManySamples\n");
    Ok(())
}

#[test]
fn as_many_samples_as_may_be_are_written(rt: HostRuntime) -> Result<(), Fail> {
    let alloc = rt.alloc();
    let it = ran(alloc, AUDIO_WORDS, store_of_silence(alloc, 200_000)?)?;
    assert_eq!(rt; (it.status, it.body.len()), (0, 3_200_120));
    Ok(())
}

// A film of so many samples of 0 bytes and one tick.
fn store_of_silence(alloc: Global, count: u32) -> Result<MemStore, Fail> {
    store_of(
        alloc,
        "/r/f.mp4",
        silence(alloc, count, 1)?,
        Vec::new(alloc),
    )
}

#[test]
fn failing_calls_end_the_run(rt: HostRuntime) -> Result<(), Fail> {
    let alloc = rt.alloc();
    let words = "get /r s.json /local/dash/f.mp4/fragment-1-a1.m4s";
    // Two calls for the settings, one for the size, two for headers, one for the movie, and two for samples. Before these the
    // front part is written, which ends with the head of `mdat`, and each sample as soon as it is read.
    for call in 1..=8 {
        let fails = vec![in alloc; call]?;
        let store = store_of(alloc, "/r/f.mp4", two_samples(alloc)?, fails)?;
        let it = ran(alloc, words, store)?;
        let last: &[u8] = match call {
            7 => b"mdat",
            8 => b"mdat\x01\x02\x03\x04\x05\x06\x07\x08\x09\x0a",
            _ => b"",
        };
        assert!(rt; it.status == 3 && it.body.ends_with(last), "at call {call}");
        assert!(rt; call > 6 || it.body.is_empty(), "at call {call}");
        assert_eq!(rt; it.line.as_slice(), b"store failed\n".as_slice());
    }
    // A path that isn't in the grammar asks for the settings alone.
    let store = store_of(alloc, "/r/f.mp4", Vec::new(alloc), vec![in alloc; 3]?)?;
    let it = ran(
        alloc,
        "get /r s.json /local/hls/f.mp4/clip-f1-a1-v1.mp4",
        store,
    )?;
    assert_eq!(rt; it.line.as_slice(), b"refused 4 BadPath\n".as_slice());
    Ok(())
}

// `ftyp` of 32 bytes, `mdat` of 100,000, and `moov` of 1,000 with a sample of 20 bytes at 40. The `moov` of one sample has
// 544 bytes, at 24, and ends with the place of the chunk.
fn movie_at_the_end(alloc: Global) -> Result<Vec<u8>, Fail> {
    let sample: [&[u8]; 1] = [b"efghijklmnopqrstuvwx"];
    let plain = film(alloc, vec![in alloc; sound(alloc, &sample)?]?)?;
    let mut moov = behind(&plain, 32).to_vec(alloc)?;
    moov.truncate(532);
    let mut bytes = b"\0\0\0\x20ftypisom".to_vec(alloc)?;
    bytes.resize(32, 0)?;
    bytes.extend_from_slice(b"\0\x01\x86\xa0mdatefghijklmnopqrstuvwx")?;
    bytes.resize(100_032, 0)?;
    bytes.extend_from_slice(b"\0\0\x03\xe8moov")?;
    bytes.extend_from_slice(&moov)?;
    bytes.extend_from_slice(b"\0\0\0\x28\0\0\x01\xc8free")?;
    bytes.resize(101_032, 0)?;
    Ok(bytes)
}

#[test]
fn metadata_and_samples_alone_are_read(rt: HostRuntime) -> Result<(), Fail> {
    let alloc = rt.alloc();
    let film = movie_at_the_end(alloc)?;
    let store = Logged::new(alloc, store_of(alloc, "/r/c.mp4", film, Vec::new(alloc))?);
    let words = "get /r - /local/dash/c.mp4/fragment-1-a1.m4s";
    let it = ran(alloc, words, store)?;
    assert!(rt; it.body.ends_with(b"efghijklmnopqrstuvwx"));
    let mut reads = String::new(alloc);
    for entry in it.store.entries() {
        let read = format!(in alloc; "{} {};", entry.at, entry.n)?;
        reads.push_str(read.as_str())?;
    }
    assert_eq!(rt; reads.as_str(), "0 16;32 16;100032 16;100032 1000;40 20;");
    Ok(())
}
