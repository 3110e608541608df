//! The playlist of a film of 4,000,000,000 samples over a connection: its rows are found by seeks.

use crate::connections::served_of;
use std::alloc::Global;
use std::test::Fail;
use vod_films::{Damage, box_at, damaged, film, sound};
use vod_source::{HoleStore, MemLink};
use vod_types::Name;

// 4,000,000,000 samples of one byte and one tick at 4,000,000, in one chunk: what stands in the place of one sample's tables.
const MANY: [Damage; 6] = [
    (b"mdhd", 20, b"\x00\x3d\x09\x00", ""),
    (b"stts", 16, b"\xee\x6b\x28\x00", ""),
    (b"stts", 20, b"\0\0\0\x01", ""),
    (b"stsc", 20, b"\xee\x6b\x28\x00", ""),
    (b"stsz", 12, b"\0\0\0\x01", ""),
    (b"stsz", 16, b"\xee\x6b\x28\x00", ""),
];

// The store of that film, of 5,000,000,000 bytes.
fn long_film(alloc: Global) -> Result<HoleStore, Fail> {
    let sample: [&[u8]; 1] = [b"x"];
    let mut bytes = film(alloc, vec![in alloc; sound(alloc, &sample)?]?)?;
    let samples = box_at(&bytes, b"mdat").ok_or("no media")?;
    if samples >= 1024 {
        return Err(Fail::from("a long movie box"));
    }
    for many in MANY {
        bytes = damaged(alloc, &bytes, many)?;
    }
    if bytes.len() >= 5_000_000_000 {
        return Err(Fail::from("a long film"));
    }
    Ok(HoleStore::new(alloc, Name::new(alloc, "/r/f.mp4")?, bytes, 5_000_000_000)?)
}

// How often a text stands in another.
fn times(text: &[u8], part: &[u8]) -> u32 {
    let mut count = 0u32;
    for at in 0..text.len() {
        if text[at..].starts_with(part) {
            count = count.saturating_add(1);
        }
    }
    count
}

// The playlist lists 100 segments of ten seconds, and each of them has too many samples to be written.
#[test]
fn long_film_is_listed_at_once(rt: HostRuntime) -> Result<(), Fail> {
    let alloc = rt.alloc();
    let input = b"GET /local/hls/f.mp4/index-a1.m3u8 HTTP/1.1\r\n\r\n\
        GET /local/hls/f.mp4/seg-1-a1.ts HTTP/1.1\r\n\r\n"
        .to_vec(alloc)?;
    let link = MemLink::new(alloc, vec![in alloc; input]?, 20_000, Vec::new(alloc))?;
    let links = vec![in alloc; link]?;
    let (status, door, line) = served_of(alloc, "serve /r - addr 1", links, long_film(alloc)?)?;
    assert!(rt; status == 0 && line.is_empty() && door.back().len() == 1);
    for link in door.back() {
        let written = link.written();
        assert!(rt; written.starts_with(b"HTTP/1.1 200 OK\r\n"));
        assert_eq!(rt; times(written, b"#EXTINF:10.000,\n"), 100);
        assert_eq!(rt; times(written, b"#EXTINF:"), 100);
        assert!(rt; written.ends_with(b"refused 44 TooManySamples\n"));
    }
    Ok(())
}
