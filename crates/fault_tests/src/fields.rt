//! What refusals tell beside their number: places, tracks, tables, samples, counts and names.

use mp4_flat::answer;
use std::alloc::Global;
use std::string::String;
use std::test::Fail;
use vod_films::{Damage, damaged, store_of, two_samples};
use vod_types::{Kind, Refusal, Settings, TrackName};

const FRAGMENT: &str = "/local/dash/f.mp4/fragment-1-a1.m4s";

// Of the film of two samples, of 10 and 20 bytes: `ftyp` has 24 bytes, then come `moov`, its `mvhd` of 108 bytes, and `trak` with
// its `tkhd`. Samples are numbered from 0.
const DAMAGES: [Damage; 16] = [
    (b"ftyp", 0, b"\0\0\0\x07", "/r/f.mp4 at 0"),
    (b"mvhd", 0, b"\0\0\0\x07", "/r/f.mp4 at 32"),
    (b"tkhd", 0, b"\xff\xff\xff\xff", "/r/f.mp4 at 148"),
    (b"moov", 4, b"free", "/r/f.mp4"),
    (b"moov", 0, b"\x02\0\0\x01", "/r/f.mp4 at 24"),
    (b"hdlr", 16, b"text", "/r/f.mp4 a1"),
    (b"mdhd", 4, b"free", "/r/f.mp4 a1 Mdhd"),
    (b"stsd", 4, b"free", "/r/f.mp4 a1 Stsd"),
    (b"stts", 4, b"free", "/r/f.mp4 a1 Stts"),
    (b"stsc", 4, b"free", "/r/f.mp4 a1 Stsc"),
    (b"stsz", 4, b"free", "/r/f.mp4 a1 Stsz"),
    (b"stco", 4, b"free", "/r/f.mp4 a1 Chunks"),
    (b"mp4a", 4, b"twos", "/r/f.mp4 twos"),
    (b"stco", 16, b"\x7f\xff\xff\xff", "/r/f.mp4 sample 0"),
    (b"stsz", 20, b"\0\0\0\x0b", "/r/f.mp4 sample 1"),
    (
        b"stsz",
        20,
        b"\x01\0\0\x01",
        "/r/f.mp4 sample 0 of 16777217",
    ),
];

// What is asked for of that film.
const PATHS: [(&str, &str); 6] = [
    ("/local/dash/g.mp4/fragment-1-a1.m4s", "/r/g.mp4"),
    ("/local/dash/f.mp4/fragment-1-v1.m4s", "/r/f.mp4 v1"),
    ("/local/dash/f.mp4/fragment-2-a1.m4s", "2 of 1"),
    ("/local/dash/f.mp4/fragment-1-f3-a1.m4s", "3 of 1"),
    ("/local/dash/f.mp4/init-c4-a1.mp4", "4 of 1"),
    ("/mapped/dash/m.json/fragment-1-a1.m4s", "/r/m.json"),
];

// Mappings, and what becomes of them.
const MAPPINGS: [(&[u8], &str); 4] = [
    (b"[]", "rule 1"),
    (b"{\"sequences\":[]}", "rule 2"),
    (
        b"{\"sequences\":[{\"clips\":[{\"path\":\"f.mp4\"}],\"language\":\"german\"}]}",
        "rule 7",
    ),
    (b"{\"sequences\":[],\"notifications\":[]}", "notifications"),
];

// A track as paths spell it.
fn spelled(track: TrackName) -> (&'static str, u8) {
    match track.kind {
        Kind::Video => ("v", track.number),
        Kind::Audio => ("a", track.number),
    }
}

// The fields of a refusal.
fn fields(alloc: Global, refusal: &Refusal) -> Result<String, Fail> {
    let text = match refusal {
        Refusal::BadBox { name, at } => format!(in alloc; "{} at {at}", name.as_str())?,
        Refusal::NoMovie { name } | Refusal::NoFile { name } | Refusal::NoMapping { name } => {
            format!(in alloc; "{}", name.as_str())?
        }
        Refusal::Unsupported { name } => format!(in alloc; "{}", name.as_str())?,
        Refusal::NoTrack { name, track } => {
            let (kind, number) = spelled(*track);
            format!(in alloc; "{} {kind}{number}", name.as_str())?
        }
        Refusal::BadTable { name, track, table } => {
            let (kind, number) = spelled(*track);
            format!(in alloc; "{} {kind}{number} {table:?}", name.as_str())?
        }
        Refusal::Codec { name, fourcc } => {
            format!(in alloc; "{} {}", name.as_str(), str::from_utf8(fourcc)?)?
        }
        Refusal::OutOfFile { name, sample } => {
            format!(in alloc; "{} sample {sample}", name.as_str())?
        }
        Refusal::SampleTooLong { name, sample, size } => {
            format!(in alloc; "{} sample {sample} of {size}", name.as_str())?
        }
        Refusal::NoSegment { number, cells } => format!(in alloc; "{number} of {cells}")?,
        Refusal::NoSequence { asked, have } | Refusal::NoPart { asked, have } => {
            format!(in alloc; "{asked} of {have}")?
        }
        Refusal::BadMapping { rule } => format!(in alloc; "rule {rule}")?,
        other => format!(in alloc; "{}", other.word())?,
    };
    Ok(text)
}

// The fields of what a path is refused with over one file of a name.
fn told(alloc: Global, name: &str, bytes: Vec<u8>, path: &str) -> Result<String, Fail> {
    let mut store = store_of(alloc, name, bytes, Vec::new(alloc))?;
    let settings = Settings::defaults(alloc);
    match answer(alloc, &mut store, &settings, "/r", path.as_bytes()) {
        Ok(_) => Ok(String::from_str(alloc, "answered")?),
        Err(refusal) => fields(alloc, &refusal),
    }
}

#[test]
fn refusals_tell_what_is_wrong(rt: HostRuntime) -> Result<(), Fail> {
    let alloc = rt.alloc();
    let film = two_samples(alloc)?;
    for damage in DAMAGES {
        let text = told(alloc, "/r/f.mp4", damaged(alloc, &film, damage)?, FRAGMENT)?;
        assert_eq!(rt; text.as_str(), damage.3, "at {:?} {}", damage.0, damage.1);
    }
    for (path, due) in PATHS {
        assert_eq!(rt;
            told(alloc, "/r/f.mp4", film.clone()?, path)?.as_str(),
            due,
            "{path}"
        );
    }
    let path = "/mapped/dash/m.json/fragment-1-a1.m4s";
    for (mapping, due) in MAPPINGS {
        let text = told(alloc, "/r/m.json", mapping.to_vec(alloc)?, path)?;
        assert_eq!(rt; text.as_str(), due);
    }
    Ok(())
}
