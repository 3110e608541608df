//! Films in memory.

use std::alloc::Global;
use std::test::Fail;
use vod_gen::{MovieSpec, TrackSpec, aac_entry, avc_entry, build, with_edits};
use vod_source::MemStore;
use vod_types::{Kind, Name};

/// Ticks of a second, ticks of a sample, how many samples, the number of the first, and the distance of sync samples, or 0
/// where all are.
#[derive(Clone, Copy)]
pub struct Shape {
    pub timescale: u32,
    pub delta: u32,
    pub count: u32,
    pub first: u32,
    pub key: u32,
}

/// Audio at 48000, of so many samples that are numbered from `first` on.
pub fn aac(count: u32, first: u32) -> Shape {
    Shape {
        timescale: 48000,
        delta: 1024,
        count,
        first,
        key: 0,
    }
}

/// 25 pictures a second, numbered from `first` on, of which each `key`th is a sync sample.
pub fn avc(count: u32, first: u32, key: u32) -> Shape {
    Shape {
        timescale: 25,
        delta: 1,
        count,
        first,
        key,
    }
}

/// The sample entry of a track of this kind.
pub fn entry(alloc: Global, kind: Kind) -> Result<Vec<u8>, Fail> {
    match kind {
        Kind::Video => Ok(avc_entry(alloc)?),
        Kind::Audio => Ok(Vec::from_array(alloc, aac_entry())?),
    }
}

// The numbers of the sync samples.
fn keys(alloc: Global, shape: Shape) -> Result<Option<Vec<u32>>, Fail> {
    if shape.key == 0 {
        return Ok(None);
    }
    let mut keys = Vec::new(alloc);
    for i in 0..shape.count {
        if i.checked_rem(shape.key) == Some(0) {
            keys.push(i.wrapping_add(1))?;
        }
    }
    Ok(Some(keys))
}

/// A track whose samples are of 8 bytes: a length of 4, and the sample's number.
pub fn track(alloc: Global, kind: Kind, shape: Shape) -> Result<TrackSpec, Fail> {
    let mut samples = Vec::new(alloc);
    for i in 0..shape.count {
        let mut sample = Vec::from_array(alloc, [0, 0, 0, 4])?;
        sample.extend_from_slice(shape.first.wrapping_add(i).to_be_bytes().as_slice())?;
        samples.push(sample)?;
    }
    Ok(TrackSpec {
        kind,
        timescale: shape.timescale,
        stts: vec![in alloc; (shape.count, shape.delta)]?,
        ctts: None,
        stss: keys(alloc, shape)?,
        samples,
        entry: entry(alloc, kind)?,
    })
}

/// The file of these tracks.
pub fn film(alloc: Global, tracks: Vec<TrackSpec>) -> Result<Vec<u8>, Fail> {
    Ok(build(alloc, &MovieSpec { tracks })?)
}

// A film of one track.
fn film_of(alloc: Global, kind: Kind, shape: Shape) -> Result<Vec<u8>, Fail> {
    film(alloc, vec![in alloc; track(alloc, kind, shape)?]?)
}

/// An audio track of these samples.
pub fn sound(alloc: Global, samples: &[&[u8]]) -> Result<TrackSpec, Fail> {
    let mut copies = Vec::new(alloc);
    for sample in samples {
        copies.push(sample.to_vec(alloc)?)?;
    }
    Ok(TrackSpec {
        kind: Kind::Audio,
        timescale: 48000,
        stts: vec![in alloc; (u32::try_from(samples.len())?, 1024)]?,
        ctts: None,
        stss: None,
        samples: copies,
        entry: entry(alloc, Kind::Audio)?,
    })
}

/// A film of two samples of audio, of 10 and 20 bytes.
pub fn two_samples(alloc: Global) -> Result<Vec<u8>, Fail> {
    let samples: [&[u8]; 2] = [
        b"\x01\x02\x03\x04\x05\x06\x07\x08\x09\x0a",
        b"efghijklmnopqrstuvwx",
    ];
    film(alloc, vec![in alloc; sound(alloc, &samples)?]?)
}

// A track of three pictures with these offsets, of which the first alone is a sync sample.
fn pictures(alloc: Global, offsets: Vec<(u32, i32)>) -> Result<TrackSpec, Fail> {
    let samples = vec![in alloc;
        b"\0\0\0\x01e".to_vec(alloc)?,
        b"\0\0\0\x02AP".to_vec(alloc)?,
        b"\0\0\0\x03ABB".to_vec(alloc)?,
    ]?;
    Ok(TrackSpec {
        kind: Kind::Video,
        timescale: 25,
        stts: vec![in alloc; (3, 1)]?,
        ctts: Some(offsets),
        stss: Some(vec![in alloc; 1]?),
        samples,
        entry: entry(alloc, Kind::Video)?,
    })
}

/// A film of three pictures with offsets of 2, -1 and 0, of which the first alone is a sync sample, and of two samples of
/// audio.
pub fn out_of_order(alloc: Global) -> Result<Vec<u8>, Fail> {
    let video = pictures(alloc, vec![in alloc; (1, 2), (1, -1), (1, 0)]?)?;
    let samples: [&[u8]; 2] = [b"aa", b"bbb"];
    film(alloc, vec![in alloc; video, sound(alloc, &samples)?]?)
}

// The sample entry of HEVC pictures: general profile 1, level 93, and one set of each kind.
const HEVC_ENTRY: &[u8; 141] = b"\
    \x00\x00\x00\x8dhvc1\x00\x00\x00\x00\x00\x00\x00\x01\x00\x00\x00\x00\x00\x00\x00\x00\x00\x00\x00\x00\x00\x00\x00\x00\
    \x02\x80\x01\x68\x00\x48\x00\x00\x00\x48\x00\x00\x00\x00\x00\x00\x00\x01\
    \x00\x00\x00\x00\x00\x00\x00\x00\x00\x00\x00\x00\x00\x00\x00\x00\x00\x00\x00\x00\x00\x00\x00\x00\x00\x00\x00\x00\x00\x00\x00\x00\
    \x00\x18\xff\xff\
    \x00\x00\x00\x37hvcC\x01\x01\x60\x00\x00\x00\xb0\x00\x00\x00\x00\x00\x5d\xf0\x00\xfc\xfd\xf8\xf8\x00\x00\x0f\
    \x03\xa0\x00\x01\x00\x03\x40\x01\x0c\xa1\x00\x01\x00\x03\x42\x01\x01\xa2\x00\x01\x00\x03\x44\x01\xc1\
    ";

// A film of 5 seconds of HEVC, whose pictures are numbered from 10000 on.
fn hevc_film(alloc: Global) -> Result<Vec<u8>, Fail> {
    let mut video = track(alloc, Kind::Video, avc(125, 10000, 50))?;
    video.entry = HEVC_ENTRY.to_vec(alloc)?;
    film(alloc, vec![in alloc; video]?)
}

// A film of one sample of audio, of 100 bytes.
fn one_sample(alloc: Global) -> Result<Vec<u8>, Fail> {
    let samples: [&[u8]; 1] = [&[7; 100]];
    film(alloc, vec![in alloc; sound(alloc, &samples)?]?)
}

// Pictures of 20 seconds, audio of 21.3 seconds, and a second audio track of 2.1 seconds.
fn three_tracks(alloc: Global) -> Result<Vec<u8>, Fail> {
    let video = track(alloc, Kind::Video, avc(500, 0, 25))?;
    let audio = track(alloc, Kind::Audio, aac(1000, 20000))?;
    let other = track(alloc, Kind::Audio, aac(100, 30000))?;
    film(alloc, vec![in alloc; video, audio, other]?)
}

// The texts that the requests name: settings, and mappings below `/r`.
const TEXTS: [(&str, &str); 28] = [
    ("blank.json", ""),
    ("ignore.json", r#"{"ignore_edits":true}"#),
    ("align.json", r#"{"align":true}"#),
    ("fmp4.json", r#"{"hls_fmp4":true}"#),
    ("start.json", r#"{"bootstrap":[2000,4000]}"#),
    ("short.json", r#"{"segment_ms":2000}"#),
    ("long.json", r#"{"segment_ms":2000,"policy":"last_long"}"#),
    (
        "near.json",
        r#"{"segment_ms":2000,"policy":"last_rounded"}"#,
    ),
    ("far.json", r#"{"segment_ms":4000,"policy":"last_rounded"}"#),
    ("tiny.json", r#"{"segment_ms":1}"#),
    ("bad.json", r#"{"align":1}"#),
    (
        "/r/m.json",
        r#"{"durations":[20000,20000],"sequences":[{"clips":[{"type":"source","path":"/a.mp4"},{"type":"source","path":"/b.mp4"}]}]}"#,
    ),
    (
        "/r/gone.json",
        r#"{"durations":[20000,20000],"sequences":[{"clips":[{"type":"source","path":"/a.mp4"},{"type":"source","path":"/gone.mp4"}]}]}"#,
    ),
    (
        "/r/joined.json",
        r#"{"discontinuity":false,"durations":[20000,20000],"sequences":[{"clips":[{"path":"/a.mp4"},{"path":"/b.mp4"}]}]}"#,
    ),
    (
        "/r/lost.json",
        r#"{"discontinuity":false,"durations":[20000,20000],"sequences":[{"clips":[{"path":"/a.mp4"},{"path":"/gone.mp4"}]}]}"#,
    ),
    (
        "/r/concat.json",
        r#"{"sequences":[{"clips":[{"type":"concat","paths":["c.mp4","d.mp4"],"durations":[5000,5000],"offset":-1000}]}]}"#,
    ),
    (
        "/r/mixed.json",
        r#"{"sequences":[{"clips":[{"type":"concat","paths":["c.mp4","hevc.mp4"],"durations":[5000,5000]}]}]}"#,
    ),
    (
        "/r/from.json",
        r#"{"durations":[6000],"sequences":[{"clips":[{"path":"/a.mp4","clipFrom":4000}]}]}"#,
    ),
    (
        "/r/five.json",
        r#"{"segmentDuration":5000,"sequences":[{"clips":[{"path":"/a.mp4"}]}]}"#,
    ),
    (
        "/r/hole.json",
        r#"{"durations":[10000,10000],"sequences":[{"clips":[{"type":"concat","paths":["/a.mp4"],"durations":[1000],"offset":-2000},{"path":"/a.mp4"}]}]}"#,
    ),
    (
        "/r/none.json",
        r#"{"durations":[10000],"sequences":[{"clips":[{"type":"concat","paths":["/a.mp4"],"durations":[1000],"offset":-2000}]}]}"#,
    ),
    (
        "/r/gain.json",
        r#"{"sequences":[{"clips":[{"type":"gainFilter","gain":0.5}]}]}"#,
    ),
    (
        "/r/group.json",
        r#"{"sequences":[{"bitrate":{"v":1000000},"clips":[{"type":"source","path":"/a.mp4","tracks":"v1"}]},{"language":"eng","label":"English","bitrate":{"a":64000},"clips":[{"type":"source","path":"/aac.mp4"}]}]}"#,
    ),
    (
        "/r/twice.json",
        r#"{"sequences":[{"bitrate":{"v":1000000},"clips":[{"path":"/a.mp4"}]},{"language":"eng","label":"English","bitrate":{"a":64000},"clips":[{"path":"/aac.mp4"}]},{"language":"eng","label":"English","bitrate":{"a":64000},"clips":[{"path":"/aac.mp4"}]}]}"#,
    ),
    ("/r/empty.json", r#"{"sequences":[]}"#),
    ("/r/open.json", "{"),
    (
        "/r/most.json",
        r#"{"durations":[100000],"segmentDuration":1,"sequences":[{"clips":[{"path":"gone.mp4"}]}]}"#,
    ),
    (
        "/r/more.json",
        r#"{"durations":[100001],"segmentDuration":1,"sequences":[{"clips":[{"path":"gone.mp4"}]}]}"#,
    ),
];

// Adds a file.
fn add(
    alloc: Global,
    files: &mut Vec<(Name, Vec<u8>)>,
    name: &str,
    bytes: Vec<u8>,
) -> Result<(), Fail> {
    files.push((Name::new(alloc, name)?, bytes))?;
    Ok(())
}

/// All texts and films that the requests name, below `/r`.
pub fn films(alloc: Global) -> Result<MemStore, Fail> {
    let mut files = Vec::new(alloc);
    for (name, text) in &TEXTS {
        add(alloc, &mut files, name, text.as_bytes().to_vec(alloc)?)?;
    }
    let shapes = [
        ("/r/aac.mp4", Kind::Audio, aac(1000, 0)),
        (
            "/r/cd.mp4",
            Kind::Audio,
            Shape {
                timescale: 44100,
                ..aac(900, 0)
            },
        ),
        (
            "/r/ntsc.mp4",
            Kind::Video,
            Shape {
                timescale: 30000,
                delta: 1001,
                ..avc(300, 0, 30)
            },
        ),
        (
            "/r/slow.mp4",
            Kind::Audio,
            Shape {
                timescale: 1,
                delta: 60,
                ..aac(2, 0)
            },
        ),
        (
            "/r/ages.mp4",
            Kind::Audio,
            Shape {
                timescale: 1,
                delta: 0xffff_ffff,
                ..aac(4, 0)
            },
        ),
        ("/r/keys.mp4", Kind::Video, avc(1250, 0, 625)),
        ("/r/odd.mp4", Kind::Video, avc(325, 0, 25)),
        ("/r/a.mp4", Kind::Video, avc(500, 0, 25)),
        ("/r/b.mp4", Kind::Video, avc(125, 10000, 25)),
        ("/r/c.mp4", Kind::Video, avc(125, 0, 50)),
        ("/r/d.mp4", Kind::Video, avc(125, 10000, 50)),
    ];
    for (name, kind, shape) in shapes {
        add(alloc, &mut files, name, film_of(alloc, kind, shape)?)?;
    }
    add(alloc, &mut files, "/r/av.mp4", three_tracks(alloc)?)?;
    add(alloc, &mut files, "/r/hevc.mp4", hevc_film(alloc)?)?;
    add(alloc, &mut files, "/r/one.mp4", one_sample(alloc)?)?;
    add(alloc, &mut files, "/r/two.mp4", two_samples(alloc)?)?;
    add(alloc, &mut files, "/r/order.mp4", out_of_order(alloc)?)?;
    add_all_edited(alloc, &mut files)?;
    let mut wide = b"{}".to_vec(alloc)?;
    wide.resize(1_048_577, b' ')?;
    add(alloc, &mut files, "/r/wide.json", wide)?;
    Ok(MemStore::new(files, Vec::new(alloc)))
}

// Adds a film with edit lists.
fn add_edited(
    alloc: Global,
    files: &mut Vec<(Name, Vec<u8>)>,
    name: &str,
    film: &[u8],
    edits: (Kind, &[(u32, i32)]),
) -> Result<(), Fail> {
    let edited = with_edits(alloc, film, edits.0, edits.1)?;
    add(alloc, files, name, edited)
}

// Adds films with edit lists: one that skips 1024 ticks of two samples, one whose list is broken, one that skips two ticks of
// pictures that are shown two ticks late, and one that waits a second.
fn add_all_edited(alloc: Global, files: &mut Vec<(Name, Vec<u8>)>) -> Result<(), Fail> {
    let two = two_samples(alloc)?;
    add_edited(
        alloc,
        files,
        "/r/skip.mp4",
        &two,
        (Kind::Audio, &[(0, 1024)]),
    )?;
    add_edited(
        alloc,
        files,
        "/r/broken.mp4",
        &two,
        (Kind::Audio, &[(0, -2)]),
    )?;
    let offsets = vec![in alloc; (3, 2)]?;
    let late = film(alloc, vec![in alloc; pictures(alloc, offsets)?]?)?;
    add_edited(alloc, files, "/r/late.mp4", &late, (Kind::Video, &[(0, 2)]))?;
    let long = film_of(alloc, Kind::Audio, aac(469, 0))?;
    add_edited(
        alloc,
        files,
        "/r/wait.mp4",
        &long,
        (Kind::Audio, &[(1000, -1), (0, 0)]),
    )
}

/// The store of one file, and of the settings `s.json`, whose calls of these numbers fail.
pub fn store_of(
    alloc: Global,
    name: &str,
    bytes: Vec<u8>,
    fails: Vec<u64>,
) -> Result<MemStore, Fail> {
    let mut files = Vec::new(alloc);
    add(alloc, &mut files, "s.json", b"{}".to_vec(alloc)?)?;
    add(alloc, &mut files, name, bytes)?;
    Ok(MemStore::new(files, fails))
}
