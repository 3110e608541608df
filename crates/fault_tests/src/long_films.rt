//! A film of 4,000,000,000 samples: its movie box has less than 1,024 bytes, and is loaded and sought at once.

ghost use Rattle.std.specs.Prelude.{◌≡◌, ◌<◌};

use std::alloc::Global;
use std::marker::Brand;
use std::process::Abort;
use std::sync::ledger::{Blank, Ledger};
use std::test::Fail;
use vod_films::{Damage, box_at, damaged, film, sound};
use vod_meta::{Meta, Metas};
use vod_source::HoleStore;
use vod_types::{Kind, Name, Steps, TrackName};

// 4,000,000,000 samples of one byte and one tick at 48000, in one chunk: what stands in the place of one sample's tables.
const MANY: [Damage; 5] = [
    (b"stts", 16, b"\xee\x6b\x28\x00", ""),
    (b"stts", 20, b"\0\0\0\x01", ""),
    (b"stsc", 20, b"\xee\x6b\x28\x00", ""),
    (b"stsz", 12, b"\0\0\0\x01", ""),
    (b"stsz", 16, b"\xee\x6b\x28\x00", ""),
];

// The store of that film, of 5,000,000,000 bytes.
fn long_film(rt: &impl Abort, alloc: Global) -> Result<HoleStore, Fail> {
    let sample: [&[u8]; 1] = [b"x"];
    let mut bytes = film(alloc, vec![in alloc; sound(alloc, &sample)?]?)?;
    let samples = box_at(&bytes, b"mdat").ok_or("no media")?;
    assert!(rt; samples < 1024 && bytes.len() < 5_000_000_000);
    for many in MANY {
        bytes = damaged(alloc, &bytes, many)?;
    }
    assert!(rt; bytes.len() < 5_000_000_000);
    Ok(HoleStore::new(alloc, Name::new(alloc, "f.mp4")?, bytes, 5_000_000_000)?)
}

// Whether the track has all samples.
fn is_long(meta: &Meta, track: TrackName) -> bool {
    match meta.track(track) {
        Ok(view) => view.samples == 4_000_000_000 && meta.size() == 5_000_000_000,
        Err(_) => false,
    }
}

// The first sample at or after a second, an hour and the end.
fn seek<L: Ledger>(rt: &impl Abort, meta: &Meta, track: TrackName, blank: Blank) -> Result<(), Fail>
    requires name { blank.name ≡ L.name }
    requires parts { blank.parts ≡ L.parts }
    requires some { 0 < L.parts }
{
    let mut steps = Steps::<L>::start(blank);
    let times = meta.times(track).ok_or("no times")?;
    for (time, sample) in [
        (90_000, 48_000),
        (324_000_000, 172_800_000),
        (90_000_000_000, 4_000_000_000),
    ] {
        assert_eq!(rt; times.first_at(time, &mut steps), sample);
    }
    Ok(())
}

// The track has all samples, and seeks find them.
fn check(rt: &impl Abort, meta: &Meta, track: TrackName) -> Result<(), Fail> {
    assert!(rt; is_long(meta, track));
    seek::<Brand>(rt, meta, track, Blank::new(1))
}

#[test]
fn four_thousand_million_samples_are_loaded(rt: HostRuntime) -> Result<(), Fail> {
    let alloc = rt.alloc();
    let mut store = long_film(&rt, alloc)?;
    let mut metas = Metas::new(alloc)?;
    let track = TrackName {
        kind: Kind::Audio,
        number: 1,
    };
    let meta = metas.load(alloc, &mut store, "f.mp4")?;
    check(&rt, &meta, track)?;
    // Now the movie is kept.
    let kept = metas.load(alloc, &mut store, "f.mp4")?;
    check(&rt, &kept, track)
}
