//! Segments of rows in memory, against bytes that stand in the standard's terms.
ghost use Rattle.std.specs.Prelude.{◌≡◌, true, ◌^◌, ◌<◌, [], ◌∷◌, length, codes, IfOk};

use crate::write_fragment;
use std::alloc::Global;
use std::test::Fail;
use vod_source::{CopyFault, MemSink, MemStore};
use vod_types::{Kind, Name, Row, Rows, Sample};

// The bytes of both samples.
const SAMPLES: &[u8; 30] = b"\x01\x02\x03\x04\x05\x06\x07\x08\x09\x0aefghijklmnopqrstuvwx";

// The segment of two samples of 10 and 20 bytes, box by box.
const SEGMENT: &[u8; 182] = b"\
    \x00\x00\x00\x18stypmsdh\x00\x00\x00\x00msdhiso6\
    \x00\x00\x00xmoof\x00\x00\x00\x10mfhd\x00\x00\x00\x00\x00\x00\x00\x01\
    \x00\x00\x00`traf\x00\x00\x00\x10tfhd\x00\x02\x00\x00\x00\x00\x00\x02\
    \x00\x00\x00\x14tfdt\x01\x00\x00\x00\x00\x00\x00\x00\x00\x00\x00\x00\
    \x00\x00\x004trun\x01\x00\x0f\x01\x00\x00\x00\x02\x00\x00\x00\x80\
    \x00\x00\x07\x80\x00\x00\x00\x0a\x02\x00\x00\x00\x00\x00\x00\x00\
    \x00\x00\x07\x80\x00\x00\x00\x14\x02\x00\x00\x00\x00\x00\x00\x00\
    \x00\x00\x00&mdat\
    \x01\x02\x03\x04\x05\x06\x07\x08\x09\x0a\
    efghijklmnopqrstuvwx\
    ";

// Rows of one file in memory.
#[derive(Drop)]
struct ListedRows<'a> {
    video: &'a [Row],
    audio: &'a [Row],
    video_place: usize,
    audio_place: usize,
    name: &'a str,
    ghost few_video: { length video.now < 2 ^ 32 },
    ghost few_audio: { length audio.now < 2 ^ 32 },
}

impl Rows for ListedRows<'_> {
    ghost use Rattle.std.specs.Prelude.{[]};

    ghost rows = { λ s. record { video = s.video.now; audio = s.audio.now; name = λ _. s.name.now; config = λ _ _. [] } };

    ghost places = { λ s. record { video = s.video_place; audio = s.audio_place } };

    fn restart(&mut self) {
        self.video_place = 0;
        self.audio_place = 0;
    }

    fn next(&mut self, kind: Kind) -> Option<Row> {
        match kind {
            Kind::Video => {
                let row = self.video.get(self.video_place).copied()?;
                self.video_place += 1;
                Some(row)
            }
            Kind::Audio => {
                let row = self.audio.get(self.audio_place).copied()?;
                self.audio_place += 1;
                Some(row)
            }
        }
    }

    fn count(&self, kind: Kind) -> u32 {
        match kind {
            Kind::Video => self.video.len() as u32,
            Kind::Audio => self.audio.len() as u32,
        }
    }

    fn file(&self, _file: u32) -> &str {
        self.name
    }

    fn config(&self, _file: u32, _kind: Kind) -> &[u8] {
        &[]
    }
}

// An audio sample of 1920 units.
fn audio_row(number: u64, at: u64, size: u32, time: i64) -> Row
    ensures { result ≡ record { file = 0; number = number; sample = record { at = at; size = size; dts = time; pts = time; dur = 1920; sync = true } } }
{
    Row {
        file: 0,
        number,
        sample: Sample {
            at,
            size,
            dts: time,
            pts: time,
            dur: 1920,
            sync: true,
        },
    }
}

// The store of one file that holds both samples.
fn samples_store(alloc: Global, fails: Vec<u64>) -> Result<MemStore, Fail>
    ensures { IfOk result (λ store. store.files ≡ (codes "a.mp4", SAMPLES.now) ∷ []) }
{
    let file = (Name::new(alloc, "a.mp4")?, SAMPLES.to_vec(alloc)?);
    Ok(MemStore::new(vec![in alloc; file]?, fails))
}

// Writes the segment of both samples, where the calls with these numbers fail.
fn segment(
    alloc: Global,
    store_fails: Vec<u64>,
    sink_fails: Vec<u64>,
) -> Result<(Result<(), CopyFault>, Vec<u8>), Fail> {
    let audio = [audio_row(0, 0, 10, 0), audio_row(1, 10, 20, 1920)];
    let mut rows = ListedRows {
        video: &[],
        audio: &audio,
        video_place: 0,
        audio_place: 0,
        name: "a.mp4",
    };
    let mut store = samples_store(alloc, store_fails)?;
    let mut sink = MemSink::new(alloc, 182, sink_fails)?;
    let ended = write_fragment(1, &mut rows, &mut store, &mut sink);
    Ok((ended, sink.written().to_vec(alloc)?))
}

#[test]
fn stops_at_a_failure(rt: HostRuntime) -> Result<(), Fail> {
    let alloc = rt.alloc();
    // the calls on the sink write `styp` to `mfhd`, `traf` to `trun`, two entries, the header of `mdat`, and two samples
    for (call, written) in [
        (1, 0),
        (2, 48),
        (3, 112),
        (4, 128),
        (5, 144),
        (6, 152),
        (7, 162),
    ] {
        let (ended, bytes) = segment(alloc, Vec::new(alloc), vec![in alloc; call]?)?;
        assert_eq!(rt; ended, Err(CopyFault::Sink));
        assert!(rt; bytes.len() == written && SEGMENT.starts_with(&bytes));
    }
    for (call, written) in [(1, 152), (2, 162)] {
        let (ended, bytes) = segment(alloc, vec![in alloc; call]?, Vec::new(alloc))?;
        assert_eq!(rt; ended, Err(CopyFault::Store));
        assert!(rt; bytes.len() == written && SEGMENT.starts_with(&bytes));
    }
    Ok(())
}
