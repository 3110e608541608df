//! Segments of rows in memory, against bytes that stand in the standard's terms.
ghost use Rattle.std.specs.Prelude.{◌≡◌, ◌∷◌, [], true, codes, length, ◌<◌, ◌^◌, IfOk};

use crate::{TsSegment, write_stream};
use std::alloc::Global;
use std::test::Fail;
use vod_source::{CopyFault, MemSink, MemStore};
use vod_types::{Asked, Kind, Name, Row, Rows, Sample};

// The configuration of AAC-LC at 48000 Hz with two channels (ISO/IEC 14496-3).
const AAC: &[u8; 2] = b"\x11\x90";
// A record of AVC with lengths of four bytes, a sequence set and a picture set (ISO/IEC 14496-15).
const AVC: &[u8; 17] = b"\x01\x42\x00\x1e\xff\xe1\x00\x04\x67\x42\x00\x1e\x01\x00\x02\x68\xce";
// A frame of 100 bytes.
const FRAME: &[u8; 100] = &[0x21; 100];
// Five samples of two NAL units each, where the second length of the third one passes its end.
const PICTURES: &[u8; 50] = b"\
    \x00\x00\x00\x01\x41\x00\x00\x00\x01\x42\
    \x00\x00\x00\x01\x41\x00\x00\x00\x01\x42\
    \x00\x00\x00\x01\x41\x00\x00\x00\x02\x42\
    \x00\x00\x00\x01\x41\x00\x00\x00\x01\x42\
    \x00\x00\x00\x01\x41\x00\x00\x00\x01\x42\
    ";
// The head of the frame's packet: its clock, 55 bytes of filling are left out, and the PES and ADTS headers.
const PACKET_HEAD: &[u8; 12] = b"\x47\x41\x01\x30\x3e\x50\x00\x00\x00\x00\x7e\x00";

const FRAME_HEAD: &[u8; 21] =
    b"\x00\x00\x01\xc0\x00\x73\x80\x80\x05\x21\x00\x05\xbf\x21\xff\xf1\x4c\x80\x0d\x7f\xfc";

// Rows of one file in memory.
#[derive(Drop)]
struct ListedRows<'a> {
    video: &'a [Row],
    audio: &'a [Row],
    video_place: usize,
    audio_place: usize,
    name: &'a str,
    config: &'a [u8],
    ghost few_video: { length video.now < 2 ^ 32 },
    ghost few_audio: { length audio.now < 2 ^ 32 },
}

impl Rows for ListedRows<'_> {
    ghost rows = { λ s. record { video = s.video.now; audio = s.audio.now; name = λ _. s.name.now; config = λ _ _. s.config.now } };

    ghost places = { λ s. record { video = s.video_place; audio = s.audio_place } };

    fn restart(&mut self) {
        self.video_place = 0;
        self.audio_place = 0;
    }

    fn next(&mut self, kind: Kind) -> Option<Row> {
        match kind {
            Kind::Video => {
                let row = self.video.get(self.video_place).copied()?;
                self.video_place += 1;
                Some(row)
            }
            Kind::Audio => {
                let row = self.audio.get(self.audio_place).copied()?;
                self.audio_place += 1;
                Some(row)
            }
        }
    }

    fn count(&self, kind: Kind) -> u32 {
        match kind {
            Kind::Video => self.video.len() as u32,
            Kind::Audio => self.audio.len() as u32,
        }
    }

    fn file(&self, _file: u32) -> &str {
        self.name
    }

    fn config(&self, _file: u32, _kind: Kind) -> &[u8] {
        self.config
    }
}

// A sample that is shown when it is decoded.
fn row(number: u64, at: u64, size: u32, time: i64) -> Row
    ensures { result ≡ record { file = 0; number = number; sample = record { at = at; size = size; dts = time; pts = time; dur = 0; sync = true } } }
{
    Row {
        file: 0,
        number,
        sample: Sample {
            at,
            size,
            dts: time,
            pts: time,
            dur: 0,
            sync: true,
        },
    }
}

// The store of one file with these bytes.
fn one_file(alloc: Global, bytes: &[u8], fails: Vec<u64>) -> Result<MemStore, Fail>
    ensures { IfOk result (λ store. store.files ≡ (codes "a.mp4", bytes.now) ∷ []) }
{
    let file = (Name::new(alloc, "a.mp4")?, bytes.to_vec(alloc)?);
    Ok(MemStore::new(vec![in alloc; file]?, fails))
}

// What a call came to, and what it wrote.
type Written = (Result<Option<(u32, u64)>, CopyFault>, Vec<u8>);

// Writes the segment of the frame, where the calls with these numbers fail.
fn frame_segment(
    alloc: Global,
    store_fails: Vec<u64>,
    sink_fails: Vec<u64>,
) -> Result<Written, Fail> {
    let audio = [row(0, 0, 100, 0)];
    let mut rows = ListedRows {
        video: &[],
        audio: &audio,
        video_place: 0,
        audio_place: 0,
        name: "a.mp4",
        config: AAC,
    };
    let mut store = one_file(alloc, FRAME, store_fails)?;
    let mut sink = MemSink::new(alloc, 564, sink_fails)?;
    let asked = Asked {
        video: None,
        audio: Some(1),
    };
    let segment = TsSegment::new(alloc, 100, asked, false)?;
    let ended = write_stream(segment, &mut rows, &mut store, &mut sink);
    Ok((ended, sink.written().to_vec(alloc)?))
}

// Writes the segment of the pictures.
fn picture_segment(alloc: Global) -> Result<Written, Fail> {
    let video = [
        row(0, 0, 10, 0),
        row(1, 10, 10, 3000),
        row(2, 20, 10, 6000),
        row(3, 30, 10, 9000),
        row(4, 40, 10, 12000),
    ];
    let mut rows = ListedRows {
        video: &video,
        audio: &[],
        video_place: 0,
        audio_place: 0,
        name: "a.mp4",
        config: AVC,
    };
    let mut store = one_file(alloc, PICTURES, Vec::new(alloc))?;
    let mut sink = MemSink::new(alloc, 1316, Vec::new(alloc))?;
    let asked = Asked {
        video: Some(1),
        audio: None,
    };
    let segment = TsSegment::new(alloc, 10, asked, false)?;
    let ended = write_stream(segment, &mut rows, &mut store, &mut sink);
    Ok((ended, sink.written().to_vec(alloc)?))
}

#[test]
fn writes_a_frame(rt: HostRuntime) -> Result<(), Fail> {
    let alloc = rt.alloc();
    let (ended, bytes) = frame_segment(alloc, Vec::new(alloc), Vec::new(alloc))?;
    assert_eq!(rt; ended, Ok(None));
    assert_eq!(rt; bytes.len(), 564);
    assert!(rt; bytes[376..].starts_with(PACKET_HEAD) && bytes[388..].starts_with(&[0xff; 55]));
    assert!(rt; bytes[443..].starts_with(FRAME_HEAD) && bytes[464..].starts_with(FRAME));
    // the calls on the sink write the tables and the frame's packet
    for (call, written) in [(1, 0), (2, 188), (3, 376)] {
        let (ended, part) = frame_segment(alloc, Vec::new(alloc), vec![in alloc; call]?)?;
        assert_eq!(rt; ended, Err(CopyFault::Sink));
        assert!(rt; part.len() == written && bytes.starts_with(&part));
    }
    let (ended, part) = frame_segment(alloc, vec![in alloc; 1]?, Vec::new(alloc))?;
    assert_eq!(rt; ended, Err(CopyFault::Store));
    assert!(rt; part.len() == 376 && bytes.starts_with(&part));
    Ok(())
}

#[test]
fn stops_before_a_bad_sample(rt: HostRuntime) -> Result<(), Fail> {
    let (ended, bytes) = picture_segment(rt.alloc())?;
    assert_eq!(rt; ended, Ok(Some((0, 2))));
    assert!(rt;
        bytes.len() == 752 && bytes[375] == 0xff && bytes[563] == 0x42 && bytes[751] == 0x42
    );
    Ok(())
}
