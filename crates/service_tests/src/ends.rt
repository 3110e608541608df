//! Ends of runs whose output has no room.

use std::alloc::Global;
use std::string::String;
use std::test::Fail;
use vod_app::{Ended, run};
use vod_films::films;
use vod_source::{MemDoor, MemSink, MemStore};

// Words, how many bytes have room, the status, and how many bytes are written. The last sample of the segment, of 20 bytes, is put
// in one call, and so is a plan.
const ROOMS: [(&str, usize, u8, usize); 5] = [
    (
        "get /r - /local/dash/two.mp4/fragment-1-a1.m4s",
        182,
        0,
        182,
    ),
    (
        "get /r - /local/dash/two.mp4/fragment-1-a1.m4s",
        181,
        4,
        162,
    ),
    ("plan /r - /local/hls/ntsc.mp4/index-f1-v1.m3u8", 17, 0, 17),
    ("plan /r - /local/hls/ntsc.mp4/index-f1-v1.m3u8", 16, 4, 0),
    ("reads /r - /local/dash/gone.mp4/fragment-1-a1.m4s", 0, 2, 0),
];

#[test]
fn output_without_room_ends_the_run(rt: HostRuntime) -> Result<(), Fail> {
    let alloc = rt.alloc();
    let mut store = films(alloc)?;
    for (words, room, status, written) in ROOMS {
        let mut spelled = Vec::new(alloc);
        for word in words.split(' ') {
            spelled.push(String::from_str(alloc, word)?)?;
        }
        let mut door = MemDoor::new(alloc, Vec::new(alloc), Vec::new(alloc))?;
        let mut out = MemSink::new(alloc, room, Vec::new(alloc))?;
        let mut err = MemSink::new(alloc, 50, Vec::new(alloc))?;
        let ended = run(alloc, &spelled, store, &mut door, &mut out, &mut err);
        assert_eq!(rt;
            (ended.status, out.written().len()),
            (status, written),
            "at {words}"
        );
        store = ended.store;
    }
    Ok(())
}

#[test]
fn line_that_cannot_be_written_changes_nothing(rt: HostRuntime) -> Result<(), Fail> {
    let alloc = rt.alloc();
    let word = vec![in alloc; String::from_str(alloc, "get")?]?;
    let store = MemStore::new(Vec::new(alloc), Vec::new(alloc));
    let mut door = MemDoor::new(alloc, Vec::new(alloc), Vec::new(alloc))?;
    let mut out = MemSink::new(alloc, 0, Vec::new(alloc))?;
    let mut err = MemSink::new(alloc, 0, Vec::new(alloc))?;
    let Ended { status, store: _ } = run(alloc, &word, store, &mut door, &mut out, &mut err);
    assert!(rt; status == 1 && err.written().is_empty());
    Ok(())
}
