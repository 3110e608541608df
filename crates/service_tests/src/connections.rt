//! Connections over a film in memory, worked out by hand.

use std::alloc::Global;
use std::string::String;
use std::test::Fail;
use vod_app::run;
use vod_films::{Damage, avc, damaged, film, ran, store_of, track, two_samples};
use vod_source::{MemDoor, MemLink, MemSink, MemStore, Store};
use vod_types::Kind;

// What a peer sends, how many letters `a` stand behind that, and what it is answered, with `@` in place of the segment of 182
// bytes and `~` in place of the clip of 706.
const PEERS: [(&str, usize, &str); 11] = [
    (
        "GET /local/dash/a.mp4/fragment-1-a1.m4s HTTP/1.1\r\n\r\n",
        0,
        "HTTP/1.1 200 OK\r\nContent-Type: audio/mp4\r\nContent-Length: 182\r\n\r\n@",
    ),
    // The bytes behind a head are the next request.
    (
        "POST /local/dash/a.mp4/fragment-1-a1.m4s HTTP/1.1\r\n\r\nGET /local/dash/a.mp4/fragment-1-a1.m4s HTTP/1.1\r\n\r\n",
        0,
        "HTTP/1.1 405 Method Not Allowed\r\nContent-Type: text/plain\r\nContent-Length: 17\r\nAllow: GET, HEAD\r\n\r\n\
         refused 2 Method\nHTTP/1.1 200 OK\r\nContent-Type: audio/mp4\r\nContent-Length: 182\r\n\r\n@",
    ),
    // A head of 8,192 bytes without an end.
    (
        "GET /",
        8187,
        "HTTP/1.1 431 Request Header Fields Too Large\r\nContent-Type: text/plain\r\nContent-Length: 22\r\n\
         Connection: close\r\n\r\nrefused 3 HeadTooLong\n",
    ),
    (
        "GET /x HTTP/1.1\r\nContent-Length: 5\r\n\r\n",
        0,
        "HTTP/1.1 400 Bad Request\r\nContent-Type: text/plain\r\nContent-Length: 23\r\nConnection: close\r\n\r\n\
         refused 5 BodyNotTaken\n",
    ),
    // The last byte is missing.
    (
        "GET /local/dash/a.mp4/fragment-1-a1.m4s HTTP/1.1\r\n\r",
        0,
        "",
    ),
    (
        "GET /local/dash/a.mp4/fragment-1-a1.m4s HTTP/1.0\r\n\r\n",
        0,
        "HTTP/1.1 200 OK\r\nContent-Type: audio/mp4\r\nContent-Length: 182\r\nConnection: close\r\n\r\n@",
    ),
    (
        "GET /local/dash/a.mp4/fragment-2-a1.m4s HTTP/1.1\r\nHost: x\r\n\r\n",
        0,
        "HTTP/1.1 404 Not Found\r\nContent-Type: text/plain\r\nContent-Length: 21\r\n\r\nrefused 40 NoSegment\n",
    ),
    // Ten bytes of the second sample of a clip, which stands at 686.
    (
        "GET /local/dash/a.mp4/clip-f1-a1.mp4 HTTP/1.1\r\nRange: bytes=690-699\r\n\r\n",
        0,
        "HTTP/1.1 206 Partial Content\r\nContent-Type: audio/mp4\r\nContent-Length: 10\r\n\
         Content-Range: bytes 690-699/706\r\n\r\nijklmnopqr",
    ),
    // A range behind the clip.
    (
        "GET /local/dash/a.mp4/clip-f1-a1.mp4 HTTP/1.1\r\nRange: bytes=706-\r\n\r\n",
        0,
        "HTTP/1.1 416 Range Not Satisfiable\r\nContent-Type: text/plain\r\nContent-Length: 19\r\n\
         Content-Range: bytes */706\r\n\r\nrefused 7 BadRange\n",
    ),
    // Two ranges are passed over, and so is the range of another name.
    (
        "GET /local/dash/a.mp4/clip-f1-a1.mp4 HTTP/1.1\r\nRange: bytes=0-1,4-5\r\n\r\n",
        0,
        "HTTP/1.1 200 OK\r\nContent-Type: audio/mp4\r\nContent-Length: 706\r\n\r\n~",
    ),
    (
        "GET /local/dash/a.mp4/fragment-1-a1.m4s HTTP/1.1\r\nRange: bytes=0-9\r\n\r\n",
        0,
        "HTTP/1.1 200 OK\r\nContent-Type: audio/mp4\r\nContent-Length: 182\r\n\r\n@",
    ),
];

// Two requests in a row, and what they are answered.
const TWICE: (&str, &str) = (
    "GET /local/dash/a.mp4/fragment-1-a1.m4s HTTP/1.1\r\nHost: x\r\n\r\n\
     GET /local/dash/a.mp4/fragment-1-a1.m4s HTTP/1.1\r\nHost: x\r\n\r\n",
    "HTTP/1.1 200 OK\r\nContent-Type: audio/mp4\r\nContent-Length: 182\r\n\r\n@\
     HTTP/1.1 200 OK\r\nContent-Type: audio/mp4\r\nContent-Length: 182\r\n\r\n@",
);

// The film of two samples.
fn store(alloc: Global) -> Result<MemStore, Fail> {
    store_of(alloc, "/r/a.mp4", two_samples(alloc)?, Vec::new(alloc))
}

// A link for each peer.
fn links(alloc: Global) -> Result<Vec<MemLink>, Fail> {
    let mut links = Vec::new(alloc);
    for (sent, letters, _) in &PEERS {
        let mut input = sent.as_bytes().to_vec(alloc)?;
        input.extend_from_slice(vec![in alloc; b'a'; *letters]?.as_slice())?;
        let pieces = vec![in alloc; input]?;
        links.push(MemLink::new(alloc, pieces, 1000, Vec::new(alloc))?)?;
    }
    Ok(links)
}

// What a peer is answered, with this segment and this clip.
fn due(alloc: Global, text: &str, segment: &[u8], clip: &[u8]) -> Result<Vec<u8>, Fail> {
    let mut due = Vec::new(alloc);
    for byte in text.as_bytes() {
        match byte {
            b'@' => due.extend_from_slice(segment)?,
            b'~' => due.extend_from_slice(clip)?,
            byte => due.push(*byte)?,
        }
    }
    Ok(due)
}

// The segment that the requests ask for.
fn segment(alloc: Global) -> Result<Vec<u8>, Fail> {
    let words = "get /r - /local/dash/a.mp4/fragment-1-a1.m4s";
    Ok(ran(alloc, words, store(alloc)?)?.body)
}

// And the clip.
fn clip(alloc: Global) -> Result<Vec<u8>, Fail> {
    let words = "get /r - /local/dash/a.mp4/clip-f1-a1.mp4";
    Ok(ran(alloc, words, store(alloc)?)?.body)
}

// How a run of these words over these links ends, with its door and its line.
fn served(alloc: Global, words: &str, links: Vec<MemLink>) -> Result<(u8, MemDoor, Vec<u8>), Fail> {
    served_of(alloc, words, links, store(alloc)?)
}

/// The same over another store.
pub(crate) fn served_of<S: Store + Drop>(
    alloc: Global,
    words: &str,
    links: Vec<MemLink>,
    store: S,
) -> Result<(u8, MemDoor, Vec<u8>), Fail> {
    let mut spelled = Vec::new(alloc);
    for word in words.split(' ') {
        spelled.push(String::from_str(alloc, word)?)?;
    }
    let mut door = MemDoor::new(alloc, links, Vec::new(alloc))?;
    let mut out = MemSink::new(alloc, 0, Vec::new(alloc))?;
    let mut err = MemSink::new(alloc, 50, Vec::new(alloc))?;
    let ended = run(alloc, &spelled, store, &mut door, &mut out, &mut err);
    let line = err.written().to_vec(alloc)?;
    Ok((ended.status, door, line))
}

// Each peer gets what it is due, in order and in turns, and one that doesn't come ends the run by the door.
#[test]
fn peers_are_answered(rt: HostRuntime) -> Result<(), Fail> {
    let alloc = rt.alloc();
    let segment = segment(alloc)?;
    let clip = clip(alloc)?;
    for (words, status, line) in [
        ("serve /r - addr 11", 0, ""),
        ("turns /r - addr 11", 0, ""),
        ("serve /r - addr 12", 6, "door failed\n"),
    ] {
        let (ended, door, told) = served(alloc, words, links(alloc)?)?;
        assert!(rt;
            ended == status && told.as_slice() == line.as_bytes(),
            "at {words}"
        );
        assert!(rt; door.back().len() == 11);
        for ((sent, _, text), link) in PEERS.iter().zip(door.back()) {
            let due = due(alloc, text, &segment, &clip)?;
            assert!(rt; link.written() == due.as_slice(), "at {words}, {sent}");
        }
    }
    Ok(())
}

// A link that gives two requests in two pieces, and whose call of a number fails.
fn cut_link(alloc: Global, cut: usize, fails: Vec<u64>) -> Result<MemLink, Fail> {
    let mut first = TWICE.0.as_bytes().to_vec(alloc)?;
    first.truncate(cut);
    let mut second = Vec::new(alloc);
    for byte in TWICE.0.as_bytes().iter().skip(cut) {
        second.push(*byte)?;
    }
    let pieces = vec![in alloc; first, second]?;
    Ok(MemLink::new(alloc, pieces, 1000, fails)?)
}

// Two requests in a row are answered wherever their bytes are cut, and by a prefix of that where the link fails.
#[test]
fn requests_are_answered_however_they_come(rt: HostRuntime) -> Result<(), Fail> {
    let alloc = rt.alloc();
    let due = due(alloc, TWICE.1, &segment(alloc)?, b"")?;
    for cut in 0..=TWICE.0.len() {
        let link = cut_link(alloc, cut, Vec::new(alloc))?;
        let (status, door, _) = served(alloc, "serve /r - addr 1", vec![in alloc; link]?)?;
        assert!(rt; status == 0 && door.back().len() == 1);
        for link in door.back() {
            assert!(rt; link.written() == due.as_slice(), "cut at {cut}");
        }
    }
    for call in 1..=7 {
        let link = cut_link(alloc, 61, vec![in alloc; call]?)?;
        let (status, door, _) = served(alloc, "serve /r - addr 1", vec![in alloc; link]?)?;
        assert!(rt; status == 0 && door.back().len() == 1);
        for link in door.back() {
            assert!(rt; due.starts_with(link.written()), "at call {call}");
            assert!(rt;
                link.written().len() < due.len() || call == 7,
                "at call {call}"
            );
        }
    }
    Ok(())
}

// A reply to HEAD of a path that isn't in the grammar, without its last line.
const NOT_FOUND: &str =
    "HTTP/1.1 404 Not Found\r\nContent-Type: text/plain\r\nContent-Length: 18\r\n";

// A connection is closed after 10,000 replies, and what stands behind them isn't read.
#[test]
fn connection_ends_after_ten_thousand_replies(rt: HostRuntime) -> Result<(), Fail> {
    let alloc = rt.alloc();
    let mut input = Vec::new(alloc);
    let mut due = Vec::new(alloc);
    for number in 1u32..=10_001 {
        input.extend_from_slice(b"HEAD /x HTTP/1.1\r\n\r\n")?;
        if number <= 10_000 {
            due.extend_from_slice(NOT_FOUND.as_bytes())?;
            if number == 10_000 {
                due.extend_from_slice(b"Connection: close\r\n")?;
            }
            due.extend_from_slice(b"\r\n")?;
        }
    }
    let link = MemLink::new(alloc, vec![in alloc; input]?, 1_000_000, Vec::new(alloc))?;
    let (status, door, _) = served(alloc, "serve /r - addr 1", vec![in alloc; link]?)?;
    assert!(rt; status == 0 && door.back().len() == 1);
    for link in door.back() {
        assert!(rt; link.written() == due.as_slice());
    }
    Ok(())
}

// Of three pictures of 8 bytes the third says that it is longer than it is, and a stream ends before it.
const CUT: Damage = (b"mdat", 24, b"\0\0\0\x05", "refused 28 BadNal");

// A stream of whole packets as chunks of one packet each (RFC 9112, 7.1), behind its head. No last chunk ends it.
fn cut_stream(alloc: Global, packets: &[u8]) -> Result<Vec<u8>, Fail> {
    let mut due =
        b"HTTP/1.1 200 OK\r\nContent-Type: video/mp2t\r\nTransfer-Encoding: chunked\r\n\r\n".to_vec(
            alloc,
        )?;
    for packet in packets.chunks(188) {
        due.extend_from_slice(b"bc\r\n")?;
        due.extend_from_slice(packet)?;
        due.extend_from_slice(b"\r\n")?;
    }
    Ok(due)
}

// A connection ends where a body does before its end, and the next request isn't answered.
#[test]
fn connection_ends_before_a_bad_sample(rt: HostRuntime) -> Result<(), Fail> {
    let alloc = rt.alloc();
    let pictures = track(alloc, Kind::Video, avc(3, 0, 0))?;
    let whole = film(alloc, vec![in alloc; pictures]?)?;
    let cut = damaged(alloc, &whole, CUT)?;
    let store = store_of(alloc, "/r/a.mp4", cut, Vec::new(alloc))?;
    let it = ran(alloc, "get /r - /local/hls/a.mp4/seg-1-v1.ts", store)?;
    // A table of programs, a map, and two pictures of one packet each.
    assert!(rt; it.status == 2 && it.line.as_slice() == b"refused 28 BadNal\n".as_slice());
    assert!(rt; it.body.len() == 4 * 188);
    let mut input = b"GET /local/hls/a.mp4/seg-1-v1.ts HTTP/1.1\r\n\r\n".to_vec(alloc)?;
    input.extend_from_slice(PEERS[0].0.as_bytes())?;
    let link = MemLink::new(alloc, vec![in alloc; input]?, 5000, Vec::new(alloc))?;
    let links = vec![in alloc; link]?;
    let (status, door, line) = served_of(alloc, "serve /r - addr 1", links, it.store)?;
    assert!(rt; status == 0 && line.is_empty() && door.back().len() == 1);
    for link in door.back() {
        assert!(rt; link.written() == cut_stream(alloc, &it.body)?.as_slice());
    }
    Ok(())
}
