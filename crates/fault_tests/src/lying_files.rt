//! Files that lie: what stands in the place of a film, films that are cut off, and a file that changes while it is read.

use std::alloc::Global;
use std::test::Fail;
use vod_films::{Damage, behind, box_at, damaged, film, ran, sound, store_of, two_samples};
use vod_source::ShiftStore;
use vod_types::Name;

const WORDS: &str = "get /r - /local/dash/f.mp4/fragment-1-a1.m4s";

// The first bytes of a file, how many zeros stand behind them, and what the request for a fragment is refused with.
const FRONTS: [(&[u8], usize, &str); 5] = [
    (b"", 0, "refused 22 NoMovie"),
    // Less than a header, and a box of 4 bytes.
    (b"\0\0\0\x07fre", 0, "refused 21 BadBox"),
    (b"\0\0\0\x04ftyp", 92, "refused 21 BadBox"),
    // A box of 24 bytes and five more, and a box whose size of 64 bits is less than its header.
    (b"\0\0\0\x18ftyp", 21, "refused 21 BadBox"),
    (b"\0\0\0\x01free\0\0\0\0\0\0\0\x0f", 0, "refused 21 BadBox"),
];

// What becomes of the request over a file of these bytes: its status and its line.
fn told(alloc: Global, words: &str, bytes: Vec<u8>) -> Result<(u8, usize, Vec<u8>), Fail> {
    let store = store_of(alloc, "/r/f.mp4", bytes, Vec::new(alloc))?;
    let it = ran(alloc, words, store)?;
    Ok((it.status, it.body.len(), it.line))
}

// So many empty boxes before the movie box of a film.
fn late(alloc: Global, boxes: usize) -> Result<Vec<u8>, Fail> {
    let whole = two_samples(alloc)?;
    let mut bytes = Vec::new(alloc);
    for _ in 0..boxes {
        bytes.extend_from_slice(b"\0\0\0\x08free")?;
    }
    bytes.extend_from_slice(behind(&whole, box_at(&whole, b"moov").ok_or("no movie")?))?;
    Ok(bytes)
}

// Of `mdat`, which has 38 bytes, the size of one byte less.
const SHORT: Damage = (b"mdat", 0, b"\0\0\0\x25", "refused 27 OutOfFile");

#[test]
fn files_that_are_no_films_are_refused(rt: HostRuntime) -> Result<(), Fail> {
    let alloc = rt.alloc();
    for (front, zeros, due) in FRONTS {
        let mut bytes = front.to_vec(alloc)?;
        for _ in 0..zeros {
            bytes.push(0)?;
        }
        let (status, written, line) = told(alloc, WORDS, bytes)?;
        assert_eq!(rt; str::from_utf8(&line)?.trim_end(), due);
        assert!(rt; status == 2 && written == 0);
    }
    // The movie box is looked for among the first 64 boxes.
    let (_, _, line) = told(alloc, WORDS, late(alloc, 64)?)?;
    assert_eq!(rt; line.as_slice(), b"refused 22 NoMovie\n".as_slice());
    // A film without its last byte.
    let mut cut = damaged(alloc, &two_samples(alloc)?, SHORT)?;
    assert_eq!(rt; cut.pop(), Some(b'x'));
    let (_, _, line) = told(alloc, WORDS, cut)?;
    assert_eq!(rt; str::from_utf8(&line)?.trim_end(), SHORT.3);
    Ok(())
}

// A sample with its header of 7 bytes is to have less than 2^13 in a stream; a fragment has 136 bytes beside it.
#[test]
fn sample_too_long_for_a_stream_is_no_fault_of_a_fragment(rt: HostRuntime) -> Result<(), Fail> {
    let alloc = rt.alloc();
    let sample = vec![in alloc; 0; 8185]?;
    let samples: [&[u8]; 1] = [sample.as_slice()];
    let bytes = film(alloc, vec![in alloc; sound(alloc, &samples)?]?)?;
    let (status, written, _) = told(alloc, WORDS, bytes.clone()?)?;
    assert_eq!(rt; (status, written), (0, 8321));
    let words = "get /r - /local/hls/f.mp4/seg-1-a1.ts";
    let (status, written, line) = told(alloc, words, bytes)?;
    assert_eq!(rt; (status, written), (2, 0));
    assert_eq!(rt; line.as_slice(), b"refused 29 SampleTooLong\n".as_slice());
    Ok(())
}

// A file that shows other bytes from some call on: a request ends, with a body or a refusal.
#[test]
fn file_that_changes_ends_each_request(rt: HostRuntime) -> Result<(), Fail> {
    let alloc = rt.alloc();
    for turn in 0..=6 {
        let first = two_samples(alloc)?;
        let mut second = first.clone()?;
        second.reverse();
        assert!(rt; first.len() == second.len());
        let store = ShiftStore::new(alloc, Name::new(alloc, "/r/f.mp4")?, first, second, turn)?;
        let it = ran(alloc, WORDS, store)?;
        // Seven calls are enough for the two headers, the movie box and both samples: the size is no loan.
        let whole = it.status == 0 && it.body.len() == 182 && it.line.is_empty();
        let refused = it.status == 2 && it.body.is_empty() && it.line.starts_with(b"refused ");
        assert!(rt; whole || refused, "turn {turn}");
        assert!(rt; whole || turn < 5, "turn {turn}");
    }
    Ok(())
}
