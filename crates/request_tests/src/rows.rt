//! Requests over films in memory: each row is a request and what is due, worked out by hand.

use crate::plans::PLANS;
use std::alloc::Global;
use std::process::Abort;
use std::string::String;
use std::test::Fail;
use vod_films::{behind, films, ran, word};
use vod_source::MemStore;

// Of the `traf` at a place of a body: the track, the time of its first sample, how many samples it has, and the numbers of
// the first and the last, which stand 4 bytes behind their samples' beginnings.
fn run_of(alloc: Global, body: &[u8], at: usize) -> Result<String, Fail> {
    let traf = behind(body, at);
    let count = word(traf, 56);
    let samples = behind(body, 24 + word(traf, 60) as usize);
    let last = behind(samples, 8 * count.saturating_sub(1) as usize);
    let high = word(traf, 36);
    let time = word(traf, 40);
    let text = format!(in alloc;
        "; {} {high} {time} {count} {} {}",
        word(traf, 20),
        word(samples, 4),
        word(last, 4)
    )?;
    Ok(text)
}

// The length of an initialization segment; of a clip its length, the place where its `moov` ends, and its last four bytes.
fn movie_of(alloc: Global, body: &[u8]) -> Result<String, Fail> {
    let end = 24 + word(body, 24) as usize;
    if end == body.len() {
        return Ok(format!(in alloc; "init {end}")?);
    }
    let last = word(body, body.len().saturating_sub(4));
    Ok(format!(in alloc; "clip {} {end} {last}", body.len())?)
}

// The number of a fragment and its runs, each behind a semicolon, or what a movie has.
fn boxes_of(alloc: Global, body: &[u8]) -> Result<String, Fail> {
    if behind(body, 4).starts_with(b"ftyp") {
        return movie_of(alloc, body);
    }
    let mut text = format!(in alloc; "{}", word(body, 44))?;
    text.push_str(run_of(alloc, body, 48)?.as_str())?;
    let mut count = word(body, 104) as usize;
    let second = 112 + 16 * count;
    let mut runs = 1;
    if behind(body, second + 4).starts_with(b"traf") {
        text.push_str(run_of(alloc, body, second)?.as_str())?;
        count += word(body, second + 56) as usize;
        runs = 2;
    }
    // `styp`, `moof` and the header of `mdat`; for each run 64 bytes, and for each sample 16 and 8 bytes.
    if body.len() != 56 + 64 * runs + 24 * count {
        text.push_str(" of another length")?;
    }
    Ok(text)
}

// The lines of a text, each with a semicolon in place of its line feed.
fn lines_of(alloc: Global, text: &str) -> Result<String, Fail> {
    let mut lines = String::new(alloc);
    for c in text.chars() {
        lines.push(if c == '\n' { ';' } else { c })?;
    }
    Ok(lines)
}

// What a body holds: a plan or a list, a transport stream of a length with its last four bytes, or boxes.
fn body_of(alloc: Global, body: &[u8]) -> Result<String, Fail> {
    match body {
        [] => Ok(String::from_str(alloc, "nothing")?),
        [b'0'..=b'9' | b'#', ..] => lines_of(alloc, str::from_utf8(body)?),
        [b'G', ..] => {
            let last = word(body, body.len().saturating_sub(4));
            Ok(format!(in alloc; "stream {} {last}", body.len())?)
        }
        _ => boxes_of(alloc, body),
    }
}

// The line of a refusal or a failure without its line feed, the usage line as `usage`, or what a body holds.
fn told(alloc: Global, status: u8, body: &[u8], line: &[u8]) -> Result<String, Fail> {
    match (status, line) {
        (0, []) => body_of(alloc, body),
        (1, line) if body.is_empty() && line == USAGE.as_bytes() => {
            Ok(String::from_str(alloc, "usage")?)
        }
        (2, [text @ .., b'\n']) if body.is_empty() => {
            Ok(String::from_str(alloc, str::from_utf8(text)?)?)
        }
        _ => Ok(format!(in alloc; "status {status}, {} bytes", body.len())?),
    }
}

const USAGE: &str =
    "usage: vodpack get|reads|plan|pack ROOT SETTINGS PATH, serve|turns ROOT SETTINGS ADDR COUNT, rehearse N\n";

// Rows of words that spell no command. A single space parts two words, of which one may be empty.
const WORDS: &str = r"
 | usage
get | usage
--help | usage
get /r -  | usage
get  - /local/dash/a.mp4/fragment-1-a1.m4s | usage
get /r - /local/dash/a.mp4/fragment-1-a1.m4s /local/dash/a.mp4/fragment-1-a1.m4s | usage
fetch /r - /local/dash/a.mp4/fragment-1-a1.m4s | usage
plan /r - | usage
plan /r  /local/hls/a.mp4/index-v1-a1.m3u8 | usage
Plan /r - /local/hls/a.mp4/index-v1-a1.m3u8 | usage
pack /r - /local/hls/a.mp4/index-v1-a1.m3u8 | refused 4 BadPath
rehearse 01 | usage
rehearse 4294967296 | usage
Rehearse 1 | usage
";

// Rows of settings, path and what is due: a refusal, the length of an initialization segment, what a clip has, or a fragment's number and
// for each track its id, the two halves of the time of its first sample, how many samples it has, and the numbers of the
// first and the last one; of a transport stream its length and its last four bytes, and of a list its lines.
const ROWS: &str = r#"
# 468 * 1920 = 898560 is below 900000, so sample 469 begins the second fragment, and 938 the third.
- /local/dash/aac.mp4/fragment-1-a1.m4s | 1; 2 0 0 469 0 468
- /local/dash/aac.mp4/fragment-2-f1-a1.m4s | 2; 2 0 900480 469 469 937
- /local/dash/aac.mp4/fragment-3-a1.m4s | 3; 2 0 1800960 62 938 999
- /local/dash/aac.mp4/fragment-4-a1.m4s | refused 40 NoSegment
- /local/dash/aac.mp4/fragment-1-f2-a1.m4s | refused 15 NoSequence
- /local/dash/aac.mp4/fragment-1-f0-a1.m4s | refused 15 NoSequence
- /local/dash/aac.mp4/fragment-1-v1.m4s | refused 25 NoTrack
- /local/dash/gone.mp4/fragment-1-a1.m4s | refused 20 NoFile
# Sample 431 has the time floor(441344 * 90000 / 44100) = 900702, and 862 is the first at 1800000 or later.
- /local/dash/cd.mp4/fragment-2-a1.m4s | 2; 2 0 900702 431 431 861
# 300 pictures of 3003 units end at 900900, and the last begins at 897897.
- /local/dash/ntsc.mp4/fragment-1-v1.m4s | 1; 1 0 0 300 0 299
- /local/dash/ntsc.mp4/fragment-2-v1.m4s | refused 41 EmptySegment
- /local/dash/ntsc.mp4/fragment-3-v1.m4s | refused 40 NoSegment
# A sync sample stands at every 25 seconds, so the others of five cells begin where the next one does.
align.json /local/dash/keys.mp4/fragment-1-v1.m4s | 1; 1 0 0 625 0 624
align.json /local/dash/keys.mp4/fragment-2-v1.m4s | refused 41 EmptySegment
align.json /local/dash/keys.mp4/fragment-3-v1.m4s | 3; 1 0 2250000 625 625 1249
align.json /local/dash/keys.mp4/fragment-4-v1.m4s | refused 41 EmptySegment
align.json /local/dash/keys.mp4/fragment-5-v1.m4s | refused 41 EmptySegment
align.json /local/dash/keys.mp4/fragment-6-v1.m4s | refused 40 NoSegment
# Two samples of 60 seconds: cells 2 to 7 begin at the second one, and cells 8 to 12 at the end.
- /local/dash/slow.mp4/fragment-1-a1.m4s | 1; 2 0 0 1 0 0
- /local/dash/slow.mp4/fragment-2-a1.m4s | refused 41 EmptySegment
- /local/dash/slow.mp4/fragment-7-a1.m4s | 7; 2 0 5400000 1 1 1
- /local/dash/slow.mp4/fragment-12-a1.m4s | refused 41 EmptySegment
- /local/dash/slow.mp4/fragment-13-a1.m4s | refused 40 NoSegment
tiny.json /local/dash/slow.mp4/fragment-0-a1.m4s | refused 42 TooManySegments
# 4 * (2^32 - 1) seconds are more than 2^40 units.
- /local/dash/ages.mp4/fragment-1-a1.m4s | refused 31 TrackTooLong
# 13 seconds in cells that begin at 0, 2 and 6 seconds.
start.json /local/dash/odd.mp4/fragment-1-v1.m4s | 1; 1 0 0 50 0 49
start.json /local/dash/odd.mp4/fragment-2-v1.m4s | 2; 1 0 180000 100 50 149
start.json /local/dash/odd.mp4/fragment-3-v1.m4s | 3; 1 0 540000 175 150 324
start.json /local/dash/odd.mp4/fragment-4-v1.m4s | refused 40 NoSegment
# 5 seconds are two cells of 2 seconds and half a cell, or one of 4 seconds and less than half.
short.json /local/dash/b.mp4/fragment-3-v1.m4s | 3; 1 0 360000 25 10100 10124
long.json /local/dash/b.mp4/fragment-2-v1.m4s | 2; 1 0 180000 75 10050 10124
long.json /local/dash/b.mp4/fragment-3-v1.m4s | refused 40 NoSegment
near.json /local/dash/b.mp4/fragment-3-v1.m4s | 3; 1 0 360000 25 10100 10124
far.json /local/dash/b.mp4/fragment-1-v1.m4s | 1; 1 0 0 125 10000 10124
far.json /local/dash/b.mp4/fragment-2-v1.m4s | refused 40 NoSegment
bad.json /local/dash/b.mp4/fragment-1-v1.m4s | refused 6 BadSettings
# Pictures and audio, cut where the pictures are: the end of the part is above every time.
- /local/dash/av.mp4/fragment-1-v1-a1.m4s | 1; 1 0 0 250 0 249; 2 0 0 469 20000 20468
- /local/dash/av.mp4/fragment-2-v1-a1.m4s | 2; 1 0 900000 250 250 499; 2 0 900480 531 20469 20999
- /local/dash/av.mp4/fragment-2-v1.m4s | 2; 1 0 900000 250 250 499
- /local/dash/av.mp4/fragment-2-a1.m4s | 2; 2 0 900480 469 20469 20937
- /local/dash/av.mp4/fragment-3-v1-a1.m4s | refused 40 NoSegment
# The tracks of the path are numbered anew; the second audio track is over before 10 seconds.
- /local/dash/av.mp4/fragment-1-a2.m4s | refused 25 NoTrack
- /local/dash/av.mp4/tracks/a2/fragment-1-a1.m4s | 1; 2 0 0 100 30000 30099
- /local/dash/av.mp4/tracks/a2-a1/fragment-1-a2.m4s | 1; 2 0 0 469 20000 20468
- /local/dash/av.mp4/tracks/v1-a2/fragment-2-v1-a1.m4s | 2; 1 0 900000 250 250 499
- /local/dash/av.mp4/tracks/a2/fragment-1-v1.m4s | refused 25 NoTrack
# From 5 to 12 seconds: sample 235 of audio is the first at 450000 or later, and 562 the last before 1080000.
- /local/dash/av.mp4/clipFrom/5000/clipTo/12000/fragment-1-v1-a1.m4s | 1; 1 0 0 175 125 299; 2 0 1200 328 20235 20562
- /local/dash/av.mp4/clipTo/12000/clipFrom/5000/fragment-2-v1-a1.m4s | refused 40 NoSegment
# From 5.01 seconds: the first sync sample is 150, at 540000 - 450900, and 376 the first at 900000 or later.
- /local/dash/av.mp4/clipFrom/5010/fragment-1-v1.m4s | 1; 1 0 89100 226 150 375
- /local/dash/av.mp4/clipFrom/30000/fragment-1-v1.m4s | refused 40 NoSegment
- /local/dash/av.mp4/clipFrom/10/clipTo/10/fragment-1-v1.m4s | refused 4 BadPath
# Two files by one path.
- /local/dash/,a,b,.mp4.urlset/fragment-2-f1-v1.m4s | 2; 1 0 900000 250 250 499
- /local/dash/,a,b,.mp4.urlset/fragment-1-f2-v1.m4s | 1; 1 0 0 125 10000 10124
- /local/dash/,a,b,.mp4.urlset/fragment-1-f3-v1.m4s | refused 15 NoSequence
- /local/dash/,a,b,.mp4.urlset/init-c1-f2-v1.mp4 | init 622
# Two clips of 20 seconds, of which the second has 5 seconds of pictures. Without its file the first is answered as before.
- /mapped/dash/m.json/fragment-0-f1-v1.m4s | refused 40 NoSegment
- /mapped/dash/m.json/fragment-1-f1-v1.m4s | 1; 1 0 0 250 0 249
- /mapped/dash/m.json/fragment-2-f1-v1.m4s | 2; 1 0 900000 250 250 499
- /mapped/dash/m.json/fragment-3-f1-v1.m4s | 3; 1 0 1800000 125 10000 10124
- /mapped/dash/m.json/fragment-4-f1-v1.m4s | refused 41 EmptySegment
- /mapped/dash/m.json/fragment-5-f1-v1.m4s | refused 40 NoSegment
- /mapped/dash/gone.json/fragment-1-f1-v1.m4s | 1; 1 0 0 250 0 249
- /mapped/dash/gone.json/fragment-2-f1-v1.m4s | 2; 1 0 900000 250 250 499
- /mapped/dash/gone.json/fragment-3-f1-v1.m4s | refused 20 NoFile
- /mapped/dash/gone.json/fragment-5-f1-v1.m4s | refused 40 NoSegment
- /mapped/dash/gone.json/init-c1-f1-v1.mp4 | init 622
- /mapped/dash/gone.json/init-c2-f1-v1.mp4 | refused 20 NoFile
# The same in one part: the second fragment ends where the second file begins, so that file is needed.
- /mapped/dash/joined.json/fragment-2-v1.m4s | 2; 1 0 900000 250 250 499
- /mapped/dash/joined.json/fragment-3-v1.m4s | 3; 1 0 1800000 125 10000 10124
- /mapped/dash/joined.json/init-c2-v1.mp4 | refused 45 NoPart
- /mapped/dash/lost.json/fragment-1-v1.m4s | 1; 1 0 0 250 0 249
- /mapped/dash/lost.json/fragment-2-v1.m4s | refused 20 NoFile
# From 15 to 25 seconds of that: 125 samples of the first file, and then 125 of the second.
- /mapped/dash/joined.json/clipFrom/15000/clipTo/25000/fragment-1-v1.m4s | 1; 1 0 0 250 375 10124
# The first second of the two files isn't shown: sample 50 is the first sync sample, at -90000 + 180000.
- /mapped/dash/concat.json/fragment-1-v1.m4s | 1; 1 0 90000 200 50 10124
- /mapped/dash/concat.json/fragment-2-v1.m4s | refused 40 NoSegment
# Seconds 4 to 10 of a file, and a mapping with a segment duration of its own.
- /mapped/dash/from.json/fragment-1-v1.m4s | 1; 1 0 0 150 100 249
long.json /mapped/dash/five.json/fragment-4-v1.m4s | 4; 1 0 1350000 125 375 499
long.json /mapped/dash/five.json/fragment-5-v1.m4s | refused 40 NoSegment
# A part that has no piece, and a sequence that has none.
- /mapped/dash/hole.json/init-c1-v1.mp4 | refused 46 EmptyPart
- /mapped/dash/hole.json/init-c2-v1.mp4 | init 622
- /mapped/dash/hole.json/fragment-1-v1.m4s | refused 41 EmptySegment
- /mapped/dash/hole.json/fragment-2-v1.m4s | 2; 1 0 900000 250 0 249
- /mapped/dash/none.json/fragment-1-v1.m4s | refused 16 NothingSelected
- /mapped/dash/none.json/init-c1-v1.mp4 | refused 16 NothingSelected
# Mappings that are refused, and cells that are too many, before any film is read.
- /mapped/dash/void.json/fragment-1-v1.m4s | refused 10 NoMapping
- /mapped/dash/wide.json/fragment-1-v1.m4s | refused 11 MappingTooLong
- /mapped/dash/open.json/fragment-1-v1.m4s | refused 12 BadJson
- /mapped/dash/empty.json/fragment-1-v1.m4s | refused 13 BadMapping
- /mapped/dash/gain.json/fragment-1-v1.m4s | refused 14 Unsupported
- /mapped/dash/most.json/fragment-100001-v1.m4s | refused 40 NoSegment
- /mapped/dash/most.json/fragment-100000-v1.m4s | refused 20 NoFile
- /mapped/dash/more.json/fragment-0-v1.m4s | refused 42 TooManySegments
# Audio has 505 bytes and an entry of 75, pictures 509 and one of 113; both have 148, 357 + 75 and 361 + 113.
- /local/dash/two.mp4/init-c1-f1-a1.mp4 | init 580
- /local/dash/two.mp4/init-a1.mp4 | init 580
- /local/dash/av.mp4/init-c1-f1-v1.mp4 | init 622
- /local/dash/av.mp4/init-c1-f1-v1-a1.mp4 | init 1054
- /local/dash/two.mp4/init-c2-f1-a1.mp4 | refused 45 NoPart
- /local/dash/two.mp4/init-c0-f1-a1.mp4 | refused 45 NoPart
- /local/dash/two.mp4/fragment-0-a1.m4s | refused 40 NoSegment
- /local/dash/two.mp4/fragment-2-a1.m4s | refused 40 NoSegment
# The same by the names of HLS, and a stream of one sample of 100 bytes: two packets of tables, and one with the sample.
- /local/hls/a.mp4/seg-1-f1-v1.m4s | 1; 1 0 0 250 0 249
- /mapped/hls/m.json/init-c1-f1-v1.mp4 | init 622
- /local/hls/one.mp4/seg-1-f1-a1.ts | stream 564 117901063
# Five seconds of AVC and five of HEVC in one segment, which a stream can't hold and a fragment can.
- /mapped/hls/mixed.json/seg-1-v1.ts | refused 32 MixedCodecs
- /mapped/dash/mixed.json/fragment-1-v1.m4s | 1; 1 0 0 250 0 10124
# Lists: two parts of which the second has one segment, one of whose files is gone, and audio groups of one and of two.
- /mapped/hls/m.json/index-f1-v1.m3u8 | #EXTM3U;#EXT-X-VERSION:3;#EXT-X-TARGETDURATION:10;#EXT-X-MEDIA-SEQUENCE:1;#EXT-X-PLAYLIST-TYPE:VOD;#EXTINF:10.000,;seg-1-f1-v1.ts;#EXTINF:10.000,;seg-2-f1-v1.ts;#EXT-X-DISCONTINUITY;#EXTINF:5.000,;seg-3-f1-v1.ts;#EXT-X-ENDLIST;
- /mapped/hls/gone.json/index-f1-v1.m3u8 | refused 20 NoFile
- /mapped/hls/group.json/master.m3u8 | #EXTM3U;#EXT-X-MEDIA:TYPE=AUDIO,GROUP-ID="aud",NAME="English",LANGUAGE="eng",DEFAULT=YES,AUTOSELECT=YES,URI="index-f2-a1.m3u8";#EXT-X-STREAM-INF:BANDWIDTH=1064000,RESOLUTION=640x360,CODECS="avc1.42c01e,mp4a.40.2",AUDIO="aud";index-f1-v1.m3u8;
- /mapped/hls/twice.json/master.m3u8 | #EXTM3U;#EXT-X-MEDIA:TYPE=AUDIO,GROUP-ID="aud",NAME="f2 English",LANGUAGE="eng",DEFAULT=YES,AUTOSELECT=YES,URI="index-f2-a1.m3u8";#EXT-X-MEDIA:TYPE=AUDIO,GROUP-ID="aud",NAME="f3 English",LANGUAGE="eng",DEFAULT=NO,AUTOSELECT=YES,URI="index-f3-a1.m3u8";#EXT-X-STREAM-INF:BANDWIDTH=1064000,RESOLUTION=640x360,CODECS="avc1.42c01e,mp4a.40.2",AUDIO="aud";index-f1-v1.m3u8;
# I-frames: a segment of 10 seconds has 10 of them. The eleventh of the film is sample 250.
- /local/hls/a.mp4/iframes-f1-v1.m3u8 | #EXTM3U;#EXT-X-VERSION:4;#EXT-X-TARGETDURATION:1;#EXT-X-MEDIA-SEQUENCE:1;#EXT-X-PLAYLIST-TYPE:VOD;#EXT-X-I-FRAMES-ONLY;#EXTINF:1.000,;iframe-1-1-f1-v1.ts;#EXTINF:1.000,;iframe-1-2-f1-v1.ts;#EXTINF:1.000,;iframe-1-3-f1-v1.ts;#EXTINF:1.000,;iframe-1-4-f1-v1.ts;#EXTINF:1.000,;iframe-1-5-f1-v1.ts;#EXTINF:1.000,;iframe-1-6-f1-v1.ts;#EXTINF:1.000,;iframe-1-7-f1-v1.ts;#EXTINF:1.000,;iframe-1-8-f1-v1.ts;#EXTINF:1.000,;iframe-1-9-f1-v1.ts;#EXTINF:1.000,;iframe-1-10-f1-v1.ts;#EXTINF:1.000,;iframe-2-1-f1-v1.ts;#EXTINF:1.000,;iframe-2-2-f1-v1.ts;#EXTINF:1.000,;iframe-2-3-f1-v1.ts;#EXTINF:1.000,;iframe-2-4-f1-v1.ts;#EXTINF:1.000,;iframe-2-5-f1-v1.ts;#EXTINF:1.000,;iframe-2-6-f1-v1.ts;#EXTINF:1.000,;iframe-2-7-f1-v1.ts;#EXTINF:1.000,;iframe-2-8-f1-v1.ts;#EXTINF:1.000,;iframe-2-9-f1-v1.ts;#EXTINF:1.000,;iframe-2-10-f1-v1.ts;#EXT-X-ENDLIST;
- /local/hls/a.mp4/iframe-2-1-f1-v1.ts | stream 564 250
- /local/hls/a.mp4/iframe-1-11-f1-v1.ts | refused 47 NoIframe
- /local/hls/a.mp4/iframe-3-1-f1-v1.ts | refused 40 NoSegment
- /local/hls/two.mp4/iframes-f1-v1.m3u8 | refused 25 NoTrack
# Clips: of two samples, with 24 bytes of `ftyp`, 636 of `moov`, and 16 and 30 of `mdat`; of two pieces, and of nothing that is selected.
- /local/dash/two.mp4/clip-f1-a1.mp4 | clip 706 660 1970698104
- /local/hls/two.mp4/clip-a1.mp4 | clip 706 660 1970698104
- /mapped/dash/m.json/clip-f1-v1.mp4 | refused 18 ManyPieces
- /local/dash/two.mp4/clip-v1.mp4 | refused 25 NoTrack
- /local/dash/two.mp4/clipFrom/60000/clip-f1-a1.mp4 | refused 17 EmptyClip
# Names that aren't spelled as they are printed, and settings that are empty or aren't there.
- /local/hls/a.mp4/seg-01-f1-a1.ts | refused 4 BadPath
- /local/hls/a.mp4/index-f1-a1-v1.m3u8 | refused 4 BadPath
blank.json /local/dash/a.mp4/fragment-1-a1.m4s | refused 6 BadSettings
absent.json /local/dash/a.mp4/fragment-1-a1.m4s | refused 20 NoFile
# An edit list whose media time is -2.
- /local/dash/broken.mp4/fragment-1-a1.m4s | refused 24 BadTable
"#;

// Runs the words of each row of a table, behind the first words, and compares what is told of it with what is due.
fn check_rows(
    rt: &impl Abort,
    alloc: Global,
    first: MemStore,
    words: &str,
    rows: &str,
) -> Result<MemStore, Fail> {
    let mut store = first;
    for row in rows.lines() {
        if !row.is_empty() && !row.starts_with('#') {
            let (rest, due) = row.split_once(" | ").ok_or("a row without an answer")?;
            let asked = format!(in alloc; "{words}{rest}")?;
            let it = ran(alloc, asked.as_str(), store)?;
            let text = told(alloc, it.status, &it.body, &it.line)?;
            assert_eq!(rt; text.as_str(), due, "at {words}{rest}");
            store = it.store;
        }
    }
    Ok(store)
}

#[test]
fn words_and_requests_are_answered_by_their_rows(rt: HostRuntime) -> Result<(), Fail> {
    let alloc = rt.alloc();
    let store = check_rows(&rt, alloc, films(alloc)?, "", WORDS)?;
    let store = check_rows(&rt, alloc, store, "get /r ", ROWS)?;
    check_rows(&rt, alloc, store, "plan /r ", PLANS)?;
    Ok(())
}
