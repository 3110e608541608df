//! Plans of films in memory, worked out by hand.

use std::alloc::Global;
use std::string::String;
use std::test::Fail;
use vod_films::{aac, avc, film, ran, store_of, track};
use vod_types::Kind;

/// Rows of settings, path and what is due: a refusal, or the lines of the plan, each with a semicolon in place of its line feed. A
/// line has the number of a segment, its start and its length in 1/90000 s, and its numbers of video and of audio samples.
pub(crate) const PLANS: &str = r"
# A picture has 3600 units. Sync samples are 0 and 625, so cell 1 lasts up to 625 * 3600 = 2250000, where cells 2 and 3
# begin; cells 4 and 5 begin at the end, 1250 * 3600 = 4500000.
align.json /local/hls/keys.mp4/index-f1-v1.m3u8 | 1 0 2250000 625 0;3 2250000 2250000 625 0;
# Without `align` five cells of 900000 units, which are 250 pictures.
- /local/hls/keys.mp4/index-f1-v1.m3u8 | 1 0 900000 250 0;2 900000 900000 250 0;3 1800000 900000 250 0;4 2700000 900000 250 0;5 3600000 900000 250 0;
# 300 pictures of 3003 units end at 900900, and none begins at 900000 or later.
- /local/hls/ntsc.mp4/index-f1-v1.m3u8 | 1 0 900900 300 0;
# Two samples of 60 seconds: cells 2 to 7 begin at the second one, and cells 8 to 12 at the end.
- /local/hls/slow.mp4/index-f1-a1.m3u8 | 1 0 5400000 0 1;7 5400000 5400000 0 1;
# A sample has 1920 units: 469 are 900480, the 62 of the third line 119040, and 1000 are 1920000.
- /local/hls/aac.mp4/index-a1.m3u8 | 1 0 900480 0 469;2 900480 900480 0 469;3 1800960 119040 0 62;
# floor(n * 92160000 / 44100) is 900702 for n = 431, 1801404 for 862, and 1880816 for 900.
- /local/hls/cd.mp4/index-a1.m3u8 | 1 0 900702 0 431;2 900702 900702 0 431;3 1801404 79412 0 38;
# Pictures end at 500 * 3600 = 1800000. Sample 469 of audio is the first at 900000 or later, and all 531 from it on belong to
# the last segment.
- /local/hls/av.mp4/index-f1-v1-a1.m3u8 | 1 0 900000 250 469;2 900000 900000 250 531;
- /local/hls/av.mp4/index-f1-v1.m3u8 | 1 0 900000 250 0;2 900000 900000 250 0;
- /local/hls/av.mp4/index-f1-a1.m3u8 | 1 0 900480 0 469;2 900480 900480 0 469;3 1800960 119040 0 62;
# The second audio track: 100 * 1920 = 192000. With the pictures it is over before the second segment.
- /local/hls/av.mp4/tracks/a2/index-a1.m3u8 | 1 0 192000 0 100;
- /local/hls/av.mp4/tracks/v1-a2/index-v1-a1.m3u8 | 1 0 900000 250 100;2 900000 900000 250 0;
# From 5 to 12 seconds: pictures 125 to 299, 175 * 3600 = 630000, and samples 235 to 562 of audio.
- /local/hls/av.mp4/clipFrom/5000/clipTo/12000/index-v1-a1.m3u8 | 1 0 630000 175 328;
# The film ends before the clip begins, so there is no cell.
- /local/hls/av.mp4/clipFrom/30000/index-v1.m3u8 | nothing
# Three pictures that are shown out of order, in decoding order from 0 to 3 * 3600.
- /local/hls/order.mp4/index-v1-a1.m3u8 | 1 0 10800 3 2;
# 13 seconds in cells that begin at 0, 2 and 6 seconds.
start.json /local/hls/odd.mp4/index-v1.m3u8 | 1 0 180000 50 0;2 180000 360000 100 0;3 540000 630000 175 0;
# 5 seconds in cells of 2 seconds: the last is short, or it is joined to the one before. In cells of 4 seconds less than half
# a cell is left, which is joined to the first.
short.json /local/hls/b.mp4/index-v1.m3u8 | 1 0 180000 50 0;2 180000 180000 50 0;3 360000 90000 25 0;
long.json /local/hls/b.mp4/index-v1.m3u8 | 1 0 180000 50 0;2 180000 270000 75 0;
far.json /local/hls/b.mp4/index-v1.m3u8 | 1 0 450000 125 0;
# The second of two files by one path.
- /local/hls/,a,b,.mp4.urlset/index-f2-v1.m3u8 | 1 0 450000 125 0;
# A mapping with a segment duration of its own: 125 pictures are 450000.
long.json /mapped/hls/five.json/index-v1.m3u8 | 1 0 450000 125 0;2 450000 450000 125 0;3 900000 450000 125 0;4 1350000 450000 125 0;
# Two clips of 20 seconds, of which the second has 5 seconds of pictures: its cell 4 is empty.
- /mapped/hls/m.json/index-f1-v1.m3u8 | 1 0 900000 250 0;2 900000 900000 250 0;3 1800000 450000 125 0;
# Each part begins with cells of 2 and of 4 seconds, so its cells begin at 0, 2, 6 and 16 seconds. The second part has cells
# 5 to 8, and its 125 pictures are 50 and 75.
start.json /mapped/hls/m.json/index-f1-v1.m3u8 | 1 0 180000 50 0;2 180000 360000 100 0;3 540000 900000 250 0;4 1440000 360000 100 0;5 1800000 180000 50 0;6 1980000 270000 75 0;
# The same clips in one part: cells begin at 0, 2, 6, 16, 26 and 36 seconds, and the fourth has 100 pictures of the first
# file and all of the second, which end at 25 seconds.
start.json /mapped/hls/joined.json/index-v1.m3u8 | 1 0 180000 50 0;2 180000 360000 100 0;3 540000 900000 250 0;4 1440000 810000 225 0;
# From 15 to 25 seconds of that: 125 pictures of the first file, and then 125 of the second.
- /mapped/hls/joined.json/clipFrom/15000/clipTo/25000/index-v1.m3u8 | 1 0 900000 250 0;
# The first second of two files isn't shown: picture 50 is the first sync sample, at 180000 - 90000, and the rest of both
# files is 75 + 125 pictures, 200 * 3600 = 720000.
- /mapped/hls/concat.json/index-f1-v1.m3u8 | 1 90000 720000 200 0;
# A part that has no piece keeps its number, and a sequence that has none is refused.
- /mapped/hls/hole.json/index-v1.m3u8 | 2 900000 900000 250 0;
- /mapped/hls/none.json/index-v1.m3u8 | refused 16 NothingSelected
# Each file of the sequence is needed.
- /mapped/hls/gone.json/index-f1-v1.m3u8 | refused 20 NoFile
# 100,000 cells of 1 ms, and one more, before any film is read. A film of 120 seconds is cut after it is read.
- /mapped/hls/most.json/index-v1.m3u8 | refused 20 NoFile
- /mapped/hls/more.json/index-v1.m3u8 | refused 42 TooManySegments
tiny.json /local/hls/slow.mp4/index-a1.m3u8 | refused 42 TooManySegments
- /local/hls/ages.mp4/index-a1.m3u8 | refused 31 TrackTooLong
- /local/hls/a.mp4/index-f2-v1.m3u8 | refused 15 NoSequence
- /local/hls/a.mp4/index-a1.m3u8 | refused 25 NoTrack
bad.json /local/hls/a.mp4/index-v1.m3u8 | refused 6 BadSettings
# Other leaves, and an `index`, which DASH doesn't have.
- /local/hls/a.mp4/master.m3u8 | refused 4 BadPath
- /local/hls/a.mp4/seg-1-f1-v1.ts | refused 4 BadPath
- /local/dash/a.mp4/fragment-1-f1-v1.m4s | refused 4 BadPath
- /local/dash/a.mp4/index-f1-v1.m3u8 | refused 4 BadPath
# A file of the path, and one of settings, that aren't there.
- /local/hls/gone.mp4/index-v1-a1.m3u8 | refused 20 NoFile
absent.json /local/hls/a.mp4/index-v1.m3u8 | refused 20 NoFile
# 469 samples that wait a second: sample i stands at 90000 + 1920 * i, so the 422nd is the first at 900000 or later, and they end
# at 990480.
- /local/hls/wait.mp4/index-a1.m3u8 | 1 90000 810240 0 422;2 900240 90240 0 47;
";

// An hour of 25 pictures a second, of which each 50th is a sync sample, and of audio at 48000: 168750 * 1024 = 3600 * 48000.
fn hour(alloc: Global) -> Result<Vec<u8>, Fail> {
    let video = track(alloc, Kind::Video, avc(90_000, 0, 50))?;
    let audio = track(alloc, Kind::Audio, aac(168_750, 0))?;
    film(alloc, vec![in alloc; video, audio]?)
}

// The plan of an hour: cells of 250 pictures and of 900000 / 1920 = 468.75 samples of audio. Cell k, from 0, has those from
// ceil(468.75 * k) on, so three of four cells have 469, and each fourth has 468.
fn hour_plan(alloc: Global) -> Result<String, Fail> {
    let mut text = String::new(alloc);
    for k in 0u32..360 {
        let audio = if k % 4 == 3 { 468 } else { 469 };
        let start = 900_000 * k;
        let line = format!(in alloc; "{} {start} 900000 250 {audio}\n", k + 1)?;
        text.push_str(line.as_str())?;
    }
    Ok(text)
}

// The sums of the numbers of pictures and of audio samples of a plan.
fn counts(plan: &str) -> Result<(u64, u64), Fail> {
    let mut video = 0u64;
    let mut audio = 0u64;
    for line in plan.lines() {
        let (rest, last) = line.rsplit_once(' ').ok_or("a line of one word")?;
        let (_, fourth) = rest.rsplit_once(' ').ok_or("a line of two words")?;
        video = video.saturating_add(fourth.parse()?);
        audio = audio.saturating_add(last.parse()?);
    }
    Ok((video, audio))
}

#[test]
fn hour_has_a_line_for_each_ten_seconds(rt: HostRuntime) -> Result<(), Fail> {
    let alloc = rt.alloc();
    let store = store_of(alloc, "/r/hour.mp4", hour(alloc)?, Vec::new(alloc))?;
    let words = "plan /r - /local/hls/hour.mp4/index-f1-v1-a1.m3u8";
    let it = ran(alloc, words, store)?;
    assert_eq!(rt; it.status, 0);
    let plan = str::from_utf8(&it.body)?;
    assert!(rt; plan.starts_with("1 0 900000 250 469\n2 900000 900000 250 469\n"));
    // The last segment ends at 323100000 + 900000 = 324000000, an hour.
    assert!(rt; plan.ends_with("\n360 323100000 900000 250 468\n"));
    assert_eq!(rt; counts(plan)?, (90_000, 168_750));
    assert_eq!(rt; plan, hour_plan(alloc)?.as_str());
    Ok(())
}
