//! Whole packagings of films in memory: the names of each are worked out by hand, and stand there with what `get` answers.

use std::alloc::Global;
use std::test::Fail;
use vod_films::{films, ran};
use vod_source::MemStore;

// Rows of settings and path, the names that are due, and the line that tells the end. A name that is refused has its refusal.
const PACKS: &str = r"
# Two samples in one segment.
- /local/hls/two.mp4/master.m3u8 | master.m3u8;index-f1-a1.m3u8;seg-1-f1-a1.ts |
# 20 seconds of pictures, with audio and as fragments.
- /local/hls/av.mp4/master.m3u8 | master.m3u8;index-f1-v1-a1.m3u8;seg-1-f1-v1-a1.ts;seg-2-f1-v1-a1.ts |
fmp4.json /local/hls/a.mp4/master.m3u8 | master.m3u8;index-f1-v1.m3u8;init-c1-f1-v1.mp4;seg-1-f1-v1.m4s;seg-2-f1-v1.m4s |
# The first part has no piece, so no initialization segment of it is named.
fmp4.json /mapped/hls/hole.json/master.m3u8 | master.m3u8;index-f1-v1.m3u8;init-c2-f1-v1.mp4;seg-2-f1-v1.m4s |
# A stream can't hold AVC and HEVC.
- /mapped/hls/mixed.json/master.m3u8 | master.m3u8;index-f1-v1.m3u8;seg-1-f1-v1.ts refused 32 MixedCodecs |
# The master playlist looks at the first file alone, and the media playlist at the second too, which isn't there.
- /mapped/hls/gone.json/master.m3u8 | master.m3u8 | refused 20 NoFile
- /mapped/hls/none.json/master.m3u8 | | refused 16 NothingSelected
# A description, the initialization segments of a track and then its fragments, video first.
- /local/dash/two.mp4/manifest.mpd | manifest.mpd;init-c1-f1-a1.mp4;fragment-1-f1-a1.m4s |
- /mapped/dash/m.json/manifest.mpd | manifest.mpd;init-c1-f1-v1.mp4;init-c2-f1-v1.mp4;fragment-1-f1-v1.m4s;fragment-2-f1-v1.m4s;fragment-3-f1-v1.m4s |
- /mapped/dash/gone.json/manifest.mpd | | refused 20 NoFile
# A path of another kind.
- /local/dash/a.mp4/clip-f1-v1.mp4 | | refused 4 BadPath
";

// What is put of names of a folder: a line with the length of each answer, and the answer.
fn put(
    alloc: Global,
    first: MemStore,
    settings: &str,
    folder: &str,
    names: &str,
) -> Result<(Vec<u8>, MemStore), Fail> {
    let mut store = first;
    let mut text = Vec::new(alloc);
    for name in names.split(';') {
        if name.contains(" refused ") {
            text.extend_from_slice(name.as_bytes())?;
            text.push(b'\n')?;
        } else if !name.is_empty() {
            let words = format!(in alloc; "get /r {settings} {folder}/{name}")?;
            let it = ran(alloc, words.as_str(), store)?;
            let line = format!(in alloc; "{name} {}\n", it.body.len())?;
            text.extend_from_slice(line.as_bytes())?;
            text.extend_from_slice(&it.body)?;
            store = it.store;
        }
    }
    Ok((text, store))
}

#[test]
fn packagings_have_the_names_of_their_lists(rt: HostRuntime) -> Result<(), Fail> {
    let alloc = rt.alloc();
    let mut store = films(alloc)?;
    for row in PACKS.lines() {
        if !row.is_empty() && !row.starts_with('#') {
            let (words, due) = row.split_once(" | ").ok_or("a row without names")?;
            let (names, line) = due.split_once('|').ok_or("a row without an end")?;
            let (settings, path) = words.split_once(' ').ok_or("a row without a path")?;
            let (folder, _) = path.rsplit_once('/').ok_or("a path of one name")?;
            let (text, back) = put(alloc, store, settings, folder, names.trim())?;
            let asked = format!(in alloc; "pack /r {words}")?;
            let it = ran(alloc, asked.as_str(), back)?;
            assert!(rt; it.body.as_slice() == text.as_slice(), "at {words}");
            assert_eq!(rt; str::from_utf8(&it.line)?.trim(), line.trim(), "at {words}");
            store = it.store;
        }
    }
    Ok(())
}
