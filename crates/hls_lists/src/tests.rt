use super::*;
use std::test::Fail;
use vod_types::{Asked, SegmentRow};

#[test]
fn lists_are_printed(rt: HostRuntime) -> Result<(), Fail> {
    let rows = [SegmentRow {
        number: 1,
        start: 0,
        length: 900_900,
        first_in_part: true,
        part: 1,
    }];
    let video = Asked {
        video: Some(1),
        audio: None,
    };
    let text = media(rt.alloc(), &rows, 1, video, false)?;
    assert_eq!(rt;
        text.as_slice(),
        b"#EXTM3U\n#EXT-X-VERSION:3\n#EXT-X-TARGETDURATION:10\n#EXT-X-MEDIA-SEQUENCE:1\n#EXT-X-PLAYLIST-TYPE:VOD\n#EXTINF:10.010,\nseg-1-f1-v1.ts\n#EXT-X-ENDLIST\n".as_slice()
    );

    let variants = [Variant {
        sequence: 1,
        asked: Asked {
            video: None,
            audio: Some(1),
        },
        bandwidth: 5625,
        size: None,
        video: None,
        aac: Some(2),
    }];
    let text = master(rt.alloc(), &variants, &[])?;
    assert_eq!(rt;
        text.as_slice(),
        b"#EXTM3U\n#EXT-X-STREAM-INF:BANDWIDTH=5625,CODECS=\"mp4a.40.2\"\nindex-f1-a1.m3u8\n".as_slice()
    );
    Ok(())
}
