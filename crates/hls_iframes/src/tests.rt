use super::*;
use std::test::Fail;
use vod_types::{Asked, CodecName, IframeRow};

#[test]
fn iframes_are_listed(rt: HostRuntime) -> Result<(), Fail> {
    let first = IframeRow {
        number: 1,
        index: 1,
        start: 0,
        length: 90_000,
        first_in_part: true,
        part: 1,
    };
    let second = IframeRow {
        index: 2,
        start: 90_000,
        first_in_part: false,
        ..first
    };
    let text = iframes(rt.alloc(), &[first, second], 1, 1)?;
    assert_eq!(rt;
        text.as_slice(),
        b"#EXTM3U\n#EXT-X-VERSION:4\n#EXT-X-TARGETDURATION:1\n#EXT-X-MEDIA-SEQUENCE:1\n#EXT-X-PLAYLIST-TYPE:VOD\n#EXT-X-I-FRAMES-ONLY\n#EXTINF:1.000,\niframe-1-1-f1-v1.ts\n#EXTINF:1.000,\niframe-1-2-f1-v1.ts\n#EXT-X-ENDLIST\n".as_slice()
    );

    let mut video = CodecName::new();
    video.push(b"avc1.42c01e");
    let variants = [Variant {
        sequence: 1,
        asked: Asked {
            video: Some(1),
            audio: None,
        },
        bandwidth: 100_000,
        size: Some((640, 360)),
        video: Some(video),
        aac: None,
    }];
    let text = master_lines(rt.alloc(), &variants)?;
    assert_eq!(rt;
        text.as_slice(),
        b"#EXT-X-I-FRAME-STREAM-INF:BANDWIDTH=100000,RESOLUTION=640x360,CODECS=\"avc1.42c01e\",URI=\"iframes-f1-v1.m3u8\"\n".as_slice()
    );
    Ok(())
}
