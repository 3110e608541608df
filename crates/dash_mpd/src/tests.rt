use super::*;
use std::test::Fail;
use vod_types::{Kind, SegmentRow};

// A period of one audio representation with one segment.
const TEXT: &[u8] = b"\
    <?xml version=\"1.0\" encoding=\"UTF-8\"?>\n\
    <MPD xmlns=\"urn:mpeg:dash:schema:mpd:2011\" type=\"static\" mediaPresentationDuration=\"PT0.043S\" minBufferTime=\"PT10.000S\" profiles=\"urn:mpeg:dash:profile:full:2011\">\n\
    <Period id=\"1\" start=\"PT0.000S\" duration=\"PT0.043S\">\n\
    <AdaptationSet mimeType=\"audio/mp4\">\n\
    <Representation id=\"f1-a1\" bandwidth=\"5625\" codecs=\"mp4a.40.2\" audioSamplingRate=\"48000\">\n\
    <SegmentList timescale=\"90000\" presentationTimeOffset=\"0\">\n\
    <Initialization sourceURL=\"init-c1-f1-a1.mp4\"/>\n\
    <SegmentTimeline>\n\
    <S t=\"0\" d=\"3840\"/>\n\
    </SegmentTimeline>\n\
    <SegmentURL media=\"fragment-1-f1-a1.m4s\"/>\n\
    </SegmentList>\n\
    </Representation>\n\
    </AdaptationSet>\n\
    </Period>\n\
    </MPD>\n";

#[test]
fn a_period_is_described(rt: HostRuntime) -> Result<(), Fail> {
    let alloc = rt.alloc();
    let row = SegmentRow {
        number: 1,
        start: 0,
        length: 3840,
        first_in_part: true,
        part: 1,
    };
    let rep = Rep {
        sequence: 1,
        kind: Kind::Audio,
        bandwidth: 5625,
        size: (0, 0),
        video: None,
        aac: 2,
        rate: 48_000,
        language: None,
        rows: RowList::new(vec![in alloc; row]?),
    };
    let periods = [Period {
        part: 1,
        start: 0,
        length_ms: 43,
        reps: Reps::new(vec![in alloc; rep]?),
    }];
    let text = mpd(alloc, 10_000, &periods)?;
    assert_eq!(rt; text.len(), 657);
    assert_eq!(rt; text.as_slice(), TEXT);
    Ok(())
}
