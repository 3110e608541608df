//! The media types of bodies.

ghost use Rattle.std.specs.Prelude.{◌≡◌};
ghost use Rattle.list_model.specs.Reply.{leaf_media, mp4_media};

use vod_types::{Asked, Form, Leaf, Media};

/// The media type of a leaf's body.
pub(crate) fn media_of(leaf: Leaf) -> Media
    ensures { result ≡ leaf_media leaf }
{
    match leaf {
        Leaf::Master | Leaf::Index { .. } | Leaf::Iframes { .. } => Media::Hls,
        Leaf::Mpd => Media::Dash,
        Leaf::Init { asked, .. } | Leaf::Clip { asked, .. } => mp4_media(asked),
        Leaf::Segment { asked, form, .. } => match form {
            Form::Ts => Media::Ts,
            Form::Fmp4 => mp4_media(asked),
        },
        Leaf::Iframe { .. } => Media::Ts,
    }
}

/// MP4 is audio where no video is asked.
pub(crate) fn mp4_media(asked: Asked) -> Media
    ensures { result ≡ mp4_media asked }
{
    match asked.video {
        Some(_) => Media::VideoMp4,
        None => Media::AudioMp4,
    }
}
