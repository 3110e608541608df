//! What goes the fast way.

ghost use Rattle.std.specs.Prelude.{◌≡◌, false, IfSome, None};
ghost use Rattle.vod_origin.specs.Wanted.{asked_of, form_of, is_wanted, leaf_of, number_of};

use vod_types::{Asked, Form, Leaf};

/// What of a sequence is written by a plan: a segment of asked tracks in a form, or of the transport stream of a video track
/// one I-frame alone, by its index from 1 in the segment.
#[derive(Clone, Copy, Debug)]
pub enum Wanted {
    Segment {
        number: u32,
        asked: Asked,
        form: Form,
    },
    Iframe {
        number: u32,
        index: u32,
        video: u8,
    },
}

impl Wanted {
    /// The number of the segment.
    pub(crate) fn number(self) -> u32
        ensures { result ≡ number_of self }
    {
        match self {
            Wanted::Segment { number, .. } | Wanted::Iframe { number, .. } => number,
        }
    }

    /// The asked tracks.
    pub(crate) fn asked(self) -> Asked
        ensures { result ≡ asked_of self }
    {
        match self {
            Wanted::Segment { asked, .. } => asked,
            Wanted::Iframe { video, .. } => Asked {
                video: Some(video),
                audio: None,
            },
        }
    }

    /// The form in which it is written.
    pub(crate) fn form(self) -> Form
        ensures { result ≡ form_of self }
    {
        match self {
            Wanted::Segment { form, .. } => form,
            Wanted::Iframe { .. } => Form::Ts,
        }
    }
}

/// What a leaf wants of a sequence that goes the fast way, if it does, with the sequence's number from 1.
pub(crate) fn wanted_of(leaf: Leaf) -> Option<(u32, Wanted)>
    ensures wanted { IfSome result (λ w. leaf ≡ leaf_of w.0 w.1) }
    ensures none { result ≡ None → is_wanted leaf ≡ false }
{
    match leaf {
        Leaf::Segment {
            number,
            sequence,
            asked,
            form,
        } => Some((
            sequence,
            Wanted::Segment {
                number,
                asked,
                form,
            },
        )),
        Leaf::Iframe {
            number,
            index,
            sequence,
            video,
        } => Some((
            sequence,
            Wanted::Iframe {
                number,
                index,
                video,
            },
        )),
        Leaf::Master
        | Leaf::Mpd
        | Leaf::Index { .. }
        | Leaf::Init { .. }
        | Leaf::Iframes { .. }
        | Leaf::Clip { .. } => None,
    }
}
