//! Bodies that are made whole.

ghost use Rattle.std.specs.Prelude.{◌≡◌, ◌≢◌, ◌≤◌, false, true, IsTrue, None, Option};
ghost use Rattle.vod_source.specs.Causes.{Rose};
ghost use Rattle.vod_source.specs.Stored.{Files};
ghost use Rattle.list_model.specs.Reply.{leaf_media, told_length};
ghost use Rattle.mp4_flat.specs.Flat.{is_stream};
ghost use Rattle.flat_segments.specs.Bodies.{IsInPackets};
ghost use Rattle.vod_origin.specs.Begun.{IsBegun};
ghost use Rattle.vod_origin.specs.Steps.{Steps};

use crate::cursor::{Cursor, MadeBody};
use crate::media::media_of;
use mp4_flat::FlatBody;
use vod_http::Reply;
use vod_source::{Sink, Step};
use vod_types::{Form, Leaf};

/// The reply with the body of a leaf.
pub(crate) fn begun(leaf: Leaf, body: FlatBody) -> Reply<Cursor>
    requires { is_stream leaf ≡ true → IsInPackets body }
    ensures { IsBegun leaf body result }
{
    let in_packets = is_stream(leaf);
    let length = if in_packets {
        None
    } else {
        Some(body.bytes.len() as u64)
    };
    Reply::Body {
        kind: media_of(leaf),
        length,
        part: None,
        cursor: Cursor::Made(MadeBody {
            body,
            in_packets,
            waits: true,
        }),
    }
}

// Whether a leaf's body is a transport stream.
fn is_stream(leaf: Leaf) -> bool
    ensures { result ≡ is_stream leaf }
{
    matches!(
        leaf,
        Leaf::Segment { form: Form::Ts, .. } | Leaf::Iframe { .. }
    )
}

impl MadeBody {
    /// Writes all of it.
    pub(crate) fn next<K: Sink>(&mut self, sink: &mut K) -> Step
        requires { IsTrue self.old.waits }
        ensures steps { (content : Option Files) → Steps content (Cursor.Made self.old) (Cursor.Made self.new) (K.written sink.old) (K.written sink.new) result }
        ensures kept { K.kept sink.new ≡ K.kept sink.old }
        ensures later { K.faults sink.old ≤ K.faults sink.new }
        ensures store { result ≢ Step.StoreFailed }
        ensures failed { result ≡ Step.SinkFailed → Rose (K.faults sink.old) (K.faults sink.new) }
    {
        self.waits = false;
        if sink.put(&self.body.bytes).is_err() {
            return Step::SinkFailed;
        }
        match self.body.cut {
            Some((file, sample)) => Step::BadNal { file, sample },
            None => Step::Whole,
        }
    }
}
