//! Fragments that are written sample by sample.

ghost use Rattle.std.specs.Prelude.{◌≡◌, ◌≤◌, ◌+◌, IfSome, IsTrue};
ghost use Rattle.media_model.specs.Fragment.{sizes};
ghost use Rattle.vod_source.specs.Causes.{Rose};
ghost use Rattle.vod_plan.specs.Planned.{plan_rows};
ghost use Rattle.fmp4_writer.specs.Progress.{is_under_way};
ghost use Rattle.vod_origin.specs.Begun.{IsFragmentReply};
ghost use Rattle.vod_origin.specs.Bodies.{IsFragmentOf};
ghost use Rattle.vod_origin.specs.Reads.{LogsStep, reads_left};
ghost use Rattle.vod_origin.specs.Steps.{Steps};

use crate::cursor::{Cursor, FragmentBody};
use crate::media::mp4_media;
use fmp4_writer::{Fragment, fragment_size};
use vod_http::Reply;
use vod_plan::Plan;
use vod_source::{Sink, Step, Store};
use vod_types::Asked;

/// The reply with the fragment of a number and asked tracks.
pub(crate) fn fragment_reply(number: u32, asked: Asked, plan: Plan) -> Reply<Cursor>
    requires { plan.bytes ≤ 2130706432 }
    ensures { IsFragmentReply number asked plan result }
{
    let length = fragment_size(&plan, plan.bytes());
    Reply::Body {
        kind: mp4_media(asked),
        length: Some(length),
        part: None,
        cursor: Cursor::Fragment(FragmentBody {
            plan,
            writing: Fragment::new(number),
        }),
    }
}

impl FragmentBody {
    /// Writes the front part, or the next sample.
    pub(crate) fn next<S: Store, K: Sink>(&mut self, store: &mut S, sink: &mut K) -> Step
        requires under_way { IsTrue (is_under_way self.old.writing) }
        requires of { IsFragmentOf (S.content store.old) self.old }
        ensures steps { Steps (S.content store.old) (Cursor.Fragment self.old) (Cursor.Fragment self.new) (K.written sink.old) (K.written sink.new) result }
        ensures reads { IfSome (S.content store.old) (λ files. LogsStep result (reads_left files (Cursor.Fragment self.old)) (reads_left files (Cursor.Fragment self.new))
            (S.log store.old) (S.log store.new)) }
        ensures content { S.content store.new ≡ S.content store.old }
        ensures kept { K.kept sink.new ≡ K.kept sink.old }
        ensures later { S.faults store.old ≤ S.faults store.new }
        ensures sink_later { K.faults sink.old ≤ K.faults sink.new }
        ensures store_failed { result ≡ Step.StoreFailed → Rose (S.faults store.old) (S.faults store.new) }
        ensures sink_failed { result ≡ Step.SinkFailed → Rose (K.faults sink.old) (K.faults sink.new) }
    {
        self.writing.next(&mut self.plan, store, sink)
    }
}
