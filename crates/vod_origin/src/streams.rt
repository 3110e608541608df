//! Transport streams that are written sample by sample.

ghost use Rattle.std.specs.Prelude.{◌≡◌, ◌≤◌, ◌+◌, ◌^◌, ◌<◌, length, IfSome, IsTrue};
ghost use Rattle.vod_source.specs.Causes.{Rose};
ghost use Rattle.vod_plan.specs.Planned.{plan_rows};
ghost use Rattle.ts_writer.specs.Conditions.{is_under_way};
ghost use Rattle.vod_origin.specs.Begun.{IsStreamReply};
ghost use Rattle.vod_origin.specs.Bodies.{IsStreamOf};
ghost use Rattle.vod_origin.specs.Reads.{LogsStep, reads_left};
ghost use Rattle.vod_origin.specs.Steps.{Steps};

use crate::cursor::{Cursor, MadeBody, StreamBody};
use mp4_flat::FlatBody;
use std::alloc::Global;
use ts_writer::TsSegment;
use vod_http::Reply;
use vod_plan::Plan;
use vod_source::{Sink, Step, Store};
use vod_types::{Asked, Kind, Media, Refusal, Rows};

/// The reply with a stream of asked tracks, with room for the greatest sample, and for a head alone with none. The only
/// refusal is `NoMemory`.
pub(crate) fn stream_reply(
    alloc: Global,
    asked: Asked,
    plan: Plan,
    head_only: bool,
) -> Reply<Cursor>
    ensures { IsStreamReply head_only asked plan result }
{
    if head_only {
        return stream_of(no_body(alloc));
    }
    // No plan has so many rows: they are at most 200,000 of each kind.
    if !has_few_rows(&plan) {
        return Reply::Refused(Refusal::NoMemory);
    }
    match TsSegment::new(alloc, plan.largest(), asked, plan.hevc()) {
        Ok(writing) => stream_of(Cursor::Stream(StreamBody { plan, writing })),
        Err(_) => Reply::Refused(Refusal::NoMemory),
    }
}

// The reply with a stream that a cursor stands for.
fn stream_of(cursor: Cursor) -> Reply<Cursor>
    ensures { result ≡ Reply.Body Media.Ts None None cursor }
{
    Reply::Body {
        kind: Media::Ts,
        length: None,
        part: None,
        cursor,
    }
}

// What stands for a stream of which the head alone is asked for. It takes no memory.
fn no_body(alloc: Global) -> Cursor {
    Cursor::Made(MadeBody {
        body: FlatBody {
            bytes: Vec::new(alloc),
            cut: None,
        },
        in_packets: true,
        waits: false,
    })
}

// Whether the calls that write the rows of a plan are fewer than 2^32.
fn has_few_rows(plan: &Plan) -> bool
    ensures { IsTrue result → length (plan_rows plan.now).video + length (plan_rows plan.now).audio + 1 < 2 ^ 32 }
{
    let rows = u64::from(plan.count(Kind::Video)) + u64::from(plan.count(Kind::Audio));
    rows < u64::from(u32::MAX)
}

impl StreamBody {
    /// Writes the tables, or the next sample.
    pub(crate) fn next<S: Store, K: Sink>(&mut self, store: &mut S, sink: &mut K) -> Step
        requires under_way { IsTrue (is_under_way self.old.writing.progress) }
        requires of { IsStreamOf (S.content store.old) self.old }
        ensures steps { Steps (S.content store.old) (Cursor.Stream self.old) (Cursor.Stream self.new) (K.written sink.old) (K.written sink.new) result }
        ensures reads { IfSome (S.content store.old) (λ files. LogsStep result (reads_left files (Cursor.Stream self.old)) (reads_left files (Cursor.Stream self.new))
            (S.log store.old) (S.log store.new)) }
        ensures content { S.content store.new ≡ S.content store.old }
        ensures kept { K.kept sink.new ≡ K.kept sink.old }
        ensures later { S.faults store.old ≤ S.faults store.new }
        ensures sink_later { K.faults sink.old ≤ K.faults sink.new }
        ensures store_failed { result ≡ Step.StoreFailed → Rose (S.faults store.old) (S.faults store.new) }
        ensures sink_failed { result ≡ Step.SinkFailed → Rose (K.faults sink.old) (K.faults sink.new) }
    {
        self.writing.next(&mut self.plan, store, sink)
    }
}
