//! The answer of a path, through an origin of its own.

ghost use Rattle.std.specs.Prelude.{◌≡◌, ◌≢◌, ◌≤◌, [], IfSome, IsTrue};
ghost use Rattle.list_model.specs.Command.{door_failed, no_memory, sink_failed, store_failed, usage};
ghost use Rattle.vod_source.specs.Causes.{Rose};
ghost use Rattle.origin_model.specs.Outcomes.{GainsDue, GainsReads};
ghost use Rattle.vod_origin.specs.Bodies.{is_under_way, rest_with, IsBodyOf};
ghost use Rattle.vod_origin.specs.Reads.{reads_left};
ghost use Rattle.vod_app.specs.Runs.{due_rest, outcome_of, IsAnswerWritten};

use crate::ends::End;
use crate::serves::Done;
use std::alloc::Global;
use vod_http::Reply;
use vod_origin::{Cursor, Origin};
use vod_source::{Sink, Step, Store};
use vod_types::{Name, Refusal, Settings};

/// Writes the answer of a path sample by sample, through an origin that keeps no movie before it. All memory is taken before the first
/// byte is written.
///
/// The store comes back.
pub fn write_answer<S: Store, K: Sink>(
    alloc: Global,
    store: S,
    settings: Settings,
    root: &str,
    path: &[u8],
    out: &mut K,
) -> Done<S>
    ensures wrote { IfSome (S.content store) (λ files. IsAnswerWritten (record { settings = settings; root = root.now; files = files }) path.now
        (outcome_of result.end) (K.written out.old) (K.written out.new) (S.log store) (S.log result.store)) }
    ensures memory { outcome_of result.end ≡ no_memory → out.new ≡ out.old }
    ensures form { outcome_of result.end ≢ usage }
    ensures door { outcome_of result.end ≢ door_failed }
    ensures content { S.content result.store ≡ S.content store }
    ensures kept { K.kept out.new ≡ K.kept out.old }
    ensures store_later { S.faults store ≤ S.faults result.store }
    ensures out_later { K.faults out.old ≤ K.faults out.new }
    ensures store_failed { outcome_of result.end ≡ store_failed → Rose (S.faults store) (S.faults result.store) }
    ensures sink_failed { outcome_of result.end ≡ sink_failed → Rose (K.faults out.old) (K.faults out.new) }
{
    let Ok(root) = Name::new(alloc, root) else {
        return Done {
            end: End::NoMemory,
            store,
        };
    };
    let mut origin = Origin::new(store, settings, root);
    let end = write_through(alloc, &mut origin, path, out);
    Done {
        end,
        store: origin.into_store(),
    }
}

// Writes the answer of a path through an origin that keeps no movie.
fn write_through<S: Store, K: Sink>(
    alloc: Global,
    origin: &mut Origin<S>,
    path: &[u8],
    out: &mut K,
) -> End
    requires new { origin.old.cache ≡ [] }
    ensures wrote { IfSome (S.content origin.old.store) (λ files. IsAnswerWritten (record { settings = origin.old.settings; root = origin.old.root; files = files }) path.now
        (outcome_of result) (K.written out.old) (K.written out.new) (S.log origin.old.store) (S.log origin.new.store)) }
    ensures memory { outcome_of result ≡ no_memory → out.new ≡ out.old }
    ensures form { outcome_of result ≢ usage }
    ensures door { outcome_of result ≢ door_failed }
    ensures content { S.content origin.new.store ≡ S.content origin.old.store }
    ensures kept { K.kept out.new ≡ K.kept out.old }
    ensures store_later { S.faults origin.old.store ≤ S.faults origin.new.store }
    ensures out_later { K.faults out.old ≤ K.faults out.new }
    ensures store_failed { outcome_of result ≡ store_failed → Rose (S.faults origin.old.store) (S.faults origin.new.store) }
    ensures sink_failed { outcome_of result ≡ sink_failed → Rose (K.faults out.old) (K.faults out.new) }
{
    match origin.reply(alloc, path, false, None) {
        Reply::Body { cursor, .. } => write_body(origin, cursor, out),
        Reply::Refused(refusal) => End::refused(refusal),
    }
}

// Writes what is left of a body. It takes no memory.
fn write_body<S: Store, K: Sink>(origin: &mut Origin<S>, cursor: Cursor, out: &mut K) -> End
    requires belongs { IsBodyOf (S.content origin.old.store) cursor }
    requires under_way { IsTrue (is_under_way cursor) }
    ensures wrote { IfSome (S.content origin.old.store) (λ files. GainsDue (due_rest (rest_with files cursor)) (outcome_of result) (K.written out.old) (K.written out.new)) }
    ensures read { IfSome (S.content origin.old.store) (λ files. GainsReads (reads_left files cursor) (outcome_of result) (S.log origin.old.store) (S.log origin.new.store)) }
    ensures memory { outcome_of result ≢ no_memory }
    ensures form { outcome_of result ≢ usage }
    ensures door { outcome_of result ≢ door_failed }
    ensures content { S.content origin.new.store ≡ S.content origin.old.store }
    ensures kept { K.kept out.new ≡ K.kept out.old }
    ensures store_later { S.faults origin.old.store ≤ S.faults origin.new.store }
    ensures out_later { K.faults out.old ≤ K.faults out.new }
    ensures store_failed { outcome_of result ≡ store_failed → Rose (S.faults origin.old.store) (S.faults origin.new.store) }
    ensures sink_failed { outcome_of result ≡ sink_failed → Rose (K.faults out.old) (K.faults out.new) }
{
    let mut left = cursor;
    'steps: loop {
        match origin.step(&mut left, out) {
            Step::Again => {}
            Step::Whole => return End::Done,
            Step::BadNal { file, sample } => {
                return End::Refused(Refusal::BadNal { file, sample });
            }
            Step::StoreFailed => return End::StoreFailed,
            Step::SinkFailed => return End::SinkFailed,
        }
    }
}
