//! The command `plan`.

ghost use Rattle.std.specs.Prelude.{◌≡◌, ◌≢◌, ◌≤◌, ◌++◌, [], None, IfOk, IfSome, OnOk, map, string_bytes};
ghost use Rattle.list_model.specs.Command.{door_failed, no_memory, plan_line, plan_text, sink_failed, store_failed, usage};
ghost use Rattle.vod_source.specs.Causes.{Rose};
ghost use Rattle.origin_model.specs.Outcomes.{GainsDue};
ghost use Rattle.segment_model.specs.Listing.{listed_view};
ghost use Rattle.vod_app.specs.Commands.{requested};
ghost use Rattle.vod_app.specs.Runs.{outcome_of, IsPlan, IsPlanWritten};

use crate::ends::End;
use crate::serves::Done;
use crate::settings::read_named;
use crate::words::Request;
use itoa::{Buffer, Integer};
use std::alloc::{AllocError, Global};
use std::string::String;
use vod_origin::Origin;
use vod_source::{Sink, Store};
use vod_types::{Listed, Name, Settings};

/// Writes the listed segments of a media playlist's path, whatever its form, which are found by seeks: a line for each with its number,
/// its start and its length in 1/90000 s, and its numbers of video and of audio samples. Nothing is written where it is refused.
///
/// The store comes back.
pub fn plan<S: Store, K: Sink>(
    alloc: Global,
    request: Request<'_>,
    mut store: S,
    out: &mut K,
) -> Done<S>
    ensures planned { IfSome (S.content store) (λ files. IsPlan files (requested request.entry) (outcome_of result.end)
        (K.written out.old) (K.written out.new) (S.log store) (S.log result.store)) }
    ensures form { outcome_of result.end ≢ usage }
    ensures door { outcome_of result.end ≢ door_failed }
    ensures content { S.content result.store ≡ S.content store }
    ensures kept { K.kept out.new ≡ K.kept out.old }
    ensures store_later { S.faults store ≤ S.faults result.store }
    ensures out_later { K.faults out.old ≤ K.faults out.new }
    ensures store_failed { outcome_of result.end ≡ store_failed → Rose (S.faults store) (S.faults result.store) }
    ensures sink_failed { outcome_of result.end ≡ sink_failed → Rose (K.faults out.old) (K.faults out.new) }
{
    match read_named(alloc, &mut store, request.settings) {
        Ok(settings) => plan_with(
            alloc,
            store,
            settings,
            request.root,
            request.path.as_bytes(),
            out,
        ),
        Err(refusal) => Done {
            end: End::refused(refusal),
            store,
        },
    }
}

// Writes the listed segments of a path with these settings, through an origin of its own.
fn plan_with<S: Store, K: Sink>(
    alloc: Global,
    store: S,
    settings: Settings,
    root: &str,
    path: &[u8],
    out: &mut K,
) -> Done<S>
    ensures planned { IfSome (S.content store) (λ files. IsPlanWritten (record { settings = settings; root = root.now; files = files }) path.now
        (outcome_of result.end) (K.written out.old) (K.written out.new) (S.log store) (S.log result.store)) }
    ensures form { outcome_of result.end ≢ usage }
    ensures door { outcome_of result.end ≢ door_failed }
    ensures content { S.content result.store ≡ S.content store }
    ensures kept { K.kept out.new ≡ K.kept out.old }
    ensures store_later { S.faults store ≤ S.faults result.store }
    ensures out_later { K.faults out.old ≤ K.faults out.new }
    ensures store_failed { outcome_of result.end ≡ store_failed → Rose (S.faults store) (S.faults result.store) }
    ensures sink_failed { outcome_of result.end ≡ sink_failed → Rose (K.faults out.old) (K.faults out.new) }
{
    let Ok(root) = Name::new(alloc, root) else {
        return Done {
            end: End::NoMemory,
            store,
        };
    };
    let mut origin = Origin::new(store, settings, root);
    let end = plan_through(alloc, &mut origin, path, out);
    Done {
        end,
        store: origin.into_store(),
    }
}

// Writes the listed segments of a path through an origin that keeps no movie.
fn plan_through<S: Store, K: Sink>(
    alloc: Global,
    origin: &mut Origin<S>,
    path: &[u8],
    out: &mut K,
) -> End
    requires new { origin.old.cache ≡ [] }
    ensures planned { IfSome (S.content origin.old.store) (λ files. IsPlanWritten (record { settings = origin.old.settings; root = origin.old.root; files = files }) path.now
        (outcome_of result) (K.written out.old) (K.written out.new) (S.log origin.old.store) (S.log origin.new.store)) }
    ensures form { outcome_of result ≢ usage }
    ensures door { outcome_of result ≢ door_failed }
    ensures content { S.content origin.new.store ≡ S.content origin.old.store }
    ensures kept { K.kept out.new ≡ K.kept out.old }
    ensures store_later { S.faults origin.old.store ≤ S.faults origin.new.store }
    ensures out_later { K.faults out.old ≤ K.faults out.new }
    ensures store_failed { outcome_of result ≡ store_failed → Rose (S.faults origin.old.store) (S.faults origin.new.store) }
    ensures sink_failed { outcome_of result ≡ sink_failed → Rose (K.faults out.old) (K.faults out.new) }
{
    match origin.listed(alloc, path) {
        Ok(rows) => put_plan(alloc, &rows, out),
        Err(refusal) => End::refused(refusal),
    }
}

/// Writes a line for each listed segment, in one call.
pub fn put_plan<K: Sink>(alloc: Global, rows: &[Listed], out: &mut K) -> End
    ensures wrote { GainsDue (plan_text (map listed_view rows.now), None) (outcome_of result) (K.written out.old) (K.written out.new) }
    ensures form { outcome_of result ≢ usage }
    ensures door { outcome_of result ≢ door_failed }
    ensures store { outcome_of result ≢ store_failed }
    ensures kept { K.kept out.new ≡ K.kept out.old }
    ensures later { K.faults out.old ≤ K.faults out.new }
    ensures sink_failed { outcome_of result ≡ sink_failed → Rose (K.faults out.old) (K.faults out.new) }
{
    match plan_text(alloc, rows) {
        Ok(text) => put_text(&text, out),
        Err(_) => End::NoMemory,
    }
}

/// Writes a text in one call.
pub fn put_text<K: Sink>(text: &str, out: &mut K) -> End
    ensures wrote { GainsDue (text.now, None) (outcome_of result) (K.written out.old) (K.written out.new) }
    ensures form { outcome_of result ≢ usage }
    ensures door { outcome_of result ≢ door_failed }
    ensures store { outcome_of result ≢ store_failed }
    ensures memory { outcome_of result ≢ no_memory }
    ensures kept { K.kept out.new ≡ K.kept out.old }
    ensures later { K.faults out.old ≤ K.faults out.new }
    ensures sink_failed { outcome_of result ≡ sink_failed → Rose (K.faults out.old) (K.faults out.new) }
{
    match out.put(text.as_bytes()) {
        Ok(()) => End::Done,
        Err(_) => End::SinkFailed,
    }
}

// The lines of listed segments.
fn plan_text(alloc: Global, rows: &[Listed]) -> Result<String, AllocError>
    ensures { IfOk result (λ text. string_bytes text ≡ plan_text (map listed_view rows.now)) }
{
    let mut text = String::new(alloc);
    for row in rows {
        push_line(&mut text, row)?;
    }
    Ok(text)
}

// Appends the line of a listed segment.
fn push_line(text: &mut String, listed: &Listed) -> Result<(), AllocError>
    ensures { OnOk result (string_bytes text.new ≡ string_bytes text.old ++ plan_line (listed_view listed.now)) }
{
    push_number(text, listed.row.number, " ")?;
    push_number(text, listed.row.start, " ")?;
    push_number(text, listed.row.length, " ")?;
    push_number(text, listed.video, " ")?;
    push_number(text, listed.audio, "\n")
}

/// Appends a number in decimal, and what ends it.
pub fn push_number<I: Integer>(text: &mut String, n: I, end: &str) -> Result<(), AllocError>
    ensures { OnOk result (string_bytes text.new ≡ string_bytes text.old ++ I.text n ++ end.now) }
{
    let mut digits = Buffer::new();
    text.push_str(digits.format(n))?;
    text.push_str(end)
}
