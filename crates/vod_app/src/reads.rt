//! The command `reads`.

ghost use Rattle.std.specs.Prelude.{◌≡◌, ◌≢◌, ◌≤◌, ◌++◌, ◌⊎◌, IfErr, IfOk, IfSome, OnOk, string_bytes};
ghost use Rattle.list_model.specs.Command.{door_failed, no_memory, read_line, reads_text as reads_text_of, sink_failed, store_failed, usage};
ghost use Rattle.vod_source.specs.Causes.{Rose};
ghost use Rattle.vod_source.specs.Logs.{reads_of};
ghost use Rattle.origin_model.specs.Outcomes.{setup_with};
ghost use Rattle.vod_app.specs.Commands.{requested};
ghost use Rattle.vod_app.specs.Runs.{outcome_of};
ghost use Rattle.vod_app.specs.ReadsRuns.{IsLogged, IsReads, AreReadsWritten, WritesReads};

use crate::answers::write_answer;
use crate::ends::End;
use crate::nowhere::Nowhere;
use crate::plans::push_number;
use crate::serves::Done;
use crate::settings::read_named;
use crate::watched::{Base, Watched};
use crate::words::Request;
use std::alloc::{AllocError, Global};
use std::marker::Brand;
use std::string::String;
use vod_source::{Lent, Logged, Sink, Store};
use vod_types::Settings;

/// Writes a line for each read that the answer of a path makes: the file's name, the place and the number of bytes. The body
/// isn't written, and the reads of the settings aren't either. Where the request is refused the reads made so far are written.
///
/// The store comes back.
pub fn reads<S: Store, K: Sink>(
    alloc: Global,
    request: Request<'_>,
    store: S,
    out: &mut K,
) -> Done<S>
    ensures reads { IfSome (S.content store) (λ files. IsReads files (requested request.entry) (outcome_of result.end) (K.written out.old) (K.written out.new)) }
    ensures form { outcome_of result.end ≢ usage }
    ensures door { outcome_of result.end ≢ door_failed }
    ensures content { S.content result.store ≡ S.content store }
    ensures kept { K.kept out.new ≡ K.kept out.old }
    ensures store_later { S.faults store ≤ S.faults result.store }
    ensures out_later { K.faults out.old ≤ K.faults out.new }
    ensures store_failed { outcome_of result.end ≡ store_failed → Rose (S.faults store) (S.faults result.store) }
    ensures sink_failed { outcome_of result.end ≡ sink_failed → Rose (K.faults out.old) (K.faults out.new) }
{
    let mut store = store;
    match read_named(alloc, &mut store, request.settings) {
        Ok(settings) => reads_with(alloc, settings, request, store, out),
        Err(refusal) => Done {
            end: End::refused(refusal),
            store,
        },
    }
}

// Writes the reads of a path with these settings.
fn reads_with<S: Store, K: Sink>(
    alloc: Global,
    settings: Settings,
    request: Request<'_>,
    store: S,
    out: &mut K,
) -> Done<S>
    ensures reads { IfSome (S.content store) (λ files. AreReadsWritten (setup_with files (requested request.entry) settings) (requested request.entry).path
        (outcome_of result.end) (K.written out.old) (K.written out.new)) }
    ensures form { outcome_of result.end ≢ usage }
    ensures door { outcome_of result.end ≢ door_failed }
    ensures content { S.content result.store ≡ S.content store }
    ensures kept { K.kept out.new ≡ K.kept out.old }
    ensures store_later { S.faults store ≤ S.faults result.store }
    ensures out_later { K.faults out.old ≤ K.faults out.new }
    ensures store_failed { outcome_of result.end ≡ store_failed → Rose (S.faults store) (S.faults result.store) }
    ensures sink_failed { outcome_of result.end ≡ sink_failed → Rose (K.faults out.old) (K.faults out.new) }
{
    match answer_logged::<S, Brand>(alloc, settings, request, store) {
        Ok((end, logged)) => {
            let end = put_reads(alloc, &logged, end, out);
            Done {
                end,
                store: logged.into_inner(),
            }
        }
        Err(store) => Done {
            end: End::NoMemory,
            store,
        },
    }
}

// Asks for the answer of a path over a log, and how that ends; or the store comes back for want of memory.
fn answer_logged<S: Store, B: Base>(
    alloc: Global,
    settings: Settings,
    request: Request<'_>,
    store: S,
) -> Result<(End, Logged<S>), S>
    requires base { B.faults ≡ S.faults store }
    ensures logged { IfSome (S.content store) (λ files. IfOk result (λ ran. IsLogged (setup_with files (requested request.entry) settings) (requested request.entry).path
        (outcome_of ran.0) (reads_of ran.1.names ran.1.entries))) }
    ensures form { IfOk result (λ ran. (outcome_of ran.0 ≢ usage) × (outcome_of ran.0 ≢ sink_failed) × (outcome_of ran.0 ≢ door_failed)) }
    ensures content { IfOk result (λ ran. S.content ran.1.inner ≡ S.content store) }
    ensures later { IfOk result (λ ran. S.faults store ≤ S.faults ran.1.inner) }
    ensures store_failed { IfOk result (λ ran. outcome_of ran.0 ≡ store_failed → Rose (S.faults store) (S.faults ran.1.inner)) }
    ensures back { IfErr result (λ same. same ≡ store) }
{
    let watched = Watched::<S, B>::new(alloc, store)?;
    let path = request.path.as_bytes();
    let mut nowhere = Nowhere;
    let ran = write_answer(alloc, watched, settings, request.root, path, &mut nowhere);
    let Done { end, store } = ran;
    let logged = store.into_logged();
    let end = end_of(end, logged.refused());
    Ok((end, logged))
}

// The end of a request, where memory was wanting for its log so often.
fn end_of(end: End, refused: u64) -> End
    ensures ends { (outcome_of result ≡ outcome_of end) ⊎ (outcome_of result ≡ no_memory) }
    ensures store { outcome_of result ≡ store_failed → (outcome_of end ≡ store_failed) × (refused ≡ 0) }
{
    if refused > 0 {
        return End::NoMemory;
    }
    end
}

// Writes the lines of a log in one call, for a request that ended so.
fn put_reads<S: Store, K: Sink>(alloc: Global, logged: &Logged<S>, end: End, out: &mut K) -> End
    requires form { (outcome_of end ≢ usage) × (outcome_of end ≢ sink_failed) × (outcome_of end ≢ door_failed) }
    ensures wrote { WritesReads (reads_of logged.now.names logged.now.entries) (outcome_of end) (outcome_of result) (K.written out.old) (K.written out.new) }
    ensures form { outcome_of result ≢ usage }
    ensures door { outcome_of result ≢ door_failed }
    ensures store { outcome_of result ≡ store_failed → outcome_of end ≡ store_failed }
    ensures kept { K.kept out.new ≡ K.kept out.old }
    ensures later { K.faults out.old ≤ K.faults out.new }
    ensures sink_failed { outcome_of result ≡ sink_failed → Rose (K.faults out.old) (K.faults out.new) }
{
    match reads_text(alloc, logged) {
        Ok(text) => match out.put(text.as_bytes()) {
            Ok(()) => end,
            Err(_) => End::SinkFailed,
        },
        Err(_) => End::NoMemory,
    }
}

// The lines of a log.
fn reads_text<S: Store>(alloc: Global, logged: &Logged<S>) -> Result<String, AllocError>
    ensures { IfOk result (λ text. string_bytes text ≡ reads_text_of (reads_of logged.now.names logged.now.entries)) }
{
    let mut text = String::new(alloc);
    for entry in logged.entries() {
        push_read(&mut text, logged.name(entry.name), *entry)?;
    }
    Ok(text)
}

// Appends the line of a read of this file.
fn push_read(text: &mut String, name: &str, lent: Lent) -> Result<(), AllocError>
    ensures { OnOk result (string_bytes text.new ≡ string_bytes text.old ++ read_line (name.now, lent.at, lent.n)) }
{
    text.push_str(name)?;
    text.push_str(" ")?;
    push_number(text, lent.at, " ")?;
    push_number(text, lent.n, "\n")
}
