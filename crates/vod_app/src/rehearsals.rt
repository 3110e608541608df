//! The command `rehearse`.

ghost use Rattle.std.specs.Prelude.{◌≡◌, ◌≢◌, ◌+◌, ◌≤◌, ◌<◌, ◌++◌, ◌^◌, ◌⊎◌, ℕ, List, IsTrue, IfErr, IfOk, IfSome, Some, None, OnOk, codes, decimal, length, map, string_bytes, sum_by, option_map};
ghost use Rattle.std.specs.Result.{result_map_both};
ghost use Rattle.vod_types.specs.declared.refusal.Refusal.TheVariants.{NoMemory, StoreFailed};
ghost use Rattle.segment_model.specs.Listing.{listed_view};
ghost use Rattle.list_model.specs.Command.{door_failed, no_memory, refused, rehearsal_line as rehearsal_line_of, sink_failed, store_failed, usage};
ghost use Rattle.vod_session.specs.Calls.{AreAnswers};
ghost use Rattle.vod_session.specs.Steps.{Answers};
ghost use Rattle.vod_source.specs.Causes.{Rose};
ghost use Rattle.origin_model.specs.Answers.{answer};
ghost use Rattle.rehearsal_laws.specs.Films.{rehearsal_settings, rehearsal_setup, IsFilm};
ghost use Rattle.vod_app.specs.Rehearsals.{answer_length, answered_media, front_bytes, listed_samples, segment_path as segment_path_of, AreListedRows, IsRehearsed, IsUnrefused, TellsLine};
ghost use Rattle.vod_app.specs.Runs.{outcome_of};

use crate::ends::End;
use crate::plans::{push_number, put_text};
use mp4_flat::{Listed, PackEnd, listed, pack};
use std::alloc::{AllocError, Global};
use std::string::String;
use vod_gen::numbered;
use vod_http::{Answerer, Reply};
use vod_origin::Origin;
use vod_source::{MemStore, Sink, Step, VecSink};
use vod_types::{Name, Refusal, Settings};

/// The folder of the film and of its mapping.
const ROOT: &str = "/r";

/// The media playlist whose segments are counted, and the lists whose packagings are walked.
const PLAYLIST: &[u8] = b"/mapped/hls/m.json/index-f1-v1-a1.m3u8";

const MASTER: &[u8] = b"/mapped/hls/m.json/master.m3u8";

const MANIFEST: &[u8] = b"/mapped/dash/m.json/manifest.mpd";

/// Builds the film and the mapping of a number in memory, packs them by the plain way, asks one origin for each listed
/// segment alone, and writes one line: how many segments are listed, how many samples they have, and how many bytes of media.
///
/// It asks nothing of any other store. No number's film is refused.
pub fn rehearse<K: Sink>(alloc: Global, n: u32, out: &mut K) -> End
    ensures rehearsed { IsRehearsed n (outcome_of result) (K.written out.old) (K.written out.new) }
    ensures unrefused { IsUnrefused (outcome_of result) }
    ensures form { outcome_of result ≢ usage }
    ensures door { outcome_of result ≢ door_failed }
    ensures store { outcome_of result ≢ store_failed }
    ensures kept { K.kept out.new ≡ K.kept out.old }
    ensures out_later { K.faults out.old ≤ K.faults out.new }
    ensures sink_failed { outcome_of result ≡ sink_failed → Rose (K.faults out.old) (K.faults out.new) }
{
    match rehearsal(alloc, n) {
        Ok(text) => put_text(&text, out),
        Err(refusal) => refused(refusal),
    }
}

// The end where the film is refused. Its store is memory of this run, so a failure of that is want of memory.
fn refused(refusal: Refusal) -> End
    ensures outcome { (outcome_of result ≡ no_memory) ⊎ ((outcome_of result ≡ refused refusal) × (refusal ≢ NoMemory) × (refusal ≢ StoreFailed)) }
{
    match refusal {
        Refusal::NoMemory | Refusal::StoreFailed => End::NoMemory,
        refusal => End::Refused(refusal),
    }
}

// The line of a number.
fn rehearsal(alloc: Global, n: u32) -> Result<String, Refusal>
    ensures { TellsLine string_bytes n result }
{
    let mut store = match film(alloc, n) {
        Ok(store) => store,
        Err(refusal) => return Err(refusal),
    };
    let settings = settings(alloc);
    match listed_rows(alloc, &mut store, &settings) {
        Ok(rows) => counted(alloc, n, store, settings, &rows),
        Err(refusal) => Err(refusal),
    }
}

// The listed segments of the film, after both of its packagings were walked.
fn listed_rows(
    alloc: Global,
    store: &mut MemStore,
    settings: &Settings,
) -> Result<Vec<Listed>, Refusal>
    requires settings { settings.now ≡ rehearsal_settings }
    ensures rows { AreListedRows store.old.files (result_map_both (λ rows. rows.items) (λ refusal. refusal) result) }
    ensures files { store.new.files ≡ store.old.files }
{
    match walk_packaging(alloc, store, settings, MASTER) {
        Ok(()) => {}
        Err(refusal) => return Err(refusal),
    }
    match walk_packaging(alloc, store, settings, MANIFEST) {
        Ok(()) => {}
        Err(refusal) => return Err(refusal),
    }
    listed(alloc, store, settings, ROOT, PLAYLIST)
}

// The line of a number whose film has these listed segments, each of which is asked for alone.
fn counted(
    alloc: Global,
    n: u32,
    store: MemStore,
    settings: Settings,
    rows: &[Listed],
) -> Result<String, Refusal>
    requires settings { settings ≡ rehearsal_settings }
    requires few { length rows.now < 2 ^ 63 }
    ensures line { IfOk result (λ text. string_bytes text ≡ rehearsal_line_of n (length rows.now) (sum_by listed_samples (map listed_view rows.now))
        (sum_by (answered_media (answer (rehearsal_setup store.files))) (map listed_view rows.now))) }
    ensures only { IfErr result (λ refusal. refusal ≡ NoMemory) }
{
    let root = match Name::new(alloc, ROOT) {
        Ok(root) => root,
        Err(refusal) => return Err(refusal),
    };
    let mut origin = Origin::new(store, settings, root);
    let media = media_of(alloc, &mut origin, rows);
    let _store = origin.into_store();
    let media = match media {
        Ok(media) => media,
        Err(refusal) => return Err(refusal),
    };
    match rehearsal_line(alloc, n, rows.len(), samples_of(rows), media) {
        Ok(line) => Ok(line),
        Err(_) => Err(Refusal::NoMemory),
    }
}

// The film and the mapping of a number, as a store of these two files.
fn film(alloc: Global, n: u32) -> Result<MemStore, Refusal>
    ensures film { IfOk result (λ store. IsFilm n store.files) }
    ensures only { IfErr result (λ refusal. refusal ≡ NoMemory) }
{
    let (movie, mapping) = match numbered(alloc, n) {
        Ok(made) => made,
        Err(_) => return Err(Refusal::NoMemory),
    };
    let files = vec![in alloc;
        (Name::new(alloc, "/r/m.mp4")?, movie),
        (Name::new(alloc, "/r/m.json")?, mapping),
    ]?;
    Ok(MemStore::new(files, Vec::new(alloc)))
}

// Segments of two seconds, and defaults.
fn settings(alloc: Global) -> Settings
    ensures { result ≡ rehearsal_settings }
{
    let mut settings = Settings::defaults(alloc);
    settings.segment_ms = 2000;
    settings
}

// Walks the whole packaging of a path by the plain way, and drops what it puts. The only refusal is `NoMemory`.
fn walk_packaging(
    alloc: Global,
    store: &mut MemStore,
    settings: &Settings,
    path: &[u8],
) -> Result<(), Refusal>
    ensures files { store.new.files ≡ store.old.files }
    ensures only { IfErr result (λ refusal. refusal ≡ NoMemory) }
{
    let mut sink = VecSink::new(Vec::new(alloc));
    match pack(alloc, store, settings, ROOT, path, &mut sink) {
        PackEnd::Refused(Refusal::NoMemory | Refusal::StoreFailed) | PackEnd::SinkFailed => {
            Err(Refusal::NoMemory)
        }
        PackEnd::Refused(_) | PackEnd::Whole => Ok(()),
    }
}

// How many samples listed segments have.
fn samples_of(rows: &[Listed]) -> u128
    requires few { length rows.now < 2 ^ 63 }
    ensures samples { result ≡ sum_by listed_samples (map listed_view rows.now) }
{
    let mut samples = 0;
    for row in rows {
        samples += u128::from(row.video) + u128::from(row.audio);
    }
    samples
}

// How many bytes of media the fragments of listed segments have, each of which is asked for alone.
fn media_of<A: Answerer>(alloc: Global, a: &mut A, rows: &[Listed]) -> Result<u128, Refusal>
    ensures media { IfOk result (λ media. (answers : Answers) → AreAnswers (A.answer (A.kept a.old)) answers →
        media ≡ sum_by (answered_media answers) (map listed_view rows.now)) }
    ensures only { IfErr result (λ refusal. refusal ≡ NoMemory) }
{
    let mut media = 0;
    for row in rows {
        media += u128::from(segment_media(alloc, a, row)?);
    }
    Ok(media)
}

// How many bytes of media the fragment of a listed segment has: its length without its boxes.
fn segment_media<A: Answerer>(alloc: Global, a: &mut A, row: &Listed) -> Result<u64, Refusal>
    ensures media { IfOk result (λ media. (answers : Answers) → AreAnswers (A.answer (A.kept a.old)) answers →
        media ≡ answered_media answers (listed_view row.now)) }
    ensures kept { A.kept a.new ≡ A.kept a.old }
    ensures only { IfErr result (λ refusal. refusal ≡ NoMemory) }
{
    let path = segment_path(alloc, row.row.number)?;
    let length = length_of(alloc, a, &path)?;
    Ok(u128::from(length as u64).saturating_sub(front_of(row)) as u64)
}

// How many bytes of a fragment aren't media: the boxes take 56 bytes, 64 for each track that has samples, and 16 for each
// sample.
fn front_of(row: &Listed) -> u128
    ensures { result ≡ front_bytes (listed_view row.now) }
{
    let tracks = u128::from(row.video > 0) + u128::from(row.audio > 0);
    56 + 64 * tracks + 16 * (u128::from(row.video) + u128::from(row.audio))
}

// The path of the fragment of a number.
fn segment_path(alloc: Global, number: u32) -> Result<String, AllocError>
    ensures { IfOk result (λ path. string_bytes path ≡ segment_path_of number) }
{
    let mut path = String::new(alloc);
    path.push_str("/mapped/hls/m.json/seg-")?;
    push_number(&mut path, number, "-f1-v1-a1.m4s")?;
    Ok(path)
}

// How many bytes the answer to a path has: none where it is refused.
fn length_of<A: Answerer>(alloc: Global, a: &mut A, path: &str) -> Result<usize, Refusal>
    ensures length { IfOk result (λ n. (answers : Answers) → AreAnswers (A.answer (A.kept a.old)) answers → n ≡ answer_length (answers path.now None)) }
    ensures kept { A.kept a.new ≡ A.kept a.old }
    ensures only { IfErr result (λ refusal. refusal ≡ NoMemory) }
{
    match a.begin(alloc, path.as_bytes(), false, None) {
        Reply::Body { cursor, .. } => walk(alloc, a, cursor),
        Reply::Refused(Refusal::NoMemory | Refusal::StoreFailed) => Err(Refusal::NoMemory),
        Reply::Refused(_) => Ok(0),
    }
}

// Goes through a body to its end, and how many bytes it had.
fn walk<A: Answerer>(alloc: Global, a: &mut A, mut cursor: A::Cursor) -> Result<usize, Refusal>
    requires belongs { A.belongs (A.kept a.old) cursor }
    requires under_way { IsTrue (A.under_way cursor) }
    ensures length { IfOk result (λ n. IfSome (A.rest (A.kept a.old) cursor) (λ rest. n ≡ length rest.0)) }
    ensures kept { A.kept a.new ≡ A.kept a.old }
    ensures only { IfErr result (λ refusal. refusal ≡ NoMemory) }
{
    let mut sink = VecSink::new(Vec::new(alloc));
    'steps: loop {
        match a.more(&mut cursor, &mut sink) {
            Step::Again => {}
            Step::Whole | Step::BadNal { .. } => return Ok(sink.bytes().len()),
            Step::StoreFailed | Step::SinkFailed => return Err(Refusal::NoMemory),
        }
    }
}

// The line of a rehearsal.
fn rehearsal_line(
    alloc: Global,
    n: u32,
    segments: usize,
    samples: u128,
    media: u128,
) -> Result<String, AllocError>
    ensures { IfOk result (λ text. string_bytes text ≡ rehearsal_line_of n segments samples media) }
{
    let mut text = String::new(alloc);
    text.push_str("rehearse ")?;
    push_number(&mut text, n, " segments ")?;
    push_number(&mut text, segments, " samples ")?;
    push_number(&mut text, samples, " media ")?;
    push_number(&mut text, media, "\n")?;
    Ok(text)
}
