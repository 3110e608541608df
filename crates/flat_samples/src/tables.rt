//! The sample tables of a track, written out: lists with one element for each sample.

ghost use Rattle.std.specs.Prelude.{◌≡◌, ◌+◌, ◌<◌, ◌^◌, ◌++◌, ◌||◌, ◌==◌, ℕ, [], false, IfOk, IfErr, OnOk, IfSome, Some, All, map, length, replicate, slice_get, slice_index, slice_index_or, unwrap_or};
ghost use Rattle.std.specs.List.{range_with_len, list_any};
ghost use Rattle.vod_types.specs.declared.refusal.Refusal.TheVariants.{NoMemory};
ghost use Rattle.mp4_model.specs.Samples as model;
ghost use Rattle.mp4_tables.specs.Views.{stss_entries, stsc_entries, tables_of};
ghost use Rattle.mp4_tracks.specs.Views.{good_of};
ghost use Rattle.flat_samples.specs.Checks.{IsSound};
ghost use Rattle.flat_samples.specs.Written.{IsWrittenOut, AreChunks, IsSyncNumber, HasSample, flat_view, row_of};

use mp4_tables::{Stsc, Stss};
use mp4_tracks::{Tables, TrackView};
use std::alloc::Global;
use std::sync::ledger::Ledger;
use vod_types::{Refusal, Steps};

/// The tables of a track: of each sample its size in bytes, its offset in the file, its decode time delta and its composition
/// offset in the track's timescale, and whether it is a sync sample.
#[derive(Debug, Drop)]
pub(crate) struct WrittenTables {
    pub(crate) sizes: Vec<u32>,
    pub(crate) offsets: Vec<u128>,
    pub(crate) deltas: Vec<u32>,
    pub(crate) composition_offsets: Vec<i64>,
    pub(crate) syncs: Vec<bool>,
}

/// A sample of a file, with its times in the timescale of its track.
#[derive(Clone, Copy, Debug)]
pub(crate) struct FileSample {
    pub(crate) offset: u128,
    pub(crate) size: u32,
    pub(crate) decode_time: u128,
    pub(crate) delta: u32,
    pub(crate) composition_offset: i64,
    pub(crate) sync: bool,
}

impl WrittenTables {
    /// Writes out the tables of a track, by one look at each entry.
    pub(crate) fn new<L: Ledger>(
        alloc: Global,
        track: &TrackView<'_>,
        steps: &mut Steps<L>,
    ) -> Result<Self, Refusal>
        requires sound { IsSound (good_of track.now) }
        requires samples { track.now.samples ≡ model.sample_count (tables_of track.now.tables) }
        ensures lists { IfOk result (IsWrittenOut (tables_of track.now.tables)) }
        ensures only { IfErr result (λ refusal. refusal ≡ NoMemory) }
    {
        let tables = &track.tables;
        let sizes = sizes(alloc, tables, steps)?;
        let offsets = offsets(alloc, tables, &sizes, steps)?;
        let deltas = deltas(alloc, tables, steps)?;
        let composition_offsets = composition_offsets(alloc, tables, track.samples, steps)?;
        let syncs = syncs(alloc, tables, track.samples, steps)?;
        Ok(WrittenTables {
            sizes,
            offsets,
            deltas,
            composition_offsets,
            syncs,
        })
    }

    /// Sample `number`, counted from 0, which is decoded at `decode_time`.
    pub(crate) fn sample(&self, number: u32, decode_time: u128) -> FileSample
        requires { HasSample self.now number }
        ensures { flat_view result ≡ row_of self.now number decode_time }
    {
        let i = number as usize;
        FileSample {
            offset: self.offsets[i],
            size: self.sizes[i],
            decode_time,
            delta: self.deltas[i],
            composition_offset: self.composition_offsets[i],
            sync: self.syncs[i],
        }
    }
}

/// Puts a value at the end, `count` times.
fn push_run<T: Copy + Drop>(list: &mut Vec<T>, count: u64, value: T) -> Result<(), Refusal>
    ensures items { OnOk result (list.new.items ≡ list.old.items ++ replicate count value) }
    ensures only { IfErr result (λ refusal. refusal ≡ NoMemory) }
{
    for _i in 0..count {
        list.push(value)?;
    }
    Ok(())
}

/// The sizes of the samples, in bytes.
fn sizes<L: Ledger>(
    alloc: Global,
    tables: &Tables<'_>,
    steps: &mut Steps<L>,
) -> Result<Vec<u32>, Refusal>
    ensures sizes { IfOk result (λ list. list.items ≡ model.sample_sizes (tables_of tables.now)) }
    ensures only { IfErr result (λ refusal. refusal ≡ NoMemory) }
{
    let mut list = Vec::new(alloc);
    let Some(table) = tables.stsz else {
        return Ok(list);
    };
    for i in 0..table.len() {
        list.push(table.entry(i, steps))?;
    }
    Ok(list)
}

/// The decode time deltas of the samples, in the track's timescale.
fn deltas<L: Ledger>(
    alloc: Global,
    tables: &Tables<'_>,
    steps: &mut Steps<L>,
) -> Result<Vec<u32>, Refusal>
    ensures deltas { IfOk result (λ list. list.items ≡ model.sample_deltas (tables_of tables.now)) }
    ensures only { IfErr result (λ refusal. refusal ≡ NoMemory) }
{
    let mut list = Vec::new(alloc);
    let Some(table) = tables.stts else {
        return Ok(list);
    };
    for i in 0..table.len() {
        let (count, delta) = table.entry(i, steps);
        push_run(&mut list, u64::from(count), delta)?;
    }
    Ok(list)
}

/// The composition offsets of the samples, in the track's timescale; all 0 where there is no table of them.
fn composition_offsets<L: Ledger>(
    alloc: Global,
    tables: &Tables<'_>,
    samples: u32,
    steps: &mut Steps<L>,
) -> Result<Vec<i64>, Refusal>
    requires { samples ≡ model.sample_count (tables_of tables.now) }
    ensures offsets { IfOk result (λ list. list.items ≡ model.composition_offsets (tables_of tables.now)) }
    ensures only { IfErr result (λ refusal. refusal ≡ NoMemory) }
{
    let mut list = Vec::new(alloc);
    let Some(table) = tables.ctts else {
        push_run(&mut list, u64::from(samples), 0)?;
        return Ok(list);
    };
    for i in 0..table.len() {
        let (count, offset) = table.entry(i, steps);
        push_run(&mut list, u64::from(count), offset)?;
    }
    Ok(list)
}

/// The offsets of the chunks in the file.
fn chunk_offsets<L: Ledger>(
    alloc: Global,
    tables: &Tables<'_>,
    steps: &mut Steps<L>,
) -> Result<Vec<u128>, Refusal>
    ensures offsets { IfOk result (λ list. list.items ≡ model.chunk_offsets (tables_of tables.now)) }
    ensures fits { IfOk result (λ list. All (λ offset. offset < 2 ^ 64) list.items) }
    ensures count { IfOk result (λ list. length list.items < 2 ^ 32) }
    ensures only { IfErr result (λ refusal. refusal ≡ NoMemory) }
{
    let mut list = Vec::new(alloc);
    let Some(table) = tables.chunks else {
        return Ok(list);
    };
    for i in 0..table.len() {
        list.push(u128::from(table.entry(i, steps)))?;
    }
    Ok(list)
}

/// The number of samples in each of `chunks` chunks.
fn samples_per_chunk<L: Ledger>(
    alloc: Global,
    tables: &Tables<'_>,
    chunks: u64,
    steps: &mut Steps<L>,
) -> Result<Vec<u32>, Refusal>
    requires { chunks < 2 ^ 32 }
    ensures counts { IfOk result (λ list. list.items ≡ model.samples_per_chunk (unwrap_or (tables_of tables.now).stsc []) chunks) }
    ensures only { IfErr result (λ refusal. refusal ≡ NoMemory) }
{
    let mut list = Vec::new(alloc);
    let Some(table) = tables.stsc else {
        return Ok(list);
    };
    for i in 0..table.len() {
        let (count, samples) = chunk_run(&table, i, chunks, steps);
        push_run(&mut list, count, samples)?;
    }
    Ok(list)
}

/// Run `i` of `chunks` chunks: how many chunks it has, and the number of samples in each of them.
fn chunk_run<L: Ledger>(table: &Stsc<'_>, i: u32, chunks: u64, steps: &mut Steps<L>) -> (u64, u32)
    requires within { i < length (stsc_entries table.now) }
    requires chunks { chunks < 2 ^ 32 }
    ensures { slice_get (model.chunk_runs (stsc_entries table.now) chunks) i ≡ Some result }
{
    let runs = table.len();
    let (first, samples, _) = table.entry(i, steps);
    let end = if i + 1 < runs {
        u64::from(table.entry(i + 1, steps).0)
    } else {
        chunks + 1
    };
    (end.saturating_sub(u64::from(first)), samples)
}

/// The chunks of the samples, counted from 0, where each chunk has so many of them.
fn chunks_of_samples(alloc: Global, counts: &[u32]) -> Result<Vec<usize>, Refusal>
    ensures chunks { IfOk result (λ list. list.items ≡ model.chunks_from 0 counts.now) }
    ensures only { IfErr result (λ refusal. refusal ≡ NoMemory) }
{
    let mut list = Vec::new(alloc);
    for (chunk, count) in counts.iter().enumerate() {
        push_run(&mut list, u64::from(*count), chunk)?;
    }
    Ok(list)
}

/// The offsets of the samples in the file.
fn offsets<L: Ledger>(
    alloc: Global,
    tables: &Tables<'_>,
    sizes: &[u32],
    steps: &mut Steps<L>,
) -> Result<Vec<u128>, Refusal>
    requires sizes { sizes.now ≡ model.sample_sizes (tables_of tables.now) }
    requires chunks { AreChunks (tables_of tables.now) }
    ensures offsets { IfOk result (λ list. list.items ≡ map (model.sample_offset (tables_of tables.now)) (range_with_len 0 (length sizes.now))) }
    ensures only { IfErr result (λ refusal. refusal ≡ NoMemory) }
{
    let mut next = chunk_offsets(alloc, tables, steps)?;
    let counts = samples_per_chunk(alloc, tables, next.len() as u64, steps)?;
    let chunks = chunks_of_samples(alloc, &counts)?;
    offsets_by(alloc, &chunks, sizes, next.as_mut_slice())
}

/// The offsets of the samples in the file, where `next` are the offsets of the chunks. Each sample begins where the one before
/// it in its chunk ends.
fn offsets_by(
    alloc: Global,
    chunks: &[usize],
    sizes: &[u32],
    next: &mut [u128],
) -> Result<Vec<u128>, Refusal>
    requires each { length chunks.now ≡ length sizes.now }
    requires within { All (λ chunk. chunk < length next.old) chunks.now }
    requires fits { All (λ offset. offset < 2 ^ 64) next.old }
    ensures offsets { IfOk result (λ list. list.items
        ≡ map (λ i. slice_index next.old (slice_index chunks.now i) + model.bytes_before_in_chunk chunks.now sizes.now i) (range_with_len 0 (length sizes.now))) }
    ensures only { IfErr result (λ refusal. refusal ≡ NoMemory) }
{
    let mut list = Vec::new(alloc);
    for (i, size) in sizes.iter().enumerate() {
        let chunk = chunks[i];
        let offset = next[chunk];
        list.push(offset)?;
        next[chunk] = offset + u128::from(*size);
    }
    Ok(list)
}

/// Which samples are sync samples: all of them where there is no table of them.
fn syncs<L: Ledger>(
    alloc: Global,
    tables: &Tables<'_>,
    samples: u32,
    steps: &mut Steps<L>,
) -> Result<Vec<bool>, Refusal>
    requires { IfSome (tables_of tables.now).stss (All (IsSyncNumber samples)) }
    ensures syncs { IfOk result (λ list. list.items ≡ map (model.is_sync (tables_of tables.now)) (range_with_len 0 samples)) }
    ensures only { IfErr result (λ refusal. refusal ≡ NoMemory) }
{
    let mut list = Vec::new(alloc);
    let Some(table) = tables.stss else {
        push_run(&mut list, u64::from(samples), true)?;
        return Ok(list);
    };
    push_run(&mut list, u64::from(samples), false)?;
    mark_syncs(&table, list.as_mut_slice(), steps);
    Ok(list)
}

/// Sets the flags of the samples that the table names.
fn mark_syncs<L: Ledger>(table: &Stss<'_>, flags: &mut [bool], steps: &mut Steps<L>)
    requires { All (IsSyncNumber (length flags.old)) (stss_entries table.now) }
    ensures length { length flags.new ≡ length flags.old }
    ensures each { (k : ℕ) → k < length flags.old →
        slice_index_or flags.new k false ≡ (slice_index_or flags.old k false || list_any (λ n. n == k + 1) (stss_entries table.now)) }
{
    for i in 0..table.len() {
        let number = table.entry(i, steps);
        flags[number as usize - 1] = true;
    }
}
