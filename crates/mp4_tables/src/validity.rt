//! Which sample tables of a track fit together (ISO/IEC 14496-12, 8.6 and 8.7), each by one pass.

ghost use Rattle.std.specs.Prelude.{◌≡◌, ◌*◌, ◌≤◌, ◌&&◌, ◌==◌, true, false, nat_lt, nat_le, unsigned_abs};
ghost use Rattle.std.specs.Option.{option_map_or};
ghost use Rattle.mp4_model.specs.Validity.{is_count, is_up_to, begins_at_one, stts_is_good, ctts_is_good, stss_is_good, stsc_is_good, first_broken_table};
ghost use Rattle.mp4_tables.specs.Views.{stts_entries, ctts_entries, stss_entries, stsc_entries, tables_of};

use crate::places::Stsc;
use crate::samples::Stss;
use crate::tables::Tables;
use crate::times::{Ctts, Stts};
use vod_types::TableName;

/// The first table, in the order Stts, Ctts, Stss, Stsc, Stsz, Chunks, that breaks a rule: where it
/// may not be absent, or doesn't fit the count of samples or of chunks, the track's timescale, or
/// itself. A count that isn't known is compared with nothing.
pub fn valid(tables: &Tables<'_>, timescale: u32) -> Option<TableName>
    ensures { result ≡ first_broken_table (tables_of tables.now) timescale }
{
    let samples = tables.sample_count();
    let chunks = tables.chunk_count();
    if !stts_passes(tables, samples) {
        return Some(TableName::Stts);
    }
    if !ctts_passes(tables, samples, timescale) {
        return Some(TableName::Ctts);
    }
    if !stss_passes(tables, samples) {
        return Some(TableName::Stss);
    }
    if !stsc_passes(tables, samples, chunks) {
        return Some(TableName::Stsc);
    }
    if tables.stsz.is_none() {
        return Some(TableName::Stsz);
    }
    if tables.chunks.is_none() {
        return Some(TableName::Chunks);
    }
    None
}

fn stts_passes(tables: &Tables<'_>, samples: Option<u32>) -> bool
    ensures { result ≡ option_map_or (stts_is_good samples) (tables_of tables.now).stts false }
{
    match tables.stts {
        Some(table) => times_are_good(&table, samples),
        None => false,
    }
}

fn ctts_passes(tables: &Tables<'_>, samples: Option<u32>, timescale: u32) -> bool
    ensures { result ≡ option_map_or (ctts_is_good samples timescale) (tables_of tables.now).ctts true }
{
    match tables.ctts {
        Some(table) => offsets_are_good(&table, samples, timescale),
        None => true,
    }
}

fn stss_passes(tables: &Tables<'_>, samples: Option<u32>) -> bool
    ensures { result ≡ option_map_or (stss_is_good samples) (tables_of tables.now).stss true }
{
    match tables.stss {
        Some(table) => syncs_are_good(&table, samples),
        None => true,
    }
}

fn stsc_passes(tables: &Tables<'_>, samples: Option<u32>, chunks: Option<u32>) -> bool
    ensures { result ≡ option_map_or (stsc_is_good samples chunks) (tables_of tables.now).stsc false }
{
    match tables.stsc {
        Some(table) => runs_are_good(&table, samples, chunks),
        None => false,
    }
}

fn times_are_good(table: &Stts<'_>, samples: Option<u32>) -> bool
    ensures { result ≡ stts_is_good samples (stts_entries table.now) }
{
    let mut total = 0u64;
    for i in 0..table.len() {
        let (count, _) = table.at(i);
        if count == 0 {
            return false;
        }
        total += u64::from(count);
    }
    is_count(samples, total)
}

fn offsets_are_good(table: &Ctts<'_>, samples: Option<u32>, timescale: u32) -> bool
    ensures { result ≡ ctts_is_good samples timescale (ctts_entries table.now) }
{
    let hour = 3600 * u64::from(timescale);
    let mut total = 0u64;
    for i in 0..table.len() {
        let run = table.at(i);
        if run.0 == 0 || !is_within(run, hour) {
            return false;
        }
        total += u64::from(run.0);
    }
    is_count(samples, total)
}

fn syncs_are_good(table: &Stss<'_>, samples: Option<u32>) -> bool
    ensures { result ≡ stss_is_good samples (stss_entries table.now) }
{
    let mut before = 0;
    for i in 0..table.len() {
        let number = table.at(i);
        if number <= before || !is_up_to(samples, number) {
            return false;
        }
        before = number;
    }
    true
}

fn runs_are_good(table: &Stsc<'_>, samples: Option<u32>, chunks: Option<u32>) -> bool
    ensures { result ≡ stsc_is_good samples chunks (stsc_entries table.now) }
{
    if !begins_at_one(table) {
        return false;
    }
    let mut first_chunk = 0;
    let mut per_chunk = 0;
    let mut total = 0u64;
    for i in 0..table.len() {
        let run = table.at(i);
        if !is_next_run(run, first_chunk, chunks) {
            return false;
        }
        total += product(u64::from(run.0 - first_chunk), per_chunk);
        first_chunk = run.0;
        per_chunk = run.1;
    }
    match chunks {
        Some(n) => {
            is_count(
                samples,
                total + product(u64::from(n) + 1 - u64::from(first_chunk), per_chunk),
            )
        }
        None => true,
    }
}

fn begins_at_one(table: &Stsc<'_>) -> bool
    ensures { result ≡ begins_at_one (stsc_entries table.now) }
{
    table.len() == 0 || table.at(0).0 == 1
}

fn is_next_run(run: (u32, u32, u32), before: u32, chunks: Option<u32>) -> bool
    ensures { result ≡ (nat_lt before run.0 && is_up_to chunks run.0 && nat_lt 0 run.1 && run.2 == 1) }
{
    before < run.0 && is_up_to(chunks, run.0) && 0 < run.1 && run.2 == 1
}

fn product(chunks: u64, samples: u32) -> u64
    requires { chunks ≤ 4294967296 }
    ensures value { result ≡ chunks * samples }
    ensures bound { result ≤ chunks * 4294967295 }
{
    chunks * u64::from(samples)
}

fn is_within(run: (u32, i64), limit: u64) -> bool
    ensures { result ≡ nat_le (unsigned_abs run.1) limit }
{
    run.1.unsigned_abs() <= limit
}

fn is_count(count: Option<u32>, n: u64) -> bool
    ensures { result ≡ is_count count n }
{
    count.is_none_or(|c| n == u64::from(c))
}

fn is_up_to(count: Option<u32>, n: u32) -> bool
    ensures { result ≡ is_up_to count n }
{
    count.is_none_or(|c| n <= c)
}
