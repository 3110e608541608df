//! Seeks in a table of many runs, worked out by hand.

ghost use Rattle.std.specs.Prelude.{◌≡◌, ◌<◌, true, sum};
ghost use Rattle.mp4_model.specs.Fitting.{FitTogether};
ghost use Rattle.mp4_model.specs.Runs.{written_out};
ghost use Rattle.mp4_tables.specs.Views.{stts_entries, tables_of};

use crate::{TimeIndex, TimeRuns};
use mp4_tables::{Chunks, Stsc, Stsz, Stts, Tables, valid};
use std::alloc::Global;
use std::marker::Brand;
use std::process::Abort;
use std::sync::ledger::{Blank, Ledger};
use std::test::Fail;
use vod_types::Steps;

// A table of 100,000 runs of one sample, with the deltas 1 and 2 in turn.
fn time_table(alloc: Global) -> Result<Vec<u8>, Fail> {
    let mut body = Vec::new(alloc);
    body.extend_from_slice(b"\0\0\0\0\0\x01\x86\xa0")?;
    for _ in 0..50_000 {
        body.extend_from_slice(b"\0\0\0\x01\0\0\0\x01\0\0\0\x01\0\0\0\x02")?;
    }
    Ok(body)
}

// The sum of all deltas.
fn total<L: Ledger>(table: &Stts<'_>, steps: &mut Steps<L>) -> u128
    ensures { result ≡ sum (written_out (stts_entries table.now)) }
{
    let mut time = 0u128;
    for run in 0..table.len() {
        let (count, delta) = table.entry(run, steps);
        time += u128::from(count) * u128::from(delta);
    }
    time
}

// Whether the tables fit together.
fn fit<L: Ledger>(tables: &Tables<'_>, steps: &mut Steps<L>) -> bool
    ensures { result ≡ true → FitTogether (tables_of tables.now) }
{
    match tables.stts {
        Some(table) => valid(tables, 90_000).is_none() && total(&table, steps) < 1 << 64,
        None => false,
    }
}

// The first sample at each time, where the samples 2 n and 2 n + 1 are decoded at 3 n and 3 n + 1.
fn seek<L: Ledger>(
    rt: &impl Abort,
    alloc: Global,
    blank: Blank,
    tables: Tables<'_>,
) -> Result<(), Fail>
    requires name { blank.name ≡ L.name }
    requires parts { blank.parts ≡ L.parts }
    requires some { 0 < L.parts }
{
    let mut steps = Steps::<L>::start(blank);
    if !fit(&tables, &mut steps) {
        return Err("the tables don't fit together".into());
    }
    let index = TimeIndex::build(alloc, &tables)?;
    let runs = TimeRuns::new(tables, 90_000, Some(&index));
    for (time, sample) in [
        (-1, 0),
        (46, 31),
        (47, 32),
        (48, 32),
        (49, 33),
        (75_001, 50_001),
        (75_002, 50_002),
        (149_998, 99_999),
        (149_999, 100_000),
    ] {
        assert_eq!(rt; runs.first_at(time, &mut steps), sample);
    }
    Ok(())
}

#[test]
fn seeks_in_many_runs(rt: HostRuntime) -> Result<(), Fail> {
    let alloc = rt.alloc();
    let body = time_table(alloc)?;
    let tables = Tables {
        stts: Stts::read(&body),
        ctts: None,
        stss: None,
        stsc: Stsc::read(b"\0\0\0\0\0\0\0\x01\0\0\0\x01\0\x01\x86\xa0\0\0\0\x01"),
        stsz: Stsz::read(b"\0\0\0\0\0\0\0\x01\0\x01\x86\xa0"),
        chunks: Chunks::read(b"\0\0\0\0\0\0\0\x01\0\0\0\0"),
    };
    seek::<Brand>(&rt, alloc, Blank::new(1), tables)
}
