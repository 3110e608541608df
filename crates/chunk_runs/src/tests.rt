//! Tables whose places are known.

ghost use Rattle.std.specs.Prelude.{◌≡◌, ◌≤◌, ◌<◌, IfSome, length};
ghost use Rattle.mp4_model.specs.Fitting.{FitTogether};
ghost use Rattle.mp4_model.specs.Samples.{sample_count};
ghost use Rattle.mp4_tables.specs.Views.{tables_of};
ghost use Rattle.chunk_runs.specs.Checkpoints.{checkpoints_of};

use crate::{ChunkRuns, PlaceIndex};
use mp4_tables::{Chunks, Stsc, Stsz, Stts, Tables};
use std::alloc::Global;
use std::marker::Brand;
use std::process::Abort;
use std::sync::ledger::{Blank, Ledger};
use std::test::Fail;
use vod_types::Steps;

// The place of each sample, by itself and on a walk.
fn are_at<L: Ledger>(
    rt: &impl Abort,
    blank: Blank,
    tables: Tables<'_>,
    index: Option<&PlaceIndex>,
    places: &[(u128, u32)],
)
    requires name { blank.name ≡ L.name }
    requires parts { blank.parts ≡ L.parts }
    requires some { 0 < L.parts }
    requires fit { FitTogether (tables_of tables) }
    requires index { IfSome index (λ i. i.now ≡ checkpoints_of (tables_of tables)) }
    requires few { length places.now ≤ sample_count (tables_of tables) }
{
    let mut steps = Steps::<L>::start(blank);
    let runs = ChunkRuns::new(tables, index);
    let mut cursor = runs.cursor(0, &mut steps);
    for i in 0..places.len() {
        assert_eq!(rt; runs.place(i as u64, &mut steps), places[i]);
        assert_eq!(rt; cursor.next(&runs, &mut steps), places[i]);
    }
}

// The same, with checkpoints and without.
fn stand_at(
    rt: &impl Abort,
    alloc: Global,
    tables: Tables<'_>,
    places: &[(u128, u32)],
) -> Result<(), Fail>
    requires fit { FitTogether (tables_of tables) }
    requires few { length places.now ≤ sample_count (tables_of tables) }
{
    are_at::<Brand>(rt, Blank::new(1), tables, None, places);
    let index = PlaceIndex::build(alloc, &tables)?;
    are_at::<Brand>(rt, Blank::new(1), tables, Some(&index), places);
    Ok(())
}

#[test]
fn samples_stand_in_their_chunks(rt: HostRuntime) -> Result<(), Fail> {
    // four samples in two chunks of one and three
    let tables = Tables {
        stts: Stts::read(b"\0\0\0\0\0\0\0\x01\0\0\0\x04\0\0\x03\xe8"),
        ctts: None,
        stss: None,
        stsc: Stsc::read(
            b"\0\0\0\0\0\0\0\x02\0\0\0\x01\0\0\0\x01\0\0\0\x01\0\0\0\x02\0\0\0\x03\0\0\0\x01",
        ),
        stsz: Stsz::read(b"\0\0\0\0\0\0\0\0\0\0\0\x04\0\0\0\x09\0\0\0\x08\0\0\0\x07\0\0\0\x06"),
        chunks: Chunks::read(b"\0\0\0\0\0\0\0\x02\0\0\0\x30\0\0\0\x39"),
    };
    let places = [(48, 9), (57, 8), (65, 7), (72, 6)];
    stand_at(&rt, rt.alloc(), tables, &places)?;
    // six samples of one size in four chunks, two of two samples and two of one, the second chunk before the first
    let tables = Tables {
        stts: Stts::read(b"\0\0\0\0\0\0\0\x01\0\0\0\x06\0\0\x03\xe8"),
        ctts: None,
        stss: None,
        stsc: Stsc::read(
            b"\0\0\0\0\0\0\0\x02\0\0\0\x01\0\0\0\x02\0\0\0\x01\0\0\0\x03\0\0\0\x01\0\0\0\x01",
        ),
        stsz: Stsz::read(b"\0\0\0\0\0\0\0\x05\0\0\0\x06"),
        chunks: Chunks::read(b"\0\0\0\0\0\0\0\x04\0\0\0\x64\0\0\0\x0a\0\0\0\xc8\0\0\0\xfa"),
    };
    let places = [(100, 5), (105, 5), (10, 5), (15, 5), (200, 5), (250, 5)];
    stand_at(&rt, rt.alloc(), tables, &places)
}
