//! Cells, boundaries and numbers, worked by hand.

use crate::{Grid, boundary, cells};
use std::alloc::Global;
use std::test::Fail;
use vod_types::read_settings;

// The grid of a settings file.
fn grid(alloc: Global, settings: &str) -> Result<Grid, Fail> {
    Ok(Grid::new(alloc, &read_settings(alloc, settings.as_bytes())?, None)?)
}

#[test]
fn cells_by_policy(rt: HostRuntime) -> Result<(), Fail> {
    let alloc = rt.alloc();
    let lengths = [33000, 38000, 35000, 30000, 3000, 0];
    for (settings, counts) in [
        (r#"{"policy":"last_short"}"#, [4, 4, 4, 3, 1, 0]),
        (r#"{"policy":"last_long"}"#, [3, 3, 3, 3, 1, 0]),
        (r#"{"policy":"last_rounded"}"#, [3, 4, 4, 3, 1, 0]),
    ] {
        let grid = grid(alloc, settings)?;
        for (ms, count) in lengths.iter().zip(&counts) {
            assert_eq!(rt; cells(&grid, *ms), *count, "{settings} {ms}");
        }
    }
    Ok(())
}

#[test]
fn first_cells_have_durations_of_their_own(rt: HostRuntime) -> Result<(), Fail> {
    let grid = grid(rt.alloc(), r#"{"bootstrap":[2000,4000]}"#)?;
    assert_eq!(rt; cells(&grid, 13000), 3);
    for (k, ms) in [(0, 0), (1, 2000), (2, 6000), (3, 16000), (1000, 9_986_000)] {
        assert_eq!(rt; boundary(&grid, k), ms);
    }
    Ok(())
}
