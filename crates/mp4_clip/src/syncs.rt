//! Sync samples by their places in the table of sync samples (ISO/IEC 14496-12, 8.6.2).

ghost use Rattle.std.specs.Prelude.{◌≡◌, ◌+◌, ◌≤◌, true};
ghost use Rattle.mp4_model.specs.Fitting.{FitTogether};
ghost use Rattle.mp4_model.specs.Samples.{sample_count};
ghost use Rattle.mp4_model.specs.Validity.{rise_from};
ghost use Rattle.mp4_tables.specs.Views.{stss_entries, tables_of};
ghost use Rattle.time_runs.specs.Cursors.{IsNext};
ghost use Rattle.mp4_clip.specs.Syncs.{syncs_before};

use mp4_tables::{Stss, Tables};
use std::sync::ledger::Ledger;
use vod_types::Steps;

/// How many sync samples stand before sample `i`.
pub(crate) fn syncs_before<L: Ledger>(tables: &Tables<'_>, i: u32, steps: &mut Steps<L>) -> u32
    requires fit { FitTogether (tables_of tables.now) }
    requires within { i ≤ sample_count (tables_of tables.now) }
    ensures count { result ≡ syncs_before (tables_of tables.now) i }
    ensures looks { steps.new ≤ steps.old + 32 }
{
    match tables.stss {
        Some(table) => first_above(&table, i, steps),
        None => i,
    }
}

// The place of the first number above `i`, or the number of entries.
fn first_above<L: Ledger>(table: &Stss<'_>, i: u32, steps: &mut Steps<L>) -> u32
    requires { rise_from 0 (stss_entries table.now) ≡ true }
    ensures next { IsNext (stss_entries table.now) i result 0 }
    ensures looks { steps.new ≤ steps.old + 32 }
{
    let mut low = 0;
    let mut high = table.len();
    while low < high {
        let middle = low + (high - low) / 2;
        if table.entry(middle, steps) <= i {
            low = middle + 1;
        } else {
            high = middle;
        }
    }
    low
}
