//! Media presentation descriptions, over all pieces of all sequences.

ghost use Rattle.std.specs.Prelude.{List, ◌≡◌, ◌≢◌, ◌≤◌, All, IfErr, IfOk, IfSome, IsErrOf, length, map};
ghost use Rattle.vod_types.specs.declared.paths.Leaf.TheVariants.{Mpd};
ghost use Rattle.vod_types.specs.declared.refusal.Refusal.TheVariants.{NoMemory, StoreFailed};
ghost use Rattle.vod_types.specs.Results.{Answers};
ghost use Rattle.vod_source.specs.Calls.{Came};
ghost use Rattle.vod_source.specs.Causes.{Rose};
ghost use Rattle.segment_model.specs.Grid.{grid_of};
ghost use Rattle.list_model.specs.Manifest.{manifest};
ghost use Rattle.origin_model.specs.Reads.{turn_names, turns};
ghost use Rattle.origin_model.specs.Requests.{Setup, grid_in_use};
ghost use Rattle.answer_laws.specs.Refusals.{IsPathRefusal};
ghost use Rattle.flat_lists.specs.Asked.{asking_view, setup_of};
ghost use Rattle.flat_lists.specs.Described.{described_due, periods_due, sequence_view};
ghost use Rattle.flat_lists.specs.Listings.{description_due};
ghost use Rattle.flat_lists.specs.LookedSequences.{SequenceFound};
ghost use Rattle.vod_meta.specs.Held.{names_held, AreTrue};
ghost use Rattle.vod_plan.specs.Turned.{LeavesCache};
ghost use Rattle.seek_lists.specs.Looked.{all_cells as all_cells_of, AreFound, IsOfMapping};

use crate::counted_cells::all_cells;
use crate::looked_sequences::{LookedSequence, look_at_sequences};
use crate::periods::periods;
use crate::reps::Writing;
use dash_mpd::mpd;
use flat_lists::Asking;
use segmenter::Grid;
use std::alloc::Global;
use std::sync::ledger::Ledger;
use vod_meta::Metas;
use vod_source::Store;
use vod_types::{Refusal, Settings, Steps};

/// The media presentation description of what a request is about: a period for each part, and in it a representation for each
/// of the tracks v1 and a1 that the part's first piece exposes. Of the files the movies of all
/// pieces are read, and one that is kept not at all.
///
/// Refused, sequence by sequence, with the first fault of a piece, and then where all representations have more than 100,000
/// cells together.
pub fn presentation_description<S: Store, L: Ledger>(
    alloc: Global,
    metas: &mut Metas,
    store: &mut S,
    settings: &Settings,
    root: &str,
    asking: &Asking,
    steps: &mut Steps<L>,
) -> Result<Vec<u8>, Refusal>
    requires held { IfSome (S.content store.old) (λ files. AreTrue files metas.old) }
    ensures told { IfSome (S.content store.old) (λ files.
        Came (λ text. text.items) result (description_due (setup_of settings.now root.now files) (asking_view asking.now))
        (turns files (names_held metas.old) (turn_names (setup_of settings.now root.now files) (asking_view asking.now) Mpd)).reads
        (S.log store.old) (S.log store.new)) }
    ensures cache { IfSome (S.content store.old) (λ files.
        LeavesCache files (turn_names (setup_of settings.now root.now files) (asking_view asking.now) Mpd) result (names_held metas.old) (names_held metas.new)) }
    ensures held { IfSome (S.content store.old) (λ files. AreTrue files metas.new) }
    ensures content { S.content store.new ≡ S.content store.old }
    ensures later { S.faults store.old ≤ S.faults store.new }
    ensures store_failed { IsErrOf result StoreFailed → Rose (S.faults store.old) (S.faults store.new) }
    ensures refused { IfErr result IsPathRefusal }
{
    match look_at_sequences(alloc, metas, store, settings, root, asking, steps) {
        Ok(looked) => described(alloc, settings, asking, &looked, steps),
        Err(refusal) => Err(refusal),
    }
}

// The description over sequences whose pieces were looked at, unless they have too many cells.
fn described<L: Ledger>(
    alloc: Global,
    settings: &Settings,
    asking: &Asking,
    looked: &[LookedSequence],
    steps: &mut Steps<L>,
) -> Result<Vec<u8>, Refusal>
    requires each { All (IsOfMapping asking.now.mapping) looked.now }
    requires few { length looked.now ≤ 32 }
    ensures text { (o : Setup) (fs : List SequenceFound) → o.settings ≡ settings.now → AreFound o (asking_view asking.now) fs looked.now →
        Answers (λ text. text.items) result (described_due o (asking_view asking.now) (map sequence_view fs)) }
    ensures not_failed { IfErr result (λ refusal. refusal ≢ StoreFailed) }
    ensures refused { IfErr result IsPathRefusal }
{
    let grid = match asking.grid(alloc, settings) {
        Ok(grid) => grid,
        Err(refusal) => return Err(refusal),
    };
    let cells = all_cells(&grid, looked, steps);
    if cells > 100_000 {
        return Err(Refusal::TooManySegments { cells });
    }
    written(alloc, settings, asking, &grid, looked, steps)
}

// The text over sequences with few cells. The only refusal is `NoMemory`.
fn written<L: Ledger>(
    alloc: Global,
    settings: &Settings,
    asking: &Asking,
    grid: &Grid,
    looked: &[LookedSequence],
    steps: &mut Steps<L>,
) -> Result<Vec<u8>, Refusal>
    requires each { All (IsOfMapping asking.now.mapping) looked.now }
    requires cells { all_cells_of grid.now looked.now ≤ 100000 }
    requires grid { grid.now ≡ grid_of settings.now asking.now.mapping.segment_ms }
    ensures text { IfOk result (λ text. (o : Setup) (fs : List SequenceFound) → o.settings ≡ settings.now → AreFound o (asking_view asking.now) fs looked.now →
        text.items ≡ manifest (grid_in_use o (asking_view asking.now)).step (periods_due o (asking_view asking.now) (map sequence_view fs))) }
    ensures only { IfErr result (λ refusal. refusal ≡ NoMemory) }
{
    let writing = Writing {
        mapping: &asking.mapping,
        grid,
        align: settings.align,
    };
    let buffer_ms = asking.mapping.segment_ms().unwrap_or(settings.segment_ms);
    let periods = periods(alloc, writing, looked, steps)?;
    match mpd(alloc, buffer_ms, &periods) {
        Ok(text) => Ok(text),
        Err(_) => Err(Refusal::NoMemory),
    }
}
