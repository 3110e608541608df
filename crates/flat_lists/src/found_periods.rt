//! The periods that a media presentation description describes.

ghost use Rattle.std.specs.Prelude.{List, ◌≡◌, ◌≢◌, ◌≤◌, All, IfErr, IfOk, IfSome, IsErrOf, length, map};
ghost use Rattle.vod_types.specs.declared.refusal.Refusal.TheVariants.{NoMemory, StoreFailed};
ghost use Rattle.vod_types.specs.Results.{Answers};
ghost use Rattle.vod_source.specs.Calls.{AnswersUnlessFailed};
ghost use Rattle.vod_source.specs.Causes.{Rose};
ghost use Rattle.segment_model.specs.Grid.{grid_of};
ghost use Rattle.list_model.specs.Manifest.{IsPeriod};
ghost use Rattle.origin_model.specs.Lists.{periods as periods_of};
ghost use Rattle.origin_model.specs.Requests.{Setup};
ghost use Rattle.answer_laws.specs.Refusals.{IsPathRefusal};
ghost use Rattle.flat_lists.specs.Asked.{asking_view, setup_of};
ghost use Rattle.flat_lists.specs.CountedCells.{all_cells as all_cells_of};
ghost use Rattle.flat_lists.specs.Described.{AreFound, few_periods, periods_due, sequence_view};
ghost use Rattle.flat_lists.specs.LookedSequences.{SequenceFound};
ghost use Rattle.flat_lists.specs.Written.{IsOfMapping};

use crate::counted_cells::all_cells;
use crate::looked_sequences::{LookedSequence, look_at_sequences};
use crate::periods::periods;
use crate::reps::Writing;
use crate::subject::Asking;
use list_model::Period;
use segmenter::Grid;
use std::alloc::Global;
use vod_source::Store;
use vod_types::{Refusal, Settings};

/// The periods that the media presentation description of what a request is about describes, one for each part. Of the files
/// the movies of all pieces are read.
///
/// It is refused as that description is.
pub fn presentation_periods<S: Store>(
    alloc: Global,
    files: &mut S,
    settings: &Settings,
    root: &str,
    asking: &Asking,
) -> Result<Vec<Period>, Refusal>
    ensures told { IfSome (S.content files.old) (λ known.
        AnswersUnlessFailed (λ found. found.items) result (periods_of (setup_of settings.now root.now known) (asking_view asking.now))) }
    ensures each { IfOk result (λ found. All IsPeriod found.items) }
    ensures content { S.content files.new ≡ S.content files.old }
    ensures later { S.faults files.old ≤ S.faults files.new }
    ensures store_failed { IsErrOf result StoreFailed → Rose (S.faults files.old) (S.faults files.new) }
    ensures refused { IfErr result IsPathRefusal }
{
    match look_at_sequences(alloc, files, settings, root, asking) {
        Ok(looked) => found_in(alloc, settings, asking, &looked),
        Err(refusal) => Err(refusal),
    }
}

// The periods over sequences whose pieces were looked at, unless they have too many cells.
fn found_in(
    alloc: Global,
    settings: &Settings,
    asking: &Asking,
    looked: &[LookedSequence],
) -> Result<Vec<Period>, Refusal>
    requires each { All (IsOfMapping asking.now.mapping) looked.now }
    requires few { length looked.now ≤ 32 }
    ensures periods { (o : Setup) (fs : List SequenceFound) → o.settings ≡ settings.now → AreFound o (asking_view asking.now) fs looked.now →
        Answers (λ found. found.items) result (few_periods o (asking_view asking.now) (map sequence_view fs)) }
    ensures each { IfOk result (λ found. All IsPeriod found.items) }
    ensures not_failed { IfErr result (λ refusal. refusal ≢ StoreFailed) }
    ensures refused { IfErr result IsPathRefusal }
{
    let grid = match asking.grid(alloc, settings) {
        Ok(grid) => grid,
        Err(refusal) => return Err(refusal),
    };
    let cells = all_cells(&grid, looked);
    if cells > 100_000 {
        return Err(Refusal::TooManySegments { cells });
    }
    few_found(alloc, settings, asking, &grid, looked)
}

// The periods over sequences with few cells. The only refusal is `NoMemory`.
fn few_found(
    alloc: Global,
    settings: &Settings,
    asking: &Asking,
    grid: &Grid,
    looked: &[LookedSequence],
) -> Result<Vec<Period>, Refusal>
    requires each { All (IsOfMapping asking.now.mapping) looked.now }
    requires cells { all_cells_of grid.now looked.now ≤ 100000 }
    requires grid { grid.now ≡ grid_of settings.now asking.now.mapping.segment_ms }
    ensures periods { IfOk result (λ found. (o : Setup) (fs : List SequenceFound) → o.settings ≡ settings.now → AreFound o (asking_view asking.now) fs looked.now →
        found.items ≡ periods_due o (asking_view asking.now) (map sequence_view fs)) }
    ensures each { IfOk result (λ found. All IsPeriod found.items) }
    ensures only { IfErr result (λ refusal. refusal ≡ NoMemory) }
{
    let writing = Writing {
        mapping: &asking.mapping,
        grid,
        align: settings.align,
    };
    periods(alloc, writing, looked)
}
