//! The listed segments of a media playlist.

ghost use Rattle.std.specs.Prelude.{◌≡◌, ◌≤◌, false, [], None, length, map, All, IfOk, IfSome, IsErr, IsErrOf, MatchOption, IfErr};
ghost use Rattle.std.specs.Int.{IsInRange};
ghost use Rattle.std.specs.Result.{result_map_both};
ghost use Rattle.vod_types.specs.declared.paths.Leaf.TheVariants.{Index};
ghost use Rattle.vod_types.specs.declared.refusal.Refusal.TheVariants.{StoreFailed};
ghost use Rattle.vod_source.specs.Causes.{Rose};
ghost use Rattle.origin_model.specs.Answers.{is_index, readable_as};
ghost use Rattle.origin_model.specs.Lists.{listed_segments};
ghost use Rattle.origin_model.specs.Reads.{ask_reads};
ghost use Rattle.origin_model.specs.Requests.{target_names};
ghost use Rattle.flat_lists.specs.Asked.{asking_view, setup_of};
ghost use Rattle.vod_source.specs.Calls.{Came};
ghost use Rattle.segment_model.specs.Listing.{listed_view};
ghost use Rattle.flat_lists.specs.Listings.{HasPart};
ghost use Rattle.answer_laws.specs.Refusals.{IsPathRefusal};
ghost use Rattle.mp4_flat.specs.Listings.{AreListed, ask_rows as ask_rows_of, index_turns};

use crate::sequence::SequenceCut;
use flat_lists::{Asking, asking_of, timeline_rows};
use std::alloc::Global;
use vod_source::Store;
use vod_types::{Ask, Asked, Leaf, Listed, Refusal, Settings};
use vod_urls::read_path;

/// The listed segments of the sequence of a media playlist's path, of any form, in order.
///
/// Its refusals are those of that playlist, and `BadPath` for a path out of the grammar or of another kind.
pub fn listed<S: Store>(
    alloc: Global,
    files: &mut S,
    settings: &Settings,
    root: &str,
    path: &[u8],
) -> Result<Vec<Listed>, Refusal>
    ensures told { IfSome (S.content files.old) (λ known.
        AreListed (setup_of settings.now root.now known) path.now (result_map_both (λ rows. rows.items) (λ refusal. refusal) result)
        (S.log files.old) (S.log files.new)) }
    // A path out of the grammar or of another kind asks nothing of the store.
    ensures unread { IsErr (readable_as is_index path.now) → files.new ≡ files.old }
    ensures content { S.content files.new ≡ S.content files.old }
    ensures later { S.faults files.old ≤ S.faults files.new }
    ensures store_failed { IsErrOf result StoreFailed → Rose (S.faults files.old) (S.faults files.new) }
{
    let ask = match read_path(alloc, path) {
        Ok(ask) => ask,
        Err(refusal) => return Err(refusal),
    };
    match index_of(ask.leaf) {
        Some((sequence, asked)) => ask_rows(alloc, files, settings, root, ask, sequence, asked),
        None => Err(Refusal::BadPath),
    }
}

// The sequence and the tracks of a media playlist, where a leaf is one.
fn index_of(leaf: Leaf) -> Option<(u32, Asked)>
    ensures { MatchOption result (is_index leaf ≡ false) (λ found. leaf ≡ Index found.0 found.1) }
{
    match leaf {
        Leaf::Index { sequence, asked } => Some((sequence, asked)),
        Leaf::Master
        | Leaf::Mpd
        | Leaf::Init { .. }
        | Leaf::Segment { .. }
        | Leaf::Iframes { .. }
        | Leaf::Iframe { .. }
        | Leaf::Clip { .. } => None,
    }
}

// The listed segments of the media playlist that is asked for.
fn ask_rows<S: Store>(
    alloc: Global,
    files: &mut S,
    settings: &Settings,
    root: &str,
    ask: Ask,
    sequence: u32,
    asked: Asked,
) -> Result<Vec<Listed>, Refusal>
    requires leaf { ask.leaf ≡ Index sequence asked }
    requires names { IsInRange 1 32 (length (target_names ask.target)) }
    ensures told { IfSome (S.content files.old) (λ known.
        Came (λ rows. map listed_view rows.items) result (ask_rows_of (setup_of settings.now root.now known) ask sequence asked)
        (ask_reads (setup_of settings.now root.now known) [] false [] None ask) (S.log files.old) (S.log files.new)) }
    ensures content { S.content files.new ≡ S.content files.old }
    ensures later { S.faults files.old ≤ S.faults files.new }
    ensures store_failed { IsErrOf result StoreFailed → Rose (S.faults files.old) (S.faults files.new) }
{
    match asking_of(alloc, files, root, ask) {
        Ok(asking) => sequence_rows(alloc, files, settings, root, &asking, sequence, asked),
        Err(refusal) => Err(refusal),
    }
}

/// The listed segments of a sequence of what a request is about.
pub(crate) fn sequence_rows<S: Store>(
    alloc: Global,
    files: &mut S,
    settings: &Settings,
    root: &str,
    asking: &Asking,
    sequence: u32,
    asked: Asked,
) -> Result<Vec<Listed>, Refusal>
    ensures told { IfSome (S.content files.old) (λ known.
        Came (λ rows. map listed_view rows.items) result (listed_segments (setup_of settings.now root.now known) (asking_view asking.now) sequence asked)
        (index_turns (setup_of settings.now root.now known) (asking_view asking.now) sequence asked) (S.log files.old) (S.log files.new)) }
    ensures parts { IfOk result (λ rows. All HasPart rows.items) }
    ensures content { S.content files.new ≡ S.content files.old }
    ensures later { S.faults files.old ≤ S.faults files.new }
    ensures store_failed { IsErrOf result StoreFailed → Rose (S.faults files.old) (S.faults files.new) }
    ensures refused { IfErr result IsPathRefusal }
{
    let cut = match SequenceCut::new(alloc, settings, root, asking, sequence) {
        Ok(cut) => cut,
        Err(refusal) => return Err(refusal),
    };
    timeline_rows(alloc, files, cut.cut(), asked)
}
