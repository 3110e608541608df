//! The listed segments of a media playlist's path, found by seeks.

ghost use Rattle.std.specs.Prelude.{◌≡◌, ◌≤◌, false, map, IfErr, IfSome, IsErrOf, MatchOption, None};
ghost use Rattle.vod_types.specs.declared.paths.Leaf.TheVariants.{Index};
ghost use Rattle.vod_types.specs.declared.refusal.Refusal.TheVariants.{StoreFailed};
ghost use Rattle.segment_model.specs.Listing.{listed_view};
ghost use Rattle.vod_source.specs.Causes.{Rose};
ghost use Rattle.origin_model.specs.Answers.{is_index};
ghost use Rattle.answer_laws.specs.Refusals.{IsPathRefusal};
ghost use Rattle.flat_lists.specs.Asked.{setup_of};
ghost use Rattle.mp4_flat.specs.Asks.{IsPathAsk};
ghost use Rattle.vod_origin.specs.Held.{AreHeld};
ghost use Rattle.vod_origin.specs.Listings.{ListsAsk, ListsPath};
ghost use Rattle.vod_origin.specs.Reads.{cache_of};

use crate::lists::listed;
use crate::plans::sequence_cut;
use mp4_flat::path_ask;
use std::alloc::Global;
use vod_meta::Metas;
use vod_source::Store;
use vod_types::{Ask, Asked, Leaf, Listed, Refusal, Settings};

/// The listed segments of the sequence of a media playlist's path, of any form, in order. A path of another kind is refused as `BadPath`.
pub(crate) fn path_rows<S: Store>(
    alloc: Global,
    metas: &mut Option<Metas>,
    store: &mut S,
    settings: &Settings,
    root: &str,
    path: &[u8],
) -> Result<Vec<Listed>, Refusal>
    requires held { AreHeld (S.content store.old) metas.old }
    ensures lists { IfSome (S.content store.old) (λ files. ListsPath (λ rows. map listed_view rows.items) (setup_of settings.now root.now files) path.now result
        (cache_of metas.old) (cache_of metas.new) (S.log store.old) (S.log store.new)) }
    ensures held { AreHeld (S.content store.new) metas.new }
    ensures refused { IfErr result IsPathRefusal }
    ensures content { S.content store.new ≡ S.content store.old }
    ensures later { S.faults store.old ≤ S.faults store.new }
    ensures store_failed { IsErrOf result StoreFailed → Rose (S.faults store.old) (S.faults store.new) }
{
    let ask = match path_ask(alloc, path) {
        Ok(ask) => ask,
        Err(refusal) => return Err(refusal),
    };
    match index_of(ask.leaf) {
        Some((sequence, asked)) => {
            ask_rows(alloc, metas, store, settings, root, ask, sequence, asked)
        }
        None => Err(Refusal::BadPath),
    }
}

// The sequence and the asked tracks of a media playlist, where a leaf is one.
fn index_of(leaf: Leaf) -> Option<(u32, Asked)>
    ensures { MatchOption result (is_index leaf ≡ false) (λ found. leaf ≡ Index found.0 found.1) }
{
    match leaf {
        Leaf::Index { sequence, asked } => Some((sequence, asked)),
        Leaf::Master
        | Leaf::Mpd
        | Leaf::Init { .. }
        | Leaf::Segment { .. }
        | Leaf::Iframes { .. }
        | Leaf::Iframe { .. }
        | Leaf::Clip { .. } => None,
    }
}

// The listed segments of the media playlist that is asked for.
fn ask_rows<S: Store>(
    alloc: Global,
    metas: &mut Option<Metas>,
    store: &mut S,
    settings: &Settings,
    root: &str,
    ask: Ask,
    sequence: u32,
    asked: Asked,
) -> Result<Vec<Listed>, Refusal>
    requires ask { IsPathAsk ask }
    requires leaf { ask.leaf ≡ Index sequence asked }
    requires held { AreHeld (S.content store.old) metas.old }
    ensures lists { IfSome (S.content store.old) (λ files. ListsAsk (λ rows. map listed_view rows.items) (setup_of settings.now root.now files) ask sequence asked result
        (cache_of metas.old) (cache_of metas.new) (S.log store.old) (S.log store.new)) }
    ensures held { AreHeld (S.content store.new) metas.new }
    ensures refused { IfErr result IsPathRefusal }
    ensures content { S.content store.new ≡ S.content store.old }
    ensures later { S.faults store.old ≤ S.faults store.new }
    ensures store_failed { IsErrOf result StoreFailed → Rose (S.faults store.old) (S.faults store.new) }
{
    let cut = match sequence_cut(alloc, store, settings, root, ask, sequence) {
        Ok(cut) => cut,
        Err(refusal) => return Err(refusal),
    };
    listed(alloc, metas, store, &cut, asked)
}
