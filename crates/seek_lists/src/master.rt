//! Master playlists, by the first piece of each sequence.

ghost use Rattle.std.specs.Prelude.{◌≡◌, ◌≤◌, ◌+◌, ◌*◌, IfErr, IfSome, IsErrOf, length};
ghost use Rattle.vod_types.specs.declared.paths.Leaf.TheVariants.{Master};
ghost use Rattle.vod_types.specs.declared.refusal.Refusal.TheVariants.{StoreFailed};
ghost use Rattle.vod_source.specs.Calls.{Came};
ghost use Rattle.vod_source.specs.Causes.{Rose};
ghost use Rattle.origin_model.specs.Reads.{turn_names, turns};
ghost use Rattle.answer_laws.specs.Refusals.{IsPathRefusal};
ghost use Rattle.flat_lists.specs.Asked.{asking_view, setup_of};
ghost use Rattle.flat_lists.specs.Listings.{master_due};
ghost use Rattle.vod_meta.specs.Held.{names_held, AreTrue};
ghost use Rattle.vod_plan.specs.Turned.{LeavesCache};

use crate::shown::shown_sequences;
use flat_lists::{Asking, text_of};
use std::alloc::Global;
use std::sync::ledger::Ledger;
use vod_meta::Metas;
use vod_source::Store;
use vod_types::{Refusal, Settings, Steps};

/// The master playlist of what a request is about: a variant or a rendition for each sequence, with the tracks v1 and a1 that its
/// first piece exposes, and by the setting the lines of its I-frame playlists. Of the files the movies of these pieces are
/// read, and one that is kept not at all.
///
/// It takes at most 768 looks at tables for each sequence.
///
/// Refused, sequence by sequence, where the sequence has no piece, and with the first fault of its first piece.
pub fn master_playlist<S: Store, L: Ledger>(
    alloc: Global,
    metas: &mut Metas,
    store: &mut S,
    settings: &Settings,
    root: &str,
    asking: &Asking,
    steps: &mut Steps<L>,
) -> Result<Vec<u8>, Refusal>
    requires held { IfSome (S.content store.old) (λ files. AreTrue files metas.old) }
    ensures told { IfSome (S.content store.old) (λ files.
        Came (λ text. text.items) result (master_due (setup_of settings.now root.now files) (asking_view asking.now))
        (turns files (names_held metas.old) (turn_names (setup_of settings.now root.now files) (asking_view asking.now) Master)).reads
        (S.log store.old) (S.log store.new)) }
    ensures cache { IfSome (S.content store.old) (λ files.
        LeavesCache files (turn_names (setup_of settings.now root.now files) (asking_view asking.now) Master) result (names_held metas.old) (names_held metas.new)) }
    ensures held { IfSome (S.content store.old) (λ files. AreTrue files metas.new) }
    ensures looks { steps.new ≤ steps.old + 768 * length asking.now.mapping.sequences }
    ensures content { S.content store.new ≡ S.content store.old }
    ensures later { S.faults store.old ≤ S.faults store.new }
    ensures store_failed { IsErrOf result StoreFailed → Rose (S.faults store.old) (S.faults store.new) }
    ensures refused { IfErr result IsPathRefusal }
{
    match shown_sequences(alloc, metas, store, settings, root, asking, steps) {
        Ok(shown) => text_of(alloc, &asking.mapping, settings.iframes, &shown),
        Err(refusal) => Err(refusal),
    }
}
