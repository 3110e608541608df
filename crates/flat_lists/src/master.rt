//! Master playlists, by the first piece of each sequence.

ghost use Rattle.std.specs.Prelude.{◌≡◌, ◌≤◌, IfSome, IsErrOf, IfErr};
ghost use Rattle.vod_types.specs.declared.paths.Leaf.TheVariants.{Master};
ghost use Rattle.vod_types.specs.declared.refusal.Refusal.TheVariants.{StoreFailed};
ghost use Rattle.vod_source.specs.Calls.{Came};
ghost use Rattle.vod_source.specs.Causes.{Rose};
ghost use Rattle.answer_laws.specs.Refusals.{IsPathRefusal};
ghost use Rattle.flat_lists.specs.Asked.{asking_view, setup_of};
ghost use Rattle.flat_lists.specs.Listings.{leaf_turns, master_due};

use crate::shown::shown_sequences;
use crate::subject::Asking;
use crate::variants::text_of;
use std::alloc::Global;
use vod_source::Store;
use vod_types::{Refusal, Settings};

/// The master playlist of what a request is about: a variant or a rendition for each sequence, with the tracks v1 and a1 that its
/// first piece exposes, and by the setting the lines of its I-frame playlists. Of the files the movies of these pieces are read.
///
/// Refused, sequence by sequence, where the sequence has no piece, and with the first fault of its first piece.
pub fn master_playlist<S: Store>(
    alloc: Global,
    files: &mut S,
    settings: &Settings,
    root: &str,
    asking: &Asking,
) -> Result<Vec<u8>, Refusal>
    ensures told { IfSome (S.content files.old) (λ known.
        Came (λ text. text.items) result (master_due (setup_of settings.now root.now known) (asking_view asking.now))
        (leaf_turns (setup_of settings.now root.now known) (asking_view asking.now) Master) (S.log files.old) (S.log files.new)) }
    ensures content { S.content files.new ≡ S.content files.old }
    ensures later { S.faults files.old ≤ S.faults files.new }
    ensures store_failed { IsErrOf result StoreFailed → Rose (S.faults files.old) (S.faults files.new) }
    ensures refused { IfErr result IsPathRefusal }
{
    match shown_sequences(alloc, files, settings, root, asking) {
        Ok(shown) => text_of(alloc, &asking.mapping, settings.iframes, &shown),
        Err(refusal) => Err(refusal),
    }
}
