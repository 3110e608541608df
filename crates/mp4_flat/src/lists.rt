//! The answers of lists: playlists and media presentation descriptions.

ghost use Rattle.std.specs.Prelude.{◌≡◌, ◌≤◌, IfErr, IfOk, IfSome, IsErrOf};
ghost use Rattle.vod_types.specs.Tracks.{IsTrackNumber};
ghost use Rattle.vod_types.specs.declared.paths.Leaf.TheVariants.{Master, Mpd, Index, Iframes};
ghost use Rattle.vod_types.specs.declared.refusal.Refusal.TheVariants.{NoMemory, StoreFailed};
ghost use Rattle.vod_source.specs.Calls.{Came};
ghost use Rattle.vod_source.specs.Causes.{Rose};
ghost use Rattle.list_model.specs.Iframes.{iframe_playlist};
ghost use Rattle.list_model.specs.Names.{IsAsked};
ghost use Rattle.origin_model.specs.Answers.{sequence_iframes as sequence_iframes_of};
ghost use Rattle.flat_lists.specs.Asked.{asking_view, setup_of};
ghost use Rattle.flat_lists.specs.Listings.{leaf_turns};
ghost use Rattle.answer_laws.specs.Refusals.{IsPathRefusal};
ghost use Rattle.mp4_flat.specs.Flat.{IsLeafAnswer};

use crate::listing::sequence_rows;
use crate::playlist::playlist_of;
use crate::sequence::SequenceCut;
use flat_lists::{Asking, iframe_rows, master_playlist, presentation_description};
use flat_segments::FlatBody;
use hls_iframes::iframes;
use std::alloc::Global;
use vod_source::Store;
use vod_types::{Asked, IframeRow, Refusal, Settings};

/// Answers a request for a master playlist.
pub(crate) fn master_answer<S: Store>(
    alloc: Global,
    files: &mut S,
    settings: &Settings,
    root: &str,
    asking: &Asking,
) -> Result<FlatBody, Refusal>
    ensures told { IfSome (S.content files.old) (λ known.
        IsLeafAnswer (setup_of settings.now root.now known) (asking_view asking.now) Master result
        (S.log files.old) (S.log files.new)) }
    ensures content { S.content files.new ≡ S.content files.old }
    ensures later { S.faults files.old ≤ S.faults files.new }
    ensures store_failed { IsErrOf result StoreFailed → Rose (S.faults files.old) (S.faults files.new) }
    ensures refused { IfErr result IsPathRefusal }
{
    match master_playlist(alloc, files, settings, root, asking) {
        Ok(bytes) => Ok(FlatBody { bytes, cut: None }),
        Err(refusal) => Err(refusal),
    }
}

/// Answers a request for a media presentation description.
pub(crate) fn description_answer<S: Store>(
    alloc: Global,
    files: &mut S,
    settings: &Settings,
    root: &str,
    asking: &Asking,
) -> Result<FlatBody, Refusal>
    ensures told { IfSome (S.content files.old) (λ known.
        IsLeafAnswer (setup_of settings.now root.now known) (asking_view asking.now) Mpd result
        (S.log files.old) (S.log files.new)) }
    ensures content { S.content files.new ≡ S.content files.old }
    ensures later { S.faults files.old ≤ S.faults files.new }
    ensures store_failed { IsErrOf result StoreFailed → Rose (S.faults files.old) (S.faults files.new) }
    ensures refused { IfErr result IsPathRefusal }
{
    match presentation_description(alloc, files, settings, root, asking) {
        Ok(bytes) => Ok(FlatBody { bytes, cut: None }),
        Err(refusal) => Err(refusal),
    }
}

/// Answers a request for a media playlist.
pub(crate) fn index_answer<S: Store>(
    alloc: Global,
    files: &mut S,
    settings: &Settings,
    root: &str,
    asking: &Asking,
    sequence: u32,
    asked: Asked,
) -> Result<FlatBody, Refusal>
    requires sequence { sequence ≤ 9999 }
    requires asked { IsAsked asked }
    ensures told { IfSome (S.content files.old) (λ known.
        IsLeafAnswer (setup_of settings.now root.now known) (asking_view asking.now) (Index sequence asked) result
        (S.log files.old) (S.log files.new)) }
    ensures content { S.content files.new ≡ S.content files.old }
    ensures later { S.faults files.old ≤ S.faults files.new }
    ensures store_failed { IsErrOf result StoreFailed → Rose (S.faults files.old) (S.faults files.new) }
    ensures refused { IfErr result IsPathRefusal }
{
    let rows = match sequence_rows(alloc, files, settings, root, asking, sequence, asked) {
        Ok(rows) => rows,
        Err(refusal) => return Err(refusal),
    };
    match playlist_of(alloc, &rows, sequence, asked, settings.hls_fmp4) {
        Ok(bytes) => Ok(FlatBody { bytes, cut: None }),
        Err(refusal) => Err(refusal),
    }
}

/// Answers a request for an I-frame playlist.
pub(crate) fn iframes_answer<S: Store>(
    alloc: Global,
    files: &mut S,
    settings: &Settings,
    root: &str,
    asking: &Asking,
    sequence: u32,
    video: u8,
) -> Result<FlatBody, Refusal>
    requires sequence { sequence ≤ 9999 }
    requires video { IsTrackNumber video }
    ensures told { IfSome (S.content files.old) (λ known.
        IsLeafAnswer (setup_of settings.now root.now known) (asking_view asking.now) (Iframes sequence video) result
        (S.log files.old) (S.log files.new)) }
    ensures content { S.content files.new ≡ S.content files.old }
    ensures later { S.faults files.old ≤ S.faults files.new }
    ensures store_failed { IsErrOf result StoreFailed → Rose (S.faults files.old) (S.faults files.new) }
    ensures refused { IfErr result IsPathRefusal }
{
    let rows = match sequence_iframes(alloc, files, settings, root, asking, sequence, video) {
        Ok(rows) => rows,
        Err(refusal) => return Err(refusal),
    };
    match iframe_playlist_of(alloc, &rows, sequence, video) {
        Ok(bytes) => Ok(FlatBody { bytes, cut: None }),
        Err(refusal) => Err(refusal),
    }
}

// The I-frames of a sequence's video track, in order.
fn sequence_iframes<S: Store>(
    alloc: Global,
    files: &mut S,
    settings: &Settings,
    root: &str,
    asking: &Asking,
    sequence: u32,
    video: u8,
) -> Result<Vec<IframeRow>, Refusal>
    ensures told { IfSome (S.content files.old) (λ known.
        Came (λ rows. rows.items) result (sequence_iframes_of (setup_of settings.now root.now known) (asking_view asking.now) sequence video)
        (leaf_turns (setup_of settings.now root.now known) (asking_view asking.now) (Iframes sequence video)) (S.log files.old) (S.log files.new)) }
    ensures content { S.content files.new ≡ S.content files.old }
    ensures later { S.faults files.old ≤ S.faults files.new }
    ensures store_failed { IsErrOf result StoreFailed → Rose (S.faults files.old) (S.faults files.new) }
    ensures refused { IfErr result IsPathRefusal }
{
    let cut = match SequenceCut::new(alloc, settings, root, asking, sequence) {
        Ok(cut) => cut,
        Err(refusal) => return Err(refusal),
    };
    iframe_rows(alloc, files, cut.cut(), video)
}

/// The playlist of these I-frames of a video track. The only refusal is `NoMemory`.
pub fn iframe_playlist_of(
    alloc: Global,
    rows: &[IframeRow],
    sequence: u32,
    video: u8,
) -> Result<Vec<u8>, Refusal>
    requires sequence { sequence ≤ 9999 }
    requires video { IsTrackNumber video }
    ensures text { IfOk result (λ text. text.items ≡ iframe_playlist rows.now sequence video) }
    ensures only { IfErr result (λ refusal. refusal ≡ NoMemory) }
{
    match iframes(alloc, rows, sequence, video) {
        Ok(text) => Ok(text),
        Err(_) => Err(Refusal::NoMemory),
    }
}
