//! The whole packaging of a path, put to a sink.

ghost use Rattle.std.specs.Prelude.{◌≡◌, ◌≤◌, All, IfErr, IfOk, IfSome, IsErr, IsErrOf, length, true};
ghost use Rattle.std.specs.Int.{IsInRange};
ghost use Rattle.vod_types.specs.declared.refusal.Refusal.TheVariants.{StoreFailed};
ghost use Rattle.vod_source.specs.Causes.{Rose};
ghost use Rattle.list_model.specs.Names.{IsLeafOf};
ghost use Rattle.list_model.specs.Path.{is_dash as is_dash_of};
ghost use Rattle.origin_model.specs.Answers.{readable_as};
ghost use Rattle.origin_model.specs.Packaging.{is_packed as is_packed_of, packed_by, packed_leaves};
ghost use Rattle.origin_model.specs.Requests.{target_names};
ghost use Rattle.flat_lists.specs.Asked.{asking_view, setup_of};
ghost use Rattle.mp4_flat.specs.declared.entries.PackEnd.TheVariants as ends;
ghost use Rattle.mp4_flat.specs.Packed.{HasFailed, IsPacked, IsPackedAs, is_description as is_description_of, packed_asked};

use crate::dash_names::dash_names;
use crate::entries::PackEnd;
use crate::hls_names::hls_names;
use crate::packaging::put_names;
use flat_lists::{Asking, asking_of};
use std::alloc::Global;
use vod_source::{Sink, Store};
use vod_types::{Ask, Leaf, Refusal, Settings};
use vod_urls::read_path;

/// Puts the whole packaging of the path of a master playlist or of a media presentation description: each name that it lists,
/// and for a master playlist each name that its media playlists list, with its answer.
///
/// A name with a body is put as a line `NAME LENGTH`, or `NAME LENGTH cut 28 BadNal` where the body ends before a bad sample,
/// and then the body; a name that is refused as a line `NAME refused N WORD`. The packaging ends before the first list that is
/// refused, with its refusal, and as `BadPath` for a path out of the grammar or of another kind.
pub fn pack<S: Store, K: Sink>(
    alloc: Global,
    files: &mut S,
    settings: &Settings,
    root: &str,
    path: &[u8],
    out: &mut K,
) -> PackEnd
    ensures told { IfSome (S.content files.old) (λ known.
        IsPacked (setup_of settings.now root.now known) path.now result (K.written out.old) (K.written out.new)) }
    // A path out of the grammar or of another kind asks nothing of the store, and puts nothing.
    ensures unread { IsErr (readable_as is_packed_of path.now) → files.new ≡ files.old }
    ensures unused { IsErr (readable_as is_packed_of path.now) → out.new ≡ out.old }
    ensures content { S.content files.new ≡ S.content files.old }
    ensures kept { K.kept out.new ≡ K.kept out.old }
    ensures later { S.faults files.old ≤ S.faults files.new }
    ensures out_later { K.faults out.old ≤ K.faults out.new }
    ensures store_failed { result ≡ ends.Refused StoreFailed → Rose (S.faults files.old) (S.faults files.new) }
    ensures sink_failed { result ≡ ends.SinkFailed → Rose (K.faults out.old) (K.faults out.new) }
{
    let ask = match read_path(alloc, path) {
        Ok(ask) => ask,
        Err(refusal) => return PackEnd::Refused(refusal),
    };
    if !is_packed(ask.leaf) {
        return PackEnd::Refused(Refusal::BadPath);
    }
    pack_ask(alloc, files, settings, root, ask, out)
}

// Whether a name is that of a master playlist or of a media presentation description.
fn is_packed(leaf: Leaf) -> bool
    ensures { result ≡ is_packed_of leaf }
{
    match leaf {
        Leaf::Master | Leaf::Mpd => true,
        Leaf::Index { .. }
        | Leaf::Init { .. }
        | Leaf::Segment { .. }
        | Leaf::Iframes { .. }
        | Leaf::Iframe { .. }
        | Leaf::Clip { .. } => false,
    }
}

// Puts the packaging that is asked for.
fn pack_ask<S: Store, K: Sink>(
    alloc: Global,
    files: &mut S,
    settings: &Settings,
    root: &str,
    ask: Ask,
    out: &mut K,
) -> PackEnd
    requires packed { is_packed_of ask.leaf ≡ true }
    requires leaf { IsLeafOf (is_dash_of ask.place) ask.leaf }
    requires names { IsInRange 1 32 (length (target_names ask.target)) }
    ensures told { IfSome (S.content files.old) (λ known.
        IsPackedAs (packed_asked (setup_of settings.now root.now known) ask) result (K.written out.old) (K.written out.new)) }
    ensures content { S.content files.new ≡ S.content files.old }
    ensures kept { K.kept out.new ≡ K.kept out.old }
    ensures later { S.faults files.old ≤ S.faults files.new }
    ensures out_later { K.faults out.old ≤ K.faults out.new }
    ensures store_failed { result ≡ ends.Refused StoreFailed → Rose (S.faults files.old) (S.faults files.new) }
    ensures sink_failed { result ≡ ends.SinkFailed → Rose (K.faults out.old) (K.faults out.new) }
{
    let leaf = ask.leaf;
    match asking_of(alloc, files, root, ask) {
        Ok(asking) => pack_names(alloc, files, settings, root, &asking, leaf, out),
        Err(refusal) => PackEnd::Refused(refusal),
    }
}

// Puts the packaging of what a request is about, that of HLS or of DASH by the list that is asked for.
fn pack_names<S: Store, K: Sink>(
    alloc: Global,
    files: &mut S,
    settings: &Settings,
    root: &str,
    asking: &Asking,
    leaf: Leaf,
    out: &mut K,
) -> PackEnd
    requires packed { is_packed_of leaf ≡ true }
    ensures told { IfSome (S.content files.old) (λ known.
        IsPackedAs (packed_by (setup_of settings.now root.now known) (is_description_of leaf) (asking_view asking.now) leaf) result (K.written out.old) (K.written out.new)) }
    ensures content { S.content files.new ≡ S.content files.old }
    ensures kept { K.kept out.new ≡ K.kept out.old }
    ensures later { S.faults files.old ≤ S.faults files.new }
    ensures out_later { K.faults out.old ≤ K.faults out.new }
    ensures store_failed { result ≡ ends.Refused StoreFailed → Rose (S.faults files.old) (S.faults files.new) }
    ensures sink_failed { result ≡ ends.SinkFailed → Rose (K.faults out.old) (K.faults out.new) }
{
    let dash = is_description(leaf);
    match names_of(alloc, files, settings, root, asking, leaf) {
        Ok(names) => put_names(alloc, files, settings, root, asking, dash, &names, out),
        Err(refusal) => PackEnd::Refused(refusal),
    }
}

// Whether a name is that of a media presentation description.
fn is_description(leaf: Leaf) -> bool
    ensures { result ≡ is_description_of leaf }
{
    matches!(leaf, Leaf::Mpd)
}

// The names of the packaging of a list.
fn names_of<S: Store>(
    alloc: Global,
    files: &mut S,
    settings: &Settings,
    root: &str,
    asking: &Asking,
    leaf: Leaf,
) -> Result<Vec<Leaf>, Refusal>
    requires packed { is_packed_of leaf ≡ true }
    ensures told { IfSome (S.content files.old) (λ known.
        IfOk result (λ names. names.items ≡ packed_leaves (setup_of settings.now root.now known) (asking_view asking.now) leaf)) }
    ensures each { IfOk result (λ names. All (IsLeafOf (is_description_of leaf)) names.items) }
    ensures failed { IfErr result HasFailed }
    ensures content { S.content files.new ≡ S.content files.old }
    ensures later { S.faults files.old ≤ S.faults files.new }
    ensures store_failed { IsErrOf result StoreFailed → Rose (S.faults files.old) (S.faults files.new) }
{
    match leaf {
        Leaf::Mpd => dash_names(alloc, files, settings, root, asking),
        _ => hls_names(alloc, files, settings, root, asking),
    }
}
