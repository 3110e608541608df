//! A packaging: the names of lists with what they are answered with, one after another.

ghost use Rattle.std.specs.Prelude.{◌≡◌, ◌≢◌, ◌≤◌, ◌∷◌, [], true, false, All, IfSome};
ghost use Rattle.list_model.specs.Pack.{is_list as is_list_of, pack};
ghost use Rattle.vod_types.specs.declared.refusal.Refusal.TheVariants.{NoMemory, StoreFailed};
ghost use Rattle.vod_source.specs.Causes.{Rose};
ghost use Rattle.origin_model.specs.Answers.{leaf_answer as leaf_answer_of};
ghost use Rattle.flat_lists.specs.Asked.{asking_view, setup_of};
ghost use Rattle.list_model.specs.Names.{IsLeafOf};
ghost use Rattle.mp4_flat.specs.declared.entries.PackEnd.TheVariants as ends;
ghost use Rattle.mp4_flat.specs.Packed.{IsPackedAs};

use crate::answers::leaf_answer;
use crate::entries::{PackEnd, put_body, put_refusal};
use flat_lists::Asking;
use std::alloc::Global;
use vod_source::{Sink, Store};
use vod_types::{Leaf, Refusal, Settings};

/// Puts names with their answers, up to the first list that is refused. The names are those of HLS, or of DASH where `dash`
/// is true.
pub(crate) fn put_names<S: Store, K: Sink>(
    alloc: Global,
    files: &mut S,
    settings: &Settings,
    root: &str,
    asking: &Asking,
    dash: bool,
    leaves: &[Leaf],
    out: &mut K,
) -> PackEnd
    requires leaves { All (IsLeafOf dash) leaves.now }
    ensures told { IfSome (S.content files.old) (λ known.
        IsPackedAs (pack dash (leaf_answer_of (setup_of settings.now root.now known) (asking_view asking.now)) leaves.now) result
        (K.written out.old) (K.written out.new)) }
    ensures content { S.content files.new ≡ S.content files.old }
    ensures kept { K.kept out.new ≡ K.kept out.old }
    ensures later { S.faults files.old ≤ S.faults files.new }
    ensures out_later { K.faults out.old ≤ K.faults out.new }
    ensures store_failed { result ≡ ends.Refused StoreFailed → Rose (S.faults files.old) (S.faults files.new) }
    ensures sink_failed { result ≡ ends.SinkFailed → Rose (K.faults out.old) (K.faults out.new) }
{
    for leaf in leaves {
        match put_name(alloc, files, settings, root, asking, dash, *leaf, out) {
            PackEnd::Whole => {}
            PackEnd::Refused(refusal) => return PackEnd::Refused(refusal),
            PackEnd::SinkFailed => return PackEnd::SinkFailed,
        }
    }
    PackEnd::Whole
}

// Puts one name with its answer, unless it is a list that is refused.
fn put_name<S: Store, K: Sink>(
    alloc: Global,
    files: &mut S,
    settings: &Settings,
    root: &str,
    asking: &Asking,
    dash: bool,
    leaf: Leaf,
    out: &mut K,
) -> PackEnd
    requires leaf { IsLeafOf dash leaf }
    ensures told { IfSome (S.content files.old) (λ known.
        IsPackedAs (pack dash (leaf_answer_of (setup_of settings.now root.now known) (asking_view asking.now)) (leaf ∷ [])) result
        (K.written out.old) (K.written out.new)) }
    ensures content { S.content files.new ≡ S.content files.old }
    ensures kept { K.kept out.new ≡ K.kept out.old }
    ensures later { S.faults files.old ≤ S.faults files.new }
    ensures out_later { K.faults out.old ≤ K.faults out.new }
    ensures store_failed { result ≡ ends.Refused StoreFailed → Rose (S.faults files.old) (S.faults files.new) }
    ensures sink_failed { result ≡ ends.SinkFailed → Rose (K.faults out.old) (K.faults out.new) }
{
    match leaf_answer(alloc, files, settings, root, asking, leaf) {
        Ok(body) => put_body(alloc, out, &leaf, dash, &body),
        Err(refusal) => {
            if ends_at(leaf, &refusal) {
                return PackEnd::Refused(refusal);
            }
            put_refusal(alloc, out, &leaf, dash, &refusal)
        }
    }
}

// Whether a packaging ends where this name has this refusal.
fn ends_at(leaf: Leaf, refusal: &Refusal) -> bool
    ensures list { result ≡ true → refusal.now ≢ NoMemory → refusal.now ≢ StoreFailed → is_list_of leaf ≡ true }
    ensures other { result ≡ false → is_list_of leaf ≡ false }
    ensures memory { result ≡ false → refusal.now ≢ NoMemory }
    ensures store { result ≡ false → refusal.now ≢ StoreFailed }
{
    is_list(leaf) || has_failed(refusal)
}

// Whether a name is that of a list, of which a packaging takes no refusal.
fn is_list(leaf: Leaf) -> bool
    ensures { result ≡ is_list_of leaf }
{
    match leaf {
        Leaf::Master | Leaf::Mpd | Leaf::Index { .. } | Leaf::Iframes { .. } => true,
        Leaf::Init { .. } | Leaf::Segment { .. } | Leaf::Iframe { .. } | Leaf::Clip { .. } => false,
    }
}

/// Whether the store failed or memory ran out.
pub(crate) fn has_failed(refusal: &Refusal) -> bool
    ensures failed { result ≡ true → refusal.now ≢ NoMemory → refusal.now ≢ StoreFailed → ⊥ }
    ensures memory { result ≡ false → refusal.now ≢ NoMemory }
    ensures store { result ≡ false → refusal.now ≢ StoreFailed }
{
    matches!(refusal, Refusal::NoMemory | Refusal::StoreFailed)
}
