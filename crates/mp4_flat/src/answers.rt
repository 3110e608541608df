//! What a name is answered with, once it is known what its request is about.

ghost use Rattle.std.specs.Prelude.{◌≡◌, ◌≤◌, true, IfErr, IfOk, IfSome, IsErrOf};
ghost use Rattle.vod_source.specs.Causes.{Rose};
ghost use Rattle.vod_types.specs.declared.refusal.Refusal.TheVariants.{StoreFailed};
ghost use Rattle.flat_segments.specs.Bodies.{IsInPackets};
ghost use Rattle.flat_lists.specs.Asked.{asking_view, setup_of};
ghost use Rattle.answer_laws.specs.Refusals.{IsPathRefusal};
ghost use Rattle.mp4_flat.specs.Flat.{is_stream, IsLeafAnswer};
ghost use Rattle.mp4_flat.specs.Packed.{IsOfProtocol};

use crate::clips::clip_answer;
use crate::lists::{description_answer, iframes_answer, index_answer, master_answer};
use crate::segments::{iframe_answer, init_answer, segment_answer};
use flat_lists::Asking;
use flat_segments::FlatBody;
use std::alloc::Global;
use vod_source::Store;
use vod_types::{Leaf, Refusal, Settings};

/// Answers a name.
pub(crate) fn leaf_answer<S: Store>(
    alloc: Global,
    files: &mut S,
    settings: &Settings,
    root: &str,
    asking: &Asking,
    leaf: Leaf,
) -> Result<FlatBody, Refusal>
    requires { IsOfProtocol leaf }
    ensures told { IfSome (S.content files.old) (λ known.
        IsLeafAnswer (setup_of settings.now root.now known) (asking_view asking.now) leaf result
        (S.log files.old) (S.log files.new)) }
    ensures content { S.content files.new ≡ S.content files.old }
    ensures later { S.faults files.old ≤ S.faults files.new }
    ensures store_failed { IsErrOf result StoreFailed → Rose (S.faults files.old) (S.faults files.new) }
    ensures refused { IfErr result IsPathRefusal }
    ensures packets { is_stream leaf ≡ true → IfOk result IsInPackets }
{
    match leaf {
        Leaf::Master => master_answer(alloc, files, settings, root, asking),
        Leaf::Mpd => description_answer(alloc, files, settings, root, asking),
        Leaf::Index { sequence, asked } => {
            index_answer(alloc, files, settings, root, asking, sequence, asked)
        }
        Leaf::Init {
            part,
            sequence,
            asked,
        } => init_answer(alloc, files, settings, root, asking, part, sequence, asked),
        Leaf::Segment {
            number,
            sequence,
            asked,
            form,
        } => segment_answer(
            alloc, files, settings, root, asking, number, sequence, asked, form,
        ),
        Leaf::Iframes { sequence, video } => {
            iframes_answer(alloc, files, settings, root, asking, sequence, video)
        }
        Leaf::Iframe {
            number,
            index,
            sequence,
            video,
        } => iframe_answer(
            alloc, files, settings, root, asking, number, index, sequence, video,
        ),
        Leaf::Clip { sequence, asked } => {
            clip_answer(alloc, files, settings, root, asking, sequence, asked)
        }
    }
}
