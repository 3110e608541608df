//! The answers of clips, whole and in part.

ghost use Rattle.std.specs.Prelude.{◌≡◌, ◌≤◌, IfErr, IfOk, IfSome, IsErrOf, None, Ok};
ghost use Rattle.vod_types.specs.declared.paths.Leaf.TheVariants as leaves;
ghost use Rattle.vod_types.specs.declared.refusal.Refusal.TheVariants.{StoreFailed};
ghost use Rattle.vod_source.specs.Causes.{Rose};
ghost use Rattle.origin_model.specs.Clips.{asked_part};
ghost use Rattle.answer_laws.specs.Refusals.{IsPathRefusal};
ghost use Rattle.flat_clip.specs.Answers.{IsClipRefusal};
ghost use Rattle.flat_lists.specs.Asked.{asking_view, setup_of};
ghost use Rattle.mp4_flat.specs.Asks.{IsPathAsk};
ghost use Rattle.mp4_flat.specs.Flat.{IsClipAnswer, IsClipAsked, IsLeafAnswer};

use flat_clip::{ClipPart, clip_part};
use flat_lists::{Asking, asking_of};
use flat_segments::FlatBody;
use std::alloc::Global;
use vod_source::Store;
use vod_types::{Ask, Asked, ByteRange, Refusal, Settings};

/// Answers a request for a clip, or for the part of it that a range of bytes asks for, which is refused as `BadRange` where it begins
/// behind the clip. Of every store its refusals are that and those that a path may have.
pub fn clip_ask<S: Store>(
    alloc: Global,
    files: &mut S,
    settings: &Settings,
    root: &str,
    ask: Ask,
    sequence: u32,
    asked: Asked,
    range: Option<ByteRange>,
) -> Result<ClipPart, Refusal>
    requires ask { IsPathAsk ask }
    requires leaf { ask.leaf ≡ leaves.Clip sequence asked }
    ensures told { IfSome (S.content files.old) (λ known.
        IsClipAsked (setup_of settings.now root.now known) range ask result (S.log files.old) (S.log files.new)) }
    ensures content { S.content files.new ≡ S.content files.old }
    ensures later { S.faults files.old ≤ S.faults files.new }
    ensures store_failed { IsErrOf result StoreFailed → Rose (S.faults files.old) (S.faults files.new) }
    // Which part it is.
    ensures asked { IfOk result (λ part. asked_part range part.length ≡ Ok (part.first, part.last)) }
    ensures refused { IfErr result (IsClipRefusal range) }
{
    let asking = match asking_of(alloc, files, root, ask) {
        Ok(asking) => asking,
        Err(refusal) => return Err(refusal),
    };
    part_answer(
        alloc, files, settings, root, &asking, sequence, asked, range,
    )
}

/// Answers a name of a whole clip.
pub(crate) fn clip_answer<S: Store>(
    alloc: Global,
    files: &mut S,
    settings: &Settings,
    root: &str,
    asking: &Asking,
    sequence: u32,
    asked: Asked,
) -> Result<FlatBody, Refusal>
    ensures told { IfSome (S.content files.old) (λ known.
        IsLeafAnswer (setup_of settings.now root.now known) (asking_view asking.now) (leaves.Clip sequence asked) result
        (S.log files.old) (S.log files.new)) }
    ensures content { S.content files.new ≡ S.content files.old }
    ensures later { S.faults files.old ≤ S.faults files.new }
    ensures store_failed { IsErrOf result StoreFailed → Rose (S.faults files.old) (S.faults files.new) }
    ensures refused { IfErr result IsPathRefusal }
{
    match part_answer(alloc, files, settings, root, asking, sequence, asked, None) {
        Ok(part) => Ok(FlatBody {
            bytes: part.bytes,
            cut: None,
        }),
        Err(refusal) => Err(refusal),
    }
}

// The part of the clip of a sequence.
fn part_answer<S: Store>(
    alloc: Global,
    files: &mut S,
    settings: &Settings,
    root: &str,
    asking: &Asking,
    sequence: u32,
    asked: Asked,
    range: Option<ByteRange>,
) -> Result<ClipPart, Refusal>
    ensures told { IfSome (S.content files.old) (λ known.
        IsClipAnswer (setup_of settings.now root.now known) (asking_view asking.now) sequence asked range result
        (S.log files.old) (S.log files.new)) }
    ensures content { S.content files.new ≡ S.content files.old }
    ensures later { S.faults files.old ≤ S.faults files.new }
    ensures store_failed { IsErrOf result StoreFailed → Rose (S.faults files.old) (S.faults files.new) }
    ensures asked { IfOk result (λ part. asked_part range part.length ≡ Ok (part.first, part.last)) }
    ensures refused { IfErr result (IsClipRefusal range) }
{
    let timeline = match asking.timeline(alloc, root, sequence) {
        Ok(timeline) => timeline,
        Err(refusal) => return Err(refusal),
    };
    clip_part(
        alloc,
        files,
        &timeline,
        sequence,
        asked,
        !settings.ignore_edits,
        range,
    )
}
