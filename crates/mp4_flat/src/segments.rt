//! The answers of init segments, segments and single I-frames.

ghost use Rattle.std.specs.Prelude.{◌≡◌, ◌≤◌, IfSome, IfErr, IfOk, IsErrOf};
ghost use Rattle.vod_types.specs.declared.paths.Leaf.TheVariants as leaves;
ghost use Rattle.vod_types.specs.declared.refusal.Refusal.TheVariants.{StoreFailed};
ghost use Rattle.vod_source.specs.Causes.{Rose};
ghost use Rattle.vod_types.specs.declared.segments.Form.TheVariants.{Ts};
ghost use Rattle.flat_segments.specs.Bodies.{IsInPackets};
ghost use Rattle.flat_lists.specs.Asked.{asking_view, setup_of};
ghost use Rattle.answer_laws.specs.Refusals.{IsPathRefusal};
ghost use Rattle.mp4_flat.specs.Flat.{IsLeafAnswer};

use crate::init::init_of_part;
use crate::sequence::SequenceCut;
use flat_lists::Asking;
use flat_segments::{FlatBody, iframe_row, segment_body, segment_rows};
use std::alloc::Global;
use vod_source::Store;
use vod_types::{Asked, Form, Refusal, Settings};

/// Answers a request for an initialization segment.
pub(crate) fn init_answer<S: Store>(
    alloc: Global,
    files: &mut S,
    settings: &Settings,
    root: &str,
    asking: &Asking,
    part: u32,
    sequence: u32,
    asked: Asked,
) -> Result<FlatBody, Refusal>
    ensures told { IfSome (S.content files.old) (λ known.
        IsLeafAnswer (setup_of settings.now root.now known) (asking_view asking.now) (leaves.Init part sequence asked) result
        (S.log files.old) (S.log files.new)) }
    ensures content { S.content files.new ≡ S.content files.old }
    ensures later { S.faults files.old ≤ S.faults files.new }
    ensures store_failed { IsErrOf result StoreFailed → Rose (S.faults files.old) (S.faults files.new) }
    ensures refused { IfErr result IsPathRefusal }
{
    let timeline = match asking.timeline(alloc, root, sequence) {
        Ok(timeline) => timeline,
        Err(refusal) => return Err(refusal),
    };
    match init_of_part(alloc, files, &timeline, part, !settings.ignore_edits, asked) {
        Ok(bytes) => Ok(FlatBody { bytes, cut: None }),
        Err(refusal) => Err(refusal),
    }
}

/// Answers a request for a segment.
pub(crate) fn segment_answer<S: Store>(
    alloc: Global,
    files: &mut S,
    settings: &Settings,
    root: &str,
    asking: &Asking,
    number: u32,
    sequence: u32,
    asked: Asked,
    form: Form,
) -> Result<FlatBody, Refusal>
    ensures told { IfSome (S.content files.old) (λ known.
        IsLeafAnswer (setup_of settings.now root.now known) (asking_view asking.now) (leaves.Segment number sequence asked form) result
        (S.log files.old) (S.log files.new)) }
    ensures content { S.content files.new ≡ S.content files.old }
    ensures later { S.faults files.old ≤ S.faults files.new }
    ensures store_failed { IsErrOf result StoreFailed → Rose (S.faults files.old) (S.faults files.new) }
    ensures refused { IfErr result IsPathRefusal }
    ensures packets { form ≡ Ts → IfOk result IsInPackets }
{
    let cut = match SequenceCut::new(alloc, settings, root, asking, sequence) {
        Ok(cut) => cut,
        Err(refusal) => return Err(refusal),
    };
    let rows = match segment_rows(alloc, files, cut.cut(), asked, number, form) {
        Ok(rows) => rows,
        Err(refusal) => return Err(refusal),
    };
    segment_body(alloc, files, number, form, asked, rows)
}

/// Answers a request for an I-frame: a transport stream of that sample alone.
pub(crate) fn iframe_answer<S: Store>(
    alloc: Global,
    files: &mut S,
    settings: &Settings,
    root: &str,
    asking: &Asking,
    number: u32,
    index: u32,
    sequence: u32,
    video: u8,
) -> Result<FlatBody, Refusal>
    ensures told { IfSome (S.content files.old) (λ known.
        IsLeafAnswer (setup_of settings.now root.now known) (asking_view asking.now) (leaves.Iframe number index sequence video) result
        (S.log files.old) (S.log files.new)) }
    ensures content { S.content files.new ≡ S.content files.old }
    ensures later { S.faults files.old ≤ S.faults files.new }
    ensures store_failed { IsErrOf result StoreFailed → Rose (S.faults files.old) (S.faults files.new) }
    ensures refused { IfErr result IsPathRefusal }
    ensures packets { IfOk result IsInPackets }
{
    let cut = match SequenceCut::new(alloc, settings, root, asking, sequence) {
        Ok(cut) => cut,
        Err(refusal) => return Err(refusal),
    };
    let asked = Asked {
        video: Some(video),
        audio: None,
    };
    let row = match iframe_row(alloc, files, cut.cut(), video, number, index) {
        Ok(row) => row,
        Err(refusal) => return Err(refusal),
    };
    segment_body(alloc, files, number, Form::Ts, asked, row)
}
