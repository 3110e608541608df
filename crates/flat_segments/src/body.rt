//! The body of a segment.

ghost use Rattle.std.specs.Prelude.{◌≡◌, ◌≤◌, Ok, IfErr, IfOk, IfSome, IsErrOf, fold, map, max};
ghost use Rattle.vod_types.specs.declared.refusal.Refusal.TheVariants.{StoreFailed};
ghost use Rattle.vod_types.specs.declared.segments.Form.TheVariants.{Fmp4, Ts};
ghost use Rattle.vod_source.specs.Causes.{Rose};
ghost use Rattle.vod_source.specs.Calls.{Came};
ghost use Rattle.origin_model.specs.Bodies.{segment_body as segment_body_of};
ghost use Rattle.fmp4_writer.specs.Progress as fragments;
ghost use Rattle.ts_writer.specs.Conditions as streams;
ghost use Rattle.ts_writer.specs.Progress.{segment_begun};
ghost use Rattle.answer_laws.specs.Refusals.{IsPathRefusal};
ghost use Rattle.flat_segments.specs.Bodies.{IsInPackets, body_reads, bytes_with_cut, flat_shown, fragment_reads, fragment_shown, stream_reads, stream_shown};
ghost use Rattle.flat_segments.specs.Segments.{flat_plan, flat_rows_view, largest_of, AreWritableBy};

use crate::rows::FlatRows;
use fmp4_writer::write_fragment;
use std::alloc::Global;
use ts_writer::{TsSegment, write_stream};
use vod_source::{CopyFault, Store, VecSink};
use vod_types::{Asked, Form, Refusal, Row};

/// The bytes of a body. `cut` is there where it ends before a bad sample: the file's place among the needed pieces of the
/// segment, from 0, and the sample's number in its track, from 0.
#[derive(Debug, Drop)]
pub struct FlatBody {
    pub bytes: Vec<u8>,
    pub cut: Option<(u32, u64)>,
}

/// The body of the segment of a number in a form, for which each sample's range is read once in writing order, in a transport
/// stream up to the first bad sample. The only refusals are `StoreFailed` and `NoMemory`.
pub fn segment_body<S: Store>(
    alloc: Global,
    files: &mut S,
    number: u32,
    form: Form,
    asked: Asked,
    rows: FlatRows,
) -> Result<FlatBody, Refusal>
    requires writable { AreWritableBy form asked (S.content files.old) rows }
    ensures told { IfSome (S.content files.old) (λ known.
        Came flat_shown result (Ok (bytes_with_cut (segment_body_of known (flat_plan rows) number form asked)))
        (body_reads known (flat_plan rows) form) (S.log files.old) (S.log files.new)) }
    ensures content { S.content files.new ≡ S.content files.old }
    ensures later { S.faults files.old ≤ S.faults files.new }
    ensures store_failed { IsErrOf result StoreFailed → Rose (S.faults files.old) (S.faults files.new) }
    ensures refused { IfErr result IsPathRefusal }
    ensures packets { form ≡ Ts → IfOk result IsInPackets }
{
    match form {
        Form::Ts => stream(alloc, files, asked, rows),
        Form::Fmp4 => fragment(alloc, files, number, rows),
    }
}

// The fragment of a number.
fn fragment<S: Store>(
    alloc: Global,
    files: &mut S,
    number: u32,
    rows: FlatRows,
) -> Result<FlatBody, Refusal>
    requires writable { fragments.AreWritable (S.content files.old) (flat_rows_view rows) }
    ensures told { IfSome (S.content files.old) (λ known.
        Came flat_shown result (Ok (fragment_shown known number rows)) (fragment_reads rows) (S.log files.old) (S.log files.new)) }
    ensures content { S.content files.new ≡ S.content files.old }
    ensures later { S.faults files.old ≤ S.faults files.new }
    ensures store_failed { IsErrOf result StoreFailed → Rose (S.faults files.old) (S.faults files.new) }
    ensures refused { IfErr result IsPathRefusal }
{
    let mut rows = rows;
    let mut sink = VecSink::new(Vec::new(alloc));
    match write_fragment(number, &mut rows, files, &mut sink) {
        Ok(()) => Ok(FlatBody {
            bytes: sink.into_vec(),
            cut: None,
        }),
        Err(CopyFault::Store) => Err(Refusal::StoreFailed),
        Err(CopyFault::Sink) => Err(Refusal::NoMemory),
    }
}

// The transport stream of asked tracks.
fn stream<S: Store>(
    alloc: Global,
    files: &mut S,
    asked: Asked,
    rows: FlatRows,
) -> Result<FlatBody, Refusal>
    requires writable { streams.AreWritable (S.content files.old) (flat_rows_view rows) (segment_begun (largest_of rows) asked rows.hevc) }
    ensures told { IfSome (S.content files.old) (λ known.
        Came flat_shown result (Ok (stream_shown known (segment_begun (largest_of rows) asked rows.hevc).stream rows)) (stream_reads known rows.hevc rows) (S.log files.old) (S.log files.new)) }
    ensures content { S.content files.new ≡ S.content files.old }
    ensures later { S.faults files.old ≤ S.faults files.new }
    ensures store_failed { IsErrOf result StoreFailed → Rose (S.faults files.old) (S.faults files.new) }
    ensures refused { IfErr result IsPathRefusal }
    ensures packets { IfOk result IsInPackets }
{
    match TsSegment::new(alloc, largest(&rows), asked, rows.hevc) {
        Ok(segment) => written(alloc, files, segment, rows),
        Err(_) => Err(Refusal::NoMemory),
    }
}

// A transport stream that is to be written.
fn written<S: Store>(
    alloc: Global,
    files: &mut S,
    segment: TsSegment,
    rows: FlatRows,
) -> Result<FlatBody, Refusal>
    requires begun { segment ≡ segment_begun segment.largest segment.stream.asked segment.stream.hevc }
    requires writable { streams.AreWritable (S.content files.old) (flat_rows_view rows) segment }
    ensures told { IfSome (S.content files.old) (λ known.
        Came flat_shown result (Ok (stream_shown known segment.stream rows)) (stream_reads known segment.stream.hevc rows) (S.log files.old) (S.log files.new)) }
    ensures content { S.content files.new ≡ S.content files.old }
    ensures later { S.faults files.old ≤ S.faults files.new }
    ensures store_failed { IsErrOf result StoreFailed → Rose (S.faults files.old) (S.faults files.new) }
    ensures refused { IfErr result IsPathRefusal }
    ensures packets { IfOk result IsInPackets }
{
    let mut rows = rows;
    let mut sink = VecSink::new(Vec::new(alloc));
    match write_stream(segment, &mut rows, files, &mut sink) {
        Ok(cut) => Ok(FlatBody {
            bytes: sink.into_vec(),
            cut,
        }),
        Err(CopyFault::Store) => Err(Refusal::StoreFailed),
        Err(CopyFault::Sink) => Err(Refusal::NoMemory),
    }
}

// The greatest size of a sample of these rows.
fn largest(rows: &FlatRows) -> u32
    ensures { result ≡ largest_of rows.now }
{
    largest_from(largest_from(0, &rows.video), &rows.audio)
}

fn largest_from(least: u32, rows: &[Row]) -> u32
    ensures { result ≡ fold max least (map (λ row. row.sample.size) rows.now) }
{
    let mut largest = least;
    for row in rows {
        largest = largest.max(row.sample.size);
    }
    largest
}
