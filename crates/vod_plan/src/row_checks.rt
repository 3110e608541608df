//! One row of a plan, checked.

ghost use Rattle.std.specs.Prelude.{◌≡◌, ◌≢◌, ◌+◌, ◌<◌, ◌≤◌, true, false, None, Some, map, IfErr, OnOk};
ghost use Rattle.vod_types.specs.declared.refusal.Refusal.TheVariants.{NoMemory, SampleTooLong, OutOfFile, BackwardOffset, StoreFailed};
ghost use Rattle.media_model.specs.WritingOrder.{of_track};
ghost use Rattle.origin_model.specs.Samples.{greatest_size as greatest_size_of};
ghost use Rattle.vod_plan.specs.Dues.{shown, IsDue};
ghost use Rattle.vod_plan.specs.RowFaults.{facts_of, name_in, row_fault, size_in, EndsLow};

use crate::samples::{DueRow, TimedSample};
use crate::spans::PlanPiece;
use std::alloc::Global;
use vod_types::{Form, Kind, Name, Refusal};

/// Whether a row of a kind has a fault in a form: the first of `SampleTooLong`, `OutOfFile` and in a transport stream
/// `BackwardOffset`.
pub(crate) fn check_row(
    alloc: Global,
    form: Form,
    kind: Kind,
    pieces: &[PlanPiece],
    due: &DueRow,
) -> Result<(), Refusal>
    requires due { IsDue due.now }
    ensures sound { OnOk result (row_fault form (map facts_of pieces.now) (of_track kind (shown form due.now)) ≡ None) }
    ensures ends { OnOk result (EndsLow (shown form due.now)) }
    ensures refused { IfErr result (λ refusal. refusal ≢ NoMemory → row_fault form (map facts_of pieces.now) (of_track kind (shown form due.now)) ≡ Some refusal) }
    ensures no_store { IfErr result (λ refusal. refusal ≢ StoreFailed) }
{
    if due.sample.size > greatest_size(form, kind) {
        return Err(too_long(alloc, name_of(pieces, due.file), &due.sample));
    }
    if !fits(
        size_of(pieces, due.file),
        due.sample.offset,
        due.sample.size,
    ) {
        return Err(out_of_file(alloc, name_of(pieces, due.file), &due.sample));
    }
    if due.is_backward(form) {
        return Err(backward(alloc, name_of(pieces, due.file), &due.sample));
    }
    Ok(())
}

// The greatest size of a sample: an AAC frame in a transport stream has to fit an ADTS header.
fn greatest_size(form: Form, kind: Kind) -> u32
    ensures { result ≡ greatest_size_of form kind }
{
    match (form, kind) {
        (Form::Ts, Kind::Audio) => 8184,
        (Form::Ts, Kind::Video) => 16_777_216,
        (Form::Fmp4, _) => 16_777_216,
    }
}

// The name of the file of a place among the pieces, and nothing past the last one.
fn name_of(pieces: &[PlanPiece], file: u32) -> &str
    ensures { result.now ≡ name_in (map facts_of pieces.now) file }
{
    match pieces.get(file as usize) {
        Some(piece) => piece.meta.name(),
        None => "",
    }
}

// Its size in bytes.
fn size_of(pieces: &[PlanPiece], file: u32) -> u64
    ensures { result ≡ size_in (map facts_of pieces.now) file }
{
    match pieces.get(file as usize) {
        Some(piece) => piece.meta.size(),
        None => 0,
    }
}

// Whether a file of this size has so many bytes from a place on.
fn fits(file: u64, at: u128, size: u32) -> bool
    ensures within { result ≡ true → at + size ≤ file }
    ensures beyond { result ≡ false → file < at + size }
{
    let size = u64::from(size);
    size <= file && at <= u128::from(file - size)
}

fn too_long(alloc: Global, name: &str, sample: &TimedSample) -> Refusal
    ensures is { result ≢ NoMemory → result ≡ SampleTooLong name.now sample.now.number sample.now.size }
    ensures no_store { result ≢ StoreFailed }
{
    match Name::new(alloc, name) {
        Ok(name) => Refusal::SampleTooLong {
            name,
            sample: u64::from(sample.number),
            size: sample.size,
        },
        Err(refusal) => refusal,
    }
}

fn out_of_file(alloc: Global, name: &str, sample: &TimedSample) -> Refusal
    ensures is { result ≢ NoMemory → result ≡ OutOfFile name.now sample.now.number }
    ensures no_store { result ≢ StoreFailed }
{
    match Name::new(alloc, name) {
        Ok(name) => Refusal::OutOfFile {
            name,
            sample: u64::from(sample.number),
        },
        Err(refusal) => refusal,
    }
}

fn backward(alloc: Global, name: &str, sample: &TimedSample) -> Refusal
    ensures is { result ≢ NoMemory → result ≡ BackwardOffset name.now sample.now.number }
    ensures no_store { result ≢ StoreFailed }
{
    match Name::new(alloc, name) {
        Ok(name) => Refusal::BackwardOffset {
            name,
            sample: u64::from(sample.number),
        },
        Err(refusal) => refusal,
    }
}
