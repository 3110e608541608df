//! The faults of the samples that have bytes in a part of a clip.

ghost use Rattle.std.specs.Prelude.{◌≡◌, ◌≢◌, ◌+◌, ◌≤◌, ◌<◌, None, Some, true, false, length, map, IfOk, IfErr, All};
ghost use Rattle.vod_types.specs.declared.refusal.Refusal.TheVariants.{NoMemory, OutOfFile, SampleTooLong, StoreFailed};
ghost use Rattle.answer_laws.specs.Refusals.{IsPathRefusal};
ghost use Rattle.flat_clip.specs.Parts.{first_fault, met_fault, row_fault};
ghost use Rattle.flat_clip.specs.Tracks.{placed_view};

use crate::placed::PlacedSample;
use crate::ranges::meets;
use crate::sample::ClipSample;
use std::alloc::Global;
use vod_types::{Name, Refusal};

/// The first fault of the samples that have bytes in a part, in a file of this name and size.
pub(crate) fn check_samples(
    alloc: Global,
    name: &str,
    file_size: u64,
    part: (u64, u64),
    samples: &[PlacedSample],
) -> Result<(), Refusal>
    ensures sound { IfOk result (λ done. first_fault name.now part file_size (map placed_view samples.now) ≡ None) }
    ensures fault { IfErr result (λ refusal. refusal ≢ NoMemory → first_fault name.now part file_size (map placed_view samples.now) ≡ Some refusal) }
    ensures not_failed { IfErr result (λ refusal. refusal ≢ StoreFailed) }
    ensures refused { IfErr result IsPathRefusal }
{
    for sample in samples {
        match check_met(alloc, name, file_size, part, sample) {
            Ok(()) => {}
            Err(refusal) => return Err(refusal),
        }
    }
    Ok(())
}

// The first fault of a sample if it has bytes in a part.
fn check_met(
    alloc: Global,
    name: &str,
    file_size: u64,
    part: (u64, u64),
    sample: &PlacedSample,
) -> Result<(), Refusal>
    ensures sound { IfOk result (λ done. met_fault name.now part file_size (placed_view sample.now) ≡ None) }
    ensures fault { IfErr result (λ refusal. refusal ≢ NoMemory → met_fault name.now part file_size (placed_view sample.now) ≡ Some refusal) }
    ensures not_failed { IfErr result (λ refusal. refusal ≢ StoreFailed) }
    ensures refused { IfErr result IsPathRefusal }
{
    if meets(part, sample) {
        check_sample(alloc, name, file_size, sample)
    } else {
        Ok(())
    }
}

// The first fault of a sample.
fn check_sample(
    alloc: Global,
    name: &str,
    file_size: u64,
    sample: &PlacedSample,
) -> Result<(), Refusal>
    ensures sound { IfOk result (λ done. row_fault name.now file_size (placed_view sample.now) ≡ None) }
    ensures fault { IfErr result (λ refusal. refusal ≢ NoMemory → row_fault name.now file_size (placed_view sample.now) ≡ Some refusal) }
    ensures not_failed { IfErr result (λ refusal. refusal ≢ StoreFailed) }
    ensures refused { IfErr result IsPathRefusal }
{
    if sample.row.size() > 16_777_216 {
        return Err(too_long(alloc, name, &sample.row));
    }
    if !fits(file_size, sample.row.at(), sample.row.size()) {
        return Err(out_of_file(alloc, name, &sample.row));
    }
    Ok(())
}

// Whether a file of this size has so many bytes from a place on.
fn fits(file: u64, at: u128, size: u32) -> bool
    ensures within { result ≡ true → at + size ≤ file }
    ensures beyond { result ≡ false → file < at + size }
{
    let size = u64::from(size);
    size <= file && at <= u128::from(file - size)
}

fn too_long(alloc: Global, name: &str, row: &ClipSample) -> Refusal
    ensures fault { result ≢ NoMemory → result ≡ SampleTooLong name.now row.now.number row.now.sample.size }
    ensures not_failed { result ≢ StoreFailed }
    ensures refused { IsPathRefusal result }
{
    match Name::new(alloc, name) {
        Ok(name) => Refusal::SampleTooLong {
            name,
            sample: row.number(),
            size: row.size(),
        },
        Err(refusal) => refusal,
    }
}

fn out_of_file(alloc: Global, name: &str, row: &ClipSample) -> Refusal
    ensures fault { result ≢ NoMemory → result ≡ OutOfFile name.now row.now.number }
    ensures not_failed { result ≢ StoreFailed }
    ensures refused { IsPathRefusal result }
{
    match Name::new(alloc, name) {
        Ok(name) => Refusal::OutOfFile {
            name,
            sample: row.number(),
        },
        Err(refusal) => refusal,
    }
}
