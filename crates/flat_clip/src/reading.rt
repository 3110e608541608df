//! The bytes of the samples that have bytes in a part of a clip.

ghost use Rattle.std.specs.Prelude.{◌≡◌, ◌++◌, ◌≤◌, ◌⊎◌, map, flat_map, OnOk, IfErr, IfSome, IsErrOf, All};
ghost use Rattle.vod_types.specs.declared.refusal.Refusal.TheVariants.{NoMemory, StoreFailed};
ghost use Rattle.vod_source.specs.Calls.{LogsReads};
ghost use Rattle.vod_source.specs.Causes.{Rose};
ghost use Rattle.answer_laws.specs.Refusals.{IsPathRefusal};
ghost use Rattle.flat_clip.specs.Parts.{row_part, row_reads, LiesIf};
ghost use Rattle.flat_clip.specs.Tracks.{placed_view};

use crate::placed::PlacedSample;
use crate::ranges::{meets, met_bytes};
use std::alloc::Global;
use vod_source::{ReadFault, Store, read_range};
use vod_types::Refusal;

/// Puts the bytes of the samples that are in a part behind others, sample by sample. What is refused is want of memory or a
/// failure of the store.
pub(crate) fn read_samples<S: Store>(
    alloc: Global,
    files: &mut S,
    name: &str,
    part: (u64, u64),
    samples: &[PlacedSample],
    bytes: &mut Vec<u8>,
) -> Result<(), Refusal>
    requires { All (LiesIf name.now part (S.content files.old)) (map placed_view samples.now) }
    ensures told { IfSome (S.content files.old) (λ known. OnOk result (bytes.new.items ≡ bytes.old.items ++ flat_map (row_part name.now part known) (map placed_view samples.now))) }
    ensures logged { LogsReads result (flat_map (row_reads name.now part) (map placed_view samples.now)) (S.log files.old) (S.log files.new) }
    ensures only { IfErr result (λ refusal. (refusal ≡ NoMemory) ⊎ (refusal ≡ StoreFailed)) }
    ensures content { S.content files.new ≡ S.content files.old }
    ensures later { S.faults files.old ≤ S.faults files.new }
    ensures store_failed { IsErrOf result StoreFailed → Rose (S.faults files.old) (S.faults files.new) }
    ensures refused { IfErr result IsPathRefusal }
{
    for sample in samples {
        match read_met(alloc, files, name, part, sample, bytes) {
            Ok(()) => {}
            Err(refusal) => return Err(refusal),
        }
    }
    Ok(())
}

// Puts the bytes of a sample that are in a part behind others.
fn read_met<S: Store>(
    alloc: Global,
    files: &mut S,
    name: &str,
    part: (u64, u64),
    sample: &PlacedSample,
    bytes: &mut Vec<u8>,
) -> Result<(), Refusal>
    requires { LiesIf name.now part (S.content files.old) (placed_view sample.now) }
    ensures told { IfSome (S.content files.old) (λ known. OnOk result (bytes.new.items ≡ bytes.old.items ++ row_part name.now part known (placed_view sample.now))) }
    ensures logged { LogsReads result (row_reads name.now part (placed_view sample.now)) (S.log files.old) (S.log files.new) }
    ensures only { IfErr result (λ refusal. (refusal ≡ NoMemory) ⊎ (refusal ≡ StoreFailed)) }
    ensures content { S.content files.new ≡ S.content files.old }
    ensures later { S.faults files.old ≤ S.faults files.new }
    ensures store_failed { IsErrOf result StoreFailed → Rose (S.faults files.old) (S.faults files.new) }
    ensures refused { IfErr result IsPathRefusal }
{
    if !meets(part, sample) {
        return Ok(());
    }
    let (from, count) = met_bytes(part, sample);
    let at = sample.row.at() as u64 + from;
    match read_range(alloc, files, name, at, count) {
        Ok(read) => match bytes.extend_from_slice(&read) {
            Ok(()) => Ok(()),
            Err(_) => Err(Refusal::NoMemory),
        },
        Err(ReadFault::Store) => Err(Refusal::StoreFailed),
        Err(ReadFault::NoMemory) => Err(Refusal::NoMemory),
    }
}
