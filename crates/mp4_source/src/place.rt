//! The place of the movie in a file.

ghost use Rattle.std.specs.Prelude.{◌≡◌, ◌≤◌, ◌⊎◌, IfOk, IfErr, IfSome, IsErrOf, MatchResult};
ghost use Rattle.vod_types.specs.declared.Refusal.TheVariants.{NoMemory};
ghost use Rattle.vod_source.specs.Calls.{AnswersUnlessFailed, LogsReads};
ghost use Rattle.vod_source.specs.Causes.{Rose};
ghost use Rattle.mp4_source.specs.Places.{stored_place, stored_place_reads, IsReadable, IsPlaceRefusal};
ghost use Rattle.mp4_source.specs.Sought.{refusal_of};

use crate::seek::{SeekFault, seek};
use mp4_model::MoviePlace;
use std::alloc::Global;
use vod_source::{Store, StoreFailed};
use vod_types::{Name, Refusal};

/// The place of the `moov` box in a file, by one read of 16 bytes, or of what is left of the file,
/// for each top box up to it.
///
/// The file is refused as `NoFile`, or with the first fault on the way: `BadBox` with the place of a
/// header that breaks the rules, `NoMovie` where `moov` isn't among the first 64 top boxes, and
/// `MovieTooLong` where it has more than 33,554,432 bytes. `StoreFailed` is answered only where a
/// call on the store failed, and `NoMemory` where there is none for the name in a refusal.
pub fn find<S: Store>(alloc: Global, store: &mut S, name: &str) -> Result<MoviePlace, Refusal>
    ensures content { S.content store.new ≡ S.content store.old }
    ensures told { IfSome (S.content store.old) (λ files. AnswersUnlessFailed (λ place. place) result (stored_place files name.now)) }
    ensures log { IfSome (S.content store.old) (λ files.
        LogsReads result (stored_place_reads files name.now) (S.log store.old) (S.log store.new)) }
    ensures readable { IfOk result IsReadable }
    ensures refused { IfErr result (IsPlaceRefusal name.now) }
    ensures later { S.faults store.old ≤ S.faults store.new }
    ensures failed { IsErrOf result Refusal.StoreFailed → Rose (S.faults store.old) (S.faults store.new) }
{
    let file_size = match store.size(name) {
        Ok(Some(file_size)) => file_size,
        Ok(None) => return Err(no_file(alloc, name)),
        Err(StoreFailed) => return Err(Refusal::StoreFailed),
    };
    match seek(store, name, file_size) {
        Ok((at, size)) => Ok(MoviePlace {
            file_size,
            at,
            size,
        }),
        Err(fault) => Err(refusal(alloc, name, fault)),
    }
}

// That there is no such file.
fn no_file(alloc: Global, name: &str) -> Refusal
    ensures { (result ≡ NoMemory) ⊎ (result ≡ Refusal.NoFile name.now) }
{
    match Name::new(alloc, name) {
        Ok(name) => Refusal::NoFile { name },
        Err(refusal) => refusal,
    }
}

// The refusal for a fault on the way, or want of memory for the file's name in it.
fn refusal(alloc: Global, name: &str, fault: SeekFault) -> Refusal
    ensures { (result ≡ NoMemory) ⊎ (result ≡ refusal_of name.now fault) }
{
    match with_name(alloc, name, fault) {
        Ok(refusal) => refusal,
        Err(no_memory) => no_memory,
    }
}

// A fault on the way, with the file's name.
fn with_name(alloc: Global, name: &str, fault: SeekFault) -> Result<Refusal, Refusal>
    ensures { MatchResult result (λ refusal. refusal ≡ refusal_of name.now fault) (λ refusal. refusal ≡ NoMemory) }
{
    let refusal = match fault {
        SeekFault::StoreFailed => Refusal::StoreFailed,
        SeekFault::BadBox { at } => {
            let name = Name::new(alloc, name)?;
            Refusal::BadBox { name, at }
        }
        SeekFault::NoMovie => {
            let name = Name::new(alloc, name)?;
            Refusal::NoMovie { name }
        }
        SeekFault::MovieTooLong { size } => {
            let name = Name::new(alloc, name)?;
            Refusal::MovieTooLong { name, size }
        }
    };
    Ok(refusal)
}
