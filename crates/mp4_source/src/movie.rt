//! The bytes of the movie.

ghost use Rattle.std.specs.Prelude.{◌≡◌, ◌≤◌, ◌⊎◌, Ok, IfOk, IfErr, IfSome, IsErrOf, vec_len};
ghost use Rattle.vod_types.specs.declared.Refusal.TheVariants.{StoreFailed, NoMemory};
ghost use Rattle.mp4_model.specs.Movie.{moov_bytes};
ghost use Rattle.vod_source.specs.Causes.{Rose};
ghost use Rattle.vod_source.specs.Stored.{bytes_of};
ghost use Rattle.vod_source.specs.Ranges.{file_reads};
ghost use Rattle.vod_source.specs.Told.{Grows};
ghost use Rattle.mp4_source.specs.Places.{stored_place, IsReadable};

use mp4_model::MoviePlace;
use std::alloc::Global;
use vod_source::{ReadFault, Store, read_range};
use vod_types::Refusal;

/// The whole `moov` box at a place that `find` gave, in reads of 65,536 bytes and a rest.
/// `StoreFailed` is answered only where a call on the store failed, and else an error is `NoMemory`.
pub fn read<S: Store>(
    alloc: Global,
    store: &mut S,
    name: &str,
    place: MoviePlace,
) -> Result<Vec<u8>, Refusal>
    requires readable { IsReadable place }
    requires told { IfSome (S.content store.old) (λ files. stored_place files name.now ≡ Ok place) }
    ensures content { S.content store.new ≡ S.content store.old }
    ensures told { IfSome (S.content store.old) (λ files.
        IfOk result (λ moov. moov.items ≡ moov_bytes (bytes_of files name.now) place)) }
    ensures length { IfOk result (λ moov. vec_len moov ≡ place.size) }
    ensures log { Grows (S.log store.old) (S.log store.new) result (file_reads name.now place.at place.size) }
    ensures refused { IfErr result (λ refusal. (refusal ≡ StoreFailed) ⊎ (refusal ≡ NoMemory)) }
    ensures later { S.faults store.old ≤ S.faults store.new }
    ensures failed { IsErrOf result Refusal.StoreFailed → Rose (S.faults store.old) (S.faults store.new) }
{
    match read_range(alloc, store, name, place.at, place.size) {
        Ok(moov) => Ok(moov),
        Err(ReadFault::Store) => Err(Refusal::StoreFailed),
        Err(ReadFault::NoMemory) => Err(Refusal::NoMemory),
    }
}
