//! The metadata of a file, as they are read from it.

ghost use Rattle.std.specs.Prelude.{◌≡◌, ◌≢◌, ◌≤◌, ◌⊎◌, IfOk, IfSome, IfErr, IsErrOf};
ghost use Rattle.vod_types.specs.declared.refusal.Refusal.TheVariants.{NoMemory, StoreFailed};
ghost use Rattle.vod_types.specs.Results.{Answers};
ghost use Rattle.vod_source.specs.Calls.{Came};
ghost use Rattle.vod_source.specs.Causes.{Rose};
ghost use Rattle.origin_model.specs.Loaded.{loaded};
ghost use Rattle.origin_model.specs.Reads.{file_turn_reads};
ghost use Rattle.answer_laws.specs.Refusals.{IsPathRefusal};
ghost use Rattle.vod_meta.specs.Read.{fetched, movie_due, refusal_in, HasPlaceInFile, LiesInFile};

use crate::indexes::indexes;
use crate::meta::Meta;
use mp4_model::MoviePlace;
use mp4_source::{find, read};
use mp4_tracks::{MovieFault, tracks};
use std::alloc::Global;
use vod_source::Store;
use vod_types::{Kind, Name, Refusal};

// The bytes of a `moov` box, and its place.
#[derive(Debug, Drop)]
struct MovieBytes {
    place: MoviePlace,
    moov: Vec<u8>,
}

/// The metadata of a file, or its first fault.
pub(crate) fn load<S: Store>(alloc: Global, files: &mut S, name: &str) -> Result<Meta, Refusal>
    ensures told { IfSome (S.content files.old) (λ known.
        Came (λ m. m.movie) result (loaded known name.now) (file_turn_reads known name.now) (S.log files.old) (S.log files.new)) }
    ensures named { IfOk result (λ m. m.name ≡ name.now) }
    ensures content { S.content files.new ≡ S.content files.old }
    ensures later { S.faults files.old ≤ S.faults files.new }
    ensures store_failed { IsErrOf result StoreFailed → Rose (S.faults files.old) (S.faults files.new) }
    ensures refused { IfErr result IsPathRefusal }
{
    match fetch(alloc, files, name) {
        Ok(found) => meta_of(alloc, name, found),
        Err(refusal) => Err(refusal),
    }
}

// The bytes of the `moov` box of a file, or the first fault on the way to it.
fn fetch<S: Store>(alloc: Global, files: &mut S, name: &str) -> Result<MovieBytes, Refusal>
    ensures told { IfSome (S.content files.old) (λ known.
        Came (λ found. (found.place, found.moov.items)) result (fetched known name.now) (file_turn_reads known name.now)
        (S.log files.old) (S.log files.new)) }
    ensures lies { IfOk result (λ found. LiesInFile found.place found.moov.items) }
    ensures content { S.content files.new ≡ S.content files.old }
    ensures later { S.faults files.old ≤ S.faults files.new }
    ensures store_failed { IsErrOf result StoreFailed → Rose (S.faults files.old) (S.faults files.new) }
    ensures refused { IfErr result IsPathRefusal }
{
    let place = match find(alloc, files, name) {
        Ok(place) => place,
        Err(refusal) => return Err(refusal),
    };
    match read(alloc, files, name, place) {
        Ok(moov) => Ok(MovieBytes { place, moov }),
        Err(refusal) => Err(refusal),
    }
}

// The metadata that the bytes of a `moov` box give, or their first fault.
fn meta_of(alloc: Global, name: &str, found: MovieBytes) -> Result<Meta, Refusal>
    requires { LiesInFile found.place found.moov.items }
    ensures answers { Answers (λ m. m.movie) result (movie_due name.now found.place found.moov.items) }
    ensures named { IfOk result (λ m. m.name ≡ name.now) }
    ensures no_store { IfErr result (λ refusal. refusal ≢ StoreFailed) }
{
    let tracks = match tracks(alloc, &found.moov) {
        Ok(tracks) => tracks,
        Err(fault) => return Err(refusal(alloc, name, found.place, fault)),
    };
    let Ok(video) = indexes(alloc, &found.moov, &tracks, Kind::Video) else {
        return Err(Refusal::NoMemory);
    };
    let Ok(audio) = indexes(alloc, &found.moov, &tracks, Kind::Audio) else {
        return Err(Refusal::NoMemory);
    };
    match Name::new(alloc, name) {
        Ok(name) => Ok(Meta {
            name,
            place: found.place,
            moov: found.moov,
            tracks,
            video,
            audio,
        }),
        Err(refusal) => Err(refusal),
    }
}

// The refusal for a fault in the `moov` box at a place, or want of memory for the file's name in it.
fn refusal(alloc: Global, name: &str, movie: MoviePlace, fault: MovieFault) -> Refusal
    requires { HasPlaceInFile movie fault }
    ensures { (result ≡ NoMemory) ⊎ (result ≡ refusal_in name.now movie.at fault) }
{
    let name = match Name::new(alloc, name) {
        Ok(name) => name,
        Err(refusal) => return refusal,
    };
    match fault {
        MovieFault::Box { at } => Refusal::BadBox {
            name,
            at: movie.at + at,
        },
        MovieFault::Fragmented => Refusal::NoMovie { name },
        MovieFault::NoMemory => Refusal::NoMemory,
    }
}
