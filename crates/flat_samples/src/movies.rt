//! The movies of the files that a request uses. Each is read once as long as it is held.

ghost use Rattle.std.specs.Prelude.{◌≡◌, ◌≢◌, ◌≤◌, ◌<◌, ◌+◌, ◌⊎◌, [], ◌∷◌, false, length, take, bytes_eq, IfOk, IfSome, IfErr, IsErrOf, OnOk, MatchOption, slice_get, Some};
ghost use Rattle.std.specs.List.{remove};
ghost use Rattle.vod_types.specs.declared.refusal.Refusal.TheVariants.{NoMemory, StoreFailed};
ghost use Rattle.vod_types.specs.Results.{Answers};
ghost use Rattle.vod_source.specs.Causes.{Rose};
ghost use Rattle.origin_model.specs.Loaded.{loaded};
ghost use Rattle.origin_model.specs.Reads.{file_turn_reads};
ghost use Rattle.vod_source.specs.Calls.{Came};
ghost use Rattle.answer_laws.specs.Refusals.{IsPathRefusal};
ghost use Rattle.flat_samples.specs.Held.{fetched, movie_due, refusal_in, is_held, HasPlaceInFile, IsPlaceOf, LiesInFile};
ghost use Rattle.flat_samples.specs.Movies.{AreTrue, IsTurn, HeldMovie};

use mp4_model::MoviePlace;
use mp4_source::{find, read};
use mp4_tracks::{MovieFault, Tracks, tracks};
use std::alloc::Global;
use std::marker::Model;
use vod_source::Store;
use vod_types::{Name, Refusal};

/// The most movies that are held.
const MOST: usize = 16;

/// The movie of a file: where its `moov` box lies, the bytes of that box, and where its tracks lie in them.
#[derive(Debug, Drop)]
pub struct Movie {
    pub(crate) name: Name,
    pub(crate) place: MoviePlace,
    pub(crate) moov: Vec<u8>,
    pub(crate) tracks: Tracks,
}

impl Model for Movie {
    ghost use Rattle.flat_samples.specs.Movies.{HeldMovie, movie_at};
    ghost use Rattle.flat_samples.specs.Held.{IsWholeMovie};

    ghost Value = { HeldMovie };

    ghost view = { λ m. record { name = m.name; movie = movie_at m.place m.moov.items } };

    ghost invariant = { λ m. IsWholeMovie m.place m.moov.items m.tracks };
}

impl Movie {
    // Whether it is the movie of the file of this name.
    fn is_of(&self, name: &str) -> bool
        ensures { result ≡ bytes_eq name.now self.now.name }
    {
        name == self.name.as_str()
    }
}

/// At most 16 movies, the most recently used first. No two have one name.
#[derive(Debug, Drop)]
pub struct Movies {
    held: Vec<Movie>,
}

impl Model for Movies {
    ghost use Rattle.std.specs.Prelude.{List};
    ghost use Rattle.flat_samples.specs.Movies.{HeldMovie};
    ghost use Rattle.flat_samples.specs.Held.{AreApart};

    ghost Value = { List HeldMovie };

    ghost view = { λ m. m.held.items };

    ghost invariant = { λ m. AreApart m.held.items };
}

impl Movies {
    /// No movie. It takes no memory.
    pub fn new(alloc: Global) -> Movies
        ensures { result ≡ [] }
    {
        Movies {
            held: Vec::new(alloc),
        }
    }

    /// Brings the movie of a file to the front: one that is held without a read, another one by reading it, and then a
    /// seventeenth is dropped.
    ///
    /// It is refused with the first fault of the file on the way to `moov` or in it; the movies that are held stay then.
    pub fn turn<S: Store>(
        &mut self,
        alloc: Global,
        files: &mut S,
        name: &str,
    ) -> Result<(), Refusal>
        ensures told { IfSome (S.content files.old) (λ known. AreTrue known self.old →
            IsTurn known name.now result self.old self.new (S.log files.old) (S.log files.new)) }
        ensures some { OnOk result (0 < length self.new) }
        ensures content { S.content files.new ≡ S.content files.old }
        ensures later { S.faults files.old ≤ S.faults files.new }
        ensures store_failed { IsErrOf result StoreFailed → Rose (S.faults files.old) (S.faults files.new) }
        ensures refused { IfErr result IsPathRefusal }
    {
        match self.place_of(name) {
            Some(place) => {
                self.bring(place);
                Ok(())
            }
            None => match load(alloc, files, name) {
                Ok(movie) => self.put(movie),
                Err(refusal) => Err(refusal),
            },
        }
    }

    // Where the movie of this name stands.
    fn place_of(&self, name: &str) -> Option<usize>
        ensures { MatchOption result (is_held name.now self.now ≡ false) (λ place. IsPlaceOf name.now self.now place) }
    {
        for (place, movie) in self.held.iter().enumerate() {
            if movie.is_of(name) {
                return Some(place);
            }
        }
        None
    }

    // Brings the movie at a place to the front. The others keep their order.
    fn bring(&mut self, place: usize)
        requires { place < length self.old }
        ensures { (h : HeldMovie) → slice_get self.old place ≡ Some h → self.new ≡ h ∷ remove self.old place }
    {
        let movie = self.held.remove(place);
        // It fits into the room that it left.
        let _put = self.held.insert(0, movie);
    }

    // Puts a movie in front that isn't held, and drops a seventeenth. The only refusal is `NoMemory`.
    fn put(&mut self, movie: Movie) -> Result<(), Refusal>
        requires { is_held movie.name self.old ≡ false }
        ensures put { OnOk result (self.new ≡ take 16 (movie ∷ self.old)) }
        ensures only { IfErr result (λ refusal. refusal ≡ NoMemory) }
        ensures same { IfErr result (λ refusal. self.new ≡ self.old) }
    {
        if self.held.insert(0, movie).is_err() {
            return Err(Refusal::NoMemory);
        }
        self.held.truncate(MOST);
        Ok(())
    }

    /// The movie in front.
    pub fn front(&self) -> &Movie
        requires { 0 < length self.now }
        ensures { slice_get self.now 0 ≡ Some result.now }
    {
        &self.held[0]
    }
}

// The bytes of a `moov` box, and its place.
#[derive(Debug, Drop)]
struct MovieBytes {
    place: MoviePlace,
    moov: Vec<u8>,
}

// The movie of a file, or its first fault.
fn load<S: Store>(alloc: Global, files: &mut S, name: &str) -> Result<Movie, Refusal>
    ensures told { IfSome (S.content files.old) (λ known.
        Came (λ m. m.movie) result (loaded known name.now) (file_turn_reads known name.now) (S.log files.old) (S.log files.new)) }
    ensures named { IfOk result (λ m. m.name ≡ name.now) }
    ensures content { S.content files.new ≡ S.content files.old }
    ensures later { S.faults files.old ≤ S.faults files.new }
    ensures store_failed { IsErrOf result StoreFailed → Rose (S.faults files.old) (S.faults files.new) }
    ensures refused { IfErr result IsPathRefusal }
{
    match fetch(alloc, files, name) {
        Ok(found) => movie_of(alloc, name, found),
        Err(refusal) => Err(refusal),
    }
}

// The bytes of the `moov` box of a file, or the first fault on the way to it.
fn fetch<S: Store>(alloc: Global, files: &mut S, name: &str) -> Result<MovieBytes, Refusal>
    ensures told { IfSome (S.content files.old) (λ known.
        Came (λ found. (found.place, found.moov.items)) result (fetched known name.now) (file_turn_reads known name.now)
        (S.log files.old) (S.log files.new)) }
    ensures lies { IfOk result (λ found. LiesInFile found.place found.moov.items) }
    ensures content { S.content files.new ≡ S.content files.old }
    ensures later { S.faults files.old ≤ S.faults files.new }
    ensures store_failed { IsErrOf result StoreFailed → Rose (S.faults files.old) (S.faults files.new) }
    ensures refused { IfErr result IsPathRefusal }
{
    let place = match find(alloc, files, name) {
        Ok(place) => place,
        Err(refusal) => return Err(refusal),
    };
    match read(alloc, files, name, place) {
        Ok(moov) => Ok(MovieBytes { place, moov }),
        Err(refusal) => Err(refusal),
    }
}

// The movie of the bytes of a `moov` box, or their first fault.
fn movie_of(alloc: Global, name: &str, found: MovieBytes) -> Result<Movie, Refusal>
    requires { LiesInFile found.place found.moov.items }
    ensures answers { Answers (λ m. m.movie) result (movie_due name.now found.place found.moov.items) }
    ensures named { IfOk result (λ m. m.name ≡ name.now) }
    ensures no_store { IfErr result (λ refusal. refusal ≢ StoreFailed) }
{
    let tracks = match tracks(alloc, &found.moov) {
        Ok(tracks) => tracks,
        Err(fault) => return Err(refusal(alloc, name, found.place, fault)),
    };
    match Name::new(alloc, name) {
        Ok(name) => Ok(Movie {
            name,
            place: found.place,
            moov: found.moov,
            tracks,
        }),
        Err(refusal) => Err(refusal),
    }
}

// The refusal for a fault in the `moov` box at a place, or want of memory for the file's name in it.
fn refusal(alloc: Global, name: &str, movie: MoviePlace, fault: MovieFault) -> Refusal
    requires { HasPlaceInFile movie fault }
    ensures { (result ≡ NoMemory) ⊎ (result ≡ refusal_in name.now movie.at fault) }
{
    let name = match Name::new(alloc, name) {
        Ok(name) => name,
        Err(refusal) => return refusal,
    };
    match fault {
        MovieFault::Box { at } => Refusal::BadBox {
            name,
            at: movie.at + at,
        },
        MovieFault::Fragmented => Refusal::NoMovie { name },
        MovieFault::NoMemory => Refusal::NoMemory,
    }
}
