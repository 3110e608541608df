//! What a request is about, by its path and the file of its mapping.

ghost use Rattle.std.specs.Prelude.{◌≡◌, ◌≤◌, Ok, length, unwrap_or, IfSome, IfOk, IfErr, IsErrOf, Some};
ghost use Rattle.std.specs.Int.{IsInRange};
ghost use Rattle.vod_types.specs.Files.{store_name as store_name_of};
ghost use Rattle.vod_types.specs.Settled.{Settled};
ghost use Rattle.vod_types.specs.Tracks.{default_tracks};
ghost use Rattle.vod_types.specs.declared.refusal.Refusal.TheVariants.{NoMemory, StoreFailed};
ghost use Rattle.vod_source.specs.Causes.{Rose};
ghost use Rattle.vod_source.specs.Stored.{size_of};
ghost use Rattle.clip_model.specs.Mapping.{local_mapping as local_mapping_of};
ghost use Rattle.list_model.specs.Path.{is_local as is_local_place};
ghost use Rattle.origin_model.specs.Reads.{mapping_reads_by};
ghost use Rattle.origin_model.specs.Requests.{asking_of as asking_of_ask, mapping_by as mapping_by_target, mapping_file as mapping_of_file, target_names};
ghost use Rattle.answer_laws.specs.Refusals.{IsPathRefusal};
ghost use Rattle.flat_lists.specs.Asked.{asking_view, setup_of};
ghost use Rattle.vod_source.specs.Calls.{Came};
ghost use Rattle.flat_lists.specs.Mapped.{mapping_file_reads};

use crate::subject::Asking;
use clip_map::{Mapping, read_mapping};
use seq_timeline::store_name;
use std::alloc::Global;
use vod_source::{ReadFault, Store, read_range};
use vod_types::{Ask, Name, Place, Refusal, Target, TrackList};

// The most bytes that a mapping file has.
const LONGEST_MAPPING: u64 = 1_048_576;

/// What a request is about: a local target is a mapping of its own, without a call on the store, and a mapped one names a
/// mapping file below `root`, which is read whole.
///
/// Refused with `NoMapping`, `MappingTooLong` (more than 1,048,576 bytes, of which none is read), or the first fault of the
/// mapping.
pub fn asking_of<S: Store>(
    alloc: Global,
    files: &mut S,
    root: &str,
    ask: Ask,
) -> Result<Asking, Refusal>
    requires names { IsInRange 1 32 (length (target_names ask.target)) }
    ensures told { IfSome (S.content files.old) (λ known. (settings : Settled) →
        Came asking_view result (asking_of_ask (setup_of settings root.now known) ask)
        (mapping_reads_by (setup_of settings root.now known) (is_local_place ask.place) ask.target)
        (S.log files.old) (S.log files.new)) }
    ensures content { S.content files.new ≡ S.content files.old }
    ensures later { S.faults files.old ≤ S.faults files.new }
    ensures store_failed { IsErrOf result StoreFailed → Rose (S.faults files.old) (S.faults files.new) }
    ensures refused { IfErr result IsPathRefusal }
{
    match mapping_by(alloc, files, root, ask.place, ask.target, ask.tracks) {
        Ok(mapping) => Ok(Asking {
            mapping,
            window: ask.window,
            tracks: ask.tracks,
        }),
        Err(refusal) => Err(refusal),
    }
}

// The mapping of a target at a place. `tracks` are those of a local one.
fn mapping_by<S: Store>(
    alloc: Global,
    files: &mut S,
    root: &str,
    place: Place,
    target: Target,
    tracks: Option<TrackList>,
) -> Result<Mapping, Refusal>
    requires names { IsInRange 1 32 (length (target_names target)) }
    ensures told { IfSome (S.content files.old) (λ known. (settings : Settled) →
        Came (λ m. m) result (mapping_by_target (setup_of settings root.now known) (is_local_place place) target tracks)
        (mapping_reads_by (setup_of settings root.now known) (is_local_place place) target)
        (S.log files.old) (S.log files.new)) }
    ensures content { S.content files.new ≡ S.content files.old }
    ensures later { S.faults files.old ≤ S.faults files.new }
    ensures store_failed { IsErrOf result StoreFailed → Rose (S.faults files.old) (S.faults files.new) }
    ensures refused { IfErr result IsPathRefusal }
{
    if is_local(place) {
        return local_mapping(alloc, target, tracks);
    }
    match target {
        Target::One(name) => mapping_file(alloc, files, root, &name),
        Target::Many(_) => Err(Refusal::BadPath),
    }
}

// Whether a target at this place names the files themselves.
fn is_local(place: Place) -> bool
    ensures { result ≡ is_local_place place }
{
    match place {
        Place::LocalHls | Place::LocalDash => true,
        Place::MappedHls | Place::MappedDash => false,
    }
}

// The mapping that a local target is. The only refusal is `NoMemory`.
fn local_mapping(
    alloc: Global,
    target: Target,
    tracks: Option<TrackList>,
) -> Result<Mapping, Refusal>
    requires names { IsInRange 1 32 (length (target_names target)) }
    ensures mapping { IfOk result (λ m. m ≡ local_mapping_of (target_names target) (unwrap_or tracks default_tracks)) }
    ensures only { IfErr result (λ refusal. refusal ≡ NoMemory) }
{
    let tracks = tracks.unwrap_or(TrackList::default_list());
    match names_of(alloc, target) {
        Ok(names) => Mapping::local(alloc, names, tracks),
        Err(refusal) => Err(refusal),
    }
}

// The names of a target, in order. The only refusal is `NoMemory`.
fn names_of(alloc: Global, target: Target) -> Result<Vec<Name>, Refusal>
    ensures names { IfOk result (λ names. names.items ≡ target_names target) }
    ensures only { IfErr result (λ refusal. refusal ≡ NoMemory) }
{
    match target {
        Target::One(name) => {
            let mut names = Vec::with_capacity(alloc, 1)?;
            names.push(name)?;
            Ok(names)
        }
        Target::Many(names) => Ok(names.into_vec()),
    }
}

// The mapping in a file of this name below `root`.
fn mapping_file<S: Store>(
    alloc: Global,
    files: &mut S,
    root: &str,
    name: &Name,
) -> Result<Mapping, Refusal>
    ensures told { IfSome (S.content files.old) (λ known.
        Came (λ m. m) result (mapping_of_file known (store_name_of root.now name.now))
        (mapping_file_reads known (store_name_of root.now name.now)) (S.log files.old) (S.log files.new)) }
    ensures content { S.content files.new ≡ S.content files.old }
    ensures later { S.faults files.old ≤ S.faults files.new }
    ensures store_failed { IsErrOf result StoreFailed → Rose (S.faults files.old) (S.faults files.new) }
    ensures refused { IfErr result IsPathRefusal }
{
    match store_name(alloc, root, name) {
        Ok(stored) => stored_mapping(alloc, files, stored),
        Err(refusal) => Err(refusal),
    }
}

// The mapping in a file of this name in the store.
fn stored_mapping<S: Store>(alloc: Global, files: &mut S, name: Name) -> Result<Mapping, Refusal>
    ensures told { IfSome (S.content files.old) (λ known.
        Came (λ m. m) result (mapping_of_file known name) (mapping_file_reads known name) (S.log files.old) (S.log files.new)) }
    ensures content { S.content files.new ≡ S.content files.old }
    ensures later { S.faults files.old ≤ S.faults files.new }
    ensures store_failed { IsErrOf result StoreFailed → Rose (S.faults files.old) (S.faults files.new) }
    ensures refused { IfErr result IsPathRefusal }
{
    match files.size(name.as_str()) {
        Ok(Some(size)) => sized_mapping(alloc, files, name.as_str(), size),
        Ok(None) => Err(Refusal::NoMapping { name }),
        Err(_) => Err(Refusal::StoreFailed),
    }
}

// The mapping in a file of this size.
fn sized_mapping<S: Store>(
    alloc: Global,
    files: &mut S,
    name: &str,
    size: u64,
) -> Result<Mapping, Refusal>
    requires size { IfSome (S.content files.old) (λ known. Some size ≡ size_of known name.now) }
    ensures told { IfSome (S.content files.old) (λ known.
        Came (λ m. m) result (mapping_of_file known name.now) (mapping_file_reads known name.now) (S.log files.old) (S.log files.new)) }
    ensures content { S.content files.new ≡ S.content files.old }
    ensures later { S.faults files.old ≤ S.faults files.new }
    ensures store_failed { IsErrOf result StoreFailed → Rose (S.faults files.old) (S.faults files.new) }
    ensures refused { IfErr result IsPathRefusal }
{
    if size > LONGEST_MAPPING {
        return Err(Refusal::MappingTooLong { size });
    }
    match read_range(alloc, files, name, 0, size) {
        Ok(bytes) => read_mapping(alloc, &bytes),
        Err(ReadFault::Store) => Err(Refusal::StoreFailed),
        Err(ReadFault::NoMemory) => Err(Refusal::NoMemory),
    }
}
