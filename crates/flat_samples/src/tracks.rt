//! The asked tracks of a piece.

ghost use Rattle.std.specs.Prelude.{◌≡◌, ◌&&◌, ◌⊎◌, option_map, IfOk, IfSome, IfErr};
ghost use Rattle.vod_types.specs.declared.refusal.Refusal.TheVariants.{NoMemory};
ghost use Rattle.vod_types.specs.Results.{Answers};
ghost use Rattle.vod_types.specs.Tracks.{exposed_track, same_kind};
ghost use Rattle.mp4_model.specs.Entries.{entry_type};
ghost use Rattle.mp4_model.specs.GoodTracks.{track_fault_in_file};
ghost use Rattle.mp4_model.specs.Samples.{sample_count};
ghost use Rattle.mp4_tables.specs.Views.{tables_of};
ghost use Rattle.mp4_tracks.specs.Views.{good_of, IsViewOf};
ghost use Rattle.mp4_tracks.specs.Edits.{edit_of_view, IsEditOf};
ghost use Rattle.origin_model.specs.Loaded.{asked_edit, asked_track, file_has, refusal_of_track, shown_edit, shown_track};
ghost use Rattle.origin_model.specs.Writable.{IsSoundPiece};
ghost use Rattle.answer_laws.specs.Refusals.{IsPathRefusal};
ghost use Rattle.flat_samples.specs.Checks.{checked_in, checked_view, AreSound, IsSound};
ghost use Rattle.flat_samples.specs.Shown.{edit_in_file, is_there, view_in_file, HasTrackPlace};

use crate::movies::Movie;
use clip_model::Piece;
use mp4_model::MoviePlace;
use mp4_tracks::{Edit, TrackFault, TrackView};
use std::alloc::Global;
use vod_types::{Asked, Kind, Name, Refusal, TrackName};

/// The asked tracks of a piece, each without a fault, with their edits, and the size of its file in bytes.
#[derive(Clone, Copy, Debug)]
pub struct CheckedTracks<'a> {
    pub file_size: u64,
    pub video: Option<TrackView<'a>>,
    pub audio: Option<TrackView<'a>>,
    pub video_edit: Edit,
    pub audio_edit: Edit,
}

/// The tracks that a piece exposes under the asked names, video first, in the movie of its file.
///
/// Refused with the first fault: `NoTrack` where it exposes no such track, and else the track's first fault, by the name
/// that was asked and the places of the file. That of a track's edit, which counts where `edits` are honoured, comes after its
/// others.
pub fn check<'a>(
    alloc: Global,
    piece: &Piece,
    movie: &'a Movie,
    edits: bool,
    asked: Asked,
) -> Result<CheckedTracks<'a>, Refusal>
    ensures answers { Answers (checked_view piece.now) result (checked_in edits asked piece.now movie.now.movie) }
    ensures sound { IfOk result (λ c. AreSound (checked_view piece.now c)) }
    ensures samples { IfOk result (λ c. IfSome c.video (λ v. v.samples ≡ sample_count (tables_of v.tables))) }
    ensures audio_samples { IfOk result (λ c. IfSome c.audio (λ v. v.samples ≡ sample_count (tables_of v.tables))) }
    ensures fourcc { IfOk result (λ c. IfSome c.video (λ v. v.fourcc ≡ entry_type v.entry.now)) }
    ensures whole { IfOk result (λ c. IsSoundPiece asked (checked_view piece.now c)) }
    ensures refused { IfErr result IsPathRefusal }
{
    let video = match asked_view(alloc, piece, movie, Kind::Video, asked.video) {
        Ok(video) => video,
        Err(refusal) => return Err(refusal),
    };
    let video_edit = match asked_edit(alloc, edits, piece, movie, Kind::Video, asked.video) {
        Ok(edit) => edit,
        Err(refusal) => return Err(refusal),
    };
    let audio = match asked_view(alloc, piece, movie, Kind::Audio, asked.audio) {
        Ok(audio) => audio,
        Err(refusal) => return Err(refusal),
    };
    match asked_edit(alloc, edits, piece, movie, Kind::Audio, asked.audio) {
        Ok(audio_edit) => Ok(CheckedTracks {
            file_size: movie.place.file_size,
            video,
            audio,
            video_edit,
            audio_edit,
        }),
        Err(refusal) => Err(refusal),
    }
}

// The edit of the track of a kind that is exposed under a number, where edits are honoured.
fn asked_edit(
    alloc: Global,
    edits: bool,
    piece: &Piece,
    movie: &Movie,
    kind: Kind,
    number: Option<u8>,
) -> Result<Edit, Refusal>
    ensures { Answers edit_of_view result (asked_edit edits piece.now movie.now.movie kind number) }
{
    if !edits {
        return Ok(Edit::none());
    }
    match number {
        Some(number) => shown_edit(alloc, piece, movie, TrackName { kind, number }),
        None => Ok(Edit::none()),
    }
}

// The edit of the track that a piece exposes under the asked name.
fn shown_edit(
    alloc: Global,
    piece: &Piece,
    movie: &Movie,
    asked: TrackName,
) -> Result<Edit, Refusal>
    ensures { Answers edit_of_view result (shown_edit piece.now movie.now.movie asked) }
{
    let Some(track) = exposed(movie, piece.tracks.as_slice(), asked) else {
        return Err(refusal(alloc, piece.name.as_str(), asked, TrackFault::Absent));
    };
    match edit_of(movie, track) {
        Ok(edit) => Ok(edit),
        Err(fault) => Err(refusal(alloc, piece.name.as_str(), asked, fault)),
    }
}

// The edit of the file's track of a name, or its fault, by the places of the file.
fn edit_of(movie: &Movie, track: TrackName) -> Result<Edit, TrackFault>
    ensures { IsEditOf (edit_in_file movie.now.movie track) result }
{
    match movie.tracks.edit(&movie.moov, track) {
        Ok(edit) => Ok(edit),
        Err(fault) => Err(in_file(movie.place, fault)),
    }
}

// The track of a kind that is exposed under a number, and none where none is asked.
fn asked_view<'a>(
    alloc: Global,
    piece: &Piece,
    movie: &'a Movie,
    kind: Kind,
    number: Option<u8>,
) -> Result<Option<TrackView<'a>>, Refusal>
    ensures answers { Answers (option_map good_of) result (asked_track piece.now movie.now.movie kind number) }
    ensures sound { IfOk result (λ view. IfSome view (λ v. IsSound (good_of v))) }
    ensures samples { IfOk result (λ view. IfSome view (λ v. v.samples ≡ sample_count (tables_of v.tables))) }
    ensures fourcc { IfOk result (λ view. IfSome view (λ v. v.fourcc ≡ entry_type v.entry.now)) }
{
    let Some(number) = number else {
        return Ok(None);
    };
    match shown_view(alloc, piece, movie, TrackName { kind, number }) {
        Ok(view) => Ok(Some(view)),
        Err(refusal) => Err(refusal),
    }
}

// The track that a piece exposes under the asked name.
fn shown_view<'a>(
    alloc: Global,
    piece: &Piece,
    movie: &'a Movie,
    asked: TrackName,
) -> Result<TrackView<'a>, Refusal>
    ensures answers { Answers good_of result (shown_track piece.now movie.now.movie asked) }
    ensures sound { IfOk result (λ v. IsSound (good_of v)) }
    ensures samples { IfOk result (λ v. v.samples ≡ sample_count (tables_of v.tables)) }
    ensures fourcc { IfOk result (λ v. v.fourcc ≡ entry_type v.entry.now) }
{
    let Some(track) = exposed(movie, piece.tracks.as_slice(), asked) else {
        return Err(refusal(alloc, piece.name.as_str(), asked, TrackFault::Absent));
    };
    match view_of(movie, track) {
        Ok(view) => Ok(view),
        Err(fault) => Err(refusal(alloc, piece.name.as_str(), asked, fault)),
    }
}

/// The track of a movie's file that a list exposes under the asked name.
pub fn exposed(movie: &Movie, listed: &[TrackName], asked: TrackName) -> Option<TrackName>
    ensures { result ≡ exposed_track (file_has movie.now.movie) listed.now asked }
{
    if asked.number == 0 {
        return None;
    }
    let mut left = asked.number;
    for track in listed {
        if is_shown(movie, *track, asked.kind) {
            if left == 1 {
                return Some(*track);
            }
            left -= 1;
        }
    }
    None
}

// Whether the track is of this kind and the file has it.
fn is_shown(movie: &Movie, track: TrackName, kind: Kind) -> bool
    ensures { result ≡ (same_kind track.kind kind && file_has movie.now.movie track) }
{
    is_of_kind(track, kind) && has(movie, track)
}

fn is_of_kind(track: TrackName, kind: Kind) -> bool
    ensures { result ≡ same_kind track.kind kind }
{
    track.kind == kind
}

// Whether the file has the track, however faulty.
fn has(movie: &Movie, track: TrackName) -> bool
    ensures { result ≡ file_has movie.now.movie track }
{
    match movie.tracks.view(&movie.moov, track) {
        Ok(_) => true,
        Err(fault) => is_there(fault),
    }
}

// Whether it is a fault of a track that the file has.
fn is_there(fault: TrackFault) -> bool
    ensures { result ≡ is_there fault }
{
    match fault {
        TrackFault::Absent => false,
        _ => true,
    }
}

// Views the file's track of a name, or gives its first fault, by the places of the file.
fn view_of<'a>(movie: &'a Movie, track: TrackName) -> Result<TrackView<'a>, TrackFault>
    ensures view { IsViewOf (view_in_file movie.now.movie track) result }
    ensures sound { IfOk result (λ v. IsSound (good_of v)) }
{
    match movie.tracks.view(&movie.moov, track) {
        Ok(view) => Ok(view),
        Err(fault) => Err(in_file(movie.place, fault)),
    }
}

// A fault by the places of the file, which has its `moov` at this place.
fn in_file(movie: MoviePlace, fault: TrackFault) -> TrackFault
    requires { HasTrackPlace movie fault }
    ensures { result ≡ track_fault_in_file movie.at fault }
{
    match fault {
        TrackFault::Box { at } => TrackFault::Box { at: movie.at + at },
        _ => fault,
    }
}

// The refusal for a fault of a track, or want of memory for the file's name in it.
fn refusal(alloc: Global, name: &str, track: TrackName, fault: TrackFault) -> Refusal
    ensures { (result ≡ NoMemory) ⊎ (result ≡ refusal_of_track name.now track fault) }
{
    let name = match Name::new(alloc, name) {
        Ok(name) => name,
        Err(refusal) => return refusal,
    };
    match fault {
        TrackFault::Absent => Refusal::NoTrack { name, track },
        TrackFault::Box { at } => Refusal::BadBox { name, at },
        TrackFault::Table(table) => Refusal::BadTable { name, track, table },
        TrackFault::Codec(fourcc) => Refusal::Codec { name, fourcc },
        TrackFault::TooLong => Refusal::TrackTooLong { name, track },
    }
}
