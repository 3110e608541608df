//! The pieces that a segment needs, looked at one after another: their files, and their selected samples.

ghost use Rattle.std.specs.Prelude.{◌≡◌, ◌≤◌, ◌<◌, Some, [], false, is_some, length, map, option_map, IfOk, IfErr, IfSome, OnOk, IsErrOf, All};
ghost use Rattle.std.specs.List.{list_any};
ghost use Rattle.std.specs.Option.{option_map_or};
ghost use Rattle.vod_types.specs.declared.refusal.Refusal.TheVariants.{NoMemory, StoreFailed};
ghost use Rattle.vod_types.specs.Lists.{through_first};
ghost use Rattle.mp4_model.specs.Entries.{entry_type};
ghost use Rattle.mp4_model.specs.Samples.{sample_count};
ghost use Rattle.mp4_tables.specs.Views.{tables_of};
ghost use Rattle.clip_model.specs.IsTimeline.{IsPiece, IsTime};
ghost use Rattle.segment_model.specs.Grid.{may_begin};
ghost use Rattle.vod_source.specs.Causes.{Rose};
ghost use Rattle.origin_model.specs.Loaded.{CheckedPiece};
ghost use Rattle.origin_model.specs.Writable.{IsSoundPiece};
ghost use Rattle.flat_samples.specs.Checks.{checked_view, AreSound};
ghost use Rattle.flat_samples.specs.Movies.{AreTrue};
ghost use Rattle.answer_laws.specs.Refusals.{IsPathRefusal};
ghost use Rattle.flat_segments.specs.Needed.{IsAdded, IsLook, AreOfPieces, AreLooks, stops};
ghost use Rattle.flat_samples.specs.Rows.{timed_view, part_rows, ArePlacedRows};
ghost use Rattle.flat_segments.specs.Cells.{part_grid_of};
ghost use Rattle.flat_segments.specs.Segments.{facts_of, file_of};

use crate::cells::PartCells;
use clip_model::Piece;
use flat_samples::{CheckedTracks, Movies, PartRows, TimedSample, check};
use mp4_tracks::TrackView;
use std::alloc::Global;
use vod_source::Store;
use vod_types::{Asked, Name, Refusal};

/// What is kept of the file of a needed piece: its name in the store, its size in bytes, the type of the sample entry of the
/// asked video track, and the configurations of the asked tracks, empty where a kind isn't asked.
#[derive(Debug, Drop)]
pub struct NeededFile {
    pub name: Name,
    pub size: u64,
    pub video_type: Option<[u8; 4]>,
    pub video: Vec<u8>,
    pub audio: Vec<u8>,
}

impl NeededFile {
    fn of(alloc: Global, piece: &Piece, tracks: &CheckedTracks<'_>) -> Result<NeededFile, Refusal>
        requires fourcc { IfSome tracks.now.video (λ v. v.fourcc ≡ entry_type v.entry.now) }
        ensures file { IfOk result (λ f. facts_of f ≡ file_of (checked_view piece.now tracks.now)) }
        ensures typed { IfOk result (λ f. is_some f.video_type ≡ is_some tracks.now.video) }
        ensures only { IfErr result (λ refusal. refusal ≡ NoMemory) }
    {
        Ok(NeededFile {
            name: Name::new(alloc, piece.name.as_str())?,
            size: tracks.file_size,
            video_type: type_of(tracks.video),
            video: config_of(alloc, tracks.video)?,
            audio: config_of(alloc, tracks.audio)?,
        })
    }
}

// The type of the sample entry of a track.
fn type_of(track: Option<TrackView<'_>>) -> Option<[u8; 4]>
    ensures { result ≡ option_map (λ v. v.fourcc) track.entry }
{
    match track {
        Some(track) => Some(track.fourcc),
        None => None,
    }
}

fn config_of(alloc: Global, track: Option<TrackView<'_>>) -> Result<Vec<u8>, Refusal>
    ensures config { IfOk result (λ config. config.items ≡ option_map_or (λ v. v.config.now) track.entry []) }
    ensures only { IfErr result (λ refusal. refusal ≡ NoMemory) }
{
    match track {
        Some(track) => match track.config.to_vec(alloc) {
            Ok(config) => Ok(config),
            Err(_) => Err(Refusal::NoMemory),
        },
        None => Ok(Vec::new(alloc)),
    }
}

/// The files of needed pieces, in order, and the selected samples of these pieces, which count their files from 0.
#[derive(Debug, Drop)]
pub struct Needed {
    pub files: Vec<NeededFile>,
    pub rows: PartRows,
}

impl Needed {
    /// Puts a piece behind the others. After a refusal, `NoMemory`, a part of it may stand there.
    fn add(
        &mut self,
        alloc: Global,
        piece: &Piece,
        tracks: &CheckedTracks<'_>,
    ) -> Result<(), Refusal>
        requires piece { IsPiece piece.now }
        requires sound { AreSound (checked_view piece.now tracks.now) }
        requires video { IfSome tracks.now.video (λ v. v.samples ≡ sample_count (tables_of v.tables)) }
        requires audio { IfSome tracks.now.audio (λ v. v.samples ≡ sample_count (tables_of v.tables)) }
        requires fourcc { IfSome tracks.now.video (λ v. v.fourcc ≡ entry_type v.entry.now) }
        requires few { length self.old.files.items < 1024 }
        requires placed { ArePlacedRows (part_rows self.old.rows) }
        ensures added { OnOk result (IsAdded (checked_view piece.now tracks.now) self.old self.new) }
        ensures placed { OnOk result (ArePlacedRows (part_rows self.new.rows)) }
        ensures only { IfErr result (λ refusal. refusal ≡ NoMemory) }
    {
        let place = self.files.len() as u32;
        let file = NeededFile::of(alloc, piece, tracks)?;
        self.files.push(file)?;
        self.rows.add(alloc, place, piece, tracks)
    }
}

// Brings the movie of a piece to the front, checks the asked tracks of the piece, with their edits where these are honoured, and
// puts it behind the others.
fn look<S: Store>(
    alloc: Global,
    files: &mut S,
    movies: &mut Movies,
    edits: bool,
    asked: Asked,
    piece: &Piece,
    needed: &mut Needed,
) -> Result<(), Refusal>
    requires piece { IsPiece piece.now }
    requires few { length needed.old.files.items < 1024 }
    requires placed { ArePlacedRows (part_rows needed.old.rows) }
    ensures told { IfSome (S.content files.old) (λ known. AreTrue known movies.old →
        IsLook known edits asked piece.now result movies.old movies.new needed.old needed.new (S.log files.old) (S.log files.new)) }
    ensures taken { OnOk result ((c : CheckedPiece) × (c.piece ≡ piece.now) × IsAdded c needed.old needed.new × IsSoundPiece asked c) }
    ensures placed { OnOk result (ArePlacedRows (part_rows needed.new.rows)) }
    ensures content { S.content files.new ≡ S.content files.old }
    ensures later { S.faults files.old ≤ S.faults files.new }
    ensures store_failed { IsErrOf result StoreFailed → Rose (S.faults files.old) (S.faults files.new) }
    ensures refused { IfErr result IsPathRefusal }
{
    match movies.turn(alloc, files, piece.name.as_str()) {
        Ok(()) => {}
        Err(refusal) => return Err(refusal),
    }
    match check(alloc, piece, movies.front(), edits, asked) {
        Ok(tracks) => needed.add(alloc, piece, &tracks),
        Err(refusal) => Err(refusal),
    }
}

/// Looks at pieces in order, with the edits of their tracks where `edits` are honoured, through the first with a lead row that
/// may begin the next cell, if one is named, or through the last. Of the files, the movies are read alone, each once as long
/// as it is held.
///
/// Refused with the first fault of a piece.
pub fn needed_of<S: Store>(
    alloc: Global,
    files: &mut S,
    edits: bool,
    asked: Asked,
    pieces: &[Piece],
    next: Option<(PartCells<'_>, u64)>,
) -> Result<Needed, Refusal>
    requires pieces { All IsPiece pieces.now }
    requires few { length pieces.now ≤ 1024 }
    requires cell { IfSome next (λ n. n.1 ≤ 100001) }
    requires start { IfSome next (λ n. IsTime n.0.start) }
    ensures told { IfSome (S.content files.old) (λ known.
        AreLooks known edits asked (through_first (stops known edits asked next.entry) pieces.now) result (S.log files.old) (S.log files.new)) }
    ensures of { IfOk result (λ n. AreOfPieces asked pieces.now n) }
    ensures content { S.content files.new ≡ S.content files.old }
    ensures later { S.faults files.old ≤ S.faults files.new }
    ensures store_failed { IsErrOf result StoreFailed → Rose (S.faults files.old) (S.faults files.new) }
    ensures refused { IfErr result IsPathRefusal }
{
    let mut movies = Movies::new(alloc);
    let mut needed = Needed {
        files: Vec::new(alloc),
        rows: PartRows::new(alloc),
    };
    for piece in pieces {
        let before = needed.rows.lead.len();
        match look(alloc, files, &mut movies, edits, asked, piece, &mut needed) {
            Ok(()) => {}
            Err(refusal) => return Err(refusal),
        }
        if is_reached(next, &needed.rows.lead[before..]) {
            return Ok(needed);
        }
    }
    Ok(needed)
}

// Whether one of these lead rows may begin the next cell, if one is named.
fn is_reached(next: Option<(PartCells<'_>, u64)>, lead: &[TimedSample]) -> bool
    requires cell { IfSome next (λ n. n.1 ≤ 100001) }
    requires start { IfSome next (λ n. IsTime n.0.start) }
    ensures { result ≡ option_map_or (λ n. list_any (may_begin (part_grid_of n.0) n.1) (map timed_view lead.now)) next.entry false }
{
    match next {
        Some((cells, k)) => cells.begins(k, lead),
        None => false,
    }
}
