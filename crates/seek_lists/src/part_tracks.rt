//! The tracks that the first piece of a part exposes, each with its rows in the pieces of the part, by their numbers.

ghost use Rattle.std.specs.Prelude.{◌≡◌, ◌+◌, ◌≤◌, None, IfErr, IfOk, IfSome, OnOk, length, option_map};
ghost use Rattle.std.specs.Int.{IsInRange};
ghost use Rattle.std.specs.Rc.{rc_value};
ghost use Rattle.vod_types.specs.declared.refusal.Refusal.TheVariants.{NoMemory};
ghost use Rattle.vod_types.specs.declared.tracks.Kind.TheVariants.{Video, Audio};
ghost use Rattle.clip_model.specs.IsTimeline.{IsPiece};
ghost use Rattle.origin_model.specs.Loaded.{CheckedPiece};
ghost use Rattle.origin_model.specs.Sources.{source_piece};
ghost use Rattle.flat_samples.specs.Rows.{rows_with};
ghost use Rattle.flat_lists.specs.PartTracks.{alone as alone_of, facts_due, no_rows, part_begun, part_with, seen_with};
ghost use Rattle.vod_plan.specs.Selected.{AreFound};
ghost use Rattle.vod_plan.specs.Tracks.{checked_view, track_in};
ghost use Rattle.seek_lists.specs.PartTracks.{part_seen, seen_of, ArePlaced, IsPlacedTrack};

use crate::bandwidths::bandwidth_if;
use crate::views::view_of;
use clip_map::Mapping;
use clip_model::Piece;
use flat_lists::{TrackFacts, facts_of_audio, facts_of_video};
use std::alloc::Global;
use std::rc::Rc;
use std::sync::ledger::Ledger;
use vod_meta::Meta;
use vod_plan::{AskedTrack, CheckedTracks, PlanPiece, selected};
use vod_types::{Kind, Refusal, Steps};

/// A track with its rows in pieces of a part, as if no track of the other kind was asked.
#[derive(Drop)]
pub(crate) struct PartTrack {
    pub(crate) facts: TrackFacts,
    pub(crate) pieces: Vec<PlanPiece>,
}

/// The tracks v1 and a1 of a part, as far as its first piece exposes them.
#[derive(Drop)]
pub(crate) struct PartTracks {
    pub(crate) video: Option<PartTrack>,
    pub(crate) audio: Option<PartTrack>,
}

impl PartTracks {
    /// Those of a part without a piece.
    pub(crate) fn none() -> PartTracks
        ensures seen { part_seen result ≡ record { video = None; audio = None } }
        ensures placed { ArePlaced 0 result }
    {
        PartTracks {
            video: None,
            audio: None,
        }
    }

    /// Those of a first piece, without its rows.
    pub(crate) fn of<L: Ledger>(
        alloc: Global,
        mapping: &Mapping,
        sequence: u32,
        meta: &Meta,
        video: Option<AskedTrack>,
        audio: Option<AskedTrack>,
        steps: &mut Steps<L>,
    ) -> PartTracks
        requires { IsInRange 1 (length mapping.now.sequences) sequence }
        ensures seen { (c : CheckedPiece) → c.video ≡ track_in meta.now.movie video → c.audio ≡ track_in meta.now.movie audio → part_seen result ≡ part_begun mapping.now sequence c }
        ensures placed { ArePlaced 0 result }
    {
        PartTracks {
            video: video_of(alloc, mapping, sequence, meta, video, steps),
            audio: audio_of(alloc, mapping, sequence, meta, audio, steps),
        }
    }

    /// Puts the rows of a piece, by its place in the part, behind those of the others. After a refusal, `NoMemory`, some of
    /// them may stand there.
    pub(crate) fn add<L: Ledger>(
        &mut self,
        piece: &Piece,
        tracks: &CheckedTracks,
        place: u32,
        steps: &mut Steps<L>,
    ) -> Result<(), Refusal>
        requires piece { IsPiece piece.now }
        requires named { (rc_value tracks.now.meta).name ≡ piece.now.name }
        requires found { AreFound tracks.now }
        requires placed { ArePlaced place self.old }
        ensures added { OnOk result (part_seen self.new ≡ part_with place (checked_view piece.now tracks.now) (part_seen self.old)) }
        ensures placed { OnOk result (ArePlaced (place + 1) self.new) }
        ensures only { IfErr result (λ refusal. refusal ≡ NoMemory) }
    {
        add_rows(&mut self.video, Kind::Video, piece, tracks, place, steps)?;
        add_rows(&mut self.audio, Kind::Audio, piece, tracks, place, steps)
    }
}

// A video track with no rows yet.
fn video_of<L: Ledger>(
    alloc: Global,
    mapping: &Mapping,
    sequence: u32,
    meta: &Meta,
    track: Option<AskedTrack>,
    steps: &mut Steps<L>,
) -> Option<PartTrack>
    requires { IsInRange 1 (length mapping.now.sequences) sequence }
    ensures seen { option_map seen_of result ≡ option_map (λ t. (facts_due mapping.now sequence Video t, no_rows)) (track_in meta.now.movie track) }
    ensures placed { IfSome result (IsPlacedTrack Video 0) }
{
    let bandwidth = bandwidth_if(mapping, sequence, Kind::Video, meta, track, steps);
    match view_of(meta, track) {
        Some(view) => Some(PartTrack {
            facts: facts_of_video(bandwidth, &view),
            pieces: Vec::new(alloc),
        }),
        None => None,
    }
}

// An audio track with no rows yet.
fn audio_of<L: Ledger>(
    alloc: Global,
    mapping: &Mapping,
    sequence: u32,
    meta: &Meta,
    track: Option<AskedTrack>,
    steps: &mut Steps<L>,
) -> Option<PartTrack>
    requires { IsInRange 1 (length mapping.now.sequences) sequence }
    ensures seen { option_map seen_of result ≡ option_map (λ t. (facts_due mapping.now sequence Audio t, no_rows)) (track_in meta.now.movie track) }
    ensures placed { IfSome result (IsPlacedTrack Audio 0) }
{
    let bandwidth = bandwidth_if(mapping, sequence, Kind::Audio, meta, track, steps);
    match view_of(meta, track) {
        Some(view) => Some(PartTrack {
            facts: facts_of_audio(bandwidth, &view),
            pieces: Vec::new(alloc),
        }),
        None => None,
    }
}

// Puts the rows of a piece behind those of a track, if there is one.
fn add_rows<L: Ledger>(
    track: &mut Option<PartTrack>,
    kind: Kind,
    piece: &Piece,
    tracks: &CheckedTracks,
    place: u32,
    steps: &mut Steps<L>,
) -> Result<(), Refusal>
    requires piece { IsPiece piece.now }
    requires named { (rc_value tracks.now.meta).name ≡ piece.now.name }
    requires found { AreFound tracks.now }
    requires placed { IfSome track.old (IsPlacedTrack kind place) }
    ensures added { OnOk result (option_map seen_of track.new ≡ seen_with kind place (checked_view piece.now tracks.now) (option_map seen_of track.old)) }
    ensures placed { OnOk result (IfSome track.new (IsPlacedTrack kind (place + 1))) }
    ensures only { IfErr result (λ refusal. refusal ≡ NoMemory) }
{
    match track {
        Some(track) => add_piece(track, kind, piece, tracks, place, steps),
        None => Ok(()),
    }
}

// Puts the rows of a piece behind those of a track.
fn add_piece<L: Ledger>(
    track: &mut PartTrack,
    kind: Kind,
    piece: &Piece,
    tracks: &CheckedTracks,
    place: u32,
    steps: &mut Steps<L>,
) -> Result<(), Refusal>
    requires piece { IsPiece piece.now }
    requires named { (rc_value tracks.now.meta).name ≡ piece.now.name }
    requires found { AreFound tracks.now }
    requires placed { IsPlacedTrack kind place track.old }
    ensures added { OnOk result (seen_of track.new ≡ (track.old.facts, rows_with (seen_of track.old).1 place (source_piece (alone_of kind (checked_view piece.now tracks.now))))) }
    ensures placed { OnOk result (IsPlacedTrack kind (place + 1) track.new) }
    ensures only { IfErr result (λ refusal. refusal ≡ NoMemory) }
{
    let own = alone(kind, tracks)?;
    track.pieces.push(selected(piece, own, steps))?;
    Ok(())
}

// The tracks of a piece without the track of the other kind. The only refusal is `NoMemory`.
fn alone(kind: Kind, tracks: &CheckedTracks) -> Result<CheckedTracks, Refusal>
    requires found { AreFound tracks.now }
    ensures seen { IfOk result (λ own. (p : Piece) → checked_view p own ≡ alone_of kind (checked_view p tracks.now)) }
    ensures meta { IfOk result (λ own. rc_value own.meta ≡ rc_value tracks.now.meta) }
    ensures found { IfOk result AreFound }
    ensures only { IfErr result (λ refusal. refusal ≡ NoMemory) }
{
    let Ok(meta) = tracks.meta.clone() else {
        return Err(Refusal::NoMemory);
    };
    match kind {
        Kind::Video => Ok(CheckedTracks {
            meta,
            video: tracks.video,
            audio: None,
        }),
        Kind::Audio => Ok(CheckedTracks {
            meta,
            video: None,
            audio: tracks.audio,
        }),
    }
}
