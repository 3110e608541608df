//! The rows of a clip, written out.

ghost use Rattle.std.specs.Prelude.{◌≡◌, IfOk};
ghost use Rattle.flat_clip.specs.Rows.{facts_of, planned_facts, IsSmallClip};
ghost use Rattle.flat_clip.specs.Tracks.{track_view, IsSmallTrack};
ghost use Rattle.vod_plan.specs.Selected.{IsKeptIn};
ghost use Rattle.vod_plan.specs.Spans.{piece_view, IsPlanPiece};
ghost use Rattle.mp4_clip.specs.Kept.{kept_rows, track_with_rows, AreFew};

use crate::planned::Clip;
use flat_clip::{ClipRows, ClipSample, TrackRows};
use std::alloc::Global;
use vod_bytes::NoMemory;
use vod_plan::{PieceRow, PieceRows, PlanPiece};
use vod_types::{Kind, Name};

impl Clip {
    /// Its rows one by one, with the entries of its tracks.
    pub fn written(&self, alloc: Global) -> Result<ClipRows, NoMemory>
        ensures rows { IfOk result (λ rows. facts_of rows ≡ planned_facts self.now) }
        ensures small { IfOk result (λ rows. IsSmallClip (facts_of rows)) }
    {
        let video = written_track(alloc, &self.rows, Kind::Video)?;
        let audio = written_track(alloc, &self.rows, Kind::Audio)?;
        match Name::new(alloc, self.rows.meta.name()) {
            Ok(name) => Ok(ClipRows {
                name,
                file_size: self.rows.meta.size(),
                video,
                audio,
            }),
            Err(_) => Err(NoMemory),
        }
    }
}

// The track of a kind with its rows one by one; nothing where there is none.
fn written_track(alloc: Global, rows: &PlanPiece, kind: Kind) -> Result<TrackRows, NoMemory>
    requires rows { IsPlanPiece rows.now }
    requires kept { IsKeptIn kind (piece_view rows.now) }
    requires few { AreFew kind rows.now }
    ensures track { IfOk result (λ track. track_view track ≡ track_with_rows kind rows.now) }
    ensures small { IfOk result (λ track. IsSmallTrack (track_view track)) }
{
    if !rows.has(kind) {
        return Ok(TrackRows {
            entry: Vec::new(alloc),
            width: 0,
            height: 0,
            rows: Vec::new(alloc),
        });
    }
    match rows.meta.track(rows.range(kind).track) {
        Ok(view) => Ok(TrackRows {
            entry: view.entry.to_vec(alloc)?,
            width: view.width,
            height: view.height,
            rows: written_rows(alloc, rows, kind)?,
        }),
        Err(_) => Err(NoMemory),
    }
}

// The rows of a kind one by one.
fn written_rows(alloc: Global, rows: &PlanPiece, kind: Kind) -> Result<Vec<ClipSample>, NoMemory>
    requires rows { IsPlanPiece rows.now }
    ensures { IfOk result (λ samples. samples.items ≡ kept_rows kind rows.now) }
{
    let mut left = PieceRows::new(rows, kind);
    let mut samples = Vec::new(alloc);
    while let Some(row) = left.next() {
        samples.push(clip_sample(row))?;
    }
    Ok(samples)
}

// A row as a clip has it.
fn clip_sample(row: PieceRow) -> ClipSample
    ensures { result ≡ row }
{
    ClipSample {
        number: u64::from(row.number),
        at: row.at,
        size: row.size,
        dts: row.dts,
        pts: row.pts,
        dur: row.dur,
        sync: row.sync,
    }
}
