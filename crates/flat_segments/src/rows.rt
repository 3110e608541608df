//! The rows of a segment as its writer takes them.

ghost use Rattle.std.specs.Prelude.{◌<◌, ◌^◌, vec_len};

use crate::facts::{config_of, name_of};
use crate::needed::NeededFile;
pub(crate) use crate::row_checks::checked_rows;
use vod_types::{Kind, Row, Rows};

/// Rows of a segment as its writer takes them, with a place in each list, and whether the video is HEVC. They count their files
/// from 0.
#[derive(Debug, Drop)]
pub struct FlatRows {
    pub hevc: bool,
    pub video: Vec<Row>,
    pub audio: Vec<Row>,
    pub video_given: usize,
    pub audio_given: usize,
    pub files: Vec<NeededFile>,
    ghost few_video: { vec_len video < 2 ^ 32 },
    ghost few_audio: { vec_len audio < 2 ^ 32 },
}

impl Rows for FlatRows {
    ghost use Rattle.flat_segments.specs.Segments.{flat_rows_view};

    ghost rows = { flat_rows_view };

    ghost places = { λ s. record { video = s.video_given; audio = s.audio_given } };

    fn restart(&mut self) {
        self.video_given = 0;
        self.audio_given = 0;
    }

    fn next(&mut self, kind: Kind) -> Option<Row> {
        match kind {
            Kind::Video => {
                let row = self.video.get(self.video_given).copied()?;
                self.video_given += 1;
                Some(row)
            }
            Kind::Audio => {
                let row = self.audio.get(self.audio_given).copied()?;
                self.audio_given += 1;
                Some(row)
            }
        }
    }

    fn count(&self, kind: Kind) -> u32 {
        match kind {
            Kind::Video => self.video.len() as u32,
            Kind::Audio => self.audio.len() as u32,
        }
    }

    fn file(&self, file: u32) -> &str {
        name_of(&self.files, file)
    }

    fn config(&self, file: u32, kind: Kind) -> &[u8] {
        config_of(&self.files, file, kind)
    }
}
