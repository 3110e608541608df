//! The tables of a track together.

ghost use Rattle.std.specs.Prelude.{◌≡◌};
ghost use Rattle.mp4_model.specs.Validity.{known_samples, known_chunks};

use crate::places::{Chunks, Stsc};
use crate::samples::{Stss, Stsz};
use crate::times::{Ctts, Stts};

/// The sample tables of a track. None stands for a table that is absent or doesn't read.
#[derive(Clone, Copy, Debug)]
pub struct Tables<'a> {
    pub stts: Option<Stts<'a>>,
    pub ctts: Option<Ctts<'a>>,
    pub stss: Option<Stss<'a>>,
    pub stsc: Option<Stsc<'a>>,
    pub stsz: Option<Stsz<'a>>,
    pub chunks: Option<Chunks<'a>>,
}

impl Tables<'_> {
    ghost use Rattle.mp4_tables.specs.Views.{tables_of};

    pub(crate) fn sample_count(&self) -> Option<u32>
        ensures { result ≡ known_samples (tables_of self.now) }
    {
        match self.stsz {
            Some(sizes) => Some(sizes.len()),
            None => None,
        }
    }

    pub(crate) fn chunk_count(&self) -> Option<u32>
        ensures { result ≡ known_chunks (tables_of self.now) }
    {
        match self.chunks {
            Some(places) => Some(places.len()),
            None => None,
        }
    }
}
