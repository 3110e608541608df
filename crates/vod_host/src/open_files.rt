//! Files that are kept open.
ghost use Rattle.std.specs.Prelude.{◌≡◌, IfErr};
ghost use Rattle.vod_types.specs.declared.Refusal.TheVariants.{NoMemory};

use lru::LruCache;
use std::alloc::Global;
use std::io::ErrorKind;
use std::num::NonZeroUsize;
use std::rt::Files;
use std::string::String;
use std::{fs, io};
use vod_types::Refusal;

/// The most files that are kept open.
const MOST: usize = 16;

/// At most 16 open files by their paths, the most recently used first.
#[derive(Drop)]
pub(crate) struct OpenFiles<F: Drop> {
    alloc: Global,
    kept: LruCache<String, F>,
}

impl<F: Drop> OpenFiles<F> {
    /// None yet. The only refusal is `NoMemory`.
    pub(crate) fn new(alloc: Global) -> Result<OpenFiles<F>, Refusal>
        ensures only { IfErr result (λ refusal. refusal ≡ NoMemory) }
    {
        match LruCache::new(alloc, NonZeroUsize::new(MOST).unwrap()) {
            Ok(kept) => Ok(OpenFiles { alloc, kept }),
            Err(_) => Err(Refusal::NoMemory),
        }
    }

    /// The file of a path, which is opened unless it is open already; none where the path names no regular file. A
    /// seventeenth closes the least recently used.
    pub(crate) fn file<R: Files<File = F>>(
        &mut self,
        rt: &R,
        path: &str,
    ) -> io::Result<Option<&F>> {
        if !self.kept.contains(path) {
            let Some(file) = open(rt, path)? else {
                return Ok(None);
            };
            self.kept.put(String::from_str(self.alloc, path)?, file)?;
        }
        Ok(self.kept.get(path))
    }
}

// Opens a regular file, or none where the path names none. Nothing else is opened, since an open pipe may wait for its peer.
fn open<R: Files>(rt: &R, path: &str) -> io::Result<Option<R::File>> {
    match fs::metadata(rt, path) {
        Ok(found) if found.is_file() => Ok(Some(fs::open(rt, path)?)),
        Ok(_) => Ok(None),
        Err(error) if is_absence(error.kind()) => Ok(None),
        Err(error) => Err(error),
    }
}

// Whether this says that there can be no file of that path.
fn is_absence(kind: ErrorKind) -> bool {
    match kind {
        ErrorKind::NotFound
        | ErrorKind::NotADirectory
        | ErrorKind::InvalidFilename
        | ErrorKind::InvalidInput => true,
        _ => false,
    }
}
