//! The way over the top boxes of a file.

ghost use Rattle.std.specs.Prelude.{◌≡◌, ◌+◌, ◌≤◌, drop, length, IfOk, IfSome, IsErrOf};
ghost use Rattle.mp4_model.specs.Boxes as model;
ghost use Rattle.mp4_model.specs.Movie.{place_reads};
ghost use Rattle.vod_source.specs.Causes.{Rose, HasCause};
ghost use Rattle.vod_source.specs.Stored.{bytes_of};
ghost use Rattle.vod_source.specs.Ranges.{of_file};
ghost use Rattle.vod_source.specs.Told.{Grows};
ghost use Rattle.mp4_source.specs.Sought.{box_reads, top_box_of, GainsHeaders, IsStep, IsSought, IsWithin};

use mp4_boxes::{BoxHead, header};
use vod_source::{Store, StoreFailed};

/// The first top boxes of a file among which `moov` is looked for.
const MOST_BOXES: u32 = 64;

/// The most bytes that a `moov` box may have.
const MOST_BYTES: u64 = 33_554_432;

/// Why `moov` was not found. Places count from the first byte of the file.
#[derive(Clone, Copy, Debug, PartialEq, Eq)]
pub(crate) enum SeekFault {
    StoreFailed,
    BadBox { at: u64 },
    NoMovie,
    MovieTooLong { size: u64 },
}

/// A top box, with its size in bytes.
#[derive(Clone, Copy, Debug, PartialEq, Eq)]
pub(crate) enum TopBox {
    Moov { size: u64 },
    Other { size: u64 },
}

/// The place and the size of `moov` among the first 64 top boxes of a file of `file_size` bytes, by
/// one read for each box.
pub(crate) fn seek<S: Store>(
    store: &mut S,
    name: &str,
    file_size: u64,
) -> Result<(u64, u64), SeekFault>
    requires { IfSome (S.content store.old) (λ files. length (bytes_of files name.now) ≡ file_size) }
    ensures content { S.content store.new ≡ S.content store.old }
    ensures told { IfSome (S.content store.old) (λ files. IsSought (bytes_of files name.now) result) }
    ensures within { IfOk result (λ found. found.0 + found.1 ≤ file_size) }
    ensures short { IfOk result (λ found. found.1 ≤ 33554432) }
    ensures log { IfSome (S.content store.old) (λ files.
        GainsHeaders (S.log store.old) (S.log store.new) name.now (place_reads (bytes_of files name.now)) result) }
    ensures later { S.faults store.old ≤ S.faults store.new }
    ensures failed { IsErrOf result SeekFault.StoreFailed → Rose (S.faults store.old) (S.faults store.new) }
{
    let mut at = 0;
    for _looked in 0..MOST_BOXES {
        match next_box(store, name, at, file_size - at)? {
            TopBox::Moov { size } => return Ok((at, size)),
            TopBox::Other { size } => at += size,
        }
    }
    Err(SeekFault::NoMovie)
}

// The box at a place where `left` bytes remain.
fn next_box<S: Store>(store: &mut S, name: &str, at: u64, left: u64) -> Result<TopBox, SeekFault>
    requires { IfSome (S.content store.old) (λ files. at + left ≡ length (bytes_of files name.now)) }
    ensures content { S.content store.new ≡ S.content store.old }
    ensures told { IfSome (S.content store.old) (λ files. IsStep at left (drop at (bytes_of files name.now)) result) }
    ensures fits { IfOk result (IsWithin left) }
    ensures log { GainsHeaders (S.log store.old) (S.log store.new) name.now (box_reads at left) result }
    ensures later { S.faults store.old ≤ S.faults store.new }
    ensures failed { IsErrOf result SeekFault.StoreFailed → Rose (S.faults store.old) (S.faults store.new) }
{
    if left == 0 {
        return Err(SeekFault::NoMovie);
    }
    match read_header(store, name, at, left) {
        Err(StoreFailed) => Err(SeekFault::StoreFailed),
        Ok(None) => Err(SeekFault::BadBox { at }),
        Ok(Some(head)) => top_box(head),
    }
}

// The box of a header, a `moov` only where it isn't too long.
fn top_box(head: BoxHead) -> Result<TopBox, SeekFault>
    ensures { result ≡ top_box_of head }
{
    let size = head.size;
    if head.kind != *b"moov" {
        Ok(TopBox::Other { size })
    } else if size <= MOST_BYTES {
        Ok(TopBox::Moov { size })
    } else {
        Err(SeekFault::MovieTooLong { size })
    }
}

// The header at a place where `left` bytes remain, by one read of 16 bytes or of what is left. There
// is no read where fewer than 8 bytes are left.
fn read_header<S: Store>(
    store: &mut S,
    name: &str,
    at: u64,
    left: u64,
) -> Result<Option<BoxHead>, StoreFailed>
    requires { IfSome (S.content store.old) (λ files. at + left ≡ length (bytes_of files name.now)) }
    ensures content { S.content store.new ≡ S.content store.old }
    ensures told { IfSome (S.content store.old) (λ files.
        IfOk result (λ head. head ≡ model.header (drop at (bytes_of files name.now)) left)) }
    ensures fits { IfOk result (λ head. IfSome head (λ h. h.size ≤ left)) }
    ensures log { Grows (S.log store.old) (S.log store.new) result (of_file name.now (box_reads at left)) }
    ensures cause { HasCause (S.faults store.old) (S.faults store.new) result }
{
    if left < 8 {
        return Ok(None);
    }
    match store.lend(name, at, left.min(16) as usize) {
        Ok(bytes) => Ok(header(bytes, left)),
        Err(StoreFailed) => Err(StoreFailed),
    }
}
