//! Reading a range of a file in pieces.
ghost use Rattle.std.specs.Prelude.{◌≡◌, ◌+◌, ◌<◌, ◌≤◌, ◌^◌, ◌∷◌, [], Err, IfOk, IfSome, OnOk, IsErrOf, vec_len};
ghost use Rattle.vod_source.specs.Causes.{Rose};
ghost use Rattle.vod_source.specs.Stored.{InFile, bytes_at};
ghost use Rattle.vod_source.specs.Ranges.{file_reads};
ghost use Rattle.vod_source.specs.Told.{Grows, GrewByCount};

use crate::{Sink, Store, VecSink};
use std::alloc::Global;

/// What failed while a range was copied.
#[derive(Clone, Copy, Debug, PartialEq, Eq)]
pub enum CopyFault {
    Store,
    Sink,
}

/// What failed while a range was read into memory.
#[derive(Clone, Copy, Debug, PartialEq, Eq)]
pub enum ReadFault {
    Store,
    NoMemory,
}

/// Reads the `n` bytes of a file from `at` on, in pieces of 65,536 bytes and a rest. The memory is taken first, so that
/// nothing is read where it is wanting.
pub fn read_range<S: Store>(
    alloc: Global,
    store: &mut S,
    name: &str,
    at: u64,
    n: u64,
) -> Result<Vec<u8>, ReadFault>
    requires fits { at + n < 2 ^ 64 }
    requires within { InFile (S.content store.old) name.now at n }
    ensures content { S.content store.new ≡ S.content store.old }
    ensures length { IfOk result (λ bytes. vec_len bytes ≡ n) }
    ensures told { IfSome (S.content store.old) (λ files.
        IfOk result (λ bytes. bytes.items ≡ bytes_at files name.now at n)) }
    ensures log { Grows (S.log store.old) (S.log store.new) result (file_reads name.now at n) }
    ensures later { S.faults store.old ≤ S.faults store.new }
    ensures failed { IsErrOf result ReadFault.Store → Rose (S.faults store.old) (S.faults store.new) }
{
    let Ok(bytes) = Vec::with_capacity(alloc, n as usize) else {
        return Err(ReadFault::NoMemory);
    };
    let mut sink = VecSink::new(bytes);
    match copy_range(store, name, at, n, &mut sink) {
        Ok(()) => Ok(sink.into_vec()),
        Err(CopyFault::Store) => Err(ReadFault::Store),
        Err(CopyFault::Sink) => Err(ReadFault::NoMemory),
    }
}

/// Copies the `n` bytes of a file from `at` on to a sink, in pieces of 65,536 bytes and a rest.
pub fn copy_range<S: Store, K: Sink>(
    store: &mut S,
    name: &str,
    at: u64,
    n: u64,
    sink: &mut K,
) -> Result<(), CopyFault>
    requires fits { at + n < 2 ^ 64 }
    requires within { InFile (S.content store.old) name.now at n }
    ensures content { S.content store.new ≡ S.content store.old }
    ensures kept { K.kept sink.new ≡ K.kept sink.old }
    ensures written { IfSome (S.content store.old) (λ files.
        Grows (K.written sink.old) (K.written sink.new) result (bytes_at files name.now at n)) }
    ensures many { OnOk result (GrewByCount (K.written sink.old) (K.written sink.new) n) }
    ensures log { Grows (S.log store.old) (S.log store.new) result (file_reads name.now at n) }
    ensures store_later { S.faults store.old ≤ S.faults store.new }
    ensures sink_later { K.faults sink.old ≤ K.faults sink.new }
    ensures store_failed { IsErrOf result CopyFault.Store → Rose (S.faults store.old) (S.faults store.new) }
    ensures sink_failed { IsErrOf result CopyFault.Sink → Rose (K.faults sink.old) (K.faults sink.new) }
{
    let mut done = 0;
    while done < n {
        let piece = (n - done).min(65536);
        copy_piece(store, name, at + done, piece as usize, sink)?;
        done += piece;
    }
    Ok(())
}

// One read, put to the sink.
fn copy_piece<S: Store, K: Sink>(
    store: &mut S,
    name: &str,
    at: u64,
    n: usize,
    sink: &mut K,
) -> Result<(), CopyFault>
    requires some { 1 ≤ n }
    requires few { n ≤ 65536 }
    requires within { InFile (S.content store.old) name.now at n }
    ensures content { S.content store.new ≡ S.content store.old }
    ensures kept { K.kept sink.new ≡ K.kept sink.old }
    ensures written { IfSome (S.content store.old) (λ files.
        Grows (K.written sink.old) (K.written sink.new) result (bytes_at files name.now at n)) }
    ensures many { OnOk result (GrewByCount (K.written sink.old) (K.written sink.new) n) }
    ensures log { Grows (S.log store.old) (S.log store.new) result ((name.now, at, n) ∷ []) }
    ensures store_later { S.faults store.old ≤ S.faults store.new }
    ensures sink_later { K.faults sink.old ≤ K.faults sink.new }
    ensures store_failed { IsErrOf result CopyFault.Store → Rose (S.faults store.old) (S.faults store.new) }
    ensures sink_failed { IsErrOf result CopyFault.Sink → Rose (K.faults sink.old) (K.faults sink.new) }
{
    match store.lend(name, at, n) {
        Ok(piece) => match sink.put(piece) {
            Ok(()) => Ok(()),
            Err(_) => Err(CopyFault::Sink),
        },
        Err(_) => Err(CopyFault::Store),
    }
}
