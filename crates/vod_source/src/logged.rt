//! A store that keeps a log of its loans.
ghost use Rattle.std.specs.Prelude.{is_err, ◌≡◌, ◌+◌, ◌≤◌, [], Some, ◌<◌, ◌++◌, ◌∷◌, IfOk, OnOk, IfSome, IfNone, Any, slice_index_or, vec_len, vec_capacity, length, ◌-◌, ◌^◌, is_ok, IsTrue, if◌then◌else◌};
ghost use Rattle.vod_source.specs.Logs.{HasEither, reads_of, last_name};
ghost use Rattle.vod_source.specs.Causes.{HasCause};
ghost use Rattle.vod_source.specs.Stored.{InFile, LentFrom, bytes_at, size_of};

use crate::{Store, StoreFailed};
use std::alloc::Global;
use std::marker::Model;
use vod_types::Name;

/// One loan: its file by the number of the name, its place in the file and its length in bytes.
#[derive(Clone, Copy, Debug, PartialEq, Eq)]
pub struct Lent {
    pub name: u32,
    pub at: u64,
    pub n: u32,
}

// Names, and entries that name them by number.
#[derive(Drop)]
struct Log {
    names: Vec<Name>,
    entries: Vec<Lent>,
}

impl Model for Log {
    ghost use Rattle.std.specs.Prelude.{◌-◌, ◌≤◌, ◌^◌, vec_capacity, vec_len};
    ghost use Rattle.vod_source.specs.Logs.{LogValue, AreNamed};

    ghost Value = { LogValue };

    ghost view = { λ a. record { names = a.names.items; entries = a.entries.items; spare = vec_capacity a.entries - vec_len a.entries } };

    ghost invariant = { λ a. AreNamed a.names.items a.entries.items × (vec_len a.names ≤ 2 ^ 32) };
}

impl Log {
    // Adds a name and makes room for an entry, and whether there was memory for both.
    fn prepare(&mut self, alloc: Global, name: &str) -> bool
        ensures entries { self.new.entries ≡ self.old.entries }
        ensures spare { IsTrue result → 0 < self.new.spare }
        ensures names { self.new.names ≡ (if result then self.old.names ++ name.now ∷ [] else self.old.names) }
        ensures reads { reads_of self.new.names self.new.entries ≡ reads_of self.old.names self.old.entries }
        ensures last { IsTrue result → last_name self.new.names ≡ name.now }
    {
        add(alloc, &mut self.names, &mut self.entries, name)
    }

    // Adds an entry of the last name.
    fn push(&mut self, at: u64, n: u32)
        requires named { 0 < length self.old.names }
        requires spare { 0 < self.old.spare }
        ensures names { self.new.names ≡ self.old.names }
        ensures entries { self.new.entries ≡ self.old.entries ++ record { name = length self.old.names - 1; at = at; n = n } ∷ [] }
        ensures reads { reads_of self.new.names self.new.entries ≡ reads_of self.old.names self.old.entries ++ (last_name self.old.names, at, n) ∷ [] }
    {
        let name = (self.names.len() - 1) as u32;
        let _ = self.entries.push(Lent { name, at, n });
    }
}

// Adds a name and makes room for an entry.
fn add(alloc: Global, names: &mut Vec<Name>, entries: &mut Vec<Lent>, name: &str) -> bool
    requires { vec_len names.old ≤ 2 ^ 32 }
    ensures entries { entries.new.items ≡ entries.old.items }
    ensures few { vec_len names.new ≤ 2 ^ 32 }
    ensures spare { IsTrue result → vec_len entries.new < vec_capacity entries.new }
    ensures names { names.new.items ≡ (if result then names.old.items ++ name.now ∷ [] else names.old.items) }
{
    if names.len() >= 1 << 32 || entries.reserve(1).is_err() {
        return false;
    }
    match Name::new(alloc, name) {
        Ok(name) => names.push(name).is_ok(),
        Err(_) => false,
    }
}

/// A store with a log of its loans.
///
/// It tells the inner store's content, and a log of its own. A call fails where the inner store's does, and `lend` also
/// where memory is wanting for one more entry or for the loan, which counts as refused; nothing is read then.
#[derive(Drop)]
pub struct Logged<S: Store> {
    alloc: Global,
    inner: S,
    log: Log,
    refused: u64,
    room: Vec<u8>,
}

impl<S: Store> Model for Logged<S> {
    ghost use Rattle.vod_source.specs.Logs.{LoggedValue};

    ghost Value = { LoggedValue S };

    ghost view = { λ a. record { inner = a.inner; names = a.log.names; entries = a.log.entries; refused = a.refused } };
}

impl<S: Store> Logged<S> {
    /// A store with an empty log, which will grow by this allocator.
    pub fn new(alloc: Global, inner: S) -> Self
        ensures { result ≡ record { inner = inner; names = []; entries = []; refused = 0 } }
    {
        Logged {
            alloc,
            inner,
            log: Log {
                names: Vec::new(alloc),
                entries: Vec::new(alloc),
            },
            refused: 0,
            room: Vec::new(alloc),
        }
    }

    /// The store, without its log.
    pub fn into_inner(self) -> S
        ensures { result ≡ self.inner }
    {
        let Logged {
            alloc: _,
            inner,
            log: _,
            refused: _,
            room: _,
        } = self;
        inner
    }

    /// How often memory was wanting for the log or for a loan.
    pub fn refused(&self) -> u64
        ensures { result ≡ self.now.refused }
    {
        self.refused
    }

    /// The loans so far, in order.
    pub fn entries(&self) -> &[Lent]
        ensures { result.now ≡ self.now.entries }
    {
        &self.log.entries
    }

    /// The file's name that an entry gives as this number.
    pub fn name(&self, i: u32) -> &str
        requires { Any (λ entry. entry.name ≡ i) self.now.entries }
        ensures { result.now ≡ slice_index_or self.now.names i [] }
    {
        let log = &self.log;
        log.names[i as usize].as_str()
    }
}

impl<S: Store> Store for Logged<S> {
    ghost content = { λ l. S.content l.inner };

    ghost log = { λ l. Some (reads_of l.names l.entries) };

    ghost faults = { λ l. S.faults l.inner + l.refused };

    ghost moved = { λ old new failed. HasEither (S.faults old.inner) (S.faults new.inner) old.refused new.refused failed };

    fn size(&mut self, name: &str) -> Result<Option<u64>, StoreFailed>
        ensures told { IfSome (S.content self.old.inner) (λ files. IfOk result (λ size. size ≡ size_of files name.now)) }
        ensures content { S.content self.new.inner ≡ S.content self.old.inner }
        ensures names { self.new.names ≡ self.old.names }
        ensures entries { self.new.entries ≡ self.old.entries }
        ensures refused { self.new.refused ≡ self.old.refused }
        ensures inner { HasCause (S.faults self.old.inner) (S.faults self.new.inner) result }
    {
        self.inner.size(name)
    }

    fn lend(&mut self, name: &str, at: u64, n: usize) -> Result<&[u8], StoreFailed> {
        if !self.log.prepare(self.alloc, name) || !empty(&mut self.room, n) {
            self.refused = self.refused.saturating_add(1);
            return Err(StoreFailed);
        }
        copy_out(&mut self.inner, &mut self.room, name, at, n)?;
        self.log.push(at, n as u32);
        Ok(&self.room)
    }
}

// Makes an empty room for so many bytes.
fn empty(room: &mut Vec<u8>, n: usize) -> bool
    ensures room { IsTrue result → n ≤ vec_capacity room.new }
{
    room.clear();
    room.reserve(n).is_ok()
}

// A loan, copied into a room.
fn copy_out<S: Store>(
    inner: &mut S,
    room: &mut Vec<u8>,
    name: &str,
    at: u64,
    n: usize,
) -> Result<(), StoreFailed>
    requires some { 1 ≤ n }
    requires few { n ≤ 65536 }
    requires within { InFile (S.content inner.old) name.now at n }
    requires room { n ≤ vec_capacity room.old }
    ensures length { OnOk result (length room.new.items ≡ n) }
    ensures told { IfSome (S.content inner.old) (λ files. OnOk result (room.new.items ≡ bytes_at files name.now at n)) }
    ensures lent { LentFrom (S.content inner.old) (S.content inner.new) (S.log inner.old) (S.log inner.new)
        (S.faults inner.old) (S.faults inner.new) (name.now, at, n) result (S.moved inner.old inner.new (is_err result)) }
{
    room.clear();
    let piece = inner.lend(name, at, n)?;
    let _ = room.extend_from_slice(piece);
    Ok(())
}
