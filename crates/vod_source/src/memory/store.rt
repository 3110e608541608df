//! A store in memory.
ghost use Rattle.std.specs.Prelude.{◌≡◌, ◌↔◌, ◌+◌, ◌≤◌, length, None, Some, IfOk, IsErr, if◌then◌else◌, is_err, option_copied};
ghost use Rattle.vod_source.specs.contracts.memory.store.MemStore.{the_row};
ghost use Rattle.std.specs.Borrow.{sem};
ghost use Rattle.std.specs.Io.BufRead.{Rests};
ghost use Rattle.vod_source.specs.Causes.{HasCause};
ghost use Rattle.vod_source.specs.Memory.{after_call, IsDue, counted, failed, files_in};
ghost use Rattle.vod_source.specs.Stored.{InFile, LentFrom, file_named, size_of, bytes_of, bytes_at};

use crate::memory::calls::Calls;
use crate::{Store, StoreFailed};
use std::marker::Model;
use vod_types::Name;

/// Files in memory. Of two with one name the first counts.
///
/// `size` and `lend` count as calls of one number. A call fails exactly where its number is one of those that are to fail.
#[derive(Drop)]
pub struct MemStore {
    files: Vec<(Name, Vec<u8>)>,
    calls: Calls,
}

impl Model for MemStore {
    ghost use Rattle.vod_source.specs.Memory.{StoreValue, files_in};

    ghost Value = { StoreValue };

    ghost view = { λ a. record { files = files_in a.files.items; plan = a.calls } };
}

impl MemStore {
    /// A store of these files, whose calls with the numbers `fails`, from 1, fail.
    pub fn new(files: Vec<(Name, Vec<u8>)>, fails: Vec<u64>) -> Self
        ensures { result ≡ record { files = files_in files.items; plan = record { fails = fails.items; made = 0; faults = 0 } } }
    {
        MemStore {
            files,
            calls: Calls::new(fails),
        }
    }
}

// The first file of this name.
fn find<'a>(files: &'a [(Name, Vec<u8>)], name: &str) -> Option<&'a [u8]>
    ensures { option_copied result ≡ file_named (files_in files.now) name.now }
{
    for (known, bytes) in files {
        if known.as_str() == name {
            return Some(bytes);
        }
    }
    None
}

// Its bytes, or none where there is no such file.
fn bytes<'a>(files: &'a [(Name, Vec<u8>)], name: &str) -> &'a [u8]
    ensures { result.now ≡ bytes_of (files_in files.now) name.now }
{
    find(files, name).unwrap_or(&[])
}

impl Store for MemStore {
    ghost content = { λ s. Some s.files };

    ghost log = { λ s. None };

    ghost faults = { λ s. s.plan.faults };

    ghost moved = { λ old new is_failed. new.plan ≡ after_call is_failed old.plan };

    fn size(&mut self, name: &str) -> Result<Option<u64>, StoreFailed>
        ensures told { IfOk result (λ size. size ≡ size_of self.old.files name.now) }
        ensures due { IsErr result ↔ IsDue self.old.plan }
        ensures files { self.new.files ≡ self.old.files }
        ensures plan { self.new.plan ≡ (if is_err result then failed (counted self.old.plan) else counted self.old.plan) }
        ensures cause { HasCause self.old.plan.faults self.new.plan.faults result }
    {
        if self.calls.begin() {
            return Err(StoreFailed);
        }
        Ok(find(&self.files, name).map(|bytes| bytes.len() as u64))
    }

    fn lend(&mut self, name: &str, at: u64, n: usize) -> Result<&[u8], StoreFailed>
        requires { InFile (Some self.old.files) name.now at n }
        ensures length { IfOk result (λ piece. length piece.now ≡ n) }
        ensures told { IfOk result (λ piece. piece.now ≡ bytes_at self.old.files name.now at n) }
        ensures due { IsErr result ↔ IsDue self.old.plan }
        ensures* after_loan { sem 𝓛 (Rests the_row self.entry (λ new.
            LentFrom (Some self.old.files) (Some new.files) None None self.old.plan.faults new.plan.faults
            (name.now, at, n) result (new.plan ≡ after_call (is_err result) self.old.plan))) }
    {
        if self.calls.begin() {
            return Err(StoreFailed);
        }
        Ok(part(&self.files, name, at as usize, n))
    }
}

// The `n` bytes of a file from `at` on.
fn part<'a>(files: &'a [(Name, Vec<u8>)], name: &str, at: usize, n: usize) -> &'a [u8]
    requires { at + n ≤ length (bytes_of (files_in files.now) name.now) }
    ensures length { length result.now ≡ n }
    ensures part { result.now ≡ bytes_at (files_in files.now) name.now at n }
{
    let all = bytes(files, name);
    &all[at..at + n]
}
