//! A store with a log of its loans, whose counts are known to rise from what they were.

ghost use Rattle.std.specs.Prelude.{◌≡◌, ◌+◌, ◌≤◌, ℕ, [], Some, OnOk, IfOk, IfSome, IfErr, is_err, length, vec_capacity};
ghost use Rattle.vod_source.specs.Logs.{HasEither, reads_of};
ghost use Rattle.vod_source.specs.Stored.{InFile, LentFrom, bytes_at};

use std::alloc::Global;
use std::marker::{Brand, Model, PhantomData};
use vod_source::{Logged, Store, StoreFailed};

// The length of the longest loan.
const LOAN: usize = 65536;

/// The count of a store's failures when its log was begun. The caller picks it.
pub trait Base {
    ghost faults: { ℕ };
}

impl Base for Brand {
    ghost faults = { 0 };
}

/// A store with a log of its loans. Its inner store's count hasn't fallen since the log was begun.
///
/// It tells and fails as `Logged` does, and lends out of a room of its own.
#[derive(Drop)]
pub struct Watched<S: Store, B: Base> {
    logged: Logged<S>,
    room: Vec<u8>,
    of: PhantomData<B>,
    ghost later: { B.faults ≤ S.faults logged.inner },
}

impl<S: Store, B: Base> Model for Watched<S, B> {
    ghost use Rattle.std.specs.Prelude.{◌≤◌, vec_capacity};
    ghost use Rattle.vod_source.specs.Logs.{LoggedValue};

    ghost Value = { LoggedValue S };

    ghost view = { λ a. a.logged };

    ghost invariant = { λ a. (B.faults ≤ S.faults a.logged.inner) × (65536 ≤ vec_capacity a.room) };
}

impl<S: Store, B: Base> Watched<S, B> {
    /// A store with an empty log. The only refusal is `NoMemory`, and then the store comes back.
    pub fn new(alloc: Global, inner: S) -> Result<Self, S>
        requires base { B.faults ≡ S.faults inner }
        ensures fresh { IfOk result (λ watched. watched ≡ record { inner = inner; names = []; entries = []; refused = 0 }) }
        ensures back { IfErr result (λ store. store ≡ inner) }
    {
        match Vec::with_capacity(alloc, LOAN) {
            Ok(room) => Ok(Watched {
                logged: Logged::new(alloc, inner),
                room,
                of: PhantomData,
            }),
            Err(_) => Err(inner),
        }
    }

    /// The store with its log.
    pub fn into_logged(self) -> Logged<S>
        ensures same { result ≡ self }
        ensures later { B.faults ≤ S.faults self.inner }
    {
        let Watched {
            logged,
            room: _,
            of: _,
        } = self;
        logged
    }
}

impl<S: Store, B: Base> Store for Watched<S, B> {
    ghost content = { λ l. S.content l.inner };

    ghost log = { λ l. Some (reads_of l.names l.entries) };

    ghost faults = { λ l. S.faults l.inner + l.refused };

    fn size(&mut self, name: &str) -> Result<Option<u64>, StoreFailed> {
        self.logged.size(name)
    }

    fn lend(&mut self, name: &str, at: u64, n: usize) -> Result<&[u8], StoreFailed> {
        copy_out(&mut self.logged, &mut self.room, name, at, n)?;
        Ok(&self.room)
    }
}

// A loan, copied into a room.
fn copy_out<S: Store>(
    logged: &mut Logged<S>,
    room: &mut Vec<u8>,
    name: &str,
    at: u64,
    n: usize,
) -> Result<(), StoreFailed>
    requires some { 1 ≤ n }
    requires few { n ≤ 65536 }
    requires within { InFile (S.content logged.old.inner) name.now at n }
    requires room { n ≤ vec_capacity room.old }
    ensures length { OnOk result (length room.new.items ≡ n) }
    ensures told { IfSome (S.content logged.old.inner) (λ files. OnOk result (room.new.items ≡ bytes_at files name.now at n)) }
    ensures capacity { vec_capacity room.old ≤ vec_capacity room.new }
    ensures inner { S.faults logged.old.inner ≤ S.faults logged.new.inner }
    ensures lent { LentFrom (S.content logged.old.inner) (S.content logged.new.inner)
        (Some (reads_of logged.old.names logged.old.entries)) (Some (reads_of logged.new.names logged.new.entries))
        (S.faults logged.old.inner + logged.old.refused) (S.faults logged.new.inner + logged.new.refused) (name.now, at, n) result
        (HasEither (S.faults logged.old.inner) (S.faults logged.new.inner) logged.old.refused logged.new.refused (is_err result)) }
{
    room.clear();
    let piece = logged.lend(name, at, n)?;
    let _ = room.extend_from_slice(piece);
    Ok(())
}
