//! Where files come from.
ghost use Rattle.std.specs.Prelude.{◌≡◌, ℕ, ◌≤◌, List, length, Option, Bool, IfSome, IfOk, is_err, ⊤};
ghost use Rattle.std.specs.Borrow.{sem};
ghost use Rattle.std.specs.Io.BufRead.{Rests};
ghost use Rattle.vod_source.specs.Causes.{HasCause};
ghost use Rattle.vod_source.specs.Stored.{Files, Read, InFile, LentFrom, size_of, bytes_at};

/// A call on a store failed.
#[derive(Clone, Copy, Debug, PartialEq, Eq)]
pub struct StoreFailed;

/// Files by name, which no call changes.
pub trait Store {
    /// The files, where the store tells them.
    ghost content: { Self → Option Files };

    /// What was lent so far, where the store tells it.
    ghost log: { Self → Option (List Read) };

    /// How many calls have failed.
    ghost faults: { Self → ℕ };

    /// What else a loan does to the store, by whether it failed, which an implementation may say.
    ghost moved: { Self → Self → Bool → Type 0 } = { λ _ _ _. ⊤ };

    /// The length of a file in bytes, or `None` where there is no such file.
    fn size(&mut self, name: &str) -> Result<Option<u64>, StoreFailed>
        ensures told { IfSome (content self.old) (λ files. IfOk result (λ size. size ≡ size_of files name.now)) }
        ensures content { content self.new ≡ content self.old }
        ensures log { log self.new ≡ log self.old }
        ensures cause { HasCause (faults self.old) (faults self.new) result };

    /// The `n` bytes of a file from `at` on, at most 65,536. A store that doesn't tell its files fails where it can't give
    /// them.
    fn lend(&mut self, name: &str, at: u64, n: usize) -> Result<&[u8], StoreFailed>
        requires some { 1 ≤ n }
        requires few { n ≤ 65536 }
        requires within { InFile (content self.old) name.now at n }
        ensures length { IfOk result (λ piece. length piece.now ≡ n) }
        ensures told { IfSome (content self.old) (λ files. IfOk result (λ piece. piece.now ≡ bytes_at files name.now at n)) }
        ensures* after_loan { sem 𝓛 (Rests Self.row self.entry (λ new.
            LentFrom (content self.old) (content new) (log self.old) (log new)
            (faults self.old) (faults new) (name.now, at, n) result (moved self.old new (is_err result)))) };
}
