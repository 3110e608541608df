//! What was read of a file ahead of what is asked for.
ghost use Rattle.std.specs.Prelude.{◌≡◌, ◌≤◌, IfErr, OnOk, true, length};
ghost use Rattle.vod_types.specs.declared.Refusal.TheVariants.{NoMemory};
ghost use Rattle.vod_host.specs.ReadAhead.{Has};

use std::alloc::Global;
use std::io;
use std::marker::Model;
use std::os::unix::fs::FileExt;
use std::string::String;
use vod_types::Refusal;

/// How many bytes are read at once, which is the length of the longest loan.
const ROOM: usize = 65536;

/// A room of 65,536 bytes, and the bytes of one file that were read into it last.
#[derive(Drop)]
pub(crate) struct ReadAhead {
    path: String,
    at: u64,
    room: Vec<u8>,
    filled: usize,
}

impl Model for ReadAhead {
    ghost use Rattle.std.specs.Prelude.{◌≡◌, ◌≤◌, vec_len};
    ghost use Rattle.vod_host.specs.ReadAhead.{Stretch};

    ghost Value = { Stretch };

    ghost view = { λ a. record { at = a.at; filled = a.filled } };

    ghost invariant = { λ a. (vec_len a.room ≡ 65536) × (a.filled ≤ 65536) };
}

impl ReadAhead {
    /// A room in which nothing stands. The only refusal is `NoMemory`.
    pub(crate) fn new(alloc: Global) -> Result<ReadAhead, Refusal>
        ensures only { IfErr result (λ refusal. refusal ≡ NoMemory) }
    {
        let mut room = Vec::new(alloc);
        match room.resize(ROOM, 0) {
            Ok(()) => Ok(ReadAhead {
                path: String::new(alloc),
                at: 0,
                room,
                filled: 0,
            }),
            Err(_) => Err(Refusal::NoMemory),
        }
    }

    /// Whether the `n` bytes of a file from `at` on stand in the room.
    pub(crate) fn has(&self, path: &str, at: u64, n: usize) -> bool
        ensures { result ≡ true → Has self.now at n }
    {
        if at < self.at || n > self.filled {
            return false;
        }
        at - self.at <= (self.filled - n) as u64 && self.path.as_str() == path
    }

    /// The `n` bytes from `at` on.
    pub(crate) fn lent(&self, at: u64, n: usize) -> &[u8]
        requires { Has self.now at n }
        ensures { length result.now ≡ n }
    {
        let from = (at - self.at) as usize;
        &self.room[from..from + n]
    }

    /// Fills the room with the bytes of a file from `at` on, as far as one read goes, and with the first `n` of them in any
    /// case. After an error nothing stands in it.
    pub(crate) fn refill<F: FileExt>(
        &mut self,
        file: &F,
        path: &str,
        at: u64,
        n: usize,
    ) -> io::Result<()>
        requires { n ≤ 65536 }
        ensures { OnOk result (Has self.new at n) }
    {
        self.filled = 0;
        self.path.clear();
        self.path.push_str(path)?;
        let read = file.read_at(&mut self.room, at).unwrap_or(0);
        if read < n {
            let rest = at.wrapping_add(read as u64);
            file.read_exact_at(&mut self.room[read..n], rest)?;
        }
        self.at = at;
        self.filled = read.max(n);
        Ok(())
    }
}
