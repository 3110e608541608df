//! Input in pieces.
ghost use Rattle.std.specs.Prelude.{◌≡◌, ◌<◌, ◌≤◌, ◌++◌, length, min, take, drop};
ghost use Rattle.vod_source.specs.Memory.{skipped, cut, first_piece, pieces_in};

use std::marker::Model;

/// Pieces of bytes. The first has lost its first `at` bytes.
#[derive(Drop)]
pub struct Pieces {
    pieces: Vec<Vec<u8>>,
    at: usize,
}

impl Model for Pieces {
    ghost use Rattle.std.specs.Prelude.{ℕ, List};
    ghost use Rattle.vod_source.specs.Memory.{cut, pieces_in};

    ghost Value = { List (List ℕ) };

    ghost view = { λ a. cut a.at (pieces_in a.pieces.items) };
}

impl Pieces {
    /// All of these pieces.
    pub fn new(pieces: Vec<Vec<u8>>) -> Self
        ensures { result ≡ cut 0 (pieces_in pieces.items) }
    {
        Pieces { pieces, at: 0 }
    }

    /// Takes bytes from the first piece that isn't empty into the front of the room, and how many. None are taken only
    /// where there is no such piece.
    pub fn take(&mut self, room: &mut [u8]) -> usize
        requires { 0 < length room.old }
        ensures count { result ≡ min (length room.new) (length (first_piece (skipped self.old))) }
        ensures bytes { take result room.new ≡ take result (first_piece (skipped self.old)) }
        ensures left { self.new ≡ cut result (skipped self.old) }
    {
        skip(&mut self.pieces, &mut self.at);
        match self.pieces.first() {
            None => 0,
            Some(piece) => {
                let n = copy_front(&piece[self.at..], room);
                self.at += n;
                n
            }
        }
    }
}

// Copies as many bytes as both have, and how many.
fn copy_front(from: &[u8], to: &mut [u8]) -> usize
    ensures count { result ≡ min (length from.now) (length to.old) }
    ensures copied { to.new ≡ take result from.now ++ drop result to.old }
{
    let n = from.len().min(to.len());
    to[..n].copy_from_slice(&from[..n]);
    n
}

// Drops pieces that are used up from the front.
fn skip(pieces: &mut Vec<Vec<u8>>, at: &mut usize)
    ensures left { cut at.new (pieces_in pieces.new.items) ≡ skipped (cut at.old (pieces_in pieces.old.items)) }
    ensures within { at.new ≤ length (first_piece (pieces_in pieces.new.items)) }
{
    while !pieces.is_empty() && *at >= pieces[0].len() {
        let _ = pieces.remove(0);
        *at = 0;
    }
    if pieces.is_empty() {
        *at = 0;
    }
}
