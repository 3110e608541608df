//! Fields of a few bits in a byte string.

ghost use Rattle.std.specs.Prelude.{◌≡◌, ◌+◌, ◌*◌, ◌^◌, ◌<◌, ◌≤◌, length, take, drop, nat_le, if◌then◌else◌, IfSome};
ghost use Rattle.std.specs.Bool.{then_some};
ghost use Rattle.std.specs.Int.Digits.{number_from_digits};
ghost use Rattle.vod_bytes.specs.Bits.{bits_of};

use byteorder::{BigEndian, ByteOrder};
use std::marker::Model;

/// The bits of a byte string that are still to be read, the most significant of each byte first.
#[derive(Drop)]
pub struct Bits<'a> {
    bytes: &'a [u8],
    // how many bits of the first byte are read already
    used: u32,
}

impl<'a> Model for Bits<'a> {
    ghost use Rattle.std.specs.Prelude.{ℕ, List, ◌*◌, ◌<◌, ◌≤◌, length, drop};
    ghost use Rattle.vod_bytes.specs.Bits.{bits_of};

    ghost Value = { List ℕ };

    ghost view = { λ b. drop b.used (bits_of b.bytes.now) };

    ghost invariant = { λ b. (b.used < 8) × (b.used ≤ 8 * length b.bytes.now) };
}

impl<'a> Bits<'a> {
    /// All bits of the bytes.
    pub fn new(bytes: &'a [u8]) -> Bits<'a>
        ensures { result ≡ bits_of bytes.now }
    {
        Bits { bytes, used: 0 }
    }

    /// The number in the next `n` bits, from 1 to 32, and `None` where fewer are left; then none is read.
    pub fn take(&mut self, n: u32) -> Option<u32>
        requires least { 1 ≤ n }
        requires most { n ≤ 32 }
        ensures number { result ≡ then_some (nat_le n (length self.old)) (number_from_digits 2 (take n self.old)) }
        ensures fits { IfSome result (λ v. v < 2 ^ n) }
        ensures rest { self.new ≡ (if nat_le n (length self.old) then drop n self.old else self.old) }
    {
        let end = self.used + n;
        if self.bytes.len() < end.div_ceil(8) as usize {
            return None;
        }
        let number = number_at(self.bytes, self.used, n);
        self.bytes = &self.bytes[(end / 8) as usize..];
        self.used = end % 8;
        Some(number)
    }
}

// the number in `n` bits, from 1 to 32, which begin in the first byte behind `start` others
fn number_at(bytes: &[u8], start: u32, n: u32) -> u32
    requires first { start < 8 }
    requires least { 1 ≤ n }
    requires most { n ≤ 32 }
    requires within { start + n ≤ 8 * length bytes.now }
    ensures number { result ≡ number_from_digits 2 (take n (drop start (bits_of bytes.now))) }
    ensures fits { result < 2 ^ n }
{
    let end = start + n;
    let span = end.div_ceil(8);
    let through = BigEndian::read_uint(bytes, span as usize);
    ((through >> (8 * span - end)) % (1 << n)) as u32
}
