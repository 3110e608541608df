//! A buffer of bytes that grows piece by piece, and stays as it was where memory runs out.

ghost use Rattle.std.specs.Prelude.{◌≡◌, ◌<◌, [], ◌∷◌, ◌++◌, decimal, OnOk, OnErr};
ghost use Rattle.std.specs.Char.{digit_char};
ghost use Rattle.vod_bytes.specs.Fields.{be16, be32, be64};
ghost use Rattle.vod_bytes.specs.Texts.{millis_text, hex_pair};

use std::alloc::{AllocError, AllocFailed, Global};
use std::error::Error;
use std::fmt;
use std::marker::Model;

/// There was no memory for what should have been appended.
#[derive(Clone, Copy, Debug, PartialEq, Eq)]
pub struct NoMemory;

impl fmt::Display for NoMemory {
    fn fmt<W: fmt::Write>(&self, f: &mut fmt::Formatter<W>) -> fmt::Result {
        write!(f, "out of memory")
    }
}

impl Error for NoMemory {}

impl From<AllocError> for NoMemory {
    fn from(_error: AllocError) -> NoMemory {
        NoMemory
    }
}

impl<T: Drop> From<AllocFailed<T>> for NoMemory {
    fn from(_error: AllocFailed<T>) -> NoMemory {
        NoMemory
    }
}

/// The bytes that were appended so far. A refused append leaves them as they were.
#[derive(Drop)]
pub struct Buf {
    bytes: Vec<u8>,
}

impl Model for Buf {
    ghost use Rattle.std.specs.Prelude.{ℕ, List};

    ghost Value = { List ℕ };

    ghost view = { λ b. b.bytes.items };
}

impl Buf {
    /// An empty buffer, which takes no memory until something is appended.
    pub fn new(alloc: Global) -> Buf
        ensures { result ≡ [] }
    {
        Buf {
            bytes: Vec::new(alloc),
        }
    }

    /// What was appended, in order.
    pub fn into_vec(self) -> Vec<u8>
        ensures { result.items ≡ self }
    {
        self.bytes
    }

    /// Appends bytes as they are.
    pub fn bytes(&mut self, bytes: &[u8]) -> Result<(), NoMemory>
        ensures ok { OnOk result (self.new ≡ self.old ++ bytes.now) }
        ensures err { OnErr result (self.new ≡ self.old) }
    {
        self.bytes.extend_from_slice(bytes)?;
        Ok(())
    }

    /// Appends one byte.
    pub fn byte(&mut self, byte: u8) -> Result<(), NoMemory>
        ensures ok { OnOk result (self.new ≡ self.old ++ byte ∷ []) }
        ensures err { OnErr result (self.new ≡ self.old) }
    {
        self.bytes.push(byte)?;
        Ok(())
    }

    /// Appends a number as two bytes, the most significant first.
    pub fn u16(&mut self, n: u16) -> Result<(), NoMemory>
        ensures ok { OnOk result (self.new ≡ self.old ++ be16 n) }
        ensures err { OnErr result (self.new ≡ self.old) }
    {
        self.bytes(&n.to_be_bytes())
    }

    /// Appends a number as four bytes, the most significant first.
    pub fn u32(&mut self, n: u32) -> Result<(), NoMemory>
        ensures ok { OnOk result (self.new ≡ self.old ++ be32 n) }
        ensures err { OnErr result (self.new ≡ self.old) }
    {
        self.bytes(&n.to_be_bytes())
    }

    /// Appends a number as eight bytes, the most significant first.
    pub fn u64(&mut self, n: u64) -> Result<(), NoMemory>
        ensures ok { OnOk result (self.new ≡ self.old ++ be64 n) }
        ensures err { OnErr result (self.new ≡ self.old) }
    {
        self.bytes(&n.to_be_bytes())
    }

    /// Appends a number in decimal digits, without leading zeros.
    pub fn decimal(&mut self, n: u128) -> Result<(), NoMemory>
        ensures ok { OnOk result (self.new ≡ self.old ++ decimal n) }
        ensures err { OnErr result (self.new ≡ self.old) }
    {
        let mut digits = itoa::Buffer::new();
        self.bytes(digits.format(n).as_bytes())
    }

    /// Appends a number of milliseconds as seconds with three decimals, as `10.010`.
    pub fn millis(&mut self, ms: u64) -> Result<(), NoMemory>
        ensures ok { OnOk result (self.new ≡ self.old ++ millis_text ms) }
        ensures err { OnErr result (self.new ≡ self.old) }
    {
        let mut digits = itoa::Buffer::new();
        let seconds = digits.format(ms / 1000).as_bytes();
        let thousandths = [
            b'.',
            b'0' + (ms / 100 % 10) as u8,
            b'0' + (ms / 10 % 10) as u8,
            b'0' + (ms % 10) as u8,
        ];
        self.bytes.reserve(seconds.len() + thousandths.len())?;
        self.bytes.extend_from_slice(seconds).unwrap();
        self.bytes.extend_from_slice(&thousandths).unwrap();
        Ok(())
    }

    /// Appends a byte as two lower-case hexadecimal digits.
    pub fn hex2(&mut self, byte: u8) -> Result<(), NoMemory>
        ensures ok { OnOk result (self.new ≡ self.old ++ hex_pair byte) }
        ensures err { OnErr result (self.new ≡ self.old) }
    {
        self.bytes(&[hex_digit(byte / 16), hex_digit(byte % 16)])
    }
}

// the lower-case digit of a number below 16
fn hex_digit(n: u8) -> u8
    requires { n < 16 }
    ensures { result ≡ digit_char n }
{
    match n {
        0..=9 => b'0' + n,
        _ => b'a' + (n - 10),
    }
}
