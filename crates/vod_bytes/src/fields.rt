//! Big-endian fields at a place of a byte string.

ghost use Rattle.std.specs.Prelude.{◌≡◌, ◌+◌, ◌≤◌, length};
ghost use Rattle.vod_bytes.specs.Fields.{u16_at, u32_at, u64_at, i32_at};

use byteorder::{BigEndian, ByteOrder};

/// The 16 bits at `at`, most significant byte first.
pub fn be_u16(bytes: &[u8], at: usize) -> u16
    requires { at + 2 ≤ length bytes.now }
    ensures { result ≡ u16_at bytes.now at }
{
    BigEndian::read_u16(&bytes[at..])
}

/// The 32 bits at `at`, most significant byte first.
pub fn be_u32(bytes: &[u8], at: usize) -> u32
    requires { at + 4 ≤ length bytes.now }
    ensures { result ≡ u32_at bytes.now at }
{
    BigEndian::read_u32(&bytes[at..])
}

/// The 64 bits at `at`, most significant byte first.
pub fn be_u64(bytes: &[u8], at: usize) -> u64
    requires { at + 8 ≤ length bytes.now }
    ensures { result ≡ u64_at bytes.now at }
{
    BigEndian::read_u64(&bytes[at..])
}

/// The 32 bits at `at` as a two's complement number, most significant byte first.
pub fn be_i32(bytes: &[u8], at: usize) -> i32
    requires { at + 4 ≤ length bytes.now }
    ensures { result ≡ i32_at bytes.now at }
{
    be_u32(bytes, at).cast_signed()
}
