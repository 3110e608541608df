//! Ranges of bytes that a request asks for (RFC 9110, section 14).
ghost use Rattle.std.specs.Prelude.{◌≡◌, [], ◌∷◌};
ghost use Rattle.std.specs.Char.{is_ascii_digit};
ghost use Rattle.std.specs.List.{list_all};
ghost use Rattle.list_model.specs.Ranges.{byte_range as range_of_value, range_number, range_of_parts};

use std::str;
use vod_types::ByteRange;

// What a number of a range is below.
const NUMBER_END: u64 = 1 << 63;

/// The range that the value of a field asks for, as `bytes=0-99`.
pub(crate) fn byte_range(value: &[u8]) -> Option<ByteRange>
    ensures { result ≡ range_of_value value.now }
{
    let range = value.strip_prefix(b"bytes=")?;
    let dash = range.iter().position(|b| *b == b'-')?;
    range_between(&range[..dash], &range[dash + 1..])
}

// The range with a first and a last number, of which one may be left out.
fn range_between(first: &[u8], last: &[u8]) -> Option<ByteRange>
    ensures { result ≡ range_of_parts (first.now ∷ last.now ∷ []) }
{
    if first.is_empty() {
        return Some(ByteRange::Suffix(range_number(last)?));
    }
    let first = range_number(first)?;
    if last.is_empty() {
        return Some(ByteRange::From { first, last: None });
    }
    let last = range_number(last)?;
    if first <= last {
        Some(ByteRange::From {
            first,
            last: Some(last),
        })
    } else {
        None
    }
}

// The number that one or more digits write, if it is below 2^63.
fn range_number(digits: &[u8]) -> Option<u64>
    ensures { result ≡ range_number digits.now }
{
    if !are_digits(digits) {
        return None;
    }
    let number = str::from_utf8(digits).ok()?.parse::<u64>().ok()?;
    if number < NUMBER_END {
        Some(number)
    } else {
        None
    }
}

// Whether each byte is a digit.
fn are_digits(bytes: &[u8]) -> bool
    ensures { result ≡ list_all is_ascii_digit bytes.now }
{
    bytes.iter().all(|b| b.is_ascii_digit())
}
