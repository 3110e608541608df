//! What the fields of a head say.
ghost use Rattle.std.specs.Prelude.{◌≡◌, All, length, map, filter, codes};
ghost use Rattle.std.specs.List.{list_any};
ghost use Rattle.httparse.specs.Spans.{IsHeaderWithin, header_bytes};
ghost use Rattle.list_model.specs.Head.{says_body as field_says_body, says_close as field_says_close, is_named, range_of_fields, range_for};

use crate::ranges::byte_range;
use crate::words::{has_token, same_word};
use httparse::spans::HeaderSpan;
use list_model::Verb;
use vod_types::ByteRange;

/// Whether a field says that a body follows.
pub(crate) fn has_body(bytes: &[u8], fields: &[HeaderSpan]) -> bool
    requires { All (IsHeaderWithin (length bytes.now)) fields.now }
    ensures { result ≡ list_any field_says_body (map (header_bytes bytes.now) fields.now) }
{
    for field in fields {
        if says_body(field.name.of(bytes), field.value.of(bytes)) {
            return true;
        }
    }
    false
}

/// Whether a field says that the connection closes.
pub(crate) fn asks_close(bytes: &[u8], fields: &[HeaderSpan]) -> bool
    requires { All (IsHeaderWithin (length bytes.now)) fields.now }
    ensures { result ≡ list_any field_says_close (map (header_bytes bytes.now) fields.now) }
{
    for field in fields {
        if says_close(field.name.of(bytes), field.value.of(bytes)) {
            return true;
        }
    }
    false
}

/// The range of bytes that the fields of a request ask for; only GET has one.
pub(crate) fn asked_range(verb: Verb, bytes: &[u8], fields: &[HeaderSpan]) -> Option<ByteRange>
    requires { All (IsHeaderWithin (length bytes.now)) fields.now }
    ensures { result ≡ range_for verb (map (header_bytes bytes.now) fields.now) }
{
    match verb {
        Verb::Get => range_of_all(bytes, fields),
        Verb::Head | Verb::Other => None,
    }
}

// The range of the one field that names one; several ask for none.
fn range_of_all(bytes: &[u8], fields: &[HeaderSpan]) -> Option<ByteRange>
    requires { All (IsHeaderWithin (length bytes.now)) fields.now }
    ensures { result ≡ range_of_fields (filter (is_named (codes "Range")) (map (header_bytes bytes.now) fields.now)) }
{
    let mut found: Option<&[u8]> = None;
    for field in fields {
        if same_word(field.name.of(bytes), b"Range") {
            if found.is_some() {
                return None;
            }
            found = Some(field.value.of(bytes));
        }
    }
    byte_range(found?)
}

fn says_body(name: &[u8], value: &[u8]) -> bool
    ensures { result ≡ field_says_body (name.now, value.now) }
{
    same_word(name, b"Transfer-Encoding")
        || same_word(name, b"Content-Length") && value != b"0".as_slice()
}

fn says_close(name: &[u8], value: &[u8]) -> bool
    ensures { result ≡ field_says_close (name.now, value.now) }
{
    same_word(name, b"Connection") && has_token(value, b"close")
}
