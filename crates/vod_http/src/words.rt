//! Words of a field's value (RFC 9110, section 5.6).
ghost use Rattle.std.specs.Prelude.{◌≡◌, reverse, take};
ghost use Rattle.std.specs.Str.{str_eq_ignore_ascii_case};
ghost use Rattle.httparse.specs.Grammar.{is_ows, skip_ows, trim_ows};
ghost use Rattle.list_model.specs.Head.{has_token as has_this_token};

/// Whether two words are the same, in any case.
pub(crate) fn same_word(a: &[u8], b: &[u8]) -> bool
    ensures { result ≡ str_eq_ignore_ascii_case a.now b.now }
{
    a.eq_ignore_ascii_case(b)
}

/// Whether a list of tokens between commas has this one, in any case.
pub(crate) fn has_token(value: &[u8], token: &[u8]) -> bool
    ensures { result ≡ has_this_token token.now value.now }
{
    value
        .split(|b| *b == b',')
        .any(|part| is_token(part, token))
}

// Whether this is the token, with white space around it.
fn is_token(part: &[u8], token: &[u8]) -> bool
    ensures { result ≡ str_eq_ignore_ascii_case (trim_ows part.now) token.now }
{
    same_word(trim(part), token)
}

// The bytes without the white space at both ends.
fn trim(bytes: &[u8]) -> &[u8]
    ensures { result.now ≡ trim_ows bytes.now }
{
    without_last_spaces(without_first_spaces(bytes))
}

fn without_first_spaces(bytes: &[u8]) -> &[u8]
    ensures { result.now ≡ skip_ows bytes.now }
{
    for (i, b) in bytes.iter().enumerate() {
        if !is_space(*b) {
            return &bytes[i..];
        }
    }
    &[]
}

fn without_last_spaces(bytes: &[u8]) -> &[u8]
    ensures { result.now ≡ reverse (skip_ows (reverse bytes.now)) }
{
    let mut count = bytes.len();
    while count > 0 && is_space(bytes[count - 1]) {
        count -= 1;
    }
    &bytes[..count]
}

// Whether a byte is a space or a tab.
fn is_space(b: u8) -> bool
    ensures { result ≡ is_ows b }
{
    b == b' ' || b == b'\t'
}
