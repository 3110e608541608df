//! The heads of requests (RFC 9112, sections 2 to 5).
ghost use Rattle.std.specs.Prelude.{◌≡◌, ◌≤◌, length};
ghost use Rattle.httparse.specs.Grammar.{RequestHead};
ghost use Rattle.httparse.specs.Spans.{IsRequestAt, IsRequestWithin};
ghost use Rattle.list_model.specs.Head.{IsHead, IsStateOf, verb_of as verb_of_method};

use crate::fields::{asked_range, asks_close, has_body};
use crate::found::{FIELDS, Found, find_head};
use httparse::spans::{EMPTY_HEADER_SPAN, HeaderSpan, RequestSpans};
use list_model::{Head, HeadState, Verb};

/// Reads the head at the front of bytes.
pub fn read_head(bytes: &[u8]) -> HeadState
    ensures { IsStateOf bytes.now result }
{
    let mut fields = [EMPTY_HEADER_SPAN; FIELDS];
    match find_head(bytes, &mut fields) {
        Found::More => HeadState::More,
        Found::Bad => HeadState::Bad,
        Found::TooMany => HeadState::TooMany,
        Found::Whole(spans) => HeadState::Whole(head_at(bytes, &fields, spans)),
    }
}

// What a head says whose parts are at these places.
fn head_at(bytes: &[u8], fields: &[HeaderSpan], spans: RequestSpans) -> Head
    requires { IsRequestWithin bytes.now fields.now spans }
    ensures { (h : RequestHead) → IsRequestAt bytes.now fields.now spans h → length h.fields ≤ 64 → IsHead bytes.now result h }
{
    let fields = &fields[..spans.headers];
    let verb = verb_of(spans.method.of(bytes));
    let http10 = spans.version == 0;
    Head {
        used: spans.len,
        verb,
        target: (spans.path.start, spans.path.end),
        has_body: has_body(bytes, fields),
        http10,
        close: http10 || asks_close(bytes, fields),
        range: asked_range(verb, bytes, fields),
    }
}

// The verb of a method, which is told by case.
fn verb_of(method: &[u8]) -> Verb
    ensures { result ≡ verb_of_method method.now }
{
    if method == b"GET".as_slice() {
        Verb::Get
    } else if method == b"HEAD".as_slice() {
        Verb::Head
    } else {
        Verb::Other
    }
}
