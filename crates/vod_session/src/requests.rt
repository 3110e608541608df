//! Requests, and what they are answered with.
ghost use Rattle.std.specs.Prelude.{◌≡◌, ◌^◌, ◌<◌, ◌≤◌, ◌||◌, ◌==◌, length, is_none, IsTrue, IfSome};
ghost use Rattle.httparse.specs.Grammar.{RequestHead};
ghost use Rattle.list_model.specs.Head.{IsHead};
ghost use Rattle.list_model.specs.Exchange.{is_head_verb};
ghost use Rattle.list_model.specs.Ranges.{IsByteRange};
ghost use Rattle.vod_http.specs.Answered.{IfBegun};
ghost use Rattle.vod_session.specs.Calls.{AreAnswers};
ghost use Rattle.vod_session.specs.Requests.{IsAnswered, HasStatus};
ghost use Rattle.vod_session.specs.Steps.{Answers, goes_chunked};

use std::alloc::Global;
use vod_http::{Answerer, Head, Reply, Verb};
use vod_types::Refusal;

// The number of the last reply of a connection.
const LAST: u32 = 10_000;

/// Answers the request that the first bytes are, or refuses it for itself. A body that is begun is sent only to GET.
pub(crate) fn answer<A: Answerer>(
    alloc: Global,
    a: &mut A,
    bytes: &[u8],
    head: &Head,
) -> Reply<A::Cursor>
    requires ordered { head.now.target.0 ≤ head.now.target.1 }
    requires within { head.now.target.1 ≤ length bytes.now }
    requires range { IfSome head.now.range IsByteRange }
    ensures answered { (answer : Answers) → AreAnswers (A.answer (A.kept a.old)) answer → (h : RequestHead) → IsHead bytes.now head.now h →
        IsAnswered answer (A.rest (A.kept a.old)) h (A.faults a.old) (A.faults a.new) result }
    ensures status { HasStatus result }
    ensures belongs { head.now.verb ≡ Verb.Get → IfBegun result (λ _ cursor. A.belongs (A.kept a.old) cursor) }
    ensures under_way { head.now.verb ≡ Verb.Get → IfBegun result (λ _ cursor. IsTrue (A.under_way cursor)) }
    ensures few { head.now.verb ≡ Verb.Get → IfBegun result (λ _ cursor. A.calls_left cursor < 2 ^ 32) }
    ensures in_packets { head.now.verb ≡ Verb.Get → IfBegun result (λ length cursor. A.in_packets cursor ≡ is_none length) }
    ensures kept { A.kept a.new ≡ A.kept a.old }
    ensures later { A.faults a.old ≤ A.faults a.new }
{
    if head.has_body {
        return Reply::Refused(Refusal::BodyNotTaken);
    }
    let path = &bytes[head.target.0..head.target.1];
    match head.verb {
        Verb::Get => a.begin(alloc, path, false, head.range),
        Verb::Head => a.begin(alloc, path, true, head.range),
        Verb::Other => Reply::Refused(Refusal::Method),
    }
}

/// Whether the connection closes behind the reply of this number, from 1.
pub(crate) fn closes(head: &Head, number: u32) -> bool
    ensures { result ≡ ((head.now.close || head.now.has_body) || number == 10000) }
{
    head.close || head.has_body || number == LAST
}

/// Whether a request asks for the head of its reply alone.
pub(crate) fn is_head(verb: Verb) -> bool
    ensures { result ≡ is_head_verb verb }
{
    match verb {
        Verb::Head => true,
        Verb::Get | Verb::Other => false,
    }
}

/// Whether a body of this length goes in chunks.
pub(crate) fn goes_chunked(http10: bool, length: Option<u64>) -> bool
    ensures { result ≡ goes_chunked http10 length }
{
    length.is_none() && !http10
}
