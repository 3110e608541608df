//! Replies that are put on a link.
ghost use Rattle.std.specs.Prelude.{◌≡◌, ◌≢◌, ◌≤◌, [], IsTrue};
ghost use Rattle.std.specs.Option.{option_map_or};
ghost use Rattle.list_model.specs.Reply.{is_sent_status, reply_head};
ghost use Rattle.vod_source.specs.Causes.{Rose};
ghost use Rattle.vod_session.specs.Replies.{IsPut};

use vod_http::write_head;
use vod_source::Sink;
use vod_types::Media;

/// How much was put of a reply: all of it, its head and a front part of the rest, or a front part of the head. Where it isn't
/// all, the link has failed.
#[derive(Clone, Copy, Debug, PartialEq, Eq)]
pub(crate) enum Put {
    All,
    Head,
    Cut,
}

/// Puts the head of the reply of a body.
pub(crate) fn put_head<L: Sink>(
    link: &mut L,
    kind: Media,
    length: Option<u64>,
    part: Option<(u64, u64, u64)>,
    http10: bool,
    close: bool,
) -> Put
    ensures put { IsPut (reply_head (option_map_or (λ _. 206) part 200) kind length http10 close part) [] (L.written link.old) (L.written link.new) result }
    ensures kept { L.kept link.new ≡ L.kept link.old }
    ensures later { L.faults link.old ≤ L.faults link.new }
    ensures failed { result ≢ Put.All → Rose (L.faults link.old) (L.faults link.new) }
{
    let head = write_head(body_status(part), kind, length, http10, close, part);
    put_reply(link, head.as_slice(), &[])
}

// The status of a whole body or of a part of one.
fn body_status(part: Option<(u64, u64, u64)>) -> u16
    ensures status { result ≡ option_map_or (λ _. 206) part 200 }
    ensures sent { IsTrue (is_sent_status result) }
{
    match part {
        Some(_) => 206,
        None => 200,
    }
}

/// Puts a head and what stands behind it.
pub(crate) fn put_reply<L: Sink>(link: &mut L, head: &[u8], rest: &[u8]) -> Put
    ensures put { IsPut head.now rest.now (L.written link.old) (L.written link.new) result }
    ensures kept { L.kept link.new ≡ L.kept link.old }
    ensures later { L.faults link.old ≤ L.faults link.new }
    ensures failed { result ≢ Put.All → Rose (L.faults link.old) (L.faults link.new) }
{
    match link.put(head) {
        Ok(()) => put_rest(link, rest),
        Err(_) => Put::Cut,
    }
}

// Puts what stands behind a head.
fn put_rest<L: Sink>(link: &mut L, rest: &[u8]) -> Put
    ensures put { IsPut [] rest.now (L.written link.old) (L.written link.new) result }
    ensures kept { L.kept link.new ≡ L.kept link.old }
    ensures later { L.faults link.old ≤ L.faults link.new }
    ensures whole { result ≢ Put.Cut }
    ensures failed { result ≢ Put.All → Rose (L.faults link.old) (L.faults link.new) }
{
    if rest.is_empty() {
        return Put::All;
    }
    match link.put(rest) {
        Ok(()) => Put::All,
        Err(_) => Put::Head,
    }
}
