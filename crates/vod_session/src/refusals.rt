//! The replies by which a request is refused.
ghost use Rattle.std.specs.Prelude.{◌≡◌, ◌≢◌, ◌+◌, ◌≤◌, ◌++◌, [], length, length as list_length, if◌then◌else◌};
ghost use Rattle.arrayvec.specs.ArrayVec.{array_vec_len};
ghost use Rattle.vod_types.specs.Refusals.{refusal_status, refusal_word};
ghost use Rattle.vod_source.specs.Causes.{Rose};
ghost use Rattle.vod_session.specs.Replies.{IsPut};
ghost use Rattle.list_model.specs.Text.{line};
ghost use Rattle.list_model.specs.Reply.{refusal_head, refusal_text};

use crate::replies::{Put, put_reply};
use arrayvec::ArrayVec;
use itoa::Buffer;
use vod_http::{write_head, write_unsatisfied};
use vod_source::Sink;
use vod_types::{Media, Refusal};

type Line = ArrayVec<u8, 64>;

/// Puts the reply of a refusal on a link, or its head alone.
pub(crate) fn put_refusal<L: Sink>(
    link: &mut L,
    refusal: &Refusal,
    http10: bool,
    close: bool,
    head_only: bool,
) -> Put
    requires { refusal_status refusal.now ≢ 0 }
    ensures put { IsPut (refusal_head refusal.now http10 close) (if head_only then [] else line (refusal_text refusal.now))
        (L.written link.old) (L.written link.new) result }
    ensures kept { L.kept link.new ≡ L.kept link.old }
    ensures later { L.faults link.old ≤ L.faults link.new }
    ensures failed { result ≢ Put.All → Rose (L.faults link.old) (L.faults link.new) }
{
    let body = write_refusal(refusal);
    let head = write_refusal_head(refusal, body.len() as u64, http10, close);
    if head_only {
        put_reply(link, head.as_slice(), &[])
    } else {
        put_reply(link, head.as_slice(), body.as_slice())
    }
}

// The head of the reply of a refusal, whose body is so long.
fn write_refusal_head(
    refusal: &Refusal,
    length: u64,
    http10: bool,
    close: bool,
) -> ArrayVec<u8, 512>
    requires sent { refusal_status refusal.now ≢ 0 }
    requires told { length ≡ list_length (line (refusal_text refusal.now)) }
    ensures { result.items ≡ refusal_head refusal.now http10 close }
{
    match refusal {
        Refusal::BadRange { length } => write_unsatisfied(*length, close),
        _ => write_head(
            refusal.status(),
            Media::Text,
            Some(length),
            http10,
            close,
            None,
        ),
    }
}

// The body of that reply, a line of text.
fn write_refusal(refusal: &Refusal) -> ArrayVec<u8, 64>
    ensures { result.items ≡ line (refusal_text refusal.now) }
{
    let mut text = ArrayVec::new();
    put_text(&mut text, b"refused ");
    put_text(&mut text, Buffer::new().format(refusal.number()).as_bytes());
    put_text(&mut text, b" ");
    put_text(&mut text, word(refusal));
    put_text(&mut text, b"\n");
    text
}

// The word of a refusal, of which none is long.
fn word(refusal: &Refusal) -> &'static [u8]
    ensures word { result.now ≡ refusal_word refusal.now }
    ensures short { length result.now ≤ 20 }
{
    refusal.word().as_bytes()
}

// Adds bytes as they are.
fn put_text(line: &mut Line, text: &[u8])
    requires { array_vec_len line.old + length text.now ≤ 64 }
    ensures items { line.new.items ≡ line.old.items ++ text.now }
    ensures len { array_vec_len line.new ≡ array_vec_len line.old + length text.now }
{
    line.try_extend_from_slice(text).unwrap()
}
