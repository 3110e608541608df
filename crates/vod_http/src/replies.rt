//! The heads of replies (RFC 9112, section 4), in room that takes no memory.
ghost use Rattle.std.specs.Prelude.{◌≡◌, ◌+◌, ◌≤◌, ◌++◌, [], length, decimal, IsTrue, if◌then◌else◌};
ghost use Rattle.arrayvec.specs.ArrayVec.{array_vec_len};
ghost use Rattle.list_model.specs.Reply.{is_sent_status, phrase, media_text, head_line, length_line, range_line, reply_head, unsatisfied_head};
ghost use Rattle.vod_http.specs.Heads.{start_lines, end_lines};

use arrayvec::ArrayVec;
use http::StatusCode;
use itoa::Buffer;
use vod_types::Media;

// The room for the head of a reply.
const HEAD_ROOM: usize = 512;

type HeadText = ArrayVec<u8, HEAD_ROOM>;

// The length of `refused 7 BadRange` and its line end, the body where a range takes nothing.
const UNSATISFIED_LENGTH: u64 = 19;

const UNSATISFIED: u16 = 416;

const NOT_ALLOWED: u16 = 405;

/// Writes the head of a reply. `length` is in bytes; without one the head says that the body goes in chunks, unless the request
/// was one of HTTP/1.0. `part` has the first and the last byte and the length of the whole.
pub fn write_head(
    status: u16,
    kind: Media,
    length: Option<u64>,
    http10: bool,
    close: bool,
    part: Option<(u64, u64, u64)>,
) -> ArrayVec<u8, 512>
    requires { IsTrue (is_sent_status status) }
    ensures { result.items ≡ reply_head status kind length http10 close part }
{
    let mut head = ArrayVec::new();
    put_start(&mut head, status, kind);
    put_length(&mut head, length, http10);
    put_range(&mut head, part);
    put_end(&mut head, status == NOT_ALLOWED, close);
    head
}

/// Writes the head of the reply to a range that takes nothing of `length` bytes (RFC 9110, section 15.5.17).
pub fn write_unsatisfied(length: u64, close: bool) -> ArrayVec<u8, 512>
    ensures { result.items ≡ unsatisfied_head length close }
{
    let mut head = ArrayVec::new();
    put_start(&mut head, UNSATISFIED, Media::Text);
    put_length(&mut head, Some(UNSATISFIED_LENGTH), true);
    put_number_line(&mut head, b"Content-Range: bytes */", length);
    put_end(&mut head, false, close);
    head
}

// Adds the status line and the line of the media type.
fn put_start(head: &mut HeadText, status: u16, kind: Media)
    requires sent { IsTrue (is_sent_status status) }
    requires room { array_vec_len head.old + 108 ≤ HEAD_ROOM }
    ensures items { head.new.items ≡ head.old.items ++ start_lines status kind }
    ensures len { array_vec_len head.new ≤ array_vec_len head.old + 108 }
{
    put_text(head, b"HTTP/1.1 ");
    put_number(head, u64::from(status));
    put_line(head, b" ", reason(status));
    put_line(head, b"Content-Type: ", media_text(kind));
}

// Adds the line that tells how the body ends.
fn put_length(head: &mut HeadText, length: Option<u64>, http10: bool)
    requires { array_vec_len head.old + 38 ≤ HEAD_ROOM }
    ensures items { head.new.items ≡ head.old.items ++ length_line length http10 }
    ensures len { array_vec_len head.new ≤ array_vec_len head.old + 38 }
{
    match length {
        Some(n) => put_number_line(head, b"Content-Length: ", n),
        None if http10 => {}
        None => put_line(head, b"Transfer-Encoding: ", b"chunked"),
    }
}

// Adds the line that tells which part of the whole the body is, where it is one.
fn put_range(head: &mut HeadText, part: Option<(u64, u64, u64)>)
    requires { array_vec_len head.old + 85 ≤ HEAD_ROOM }
    ensures items { head.new.items ≡ head.old.items ++ range_line part }
    ensures len { array_vec_len head.new ≤ array_vec_len head.old + 85 }
{
    if let Some((first, last, whole)) = part {
        put_text(head, b"Content-Range: bytes ");
        put_number(head, first);
        put_text(head, b"-");
        put_number(head, last);
        put_number_line(head, b"/", whole);
    }
}

// Adds the lines behind the body's length, and the empty line.
fn put_end(head: &mut HeadText, allow: bool, close: bool)
    requires { array_vec_len head.old + 39 ≤ HEAD_ROOM }
    ensures { head.new.items ≡ head.old.items ++ end_lines allow close }
{
    put_line_if(head, allow, b"Allow: ", b"GET, HEAD");
    put_line_if(head, close, b"Connection: ", b"close");
    put_text(head, b"\r\n");
}

// Adds a line of two texts where it is wanted.
fn put_line_if(head: &mut HeadText, wanted: bool, name: &[u8], value: &[u8])
    requires { array_vec_len head.old + length name.now + length value.now + 2 ≤ HEAD_ROOM }
    ensures items { head.new.items ≡ head.old.items ++ (if wanted then head_line (name.now ++ value.now) else []) }
    ensures len { array_vec_len head.new ≤ array_vec_len head.old + length name.now + length value.now + 2 }
{
    if wanted {
        put_line(head, name, value);
    }
}

// Adds a line that ends in a number.
fn put_number_line(head: &mut HeadText, name: &[u8], n: u64)
    requires { array_vec_len head.old + length name.now + 22 ≤ HEAD_ROOM }
    ensures items { head.new.items ≡ head.old.items ++ head_line (name.now ++ decimal n) }
    ensures len { array_vec_len head.new ≤ array_vec_len head.old + length name.now + 22 }
{
    put_line(head, name, Buffer::new().format(n).as_bytes())
}

// Adds a line of two texts.
fn put_line(head: &mut HeadText, name: &[u8], value: &[u8])
    requires { array_vec_len head.old + length name.now + length value.now + 2 ≤ HEAD_ROOM }
    ensures items { head.new.items ≡ head.old.items ++ head_line (name.now ++ value.now) }
    ensures len { array_vec_len head.new ≡ array_vec_len head.old + length name.now + length value.now + 2 }
{
    put_text(head, name);
    put_text(head, value);
    put_text(head, b"\r\n");
}

// Adds a number in decimal.
fn put_number(head: &mut HeadText, n: u64)
    requires { array_vec_len head.old + 20 ≤ HEAD_ROOM }
    ensures items { head.new.items ≡ head.old.items ++ decimal n }
    ensures len { array_vec_len head.new ≤ array_vec_len head.old + 20 }
{
    put_text(head, Buffer::new().format(n).as_bytes())
}

// Adds bytes as they are.
fn put_text(head: &mut HeadText, text: &[u8])
    requires { array_vec_len head.old + length text.now ≤ HEAD_ROOM }
    ensures items { head.new.items ≡ head.old.items ++ text.now }
    ensures len { array_vec_len head.new ≡ array_vec_len head.old + length text.now }
{
    head.try_extend_from_slice(text).unwrap()
}

// The phrase of a status.
fn reason(status: u16) -> &'static [u8]
    requires { IsTrue (is_sent_status status) }
    ensures text { result.now ≡ phrase status }
    ensures short { length result.now ≤ 31 }
{
    match StatusCode::from_u16(status) {
        Ok(code) => code.canonical_reason().unwrap_or("").as_bytes(),
        Err(_) => b"",
    }
}

// The name of a media type.
fn media_text(kind: Media) -> &'static [u8]
    ensures text { result.now ≡ media_text kind }
    ensures short { length result.now ≤ 29 }
{
    match kind {
        Media::Hls => b"application/vnd.apple.mpegurl",
        Media::Dash => b"application/dash+xml",
        Media::Ts => b"video/mp2t",
        Media::VideoMp4 => b"video/mp4",
        Media::AudioMp4 => b"audio/mp4",
        Media::Text => b"text/plain",
    }
}
