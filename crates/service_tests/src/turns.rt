//! Connections in turns over one origin.

ghost use Rattle.std.specs.Prelude.{None, ◌≡◌, ◌<◌, true, All};
ghost use Rattle.std.proofs.Common.{refl};

use std::alloc::Global;
use std::cell::Cell;
use std::marker::Model;
use std::rc::Rc;
use std::string::String;
use std::test::Fail;
use vod_films::{film, ran, sound, store_of, two_samples};
use vod_origin::Origin;
use vod_session::{LinkEnd, Why};
use vod_source::{Link, LinkFailed, MemLink, MemStore, Sink, SinkFailed};
use vod_turns::{LinkState, run_turns, serve_turns};
use vod_types::{Name, Settings};

// A request for the one segment of the film of two samples, and the head of its reply.
const REQUEST: &str = "GET /local/dash/a.mp4/fragment-1-a1.m4s HTTP/1.1\r\nHost: x\r\n\r\n";

const HEAD: &str = "HTTP/1.1 200 OK\r\nContent-Type: audio/mp4\r\nContent-Length: 182\r\n\r\n";

// The reply to HEAD of a path that isn't in the grammar.
const NOT_FOUND: &str =
    "HTTP/1.1 404 Not Found\r\nContent-Type: text/plain\r\nContent-Length: 18\r\n\r\n";

// The film of two samples.
fn store(alloc: Global) -> Result<MemStore, Fail> {
    store_of(alloc, "/r/a.mp4", two_samples(alloc)?, Vec::new(alloc))
}

// Whether each number names one of so many links.
fn name_links(order: &[u32], count: usize) -> bool
    ensures { result ≡ true → All (λ n. n < count) order.now }
{
    for number in order {
        if *number as usize >= count {
            return false;
        }
    }
    true
}

// How these links stand after steps in an order, over one origin, where each number of it names a link.
fn in_order(
    alloc: Global,
    store: MemStore,
    links: &mut [MemLink],
    order: &[u32],
) -> Result<Vec<LinkState>, Fail> {
    if !name_links(order, links.len()) {
        return Ok(Vec::new(alloc));
    }
    let root = Name::new(alloc, "/r")?;
    let mut origin = Origin::new(store, Settings::defaults(alloc), root);
    let states = run_turns(alloc, &mut origin, links, order);
    let _store = origin.into_store();
    Ok(states?)
}

// A link that gives a request twice in pieces of one byte.
fn byte_link(alloc: Global) -> Result<MemLink, Fail> {
    let mut pieces = Vec::new(alloc);
    for _ in 0..2 {
        for byte in REQUEST.as_bytes() {
            pieces.push(vec![in alloc; *byte]?)?;
        }
    }
    Ok(MemLink::new(alloc, pieces, 10_000, Vec::new(alloc))?)
}

// Serves these links to their ends in turns, over one origin.
fn in_rounds<L: Link>(
    alloc: Global,
    store: MemStore,
    links: &mut [L],
) -> Result<Vec<LinkEnd>, Fail> {
    let root = Name::new(alloc, "/r")?;
    let mut origin = Origin::new(store, Settings::defaults(alloc), root);
    let ends = serve_turns(alloc, &mut origin, links);
    let _store = origin.into_store();
    Ok(ends?)
}

// The reply to the request, so many times in a row.
fn replies(alloc: Global, count: usize) -> Result<Vec<u8>, Fail> {
    let words = "get /r - /local/dash/a.mp4/fragment-1-a1.m4s";
    let segment = ran(alloc, words, store(alloc)?)?.body;
    let mut due = Vec::new(alloc);
    for _ in 0..count {
        due.extend_from_slice(HEAD.as_bytes())?;
        due.extend_from_slice(&segment)?;
    }
    Ok(due)
}

// The peer sent no more, behind so many replies.
fn ended(requests: u32) -> LinkEnd {
    LinkEnd {
        requests,
        why: Why::EndOfInput,
    }
}

// Two links in turns are answered both, and a link that no number of an order names isn't touched.
#[test]
fn steps_of_an_order_serve_whom_they_name(rt: HostRuntime) -> Result<(), Fail> {
    let alloc = rt.alloc();
    let twice = replies(alloc, 2)?;
    let mut by_turns = Vec::new(alloc);
    let mut second_alone = Vec::new(alloc);
    for number in 0..400 {
        by_turns.push(number % 2)?;
        if number < 200 {
            second_alone.push(1)?;
        }
    }
    for (order, both) in [(by_turns, true), (second_alone, false)] {
        let mut links = vec![in alloc; byte_link(alloc)?, byte_link(alloc)?]?;
        let states = in_order(alloc, store(alloc)?, &mut links, &order)?;
        assert!(rt; states.len() == 2);
        for (number, (state, link)) in states.iter().zip(&links).enumerate() {
            if both || number == 1 {
                assert!(rt; link.written() == twice.as_slice());
                assert!(rt; state.end == Some(ended(2)));
            } else {
                assert!(rt; link.written().is_empty());
                assert!(rt; state.progress == 0 && state.end.is_none());
            }
        }
    }
    Ok(())
}

// A film of one sample that bears a number.
fn numbered(alloc: Global, number: u8) -> Result<Vec<u8>, Fail> {
    let bytes = [number; 9];
    let samples: [&[u8]; 1] = [bytes.as_slice()];
    film(alloc, vec![in alloc; sound(alloc, &samples)?]?)
}

// The name of the film of a number.
fn name_of(alloc: Global, number: u8) -> Result<String, Fail> {
    let mut name = String::from_str(alloc, "/r/")?;
    name.push(char::from(b'b' + number % 20))?;
    name.push_str(".mp4")?;
    Ok(name)
}

// The film of two samples and 17 others.
fn many(alloc: Global) -> Result<MemStore, Fail> {
    let mut files = Vec::new(alloc);
    files.push((Name::new(alloc, "/r/a.mp4")?, two_samples(alloc)?))?;
    for number in 0..17 {
        let name = name_of(alloc, number)?;
        files.push((Name::new(alloc, &name)?, numbered(alloc, number)?))?;
    }
    Ok(MemStore::new(files, Vec::new(alloc)))
}

// The path of the segment of a film.
fn path_of(alloc: Global, number: u8) -> Result<String, Fail> {
    let mut path = String::from_str(alloc, "/local/dash/")?;
    path.push(char::from(b'b' + number % 20))?;
    path.push_str(".mp4/fragment-1-a1.m4s")?;
    Ok(path)
}

// A film's segment of 145 bytes, as its path alone is answered, behind its head.
fn reply_alone(alloc: Global, path: &str) -> Result<Vec<u8>, Fail> {
    let mut words = String::from_str(alloc, "get /r - ")?;
    words.push_str(path)?;
    let segment = ran(alloc, &words, many(alloc)?)?.body;
    let mut reply =
        b"HTTP/1.1 200 OK\r\nContent-Type: audio/mp4\r\nContent-Length: 145\r\n\r\n".to_vec(alloc)?;
    reply.extend_from_slice(&segment)?;
    Ok(reply)
}

// One link asks for more films than metadata are kept of, the other one for a film 17 times: each reply is that of its path alone.
#[test]
fn films_of_one_peer_do_not_show_at_another(rt: HostRuntime) -> Result<(), Fail> {
    let alloc = rt.alloc();
    let mut input = Vec::new(alloc);
    let mut due = Vec::new(alloc);
    let mut same = Vec::new(alloc);
    for number in 0..17 {
        let path = path_of(alloc, number)?;
        input.extend_from_slice(b"GET ")?;
        input.extend_from_slice(path.as_bytes())?;
        input.extend_from_slice(b" HTTP/1.1\r\n\r\n")?;
        due.extend_from_slice(&reply_alone(alloc, &path)?)?;
        same.extend_from_slice(REQUEST.as_bytes())?;
    }
    assert!(rt; due.len() == 17 * (65 + 145));
    let mut links = vec![in alloc;
        MemLink::new(alloc, vec![in alloc; input]?, 10_000, Vec::new(alloc))?,
        MemLink::new(alloc, vec![in alloc; same]?, 10_000, Vec::new(alloc))?,
    ]?;
    let ends = in_rounds(alloc, many(alloc)?, &mut links)?;
    assert!(rt; ends.len() == 2 && links.len() == 2);
    assert!(rt; ends[0] == ended(17) && ends[1] == ended(17));
    assert!(rt; links[0].written() == due.as_slice());
    assert!(rt; links[1].written() == replies(alloc, 17)?.as_slice());
    Ok(())
}

// A link of which the second `take` fails unless something was written to the other: each of them shows in `wrote` that something
// was written to it.
#[derive(Drop)]
struct Waiting {
    link: MemLink,
    takes: u32,
    wrote: Rc<Cell<bool>>,
    awaited: Rc<Cell<bool>>,
    faults: u64,
}

impl Model for Waiting {
    ghost use Rattle.std.specs.Prelude.{ℕ};

    ghost Value = { ℕ };

    ghost view = { λ w. w.faults };
}

impl Sink for Waiting {
    ghost kept = { λ _. tt };

    ghost written = { λ _. None };

    ghost faults = { λ faults. faults };

    fn put(&mut self, piece: &[u8]) -> Result<(), SinkFailed> {
        if self.link.put(piece).is_err() {
            self.faults = self.faults.saturating_add(1);
            return Err(SinkFailed);
        }
        self.wrote.set(true);
        Ok(())
    }
}

impl Link for Waiting {
    ghost left = { λ _. None };

    ghost left_by_kept = { λ _ _ _. refl };

    fn take(&mut self, room: &mut [u8]) -> Result<usize, LinkFailed> {
        self.takes = self.takes.saturating_add(1);
        if self.takes == 2 && !self.awaited.get() {
            self.faults = self.faults.saturating_add(1);
            return Err(LinkFailed);
        }
        match self.link.take(room) {
            Ok(n) => Ok(n),
            Err(failed) => {
                self.faults = self.faults.saturating_add(1);
                Err(failed)
            }
        }
    }
}

// A link of these requests, one a `take`.
fn waiting_link(
    alloc: Global,
    requests: &[&str],
    wrote: &Rc<Cell<bool>>,
    awaited: &Rc<Cell<bool>>,
) -> Result<Waiting, Fail> {
    let mut pieces = Vec::new(alloc);
    for request in requests {
        pieces.push(request.as_bytes().to_vec(alloc)?)?;
    }
    Ok(Waiting {
        link: MemLink::new(alloc, pieces, 1000, Vec::new(alloc))?,
        takes: 0,
        wrote: wrote.clone()?,
        awaited: awaited.clone()?,
        faults: 0,
    })
}

// Neither of two peers waits until the other is done.
#[test]
fn neither_of_two_peers_waits_for_the_other(rt: HostRuntime) -> Result<(), Fail> {
    let alloc = rt.alloc();
    let first = Rc::new(alloc, Cell::new(false))?;
    let second = Rc::new(alloc, Cell::new(false))?;
    let mut links = vec![in alloc;
        waiting_link(alloc, &[REQUEST, REQUEST], &first, &second)?,
        waiting_link(alloc, &["HEAD /x HTTP/1.1\r\n\r\n"], &second, &first)?,
    ]?;
    let ends = in_rounds(alloc, store(alloc)?, &mut links)?;
    assert!(rt; ends.len() == 2 && links.len() == 2);
    assert!(rt; ends[0] == ended(2) && ends[1] == ended(1));
    assert!(rt; links[0].link.written() == replies(alloc, 2)?.as_slice());
    assert!(rt; links[1].link.written() == NOT_FOUND.as_bytes());
    Ok(())
}
