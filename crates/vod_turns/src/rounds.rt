//! Rounds of one step of each session, until all have ended.
ghost use Rattle.std.specs.Prelude.{◌≡◌, ℕ, ◌≤◌, ◌<◌, List, IfOk, true, false, length};
ghost use Rattle.vod_turns.specs.Seats.{AreEnds, AreFresh, AreOver, AreReady, AreSeated, GoOn, all_left};

use crate::seats::{Seat, turn_at};
use std::alloc::Global;
use vod_bytes::NoMemory;
use vod_http::Answerer;
use vod_session::{LinkEnd, Why};
use vod_source::Link;

/// Takes rounds of fresh sessions until all are over.
pub fn take_rounds<A: Answerer, L: Link>(
    alloc: Global,
    a: &mut A,
    links: &mut [L],
    seats: &mut [Seat<A::Cursor>],
)
    requires seats { length seats.old ≡ length links.old }
    requires fresh { AreFresh seats.old }
    ensures seated { (turns : ℕ → ℕ) × AreSeated L.left L.written L.faults (A.answer (A.kept a.old)) (A.rest (A.kept a.old)) links.old links.new seats.new turns (A.faults a.old) (A.faults a.new) }
    ensures over { AreOver seats.new }
    ensures kept { A.kept a.new ≡ A.kept a.old }
    ensures later { A.faults a.old ≤ A.faults a.new }
{
    'rounds: while go_on(seats) {
        take_round(alloc, a, links, seats);
    }
}

// One session at least isn't over.
fn go_on<C: Drop>(seats: &[Seat<C>]) -> bool
    ensures open { result ≡ true → GoOn seats.now }
    ensures over { result ≡ false → AreOver seats.now }
{
    for i in 0..seats.len() {
        match seats[i].end {
            Some(_) => {}
            None => return true,
        }
    }
    false
}

// Lets each session take one step on its link, unless it is over.
fn take_round<A: Answerer, L: Link>(
    alloc: Global,
    a: &mut A,
    links: &mut [L],
    seats: &mut [Seat<A::Cursor>],
)
    requires seats { length seats.old ≡ length links.old }
    requires ready { AreReady (A.belongs (A.kept a.old)) A.under_way A.in_packets seats.old }
    ensures ready { AreReady (A.belongs (A.kept a.new)) A.under_way A.in_packets seats.new }
    ensures seated { (first : List L) (turns : ℕ → ℕ) (faults : ℕ) → length first ≡ length links.old →
        AreSeated L.left L.written L.faults (A.answer (A.kept a.old)) (A.rest (A.kept a.old)) first links.old seats.old turns faults (A.faults a.old) →
        (turns_now : ℕ → ℕ) × AreSeated L.left L.written L.faults (A.answer (A.kept a.old)) (A.rest (A.kept a.old)) first links.new seats.new turns_now faults (A.faults a.new) }
    ensures fewer { GoOn seats.old → all_left A.calls_left seats.new < all_left A.calls_left seats.old }
    ensures kept { A.kept a.new ≡ A.kept a.old }
    ensures later { A.faults a.old ≤ A.faults a.new }
{
    for n in 0..seats.len() {
        turn_at(alloc, a, links, seats, n);
    }
}

/// So many ends, of which none is told yet.
pub fn untold_ends(alloc: Global, count: usize) -> Result<Vec<LinkEnd>, NoMemory>
    ensures { IfOk result (λ ends. length ends.items ≡ count) }
{
    let mut ends = Vec::new(alloc);
    for _ in 0..count {
        ends.push(LinkEnd {
            requests: 0,
            why: Why::EndOfInput,
        })?;
    }
    Ok(ends)
}

/// How the sessions ended, in place of these ends.
pub fn told_ends<C: Drop>(seats: &[Seat<C>], mut ends: Vec<LinkEnd>) -> Vec<LinkEnd>
    requires { length ends.items ≡ length seats.now }
    ensures many { length result.items ≡ length seats.now }
    ensures told { AreEnds seats.now result.items }
{
    tell_ends(seats, &mut ends);
    ends
}

// Writes how the sessions ended.
fn tell_ends<C: Drop>(seats: &[Seat<C>], ends: &mut [LinkEnd])
    requires { length ends.old ≡ length seats.now }
    ensures { AreEnds seats.now ends.new }
{
    for i in 0..seats.len() {
        match seats[i].end {
            Some(end) => ends[i] = end,
            None => {}
        }
    }
}
