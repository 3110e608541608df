//! Sessions in seats, each of which takes its turns on one link.
ghost use Rattle.std.specs.Prelude.{◌≡◌, ◌≢◌, ℕ, ◌+◌, ◌^◌, ◌≤◌, ◌<◌, All, IfOk, List, Some, length, slice_get};
ghost use Rattle.vod_turns.specs.Seats.{AreFresh, AreReady, AreSeated, AreStates, Falls, IsNext, IsReady, IsSeated, all_left, risen, seat_left};
ghost use Rattle.vod_turns.specs.declared.seats.Seat.{Seat};
ghost use Rattle.vod_turns.specs.Turns.{times};

use crate::link_state::LinkState;
use std::alloc::Global;
use vod_bytes::NoMemory;
use vod_http::Answerer;
use vod_session::{LinkEnd, Session, Turn};
use vod_source::Link;

/// A session, and how it ended if it did.
#[derive(Drop)]
pub struct Seat<C: Drop> {
    pub session: Session<C>,
    pub end: Option<LinkEnd>,
}

/// So many fresh sessions.
pub fn fresh_seats<C: Drop>(alloc: Global, count: usize) -> Result<Vec<Seat<C>>, NoMemory>
    ensures many { IfOk result (λ seats. length seats.items ≡ count) }
    ensures fresh { IfOk result (λ seats. AreFresh seats.items) }
{
    let mut seats = Vec::new(alloc);
    for _ in 0..count {
        let session = Session::new(alloc)?;
        seats.push(Seat { session, end: None })?;
    }
    Ok(seats)
}

/// So many states, of which none is told yet.
pub fn untold_states(alloc: Global, count: usize) -> Result<Vec<LinkState>, NoMemory>
    ensures { IfOk result (λ states. length states.items ≡ count) }
{
    let mut states = Vec::new(alloc);
    for _ in 0..count {
        states.push(LinkState {
            progress: 0,
            end: None,
        })?;
    }
    Ok(states)
}

/// How far the sessions have come, in place of these states.
pub fn told_states<C: Drop>(seats: &[Seat<C>], mut states: Vec<LinkState>) -> Vec<LinkState>
    requires { length states.items ≡ length seats.now }
    ensures many { length result.items ≡ length seats.now }
    ensures told { AreStates seats.now result.items }
{
    tell_states(seats, &mut states);
    states
}

// Writes how far the sessions have come.
fn tell_states<C: Drop>(seats: &[Seat<C>], states: &mut [LinkState])
    requires { length states.old ≡ length seats.now }
    ensures { AreStates seats.now states.new }
{
    for i in 0..seats.len() {
        states[i] = LinkState {
            progress: seats[i].session.progress(),
            end: seats[i].end,
        };
    }
}

/// Lets fresh sessions take steps in this order.
pub fn turns_in_order<A: Answerer, L: Link>(
    alloc: Global,
    a: &mut A,
    links: &mut [L],
    seats: &mut [Seat<A::Cursor>],
    order: &[u32],
)
    requires order { All (λ n. n < length links.old) order.now }
    requires seats { length seats.old ≡ length links.old }
    requires fresh { AreFresh seats.old }
    ensures seated { AreSeated L.left L.written L.faults (A.answer (A.kept a.old)) (A.rest (A.kept a.old)) links.old links.new seats.new (λ i. times i order.now) (A.faults a.old) (A.faults a.new) }
    ensures small { length order.now < 2 ^ 64 }
    ensures kept { A.kept a.new ≡ A.kept a.old }
    ensures later { A.faults a.old ≤ A.faults a.new }
{
    for n in order {
        turn_at(alloc, a, links, seats, *n as usize);
    }
}

/// Lets the session of this seat take a step on the link of this place, unless it is over.
pub fn turn_at<A: Answerer, L: Link>(
    alloc: Global,
    a: &mut A,
    links: &mut [L],
    seats: &mut [Seat<A::Cursor>],
    n: usize,
)
    requires within { n < length links.old }
    requires seats { length seats.old ≡ length links.old }
    requires ready { AreReady (A.belongs (A.kept a.old)) A.under_way A.in_packets seats.old }
    ensures ready { AreReady (A.belongs (A.kept a.new)) A.under_way A.in_packets seats.new }
    ensures seated { (first : List L) (turns turns_now : ℕ → ℕ) (faults : ℕ) → length first ≡ length links.old → IsNext n turns turns_now →
        AreSeated L.left L.written L.faults (A.answer (A.kept a.old)) (A.rest (A.kept a.old)) first links.old seats.old turns faults (A.faults a.old) →
        AreSeated L.left L.written L.faults (A.answer (A.kept a.old)) (A.rest (A.kept a.old)) first links.new seats.new turns_now faults (A.faults a.new) }
    ensures others { (i : ℕ) → i ≢ n → slice_get seats.new i ≡ slice_get seats.old i }
    ensures left { (seat : Seat A.Cursor) → slice_get seats.old n ≡ Some seat → Falls seat.end (all_left A.calls_left seats.old) (all_left A.calls_left seats.new) }
    ensures kept { A.kept a.new ≡ A.kept a.old }
    ensures later { A.faults a.old ≤ A.faults a.new }
{
    take_turn(alloc, a, &mut links[n], &mut seats[n])
}

// Lets the session of this seat take a step on its link, unless it is over.
fn take_turn<A: Answerer, L: Link>(
    alloc: Global,
    a: &mut A,
    link: &mut L,
    seat: &mut Seat<A::Cursor>,
)
    requires { IsReady (A.belongs (A.kept a.old)) A.under_way A.in_packets seat.old }
    ensures ready { IsReady (A.belongs (A.kept a.new)) A.under_way A.in_packets seat.new }
    ensures seated { (first : L) (turns met faults : ℕ) →
        IsSeated L.left L.written L.faults (A.answer (A.kept a.old)) (A.rest (A.kept a.old)) first link.old seat.old turns met faults (A.faults a.old) →
        IsSeated L.left L.written L.faults (A.answer (A.kept a.old)) (A.rest (A.kept a.old)) first link.new seat.new (turns + 1) (met + risen (A.faults a.old) (A.faults a.new)) faults (A.faults a.new) }
    ensures left { Falls seat.old.end (seat_left A.calls_left seat.old) (seat_left A.calls_left seat.new) }
    ensures kept { A.kept a.new ≡ A.kept a.old }
    ensures later { A.faults a.old ≤ A.faults a.new }
{
    match seat.end {
        Some(_) => {}
        None => match seat.session.step(alloc, a, link) {
            Turn::Again => {}
            Turn::Ended(end) => seat.end = Some(end),
        },
    }
}
