//! Links of a door that are served in turns.
ghost use Rattle.std.specs.Prelude.{◌≡◌, ◌≢◌, ◌+◌, ◌-◌, ◌≤◌, [], List, IfSome, OnOk, length, option_map, vec_len, vec_capacity};
ghost use Rattle.vod_source.specs.Causes.{HasCause, Rose};
ghost use Rattle.vod_source.specs.Told.{told_with};
ghost use Rattle.vod_session.specs.Calls.{AreAnswers};
ghost use Rattle.vod_session.specs.Steps.{Answers};
ghost use Rattle.vod_turns.specs.Doors.{AreOut, AreTaken, LeavesDoor, ServesDoorInTurns};

use crate::serve_turns;
use std::alloc::Global;
use vod_http::Answerer;
use vod_session::DoorEnd;
use vod_source::{Door, DoorFailed};

/// Takes so many links of an open door, serves them in turns and gives all back in the order in which they came.
///
/// Where the door gives no further link, and where memory runs out, no link takes a turn: those that came are given back as
/// they came.
pub fn serve_door<A: Answerer, D: Door>(
    alloc: Global,
    a: &mut A,
    door: &mut D,
    count: u32,
) -> DoorEnd
    // What was written to each link, wherever answers and links are told.
    ensures served { result ≡ DoorEnd.Served → (answer : Answers) → AreAnswers (A.answer (A.kept a.old)) answer →
        ServesDoorInTurns answer D.L.left D.L.written (D.coming door.old) (D.coming door.new) (D.returned door.old) (D.returned door.new)
        (D.out door.old) (D.out door.new) count (A.faults a.old) (A.faults a.new) }
    ensures left { result ≢ DoorEnd.Served →
        LeavesDoor (D.coming door.old) (D.coming door.new) (D.returned door.old) (D.returned door.new) (D.out door.old) (D.out door.new) }
    ensures unused { result ≢ DoorEnd.Served → a.new ≡ a.old }

    // No link stays out.
    ensures out { D.out door.new ≡ D.out door.old }

    // Why it ended.
    ensures door_failed { result ≡ DoorEnd.DoorFailed → Rose (D.faults door.old) (D.faults door.new) }

    // What stays, and counts that never fall.
    ensures kept { A.kept a.new ≡ A.kept a.old }
    ensures later { A.faults a.old ≤ A.faults a.new }
    ensures door_later { D.faults door.old ≤ D.faults door.new }
{
    let Ok(mut links) = Vec::with_capacity(alloc, count as usize) else {
        return DoorEnd::NoMemory;
    };
    let end = serve_taken(alloc, a, door, &mut links, count);
    give_all(door, links);
    end
}

// Takes so many links of the door, for which there is room, and serves them in turns.
fn serve_taken<A: Answerer, D: Door>(
    alloc: Global,
    a: &mut A,
    door: &mut D,
    links: &mut Vec<D::L>,
    count: u32,
) -> DoorEnd
    requires none { links.old.items ≡ [] }
    requires room { vec_len links.old + count ≤ vec_capacity links.old }
    ensures taken { (came : List D.L) ×
        AreOut (D.coming door.old) (D.coming door.new) (D.returned door.old) (D.returned door.new) (D.out door.old) (D.out door.new) came ×
        AreTaken (A.answer (A.kept a.old)) D.L.left D.L.written came links.new.items count result (A.faults a.old) (A.faults a.new) }
    ensures unused { result ≢ DoorEnd.Served → a.new ≡ a.old }
    ensures door_failed { result ≡ DoorEnd.DoorFailed → Rose (D.faults door.old) (D.faults door.new) }
    ensures kept { A.kept a.new ≡ A.kept a.old }
    ensures later { A.faults a.old ≤ A.faults a.new }
    ensures door_later { D.faults door.old ≤ D.faults door.new }
{
    if take_links(door, links, count).is_err() {
        return DoorEnd::DoorFailed;
    }
    match serve_turns(alloc, a, links) {
        Ok(_) => DoorEnd::Served,
        Err(_) => DoorEnd::NoMemory,
    }
}

// Takes so many links of the door, for which there is room; fewer where the door fails.
fn take_links<D: Door>(door: &mut D, links: &mut Vec<D::L>, count: u32) -> Result<(), DoorFailed>
    requires none { links.old.items ≡ [] }
    requires room { vec_len links.old + count ≤ vec_capacity links.old }
    ensures out { AreOut (D.coming door.old) (D.coming door.new) (D.returned door.old) (D.returned door.new) (D.out door.old) (D.out door.new) links.new.items }
    ensures many { OnOk result (length links.new.items ≡ count) }
    ensures cause { HasCause (D.faults door.old) (D.faults door.new) result }
{
    for _ in 0..count {
        links.push_reserved(door.next()?);
    }
    Ok(())
}

// Gives these links back in their order.
fn give_all<D: Door>(door: &mut D, links: Vec<D::L>)
    requires { IfSome (D.out door.old) (λ n. length links.items ≤ n) }
    ensures coming { D.coming door.new ≡ D.coming door.old }
    ensures returned { D.returned door.new ≡ told_with (D.returned door.old) links.items }
    ensures out { D.out door.new ≡ option_map (λ n. n - length links.items) (D.out door.old) }
    ensures later { D.faults door.old ≤ D.faults door.new }
{
    let mut rest = links.into_iter();
    'links: while let Some(link) = rest.next() {
        door.give_back(link);
    }
    rest.destroy_empty();
}
