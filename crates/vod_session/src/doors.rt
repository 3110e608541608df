//! The links of a door that are served one after another.
ghost use Rattle.std.specs.Prelude.{◌≡◌, ◌≤◌};
ghost use Rattle.vod_source.specs.Causes.{Rose};
ghost use Rattle.vod_session.specs.Calls.{AreAnswers};
ghost use Rattle.vod_session.specs.Doors.{ServesUpTo};
ghost use Rattle.vod_session.specs.Steps.{Answers};

use crate::serve::serve_link;
use list_model::Why;
use std::alloc::Global;
use vod_http::Answerer;
use vod_source::Door;

/// How the serving of a door's links ended.
#[derive(Clone, Copy, Debug, PartialEq, Eq)]
pub enum DoorEnd {
    /// All links were served.
    Served,
    /// The door gave no further link.
    DoorFailed,
    /// A session found no memory.
    NoMemory,
}

/// Takes so many links of an open door, one after another, each of which is served to its end and given back before the
/// next is taken.
///
/// Where a session finds no memory its link is given back as it came, and no further link is taken.
pub fn serve_door<A: Answerer, D: Door>(
    alloc: Global,
    a: &mut A,
    door: &mut D,
    count: u32,
) -> DoorEnd
    // What was written to each link, wherever answers and links are told.
    ensures served { (answer : Answers) → AreAnswers (A.answer (A.kept a.old)) answer →
        ServesUpTo answer D.L.left D.L.written (D.coming door.old) (D.coming door.new) (D.returned door.old) (D.returned door.new)
        (D.out door.old) (D.out door.new) count result (A.faults a.old) (A.faults a.new) }

    // No link stays out.
    ensures out { D.out door.new ≡ D.out door.old }

    // Why it ended.
    ensures door_failed { result ≡ DoorEnd.DoorFailed → Rose (D.faults door.old) (D.faults door.new) }

    // What stays, and counts that never fall.
    ensures kept { A.kept a.new ≡ A.kept a.old }
    ensures later { A.faults a.old ≤ A.faults a.new }
    ensures door_later { D.faults door.old ≤ D.faults door.new }
{
    for _ in 0..count {
        match serve_next(alloc, a, door) {
            DoorEnd::Served => {}
            end => return end,
        }
    }
    DoorEnd::Served
}

// Serves the next link of the door and gives it back.
fn serve_next<A: Answerer, D: Door>(alloc: Global, a: &mut A, door: &mut D) -> DoorEnd
    ensures served { (answer : Answers) → AreAnswers (A.answer (A.kept a.old)) answer →
        ServesUpTo answer D.L.left D.L.written (D.coming door.old) (D.coming door.new) (D.returned door.old) (D.returned door.new)
        (D.out door.old) (D.out door.new) 1 result (A.faults a.old) (A.faults a.new) }
    ensures out { D.out door.new ≡ D.out door.old }
    ensures door_failed { result ≡ DoorEnd.DoorFailed → Rose (D.faults door.old) (D.faults door.new) }
    ensures kept { A.kept a.new ≡ A.kept a.old }
    ensures later { A.faults a.old ≤ A.faults a.new }
    ensures door_later { D.faults door.old ≤ D.faults door.new }
{
    match door.next() {
        Ok(mut link) => {
            let end = serve_link(alloc, a, &mut link);
            door.give_back(link);
            match end.why {
                Why::NoMemory => DoorEnd::NoMemory,
                _ => DoorEnd::Served,
            }
        }
        Err(_) => DoorEnd::DoorFailed,
    }
}
