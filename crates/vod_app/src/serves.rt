//! The commands `serve` and `turns`.

ghost use Rattle.std.specs.Prelude.{◌≡◌, ◌≢◌, ◌≤◌, IfSome, Ok};
ghost use Rattle.list_model.specs.Command.{door_failed, sink_failed, store_failed, usage};
ghost use Rattle.vod_source.specs.Causes.{Rose};
ghost use Rattle.vod_types.specs.Settled.{Settled};
ghost use Rattle.vod_session.specs.Calls.{AreAnswers};
ghost use Rattle.vod_session.specs.Steps.{Answers};
ghost use Rattle.origin_model.specs.Outcomes.{settings_named, settings_reads};
ghost use Rattle.vod_app.specs.Runs.{outcome_of};
ghost use Rattle.vod_app.specs.Services.{DoesBy, DoesWith, EndsOpened, LogsSettings, answers_with};

use crate::ends::End;
use crate::settings::read_named;
use crate::words::{Order, Service};
use std::alloc::Global;
use vod_http::Answerer;
use vod_origin::Origin;
use vod_session::DoorEnd;
use vod_source::{Door, Store};
use vod_types::{Name, Settings};

/// How a command ended, and the store that it was given.
pub struct Done<S> {
    pub end: End,
    pub store: S,
}

/// Serves so many connections to an address over one origin, in the order that the words name. Nothing is opened where the
/// settings are refused.
pub fn serve<S: Store, D: Door>(
    alloc: Global,
    service: Service<'_>,
    mut store: S,
    door: &mut D,
) -> Done<S>
    ensures served { IfSome (S.content store) (λ files. DoesBy D.L.left D.L.written (settings_named files service.entry.settings.now)
        (answers_with files service.entry.root.now) service.entry.count
        (record { coming = D.coming door.old; returned = D.returned door.old; out = D.out door.old })
        (record { coming = D.coming door.new; returned = D.returned door.new; out = D.out door.new })
        (S.faults store) (S.faults result.store) service.entry.order (outcome_of result.end)) }
    ensures logged { IfSome (S.content store) (λ files. LogsSettings (settings_reads files service.entry.settings.now) (outcome_of result.end) (S.log store) (S.log result.store)) }
    ensures form { outcome_of result.end ≢ usage }
    ensures sink { outcome_of result.end ≢ sink_failed }
    ensures content { S.content result.store ≡ S.content store }
    ensures later { S.faults store ≤ S.faults result.store }
    ensures door_later { D.faults door.old ≤ D.faults door.new }
    ensures store_failed { outcome_of result.end ≡ store_failed → Rose (S.faults store) (S.faults result.store) }
    ensures door_failed { outcome_of result.end ≡ door_failed → Rose (D.faults door.old) (D.faults door.new) }
{
    match read_named(alloc, &mut store, service.settings) {
        Ok(settings) => serve_with(alloc, settings, service, store, door),
        Err(refusal) => Done {
            end: End::refused(refusal),
            store,
        },
    }
}

// Serves with these settings.
fn serve_with<S: Store, D: Door>(
    alloc: Global,
    settings: Settings,
    service: Service<'_>,
    store: S,
    door: &mut D,
) -> Done<S>
    ensures served { IfSome (S.content store) (λ files. DoesBy D.L.left D.L.written (Ok settings)
        (answers_with files service.entry.root.now) service.entry.count
        (record { coming = D.coming door.old; returned = D.returned door.old; out = D.out door.old })
        (record { coming = D.coming door.new; returned = D.returned door.new; out = D.out door.new })
        (S.faults store) (S.faults result.store) service.entry.order (outcome_of result.end)) }
    ensures ended { EndsOpened (outcome_of result.end) }
    ensures content { S.content result.store ≡ S.content store }
    ensures later { S.faults store ≤ S.faults result.store }
    ensures door_later { D.faults door.old ≤ D.faults door.new }
    ensures door_failed { outcome_of result.end ≡ door_failed → Rose (D.faults door.old) (D.faults door.new) }
{
    let Ok(root) = Name::new(alloc, service.root) else {
        return Done {
            end: End::NoMemory,
            store,
        };
    };
    let mut origin = Origin::new(store, settings, root);
    let end = serve_at(alloc, &mut origin, service, door);
    Done {
        end: End::of_door(end),
        store: origin.into_store(),
    }
}

// Opens the door and serves its connections.
fn serve_at<A: Answerer, D: Door>(
    alloc: Global,
    a: &mut A,
    service: Service<'_>,
    door: &mut D,
) -> DoorEnd
    ensures served { (answers : Settled → Answers) (settings : Settled) → AreAnswers (A.answer (A.kept a.old)) (answers settings) →
        DoesWith D.L.left D.L.written (Ok settings) answers service.entry.count
        (record { coming = D.coming door.old; returned = D.returned door.old; out = D.out door.old })
        (record { coming = D.coming door.new; returned = D.returned door.new; out = D.out door.new })
        (A.faults a.old) (A.faults a.new) service.entry.order settings result }
    ensures door_failed { result ≡ DoorEnd.DoorFailed → Rose (D.faults door.old) (D.faults door.new) }
    ensures kept { A.kept a.new ≡ A.kept a.old }
    ensures later { A.faults a.old ≤ A.faults a.new }
    ensures door_later { D.faults door.old ≤ D.faults door.new }
{
    if door.listen(service.addr).is_err() {
        return DoorEnd::DoorFailed;
    }
    match service.order {
        Order::OneByOne => vod_session::serve_door(alloc, a, door, service.count),
        Order::InTurns => vod_turns::serve_door(alloc, a, door, service.count),
    }
}
