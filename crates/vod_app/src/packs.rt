//! The command `pack`.

ghost use Rattle.std.specs.Prelude.{◌≡◌, ◌≢◌, ◌≤◌, IfSome};
ghost use Rattle.list_model.specs.Command.{door_failed, sink_failed, store_failed, usage};
ghost use Rattle.vod_source.specs.Causes.{Rose};
ghost use Rattle.origin_model.specs.Outcomes.{setup_with};
ghost use Rattle.vod_app.specs.Commands.{requested};
ghost use Rattle.vod_app.specs.Runs.{outcome_of, IsPack, IsPackWritten};

use crate::ends::End;
use crate::settings::read_named;
use crate::words::Request;
use std::alloc::Global;
use vod_source::{Sink, Store};
use vod_types::Settings;

/// Writes the whole packaging of the path of a master playlist or of a media presentation description: each name that the list
/// names, with its answer, up to the first list that is refused.
pub fn pack<S: Store, K: Sink>(
    alloc: Global,
    request: Request<'_>,
    store: &mut S,
    out: &mut K,
) -> End
    ensures packed { IfSome (S.content store.old) (λ files. IsPack files (requested request.entry) (outcome_of result)
        (K.written out.old) (K.written out.new)) }
    ensures form { outcome_of result ≢ usage }
    ensures door { outcome_of result ≢ door_failed }
    ensures content { S.content store.new ≡ S.content store.old }
    ensures kept { K.kept out.new ≡ K.kept out.old }
    ensures store_later { S.faults store.old ≤ S.faults store.new }
    ensures out_later { K.faults out.old ≤ K.faults out.new }
    ensures store_failed { outcome_of result ≡ store_failed → Rose (S.faults store.old) (S.faults store.new) }
    ensures sink_failed { outcome_of result ≡ sink_failed → Rose (K.faults out.old) (K.faults out.new) }
{
    match read_named(alloc, store, request.settings) {
        Ok(settings) => pack_with(alloc, &settings, request, store, out),
        Err(refusal) => End::refused(refusal),
    }
}

// Writes the packaging of a path with these settings.
fn pack_with<S: Store, K: Sink>(
    alloc: Global,
    settings: &Settings,
    request: Request<'_>,
    store: &mut S,
    out: &mut K,
) -> End
    ensures packed { IfSome (S.content store.old) (λ files. IsPackWritten (setup_with files (requested request.entry) settings.now) (requested request.entry).path
        (outcome_of result) (K.written out.old) (K.written out.new)) }
    ensures form { outcome_of result ≢ usage }
    ensures door { outcome_of result ≢ door_failed }
    ensures content { S.content store.new ≡ S.content store.old }
    ensures kept { K.kept out.new ≡ K.kept out.old }
    ensures store_later { S.faults store.old ≤ S.faults store.new }
    ensures out_later { K.faults out.old ≤ K.faults out.new }
    ensures store_failed { outcome_of result ≡ store_failed → Rose (S.faults store.old) (S.faults store.new) }
    ensures sink_failed { outcome_of result ≡ sink_failed → Rose (K.faults out.old) (K.faults out.new) }
{
    End::packed(mp4_flat::pack(
        alloc,
        store,
        settings,
        request.root,
        request.path.as_bytes(),
        out,
    ))
}
