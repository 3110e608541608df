//! The command `get`.

ghost use Rattle.std.specs.Prelude.{◌≡◌, ◌≢◌, ◌≤◌, IfSome};
ghost use Rattle.list_model.specs.Command.{door_failed, store_failed, sink_failed, no_memory, usage};
ghost use Rattle.vod_source.specs.Causes.{Rose};
ghost use Rattle.vod_app.specs.Commands.{requested};
ghost use Rattle.vod_app.specs.Runs.{outcome_of, IsGet};

use crate::answers::write_answer;
use crate::ends::End;
use crate::serves::Done;
use crate::settings::read_named;
use crate::words::Request;
use std::alloc::Global;
use vod_source::{Sink, Store};

/// Writes the answer of a path, sample by sample. Nothing is written where memory runs out.
///
/// The store comes back.
pub fn get<S: Store, K: Sink>(
    alloc: Global,
    request: Request<'_>,
    mut store: S,
    out: &mut K,
) -> Done<S>
    ensures got { IfSome (S.content store) (λ files. IsGet files (requested request.entry) (outcome_of result.end)
        (K.written out.old) (K.written out.new) (S.log store) (S.log result.store)) }
    ensures memory { outcome_of result.end ≡ no_memory → out.new ≡ out.old }
    ensures form { outcome_of result.end ≢ usage }
    ensures door { outcome_of result.end ≢ door_failed }
    ensures content { S.content result.store ≡ S.content store }
    ensures kept { K.kept out.new ≡ K.kept out.old }
    ensures store_later { S.faults store ≤ S.faults result.store }
    ensures out_later { K.faults out.old ≤ K.faults out.new }
    ensures store_failed { outcome_of result.end ≡ store_failed → Rose (S.faults store) (S.faults result.store) }
    ensures sink_failed { outcome_of result.end ≡ sink_failed → Rose (K.faults out.old) (K.faults out.new) }
{
    match read_named(alloc, &mut store, request.settings) {
        Ok(settings) => write_answer(
            alloc,
            store,
            settings,
            request.root,
            request.path.as_bytes(),
            out,
        ),
        Err(refusal) => Done {
            end: End::refused(refusal),
            store,
        },
    }
}
