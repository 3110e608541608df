//! What a path is answered with.

ghost use Rattle.std.specs.Prelude.{◌≡◌, ◌≢◌, ◌≤◌, true, IfErr, IfOk, IfSome, IsErr, IsErrOf};
ghost use Rattle.vod_source.specs.Causes.{Rose};
ghost use Rattle.vod_types.specs.Results.{Answers};
ghost use Rattle.vod_types.specs.declared.refusal.Refusal.TheVariants.{StoreFailed};
ghost use Rattle.origin_model.specs.Answers.{readable};
ghost use Rattle.answer_laws.specs.Refusals.{IsPathRefusal};
ghost use Rattle.flat_lists.specs.Asked.{setup_of};
ghost use Rattle.flat_segments.specs.Bodies.{IsInPackets};
ghost use Rattle.mp4_flat.specs.Asks.{IsPathAsk};
ghost use Rattle.mp4_flat.specs.Flat.{is_stream, IsFlatAnswer, IsAskAnswer};

use crate::answers::leaf_answer;
use flat_lists::asking_of;
use flat_segments::FlatBody;
use std::alloc::Global;
use vod_source::Store;
use vod_types::{Ask, Refusal, Settings};
use vod_urls::read_path;

/// Answers a path with the settings `settings`, over the files below `root`.
///
/// It is refused by the first cause in the order of refusals; a path that isn't in the grammar before any call on the store. A failure
/// of the store is `StoreFailed`, want of memory `NoMemory`.
pub fn answer<S: Store>(
    alloc: Global,
    files: &mut S,
    settings: &Settings,
    root: &str,
    path: &[u8],
) -> Result<FlatBody, Refusal>
    ensures told { IfSome (S.content files.old) (λ known.
        IsFlatAnswer (record { settings = settings.now; root = root.now; files = known }) path.now result
        (S.log files.old) (S.log files.new)) }
    // A path that isn't read asks nothing of the store.
    ensures unread { IsErr (readable path.now) → files.new ≡ files.old }
    ensures content { S.content files.new ≡ S.content files.old }
    ensures later { S.faults files.old ≤ S.faults files.new }
    ensures store_failed { IsErrOf result StoreFailed → Rose (S.faults files.old) (S.faults files.new) }
{
    match path_ask(alloc, path) {
        Ok(ask) => answer_ask(alloc, files, settings, root, ask),
        Err(refusal) => Err(refusal),
    }
}

/// What a path asks for. It is refused as `BadPath` where it isn't in the grammar.
pub fn path_ask(alloc: Global, path: &[u8]) -> Result<Ask, Refusal>
    ensures answers { Answers (λ ask. ask) result (readable path.now) }
    ensures ask { IfOk result IsPathAsk }
    ensures none_failed { IfErr result (λ refusal. refusal ≢ StoreFailed) }
    ensures refused { IfErr result IsPathRefusal }
{
    read_path(alloc, path)
}

/// Answers a request, in the same way as its path. Of every store its refusals are those that a path may have, and a transport stream
/// is whole packets of 188 bytes.
pub fn answer_ask<S: Store>(
    alloc: Global,
    files: &mut S,
    settings: &Settings,
    root: &str,
    ask: Ask,
) -> Result<FlatBody, Refusal>
    requires { IsPathAsk ask }
    ensures told { IfSome (S.content files.old) (λ known.
        IsAskAnswer (setup_of settings.now root.now known) ask result (S.log files.old) (S.log files.new)) }
    ensures content { S.content files.new ≡ S.content files.old }
    ensures later { S.faults files.old ≤ S.faults files.new }
    ensures store_failed { IsErrOf result StoreFailed → Rose (S.faults files.old) (S.faults files.new) }
    ensures refused { IfErr result IsPathRefusal }
    ensures packets { is_stream ask.leaf ≡ true → IfOk result IsInPackets }
{
    let leaf = ask.leaf;
    let asking = match asking_of(alloc, files, root, ask) {
        Ok(asking) => asking,
        Err(refusal) => return Err(refusal),
    };
    leaf_answer(alloc, files, settings, root, &asking, leaf)
}
