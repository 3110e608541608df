//! The settings of a run.

ghost use Rattle.std.specs.Prelude.{◌≡◌, ◌≢◌, ◌≤◌, Some, IfSome, IsErrOf, codes};
ghost use Rattle.vod_types.specs.declared.refusal.Refusal.TheVariants.{NoFile, NoMemory, StoreFailed};
ghost use Rattle.vod_source.specs.Causes.{Rose};
ghost use Rattle.vod_source.specs.Stored.{size_of};
ghost use Rattle.vod_app.specs.Runs.{AreSettingsRead};

use std::alloc::Global;
use vod_source::Store;
use vod_types::{Name, Refusal, Settings, read_settings};

// The most bytes that a settings file has.
const LONGEST: u64 = 65536;

/// Reads the settings file of this name, whole and at once, or gives all defaults for `-`.
///
/// An absent file is refused as `NoFile`, a broken one by the first rule that it breaks; a file that is longer than 65,536
/// bytes breaks the first rule and isn't read.
pub fn read_named<S: Store>(alloc: Global, store: &mut S, name: &str) -> Result<Settings, Refusal>
    ensures told { IfSome (S.content store.old) (λ files. AreSettingsRead files name.now result (S.log store.old) (S.log store.new)) }
    ensures content { S.content store.new ≡ S.content store.old }
    ensures later { S.faults store.old ≤ S.faults store.new }
    ensures store_failed { IsErrOf result StoreFailed → Rose (S.faults store.old) (S.faults store.new) }
{
    if name == "-" {
        return Ok(Settings::defaults(alloc));
    }
    match store.size(name) {
        Ok(Some(size)) => read_file(alloc, store, name, size),
        Ok(None) => Err(no_file(alloc, name)),
        Err(_) => Err(Refusal::StoreFailed),
    }
}

// Reads a settings file of this size.
fn read_file<S: Store>(
    alloc: Global,
    store: &mut S,
    name: &str,
    size: u64,
) -> Result<Settings, Refusal>
    requires size { IfSome (S.content store.old) (λ files. size_of files name.now ≡ Some size) }
    requires named { name.now ≢ codes "-" }
    ensures told { IfSome (S.content store.old) (λ files. AreSettingsRead files name.now result (S.log store.old) (S.log store.new)) }
    ensures content { S.content store.new ≡ S.content store.old }
    ensures later { S.faults store.old ≤ S.faults store.new }
    ensures store_failed { IsErrOf result StoreFailed → Rose (S.faults store.old) (S.faults store.new) }
{
    if size > LONGEST {
        return Err(Refusal::BadSettings { rule: 1 });
    }
    if size == 0 {
        return read_settings(alloc, &[]);
    }
    match store.lend(name, 0, size as usize) {
        Ok(bytes) => read_settings(alloc, bytes),
        Err(_) => Err(Refusal::StoreFailed),
    }
}

// The refusal of a file that isn't there.
fn no_file(alloc: Global, name: &str) -> Refusal
    ensures absent { result ≢ NoMemory → result ≡ NoFile name.now }
    ensures none_failed { result ≢ StoreFailed }
{
    match Name::new(alloc, name) {
        Ok(name) => Refusal::NoFile { name },
        Err(refusal) => refusal,
    }
}
