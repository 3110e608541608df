//! The names of files in the store.

ghost use Rattle.std.specs.Prelude.{◌≡◌, IfOk, IfErr};
ghost use Rattle.vod_types.specs.Files.{store_name as store_name_of};
ghost use Rattle.vod_types.specs.declared.refusal.Refusal.TheVariants.{NoMemory};

use std::alloc::Global;
use std::string::String;
use vod_types::{Name, Refusal};

/// The store's name of a file below `root`: the root, `/` and the file's name. The only refusal is `NoMemory`.
pub fn store_name(alloc: Global, root: &str, name: &Name) -> Result<Name, Refusal>
    ensures name { IfOk result (λ stored. stored ≡ store_name_of root.now name.now) }
    ensures only { IfErr result (λ refusal. refusal ≡ NoMemory) }
{
    let mut text = String::from_str(alloc, root)?;
    text.push_str("/")?;
    text.push_str(name.as_str())?;
    Name::new(alloc, text.as_str())
}
