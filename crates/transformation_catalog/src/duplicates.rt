//! Transformations that come twice.

ghost use Rattle.std.specs.Prelude.{◌≡◌, None, OnOk};
ghost use Rattle.peg_json.specs.code.ReadFault.{GivesRead};
ghost use Rattle.transformation_catalog.specs.Catalog.{listed_once, repeat_in};

use crate::catalog::TransformationEntry;
use crate::key::Key;
use indexmap::IndexSet;
use peg_json::ReadFault;
use std::alloc::Global;

/// Refuses a transformation that is there before.
pub fn check_listed_once(alloc: Global, entries: &[TransformationEntry]) -> Result<(), ReadFault>
    ensures answer { GivesRead (λ u. u) result (listed_once entries.now) }
    ensures distinct { OnOk result (repeat_in entries.now ≡ None) }
{
    let mut known = IndexSet::new(alloc);
    for entry in entries {
        let key = Key::new(&entry.transformation);
        if known.contains(&key) {
            let name = entry.transformation.name.copied(alloc)?;
            return Err(ReadFault::DuplicateTransformation(name));
        }
        known.insert(key)?;
    }
    Ok(())
}
