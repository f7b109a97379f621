//! Lists that are empty where they are absent.

ghost use Rattle.std.specs.Prelude.{◌≡◌, map};
ghost use Rattle.serde_json.specs.View.{view as tree_view};
ghost use Rattle.peg_json.specs.code.Tree.{Gives};
ghost use Rattle.peg_json.specs.Typed.{list_or_none};

use crate::fault::TreeFault;
use crate::tree::FromTree;
use crate::typed;
use serde_json::Value;
use std::alloc::Global;
use values::{Items, Text};

/// The elements of the list at a key, or none where it is absent.
pub fn list_or_none<T: FromTree>(
    alloc: Global,
    value: &Value,
    path: &Text,
    key: &str,
) -> Result<Items<T>, TreeFault>
    ensures { Gives (λ items. map T.seen items) result
        (list_or_none T.reads path.now (tree_view value.now) key.now) }
{
    match typed::optional_list::<T>(alloc, value, path, key)? {
        Some(list) => Ok(Items::new(list)),
        None => Ok(Items::new(Vec::new(alloc))),
    }
}
