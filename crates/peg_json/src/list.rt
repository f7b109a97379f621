//! Lists of values, each read under its own path.

ghost use Rattle.std.specs.Prelude.{◌≡◌, map};
ghost use Rattle.serde_json.specs.View.{view as tree_view};
ghost use Rattle.peg_json.specs.code.Tree.{Gives};
ghost use Rattle.peg_json.specs.Tree.{each_from, list_in};

use crate::fault::TreeFault;
use crate::path;
use crate::tree::FromTree;
use serde_json::Value;
use std::alloc::Global;
use values::Text;

/// Room for so many elements at most is asked for before the first of them is read.
const FEW: usize = 16;

/// Each element in turn.
fn elements<T: FromTree>(alloc: Global, items: &[Value], path: &Text) -> Result<Vec<T>, TreeFault>
    ensures { Gives (λ v. map T.seen v.items) result
        (each_from T.reads path.now 0 (map tree_view items.now)) }
{
    let mut out = Vec::with_capacity(alloc, items.len().min(FEW))?;
    let mut place = path::room_in(alloc, path)?;
    let mut index = 0;
    for item in items {
        place = path::at_index(place, path, index)?;
        match T::from_tree(alloc, item, &place) {
            Ok(element) => out.push(element)?,
            Err(e) => return Err(e),
        }
        index += 1;
    }
    Ok(out)
}

/// The elements of a list, under its path.
#[tactic(auto, using(crate::proofs::TreeLemmas::elements_view))]
pub fn list_at<T: FromTree>(alloc: Global, value: &Value, path: &Text) -> Result<Vec<T>, TreeFault>
    ensures { Gives (λ v. map T.seen v.items) result
        (list_in T.reads path.now (tree_view value.now)) }
{
    match value.as_array() {
        Some(items) => elements(alloc, items, path),
        None => Err(TreeFault::WrongKind(path.copied(alloc)?)),
    }
}
