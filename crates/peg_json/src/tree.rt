//! From bytes to a tree, and from a tree to what it says.

ghost use Rattle.std.specs.Prelude.{List, ℕ, Result};
ghost use Rattle.serde_json.specs.Data.{Data};
ghost use Rattle.serde_json.specs.View.{view as tree_view};
ghost use Rattle.peg_json.specs.code.Tree.{Gives};
ghost use Rattle.peg_json.specs.Tree.{tree_of};
ghost use Rattle.peg_json.specs.declared.fault.TreeFault as declared;

use crate::fault::TreeFault;
use serde_json::Value;
use std::alloc::Global;
use values::Text;

/// The tree that the bytes are.
#[tactic(auto, using(crate::proofs::TreeLemmas::is_tree, crate::proofs::TreeLemmas::no_tree))]
pub fn parse(alloc: Global, bytes: &[u8]) -> Result<Value, TreeFault>
    ensures { Gives tree_view result (tree_of bytes.now) }
{
    match Value::from_slice(alloc, bytes) {
        Ok(value) => Ok(value),
        Err(e) => {
            if e.is_memory() {
                Err(TreeFault::Memory)
            } else {
                Err(TreeFault::Syntax)
            }
        }
    }
}

/// What is read from a tree.
pub trait FromTree: Drop + Sized {
    /// What contracts see of it.
    ghost Seen: { Type 0 };

    ghost seen: { Self → Seen };

    /// What a tree under a path is.
    ghost reads: { List ℕ → Data → Result Seen declared.TreeFault };

    fn from_tree(alloc: Global, value: &Value, path: &Text) -> Result<Self, TreeFault>
        ensures { Gives seen result (reads path.now (tree_view value.now)) };
}
