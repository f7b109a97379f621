//! Values that stand alone, each under its own path.

ghost use Rattle.std.specs.Prelude.{◌≡◌};
ghost use Rattle.serde_json.specs.View.{view as tree_view};
ghost use Rattle.peg_json.specs.code.Tree.{Gives};
ghost use Rattle.peg_json.specs.Typed.{number_of};

use crate::fault::TreeFault;
use crate::tree::FromTree;
use serde_json::Value;
use std::alloc::Global;
use values::Text;

/// A text that is not empty.
#[derive(Drop)]
pub struct Name(pub Text);

impl FromTree for Name {
    ghost use Rattle.std.specs.Prelude.{List, ℕ};
    ghost use Rattle.peg_json.specs.Typed.{name_of};

    ghost Seen = { List ℕ };

    ghost seen = { λ n. n.0 };

    ghost reads = { name_of };

    fn from_tree(alloc: Global, value: &Value, path: &Text) -> Result<Name, TreeFault> {
        if let Some(text) = value.as_str() {
            if !text.is_empty() {
                return Ok(Name(Text::copy_of(alloc, text)?));
            }
        }
        Err(TreeFault::WrongKind(path.copied(alloc)?))
    }
}

impl FromTree for Value {
    ghost use Rattle.serde_json.specs.Data.{Data};
    ghost use Rattle.peg_json.specs.Typed.{any_of};

    ghost Seen = { Data };

    ghost seen = { tree_view };

    ghost reads = { any_of };

    fn from_tree(_alloc: Global, value: &Value, _path: &Text) -> Result<Value, TreeFault> {
        Ok(value.clone()?)
    }
}

/// A whole number of at most `limit`.
pub fn number_at(alloc: Global, value: &Value, path: &Text, limit: u64) -> Result<u64, TreeFault>
    ensures { Gives (λ n. n) result (number_of limit path.now (tree_view value.now)) }
{
    match value.as_u64() {
        Some(n) => {
            if limit < n {
                Err(TreeFault::OutOfRange(path.copied(alloc)?, n))
            } else {
                Ok(n)
            }
        }
        None => Err(TreeFault::WrongKind(path.copied(alloc)?)),
    }
}
