//! A text that has to be a given one.

ghost use Rattle.std.specs.Prelude.{◌≡◌};
ghost use Rattle.serde_json.specs.View.{view as tree_view};
ghost use Rattle.peg_json.specs.code.Tree.{Gives};
ghost use Rattle.workflow_reader.specs.Workflow.{constant_at};

use peg_json::typed::lent_text;
use peg_json::{TreeFault, at_key};
use serde_json::Value;
use std::alloc::Global;
use values::Text;

/// Checks that the text at a key is the constant.
pub fn checked_constant(
    alloc: Global,
    value: &Value,
    path: &Text,
    key: &str,
    constant: &str,
) -> Result<(), TreeFault>
    ensures { Gives (λ u. u) result (constant_at constant.now path.now (tree_view value.now) key.now) }
{
    let named = lent_text(alloc, value, path, key)?;
    if named == constant {
        Ok(())
    } else {
        Err(TreeFault::Unsupported(at_key(alloc, path, key)?, Text::copy_of(alloc, named)?))
    }
}
