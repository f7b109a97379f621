//! Forms of a document that are left out: each is a fault where it comes.

ghost use Rattle.std.specs.Prelude.{◌≡◌};
ghost use Rattle.serde_json.specs.View.{view as tree_view};
ghost use Rattle.peg_json.specs.code.Tree.{Gives};
ghost use Rattle.peg_json.specs.Refused.{unsupported, value_refused, count_of, elements_refused, flag_refused};

use crate::fault::TreeFault;
use crate::member::present;
use crate::path::at_key;
use crate::typed;
use serde_json::Value;
use std::alloc::Global;
use values::Text;

fn unsupported(alloc: Global, path: &Text, key: &str) -> Result<(), TreeFault>
    ensures { Gives (λ u. u) result (unsupported path.now key.now) }
{
    Err(TreeFault::Unsupported(at_key(alloc, path, key)?, Text::copy_of(alloc, key)?))
}

/// Refuses any value at a key but null.
pub fn refuse_value(alloc: Global, value: &Value, path: &Text, key: &str) -> Result<(), TreeFault>
    ensures { Gives (λ u. u) result (value_refused path.now (tree_view value.now) key.now) }
{
    if present(value, key).is_some() {
        return unsupported(alloc, path, key);
    }
    Ok(())
}

/// How many elements a list has.
#[tactic(auto, using(crate::proofs::TreeLemmas::count_view))]
fn count(alloc: Global, value: &Value, path: &Text) -> Result<usize, TreeFault>
    ensures { Gives (λ n. n) result (count_of path.now (tree_view value.now)) }
{
    match value.as_array() {
        Some(items) => Ok(items.len()),
        None => Err(TreeFault::WrongKind(path.copied(alloc)?)),
    }
}

/// Refuses a list with elements at a key.
pub fn refuse_elements(
    alloc: Global,
    value: &Value,
    path: &Text,
    key: &str,
) -> Result<(), TreeFault>
    ensures { Gives (λ u. u) result (elements_refused path.now (tree_view value.now) key.now) }
{
    match present(value, key) {
        Some(found) => {
            let place = at_key(alloc, path, key)?;
            if 0 < count(alloc, found, &place)? {
                unsupported(alloc, path, key)
            } else {
                Ok(())
            }
        }
        None => Ok(()),
    }
}

/// Refuses a flag that is true at a key.
pub fn refuse_flag(alloc: Global, value: &Value, path: &Text, key: &str) -> Result<(), TreeFault>
    ensures { Gives (λ u. u) result (flag_refused path.now (tree_view value.now) key.now) }
{
    let flag = typed::optional_flag(alloc, value, path, key)?;
    if flag.unwrap_or(false) {
        return unsupported(alloc, path, key);
    }
    Ok(())
}
