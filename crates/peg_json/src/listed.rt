//! The paths of the keys that are in no table, below a value.

ghost use Rattle.std.specs.Prelude.{◌≡◌, ◌++◌, List, ℕ, IfOk, OnOk, map};
ghost use Rattle.std.specs.List.Sorted.{IsPermutation, IsSorted};
ghost use Rattle.std.specs.Ordering.{nat_cmp};
ghost use Rattle.std.specs.Cmp.Lexicographic.{slice_cmp};
ghost use Rattle.peg_json.specs.code.Unknown.{unknown_from, unknown_list, unknown_at};
ghost use Rattle.serde_json.specs.Data.{Data};
ghost use Rattle.serde_json.specs.View.{view as tree_view};

use crate::member::present;
use crate::path;
use serde_json::Value;
use std::alloc::Global;
use values::{Memory, Text};

/// A tree whose unknown keys are listed.
pub trait Listed {
    /// The paths of the keys that are in no table.
    ghost unknown: { List ℕ → Data → List (List ℕ) };

    /// Adds them.
    fn gather(alloc: Global, value: &Value, path: &Text, into: &mut Vec<Text>) -> Result<(), Memory>
        ensures { OnOk result
            (into.new.items ≡ into.old.items ++ unknown path.now (tree_view value.now)) };
}

fn gather_elements<T: Listed>(
    alloc: Global,
    items: &[Value],
    path: &Text,
    into: &mut Vec<Text>,
) -> Result<(), Memory>
    ensures { OnOk result
        (into.new.items ≡ into.old.items ++ unknown_from T.unknown path.now 0 (map tree_view items.now)) }
{
    let mut place = path::room_in(alloc, path)?;
    let mut index = 0;
    for item in items {
        place = path::at_index(place, path, index)?;
        T::gather(alloc, item, &place, into)?;
        index += 1;
    }
    Ok(())
}

/// Adds those of a list's elements.
#[tactic(auto, using(crate::proofs::TreeLemmas::elements_view))]
pub fn gather_list<T: Listed>(
    alloc: Global,
    value: &Value,
    path: &Text,
    key: &str,
    into: &mut Vec<Text>,
) -> Result<(), Memory>
    ensures { OnOk result
        (into.new.items ≡ into.old.items ++ unknown_at (unknown_list T.unknown) path.now
        (tree_view value.now) key.now) }
{
    match present(value, key) {
        Some(found) => {
            let place = path::at_key(alloc, path, key)?;
            match found.as_array() {
                Some(items) => gather_elements::<T>(alloc, items, &place, into),
                None => Ok(()),
            }
        }
        None => Ok(()),
    }
}

/// Adds those of a member.
pub fn gather_object<T: Listed>(
    alloc: Global,
    value: &Value,
    path: &Text,
    key: &str,
    into: &mut Vec<Text>,
) -> Result<(), Memory>
    ensures { OnOk result
        (into.new.items ≡ into.old.items ++ unknown_at T.unknown path.now (tree_view value.now) key.now) }
{
    match present(value, key) {
        Some(found) => {
            let place = path::at_key(alloc, path, key)?;
            T::gather(alloc, found, &place, into)
        }
        None => Ok(()),
    }
}

/// The paths of the keys that are in no table, in byte order.
pub fn ignored_below<T: Listed>(
    alloc: Global,
    value: &Value,
    path: &Text,
) -> Result<Vec<Text>, Memory>
    ensures exact { IfOk result
        (λ v. IsPermutation (T.unknown path.now (tree_view value.now)) v.items) }
    ensures order { IfOk result (λ v. IsSorted (slice_cmp nat_cmp) v.items) }
{
    let mut paths = Vec::new(alloc);
    T::gather(alloc, value, path, &mut paths)?;
    paths.sort()?;
    Ok(paths)
}
